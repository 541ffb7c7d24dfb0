ghost use Rattle.std.specs.Prelude.{ℕ, ◌≡◌, ◌≤◌, ◌<◌, List, Option, length};
ghost use Rattle.lload_outside.specs.Causes.{Rose};
ghost use Rattle.lload_outside.specs.Told.{Reads};

/// What a read answers.
#[derive(Clone, Copy, Debug, PartialEq, Eq, Drop)]
pub enum Taken {
    /// So many bytes were moved to the front of the buffer.
    Got(usize),
    /// Nothing is left.
    End,
    /// The source failed.
    Failed,
}

/// Where bytes come from.
pub trait Source {
    /// The bytes that are left; `None` where the source doesn't tell them.
    ghost left: { Self → Option (List ℕ) };

    /// How often the source failed.
    ghost faults: { Self → ℕ };

    /// Moves the next bytes to the front of the buffer: at least 1, and at most as many as the buffer has. What
    /// stands in the buffer behind these bytes, or after another answer, is left open.
    fn read(&mut self, buf: &mut [u8]) -> Taken
        requires { 0 < length buf.old }
        ensures never_falls { faults self.old ≤ faults self.new }
        ensures failed { result ≡ Taken.Failed → Rose (faults self.old) (faults self.new) }
        ensures moved { Reads (left self.old) (left self.new) buf.new result };
}
