ghost use Rattle.std.specs.Prelude.{ℕ, ◌≡◌, ◌≤◌, List, Option};
ghost use Rattle.lload_outside.specs.Causes.{Rose};
ghost use Rattle.lload_outside.specs.Told.{Writes};

/// What a write answers.
#[derive(Clone, Copy, Debug, PartialEq, Eq, Drop)]
pub enum Given {
    /// So many bytes from the front of the piece were taken.
    Put(usize),
    /// The sink failed; it took nothing.
    Failed,
    /// A sink in memory found no memory; it took nothing.
    NoMemory,
}

/// Where bytes go to.
pub trait Sink {
    /// The bytes that were taken; `None` where the sink doesn't tell them.
    ghost written: { Self → Option (List ℕ) };

    /// How often the sink failed.
    ghost faults: { Self → ℕ };

    /// Takes bytes from the front of the piece: at least 1 of a piece that isn't empty. A device that takes none of
    /// such a piece has failed.
    fn write(&mut self, piece: &[u8]) -> Given
        ensures never_falls { faults self.old ≤ faults self.new }
        ensures failed { result ≡ Given.Failed → Rose (faults self.old) (faults self.new) }
        ensures no_memory { result ≡ Given.NoMemory → faults self.new ≡ faults self.old }
        ensures appended { Writes (written self.old) (written self.new) piece.now result };
}
