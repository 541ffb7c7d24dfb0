ghost use Rattle.std.specs.Prelude.{◌≡◌};
ghost use Rattle.lload_outside.specs.Calls.{fails_next, after_call};

use lload_names::Body;
use std::marker::Model;

/// Which calls of an object in memory fail: byte k isn't 0 where call k fails, counted from 0. Later calls don't fail.
#[derive(Debug, Drop)]
pub struct Calls {
    failing: Body,
    made: usize,
}

impl Model for Calls {
    ghost use Rattle.std.specs.Prelude.{◌≤◌, length};
    ghost use Rattle.lload_outside.specs.Calls.{CallPlan, plan_at};

    ghost Value = { CallPlan };

    ghost view = { λ c. plan_at c.failing c.made };

    ghost invariant = { λ c. c.made ≤ length c.failing };
}

impl Calls {
    /// None of these calls was made yet. It takes no memory.
    pub fn new(failing: Body) -> Calls
        ensures { result ≡ record { to_come = failing; failed = 0 } }
    {
        Calls { failing, made: 0 }
    }

    /// Whether the next call fails.
    pub fn fails(&self) -> bool
        ensures { result ≡ fails_next self.now.to_come }
    {
        match self.failing.get(self.made) {
            Some(byte) => *byte != 0,
            None => false,
        }
    }

    /// The next call was made.
    pub fn pass(&mut self)
        ensures { self.new ≡ after_call self.old }
    {
        if self.made < self.failing.len() {
            self.made += 1;
        }
    }
}
