//! Turns of the loops of constructors.
ghost use Rattle.std.specs.Prelude.{◌≡◌, ◌+◌, ◌≤◌, IsTrue, ◌↔◌, if◌then◌else◌, nat_le, not};

use std::marker::Model;

const MOST: u32 = 65_536;

/// How many turns began, at most 65,536.
pub struct Turns(u32);

impl Drop for Turns {
    fn drop(self) {
        let Turns(_count) = self;
    }
}

impl Model for Turns {
    ghost use Rattle.std.specs.Prelude.{ℕ, ◌≤◌};

    ghost Value = { ℕ };

    ghost view = { λ t. t.0 };

    ghost invariant = { λ t. t.0 ≤ 65536 };
}

impl Turns {
    /// None.
    pub fn new() -> Turns
        ensures { result ≡ 0 }
    {
        Turns(0)
    }

    /// Counts one more, if there may be one.
    pub fn begin(&mut self) -> bool
        ensures may { result ≡ not (nat_le 65536 self.old) }
        ensures count { self.new ≡ (if nat_le 65536 self.old then self.old else self.old + 1) }
        ensures most { self.new ≤ 65536 }
    {
        if MOST <= self.0 {
            return false;
        }
        self.0 += 1;
        true
    }

    /// So many are allowed and no more.
    pub fn count(&self) -> u32
        ensures count { result ≡ self.now }
        ensures most { self.now ≤ 65536 }
    {
        self.0
    }
}
