ghost use Rattle.std.specs.Prelude.{◌≡◌, ◌≤◌};

use std::marker::Model;

/// How the program ends: 0 done, 1 refused, 2 bad words, 3 a file missing or failed, 4 no memory, 5 an output failed.
/// There are no others.
#[derive(Clone, Copy)]
pub struct Status(u8);

impl Model for Status {
    ghost use Rattle.std.specs.Prelude.{ℕ, ◌≤◌};

    ghost Value = { ℕ };

    ghost view = { λ s. s.0 };

    ghost invariant = { λ s. s.0 ≤ 5 };

    ghost inverse = { λ n. record { 0 = n } };
}

impl Status {
    /// The status of this number, which is 0 to 5.
    pub fn new(number: u8) -> Status
        requires { number ≤ 5 }
        ensures number { result ≡ number }
    {
        Status(number)
    }

    /// Its number, with which the program ends.
    pub fn number(self) -> u8
        ensures number { result ≡ self }
        ensures few { result ≤ 5 }
    {
        self.0
    }
}
