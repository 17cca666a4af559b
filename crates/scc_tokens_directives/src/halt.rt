//! Why joining stops.
ghost use Rattle.std.specs.Prelude.{◌≡◌};
ghost use Rattle.scc_tokens_directives.specs.declared.halt.Halt.TheVariants as halt;

use scc_base::{Code, NoMemory, Place, Text};

/// Why joining stops.
#[derive(Drop)]
pub enum Halt {
    /// One of E101 to E110.
    Refused { code: Code, place: Place },
    /// No file has the name.
    Missing(Text),
    /// The file of the name was not read.
    Failed(Text),
    NoMemory,
}

impl From<NoMemory> for Halt {
    ghost from_gives = { λ _ e. e ≡ halt.NoMemory };

    fn from(_: NoMemory) -> Halt {
        Halt::NoMemory
    }
}
