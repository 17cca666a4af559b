ghost use Rattle.std.specs.Prelude.{◌≡◌};
ghost use Rattle.scc_drive_errors.specs.declared.stopped.Stopped.TheVariants as stopped;

use crate::spots::Spot;
use scc_base::{Code, NoMemory, Text};

/// Why a command has no output.
#[derive(Drop)]
pub enum Stopped {
    /// The words are no command.
    BadWords,
    /// A refusal, where it stands, and the second place of which it speaks.
    Refused {
        code: Code,
        spot: Spot,
        other: Option<Spot>,
    },
    /// The file of this name is missing.
    Missing(Text),
    /// The file of this name could not be read.
    Failed(Text),
    /// Memory ran out.
    NoMemory,
}

impl From<NoMemory> for Stopped {
    ghost from_gives = { λ _ e. e ≡ stopped.NoMemory };

    fn from(_: NoMemory) -> Stopped {
        Stopped::NoMemory
    }
}
