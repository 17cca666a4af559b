ghost use Rattle.std.specs.Prelude.{◌≡◌, None, Some};
ghost use Rattle.scc_base.specs.declared.refusal.Stop.TheVariants as stop;

use crate::{Code, NoMemory};
use thiserror::Error;

/// A place in a file: one of its bytes, or its end.
#[derive(Clone, Copy, Debug, PartialEq, Eq, Hash)]
pub struct Place {
    /// The file, counted from 0 in the order in which files were first asked for.
    pub file: u32,
    /// The byte, counted from 0. The length of the file stands for its end.
    pub at: u32,
}

/// Why a text is refused, and where.
#[derive(Clone, Copy, Debug, PartialEq, Eq)]
pub struct Refusal {
    pub code: Code,
    /// The first byte of what is refused.
    pub place: Place,
    /// A second place that the code speaks of, as the first of two declarations.
    pub other: Option<Place>,
}

/// Why a stage of the compiler has no answer.
#[derive(Debug, Drop, Error)]
pub enum Stop {
    /// What it was given is refused.
    #[error("the source is refused")]
    Refused(Refusal),
    /// Memory ran out.
    #[error("no memory")]
    NoMemory,
}

impl Stop {
    /// The refusal of what stands at a place.
    pub fn refused(code: Code, place: Place) -> Stop
        ensures { result ≡ stop.Refused (record { code = code; place = place; other = None }) }
    {
        Stop::Refused(Refusal {
            code,
            place,
            other: None,
        })
    }

    /// The refusal of what stands at a place because of what stands at another.
    pub fn refused_beside(code: Code, place: Place, other: Place) -> Stop
        ensures { result ≡ stop.Refused (record { code = code; place = place; other = Some other }) }
    {
        Stop::Refused(Refusal {
            code,
            place,
            other: Some(other),
        })
    }
}

impl From<NoMemory> for Stop {
    ghost from_gives = { λ _ e. e ≡ stop.NoMemory };

    fn from(_: NoMemory) -> Stop {
        Stop::NoMemory
    }
}
