//! Objects while construction runs, and its limits.
ghost use Rattle.std.specs.Prelude.{◌≡◌};
ghost use Rattle.scc_elab_state.specs.Things.{sort_bits};

use crate::spots::SpotId;
use scc_base::Place;
use scc_bits::{Kind, Value, width};

/// The most objects.
pub const MOST_OBJECTS: usize = 65_536;
/// The most parts of an object's path.
pub const MOST_PARTS: u32 = 64;
/// The most bits of signals and variables.
pub const MOST_BITS: u32 = 1_048_576;
/// The most turns of loops.
pub const MOST_TURNS: u32 = 65_536;
/// The most clocks.
pub const MOST_CLOCKS: usize = 128;

/// An object.
#[derive(Clone, Copy)]
pub struct Thing {
    pub spot: SpotId,
    pub place: Place,
    pub sort: ThingSort,
}

impl Thing {
    /// The object of a sort at a location.
    pub fn new(spot: SpotId, place: Place, sort: ThingSort) -> Thing
        ensures { result.sort ≡ sort }
    {
        Thing { spot, place, sort }
    }
}

#[derive(Clone, Copy)]
pub enum ThingSort {
    /// An object of the class of that number.
    Module(u32),
    Port {
        kind: Kind,
        output: bool,
        bound: Option<Bound>,
    },
    Signal(Kind),
    Variable(Value),
    /// A pointer or reference, and where it leads; None for null.
    Pointer(Option<SpotId>),
}

impl ThingSort {
    /// How many bits count as storage.
    pub fn bits(self) -> u32
        ensures { result ≡ sort_bits self }
    {
        match self {
            ThingSort::Module(_) => 0,
            ThingSort::Port { .. } => 0,
            ThingSort::Signal(kind) => width(kind),
            ThingSort::Variable(value) => width(value.kind()),
            ThingSort::Pointer(_) => 0,
        }
    }
}

/// To what a port is bound, and where.
#[derive(Clone, Copy)]
pub struct Bound {
    pub to: u32,
    pub at: Place,
}
