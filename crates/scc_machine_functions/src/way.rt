//! Locations, as code finds them.
use scc_bits::Kind;
use scc_machine_code::{Label, NOWHERE, Operand, Place};
use scc_plain_tree::{Base, PlainMember, Reach};

/// How a location is taken.
#[derive(Clone, Copy)]
pub struct Way {
    /// Where code goes on behind null, where what lies behind null is null; else following null is no step of any run.
    pub soft: Option<Label>,
    /// A reference at the end isn't followed, since it is to be given something.
    pub raw: bool,
}

/// A location that is read or written.
pub const FIRM: Way = Way {
    soft: None,
    raw: false,
};

/// A pointer or reference that is given something.
pub const RAW: Way = Way {
    soft: None,
    raw: true,
};

impl Way {
    /// A target or the object of a call.
    pub fn soft(end: Label) -> Way {
        Way {
            soft: Some(end),
            raw: false,
        }
    }
}

/// A location with what its declaration says of it.
#[derive(Clone, Copy)]
pub struct Located<'t> {
    pub at: Place,
    /// None for the result of a call.
    pub base: Option<Base>,
    /// The sizes of the arrays whose indices are still to come.
    pub sizes: &'t [u32],
    /// Whether it is a vector, or a pointer or reference to one.
    pub vector: bool,
    /// Whether it is a pointer or reference.
    pub pointer: bool,
}

impl<'t> Located<'t> {
    /// One thing at a place.
    pub fn one(at: Place, base: Option<Base>) -> Located<'t> {
        Located {
            at,
            base,
            sizes: &[],
            vector: false,
            pointer: false,
        }
    }

    /// What is declared so, in the slots from a place on.
    pub fn declared(at: Place, member: &'t PlainMember) -> Located<'t> {
        Located {
            at,
            base: Some(member.shape.base),
            sizes: member.shape.sizes.as_slice(),
            vector: member.shape.vector,
            pointer: member.shape.reach != Reach::Direct,
        }
    }

    /// Whether it is one thing: no array, vector or pointer.
    pub fn is_whole(&self) -> bool {
        self.sizes.is_empty() && !self.vector && !self.pointer
    }
}

/// A value of an expression: the word of its kind.
#[derive(Clone, Copy)]
pub struct Valued {
    pub at: Operand,
    pub kind: Kind,
    /// The word itself where it is a constant.
    pub known: Option<u128>,
}

/// So many slots after a place that is no location in between; nowhere for more than there may be.
pub fn beyond(at: Place, by: u32) -> Place {
    match at {
        Place::Local(first) => Place::Local(first.saturating_add(by).min(NOWHERE)),
        Place::Member(first) => Place::Member(first.saturating_add(by).min(NOWHERE)),
        Place::Spot(spot) => Place::Spot(spot),
    }
}

/// Whether a place is a location in between.
pub fn is_spot(at: Place) -> bool {
    matches!(at, Place::Spot(_))
}
