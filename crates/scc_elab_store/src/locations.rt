//! Locations: a path from the top, whether an object is there or not, or a local variable of a constructor that runs, with
//! indices.
ghost use Rattle.std.specs.Prelude.{◌≡◌, [], map, IfOk, OnOk};
ghost use Rattle.scc_semantics.specs.Location.{Top, Local, within};
ghost use Rattle.scc_elab_store.specs.Locations.{location_of, part_of};

use scc_base::{Name, NoMemory, push};
use std::alloc::Global;

/// A local variable of the constructor of an object.
#[derive(Clone, Copy, PartialEq, Eq, Hash)]
pub struct LocalOf {
    pub object: u32,
    pub local: u32,
}

/// A step of a path. An index is one of 128 bits, as an expression gives it.
#[derive(Clone, Copy, PartialEq, Eq, Hash)]
pub enum Part {
    Member(Name),
    Element(u128),
}

/// A location: below the top, or in a local variable.
#[derive(PartialEq, Eq, Hash)]
pub struct Location {
    pub local: Option<LocalOf>,
    pub path: Vec<Part>,
}

impl Drop for Location {
    fn drop(self) {
        let Location {
            local: _local,
            path: _path,
        } = self;
    }
}

impl Location {
    /// The top.
    pub fn top(alloc: Global) -> Location
        ensures { location_of result ≡ record { root = Top; path = [] } }
    {
        Location {
            local: None,
            path: Vec::new(alloc),
        }
    }

    /// The location of that path below the top.
    pub fn below(alloc: Global, path: &[Part]) -> Result<Location, NoMemory>
        ensures { IfOk result (λ l. location_of l ≡ record { root = Top; path = map part_of path.now }) }
    {
        Ok(Location {
            local: None,
            path: Vec::from_slice(alloc, path)?,
        })
    }

    /// A local variable.
    pub fn local(alloc: Global, of: LocalOf) -> Location
        ensures { location_of result ≡ record { root = Local of.object [] of.local; path = [] } }
    {
        Location {
            local: Some(of),
            path: Vec::new(alloc),
        }
    }

    /// An equal location.
    pub fn copied(&self, alloc: Global) -> Result<Location, NoMemory>
        ensures { IfOk result (λ l. location_of l ≡ location_of self.now) }
    {
        Ok(Location {
            local: self.local,
            path: Vec::from_slice(alloc, self.path.as_slice())?,
        })
    }

    /// Goes to a part of what stands there.
    pub fn enter(&mut self, part: Part) -> Result<(), NoMemory>
        ensures ok { OnOk result (location_of self.new ≡ within (location_of self.old) (part_of part)) }
    {
        push(&mut self.path, part)
    }
}
