//! What ports are bound to, and where `new` was assigned.
ghost use Rattle.std.specs.Prelude.{◌≡◌, false, OnOk, None, option_map};
ghost use Rattle.scc_elab_store.specs.Locations.{location_of};
ghost use Rattle.scc_elab_grown.specs.Bounds.{bound_in, bound_to, made_in, IsPut, IsMarked};

use indexmap::IndexMap;
use scc_base::{NoMemory, Place};
use scc_elab_store::Location;
use std::alloc::Global;

/// The object to which a port is bound, and where.
#[derive(Clone, Copy)]
pub struct BoundTo {
    pub to: u32,
    pub place: Place,
}

/// Bindings by the numbers of ports.
pub struct Bounds {
    pub by_port: IndexMap<u32, BoundTo>,
}

impl Drop for Bounds {
    fn drop(self) {
        let Bounds { by_port: _by_port } = self;
    }
}

impl Bounds {
    /// None.
    pub fn new(alloc: Global) -> Bounds
        ensures { bound_in result.by_port.entries ≡ (λ n. None) }
    {
        Bounds {
            by_port: IndexMap::new(alloc),
        }
    }

    /// The binding of a port.
    pub fn of(&self, port: u32) -> Option<BoundTo>
        ensures { option_map (bound_to port) result ≡ bound_in self.now.by_port.entries port }
    {
        self.by_port.get(&port).copied()
    }

    /// Binds a port.
    #[tactic(auto, using(crate::proofs::Putting::bound_put))]
    pub fn bind(&mut self, port: u32, bound: BoundTo) -> Result<(), NoMemory>
        ensures { OnOk result (IsPut (bound_in self.old.by_port.entries) (bound_to port bound) (bound_in self.new.by_port.entries)) }
    {
        self.by_port.insert(port, bound)?;
        Ok(())
    }
}

/// The pointers to which `new` was assigned.
pub struct News {
    pub at: IndexMap<Location, bool>,
}

impl Drop for News {
    fn drop(self) {
        let News { at: _at } = self;
    }
}

impl News {
    /// None.
    pub fn new(alloc: Global) -> News
        ensures { made_in result.at.entries ≡ (λ path. false) }
    {
        News {
            at: IndexMap::new(alloc),
        }
    }

    /// Whether `new` was assigned to a location below the top.
    #[tactic(auto, using(crate::proofs::Putting::is_made))]
    pub fn has(&self, at: &Location) -> bool
        requires { at.now.local ≡ None }
        ensures { result ≡ made_in self.now.at.entries (location_of at.now).path }
    {
        self.at.get(at).is_some()
    }

    /// Notes a `new`.
    #[tactic(auto, using(crate::proofs::Putting::made_put))]
    pub fn note(&mut self, at: Location) -> Result<(), NoMemory>
        requires { at.local ≡ None }
        ensures { OnOk result (IsMarked (made_in self.old.at.entries) (location_of at).path (made_in self.new.at.entries)) }
    {
        self.at.insert(at, true)?;
        Ok(())
    }
}
