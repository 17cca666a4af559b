//! Objects of classes by their paths, and the innermost one round a path.
ghost use Rattle.std.specs.Prelude.{◌≡◌, ◌≤◌, List, [], None, length, take, map, IfOk, OnOk};
ghost use Rattle.scc_core.specs.Names.{step_of};
ghost use Rattle.scc_core.specs.Tables.{IsTree};
ghost use Rattle.scc_elab_design.specs.declared.Object.{Object as Standing};
ghost use Rattle.scc_inline_cells.specs.Homes.{AreHomes, AddsHome, class_from, deepest};

use scc_base::{List, NoMemory, Path, PathPart};
use scc_core::{CellName, Places};
use scc_elab_design::{Design, Object, ObjectNode};
use std::alloc::Global;

/// The classes of objects by their paths.
pub struct Homes {
    places: Places,
}

impl Drop for Homes {
    fn drop(self) {
        let Homes { places: _places } = self;
    }
}

/// The length of an object's path, and its class.
#[derive(Clone, Copy)]
pub struct Home {
    pub at: usize,
    pub class: u32,
}

/// The name of an object's cell.
pub fn named(alloc: Global, path: &[PathPart]) -> Result<CellName, NoMemory>
    ensures { IfOk result (λ n. n ≡ record { path = path.now; local = None; indices = [] }) }
{
    Ok(CellName {
        path: Path::of(alloc, path)?,
        local: None,
        indices: List::new(alloc),
    })
}

// The first parts of a path.
fn front(path: &[PathPart], k: usize) -> &[PathPart]
    requires { k ≤ length path.now }
    ensures { result.now ≡ take k path.now }
{
    &path[..k]
}

impl Homes {
    /// The objects of classes of a design.
    pub fn of(alloc: Global, d: &Design) -> Result<Homes, NoMemory>
        ensures { IfOk result (λ h. AreHomes h d.now.objects) }
    {
        let mut homes = Homes {
            places: Places::new(alloc)?,
        };
        homes.fill(alloc, d.objects.as_slice())?;
        Ok(homes)
    }

    fn fill(&mut self, alloc: Global, objects: &[Object]) -> Result<(), NoMemory>
        ensures { AreHomes self.old [] → OnOk result (AreHomes self.new objects.now) }
    {
        for object in objects {
            self.add(alloc, object)?;
        }
        Ok(())
    }

    fn add(&mut self, alloc: Global, object: &Object) -> Result<(), NoMemory>
        ensures { IsTree self.old.places → OnOk result (AddsHome self.old self.new object.now) }
    {
        match object.node {
            ObjectNode::Module(class) => {
                let name = named(alloc, object.path.as_slice())?;
                self.places.add(&name, class, false)
            }
            ObjectNode::Port { .. } => Ok(()),
            ObjectNode::Signal(_) => Ok(()),
            ObjectNode::Variable { .. } => Ok(()),
            ObjectNode::Pointer(_) => Ok(()),
        }
    }

    // The class of the first object at a path.
    fn class_at(&self, path: &[PathPart]) -> Option<u32>
        ensures { (os : List Standing) → AreHomes self.now os → result ≡ class_from (map step_of path.now) os }
    {
        match self.places.path(path) {
            Some(at) => self.places.cell(at),
            None => None,
        }
    }

    /// The innermost object of a class round a path.
    pub fn parent(&self, path: &[PathPart]) -> Option<Home>
        ensures { (os : List Standing) → AreHomes self.now os → result ≡ deepest os path.now (length path.now) }
    {
        let mut k = path.len();
        while k > 0 {
            k -= 1;
            match self.class_at(front(path, k)) {
                Some(class) => return Some(Home { at: k, class }),
                None => {}
            }
        }
        None
    }
}
