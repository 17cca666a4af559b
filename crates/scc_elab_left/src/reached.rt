//! The first object of a class or thing at each path: what a pointer reaches.
ghost use Rattle.std.specs.Prelude.{◌≡◌, ◌++◌, ◌∷◌, [], length, slice_get, option_map, IfOk, OnOk, List};
ghost use Rattle.std.specs.Option.{option_copied};
ghost use Rattle.scc_elab_grown.specs.Grown.{grown_of};
ghost use Rattle.scc_elab_grown.specs.Objects.{node_of, object_of};
ghost use Rattle.scc_elab_left.specs.Reached.{Reaches, reached_from};
ghost use Rattle.scc_elab_spec.specs.Design.{Object as Standing};
ghost use Rattle.scc_elab_spec.specs.Elaborated.{is_reached as is_reached_node};
ghost use Rattle.scc_elab_store.specs.Locations.{location_of};
ghost use Rattle.scc_elab_store.specs.Stores.{entry_at};

use indexmap::IndexMap;
use scc_base::{NoMemory, lost};
use scc_elab_grown::{Grown, Node, Object};
use scc_elab_store::Location;
use std::alloc::Global;

/// Numbers of objects by paths.
pub struct Reached {
    pub by_path: IndexMap<Location, u32>,
}

impl Drop for Reached {
    fn drop(self) {
        let Reached { by_path: _by_path } = self;
    }
}

fn is_reached(node: Node) -> bool
    ensures { result ≡ is_reached_node (node_of node) }
{
    match node {
        Node::Class(_) => true,
        Node::Port { .. } => true,
        Node::Signal(_) => true,
        Node::Variable(_) => true,
        Node::Pointer => false,
    }
}

#[tactic(auto, using(scc_elab_store::proofs::Same::entry_is))]
fn known(reached: &Reached, at: &Location) -> Option<u32>
    ensures { result ≡ entry_at reached.now.by_path.entries (location_of at.now) }
{
    reached.by_path.get(at).copied()
}

// One more object.
fn note(alloc: Global, reached: &mut Reached, number: u32, object: &Object) -> Result<(), NoMemory>
    ensures { OnOk result ((os : List Standing) → length os ≡ number → Reaches os reached.old.by_path.entries → Reaches (os ++ object_of object.now ∷ []) reached.new.by_path.entries) }
{
    if !is_reached(object.node) {
        return Ok(());
    }
    let at = Location::below(alloc, object.path.as_slice())?;
    if known(reached, &at).is_some() {
        return Ok(());
    }
    reached.by_path.insert(at, number)?;
    Ok(())
}

/// The object of a number.
pub fn object_at(g: &Grown, number: u32) -> Option<&Object>
    ensures { option_copied result ≡ slice_get g.now.objects number }
{
    g.objects.as_slice().get(number as usize)
}

/// How many objects there are.
pub fn count(g: &Grown) -> u32
    ensures { result ≡ length g.now.objects }
{
    g.objects.as_slice().len() as u32
}

/// All that pointers may reach.
pub fn reached_in(g: &Grown) -> Result<Reached, NoMemory>
    ensures { IfOk result (λ r. Reaches (grown_of g.now).objects r.by_path.entries) }
{
    let mut reached = Reached {
        by_path: IndexMap::new(g.alloc),
    };
    for number in 0..count(g) {
        let Some(object) = object_at(g, number) else {
            return Err(lost());
        };
        note(g.alloc, &mut reached, number, object)?;
    }
    Ok(reached)
}

/// The object at which a pointer leads, if one stands there.
pub fn reached_by(reached: &Reached, to: &Option<Location>) -> Option<u32>
    ensures { (os : List Standing) → Reaches os reached.now.by_path.entries → result ≡ reached_from os (option_map location_of to.now) }
{
    match to {
        Some(at) => {
            if at.local.is_none() {
                known(reached, at)
            } else {
                None
            }
        }
        None => None,
    }
}
