//! Objects by number, and what stands at a path.
ghost use Rattle.std.specs.Prelude.{◌≡◌, ◌<◌, ◌≤◌, ◌++◌, [], ◌∷◌, length, nat_le, map, option_map, slice_get, OnOk, OnErr, unwrap_or, IfOk};
ghost use Rattle.scc_elab_spec.specs.Grown.{bits_of as node_bits};
ghost use Rattle.scc_elab_store.specs.Locations.{location_of};
ghost use Rattle.scc_elab_grown.specs.Objects.{first_number, Keeps, node_of, noted, nothing_here, object_of, stands_at};

use indexmap::IndexMap;
use scc_base::{NoMemory, Place, push};
use scc_bits::{Kind, width};
use scc_elab_store::{Location, Part};
use std::alloc::Global;
use std::marker::Model;

const MOST: usize = 65_536;

/// What an object is: one of a class, or a thing.
#[derive(Clone, Copy)]
pub enum Node {
    Class(u32),
    /// A port, and its own number.
    Port { kind: Kind, output: bool, root: u32 },
    Signal(Kind),
    Variable(Kind),
    /// A pointer or reference.
    Pointer,
}

impl Node {
    /// How many bits count as storage.
    pub fn bits(self) -> u32
        ensures { result ≡ node_bits (node_of self) }
    {
        match self {
            Node::Class(_) => 0,
            Node::Port { .. } => 0,
            Node::Signal(kind) => width(kind),
            Node::Variable(kind) => width(kind),
            Node::Pointer => 0,
        }
    }
}

/// An object, at a path below the top.
pub struct Object {
    pub path: Vec<Part>,
    pub place: Place,
    pub node: Node,
}

impl Drop for Object {
    fn drop(self) {
        let Object {
            path: _path,
            place: _place,
            node: _node,
        } = self;
    }
}

/// What stands at a path: the first port, signal or variable, the first pointer or reference, and whether an object of a class does.
#[derive(Clone, Copy)]
pub struct Here {
    pub thing: Option<u32>,
    pub pointer: Option<u32>,
    pub has_class: bool,
}

// What stands there when one more object does, of that number.
fn with_node(here: Here, number: u32, node: Node) -> Here
    ensures { result ≡ noted number (node_of node) here }
{
    match node {
        Node::Class(_) => Here {
            thing: here.thing,
            pointer: here.pointer,
            has_class: true,
        },
        Node::Pointer => Here {
            thing: here.thing,
            pointer: first(here.pointer, number),
            has_class: here.has_class,
        },
        Node::Port { .. } => with_thing(here, number),
        Node::Signal(_) => with_thing(here, number),
        Node::Variable(_) => with_thing(here, number),
    }
}

fn with_thing(here: Here, number: u32) -> Here
    ensures { result ≡ record { thing = first_number here.thing number; pointer = here.pointer; has_class = here.has_class } }
{
    Here {
        thing: first(here.thing, number),
        pointer: here.pointer,
        has_class: here.has_class,
    }
}

fn first(before: Option<u32>, number: u32) -> Option<u32>
    ensures { result ≡ first_number before number }
{
    match before {
        Some(n) => Some(n),
        None => Some(number),
    }
}

/// Objects by number, at most 65,536, with what stands at each path.
pub struct Objects {
    list: Vec<Object>,
    by_path: IndexMap<Location, Here>,
}

impl Drop for Objects {
    fn drop(self) {
        let Objects {
            list: _list,
            by_path: _by_path,
        } = self;
    }
}

impl Model for Objects {
    ghost use Rattle.std.specs.Prelude.{List};
    ghost use Rattle.scc_elab_grown.specs.declared.objects.Object.{Object};
    ghost use Rattle.scc_elab_grown.specs.Objects.{Keeps};

    ghost Value = { List Object };

    ghost view = { λ t. t.list.items };

    ghost invariant = { λ t. Keeps t.list.items t.by_path.entries };
}

impl Objects {
    /// None.
    pub fn new(alloc: Global) -> Objects
        ensures { result ≡ [] }
    {
        Objects {
            list: Vec::new(alloc),
            by_path: IndexMap::new(alloc),
        }
    }

    /// Whether there may be no more.
    pub fn is_full(&self) -> bool
        ensures full { result ≡ nat_le 65536 (length self.now) }
        ensures few { length self.now ≤ 65536 }
    {
        MOST <= self.list.len()
    }

    /// The objects in the order of their numbers.
    pub fn as_slice(&self) -> &[Object]
        ensures objects { result.now ≡ self.now }
        ensures few { length self.now ≤ 65536 }
    {
        self.list.as_slice()
    }

    /// What stands at a location; nothing at a local variable.
    #[tactic(auto, using(crate::proofs::Standing::found_here))]
    pub fn here(&self, at: &Location) -> Here
        ensures { result ≡ stands_at (map object_of self.now) (location_of at.now) (location_of at.now).root }
    {
        found(self.by_path.get(at).copied())
    }

    /// Adds an object below the top.
    pub fn add(&mut self, alloc: Global, object: Object) -> Result<(), NoMemory>
        requires { length self.old < 65536 }
        ensures { OnOk result (self.new ≡ self.old ++ object ∷ []) }
    {
        let number = self.list.len() as u32;
        let at = Location::below(alloc, object.path.as_slice())?;
        let here = with_node(self.here(&at), number, object.node);
        push(&mut self.list, object)?;
        if let Err(failed) = self.by_path.insert(at, here) {
            let _object = self.list.pop();
            return Err(NoMemory::from(failed));
        }
        Ok(())
    }
}

fn found(here: Option<Here>) -> Here
    ensures { result ≡ unwrap_or here nothing_here }
{
    match here {
        Some(here) => here,
        None => Here {
            thing: None,
            pointer: None,
            has_class: false,
        },
    }
}
