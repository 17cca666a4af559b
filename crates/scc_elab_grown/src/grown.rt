//! What is made so far, and each change of it.
ghost use Rattle.std.specs.Prelude.{◌≡◌, ◌++◌, ◌∷◌, [], map, not, nat_le, None, option_map, OnOk, IfOk, if◌then◌else◌};
ghost use Rattle.scc_elab_spec.specs.Binding.{changed_at, runs_already, with_items as given_items, with_reset as given_reset};
ghost use Rattle.scc_elab_spec.specs.Grown.{added, nothing, node_of as node_in, pointer_at, thing_at, with_bound, with_declared, with_made, with_target, with_turn, with_vector, with_word};
ghost use Rattle.scc_elab_store.specs.Locations.{location_of, part_of};
ghost use Rattle.scc_elab_store.specs.Stores.{store_of};
ghost use Rattle.scc_elab_grown.specs.Bounds.{bound_to};
ghost use Rattle.scc_elab_grown.specs.Grown.{Grows, grown_of};
ghost use Rattle.scc_elab_grown.specs.Objects.{node_of};
ghost use Rattle.scc_elab_grown.specs.Records.{item_of, record_of, reset_of};

use crate::bounds::{BoundTo, Bounds, News};
use crate::objects::{Node, Object, Objects};
use crate::records::{Item, Record, Records, ResetItem};
use crate::turns::Turns;
use scc_base::{Code, NoMemory, Place, Stop, push};
use scc_elab_store::{Location, Part, Store};
use std::alloc::Global;

const MOST_PARTS: usize = 64;

const MOST_BITS: u64 = 1_048_576;

/// A vector and the number of its elements.
pub struct VectorAt {
    pub path: Vec<Part>,
    pub size: u128,
}

impl Drop for VectorAt {
    fn drop(self) {
        let VectorAt {
            path: _path,
            size: _size,
        } = self;
    }
}

/// What construction has made so far.
pub struct Grown {
    pub alloc: Global,
    pub objects: Objects,
    pub store: Store,
    pub bounds: Bounds,
    pub news: News,
    pub vectors: Vec<VectorAt>,
    pub records: Records,
    pub turns: Turns,
    pub bits: u32,
}

impl Drop for Grown {
    fn drop(self) {
        let Grown {
            alloc: _alloc,
            objects: _objects,
            store: _store,
            bounds: _bounds,
            news: _news,
            vectors: _vectors,
            records: _records,
            turns: _turns,
            bits: _bits,
        } = self;
    }
}

impl Grown {
    /// Before construction: nothing.
    pub fn new(alloc: Global) -> Grown
        ensures { grown_of result ≡ nothing }
    {
        Grown {
            alloc,
            objects: Objects::new(alloc),
            store: Store::new(alloc),
            bounds: Bounds::new(alloc),
            news: News::new(alloc),
            vectors: Vec::new(alloc),
            records: Records::new(alloc),
            turns: Turns::new(),
            bits: 0,
        }
    }

    /// Makes an object. Refused as E410 and E411.
    pub fn add(&mut self, path: Vec<Part>, place: Place, node: Node) -> Result<(), Stop>
        ensures { Grows result (grown_of self.new) (added (grown_of self.old) (map part_of path.items) place (node_of node)) }
    {
        if self.objects.is_full() || path.len() > MOST_PARTS {
            return Err(Stop::refused(Code::TooManyObjects, place));
        }
        let bits = u64::from(self.bits) + u64::from(node.bits());
        if bits > MOST_BITS {
            return Err(Stop::refused(Code::StorageTooLarge, place));
        }
        self.bits = bits as u32;
        Ok(self.objects.add(self.alloc, Object { path, place, node })?)
    }

    /// What the object of a number is.
    pub fn node(&self, number: u32) -> Option<Node>
        ensures { option_map node_of result ≡ node_in (grown_of self.now) number }
    {
        match self.objects.as_slice().get(number as usize) {
            Some(object) => Some(object.node),
            None => None,
        }
    }

    /// The port, signal or variable at a location.
    pub fn thing(&self, at: &Location) -> Option<u32>
        ensures { result ≡ thing_at (grown_of self.now) (location_of at.now) }
    {
        self.objects.here(at).thing
    }

    /// The pointer or reference at a location.
    pub fn pointer(&self, at: &Location) -> Option<u32>
        ensures { result ≡ pointer_at (grown_of self.now) (location_of at.now) }
    {
        self.objects.here(at).pointer
    }

    /// Writes a word.
    pub fn put_word(&mut self, at: Location, word: u128) -> Result<(), NoMemory>
        ensures { OnOk result (grown_of self.new ≡ with_word (grown_of self.old) (location_of at) word) }
    {
        self.store.put_word(at, word)
    }

    /// Gives a pointer or reference what it leads to.
    pub fn put_target(&mut self, at: Location, to: Option<Location>) -> Result<(), NoMemory>
        ensures { OnOk result (grown_of self.new ≡ with_target (grown_of self.old) (location_of at) (option_map location_of to)) }
    {
        self.store.put_target(at, to)
    }

    /// Notes a `new` at a location below the top.
    pub fn note(&mut self, at: Location) -> Result<(), NoMemory>
        requires { at.local ≡ None }
        ensures { OnOk result (grown_of self.new ≡ with_made (grown_of self.old) (location_of at).path) }
    {
        self.news.note(at)
    }

    /// Binds a port.
    pub fn bind(&mut self, port: u32, bound: BoundTo) -> Result<(), NoMemory>
        ensures { OnOk result (grown_of self.new ≡ with_bound (grown_of self.old) (bound_to port bound)) }
    {
        self.bounds.bind(port, bound)
    }

    /// Notes a vector.
    pub fn add_vector(&mut self, path: Vec<Part>, size: u128) -> Result<(), NoMemory>
        ensures { OnOk result (grown_of self.new ≡ with_vector (grown_of self.old) (map part_of path.items) size) }
    {
        push(&mut self.vectors, VectorAt { path, size })
    }

    /// Counts a turn of a loop, if there may be one more.
    pub fn turn(&mut self) -> bool
        ensures may { result ≡ not (nat_le 65536 (grown_of self.old).turns) }
        ensures turned { grown_of self.new ≡ (if nat_le 65536 (grown_of self.old).turns then grown_of self.old else with_turn (grown_of self.old)) }
    {
        self.turns.begin()
    }

    /// Whether a process runs a function of an object.
    pub fn runs(&self, object: u32, function: u32) -> bool
        ensures { result ≡ runs_already (grown_of self.now) object function }
    {
        self.records.has(object, function)
    }

    /// Declares a process.
    pub fn declare(&mut self, process: Record) -> Result<(), NoMemory>
        ensures { OnOk result (grown_of self.new ≡ with_declared (grown_of self.old) ((grown_of self.old).declared ++ record_of process ∷ [])) }
    {
        self.records.add(process)
    }

    /// The process of that number gets more items.
    pub fn sense(&mut self, number: u32, items: &[Item]) -> Result<(), NoMemory>
        ensures { OnOk result (grown_of self.new ≡ with_declared (grown_of self.old) (changed_at number (given_items (map item_of items.now)) (grown_of self.old).declared)) }
    {
        self.records.sense(number, items)
    }

    /// The process of that number gets a reset.
    pub fn reset(&mut self, number: u32, reset: ResetItem) -> Result<(), NoMemory>
        ensures { OnOk result (grown_of self.new ≡ with_declared (grown_of self.old) (changed_at number (given_reset (reset_of reset)) (grown_of self.old).declared)) }
    {
        self.records.reset(number, reset)
    }
}
