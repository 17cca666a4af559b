//! What construction has made so far.
use crate::frames::Frame;
use crate::groups::Groups;
use crate::objects::Things;
use crate::records::{Record, Runs};
use crate::spots::{SpotId, Spots};
use crate::things::{MOST_PARTS, MOST_TURNS, Thing, ThingSort};
use indexmap::IndexSet;
use scc_base::{Code, NoMemory, Place, Stop, Tally, lost};
use scc_bits::Value;
use std::alloc::Global;

/// What construction has made so far.
#[derive(Drop)]
pub struct Grown {
    pub alloc: Global,
    pub spots: Spots,
    pub things: Things,
    /// The constructors that run, the innermost last.
    pub frames: Vec<Frame>,
    pub groups: Groups,
    /// The processes.
    pub records: Vec<Record>,
    pub runs: IndexSet<Runs>,
    /// Vectors and their sizes.
    pub vectors: Vec<VectorAt>,
    pub turns: Tally,
}

/// A vector and the number of its elements.
#[derive(Clone, Copy)]
pub struct VectorAt {
    pub spot: SpotId,
    pub size: u32,
}

impl Grown {
    /// Before construction: nothing.
    pub fn new(alloc: Global) -> Result<Grown, NoMemory> {
        Ok(Grown {
            alloc,
            spots: Spots::new(alloc)?,
            things: Things::new(alloc),
            frames: Vec::new(alloc),
            groups: Groups::new(alloc),
            records: Vec::new(alloc),
            runs: IndexSet::new(alloc),
            vectors: Vec::new(alloc),
            turns: Tally::new(MOST_TURNS),
        })
    }

    /// The constructor that runs.
    pub fn frame(&self) -> Result<Frame, NoMemory> {
        match self.frames.last() {
            Some(frame) => Ok(*frame),
            None => Err(lost()),
        }
    }

    /// The object of a number.
    pub fn thing(&self, number: u32) -> Result<Thing, NoMemory> {
        match self.things.get(number) {
            Some(thing) => Ok(thing),
            None => Err(lost()),
        }
    }

    /// What a variable holds, by its object's number; None where the object is no variable.
    pub fn number(&self, number: u32) -> Result<Option<Value>, NoMemory> {
        Ok(held(self.thing(number)?.sort))
    }

    // Makes an object within the limits; its number.
    fn add(&mut self, at: SpotId, place: Place, sort: ThingSort) -> Result<u32, Stop> {
        if self.things.is_full() || MOST_PARTS < self.spots.depth(at)? {
            // E410.
            return Err(Stop::refused(Code::TooManyObjects, place));
        }
        match self.things.add(Thing::new(at, place, sort))? {
            Some(number) => Ok(number),
            // E411.
            None => Err(Stop::refused(Code::StorageTooLarge, place)),
        }
    }

    /// Makes a port, signal, variable or object of a class. Refused as E410 and E411.
    pub fn add_object(&mut self, at: SpotId, place: Place, sort: ThingSort) -> Result<u32, Stop> {
        let number = self.add(at, place, sort)?;
        self.spots.note_object(at, number)?;
        Ok(number)
    }

    /// Makes a pointer or reference, which is null. Refused as E410.
    pub fn add_pointer(&mut self, at: SpotId, place: Place) -> Result<(), Stop> {
        let number = self.add(at, place, ThingSort::Pointer(None))?;
        self.spots.note_pointer(at, number)?;
        Ok(())
    }

    /// Counts a turn of a loop. Refused as E412.
    pub fn turn(&mut self, place: Place) -> Result<(), Stop> {
        self.turns = self.turns.plus(1);
        if self.turns.is_over() {
            // E412.
            return Err(Stop::refused(Code::ConstructionTurns, place));
        }
        Ok(())
    }

    /// Where the module stands in which a location lies; None for the top's. Objects of classes that are no modules count as
    /// modules.
    pub fn module_of(&self, at: SpotId) -> Result<Option<SpotId>, NoMemory> {
        let mut part = at;
        for _ in 0..usize::MAX {
            if self.spots.depth(part)? == 0 {
                return Ok(None);
            }
            part = self.spots.from(part)?;
            if self.is_module(part)? {
                return Ok(Some(part));
            }
        }
        Err(lost())
    }

    fn is_module(&self, at: SpotId) -> Result<bool, NoMemory> {
        let Some(number) = self.spots.object(at)? else {
            return Ok(false);
        };
        Ok(matches!(self.thing(number)?.sort, ThingSort::Module(_)))
    }
}

// What a variable holds.
fn held(sort: ThingSort) -> Option<Value> {
    match sort {
        ThingSort::Variable(value) => Some(value),
        _ => None,
    }
}
