//! Locations by number. A location is a path from the top, whether an object is there or not, or a local variable of a
//! constructor that runs, with indices.
use indexmap::IndexMap;
use scc_base::{NoMemory, PathPart, lost, push};
use scc_bits::Value;
use std::alloc::Global;

/// The number of a location.
#[derive(Clone, Copy, PartialEq, Eq, Hash)]
pub struct SpotId(pub u32);

#[derive(Clone, Copy, PartialEq, Eq, Hash)]
struct Step {
    from: SpotId,
    part: PathPart,
}

/// A local variable of the constructor of an object.
#[derive(Clone, Copy, PartialEq, Eq, Hash)]
pub struct LocalOf {
    pub object: u32,
    pub function: u32,
    pub local: u32,
}

/// Where a location stands.
#[derive(Clone, Copy)]
enum Home {
    /// Below the top.
    Top,
    /// In a local variable, the root of whose locations is given; inside where each index is below its size.
    Local {
        of: LocalOf,
        root: SpotId,
        inside: bool,
    },
}

/// What a location of a local variable holds.
#[derive(Clone, Copy)]
pub enum Held {
    Number(Value),
    /// A pointer or reference.
    Leads(Option<SpotId>),
}

/// A location.
#[derive(Clone, Copy)]
struct Spot {
    // The location of which it is a part; its own where it is a root.
    from: SpotId,
    part: PathPart,
    // How many parts stand behind the root.
    depth: u32,
    home: Home,
    // The object that was made here.
    object: Option<u32>,
    // The pointer or reference that stands here.
    pointer: Option<u32>,
    // Whether a `new` was assigned to it.
    made: bool,
    // What a local variable holds, and how often it had been declared when that was stored.
    held: Option<(u64, Held)>,
    // At the root of a local variable: how often it was declared.
    declared: u64,
}

/// The locations that were named.
#[derive(Drop)]
pub struct Spots {
    spots: Vec<Spot>,
    steps: IndexMap<Step, SpotId>,
    locals: IndexMap<LocalOf, SpotId>,
}

/// The location of the top.
pub const TOP: SpotId = SpotId(0);

impl Spots {
    /// The top's location alone.
    pub fn new(alloc: Global) -> Result<Spots, NoMemory> {
        let mut spots = Spots {
            spots: Vec::new(alloc),
            steps: IndexMap::new(alloc),
            locals: IndexMap::new(alloc),
        };
        spots.root(Home::Top)?;
        Ok(spots)
    }

    fn root(&mut self, home: Home) -> Result<SpotId, NoMemory> {
        let id = self.next()?;
        let spot = Spot {
            from: id,
            part: PathPart::Index(0),
            depth: 0,
            home,
            object: None,
            pointer: None,
            made: false,
            held: None,
            declared: 0,
        };
        push(&mut self.spots, spot)?;
        Ok(id)
    }

    fn next(&self) -> Result<SpotId, NoMemory> {
        let Ok(id) = u32::try_from(self.spots.len()) else {
            return Err(lost());
        };
        Ok(SpotId(id))
    }

    // Where a part of a location stands.
    fn home_of(&self, id: SpotId, part: PathPart, size: Option<u32>) -> Result<Home, NoMemory> {
        match self.spots.get(id.0 as usize) {
            Some(spot) => Ok(home_of(spot.home, part, size)),
            None => Err(lost()),
        }
    }

    /// The object that was made at a location.
    pub fn object(&self, id: SpotId) -> Result<Option<u32>, NoMemory> {
        match self.spots.get(id.0 as usize) {
            Some(spot) => Ok(spot.object),
            None => Err(lost()),
        }
    }

    /// The pointer or reference that stands at a location.
    pub fn pointer(&self, id: SpotId) -> Result<Option<u32>, NoMemory> {
        match self.spots.get(id.0 as usize) {
            Some(spot) => Ok(spot.pointer),
            None => Err(lost()),
        }
    }

    /// How many parts a location has behind its root.
    pub fn depth(&self, id: SpotId) -> Result<u32, NoMemory> {
        match self.spots.get(id.0 as usize) {
            Some(spot) => Ok(spot.depth),
            None => Err(lost()),
        }
    }

    /// The location of which one is a part; its own for a root.
    pub fn from(&self, id: SpotId) -> Result<SpotId, NoMemory> {
        match self.spots.get(id.0 as usize) {
            Some(spot) => Ok(spot.from),
            None => Err(lost()),
        }
    }

    /// The last part of a location.
    pub fn last_part(&self, id: SpotId) -> Result<PathPart, NoMemory> {
        match self.spots.get(id.0 as usize) {
            Some(spot) => Ok(spot.part),
            None => Err(lost()),
        }
    }

    /// The local variable in which a location stands; None below the top.
    pub fn local_of(&self, id: SpotId) -> Result<Option<LocalOf>, NoMemory> {
        match self.spots.get(id.0 as usize) {
            Some(spot) => match spot.home {
                Home::Top => Ok(None),
                Home::Local { of, .. } => Ok(Some(of)),
            },
            None => Err(lost()),
        }
    }

    /// Notes an object that was made at a location.
    pub fn note_object(&mut self, id: SpotId, number: u32) -> Result<(), NoMemory> {
        match self.spots.get_mut(id.0 as usize) {
            Some(spot) => {
                spot.object = Some(number);
                Ok(())
            }
            None => Err(lost()),
        }
    }

    /// Notes a pointer or reference that was made at a location.
    pub fn note_pointer(&mut self, id: SpotId, number: u32) -> Result<(), NoMemory> {
        match self.spots.get_mut(id.0 as usize) {
            Some(spot) => {
                spot.pointer = Some(number);
                Ok(())
            }
            None => Err(lost()),
        }
    }

    /// Notes that a `new` was assigned to the pointer at a location, and says whether one was before.
    pub fn note_new(&mut self, id: SpotId) -> Result<bool, NoMemory> {
        match self.spots.get_mut(id.0 as usize) {
            Some(spot) => {
                let before = spot.made;
                spot.made = true;
                Ok(before)
            }
            None => Err(lost()),
        }
    }

    /// Counts a declaration of a local variable, by the location of the variable.
    pub fn declare(&mut self, id: SpotId) -> Result<(), NoMemory> {
        match self.spots.get_mut(id.0 as usize) {
            Some(spot) => {
                spot.declared = spot.declared.saturating_add(1);
                Ok(())
            }
            None => Err(lost()),
        }
    }

    // How often the local variable at a location was declared.
    fn declared(&self, id: SpotId) -> Result<u64, NoMemory> {
        match self.spots.get(id.0 as usize) {
            Some(spot) => Ok(spot.declared),
            None => Err(lost()),
        }
    }

    // The local variable in which a location stands; its own location below the top.
    fn root_of(&self, id: SpotId) -> Result<SpotId, NoMemory> {
        match self.spots.get(id.0 as usize) {
            Some(spot) => match spot.home {
                Home::Top => Ok(id),
                Home::Local { root, .. } => Ok(root),
            },
            None => Err(lost()),
        }
    }

    /// Whether each index of a location in a local variable is below its size.
    pub fn is_inside(&self, id: SpotId) -> Result<bool, NoMemory> {
        match self.spots.get(id.0 as usize) {
            Some(spot) => match spot.home {
                Home::Top => Ok(false),
                Home::Local { inside, .. } => Ok(inside),
            },
            None => Err(lost()),
        }
    }

    /// The number that a location of a local variable holds; None where it was given nothing since the declaration.
    pub fn held_number(&self, id: SpotId) -> Result<Option<Value>, NoMemory> {
        let declared = self.declared(self.root_of(id)?)?;
        match self.spots.get(id.0 as usize) {
            Some(spot) => number_in(&spot.held, declared),
            None => Err(lost()),
        }
    }

    /// Where the pointer or reference at a location of a local variable leads; None for null, and where it was given nothing
    /// since the declaration.
    pub fn held_pointer(&self, id: SpotId) -> Result<Option<SpotId>, NoMemory> {
        let declared = self.declared(self.root_of(id)?)?;
        match self.spots.get(id.0 as usize) {
            Some(spot) => pointer_in(&spot.held, declared),
            None => Err(lost()),
        }
    }

    /// Stores what a location of a local variable holds.
    pub fn hold(&mut self, id: SpotId, held: Held) -> Result<(), NoMemory> {
        let declared = self.declared(self.root_of(id)?)?;
        match self.spots.get_mut(id.0 as usize) {
            Some(spot) => {
                spot.held = Some((declared, held));
                Ok(())
            }
            None => Err(lost()),
        }
    }

    /// The location of a local variable.
    pub fn local(&mut self, of: LocalOf) -> Result<SpotId, NoMemory> {
        if let Some(id) = self.locals.get(&of) {
            return Ok(*id);
        }
        let root = self.next()?;
        let id = self.root(Home::Local {
            of,
            root,
            inside: true,
        })?;
        self.locals.insert(of, id)?;
        Ok(id)
    }

    /// A part of a location. `size` is that of the array in a local variable into which the part is an index.
    pub fn part(
        &mut self,
        from: SpotId,
        part: PathPart,
        size: Option<u32>,
    ) -> Result<SpotId, NoMemory> {
        let step = Step { from, part };
        if let Some(id) = self.steps.get(&step) {
            return Ok(*id);
        }
        let depth = self.depth(from)?.saturating_add(1);
        let id = self.next()?;
        let home = self.home_of(from, part, size)?;
        let spot = Spot {
            from,
            part,
            depth,
            home,
            object: None,
            pointer: None,
            made: false,
            held: None,
            declared: 0,
        };
        push(&mut self.spots, spot)?;
        self.steps.insert(step, id)?;
        Ok(id)
    }
}

fn number_in(held: &Option<(u64, Held)>, declared: u64) -> Result<Option<Value>, NoMemory> {
    match held {
        Some((since, Held::Number(value))) if *since == declared => Ok(Some(*value)),
        Some((since, Held::Leads(_))) if *since == declared => Err(lost()),
        _ => Ok(None),
    }
}

fn pointer_in(held: &Option<(u64, Held)>, declared: u64) -> Result<Option<SpotId>, NoMemory> {
    match held {
        Some((since, Held::Leads(to))) if *since == declared => Ok(*to),
        Some((since, Held::Number(_))) if *since == declared => Err(lost()),
        _ => Ok(None),
    }
}

// Where a part of what stands somewhere stands.
fn home_of(home: Home, part: PathPart, size: Option<u32>) -> Home {
    let Home::Local { of, root, inside } = home else {
        return Home::Top;
    };
    let within = match (part, size) {
        (PathPart::Index(i), Some(n)) => i < n,
        _ => false,
    };
    Home::Local {
        of,
        root,
        inside: inside && within,
    }
}
