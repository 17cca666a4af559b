//! The objects of a design in slots.
use crate::start::Start;
use indexmap::IndexMap;
use scc_base::{Name, NoMemory, PathPart, lost, push};
use scc_elab_design::{Design, Object, ObjectNode};
use scc_machine_code::{NOWHERE, NULL, Store};
use scc_machine_functions::{Layout, member_of, plus, product};
use scc_plain_tree::{Base, Plain, Reach};
use std::alloc::Global;

/// Where objects stand.
#[derive(Drop)]
pub struct Placed {
    /// The slot of the word that each port, signal or variable shows.
    pub words: Vec<u32>,
    /// The first slot of each object of a class, the slot of each other one.
    pub slots: Vec<u32>,
}

/// What a path leads to.
#[derive(Clone, Copy)]
struct Reached<'t> {
    /// Its slot, or the first slot of the object of a class itself.
    at: u32,
    is_object: bool,
    base: Base,
    sizes: &'t [u32],
    vector: bool,
    pointer: bool,
}

struct Builder<'t> {
    p: &'t Plain,
    d: &'t Design,
    layout: &'t Layout,
    /// What a `new` made, by the slot of the pointer to which it was assigned.
    made: IndexMap<u32, u32>,
    /// How many of the design's vectors have slots.
    vectors: usize,
    /// The first slot of the top.
    top: u32,
    placed: Placed,
}

// One call at each exit of what owns it.
impl Drop for Builder<'_> {
    fn drop(self) {
        let Builder {
            p: _,
            d: _,
            layout: _,
            made: _made,
            vectors: _,
            top: _,
            placed: _placed,
        } = self;
    }
}

/// Gives a design's objects slots, in which signals and variables hold the words of the start.
pub fn place_objects(
    alloc: Global,
    p: &Plain,
    d: &Design,
    layout: &Layout,
    start: &Start,
    store: &mut Store,
) -> Result<Placed, NoMemory> {
    let mut b = Builder {
        p,
        d,
        layout,
        made: IndexMap::new(alloc),
        vectors: 0,
        top: NULL,
        placed: Placed {
            words: Vec::new(alloc),
            slots: Vec::new(alloc),
        },
    };
    b.place_all(start, store)?;
    b.bind_ports(store)?;
    b.lead_pointers(store)?;
    Ok(b.into_placed())
}

impl<'t> Builder<'t> {
    fn into_placed(self) -> Placed {
        let Builder {
            p: _,
            d: _,
            layout: _,
            made: _made,
            vectors: _,
            top: _,
            placed,
        } = self;
        placed
    }

    fn place_all(&mut self, start: &Start, store: &mut Store) -> Result<(), NoMemory> {
        let d = self.d;
        let mut next: usize = 0;
        let mut number: u32 = 0;
        for object in d.objects.as_slice() {
            let slot = self.slot_of(object, store)?;
            let word = match object.node {
                ObjectNode::Module(_) | ObjectNode::Pointer(_) => NOWHERE,
                ObjectNode::Variable { .. } => slot,
                ObjectNode::Signal(_) => shown(slot, store)?,
                ObjectNode::Port { root, .. } => {
                    if root == number {
                        shown(slot, store)?
                    } else {
                        NOWHERE
                    }
                }
            };
            if let ObjectNode::Signal(_) | ObjectNode::Variable { .. } = object.node {
                if let Some(first) = start.words.get(next) {
                    store.set_word(word, first.bits);
                }
                next = next.saturating_add(1);
            }
            push(&mut self.placed.slots, slot)?;
            push(&mut self.placed.words, word)?;
            number = number.saturating_add(1);
        }
        Ok(())
    }

    // The slot of an object; of the object of a class its first one, which are made for it.
    fn slot_of(&mut self, object: &'t Object, store: &mut Store) -> Result<u32, NoMemory> {
        let path = object.path.as_slice();
        if path.is_empty() {
            self.top = self.object_slots(object, store)?;
            return Ok(self.top);
        }
        let Some(reached) = self.walk(path, store, true)? else {
            return Err(lost());
        };
        if let ObjectNode::Pointer(_) = object.node {
            return Ok(reached.at);
        }
        if let ObjectNode::Module(_) = object.node {
            let first = self.object_slots(object, store)?;
            if reached.pointer {
                self.made.insert(reached.at, first)?;
            } else {
                store.set_link(reached.at, first);
            }
            return Ok(first);
        }
        if reached.pointer {
            let slot = store.grow(1)?;
            self.made.insert(reached.at, slot)?;
            return Ok(slot);
        }
        Ok(reached.at)
    }

    fn object_slots(&self, object: &Object, store: &mut Store) -> Result<u32, NoMemory> {
        match object.node {
            ObjectNode::Module(class) => store.grow(self.layout.slots(class)?),
            _ => Err(lost()),
        }
    }

    // What a path leads to; None where nothing is there. Vectors that are met first get their slots where `grows` says so.
    fn walk(
        &mut self,
        path: &'t [PathPart],
        store: &mut Store,
        grows: bool,
    ) -> Result<Option<Reached<'t>>, NoMemory> {
        let mut here = Reached {
            at: self.top,
            is_object: true,
            base: Base::Class(self.p.top),
            sizes: &[],
            vector: false,
            pointer: false,
        };
        let mut before: usize = 0;
        for part in path {
            let next = match part {
                PathPart::Member(name) => self.member(here, *name, store)?,
                PathPart::Index(index) => {
                    if here.sizes.is_empty() && grows {
                        self.grow_vector(here, path, before, store)?;
                    }
                    self.element(here, *index, store)
                }
            };
            let Some(found) = next else {
                return Ok(None);
            };
            here = found;
            before = before.saturating_add(1);
        }
        Ok(Some(here))
    }

    // The first slot of the object of a class that is reached.
    fn object_at(&self, of: Reached<'t>, store: &Store) -> Option<u32> {
        if of.is_object {
            return Some(of.at);
        }
        if !of.sizes.is_empty() || of.vector {
            return None;
        }
        self.thing_at(of, store.link(of.at))
    }

    // What a `new` made for a pointer that is reached, or what stands there otherwise.
    fn thing_at(&self, of: Reached<'t>, otherwise: u32) -> Option<u32> {
        let at = if of.pointer {
            self.made.get(&of.at).copied()?
        } else {
            otherwise
        };
        (at < NOWHERE).then_some(at)
    }

    fn member(
        &self,
        of: Reached<'t>,
        name: Name,
        store: &Store,
    ) -> Result<Option<Reached<'t>>, NoMemory> {
        let (Base::Class(class), Some(first)) = (of.base, self.object_at(of, store)) else {
            return Ok(None);
        };
        let Some(number) = self.layout.number(class, name) else {
            return Ok(None);
        };
        let shape = &member_of(self.p, class, number)?.shape;
        Ok(Some(Reached {
            at: plus(first, self.layout.offset(class, number)?),
            is_object: false,
            base: shape.base,
            sizes: shape.sizes.as_slice(),
            vector: shape.vector,
            pointer: shape.reach != Reach::Direct,
        }))
    }

    // The design's next vector gets slots where it is the one that is reached and has none.
    fn grow_vector(
        &mut self,
        of: Reached<'t>,
        path: &[PathPart],
        before: usize,
        store: &mut Store,
    ) -> Result<(), NoMemory> {
        if let Some(slot) = self.thing_at(of, of.at) {
            if store.link(slot) != NULL {
                return Ok(());
            }
        }
        let d = self.d;
        let Some(vector) = d.vectors.get(self.vectors) else {
            return Err(lost());
        };
        if !of.vector || !is_front(vector.path.as_slice(), path, before) {
            return Err(lost());
        }
        self.vectors = self.vectors.saturating_add(1);
        let slot = self.vector_slot(of, store)?;
        let row = store.grow(vector.size)?;
        store.set_link(slot, row);
        store.set_word(slot, u128::from(vector.size));
        Ok(())
    }

    fn vector_slot(&mut self, of: Reached<'t>, store: &mut Store) -> Result<u32, NoMemory> {
        if !of.pointer {
            return Ok(of.at);
        }
        let slot = store.grow(1)?;
        self.made.insert(of.at, slot)?;
        Ok(slot)
    }

    fn element(&self, of: Reached<'t>, index: u32, store: &Store) -> Option<Reached<'t>> {
        let mut found = of;
        if let [size, rest @ ..] = of.sizes {
            if index >= *size {
                return None;
            }
            found.at = plus(of.at, index.saturating_mul(product(rest)));
            found.sizes = rest;
            return Some(found);
        }
        if !of.vector {
            return None;
        }
        let slot = self.thing_at(of, of.at)?;
        if u128::from(index) >= store.word(slot) {
            return None;
        }
        found.at = plus(store.link(slot), index);
        found.vector = false;
        found.pointer = false;
        Some(found)
    }

    // A port shows what its root shows.
    fn bind_ports(&mut self, store: &mut Store) -> Result<(), NoMemory> {
        let d = self.d;
        let mut number: usize = 0;
        for object in d.objects.as_slice() {
            if let ObjectNode::Port { root, .. } = object.node {
                self.bind(number, root, store)?;
            }
            number = number.saturating_add(1);
        }
        Ok(())
    }

    fn bind(&mut self, number: usize, root: u32, store: &mut Store) -> Result<(), NoMemory> {
        let Some(shown) = self.placed.words.get(root as usize).copied() else {
            return Err(lost());
        };
        let Some(slot) = self.placed.slots.get(number).copied() else {
            return Err(lost());
        };
        store.set_link(slot, shown);
        match self.placed.words.get_mut(number) {
            Some(word) => {
                *word = shown;
                Ok(())
            }
            None => Err(lost()),
        }
    }

    fn lead_pointers(&mut self, store: &mut Store) -> Result<(), NoMemory> {
        let d = self.d;
        for target in d.targets.as_slice() {
            let to = match self.walk(target.path.as_slice(), store, false)? {
                Some(reached) => self.location_of(reached, store).unwrap_or(NOWHERE),
                None => NOWHERE,
            };
            let Some(slot) = self.placed.slots.get(target.object as usize) else {
                return Err(lost());
            };
            store.set_link(*slot, to);
        }
        Ok(())
    }

    // What a pointer holds that leads there.
    fn location_of(&self, of: Reached<'t>, store: &Store) -> Option<u32> {
        match (of.base, of.vector) {
            (Base::Class(_), false) => self.object_at(of, store),
            _ if of.sizes.is_empty() => self.thing_at(of, of.at),
            _ => None,
        }
    }
}

// The slot of the word that the signal in a slot shows, made for it.
fn shown(slot: u32, store: &mut Store) -> Result<u32, NoMemory> {
    let word = store.grow_signal()?;
    store.set_link(slot, word);
    Ok(word)
}

// Whether a path is made of so many parts that another one begins with.
fn is_front(front: &[PathPart], path: &[PathPart], parts: usize) -> bool {
    if front.len() != parts {
        return false;
    }
    for (a, b) in front.iter().zip(path.iter()) {
        if a != b {
            return false;
        }
    }
    true
}
