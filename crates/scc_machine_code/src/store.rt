//! Slots with their words and links, words in between, and locations.
use crate::place::{Frame, NOWHERE, NULL, Operand, Place, behind};
use scc_base::{NoMemory, push};
use std::alloc::Global;

/// What code works on. Constants have the first slots.
#[derive(Drop)]
pub struct Store {
    /// What stands in each slot.
    pub(crate) words: Vec<u128>,
    /// Where each slot leads.
    pub(crate) links: Vec<u32>,
    temporaries: Vec<u128>,
    spots: Vec<u32>,
    /// The signal that was asked last to show something; each leads to the one asked before it.
    pub(crate) asked: u32,
    /// Whether null was followed.
    pub(crate) stuck: bool,
}

impl Store {
    /// Constants, and room for so many words in between and locations.
    pub fn new(
        alloc: Global,
        constants: Vec<u128>,
        temporaries: u32,
        spots: u32,
    ) -> Result<Store, NoMemory> {
        let links = filled(alloc, NULL, constants.len())?;
        Ok(Store {
            words: constants,
            links,
            temporaries: filled(alloc, 0, temporaries as usize)?,
            spots: filled(alloc, NULL, spots as usize)?,
            asked: NOWHERE,
            stuck: false,
        })
    }

    /// So many slots more, each 0 and null; the first one's number.
    pub fn grow(&mut self, slots: u32) -> Result<u32, NoMemory> {
        let first = self.words.len();
        let Ok(at) = u32::try_from(first) else {
            return Err(NoMemory);
        };
        if at >= NOWHERE || slots >= NOWHERE - at {
            return Err(NoMemory);
        }
        for _ in 0..slots {
            push(&mut self.words, 0)?;
            push(&mut self.links, NULL)?;
        }
        Ok(at)
    }

    /// What stands in a slot; 0 where nothing does.
    pub fn word(&self, at: u32) -> u128 {
        match self.words.get(at as usize) {
            Some(x) => *x,
            None => 0,
        }
    }

    /// Puts a word into a slot.
    pub fn set_word(&mut self, at: u32, x: u128) {
        if let Some(word) = self.words.get_mut(at as usize) {
            *word = x;
        }
    }

    /// Where a slot leads; null where nothing stands.
    pub fn link(&self, at: u32) -> u32 {
        match self.links.get(at as usize) {
            Some(to) => *to,
            None => NULL,
        }
    }

    /// Changes where a slot leads.
    pub fn set_link(&mut self, at: u32, to: u32) {
        if let Some(link) = self.links.get_mut(at as usize) {
            *link = to;
        }
    }

    /// Whether null was followed, which is forgotten.
    pub fn take_stuck(&mut self) -> bool {
        let stuck = self.stuck;
        self.stuck = false;
        stuck
    }

    pub(crate) fn stick(&mut self) {
        self.stuck = true;
    }

    // Notes that null was followed, where a slot behind null was asked for.
    #[cold]
    fn miss(&mut self, at: u32) {
        if at == NULL {
            self.stuck = true;
        }
    }

    #[inline(always)]
    fn address(&self, f: Frame, place: Place) -> u32 {
        match place {
            Place::Local(by) => behind(f.base, by),
            Place::Member(by) => behind(f.this, by),
            Place::Spot(spot) => self.spot(spot),
        }
    }

    /// The slot of a place. Null stands for itself where it is soft; else it is noted, and nowhere stands in its place.
    #[inline(always)]
    pub(crate) fn located(&mut self, f: Frame, place: Place, soft: bool) -> u32 {
        let at = self.address(f, place);
        if at == NULL && !soft {
            self.stuck = true;
            return NOWHERE;
        }
        at
    }

    /// The location of that number.
    #[inline(always)]
    pub(crate) fn spot(&self, number: u32) -> u32 {
        match self.spots.get(number as usize) {
            Some(at) => *at,
            None => NOWHERE,
        }
    }

    #[inline(always)]
    pub(crate) fn set_spot(&mut self, number: u32, at: u32) {
        if let Some(spot) = self.spots.get_mut(number as usize) {
            *spot = at;
        }
    }

    #[inline(always)]
    pub(crate) fn set_temporary(&mut self, number: u32, x: u128) {
        if let Some(word) = self.temporaries.get_mut(number as usize) {
            *word = x;
        }
    }

    /// The word that an operand names.
    #[inline(always)]
    pub(crate) fn value(&mut self, f: Frame, of: Operand) -> u128 {
        match of {
            Operand::Constant(at) => self.word(at),
            Operand::Temporary(number) => match self.temporaries.get(number as usize) {
                Some(x) => *x,
                None => 0,
            },
            Operand::Held(place) => {
                let at = self.address(f, place);
                self.held(at)
            }
            Operand::Shown(place) => {
                let at = self.address(f, place);
                self.shown(at)
            }
        }
    }

    #[inline(always)]
    fn held(&mut self, at: u32) -> u128 {
        match self.words.get(at as usize) {
            Some(x) => *x,
            None => {
                self.miss(at);
                0
            }
        }
    }

    #[inline(always)]
    fn shown(&mut self, at: u32) -> u128 {
        match self.links.get(at as usize) {
            Some(root) => {
                let root = *root;
                self.held(root)
            }
            None => {
                self.miss(at);
                0
            }
        }
    }

    /// Stores what a variable holds.
    #[inline(always)]
    pub(crate) fn store(&mut self, f: Frame, to: Place, x: u128) {
        let at = self.address(f, to);
        match self.words.get_mut(at as usize) {
            Some(word) => *word = x,
            None => self.miss(at),
        }
    }

    /// So many slots are 0 and null.
    pub(crate) fn clear(&mut self, first: u32, count: u32) {
        for at in first..first.saturating_add(count) {
            self.set_word(at, 0);
            self.set_link(at, NULL);
        }
    }
}

/// So many elements, all alike.
fn filled<T: Copy + Drop>(alloc: Global, x: T, n: usize) -> Result<Vec<T>, NoMemory> {
    let mut list = Vec::new(alloc);
    for _ in 0..n {
        push(&mut list, x)?;
    }
    Ok(list)
}
