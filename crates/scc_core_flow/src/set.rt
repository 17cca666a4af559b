//! Sets of some cells.
ghost use Rattle.std.specs.Prelude.{◌≡◌, ◌||◌, ◌&&◌, ◌%◌, ◌<◌, ℕ, false, not, nat_eq, length, get_or, IfOk, OnOk};
ghost use Rattle.scc_core_flow.specs.Sets.{has_bit, holds, holds_slot};

use scc_base::{NoMemory, lost, push};
use std::alloc::Global;

/// Which of some cells are in; each cell has a slot, 64 slots a word.
#[derive(Drop)]
pub struct CellSet {
    words: Vec<u64>,
}

// Whether a word has the bit of a slot.
fn has_bit(word: u64, slot: u32) -> bool
    ensures { result ≡ has_bit word (slot % 64) }
{
    word >> (slot % 64) & 1 == 1
}

fn with_bit(word: u64, slot: u32) -> u64
    ensures { (i : ℕ) → has_bit result i ≡ (nat_eq i (slot % 64) || has_bit word i) }
{
    word | 1 << (slot % 64)
}

fn without_bit(word: u64, slot: u32) -> u64
    ensures { (i : ℕ) → has_bit result i ≡ (not (nat_eq i (slot % 64)) && has_bit word i) }
{
    if has_bit(word, slot) {
        word ^ 1 << (slot % 64)
    } else {
        word
    }
}

fn both_words(a: u64, b: u64) -> u64
    ensures { (i : ℕ) → has_bit result i ≡ (has_bit a i || has_bit b i) }
{
    a | b
}

fn common_words(a: u64, b: u64) -> u64
    ensures { (i : ℕ) → has_bit result i ≡ (has_bit a i && has_bit b i) }
{
    a & b
}

// Puts in all that other words have, of which there are as many.
fn join_words(words: &mut [u64], more: &[u64])
    ensures { length more.now ≡ length words.old → (n : ℕ) → holds_slot words.new n ≡ (holds_slot words.old n || holds_slot more.now n) }
{
    let mut i = 0usize;
    while i < words.len() && i < more.len() {
        words[i] = both_words(words[i], more[i]);
        i += 1;
    }
}

// The word of that number; past the end it has no bit.
fn word_at(words: &[u64], i: usize) -> u64
    ensures { result ≡ get_or words.now i 0 }
{
    match words.get(i) {
        Some(word) => *word,
        None => 0,
    }
}

// Keeps what other words have too.
fn meet_words(words: &mut [u64], more: &[u64])
    ensures { (n : ℕ) → holds_slot words.new n ≡ (holds_slot words.old n && holds_slot more.now n) }
{
    let mut i = 0usize;
    while i < words.len() {
        words[i] = common_words(words[i], word_at(more, i));
        i += 1;
    }
}

fn clear_words(words: &mut [u64])
    ensures { (n : ℕ) → holds_slot words.new n ≡ false }
{
    let mut i = 0usize;
    while i < words.len() {
        words[i] = 0;
        i += 1;
    }
}

impl CellSet {
    /// The empty set, with room for so many slots.
    #[tactic(auto, unfolding(crate::specs::Sets::holds))]
    pub fn none(alloc: Global, slots: usize) -> Result<CellSet, NoMemory>
        ensures { IfOk result (λ s. (n : ℕ) → holds s n ≡ false) }
    {
        let mut words = Vec::new(alloc);
        for _ in 0..slots.div_ceil(64) {
            push(&mut words, 0)?;
        }
        Ok(CellSet { words })
    }

    /// The same set again.
    #[tactic(auto, unfolding(crate::specs::Sets::holds))]
    pub fn copied(&self, alloc: Global) -> Result<CellSet, NoMemory>
        ensures { IfOk result (λ s. (n : ℕ) → holds s n ≡ holds self.now n) }
    {
        Ok(CellSet {
            words: Vec::from_slice(alloc, self.words.as_slice())?,
        })
    }

    /// Whether a slot's cell is in.
    #[tactic(auto, unfolding(crate::specs::Sets::holds))]
    pub fn has(&self, slot: u32) -> bool
        ensures { result ≡ holds self.now slot }
    {
        match self.words.get((slot / 64) as usize) {
            Some(word) => has_bit(*word, slot),
            None => false,
        }
    }

    /// Puts a slot's cell in.
    #[tactic(auto, unfolding(crate::specs::Sets::holds))]
    pub fn add(&mut self, slot: u32) -> Result<(), NoMemory>
        ensures { OnOk result ((n : ℕ) → holds self.new n ≡ (nat_eq n slot || holds self.old n)) }
    {
        let at = (slot / 64) as usize;
        if at < self.words.len() {
            let word = with_bit(self.words[at], slot);
            self.words[at] = word;
            Ok(())
        } else {
            Err(lost())
        }
    }

    /// Takes a slot's cell out.
    #[tactic(auto, unfolding(crate::specs::Sets::holds))]
    pub fn remove(&mut self, slot: u32) -> Result<(), NoMemory>
        ensures { OnOk result ((n : ℕ) → holds self.new n ≡ (not (nat_eq n slot) && holds self.old n)) }
    {
        let at = (slot / 64) as usize;
        if at < self.words.len() {
            let word = without_bit(self.words[at], slot);
            self.words[at] = word;
            Ok(())
        } else {
            Err(lost())
        }
    }

    /// Puts in all that another set has, which has room for as many.
    #[tactic(auto, unfolding(crate::specs::Sets::holds))]
    pub fn join(&mut self, other: &CellSet) -> Result<(), NoMemory>
        ensures { OnOk result ((n : ℕ) → holds self.new n ≡ (holds self.old n || holds other.now n)) }
    {
        if other.words.len() != self.words.len() {
            return Err(lost());
        }
        join_words(self.words.as_mut_slice(), other.words.as_slice());
        Ok(())
    }

    /// Keeps what the other set has too.
    #[tactic(auto, unfolding(crate::specs::Sets::holds))]
    pub fn meet(&mut self, other: &CellSet)
        ensures { (n : ℕ) → holds self.new n ≡ (holds self.old n && holds other.now n) }
    {
        meet_words(self.words.as_mut_slice(), other.words.as_slice());
    }

    /// Takes all out.
    #[tactic(auto, unfolding(crate::specs::Sets::holds))]
    pub fn clear(&mut self)
        ensures { (n : ℕ) → holds self.new n ≡ false }
    {
        clear_words(self.words.as_mut_slice());
    }
}
