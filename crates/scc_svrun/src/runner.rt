//! A module that runs.
ghost use Rattle.std.specs.Prelude.{◌≡◌, ℕ, ◌<◌, ◌^◌, [], true, map, length, IfOk};
ghost use Rattle.scc_svtree.specs.Code.{code_of};
ghost use Rattle.scc_svtree.specs.Running.{updated};
ghost use Rattle.scc_svtree.specs.Settled as settled;
ghost use Rattle.scc_svtree.specs.Sound.{IsSound};
ghost use Rattle.scc_svtree.specs.Steps as steps;
ghost use Rattle.scc_svtree.specs.Steps.{IsEdgeStep, IsSettledStep};
ghost use Rattle.scc_svtree.specs.Variables.{Fitting, width_at, word_at};
ghost use Rattle.scc_svrun.specs.Edged.{AreHanded, is_listed, ticking};
ghost use Rattle.scc_svrun.specs.Runs as runs;
ghost use Rattle.scc_svrun.specs.Runs.{given};

use crate::edges::{Clocks, edge_all};
use crate::inputs::{are_handed, hand, inputs_of};
use crate::resets::reset_all;
use crate::store::put;
use crate::sweep::sweep;
use scc_base::{List, NoMemory};
use scc_bits::Word;
use scc_svtree::{SvBlock, SvModule, SvStmt, VarId};
use scc_svtree_order::schedule;
use std::alloc::Global;
use std::marker::Model;
use std::mem;

/// A module without faults that runs: a word for each of its variables (IEEE 1800-2017, 4.4 and 9.2.2).
#[derive(Drop)]
pub struct SvRunner<'a> {
    top: &'a SvModule,
    /// The inputs but the clocks.
    inputs: Vec<VarId>,
    /// The combinational blocks, and the order in which they run.
    combs: Vec<&'a List<SvStmt>>,
    order: Vec<usize>,
    words: Vec<Word>,
    /// Room for the words behind an edge.
    next: Vec<Word>,
}

impl<'a> Model for SvRunner<'a> {
    ghost use Rattle.std.specs.Prelude.{map};
    ghost use Rattle.scc_svtree.specs.Code.{code_of};
    ghost use Rattle.scc_svtree.specs.contracts.module.SvModule as module_row;
    ghost use Rattle.std.specs.Coded.{codes};
    ghost use Rattle.scc_svrun.specs.Runs.{IsRunner, Ran};

    ghost Value = { Ran };

    ghost coded = { Prim.hlevel (codes, module_row.the_row.coded) };

    ghost view = { λ r. record { top = r.top.now; words = r.words.items } };

    ghost invariant = { λ r. IsRunner r.top.now r.inputs.items (map (λ b. code_of b.now) r.combs.items) r.order.items r.words.items r.next.items };
}

fn combs_of<'a>(alloc: Global, blocks: &'a [SvBlock]) -> Result<Vec<&'a List<SvStmt>>, NoMemory>
    ensures { IfOk result (λ l. map (λ b. code_of b.now) l.items ≡ settled.combs_of blocks.now) }
{
    let mut list = Vec::new(alloc);
    for b in blocks {
        if let SvBlock::Comb(body) = b {
            list.push(body)?;
        }
    }
    Ok(list)
}

// So many words that are 0.
#[tactic(auto, using(crate::proofs::Running::none_zero, crate::proofs::Running::more_zero))]
fn zeros(alloc: Global, n: usize) -> Result<Vec<Word>, NoMemory>
    ensures long { IfOk result (λ l. length l.items ≡ n) }
    ensures zero { IfOk result (λ l. (v : ℕ) → word_at l.items v ≡ 0) }
{
    let mut list = Vec::new(alloc);
    for _ in 0..n {
        list.push(Word { bits: 0 })?;
    }
    Ok(list)
}

impl<'a> SvRunner<'a> {
    /// The module with every variable 0. It makes the room for all other calls, which take no memory.
    pub fn new(alloc: Global, m: &'a SvModule) -> Result<SvRunner<'a>, NoMemory>
        requires sound { IsSound true m.now }
        requires few { length m.now.vars < 2 ^ 32 }
        ensures same { IfOk result (λ r. r.top ≡ m.now) }
        ensures zero { IfOk result (λ r. (v : ℕ) → word_at r.words v ≡ 0) }
    {
        let n = m.vars.len();
        Ok(SvRunner {
            top: m,
            inputs: inputs_of(alloc, m)?,
            combs: combs_of(alloc, m.blocks.as_slice())?,
            order: schedule(alloc, m.blocks.as_slice())?,
            words: zeros(alloc, n)?,
            next: zeros(alloc, n)?,
        })
    }

    /// The inputs but the clocks, in the order in which they are declared.
    pub fn inputs(&self) -> &[VarId]
        ensures { result.now ≡ runs.inputs_of self.now.top }
    {
        self.inputs.as_slice()
    }

    /// The word of a variable; 0 where there is none.
    pub fn get(&self, v: VarId) -> Word
        ensures word { result.bits ≡ word_at self.now.words v.0 }
        ensures fits { result.bits < 2 ^ width_at self.now.top.vars v.0 }
    {
        match self.words.get(v.0 as usize) {
            Some(word) => *word,
            None => Word { bits: 0 },
        }
    }

    /// Gives a variable of the module a word, which has no more bits than the variable. What reads it stays as it is until the next step.
    pub fn set(&mut self, v: VarId, word: Word)
        requires variable { v.0 < length self.old.top.vars }
        requires fits { word.bits < 2 ^ width_at self.old.top.vars v.0 }
        ensures same { self.new.top ≡ self.old.top }
        ensures words { word_at self.new.words ≡ updated v.0 word.bits (word_at self.old.words) }
    {
        put(self.top, &mut self.words, v, word);
    }

    /// Whether the words are one fitting word for each input but the clocks, in the order in which these are declared.
    pub fn takes(&self, inputs: &[Word]) -> bool
        ensures { result ≡ true → AreHanded (width_at self.now.top.vars) (runs.inputs_of self.now.top) inputs.now }
    {
        are_handed(self.top, &self.inputs, inputs)
    }

    // Takes the settled valuation for the inputs and registers.
    fn run_combs(&mut self)
        ensures same { self.new.top ≡ self.old.top }
        ensures settled { steps.SettlesTo self.old.top (word_at self.old.words) (word_at self.new.words) }
    {
        sweep(self.top, &self.combs, &self.order, &mut self.words);
    }

    /// Sets the inputs but the clocks, loads what asynchronous resets load that have their level, and takes the settled valuation.
    pub fn settle(&mut self, inputs: &[Word])
        requires inputs { AreHanded (width_at self.old.top.vars) (runs.inputs_of self.old.top) inputs.now }
        ensures same { self.new.top ≡ self.old.top }
        ensures step { IsSettledStep self.old.top (given self.old.top inputs.now) (word_at self.old.words) (word_at self.new.words) }
    {
        hand(self.top, &self.inputs, inputs, &mut self.words);
        self.next.copy_from_slice(&self.words);
        reset_all(
            self.top,
            self.top.blocks.as_slice(),
            &self.words,
            &mut self.next,
        );
        mem::swap(&mut self.words, &mut self.next);
        self.run_combs();
    }

    // Does what the edges of clocks do, and takes the settled valuation.
    fn edge_by(&mut self, clocks: Clocks<'_>)
        ensures same { self.new.top ≡ self.old.top }
        ensures step { IsEdgeStep self.old.top (ticking clocks.entry.all clocks.entry.list.now) (word_at self.old.words) (word_at self.new.words) }
    {
        self.next.copy_from_slice(&self.words);
        edge_all(
            self.top,
            clocks,
            self.top.blocks.as_slice(),
            &self.words,
            &mut self.next,
        );
        mem::swap(&mut self.words, &mut self.next);
        self.run_combs();
    }

    /// Does what the edges of all clocks do, and takes the settled valuation.
    pub fn edge(&mut self)
        ensures same { self.new.top ≡ self.old.top }
        ensures step { IsEdgeStep self.old.top (λ v. true) (word_at self.old.words) (word_at self.new.words) }
    {
        self.edge_by(Clocks {
            all: true,
            list: &[],
        });
    }

    /// Does what the edges of these clocks do, and takes the settled valuation; nothing where there is none.
    pub fn edge_of(&mut self, clocks: &[VarId])
        ensures same { self.new.top ≡ self.old.top }
        ensures none { clocks.now ≡ [] → self.new.words ≡ self.old.words }
        ensures step { 0 < length clocks.now → IsEdgeStep self.old.top (is_listed clocks.now) (word_at self.old.words) (word_at self.new.words) }
    {
        if !clocks.is_empty() {
            self.edge_by(Clocks {
                all: false,
                list: clocks,
            });
        }
    }
}
