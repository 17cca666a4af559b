//! The inputs of a module but its clocks, and words that are handed in for them.
ghost use Rattle.std.specs.Prelude.{◌≡◌, ℕ, ◌<◌, ◌^◌, ◌||◌, nat_eq, true, length, IfOk};
ghost use Rattle.scc_svtree_order.specs.Search.{is_seen};
ghost use Rattle.scc_svtree.specs.Steps as steps;
ghost use Rattle.scc_svtree.specs.Variables.{IsWidth, width_at, word_at};
ghost use Rattle.scc_svrun.specs.Edged.{AreHanded, handed, over};
ghost use Rattle.scc_svrun.specs.Runs as runs;
ghost use Rattle.scc_svrun.specs.Runs.{inputs_from};
ghost use Rattle.scc_svrun.specs.Valued.{IsValuation};

use crate::store::put;
use scc_base::NoMemory;
use scc_bits::Word;
use scc_svtree::{Dir, SvBlock, SvModule, SvVar, VarId, width};
use std::alloc::Global;

fn is_marked(marks: &[bool], v: usize) -> bool
    ensures { result ≡ is_seen marks.now v }
{
    match marks.get(v) {
        Some(mark) => *mark,
        None => false,
    }
}

fn mark(marks: &mut Vec<bool>, v: usize)
    ensures long { length marks.new.items ≡ length marks.old.items }
    ensures marked { (i : ℕ) → i < length marks.old.items → is_seen marks.new.items i ≡ (nat_eq i v || is_seen marks.old.items i) }
{
    if v < marks.len() {
        marks[v] = true;
    }
}

// Which of n variables are clocks.
fn clock_marks(alloc: Global, n: usize, blocks: &[SvBlock]) -> Result<Vec<bool>, NoMemory>
    ensures { IfOk result (λ l. (v : ℕ) → v < n → is_seen l.items v ≡ steps.is_clock blocks.now v) }
{
    let mut marks = vec![in alloc; false; n]?;
    for b in blocks {
        if let SvBlock::Edge { clock, .. } = b {
            mark(&mut marks, clock.0 as usize);
        }
    }
    Ok(marks)
}

fn is_input(v: &SvVar) -> bool
    ensures { result ≡ steps.is_input v.now.dir }
{
    matches!(v.dir, Dir::Input)
}

// The inputs without a mark.
fn unmarked(alloc: Global, vars: &[SvVar], marks: &[bool]) -> Result<Vec<VarId>, NoMemory>
    requires { length vars.now < 2 ^ 32 }
    ensures { IfOk result (λ l. l.items ≡ inputs_from 0 (is_seen marks.now) vars.now) }
{
    let mut list = Vec::new(alloc);
    for (n, v) in vars.iter().enumerate() {
        if is_input(v) && !is_marked(marks, n) {
            list.push(VarId(n as u32))?;
        }
    }
    Ok(list)
}

/// The inputs but the clocks, in the order in which they are declared.
pub fn inputs_of(alloc: Global, m: &SvModule) -> Result<Vec<VarId>, NoMemory>
    requires { length m.now.vars < 2 ^ 32 }
    ensures { IfOk result (λ l. l.items ≡ runs.inputs_of m.now) }
{
    let vars = m.vars.as_slice();
    let marks = clock_marks(alloc, vars.len(), m.blocks.as_slice())?;
    let list = unmarked(alloc, vars, marks.as_slice())?;
    Ok(list)
}

/// Gives variables the words that are handed in; of two of one the first counts.
pub fn hand(m: &SvModule, vars: &[VarId], words: &[Word], y: &mut [Word])
    requires words { AreHanded (width_at m.now.vars) vars.now words.now }
    requires lengths { length words.now ≡ length vars.now }
    requires valuation { IsValuation m.now.vars y.old }
    ensures words { word_at y.new ≡ over (handed vars.now words.now) (word_at y.old) }
    ensures valuation { IsValuation m.now.vars y.new }
{
    let mut k = vars.len();
    while k > 0 {
        k -= 1;
        put(m, y, vars[k], words[k]);
    }
}

// Whether a word fits a variable that there is.
fn fits_in(m: &SvModule, v: VarId, word: Word) -> bool
    ensures width { result ≡ true → IsWidth (width_at m.now.vars v.0) }
    ensures fits { result ≡ true → word.bits < 2 ^ width_at m.now.vars v.0 }
{
    let n = width(m, v);
    if n == 0 || n > 128 {
        return false;
    }
    n == 128 || word.bits < 1 << n
}

/// Whether there is one fitting word for each variable.
pub fn are_handed(m: &SvModule, vars: &[VarId], words: &[Word]) -> bool
    ensures { result ≡ true → AreHanded (width_at m.now.vars) vars.now words.now }
{
    match (vars, words) {
        ([], []) => true,
        ([v, vs @ ..], [w, ws @ ..]) => fits_in(m, *v, *w) && are_handed(m, vs, ws),
        _ => false,
    }
}
