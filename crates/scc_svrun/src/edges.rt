//! Registers that edges set.
ghost use Rattle.std.specs.Prelude.{◌≡◌, ◌||◌};
ghost use Rattle.scc_svtree.specs.Sound.{loads_of};
ghost use Rattle.scc_svtree.specs.Steps.{after_edges, edge_word, set_word};
ghost use Rattle.scc_svtree.specs.Variables.{width_at, word_at};
ghost use Rattle.scc_svrun.specs.Edged.{edge_by, is_listed, over, ticking};
ghost use Rattle.scc_svrun.specs.Runnable.{AreLoadable, AreRunnableBlocks, AreSettable, IsRunnableBlock};
ghost use Rattle.scc_svrun.specs.Valued.{IsValuation};

use crate::resets::{is_active, load};
use crate::store::put;
use scc_bits::Word;
use scc_svtree::{SvBlock, SvModule, SvReset, SvSet, VarId, width, written};

/// Which clocks have an edge: all, or those of a list.
#[derive(Clone, Copy)]
pub struct Clocks<'a> {
    pub all: bool,
    pub list: &'a [VarId],
}

fn is_listed(list: &[VarId], v: VarId) -> bool
    ensures { result ≡ is_listed list.now v.0 }
{
    list.iter().any(|c| c.0 == v.0)
}

fn has_edge(clocks: Clocks<'_>, clock: VarId) -> bool
    ensures { result ≡ ticking clocks.entry.all clocks.entry.list.now clock.0 }
{
    clocks.all || is_listed(clocks.list, clock)
}

// Sets registers to values; of two sets of one the first counts.
fn set(m: &SvModule, sets: &[SvSet], x: &[Word], y: &mut [Word])
    requires sets { AreSettable (width_at m.now.vars) sets.now }
    requires read { IsValuation m.now.vars x.now }
    requires valuation { IsValuation m.now.vars y.old }
    ensures words { word_at y.new ≡ over (set_word (width_at m.now.vars) sets.now (word_at x.now)) (word_at y.old) }
    ensures valuation { IsValuation m.now.vars y.new }
{
    let mut k = sets.len();
    while k > 0 {
        k -= 1;
        let s = &sets[k];
        let word = written(m, &s.value, x, width(m, s.target));
        put(m, y, s.target, word);
    }
}

// What the edge of a block's clock does.
fn tick(m: &SvModule, reset: &Option<SvReset>, sets: &[SvSet], x: &[Word], y: &mut [Word])
    requires sets { AreSettable (width_at m.now.vars) sets.now }
    requires loads { AreLoadable (width_at m.now.vars) (loads_of reset.now) }
    requires read { IsValuation m.now.vars x.now }
    requires valuation { IsValuation m.now.vars y.old }
    ensures words { word_at y.new ≡ over (edge_word (width_at m.now.vars) reset.now sets.now (word_at x.now)) (word_at y.old) }
    ensures valuation { IsValuation m.now.vars y.new }
{
    match reset {
        None => set(m, sets, x, y),
        Some(r) => {
            if is_active(r, x) {
                load(m, r.values.as_slice(), y);
            } else {
                set(m, sets, x, y);
            }
        }
    }
}

fn edge_block(m: &SvModule, clocks: Clocks<'_>, b: &SvBlock, x: &[Word], y: &mut [Word])
    requires block { IsRunnableBlock (width_at m.now.vars) b.now }
    requires read { IsValuation m.now.vars x.now }
    requires valuation { IsValuation m.now.vars y.old }
    ensures words { word_at y.new ≡ edge_by (width_at m.now.vars) (ticking clocks.entry.all clocks.entry.list.now) b.now (word_at x.now) (word_at y.old) }
    ensures valuation { IsValuation m.now.vars y.new }
{
    match b {
        SvBlock::Comb(_) => {}
        SvBlock::Edge {
            clock,
            reset,
            sets,
            ..
        } => {
            if has_edge(clocks, *clock) {
                tick(m, reset, sets.as_slice(), x, y);
            }
        }
    }
}

/// Does what the edges of clocks do.
pub fn edge_all(m: &SvModule, clocks: Clocks<'_>, blocks: &[SvBlock], x: &[Word], y: &mut [Word])
    requires blocks { AreRunnableBlocks (width_at m.now.vars) blocks.now }
    requires read { IsValuation m.now.vars x.now }
    requires valuation { IsValuation m.now.vars y.old }
    requires same { word_at y.old ≡ word_at x.now }
    ensures words { word_at y.new ≡ after_edges (width_at m.now.vars) (ticking clocks.entry.all clocks.entry.list.now) blocks.now (word_at x.now) }
    ensures valuation { IsValuation m.now.vars y.new }
{
    let mut k = blocks.len();
    while k > 0 {
        k -= 1;
        edge_block(m, clocks, &blocks[k], x, y);
    }
}
