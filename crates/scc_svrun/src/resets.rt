//! Registers that resets load.
ghost use Rattle.std.specs.Prelude.{◌≡◌};
ghost use Rattle.scc_svtree.specs.Steps as steps;
ghost use Rattle.scc_svtree.specs.Steps.{after_resets, loaded};
ghost use Rattle.scc_svtree.specs.Variables.{width_at, word_at};
ghost use Rattle.scc_svrun.specs.Edged.{over, reset_by};
ghost use Rattle.scc_svrun.specs.Runnable.{AreLoadable, AreRunnableBlocks, IsRunnableBlock};
ghost use Rattle.scc_svrun.specs.Valued.{IsValuation};

use crate::store::put;
use scc_bits::Word;
use scc_svtree::{SvBlock, SvLoad, SvModule, SvReset};

/// Loads registers; of two loads of one the first counts.
pub fn load(m: &SvModule, loads: &[SvLoad], y: &mut [Word])
    requires loads { AreLoadable (width_at m.now.vars) loads.now }
    requires valuation { IsValuation m.now.vars y.old }
    ensures words { word_at y.new ≡ over (loaded loads.now) (word_at y.old) }
    ensures valuation { IsValuation m.now.vars y.new }
{
    let mut k = loads.len();
    while k > 0 {
        k -= 1;
        let l = loads[k];
        put(m, y, l.target, l.value);
    }
}

/// Whether a reset has its level.
pub fn is_active(r: &SvReset, x: &[Word]) -> bool
    ensures { result ≡ steps.is_active r.now (word_at x.now) }
{
    let is_low = match x.get(r.signal.0 as usize) {
        Some(word) => word.bits == 0,
        None => true,
    };
    if r.rising { !is_low } else { is_low }
}

fn reset_block(m: &SvModule, b: &SvBlock, x: &[Word], y: &mut [Word])
    requires block { IsRunnableBlock (width_at m.now.vars) b.now }
    requires valuation { IsValuation m.now.vars y.old }
    ensures words { word_at y.new ≡ reset_by b.now (word_at x.now) (word_at y.old) }
    ensures valuation { IsValuation m.now.vars y.new }
{
    match b {
        SvBlock::Comb(_) => {}
        SvBlock::Edge { reset, .. } => match reset {
            None => {}
            Some(r) => {
                if is_active(r, x) {
                    load(m, r.values.as_slice(), y);
                }
            }
        },
    }
}

/// Loads what resets load that have their level.
pub fn reset_all(m: &SvModule, blocks: &[SvBlock], x: &[Word], y: &mut [Word])
    requires blocks { AreRunnableBlocks (width_at m.now.vars) blocks.now }
    requires valuation { IsValuation m.now.vars y.old }
    requires same { word_at y.old ≡ word_at x.now }
    ensures words { word_at y.new ≡ after_resets blocks.now (word_at x.now) }
    ensures valuation { IsValuation m.now.vars y.new }
{
    let mut k = blocks.len();
    while k > 0 {
        k -= 1;
        reset_block(m, &blocks[k], x, y);
    }
}
