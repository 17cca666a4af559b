//! Bits of variables.
ghost use Rattle.std.specs.Prelude.{◌≡◌, ◌+◌, ◌-◌, ◌&&◌, IfOk, Some, min, nat_eq};
ghost use Rattle.scc_svtree.specs.Term as term;
ghost use Rattle.scc_svtree.specs.Term.{term_of};
ghost use Rattle.scc_lower_spec.specs.Selected.{part_left};
ghost use Rattle.scc_lower_expressions.specs.Reads.{part_of, read_term, read_text};

use crate::built::{left, literal};
use crate::lowering::{Cells, Lowering, View, constant_of, read_of};
use scc_base::{NoMemory, lost};
use scc_bits::{Kind, Value, Word, width};
use scc_svtree::{SvExpr, SvLeft, VarId};
use std::alloc::Global;

/// Bits h down to l.
#[derive(Clone, Copy)]
pub struct Bits {
    pub h: u32,
    pub l: u32,
}

impl Bits {
    /// All of so many.
    pub fn all(width: u32) -> Result<Bits, NoMemory>
        ensures high { IfOk result (λ b. b.h + 1 ≡ width) }
        ensures low { IfOk result (λ b. b.l ≡ 0) }
    {
        match width.checked_sub(1) {
            Some(h) => Ok(Bits { h, l: 0 }),
            None => Err(lost()),
        }
    }

    /// How many there are.
    pub fn count(self) -> Result<u32, NoMemory>
        ensures count { IfOk result (λ n. n ≡ min (self.h - self.l + 1) 4294967295) }
        ensures exactly { IfOk result (λ n. n ≡ self.h - self.l + 1) }
    {
        match self.h.checked_sub(self.l).and_then(|n| n.checked_add(1)) {
            Some(n) => Ok(n),
            None => Err(lost()),
        }
    }
}

/// Bits of a variable of a width; all of them are the variable itself.
pub fn part(var: VarId, width: u32, bits: Bits) -> SvLeft
    ensures { result ≡ part_left var width bits.h bits.l }
{
    let Bits { h, l } = bits;
    if are_all(width, h, l) {
        SvLeft::Whole(var)
    } else if h == l {
        SvLeft::Bit { var, at: h }
    } else {
        SvLeft::Range { var, h, l }
    }
}

// Whether bits h down to l are all of so many.
fn are_all(width: u32, h: u32, l: u32) -> bool
    ensures { result ≡ (nat_eq l 0 && nat_eq h (width - 1)) }
{
    l == 0 && h == width.saturating_sub(1)
}

/// A read of bits of a cell.
pub fn read_part(
    alloc: Global,
    cells: Cells<'_>,
    cx: &Lowering<'_>,
    cell: u32,
    bits: Bits,
) -> Result<SvExpr, NoMemory>
    ensures { IfOk result (λ e. read_text cells.entry.cells.now cx.now.views.now cell bits.h bits.l ≡ Some (term_of e)) }
{
    let kind = cells.cell(cell)?.kind;
    let view = cx.view(cell)?;
    read_in(alloc, view, kind, cell, bits)
}

fn read_in(alloc: Global, view: View, kind: Kind, cell: u32, bits: Bits) -> Result<SvExpr, NoMemory>
    ensures { IfOk result (λ e. term_of e ≡ read_term view kind cell bits.h bits.l) }
{
    match constant_of(view) {
        Some(word) => constant_part(alloc, kind, word, bits),
        None => {
            let var = read_of(view, cell)?;
            left(alloc, part(var, width(kind), bits))
        }
    }
}

fn constant_part(alloc: Global, kind: Kind, word: Word, bits: Bits) -> Result<SvExpr, NoMemory>
    ensures { IfOk result (λ e. term_of e ≡ term.Literal (min (bits.h - bits.l + 1) 4294967295) (part_of bits.h bits.l word.bits)) }
{
    let Some(v) = Value::of(kind, word) else {
        return Err(lost());
    };
    let bits_there = bits_of(v, bits)?;
    literal(alloc, bits.count()?, bits_there)
}

/// The word of some bits of a number.
pub fn bits_of(v: Value, bits: Bits) -> Result<u128, NoMemory>
    ensures { IfOk result (λ w. w ≡ part_of bits.h bits.l v.word) }
{
    let kind = v.kind();
    let all = width(kind);
    let word = v.word();
    if are_all(all, bits.h, bits.l) {
        return Ok(word.bits);
    }
    match v.selected(bits.h, bits.l) {
        Some(part) => Ok(part.word().bits),
        None => Err(lost()),
    }
}
