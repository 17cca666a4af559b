//! Expressions and locations that fit: kinds, names and sorts are as they must be. First operands are as many as a source is long, so they
//! are gone along by a loop.
ghost use Rattle.std.specs.Prelude.{◌≡◌, ◌+◌, ◌-◌, ◌^◌, ◌&&◌, ◌∷◌, IfOk, map, min, nat_eq, nat_le, nat_lt, slice_get, true, false, Some, ℕ};
ghost use Rattle.std.specs.List.{list_all};
ghost use Rattle.scc_base.specs.declared.refusal.Place.{Place};
ghost use Rattle.scc_bits_kinds.specs.Kinds.{width_of};
ghost use Rattle.scc_bits_kinds.specs.declared.kind.Kind.TheVariants.{Bool};
ghost use Rattle.scc_bits.specs.Values.{kind_of as operator_kind};
ghost use Rattle.scc_core.specs.Operands.{first_of};
ghost use Rattle.scc_core_spec.specs.Fit.{is_kind, is_name, same_kind};
ghost use Rattle.scc_core_spec.specs.Term as term;
ghost use Rattle.scc_core_view.specs.Programs.{cell_of};
ghost use Rattle.scc_core_view.specs.Terms.{extended, joined, name_of, taken_of, term_of};
ghost use Rattle.scc_core_look.specs.Fits.{AreLow, IfIn, IsGround, IsIn, IsLeft, IsPick, IsRight, IsTerm, alone, begins_open, front_passes, here, mine, names_none, part_fits, part_term, pick_term, some_pick, whole_kind};
ghost use Rattle.scc_core_look.specs.Seen.{rooted_input, writes};
ghost use Rattle.scc_core_look.specs.declared.seen.Test.TheVariants as test;

use crate::cells::is_unnamed;
use crate::exits::both;
use crate::locals::{same_kind, same_path, word_fits};
use crate::rows::Rows;
use crate::seen::{Test, asked, rooted_input, seen_of, writes};
use scc_base::{List, NoMemory};
use scc_bits::{Kind, Op, result_kind, width};
use scc_core::{
    Cell, CellName, CoreBase, CoreExpr, CoreExprNode, CoreLeft, CorePart, CorePick, CoreProcess,
    Places, deeper, first_operand,
};

/// What a look at a process is given.
#[derive(Clone, Copy)]
pub struct Ground<'a> {
    pub cells: &'a List<Cell>,
    pub places: &'a Places,
    pub rows: &'a Rows,
    pub process: &'a CoreProcess,
}

fn is_bool(kind: Kind) -> bool
    ensures { result ≡ same_kind kind Bool }
{
    same_kind(kind, Kind::Bool)
}

fn name_fits(g: &Ground<'_>, name: &CellName) -> bool
    ensures { result ≡ true → is_name (mine g.now) (name_of name.now) ≡ true }
{
    match name.local {
        None => name.indices.is_empty(),
        Some(_) => same_path(name.path.as_slice(), g.process.name.path.as_slice()),
    }
}

// Whether a cell is no input of the top, nor stands for one, where the test is for what is written.
fn stays_dry(g: &Ground<'_>, cell: &Cell, test: Test) -> bool
    ensures { result ≡ true → IsGround g.now → writes test ≡ true → rooted_input (here g.now) (cell_of cell.now) ≡ false }
{
    if writes(test) {
        !rooted_input(g.places, g.cells, cell)
    } else {
        true
    }
}

fn one_passes(g: &Ground<'_>, cell: &Cell, test: Test) -> bool
    ensures { result ≡ true → IsGround g.now → (p : Place) (number : ℕ) → slice_get g.now.cells.now number ≡ Some cell.now → IsLeft g.now test (term.Cell p number) }
{
    let told = both(asked(test, seen_of(cell)), stays_dry(g, cell, test));
    both(name_fits(g, &cell.name), told)
}

fn cell_passes(g: &Ground<'_>, number: u32, test: Test) -> bool
    ensures { result ≡ true → IsGround g.now → (p : Place) → IsLeft g.now test (term.Cell p number) }
{
    match g.cells.get(number as usize) {
        Some(cell) => one_passes(g, cell, test),
        None => false,
    }
}

fn begins_open(parts: &[CorePart]) -> bool
    ensures { result ≡ begins_open parts.now }
{
    match parts {
        [] => false,
        [part, ..] => match part {
            CorePart::Index { .. } => true,
            CorePart::Member(_) => false,
        },
    }
}

// Whether a name stands without parts, and no cell has it: a pointer that leads past the end of an array leads there.
fn names_none(g: &Ground<'_>, name: &CellName, parts: &[CorePart]) -> bool
    ensures { result ≡ names_none g.now name.now parts.now }
{
    match parts {
        [] => is_unnamed(g.places, name),
        [_, ..] => false,
    }
}

// Whether each cell that a name and its parts may name passes.
fn front_passes(
    g: &Ground<'_>,
    name: &CellName,
    parts: &[CorePart],
    test: Test,
) -> Result<bool, NoMemory>
    ensures { IfOk result (λ b. b ≡ true → IsGround g.now → front_passes g.now name.now parts.now test ≡ true) }
{
    if begins_open(parts) {
        g.rows.passes(g.cells, name, parts, test)
    } else {
        Ok(names_none(g, name, parts))
    }
}

/// Whether an expression fits, and has the kind that its term tells.
#[cycle(looks)]
pub fn expression_fits(g: &Ground<'_>, e: &CoreExpr, levels: u32) -> Result<bool, NoMemory>
    ensures { IfOk result (λ b. b ≡ true → IsGround g.now → IsIn g.now e.now) }
{
    let levels = deeper(levels)?;
    let mut fit = true;
    let mut here = e;
    loop {
        fit = both(fit, beside_fits(g, here, levels)?);
        match first_operand(here) {
            Some(inner) => here = inner,
            None => return Ok(fit),
        }
    }
}

// Whether it does where its first operand does.
#[cycle(looks)]
fn beside_fits(g: &Ground<'_>, e: &CoreExpr, levels: u32) -> Result<bool, NoMemory>
    ensures { IfOk result (λ b. b ≡ true → IsGround g.now → IfIn g.now (first_of e.now) → IsIn g.now e.now) }
{
    match e.node.get() {
        CoreExprNode::Lit(word) => Ok(word_fits(e.kind, *word)),
        CoreExprNode::Load(left) => load_fits(g, e.kind, left, levels),
        CoreExprNode::Read(left) => read_fits(g, e.kind, left, levels),
        CoreExprNode::Convert(_) => Ok(true),
        CoreExprNode::Operate { op, left, right } => operand_fits(
            g, e.kind, *op, left.kind, right, levels,
        ),
        CoreExprNode::Choose { yes, no, .. } => Ok(both(
            expression_fits(g, yes, levels)?,
            expression_fits(g, no, levels)?,
        )),
        CoreExprNode::Pick { pick, .. } => bits_fit(g, e.kind, pick, levels),
        CoreExprNode::Join(parts) => join_fits(g, e.kind, parts.as_slice(), levels),
    }
}

fn rule_fits(kind: Kind, op: Op, left: Kind, right: Kind) -> bool
    ensures { result ≡ is_kind (operator_kind op left right) kind }
{
    match result_kind(op, left, right) {
        Some(found) => same_kind(found, kind),
        None => false,
    }
}

#[cycle(looks)]
fn operand_fits(
    g: &Ground<'_>,
    kind: Kind,
    op: Op,
    left: Kind,
    right: &Option<CoreExpr>,
    levels: u32,
) -> Result<bool, NoMemory>
    ensures { IfOk result (λ b. b ≡ true → IsGround g.now → IsRight g.now kind op left right.now) }
{
    match right {
        Some(right) => Ok(both(
            rule_fits(kind, op, left, right.kind),
            expression_fits(g, right, levels)?,
        )),
        None => Ok(rule_fits(kind, op, left, left)),
    }
}

// The kind of the whole number of which a part is taken, or that of the expression.
fn whole_kind(kind: Kind, pick: &Option<CorePick>) -> Kind
    ensures { result ≡ whole_kind kind pick.now }
{
    match pick {
        Some(CorePick::Bit { of, .. }) => *of,
        Some(CorePick::Range { of, .. }) => *of,
        None => kind,
    }
}

#[cycle(looks)]
fn load_fits(g: &Ground<'_>, kind: Kind, left: &CoreLeft, levels: u32) -> Result<bool, NoMemory>
    ensures { IfOk result (λ b. b ≡ true → IsGround g.now → IsLeft g.now (test.Load (whole_kind kind left.now.pick)) (taken_of left.now).left × IsPick g.now kind (some_pick left.now.pick)) }
{
    let test = Test::Load(whole_kind(kind, &left.pick));
    Ok(both(
        left_fits(g, left, test, levels)?,
        pick_fits(g, kind, &left.pick, levels)?,
    ))
}

#[cycle(looks)]
fn read_fits(g: &Ground<'_>, kind: Kind, left: &CoreLeft, levels: u32) -> Result<bool, NoMemory>
    ensures { IfOk result (λ b. b ≡ true → IsGround g.now → IsLeft g.now (test.Read (whole_kind kind left.now.pick)) (taken_of left.now).left × IsPick g.now kind (some_pick left.now.pick)) }
{
    let test = Test::Read(whole_kind(kind, &left.pick));
    Ok(both(
        left_fits(g, left, test, levels)?,
        pick_fits(g, kind, &left.pick, levels)?,
    ))
}

#[cycle(looks)]
fn pick_fits(
    g: &Ground<'_>,
    kind: Kind,
    pick: &Option<CorePick>,
    levels: u32,
) -> Result<bool, NoMemory>
    ensures { IfOk result (λ b. b ≡ true → IsGround g.now → IsPick g.now kind (some_pick pick.now)) }
{
    match pick {
        Some(pick) => bits_fit(g, kind, pick, levels),
        None => Ok(true),
    }
}

fn range_fits(kind: Kind, h: u32, l: u32) -> bool
    ensures { result ≡ true → nat_eq (width_of kind) (h - l + 1) ≡ true }
{
    l <= h && u64::from(width(kind)) == u64::from(h) - u64::from(l) + 1
}

// Whether bits of what fits do.
#[cycle(looks)]
fn bits_fit(g: &Ground<'_>, kind: Kind, pick: &CorePick, levels: u32) -> Result<bool, NoMemory>
    ensures { IfOk result (λ b. b ≡ true → IsGround g.now → IsPick g.now kind (pick_term pick.now).pick) }
{
    match pick {
        CorePick::Bit { at, .. } => Ok(both(is_bool(kind), expression_fits(g, at, levels)?)),
        CorePick::Range { h, l, .. } => Ok(range_fits(kind, *h, *l)),
    }
}

// Whether the parts of a concatenation fit, and have no more bits than the whole.
#[cycle(looks)]
fn join_fits(g: &Ground<'_>, kind: Kind, parts: &[CoreExpr], levels: u32) -> Result<bool, NoMemory>
    ensures { IfOk result (λ b. b ≡ true → IsGround g.now → (p : Place) → IsTerm g.now kind (joined p kind (map term_of parts.now))) }
{
    match parts {
        [] => Ok(false),
        [one, more @ ..] => some_fit(g, kind, one, more, levels),
    }
}

#[cycle(looks)]
fn some_fit(
    g: &Ground<'_>,
    kind: Kind,
    one: &CoreExpr,
    more: &[CoreExpr],
    levels: u32,
) -> Result<bool, NoMemory>
    ensures { IfOk result (λ b. b ≡ true → IsGround g.now → (p : Place) → IsTerm g.now kind (joined p kind (map term_of (one.now ∷ more.now)))) }
{
    let first = expression_fits(g, one, levels)?;
    let rest = low_parts_fit(g, width(kind), wide(one.kind), more, levels)?;
    Ok(both(alone_fits(more, kind, one.kind), both(first, rest)))
}

// A part that stands alone has the kind of the whole.
fn alone_fits(more: &[CoreExpr], kind: Kind, one: Kind) -> bool
    ensures { result ≡ alone kind one more.now }
{
    match more {
        [] => same_kind(one, kind),
        [_, ..] => true,
    }
}

fn is_narrow(bits: u64, limit: u32, fit: bool) -> bool
    ensures { result ≡ (nat_le bits limit && fit) }
{
    bits <= u64::from(limit) && fit
}

fn wide(kind: Kind) -> u64
    ensures { result ≡ width_of kind }
{
    u64::from(width(kind))
}

fn more_bits(bits: u64, more: u32) -> u64
    ensures { result ≡ min (bits + more) 18446744073709551615 }
{
    bits.saturating_add(u64::from(more))
}

// Whether further parts fit behind so many bits.
#[cycle(looks)]
fn low_parts_fit(
    g: &Ground<'_>,
    limit: u32,
    bits: u64,
    parts: &[CoreExpr],
    levels: u32,
) -> Result<bool, NoMemory>
    ensures { IfOk result (λ b. b ≡ true → IsGround g.now → AreLow g.now limit bits parts.now) }
{
    let mut fit = true;
    let mut bits = bits;
    for part in parts {
        bits = more_bits(bits, width(part.kind));
        fit = both(
            fit,
            is_narrow(bits, limit, expression_fits(g, part, levels)?),
        );
    }
    Ok(fit)
}

/// Whether a location fits, and each cell that it may name passes.
#[cycle(looks)]
pub fn left_fits(g: &Ground<'_>, left: &CoreLeft, test: Test, levels: u32) -> Result<bool, NoMemory>
    ensures { IfOk result (λ b. b ≡ true → IsGround g.now → IsLeft g.now test (taken_of left.now).left) }
{
    match &left.base {
        CoreBase::Cell(number) => Ok(both(left.parts.is_empty(), cell_passes(g, *number, test))),
        CoreBase::Prefix(name) => front_fits(g, name, left.parts.as_slice(), test, levels),
        CoreBase::Follow { .. } | CoreBase::Null => Ok(false),
    }
}

#[cycle(looks)]
fn front_fits(
    g: &Ground<'_>,
    name: &CellName,
    parts: &[CorePart],
    test: Test,
    levels: u32,
) -> Result<bool, NoMemory>
    ensures { IfOk result (λ b. b ≡ true → IsGround g.now → (p : Place) → IsLeft g.now test (extended (term.Prefix p (name_of name.now)) (map part_term parts.now))) }
{
    let fit = parts_fit(g, parts, levels)?;
    let named = both(name_fits(g, name), front_passes(g, name, parts, test)?);
    Ok(both(named, fit))
}

#[cycle(looks)]
fn parts_fit(g: &Ground<'_>, parts: &[CorePart], levels: u32) -> Result<bool, NoMemory>
    ensures { IfOk result (λ b. b ≡ true → IsGround g.now → list_all (part_fits g.now) parts.now ≡ true) }
{
    let mut fit = true;
    for part in parts {
        fit = both(fit, part_fits(g, part, levels)?);
    }
    Ok(fit)
}

#[cycle(looks)]
fn part_fits(g: &Ground<'_>, part: &CorePart, levels: u32) -> Result<bool, NoMemory>
    ensures { IfOk result (λ b. b ≡ true → IsGround g.now → part_fits g.now part.now ≡ true) }
{
    match part {
        CorePart::Member(_) => Ok(true),
        CorePart::Index { at, .. } => expression_fits(g, at, levels),
    }
}
