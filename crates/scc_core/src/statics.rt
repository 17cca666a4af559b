//! Values of expressions that are made of literals and fixed cells. A chain of operators is as long as its source, so it
//! is gone along by loops; no memory is taken.
ghost use Rattle.std.specs.Prelude.{◌≡◌, ◌≤◌, ◌<◌, ◌+◌, IfSome, Some, None, false, map, not, nat_eq, length, slice_get, option_map, option_and_then};
ghost use Rattle.std.specs.Option.{option_copied};
ghost use Rattle.scc_core.specs.declared.expr.CoreExpr.{size-CoreExpr};
ghost use Rattle.scc_core.specs.Known.{IsAlone, counted, facts_in, held_in};
ghost use Rattle.scc_core.specs.Names.{after, are_rest, are_steps, behind, is_pointer, same_part, same_step, same_steps, sought, walk};
ghost use Rattle.scc_core.specs.Numbers.{above, all_joined, answer, bit, selected, small, stored_in, valued};
ghost use Rattle.scc_core.specs.Operands.{first_of, inner, operand};
ghost use Rattle.scc_core.specs.Rests.{steps_in};
ghost use Rattle.scc_core.specs.Elements.{element, fixed, found, inside, is_below, step_at};
ghost use Rattle.scc_core.specs.Statics.{chosen, left_value, part_in, pick_in, static_of, value_in};

use crate::{
    Cell, CellName, CellSort, CoreBase, CoreExpr, CoreExprNode, CoreLeft, CorePart, CorePick,
    NameStep, Places, Spot,
};
use indexmap::IndexMap;
use scc_base::{List, PathPart};
use scc_bits::{Kind, Op, Value, Word};

/// The numbers of the counters of counted loops, by their cells.
pub type Counters = IndexMap<u32, Value>;

/// What is known of cells before a run: the fixed ones, and the counters that stand as literals.
#[derive(Clone, Copy)]
pub struct Known<'a> {
    cells: &'a List<Cell>,
    /// Where the cells stand by their names; without it they are sought one by one.
    places: Option<&'a Places>,
    counters: Option<&'a Counters>,
}

/// The value of an expression that is made of literals and fixed cells; None exactly where it has another part. A read of
/// a fixed array past its end is 0.
pub fn static_value(cells: &List<Cell>, e: &CoreExpr) -> Option<Word>
    ensures { option_map (λ w. w.bits) result ≡ option_map (λ v. v.word) (static_of cells.now e.now) }
{
    Some(Known::alone(cells).value(e)?.word())
}

// The operand of an expression that stands first in it, and is as deep as a chain of operators is long.
pub fn first_operand(e: &CoreExpr) -> Option<&CoreExpr>
    ensures smaller { IfSome result (λ x. size-CoreExpr x.now < size-CoreExpr e.now) }
    ensures operand { option_copied result ≡ first_of e.now }
{
    match e.node.get() {
        CoreExprNode::Convert(of) => Some(of),
        CoreExprNode::Operate { left, .. } => Some(left),
        CoreExprNode::Choose { test, .. } => Some(test),
        CoreExprNode::Pick { of, .. } => Some(of),
        _ => None,
    }
}

// How many first operands stand in one another, and the innermost; no more than the greatest number.
#[tactic(auto, using(crate::proofs::Along::step_down))]
fn innermost(e: &CoreExpr) -> (usize, &CoreExpr)
    ensures down { result.1.now ≡ operand result.0 e.now }
    ensures size { size-CoreExpr result.1.now + result.0 ≤ size-CoreExpr e.now }
    ensures end { result.0 < 18446744073709551615 → first_of result.1.now ≡ None }
{
    let mut height = 0usize;
    let mut here = e;
    while height < usize::MAX
        && let Some(inner) = first_operand(here)
    {
        height += 1;
        here = inner;
    }
    (height, here)
}

// The first operand so many levels down, or the innermost.
#[tactic(auto, using(crate::proofs::Along::step_down, crate::proofs::Along::stay_down))]
fn down(e: &CoreExpr, levels: usize) -> &CoreExpr
    ensures size { size-CoreExpr result.now ≤ size-CoreExpr e.now }
    ensures down { result.now ≡ operand levels e.now }
{
    let mut here = e;
    for _ in 0..levels {
        if let Some(inner) = first_operand(here) {
            here = inner;
        }
    }
    here
}

impl<'a> Known<'a> {
    /// What is known by the fixed cells alone.
    pub fn new(cells: &'a List<Cell>, places: &'a Places) -> Known<'a>
        ensures cells { result.cells.now ≡ cells.now }
        ensures places { result.places ≡ Some places.entry }
        ensures counters { result.counters ≡ None }
    {
        Known {
            cells,
            places: Some(places),
            counters: None,
        }
    }

    /// The same without a table of names: a name is sought among all cells.
    pub fn alone(cells: &'a List<Cell>) -> Known<'a>
        ensures alone { IsAlone result }
        ensures cells { result.cells.now ≡ cells.now }
    {
        Known {
            cells,
            places: None,
            counters: None,
        }
    }

    /// The same where these counters stand as literals.
    pub fn with(self, counters: &'a Counters) -> Known<'a>
        ensures cells { result.cells.now ≡ self.entry.cells.now }
        ensures places { result.places ≡ self.entry.places }
        ensures counters { result.counters ≡ Some counters.entry }
    {
        Known {
            cells: self.cells,
            places: self.places,
            counters: Some(counters),
        }
    }

    /// The cells.
    pub fn cells(&self) -> &'a List<Cell>
        ensures cells { result.now ≡ self.now.cells.now }
    {
        self.cells
    }

    /// Where they stand by their names.
    pub fn places(&self) -> Option<&'a Places>
        ensures { result ≡ self.now.places }
    {
        self.places
    }

    /// Which way an `if` always goes; None where its test isn't static.
    pub fn goes(&self, test: &CoreExpr) -> Option<bool>
        ensures goes { IsAlone self.now → result ≡ option_map (λ v. not (nat_eq v.word 0)) (static_of self.now.cells.now test.now) }
        ensures known { result ≡ option_map (λ v. not (nat_eq v.word 0)) (value_in (facts_in self.now) test.now) }
    {
        Some(self.value(test)?.is_true())
    }

    /// The number of a static expression; None exactly where it isn't static.
    #[tactic(auto, using(crate::proofs::Alone::alone_is))]
    pub fn value(&self, e: &CoreExpr) -> Option<Value>
        ensures value { IsAlone self.now → result ≡ static_of self.now.cells.now e.now }
        ensures known { result ≡ value_in (facts_in self.now) e.now }
    {
        self.number(e)
    }

    // The number of an expression, along its first operands.
    #[cycle(value)]
    fn number(&self, e: &CoreExpr) -> Option<Value>
        ensures { result ≡ value_in (facts_in self.now) e.now }
    {
        let (height, innermost) = innermost(e);
        if height == usize::MAX {
            return match self.number(innermost) {
                Some(first) => self.climb(e, height, first),
                None => None,
            };
        }
        match self.leaf(innermost) {
            Some(first) => self.climb(e, height, first),
            None => None,
        }
    }

    // The number of an expression from that of its first operand so many levels down: half the way, then the other half.
    #[cycle(value)]
    fn climb(&self, e: &CoreExpr, levels: usize, of: Value) -> Option<Value>
        ensures { value_in (facts_in self.now) (operand levels e.now) ≡ Some of → result ≡ value_in (facts_in self.now) e.now }
    {
        if levels == 0 {
            return Some(of);
        }
        if levels == 1 {
            return self.over(e, of);
        }
        let half = levels / 2;
        match self.climb(down(e, half), levels - half, of) {
            Some(of) => self.climb(e, half, of),
            None => None,
        }
    }

    // The number of an expression from that of its first operand; what has none is its own.
    #[cycle(value)]
    fn over(&self, e: &CoreExpr, of: Value) -> Option<Value>
        ensures { value_in (facts_in self.now) (inner e.now) ≡ Some of → result ≡ value_in (facts_in self.now) e.now }
    {
        let kind = e.kind;
        match e.node.get() {
            CoreExprNode::Convert(_) => stored(of, kind),
            CoreExprNode::Operate { op, right, .. } => {
                let right = match right {
                    Some(right) => self.number(right)?,
                    None => of,
                };
                numbered(kind, answered(*op, of, right)?)
            }
            CoreExprNode::Choose { yes, no, .. } => {
                let yes = self.number(yes)?;
                let no = self.number(no)?;
                choice(kind, of, yes, no)
            }
            CoreExprNode::Pick { pick, .. } => self.picked(pick, of, kind),
            _ => Some(of),
        }
    }

    // The number of an expression without a first operand.
    #[cycle(value)]
    fn leaf(&self, e: &CoreExpr) -> Option<Value>
        ensures { first_of e.now ≡ None → result ≡ value_in (facts_in self.now) e.now }
    {
        match e.node.get() {
            CoreExprNode::Lit(word) => numbered(e.kind, *word),
            CoreExprNode::Load(left) => self.load(left, e.kind),
            CoreExprNode::Join(parts) => {
                let whole = self.joined(parts.as_slice())?;
                numbered(e.kind, whole.word())
            }
            _ => None,
        }
    }

    #[cycle(value)]
    fn joined(&self, parts: &[CoreExpr]) -> Option<Value>
        ensures { result ≡ all_joined (map (value_in (facts_in self.now)) parts.now) }
    {
        let mut whole = None;
        for part in parts {
            let low = self.number(part)?;
            whole = match whole {
                None => Some(low),
                Some(high) => Some(joined(high, low)?),
            };
        }
        whole
    }

    // What a location holds.
    #[cycle(value)]
    fn load(&self, left: &CoreLeft, kind: Kind) -> Option<Value>
        ensures { result ≡ left_value (facts_in self.now) left.now kind }
    {
        let held = match &left.base {
            CoreBase::Cell(cell) if left.parts.is_empty() => self.held(*cell)?,
            CoreBase::Prefix(name) => self.element(left.parts.as_slice(), name)?,
            _ => return None,
        };
        match &left.pick {
            Some(pick) => self.picked(pick, held, kind),
            None => Some(held),
        }
    }

    // Bits of a number, in a kind.
    #[cycle(value)]
    fn picked(&self, pick: &CorePick, of: Value, kind: Kind) -> Option<Value>
        ensures { result ≡ pick_in (facts_in self.now) pick.now of kind }
    {
        match pick {
            CorePick::Bit { at, .. } => {
                let at = self.number(at)?;
                numbered(kind, bit(of, at))
            }
            CorePick::Range { h, l, .. } => numbered(kind, selected(*h, *l, of)?),
        }
    }

    // What stands at the elements and members behind a front part of a name: the cell of the first elements tells whether
    // they are fixed, and past an end stands 0.
    #[cycle(value)]
    fn element(&self, parts: &[CorePart], name: &CellName) -> Option<Value>
        ensures { result ≡ element (facts_in self.now) (map (part_in (facts_in self.now)) parts.now) name.now }
    {
        let inside = self.inside(parts)?;
        if inside && let Some(cell) = self.find(parts, name, false) {
            return self.fixed(cell);
        }
        let first = self.fixed(self.find(parts, name, true)?)?;
        numbered(first.kind(), Word { bits: 0 })
    }

    // Whether all indices are inside their sizes; None where one isn't static.
    #[cycle(value)]
    fn inside(&self, parts: &[CorePart]) -> Option<bool>
        ensures { result ≡ inside (map (part_in (facts_in self.now)) parts.now) }
    {
        let mut inside = true;
        for part in parts {
            if let CorePart::Index { size, at } = part {
                let at = self.number(at)?;
                inside = below(*size, small(at)) && inside;
            }
        }
        Some(inside)
    }

    // The cell of the elements and members behind a front part of a name, or that of the first elements.
    #[cycle(value)]
    #[tactic(auto, unfolding(crate::specs::Names::placed))]
    pub(crate) fn find(&self, parts: &[CorePart], name: &CellName, first: bool) -> Option<u32>
        ensures { result ≡ found (facts_in self.now) first (map (part_in (facts_in self.now)) parts.now) name.now }
    {
        let Some(places) = self.places else {
            return self.sought(parts, name, first);
        };
        let at = places.name(name)?;
        let at = self.walked(parts, places, at, first)?;
        places.cell(at)
    }

    // What the parts lead to in a table of names.
    #[cycle(value)]
    fn walked(&self, parts: &[CorePart], places: &Places, at: Spot, first: bool) -> Option<Spot>
        ensures { result ≡ walk places.now at (map (step_at first) (map (part_in (facts_in self.now)) parts.now)) }
    {
        let mut at = at;
        for part in parts {
            at = places.step(at, self.step(part, first)?)?;
        }
        Some(at)
    }

    // The step of a part with a static index.
    #[cycle(value)]
    fn step(&self, part: &CorePart, first: bool) -> Option<NameStep>
        ensures { result ≡ step_at first (part_in (facts_in self.now) part.now) }
    {
        match part {
            CorePart::Member(name) => Some(NameStep::Member(*name)),
            CorePart::Index { at, .. } => {
                if first {
                    return Some(NameStep::Index(0));
                }
                let at = self.number(at)?;
                Some(NameStep::Index(small(at)?))
            }
        }
    }

    // The same cell, sought among all.
    #[cycle(value)]
    #[tactic(auto, using(crate::proofs::Loops::from_first))]
    fn sought(&self, parts: &[CorePart], name: &CellName, first: bool) -> Option<u32>
        ensures { result ≡ sought (map (step_at first) (map (part_in (facts_in self.now)) parts.now)) name.now self.now.cells.now }
    {
        for (number, cell) in self.cells.as_slice().iter().enumerate() {
            if !is_pointer(cell) && self.ends(parts, behind(&cell.name, name), first) {
                return u32::try_from(number).ok();
            }
        }
        None
    }

    // Whether just these steps are left of a name.
    #[cycle(value)]
    fn ends(&self, parts: &[CorePart], rest: Option<Rest>, first: bool) -> bool
        ensures { result ≡ are_rest (map (step_at first) (map (part_in (facts_in self.now)) parts.now)) (option_map steps_in rest.entry) }
    {
        match rest {
            Some(rest) => self.are(parts, rest, first),
            None => false,
        }
    }

    // Whether the steps of the parts are just those of a rest.
    #[cycle(value)]
    fn are(&self, parts: &[CorePart], rest: Rest, first: bool) -> bool
        ensures { result ≡ are_steps (map (step_at first) (map (part_in (facts_in self.now)) parts.now)) (steps_in rest.entry) }
    {
        if rest.len() != parts.len() {
            return false;
        }
        for (k, part) in parts.iter().enumerate() {
            if !same(self.step(part, first), rest.step(k)) {
                return false;
            }
        }
        true
    }

    // The number that a cell is known to hold.
    fn held(&self, cell: u32) -> Option<Value>
        ensures { result ≡ held_in self.now cell }
    {
        match self.counted(cell) {
            Some(counter) => Some(counter),
            None => self.fixed(cell),
        }
    }

    // The number of a counter.
    fn counted(&self, cell: u32) -> Option<Value>
        ensures { result ≡ counted self.now.counters cell }
    {
        let counters = self.counters?;
        counters.get(&cell).copied()
    }

    // What construction left in a fixed cell.
    #[tactic(auto, unfolding(crate::specs::Elements::fixed))]
    fn fixed(&self, cell: u32) -> Option<Value>
        ensures { result ≡ fixed self.now.cells.now cell }
    {
        let cell = self.cells.get(cell as usize)?;
        match cell.sort {
            CellSort::Variable { value, fixed: true } => numbered(cell.kind, value),
            _ => None,
        }
    }
}

fn numbered(kind: Kind, word: Word) -> Option<Value>
    ensures { result ≡ valued kind word.bits }
{
    Value::of(kind, word)
}

fn stored(of: Value, kind: Kind) -> Option<Value>
    ensures { result ≡ stored_in kind of }
{
    of.stored(kind)
}

fn answered(op: Op, a: Value, b: Value) -> Option<Word>
    ensures { option_map (λ w. w.bits) result ≡ answer op a b }
{
    match a.applied(op, b) {
        Ok(v) => Some(v.word()),
        Err(_) => None,
    }
}

fn choice(kind: Kind, test: Value, yes: Value, no: Value) -> Option<Value>
    ensures { result ≡ chosen kind test yes no }
{
    let chosen = if test.is_true() { yes } else { no };
    stored(chosen, kind)
}

fn joined(high: Value, low: Value) -> Option<Value>
    ensures { result ≡ above high low }
{
    match high.joined(low) {
        Ok(v) => Some(v),
        Err(_) => None,
    }
}

pub(crate) fn small(v: Value) -> Option<u32>
    ensures { result ≡ small v }
{
    v.small()
}

#[tactic(auto, unfolding(crate::specs::Numbers::bit))]
fn bit(of: Value, at: Value) -> Word
    ensures { result.bits ≡ bit of at }
{
    let bit = match small(at) {
        Some(i) => of.bit(u128::from(i)),
        None => false,
    };
    let bits = u128::from(bit);
    Word { bits }
}

fn selected(h: u32, l: u32, of: Value) -> Option<Word>
    ensures { option_map (λ w. w.bits) result ≡ selected h l of }
{
    match of.selected(h, l) {
        Some(v) => Some(v.word()),
        None => None,
    }
}

fn below(size: u32, at: Option<u32>) -> bool
    ensures { result ≡ is_below size at }
{
    match at {
        Some(i) => size == u32::MAX || i < size,
        None => false,
    }
}

fn is_pointer(cell: &Cell) -> bool
    ensures { result ≡ is_pointer cell.now.sort }
{
    matches!(cell.sort, CellSort::Pointer(_))
}

fn same(a: Option<NameStep>, b: Option<NameStep>) -> bool
    ensures { result ≡ same_steps a b }
{
    match (a, b) {
        (Some(a), Some(b)) => same_one(a, b),
        (None, None) => true,
        _ => false,
    }
}

fn same_one(a: NameStep, b: NameStep) -> bool
    ensures { result ≡ same_step a b }
{
    a == b
}

// What is left of a name behind a front part.
#[derive(Clone, Copy)]
enum Rest<'a> {
    Path(&'a [PathPart]),
    Indices(&'a [u32]),
}

impl Rest<'_> {
    fn len(&self) -> usize
        ensures { result ≡ length (steps_in self.now) }
    {
        match self {
            Rest::Path(parts) => parts.len(),
            Rest::Indices(list) => list.len(),
        }
    }

    fn step(&self, k: usize) -> Option<NameStep>
        ensures { result ≡ slice_get (steps_in self.now) k }
    {
        match self {
            Rest::Path(parts) => Some(NameStep::of(*parts.get(k)?)),
            Rest::Indices(list) => Some(NameStep::Index(*list.get(k)?)),
        }
    }
}

#[tactic(auto, unfolding(crate::specs::Names::behind))]
fn behind<'a>(whole: &'a CellName, front: &CellName) -> Option<Rest<'a>>
    ensures { option_map steps_in result ≡ behind whole.now front.now }
{
    if whole.local.map(|l| l.0) != front.local.map(|l| l.0) {
        return None;
    }
    let path = path_after(whole.path.as_slice(), front.path.as_slice())?;
    if whole.local.is_none() {
        return Some(Rest::Path(path));
    }
    if !path.is_empty() {
        return None;
    }
    let rest = indices_after(whole.indices.as_slice(), front.indices.as_slice())?;
    Some(Rest::Indices(rest))
}

fn path_after<'a>(whole: &'a [PathPart], front: &[PathPart]) -> Option<&'a [PathPart]>
    ensures { option_copied result ≡ after same_part whole.now front.now }
{
    whole.strip_prefix(front)
}

fn indices_after<'a>(whole: &'a [u32], front: &[u32]) -> Option<&'a [u32]>
    ensures { option_copied result ≡ after nat_eq whole.now front.now }
{
    whole.strip_prefix(front)
}
