//! Copies, in which counters may stand as literals. First operands and pointers in one another are as many as a source is
//! long, so they are copied by loops.
ghost use Rattle.std.specs.Prelude.{◌≡◌, ◌+◌, ◌<◌, IfOk, IfSome, None, Some, [], map, option_map};
ghost use Rattle.std.specs.Option.{option_copied};
ghost use Rattle.scc_core.specs.declared.expr.CoreLeft.{size-CoreLeft};
ghost use Rattle.scc_core.specs.Operands.{first_of};
ghost use Rattle.scc_core.specs.Copies.{IsPlain, IsChain, loaded, pointer_in_left};
ghost use Rattle.scc_core.specs.Counters as with;

use crate::{
    CellName, CoreBase, CoreExpr, CoreExprNode, CoreLeft, CoreNode, CorePart, CorePick, CoreStmt,
    Count, NameStep, Pointed, first_operand,
};
use scc_base::{Boxed, List, NoMemory, Path, PathPart, lost, push};
use scc_bits::{Kind, Value};
use std::alloc::Global;

/// How deep expressions may stand in one another beside their first operands: 128 levels of brackets with a dozen
/// operators each, twice over.
pub const LEVELS: u32 = 4_096;

/// A counter's cell, and its number.
#[derive(Clone, Copy)]
pub struct Counter {
    pub cell: u32,
    pub now: Value,
}

/// Makes copies.
#[derive(Clone, Copy)]
pub struct Copies<'a> {
    alloc: Global,
    counters: Option<&'a [Counter]>,
    numbers: Option<&'a [u32]>,
}

/// One level less; none are left of an expression that no source has.
pub fn deeper(levels: u32) -> Result<u32, NoMemory>
    ensures { IfOk result (λ l. l + 1 ≡ levels) }
{
    if levels == 0 {
        Err(lost())
    } else {
        Ok(levels - 1)
    }
}

/// An expression and its first operands, from the outermost on.
pub fn spine(alloc: Global, e: &CoreExpr) -> Result<Vec<&CoreExpr>, NoMemory>
    ensures { IfOk result (λ v. IsChain first_of e.now (map (λ x. x.now) v.items)) }
{
    let mut found = Vec::new(alloc);
    let mut here = e;
    push(&mut found, here)?;
    loop {
        match first_operand(here) {
            Some(inner) => {
                here = inner;
                push(&mut found, here)?;
            }
            None => return Ok(found),
        }
    }
}

/// A location and the pointers by which it is reached, from the outermost on.
pub fn pointers(alloc: Global, left: &CoreLeft) -> Result<Vec<&CoreLeft>, NoMemory>
    ensures { IfOk result (λ v. IsChain pointer_in_left left.now (map (λ x. x.now) v.items)) }
{
    let mut found = Vec::new(alloc);
    let mut here = left;
    push(&mut found, here)?;
    loop {
        match pointer_of(here) {
            Some(pointer) => {
                here = pointer;
                push(&mut found, here)?;
            }
            None => return Ok(found),
        }
    }
}

// The number of the counter that a cell is.
fn number_of(counters: &[Counter], cell: u32) -> Option<Value>
    ensures { result ≡ with.number_of counters.now cell }
{
    for counter in counters {
        if cell == counter.cell {
            return Some(counter.now);
        }
    }
    None
}

// The literal of a counter in place of a location, or bits of it.
fn literal(
    alloc: Global,
    left: CoreLeft,
    counter: Value,
    e: &CoreExpr,
) -> Result<CoreExpr, NoMemory>
    ensures { IfOk result (λ x. x ≡ with.literal e.now.place e.now.kind counter.word left.pick) }
{
    let literal = CoreExprNode::Lit(counter.word());
    let Some(pick) = left.into_pick() else {
        return CoreExpr::new(alloc, e.place, e.kind, literal);
    };
    let of = CoreExpr::new(alloc, e.place, kind_of(&pick), literal)?;
    CoreExpr::new(alloc, e.place, e.kind, CoreExprNode::Pick { of, pick })
}

// The kind that bits are taken of.
fn kind_of(pick: &CorePick) -> Kind
    ensures { result ≡ with.kind_of pick.now }
{
    match pick {
        CorePick::Bit { of, .. } => *of,
        CorePick::Range { of, .. } => *of,
    }
}

// The pointer by which a location is reached.
fn pointer_of(left: &CoreLeft) -> Option<&CoreLeft>
    ensures smaller { IfSome result (λ x. size-CoreLeft x.now < size-CoreLeft left.now) }
    ensures pointer { option_copied result ≡ pointer_in_left left.now }
{
    match &left.base {
        CoreBase::Follow { pointer, .. } => Some(pointer.get()),
        _ => None,
    }
}

impl Copies<'static> {
    /// Copies as they stand.
    pub fn plain(alloc: Global) -> Copies<'static>
        ensures plain { IsPlain result }
    {
        Copies {
            alloc,
            counters: None,
            numbers: None,
        }
    }
}

impl<'a> Copies<'a> {
    /// Copies in which these counters stand as literals; of two of one cell, the first.
    pub fn with(alloc: Global, counters: &'a [Counter]) -> Copies<'a>
        ensures counters { with.counters_of result ≡ counters.now }
        ensures numbers { result.numbers ≡ None }
    {
        Copies {
            alloc,
            counters: Some(counters),
            numbers: None,
        }
    }

    /// Copies in which cells have other numbers: that of cell n is `numbers` at n, none where it is `u32::MAX`.
    pub fn renumbered(alloc: Global, numbers: &'a [u32]) -> Copies<'a> {
        Copies {
            alloc,
            counters: None,
            numbers: Some(numbers),
        }
    }

    // The number of a cell in the copy.
    fn number(&self, cell: u32) -> Result<u32, NoMemory>
        ensures plain { IsPlain self.now → IfOk result (λ n. n ≡ cell) }
        ensures counted { self.now.numbers ≡ None → IfOk result (λ n. n ≡ cell) }
    {
        let Some(numbers) = self.numbers else {
            return Ok(cell);
        };
        match numbers.get(cell as usize) {
            Some(n) if *n != u32::MAX => Ok(*n),
            Some(_) | None => Err(lost()),
        }
    }

    /// A copy of an expression.
    pub fn expr(&self, e: &CoreExpr) -> Result<CoreExpr, NoMemory>
        ensures plain { IsPlain self.now → IfOk result (λ x. x ≡ e.now) }
        ensures counted { self.now.numbers ≡ None → IfOk result (λ x. x ≡ with.counted (with.counters_of self.now) e.now) }
    {
        self.expr_in(e, LEVELS)
    }

    /// A copy of a location.
    pub fn left(&self, left: &CoreLeft) -> Result<CoreLeft, NoMemory>
        ensures plain { IsPlain self.now → IfOk result (λ x. x ≡ left.now) }
        ensures counted { self.now.numbers ≡ None → IfOk result (λ x. x ≡ with.counted_left (with.counters_of self.now) left.now) }
    {
        self.left_in(left, LEVELS)
    }

    #[cycle(copied)]
    fn expr_in(&self, e: &CoreExpr, levels: u32) -> Result<CoreExpr, NoMemory>
        ensures plain { IsPlain self.now → IfOk result (λ x. x ≡ e.now) }
        ensures counted { self.now.numbers ≡ None → IfOk result (λ x. x ≡ with.counted (with.counters_of self.now) e.now) }
    {
        let levels = deeper(levels)?;
        let list = spine(self.alloc, e)?;
        let mut made = None;
        let mut left = list.len();
        while left > 0 {
            left -= 1;
            made = Some(self.over(list[left], made, levels)?);
        }
        made.ok_or(lost())
    }

    // A copy of an expression whose first operand is copied, if it has one.
    #[cycle(copied)]
    fn over(&self, e: &CoreExpr, first: Option<CoreExpr>, levels: u32) -> Result<CoreExpr, NoMemory>
        ensures plain { IsPlain self.now → first ≡ first_of e.now → IfOk result (λ x. x ≡ e.now) }
        ensures counted { self.now.numbers ≡ None → first ≡ option_map (with.counted (with.counters_of self.now)) (first_of e.now) → IfOk result (λ x. x ≡ with.counted (with.counters_of self.now) e.now) }
    {
        let node = match (e.node.get(), first) {
            (CoreExprNode::Lit(word), _) => CoreExprNode::Lit(*word),
            (CoreExprNode::Load(left), _) => return self.load(left, e, levels),
            (CoreExprNode::Read(left), _) => CoreExprNode::Read(self.left_in(left, levels)?),
            (CoreExprNode::Join(parts), _) => CoreExprNode::Join(self.list(
                parts.as_slice(),
                levels,
            )?),
            (CoreExprNode::Convert(_), Some(of)) => CoreExprNode::Convert(of),
            (CoreExprNode::Operate { op, right, .. }, Some(left)) => {
                let right = match right {
                    Some(right) => Some(self.expr_in(right, levels)?),
                    None => None,
                };
                CoreExprNode::Operate {
                    op: *op,
                    left,
                    right,
                }
            }
            (CoreExprNode::Choose { yes, no, .. }, Some(test)) => {
                let yes = self.expr_in(yes, levels)?;
                let no = self.expr_in(no, levels)?;
                CoreExprNode::Choose { test, yes, no }
            }
            (CoreExprNode::Pick { pick, .. }, Some(of)) => {
                let pick = self.pick(pick, levels)?;
                CoreExprNode::Pick { of, pick }
            }
            (_, None) => return Err(lost()),
        };
        CoreExpr::new(self.alloc, e.place, e.kind, node)
    }

    // A copy of a read of a location; a counter's is its literal, or bits of it.
    #[cycle(copied)]
    fn load(&self, left: &CoreLeft, e: &CoreExpr, levels: u32) -> Result<CoreExpr, NoMemory>
        ensures plain { IsPlain self.now → IfOk result (λ x. x ≡ loaded e.now left.now) }
        ensures counted { self.now.numbers ≡ None → IfOk result (λ x. x ≡ with.counted (with.counters_of self.now) (loaded e.now left.now)) }
    {
        let left = self.left_in(left, levels)?;
        match self.counter(&left) {
            Some(counter) => literal(self.alloc, left, counter, e),
            None => {
                let node = CoreExprNode::Load(left);
                CoreExpr::new(self.alloc, e.place, e.kind, node)
            }
        }
    }

    // The number of the counter that a location is, or is bits of.
    fn counter(&self, left: &CoreLeft) -> Option<Value>
        ensures plain { IsPlain self.now → result ≡ None }
        ensures counted { result ≡ with.number_at (with.counters_of self.now) left.now }
    {
        let CoreBase::Cell(cell) = left.base else {
            return None;
        };
        if !left.parts.is_empty() {
            return None;
        }
        match self.counters {
            Some(counters) => number_of(counters, cell),
            None => None,
        }
    }

    #[cycle(copied)]
    fn list(&self, list: &[CoreExpr], levels: u32) -> Result<List<CoreExpr>, NoMemory>
        ensures plain { IsPlain self.now → IfOk result (λ x. x ≡ list.now) }
        ensures counted { self.now.numbers ≡ None → IfOk result (λ x. x ≡ map (with.counted (with.counters_of self.now)) list.now) }
    {
        let mut made = List::new(self.alloc);
        for e in list {
            made.push(self.expr_in(e, levels)?)?;
        }
        Ok(made)
    }

    #[cycle(copied)]
    fn pick(&self, pick: &CorePick, levels: u32) -> Result<CorePick, NoMemory>
        ensures plain { IsPlain self.now → IfOk result (λ x. x ≡ pick.now) }
        ensures counted { self.now.numbers ≡ None → IfOk result (λ x. x ≡ with.counted_pick (with.counters_of self.now) pick.now) }
    {
        match pick {
            CorePick::Bit { of, at } => {
                let at = self.expr_in(at, levels)?;
                Ok(CorePick::Bit { of: *of, at })
            }
            CorePick::Range { of, h, l } => Ok(CorePick::Range {
                of: *of,
                h: *h,
                l: *l,
            }),
        }
    }

    #[cycle(copied)]
    fn parts(&self, list: &[CorePart], levels: u32) -> Result<List<CorePart>, NoMemory>
        ensures plain { IsPlain self.now → IfOk result (λ x. x ≡ list.now) }
        ensures counted { self.now.numbers ≡ None → IfOk result (λ x. x ≡ map (with.counted_part (with.counters_of self.now)) list.now) }
    {
        let mut made = List::new(self.alloc);
        for part in list {
            let copy = match part {
                CorePart::Member(name) => CorePart::Member(*name),
                CorePart::Index { size, at } => CorePart::Index {
                    size: *size,
                    at: self.expr_in(at, levels)?,
                },
            };
            made.push(copy)?;
        }
        Ok(made)
    }

    #[cycle(copied)]
    fn left_in(&self, left: &CoreLeft, levels: u32) -> Result<CoreLeft, NoMemory>
        ensures plain { IsPlain self.now → IfOk result (λ x. x ≡ left.now) }
        ensures counted { self.now.numbers ≡ None → IfOk result (λ x. x ≡ with.counted_left (with.counters_of self.now) left.now) }
    {
        let levels = deeper(levels)?;
        let list = pointers(self.alloc, left)?;
        let mut made = None;
        let mut more = list.len();
        while more > 0 {
            more -= 1;
            made = Some(self.behind(list[more], made, levels)?);
        }
        made.ok_or(lost())
    }

    // A copy of a location whose pointer is copied, if it has one.
    #[cycle(copied)]
    fn behind(
        &self,
        left: &CoreLeft,
        pointer: Option<CoreLeft>,
        levels: u32,
    ) -> Result<CoreLeft, NoMemory>
        ensures plain { IsPlain self.now → pointer ≡ pointer_in_left left.now → IfOk result (λ x. x ≡ left.now) }
        ensures counted { self.now.numbers ≡ None → pointer ≡ option_map (with.counted_left (with.counters_of self.now)) (pointer_in_left left.now) → IfOk result (λ x. x ≡ with.counted_left (with.counters_of self.now) left.now) }
    {
        let base = match (&left.base, pointer) {
            (CoreBase::Cell(cell), _) => CoreBase::Cell(self.number(*cell)?),
            (CoreBase::Prefix(name), _) => CoreBase::Prefix(name.copied(self.alloc)?),
            (CoreBase::Null, _) => CoreBase::Null,
            (CoreBase::Follow { soft, .. }, Some(pointer)) => CoreBase::Follow {
                pointer: Boxed::new(self.alloc, pointer)?,
                soft: *soft,
            },
            (CoreBase::Follow { .. }, None) => return Err(lost()),
        };
        let parts = self.parts(left.parts.as_slice(), levels)?;
        let pick = match &left.pick {
            Some(pick) => Some(self.pick(pick, levels)?),
            None => None,
        };
        Ok(CoreLeft {
            place: left.place,
            base,
            parts,
            pick,
        })
    }

    /// A copy of a list of statements.
    #[cycle(copied_statements)]
    pub fn stmts(&self, list: &[CoreStmt]) -> Result<List<CoreStmt>, NoMemory>
        ensures { IsPlain self.now → IfOk result (λ x. x ≡ list.now) }
    {
        let mut made = List::new(self.alloc);
        for s in list {
            made.push(self.stmt(s)?)?;
        }
        Ok(made)
    }

    /// A copy of a statement.
    #[cycle(copied_statements)]
    pub fn stmt(&self, s: &CoreStmt) -> Result<CoreStmt, NoMemory>
        ensures { IsPlain self.now → IfOk result (λ x. x ≡ s.now) }
    {
        let node = match &s.node {
            CoreNode::If { test, yes, no } => {
                let test = self.expr(test)?;
                let yes = self.stmts(yes.as_slice())?;
                let no = self.stmts(no.as_slice())?;
                CoreNode::If { test, yes, no }
            }
            CoreNode::Block(body) => CoreNode::Block(self.stmts(body.as_slice())?),
            CoreNode::Loop { count, body } => {
                let count = match count {
                    Some(count) => Some(self.count(count)?),
                    None => None,
                };
                let body = self.stmts(body.as_slice())?;
                CoreNode::Loop { count, body }
            }
            CoreNode::Assign { left, value } => {
                let left = self.left(left)?;
                let value = self.expr(value)?;
                CoreNode::Assign { left, value }
            }
            CoreNode::Exit(n) => CoreNode::Exit(*n),
            CoreNode::Wait { n } => CoreNode::Wait { n: *n },
            CoreNode::Alias { to, target } => {
                let to = self.pointed(to)?;
                let target = self.left(target)?;
                CoreNode::Alias { to, target }
            }
        };
        Ok(CoreStmt {
            place: s.place,
            node,
        })
    }

    /// A copy of how a loop counts.
    pub fn count(&self, c: &Count) -> Result<Count, NoMemory>
        ensures plain { IsPlain self.now → IfOk result (λ x. x ≡ c.now) }
        ensures counted { self.now.numbers ≡ None → IfOk result (λ x. x ≡ with.counted_count (with.counters_of self.now) c.now) }
    {
        Ok(Count {
            cell: self.number(c.cell)?,
            start: self.expr(&c.start)?,
            compare: c.compare,
            bound: self.expr(&c.bound)?,
            step_op: c.step_op,
            step: self.expr(&c.step)?,
        })
    }

    /// A copy of what an `Alias` sets.
    pub fn pointed(&self, to: &Pointed) -> Result<Pointed, NoMemory>
        ensures plain { IsPlain self.now → IfOk result (λ x. x ≡ to.now) }
        ensures counted { self.now.numbers ≡ None → IfOk result (λ x. x ≡ with.counted_pointed (with.counters_of self.now) to.now) }
    {
        match to {
            Pointed::Declared(cell) => Ok(Pointed::Declared(*cell)),
            Pointed::Assigned(left) => Ok(Pointed::Assigned(self.left(left)?)),
        }
    }
}

impl CellName {
    /// Adds a step: behind a local an element of it, else a part of the path.
    pub fn extend(&mut self, step: NameStep) -> Result<(), NoMemory> {
        match step {
            NameStep::Index(i) if self.local.is_some() => self.indices.push(i),
            NameStep::Index(i) => self.path.push(PathPart::Index(i)),
            NameStep::Member(name) => self.path.push(PathPart::Member(name)),
            NameStep::Local(_) => Err(lost()),
        }
    }

    /// A copy.
    pub fn copied(&self, alloc: Global) -> Result<CellName, NoMemory>
        ensures { IfOk result (λ x. x ≡ self.now) }
    {
        let mut indices = List::new(alloc);
        for i in self.indices.as_slice() {
            indices.push(*i)?;
        }
        Ok(CellName {
            path: Path::of(alloc, self.path.as_slice())?,
            local: self.local,
            indices,
        })
    }
}
