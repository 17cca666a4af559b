//! Copies in which cells have other numbers. First operands and pointers in one another are as many as a source is long, so they
//! are copied by loops.
ghost use Rattle.std.specs.Prelude.{◌≡◌, ◌+◌, ◌<◌, ℕ, IfOk, IfSome, None, Some, [], map, option_map};
ghost use Rattle.scc_core.specs.Operands.{first_of};
ghost use Rattle.scc_core.specs.Copies.{pointer_in_left};
ghost use Rattle.scc_core_spec.specs.Code.{Code};
ghost use Rattle.scc_core_spec.specs.Renumbered.{renamed_code};
ghost use Rattle.scc_core_view.specs.Codes.{code_of, stmt_code};
ghost use Rattle.scc_pointers_numbers.specs.Numbered.{Found, number_in, numbered, numbered_count, numbered_left, numbered_part, numbered_pick, numbered_pointed, aim_in, put_in};

use scc_base::{Boxed, List, NoMemory, Place, lost};
use scc_core::{
    CoreBase, CoreExpr, CoreExprNode, CoreLeft, CoreNode, CorePart, CorePick, CoreStmt, Count,
    LEVELS, Pointed, deeper, pointers, spine,
};
use std::alloc::Global;

/// Makes copies in which the number of cell n is `numbers` at n; a cell goes where that is `u32::MAX`, and is named nowhere then.
#[derive(Clone, Copy)]
pub struct Numbering<'a> {
    pub alloc: Global,
    pub numbers: &'a [u32],
}

impl<'a> Numbering<'a> {
    // The number of a cell in the copy.
    fn number(&self, cell: u32) -> Result<u32, NoMemory>
        ensures { (f : ℕ → ℕ) → Found self.now.numbers.now f → IfOk result (λ n. n ≡ f cell) }
    {
        number_at(self.numbers, cell)
    }

    /// A copy of an expression.
    pub fn expr(&self, e: &CoreExpr) -> Result<CoreExpr, NoMemory>
        ensures { (f : ℕ → ℕ) → Found self.now.numbers.now f → IfOk result (λ x. x ≡ numbered f e.now) }
    {
        self.expr_in(e, LEVELS)
    }

    /// A copy of a location.
    pub fn left(&self, left: &CoreLeft) -> Result<CoreLeft, NoMemory>
        ensures { (f : ℕ → ℕ) → Found self.now.numbers.now f → IfOk result (λ x. x ≡ numbered_left f left.now) }
    {
        self.left_in(left, LEVELS)
    }

    #[cycle(numbered)]
    fn expr_in(&self, e: &CoreExpr, levels: u32) -> Result<CoreExpr, NoMemory>
        ensures { (f : ℕ → ℕ) → Found self.now.numbers.now f → IfOk result (λ x. x ≡ numbered f e.now) }
    {
        let levels = deeper(levels)?;
        let list = spine(self.alloc, e)?;
        let mut made = None;
        let mut left = list.len();
        while left > 0 {
            left -= 1;
            made = Some(self.over(list[left], made, levels)?);
        }
        made.ok_or(lost())
    }

    // A copy of an expression whose first operand is copied, if it has one.
    #[cycle(numbered)]
    fn over(&self, e: &CoreExpr, first: Option<CoreExpr>, levels: u32) -> Result<CoreExpr, NoMemory>
        ensures { (f : ℕ → ℕ) → Found self.now.numbers.now f → first ≡ option_map (numbered f) (first_of e.now) → IfOk result (λ x. x ≡ numbered f e.now) }
    {
        let alloc = self.alloc;
        let place = e.place;
        let kind = e.kind;
        match (e.node.get(), first) {
            (CoreExprNode::Lit(word), _) => {
                CoreExpr::new(alloc, place, kind, CoreExprNode::Lit(*word))
            }
            (CoreExprNode::Load(left), _) => {
                let left = self.left_in(left, levels)?;
                CoreExpr::new(alloc, place, kind, CoreExprNode::Load(left))
            }
            (CoreExprNode::Read(left), _) => {
                let left = self.left_in(left, levels)?;
                CoreExpr::new(alloc, place, kind, CoreExprNode::Read(left))
            }
            (CoreExprNode::Join(parts), _) => {
                let parts = self.list(parts.as_slice(), levels)?;
                CoreExpr::new(alloc, place, kind, CoreExprNode::Join(parts))
            }
            (CoreExprNode::Convert(_), Some(of)) => {
                CoreExpr::new(alloc, place, kind, CoreExprNode::Convert(of))
            }
            (CoreExprNode::Operate { op, right, .. }, Some(left)) => {
                let op = *op;
                match right {
                    Some(right) => {
                        let right = Some(self.expr_in(right, levels)?);
                        let node = CoreExprNode::Operate { op, left, right };
                        CoreExpr::new(alloc, place, kind, node)
                    }
                    None => {
                        let right = None;
                        let node = CoreExprNode::Operate { op, left, right };
                        CoreExpr::new(alloc, place, kind, node)
                    }
                }
            }
            (CoreExprNode::Choose { yes, no, .. }, Some(test)) => {
                let yes = self.expr_in(yes, levels)?;
                let no = self.expr_in(no, levels)?;
                CoreExpr::new(alloc, place, kind, CoreExprNode::Choose { test, yes, no })
            }
            (CoreExprNode::Pick { pick, .. }, Some(of)) => {
                let pick = self.pick(pick, levels)?;
                CoreExpr::new(alloc, place, kind, CoreExprNode::Pick { of, pick })
            }
            (_, None) => Err(lost()),
        }
    }

    #[cycle(numbered)]
    fn list(&self, list: &[CoreExpr], levels: u32) -> Result<List<CoreExpr>, NoMemory>
        ensures { (f : ℕ → ℕ) → Found self.now.numbers.now f → IfOk result (λ x. x ≡ map (numbered f) list.now) }
    {
        let mut made = List::new(self.alloc);
        for e in list {
            made.push(self.expr_in(e, levels)?)?;
        }
        Ok(made)
    }

    #[cycle(numbered)]
    fn pick(&self, pick: &CorePick, levels: u32) -> Result<CorePick, NoMemory>
        ensures { (f : ℕ → ℕ) → Found self.now.numbers.now f → IfOk result (λ x. x ≡ numbered_pick f pick.now) }
    {
        match pick {
            CorePick::Bit { of, at } => {
                let at = self.expr_in(at, levels)?;
                Ok(CorePick::Bit { of: *of, at })
            }
            CorePick::Range { of, h, l } => Ok(CorePick::Range {
                of: *of,
                h: *h,
                l: *l,
            }),
        }
    }

    #[cycle(numbered)]
    fn parts(&self, list: &[CorePart], levels: u32) -> Result<List<CorePart>, NoMemory>
        ensures { (f : ℕ → ℕ) → Found self.now.numbers.now f → IfOk result (λ x. x ≡ map (numbered_part f) list.now) }
    {
        let mut made = List::new(self.alloc);
        for part in list {
            made.push(self.part(part, levels)?)?;
        }
        Ok(made)
    }

    #[cycle(numbered)]
    fn part(&self, part: &CorePart, levels: u32) -> Result<CorePart, NoMemory>
        ensures { (f : ℕ → ℕ) → Found self.now.numbers.now f → IfOk result (λ x. x ≡ numbered_part f part.now) }
    {
        match part {
            CorePart::Member(name) => Ok(CorePart::Member(*name)),
            CorePart::Index { size, at } => {
                let at = self.expr_in(at, levels)?;
                Ok(CorePart::Index { size: *size, at })
            }
        }
    }

    #[cycle(numbered)]
    fn left_in(&self, left: &CoreLeft, levels: u32) -> Result<CoreLeft, NoMemory>
        ensures { (f : ℕ → ℕ) → Found self.now.numbers.now f → IfOk result (λ x. x ≡ numbered_left f left.now) }
    {
        let levels = deeper(levels)?;
        let list = pointers(self.alloc, left)?;
        let mut made = None;
        let mut more = list.len();
        while more > 0 {
            more -= 1;
            made = Some(self.behind(list[more], made, levels)?);
        }
        made.ok_or(lost())
    }

    // A copy of a location whose pointer is copied, if it has one.
    #[cycle(numbered)]
    fn behind(
        &self,
        left: &CoreLeft,
        pointer: Option<CoreLeft>,
        levels: u32,
    ) -> Result<CoreLeft, NoMemory>
        ensures { (f : ℕ → ℕ) → Found self.now.numbers.now f → pointer ≡ option_map (numbered_left f) (pointer_in_left left.now) → IfOk result (λ x. x ≡ numbered_left f left.now) }
    {
        let base = match (&left.base, pointer) {
            (CoreBase::Cell(cell), _) => CoreBase::Cell(self.number(*cell)?),
            (CoreBase::Prefix(name), _) => CoreBase::Prefix(name.copied(self.alloc)?),
            (CoreBase::Null, _) => CoreBase::Null,
            (CoreBase::Follow { soft, .. }, Some(pointer)) => CoreBase::Follow {
                pointer: Boxed::new(self.alloc, pointer)?,
                soft: *soft,
            },
            (CoreBase::Follow { .. }, None) => return Err(lost()),
        };
        let parts = self.parts(left.parts.as_slice(), levels)?;
        let pick = match &left.pick {
            Some(pick) => Some(self.pick(pick, levels)?),
            None => None,
        };
        Ok(CoreLeft {
            place: left.place,
            base,
            parts,
            pick,
        })
    }

    /// A copy of a list of statements.
    #[cycle(numbered_statements)]
    pub fn stmts(&self, list: &[CoreStmt]) -> Result<List<CoreStmt>, NoMemory>
        ensures { (f : ℕ → ℕ) → Found self.now.numbers.now f → IfOk result (λ x. code_of x ≡ renamed_code f (code_of list.now)) }
    {
        let mut made = List::new(self.alloc);
        for s in list {
            made.push(self.stmt(s)?)?;
        }
        Ok(made)
    }

    /// A copy of a statement.
    #[cycle(numbered_statements)]
    pub fn stmt(&self, s: &CoreStmt) -> Result<CoreStmt, NoMemory>
        ensures { (f : ℕ → ℕ) → Found self.now.numbers.now f → IfOk result (λ z. (c : Code) → stmt_code z (renamed_code f c) ≡ renamed_code f (stmt_code s.now c)) }
    {
        let place = s.place;
        match &s.node {
            CoreNode::If { test, yes, no } => {
                let test = self.expr(test)?;
                let yes = self.stmts(yes.as_slice())?;
                let no = self.stmts(no.as_slice())?;
                let node = CoreNode::If { test, yes, no };
                Ok(CoreStmt { place, node })
            }
            CoreNode::Block(body) => {
                let body = self.stmts(body.as_slice())?;
                let node = CoreNode::Block(body);
                Ok(CoreStmt { place, node })
            }
            CoreNode::Loop { count, body } => {
                let count = self.how_counted(count)?;
                let body = self.stmts(body.as_slice())?;
                let node = CoreNode::Loop { count, body };
                Ok(CoreStmt { place, node })
            }
            CoreNode::Assign { left, value } => self.put(place, left, value),
            CoreNode::Exit(n) => {
                let node = CoreNode::Exit(*n);
                Ok(CoreStmt { place, node })
            }
            CoreNode::Wait { n } => {
                let node = CoreNode::Wait { n: *n };
                Ok(CoreStmt { place, node })
            }
            CoreNode::Alias { to, target } => self.aim(place, to, target),
        }
    }

    // That of an assignment.
    fn put(&self, place: Place, left: &CoreLeft, value: &CoreExpr) -> Result<CoreStmt, NoMemory>
        ensures { (f : ℕ → ℕ) → Found self.now.numbers.now f → IfOk result (λ z. z ≡ put_in place (numbered_left f left.now) (numbered f value.now)) }
    {
        let left = self.left(left)?;
        let value = self.expr(value)?;
        let node = CoreNode::Assign { left, value };
        Ok(CoreStmt { place, node })
    }

    // That of a pointer's assignment.
    fn aim(&self, place: Place, to: &Pointed, target: &CoreLeft) -> Result<CoreStmt, NoMemory>
        ensures { (f : ℕ → ℕ) → Found self.now.numbers.now f → IfOk result (λ z. z ≡ aim_in place (numbered_pointed f to.now) (numbered_left f target.now)) }
    {
        let to = self.pointed(to)?;
        let target = self.left(target)?;
        let node = CoreNode::Alias { to, target };
        Ok(CoreStmt { place, node })
    }

    fn how_counted(&self, count: &Option<Count>) -> Result<Option<Count>, NoMemory>
        ensures { (f : ℕ → ℕ) → Found self.now.numbers.now f → IfOk result (λ o. o ≡ option_map (numbered_count f) count.now) }
    {
        match count {
            Some(count) => {
                let copy = self.count(count)?;
                Ok(Some(copy))
            }
            None => Ok(None),
        }
    }

    /// A copy of how a loop counts.
    pub fn count(&self, c: &Count) -> Result<Count, NoMemory>
        ensures { (f : ℕ → ℕ) → Found self.now.numbers.now f → IfOk result (λ x. x ≡ numbered_count f c.now) }
    {
        Ok(Count {
            cell: self.number(c.cell)?,
            start: self.expr(&c.start)?,
            compare: c.compare,
            bound: self.expr(&c.bound)?,
            step_op: c.step_op,
            step: self.expr(&c.step)?,
        })
    }

    /// A copy of what an `Alias` sets.
    pub fn pointed(&self, to: &Pointed) -> Result<Pointed, NoMemory>
        ensures { (f : ℕ → ℕ) → Found self.now.numbers.now f → IfOk result (λ x. x ≡ numbered_pointed f to.now) }
    {
        match to {
            Pointed::Declared(cell) => Ok(Pointed::Declared(self.number(*cell)?)),
            Pointed::Assigned(left) => Ok(Pointed::Assigned(self.left(left)?)),
        }
    }
}

fn number_at(numbers: &[u32], cell: u32) -> Result<u32, NoMemory>
    ensures { IfOk result (λ n. number_in numbers.now cell ≡ Some n) }
{
    match numbers.get(cell as usize) {
        Some(n) if *n != u32::MAX => Ok(*n),
        Some(_) | None => Err(lost()),
    }
}
