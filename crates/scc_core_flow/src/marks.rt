//! What a process reads and writes: cells, or rows of them under open indices.
use indexmap::IndexMap;
use scc_base::{List, NoMemory, Place};
use scc_core::{
    CellSort, CoreExpr, CoreExprNode, CoreLeft, CoreNode, CorePart, CorePick, CoreStmt, Dim, Known,
    LEVELS, Named, deeper, spine,
};
use std::alloc::Global;

/// A location that is read or written.
#[derive(Drop)]
pub struct Mark {
    /// That of the expression that reads, or of the location that is written.
    pub place: Place,
    /// That of the statement.
    pub statement: Place,
    /// The statement's number in the walk, counted from 0.
    pub number: u32,
    pub write: bool,
    /// The cells that it may name. A port's cell stands for its root.
    pub named: Named,
}

// What tells marks apart: the first cell, which indices are open, and whether it is written.
#[derive(Clone, Copy, PartialEq, Eq, Hash)]
struct Seen {
    base: u32,
    open: u64,
    write: bool,
}

#[derive(Drop)]
struct Walk<'a, 'b> {
    alloc: Global,
    known: &'b Known<'a>,
    seen: IndexMap<Seen, ()>,
    marks: List<Mark>,
    // the number of the statement at hand
    number: u32,
}

/// What a body without pointers reads and writes, in the order of its statements: of one statement the indices of what it
/// writes, its value, then what it writes, what stands inside before what it stands in. Of the marks that name the same
/// cells for the same the first alone; fixed cells have none.
pub fn marked(alloc: Global, known: &Known, body: &[CoreStmt]) -> Result<List<Mark>, NoMemory> {
    let mut walk = Walk {
        alloc,
        known,
        seen: IndexMap::new(alloc),
        marks: List::new(alloc),
        number: 0,
    };
    walk.list(body)?;
    let Walk {
        alloc: _,
        known: _,
        seen,
        marks,
        number: _,
    } = walk;
    drop(seen);
    Ok(marks)
}

impl Walk<'_, '_> {
    #[cycle(walk)]
    fn list(&mut self, list: &[CoreStmt]) -> Result<(), NoMemory> {
        for s in list {
            self.stmt(s)?;
        }
        Ok(())
    }

    #[cycle(walk)]
    fn stmt(&mut self, s: &CoreStmt) -> Result<(), NoMemory> {
        match &s.node {
            CoreNode::Assign { left, value } => {
                self.inside(left, s.place, LEVELS)?;
                self.expr(value, s.place, LEVELS)?;
                self.mark(left, left.place, s.place, true)?;
                self.number = self.number.saturating_add(1);
                Ok(())
            }
            CoreNode::If { test, yes, no } => {
                self.expr(test, s.place, LEVELS)?;
                self.number = self.number.saturating_add(1);
                self.list(yes.as_slice())?;
                self.list(no.as_slice())
            }
            CoreNode::Block(body) => self.list(body.as_slice()),
            CoreNode::Loop { body, .. } => self.list(body.as_slice()),
            CoreNode::Exit(_) | CoreNode::Wait { .. } | CoreNode::Alias { .. } => Ok(()),
        }
    }

    // What an expression reads, the first operands by a loop.
    #[cycle(read)]
    fn expr(&mut self, e: &CoreExpr, statement: Place, levels: u32) -> Result<(), NoMemory> {
        let levels = deeper(levels)?;
        for node in spine(self.alloc, e)?.iter().rev() {
            self.own(node, statement, levels)?;
        }
        Ok(())
    }

    // What an expression reads beside its first operand.
    #[cycle(read)]
    fn own(&mut self, e: &CoreExpr, statement: Place, levels: u32) -> Result<(), NoMemory> {
        match e.node.get() {
            CoreExprNode::Lit(_) | CoreExprNode::Convert(_) => Ok(()),
            CoreExprNode::Load(left) | CoreExprNode::Read(left) => {
                self.inside(left, statement, levels)?;
                self.mark(left, e.place, statement, false)
            }
            CoreExprNode::Operate { right, .. } => match right {
                Some(right) => self.expr(right, statement, levels),
                None => Ok(()),
            },
            CoreExprNode::Choose { yes, no, .. } => {
                self.expr(yes, statement, levels)?;
                self.expr(no, statement, levels)
            }
            CoreExprNode::Pick { pick, .. } => self.pick(pick, statement, levels),
            CoreExprNode::Join(parts) => {
                for part in parts.as_slice() {
                    self.expr(part, statement, levels)?;
                }
                Ok(())
            }
        }
    }

    #[cycle(read)]
    fn pick(&mut self, pick: &CorePick, statement: Place, levels: u32) -> Result<(), NoMemory> {
        match pick {
            CorePick::Bit { at, .. } => self.expr(at, statement, levels),
            CorePick::Range { .. } => Ok(()),
        }
    }

    // What the indices of a location read.
    #[cycle(read)]
    fn inside(&mut self, left: &CoreLeft, statement: Place, levels: u32) -> Result<(), NoMemory> {
        for part in left.parts.as_slice() {
            if let CorePart::Index { at, .. } = part {
                self.expr(at, statement, levels)?;
            }
        }
        match &left.pick {
            Some(pick) => self.pick(pick, statement, levels),
            None => Ok(()),
        }
    }

    // The mark of a location, where it names what isn't fixed.
    fn mark(
        &mut self,
        left: &CoreLeft,
        place: Place,
        statement: Place,
        write: bool,
    ) -> Result<(), NoMemory> {
        let Some(named) = self.known.named(self.alloc, left)? else {
            return Ok(());
        };
        let seen = Seen {
            base: named.base,
            open: strides(named.dims.as_slice()),
            write,
        };
        if self.is_fixed(named.base) || self.seen.insert(seen, ())?.is_some() {
            return Ok(());
        }
        self.marks.push(Mark {
            place,
            statement,
            number: self.number,
            write,
            named,
        })
    }

    fn is_fixed(&self, cell: u32) -> bool {
        match self.known.cells().get(cell as usize) {
            Some(cell) => matches!(cell.sort, CellSort::Variable { fixed: true, .. }),
            None => false,
        }
    }
}

// Which indices of an array are open: each stride is more than the sum of those inside it, so the sum of the strides tells.
fn strides(dims: &[Dim]) -> u64 {
    let mut sum = 0u64;
    for dim in dims {
        if dim.size > 1 {
            sum = sum.saturating_add(u64::from(dim.stride));
        }
    }
    sum
}
