//! Copies of expressions and locations, by a stack of tasks, since both can be as deep as a source has operators.
use crate::{PlainBase, PlainExpr, PlainExprNode, PlainLeft, PlainPart, PlainPick};
use scc_base::{Boxed, List, NoMemory, lost};
use std::alloc::Global;

// What is still to be done: parts first, what is made of them behind.
#[derive(Clone, Copy)]
enum Task<'t> {
    Expr(&'t PlainExpr),
    Exprs(&'t [PlainExpr]),
    Left(&'t PlainLeft),
    Part(&'t PlainPart),
    Parts(&'t [PlainPart]),
    MakeExpr(&'t PlainExpr),
    MakeLeft(&'t PlainLeft),
}

// The copies whose wholes aren't made yet, the last ones first wanted.
#[derive(Drop)]
struct Copies {
    alloc: Global,
    exprs: List<PlainExpr>,
    lefts: List<PlainLeft>,
}

impl PlainExpr {
    /// An equal expression.
    pub fn copied(&self, alloc: Global) -> Result<PlainExpr, NoMemory> {
        let mut copies = copies_of(alloc, Task::Expr(self))?;
        copies.expr()
    }
}

impl PlainLeft {
    /// An equal location.
    pub fn copied(&self, alloc: Global) -> Result<PlainLeft, NoMemory> {
        let mut copies = copies_of(alloc, Task::Left(self))?;
        copies.left()
    }
}

// All that a task makes.
fn copies_of(alloc: Global, first: Task) -> Result<Copies, NoMemory> {
    let mut copies = Copies {
        alloc,
        exprs: List::new(alloc),
        lefts: List::new(alloc),
    };
    let mut tasks = List::new(alloc);
    tasks.push(first)?;
    for _ in 0..usize::MAX {
        let Some(task) = tasks.pop() else {
            return Ok(copies);
        };
        turn(task, &mut tasks, &mut copies)?;
    }
    Err(lost())
}

fn turn<'t>(
    task: Task<'t>,
    tasks: &mut List<Task<'t>>,
    copies: &mut Copies,
) -> Result<(), NoMemory> {
    match task {
        Task::Expr(e) => {
            tasks.push(Task::MakeExpr(e))?;
            enter(e, tasks)
        }
        Task::Exprs(list) => match list {
            [] => Ok(()),
            [first, rest @ ..] => {
                tasks.push(Task::Exprs(rest))?;
                tasks.push(Task::Expr(first))
            }
        },
        Task::Left(left) => {
            tasks.push(Task::MakeLeft(left))?;
            enter_left(left, tasks)
        }
        Task::Part(part) => match part {
            PlainPart::Member(_) => Ok(()),
            PlainPart::Index(e) => tasks.push(Task::Expr(e)),
        },
        Task::Parts(list) => match list {
            [] => Ok(()),
            [first, rest @ ..] => {
                tasks.push(Task::Parts(rest))?;
                tasks.push(Task::Part(first))
            }
        },
        Task::MakeExpr(e) => copies.make(e),
        Task::MakeLeft(left) => copies.make_left(left),
    }
}

// The parts of an expression, from the left.
fn enter<'t>(e: &'t PlainExpr, tasks: &mut List<Task<'t>>) -> Result<(), NoMemory> {
    match e.node.get() {
        PlainExprNode::Lit(_) => Ok(()),
        PlainExprNode::Load(left) | PlainExprNode::Read(left) => tasks.push(Task::Left(left)),
        PlainExprNode::Convert(of) => tasks.push(Task::Expr(of)),
        PlainExprNode::Operate {
            op: _,
            left,
            right: Some(right),
        } => {
            tasks.push(Task::Expr(right))?;
            tasks.push(Task::Expr(left))
        }
        PlainExprNode::Operate {
            op: _,
            left,
            right: None,
        } => tasks.push(Task::Expr(left)),
        PlainExprNode::Choose { test, yes, no } => {
            tasks.push(Task::Expr(no))?;
            tasks.push(Task::Expr(yes))?;
            tasks.push(Task::Expr(test))
        }
        PlainExprNode::Pick { of, pick } => {
            enter_pick(pick, tasks)?;
            tasks.push(Task::Expr(of))
        }
        PlainExprNode::Join(list) => tasks.push(Task::Exprs(list.as_slice())),
    }
}

fn enter_pick<'t>(pick: &'t PlainPick, tasks: &mut List<Task<'t>>) -> Result<(), NoMemory> {
    match pick {
        PlainPick::Bit { at, .. } => tasks.push(Task::Expr(at)),
        PlainPick::Range { .. } => Ok(()),
    }
}

// The parts of a location, from the left.
fn enter_left<'t>(left: &'t PlainLeft, tasks: &mut List<Task<'t>>) -> Result<(), NoMemory> {
    if let Some(pick) = &left.pick {
        enter_pick(pick, tasks)?;
    }
    tasks.push(Task::Parts(left.parts.as_slice()))?;
    match &left.base {
        PlainBase::Follow(of) => tasks.push(Task::Left(of.get())),
        PlainBase::Local(_) | PlainBase::This | PlainBase::Answer(_) => Ok(()),
    }
}

impl Copies {
    fn expr(&mut self) -> Result<PlainExpr, NoMemory> {
        self.exprs.pop().ok_or(lost())
    }

    fn left(&mut self) -> Result<PlainLeft, NoMemory> {
        self.lefts.pop().ok_or(lost())
    }

    fn make(&mut self, e: &PlainExpr) -> Result<(), NoMemory> {
        let node = match e.node.get() {
            PlainExprNode::Lit(word) => PlainExprNode::Lit(*word),
            PlainExprNode::Load(_) => PlainExprNode::Load(self.left()?),
            PlainExprNode::Read(_) => PlainExprNode::Read(self.left()?),
            PlainExprNode::Convert(_) => PlainExprNode::Convert(self.expr()?),
            PlainExprNode::Operate { op, left: _, right } => {
                let right = match right {
                    Some(_) => Some(self.expr()?),
                    None => None,
                };
                let left = self.expr()?;
                PlainExprNode::Operate {
                    op: *op,
                    left,
                    right,
                }
            }
            PlainExprNode::Choose { .. } => {
                let no = self.expr()?;
                let yes = self.expr()?;
                let test = self.expr()?;
                PlainExprNode::Choose { test, yes, no }
            }
            PlainExprNode::Pick { of: _, pick } => {
                let pick = self.pick(pick)?;
                let of = self.expr()?;
                PlainExprNode::Pick { of, pick }
            }
            PlainExprNode::Join(list) => PlainExprNode::Join(self.last(list.len())?),
        };
        let copy = PlainExpr::new(self.alloc, e.place, e.kind, node)?;
        self.exprs.push(copy)
    }

    fn pick(&mut self, pick: &PlainPick) -> Result<PlainPick, NoMemory> {
        match pick {
            PlainPick::Bit { of, .. } => {
                let at = self.expr()?;
                Ok(PlainPick::Bit { of: *of, at })
            }
            PlainPick::Range { of, h, l } => Ok(PlainPick::Range {
                of: *of,
                h: *h,
                l: *l,
            }),
        }
    }

    // The last so many expressions, in their order.
    fn last(&mut self, count: usize) -> Result<List<PlainExpr>, NoMemory> {
        let mut back = List::new(self.alloc);
        for _ in 0..count {
            back.push(self.expr()?)?;
        }
        reversed(self.alloc, back)
    }

    fn make_left(&mut self, left: &PlainLeft) -> Result<(), NoMemory> {
        let pick = match &left.pick {
            Some(pick) => Some(self.pick(pick)?),
            None => None,
        };
        let parts = self.parts(left.parts.as_slice())?;
        let base = match &left.base {
            PlainBase::Local(n) => PlainBase::Local(*n),
            PlainBase::This => PlainBase::This,
            PlainBase::Answer(n) => PlainBase::Answer(*n),
            PlainBase::Follow(_) => PlainBase::Follow(Boxed::new(self.alloc, self.left()?)?),
        };
        self.lefts.push(PlainLeft {
            place: left.place,
            base,
            parts,
            pick,
        })
    }

    fn parts(&mut self, parts: &[PlainPart]) -> Result<List<PlainPart>, NoMemory> {
        let mut back = List::new(self.alloc);
        for part in parts.iter().rev() {
            match part {
                PlainPart::Member(n) => back.push(PlainPart::Member(*n))?,
                PlainPart::Index(_) => back.push(PlainPart::Index(self.expr()?))?,
            }
        }
        reversed(self.alloc, back)
    }
}

fn reversed<T: Drop>(alloc: Global, back: List<T>) -> Result<List<T>, NoMemory> {
    let mut back = back;
    let mut list = List::new(alloc);
    while let Some(x) = back.pop() {
        list.push(x)?;
    }
    Ok(list)
}
