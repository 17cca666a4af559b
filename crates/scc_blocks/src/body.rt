//! What each process does, as statements over the numbers of the lowering.
use crate::thread::{COUNTER, NEXT_COUNTER, NEXT_STATE, STATE, Widths, fewest_bits, widths_of};
use scc_base::{Boxed, List, NoMemory, lost};
use scc_bits::Word;
use scc_core::{CoreProcess, CoreStmt, Reset2};
use scc_lower::{
    Cells, Lowering, View, greatest_exit, greatest_exit_of, lowered_expr, lowered_stmt,
    lowered_stmts,
};
use scc_states::Split;
use scc_states_cut::{SegNode, SegStmt};
use scc_svtree::{SvArm, SvBinary, SvExpr, SvExprNode, SvLeft, SvLiteral, SvStmt, SvUnary, VarId};
use std::alloc::Global;
use std::mem::replace;

/// A process's statements, the widths of its temporaries, and the width of the variable that holds the number of the block that
/// is being left.
#[derive(Drop)]
pub struct Body {
    pub stmts: List<SvStmt>,
    pub temporaries: List<u32>,
    pub exit: u32,
}

/// What a thread's parts share.
#[derive(Clone, Copy)]
struct Thread<'a> {
    split: &'a Split,
    widths: Widths,
    cells: Cells<'a>,
}

/// A method's statements; `live` is its live part.
pub fn method_body(
    alloc: Global,
    live: &[CoreStmt],
    cells: Cells<'_>,
    views: &[View],
) -> Result<Body, NoMemory> {
    let exit = fewest_bits(greatest_exit(live, 0)?);
    let mut cx = Lowering::new(alloc, views, exit);
    let stmts = lowered_stmts(alloc, live, cells, &mut cx)?;
    Ok(Body {
        stmts,
        temporaries: cx.temporaries,
        exit,
    })
}

/// A thread's statements: under its reset the reset segment, else the segment of its state. An asynchronous reset stands at the
/// registers alone.
pub fn thread_body(
    alloc: Global,
    process: &CoreProcess,
    split: &Split,
    cells: Cells<'_>,
    views: &[View],
) -> Result<Body, NoMemory> {
    let Some(reset) = process.reset else {
        return Err(lost());
    };
    let exit = fewest_bits(thread_exit(split, reset.asynchronous)?);
    let mut cx = Lowering::new(alloc, views, exit);
    let thread = Thread {
        split,
        widths: widths_of(split)?,
        cells,
    };
    let stmts = if reset.asynchronous {
        states(alloc, thread, &mut cx)?
    } else {
        let yes = segment(split.reset.as_slice(), alloc, thread, &mut cx)?;
        let no = states(alloc, thread, &mut cx)?;
        let test = reset_test(alloc, reset, views)?;
        one(alloc, SvStmt::If { test, yes, no })?
    };
    Ok(Body {
        stmts,
        temporaries: cx.temporaries,
        exit,
    })
}

// The greatest number of a block that the thread's written segments leave.
fn thread_exit(split: &Split, asynchronous: bool) -> Result<u32, NoMemory> {
    let mut greatest = 0;
    for s in split.segments.as_slice() {
        greatest = segment_exit(s.as_slice())?.max(greatest);
    }
    if asynchronous {
        Ok(greatest)
    } else {
        Ok(segment_exit(split.reset.as_slice())?.max(greatest))
    }
}

#[cycle(segment_exits)]
fn segment_exit(list: &[SegStmt]) -> Result<u32, NoMemory> {
    let mut greatest = 0;
    for s in list {
        greatest = exit_of(s)?.max(greatest);
    }
    Ok(greatest)
}

#[cycle(segment_exits)]
fn exit_of(s: &SegStmt) -> Result<u32, NoMemory> {
    match &s.node {
        SegNode::Plain(stmt) => greatest_exit_of(stmt, 0),
        SegNode::If { yes, no, .. } => {
            let yes = segment_exit(yes.as_slice())?;
            let no = segment_exit(no.as_slice())?;
            Ok(yes.max(no))
        }
        SegNode::Wait(_) => Ok(0),
    }
}

fn one(alloc: Global, s: SvStmt) -> Result<List<SvStmt>, NoMemory> {
    let mut list = List::new(alloc);
    list.push(s)?;
    Ok(list)
}

fn node(alloc: Global, of: SvExprNode) -> Result<SvExpr, NoMemory> {
    Ok(SvExpr {
        node: Boxed::new(alloc, of)?,
    })
}

fn variable(alloc: Global, var: u32) -> Result<SvExpr, NoMemory> {
    node(alloc, SvExprNode::Left(SvLeft::Whole(VarId(var))))
}

fn number(width: u32, n: u32) -> SvLiteral {
    SvLiteral {
        width,
        value: Word {
            bits: u128::from(n),
        },
    }
}

fn literal(alloc: Global, width: u32, n: u32) -> Result<SvExpr, NoMemory> {
    node(alloc, SvExprNode::Literal(number(width, n)))
}

fn assignment(var: u32, value: SvExpr) -> SvStmt {
    SvStmt::Assign {
        left: SvLeft::Whole(VarId(var)),
        value,
    }
}

// The reset's level; a constant reset stands as its literal.
fn reset_test(alloc: Global, reset: Reset2, views: &[View]) -> Result<SvExpr, NoMemory> {
    let of = match views.get(reset.cell as usize) {
        Some(View::Constant(word)) => node(
            alloc,
            SvExprNode::Literal(SvLiteral {
                width: 1,
                value: *word,
            }),
        )?,
        Some(_) => match reset.cell.checked_mul(2) {
            Some(var) => variable(alloc, var)?,
            None => return Err(lost()),
        },
        None => return Err(lost()),
    };
    if reset.level {
        Ok(of)
    } else {
        node(
            alloc,
            SvExprNode::Unary {
                op: SvUnary::LogNot,
                of,
            },
        )
    }
}

// The code of all states: of one alone as it is, else by the state's number.
fn states(
    alloc: Global,
    thread: Thread<'_>,
    cx: &mut Lowering<'_>,
) -> Result<List<SvStmt>, NoMemory> {
    if thread.widths.state == 0 {
        return state(alloc, 0, thread, cx);
    }
    let mut arms = List::new(alloc);
    for k in 0..thread.split.waits.len() {
        let body = state(alloc, k, thread, cx)?;
        let Ok(n) = u32::try_from(k) else {
            return Err(lost());
        };
        let label = number(thread.widths.state, n);
        arms.push(SvArm { label, body })?;
    }
    let of = variable(alloc, STATE)?;
    one(alloc, SvStmt::Case { of, arms })
}

// The code of a state: its segment, after as many edges as its wait counts.
fn state(
    alloc: Global,
    k: usize,
    thread: Thread<'_>,
    cx: &mut Lowering<'_>,
) -> Result<List<SvStmt>, NoMemory> {
    let (Some(list), Some(count)) = (thread.split.segments.get(k), thread.split.waits.get(k)) else {
        return Err(lost());
    };
    let code = segment(list.as_slice(), alloc, thread, cx)?;
    if *count == 1 {
        return Ok(code);
    }
    let width = thread.widths.counter;
    let test = node(
        alloc,
        SvExprNode::Binary {
            op: SvBinary::Ne,
            left: variable(alloc, COUNTER)?,
            right: literal(alloc, width, 0)?,
        },
    )?;
    let less = node(
        alloc,
        SvExprNode::Binary {
            op: SvBinary::Sub,
            left: variable(alloc, COUNTER)?,
            right: literal(alloc, width, 1)?,
        },
    )?;
    let yes = one(alloc, assignment(NEXT_COUNTER, less))?;
    one(
        alloc,
        SvStmt::If {
            test,
            yes,
            no: code,
        },
    )
}

#[cycle(segments)]
fn segment(
    list: &[SegStmt],
    alloc: Global,
    thread: Thread<'_>,
    cx: &mut Lowering<'_>,
) -> Result<List<SvStmt>, NoMemory> {
    let mut out = List::new(alloc);
    for s in list {
        let new = segment_stmt(s, alloc, thread, cx)?;
        out.append(new)?;
    }
    Ok(out)
}

#[cycle(segments)]
fn segment_stmt(
    s: &SegStmt,
    alloc: Global,
    thread: Thread<'_>,
    cx: &mut Lowering<'_>,
) -> Result<List<SvStmt>, NoMemory> {
    match &s.node {
        SegNode::Plain(stmt) => lowered_stmt(alloc, stmt, thread.cells, cx),
        SegNode::If { test, yes, no } => {
            let test = lowered_expr(alloc, test, thread.cells, cx)?;
            let mut out = replace(&mut cx.before, List::new(alloc));
            let yes = segment(yes.as_slice(), alloc, thread, cx)?;
            let no = segment(no.as_slice(), alloc, thread, cx)?;
            out.push(SvStmt::If { test, yes, no })?;
            Ok(out)
        }
        SegNode::Wait(k) => wait(alloc, *k, thread),
    }
}

// The state and the counter after the wait of that number.
fn wait(alloc: Global, k: u32, thread: Thread<'_>) -> Result<List<SvStmt>, NoMemory> {
    let Some(count) = thread.split.waits.get(k as usize) else {
        return Err(lost());
    };
    let mut out = List::new(alloc);
    let Widths { state, counter } = thread.widths;
    if state > 0 {
        out.push(assignment(NEXT_STATE, literal(alloc, state, k)?))?;
    }
    if counter > 0 {
        let Some(left) = count.checked_sub(1) else {
            return Err(lost());
        };
        let left = literal(alloc, counter, left)?;
        out.push(assignment(NEXT_COUNTER, left))?;
    }
    Ok(out)
}
