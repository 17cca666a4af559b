//! Values of expressions.
use crate::walk::{FIRM, Task, Walk};
use scc_base::{Code, NoMemory, Stop, lost};
use scc_bits::{Kind, Op, Value, Word, width};
use scc_elab_state::grown::Grown;
use scc_elab_state::numbers::{number_at, zero_of};
use scc_plain_tree::{Plain, PlainExpr, PlainExprNode, PlainLeft, PlainPick};

/// Begins an expression: its parts from left to right, then the expression itself. Refused as E404 where it reads a port or signal.
pub fn enter<'t>(e: &'t PlainExpr, w: &mut Walk<'t>) -> Result<(), Stop> {
    if let PlainExprNode::Read(_) = e.node.get() {
        // E404.
        return Err(Stop::refused(Code::Constructor, e.place));
    }
    Ok(begin(e, w)?)
}

fn begin<'t>(e: &'t PlainExpr, w: &mut Walk<'t>) -> Result<(), NoMemory> {
    match e.node.get() {
        PlainExprNode::Lit(word) => enter_literal(e.kind, *word, w),
        PlainExprNode::Load(left) => enter_load(e, left, w),
        PlainExprNode::Read(_) => Err(lost()),
        PlainExprNode::Convert(of) => enter_part(e, of, w),
        PlainExprNode::Operate { left, right, .. } => enter_both(e, left, right, w),
        PlainExprNode::Choose { test, yes, no } => enter_choice(e, test, yes, no, w),
        PlainExprNode::Pick { of, pick } => enter_picked(e, of, pick, w),
        PlainExprNode::Join(items) => enter_items(e, items.as_slice(), w),
    }
}

fn enter_literal(kind: Kind, word: Word, w: &mut Walk<'_>) -> Result<(), NoMemory> {
    let value = exactly(kind, word)?;
    w.give(value)
}

fn enter_choice<'t>(
    e: &'t PlainExpr,
    test: &'t PlainExpr,
    yes: &'t PlainExpr,
    no: &'t PlainExpr,
    w: &mut Walk<'t>,
) -> Result<(), NoMemory> {
    w.then(Task::Apply(e))?;
    w.then(Task::Value(no))?;
    w.then(Task::Value(yes))?;
    w.then(Task::Value(test))
}

fn enter_picked<'t>(
    e: &'t PlainExpr,
    of: &'t PlainExpr,
    pick: &'t PlainPick,
    w: &mut Walk<'t>,
) -> Result<(), NoMemory> {
    w.then(Task::Apply(e))?;
    enter_pick(pick, w)?;
    w.then(Task::Value(of))
}

fn enter_items<'t>(
    e: &'t PlainExpr,
    items: &'t [PlainExpr],
    w: &mut Walk<'t>,
) -> Result<(), NoMemory> {
    w.then(Task::Apply(e))?;
    w.then(Task::Items(items))
}

fn enter_part<'t>(e: &'t PlainExpr, of: &'t PlainExpr, w: &mut Walk<'t>) -> Result<(), NoMemory> {
    w.then(Task::Apply(e))?;
    w.then(Task::Value(of))
}

fn enter_both<'t>(
    e: &'t PlainExpr,
    left: &'t PlainExpr,
    right: &'t Option<PlainExpr>,
    w: &mut Walk<'t>,
) -> Result<(), NoMemory> {
    w.then(Task::Apply(e))?;
    if let Some(right) = right {
        w.then(Task::Value(right))?;
    }
    w.then(Task::Value(left))
}

fn enter_load<'t>(e: &'t PlainExpr, left: &'t PlainLeft, w: &mut Walk<'t>) -> Result<(), NoMemory> {
    w.then(Task::Apply(e))?;
    if let Some(pick) = &left.pick {
        enter_pick(pick, w)?;
    }
    w.then(Task::Locate(left, FIRM))
}

fn enter_pick<'t>(pick: &'t PlainPick, w: &mut Walk<'t>) -> Result<(), NoMemory> {
    match pick {
        PlainPick::Bit { at: index, .. } => w.then(Task::Value(index)),
        PlainPick::Range { .. } => Ok(()),
    }
}

/// Ends an expression whose parts have values.
pub fn apply<'t>(
    e: &'t PlainExpr,
    p: &Plain,
    w: &mut Walk<'t>,
    g: &mut Grown,
) -> Result<(), NoMemory> {
    let value = match e.node.get() {
        PlainExprNode::Lit(word) => exactly(e.kind, *word)?,
        PlainExprNode::Load(left) => load(e.kind, left, p, w, g)?,
        PlainExprNode::Read(_) => return Err(lost()),
        PlainExprNode::Convert(_) => stored(w.take()?, e.kind)?,
        PlainExprNode::Operate { op, right, .. } => operate(*op, right.is_some(), e.kind, w)?,
        PlainExprNode::Choose { .. } => choose(e.kind, w)?,
        PlainExprNode::Pick { pick, .. } => picked(e.kind, pick, w)?,
        PlainExprNode::Join(items) => joined(e.kind, items.as_slice(), w)?,
    };
    w.give(value)
}

fn exactly(kind: Kind, word: Word) -> Result<Value, NoMemory> {
    match Value::of(kind, word) {
        Some(value) => Ok(value),
        None => Err(lost()),
    }
}

/// A number in another kind.
pub fn stored(value: Value, kind: Kind) -> Result<Value, NoMemory> {
    match value.stored(kind) {
        Some(value) => Ok(value),
        None => Err(lost()),
    }
}

// What a variable holds, or its picked bits; 0 where there is none.
fn load(
    kind: Kind,
    left: &PlainLeft,
    p: &Plain,
    w: &mut Walk<'_>,
    g: &Grown,
) -> Result<Value, NoMemory> {
    let bit = match &left.pick {
        Some(PlainPick::Bit { .. }) => Some(w.take()?),
        _ => None,
    };
    let Some(at) = w.take_located()?.at else {
        return Err(lost());
    };
    let Some(value) = number_at(g, at, p)? else {
        return zero_of(kind);
    };
    match (&left.pick, bit) {
        (None, _) => exactly(kind, value.word()),
        (Some(PlainPick::Range { h, l, .. }), _) => range_of(kind, value, *h, *l),
        (Some(PlainPick::Bit { .. }), Some(index)) => bit_of(kind, value, index),
        (Some(PlainPick::Bit { .. }), None) => Err(lost()),
    }
}

fn picked(kind: Kind, pick: &PlainPick, w: &mut Walk<'_>) -> Result<Value, NoMemory> {
    match pick {
        PlainPick::Range { h, l, .. } => {
            let value = w.take()?;
            range_of(kind, value, *h, *l)
        }
        PlainPick::Bit { .. } => {
            let index = w.take()?;
            let value = w.take()?;
            bit_of(kind, value, index)
        }
    }
}

fn range_of(kind: Kind, value: Value, h: u32, l: u32) -> Result<Value, NoMemory> {
    match value.selected(h, l) {
        Some(part) => exactly(kind, part.word()),
        None => Err(lost()),
    }
}

/// The number of a bit; None where the value has no such bit.
pub fn bit_number(value: Value, index: Value) -> Option<u32> {
    let bit = index.small()?;
    (bit < width(value.kind())).then_some(bit)
}

fn bit_of(kind: Kind, value: Value, index: Value) -> Result<Value, NoMemory> {
    let is_set = match bit_number(value, index) {
        Some(bit) => value.bit(u128::from(bit)),
        None => false,
    };
    exactly(
        kind,
        Word {
            bits: u128::from(is_set),
        },
    )
}

fn operate(op: Op, is_binary: bool, kind: Kind, w: &mut Walk<'_>) -> Result<Value, NoMemory> {
    let last = w.take()?;
    let first = if is_binary { w.take()? } else { last };
    match first.applied(op, last) {
        Ok(value) => exactly(kind, value.word()),
        Err(_fault) => Err(lost()),
    }
}

fn choose(kind: Kind, w: &mut Walk<'_>) -> Result<Value, NoMemory> {
    let no = w.take()?;
    let yes = w.take()?;
    let test = w.take()?;
    stored(if test.is_true() { yes } else { no }, kind)
}

// The values of the items side by side, the last one lowest.
fn joined(kind: Kind, items: &[PlainExpr], w: &mut Walk<'_>) -> Result<Value, NoMemory> {
    let mut bits: u128 = 0;
    let mut low: u32 = 0;
    for _item in items {
        let value = w.take()?;
        if low >= 128 {
            return Err(lost());
        }
        bits |= value.word().bits << low;
        low = low.saturating_add(width(value.kind()));
    }
    exactly(kind, Word { bits })
}
