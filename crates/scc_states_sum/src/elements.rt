//! How many elements stand under indices that aren't static, in an expression.
ghost use Rattle.std.specs.Prelude.{◌≡◌, ◌+◌, ◌*◌, ◌<◌, MatchOption, IfSome, map};
ghost use Rattle.scc_core.specs.declared.expr.CoreExpr.{size-CoreExpr};
ghost use Rattle.scc_states_sum.specs.Told.{numbers_in};
ghost use Rattle.scc_states_sum.specs.Elements.{cut, total, expr_elements, left_elements, pick_elements, part_of};
ghost use Rattle.scc_states_sum.specs.Counting.{with_part, whole_part, counted};

use scc_bits::Value;
use scc_core::{CoreExpr, CoreExprNode, CoreLeft, CorePart, CorePick, Known};

/// Where the count stops.
pub const MOST: u64 = 1_048_577;

/// The sum of two counts.
pub fn plus(a: u64, b: u64) -> u64
    ensures { result ≡ cut (a + b) }
{
    a.saturating_add(b).min(MOST)
}

fn times(a: u64, size: u32) -> u64
    ensures { result ≡ cut (a * size) }
{
    a.saturating_mul(u64::from(size)).min(MOST)
}

/// The number of a static expression; None exactly where it isn't static.
#[tactic(auto, unfolding(crate::specs::Told::numbers_in))]
pub fn number_of(e: &CoreExpr, known: Known<'_>) -> Option<Value>
    ensures { result ≡ numbers_in known.entry e.now }
{
    known.value(e)
}

/// The elements under the indices of an expression. First operands, which nest as deep as a chain is long, are taken by a loop.
#[cycle(expr_sum)]
pub fn of_expr(e: &CoreExpr, known: Known<'_>) -> u64
    ensures { result ≡ cut (expr_elements (numbers_in known.entry) e.now) }
{
    let mut sum = 0;
    let mut here = e;
    loop {
        let (count, first) = beside(here, known);
        sum = plus(sum, count);
        match first {
            Some(inner) => here = inner,
            None => return sum,
        }
    }
}

// Those beside the first operand, and that operand.
#[cycle(expr_sum)]
fn beside<'a>(e: &'a CoreExpr, known: Known<'_>) -> (u64, Option<&'a CoreExpr>)
    ensures smaller { IfSome result.1 (λ x. size-CoreExpr x.now < size-CoreExpr e.now) }
    ensures counts { MatchOption result.1
        (result.0 ≡ cut (expr_elements (numbers_in known.entry) e.now))
        (λ x. cut (result.0 + expr_elements (numbers_in known.entry) x.now) ≡ cut (expr_elements (numbers_in known.entry) e.now)) }
{
    match e.node.get() {
        CoreExprNode::Lit(_) => (0, None),
        CoreExprNode::Convert(of) => (0, Some(of)),
        CoreExprNode::Load(left) => (of_left(left, known), None),
        CoreExprNode::Read(left) => (of_left(left, known), None),
        CoreExprNode::Operate { left, right, .. } => match right {
            Some(right) => (of_expr(right, known), Some(left)),
            None => (0, Some(left)),
        },
        CoreExprNode::Choose { test, yes, no } => {
            let a = of_expr(yes, known);
            let b = of_expr(no, known);
            (plus(a, b), Some(test))
        }
        CoreExprNode::Pick { of, pick } => (of_pick(pick, known), Some(of)),
        CoreExprNode::Join(parts) => (of_exprs(parts.as_slice(), known), None),
    }
}

#[cycle(expr_sum)]
fn of_exprs(list: &[CoreExpr], known: Known<'_>) -> u64
    ensures { result ≡ cut (total (map (expr_elements (numbers_in known.entry)) list.now)) }
{
    let mut sum = 0;
    for e in list {
        sum = plus(sum, of_expr(e, known));
    }
    sum
}

#[cycle(expr_sum)]
fn of_pick(pick: &CorePick, known: Known<'_>) -> u64
    ensures { result ≡ cut (pick_elements (numbers_in known.entry) pick.now) }
{
    match pick {
        CorePick::Bit { at, .. } => of_expr(at, known),
        CorePick::Range { .. } => 0,
    }
}

// What stands inside an index, and its size where it isn't static.
#[cycle(expr_sum)]
fn of_part(part: &CorePart, known: Known<'_>) -> (u64, Option<u32>)
    ensures inside { result.0 ≡ cut (part_of (numbers_in known.entry) part.now).inside }
    ensures size { result.1 ≡ (part_of (numbers_in known.entry) part.now).size }
{
    match part {
        CorePart::Member(_) => (0, None),
        CorePart::Index { size, at } => {
            let inside = of_expr(at, known);
            match number_of(at, known) {
                Some(_) => (inside, None),
                None => (inside, Some(*size)),
            }
        }
    }
}

// What is counted of some parts of a location.
#[derive(Clone, Copy)]
struct Counted {
    inside: u64,
    product: u64,
    is_open: bool,
}

impl Counted {
    fn with(self, inside: u64, size: Option<u32>) -> Counted
        ensures { result ≡ with_part self inside size }
    {
        Counted {
            inside: plus(self.inside, inside),
            product: match size {
                Some(size) => times(self.product, size),
                None => self.product,
            },
            is_open: self.is_open || size.is_some(),
        }
    }

    fn whole(self, pick: u64) -> u64
        ensures { result ≡ whole_part self pick }
    {
        let inside = plus(self.inside, pick);
        if self.is_open {
            plus(self.product, inside)
        } else {
            inside
        }
    }
}

#[cycle(expr_sum)]
fn of_parts(parts: &[CorePart], known: Known<'_>) -> Counted
    ensures { result ≡ counted (map (part_of (numbers_in known.entry)) parts.now) }
{
    let mut all = Counted {
        inside: 0,
        product: 1,
        is_open: false,
    };
    for part in parts {
        let (inside, size) = of_part(part, known);
        all = all.with(inside, size);
    }
    all
}

/// A location: the product of its dimensions under indices that aren't static, and what stands inside its indices.
#[cycle(expr_sum)]
pub fn of_left(left: &CoreLeft, known: Known<'_>) -> u64
    ensures { result ≡ cut (left_elements (numbers_in known.entry) left.now) }
{
    let parts = of_parts(left.parts.as_slice(), known);
    match &left.pick {
        Some(pick) => parts.whole(of_pick(pick, known)),
        None => parts.whole(0),
    }
}
