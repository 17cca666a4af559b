//! What statements are: their number, their waits, and the form of a counted loop's body.
ghost use Rattle.std.specs.Prelude.{List, ◌≡◌, nat_eq, length, ◌+◌, ◌&&◌, ◌||◌, IfOk, IfSome, [], ◌∷◌, None, true, option_map, if◌then◌else◌};
ghost use Rattle.scc_core.specs.declared.statics.Known.{Known};
ghost use Rattle.scc_core_spec.specs.Code as code;
ghost use Rattle.scc_core_spec.specs.Counted as spec;
ghost use Rattle.scc_core_view.specs.Codes.{code_of};
ghost use Rattle.scc_core_view.specs.Terms.{taken_of, term_of};
ghost use Rattle.scc_unroll.specs.Shape.{StandIsRead, stand_of, turned};
ghost use Rattle.scc_unroll_asked.specs.Copied.{AreWithin, IsWithin};
ghost use Rattle.scc_unroll_asked.specs.Items.{Item};
ghost use Rattle.scc_unroll_asked.specs.Asked.{AreAll, AreRead, IsItself, asked};
ghost use Rattle.scc_unroll_laws.specs.Heads.{simple, stand_behind};
ghost use Rattle.scc_unroll_asked.specs.Read.{IsRead};

use scc_base::{NoMemory, Place, lost};
use scc_core::{CoreBase, CoreExpr, CoreLeft, CoreNode, CoreStmt};

/// A sum of numbers of statements.
pub fn plus(a: u64, b: u64) -> Result<u64, NoMemory>
    ensures { IfOk result (λ n. n ≡ a + b) }
{
    match a.checked_add(b) {
        Some(n) => Ok(n),
        None => Err(lost()),
    }
}

/// How many statements there are, at every depth.
#[cycle(size)]
pub fn size_of(body: &[CoreStmt]) -> Result<u64, NoMemory>
    ensures { IfOk result (λ n. n ≡ code.size (code_of body.now)) }
{
    let mut sum = 0;
    for s in body {
        let here = size_in(s)?;
        sum = plus(sum, here)?;
    }
    Ok(sum)
}

/// How many a statement is, with those in it.
#[cycle(size)]
pub fn size_in(s: &CoreStmt) -> Result<u64, NoMemory>
    ensures { IfOk result (λ n. n ≡ code.size (code_of (s.now ∷ []))) }
{
    match &s.node {
        CoreNode::If { yes, no, .. } => {
            let yes = size_of(yes.as_slice())?;
            let no = size_of(no.as_slice())?;
            plus(1, plus(yes, no)?)
        }
        CoreNode::Block(body) | CoreNode::Loop { body, .. } => plus(1, size_of(body.as_slice())?),
        CoreNode::Assign { .. }
        | CoreNode::Exit(_)
        | CoreNode::Wait { .. }
        | CoreNode::Alias { .. } => Ok(1),
    }
}

/// Whether a wait stands in statements.
#[cycle(waits)]
pub fn holds_wait(body: &[CoreStmt]) -> bool
    ensures { result ≡ code.holds_wait (code_of body.now) }
{
    let mut found = false;
    for s in body {
        let here = waits_in(s);
        found = either(found, here);
    }
    found
}

/// Whether one of two holds.
pub fn either(a: bool, b: bool) -> bool
    ensures { result ≡ (a || b) }
{
    a || b
}

#[cycle(waits)]
fn waits_in(s: &CoreStmt) -> bool
    ensures { result ≡ code.holds_wait (code_of (s.now ∷ [])) }
{
    match &s.node {
        CoreNode::Wait { .. } => true,
        CoreNode::If { yes, no, .. } => holds_wait(yes.as_slice()) || holds_wait(no.as_slice()),
        CoreNode::Block(body) | CoreNode::Loop { body, .. } => holds_wait(body.as_slice()),
        CoreNode::Assign { .. } | CoreNode::Exit(_) | CoreNode::Alias { .. } => false,
    }
}

/// Whether no statement stands in a statement, and it is no loop, block or `if`.
pub fn is_simple(s: &CoreStmt) -> bool
    ensures { result ≡ simple (code_of (s.now ∷ [])) }
{
    match &s.node {
        CoreNode::Assign { .. } => true,
        CoreNode::Alias { .. } => true,
        CoreNode::Exit(_) => true,
        CoreNode::Wait { .. } => true,
        CoreNode::If { .. } => false,
        CoreNode::Block(_) => false,
        CoreNode::Loop { .. } => false,
    }
}

/// Whether so many statements are all.
pub fn are_all(count: usize, body: &[CoreStmt]) -> bool
    ensures { result ≡ nat_eq count (length body.now) }
{
    count == body.len()
}

/// Whether nothing is left.
pub fn is_end(body: &[CoreStmt]) -> bool
    ensures { result ≡ spec.is_end (code_of body.now) }
{
    body.is_empty()
}

/// Whether a location is a cell as a whole.
#[tactic(auto, using(scc_unroll_laws::proofs::Lefts::no_cell))]
pub fn is_cell(cell: u32, left: &CoreLeft) -> bool
    ensures { result ≡ (spec.is_cell cell (taken_of left.now).left && spec.is_whole (taken_of left.now).pick) }
{
    if !left.parts.is_empty() {
        return false;
    }
    match &left.base {
        CoreBase::Cell(n) => *n == cell && left.pick.is_none(),
        CoreBase::Prefix(_) => false,
        CoreBase::Follow { .. } => false,
        CoreBase::Null => false,
    }
}

/// Where a statement stands: it is its block's first, or behind that one, which is an assignment, or elsewhere.
#[derive(Clone, Copy)]
pub enum Stand<'a> {
    First,
    Behind {
        left: &'a CoreLeft,
        value: &'a CoreExpr,
    },
    Elsewhere,
}

/// Where the statement behind another stands.
pub fn behind<'a>(stand: Stand<'_>, s: &'a CoreStmt) -> Stand<'a>
    ensures stands { stand_of result ≡ stand_behind (stand_of stand.entry) (code_of (s.now ∷ [])) }
    ensures read { (known : Known) → AreRead known (asked (s.now ∷ [])) → StandIsRead known result }
{
    match (stand, &s.node) {
        (Stand::First, CoreNode::Assign { left, value }) => Stand::Behind { left, value },
        _ => Stand::Elsewhere,
    }
}

/// The parts of a counted loop's body: the test that leaves it, a turn, and the step, which gives the counter its next
/// value.
#[derive(Clone, Copy)]
pub struct Turning<'a> {
    pub test: &'a CoreExpr,
    pub place: Place,
    pub turn: &'a [CoreStmt],
    pub step_place: Place,
    pub step_left: &'a CoreLeft,
    pub step: &'a CoreExpr,
}

/// Those of a body with a test that leaves the block where it fails, a block, and an assignment of the counter; None where
/// the body has another form.
pub fn turning_in(cell: u32, body: &[CoreStmt]) -> Option<Turning<'_>>
    ensures parts { option_map turned result ≡ if spec.is_turning cell (code_of body.now) then spec.turning_of (code_of body.now) else None }
    ensures read { (known : Known) → AreRead known (asked body.now) → IfSome result (λ t. IsRead known t.test.now × IsRead known t.step.now) }
    ensures itself { AreAll IsItself (asked body.now) → IfSome result (λ t. IsItself t.step.now) }
    ensures whole { IfSome result (λ t. spec.is_whole (taken_of t.step_left.now).pick ≡ true) }
    ensures within { (xs : List Item) → AreWithin xs body.now → IfSome result (λ t. IsWithin xs t.step_left.now) }
{
    let [first, rest @ ..] = body else {
        return None;
    };
    match &first.node {
        CoreNode::If { test, yes, no } => {
            if is_end(yes.as_slice()) && leaves_block(no.as_slice()) {
                turn(cell, test, rest)
            } else {
                None
            }
        }
        _ => None,
    }
}

fn leaves_block(body: &[CoreStmt]) -> bool
    ensures { result ≡ spec.leaves_block (code_of body.now) }
{
    let [s, rest @ ..] = body else {
        return false;
    };
    match &s.node {
        CoreNode::Exit(n) => *n == 0 && is_end(rest),
        _ => false,
    }
}

fn turn<'a>(cell: u32, test: &'a CoreExpr, body: &'a [CoreStmt]) -> Option<Turning<'a>>
    ensures parts { option_map turned result ≡ if spec.is_turn cell (code_of body.now) then spec.turn_of (term_of test.now) (code_of body.now) else None }
    ensures read { (known : Known) → IsRead known test.now → AreRead known (asked body.now) → IfSome result (λ t. IsRead known t.test.now × IsRead known t.step.now) }
    ensures itself { AreAll IsItself (asked body.now) → IfSome result (λ t. IsItself t.step.now) }
    ensures whole { IfSome result (λ t. spec.is_whole (taken_of t.step_left.now).pick ≡ true) }
    ensures within { (xs : List Item) → AreWithin xs body.now → IfSome result (λ t. IsWithin xs t.step_left.now) }
{
    let [block, rest @ ..] = body else {
        return None;
    };
    match &block.node {
        CoreNode::Block(inner) => step(cell, test, block.place, inner.as_slice(), rest),
        _ => None,
    }
}

fn step<'a>(
    cell: u32,
    test: &'a CoreExpr,
    place: Place,
    turn: &'a [CoreStmt],
    body: &'a [CoreStmt],
) -> Option<Turning<'a>>
    ensures parts { option_map turned result ≡ if spec.is_step cell (code_of body.now) then spec.step_of (term_of test.now) place (code_of turn.now) (code_of body.now) else None }
    ensures read { (known : Known) → IsRead known test.now → AreRead known (asked body.now) → IfSome result (λ t. IsRead known t.test.now × IsRead known t.step.now) }
    ensures itself { AreAll IsItself (asked body.now) → IfSome result (λ t. IsItself t.step.now) }
    ensures whole { IfSome result (λ t. spec.is_whole (taken_of t.step_left.now).pick ≡ true) }
    ensures within { (xs : List Item) → AreWithin xs body.now → IfSome result (λ t. IsWithin xs t.step_left.now) }
{
    let [s, rest @ ..] = body else {
        return None;
    };
    match &s.node {
        CoreNode::Assign { left, value } => {
            if is_cell(cell, left) && is_end(rest) {
                Some(Turning {
                    test,
                    place,
                    turn,
                    step_place: s.place,
                    step_left: left,
                    step: value,
                })
            } else {
                None
            }
        }
        _ => None,
    }
}
