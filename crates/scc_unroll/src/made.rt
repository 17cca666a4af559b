//! Statements of an unrolled body.
ghost use Rattle.std.specs.Prelude.{◌≡◌, [], ◌∷◌, ◌++◌, map, IfOk, OnOk, Some, true, option_map};
ghost use Rattle.scc_core_spec.specs.Code.{Code, Put, Aim, If, Loop};
ghost use Rattle.scc_core_spec.specs.Counted.{counting, counting_left, counting_pick, is_whole};
ghost use Rattle.scc_core_spec.specs.Unrolled.{counting_count, counting_to, stepped};
ghost use Rattle.scc_core_view.specs.Codes.{code_of, counted, pointed_of, stmt_code};
ghost use Rattle.scc_core_view.specs.Terms.{taken_of, term_of};
ghost use Rattle.scc_unroll_asked.specs.Copied.{copied, of_aim, of_choice, of_loop, of_put, of_step};
ghost use Rattle.scc_unroll_asked.specs.Items.{asked, asked_count};
ghost use Rattle.scc_unroll_asked.specs.Asked.{IsItself};
ghost use Rattle.scc_unroll.specs.Shape.{turned};
ghost use Rattle.scc_unroll_laws.specs.Counters.{counters_of};
ghost use Rattle.scc_unroll_laws.specs.Writing.{set_before};

use crate::shape::Turning;
use scc_base::{List, NoMemory, Place};
use scc_bits::Word;
use scc_core::{
    Copies, CoreExpr, CoreExprNode, CoreLeft, CoreNode, CoreStmt, Count, Counter, Pointed,
};
use std::alloc::Global;

/// A copy of an assignment in which the counters stand as literals.
pub fn put(
    alloc: Global,
    counters: &[Counter],
    place: Place,
    left: &CoreLeft,
    value: &CoreExpr,
) -> Result<CoreStmt, NoMemory>
    ensures code { IfOk result (λ z. (r : Code) → stmt_code z r ≡ Put place (counting_left (counters_of counters.now) (taken_of left.now).left) (counting_pick (counters_of counters.now) (taken_of left.now).pick) (counting (counters_of counters.now) (term_of value.now)) r) }
    ensures items { IfOk result (λ z. asked (z ∷ []) ≡ map (copied counters.now) (of_put left.now value.now)) }
{
    let copies = Copies::with(alloc, counters);
    let left = copies.left(left)?;
    let value = copies.expr(value)?;
    let node = CoreNode::Assign { left, value };
    Ok(CoreStmt { place, node })
}

/// That of a pointer's assignment.
pub fn aim(
    alloc: Global,
    counters: &[Counter],
    place: Place,
    to: &Pointed,
    target: &CoreLeft,
) -> Result<CoreStmt, NoMemory>
    ensures code { IfOk result (λ z. (r : Code) → stmt_code z r ≡ Aim place (counting_to (counters_of counters.now) (pointed_of to.now)) (counting_left (counters_of counters.now) (taken_of target.now).left) r) }
    ensures items { IfOk result (λ z. asked (z ∷ []) ≡ map (copied counters.now) (of_aim to.now target.now)) }
{
    let copies = Copies::with(alloc, counters);
    let to = copies.pointed(to)?;
    let target = copies.left(target)?;
    let node = CoreNode::Alias { to, target };
    Ok(CoreStmt { place, node })
}

/// That of an `if` with other branches.
pub fn choice(
    alloc: Global,
    counters: &[Counter],
    place: Place,
    test: &CoreExpr,
    yes: List<CoreStmt>,
    no: List<CoreStmt>,
) -> Result<CoreStmt, NoMemory>
    ensures code { IfOk result (λ z. (r : Code) → stmt_code z r ≡ If place (counting (counters_of counters.now) (term_of test.now)) (code_of yes) (code_of no) r) }
    ensures items { IfOk result (λ z. asked (z ∷ []) ≡ of_choice counters.now test.now yes no) }
{
    let test = Copies::with(alloc, counters).expr(test)?;
    let node = CoreNode::If { test, yes, no };
    Ok(CoreStmt { place, node })
}

/// That of a loop with another body.
pub fn kept(
    alloc: Global,
    counters: &[Counter],
    place: Place,
    count: &Option<Count>,
    body: List<CoreStmt>,
) -> Result<CoreStmt, NoMemory>
    ensures code { IfOk result (λ z. (r : Code) → stmt_code z r ≡ Loop place (option_map (counting_count (counters_of counters.now)) (counted count.now)) (code_of body) r) }
    ensures items { IfOk result (λ z. asked (z ∷ []) ≡ of_loop counters.now count.now body) }
{
    let count = count_copied(alloc, counters, count)?;
    let node = CoreNode::Loop { count, body };
    Ok(CoreStmt { place, node })
}

// How a loop that stays counts.
fn count_copied(
    alloc: Global,
    counters: &[Counter],
    count: &Option<Count>,
) -> Result<Option<Count>, NoMemory>
    ensures code { IfOk result (λ o. counted o ≡ option_map (counting_count (counters_of counters.now)) (counted count.now)) }
    ensures items { IfOk result (λ o. asked_count o ≡ map (copied counters.now) (asked_count count.now)) }
{
    match count {
        Some(count) => {
            let copy = Copies::with(alloc, counters).count(count)?;
            Ok(Some(copy))
        }
        None => Ok(None),
    }
}

/// Adds the block of a turn, and the counter's next number.
pub fn push_turn(
    alloc: Global,
    turning: &Turning<'_>,
    block: CoreStmt,
    next: Word,
    out: &mut List<CoreStmt>,
) -> Result<(), NoMemory>
    ensures code { IsItself turning.now.step.now → is_whole (taken_of turning.now.step_left.now).pick ≡ true → OnOk result ((r : Code) → set_before out.new r ≡ set_before out.old (stmt_code block (stepped (Some (turned turning.now)) next.bits r))) }
    ensures items { OnOk result (asked out.new ≡ asked out.old ++ (asked (block ∷ []) ++ of_step turning.now.step_left.now turning.now.step.now next)) }
{
    out.push(block)?;
    let step = step(alloc, turning, next)?;
    out.push(step)
}

// The counter's next number, assigned where its step stood.
fn step(alloc: Global, turning: &Turning<'_>, next: Word) -> Result<CoreStmt, NoMemory>
    ensures code { IsItself turning.now.step.now → is_whole (taken_of turning.now.step_left.now).pick ≡ true → IfOk result (λ z. (r : Code) → stmt_code z r ≡ stepped (Some (turned turning.now)) next.bits r) }
    ensures items { IfOk result (λ z. asked (z ∷ []) ≡ of_step turning.now.step_left.now turning.now.step.now next) }
{
    let place = turning.step_place;
    let left = Copies::plain(alloc).left(turning.step_left)?;
    let literal = CoreExprNode::Lit(next);
    let value = CoreExpr::new(alloc, turning.step.place, turning.step.kind, literal)?;
    let node = CoreNode::Assign { left, value };
    Ok(CoreStmt { place, node })
}
