//! Statements that fit.
ghost use Rattle.std.specs.Prelude.{◌≡◌, IfOk, true};
ghost use Rattle.scc_core_spec.specs.Code.{End};
ghost use Rattle.scc_core_spec.specs.Fit.{fit_pick};
ghost use Rattle.scc_core_view.specs.Codes.{code_of, stmt_code};
ghost use Rattle.scc_core_view.specs.Terms.{taken_of, term_of};
ghost use Rattle.scc_core_look.specs.Fits.{IsGround, good_code, good_put, here, mine, put_test, some_pick};

use crate::exits::both;
use crate::seen::Test;
use crate::terms::{Ground, expression_fits, left_fits};
use scc_base::NoMemory;
use scc_bits::{Kind, width};
use scc_core::{CoreExpr, CoreLeft, CoreNode, CorePick, CoreStmt, LEVELS};

// What is asked of the cells of a location that is assigned a value of a kind.
fn put_test(kind: Kind, pick: &Option<CorePick>) -> Test
    ensures { result ≡ put_test kind (some_pick pick.now) }
{
    match pick {
        None => Test::Whole(width(kind)),
        Some(CorePick::Bit { .. }) => Test::One(width(kind)),
        Some(CorePick::Range { h, l, .. }) => Test::Bits {
            width: width(kind),
            h: *h,
            l: *l,
        },
    }
}

fn place_fits(g: &Ground<'_>, pick: &Option<CorePick>) -> Result<bool, NoMemory>
    ensures { IfOk result (λ b. b ≡ true → IsGround g.now → fit_pick (here g.now) (mine g.now) (some_pick pick.now) ≡ true) }
{
    match pick {
        Some(CorePick::Bit { at, .. }) => expression_fits(g, at, LEVELS),
        Some(CorePick::Range { .. }) => Ok(true),
        None => Ok(true),
    }
}

/// Whether an assignment fits, and writes no input.
pub fn put_fits(g: &Ground<'_>, left: &CoreLeft, value: &CoreExpr) -> Result<bool, NoMemory>
    ensures { IfOk result (λ b. b ≡ true → IsGround g.now → good_put g.now (taken_of left.now).left (taken_of left.now).pick (term_of value.now) ≡ true) }
{
    let to = left_fits(g, left, put_test(value.kind, &left.pick), LEVELS)?;
    let at = place_fits(g, &left.pick)?;
    let put = expression_fits(g, value, LEVELS)?;
    Ok(both(to, both(at, put)))
}

/// Whether statements fit, and write no input.
#[cycle(code)]
pub fn code_fits(g: &Ground<'_>, list: &[CoreStmt]) -> Result<bool, NoMemory>
    ensures { IfOk result (λ b. b ≡ true → IsGround g.now → good_code g.now (code_of list.now) ≡ true) }
{
    let mut fit = true;
    for s in list {
        fit = both(fit, statement_fits(g, s)?);
    }
    Ok(fit)
}

#[cycle(code)]
#[tactic(auto, using(crate::proofs::Good::put_good, crate::proofs::Good::block_good, crate::proofs::Good::loop_good, crate::proofs::Good::wait_good))]
fn statement_fits(g: &Ground<'_>, s: &CoreStmt) -> Result<bool, NoMemory>
    ensures { IfOk result (λ b. b ≡ true → IsGround g.now → good_code g.now (stmt_code s.now End) ≡ true) }
{
    match &s.node {
        CoreNode::Assign { left, value } => put_fits(g, left, value),
        CoreNode::If { test, yes, no } => {
            let fit = expression_fits(g, test, LEVELS)?;
            let first = code_fits(g, yes.as_slice())?;
            let other = code_fits(g, no.as_slice())?;
            Ok(both(fit, both(first, other)))
        }
        CoreNode::Block(body) => code_fits(g, body.as_slice()),
        CoreNode::Loop { body, .. } => code_fits(g, body.as_slice()),
        CoreNode::Exit(_) => Ok(true),
        CoreNode::Wait { n } => Ok(*n > 0),
        CoreNode::Alias { .. } => Ok(false),
    }
}
