//! Statements.
ghost use Rattle.std.specs.Prelude.{◌≡◌, ◌+◌, ◌^◌, ◌-◌, [], min, map, IfOk};
ghost use Rattle.scc_svread_check.specs.Lines as lines;
ghost use Rattle.scc_svread_check.specs.Walking as walking;

use crate::expr::part;
use crate::labels::{add, is_wrong_label};
use crate::leaf::{digits, left, pass_both};
use crate::scope::Scope;
use crate::text_set::TextSet;
use crate::walk::Walk;
use scc_base::NoMemory;
use scc_svread_grammar::{RawArm, RawStmt};
use std::alloc::Global;

/// The blanks before a line that stands further in.
pub fn deeper(n: usize) -> usize
    ensures { result ≡ walking.deeper n }
{
    n.saturating_add(2)
}

/// A statement behind so many blanks.
#[cycle(stmts)]
fn stmt(alloc: Global, scope: &Scope, s: &RawStmt, n: usize, w: Walk) -> Result<Walk, NoMemory>
    ensures { IfOk result (λ v. v ≡ lines.line_of scope.now s.now n w) }
{
    match s {
        RawStmt::Assign { left: l, value } => {
            let value = part(scope, value, left(scope, l, w.pass(n)).pass(3));
            Ok(value.walk.pass(2))
        }
        RawStmt::If { test, yes, no } => {
            let test = part(scope, test, pass_both(w, n, 4)).walk.pass(8);
            let first = stmts(alloc, scope, yes.as_slice(), deeper(n), test)?;
            other(alloc, scope, no.as_slice(), n, first)
        }
        RawStmt::Case { of, arms } => {
            let of = part(scope, of, pass_both(w, n, 6));
            let start = of.walk.pass(2);
            let end = choices(alloc, scope, of.bits, arms.as_slice(), deeper(n), start)?;
            Ok(pass_both(end, n, 8))
        }
    }
}

/// Statements behind so many blanks.
#[cycle(stmts)]
pub fn stmts(
    alloc: Global,
    scope: &Scope,
    list: &[RawStmt],
    n: usize,
    w: Walk,
) -> Result<Walk, NoMemory>
    ensures { IfOk result (λ v. v ≡ lines.lines (map (lines.line_of scope.now) list.now) n w) }
{
    let mut walk = w;
    for s in list {
        walk = stmt(alloc, scope, s, n, walk)?;
    }
    Ok(walk)
}

// A branch behind an `else`, which an empty one has not, and the end of both.
#[cycle(stmts)]
#[inline(never)]
fn other(
    alloc: Global,
    scope: &Scope,
    list: &[RawStmt],
    n: usize,
    w: Walk,
) -> Result<Walk, NoMemory>
    ensures { IfOk result (λ v. v ≡ walking.pass (n + 4) (lines.other_line (map (lines.line_of scope.now) list.now) n w)) }
{
    match list {
        [] => Ok(pass_both(w, n, 4)),
        [_, ..] => {
            let end = stmts(alloc, scope, list, deeper(n), pass_both(w, n, 15))?;
            Ok(pass_both(end, n, 4))
        }
    }
}

// The arms of a `case`.
#[cycle(stmts)]
#[inline(never)]
fn choices(
    alloc: Global,
    scope: &Scope,
    bits: Option<u32>,
    arms: &[RawArm],
    n: usize,
    w: Walk,
) -> Result<Walk, NoMemory>
    ensures { IfOk result (λ v. v ≡ lines.choices bits [] (map (lines.choice_of scope.now) arms.now) n w) }
{
    let mut labels = TextSet::new(alloc);
    let mut walk = w;
    for a in arms {
        let wrong = is_wrong_label(bits, add(alloc, &mut labels, &a.label)?, &a.label);
        let start = walk.pass(n).size_if(wrong);
        let body = stmts(
            alloc,
            scope,
            a.body.as_slice(),
            deeper(n),
            digits(&a.label, 8, start),
        )?;
        walk = pass_both(body, n, 4);
    }
    Ok(walk)
}
