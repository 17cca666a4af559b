//! The initialisers of a member are to be run, one after another.
ghost use Rattle.std.specs.Prelude.{◌≡◌, map};
ghost use Rattle.scc_elab_made.specs.Tails.{filler_run, fillers_run, first_run, tails_run};
ghost use Rattle.scc_elab_works.specs.Works.{at_in, Puts};

use crate::running::put_run;
use scc_base::NoMemory;
use scc_elab_groups::first_alone;
use scc_elab_works::{At, Work, makes_first};
use scc_plain_tree::PlainStmt;
use std::alloc::Global;

// The first of some statements is to be run.
fn put_first<'t>(
    alloc: Global,
    at: &At<'t>,
    tail: &'t [PlainStmt],
    works: &mut Vec<Work<'t>>,
) -> Result<(), NoMemory>
    ensures { Puts result works.old.items works.new.items (λ p x. first_run p (at_in at.now) tail.now x) }
{
    match tail {
        [] => Ok(()),
        [_first, _rest @ ..] => put_run(alloc, at, first_alone(tail), works),
    }
}

/// Some initialisers are to be run, the last one first.
pub fn put_tails<'t>(
    alloc: Global,
    at: &At<'t>,
    tails: &[&'t [PlainStmt]],
    works: &mut Vec<Work<'t>>,
) -> Result<(), NoMemory>
    ensures { Puts result works.old.items works.new.items (λ p x. tails_run p (at_in at.now) (map (λ t. t.now) tails.now) x) }
{
    for tail in tails {
        put_first(alloc, at, tail, works)?;
    }
    Ok(())
}

fn put_filler<'t>(
    alloc: Global,
    at: &At<'t>,
    tail: &'t [PlainStmt],
    works: &mut Vec<Work<'t>>,
) -> Result<(), NoMemory>
    ensures { Puts result works.old.items works.new.items (λ p x. filler_run p (at_in at.now) tail.now x) }
{
    if makes_first(tail) {
        Ok(())
    } else {
        put_first(alloc, at, tail, works)
    }
}

/// They are to be run but for what makes objects.
pub fn put_fillers<'t>(
    alloc: Global,
    at: &At<'t>,
    tails: &[&'t [PlainStmt]],
    works: &mut Vec<Work<'t>>,
) -> Result<(), NoMemory>
    ensures { Puts result works.old.items works.new.items (λ p x. fillers_run p (at_in at.now) (map (λ t. t.now) tails.now) x) }
{
    for tail in tails {
        put_filler(alloc, at, tail, works)?;
    }
    Ok(())
}
