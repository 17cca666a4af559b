//! Functions whole.
ghost use Rattle.std.specs.Prelude.{IfErr};
ghost use Rattle.scc_plain_drafts.specs.Refusals.{MayStop};

use crate::init::init;
use crate::statement::scoped;
use scc_base::{List, Stop, lost};
use scc_plain_bodies::{Body, Flow, FunctionId, Walk};
use scc_plain_tree::PlainFunction;
use scc_tree::FileTree;
use std::mem;

/// A function's plain form, its initialisers before its body. The functions that it names have the numbers of `w.numbers`. Refuses by
/// E301 and E302 to E308, E310 to E312 and E314; a call that stands where none may is noted in `w.late` alone.
pub fn walk_body(f: FunctionId, tree: &FileTree, w: &mut Walk) -> Result<PlainFunction, Stop>
    ensures stop { IfErr result MayStop }
{
    let mut b = w.open(f, tree)?;
    walked(f, tree, w, &mut b)
}

// The same, from the state at the beginning of its body.
fn walked(f: FunctionId, tree: &FileTree, w: &mut Walk, b: &mut Body) -> Result<PlainFunction, Stop>
    ensures stop { IfErr result MayStop }
{
    let source = w.tree_of(f, tree).ok_or(lost())?;
    let mut inits = List::new(w.alloc);
    for i in source.inits.as_slice() {
        init(i, tree, w, b, &mut inits)?;
    }
    let mut body = List::new(w.alloc);
    if let Some(list) = &source.body {
        scoped(list.as_slice(), tree, Flow::start(), w, b, &mut body)?;
    }
    let params = u32::try_from(source.params.len()).map_err(|_| lost())?;
    Ok(PlainFunction {
        name: source.name,
        place: source.place,
        class: b.scope.map(|i| i.0),
        params,
        locals: mem::replace(&mut b.locals, List::new(w.alloc)),
        result: b.result,
        inits,
        body,
    })
}
