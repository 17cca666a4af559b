//! The static stage as a whole.
ghost use Rattle.std.specs.Prelude.{◌≡◌, IfErr, IfOk, true};
ghost use Rattle.scc_plain_drafts.specs.Refusals.{MayStop};
ghost use Rattle.scc_plain_look.specs.Whole.{whole_plain};
ghost use Rattle.scc_plain_places.specs.Items.{stops_at};

use crate::duplicates::find_duplicates;
use crate::instance::walk_instance;
use crate::last::look_last;
use crate::outside::Outside;
use crate::top::make_top;
use crate::write::written;
use scc_base::{Code, List, Name, NoMemory, Place, Stop, lost};
use scc_plain_bodies::{FunctionId, Walk, gone, refuse};
use scc_plain_look::look;
use scc_plain_places::is_placed;
use scc_plain_statements::walk_body;
use scc_plain_tree::Plain;
use scc_templates::{FunctionKey, Needed};
use scc_tree::{FileTree, ItemNode};
use std::alloc::Global;

/// The functions whose bodies were walked, in that order.
#[derive(Drop)]
pub struct Order {
    pub functions: List<FunctionId>,
}

impl Order {
    /// Walks a function's body for its refusals.
    pub fn walk(&mut self, f: FunctionId, tree: &FileTree, w: &mut Walk) -> Result<(), Stop>
        ensures stop { IfErr result MayStop }
    {
        self.functions.push(f)?;
        let _body = walk_body(f, tree, w)?;
        Ok(())
    }
}

/// The plain program of a source for a top class: instances of templates instead of templates, each name a number, each expression with its
/// kind, conversions written out. Its classes are those that the top needs, in the order in which they are first needed. Refuses by
/// E301 to E314: first what is declared twice (E302), in text order; then what stands first in the walk over the top, and over the
/// instances and functions of the file in the order in which they are first needed; then calls by a class's name of functions that use
/// their object (E304); then classes that hold themselves and functions that call themselves (E309).
pub fn plain(alloc: Global, tree: &FileTree, top: Name) -> Result<Plain, Stop>
    ensures stop { IfErr result MayStop }
    ensures place { IfErr result (λ e. stops_at tree.now e ≡ true) }
    ensures whole { IfOk result (λ p. whole_plain p ≡ true) }
{
    match needed(alloc, tree, top) {
        Ok(program) => Ok(program),
        Err(stop) => Err(placed(tree, stop)),
    }
}

// A refusal at a place of the tree. No other is ever given.
fn placed(tree: &FileTree, stop: Stop) -> Stop
    requires { MayStop stop }
    ensures stop { MayStop result }
    ensures place { stops_at tree.now result ≡ true }
{
    match stop {
        Stop::Refused(r) => {
            if is_placed(tree, r) {
                Stop::Refused(r)
            } else {
                Stop::from(lost())
            }
        }
        Stop::NoMemory => Stop::NoMemory,
    }
}

// The program that a top needs.
fn needed(alloc: Global, tree: &FileTree, top: Name) -> Result<Plain, Stop>
    ensures stop { IfErr result MayStop }
    ensures whole { IfOk result (λ p. whole_plain p ≡ true) }
{
    find_duplicates(alloc, tree)?;
    let mut w = Walk::new(alloc, tree)?;
    reached(top, tree, &mut w)
}

// The program that a top reaches.
fn reached(top: Name, tree: &FileTree, w: &mut Walk) -> Result<Plain, Stop>
    ensures stop { IfErr result MayStop }
    ensures whole { IfOk result (λ p. whole_plain p ≡ true) }
{
    make_top(top, tree, w)?;
    let order = walked(tree, w)?;
    look_last(tree, w, &order)?;
    let program = written(tree, w, &order)?;
    look(w.alloc, &program)?;
    Ok(program)
}

// The walk over all that is needed, for refusals, instances and order. `write` walks the bodies again, with the final numbers of
// functions, so that no call is patched.
fn walked(tree: &FileTree, w: &mut Walk) -> Result<Order, Stop>
    ensures stop { IfErr result MayStop }
{
    let mut order = Order {
        functions: List::new(w.alloc),
    };
    if let Err(stop) = walk(tree, w, &mut order) {
        return sooner(stop, w.late);
    }
    match w.late {
        Some(late) => refuse(Code::CallPlace, late), // E313
        None => Ok(order),
    }
}

// A call that stands where none may is refused after all else, but for what stands at its place with a smaller number.
fn sooner<T>(stop: Stop, late: Option<Place>) -> Result<T, Stop>
    requires { MayStop stop }
    ensures stop { IfErr result MayStop }
{
    match (stop, late) {
        (Stop::Refused(r), Some(late)) => {
            if r.place == late && r.code.number() < Code::CallPlace.number() {
                return Err(Stop::Refused(r));
            }
            refuse(Code::CallPlace, late)
        }
        (stop, _) => Err(stop),
    }
}

// Walks all that is needed, as it is first needed.
fn walk(tree: &FileTree, w: &mut Walk, order: &mut Order) -> Result<(), Stop>
    ensures stop { IfErr result MayStop }
{
    let mut outside = Outside::new(w.alloc);
    for k in 0..usize::MAX {
        match w.templates.needed(k) {
            None => return Ok(()),
            Some(Needed::Instance(i)) => walk_instance(i, tree, w, order, &mut outside)?,
            Some(Needed::Function(item)) => walk_free(item, tree, w, order)?,
        }
    }
    gone()
}

/// The function of the file whose body an item is.
pub fn free_function(item: u32, tree: &FileTree, w: &mut Walk) -> Result<FunctionId, Stop>
    ensures stop { IfErr result MayStop }
{
    let at = tree.items.get(item as usize).ok_or(lost())?;
    let ItemNode::Function(f) = &at.node else {
        return gone();
    };
    let key = FunctionKey {
        scope: None,
        name: f.name,
        constructor: false,
    };
    Ok(w.function(key, f.place, tree)?.ok_or(lost())?)
}

fn walk_free(item: u32, tree: &FileTree, w: &mut Walk, order: &mut Order) -> Result<(), Stop>
    ensures stop { IfErr result MayStop }
{
    let f = free_function(item, tree, w)?;
    w.sign(f, tree)?;
    order.walk(f, tree, w)
}
