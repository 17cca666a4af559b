//! What is looked for last: calls by a class's name of functions that use their object, and what holds or calls itself.
ghost use Rattle.std.specs.Prelude.{IfErr};
ghost use Rattle.scc_plain_drafts.specs.Refusals.{MayStop};

use crate::graph::{Graph, Groups, Reached, reaches_itself};
use crate::stage::Order;
use scc_base::{Code, List, NoMemory, Place, Stop, lost};
use scc_plain_bodies::{CallOn, Note, Walk, gone, refuse};
use scc_plain_tree::{Base, Reach};
use scc_templates::{InstanceId, Needed};
use scc_tree::FileTree;
use std::alloc::Global;

/// Refuses a call by a class's name (E304) of a function that uses its object, and then a class that holds itself or a function that
/// calls itself (E309), in the order of the walk, a class before its functions.
pub fn look_last(tree: &FileTree, w: &mut Walk, order: &Order) -> Result<(), Stop>
    ensures stop { IfErr result MayStop }
{
    let calls = Calls::of(w)?;
    calls.by_class(w)?;
    let holds = holding(tree, w)?;
    let classes = Cycles::of(w.alloc, &holds)?;
    let functions = Cycles::of(w.alloc, &calls.all)?;
    look(tree, w, order, &classes, &functions)
}

// What functions call.
struct Calls {
    all: Graph,
    /// From a function to those that call it on their own object.
    own: Graph,
    /// The functions that use their object by themselves.
    users: List<u32>,
}

// One call at each exit of what owns them.
impl Drop for Calls {
    fn drop(self) {
        let Calls {
            all: _all,
            own: _own,
            users: _users,
        } = self;
    }
}

impl Calls {
    fn of(w: &Walk) -> Result<Calls, NoMemory> {
        let count = w.function_count();
        let all = Graph::new(w.alloc, count)?;
        let own = Graph::new(w.alloc, count)?;
        let users = List::new(w.alloc);
        let mut calls = Calls { all, own, users };
        for note in w.notes.as_slice() {
            calls.add(*note)?;
        }
        Ok(calls)
    }

    fn add(&mut self, note: Note) -> Result<(), NoMemory> {
        match note {
            Note::This(f) => self.users.push(f.0),
            Note::Call { from, to, on, .. } => {
                if on == CallOn::Own {
                    self.own.lead(to.0, from.0)?;
                }
                self.all.lead(from.0, to.0)
            }
        }
    }

    // E304 at the first call by a class's name of a function that uses its object, by itself or by what it calls on it.
    fn by_class(&self, w: &Walk) -> Result<(), Stop>
        ensures stop { IfErr result MayStop }
    {
        let users = Reached::from(w.alloc, &self.own, self.users.as_slice())?;
        for note in w.notes.as_slice() {
            if let Note::Call { to, on, place, .. } = *note
                && on == CallOn::Class
                && users.has(to.0)
            {
                return refuse(Code::Mismatch, place); // E304
            }
        }
        Ok(())
    }
}

// The instances that instances hold as members or elements.
fn holding(tree: &FileTree, w: &mut Walk) -> Result<Graph, Stop>
    ensures stop { IfErr result MayStop }
{
    let count = w.templates.len();
    let mut holds = Graph::new(w.alloc, count)?;
    for n in 0..count {
        let n = u32::try_from(n).map_err(|_| lost())?;
        let fields = w
            .templates
            .body(tree, InstanceId(n))
            .ok_or(lost())?
            .fields
            .len();
        for k in 0..fields {
            let form = w.field_form(InstanceId(n), k, tree)?;
            if let Base::Class(of) = form.base
                && form.reach == Reach::Direct
            {
                holds.lead(n, of)?;
            }
        }
    }
    Ok(holds)
}

// A graph with its groups.
#[derive(Drop)]
struct Cycles<'a> {
    graph: &'a Graph,
    groups: Groups,
}

impl<'a> Cycles<'a> {
    fn of(alloc: Global, graph: &'a Graph) -> Result<Cycles<'a>, NoMemory> {
        let groups = Groups::of(alloc, graph)?;
        Ok(Cycles { graph, groups })
    }

    // E309 at a place where a node is on a cycle.
    fn refuse(&self, w: &Walk, k: u32, place: Place) -> Result<(), Stop>
        ensures stop { IfErr result MayStop }
    {
        if !self.groups.is_looped(self.graph, k) {
            return Ok(());
        }
        if !reaches_itself(w.alloc, self.graph, k)? {
            return gone();
        }
        refuse(Code::Recursion, place) // E309
    }
}

fn look(
    tree: &FileTree,
    w: &Walk,
    order: &Order,
    classes: &Cycles<'_>,
    functions: &Cycles<'_>,
) -> Result<(), Stop>
    ensures stop { IfErr result MayStop }
{
    let mut taken = 0;
    for k in 0..usize::MAX {
        let scope = match w.templates.needed(k) {
            None => return Ok(()),
            Some(Needed::Instance(i)) => {
                classes.refuse(w, i.0, class_place(i, tree, w)?)?;
                Some(i)
            }
            Some(Needed::Function(_)) => None,
        };
        taken = functions_of(scope, taken, tree, w, order, functions)?;
    }
    gone()
}

// The place of a class's name.
fn class_place(i: InstanceId, tree: &FileTree, w: &Walk) -> Result<Place, NoMemory> {
    let (class, _) = w.templates.args_of(i).ok_or(lost())?;
    Ok(tree.items.get(class.0 as usize).ok_or(lost())?.place)
}

// Looks at the functions of an instance, or at one of the file, from the walk's one of that number on; gives the number after.
fn functions_of(
    scope: Option<InstanceId>,
    from: usize,
    tree: &FileTree,
    w: &Walk,
    order: &Order,
    functions: &Cycles<'_>,
) -> Result<usize, Stop>
    ensures stop { IfErr result MayStop }
{
    for n in from..order.functions.len() {
        let f = *order.functions.get(n).ok_or(lost())?;
        if n > from && scope.is_none() {
            return Ok(n);
        }
        let key = w.key_of(f).ok_or(lost())?;
        if key.scope != scope {
            return Ok(n);
        }
        let function = w.tree_of(f, tree).ok_or(lost())?;
        functions.refuse(w, f.0, function.place)?;
    }
    Ok(order.functions.len())
}
