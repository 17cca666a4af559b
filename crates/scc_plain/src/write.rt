//! The program that is written once nothing is refused: bodies are walked again, now that each function has its number.
ghost use Rattle.std.specs.Prelude.{IfErr};
ghost use Rattle.scc_plain_drafts.specs.Refusals.{MayStop};

use crate::stage::Order;
use scc_base::{List, NoMemory, Place, Stop, lost};
use scc_plain_bodies::Walk;
use scc_plain_statements::{constructor, walk_body};
use scc_plain_tree::{Plain, PlainClass, PlainMember};
use scc_templates::InstanceId;
use scc_tree::FileTree;

/// The program of the instances and of the functions of a walk.
pub fn written(tree: &FileTree, w: &mut Walk, order: &Order) -> Result<Plain, Stop>
    ensures stop { IfErr result MayStop }
{
    w.numbers = numbers(w, order)?;
    let mut functions = List::new(w.alloc);
    for f in order.functions.as_slice() {
        functions.push(walk_body(*f, tree, w)?)?;
    }
    let mut classes = List::new(w.alloc);
    for n in 0..w.templates.len() {
        let n = u32::try_from(n).map_err(|_| lost())?;
        classes.push(class(InstanceId(n), tree, w)?)?;
    }
    Ok(Plain {
        classes,
        functions,
        top: 0,
    })
}

// The number of each function in the program.
fn numbers(w: &Walk, order: &Order) -> Result<List<u32>, NoMemory> {
    let mut numbers = vec![in w.alloc; 0; w.function_count()]?;
    for (n, f) in order.functions.as_slice().iter().enumerate() {
        let n = u32::try_from(n).map_err(|_| lost())?;
        match numbers.get_mut(f.0 as usize) {
            Some(place) => *place = n,
            None => return Err(lost()),
        }
    }
    Ok(List::from_vec(numbers))
}

fn class(i: InstanceId, tree: &FileTree, w: &mut Walk) -> Result<PlainClass, Stop>
    ensures stop { IfErr result MayStop }
{
    let (primary, _) = w.templates.args_of(i).ok_or(lost())?;
    let item = tree.items.get(primary.0 as usize).ok_or(lost())?;
    let name = item.name.ok_or(lost())?;
    let body = w.templates.body(tree, i).ok_or(lost())?;
    let mut members = List::new(w.alloc);
    for (k, field) in body.fields.as_slice().iter().enumerate() {
        members.push(PlainMember {
            name: field.decl.name,
            place: field.place,
            shape: w.field_shape(i, k, tree)?,
        })?;
    }
    let constructor = constructor_number(i, item.place, tree, w)?;
    Ok(PlainClass {
        name,
        place: item.place,
        module: body.module,
        members,
        constructor,
    })
}

fn constructor_number(
    i: InstanceId,
    place: Place,
    tree: &FileTree,
    w: &mut Walk,
) -> Result<Option<u32>, Stop>
    ensures stop { IfErr result MayStop }
{
    match constructor(i, place, tree, w)? {
        Some(f) => Ok(Some(w.number_of(f)?)),
        None => Ok(None),
    }
}
