//! The design, from what construction made.
ghost use Rattle.std.specs.Prelude.{◌≡◌, ◌≤◌, IfOk};
ghost use Rattle.scc_elab.specs.Storage.{node_bits, storage_of};
ghost use Rattle.scc_elab_state.specs.Things.{sort_bits};

use crate::after::root_of;
use scc_base::{List, NoMemory, Path, PathPart, lost, push};
use scc_elab_design::{Design, Object, ObjectNode, Process, Target, VectorSize};
use scc_elab_state::grown::Grown;
use scc_elab_state::spots::SpotId;
use scc_elab_state::things::{Thing, ThingSort};
use std::alloc::Global;

/// The design of what was made, with its processes.
pub fn design_of(g: &Grown, processes: List<Process>) -> Result<Design, NoMemory>
    ensures { IfOk result (λ d. storage_of d.objects ≤ 1048576) }
{
    Ok(Design {
        objects: objects_of(g)?,
        processes,
        targets: targets_of(g)?,
        vectors: vectors_of(g)?,
    })
}

fn objects_of(g: &Grown) -> Result<List<Object>, NoMemory>
    ensures { IfOk result (λ os. storage_of os ≤ 1048576) }
{
    let mut list = List::new(g.alloc);
    let mut number = 0;
    for thing in g.things.as_slice() {
        list.push(Object {
            path: path_of(thing.spot, g)?,
            place: thing.place,
            node: node_of(thing, number, g)?,
        })?;
        number = next(number);
    }
    Ok(list)
}

fn next(number: u32) -> u32 {
    number.saturating_add(1)
}

fn node_of(thing: &Thing, number: u32, g: &Grown) -> Result<ObjectNode, NoMemory>
    ensures { IfOk result (λ n. node_bits n ≡ sort_bits thing.now.sort) }
{
    Ok(match thing.sort {
        ThingSort::Module(class) => ObjectNode::Module(class),
        ThingSort::Port { kind, output, .. } => ObjectNode::Port {
            kind,
            output,
            root: root_of(g, number)?,
        },
        ThingSort::Signal(kind) => ObjectNode::Signal(kind),
        ThingSort::Variable(value) => ObjectNode::Variable {
            kind: value.kind(),
            value: value.word(),
        },
        ThingSort::Pointer(None) => ObjectNode::Pointer(None),
        ThingSort::Pointer(Some(to)) => ObjectNode::Pointer(g.spots.object(to)?),
    })
}

fn targets_of(g: &Grown) -> Result<List<Target>, NoMemory> {
    let mut list = List::new(g.alloc);
    let mut number = 0;
    for thing in g.things.as_slice() {
        if let ThingSort::Pointer(Some(to)) = thing.sort {
            list.push(Target {
                object: number,
                path: path_of(to, g)?,
            })?;
        }
        number = next(number);
    }
    Ok(list)
}

fn vectors_of(g: &Grown) -> Result<List<VectorSize>, NoMemory> {
    let mut list = List::new(g.alloc);
    for vector in g.vectors.as_slice() {
        list.push(VectorSize {
            path: path_of(vector.spot, g)?,
            size: vector.size,
        })?;
    }
    Ok(list)
}

// The path of a location below the top.
fn path_of(at: SpotId, g: &Grown) -> Result<Path, NoMemory> {
    let parts = parts_of(at, g)?;
    reversed(parts.as_slice(), g.alloc)
}

// The parts of a location below the top, the last one first.
fn parts_of(at: SpotId, g: &Grown) -> Result<Vec<PathPart>, NoMemory> {
    if g.spots.local_of(at)?.is_some() {
        return Err(lost());
    }
    let mut parts = Vec::new(g.alloc);
    let mut from = at;
    for _ in 0..usize::MAX {
        if g.spots.depth(from)? == 0 {
            return Ok(parts);
        }
        push(&mut parts, g.spots.last_part(from)?)?;
        from = g.spots.from(from)?;
    }
    Err(lost())
}

fn reversed(parts: &[PathPart], alloc: Global) -> Result<Path, NoMemory> {
    let mut path = Path::new(alloc);
    for part in parts.iter().rev() {
        path.push(*part)?;
    }
    Ok(path)
}
