//! Objects, and where pointers lead.
ghost use Rattle.std.specs.Prelude.{◌≡◌, map, option_map, pos, IfOk, OnOk, ◌++◌};
ghost use Rattle.scc_bits_kinds.specs.Kinds.{width_of};
ghost use Rattle.scc_bits_kinds.specs.Numbers.{low};
ghost use Rattle.scc_elab_grown.specs.Grown.{grown_of};
ghost use Rattle.scc_elab_grown.specs.Objects.{node_of as node_in, object_of as object_in};
ghost use Rattle.scc_elab_left.specs.Lefts.{at_most_one, object_left};
ghost use Rattle.scc_elab_left.specs.Reached.{Reaches, reached_from};
ghost use Rattle.scc_elab_spec.specs.Design.{Pointer};
ghost use Rattle.scc_elab_spec.specs.Elaborated.{left_node, led_to, objects_left, target_if, targets_left};
ghost use Rattle.scc_elab_spec.specs.Grown.{at_path};
ghost use Rattle.scc_elab_store.specs.Locations.{location_of, part_of};
ghost use Rattle.scc_plain_view.specs.Designs.{node_of, object_of, target_of as target_in};

use crate::paths::{kept_path, path_in};
use crate::reached::{Reached, count, object_at, reached_by};
use scc_base::{List, NoMemory, lost};
use scc_bits::Word;
use scc_bits_kinds::{Kind, cut, width};
use scc_elab_design::{Object as Standing, ObjectNode, Target};
use scc_elab_grown::{Grown, Node, Object};
use scc_elab_ports::root_of;
use scc_elab_store::{Location, Part};

fn low_bits(bits: u32, word: u128) -> Result<u128, NoMemory>
    ensures { IfOk result (λ w. w ≡ low bits (pos word)) }
{
    if 1 <= bits && bits <= 128 {
        Ok(cut(bits, word))
    } else {
        Err(lost())
    }
}

// What a variable holds.
fn word_left(g: &Grown, path: &[Part], kind: Kind) -> Result<Word, NoMemory>
    ensures { IfOk result (λ w. w.bits ≡ low (width_of kind) (pos ((grown_of g.now).store.words (at_path (map part_of path.now))))) }
{
    let at = Location::below(g.alloc, path)?;
    let bits = low_bits(width(kind), g.store.word(&at))?;
    Ok(Word { bits })
}

// Where a pointer leads.
fn led(g: &Grown, path: &[Part]) -> Result<Option<Location>, NoMemory>
    ensures { IfOk result (λ t. option_map location_of t ≡ led_to (grown_of g.now) (map part_of path.now)) }
{
    let at = Location::below(g.alloc, path)?;
    g.store.target(g.alloc, &at)
}

fn pointer_left(g: &Grown, reached: &Reached, path: &[Part]) -> Result<ObjectNode, NoMemory>
    requires { Reaches (grown_of g.now).objects reached.now.by_path.entries }
    ensures { IfOk result (λ n. n ≡ ObjectNode.Pointer (reached_from (grown_of g.now).objects (led_to (grown_of g.now) (map part_of path.now)))) }
{
    let to = led(g, path)?;
    Ok(ObjectNode::Pointer(reached_by(reached, &to)))
}

/// What an object is that is left.
pub fn node_left(
    g: &Grown,
    reached: &Reached,
    number: u32,
    object: &Object,
) -> Result<ObjectNode, NoMemory>
    requires { Reaches (grown_of g.now).objects reached.now.by_path.entries }
    ensures { IfOk result (λ n. node_of n ≡ left_node (grown_of g.now) number (object_in object.now) (node_in object.now.node)) }
{
    match object.node {
        Node::Class(class) => Ok(ObjectNode::Module(class)),
        Node::Port { kind, output, .. } => Ok(ObjectNode::Port {
            kind,
            output,
            root: root_of(g, number),
        }),
        Node::Signal(kind) => Ok(ObjectNode::Signal(kind)),
        Node::Variable(kind) => Ok(ObjectNode::Variable {
            kind,
            value: word_left(g, object.path.as_slice(), kind)?,
        }),
        Node::Pointer => pointer_left(g, reached, object.path.as_slice()),
    }
}

fn standing(
    g: &Grown,
    reached: &Reached,
    number: u32,
    object: &Object,
) -> Result<Standing, NoMemory>
    requires { Reaches (grown_of g.now).objects reached.now.by_path.entries }
    ensures { IfOk result (λ o. object_of o ≡ object_left (grown_of g.now) number (object_in object.now)) }
{
    let node = node_left(g, reached, number, object)?;
    let path = path_in(g.alloc, object.path.as_slice())?;
    Ok(Standing {
        path,
        place: object.place,
        node,
    })
}

/// The objects that are left.
pub fn objects_of(g: &Grown, reached: &Reached) -> Result<List<Standing>, NoMemory>
    requires { Reaches (grown_of g.now).objects reached.now.by_path.entries }
    ensures { IfOk result (λ os. map object_of os ≡ objects_left (grown_of g.now) 0 (grown_of g.now).objects) }
{
    let mut list = List::new(g.alloc);
    for number in 0..count(g) {
        let Some(object) = object_at(g, number) else {
            return Err(lost());
        };
        list.push(standing(g, reached, number, object)?)?;
    }
    Ok(list)
}

// Where a pointer leads, if anywhere below the top.
fn target_at(g: &Grown, number: u32, path: &[Part]) -> Result<Option<Target>, NoMemory>
    ensures { IfOk result (λ t. at_most_one (option_map target_in t) ≡ target_if (grown_of g.now) number (record { path = map part_of path.now; place = record { file = 0; at = 0 }; node = Pointer None }) (Pointer None)) }
{
    let Some(to) = led(g, path)? else {
        return Ok(None);
    };
    if to.local.is_some() {
        return Ok(None);
    }
    Ok(Some(Target {
        object: number,
        path: kept_path(g.alloc, to.path.as_slice())?,
    }))
}

fn target_of(g: &Grown, number: u32, object: &Object) -> Result<Option<Target>, NoMemory>
    ensures { IfOk result (λ t. at_most_one (option_map target_in t) ≡ target_if (grown_of g.now) number (object_in object.now) (node_in object.now.node)) }
{
    match object.node {
        Node::Pointer => target_at(g, number, object.path.as_slice()),
        Node::Class(_) => Ok(None),
        Node::Port { .. } => Ok(None),
        Node::Signal(_) => Ok(None),
        Node::Variable(_) => Ok(None),
    }
}

fn put(list: &mut List<Target>, target: Option<Target>) -> Result<(), NoMemory>
    ensures { OnOk result (map target_in list.new ≡ map target_in list.old ++ at_most_one (option_map target_in target)) }
{
    match target {
        Some(target) => list.push(target),
        None => Ok(()),
    }
}

/// Where all pointers lead.
pub fn targets_of(g: &Grown) -> Result<List<Target>, NoMemory>
    ensures { IfOk result (λ ts. map target_in ts ≡ targets_left (grown_of g.now) 0 (grown_of g.now).objects) }
{
    let mut list = List::new(g.alloc);
    for number in 0..count(g) {
        let Some(object) = object_at(g, number) else {
            return Err(lost());
        };
        put(&mut list, target_of(g, number, object)?)?;
    }
    Ok(list)
}
