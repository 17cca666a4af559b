//! What is declared at a location of a local variable, and which number stands at one.
ghost use Rattle.std.specs.Prelude.{◌≡◌, map, option_and_then, option_map, Some};
ghost use Rattle.std.specs.Option.{option_copied};
ghost use Rattle.scc_elab_grown.specs.Grown.{grown_of};
ghost use Rattle.scc_elab_grown.specs.Objects.{node_of};
ghost use Rattle.scc_elab_spec.specs.Grown.{node_of as node_in, thing_at, variable_kind};
ghost use Rattle.scc_elab_spec.specs.Types.{is_direct as goes_direct};
ghost use Rattle.scc_elab_spec.specs.Worth.{constructor_at as constructor_there, direct_kind as kind_of_direct, is_inside as lies_inside, kind_there as kind_in, local_there as local_in};
ghost use Rattle.scc_elab_statements.specs.Frames.{site_in};
ghost use Rattle.scc_elab_statements.specs.Locals.{class_constructor};
ghost use Rattle.scc_elab_store.specs.Locations.{location_of, part_of};
ghost use Rattle.scc_plain_view.specs.Plains.{function_of, member_of, plain_of, reach_of};

use crate::frame::Frame;
use scc_bits::Kind;
use scc_elab_grown::{Grown, Node};
use scc_elab_store::{Location, Part};
use scc_plain_tree::{Base, Plain, PlainFunction, PlainMember, Reach};

/// Whether what is declared is the thing itself.
pub fn is_direct(reach: Reach) -> bool
    ensures { result ≡ goes_direct (reach_of reach) }
{
    match reach {
        Reach::Direct => true,
        Reach::Pointer | Reach::Reference => false,
    }
}

// Whether a path is one of indices below these sizes.
fn is_inside(sizes: &[u32], path: &[Part]) -> bool
    ensures { result ≡ lies_inside sizes.now (map part_of path.now) }
{
    match sizes {
        [] => path.is_empty(),
        [size, sizes @ ..] => match path {
            [] => false,
            [first, path @ ..] => match first {
                Part::Member(_) => false,
                Part::Element(i) => *i < u128::from(*size) && is_inside(sizes, path),
            },
        },
    }
}

// The constructor of a class.
fn constructor_of(p: &Plain, class: u32) -> Option<&PlainFunction>
    ensures { option_map function_of (option_copied result) ≡ class_constructor (plain_of p.now) class }
{
    let number = p.classes.get(class as usize)?.constructor?;
    p.functions.get(number as usize)
}

// The constructor of the object of a number.
fn constructor_at<'t>(f: &Frame<'t>, g: &Grown, object: u32) -> Option<&'t PlainFunction>
    ensures { option_map function_of (option_copied result) ≡ constructor_there (site_in f.now (grown_of g.now)) object }
{
    if object == f.object {
        return Some(f.function);
    }
    match g.node(object) {
        Some(Node::Class(class)) => constructor_of(f.plain, class),
        _ => None,
    }
}

/// The declaration of the local variable that stands at a location.
pub fn local_there<'t>(f: &Frame<'t>, g: &Grown, at: &Location) -> Option<&'t PlainMember>
    ensures { option_map member_of (option_copied result) ≡ local_in (site_in f.now (grown_of g.now)) (location_of at.now) (location_of at.now).root }
{
    let of = at.local?;
    let function = constructor_at(f, g, of.object)?;
    let member = function.locals.get(of.local as usize)?;
    if is_inside(member.shape.sizes.as_slice(), at.path.as_slice()) {
        Some(member)
    } else {
        None
    }
}

fn direct_kind(member: &PlainMember) -> Option<Kind>
    ensures { result ≡ kind_of_direct (member_of member.now) }
{
    if !is_direct(member.shape.reach) {
        return None;
    }
    match member.shape.base {
        Base::Number(kind) => Some(kind),
        Base::Class(_) | Base::Input(_) | Base::Output(_) | Base::Signal(_) | Base::ModuleName =>
            None,
    }
}

fn kind_of_node(node: Node) -> Option<Kind>
    ensures { result ≡ variable_kind (Some (node_of node)) }
{
    match node {
        Node::Variable(kind) => Some(kind),
        Node::Class(_) | Node::Port { .. } | Node::Signal(_) | Node::Pointer => None,
    }
}

/// The kind of the variable that was made at a location.
pub fn variable_there(g: &Grown, at: &Location) -> Option<Kind>
    ensures { result ≡ variable_kind (option_and_then (node_in (grown_of g.now)) (thing_at (grown_of g.now) (location_of at.now))) }
{
    match g.thing(at) {
        Some(number) => match g.node(number) {
            Some(node) => kind_of_node(node),
            None => None,
        },
        None => None,
    }
}

fn local_kind(f: &Frame, g: &Grown, at: &Location) -> Option<Kind>
    ensures { result ≡ option_and_then kind_of_direct (local_in (site_in f.now (grown_of g.now)) (location_of at.now) (location_of at.now).root) }
{
    match local_there(f, g, at) {
        Some(member) => direct_kind(member),
        None => None,
    }
}

/// The kind of the number that stands at a location.
pub fn kind_there(f: &Frame, g: &Grown, at: &Location) -> Option<Kind>
    ensures { result ≡ kind_in (site_in f.now (grown_of g.now)) (location_of at.now) }
{
    match local_kind(f, g, at) {
        Some(kind) => Some(kind),
        None => variable_there(g, at),
    }
}
