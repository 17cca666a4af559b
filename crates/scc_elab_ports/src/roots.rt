//! The ends of chains of bindings.
ghost use Rattle.std.specs.Prelude.{◌≡◌, IfOk, option_map};
ghost use Rattle.scc_elab_grown.specs.Grown.{grown_of};
ghost use Rattle.scc_elab_grown.specs.Objects.{node_of};
ghost use Rattle.scc_elab_spec.specs.After.{is_clock_node, is_top_input as is_top_input_in, root as root_in};
ghost use Rattle.scc_bits_kinds.specs.Kinds.{is_bool as is_bool_kind};

use crate::binding::is_top;
use crate::home::{home_at, path_of};
use scc_base::NoMemory;
use scc_bits::Kind;
use scc_elab_grown::{Grown, Node};

/// The root of a port, signal or variable: the end of its chain of bindings.

pub fn root_of(g: &Grown, number: u32) -> u32
    ensures { result ≡ root_in (grown_of g.now) number }
{
    let mut at = number;
    for _ in 0..path_of(g, number).len() {
        match g.bounds.of(at) {
            Some(bound) => at = bound.to,
            None => return at,
        }
    }
    at
}

fn is_bool(kind: Kind) -> bool
    ensures { result ≡ is_bool_kind kind }
{
    match kind {
        Kind::Bool => true,
        Kind::Native { .. } => false,
        Kind::Int(_) => false,
        Kind::Uint(_) => false,
        Kind::Big(_) => false,
        Kind::BigInt(_) => false,
        Kind::Bv(_) => false,
        Kind::Wide { .. } => false,
    }
}

fn is_clock(node: Option<Node>) -> bool
    ensures { result ≡ is_clock_node (option_map node_of node) }
{
    match node {
        Some(node) => match node {
            Node::Port { kind, output, .. } => { if output { false } else { is_bool(kind) } }
            Node::Class(_) => false,
            Node::Signal(_) => false,
            Node::Variable(_) => false,
            Node::Pointer => false,
        },
        None => false,
    }
}

/// Whether the object of that number is an input of the top for a `bool`.
pub fn is_top_input(g: &Grown, number: u32) -> Result<bool, NoMemory>
    ensures { IfOk result (λ b. b ≡ is_top_input_in (grown_of g.now) number) }
{
    let home = home_at(g, number)?;
    Ok(is_clock(g.node(number)) && is_top(&home))
}
