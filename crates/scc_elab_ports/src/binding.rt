//! Ports are bound (IEEE 1666-2011, 5.12).
ghost use Rattle.std.specs.Prelude.{◌≡◌, ◌&&◌, false, true, not, option_and_then, option_map, IfOk};
ghost use Rattle.scc_elab_grown.specs.Grown.{Grows, grown_of};
ghost use Rattle.scc_elab_ports.specs.Bound.{bound_if, fits_at, home_path, same_there};
ghost use Rattle.scc_elab_spec.specs.Binding.{bind_at as bind_there, binding as binding_in, bound_of, home as home_in, is_top as is_top_home, may_bind as may_bind_in, path_of as object_path, same_home, same_kind as same_kinds};
ghost use Rattle.scc_elab_spec.specs.Grown.{node_of as node_in};
ghost use Rattle.scc_elab_store.specs.Locations.{location_of};

use crate::home::{home_at, home_of};
use scc_base::{Code, NoMemory, Place, Stop};
use scc_bits::Kind;
use scc_elab_grown::{BoundTo, Grown, Node};
use scc_elab_store::Location;

/// Whether a home is the top.
pub fn is_top(home: &Option<Location>) -> bool
    ensures { result ≡ is_top_home (home_path (option_map location_of home.now)) }
{
    match home {
        Some(at) => at.path.is_empty(),
        None => false,
    }
}

#[tactic(auto, using(crate::proofs::Around::same_is))]
fn is_same(a: &Option<Location>, b: &Option<Location>) -> bool
    ensures { result ≡ same_there (option_map location_of a.now) (option_map location_of b.now) }
{
    match a {
        Some(a) => match b {
            Some(b) => a == b,
            None => false,
        },
        None => b.is_none(),
    }
}

fn same_kind(a: Kind, b: Kind) -> bool
    ensures { result ≡ same_kinds a b }
{
    match a {
        Kind::Bool => match b {
            Kind::Bool => true,
            _ => false,
        },
        Kind::Native { bits: w, signed: s } => match b {
            Kind::Native { bits: v, signed: t } => w == v && same_sign(s, t),
            _ => false,
        },
        Kind::Int(w) => match b {
            Kind::Int(v) => w == v,
            _ => false,
        },
        Kind::Uint(w) => match b {
            Kind::Uint(v) => w == v,
            _ => false,
        },
        Kind::Big(w) => match b {
            Kind::Big(v) => w == v,
            _ => false,
        },
        Kind::BigInt(w) => match b {
            Kind::BigInt(v) => w == v,
            _ => false,
        },
        Kind::Bv(w) => match b {
            Kind::Bv(v) => w == v,
            _ => false,
        },
        Kind::Wide { .. } => false,
    }
}

fn same_sign(a: bool, b: bool) -> bool
    ensures yes { a ≡ true → result ≡ b }
    ensures no { a ≡ false → result ≡ not b }
{
    if a { b } else { !b }
}

// Whether the object is one of the module around a module, in which such a port may be bound to it.
#[tactic(auto, using(crate::proofs::Around::homes_are))]
fn is_outer(g: &Grown, at: &Option<Location>, to: u32) -> Result<bool, NoMemory>
    ensures { IfOk result (λ b. b ≡ same_home (home_in (grown_of g.now) (object_path (grown_of g.now) to)) (option_and_then (home_in (grown_of g.now)) (home_path (option_map location_of at.now)))) }
{
    let own = home_at(g, to)?;
    let outer = match at {
        Some(at) => home_of(g, at.path.as_slice())?,
        None => None,
    };
    Ok(is_same(&own, &outer))
}

// Whether a port of a module, of a kind, may be bound to an object: a signal, or a port of the module around the module; an output to
// no input.
fn may_bind(
    g: &Grown,
    at: &Option<Location>,
    kind: Kind,
    output: bool,
    to: u32,
) -> Result<bool, NoMemory>
    ensures { IfOk result (λ b. b ≡ may_bind_in (grown_of g.now) (home_path (option_map location_of at.now)) kind output to (node_in (grown_of g.now) to)) }
{
    match g.node(to) {
        Some(node) => match node {
            Node::Signal(other) => Ok(same_kind(kind, other)),
            Node::Port {
                kind: other,
                output: gives,
                ..
            } => {
                let outer = is_outer(g, at, to)?;
                Ok(same_kind(kind, other) && (outer && (!output || gives)))
            }
            Node::Class(_) | Node::Variable(_) | Node::Pointer => Ok(false),
        },
        None => Ok(false),
    }
}

fn both(top: bool, may: bool) -> bool
    ensures { result ≡ (not top && may) }
{
    !top && may
}

// Whether a port may be bound to an object.
fn fits(g: &Grown, port: u32, kind: Kind, output: bool, to: u32) -> Result<bool, NoMemory>
    ensures { IfOk result (λ b. b ≡ fits_at (grown_of g.now) to (home_in (grown_of g.now) (object_path (grown_of g.now) port)) kind output) }
{
    let at = home_at(g, port)?;
    let may = may_bind(g, &at, kind, output, to)?;
    let top = is_top(&at);
    Ok(both(top, may))
}

// A port that is not bound yet is bound to an object. Refused as E403.
fn bind_to(
    g: &mut Grown,
    place: Place,
    port: u32,
    kind: Kind,
    output: bool,
    to: u32,
) -> Result<(), Stop>
    ensures { Grows result (grown_of g.new) (bound_if (grown_of g.old) place port to (home_in (grown_of g.old) (object_path (grown_of g.old) port)) kind output) }
{
    if fits(g, port, kind, output, to)? {
        Ok(g.bind(port, BoundTo { to, place })?)
    } else {
        Err(Stop::refused(Code::BindKind, place))
    }
}

// An object is bound. Refused as E402 and E403.
fn bind_object(g: &mut Grown, place: Place, port: u32, to: Option<u32>) -> Result<(), Stop>
    ensures { Grows result (grown_of g.new) (binding_in (grown_of g.old) place port to (node_in (grown_of g.old) port) (bound_of (grown_of g.old) port)) }
{
    match g.node(port) {
        Some(node) => match node {
            Node::Port { kind, output, .. } => match g.bounds.of(port) {
                Some(first) => Err(Stop::refused_beside(Code::BoundTwice, place, first.place)),
                None => match to {
                    Some(to) => bind_to(g, place, port, kind, output, to),
                    None => Err(Stop::refused(Code::BindKind, place)),
                },
            },
            Node::Class(_) | Node::Signal(_) | Node::Variable(_) | Node::Pointer => {
                Err(Stop::refused(Code::BindKind, place))
            }
        },
        None => Err(Stop::refused(Code::BindKind, place)),
    }
}

/// Binds a port, by its number, to an object; where there is none, nothing is bound. Refused as E402 and E403.
pub fn bind_at(g: &mut Grown, place: Place, port: Option<u32>, to: Option<u32>) -> Result<(), Stop>
    ensures { Grows result (grown_of g.new) (bind_there (grown_of g.old) place port to) }
{
    match port {
        Some(port) => bind_object(g, place, port, to),
        None => Ok(()),
    }
}
