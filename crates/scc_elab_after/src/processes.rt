//! The sensitivity, resets and clock of a process.
ghost use Rattle.std.specs.Prelude.{◌≡◌, filter, is_some, length, map, not, option_and_then, option_map, slice_get, true, unwrap_or, IfOk};
ghost use Rattle.std.specs.Option.{option_copied};
ghost use Rattle.scc_bits_kinds.specs.Kinds.{is_bool as is_bool_kind};
ghost use Rattle.scc_core_spec.specs.First.{first_numbered, first_of};
ghost use Rattle.scc_elab_after.specs.Processes.{clock_in, unfit, unnamed};
ghost use Rattle.scc_elab_grown.specs.Grown.{grown_of};
ghost use Rattle.scc_elab_grown.specs.Objects.{node_of as node_in};
ghost use Rattle.scc_elab_grown.specs.Records.{item_of, record_of, reset_of};
ghost use Rattle.scc_elab_ports.specs.Unbound.{Says};
ghost use Rattle.scc_elab_spec.specs.After.{bad_asynchronous, bad_reset, clock_of as clock_there, insensitive, is_bool_node, is_sensitive as is_sensitive_in, is_top_input as is_top_input_in, no_reset, root as root_in};
ghost use Rattle.scc_elab_spec.specs.Grown.{node_of};

use scc_base::{Code, NoMemory, Place, Stop, lost};
use scc_bits::Kind;
use scc_elab_grown::{Grown, Item, Node, Record, ResetItem};
use scc_elab_ports::{is_top_input, root_of};

/// The clock of a process: its root, its direction, and where the process is declared.
#[derive(Clone, Copy)]
pub struct Clock {
    pub root: u32,
    pub rising: bool,
    pub place: Place,
}

fn is_edge(i: &Item) -> bool
    ensures { result ≡ is_some i.now.rising }
{
    i.rising.is_some()
}

fn is_level(i: &Item) -> bool
    ensures { result ≡ not (is_some i.now.rising) }
{
    i.rising.is_none()
}

fn edges_of(items: &[Item]) -> usize
    ensures { result ≡ length (filter (λ i. is_some i.rising) items.now) }
{
    items.iter().filter(|i| is_edge(i)).count()
}

fn levels_of(items: &[Item]) -> usize
    ensures { result ≡ length (filter (λ i. not (is_some i.rising)) items.now) }
{
    items.iter().filter(|i| is_level(i)).count()
}

// A thread has one edge and nothing else; a method has something, and an edge alone.
#[tactic(auto, using(crate::proofs::Filters::edges_are, crate::proofs::Filters::levels_are, crate::proofs::Filters::items_are))]
fn is_sensitive(r: &Record) -> bool
    ensures { result ≡ is_sensitive_in (record_of r.now) }
{
    let edges = edges_of(r.items.as_slice());
    let levels = levels_of(r.items.as_slice());
    let items = r.items.len();
    if r.is_thread {
        edges == 1 && levels == 0
    } else {
        items != 0 && (edges == 0 || items == 1)
    }
}

fn check_item(i: &Item) -> Result<(), Stop>
    ensures { Says (unnamed (item_of i.now)) result }
{
    if i.signal.is_none() {
        Err(Stop::refused(Code::Sensitivity, i.place))
    } else {
        Ok(())
    }
}

fn check_items(items: &[Item]) -> Result<(), Stop>
    ensures { Says (first_of unnamed (map item_of items.now)) result }
{
    for i in items {
        if let Err(stop) = check_item(i) {
            return Err(stop);
        }
    }
    Ok(())
}

fn check_fit(r: &Record) -> Result<(), Stop>
    ensures { Says (unfit (record_of r.now)) result }
{
    if is_sensitive(r) {
        Ok(())
    } else {
        Err(Stop::refused(Code::Sensitivity, r.place))
    }
}

fn is_bool(kind: Kind) -> bool
    ensures { result ≡ is_bool_kind kind }
{
    match kind {
        Kind::Bool => true,
        Kind::Native { .. } => false,
        Kind::Int(_) => false,
        Kind::Uint(_) => false,
        Kind::Big(_) => false,
        Kind::BigInt(_) => false,
        Kind::Bv(_) => false,
        Kind::Wide { .. } => false,
    }
}

fn is_bool_at(node: Option<Node>) -> bool
    ensures { result ≡ is_bool_node (option_map node_in node) }
{
    match node {
        Some(node) => match node {
            Node::Port { kind, .. } => is_bool(kind),
            Node::Signal(kind) => is_bool(kind),
            Node::Class(_) => false,
            Node::Variable(_) => false,
            Node::Pointer => false,
        },
        None => false,
    }
}

fn names_bool(g: &Grown, signal: Option<u32>) -> bool
    ensures { result ≡ is_bool_node (option_and_then (node_of (grown_of g.now)) signal) }
{
    match signal {
        Some(number) => is_bool_at(g.node(number)),
        None => false,
    }
}

// A reset is one of a thread, the first one, and a `bool`.
fn check_one_reset(g: &Grown, r: &Record, k: usize, reset: &ResetItem) -> Result<(), Stop>
    ensures { Says (bad_reset (grown_of g.now) (record_of r.now) k (reset_of reset.now)) result }
{
    if r.is_thread && k == 0 && names_bool(g, reset.signal) {
        Ok(())
    } else {
        Err(Stop::refused(Code::Sensitivity, reset.place))
    }
}

fn reset_at(r: &Record, k: usize) -> Option<&ResetItem>
    ensures { option_copied result ≡ slice_get r.now.resets.items k }
{
    r.resets.as_slice().get(k)
}

fn check_resets(g: &Grown, r: &Record) -> Result<(), Stop>
    ensures { Says (first_numbered (bad_reset (grown_of g.now) (record_of r.now)) 0 (map reset_of r.now.resets.items)) result }
{
    for k in 0..r.resets.len() {
        let Some(reset) = reset_at(r, k) else {
            return Err(Stop::from(lost()));
        };
        if let Err(stop) = check_one_reset(g, r, k, reset) {
            return Err(stop);
        }
    }
    Ok(())
}

/// Refuses a sensitivity that no process may have, items that name nothing, and resets that no process may have, as E406.
pub fn check_sensitivity(g: &Grown, r: &Record) -> Result<(), Stop>
    ensures { Says (insensitive (grown_of g.now) (record_of r.now)) result }
{
    match check_fit(r) {
        Ok(()) => match check_items(r.items.as_slice()) {
            Ok(()) => check_resets(g, r),
            Err(stop) => Err(stop),
        },
        Err(stop) => Err(stop),
    }
}

/// Refuses a thread without a reset, as E409.
pub fn check_reset(r: &Record) -> Result<(), Stop>
    ensures { Says (no_reset (record_of r.now)) result }
{
    match reset_at(r, 0) {
        Some(_reset) => Ok(()),
        None => {
            if r.is_thread {
                Err(Stop::refused(Code::NoReset, r.place))
            } else {
                Ok(())
            }
        }
    }
}

// Whether the root of what a reset names is an input of the top for a `bool`; so it is where it names nothing.
fn is_input(g: &Grown, signal: Option<u32>) -> Result<bool, NoMemory>
    ensures { IfOk result (λ b. b ≡ unwrap_or (option_map (λ n. is_top_input_in (grown_of g.now) (root_in (grown_of g.now) n)) signal) true) }
{
    match signal {
        Some(number) => is_top_input(g, root_of(g, number)),
        None => Ok(true),
    }
}

/// Refuses an asynchronous reset of which the root is no input of the top for a `bool`, as E407.
pub fn check_asynchronous(g: &Grown, r: &Record) -> Result<(), Stop>
    ensures { Says (bad_asynchronous (grown_of g.now) (record_of r.now)) result }
{
    match reset_at(r, 0) {
        Some(reset) => {
            if reset.asynchronous {
                if is_input(g, reset.signal)? {
                    Ok(())
                } else {
                    Err(Stop::refused(Code::ClockPort, r.place))
                }
            } else {
                Ok(())
            }
        }
        None => Ok(()),
    }
}

fn clock_by(g: &Grown, place: Place, i: &Item) -> Option<Clock>
    ensures { option_map clock_in result ≡ option_map (λ n. record { root = root_in (grown_of g.now) n; rising = unwrap_or i.now.rising true; place = place }) i.now.signal }
{
    match i.signal {
        Some(number) => Some(Clock {
            root: root_of(g, number),
            rising: i.rising.unwrap_or(true),
            place,
        }),
        None => None,
    }
}

fn first_edge(items: &[Item]) -> Option<&Item>
    ensures { option_copied result ≡ slice_get (filter (λ i. is_some i.rising) items.now) 0 }
{
    for i in items {
        if is_edge(i) {
            return Some(i);
        }
    }
    None
}

/// The clock of a process, if it has one: the root of what its first edge names.
pub fn clock_of(g: &Grown, r: &Record) -> Option<Clock>
    ensures { option_map clock_in result ≡ clock_there (grown_of g.now) (record_of r.now) }
{
    match first_edge(r.items.as_slice()) {
        Some(i) => clock_by(g, r.place, i),
        None => None,
    }
}
