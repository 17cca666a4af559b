//! Processes are declared, with their sensitivity and resets (IEEE 1666-2011, 5.2.9 to 5.2.14).
ghost use Rattle.std.specs.Prelude.{◌≡◌, map, option_map};
ghost use Rattle.scc_core_spec.specs.Resolved.{made_map};
ghost use Rattle.scc_elab_grown.specs.Grown.{Grows, grown_of};
ghost use Rattle.scc_elab_grown.specs.Objects.{node_of};
ghost use Rattle.scc_elab_spec.specs.Binding.{changed_at, channel as channel_in, channel_if as if_channel, declare as declared_in, edge_items as edge_in, is_channel as is_channel_node, item_of as item_in, items_of as items_in, may_run as may_run_in, with_items};
ghost use Rattle.scc_elab_spec.specs.Grown.{node_of as node_in, with_declared};
ghost use Rattle.std.specs.Prelude.{slice_get};
ghost use Rattle.scc_elab_statements.specs.Things.{IsThing};
ghost use Rattle.scc_elab_statements.specs.Frames.{site_in};
ghost use Rattle.scc_elab_statements.specs.Sensed.{IsItem, IsItems, reset_in};
ghost use Rattle.scc_plain_view.specs.Codes.{sense_of};
ghost use Rattle.scc_plain_view.specs.Plains.{plain_of};
ghost use Rattle.scc_plain_view.specs.Terms.{left_of, term_of};

use crate::frame::{Frame, value};
use crate::thing::thing_of;
use scc_base::{Code, Place, Stop, push};
use scc_elab_grown::{Grown, Item, Node, Record, ResetItem};
use scc_plain_tree::{Plain, PlainExpr, PlainLeft, PlainSense};

fn is_channel(node: Option<Node>) -> bool
    ensures { result ≡ is_channel_node (option_map node_of node) }
{
    match node {
        Some(node) => match node {
            Node::Port { .. } => true,
            Node::Signal(_) => true,
            Node::Class(_) => false,
            Node::Variable(_) => false,
            Node::Pointer => false,
        },
        None => false,
    }
}

fn channel_if(g: &Grown, number: Option<u32>) -> Option<u32>
    ensures { result ≡ if_channel (grown_of g.now) number }
{
    match number {
        Some(n) => { if is_channel(g.node(n)) { Some(n) } else { None } }
        None => None,
    }
}

// The port or signal that a left side names.
fn channel(f: &Frame, g: &Grown, left: &Option<PlainLeft>) -> Result<Option<u32>, Stop>
    ensures { IsThing result (channel_in (site_in f.now (grown_of g.now)) (option_map left_of left.now)) }
{
    match left {
        Some(left) => match thing_of(f, g, left) {
            Ok(number) => Ok(channel_if(g, number)),
            Err(stop) => Err(stop),
        },
        None => Ok(None),
    }
}

fn item(f: &Frame, g: &Grown, sense: &PlainSense) -> Result<Item, Stop>
    ensures { IsItem result (item_in (site_in f.now (grown_of g.now)) (sense_of sense.now)) }
{
    match channel(f, g, &sense.signal) {
        Ok(signal) => Ok(Item {
            place: sense.place,
            signal,
            rising: sense.rising,
        }),
        Err(stop) => Err(stop),
    }
}

fn items(f: &Frame, g: &Grown, list: &[PlainSense]) -> Result<Vec<Item>, Stop>
    ensures { IsItems (λ v. v.items) result (items_in (site_in f.now (grown_of g.now)) (map sense_of list.now)) }
{
    let mut items = Vec::new(g.alloc);
    for sense in list {
        match item(f, g, sense) {
            Ok(x) => push(&mut items, x)?,
            Err(stop) => return Err(stop),
        }
    }
    Ok(items)
}

fn edge_items(f: &Frame, g: &Grown, edge: &Option<PlainSense>) -> Result<Vec<Item>, Stop>
    ensures { IsItems (λ v. v.items) result (edge_in (site_in f.now (grown_of g.now)) (option_map sense_of edge.now)) }
{
    let mut items = Vec::new(g.alloc);
    match edge {
        Some(sense) => match item(f, g, sense) {
            Ok(x) => {
                push(&mut items, x)?;
                Ok(items)
            }
            Err(stop) => Err(stop),
        },
        None => Ok(items),
    }
}

fn may_run(p: &Plain, function: u32) -> bool
    ensures { result ≡ may_run_in (slice_get (plain_of p.now).functions function) }
{
    match p.functions.get(function as usize) {
        Some(function) => function.params == 0 && function.result.is_none(),
        None => false,
    }
}

/// Declares a process of the object. Refused as E404 where its function has a parameter or result, or runs for the object already.
pub fn declare(
    f: &Frame,
    g: &mut Grown,
    place: Place,
    is_thread: bool,
    function: u32,
    edge: &Option<PlainSense>,
) -> Result<(), Stop>
    ensures { Grows result (grown_of g.new) (declared_in (site_in f.now (grown_of g.old)) place is_thread function (option_map sense_of edge.now)) }
{
    if !may_run(f.plain, function) || g.runs(f.object, function) {
        return Err(Stop::refused(Code::Constructor, place));
    }
    match edge_items(f, g, edge) {
        Ok(items) => {
            let process = Record {
                object: f.object,
                function,
                place,
                is_thread,
                items,
                resets: Vec::new(g.alloc),
            };
            Ok(g.declare(process)?)
        }
        Err(stop) => Err(stop),
    }
}

/// The process of that number is sensitive to more.
pub fn sense(f: &Frame, g: &mut Grown, number: u32, list: &[PlainSense]) -> Result<(), Stop>
    ensures { Grows result (grown_of g.new) (made_map (λ is. with_declared (grown_of g.old) (changed_at number (with_items is) (grown_of g.old).declared)) (items_in (site_in f.now (grown_of g.old)) (map sense_of list.now))) }
{
    match items(f, g, list) {
        Ok(items) => Ok(g.sense(number, items.as_slice())?),
        Err(stop) => Err(stop),
    }
}

/// The process of that number has a reset.
pub fn reset(
    f: &Frame,
    g: &mut Grown,
    place: Place,
    number: u32,
    signal: &Option<PlainLeft>,
    level: &PlainExpr,
    asynchronous: bool,
) -> Result<(), Stop>
    ensures { Grows result (grown_of g.new) (reset_in (site_in f.now (grown_of g.old)) place number (option_map left_of signal.now) (term_of level.now) asynchronous) }
{
    match channel(f, g, signal) {
        Ok(signal) => match value(f, g, level) {
            Ok(level) => Ok(g.reset(
                number,
                ResetItem {
                    place,
                    signal,
                    level: level.is_true(),
                    asynchronous,
                },
            )?),
            Err(stop) => Err(stop),
        },
        Err(stop) => Err(stop),
    }
}
