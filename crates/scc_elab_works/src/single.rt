//! Statements that hold no others and make no objects.
ghost use Rattle.std.specs.Prelude.{◌≡◌, length, map, option_map, IfOk, Some};
ghost use Rattle.scc_core_spec.specs.Resolved.{made_map};
ghost use Rattle.scc_elab_grown.specs.Grown.{grown_of};
ghost use Rattle.scc_elab_works.specs.Runs.{Ends, making_there, now_of, site_there};
ghost use Rattle.scc_elab_spec.specs.Binding.{declare as declared_in, changed_at, items_of, with_items};
ghost use Rattle.scc_elab_spec.specs.Construct.{from_tried, Fell, grow, of_last, ran_in};
ghost use Rattle.scc_elab_spec.specs.Grown.{with_declared};
ghost use Rattle.scc_elab_spec.specs.Program.{End};
ghost use Rattle.scc_elab_statements.specs.Frames.{site_in};
ghost use Rattle.scc_elab_statements.specs.Sensed.{reset_in};
ghost use Rattle.scc_plain_view.specs.Codes.{sense_of, stmt_code};
ghost use Rattle.scc_plain_view.specs.Terms.{left_of, term_of};

use crate::binds::bind;
use crate::locals::begin;
use crate::moment::Moment;
use scc_base::{Code, NoMemory, Place, Stop, lost};
use scc_elab_grown::Grown;
use scc_elab_statements::{Frame, assign, declare, point, reset, sense};
use scc_plain_tree::{PlainExpr, PlainLeft, PlainNode, PlainSense, PlainStmt};

/// A statement that holds no others and makes no objects. Refused as E402 to E406; as E404 where no constructor may hold it.
#[tactic(auto, using(crate::proofs::Endings::grows_ends))]
pub fn simple(f: &Frame, m: &mut Moment, s: &PlainStmt, levels: u32, turns: u32) -> Result<(), Stop>
    ensures { Ends result (now_of m.new) (ran_in turns (making_there f.now levels) (site_there f.now) (stmt_code s.now End) (now_of m.old)) }
{
    match &s.node {
        PlainNode::Assign { left, value } => assign(f, &mut m.grown, left, value),
        PlainNode::Point { left, target } => point(f, &mut m.grown, s.place, left, target),
        PlainNode::Bind { port, to } => bind(f, &mut m.grown, s.place, port, to),
        PlainNode::Declare(local) => Ok(begin(f, &mut m.grown, *local)?),
        PlainNode::Write { .. } => Err(Stop::refused(Code::Constructor, s.place)),
        PlainNode::Call { .. } => Err(Stop::refused(Code::Constructor, s.place)),
        PlainNode::Return(_) => Err(Stop::refused(Code::Constructor, s.place)),
        PlainNode::Wait(_) => Err(Stop::refused(Code::Constructor, s.place)),
        PlainNode::Process { .. } => of_process(f, m, s, levels, turns),
        PlainNode::Sense(_) => of_process(f, m, s, levels, turns),
        PlainNode::Quiet => of_process(f, m, s, levels, turns),
        PlainNode::Reset { .. } => of_process(f, m, s, levels, turns),
        PlainNode::If { .. } => Err(Stop::from(lost())),
        PlainNode::Loop { .. } => Err(Stop::from(lost())),
        PlainNode::Block(_) => Err(Stop::from(lost())),
        PlainNode::Exit(_) => Err(Stop::from(lost())),
        PlainNode::Make { .. } => Err(Stop::from(lost())),
    }
}

// A statement that declares a process, or speaks of the last one.
fn of_process(f: &Frame, m: &mut Moment, s: &PlainStmt, levels: u32, turns: u32) -> Result<(), Stop>
    ensures { Ends result (now_of m.new) (ran_in turns (making_there f.now levels) (site_there f.now) (stmt_code s.now End) (now_of m.old)) }
{
    match &s.node {
        PlainNode::Process {
            thread,
            function,
            edge,
        } => process(f, m, s.place, *thread, *function, edge),
        PlainNode::Sense(list) => sense_last(f, m, s.place, list.as_slice()),
        PlainNode::Quiet => quiet_last(m, s.place),
        PlainNode::Reset {
            signal,
            level,
            asynchronous,
        } => reset_last(f, m, s.place, signal, level, *asynchronous),
        _ => Err(Stop::from(lost())),
    }
}

// How many processes are declared.
fn count(g: &Grown) -> Result<u32, NoMemory>
    ensures { IfOk result (λ n. n ≡ length (grown_of g.now).declared) }
{
    match u32::try_from(g.records.len()) {
        Ok(n) => Ok(n),
        Err(_) => Err(lost()),
    }
}

fn process(
    f: &Frame,
    m: &mut Moment,
    place: Place,
    is_thread: bool,
    function: u32,
    edge: &Option<PlainSense>,
) -> Result<(), Stop>
    ensures { Ends result (now_of m.new) (from_tried (declared_in (site_in f.now (grown_of m.old.grown)) place is_thread function (option_map sense_of edge.now)) (λ g. Fell (record { grown = g; last = Some (length (grown_of m.old.grown).declared) }))) }
{
    let number = count(&m.grown)?;
    match declare(f, &mut m.grown, place, is_thread, function, edge) {
        Ok(()) => {
            m.last = Some(number);
            Ok(())
        }
        Err(stop) => Err(stop),
    }
}

// The last process is sensitive to more.
#[tactic(auto, using(crate::proofs::Endings::grows_ends))]
fn sense_last(f: &Frame, m: &mut Moment, place: Place, list: &[PlainSense]) -> Result<(), Stop>
    ensures { Ends result (now_of m.new) (of_last place (now_of m.old) (λ k. grow (now_of m.old) (made_map (λ is. with_declared (grown_of m.old.grown) (changed_at k (with_items is) (grown_of m.old.grown).declared)) (items_of (site_in f.now (grown_of m.old.grown)) (map sense_of list.now))) Fell)) }
{
    match m.last {
        Some(number) => sense(f, &mut m.grown, number, list),
        None => Err(Stop::refused(Code::Sensitivity, place)),
    }
}

fn quiet_last(m: &Moment, place: Place) -> Result<(), Stop>
    ensures { Ends result (now_of m.now) (of_last place (now_of m.now) (λ k. Fell (now_of m.now))) }
{
    match m.last {
        Some(_) => Ok(()),
        None => Err(Stop::refused(Code::Sensitivity, place)),
    }
}

// The last process has a reset.
#[tactic(auto, using(crate::proofs::Endings::grows_ends))]
fn reset_last(
    f: &Frame,
    m: &mut Moment,
    place: Place,
    signal: &Option<PlainLeft>,
    level: &PlainExpr,
    asynchronous: bool,
) -> Result<(), Stop>
    ensures { Ends result (now_of m.new) (of_last place (now_of m.old) (λ k. grow (now_of m.old) (reset_in (site_in f.now (grown_of m.old.grown)) place k (option_map left_of signal.now) (term_of level.now) asynchronous) Fell)) }
{
    match m.last {
        Some(number) => reset(f, &mut m.grown, place, number, signal, level, asynchronous),
        None => Err(Stop::refused(Code::Sensitivity, place)),
    }
}
