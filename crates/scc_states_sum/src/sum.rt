//! How many elements stand under indices that aren't static, over methods and threads.
ghost use Rattle.std.specs.Prelude.{◌≡◌, ◌+◌, ◌<◌, ◌≤◌, ◌^◌, ◌||◌, true, length, map, slice_index_or, slice_set};
ghost use Rattle.scc_core.specs.Known.{IsAlone};
ghost use Rattle.scc_core.specs.Statics.{static_of};
ghost use Rattle.scc_states_sum.specs.Told.{numbers_in};
ghost use Rattle.scc_states_sum.specs.Elements.{cut, total, expr_elements, left_elements};
ghost use Rattle.scc_states_sum.specs.Live as spec;
ghost use Rattle.scc_states_sum.specs.Live.{
  statement_elements,
  segment_statement,
  segment_elements,
  split_elements,
  live_statement,
  live_body,
  blocks_deep,
  body_deep,
  method_elements,
  elements_of,
  processes_deep,
  most_deep,
};
ghost use Rattle.scc_states_sum.specs.Paths.{Lives};
ghost use Rattle.scc_states_sum.specs.Summed.{HasSplits};
ghost use Rattle.scc_core_spec.specs.Sizes.{index_sum};
ghost use Rattle.scc_core_view.specs.Programs.{cells_of, program_of};

use crate::elements::{number_of, of_expr, of_left, plus};
use scc_base::List;
use scc_core::{Core, CoreExpr, CoreLeft, CoreNode, CoreProcess, CoreStmt, Known, Sort2};
use scc_states::Split;
use scc_states_cut::{SegNode, SegStmt};

/// So deep blocks may nest in a method: more than statements do.
const DEEPEST: usize = 1088;

/// The elements of the arrays under indices that aren't static, over the live parts of methods and the segments of threads; it
/// stops at 1,048,577. `s` has one split for each thread, in process order.
pub fn index_sum(c: &Core, s: &[Split]) -> u64
    ensures { processes_deep c.now.processes ≤ most_deep → result ≡ cut (elements_of (static_of c.now.cells) c.now s.now) }
{
    index_sum_known(Known::alone(&c.cells), c, s)
}

/// The same, where the cells' names are in a table.
pub fn index_sum_known(known: Known<'_>, c: &Core, s: &[Split]) -> u64
    ensures known { processes_deep c.now.processes ≤ most_deep → result ≡ cut (elements_of (numbers_in known.entry) c.now s.now) }
    ensures alone { IsAlone known.entry → processes_deep c.now.processes ≤ most_deep →
        result ≡ cut (elements_of (static_of known.entry.cells.now) c.now s.now) }
    ensures program { HasSplits (cells_of c.now) (numbers_in known.entry) c.now.processes s.now → processes_deep c.now.processes ≤ most_deep →
        result ≡ cut (index_sum (program_of c.now)) }
{
    all(known, c, s)
}

fn all(known: Known<'_>, c: &Core, s: &[Split]) -> u64
    ensures { processes_deep c.now.processes ≤ most_deep → result ≡ cut (elements_of (numbers_in known.entry) c.now s.now) }
{
    let methods = of_methods(c.processes.as_slice(), known);
    let threads = of_splits(s, known);
    plus(methods, threads)
}

fn of_methods(processes: &[CoreProcess], known: Known<'_>) -> u64
    ensures { processes_deep processes.now ≤ most_deep →
        result ≡ cut (total (map (method_elements (numbers_in known.entry)) processes.now)) }
{
    let mut all = 0;
    for process in processes {
        all = plus(all, of_process(process, known));
    }
    all
}

fn of_process(process: &CoreProcess, known: Known<'_>) -> u64
    ensures { body_deep process.now.body ≤ most_deep →
        result ≡ cut (method_elements (numbers_in known.entry) process.now) }
{
    match process.sort {
        Sort2::Method => of_body(process.body.as_slice(), known),
        Sort2::Thread => 0,
    }
}

fn of_body(body: &[CoreStmt], known: Known<'_>) -> u64
    ensures { body_deep body.now ≤ most_deep →
        result ≡ cut (live_body (numbers_in known.entry) body.now).elements }
{
    let mut left = [false; DEEPEST];
    live(body, known, 0, &mut left).elements
}

fn of_splits(splits: &[Split], known: Known<'_>) -> u64
    ensures { result ≡ cut (total (map (split_elements (numbers_in known.entry)) splits.now)) }
{
    let mut all = 0;
    for split in splits {
        all = plus(all, of_split(split, known));
    }
    all
}

fn of_split(split: &Split, known: Known<'_>) -> u64
    ensures { result ≡ cut (split_elements (numbers_in known.entry) split.now) }
{
    let reset = segment(split.reset.as_slice(), known);
    let others = segments(split.segments.as_slice(), known);
    plus(reset, others)
}

fn segments(lists: &[List<SegStmt>], known: Known<'_>) -> u64
    ensures { result ≡ cut (total (map (segment_elements (numbers_in known.entry)) lists.now)) }
{
    let mut all = 0;
    for list in lists {
        all = plus(all, segment(list.as_slice(), known));
    }
    all
}

/// What a path through statements meets.
#[derive(Clone, Copy)]
struct Seen {
    elements: u64,
    /// Whether a path comes to their end.
    ends: bool,
}

// Marks whether some path leaves the block of that depth.
fn mark(left: &mut [bool], depth: usize, is: bool)
    ensures fits { length left.old < 2 ^ 64 }
    ensures marks { depth < length left.old → left.new ≡ slice_set left.old depth is }
{
    if depth < left.len() {
        left[depth] = is;
    }
}

fn is_left(left: &[bool], depth: usize) -> bool
    ensures { result ≡ slice_index_or left.now depth true }
{
    match left.get(depth) {
        Some(is) => *is,
        None => true,
    }
}

// The statements that a path comes to; `left` tells which of the open blocks some path leaves, by their depth from 0.
#[cycle(live_sum)]
fn live(body: &[CoreStmt], known: Known<'_>, depth: usize, left: &mut [bool]) -> Seen
    ensures { depth + body_deep body.now ≤ length left.old →
        Lives depth left.old left.new result (live_body (numbers_in known.entry) body.now) }
{
    let mut elements = 0;
    for s in body {
        let seen = live_stmt(s, known, depth, left);
        elements = plus(elements, seen.elements);
        if !seen.ends {
            return Seen {
                elements,
                ends: false,
            };
        }
    }
    Seen {
        elements,
        ends: true,
    }
}

#[cycle(live_sum)]
fn live_stmt(s: &CoreStmt, known: Known<'_>, depth: usize, left: &mut [bool]) -> Seen
    ensures { depth + blocks_deep s.now ≤ length left.old →
        Lives depth left.old left.new result (live_statement (numbers_in known.entry) s.now) }
{
    match &s.node {
        CoreNode::If { test, yes, no } => match number_of(test, known) {
            Some(value) => {
                if value.is_true() {
                    live(yes.as_slice(), known, depth, left)
                } else {
                    live(no.as_slice(), known, depth, left)
                }
            }
            None => {
                let count = of_expr(test, known);
                let a = live(yes.as_slice(), known, depth, left);
                let b = live(no.as_slice(), known, depth, left);
                Seen {
                    elements: plus(count, plus(a.elements, b.elements)),
                    ends: either(a.ends, b.ends),
                }
            }
        },
        CoreNode::Block(body) => {
            mark(left, depth, false);
            let inside = live(body.as_slice(), known, depth.saturating_add(1), left);
            let is_left = is_left(left, depth);
            Seen {
                elements: inside.elements,
                ends: either(inside.ends, is_left),
            }
        }
        CoreNode::Exit(n) => exit(*n as usize, depth, left),
        CoreNode::Loop { body, .. } => {
            let inside = live(body.as_slice(), known, depth, left);
            Seen {
                elements: inside.elements,
                ends: false,
            }
        }
        CoreNode::Assign { left: to, value } => passed(of_assignment(to, value, known)),
        CoreNode::Wait { .. } | CoreNode::Alias { .. } => passed(0),
    }
}

fn either(a: bool, b: bool) -> bool
    ensures { result ≡ (a || b) }
{
    a || b
}

fn passed(elements: u64) -> Seen
    ensures { result ≡ record { elements = elements; ends = true } }
{
    Seen {
        elements,
        ends: true,
    }
}

fn exit(n: usize, depth: usize, left: &mut [bool]) -> Seen
    ensures { depth ≤ length left.old → Lives depth left.old left.new result (spec.exit n) }
{
    if n < depth {
        mark(left, depth - n - 1, true);
    }
    Seen {
        elements: 0,
        ends: false,
    }
}

fn of_assignment(left: &CoreLeft, value: &CoreExpr, known: Known<'_>) -> u64
    ensures { result ≡ cut (left_elements (numbers_in known.entry) left.now + expr_elements (numbers_in known.entry) value.now) }
{
    let a = of_left(left, known);
    let b = of_expr(value, known);
    plus(a, b)
}

#[cycle(segment_sum)]
fn segment(list: &[SegStmt], known: Known<'_>) -> u64
    ensures { result ≡ cut (segment_elements (numbers_in known.entry) list.now) }
{
    let mut all = 0;
    for s in list {
        all = plus(all, segment_stmt(s, known));
    }
    all
}

#[cycle(segment_sum)]
fn segment_stmt(s: &SegStmt, known: Known<'_>) -> u64
    ensures { result ≡ cut (segment_statement (numbers_in known.entry) s.now) }
{
    match &s.node {
        SegNode::Plain(stmt) => whole(stmt, known),
        SegNode::If { test, yes, no } => {
            let count = of_expr(test, known);
            let a = segment(yes.as_slice(), known);
            let b = segment(no.as_slice(), known);
            plus(count, plus(a, b))
        }
        SegNode::Wait(_) => 0,
    }
}

// All statements in one.
#[cycle(whole_sum)]
fn whole(s: &CoreStmt, known: Known<'_>) -> u64
    ensures { result ≡ cut (statement_elements (numbers_in known.entry) s.now) }
{
    match &s.node {
        CoreNode::If { test, yes, no } => {
            let count = of_expr(test, known);
            let a = each(yes.as_slice(), known);
            let b = each(no.as_slice(), known);
            plus(count, plus(a, b))
        }
        CoreNode::Block(body) | CoreNode::Loop { body, .. } => each(body.as_slice(), known),
        CoreNode::Assign { left, value } => of_assignment(left, value, known),
        CoreNode::Exit(_) | CoreNode::Wait { .. } | CoreNode::Alias { .. } => 0,
    }
}

#[cycle(whole_sum)]
fn each(body: &[CoreStmt], known: Known<'_>) -> u64
    ensures { result ≡ cut (total (map (statement_elements (numbers_in known.entry)) body.now)) }
{
    let mut all = 0;
    for s in body {
        all = plus(all, whole(s, known));
    }
    all
}
