//! Statements.
ghost use Rattle.std.specs.Prelude.{◌≡◌, IfOk, false, true};
ghost use Rattle.scc_grammar_terminals.specs.Answer.{Gives, onto};
ghost use Rattle.scc_grammar_terminals.specs.Marks as m;
ghost use Rattle.scc_grammar_terminals.specs.Names as names;
ghost use Rattle.scc_grammar_spec.specs.ParseExpressions as e;
ghost use Rattle.scc_grammar_spec.specs.ParseStatements as s;
ghost use Rattle.scc_grammar_spec.specs.ParseStatements.{inner};
ghost use Rattle.scc_grammar_terminals.specs.StatementNodes as nodes;
ghost use Rattle.scc_grammar_spec.specs.Statements as statements;
ghost use Rattle.scc_grammar_terminals.specs.Text.{mark, next_is, next_says, pick};
ghost use Rattle.scc_reading.specs.Reading.{and_then, is_next, pure, token};
ghost use Rattle.scc_tree.specs.Node.{stmt_of};
ghost use Rattle.scc_tree.specs.declared.stmt.StmtNode.TheVariants as variant;
ghost use Rattle.scc_tree.specs.declared.stmt.SwitchNode.TheVariants as label;

use crate::line::{
    Pending, clocked_rest, for_first, for_step, line, process_rest, quiet_rest, reset_rest,
    return_rest, sensitive_rest, stmt_at, up_to_semicolon, wait_rest, within_semicolon,
};
use crate::local::condition;
use crate::simple::begins_step;
use scc_base::{List, NoMemory, Place};
use scc_grammar_expressions::chain::expr;
use scc_grammar_leaves::first::begins_ty_arg;
use scc_grammar_terminals::halt::{Halt, place_of};
use scc_grammar_terminals::marks::{
    brace_close, brace_open, colon, paren_close, paren_open, semicolon,
};
use scc_grammar_terminals::next::{
    begins_case_word, begins_default_word, begins_else_word, begins_not_brace_close,
};
use scc_grammar_terminals::reader::{Read, Reader};
use scc_grammar_terminals::table::Table;
use scc_grammar_terminals::terminal::{Seen, Terminal};
use scc_grammar_terminals::words::{case_word, default_word, else_word, while_word};
use scc_tree::{Expr, ForFirst, SimpleTree, Stmt, StmtNode, SwitchItem, SwitchNode};
use std::alloc::Global;

#[cycle(statement)]
pub fn open_stmt<'a>(c: Reader, ts: &'a [Seen]) -> Read<'a, (Stmt, bool)>
    ensures { Gives (λ x. (x.0, x.1.now)) result ((inner c.entry.names.now c.entry.levels).stmt ts.now) }
{
    if c.levels > 0 {
        return stmt(c.within(), ts);
    }
    if begins_stmt(c.names, ts) {
        return Err(Halt::TooDeep(place_of(ts)));
    }
    Err(Halt::Unexpected(place_of(ts)))
}

pub fn begins_word(ts: &[Seen]) -> bool
    ensures { result ≡ is_next (next_is s.begins_word) ts.now }
{
    match ts {
        [t, ..] => matches!(
            t.terminal,
            Terminal::BraceOpen
                | Terminal::Semicolon
                | Terminal::If
                | Terminal::Switch
                | Terminal::While
                | Terminal::Do
                | Terminal::For
                | Terminal::Break
                | Terminal::Continue
                | Terminal::Return
                | Terminal::Wait
                | Terminal::ClockedThread
                | Terminal::Sensitive
                | Terminal::DontInitialize
                | Terminal::Process(_)
                | Terminal::Reset(_)
        ),
        [] => false,
    }
}

pub fn begins_stmt(names: &Table, ts: &[Seen]) -> bool
    ensures { result ≡ is_next (next_is (s.begins_stmt names.now)) ts.now }
{
    begins_word(ts) || begins_step(ts) || begins_ty_arg(names, ts)
}

pub fn if_of(
    alloc: Global,
    p: Place,
    test: Expr,
    first: (Stmt, bool),
    second: Option<(Stmt, bool)>,
) -> Result<(Stmt, bool), NoMemory>
    ensures { IfOk result (λ x. x ≡ s.if_of p test first second) }
{
    let (yes, _) = first;
    match second {
        None => {
            let node = StmtNode::If {
                test,
                yes,
                no: None,
            };
            Ok((Stmt::new(alloc, p, node)?, true))
        }
        Some((no, nests)) => {
            let node = StmtNode::If {
                test,
                yes,
                no: Some(no),
            };
            Ok((Stmt::new(alloc, p, node)?, nests))
        }
    }
}

#[tactic(auto, unfolding(scc_grammar_spec::specs::ParseStatements::other))]
#[cycle(statement)]
pub fn other<'a>(c: Reader, ts: &'a [Seen]) -> Read<'a, Option<(Stmt, bool)>>
    ensures { Gives (λ x. (x.0, x.1.now)) result (s.other c.entry.names.now (inner c.entry.names.now c.entry.levels) ts.now) }
{
    if !begins_else_word(ts) {
        return Ok((None, ts));
    }
    let (_, rest) = else_word(ts)?;
    let (of, rest) = open_stmt(c, rest)?;
    Ok((Some(of), rest))
}

#[tactic(auto, unfolding(scc_grammar_spec::specs::ParseStatements::if_rest))]
#[cycle(statement)]
pub fn if_rest<'a>(c: Reader, p: Place, ts: &'a [Seen]) -> Read<'a, (Stmt, bool)>
    ensures { Gives (λ x. (x.0, x.1.now)) result (s.if_rest c.entry.names.now (inner c.entry.names.now c.entry.levels) p ts.now) }
{
    let (of, rest) = condition(c, ts)?;
    let (first, rest) = open_stmt(c, rest)?;
    let (second, rest) = other(c, rest)?;
    Ok((if_of(c.alloc, p, of, first, second)?, rest))
}

#[tactic(auto, unfolding(scc_grammar_spec::specs::ParseStatements::while_rest))]
#[cycle(statement)]
pub fn while_rest<'a>(c: Reader, p: Place, ts: &'a [Seen]) -> Read<'a, (Stmt, bool)>
    ensures { Gives (λ x. (x.0, x.1.now)) result (s.while_rest c.entry.names.now (inner c.entry.names.now c.entry.levels) p ts.now) }
{
    let (test, rest) = condition(c, ts)?;
    let ((body, nests), rest) = open_stmt(c, rest)?;
    let node = StmtNode::While { test, body };
    Ok(((Stmt::new(c.alloc, p, node)?, nests), rest))
}

#[tactic(auto, unfolding(scc_grammar_spec::specs::ParseStatements::do_rest))]
#[cycle(statement)]
pub fn do_rest<'a>(c: Reader, p: Place, ts: &'a [Seen]) -> Read<'a, (Stmt, bool)>
    ensures { Gives (λ x. (x.0, x.1.now)) result (s.do_rest c.entry.names.now (inner c.entry.names.now c.entry.levels) p ts.now) }
{
    let ((body, _), rest) = open_stmt(c, ts)?;
    let (_, rest) = while_word(rest)?;
    let (test, rest) = condition(c, rest)?;
    up_to_semicolon(c.alloc, p, StmtNode::Do { body, test }, rest)
}

#[tactic(auto, unfolding(scc_grammar_spec::specs::ParseStatements::for_body))]
#[cycle(statement)]
pub fn for_body<'a>(
    c: Reader,
    p: Place,
    first: ForFirst,
    test: Option<Expr>,
    step: Option<SimpleTree>,
    ts: &'a [Seen],
) -> Read<'a, (Stmt, bool)>
    ensures { Gives (λ x. (x.0, x.1.now)) result (s.for_body c.entry.names.now (inner c.entry.names.now c.entry.levels) p first test step ts.now) }
{
    let ((body, nests), rest) = open_stmt(c, ts)?;
    let node = StmtNode::For {
        first,
        test,
        step,
        body,
    };
    Ok(((Stmt::new(c.alloc, p, node)?, nests), rest))
}

#[tactic(auto, unfolding(scc_grammar_spec::specs::ParseStatements::for_rest))]
#[cycle(statement)]
pub fn for_rest<'a>(c: Reader, p: Place, ts: &'a [Seen]) -> Read<'a, (Stmt, bool)>
    ensures { Gives (λ x. (x.0, x.1.now)) result (s.for_rest c.entry.names.now (inner c.entry.names.now c.entry.levels) p ts.now) }
{
    let (_, rest) = paren_open(ts)?;
    let (of, rest) = for_first(c, rest)?;
    let (_, rest) = semicolon(rest)?;
    let (condition, rest) = within_semicolon(c, rest)?;
    for_last(c, p, of, condition, rest)
}

// What follows the test of a `for`.
#[cycle(statement)]
pub fn for_last<'a>(
    c: Reader,
    p: Place,
    first: ForFirst,
    test: Option<Expr>,
    ts: &'a [Seen],
) -> Read<'a, (Stmt, bool)>
    ensures { Gives (λ x. (x.0, x.1.now)) result (and_then (mark m.semicolon ts.now) (λ _ us. and_then (s.for_step c.entry.names.now (inner c.entry.names.now c.entry.levels) us) (λ step vs. and_then (mark m.paren_close vs) (λ _. s.for_body c.entry.names.now (inner c.entry.names.now c.entry.levels) p first test step)))) }
{
    let (_, rest) = semicolon(ts)?;
    let (step, rest) = for_step(c, rest)?;
    let (_, rest) = paren_close(rest)?;
    for_body(c, p, first, test, step, rest)
}

// The statement that its semicolon is.
fn empty(alloc: Global, place: Place, ts: &[Seen]) -> Read<'_, (Stmt, bool)>
    ensures { Gives (λ x. (x.0, x.1.now)) result (pure (stmt_of place variant.Empty, false) ts.now) }
{
    Ok((stmt_at(alloc, place, StmtNode::Empty)?, ts))
}

// A statement of this node, up to its brace.
fn up_to_brace<'a>(
    alloc: Global,
    place: Place,
    node: StmtNode,
    ts: &'a [Seen],
) -> Read<'a, (Stmt, bool)>
    ensures { Gives (λ x. (x.0, x.1.now)) result (and_then (mark m.brace_close ts.now) (λ _. pure (stmt_of place node, false))) }
{
    let pending = Pending::new(node);
    let (_, rest) = brace_close(ts)?;
    Ok((stmt_at(alloc, place, pending.into_node())?, rest))
}

fn case_label<'a>(c: Reader, ts: &'a [Seen]) -> Read<'a, SwitchItem>
    ensures { Gives (λ x. (x.0, x.1.now)) result (and_then (mark m.case_word ts.now) (λ p us. and_then (e.expr c.entry.names.now (inner c.entry.names.now c.entry.levels) us) (λ of vs. and_then (mark m.colon vs) (λ _. pure (nodes.item_of p (label.Case of)))))) }
{
    let (place, rest) = case_word(ts)?;
    let (of, rest) = expr(c, rest)?;
    let (_, rest) = colon(rest)?;
    let node = SwitchNode::Case(of);
    Ok((SwitchItem { place, node }, rest))
}

fn default_label(ts: &[Seen]) -> Read<'_, SwitchItem>
    ensures { Gives (λ x. (x.0, x.1.now)) result (and_then (mark m.default_word ts.now) (λ p us. and_then (mark m.colon us) (λ _. pure (nodes.item_of p label.Otherwise)))) }
{
    let (place, rest) = default_word(ts)?;
    let (_, rest) = colon(rest)?;
    let node = SwitchNode::Otherwise;
    Ok((SwitchItem { place, node }, rest))
}

#[tactic(auto, unfolding(scc_grammar_spec::specs::ParseStatements::switch_item))]
#[cycle(statement)]
pub fn switch_item<'a>(c: Reader, ts: &'a [Seen]) -> Read<'a, SwitchItem>
    ensures { Gives (λ x. (x.0, x.1.now)) result (s.switch_item c.entry.names.now (inner c.entry.names.now c.entry.levels) ts.now) }
{
    if begins_case_word(ts) {
        return case_label(c, ts);
    }
    if begins_default_word(ts) {
        return default_label(ts);
    }
    let ((of, _), rest) = open_stmt(c, ts)?;
    let place = of.place;
    let node = SwitchNode::Stmt(of);
    Ok((SwitchItem { place, node }, rest))
}

#[cycle(statement)]
pub fn switch_items<'a>(c: Reader, ts: &'a [Seen]) -> Read<'a, List<SwitchItem>>
    ensures { Gives (λ x. (x.0, x.1.now)) result (s.switch_items c.entry.names.now (inner c.entry.names.now c.entry.levels) ts.now) }
{
    let mut found = List::new(c.alloc);
    let mut rest = ts;
    while begins_not_brace_close(rest) {
        let (next, after) = switch_item(c, rest)?;
        found.push(next)?;
        rest = after;
    }
    Ok((found, rest))
}

#[tactic(auto, unfolding(scc_grammar_spec::specs::ParseStatements::switch_rest))]
#[cycle(statement)]
pub fn switch_rest<'a>(c: Reader, p: Place, ts: &'a [Seen]) -> Read<'a, (Stmt, bool)>
    ensures { Gives (λ x. (x.0, x.1.now)) result (s.switch_rest c.entry.names.now (inner c.entry.names.now c.entry.levels) p ts.now) }
{
    let (of, rest) = condition(c, ts)?;
    let (_, rest) = brace_open(rest)?;
    let (items, rest) = switch_items(c, rest)?;
    up_to_brace(c.alloc, p, StmtNode::Switch { of, items }, rest)
}

#[cycle(statement)]
pub fn inner_stmt<'a>(c: Reader, ts: &'a [Seen]) -> Read<'a, Stmt>
    ensures { Gives (λ x. (x.0, x.1.now)) result (s.item_of_stmt c.entry.names.now (inner c.entry.names.now c.entry.levels) (inner c.entry.names.now c.entry.levels).stmt ts.now) }
{
    let ((of, _), rest) = open_stmt(c, ts)?;
    Ok((of, rest))
}

#[cycle(statement)]
pub fn inner_stmts<'a>(c: Reader, ts: &'a [Seen]) -> Read<'a, List<Stmt>>
    ensures { Gives (λ x. (x.0, x.1.now)) result (s.stmts_of c.entry.names.now (inner c.entry.names.now c.entry.levels) (inner c.entry.names.now c.entry.levels).stmt ts.now) }
{
    let mut found = List::new(c.alloc);
    let mut rest = ts;
    while begins_not_brace_close(rest) {
        let (next, after) = inner_stmt(c, rest)?;
        found.push(next)?;
        rest = after;
    }
    Ok((found, rest))
}

#[tactic(auto, unfolding(scc_grammar_spec::specs::ParseStatements::block_rest))]
#[cycle(statement)]
pub fn block_rest<'a>(c: Reader, p: Place, ts: &'a [Seen]) -> Read<'a, (Stmt, bool)>
    ensures { Gives (λ x. (x.0, x.1.now)) result (s.block_rest c.entry.names.now (inner c.entry.names.now c.entry.levels) p ts.now) }
{
    let (body, rest) = inner_stmts(c, ts)?;
    up_to_brace(c.alloc, p, StmtNode::Block(body), rest)
}

/// A statement that begins with a word or mark of its own.
#[tactic(auto, unfolding(scc_grammar_spec::specs::ParseStatements::stmt_by))]
#[cycle(statement)]
pub fn word_stmt<'a>(c: Reader, ts: &'a [Seen]) -> Read<'a, (Stmt, bool)>
    ensures { Gives (λ x. (x.0, x.1.now)) result (s.word_stmt c.entry.names.now (inner c.entry.names.now c.entry.levels) ts.now) }
{
    let [t, rest @ ..] = ts else {
        return Err(Halt::Unexpected(None));
    };
    let p = t.place;
    match t.terminal {
        Terminal::BraceOpen => block_rest(c, p, rest),
        Terminal::Semicolon => empty(c.alloc, p, rest),
        Terminal::If => if_rest(c, p, rest),
        Terminal::Switch => switch_rest(c, p, rest),
        Terminal::While => while_rest(c, p, rest),
        Terminal::Do => do_rest(c, p, rest),
        Terminal::For => for_rest(c, p, rest),
        Terminal::Break => up_to_semicolon(c.alloc, p, StmtNode::Break, rest),
        Terminal::Continue => up_to_semicolon(c.alloc, p, StmtNode::Continue, rest),
        Terminal::Return => return_rest(c, p, rest),
        Terminal::Wait => wait_rest(c, p, rest),
        Terminal::ClockedThread => clocked_rest(c, p, rest),
        Terminal::Sensitive => sensitive_rest(c, p, rest),
        Terminal::DontInitialize => quiet_rest(c, p, rest),
        Terminal::Process(thread) => process_rest(c, thread, p, rest),
        Terminal::Reset(asynchronous) => reset_rest(c, asynchronous, p, rest),
        _ => Err(Halt::Unexpected(place_of(ts))),
    }
}

/// A statement, and whether an `else` behind it would belong to an `if` in it.
#[tactic(auto, unfolding(scc_grammar_spec::specs::ParseStatements::stmt))]
#[cycle(statement)]
pub fn stmt<'a>(c: Reader, ts: &'a [Seen]) -> Read<'a, (Stmt, bool)>
    ensures { Gives (λ x. (x.0, x.1.now)) result (s.stmt c.entry.names.now (inner c.entry.names.now c.entry.levels) ts.now) }
{
    if begins_word(ts) {
        return word_stmt(c, ts);
    }
    line(c, ts)
}

pub fn body_stmt<'a>(c: Reader, ts: &'a [Seen]) -> Read<'a, Stmt>
    ensures { Gives (λ x. (x.0, x.1.now)) result (s.item_of_stmt c.entry.names.now (inner c.entry.names.now c.entry.levels) (s.stmt c.entry.names.now (inner c.entry.names.now c.entry.levels)) ts.now) }
{
    let ((of, _), rest) = stmt(c, ts)?;
    Ok((of, rest))
}

pub fn body_stmts<'a>(c: Reader, ts: &'a [Seen]) -> Read<'a, List<Stmt>>
    ensures { Gives (λ x. (x.0, x.1.now)) result (s.stmts_of c.entry.names.now (inner c.entry.names.now c.entry.levels) (s.stmt c.entry.names.now (inner c.entry.names.now c.entry.levels)) ts.now) }
{
    let mut found = List::new(c.alloc);
    let mut rest = ts;
    while begins_not_brace_close(rest) {
        let (next, after) = body_stmt(c, rest)?;
        found.push(next)?;
        rest = after;
    }
    Ok((found, rest))
}

/// The body of a function.
#[tactic(auto, unfolding(scc_grammar_spec::specs::ParseStatements::block_of))]
pub fn block_of<'a>(c: Reader, ts: &'a [Seen]) -> Read<'a, List<Stmt>>
    ensures { Gives (λ x. (x.0, x.1.now)) result (s.block_of c.entry.names.now (inner c.entry.names.now c.entry.levels) ts.now) }
{
    let (_, rest) = brace_open(ts)?;
    let (of, rest) = body_stmts(c, rest)?;
    let (_, rest) = brace_close(rest)?;
    Ok((of, rest))
}
