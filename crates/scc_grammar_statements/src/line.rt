//! Statements that no statement stands in.
ghost use Rattle.std.specs.Prelude.{◌≡◌, IfOk, false, true};
ghost use Rattle.scc_grammar_terminals.specs.Answer.{Gives, onto};
ghost use Rattle.scc_grammar_terminals.specs.Marks as m;
ghost use Rattle.scc_grammar_terminals.specs.Names as names;
ghost use Rattle.scc_grammar_spec.specs.ParseStatements as s;
ghost use Rattle.scc_grammar_spec.specs.ParseStatements.{inner};
ghost use Rattle.scc_grammar_terminals.specs.StatementNodes as nodes;
ghost use Rattle.scc_grammar_spec.specs.Statements as statements;
ghost use Rattle.scc_grammar_terminals.specs.Text.{mark, next_is, next_says, pick};
ghost use Rattle.scc_reading.specs.Reading.{and_then, is_next, pure, token};
ghost use Rattle.scc_tree.specs.Node.{stmt_of};

use crate::simple::{any_simple, local_or_simple};
use scc_base::{List, Name, NoMemory, Place};
use scc_grammar_expressions::chain::{additive, expr};
use scc_grammar_expressions::opening::open_expr;
use scc_grammar_leaves::first::name_at;
use scc_grammar_terminals::marks::{comma, paren_close, paren_open, semicolon, shift_left};
use scc_grammar_terminals::next::{begins_paren_close, begins_semicolon, begins_shift_left};
use scc_grammar_terminals::nodes::one;
use scc_grammar_terminals::part::Line;
use scc_grammar_terminals::reader::{Read, Reader};
use scc_grammar_terminals::terminal::Seen;
use scc_tree::{Expr, ForFirst, LocalTree, SimpleTree, Stmt, StmtNode};
use std::alloc::Global;

/// The statement of local variables.
pub fn local_stmt(alloc: Global, of: LocalTree) -> Result<Stmt, NoMemory>
    ensures { IfOk result (λ x. x ≡ nodes.local_stmt of) }
{
    Stmt::new(alloc, of.ty.place, StmtNode::Local(of))
}

pub fn simple_stmt(alloc: Global, of: SimpleTree) -> Result<Stmt, NoMemory>
    ensures { IfOk result (λ x. x ≡ nodes.simple_stmt of) }
{
    Stmt::new(alloc, of.place, StmtNode::Simple(of))
}

pub fn line_of(alloc: Global, of: Line) -> Result<(Stmt, bool), NoMemory>
    ensures { IfOk result (λ x. x ≡ s.line_of names.no_names (inner names.no_names 0) of) }
{
    match of {
        Line::ALocal(of) => Ok((local_stmt(alloc, of)?, false)),
        Line::ASimple(of) => Ok((simple_stmt(alloc, of)?, false)),
    }
}

pub fn first_of(of: Line) -> ForFirst
    ensures { result ≡ s.first_of names.no_names (inner names.no_names 0) of }
{
    match of {
        Line::ALocal(of) => ForFirst::Local(of),
        Line::ASimple(of) => ForFirst::Simple(of),
    }
}

/// A statement without sub-statements at the place.
pub fn stmt_at(alloc: Global, place: Place, node: StmtNode) -> Result<(Stmt, bool), NoMemory>
    ensures { IfOk result (λ x. x ≡ (stmt_of place node, false)) }
{
    Ok((Stmt::new(alloc, place, node)?, false))
}

/// The node of a statement whose end isn't read yet. Its drop is one call at each exit.
pub struct Pending {
    node: StmtNode,
}

impl Drop for Pending {
    fn drop(self) {
        let Pending { node: _node } = self;
    }
}

impl Pending {
    pub fn new(node: StmtNode) -> Pending
        ensures { result.node ≡ node }
    {
        Pending { node }
    }

    pub fn into_node(self) -> StmtNode
        ensures { result ≡ self.node }
    {
        let Pending { node } = self;
        node
    }
}

/// A statement of this node, up to its semicolon.
pub fn up_to_semicolon<'a>(
    alloc: Global,
    place: Place,
    node: StmtNode,
    ts: &'a [Seen],
) -> Read<'a, (Stmt, bool)>
    ensures { Gives (λ x. (x.0, x.1.now)) result (and_then (mark m.semicolon ts.now) (λ _. pure (stmt_of place node, false))) }
{
    let pending = Pending::new(node);
    let (_, rest) = semicolon(ts)?;
    Ok((stmt_at(alloc, place, pending.into_node())?, rest))
}

/// The same, where a bracket stands before the semicolon.
pub fn up_to_bracket<'a>(
    alloc: Global,
    place: Place,
    node: StmtNode,
    ts: &'a [Seen],
) -> Read<'a, (Stmt, bool)>
    ensures { Gives (λ x. (x.0, x.1.now)) result (and_then (mark m.paren_close ts.now) (λ _ us. and_then (mark m.semicolon us) (λ _. pure (stmt_of place node, false)))) }
{
    let pending = Pending::new(node);
    let (_, rest) = paren_close(ts)?;
    up_to_semicolon(alloc, place, pending.into_node(), rest)
}

pub fn process_of(
    alloc: Global,
    place: Place,
    thread: bool,
    name: Name,
    at: Place,
) -> Result<Stmt, NoMemory>
    ensures { IfOk result (λ x. x ≡ nodes.process_of place thread name at) }
{
    if thread {
        return Stmt::new(alloc, place, StmtNode::Thread { name, at });
    }
    Stmt::new(alloc, place, StmtNode::Method { name, at })
}

/// A statement that begins with a type or an expression.
#[tactic(auto, unfolding(scc_grammar_spec::specs::ParseStatements::line))]
pub fn line<'a>(c: Reader, ts: &'a [Seen]) -> Read<'a, (Stmt, bool)>
    ensures { Gives (λ x. (x.0, x.1.now)) result (s.line c.entry.names.now (inner c.entry.names.now c.entry.levels) ts.now) }
{
    let (of, rest) = local_or_simple(c, ts)?;
    let (_, rest) = semicolon(rest)?;
    Ok((line_of(c.alloc, of)?, rest))
}

#[tactic(auto, unfolding(scc_grammar_spec::specs::ParseStatements::within))]
pub fn within_semicolon<'a>(c: Reader, ts: &'a [Seen]) -> Read<'a, Option<Expr>>
    ensures { Gives (λ x. (x.0, x.1.now)) result (s.within c.entry.names.now (inner c.entry.names.now c.entry.levels) m.semicolon ts.now) }
{
    if begins_semicolon(ts) {
        return Ok((None, ts));
    }
    let (of, rest) = open_expr(c, ts)?;
    Ok((Some(of), rest))
}

#[tactic(auto, unfolding(scc_grammar_spec::specs::ParseStatements::within))]
pub fn within_paren_close<'a>(c: Reader, ts: &'a [Seen]) -> Read<'a, Option<Expr>>
    ensures { Gives (λ x. (x.0, x.1.now)) result (s.within c.entry.names.now (inner c.entry.names.now c.entry.levels) m.paren_close ts.now) }
{
    if begins_paren_close(ts) {
        return Ok((None, ts));
    }
    let (of, rest) = open_expr(c, ts)?;
    Ok((Some(of), rest))
}

#[tactic(auto, unfolding(scc_grammar_spec::specs::ParseStatements::returned))]
pub fn returned<'a>(c: Reader, ts: &'a [Seen]) -> Read<'a, Option<Expr>>
    ensures { Gives (λ x. (x.0, x.1.now)) result (s.returned c.entry.names.now (inner c.entry.names.now c.entry.levels) ts.now) }
{
    if begins_semicolon(ts) {
        return Ok((None, ts));
    }
    let (of, rest) = expr(c, ts)?;
    Ok((Some(of), rest))
}

#[tactic(auto, unfolding(scc_grammar_spec::specs::ParseStatements::for_first))]
pub fn for_first<'a>(c: Reader, ts: &'a [Seen]) -> Read<'a, ForFirst>
    ensures { Gives (λ x. (x.0, x.1.now)) result (s.for_first c.entry.names.now (inner c.entry.names.now c.entry.levels) ts.now) }
{
    if begins_semicolon(ts) {
        return Ok((ForFirst::Nothing, ts));
    }
    let (of, rest) = local_or_simple(c, ts)?;
    Ok((first_of(of), rest))
}

#[tactic(auto, unfolding(scc_grammar_spec::specs::ParseStatements::for_step))]
pub fn for_step<'a>(c: Reader, ts: &'a [Seen]) -> Read<'a, Option<SimpleTree>>
    ensures { Gives (λ x. (x.0, x.1.now)) result (s.for_step c.entry.names.now (inner c.entry.names.now c.entry.levels) ts.now) }
{
    if begins_paren_close(ts) {
        return Ok((None, ts));
    }
    let (of, rest) = any_simple(c, ts)?;
    Ok((Some(of), rest))
}

pub fn one_signal<'a>(c: Reader, ts: &'a [Seen]) -> Read<'a, Expr>
    ensures { Gives (λ x. (x.0, x.1.now)) result (s.one_signal c.entry.names.now (inner c.entry.names.now c.entry.levels) ts.now) }
{
    let (_, rest) = shift_left(ts)?;
    additive(c, rest)
}

pub fn more_signals<'a>(c: Reader, found: List<Expr>, ts: &'a [Seen]) -> Read<'a, List<Expr>>
    ensures { Gives (λ x. (x.0, x.1.now)) result (onto found (s.more_signals c.entry.names.now (inner c.entry.names.now c.entry.levels)) ts.now) }
{
    let mut found = found;
    let mut rest = ts;
    while begins_shift_left(rest) {
        let (next, after) = one_signal(c, rest)?;
        found.push(next)?;
        rest = after;
    }
    Ok((found, rest))
}

#[tactic(auto, unfolding(scc_grammar_spec::specs::ParseStatements::return_rest))]
pub fn return_rest<'a>(c: Reader, p: Place, ts: &'a [Seen]) -> Read<'a, (Stmt, bool)>
    ensures { Gives (λ x. (x.0, x.1.now)) result (s.return_rest c.entry.names.now (inner c.entry.names.now c.entry.levels) p ts.now) }
{
    let (of, rest) = returned(c, ts)?;
    up_to_semicolon(c.alloc, p, StmtNode::Return(of), rest)
}

#[tactic(auto, unfolding(scc_grammar_spec::specs::ParseStatements::wait_rest))]
pub fn wait_rest<'a>(c: Reader, p: Place, ts: &'a [Seen]) -> Read<'a, (Stmt, bool)>
    ensures { Gives (λ x. (x.0, x.1.now)) result (s.wait_rest c.entry.names.now (inner c.entry.names.now c.entry.levels) p ts.now) }
{
    let (_, rest) = paren_open(ts)?;
    let (of, rest) = within_paren_close(c, rest)?;
    up_to_bracket(c.alloc, p, StmtNode::Wait(of), rest)
}

#[tactic(auto, unfolding(scc_grammar_spec::specs::ParseStatements::process_rest))]
pub fn process_rest<'a>(c: Reader, thread: bool, p: Place, ts: &'a [Seen]) -> Read<'a, (Stmt, bool)>
    ensures { Gives (λ x. (x.0, x.1.now)) result (s.process_rest c.entry.names.now (inner c.entry.names.now c.entry.levels) thread p ts.now) }
{
    let (_, rest) = paren_open(ts)?;
    let ((name, at), rest) = name_at(rest)?;
    let (_, rest) = paren_close(rest)?;
    let (_, rest) = semicolon(rest)?;
    Ok(((process_of(c.alloc, p, thread, name, at)?, false), rest))
}

#[tactic(auto, unfolding(scc_grammar_spec::specs::ParseStatements::clocked_rest))]
pub fn clocked_rest<'a>(c: Reader, p: Place, ts: &'a [Seen]) -> Read<'a, (Stmt, bool)>
    ensures { Gives (λ x. (x.0, x.1.now)) result (s.clocked_rest c.entry.names.now (inner c.entry.names.now c.entry.levels) p ts.now) }
{
    let (_, rest) = paren_open(ts)?;
    let ((name, at), rest) = name_at(rest)?;
    let (_, rest) = comma(rest)?;
    let (edge, rest) = open_expr(c, rest)?;
    let node = StmtNode::ClockedThread { name, at, edge };
    up_to_bracket(c.alloc, p, node, rest)
}

#[tactic(auto, unfolding(scc_grammar_spec::specs::ParseStatements::sensitive_rest))]
pub fn sensitive_rest<'a>(c: Reader, p: Place, ts: &'a [Seen]) -> Read<'a, (Stmt, bool)>
    ensures { Gives (λ x. (x.0, x.1.now)) result (s.sensitive_rest c.entry.names.now (inner c.entry.names.now c.entry.levels) p ts.now) }
{
    let (_, rest) = shift_left(ts)?;
    let (first, rest) = additive(c, rest)?;
    let found = one(c.alloc, first)?;
    let (found, rest) = more_signals(c, found, rest)?;
    up_to_semicolon(c.alloc, p, StmtNode::Sensitive(found), rest)
}

#[tactic(auto, unfolding(scc_grammar_spec::specs::ParseStatements::quiet_rest))]
pub fn quiet_rest<'a>(c: Reader, p: Place, ts: &'a [Seen]) -> Read<'a, (Stmt, bool)>
    ensures { Gives (λ x. (x.0, x.1.now)) result (s.quiet_rest c.entry.names.now (inner c.entry.names.now c.entry.levels) p ts.now) }
{
    let (_, rest) = paren_open(ts)?;
    up_to_bracket(c.alloc, p, StmtNode::DontInitialize, rest)
}

#[tactic(auto, unfolding(scc_grammar_spec::specs::ParseStatements::reset_rest))]
pub fn reset_rest<'a>(
    c: Reader,
    asynchronous: bool,
    p: Place,
    ts: &'a [Seen],
) -> Read<'a, (Stmt, bool)>
    ensures { Gives (λ x. (x.0, x.1.now)) result (s.reset_rest c.entry.names.now (inner c.entry.names.now c.entry.levels) asynchronous p ts.now) }
{
    let (_, rest) = paren_open(ts)?;
    let (signal, rest) = open_expr(c, rest)?;
    let (_, rest) = comma(rest)?;
    let (level, rest) = open_expr(c, rest)?;
    let node = StmtNode::ResetSignal {
        signal,
        level,
        asynchronous,
    };
    up_to_bracket(c.alloc, p, node, rest)
}
