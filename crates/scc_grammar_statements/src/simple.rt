//! Assignments, steps and calls.
ghost use Rattle.std.specs.Prelude.{◌≡◌, IfOk, false, true};
ghost use Rattle.scc_grammar_terminals.specs.Answer.{Gives, onto};
ghost use Rattle.scc_grammar_terminals.specs.Marks as m;
ghost use Rattle.scc_grammar_terminals.specs.Names as names;
ghost use Rattle.scc_grammar_spec.specs.ParseStatements as s;
ghost use Rattle.scc_grammar_spec.specs.ParseStatements.{inner};
ghost use Rattle.scc_grammar_terminals.specs.StatementNodes as nodes;
ghost use Rattle.scc_grammar_spec.specs.Statements as statements;
ghost use Rattle.scc_grammar_terminals.specs.Text.{next_is, next_says, pick};
ghost use Rattle.scc_reading.specs.Reading.{is_next, token};
ghost use Rattle.scc_tree.specs.Node.{stmt_of};

use crate::local::local_after;
use scc_base::Place;
use scc_bits::Op;
use scc_grammar_expressions::chain::{argument, unary};
use scc_grammar_expressions::opening::{open_bracketed, open_unary};
use scc_grammar_expressions::postfix::{after_brackets, parts};
use scc_grammar_expressions::primary::{after_base, plain};
use scc_grammar_expressions::types::{base_at, type_at};
use scc_grammar_leaves::first::{begins_base, begins_operated, begins_type, goes_on};
use scc_grammar_leaves::types::is_constant;
use scc_grammar_terminals::halt::{Halt, place_of};
use scc_grammar_terminals::marks::{paren_close, paren_open};
use scc_grammar_terminals::next::begins_paren_open;
use scc_grammar_terminals::nodes::parts_of;
use scc_grammar_terminals::part::{Bracketed, Line, TypeRead};
use scc_grammar_terminals::reader::{Read, Reader};
use scc_grammar_terminals::terminal::{Seen, Terminal};
use scc_tree::{Expr, ExprNode, SimpleNode, SimpleTree};

/// `=` (None), or the operator before a `=`.
pub fn assignment(t: Terminal) -> Option<Option<Op>>
    ensures { result ≡ statements.assignment t }
{
    match t {
        Terminal::Assign => Some(None),
        Terminal::Update(op) => Some(Some(op)),
        _ => None,
    }
}

pub fn assignment_at(ts: &[Seen]) -> Read<'_, (Option<Op>, Place)>
    ensures { Gives (λ x. (x.0, x.1.now)) result (token (pick statements.assignment) ts.now) }
{
    match ts {
        [t, rest @ ..] => match assignment(t.terminal) {
            Some(op) => Ok(((op, t.place), rest)),
            None => Err(Halt::Unexpected(place_of(ts))),
        },
        [] => Err(Halt::Unexpected(None)),
    }
}

pub fn begins_assignment(ts: &[Seen]) -> bool
    ensures { result ≡ is_next (next_says statements.assignment) ts.now }
{
    match ts {
        [t, ..] => assignment(t.terminal).is_some(),
        [] => false,
    }
}

/// `++` (`Add`) or `--` (`Sub`).
pub fn step_at(ts: &[Seen]) -> Read<'_, (Op, Place)>
    ensures { Gives (λ x. (x.0, x.1.now)) result (token (pick s.step) ts.now) }
{
    match ts {
        [
            Seen {
                terminal: Terminal::Step(op),
                place,
            },
            rest @ ..,
        ] => Ok(((*op, *place), rest)),
        _ => Err(Halt::Unexpected(place_of(ts))),
    }
}

pub fn begins_step(ts: &[Seen]) -> bool
    ensures { result ≡ is_next (next_says s.step) ts.now }
{
    matches!(
        ts,
        [
            Seen {
                terminal: Terminal::Step(_),
                ..
            },
            ..
        ]
    )
}

#[tactic(auto, unfolding(scc_grammar_spec::specs::ParseStatements::assigned))]
pub fn assigned<'a>(c: Reader, place: Place, left: Expr, ts: &'a [Seen]) -> Read<'a, SimpleTree>
    ensures { Gives (λ x. (x.0, x.1.now)) result (s.assigned c.entry.names.now (inner c.entry.names.now c.entry.levels) place left ts.now) }
{
    let ((op, op_place), rest) = assignment_at(ts)?;
    let (value, rest) = argument(c, rest)?;
    let node = SimpleNode::Assign {
        left,
        op,
        op_place,
        value,
    };
    Ok((SimpleTree { place, node }, rest))
}

#[tactic(auto, unfolding(scc_grammar_spec::specs::ParseStatements::stepped))]
pub fn stepped<'a>(c: Reader, place: Place, of: Expr, ts: &'a [Seen]) -> Read<'a, SimpleTree>
    ensures { Gives (λ x. (x.0, x.1.now)) result (s.stepped c.entry.names.now (inner c.entry.names.now c.entry.levels) place of ts.now) }
{
    let ((op, op_place), rest) = step_at(ts)?;
    let node = SimpleNode::Step { of, op, op_place };
    Ok((SimpleTree { place, node }, rest))
}

/// The rest of a simple statement behind an operand, which may end with a call.
#[tactic(auto, unfolding(scc_grammar_spec::specs::ParseStatements::simple_by))]
pub fn simple_by<'a>(
    c: Reader,
    place: Place,
    left: Expr,
    called: bool,
    ts: &'a [Seen],
) -> Read<'a, SimpleTree>
    ensures { Gives (λ x. (x.0, x.1.now)) result (s.simple_by c.entry.names.now (inner c.entry.names.now c.entry.levels) place left called ts.now) }
{
    if begins_assignment(ts) {
        return assigned(c, place, left, ts);
    }
    if begins_step(ts) {
        return stepped(c, place, left, ts);
    }
    if called {
        let node = SimpleNode::Call(left);
        return Ok((SimpleTree { place, node }, ts));
    }
    Err(Halt::Unexpected(place_of(ts)))
}

#[tactic(auto, unfolding(scc_grammar_spec::specs::ParseStatements::simple_after))]
pub fn simple_after<'a>(c: Reader, place: Place, of: Expr, ts: &'a [Seen]) -> Read<'a, SimpleTree>
    ensures { Gives (λ x. (x.0, x.1.now)) result (s.simple_after c.entry.names.now (inner c.entry.names.now c.entry.levels) place of ts.now) }
{
    let ((found, called), rest) = parts(c, ts)?;
    let left = parts_of(c.alloc, place, of, found)?;
    simple_by(c, place, left, called, rest)
}

#[tactic(auto, unfolding(scc_grammar_spec::specs::ParseStatements::simple_open))]
pub fn simple_open<'a>(
    c: Reader,
    p: Place,
    found: Bracketed,
    ts: &'a [Seen],
) -> Read<'a, SimpleTree>
    ensures { Gives (λ x. (x.0, x.1.now)) result (s.simple_open c.entry.names.now (inner c.entry.names.now c.entry.levels) p found ts.now) }
{
    match found {
        Bracketed::AType(ty) => {
            let (_, rest) = paren_close(ts)?;
            let (of, rest) = open_unary(c, rest)?;
            let left = Expr::new(c.alloc, p, ExprNode::Cast { ty, of })?;
            simple_by(c, p, left, false, rest)
        }
        Bracketed::AnExpr(first) => {
            let (of, rest) = after_brackets(c, p, first, ts)?;
            simple_after(c, p, of, rest)
        }
    }
}

/// An assignment, a step or a call that does not begin with a type.
#[tactic(auto, unfolding(scc_grammar_spec::specs::ParseStatements::simple))]
pub fn simple<'a>(c: Reader, ts: &'a [Seen]) -> Read<'a, SimpleTree>
    ensures { Gives (λ x. (x.0, x.1.now)) result (s.simple c.entry.names.now (inner c.entry.names.now c.entry.levels) ts.now) }
{
    if begins_step(ts) {
        let ((op, place), rest) = step_at(ts)?;
        let (found, rest) = unary(c, rest)?;
        let node = SimpleNode::Step {
            of: found.of,
            op,
            op_place: place,
        };
        return Ok((SimpleTree { place, node }, rest));
    }
    if begins_operated(ts) {
        let (found, rest) = unary(c, ts)?;
        return simple_by(c, found.place, found.of, false, rest);
    }
    if begins_paren_open(ts) {
        let (p, rest) = paren_open(ts)?;
        let (found, rest) = open_bracketed(c, rest)?;
        return simple_open(c, p, found, rest);
    }
    let (found, rest) = plain(c, ts)?;
    simple_after(c, found.place, found.of, rest)
}

#[tactic(auto, unfolding(scc_grammar_spec::specs::ParseStatements::simple_of_type))]
pub fn simple_of_type<'a>(c: Reader, of: TypeRead, ts: &'a [Seen]) -> Read<'a, SimpleTree>
    ensures { Gives (λ x. (x.0, x.1.now)) result (s.simple_of_type c.entry.names.now (inner c.entry.names.now c.entry.levels) of ts.now) }
{
    let p = of.place;
    let (left, rest) = after_base(c, of, ts)?;
    simple_after(c, p, left, rest)
}

/// An assignment, a step or a call.
#[tactic(auto, unfolding(scc_grammar_spec::specs::ParseStatements::any_simple))]
pub fn any_simple<'a>(c: Reader, ts: &'a [Seen]) -> Read<'a, SimpleTree>
    ensures { Gives (λ x. (x.0, x.1.now)) result (s.any_simple c.entry.names.now (inner c.entry.names.now c.entry.levels) ts.now) }
{
    if begins_base(c.names, ts) {
        let (of, rest) = base_at(c, false, ts)?;
        return simple_of_type(c, of, rest);
    }
    simple(c, ts)
}

#[tactic(auto, unfolding(scc_grammar_spec::specs::ParseStatements::local_of_type))]
pub fn local_of_type<'a>(c: Reader, of: TypeRead, ts: &'a [Seen]) -> Read<'a, Line>
    ensures { Gives (λ x. (x.0, x.1.now)) result (s.local_of_type c.entry.names.now (inner c.entry.names.now c.entry.levels) of ts.now) }
{
    let (of, rest) = local_after(c, of.ty, ts)?;
    Ok((Line::ALocal(of), rest))
}

#[tactic(auto, unfolding(scc_grammar_spec::specs::ParseStatements::first_after))]
pub fn first_after<'a>(c: Reader, of: TypeRead, ts: &'a [Seen]) -> Read<'a, Line>
    ensures { Gives (λ x. (x.0, x.1.now)) result (s.first_after c.entry.names.now (inner c.entry.names.now c.entry.levels) of ts.now) }
{
    if is_constant(of.sort) {
        return local_of_type(c, of, ts);
    }
    if goes_on(ts) {
        let (of, rest) = simple_of_type(c, of, ts)?;
        return Ok((Line::ASimple(of), rest));
    }
    local_of_type(c, of, ts)
}

/// What begins with a type or an expression.
#[tactic(auto, unfolding(scc_grammar_spec::specs::ParseStatements::local_or_simple))]
pub fn local_or_simple<'a>(c: Reader, ts: &'a [Seen]) -> Read<'a, Line>
    ensures { Gives (λ x. (x.0, x.1.now)) result (s.local_or_simple c.entry.names.now (inner c.entry.names.now c.entry.levels) ts.now) }
{
    if begins_type(c.names, ts) {
        let (of, rest) = type_at(c, false, ts)?;
        return first_after(c, of, rest);
    }
    let (of, rest) = simple(c, ts)?;
    Ok((Line::ASimple(of), rest))
}
