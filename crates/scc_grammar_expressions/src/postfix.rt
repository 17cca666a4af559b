//! What stands behind an operand, and brackets.
ghost use Rattle.std.specs.Prelude.{false};
ghost use Rattle.scc_grammar_terminals.specs.Answer.{Gives, onto};
ghost use Rattle.scc_grammar_spec.specs.ParseExpressions as e;
ghost use Rattle.scc_grammar_spec.specs.ParseStatements.{inner};

use crate::opening::{open_argument, open_expr, open_unary};
use scc_base::{List, Place};
use scc_grammar_leaves::first::begins_part;
use scc_grammar_leaves::operands::{arrow, member, up_to_bracket};
use scc_grammar_terminals::halt::{Halt, place_of};
use scc_grammar_terminals::marks::{bracket_close, comma, paren_close};
use scc_grammar_terminals::next::{begins_comma, begins_paren_close, begins_text};
use scc_grammar_terminals::nodes::{one, parts_of};
use scc_grammar_terminals::part::Bracketed;
use scc_grammar_terminals::reader::{Read, Reader};
use scc_grammar_terminals::terminal::{Seen, Terminal};
use scc_grammar_terminals::words::text;
use scc_tree::{Expr, ExprNode, Part, PartNode};

#[cycle(expression)]
pub fn one_expr<'a>(c: Reader, ts: &'a [Seen]) -> Read<'a, Expr>
    ensures { Gives (λ x. (x.0, x.1.now)) result (e.one_expr c.entry.names.now (inner c.entry.names.now c.entry.levels) ts.now) }
{
    let (_, rest) = comma(ts)?;
    open_expr(c, rest)
}

#[cycle(expression)]
pub fn more_exprs<'a>(c: Reader, found: List<Expr>, ts: &'a [Seen]) -> Read<'a, List<Expr>>
    ensures { Gives (λ x. (x.0, x.1.now)) result (onto found (e.more_exprs c.entry.names.now (inner c.entry.names.now c.entry.levels)) ts.now) }
{
    let mut found = found;
    let mut rest = ts;
    while begins_comma(rest) {
        let (next, after) = one_expr(c, rest)?;
        found.push(next)?;
        rest = after;
    }
    Ok((found, rest))
}

// An argument of a call.
#[tactic(auto, unfolding(scc_grammar_spec::specs::ParseExpressions::carg))]
#[cycle(expression)]
pub fn carg<'a>(c: Reader, ts: &'a [Seen]) -> Read<'a, Expr>
    ensures { Gives (λ x. (x.0, x.1.now)) result (e.carg c.entry.names.now (inner c.entry.names.now c.entry.levels) ts.now) }
{
    if begins_text(ts) {
        let (p, rest) = text(ts)?;
        return Ok((Expr::new(c.alloc, p, ExprNode::Text)?, rest));
    }
    open_argument(c, ts)
}

#[cycle(expression)]
pub fn one_carg<'a>(c: Reader, ts: &'a [Seen]) -> Read<'a, Expr>
    ensures { Gives (λ x. (x.0, x.1.now)) result (e.one_carg c.entry.names.now (inner c.entry.names.now c.entry.levels) ts.now) }
{
    let (_, rest) = comma(ts)?;
    carg(c, rest)
}

#[cycle(expression)]
pub fn more_cargs<'a>(c: Reader, found: List<Expr>, ts: &'a [Seen]) -> Read<'a, List<Expr>>
    ensures { Gives (λ x. (x.0, x.1.now)) result (onto found (e.more_cargs c.entry.names.now (inner c.entry.names.now c.entry.levels)) ts.now) }
{
    let mut found = found;
    let mut rest = ts;
    while begins_comma(rest) {
        let (next, after) = one_carg(c, rest)?;
        found.push(next)?;
        rest = after;
    }
    Ok((found, rest))
}

/// The arguments of a call, between its brackets.
#[tactic(auto, unfolding(scc_grammar_spec::specs::ParseExpressions::cargs))]
#[cycle(expression)]
pub fn cargs<'a>(c: Reader, ts: &'a [Seen]) -> Read<'a, List<Expr>>
    ensures { Gives (λ x. (x.0, x.1.now)) result (e.cargs c.entry.names.now (inner c.entry.names.now c.entry.levels) ts.now) }
{
    if begins_paren_close(ts) {
        return Ok((List::new(c.alloc), ts));
    }
    let (first, rest) = carg(c, ts)?;
    let found = one(c.alloc, first)?;
    more_cargs(c, found, rest)
}

// One step behind an expression, and whether it is a call.
#[tactic(auto, unfolding(scc_grammar_spec::specs::ParseExpressions::part_by))]
#[cycle(expression)]
pub fn part<'a>(c: Reader, ts: &'a [Seen]) -> Read<'a, (Part, bool)>
    ensures { Gives (λ x. (x.0, x.1.now)) result (e.one_part c.entry.names.now (inner c.entry.names.now c.entry.levels) false ts.now) }
{
    let [t, rest @ ..] = ts else {
        return Err(Halt::Unexpected(None));
    };
    let place = t.place;
    match t.terminal {
        Terminal::BracketOpen => {
            let (of, rest) = open_expr(c, rest)?;
            let (_, rest) = bracket_close(rest)?;
            let node = PartNode::Index(of);
            Ok(((Part { place, node }, false), rest))
        }
        Terminal::ParenOpen => {
            let (args, rest) = cargs(c, rest)?;
            let (_, rest) = paren_close(rest)?;
            let node = PartNode::Call(args);
            Ok(((Part { place, node }, true), rest))
        }
        Terminal::Dot => member(rest),
        Terminal::Arrow => arrow(rest),
        _ => Err(Halt::Unexpected(place_of(ts))),
    }
}

/// The steps behind an expression, and whether the last one is a call.
#[cycle(expression)]
pub fn parts<'a>(c: Reader, ts: &'a [Seen]) -> Read<'a, (List<Part>, bool)>
    ensures { Gives (λ x. (x.0, x.1.now)) result (e.parts c.entry.names.now (inner c.entry.names.now c.entry.levels) ts.now) }
{
    let mut found = List::new(c.alloc);
    let mut called = false;
    let mut rest = ts;
    while begins_part(rest) {
        let ((next, is_call), after) = part(c, rest)?;
        found.push(next)?;
        called = is_call;
        rest = after;
    }
    Ok(((found, called), rest))
}

#[tactic(auto, unfolding(scc_grammar_spec::specs::ParseExpressions::postfix_after))]
#[cycle(expression)]
pub fn postfix_after<'a>(c: Reader, p: Place, of: Expr, ts: &'a [Seen]) -> Read<'a, Expr>
    ensures { Gives (λ x. (x.0, x.1.now)) result (e.postfix_after c.entry.names.now (inner c.entry.names.now c.entry.levels) p of ts.now) }
{
    let ((found, _), rest) = parts(c, ts)?;
    Ok((parts_of(c.alloc, p, of, found)?, rest))
}

/// Behind the first expression in brackets, which open at the place.
#[tactic(auto, unfolding(scc_grammar_spec::specs::ParseExpressions::after_brackets))]
#[cycle(expression)]
pub fn after_brackets<'a>(c: Reader, p: Place, first: Expr, ts: &'a [Seen]) -> Read<'a, Expr>
    ensures { Gives (λ x. (x.0, x.1.now)) result (e.after_brackets c.entry.names.now (inner c.entry.names.now c.entry.levels) p first ts.now) }
{
    if !begins_comma(ts) {
        let (_, rest) = paren_close(ts)?;
        return Ok((first, rest));
    }
    let (second, rest) = one_expr(c, ts)?;
    let mut all = one(c.alloc, first)?;
    all.push(second)?;
    let (all, rest) = more_exprs(c, all, rest)?;
    up_to_bracket(c.alloc, p, ExprNode::Concat(all), rest)
}

#[tactic(auto, unfolding(scc_grammar_spec::specs::ParseExpressions::after_open))]
#[cycle(expression)]
pub fn after_open<'a>(c: Reader, p: Place, found: Bracketed, ts: &'a [Seen]) -> Read<'a, Expr>
    ensures { Gives (λ x. (x.0, x.1.now)) result (e.after_open c.entry.names.now (inner c.entry.names.now c.entry.levels) p found ts.now) }
{
    match found {
        Bracketed::AType(ty) => {
            let (_, rest) = paren_close(ts)?;
            let (of, rest) = open_unary(c, rest)?;
            Ok((Expr::new(c.alloc, p, ExprNode::Cast { ty, of })?, rest))
        }
        Bracketed::AnExpr(first) => {
            let (of, rest) = after_brackets(c, p, first, ts)?;
            postfix_after(c, p, of, rest)
        }
    }
}
