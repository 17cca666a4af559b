//! Expressions.
ghost use Rattle.std.specs.Prelude.{◌≤◌, ◌<◌};
ghost use Rattle.scc_grammar_terminals.specs.Answer.{Gives};
ghost use Rattle.scc_grammar_terminals.specs.Operators as o;
ghost use Rattle.scc_grammar_spec.specs.ParseExpressions as e;
ghost use Rattle.scc_grammar_spec.specs.ParseStatements.{inner};
ghost use Rattle.scc_grammar_terminals.specs.Marks as m;
ghost use Rattle.scc_grammar_terminals.specs.Text.{mark, next_says};
ghost use Rattle.scc_reading.specs.Reading.{and_then, pure, repeat};
ghost use Rattle.scc_tree.specs.Node.{expr_of};
ghost use Rattle.scc_tree.specs.declared.expr.ExprNode.TheVariants as variant;

use crate::opening::{open_bracketed, open_expr, open_unary};
use crate::postfix::{after_open, cargs, postfix_after};
use crate::primary::{after_base, primary};
use crate::types::{base_at, type_at};
use scc_base::{List, Place};
use scc_grammar_leaves::first::{
    begins_operated, begins_operator, begins_type, goes_on, operator_at, unary_operator_at,
};
use scc_grammar_leaves::operands::{operand_of, up_to_bracket};
use scc_grammar_leaves::types::is_constant;
use scc_grammar_terminals::marks::{colon, paren_open, question};
use scc_grammar_terminals::next::{begins_new_word, begins_paren_open, begins_question};
use scc_grammar_terminals::nodes::chain_of;
use scc_grammar_terminals::part::{Bracketed, Placed, TypeRead};
use scc_grammar_terminals::reader::{Read, Reader};
use scc_grammar_terminals::terminal::Seen;
use scc_grammar_terminals::words::new_word;
use scc_tree::{Expr, ExprNode, Link};

/// An operand with the operators before it.
#[tactic(auto, unfolding(scc_grammar_spec::specs::ParseExpressions::unary))]
#[cycle(expression)]
pub fn unary<'a>(c: Reader, ts: &'a [Seen]) -> Read<'a, Placed>
    ensures { Gives (λ x. (x.0, x.1.now)) result (e.unary c.entry.names.now (inner c.entry.names.now c.entry.levels) ts.now) }
{
    if begins_operated(ts) {
        let ((op, place), rest) = unary_operator_at(ts)?;
        let (of, rest) = open_unary(c, rest)?;
        return operand_of(c.alloc, place, ExprNode::Unary { op, of }, rest);
    }
    if begins_paren_open(ts) {
        let (place, rest) = paren_open(ts)?;
        let (found, rest) = open_bracketed(c, rest)?;
        let (of, rest) = after_open(c, place, found, rest)?;
        return Ok((Placed { place, of }, rest));
    }
    let (first, rest) = primary(c, ts)?;
    let place = first.place;
    let (of, rest) = postfix_after(c, place, first.of, rest)?;
    Ok((Placed { place, of }, rest))
}

#[cycle(expression)]
pub fn operand<'a>(c: Reader, ts: &'a [Seen]) -> Read<'a, Expr>
    ensures { Gives (λ x. (x.0, x.1.now)) result (e.operand c.entry.names.now (inner c.entry.names.now c.entry.levels) ts.now) }
{
    let (found, rest) = unary(c, ts)?;
    Ok((found.of, rest))
}

#[cycle(expression)]
pub fn link<'a>(c: Reader, k: u32, ts: &'a [Seen]) -> Read<'a, Link>
    requires { k < 10 }
    ensures { Gives (λ x. (x.0, x.1.now)) result (e.link_of c.entry.names.now (inner c.entry.names.now c.entry.levels) k ts.now) }
{
    let ((op, place), rest) = operator_at(k, ts)?;
    let (first, rest) = unary(c, rest)?;
    let (operand, rest) = chain_after(c, k, first.place, first.of, rest)?;
    let of = Link { op, place, operand };
    Ok((of, rest))
}

#[cycle(expression)]
pub fn links<'a>(c: Reader, k: u32, ts: &'a [Seen]) -> Read<'a, List<Link>>
    requires { k < 10 }
    ensures { Gives (λ x. (x.0, x.1.now)) result (repeat (next_says (o.operator k)) (e.link_of c.entry.names.now (inner c.entry.names.now c.entry.levels) k) ts.now) }
{
    let mut found = List::new(c.alloc);
    let mut rest = ts;
    while begins_operator(k, rest) {
        let (next, after) = link(c, k, rest)?;
        found.push(next)?;
        rest = after;
    }
    Ok((found, rest))
}

// The rest of a chain of the levels below `k`, whose first operand was read.
#[tactic(auto, unfolding(scc_grammar_spec::specs::ParseExpressions::chain_after))]
#[cycle(expression)]
pub fn chain_after<'a>(c: Reader, k: u32, p: Place, first: Expr, ts: &'a [Seen]) -> Read<'a, Expr>
    requires { k ≤ 10 }
    ensures { Gives (λ x. (x.0, x.1.now)) result (e.chain_after c.entry.names.now (inner c.entry.names.now c.entry.levels) k p first ts.now) }
{
    if k == 0 {
        return Ok((first, ts));
    }
    let (low, rest) = chain_after(c, k - 1, p, first, ts)?;
    let (found, rest) = links(c, k - 1, rest)?;
    Ok((chain_of(c.alloc, p, low, found)?, rest))
}

#[tactic(auto, unfolding(scc_grammar_spec::specs::ParseExpressions::choice_after))]
#[cycle(expression)]
pub fn choice_after<'a>(c: Reader, p: Place, test: Expr, ts: &'a [Seen]) -> Read<'a, Expr>
    ensures { Gives (λ x. (x.0, x.1.now)) result (e.choice_after c.entry.names.now (inner c.entry.names.now c.entry.levels) p test ts.now) }
{
    if !begins_question(ts) {
        return Ok((test, ts));
    }
    let (_, rest) = question(ts)?;
    let (yes, rest) = open_expr(c, rest)?;
    choice_last(c, p, test, yes, rest)
}

// The last part of a `?:`.
#[cycle(expression)]
pub fn choice_last<'a>(c: Reader, p: Place, test: Expr, yes: Expr, ts: &'a [Seen]) -> Read<'a, Expr>
    ensures { Gives (λ x. (x.0, x.1.now)) result (and_then (mark m.colon ts.now) (λ _ us. and_then ((inner c.entry.names.now c.entry.levels).expr us) (λ no. pure (expr_of p (variant.Cond test yes no))))) }
{
    let (_, rest) = colon(ts)?;
    let (no, rest) = open_expr(c, rest)?;
    let node = ExprNode::Cond { test, yes, no };
    Ok((Expr::new(c.alloc, p, node)?, rest))
}

#[tactic(auto, unfolding(scc_grammar_spec::specs::ParseExpressions::expr_after))]
#[cycle(expression)]
pub fn expr_after<'a>(c: Reader, p: Place, first: Expr, ts: &'a [Seen]) -> Read<'a, Expr>
    ensures { Gives (λ x. (x.0, x.1.now)) result (e.expr_after c.entry.names.now (inner c.entry.names.now c.entry.levels) p first ts.now) }
{
    let (test, rest) = chain_after(c, 10, p, first, ts)?;
    choice_after(c, p, test, rest)
}

/// An expression.
#[tactic(auto, unfolding(scc_grammar_spec::specs::ParseExpressions::expr))]
#[cycle(expression)]
pub fn expr<'a>(c: Reader, ts: &'a [Seen]) -> Read<'a, Expr>
    ensures { Gives (λ x. (x.0, x.1.now)) result (e.expr c.entry.names.now (inner c.entry.names.now c.entry.levels) ts.now) }
{
    let (first, rest) = unary(c, ts)?;
    expr_after(c, first.place, first.of, rest)
}

/// Operands joined by `+`, `-` and the operators that bind tighter.
#[tactic(auto, unfolding(scc_grammar_spec::specs::ParseExpressions::additive))]
#[cycle(expression)]
pub fn additive<'a>(c: Reader, ts: &'a [Seen]) -> Read<'a, Expr>
    ensures { Gives (λ x. (x.0, x.1.now)) result (e.additive c.entry.names.now (inner c.entry.names.now c.entry.levels) ts.now) }
{
    let (first, rest) = unary(c, ts)?;
    chain_after(c, 2, first.place, first.of, rest)
}

#[tactic(auto, unfolding(scc_grammar_spec::specs::ParseExpressions::postfix_of))]
#[cycle(expression)]
pub fn postfix_of<'a>(c: Reader, of: TypeRead, ts: &'a [Seen]) -> Read<'a, Expr>
    ensures { Gives (λ x. (x.0, x.1.now)) result (e.postfix_of c.entry.names.now (inner c.entry.names.now c.entry.levels) of ts.now) }
{
    let p = of.place;
    let (first, rest) = after_base(c, of, ts)?;
    postfix_after(c, p, first, rest)
}

#[tactic(auto, unfolding(scc_grammar_spec::specs::ParseExpressions::after_bracket_type))]
#[cycle(expression)]
pub fn after_bracket_type<'a>(c: Reader, of: TypeRead, ts: &'a [Seen]) -> Read<'a, Bracketed>
    ensures { Gives (λ x. (x.0, x.1.now)) result (e.after_bracket_type c.entry.names.now (inner c.entry.names.now c.entry.levels) of ts.now) }
{
    if is_constant(of.sort) {
        return Ok((Bracketed::AType(of.ty), ts));
    }
    if goes_on(ts) {
        let p = of.place;
        let (first, rest) = postfix_of(c, of, ts)?;
        let (of, rest) = expr_after(c, p, first, rest)?;
        return Ok((Bracketed::AnExpr(of), rest));
    }
    Ok((Bracketed::AType(of.ty), ts))
}

// What stands behind a `(`: a type, or the first expression.
#[tactic(auto, unfolding(scc_grammar_spec::specs::ParseExpressions::bracketed))]
#[cycle(expression)]
pub fn bracketed<'a>(c: Reader, ts: &'a [Seen]) -> Read<'a, Bracketed>
    ensures { Gives (λ x. (x.0, x.1.now)) result (e.bracketed c.entry.names.now (inner c.entry.names.now c.entry.levels) ts.now) }
{
    if begins_type(c.names, ts) {
        let (of, rest) = type_at(c, false, ts)?;
        return after_bracket_type(c, of, rest);
    }
    let (of, rest) = expr(c, ts)?;
    Ok((Bracketed::AnExpr(of), rest))
}

#[tactic(auto, unfolding(scc_grammar_spec::specs::ParseExpressions::new_at))]
#[cycle(expression)]
pub fn new_at<'a>(c: Reader, ts: &'a [Seen]) -> Read<'a, Expr>
    ensures { Gives (λ x. (x.0, x.1.now)) result (e.new_at c.entry.names.now (inner c.entry.names.now c.entry.levels) ts.now) }
{
    let (p, rest) = new_word(ts)?;
    let (of, rest) = base_at(c, false, rest)?;
    let (_, rest) = paren_open(rest)?;
    let (args, rest) = cargs(c, rest)?;
    up_to_bracket(c.alloc, p, ExprNode::Make { ty: of.ty, args }, rest)
}

/// An expression, or a `new` in its place.
#[tactic(auto, unfolding(scc_grammar_spec::specs::ParseExpressions::argument))]
#[cycle(expression)]
pub fn argument<'a>(c: Reader, ts: &'a [Seen]) -> Read<'a, Expr>
    ensures { Gives (λ x. (x.0, x.1.now)) result (e.argument c.entry.names.now (inner c.entry.names.now c.entry.levels) ts.now) }
{
    if begins_new_word(ts) {
        return new_at(c, ts);
    }
    expr(c, ts)
}
