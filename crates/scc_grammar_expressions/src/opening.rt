//! What opens a level among types and expressions.
ghost use Rattle.scc_grammar_terminals.specs.Answer.{Gives};
ghost use Rattle.scc_grammar_spec.specs.ParseStatements.{inner};

use crate::chain::{additive, argument, bracketed, expr, operand};
use crate::types::{ty_arg, type_at};
use scc_grammar_leaves::first::{begins_argument, begins_expr, begins_ty_arg, begins_type};
use scc_grammar_terminals::halt::{Halt, place_of};
use scc_grammar_terminals::part::{Bracketed, TypeRead};
use scc_grammar_terminals::reader::{Read, Reader};
use scc_grammar_terminals::terminal::Seen;
use scc_tree::{Expr, TyArg};

#[cycle(expression)]
pub fn open_expr<'a>(c: Reader, ts: &'a [Seen]) -> Read<'a, Expr>
    ensures { Gives (λ x. (x.0, x.1.now)) result ((inner c.entry.names.now c.entry.levels).expr ts.now) }
{
    if c.levels > 0 {
        return expr(c.within(), ts);
    }
    if begins_expr(c.names, ts) {
        return Err(Halt::TooDeep(place_of(ts)));
    }
    Err(Halt::Unexpected(place_of(ts)))
}

#[cycle(expression)]
pub fn open_additive<'a>(c: Reader, ts: &'a [Seen]) -> Read<'a, Expr>
    ensures { Gives (λ x. (x.0, x.1.now)) result ((inner c.entry.names.now c.entry.levels).additive ts.now) }
{
    if c.levels > 0 {
        return additive(c.within(), ts);
    }
    if begins_expr(c.names, ts) {
        return Err(Halt::TooDeep(place_of(ts)));
    }
    Err(Halt::Unexpected(place_of(ts)))
}

#[cycle(expression)]
pub fn open_type<'a>(c: Reader, ts: &'a [Seen]) -> Read<'a, TypeRead>
    ensures { Gives (λ x. (x.0, x.1.now)) result ((inner c.entry.names.now c.entry.levels).ty ts.now) }
{
    if c.levels > 0 {
        return type_at(c.within(), true, ts);
    }
    if begins_type(c.names, ts) {
        return Err(Halt::TooDeep(place_of(ts)));
    }
    Err(Halt::Unexpected(place_of(ts)))
}

#[cycle(expression)]
pub fn open_ty_arg<'a>(c: Reader, ts: &'a [Seen]) -> Read<'a, (TyArg, bool)>
    ensures { Gives (λ x. (x.0, x.1.now)) result ((inner c.entry.names.now c.entry.levels).ty_arg ts.now) }
{
    if c.levels > 0 {
        return ty_arg(c.within(), ts);
    }
    if begins_ty_arg(c.names, ts) {
        return Err(Halt::TooDeep(place_of(ts)));
    }
    Err(Halt::Unexpected(place_of(ts)))
}

#[cycle(expression)]
pub fn open_bracketed<'a>(c: Reader, ts: &'a [Seen]) -> Read<'a, Bracketed>
    ensures { Gives (λ x. (x.0, x.1.now)) result ((inner c.entry.names.now c.entry.levels).bracketed ts.now) }
{
    if c.levels > 0 {
        return bracketed(c.within(), ts);
    }
    if begins_ty_arg(c.names, ts) {
        return Err(Halt::TooDeep(place_of(ts)));
    }
    Err(Halt::Unexpected(place_of(ts)))
}

#[cycle(expression)]
pub fn open_unary<'a>(c: Reader, ts: &'a [Seen]) -> Read<'a, Expr>
    ensures { Gives (λ x. (x.0, x.1.now)) result ((inner c.entry.names.now c.entry.levels).unary ts.now) }
{
    if c.levels > 0 {
        return operand(c.within(), ts);
    }
    if begins_expr(c.names, ts) {
        return Err(Halt::TooDeep(place_of(ts)));
    }
    Err(Halt::Unexpected(place_of(ts)))
}

#[cycle(expression)]
pub fn open_argument<'a>(c: Reader, ts: &'a [Seen]) -> Read<'a, Expr>
    ensures { Gives (λ x. (x.0, x.1.now)) result ((inner c.entry.names.now c.entry.levels).argument ts.now) }
{
    if c.levels > 0 {
        return argument(c.within(), ts);
    }
    if begins_argument(c.names, ts) {
        return Err(Halt::TooDeep(place_of(ts)));
    }
    Err(Halt::Unexpected(place_of(ts)))
}
