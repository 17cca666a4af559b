//! Types.
ghost use Rattle.std.specs.Prelude.{false};
ghost use Rattle.scc_grammar_terminals.specs.Answer.{Gives, onto_in};
ghost use Rattle.scc_grammar_terminals.specs.First as f;
ghost use Rattle.scc_grammar_spec.specs.ParseExpressions as e;
ghost use Rattle.scc_grammar_spec.specs.ParseStatements.{inner};

use crate::chain::{additive, chain_after, postfix_of};
use crate::opening::{open_additive, open_ty_arg, open_type};
use scc_base::{List, Name, Place};
use scc_bits::Kind;
use scc_grammar_leaves::first::{begins_close, begins_type, close, close_unless, goes_on};
use scc_grammar_leaves::types::{
    clock_type, constant_type, follows, integer_type, is_constant, named_type, native, number_type,
    short_type, word_type,
};
use scc_grammar_terminals::halt::{Halt, place_of};
use scc_grammar_terminals::marks::{comma, less};
use scc_grammar_terminals::next::{begins_constant, begins_less};
use scc_grammar_terminals::nodes::{held, one};
use scc_grammar_terminals::part::TypeRead;
use scc_grammar_terminals::reader::{Read, Reader};
use scc_grammar_terminals::terminal::{Holder, Seen, Terminal};
use scc_grammar_terminals::words::constant;
use scc_tree::{Family, TyArg, TyNode};

#[cycle(expression)]
pub fn one_ty_arg<'a>(c: Reader, ts: &'a [Seen]) -> Read<'a, (TyArg, bool)>
    ensures { Gives (λ x. (x.0, x.1.now)) result (e.one_ty_arg c.entry.names.now (inner c.entry.names.now c.entry.levels) false ts.now) }
{
    let (_, rest) = comma(ts)?;
    open_ty_arg(c, rest)
}

#[cycle(expression)]
pub fn more_ty_args<'a>(
    c: Reader,
    found: List<TyArg>,
    closed: bool,
    ts: &'a [Seen],
) -> Read<'a, (List<TyArg>, bool)>
    ensures { Gives (λ x. (x.0, x.1.now)) result (onto_in found (e.more_ty_args c.entry.names.now (inner c.entry.names.now c.entry.levels) closed) ts.now) }
{
    let mut found = found;
    let mut closed = closed;
    let mut rest = ts;
    while follows(closed, rest) {
        let ((next, both), after) = one_ty_arg(c, rest)?;
        found.push(next)?;
        closed = both;
        rest = after;
    }
    Ok(((found, closed), rest))
}

/// The arguments behind a `<`, and what closes them.
#[tactic(auto, unfolding(scc_grammar_spec::specs::ParseExpressions::ty_args))]
#[cycle(expression)]
pub fn ty_args<'a>(c: Reader, inside: bool, ts: &'a [Seen]) -> Read<'a, (List<TyArg>, bool)>
    ensures { Gives (λ x. (x.0, x.1.now)) result (e.ty_args c.entry.names.now (inner c.entry.names.now c.entry.levels) inside ts.now) }
{
    if begins_close(ts) {
        let (both, rest) = close(inside, ts)?;
        return Ok(((List::new(c.alloc), both), rest));
    }
    let ((first, closed), rest) = open_ty_arg(c, ts)?;
    let found = one(c.alloc, first)?;
    let ((found, closed), rest) = more_ty_args(c, found, closed, rest)?;
    let (both, rest) = close_unless(closed, inside, rest)?;
    Ok(((found, both), rest))
}

/// The rest of a type behind its name, which stands at the place.
#[tactic(auto, unfolding(scc_grammar_spec::specs::ParseExpressions::named_by))]
#[cycle(expression)]
pub fn named_by<'a>(
    c: Reader,
    inside: bool,
    x: Name,
    p: Place,
    ts: &'a [Seen],
) -> Read<'a, TypeRead>
    ensures { Gives (λ x. (x.0, x.1.now)) result (e.named_by c.entry.names.now (inner c.entry.names.now c.entry.levels) inside x p ts.now) }
{
    if c.names.is_template(x) && begins_less(ts) {
        let (_, rest) = less(ts)?;
        let ((args, both), rest) = ty_args(c, inside, rest)?;
        let node = TyNode::Named {
            name: x,
            args: Some(args),
        };
        return Ok((named_type(c.alloc, p, node, both)?, rest));
    }
    let node = TyNode::Named {
        name: x,
        args: None,
    };
    Ok((named_type(c.alloc, p, node, false)?, ts))
}

#[tactic(auto, unfolding(scc_grammar_spec::specs::ParseExpressions::base_by))]
#[cycle(expression)]
pub fn sized_rest<'a>(
    c: Reader,
    inside: bool,
    family: Family,
    p: Place,
    ts: &'a [Seen],
) -> Read<'a, TypeRead>
    ensures { Gives (λ x. (x.0, x.1.now)) result (e.base_by c.entry.names.now (inner c.entry.names.now c.entry.levels) inside (f.sized_start family) p ts.now) }
{
    let (_, rest) = less(ts)?;
    let (width, rest) = open_additive(c, rest)?;
    let (both, rest) = close(inside, rest)?;
    let node = TyNode::Sized { family, width };
    Ok((word_type(c.alloc, p, node, both)?, rest))
}

#[tactic(auto, unfolding(scc_grammar_spec::specs::ParseExpressions::base_by))]
#[cycle(expression)]
pub fn holder_rest<'a>(
    c: Reader,
    inside: bool,
    holder: Holder,
    p: Place,
    ts: &'a [Seen],
) -> Read<'a, TypeRead>
    ensures { Gives (λ x. (x.0, x.1.now)) result (e.base_by c.entry.names.now (inner c.entry.names.now c.entry.levels) inside (f.holder_start holder) p ts.now) }
{
    let (_, rest) = less(ts)?;
    let (of, rest) = open_type(c, rest)?;
    let (both, rest) = close_unless(of.both, inside, rest)?;
    let node = held(holder, of.ty);
    Ok((word_type(c.alloc, p, node, both)?, rest))
}

/// A type without `const`.
#[tactic(auto, unfolding(scc_grammar_spec::specs::ParseExpressions::base_at, scc_grammar_spec::specs::ParseExpressions::base_by))]
#[cycle(expression)]
pub fn base_at<'a>(c: Reader, inside: bool, ts: &'a [Seen]) -> Read<'a, TypeRead>
    ensures { Gives (λ x. (x.0, x.1.now)) result (e.base_at c.entry.names.now (inner c.entry.names.now c.entry.levels) inside ts.now) }
{
    let [t, rest @ ..] = ts else {
        return Err(Halt::Unexpected(None));
    };
    let p = t.place;
    match t.terminal {
        Terminal::Bool => number_type(c.alloc, p, Kind::Bool, rest),
        Terminal::Int => number_type(c.alloc, p, native(32, true), rest),
        Terminal::Long(signed) => number_type(c.alloc, p, native(64, signed), rest),
        Terminal::Short => short_type(c.alloc, p, rest),
        Terminal::Signed => integer_type(c.alloc, p, true, rest),
        Terminal::Unsigned => integer_type(c.alloc, p, false, rest),
        Terminal::Sized(family) => sized_rest(c, inside, family, p, rest),
        Terminal::Holder(holder) => holder_rest(c, inside, holder, p, rest),
        Terminal::ClockInput => Ok((clock_type(c.alloc, p)?, rest)),
        Terminal::ModuleName => Ok((word_type(c.alloc, p, TyNode::ModuleName, false)?, rest)),
        Terminal::Ident(x) if c.names.is_type(x) => named_by(c, inside, x, p, rest),
        _ => Err(Halt::Unexpected(place_of(ts))),
    }
}

/// A type; `inside` says whether it stands in a list between angle brackets.
#[tactic(auto, unfolding(scc_grammar_spec::specs::ParseExpressions::type_at))]
#[cycle(expression)]
pub fn type_at<'a>(c: Reader, inside: bool, ts: &'a [Seen]) -> Read<'a, TypeRead>
    ensures { Gives (λ x. (x.0, x.1.now)) result (e.type_at c.entry.names.now (inner c.entry.names.now c.entry.levels) inside ts.now) }
{
    if begins_constant(ts) {
        let (p, rest) = constant(ts)?;
        let (of, rest) = base_at(c, inside, rest)?;
        return Ok((constant_type(p, of), rest));
    }
    base_at(c, inside, ts)
}

#[tactic(auto, unfolding(scc_grammar_spec::specs::ParseExpressions::after_arg_type))]
#[cycle(expression)]
pub fn after_arg_type<'a>(c: Reader, of: TypeRead, ts: &'a [Seen]) -> Read<'a, (TyArg, bool)>
    ensures { Gives (λ x. (x.0, x.1.now)) result (e.after_arg_type c.entry.names.now (inner c.entry.names.now c.entry.levels) of ts.now) }
{
    if of.both || is_constant(of.sort) {
        let both = of.both;
        return Ok(((TyArg::Named(of.ty), both), ts));
    }
    if goes_on(ts) {
        let p = of.place;
        let (first, rest) = postfix_of(c, of, ts)?;
        let (of, rest) = chain_after(c, 2, p, first, rest)?;
        return Ok(((TyArg::Value(of), false), rest));
    }
    Ok(((TyArg::Named(of.ty), false), ts))
}

#[tactic(auto, unfolding(scc_grammar_spec::specs::ParseExpressions::ty_arg))]
#[cycle(expression)]
pub fn ty_arg<'a>(c: Reader, ts: &'a [Seen]) -> Read<'a, (TyArg, bool)>
    ensures { Gives (λ x. (x.0, x.1.now)) result (e.ty_arg c.entry.names.now (inner c.entry.names.now c.entry.levels) ts.now) }
{
    if begins_type(c.names, ts) {
        let (of, rest) = type_at(c, true, ts)?;
        return after_arg_type(c, of, rest);
    }
    let (of, rest) = additive(c, ts)?;
    Ok(((TyArg::Value(of), false), rest))
}
