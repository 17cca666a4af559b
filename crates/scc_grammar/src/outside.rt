//! Functions, constants and bodies outside their class, in files.
ghost use Rattle.scc_grammar_terminals.specs.Answer.{Gives};
ghost use Rattle.scc_grammar_spec.specs.ParseItems as p;

use crate::function::function_rest;
use scc_base::{List, Name, Place};
use scc_grammar_declarations::enumeration::begins_name;
use scc_grammar_declarations::front::{before_constant, before_outside, is_first_name};
use scc_grammar_declarations::function::{
    constant_rest, constant_twice, constructor_of, function_of, named_args, named_of, or_none,
    outside_item,
};
use scc_grammar_declarations::initialisers::inits;
use scc_grammar_declarations::parameters::{prms, qualifier};
use scc_grammar_expressions::types::{base_at, type_at};
use scc_grammar_leaves::first::name_at;
use scc_grammar_leaves::types::{constant_type, is_constant};
use scc_grammar_statements::stmt::block_of;
use scc_grammar_terminals::halt::{Halt, place_of};
use scc_grammar_terminals::marks::{paren_close, paren_open, scope};
use scc_grammar_terminals::next::{
    begins_assign, begins_constant, begins_inline_word, begins_paren_open, begins_scope,
    begins_void_word,
};
use scc_grammar_terminals::part::TypeRead;
use scc_grammar_terminals::reader::{Read, Reader};
use scc_grammar_terminals::terminal::Seen;
use scc_grammar_terminals::words::{constant, inline_word, void_word};
use scc_tree::{Item, Param, Ty, TyArg};

/// The rest of a function outside its class, after the class's name.
#[tactic(auto, unfolding(scc_grammar_spec::specs::ParseItems::outside_function))]
fn outside_function<'a>(
    c: Reader,
    of_template: List<Param>,
    gives: Option<Ty>,
    x: (Name, Place),
    ts: &'a [Seen],
) -> Read<'a, Item>
    ensures { Gives (λ x. (x.0, x.1.now)) result (p.outside_function c.entry.levels c.entry.names.now of_template gives x ts.now) }
{
    let (args, rest) = named_args(c, x.0, ts)?;
    let (_, rest) = scope(rest)?;
    let (y, rest) = name_at(rest)?;
    let (_, rest) = paren_open(rest)?;
    let (params, rest) = prms(c, rest)?;
    let (_, rest) = paren_close(rest)?;
    let (_, rest) = qualifier(rest)?;
    let (of, rest) = block_of(c, rest)?;
    let function = function_of(c.alloc, y, gives, params, Some(of));
    let args = or_none(c.alloc, args);
    Ok((outside_item(x.1, of_template, x.0, args, function), rest))
}

/// The rest of a constructor outside its class, after the class's name and its arguments.
#[tactic(auto, unfolding(scc_grammar_spec::specs::ParseItems::outside_constructor))]
fn outside_constructor<'a>(
    c: Reader,
    of_template: List<Param>,
    x: (Name, Place),
    args: Option<List<TyArg>>,
    ts: &'a [Seen],
) -> Read<'a, Item>
    ensures { Gives (λ x. (x.0, x.1.now)) result (p.outside_constructor c.entry.levels c.entry.names.now of_template x args ts.now) }
{
    let (_, rest) = scope(ts)?;
    let (y, rest) = name_at(rest)?;
    let (_, rest) = paren_open(rest)?;
    let (params, rest) = prms(c, rest)?;
    let (_, rest) = paren_close(rest)?;
    let (found, rest) = inits(c, rest)?;
    let (of, rest) = block_of(c, rest)?;
    let function = constructor_of(y, params, found, Some(of));
    let args = or_none(c.alloc, args);
    Ok((outside_item(x.1, of_template, x.0, args, function), rest))
}

// After the name that follows a type, or `void`.
#[tactic(auto, unfolding(scc_grammar_spec::specs::ParseItems::named_function))]
fn named_function<'a>(
    c: Reader,
    found: &[bool],
    gives: Option<Ty>,
    x: (Name, Place),
    ts: &'a [Seen],
) -> Read<'a, Item>
    ensures { Gives (λ x. (x.0, x.1.now)) result (p.named_function c.entry.levels c.entry.names.now found.now gives x ts.now) }
{
    if before_outside(found) {
        if begins_paren_open(ts) {
            return function_rest(c, gives, x, ts);
        }
        return outside_function(c, List::new(c.alloc), gives, x, ts);
    }
    function_rest(c, gives, x, ts)
}

// After a type.
#[tactic(auto, unfolding(scc_grammar_spec::specs::ParseItems::typed))]
fn typed<'a>(c: Reader, found: &[bool], of: TypeRead, ts: &'a [Seen]) -> Read<'a, Item>
    ensures { Gives (λ x. (x.0, x.1.now)) result (p.typed c.entry.levels c.entry.names.now found.now of ts.now) }
{
    let (x, rest) = name_at(ts)?;
    if is_constant(of.sort) && before_constant(found) {
        if begins_assign(rest) {
            return constant_rest(c, of.ty, x, rest);
        }
        return named_function(c, found, Some(of.ty), x, rest);
    }
    named_function(c, found, Some(of.ty), x, rest)
}

// After a `const`, which stands at the place.
#[tactic(auto, unfolding(scc_grammar_spec::specs::ParseItems::constant_by))]
fn constant_by<'a>(c: Reader, found: &[bool], q: Place, ts: &'a [Seen]) -> Read<'a, Item>
    ensures { Gives (λ x. (x.0, x.1.now)) result (p.constant_by c.entry.levels c.entry.names.now found.now q ts.now) }
{
    if before_constant(found) && begins_constant(ts) {
        let (_, rest) = constant(ts)?;
        return constant_twice(c, q, rest);
    }
    let (of, rest) = base_at(c, false, ts)?;
    typed(c, found, constant_type(q, of), rest)
}

// What begins with a name.
#[tactic(auto, unfolding(scc_grammar_spec::specs::ParseItems::by_name))]
fn by_name<'a>(c: Reader, ts: &'a [Seen]) -> Read<'a, Item>
    ensures { Gives (λ x. (x.0, x.1.now)) result (p.by_name c.entry.levels c.entry.names.now ts.now) }
{
    let (x, rest) = name_at(ts)?;
    let (args, rest) = named_args(c, x.0, rest)?;
    if begins_scope(rest) {
        return outside_constructor(c, List::new(c.alloc), x, args, rest);
    }
    if c.names.is_type(x.0) {
        return typed(c, &[], named_of(c.alloc, x, args)?, rest);
    }
    Err(Halt::Unexpected(place_of(rest)))
}

/// A function, a constant or a body outside its class, after `static` and `inline`.
#[tactic(auto, unfolding(scc_grammar_spec::specs::ParseItems::fronted))]
pub fn fronted<'a>(c: Reader, found: &[bool], ts: &'a [Seen]) -> Read<'a, Item>
    ensures { Gives (λ x. (x.0, x.1.now)) result (p.fronted c.entry.levels c.entry.names.now found.now ts.now) }
{
    if begins_void_word(ts) {
        let (_, rest) = void_word(ts)?;
        let (x, rest) = name_at(rest)?;
        return named_function(c, found, None, x, rest);
    }
    if begins_constant(ts) {
        let (q, rest) = constant(ts)?;
        return constant_by(c, found, q, rest);
    }
    if is_first_name(found, ts) {
        return by_name(c, ts);
    }
    let (of, rest) = base_at(c, false, ts)?;
    typed(c, found, of, rest)
}

// After the parameters of a template, and `inline`.
#[tactic(auto, unfolding(scc_grammar_spec::specs::ParseItems::outside_result))]
fn outside_result<'a>(c: Reader, params: List<Param>, ts: &'a [Seen]) -> Read<'a, Item>
    ensures { Gives (λ x. (x.0, x.1.now)) result (p.outside_result c.entry.levels c.entry.names.now params ts.now) }
{
    if begins_void_word(ts) {
        let (_, rest) = void_word(ts)?;
        let (x, rest) = name_at(rest)?;
        return outside_function(c, params, None, x, rest);
    }
    let (of, rest) = type_at(c, false, ts)?;
    let (x, rest) = name_at(rest)?;
    outside_function(c, params, Some(of.ty), x, rest)
}

#[tactic(auto, unfolding(scc_grammar_spec::specs::ParseItems::outside_name))]
fn outside_name<'a>(c: Reader, params: List<Param>, ts: &'a [Seen]) -> Read<'a, Item>
    ensures { Gives (λ x. (x.0, x.1.now)) result (p.outside_name c.entry.levels c.entry.names.now params ts.now) }
{
    let (x, rest) = name_at(ts)?;
    let (args, rest) = named_args(c, x.0, rest)?;
    if begins_scope(rest) {
        return outside_constructor(c, params, x, args, rest);
    }
    if c.names.is_type(x.0) {
        let of = named_of(c.alloc, x, args)?;
        let (y, rest) = name_at(rest)?;
        return outside_function(c, params, Some(of.ty), y, rest);
    }
    Err(Halt::Unexpected(place_of(rest)))
}

/// A body outside its class, after the parameters of a template.
#[tactic(auto, unfolding(scc_grammar_spec::specs::ParseItems::outside))]
pub fn outside<'a>(c: Reader, params: List<Param>, ts: &'a [Seen]) -> Read<'a, Item>
    ensures { Gives (λ x. (x.0, x.1.now)) result (p.outside c.entry.levels c.entry.names.now params ts.now) }
{
    if begins_inline_word(ts) {
        let (_, rest) = inline_word(ts)?;
        return outside_result(c, params, rest);
    }
    if begins_name(ts) {
        return outside_name(c, params, ts);
    }
    outside_result(c, params, ts)
}
