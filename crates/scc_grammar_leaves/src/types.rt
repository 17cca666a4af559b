//! Types that hold no others, and what stands beside a type.
ghost use Rattle.std.specs.Prelude.{◌≡◌, IfOk, true, false, not, ◌&&◌};
ghost use Rattle.scc_grammar_terminals.specs.Answer.{Gives};
ghost use Rattle.scc_grammar_terminals.specs.Marks as m;
ghost use Rattle.scc_grammar_terminals.specs.Nodes as nodes;
ghost use Rattle.scc_grammar_spec.specs.ParseExpressions as e;
ghost use Rattle.scc_grammar_spec.specs.ParseStatements as s;
ghost use Rattle.scc_reading.specs.Reading.{and_then, pure, is_next};

use scc_base::{NoMemory, Place};
use scc_bits::Kind;
use scc_grammar_terminals::marks::{and_mark, star_mark};
use scc_grammar_terminals::next::{
    begins_and_mark, begins_char, begins_int, begins_short, begins_star_mark,
};
use scc_grammar_terminals::nodes::{base_of, constant_of};
use scc_grammar_terminals::part::{Sort, TypeRead};
use scc_grammar_terminals::reader::Read;
use scc_grammar_terminals::terminal::{Seen, Terminal};
use scc_grammar_terminals::words::{char, int, short};
use scc_tree::{Hold, TyNode};
use std::alloc::Global;

/// An `int` that may stand there.
#[tactic(auto, unfolding(scc_grammar_spec::specs::ParseExpressions::int_word))]
pub fn int_word(ts: &[Seen]) -> Read<'_, ()>
    ensures { Gives (λ x. (x.0, x.1.now)) result (e.int_word ts.now) }
{
    if !begins_int(ts) {
        return Ok(((), ts));
    }
    let (_, rest) = int(ts)?;
    Ok(((), rest))
}

/// The kind of a number of this many bits.
pub fn native(bits: u8, signed: bool) -> Kind
    ensures { result ≡ nodes.native bits signed }
{
    Kind::Native { bits, signed }
}

/// What may stand behind `signed` or `unsigned`.
#[tactic(auto, unfolding(scc_grammar_spec::specs::ParseExpressions::integer))]
pub fn integer(signed: bool, ts: &[Seen]) -> Read<'_, Kind>
    ensures { Gives (λ x. (x.0, x.1.now)) result (e.integer signed ts.now) }
{
    if begins_int(ts) {
        let (_, rest) = int(ts)?;
        return Ok((native(32, signed), rest));
    }
    if begins_short(ts) {
        let (_, rest) = short(ts)?;
        let (_, rest) = int_word(rest)?;
        return Ok((native(16, signed), rest));
    }
    if begins_char(ts) {
        let (_, rest) = char(ts)?;
        return Ok((native(8, signed), rest));
    }
    Ok((native(32, signed), ts))
}

/// A type that begins with a keyword; `both` says whether its end closed the list around it, too.
pub fn word_type(
    alloc: Global,
    place: Place,
    node: TyNode,
    both: bool,
) -> Result<TypeRead, NoMemory>
    ensures { IfOk result (λ t. t ≡ e.word_type place (nodes.base_of place node) both) }
{
    Ok(TypeRead {
        place,
        ty: base_of(alloc, place, node)?,
        sort: Sort::Word,
        both,
    })
}

/// A type that begins with a name; `both` is as in `word_type`.
pub fn named_type(
    alloc: Global,
    place: Place,
    node: TyNode,
    both: bool,
) -> Result<TypeRead, NoMemory>
    ensures { IfOk result (λ t. t ≡ e.named_type place (nodes.base_of place node) both) }
{
    Ok(TypeRead {
        place,
        ty: base_of(alloc, place, node)?,
        sort: Sort::Named,
        both,
    })
}

/// The type of a clock input, which is that of an input of `bool`.
pub fn clock_type(alloc: Global, place: Place) -> Result<TypeRead, NoMemory>
    ensures { IfOk result (λ t. t ≡ e.word_type place (nodes.clock_of place) false) }
{
    let of = base_of(alloc, place, TyNode::Number(Kind::Bool))?;
    word_type(alloc, place, TyNode::Input(of), false)
}

/// Whether one more argument follows, where the last one may have closed the list.
pub fn follows(closed: bool, ts: &[Seen]) -> bool
    ensures { result ≡ is_next (λ s. not closed && m.comma s.terminal) ts.now }
{
    match ts {
        [t, ..] => !closed && matches!(t.terminal, Terminal::Comma),
        [] => false,
    }
}

/// A number's type, which is read.
pub fn number_type(alloc: Global, place: Place, kind: Kind, ts: &[Seen]) -> Read<'_, TypeRead>
    ensures { Gives (λ x. (x.0, x.1.now)) result (pure (e.number_type place kind) ts.now) }
{
    Ok((word_type(alloc, place, TyNode::Number(kind), false)?, ts))
}

/// The rest of a `short`.
pub fn short_type(alloc: Global, place: Place, ts: &[Seen]) -> Read<'_, TypeRead>
    ensures { Gives (λ x. (x.0, x.1.now)) result (and_then (e.int_word ts.now) (λ _. pure (e.number_type place (nodes.native 16 true)))) }
{
    let (_, rest) = int_word(ts)?;
    number_type(alloc, place, native(16, true), rest)
}

/// The rest of a `signed` or `unsigned`.
pub fn integer_type(alloc: Global, place: Place, signed: bool, ts: &[Seen]) -> Read<'_, TypeRead>
    ensures { Gives (λ x. (x.0, x.1.now)) result (and_then (e.integer signed ts.now) (λ k. pure (e.number_type place k))) }
{
    let (kind, rest) = integer(signed, ts)?;
    number_type(alloc, place, kind, rest)
}

/// The type with a `const` at the place before it.
pub fn constant_type(place: Place, of: TypeRead) -> TypeRead
    ensures { result ≡ e.constant_type place of }
{
    TypeRead {
        place,
        ty: constant_of(place, of.ty),
        sort: Sort::Constant,
        both: of.both,
    }
}

/// Whether a type began with `const`.
pub fn is_constant(sort: Sort) -> bool
    ensures { result ≡ e.is_constant sort }
{
    matches!(sort, Sort::Constant)
}

/// Whether a type began with a name.
pub fn is_named(sort: Sort) -> bool
    ensures { result ≡ e.is_named sort }
{
    matches!(sort, Sort::Named)
}

/// What may stand before a declared name.
#[tactic(auto, unfolding(scc_grammar_spec::specs::ParseStatements::hold_at))]
pub fn hold_at(ts: &[Seen]) -> Read<'_, Hold>
    ensures { Gives (λ x. (x.0, x.1.now)) result (s.hold_at ts.now) }
{
    if begins_star_mark(ts) {
        let (_, rest) = star_mark(ts)?;
        return Ok((Hold::Pointer, rest));
    }
    if begins_and_mark(ts) {
        let (_, rest) = and_mark(ts)?;
        return Ok((Hold::Reference, rest));
    }
    Ok((Hold::Direct, ts))
}
