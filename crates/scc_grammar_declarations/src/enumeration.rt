//! Enumerations and definitions of types.
ghost use Rattle.std.specs.Prelude.{◌≡◌, ◌∷◌, [], Some, None, IfOk};
ghost use Rattle.scc_grammar_terminals.specs.Answer.{Gives, onto};
ghost use Rattle.scc_grammar_spec.specs.Bodies.{item_of};
ghost use Rattle.scc_grammar_spec.specs.ParseItems as p;
ghost use Rattle.scc_grammar_terminals.specs.Text.{identifier, next_is, next_says};
ghost use Rattle.scc_reading.specs.Reading.{is_next, repeat};
ghost use Rattle.scc_grammar_terminals.specs.Marks as m;

use scc_base::{List, Name, Place};
use scc_grammar_expressions::chain::expr;
use scc_grammar_expressions::types::type_at;
use scc_grammar_leaves::first::name_at;
use scc_grammar_terminals::marks::{assign, brace_close, brace_open, comma, semicolon};
use scc_grammar_terminals::next::{begins_assign, begins_comma};
use scc_grammar_terminals::nodes::one;
use scc_grammar_terminals::reader::{Read, Reader};
use scc_grammar_terminals::table::Table;
use scc_grammar_terminals::terminal::{Seen, Terminal};
use scc_tree::{Enumerator, Expr, Item, ItemNode};
use std::alloc::Global;

// What may stand behind a name as its value.
#[tactic(auto, unfolding(scc_grammar_spec::specs::ParseItems::value))]
fn value<'a>(c: Reader, ts: &'a [Seen]) -> Read<'a, Option<Expr>>
    ensures { Gives (λ x. (x.0, x.1.now)) result (p.value c.entry.levels c.entry.names.now ts.now) }
{
    if begins_assign(ts) {
        let (_, rest) = assign(ts)?;
        let (of, rest) = expr(c, rest)?;
        return Ok((Some(of), rest));
    }
    Ok((None, ts))
}

#[tactic(auto, unfolding(scc_grammar_spec::specs::ParseItems::enumerator))]
fn enumerator<'a>(c: Reader, ts: &'a [Seen]) -> Read<'a, Enumerator>
    ensures { Gives (λ x. (x.0, x.1.now)) result (p.enumerator c.entry.levels c.entry.names.now ts.now) }
{
    let ((name, place), rest) = name_at(ts)?;
    let (value, rest) = value(c, rest)?;
    Ok((Enumerator { place, name, value }, rest))
}

fn one_enumerator<'a>(c: Reader, ts: &'a [Seen]) -> Read<'a, Enumerator>
    ensures { Gives (λ x. (x.0, x.1.now)) result (p.one_enumerator c.entry.levels c.entry.names.now ts.now) }
{
    let (_, rest) = comma(ts)?;
    enumerator(c, rest)
}

fn more_enumerators<'a>(
    c: Reader,
    found: List<Enumerator>,
    ts: &'a [Seen],
) -> Read<'a, List<Enumerator>>
    ensures { Gives (λ x. (x.0, x.1.now)) result (onto found (repeat (next_is m.comma) (p.one_enumerator c.entry.levels c.entry.names.now)) ts.now) }
{
    let mut found = found;
    let mut rest = ts;
    while begins_comma(rest) {
        let (next, after) = one_enumerator(c, rest)?;
        found.push(next)?;
        rest = after;
    }
    Ok((found, rest))
}

// The names of an enumeration, in braces.
#[tactic(auto, unfolding(scc_grammar_spec::specs::ParseItems::numbers))]
fn numbers<'a>(c: Reader, ts: &'a [Seen]) -> Read<'a, List<Enumerator>>
    ensures { Gives (λ x. (x.0, x.1.now)) result (p.numbers c.entry.levels c.entry.names.now ts.now) }
{
    let (_, rest) = brace_open(ts)?;
    let (first, rest) = enumerator(c, rest)?;
    let found = one(c.alloc, first)?;
    let (found, rest) = more_enumerators(c, found, rest)?;
    let (_, rest) = brace_close(rest)?;
    let (_, rest) = semicolon(rest)?;
    Ok((found, rest))
}

/// An item of a name, which stands at the place.
pub fn named_item(place: Place, name: Name, node: ItemNode) -> Item
    ensures { result ≡ item_of place (Some name) node }
{
    Item {
        place,
        name: Some(name),
        node,
    }
}

/// A definition of a type, behind its word.
#[tactic(auto, unfolding(scc_grammar_spec::specs::ParseItems::alias))]
pub fn alias<'a>(alloc: Global, names: &mut Table, levels: u32, ts: &'a [Seen]) -> Read<'a, Item>
    ensures { Gives (λ x. ((names.new, x.0), x.1.now)) result (p.alias levels names.old ts.now) }
{
    let c = Reader {
        alloc,
        names,
        levels,
    };
    let (of, rest) = type_at(c, false, ts)?;
    let ((x, p), rest) = name_at(rest)?;
    let (_, rest) = semicolon(rest)?;
    names.add_type(x)?;
    Ok((named_item(p, x, ItemNode::Alias(of.ty)), rest))
}

/// An enumeration, behind its word, which stands at the place.
#[tactic(auto, unfolding(scc_grammar_spec::specs::ParseItems::enumeration))]
pub fn enumeration<'a>(
    alloc: Global,
    names: &mut Table,
    levels: u32,
    w: Place,
    ts: &'a [Seen],
) -> Read<'a, Item>
    ensures { Gives (λ x. ((names.new, x.0), x.1.now)) result (p.enumeration levels names.old w ts.now) }
{
    if begins_name(ts) {
        let ((x, p), rest) = name_at(ts)?;
        names.add_type(x)?;
        let c = Reader {
            alloc,
            names,
            levels,
        };
        let (of, rest) = numbers(c, rest)?;
        return Ok((named_item(p, x, ItemNode::Numbers(of)), rest));
    }
    let c = Reader {
        alloc,
        names,
        levels,
    };
    let (of, rest) = numbers(c, ts)?;
    let item = Item {
        place: w,
        name: None,
        node: ItemNode::Numbers(of),
    };
    Ok((item, rest))
}

/// Whether an identifier comes next.
pub fn begins_name(ts: &[Seen]) -> bool
    ensures { result ≡ is_next (next_says identifier) ts.now }
{
    matches!(
        ts,
        [
            Seen {
                terminal: Terminal::Ident(_),
                ..
            },
            ..
        ]
    )
}
