//! Functions and constructors, after their names.
ghost use Rattle.scc_grammar_terminals.specs.Answer.{Gives};
ghost use Rattle.scc_grammar_spec.specs.ParseItems as p;

use scc_base::{List, Name, Place};
use scc_grammar_declarations::function::{constructor_of, function_item, function_of};
use scc_grammar_declarations::initialisers::inits;
use scc_grammar_declarations::parameters::{prms, qualifier};
use scc_grammar_statements::stmt::block_of;
use scc_grammar_terminals::marks::{paren_close, paren_open, semicolon};
use scc_grammar_terminals::next::begins_semicolon;
use scc_grammar_terminals::reader::{Read, Reader};
use scc_grammar_terminals::terminal::Seen;
use scc_tree::{Item, Stmt, Ty};

/// A body, or the end of a declaration without one.
#[tactic(auto, unfolding(scc_grammar_spec::specs::ParseItems::body))]
pub fn body<'a>(c: Reader, ts: &'a [Seen]) -> Read<'a, Option<List<Stmt>>>
    ensures { Gives (λ x. (x.0, x.1.now)) result (p.body c.entry.levels c.entry.names.now ts.now) }
{
    if begins_semicolon(ts) {
        let (_, rest) = semicolon(ts)?;
        return Ok((None, rest));
    }
    let (of, rest) = block_of(c, ts)?;
    Ok((Some(of), rest))
}

/// The rest of a function, after its name.
#[tactic(auto, unfolding(scc_grammar_spec::specs::ParseItems::function_rest))]
pub fn function_rest<'a>(
    c: Reader,
    gives: Option<Ty>,
    x: (Name, Place),
    ts: &'a [Seen],
) -> Read<'a, Item>
    ensures { Gives (λ x. (x.0, x.1.now)) result (p.function_rest c.entry.levels c.entry.names.now gives x ts.now) }
{
    let (_, rest) = paren_open(ts)?;
    let (params, rest) = prms(c, rest)?;
    let (_, rest) = paren_close(rest)?;
    let (_, rest) = qualifier(rest)?;
    let (of, rest) = body(c, rest)?;
    Ok((
        function_item(function_of(c.alloc, x, gives, params, of)),
        rest,
    ))
}

/// The rest of a constructor, after its name.
#[tactic(auto, unfolding(scc_grammar_spec::specs::ParseItems::constructor_rest))]
pub fn constructor_rest<'a>(c: Reader, x: (Name, Place), ts: &'a [Seen]) -> Read<'a, Item>
    ensures { Gives (λ x. (x.0, x.1.now)) result (p.constructor_rest c.entry.levels c.entry.names.now x ts.now) }
{
    let (_, rest) = paren_open(ts)?;
    let (params, rest) = prms(c, rest)?;
    let (_, rest) = paren_close(rest)?;
    let (found, rest) = inits(c, rest)?;
    let (of, rest) = body(c, rest)?;
    Ok((function_item(constructor_of(x, params, found, of)), rest))
}
