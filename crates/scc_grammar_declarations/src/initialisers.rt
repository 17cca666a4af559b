//! Initialisers of constructors.
ghost use Rattle.scc_grammar_terminals.specs.Answer.{Gives, onto};
ghost use Rattle.scc_grammar_terminals.specs.Marks as m;
ghost use Rattle.scc_grammar_spec.specs.ParseItems as p;
ghost use Rattle.scc_grammar_terminals.specs.Text.{next_is, pick};
ghost use Rattle.scc_reading.specs.Reading.{repeat, token};

use scc_base::{List, Name, Place};
use scc_grammar_expressions::postfix::cargs;
use scc_grammar_terminals::halt::{Halt, place_of};
use scc_grammar_terminals::marks::{colon, comma, paren_close, paren_open};
use scc_grammar_terminals::next::{begins_colon, begins_comma};
use scc_grammar_terminals::nodes::one;
use scc_grammar_terminals::reader::{Read, Reader};
use scc_grammar_terminals::terminal::{Seen, Terminal};
use scc_tree::Init;

// The name of an initialiser, or none for `sc_module`.
fn init_start(ts: &[Seen]) -> Read<'_, (Option<Name>, Place)>
    ensures { Gives (λ x. (x.0, x.1.now)) result (token (pick p.init_start) ts.now) }
{
    match ts {
        [
            Seen {
                terminal: Terminal::Ident(x),
                place,
            },
            rest @ ..,
        ] => Ok(((Some(*x), *place), rest)),
        [
            Seen {
                terminal: Terminal::ModuleBase,
                place,
            },
            rest @ ..,
        ] => Ok(((None, *place), rest)),
        _ => Err(Halt::Unexpected(place_of(ts))),
    }
}

#[tactic(auto, unfolding(scc_grammar_spec::specs::ParseItems::init))]
fn init<'a>(c: Reader, ts: &'a [Seen]) -> Read<'a, Init>
    ensures { Gives (λ x. (x.0, x.1.now)) result (p.init c.entry.levels c.entry.names.now ts.now) }
{
    let ((name, place), rest) = init_start(ts)?;
    let (_, rest) = paren_open(rest)?;
    let (args, rest) = cargs(c, rest)?;
    let (_, rest) = paren_close(rest)?;
    Ok((Init { place, name, args }, rest))
}

fn one_init<'a>(c: Reader, ts: &'a [Seen]) -> Read<'a, Init>
    ensures { Gives (λ x. (x.0, x.1.now)) result (p.one_init c.entry.levels c.entry.names.now ts.now) }
{
    let (_, rest) = comma(ts)?;
    init(c, rest)
}

fn more_inits<'a>(c: Reader, found: List<Init>, ts: &'a [Seen]) -> Read<'a, List<Init>>
    ensures { Gives (λ x. (x.0, x.1.now)) result (onto found (repeat (next_is m.comma) (p.one_init c.entry.levels c.entry.names.now)) ts.now) }
{
    let mut found = found;
    let mut rest = ts;
    while begins_comma(rest) {
        let (next, after) = one_init(c, rest)?;
        found.push(next)?;
        rest = after;
    }
    Ok((found, rest))
}

/// The initialisers of a constructor, which may stand behind its parameters.
#[tactic(auto, unfolding(scc_grammar_spec::specs::ParseItems::inits))]
pub fn inits<'a>(c: Reader, ts: &'a [Seen]) -> Read<'a, List<Init>>
    ensures { Gives (λ x. (x.0, x.1.now)) result (p.inits c.entry.levels c.entry.names.now ts.now) }
{
    if begins_colon(ts) {
        let (_, rest) = colon(ts)?;
        let (first, rest) = init(c, rest)?;
        let found = one(c.alloc, first)?;
        return more_inits(c, found, rest);
    }
    Ok((List::new(c.alloc), ts))
}
