//! What stands before declarations.
ghost use Rattle.std.specs.Prelude.{◌≡◌};
ghost use Rattle.scc_grammar_terminals.specs.Answer.{Gives, onto};
ghost use Rattle.scc_grammar_spec.specs.ParseItems as p;
ghost use Rattle.scc_grammar_terminals.specs.Text.{next_says};
ghost use Rattle.scc_reading.specs.Reading.{is_next, repeat};

use crate::enumeration::begins_name;
use scc_base::List;
use scc_grammar_terminals::halt::{Halt, place_of};
use scc_grammar_terminals::reader::Read;
use scc_grammar_terminals::terminal::{Seen, Terminal};
use std::alloc::Global;

// `static` (true) or `inline` (false).
fn front(ts: &[Seen]) -> Read<'_, bool>
    ensures { Gives (λ x. (x.0, x.1.now)) result (p.one_front ts.now) }
{
    match ts {
        [
            Seen {
                terminal: Terminal::Static,
                ..
            },
            rest @ ..,
        ] => Ok((true, rest)),
        [
            Seen {
                terminal: Terminal::Inline,
                ..
            },
            rest @ ..,
        ] => Ok((false, rest)),
        _ => Err(Halt::Unexpected(place_of(ts))),
    }
}

fn begins_front(ts: &[Seen]) -> bool
    ensures { result ≡ is_next (next_says p.front) ts.now }
{
    matches!(
        ts,
        [
            Seen {
                terminal: Terminal::Static | Terminal::Inline,
                ..
            },
            ..
        ]
    )
}

fn more_fronts<'a>(found: List<bool>, ts: &'a [Seen]) -> Read<'a, List<bool>>
    ensures { Gives (λ x. (x.0, x.1.now)) result (onto found (repeat (next_says p.front) p.one_front) ts.now) }
{
    let mut found = found;
    let mut rest = ts;
    while begins_front(rest) {
        let (next, after) = front(rest)?;
        found.push(next)?;
        rest = after;
    }
    Ok((found, rest))
}

/// `static` and `inline`, each any number of times.
#[tactic(auto, unfolding(scc_grammar_spec::specs::ParseItems::fronts))]
pub fn fronts<'a>(alloc: Global, ts: &'a [Seen]) -> Read<'a, List<bool>>
    ensures { Gives (λ x. (x.0, x.1.now)) result (p.fronts ts.now) }
{
    more_fronts(List::new(alloc), ts)
}

/// Whether a constant may stand behind these.
pub fn before_constant(found: &[bool]) -> bool
    ensures { result ≡ p.before_constant found.now }
{
    matches!(found, [] | [true])
}

/// Whether a body outside its class may stand behind these.
pub fn before_outside(found: &[bool]) -> bool
    ensures { result ≡ p.before_outside found.now }
{
    matches!(found, [] | [false])
}

/// Whether a name comes next, with nothing before it.
pub fn is_first_name(found: &[bool], ts: &[Seen]) -> bool
    ensures { result ≡ is_next (p.is_first_name found.now) ts.now }
{
    match found {
        [] => begins_name(ts),
        [_, ..] => false,
    }
}
