//! Heads of classes and modules (C++, [class]; IEEE 1666-2011, section 5.2).
ghost use Rattle.std.specs.Prelude.{◌≡◌, OnOk};
ghost use Rattle.scc_grammar_terminals.specs.Answer.{Gives};
ghost use Rattle.scc_grammar_spec.specs.Bodies as b;
ghost use Rattle.scc_grammar_spec.specs.Items as grammar;
ghost use Rattle.scc_grammar_spec.specs.ParseFile as p;
ghost use Rattle.scc_grammar_spec.specs.ParseItems as i;
ghost use Rattle.scc_grammar_terminals.specs.Text.{mark, next_is};
ghost use Rattle.scc_reading.specs.Reading.{is_next};

use scc_base::{List, Name, NoMemory, Place};
use scc_grammar_expressions::types::ty_args;
use scc_grammar_terminals::halt::{Halt, place_of};
use scc_grammar_terminals::marks::{colon, less};
use scc_grammar_terminals::next::{begins_colon, begins_less, begins_public_word};
use scc_grammar_terminals::reader::{Read, Reader};
use scc_grammar_terminals::table::Table;
use scc_grammar_terminals::terminal::{Seen, Terminal};
use scc_grammar_terminals::words::{module_base, public_word};
use scc_tree::{Param, TyArg};

/// Whether a class is a module, by what stands behind a `:`.
#[tactic(auto, unfolding(scc_grammar_spec::specs::ParseItems::bases))]
pub fn bases(ts: &[Seen]) -> Read<'_, bool>
    ensures { Gives (λ x. (x.0, x.1.now)) result (i.bases ts.now) }
{
    if begins_colon(ts) {
        let (_, rest) = colon(ts)?;
        if begins_public_word(rest) {
            let (_, rest) = public_word(rest)?;
            let (_, rest) = module_base(rest)?;
            return Ok((true, rest));
        }
        let (_, rest) = module_base(rest)?;
        return Ok((true, rest));
    }
    Ok((false, ts))
}

// Whether what follows is the head of a class behind `template<>`.
fn may_specialise(params: &Option<List<Param>>) -> bool
    ensures { result ≡ p.may_specialise params.now }
{
    match params {
        Some(list) => list.len() == 0,
        None => false,
    }
}

/// The arguments of a specialisation.
#[tactic(auto, unfolding(scc_grammar_spec::specs::ParseFile::special))]
pub fn special<'a>(
    c: Reader,
    params: &Option<List<Param>>,
    x: Name,
    ts: &'a [Seen],
) -> Read<'a, Option<List<TyArg>>>
    ensures { Gives (λ y. (y.0, y.1.now)) result (p.special c.entry.levels c.entry.names.now params.now x ts.now) }
{
    if may_specialise(params) && c.names.is_template(x) && begins_less(ts) {
        let (_, rest) = less(ts)?;
        let ((args, _), rest) = ty_args(c, false, rest)?;
        return Ok((Some(args), rest));
    }
    Ok((None, ts))
}

/// Declares a class, or a class template where it has parameters.
pub fn declare(names: &mut Table, params: &Option<List<Param>>, x: Name) -> Result<(), NoMemory>
    ensures { OnOk result (names.new ≡ b.declared names.old params.now x) }
{
    match params {
        Some(list) => {
            if list.len() > 0 {
                names.add_template(x)
            } else {
                names.add_type(x)
            }
        }
        None => names.add_type(x),
    }
}

/// The word of a class, and its place.
pub fn class_word(ts: &[Seen]) -> Read<'_, Place>
    ensures { Gives (λ x. (x.0, x.1.now)) result (mark grammar.class_word ts.now) }
{
    match ts {
        [
            Seen {
                terminal: Terminal::Class,
                place,
            },
            rest @ ..,
        ] => Ok((*place, rest)),
        [
            Seen {
                terminal: Terminal::Struct,
                place,
            },
            rest @ ..,
        ] => Ok((*place, rest)),
        _ => Err(Halt::Unexpected(place_of(ts))),
    }
}

/// Whether a class or a module comes next.
pub fn begins_class(ts: &[Seen]) -> bool
    ensures { result ≡ is_next (next_is i.begins_class) ts.now }
{
    matches!(
        ts,
        [
            Seen {
                terminal: Terminal::Module | Terminal::Class | Terminal::Struct,
                ..
            },
            ..
        ]
    )
}
