//! Parameters of functions.
ghost use Rattle.scc_grammar_terminals.specs.Answer.{Gives, onto};
ghost use Rattle.scc_grammar_terminals.specs.Marks as m;
ghost use Rattle.scc_grammar_spec.specs.ParseItems as p;
ghost use Rattle.scc_grammar_terminals.specs.Text.{next_is};
ghost use Rattle.scc_reading.specs.Reading.{repeat};

use scc_base::List;
use scc_grammar_expressions::types::type_at;
use scc_grammar_leaves::first::name_at;
use scc_grammar_leaves::types::hold_at;
use scc_grammar_terminals::marks::comma;
use scc_grammar_terminals::next::{
    begins_comma, begins_constant, begins_paren_close, begins_void_word,
};
use scc_grammar_terminals::nodes::one;
use scc_grammar_terminals::reader::{Read, Reader};
use scc_grammar_terminals::terminal::Seen;
use scc_grammar_terminals::words::{constant, void_word};
use scc_tree::Prm;

// A `const` that may stand behind the parameters.
#[tactic(auto, unfolding(scc_grammar_spec::specs::ParseItems::qualifier))]
pub fn qualifier(ts: &[Seen]) -> Read<'_, ()>
    ensures { Gives (λ x. (x.0, x.1.now)) result (p.qualifier ts.now) }
{
    if begins_constant(ts) {
        let (_, rest) = constant(ts)?;
        return Ok(((), rest));
    }
    Ok(((), ts))
}

#[tactic(auto, unfolding(scc_grammar_spec::specs::ParseItems::prm))]
fn prm<'a>(c: Reader, ts: &'a [Seen]) -> Read<'a, Prm>
    ensures { Gives (λ x. (x.0, x.1.now)) result (p.prm c.entry.levels c.entry.names.now ts.now) }
{
    let (of, rest) = type_at(c, false, ts)?;
    let (hold, rest) = hold_at(rest)?;
    let ((name, place), rest) = name_at(rest)?;
    let found = Prm {
        place,
        ty: of.ty,
        hold,
        name,
    };
    Ok((found, rest))
}

fn one_prm<'a>(c: Reader, ts: &'a [Seen]) -> Read<'a, Prm>
    ensures { Gives (λ x. (x.0, x.1.now)) result (p.one_prm c.entry.levels c.entry.names.now ts.now) }
{
    let (_, rest) = comma(ts)?;
    prm(c, rest)
}

fn more_prms<'a>(c: Reader, found: List<Prm>, ts: &'a [Seen]) -> Read<'a, List<Prm>>
    ensures { Gives (λ x. (x.0, x.1.now)) result (onto found (repeat (next_is m.comma) (p.one_prm c.entry.levels c.entry.names.now)) ts.now) }
{
    let mut found = found;
    let mut rest = ts;
    while begins_comma(rest) {
        let (next, after) = one_prm(c, rest)?;
        found.push(next)?;
        rest = after;
    }
    Ok((found, rest))
}

/// Parameters, between their brackets.
#[tactic(auto, unfolding(scc_grammar_spec::specs::ParseItems::prms))]
pub fn prms<'a>(c: Reader, ts: &'a [Seen]) -> Read<'a, List<Prm>>
    ensures { Gives (λ x. (x.0, x.1.now)) result (p.prms c.entry.levels c.entry.names.now ts.now) }
{
    if begins_paren_close(ts) {
        return Ok((List::new(c.alloc), ts));
    }
    if begins_void_word(ts) {
        let (_, rest) = void_word(ts)?;
        return Ok((List::new(c.alloc), rest));
    }
    let (first, rest) = prm(c, ts)?;
    let found = one(c.alloc, first)?;
    more_prms(c, found, rest)
}
