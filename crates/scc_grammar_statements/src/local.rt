//! Declared names and local variables.
ghost use Rattle.std.specs.Prelude.{◌≡◌};
ghost use Rattle.scc_grammar_terminals.specs.Answer.{Gives, onto};
ghost use Rattle.scc_grammar_terminals.specs.Names as names;
ghost use Rattle.scc_grammar_spec.specs.ParseStatements as s;
ghost use Rattle.scc_grammar_spec.specs.ParseStatements.{inner};
ghost use Rattle.scc_grammar_terminals.specs.StatementNodes as nodes;
ghost use Rattle.scc_grammar_terminals.specs.Text.{next_is};
ghost use Rattle.scc_reading.specs.Reading.{is_next};

use scc_base::{List, Name, Place};
use scc_grammar_expressions::chain::expr;
use scc_grammar_expressions::opening::open_expr;
use scc_grammar_leaves::first::name_at;
use scc_grammar_leaves::types::hold_at;
use scc_grammar_terminals::marks::{
    assign, bracket_close, bracket_open, comma, paren_close, paren_open,
};
use scc_grammar_terminals::next::{
    begins_and_mark, begins_assign, begins_bracket_open, begins_comma, begins_paren_open,
    begins_star_mark,
};
use scc_grammar_terminals::nodes::one;
use scc_grammar_terminals::reader::{Read, Reader};
use scc_grammar_terminals::terminal::Seen;
use scc_tree::{Decl, Expr, Hold, LocalDecl, LocalTree, Ty};

pub fn begins_hold(ts: &[Seen]) -> bool
    ensures { result ≡ is_next (next_is s.begins_hold) ts.now }
{
    begins_star_mark(ts) || begins_and_mark(ts)
}

pub fn decl_of(hold: Hold, x: (Name, Place), sizes: List<Expr>) -> Decl
    ensures { result ≡ nodes.decl_of hold x sizes }
{
    let (name, place) = x;
    Decl {
        place,
        name,
        hold,
        sizes,
    }
}

pub fn one_size<'a>(c: Reader, ts: &'a [Seen]) -> Read<'a, Expr>
    ensures { Gives (λ x. (x.0, x.1.now)) result (s.one_size c.entry.names.now (inner c.entry.names.now c.entry.levels) ts.now) }
{
    let (_, rest) = bracket_open(ts)?;
    let (of, rest) = open_expr(c, rest)?;
    let (_, rest) = bracket_close(rest)?;
    Ok((of, rest))
}

/// The sizes of an array behind its name.
pub fn sizes<'a>(c: Reader, ts: &'a [Seen]) -> Read<'a, List<Expr>>
    ensures { Gives (λ x. (x.0, x.1.now)) result (s.sizes c.entry.names.now (inner c.entry.names.now c.entry.levels) ts.now) }
{
    let mut found = List::new(c.alloc);
    let mut rest = ts;
    while begins_bracket_open(rest) {
        let (next, after) = one_size(c, rest)?;
        found.push(next)?;
        rest = after;
    }
    Ok((found, rest))
}

#[tactic(auto, unfolding(scc_grammar_spec::specs::ParseStatements::decl_after))]
pub fn decl_after<'a>(c: Reader, hold: Hold, ts: &'a [Seen]) -> Read<'a, Decl>
    ensures { Gives (λ x. (x.0, x.1.now)) result (s.decl_after c.entry.names.now (inner c.entry.names.now c.entry.levels) hold ts.now) }
{
    let (x, rest) = name_at(ts)?;
    let (found, rest) = sizes(c, rest)?;
    Ok((decl_of(hold, x, found), rest))
}

/// A declared name with the sizes of its arrays.
#[tactic(auto, unfolding(scc_grammar_spec::specs::ParseStatements::decl))]
pub fn decl<'a>(c: Reader, ts: &'a [Seen]) -> Read<'a, Decl>
    ensures { Gives (λ x. (x.0, x.1.now)) result (s.decl c.entry.names.now (inner c.entry.names.now c.entry.levels) ts.now) }
{
    let (hold, rest) = hold_at(ts)?;
    decl_after(c, hold, rest)
}

/// An expression in brackets.
#[tactic(auto, unfolding(scc_grammar_spec::specs::ParseStatements::condition))]
pub fn condition<'a>(c: Reader, ts: &'a [Seen]) -> Read<'a, Expr>
    ensures { Gives (λ x. (x.0, x.1.now)) result (s.condition c.entry.names.now (inner c.entry.names.now c.entry.levels) ts.now) }
{
    let (_, rest) = paren_open(ts)?;
    let (of, rest) = open_expr(c, rest)?;
    let (_, rest) = paren_close(rest)?;
    Ok((of, rest))
}

#[tactic(auto, unfolding(scc_grammar_spec::specs::ParseStatements::value))]
pub fn value<'a>(c: Reader, ts: &'a [Seen]) -> Read<'a, Option<Expr>>
    ensures { Gives (λ x. (x.0, x.1.now)) result (s.value c.entry.names.now (inner c.entry.names.now c.entry.levels) ts.now) }
{
    if begins_assign(ts) {
        let (_, rest) = assign(ts)?;
        let (of, rest) = expr(c, rest)?;
        return Ok((Some(of), rest));
    }
    if begins_paren_open(ts) {
        let (of, rest) = condition(c, ts)?;
        return Ok((Some(of), rest));
    }
    Ok((None, ts))
}

#[tactic(auto, unfolding(scc_grammar_spec::specs::ParseStatements::local_decl))]
pub fn local_decl<'a>(c: Reader, ts: &'a [Seen]) -> Read<'a, LocalDecl>
    ensures { Gives (λ x. (x.0, x.1.now)) result (s.local_decl c.entry.names.now (inner c.entry.names.now c.entry.levels) ts.now) }
{
    let (decl, rest) = decl(c, ts)?;
    let (value, rest) = value(c, rest)?;
    Ok((LocalDecl { decl, value }, rest))
}

pub fn one_local<'a>(c: Reader, ts: &'a [Seen]) -> Read<'a, LocalDecl>
    ensures { Gives (λ x. (x.0, x.1.now)) result (s.one_local c.entry.names.now (inner c.entry.names.now c.entry.levels) ts.now) }
{
    let (_, rest) = comma(ts)?;
    local_decl(c, rest)
}

pub fn more_locals<'a>(
    c: Reader,
    found: List<LocalDecl>,
    ts: &'a [Seen],
) -> Read<'a, List<LocalDecl>>
    ensures { Gives (λ x. (x.0, x.1.now)) result (onto found (s.more_locals c.entry.names.now (inner c.entry.names.now c.entry.levels)) ts.now) }
{
    let mut found = found;
    let mut rest = ts;
    while begins_comma(rest) {
        let (next, after) = one_local(c, rest)?;
        found.push(next)?;
        rest = after;
    }
    Ok((found, rest))
}

/// Local variables behind their type.
#[tactic(auto, unfolding(scc_grammar_spec::specs::ParseStatements::local_after))]
pub fn local_after<'a>(c: Reader, ty: Ty, ts: &'a [Seen]) -> Read<'a, LocalTree>
    ensures { Gives (λ x. (x.0, x.1.now)) result (s.local_after c.entry.names.now (inner c.entry.names.now c.entry.levels) ty ts.now) }
{
    let (first, rest) = local_decl(c, ts)?;
    let names = one(c.alloc, first)?;
    let (names, rest) = more_locals(c, names, rest)?;
    Ok((LocalTree { ty, names }, rest))
}
