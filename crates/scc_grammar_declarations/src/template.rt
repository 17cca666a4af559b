//! Parameters of templates.
ghost use Rattle.std.specs.Prelude.{◌≡◌, ◌∷◌, ◌++◌, [], Some, None, true, false};
ghost use Rattle.scc_grammar_terminals.specs.Answer.{Gives, onto_in};
ghost use Rattle.scc_grammar_spec.specs.ParseFile as p;
ghost use Rattle.scc_grammar_spec.specs.ParseItems as i;
ghost use Rattle.scc_grammar_terminals.specs.Text.{pick};
ghost use Rattle.scc_reading.specs.Reading.{repeat_in, token};

use scc_base::{List, Name, Place};
use scc_grammar_expressions::chain::additive;
use scc_grammar_expressions::types::type_at;
use scc_grammar_leaves::first::{close_unless, name_at};
use scc_grammar_leaves::types::follows;
use scc_grammar_terminals::halt::{Halt, place_of};
use scc_grammar_terminals::marks::{assign, comma, greater, less};
use scc_grammar_terminals::next::{begins_assign, begins_greater};
use scc_grammar_terminals::nodes::one;
use scc_grammar_terminals::reader::{Read, Reader};
use scc_grammar_terminals::table::Table;
use scc_grammar_terminals::terminal::{Seen, Terminal};
use scc_tree::{Param, ParamSort, TyArg};
use std::alloc::Global;

// What a parameter stands for: a value of the sort, or a type.
fn param_start(ts: &[Seen]) -> Read<'_, (Option<ParamSort>, Place)>
    ensures { Gives (λ x. (x.0, x.1.now)) result (token (pick i.param_start) ts.now) }
{
    let [t, rest @ ..] = ts else {
        return Err(Halt::Unexpected(None));
    };
    match t.terminal {
        Terminal::Int => Ok(((Some(ParamSort::Int), t.place), rest)),
        Terminal::Unsigned => Ok(((Some(ParamSort::Unsigned), t.place), rest)),
        Terminal::Bool => Ok(((Some(ParamSort::Bool), t.place), rest)),
        Terminal::Class => Ok(((None, t.place), rest)),
        Terminal::Typename => Ok(((None, t.place), rest)),
        _ => Err(Halt::Unexpected(place_of(ts))),
    }
}

fn preset_of(x: (Name, Place), sort: ParamSort, preset: Option<TyArg>) -> Param
    ensures { result ≡ i.preset_of x sort preset }
{
    Param {
        place: x.1,
        name: x.0,
        sort,
        preset,
    }
}

// Behind the name of a parameter that stands for a value.
#[tactic(auto, unfolding(scc_grammar_spec::specs::ParseFile::param_by))]
fn value_param<'a>(
    alloc: Global,
    names: &Table,
    levels: u32,
    sort: ParamSort,
    x: (Name, Place),
    ts: &'a [Seen],
) -> Read<'a, (Param, bool)>
    ensures { Gives (λ r. ((r.0.0, i.params_by names.now r.0.1), r.1.now)) result (p.param_by levels names.now (Some sort) x ts.now) }
{
    if begins_assign(ts) {
        let c = Reader {
            alloc,
            names,
            levels,
        };
        let (_, rest) = assign(ts)?;
        let (of, rest) = additive(c, rest)?;
        return Ok(((preset_of(x, sort, Some(TyArg::Value(of))), false), rest));
    }
    Ok(((preset_of(x, sort, None), false), ts))
}

// Behind the name of a parameter that stands for a type.
#[tactic(auto, unfolding(scc_grammar_spec::specs::ParseFile::param_by))]
fn type_param<'a>(
    alloc: Global,
    names: &mut Table,
    levels: u32,
    x: (Name, Place),
    ts: &'a [Seen],
) -> Read<'a, (Param, bool)>
    ensures { Gives (λ r. ((r.0.0, i.params_by names.new r.0.1), r.1.now)) result (p.param_by levels names.old None x ts.now) }
{
    names.add_type(x.0)?;
    if begins_assign(ts) {
        let c = Reader {
            alloc,
            names,
            levels,
        };
        let (_, rest) = assign(ts)?;
        let (of, rest) = type_at(c, true, rest)?;
        let both = of.both;
        let preset = Some(TyArg::Named(of.ty));
        return Ok(((preset_of(x, ParamSort::Class, preset), both), rest));
    }
    Ok(((preset_of(x, ParamSort::Class, None), false), ts))
}

// A parameter, and whether a `>>` closed the list around it, too.
#[tactic(auto, unfolding(scc_grammar_spec::specs::ParseFile::param))]
fn param<'a>(
    alloc: Global,
    names: &mut Table,
    levels: u32,
    ts: &'a [Seen],
) -> Read<'a, (Param, bool)>
    ensures { Gives (λ r. ((r.0.0, i.params_by names.new r.0.1), r.1.now)) result (p.param levels names.old ts.now) }
{
    let ((start, _), rest) = param_start(ts)?;
    let (x, rest) = name_at(rest)?;
    match start {
        Some(sort) => value_param(alloc, names, levels, sort, x, rest),
        None => type_param(alloc, names, levels, x, rest),
    }
}

fn one_param<'a>(
    alloc: Global,
    names: &mut Table,
    levels: u32,
    ts: &'a [Seen],
) -> Read<'a, (Param, bool)>
    ensures { Gives (λ r. ((r.0.0, i.params_by names.new r.0.1), r.1.now)) result (p.one_param levels (i.params_by names.old false) ts.now) }
{
    let (_, rest) = comma(ts)?;
    param(alloc, names, levels, rest)
}

fn more_params<'a>(
    alloc: Global,
    names: &mut Table,
    levels: u32,
    found: List<Param>,
    closed: bool,
    ts: &'a [Seen],
) -> Read<'a, (List<Param>, bool)>
    ensures { Gives (λ r. ((r.0.0, i.params_by names.new r.0.1), r.1.now)) result (onto_in found (repeat_in (p.next_param levels) (p.one_param levels) (i.params_by names.old closed)) ts.now) }
{
    let mut found = found;
    let mut closed = closed;
    let mut rest = ts;
    while follows(closed, rest) {
        let ((next, both), after) = one_param(alloc, names, levels, rest)?;
        found.push(next)?;
        closed = both;
        rest = after;
    }
    Ok(((found, closed), rest))
}

#[tactic(auto, unfolding(scc_grammar_spec::specs::ParseFile::params))]
fn params<'a>(
    alloc: Global,
    names: &mut Table,
    levels: u32,
    ts: &'a [Seen],
) -> Read<'a, List<Param>>
    ensures { Gives (λ r. ((names.new, r.0), r.1.now)) result (p.params levels names.old ts.now) }
{
    let ((first, closed), rest) = param(alloc, names, levels, ts)?;
    let found = one(alloc, first)?;
    let ((found, closed), rest) = more_params(alloc, names, levels, found, closed, rest)?;
    let (_, rest) = close_unless(closed, false, rest)?;
    Ok((found, rest))
}

/// The parameters of a template, behind its word.
#[tactic(auto, unfolding(scc_grammar_spec::specs::ParseFile::template))]
pub fn template<'a>(
    alloc: Global,
    names: &mut Table,
    levels: u32,
    ts: &'a [Seen],
) -> Read<'a, List<Param>>
    ensures { Gives (λ r. ((names.new, r.0), r.1.now)) result (p.template levels names.old ts.now) }
{
    let (_, rest) = less(ts)?;
    if begins_greater(rest) {
        let (_, rest) = greater(rest)?;
        return Ok((List::new(alloc), rest));
    }
    params(alloc, names, levels, rest)
}
