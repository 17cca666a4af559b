//! Files.
ghost use Rattle.std.specs.Prelude.{◌≡◌, [], Some, true};
ghost use Rattle.scc_grammar_terminals.specs.Answer.{Gives};
ghost use Rattle.scc_grammar_spec.specs.Bodies as b;
ghost use Rattle.scc_grammar_spec.specs.ParseFile as p;
ghost use Rattle.scc_grammar_spec.specs.ParseItems as i;
ghost use Rattle.scc_grammar_terminals.specs.Text.{next_is, next_says, pick};
ghost use Rattle.scc_reading.specs.Reading.{and_then, choose, is_next, pure, repeat_on, token};

use crate::class::class_at;
use crate::member::Members;
use crate::outside::{fronted, outside};
use scc_base::List;
use scc_grammar_declarations::class_head::begins_class;
use scc_grammar_declarations::enumeration::{alias, enumeration};
use scc_grammar_declarations::front::fronts;
use scc_grammar_declarations::template::template;
use scc_grammar_terminals::halt::{Halt, place_of};
use scc_grammar_terminals::marks::semicolon;
use scc_grammar_terminals::reader::{Read, Reader};
use scc_grammar_terminals::table::Table;
use scc_grammar_terminals::terminal::{Seen, Terminal};
use scc_grammar_terminals::words::{library, namespace};
use scc_tree::{Item, Param};
use std::alloc::Global;

// What follows the parameters of a template.
fn template_part<'a>(
    alloc: Global,
    names: &mut Table,
    levels: u32,
    found: &mut Members,
    params: List<Param>,
    ts: &'a [Seen],
) -> Read<'a, ()>
    ensures { Gives (λ r. (b.body_of names.new found.new.items found.new.fields, r.1.now)) result (choose (next_is i.begins_class) (λ us. and_then (p.class_at levels names.old (Some params) us) (λ x. pure (b.with_item (b.body_of names.old found.old.items found.old.fields) x.0 x.1))) (λ us. and_then (i.outside levels names.old params us) (λ x. pure (b.with_item (b.body_of names.old found.old.items found.old.fields) names.old x))) ts.now) }
{
    if begins_class(ts) {
        let (of, rest) = class_at(alloc, names, levels, Some(params), ts)?;
        found.items.push(of)?;
        return Ok(((), rest));
    }
    let c = Reader {
        alloc,
        names,
        levels,
    };
    let (of, rest) = outside(c, params, ts)?;
    found.items.push(of)?;
    Ok(((), rest))
}

fn begins_word(ts: &[Seen]) -> bool
    ensures { result ≡ is_next (next_says i.part_begin) ts.now }
{
    matches!(
        ts,
        [
            Seen {
                terminal: Terminal::Using | Terminal::Template | Terminal::Typedef | Terminal::Enum,
                ..
            },
            ..
        ]
    )
}

// A declaration that begins with a word of its own.
#[tactic(auto, unfolding(scc_grammar_spec::specs::ParseFile::part_by, scc_grammar_spec::specs::ParseItems::item_by))]
fn worded_part<'a>(
    alloc: Global,
    names: &mut Table,
    levels: u32,
    found: &mut Members,
    ts: &'a [Seen],
) -> Read<'a, ()>
    ensures { Gives (λ r. (b.body_of names.new found.new.items found.new.fields, r.1.now)) result (and_then (token (pick i.part_begin) ts.now) (λ s. p.part_by levels (b.body_of names.old found.old.items found.old.fields) s.0 s.1)) }
{
    match ts {
        [
            Seen {
                terminal: Terminal::Using,
                ..
            },
            rest @ ..,
        ] => {
            let (_, rest) = namespace(rest)?;
            let (_, rest) = library(rest)?;
            let (_, rest) = semicolon(rest)?;
            Ok(((), rest))
        }
        [
            Seen {
                terminal: Terminal::Template,
                ..
            },
            rest @ ..,
        ] => {
            let (params, rest) = template(alloc, names, levels, rest)?;
            template_part(alloc, names, levels, found, params, rest)
        }
        [
            Seen {
                terminal: Terminal::Typedef,
                ..
            },
            rest @ ..,
        ] => {
            let (of, rest) = alias(alloc, names, levels, rest)?;
            found.items.push(of)?;
            Ok(((), rest))
        }
        [
            Seen {
                terminal: Terminal::Enum,
                place,
            },
            rest @ ..,
        ] => {
            let (of, rest) = enumeration(alloc, names, levels, *place, rest)?;
            found.items.push(of)?;
            Ok(((), rest))
        }
        _ => Err(Halt::Unexpected(place_of(ts))),
    }
}

// One declaration of a file.
#[tactic(auto, unfolding(scc_grammar_spec::specs::ParseFile::part))]
fn part<'a>(
    alloc: Global,
    names: &mut Table,
    levels: u32,
    found: &mut Members,
    ts: &'a [Seen],
) -> Read<'a, ()>
    ensures { Gives (λ r. (b.body_of names.new found.new.items found.new.fields, r.1.now)) result (p.part levels (b.body_of names.old found.old.items found.old.fields) ts.now) }
{
    if begins_word(ts) {
        return worded_part(alloc, names, levels, found, ts);
    }
    if begins_class(ts) {
        let (of, rest) = class_at(alloc, names, levels, None, ts)?;
        found.items.push(of)?;
        return Ok(((), rest));
    }
    let (before, rest) = fronts(alloc, ts)?;
    let c = Reader {
        alloc,
        names,
        levels,
    };
    let (of, rest) = fronted(c, before.as_slice(), rest)?;
    found.items.push(of)?;
    Ok(((), rest))
}

// Whether there is a token.
fn some_next(ts: &[Seen]) -> bool
    ensures { result ≡ is_next (λ _. true) ts.now }
{
    matches!(ts, [_, ..])
}

fn parts<'a>(
    alloc: Global,
    names: &mut Table,
    levels: u32,
    found: &mut Members,
    ts: &'a [Seen],
) -> Read<'a, ()>
    ensures { Gives (λ r. (b.body_of names.new found.new.items found.new.fields, r.1.now)) result (repeat_on p.is_part (p.part levels) (b.body_of names.old found.old.items found.old.fields) ts.now) }
{
    let mut rest = ts;
    while some_next(rest) {
        let (_, after) = part(alloc, names, levels, found, rest)?;
        rest = after;
    }
    Ok(((), rest))
}

/// The declarations of a whole file.
#[tactic(auto, unfolding(scc_grammar_spec::specs::ParseFile::program, scc_grammar_spec::specs::ParseFile::file))]
pub fn program(alloc: Global, ts: &[Seen]) -> Result<List<Item>, Halt>
    ensures { Gives (λ items. (items, [])) result (p.program 128 ts.now) }
{
    let mut names = Table::new(alloc);
    let mut found = Members::new(alloc);
    let (_, rest) = parts(alloc, &mut names, 128, &mut found, ts)?;
    if some_next(rest) {
        return Err(Halt::Unexpected(place_of(rest)));
    }
    Ok(found.items)
}
