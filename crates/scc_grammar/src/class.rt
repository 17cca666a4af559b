//! Classes and modules (C++, [class]; IEEE 1666-2011, section 5.2).
ghost use Rattle.std.specs.Prelude.{◌≡◌};
ghost use Rattle.scc_grammar_terminals.specs.Answer.{Gives};
ghost use Rattle.scc_grammar_spec.specs.Bodies as b;
ghost use Rattle.scc_grammar_terminals.specs.Names.{no_names};
ghost use Rattle.scc_grammar_spec.specs.ParseFile as p;

use crate::member::{Members, all_members};
use scc_base::{List, Name, Place};
use scc_grammar_declarations::class_head::{bases, class_word, declare, special};
use scc_grammar_leaves::first::name_at;
use scc_grammar_terminals::marks::{brace_close, brace_open, paren_close, paren_open, semicolon};
use scc_grammar_terminals::next::begins_module_word;
use scc_grammar_terminals::reader::{Read, Reader};
use scc_grammar_terminals::table::Table;
use scc_grammar_terminals::terminal::Seen;
use scc_grammar_terminals::words::module_word;
use scc_tree::{ClassTree, Item, ItemNode, Param, TyArg};
use std::alloc::Global;

// The members of a class, in braces.
#[tactic(auto, unfolding(scc_grammar_spec::specs::ParseFile::class_body))]
fn class_body<'a>(
    alloc: Global,
    names: &mut Table,
    levels: u32,
    ts: &'a [Seen],
) -> Read<'a, Members>
    ensures { Gives (λ x. (b.body_of names.new x.0.items x.0.fields, x.1.now)) result (p.class_body levels names.old ts.now) }
{
    let (_, rest) = brace_open(ts)?;
    let mut found = Members::new(alloc);
    let (_, rest) = all_members(alloc, names, levels, &mut found, rest)?;
    let (_, rest) = brace_close(rest)?;
    let (_, rest) = semicolon(rest)?;
    Ok((found, rest))
}

fn class_item(
    x: (Name, Place),
    params: Option<List<Param>>,
    special: Option<List<TyArg>>,
    is_module: bool,
    found: Members,
    alloc: Global,
) -> Item
    ensures { result ≡ b.class_item x.1 x.0 params special is_module (b.body_of no_names found.items found.fields) }
{
    let params = match params {
        Some(list) => list,
        None => List::new(alloc),
    };
    let class = ClassTree {
        params,
        special,
        module: is_module,
        items: found.items,
        fields: found.fields,
    };
    Item {
        place: x.1,
        name: Some(x.0),
        node: ItemNode::Class(class),
    }
}

// A module, after its word.
#[tactic(auto, unfolding(scc_grammar_spec::specs::ParseFile::module_class))]
fn module_class<'a>(
    alloc: Global,
    names: &mut Table,
    levels: u32,
    params: Option<List<Param>>,
    ts: &'a [Seen],
) -> Read<'a, Item>
    ensures { Gives (λ x. ((names.new, x.0), x.1.now)) result (p.module_class levels names.old params ts.now) }
{
    let (_, rest) = paren_open(ts)?;
    let (x, rest) = name_at(rest)?;
    let (_, rest) = paren_close(rest)?;
    declare(names, &params, x.0)?;
    let (found, rest) = class_body(alloc, names, levels, rest)?;
    Ok((class_item(x, params, None, true, found, alloc), rest))
}

// A class, after its word.
#[tactic(auto, unfolding(scc_grammar_spec::specs::ParseFile::plain_class))]
fn plain_class<'a>(
    alloc: Global,
    names: &mut Table,
    levels: u32,
    params: Option<List<Param>>,
    ts: &'a [Seen],
) -> Read<'a, Item>
    ensures { Gives (λ x. ((names.new, x.0), x.1.now)) result (p.plain_class levels names.old params ts.now) }
{
    let (x, rest) = name_at(ts)?;
    declare(names, &params, x.0)?;
    let c = Reader {
        alloc,
        names,
        levels,
    };
    let (args, rest) = special(c, &params, x.0, rest)?;
    let (is_module, rest) = bases(rest)?;
    let (found, rest) = class_body(alloc, names, levels, rest)?;
    Ok((class_item(x, params, args, is_module, found, alloc), rest))
}

/// A class or a module, after the parameters of a template where it has some.
#[tactic(auto, unfolding(scc_grammar_spec::specs::ParseFile::class_at))]
pub fn class_at<'a>(
    alloc: Global,
    names: &mut Table,
    levels: u32,
    params: Option<List<Param>>,
    ts: &'a [Seen],
) -> Read<'a, Item>
    ensures { Gives (λ x. ((names.new, x.0), x.1.now)) result (p.class_at levels names.old params ts.now) }
{
    if begins_module_word(ts) {
        let (_, rest) = module_word(ts)?;
        return module_class(alloc, names, levels, params, rest);
    }
    let (_, rest) = class_word(ts)?;
    plain_class(alloc, names, levels, params, rest)
}
