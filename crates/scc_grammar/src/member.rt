//! Members of classes (C++, [class.mem]).
ghost use Rattle.std.specs.Prelude.{◌≡◌, ◌∷◌, ◌++◌, [], Ok, IfOk, true};
ghost use Rattle.scc_grammar_terminals.specs.Answer.{Gives};
ghost use Rattle.scc_grammar_spec.specs.Bodies as b;
ghost use Rattle.scc_grammar_spec.specs.Fields.{Again, fields_onto};
ghost use Rattle.scc_grammar_terminals.specs.Marks as m;
ghost use Rattle.scc_grammar_spec.specs.ParseFile as p;
ghost use Rattle.scc_grammar_spec.specs.ParseItems as i;
ghost use Rattle.scc_grammar_spec.specs.ParseItems.{MemberStart as start};
ghost use Rattle.scc_grammar_terminals.specs.Text.{mark, next_is};
ghost use Rattle.scc_tree.specs.declared.ty.Ty as typing;
ghost use Rattle.scc_reading.specs.Reading.{is_next, repeat};

use crate::function::{body, constructor_rest, function_rest};
use scc_base::{List, Name, NoMemory, Place};
use scc_grammar_declarations::enumeration::{alias, enumeration};
use scc_grammar_declarations::front::{before_constant, fronts, is_first_name};
use scc_grammar_declarations::function::{
    constant_rest, constant_twice, constructor_of, function_item, named_args, named_of,
};
use scc_grammar_declarations::initialisers::inits;
use scc_grammar_expressions::types::{base_at, type_at};
use scc_grammar_leaves::first::name_at;
use scc_grammar_leaves::types::{constant_type, is_constant};
use scc_grammar_statements::local::{decl, sizes};
use scc_grammar_terminals::halt::{Halt, place_of};
use scc_grammar_terminals::marks::{colon, comma, paren_close, paren_open, semicolon};
use scc_grammar_terminals::next::{
    begins_assign, begins_comma, begins_constant, begins_not_brace_close, begins_paren_open,
    begins_void_word,
};
use scc_grammar_terminals::part::TypeRead;
use scc_grammar_terminals::reader::{Read, Reader};
use scc_grammar_terminals::table::Table;
use scc_grammar_terminals::terminal::{Seen, Terminal};
use scc_grammar_terminals::words::{constant, void_word};
use scc_tree::{Decl, Field, Hold, Item, Ty};
use std::alloc::Global;

/// What stands in a file or a class so far.
#[derive(Drop)]
pub struct Members {
    pub items: List<Item>,
    pub fields: List<Field>,
}

impl Members {
    /// Nothing yet.
    pub fn new(alloc: Global) -> Members
        ensures items { result.items ≡ [] }
        ensures fields { result.fields ≡ [] }
    {
        Members {
            items: List::new(alloc),
            fields: List::new(alloc),
        }
    }
}

// A field of the type, after the items so far.
fn push_field(members: &mut Members, names: &Table, ty: Ty, decl: Decl) -> Result<(), NoMemory>
    ensures items { members.new.items ≡ members.old.items }
    ensures field { IfOk result (λ u. members.new.fields ≡ members.old.fields ++ b.field_of (b.body_of names.now members.old.items members.old.fields) ty decl ∷ []) }
{
    let Ok(after) = u32::try_from(members.items.len()) else {
        return Err(NoMemory);
    };
    let field = Field {
        place: decl.place,
        ty,
        decl,
        after,
    };
    members.fields.push(field)
}

fn one_decl<'a>(c: Reader, ts: &'a [Seen]) -> Read<'a, Decl>
    ensures { Gives (λ x. (x.0, x.1.now)) result (p.one_decl c.entry.levels c.entry.names.now ts.now) }
{
    let (_, rest) = comma(ts)?;
    decl(c, rest)
}

// Further fields of a type, which the tokens `typed` begin with.
fn more_fields<'a>(c: Reader, members: &mut Members, typed: &[Seen], ts: &'a [Seen]) -> Read<'a, ()>
    ensures items { members.new.items ≡ members.old.items }
    ensures fields { (ty : typing.Ty) → Again c.entry.names.now c.entry.levels typed.now ty → Gives (λ x. (members.new.fields, x.1.now)) result (fields_onto (b.body_of c.entry.names.now members.old.items members.old.fields) ty members.old.fields (repeat (next_is m.comma) (p.one_decl c.entry.levels c.entry.names.now)) ts.now) }
{
    let mut rest = ts;
    while begins_comma(rest) {
        let (next, after) = one_decl(c, rest)?;
        let (again, _) = type_at(c, false, typed)?;
        push_field(members, c.names, again.ty, next)?;
        rest = after;
    }
    Ok(((), rest))
}

/// The rest of fields of a type, which the tokens `typed` begin with, after the first one.
#[tactic(auto, unfolding(scc_grammar_spec::specs::ParseFile::fields_rest))]
fn fields_rest<'a>(
    c: Reader,
    members: &mut Members,
    typed: &[Seen],
    ty: Ty,
    first: Decl,
    ts: &'a [Seen],
) -> Read<'a, ()>
    requires { Again c.names.now c.levels typed.now ty }
    ensures { Gives (λ x. (b.body_of c.entry.names.now members.new.items members.new.fields, x.1.now)) result (p.fields_rest c.entry.levels (b.body_of c.entry.names.now members.old.items members.old.fields) ty first ts.now) }
{
    push_field(members, c.names, ty, first)?;
    let (_, rest) = more_fields(c, members, typed, ts)?;
    let (_, rest) = semicolon(rest)?;
    Ok(((), rest))
}

// Fields of a type, after the first one's name.
#[tactic(auto, unfolding(scc_grammar_spec::specs::ParseFile::fields_named))]
fn fields_named<'a>(
    c: Reader,
    members: &mut Members,
    typed: &[Seen],
    ty: Ty,
    x: (Name, Place),
    ts: &'a [Seen],
) -> Read<'a, ()>
    requires { Again c.names.now c.levels typed.now ty }
    ensures { Gives (λ r. (b.body_of c.entry.names.now members.new.items members.new.fields, r.1.now)) result (p.fields_named c.entry.levels (b.body_of c.entry.names.now members.old.items members.old.fields) ty x ts.now) }
{
    let (found, rest) = sizes(c, ts)?;
    let first = Decl {
        place: x.1,
        name: x.0,
        hold: Hold::Direct,
        sizes: found,
    };
    fields_rest(c, members, typed, ty, first, rest)
}

#[tactic(auto, unfolding(scc_grammar_spec::specs::ParseFile::member_function))]
fn member_function<'a>(
    c: Reader,
    members: &mut Members,
    gives: Option<Ty>,
    x: (Name, Place),
    ts: &'a [Seen],
) -> Read<'a, ()>
    ensures { Gives (λ r. (b.body_of c.entry.names.now members.new.items members.new.fields, r.1.now)) result (p.member_function c.entry.levels (b.body_of c.entry.names.now members.old.items members.old.fields) gives x ts.now) }
{
    let (of, rest) = function_rest(c, gives, x, ts)?;
    members.items.push(of)?;
    Ok(((), rest))
}

#[tactic(auto, unfolding(scc_grammar_spec::specs::ParseFile::member_constant))]
fn member_constant<'a>(
    c: Reader,
    members: &mut Members,
    ty: Ty,
    x: (Name, Place),
    ts: &'a [Seen],
) -> Read<'a, ()>
    ensures { Gives (λ r. (b.body_of c.entry.names.now members.new.items members.new.fields, r.1.now)) result (p.member_constant c.entry.levels (b.body_of c.entry.names.now members.old.items members.old.fields) ty x ts.now) }
{
    let (of, rest) = constant_rest(c, ty, x, ts)?;
    members.items.push(of)?;
    Ok(((), rest))
}

fn no_front(found: &[bool]) -> bool
    ensures { result ≡ p.no_front found.now }
{
    match found {
        [] => true,
        [_, ..] => false,
    }
}

// After the name that follows a type.
#[tactic(auto, unfolding(scc_grammar_spec::specs::ParseFile::member_named))]
fn member_named<'a>(
    c: Reader,
    members: &mut Members,
    found: &[bool],
    typed: &[Seen],
    ty: Ty,
    x: (Name, Place),
    ts: &'a [Seen],
) -> Read<'a, ()>
    requires { Again c.names.now c.levels typed.now ty }
    ensures { Gives (λ r. (b.body_of c.entry.names.now members.new.items members.new.fields, r.1.now)) result (p.member_named c.entry.levels (b.body_of c.entry.names.now members.old.items members.old.fields) found.now ty x ts.now) }
{
    if no_front(found) {
        if begins_paren_open(ts) {
            return member_function(c, members, Some(ty), x, ts);
        }
        return fields_named(c, members, typed, ty, x, ts);
    }
    member_function(c, members, Some(ty), x, ts)
}

#[tactic(auto, unfolding(scc_grammar_spec::specs::ParseFile::named_member))]
fn named_member<'a>(
    c: Reader,
    members: &mut Members,
    found: &[bool],
    typed: &[Seen],
    of: TypeRead,
    ts: &'a [Seen],
) -> Read<'a, ()>
    requires { Again c.names.now c.levels typed.now of.ty }
    ensures { Gives (λ r. (b.body_of c.entry.names.now members.new.items members.new.fields, r.1.now)) result (p.named_member c.entry.levels (b.body_of c.entry.names.now members.old.items members.old.fields) found.now of ts.now) }
{
    let (x, rest) = name_at(ts)?;
    if is_constant(of.sort) && before_constant(found) {
        if begins_assign(rest) {
            return member_constant(c, members, of.ty, x, rest);
        }
        return member_named(c, members, found, typed, of.ty, x, rest);
    }
    member_named(c, members, found, typed, of.ty, x, rest)
}

fn is_held(found: &[bool], ts: &[Seen]) -> bool
    ensures { result ≡ is_next (p.is_held 0 found.now) ts.now }
{
    match ts {
        [
            Seen {
                terminal: Terminal::Star | Terminal::And,
                ..
            },
            ..
        ] => no_front(found),
        _ => false,
    }
}

// After a type.
#[tactic(auto, unfolding(scc_grammar_spec::specs::ParseFile::member_typed))]
fn member_typed<'a>(
    c: Reader,
    members: &mut Members,
    found: &[bool],
    typed: &[Seen],
    of: TypeRead,
    ts: &'a [Seen],
) -> Read<'a, ()>
    requires { Again c.names.now c.levels typed.now of.ty }
    ensures { Gives (λ r. (b.body_of c.entry.names.now members.new.items members.new.fields, r.1.now)) result (p.member_typed c.entry.levels (b.body_of c.entry.names.now members.old.items members.old.fields) found.now of ts.now) }
{
    if is_held(found, ts) {
        let (first, rest) = decl(c, ts)?;
        return fields_rest(c, members, typed, of.ty, first, rest);
    }
    named_member(c, members, found, typed, of, ts)
}

// After a `const`, which stands at the place and before these tokens.
#[tactic(auto, using(crate::proofs::TypeAgain::again_constant), unfolding(scc_grammar_spec::specs::ParseFile::constant_member))]
fn constant_member<'a>(
    c: Reader,
    members: &mut Members,
    found: &[bool],
    typed: &[Seen],
    q: Place,
    ts: &'a [Seen],
) -> Read<'a, ()>
    requires next { is_next (next_is m.constant) typed.now ≡ true }
    requires behind { mark m.constant typed.now ≡ Ok (q, ts.now) }
    ensures { Gives (λ r. (b.body_of c.entry.names.now members.new.items members.new.fields, r.1.now)) result (p.constant_member c.entry.levels (b.body_of c.entry.names.now members.old.items members.old.fields) found.now q ts.now) }
{
    if before_constant(found) && begins_constant(ts) {
        let (_, rest) = constant(ts)?;
        let (of, rest) = constant_twice(c, q, rest)?;
        members.items.push(of)?;
        return Ok(((), rest));
    }
    let (of, rest) = base_at(c, false, ts)?;
    member_typed(c, members, found, typed, constant_type(q, of), rest)
}

// What begins with a name.
#[tactic(auto, using(crate::proofs::TypeAgain::again_named), unfolding(scc_grammar_spec::specs::ParseFile::member_name))]
fn member_name<'a>(c: Reader, members: &mut Members, ts: &'a [Seen]) -> Read<'a, ()>
    ensures { Gives (λ r. (b.body_of c.entry.names.now members.new.items members.new.fields, r.1.now)) result (p.member_name c.entry.levels (b.body_of c.entry.names.now members.old.items members.old.fields) ts.now) }
{
    let (x, rest) = name_at(ts)?;
    if begins_paren_open(rest) {
        let (of, rest) = constructor_rest(c, x, rest)?;
        members.items.push(of)?;
        return Ok(((), rest));
    }
    if c.names.is_type(x.0) {
        let (args, rest) = named_args(c, x.0, rest)?;
        return member_typed(c, members, &[], ts, named_of(c.alloc, x, args)?, rest);
    }
    Err(Halt::Unexpected(place_of(rest)))
}

// After `static` and `inline`.
#[tactic(auto, using(crate::proofs::TypeAgain::again_base), unfolding(scc_grammar_spec::specs::ParseFile::member_fronted))]
fn member_fronted<'a>(
    c: Reader,
    members: &mut Members,
    found: &[bool],
    ts: &'a [Seen],
) -> Read<'a, ()>
    ensures { Gives (λ r. (b.body_of c.entry.names.now members.new.items members.new.fields, r.1.now)) result (p.member_fronted c.entry.levels (b.body_of c.entry.names.now members.old.items members.old.fields) found.now ts.now) }
{
    if begins_void_word(ts) {
        let (_, rest) = void_word(ts)?;
        let (x, rest) = name_at(rest)?;
        return member_function(c, members, None, x, rest);
    }
    if begins_constant(ts) {
        let (q, rest) = constant(ts)?;
        return constant_member(c, members, found, ts, q, rest);
    }
    if is_first_name(found, ts) {
        return member_name(c, members, ts);
    }
    let (of, rest) = base_at(c, false, ts)?;
    member_typed(c, members, found, ts, of, rest)
}

// After `public`, `private` or `protected`.
#[tactic(auto, unfolding(scc_grammar_spec::specs::ParseFile::member_by))]
fn access<'a>(c: Reader, members: &mut Members, w: Place, ts: &'a [Seen]) -> Read<'a, ()>
    ensures { Gives (λ r. (b.body_of c.entry.names.now members.new.items members.new.fields, r.1.now)) result (p.member_by c.entry.levels (b.body_of c.entry.names.now members.old.items members.old.fields) i.access_start w ts.now) }
{
    let (_, rest) = colon(ts)?;
    Ok(((), rest))
}

// After `SC_HAS_PROCESS`.
#[tactic(auto, unfolding(scc_grammar_spec::specs::ParseFile::member_by))]
fn has_process<'a>(c: Reader, members: &mut Members, w: Place, ts: &'a [Seen]) -> Read<'a, ()>
    ensures { Gives (λ r. (b.body_of c.entry.names.now members.new.items members.new.fields, r.1.now)) result (p.member_by c.entry.levels (b.body_of c.entry.names.now members.old.items members.old.fields) i.has_process_start w ts.now) }
{
    let (_, rest) = paren_open(ts)?;
    let (_, rest) = name_at(rest)?;
    let (_, rest) = paren_close(rest)?;
    let (_, rest) = semicolon(rest)?;
    Ok(((), rest))
}

// After `SC_CTOR`.
#[tactic(auto, unfolding(scc_grammar_spec::specs::ParseFile::member_by))]
fn module_constructor<'a>(
    c: Reader,
    members: &mut Members,
    w: Place,
    ts: &'a [Seen],
) -> Read<'a, ()>
    ensures { Gives (λ r. (b.body_of c.entry.names.now members.new.items members.new.fields, r.1.now)) result (p.member_by c.entry.levels (b.body_of c.entry.names.now members.old.items members.old.fields) i.module_constructor_start w ts.now) }
{
    let (_, rest) = paren_open(ts)?;
    let (x, rest) = name_at(rest)?;
    let (_, rest) = paren_close(rest)?;
    let (found, rest) = inits(c, rest)?;
    let (of, rest) = body(c, rest)?;
    let function = constructor_of(x, List::new(c.alloc), found, of);
    members.items.push(function_item(function))?;
    Ok(((), rest))
}

// After `explicit`.
#[tactic(auto, unfolding(scc_grammar_spec::specs::ParseFile::member_by))]
fn explicit<'a>(c: Reader, members: &mut Members, w: Place, ts: &'a [Seen]) -> Read<'a, ()>
    ensures { Gives (λ r. (b.body_of c.entry.names.now members.new.items members.new.fields, r.1.now)) result (p.member_by c.entry.levels (b.body_of c.entry.names.now members.old.items members.old.fields) i.explicit_start w ts.now) }
{
    let (x, rest) = name_at(ts)?;
    let (of, rest) = constructor_rest(c, x, rest)?;
    members.items.push(of)?;
    Ok(((), rest))
}

// After `typedef`.
#[tactic(auto, unfolding(scc_grammar_spec::specs::ParseFile::member_by, scc_grammar_spec::specs::ParseItems::item_by))]
fn member_alias<'a>(
    alloc: Global,
    names: &mut Table,
    levels: u32,
    members: &mut Members,
    w: Place,
    ts: &'a [Seen],
) -> Read<'a, ()>
    ensures { Gives (λ r. (b.body_of names.new members.new.items members.new.fields, r.1.now)) result (p.member_by levels (b.body_of names.old members.old.items members.old.fields) (start.item_start i.alias_start) w ts.now) }
{
    let (of, rest) = alias(alloc, names, levels, ts)?;
    members.items.push(of)?;
    Ok(((), rest))
}

// After `enum`.
#[tactic(auto, unfolding(scc_grammar_spec::specs::ParseFile::member_by, scc_grammar_spec::specs::ParseItems::item_by))]
fn member_enumeration<'a>(
    alloc: Global,
    names: &mut Table,
    levels: u32,
    members: &mut Members,
    w: Place,
    ts: &'a [Seen],
) -> Read<'a, ()>
    ensures { Gives (λ r. (b.body_of names.new members.new.items members.new.fields, r.1.now)) result (p.member_by levels (b.body_of names.old members.old.items members.old.fields) (start.item_start i.enum_start) w ts.now) }
{
    let (of, rest) = enumeration(alloc, names, levels, w, ts)?;
    members.items.push(of)?;
    Ok(((), rest))
}

/// A member.
#[tactic(auto, unfolding(scc_grammar_spec::specs::ParseFile::member, scc_grammar_spec::specs::ParseFile::member_by))]
fn member<'a>(
    alloc: Global,
    names: &mut Table,
    levels: u32,
    members: &mut Members,
    ts: &'a [Seen],
) -> Read<'a, ()>
    ensures { Gives (λ r. (b.body_of names.new members.new.items members.new.fields, r.1.now)) result (p.member levels (b.body_of names.old members.old.items members.old.fields) ts.now) }
{
    let c = Reader {
        alloc,
        names,
        levels,
    };
    match ts {
        [
            Seen {
                terminal: Terminal::Public,
                place,
            },
            rest @ ..,
        ] => access(c, members, *place, rest),
        [
            Seen {
                terminal: Terminal::Hidden,
                place,
            },
            rest @ ..,
        ] => access(c, members, *place, rest),
        [
            Seen {
                terminal: Terminal::HasProcess,
                place,
            },
            rest @ ..,
        ] => has_process(c, members, *place, rest),
        [
            Seen {
                terminal: Terminal::Constructor,
                place,
            },
            rest @ ..,
        ] => module_constructor(c, members, *place, rest),
        [
            Seen {
                terminal: Terminal::Explicit,
                place,
            },
            rest @ ..,
        ] => explicit(c, members, *place, rest),
        [
            Seen {
                terminal: Terminal::Typedef,
                place,
            },
            rest @ ..,
        ] => member_alias(alloc, names, levels, members, *place, rest),
        [
            Seen {
                terminal: Terminal::Enum,
                place,
            },
            rest @ ..,
        ] => member_enumeration(alloc, names, levels, members, *place, rest),
        _ => {
            let (found, rest) = fronts(alloc, ts)?;
            member_fronted(c, members, found.as_slice(), rest)
        }
    }
}

/// Members, up to the brace that closes them.
#[tactic(auto, unfolding(scc_grammar_spec::specs::ParseFile::members))]
pub fn all_members<'a>(
    alloc: Global,
    names: &mut Table,
    levels: u32,
    found: &mut Members,
    ts: &'a [Seen],
) -> Read<'a, ()>
    ensures { Gives (λ r. (b.body_of names.new found.new.items found.new.fields, r.1.now)) result (p.members levels (b.body_of names.old found.old.items found.old.fields) ts.now) }
{
    let mut rest = ts;
    while begins_not_brace_close(rest) {
        let (_, after) = member(alloc, names, levels, found, rest)?;
        rest = after;
    }
    Ok(((), rest))
}
