//! Functions and constants, but for bodies.
ghost use Rattle.std.specs.Prelude.{◌≡◌, IfOk};
ghost use Rattle.scc_grammar_terminals.specs.Answer.{Gives};
ghost use Rattle.scc_grammar_spec.specs.Bodies as b;
ghost use Rattle.scc_grammar_spec.specs.ParseItems as p;

use crate::enumeration::named_item;
use scc_base::{List, Name, NoMemory, Place};
use scc_grammar_expressions::chain::expr;
use scc_grammar_expressions::types::{base_at, ty_args};
use scc_grammar_leaves::first::name_at;
use scc_grammar_leaves::types::named_type;
use scc_grammar_terminals::marks::{assign, less, semicolon};
use scc_grammar_terminals::next::begins_less;
use scc_grammar_terminals::nodes::constant_of;
use scc_grammar_terminals::part::TypeRead;
use scc_grammar_terminals::reader::{Read, Reader};
use scc_grammar_terminals::terminal::Seen;
use scc_tree::{FunctionTree, Init, Item, ItemNode, Param, Prm, Stmt, Ty, TyArg, TyNode};
use std::alloc::Global;

/// The arguments that may stand behind a class's name.
#[tactic(auto, unfolding(scc_grammar_spec::specs::ParseItems::named_args))]
pub fn named_args<'a>(c: Reader, x: Name, ts: &'a [Seen]) -> Read<'a, Option<List<TyArg>>>
    ensures { Gives (λ x. (x.0, x.1.now)) result (p.named_args c.entry.levels c.entry.names.now x ts.now) }
{
    if c.names.is_template(x) && begins_less(ts) {
        let (_, rest) = less(ts)?;
        let ((args, _), rest) = ty_args(c, false, rest)?;
        return Ok((Some(args), rest));
    }
    Ok((None, ts))
}

/// A function without initialisers.
pub fn function_of(
    alloc: Global,
    x: (Name, Place),
    gives: Option<Ty>,
    params: List<Prm>,
    body: Option<List<Stmt>>,
) -> FunctionTree
    ensures { result ≡ b.function_of x.1 x.0 gives params body }
{
    FunctionTree {
        place: x.1,
        name: x.0,
        constructor: false,
        result: gives,
        params,
        inits: List::new(alloc),
        body,
    }
}

/// A constructor.
pub fn constructor_of(
    x: (Name, Place),
    params: List<Prm>,
    inits: List<Init>,
    body: Option<List<Stmt>>,
) -> FunctionTree
    ensures { result ≡ b.constructor_of x.1 x.0 params inits body }
{
    FunctionTree {
        place: x.1,
        name: x.0,
        constructor: true,
        result: None,
        params,
        inits,
        body,
    }
}

/// A function as a declaration.
pub fn function_item(of: FunctionTree) -> Item
    ensures { result ≡ b.function_item of }
{
    named_item(of.place, of.name, ItemNode::Function(of))
}

/// The rest of a constant, behind its name.
#[tactic(auto, unfolding(scc_grammar_spec::specs::ParseItems::constant_rest))]
pub fn constant_rest<'a>(c: Reader, ty: Ty, x: (Name, Place), ts: &'a [Seen]) -> Read<'a, Item>
    ensures { Gives (λ x. (x.0, x.1.now)) result (p.constant_rest c.entry.levels c.entry.names.now ty x ts.now) }
{
    let (_, rest) = assign(ts)?;
    let (value, rest) = expr(c, rest)?;
    let (_, rest) = semicolon(rest)?;
    Ok((named_item(x.1, x.0, ItemNode::Constant { ty, value }), rest))
}

/// The arguments behind a class's name; none are an empty list.
pub fn or_none(alloc: Global, args: Option<List<TyArg>>) -> List<TyArg>
    ensures { result ≡ p.or_none args }
{
    match args {
        Some(args) => args,
        None => List::new(alloc),
    }
}

/// A body outside its class, whose name stands at the place.
pub fn outside_item(
    place: Place,
    params: List<Param>,
    class: Name,
    args: List<TyArg>,
    function: FunctionTree,
) -> Item
    ensures { result ≡ b.outside_item place params class args function }
{
    let name = function.name;
    Item {
        place,
        name: Some(name),
        node: ItemNode::Outside {
            params,
            class,
            args,
            function,
        },
    }
}

/// A constant behind its second `const`; the first one stands at the place.
#[tactic(auto, unfolding(scc_grammar_spec::specs::ParseItems::constant_twice))]
pub fn constant_twice<'a>(c: Reader, q: Place, ts: &'a [Seen]) -> Read<'a, Item>
    ensures { Gives (λ x. (x.0, x.1.now)) result (p.constant_twice c.entry.levels c.entry.names.now q ts.now) }
{
    let (of, rest) = base_at(c, false, ts)?;
    let (x, rest) = name_at(rest)?;
    constant_rest(c, constant_of(q, of.ty), x, rest)
}

/// A class's name and its arguments, as a type.
pub fn named_of(
    alloc: Global,
    x: (Name, Place),
    args: Option<List<TyArg>>,
) -> Result<TypeRead, NoMemory>
    ensures { IfOk result (λ t. t ≡ p.named_of x args) }
{
    named_type(alloc, x.1, TyNode::Named { name: x.0, args }, false)
}
