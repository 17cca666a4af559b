//! Operands.
ghost use Rattle.scc_grammar_terminals.specs.Answer.{Gives};
ghost use Rattle.scc_grammar_terminals.specs.First as f;
ghost use Rattle.scc_grammar_spec.specs.ParseExpressions as e;
ghost use Rattle.scc_grammar_spec.specs.ParseStatements.{inner};

use crate::opening::{open_expr, open_type};
use crate::types::base_at;
use scc_base::Place;
use scc_grammar_leaves::first::{begins_base, close_unless};
use scc_grammar_leaves::operands::{
    name_rest, operand_of, pair_up_to_bracket, scoped, truth_of, up_to_bracket,
};
use scc_grammar_leaves::types::is_named;
use scc_grammar_terminals::halt::{Halt, place_of};
use scc_grammar_terminals::marks::{comma, less, paren_open};
use scc_grammar_terminals::next::begins_scope;
use scc_grammar_terminals::part::{Placed, TypeRead};
use scc_grammar_terminals::reader::{Read, Reader};
use scc_grammar_terminals::terminal::{Seen, Terminal};
use scc_tree::{Expr, ExprNode, Ty};

// `(of)` behind a type.
#[tactic(auto, unfolding(scc_grammar_spec::specs::ParseExpressions::make))]
#[cycle(expression)]
pub fn make<'a>(c: Reader, p: Place, to: Ty, ts: &'a [Seen]) -> Read<'a, Expr>
    ensures { Gives (λ x. (x.0, x.1.now)) result (e.make c.entry.names.now (inner c.entry.names.now c.entry.levels) p to ts.now) }
{
    let (_, rest) = paren_open(ts)?;
    let (of, rest) = open_expr(c, rest)?;
    up_to_bracket(c.alloc, p, ExprNode::Cast { ty: to, of }, rest)
}

/// Behind a type, the rest of a primary that begins with it.
#[tactic(auto, unfolding(scc_grammar_spec::specs::ParseExpressions::after_base))]
#[cycle(expression)]
pub fn after_base<'a>(c: Reader, of: TypeRead, ts: &'a [Seen]) -> Read<'a, Expr>
    ensures { Gives (λ x. (x.0, x.1.now)) result (e.after_base c.entry.names.now (inner c.entry.names.now c.entry.levels) of ts.now) }
{
    if !begins_scope(ts) {
        return make(c, of.place, of.ty, ts);
    }
    if !is_named(of.sort) {
        return Err(Halt::Unexpected(place_of(ts)));
    }
    scoped(c.alloc, of, ts)
}

#[tactic(auto, unfolding(scc_grammar_spec::specs::ParseExpressions::primary_by))]
#[cycle(expression)]
pub fn cast_rest<'a>(c: Reader, p: Place, ts: &'a [Seen]) -> Read<'a, Expr>
    ensures { Gives (λ x. (x.0, x.1.now)) result (e.primary_by c.entry.names.now (inner c.entry.names.now c.entry.levels) f.cast_start p ts.now) }
{
    let (_, rest) = less(ts)?;
    let (to, rest) = open_type(c, rest)?;
    let (_, rest) = close_unless(to.both, false, rest)?;
    make(c, p, to.ty, rest)
}

#[tactic(auto, unfolding(scc_grammar_spec::specs::ParseExpressions::primary_by))]
#[cycle(expression)]
pub fn concat_rest<'a>(c: Reader, p: Place, ts: &'a [Seen]) -> Read<'a, Expr>
    ensures { Gives (λ x. (x.0, x.1.now)) result (e.primary_by c.entry.names.now (inner c.entry.names.now c.entry.levels) f.concat_start p ts.now) }
{
    let (_, rest) = paren_open(ts)?;
    let (first, rest) = open_expr(c, rest)?;
    let (_, rest) = comma(rest)?;
    let (second, rest) = open_expr(c, rest)?;
    pair_up_to_bracket(c.alloc, p, first, second, rest)
}

/// A primary that does not begin with a type or a bracket.
#[tactic(auto, unfolding(scc_grammar_spec::specs::ParseExpressions::plain, scc_grammar_spec::specs::ParseExpressions::primary_by))]
#[cycle(expression)]
pub fn plain<'a>(c: Reader, ts: &'a [Seen]) -> Read<'a, Placed>
    ensures { Gives (λ x. (x.0, x.1.now)) result (e.plain c.entry.names.now (inner c.entry.names.now c.entry.levels) ts.now) }
{
    let [t, rest @ ..] = ts else {
        return Err(Halt::Unexpected(None));
    };
    let place = t.place;
    match t.terminal {
        Terminal::Number(kind, word) => operand_of(
            c.alloc,
            place,
            ExprNode::Number(kind, word),
            rest,
        ),
        Terminal::Truth(b) => {
            let of = truth_of(c.alloc, place, b)?;
            Ok((Placed { place, of }, rest))
        }
        Terminal::This => operand_of(c.alloc, place, ExprNode::This, rest),
        Terminal::Null => operand_of(c.alloc, place, ExprNode::Null, rest),
        Terminal::StaticCast => {
            let (of, rest) = cast_rest(c, place, rest)?;
            Ok((Placed { place, of }, rest))
        }
        Terminal::Concat => {
            let (of, rest) = concat_rest(c, place, rest)?;
            Ok((Placed { place, of }, rest))
        }
        Terminal::Ident(x) if !c.names.is_type(x) => {
            let (of, rest) = name_rest(c, x, place, rest)?;
            Ok((Placed { place, of }, rest))
        }
        _ => Err(Halt::Unexpected(place_of(ts))),
    }
}

#[tactic(auto, unfolding(scc_grammar_spec::specs::ParseExpressions::primary))]
#[cycle(expression)]
pub fn primary<'a>(c: Reader, ts: &'a [Seen]) -> Read<'a, Placed>
    ensures { Gives (λ x. (x.0, x.1.now)) result (e.primary c.entry.names.now (inner c.entry.names.now c.entry.levels) ts.now) }
{
    if !begins_base(c.names, ts) {
        return plain(c, ts);
    }
    let (base, rest) = base_at(c, false, ts)?;
    let place = base.place;
    let (of, rest) = after_base(c, base, rest)?;
    Ok((Placed { place, of }, rest))
}
