//! Operands whose parts are read, and the names behind `::`, `.` and `->`.
ghost use Rattle.std.specs.Prelude.{◌≡◌, ◌∷◌, [], IfOk, false};
ghost use Rattle.scc_grammar_terminals.specs.Answer.{Gives};
ghost use Rattle.scc_grammar_terminals.specs.First as f;
ghost use Rattle.scc_grammar_terminals.specs.Marks as m;
ghost use Rattle.scc_grammar_terminals.specs.Nodes as nodes;
ghost use Rattle.scc_grammar_terminals.specs.Text.{mark, name_at};
ghost use Rattle.scc_grammar_spec.specs.ParseExpressions as e;
ghost use Rattle.scc_grammar_spec.specs.ParseStatements.{inner};
ghost use Rattle.scc_reading.specs.Reading.{and_then, pure};
ghost use Rattle.scc_tree.specs.Node.{expr_of};
ghost use Rattle.scc_tree.specs.declared.expr.ExprNode.TheVariants as variant;
ghost use Rattle.scc_tree.specs.declared.expr.PartNode.TheVariants as step;

use crate::first::name_at;
use scc_base::{Name, NoMemory, Place};
use scc_bits::{Kind, Word};
use scc_grammar_terminals::marks::{paren_close, scope};
use scc_grammar_terminals::next::begins_scope;
use scc_grammar_terminals::nodes::{base_of, one};
use scc_grammar_terminals::part::{Placed, TypeRead};
use scc_grammar_terminals::reader::{Read, Reader};
use scc_grammar_terminals::terminal::Seen;
use scc_tree::{Expr, ExprNode, Part, PartNode, TyNode};
use std::alloc::Global;

// The node of an expression whose end isn't read yet. Its drop is one call at each exit.
struct Pending {
    node: ExprNode,
}

impl Drop for Pending {
    fn drop(self) {
        let Pending { node: _node } = self;
    }
}

impl Pending {
    fn new(node: ExprNode) -> Pending
        ensures { result.node ≡ node }
    {
        Pending { node }
    }

    fn into_node(self) -> ExprNode
        ensures { result ≡ self.node }
    {
        let Pending { node } = self;
        node
    }
}

/// An expression of this node, up to its bracket.
pub fn up_to_bracket<'a>(
    alloc: Global,
    place: Place,
    node: ExprNode,
    ts: &'a [Seen],
) -> Read<'a, Expr>
    ensures { Gives (λ x. (x.0, x.1.now)) result (and_then (mark m.paren_close ts.now) (λ _. pure (expr_of place node))) }
{
    let pending = Pending::new(node);
    let (_, rest) = paren_close(ts)?;
    Ok((Expr::new(alloc, place, pending.into_node())?, rest))
}

/// A concatenation of two, up to its bracket.
pub fn pair_up_to_bracket<'a>(
    alloc: Global,
    place: Place,
    first: Expr,
    second: Expr,
    ts: &'a [Seen],
) -> Read<'a, Expr>
    ensures { Gives (λ x. (x.0, x.1.now)) result (and_then (mark m.paren_close ts.now) (λ _. pure (expr_of place (variant.Concat (first ∷ second ∷ []))))) }
{
    let (_, rest) = paren_close(ts)?;
    let mut both = one(alloc, first)?;
    both.push(second)?;
    Ok((Expr::new(alloc, place, ExprNode::Concat(both))?, rest))
}

/// `::` and a name behind a type.
pub fn scoped<'a>(alloc: Global, of: TypeRead, ts: &'a [Seen]) -> Read<'a, Expr>
    ensures { Gives (λ x. (x.0, x.1.now)) result (and_then (mark m.scope ts.now) (λ _ us. and_then (name_at us) (λ y. pure (expr_of of.place (variant.Scoped of.ty y.0))))) }
{
    let (_, rest) = scope(ts)?;
    let ((member, _), rest) = name_at(rest)?;
    let node = ExprNode::Scoped { ty: of.ty, member };
    Ok((Expr::new(alloc, of.place, node)?, rest))
}

/// The rest of a primary that begins with a name, which stands at the place.
#[tactic(auto, unfolding(scc_grammar_spec::specs::ParseExpressions::primary_by))]
pub fn name_rest<'a>(c: Reader, x: Name, p: Place, ts: &'a [Seen]) -> Read<'a, Expr>
    ensures { Gives (λ x. (x.0, x.1.now)) result (e.primary_by c.entry.names.now (inner c.entry.names.now c.entry.levels) (f.value_start x) p ts.now) }
{
    if !begins_scope(ts) {
        return Ok((Expr::new(c.alloc, p, ExprNode::Ident(x))?, ts));
    }
    let (_, rest) = scope(ts)?;
    let ((member, _), rest) = name_at(rest)?;
    let node = TyNode::Named {
        name: x,
        args: None,
    };
    let ty = base_of(c.alloc, p, node)?;
    Ok((
        Expr::new(c.alloc, p, ExprNode::Scoped { ty, member })?,
        rest,
    ))
}

/// `true` or `false` as a number of one bit.
pub fn truth_of(alloc: Global, place: Place, b: bool) -> Result<Expr, NoMemory>
    ensures { IfOk result (λ x. x ≡ nodes.truth_of place b) }
{
    let bits = if b { 1 } else { 0 };
    Expr::new(alloc, place, ExprNode::Number(Kind::Bool, Word { bits }))
}

/// An operand of this node, which is read.
pub fn operand_of(alloc: Global, place: Place, node: ExprNode, ts: &[Seen]) -> Read<'_, Placed>
    ensures { Gives (λ x. (x.0, x.1.now)) result (pure (e.placed place (expr_of place node)) ts.now) }
{
    let of = Expr::new(alloc, place, node)?;
    Ok((Placed { place, of }, ts))
}

/// A member of what stands before it.
pub fn member(ts: &[Seen]) -> Read<'_, (Part, bool)>
    ensures { Gives (λ x. (x.0, x.1.now)) result (and_then (name_at ts.now) (λ x. pure (nodes.part_of x.1 (step.Member x.0), false))) }
{
    let ((x, place), rest) = name_at(ts)?;
    let node = PartNode::Member(x);
    Ok(((Part { place, node }, false), rest))
}

/// A member of what the pointer before it points to.
pub fn arrow(ts: &[Seen]) -> Read<'_, (Part, bool)>
    ensures { Gives (λ x. (x.0, x.1.now)) result (and_then (name_at ts.now) (λ x. pure (nodes.part_of x.1 (step.Arrow x.0), false))) }
{
    let ((x, place), rest) = name_at(ts)?;
    let node = PartNode::Arrow(x);
    Ok(((Part { place, node }, false), rest))
}
