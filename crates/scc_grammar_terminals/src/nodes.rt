//! Trees of expressions and types.
ghost use Rattle.std.specs.Prelude.{◌≡◌, ◌∷◌, [], IfOk};
ghost use Rattle.scc_grammar_terminals.specs.Nodes as nodes;

use crate::terminal::Holder;
use scc_base::{List, NoMemory, Place};
use scc_tree::{Expr, ExprNode, Link, Part, Ty, TyNode};
use std::alloc::Global;

/// A list of one element.
pub fn one<T: Drop>(alloc: Global, x: T) -> Result<List<T>, NoMemory>
    ensures { IfOk result (λ l. l ≡ x ∷ []) }
{
    let mut list = List::new(alloc);
    list.push(x)?;
    Ok(list)
}

/// A type without `const`.
pub fn base_of(alloc: Global, place: Place, node: TyNode) -> Result<Ty, NoMemory>
    ensures { IfOk result (λ t. t ≡ nodes.base_of place node) }
{
    Ty::new(alloc, place, false, node)
}

/// The type with a `const` at the place before it.
pub fn constant_of(place: Place, of: Ty) -> Ty
    ensures { result ≡ nodes.constant_of place of }
{
    Ty {
        place,
        constant: true,
        node: of.node,
    }
}

pub fn held(holder: Holder, of: Ty) -> TyNode
    ensures { result ≡ nodes.held holder of }
{
    match holder {
        Holder::Input => TyNode::Input(of),
        Holder::Output => TyNode::Output(of),
        Holder::Signal => TyNode::Signal(of),
        Holder::Vector => TyNode::Vector(of),
    }
}

/// Operands without operators are the one operand.
pub fn chain_of(
    alloc: Global,
    place: Place,
    first: Expr,
    rest: List<Link>,
) -> Result<Expr, NoMemory>
    ensures { IfOk result (λ x. x ≡ nodes.chain_of place first rest) }
{
    if rest.len() == 0 {
        return Ok(first);
    }
    Expr::new(alloc, place, ExprNode::Chain { first, rest })
}

pub fn parts_of(alloc: Global, place: Place, of: Expr, parts: List<Part>) -> Result<Expr, NoMemory>
    ensures { IfOk result (λ x. x ≡ nodes.parts_of place of parts) }
{
    if parts.len() == 0 {
        return Ok(of);
    }
    Expr::new(alloc, place, ExprNode::Parts { of, parts })
}
