use scc_base::Place;
use scc_tree::{Expr, LocalTree, SimpleTree, Ty};

/// How a type begins, by which it may go on as an expression.
#[derive(Clone, Copy, PartialEq, Eq)]
pub enum Sort {
    /// With `const`.
    Constant,
    /// With another word.
    Word,
    /// With a name.
    Named,
}

/// A type that was read.
#[derive(Drop)]
pub struct TypeRead {
    pub place: Place,
    pub ty: Ty,
    pub sort: Sort,
    /// Its last token is a `>>` that closes the list around it, too.
    pub both: bool,
}

/// An expression with the place of its first token, brackets included.
#[derive(Drop)]
pub struct Placed {
    pub place: Place,
    pub of: Expr,
}

/// What stands behind a `(`, up to a `,` or `)`.
#[derive(Drop)]
pub enum Bracketed {
    AType(Ty),
    AnExpr(Expr),
}

/// A statement that begins with a type or an expression, before its `;`.
#[derive(Drop)]
pub enum Line {
    ALocal(LocalTree),
    ASimple(SimpleTree),
}
