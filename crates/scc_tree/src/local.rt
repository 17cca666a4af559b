use crate::{Expr, Ty};
use scc_base::{List, Name, Place};

/// Whether a name stands for a value itself, or `*` or `&` stands before it.
#[derive(Clone, Copy, PartialEq, Eq)]
pub enum Hold {
    Direct,
    Pointer,
    Reference,
}

/// A declared name with the sizes of its arrays, outermost first (C++, [dcl.decl]); the place is the name's.
#[derive(Drop)]
pub struct Decl {
    pub place: Place,
    pub name: Name,
    pub hold: Hold,
    pub sizes: List<Expr>,
}

/// Local variables of one type (C++, [stmt.dcl]).
#[derive(Drop)]
pub struct LocalTree {
    pub ty: Ty,
    pub names: List<LocalDecl>,
}

/// One local variable with its initial value.
#[derive(Drop)]
pub struct LocalDecl {
    pub decl: Decl,
    pub value: Option<Expr>,
}
