//! The syntax tree of a source: what the grammar says of its tokens, with the place of every part.
#![tactic(auto)]

mod expr;
mod item;
mod local;
mod simple;
mod stmt;
#[cfg(test)]
mod tests;
mod ty;

pub use expr::{Expr, ExprNode, Link, Part, PartNode, UnaryOp};
pub use item::{
    ClassTree, Enumerator, Field, FileTree, FunctionTree, Init, Item, ItemNode, Param, ParamSort,
    Prm,
};
pub use local::{Decl, Hold, LocalDecl, LocalTree};
pub use simple::{SimpleNode, SimpleTree};
pub use stmt::{ForFirst, Stmt, StmtNode, SwitchItem, SwitchNode};
pub use ty::{Family, Ty, TyArg, TyNode};
