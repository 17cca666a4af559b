//! The plain program: classes and functions without templates, in which each name is a number, each expression has its kind
//! and each conversion is written out.
#![tactic(auto)]

mod copy;
mod expr;
mod program;
mod stmt;

pub use expr::{PlainBase, PlainExpr, PlainExprNode, PlainLeft, PlainPart, PlainPick};
pub use program::{Base, Plain, PlainClass, PlainFunction, PlainMember, Reach, Shape};
pub use stmt::{PlainArg, PlainCount, PlainNode, PlainSense, PlainStmt, PlainTarget};
