//! The statements of bodies (C++, [stmt.stmt]; IEEE 1666-2011, 5.2): loops, `switch`, local variables, assignments, calls, and what
//! stands in constructors.
//!
//! `statement` and `stmts` have statements that hold others and lists of statements; `loops`, `count` and `switch`
//! have loops; `local`, `simple` and `port` local variables, assignments and calls; `construct`, `make` and `init`
//! what constructors hold; `function` functions whole.
#![tactic(auto)]

mod construct;
mod count;
mod function;
mod init;
mod local;
mod loops;
mod make;
mod port;
mod simple;
mod statement;
mod stmts;
mod switch;

pub use function::walk_body;
pub use make::{MadeAt, class_name, constructor, constructor_for, made_bare};
