//! What the walk over bodies works with: expressions whose kinds are still open, forms of types, and the members of
//! SystemC's types (C++, [expr], [conv]; IEEE 1666-2011, section 7).
//!
//! `form` says what variables hold, `meant` what an expression names before it is a value, `flow` what stands round
//! a statement. `draft` and `join` alone make expressions, each with its constant where it has one. `pick` and
//! `target` take bits and pointers, `call` says what brackets call, `syntax` looks at trees.
#![tactic(auto)]

pub mod call;
pub mod draft;
pub mod flow;
pub mod form;
pub mod join;
pub mod meant;
pub mod pick;
pub mod refusal;
pub mod syntax;
pub mod target;
