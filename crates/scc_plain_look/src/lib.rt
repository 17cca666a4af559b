//! A look at a finished plain program: whether its numbers name what is there, its kinds are kinds, its words fit them, its ranges are
//! in order and its divisors aren't 0.
#![tactic(auto)]

mod constant;
mod declared;
mod demand;
mod expression;
mod held;
mod number;
mod place;
mod scope;
mod single;
mod whole;

pub use whole::look;
