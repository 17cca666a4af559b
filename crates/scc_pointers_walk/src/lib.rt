//! Expressions and locations without pointers: the objects to which they lead stand in their place.
//!
//! `held` says where pointers lead, `follow` what a location follows, `locate` goes on with a location part by part,
//! `sizes` has the sizes of vectors; `walk` has locations and expressions without pointers.
#![tactic(auto)]

mod follow;
pub mod held;
pub mod laws;
mod locate;
mod sizes;
mod walk;

pub use held::Resolver;
pub use walk::{expression, location, target, walked};
