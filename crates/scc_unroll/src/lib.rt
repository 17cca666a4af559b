//! Counted loops, written out turn by turn.
//!
//! `pass` has `Unroll`; `own` says which local a location is, `uses` how often each is assigned, `shape` what
//! statements are and where they stand, `counted` which loops are counted, `look` finds the first that isn't. `turns`
//! has the turns of a counted loop, `ended` those that come to an end, `limits` counts those of a body, `loops` says
//! whether it has loops, `sizes` counts the statements of the unrolled body, which `built` writes of what `made` makes.
#![tactic(auto)]

mod built;
mod counted;
mod ended;
mod limits;
mod look;
mod loops;
mod made;
mod own;
mod pass;
mod shape;
mod sizes;
mod turns;
mod uses;

pub use pass::Unroll;
