//! Values and locations in a constructor (ISO C++ [expr]; IEEE 1666-2011, 4.1: elaboration).
//!
//! Chains of operators and of pointers are as long as a text: they are gone down by loops, which keep their nodes,
//! and up again; all else by recursion. `numbers` has what operators make of numbers, `spots` where a part of a
//! left side leads, `walk` both for whole trees; `targets`, `args`, `picks` and `params` have what is made of them.
//! `Worths` of the definitions says what is said of a tree by its parts, `Meant` what that is in the words of
//! `scc_elab_spec`: the proof goes from the code to `Worths`, and by induction over trees from there.
#![tactic(auto)]

mod args;
mod depth;
mod numbers;
mod params;
mod picks;
mod spots;
mod targets;
mod walk;

pub use args::{Given, given_of};
pub use params::{give, pass};
pub use picks::{index_of, picked};
pub use spots::{Located, Site};
pub use targets::target_of;
pub use walk::{location_of, value_of};
