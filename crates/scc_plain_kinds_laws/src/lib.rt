//! What the static stage gives meets premises of the laws of the middle; no code.
#![tactic(auto)]

mod laws;

pub use laws::{
    elements_need_not_be_alike, what_the_static_stage_gives_is_kinded,
    what_the_static_stage_gives_is_whole,
};
