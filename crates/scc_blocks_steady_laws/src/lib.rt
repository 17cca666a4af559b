//! A resolved core whose rules aren't broken is steady, as its modules need it: laws of the definitions.
#![tactic(auto)]

mod laws;

pub use laws::a_resolved_core_is_steady;
