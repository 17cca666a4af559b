//! From a module to modules that hold instances of one another (IEEE 1800-2017, section 23.3), and back.
//!
//! `tree` and `paths` have the module objects, `plan` and `ports` where they and their variables stand; `names` and
//! `bodies` make a module for each object, equal ones once; `module` has `hier`, and `flat` has `flatten`, which
//! makes one module again.
#![tactic(auto)]

mod block;
mod bodies;
mod flat;
mod mention;
mod module;
mod names;
mod paths;
mod plan;
mod ports;
mod tree;

pub use block::renumbered_block;
pub use flat::flatten;
pub use module::hier;
pub use paths::Paths;
pub use plan::{HierPlan, HierPort};
pub use scc_hier_text::{Hier, HierModule, Instance};
pub use tree::walk;
