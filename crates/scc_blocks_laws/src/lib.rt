//! Laws between the register machine and the module.
#![tactic(auto)]

mod laws;

pub use laws::{
    a_block_makes_the_turn_of_its_process, a_module_follows_registers, a_module_shows_registers,
    a_settled_valuation_mirrors_settled_registers, an_order_ranks_methods,
    worked_modules_are_built,
};
