//! A core in parts.
use scc_base::List;
use scc_core::Core;

/// The clocks of a core and its parts. Cells keep their numbers in each part.
#[derive(Drop)]
pub struct Domains {
    /// The clocks' cells in the order in which they are declared.
    pub clocks: List<u32>,
    /// For each clock, in the same order, a core with its processes; after them one with the combinational methods. What another
    /// part writes of signals and outputs is an input, and the locals of processes of other parts are of the process `ELSEWHERE`.
    pub parts: List<Core>,
}
