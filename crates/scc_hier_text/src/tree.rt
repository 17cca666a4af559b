//! Modules that hold instances of one another.
use scc_base::{List, Text};
use scc_svtree::{SvBlock, SvVar, VarId};

/// Modules, of which the first is the top.
#[derive(Drop)]
pub struct Hier {
    pub modules: List<HierModule>,
}

/// A module that may hold instances: its ports stand before its other variables.
#[derive(Drop)]
pub struct HierModule {
    pub name: Text,
    pub vars: List<SvVar>,
    pub instances: List<Instance>,
    pub blocks: List<SvBlock>,
}

/// An instance of a module (IEEE 1800-2017, section 23.3.2).
#[derive(Drop)]
pub struct Instance {
    /// By its place in the list of modules, from 0.
    pub module: u32,
    pub name: Text,
    /// The variable of the module around it that is connected to each port, in the order of the ports.
    pub wires: List<VarId>,
}
