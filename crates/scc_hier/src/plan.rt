//! Where module objects stand.
use scc_base::{List, Text};
use scc_svtree::VarId;

/// A module object. The first plan is the top's, with an empty path.
#[derive(Drop)]
pub struct HierPlan {
    /// Its names and indices from the top on, joined by `$`. It begins with the parent's path and `$`, unless the parent is the top.
    pub path: Text,
    /// The number of the plan of the module object around it, which stands before it; of no meaning at the top.
    pub parent: u32,
    /// Its ports; of the top those of the module, in order and under their names.
    pub ports: List<HierPort>,
}

/// A port of a module object: its name there, and the variable that it is.
#[derive(Drop)]
pub struct HierPort {
    pub name: Text,
    pub var: VarId,
}
