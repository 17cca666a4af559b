//! Emitted modules whose arrays of registers are memories.
//!
//! `module` has the types; `declared`, `rewrite` and `making` make a module with memories (`memories`); `printing`,
//! `written` and `printed` print it (`print_memory`); `opened`, `address`, `opening` and `spread` make its memories
//! arrays again (`expanded`).
#![tactic(auto)]

mod address;
mod declared;
mod expressions;
mod making;
mod module;
mod opened;
mod opening;
mod printed;
mod printing;
mod rewrite;
mod spread;
mod written;

pub use making::memories;
pub use module::{MemArm, MemBlock, MemExpr, MemExprNode, MemModule, MemSet, MemStmt, Memory};
pub use printed::print_memory;
pub use spread::expanded;
