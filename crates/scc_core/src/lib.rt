//! The core: what processes do, over cells, and the passes over it.
#![tactic(auto)]

mod copy;
mod expr;
mod named;
mod pass;
mod places;
mod program;
mod statics;
mod stmt;

pub use copy::{Copies, Counter, LEVELS, deeper, pointers, spine};
pub use expr::{CoreBase, CoreExpr, CoreExprNode, CoreLeft, CorePart, CorePick};
pub use named::{Dim, Named};
pub use pass::{Chain, Pass};
pub use places::{NameStep, Places, Spot, numbered};
pub use program::{Cell, CellName, CellSort, Core, CoreProcess, Edge2, Reset2, Sort2, VectorSize2};
pub use scc_base::{Path as Path2, PathPart as Path2Part};
pub use statics::{Counters, Known, first_operand, static_value};
pub use stmt::{CoreNode, CoreStmt, Count, Pointed};
