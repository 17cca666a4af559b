//! Modules of SystemVerilog as trees.
#![tactic(auto)]

mod class;
mod evaluate;
mod expr;
mod laws;
mod module;
mod resize;
mod sizing;
mod stmt;

pub use evaluate::{value, written};
pub use expr::{SvBinary, SvExpr, SvExprNode, SvLeft, SvLiteral, SvUnary, VarId};
pub use laws::{
    a_sound_module_settles_once, casts_and_sums_as_worked_by_hand, there_is_one_settled_valuation,
};
pub use module::{Dir, SvBlock, SvLoad, SvModule, SvReset, SvSet, SvVar};
pub use sizing::{length, signed, width};
pub use stmt::{SvArm, SvStmt};
