//! Reads the text of emitted modules (IEEE 1800-2017).
#![tactic(auto)]

mod block;
mod module;
pub mod parts;
mod stmt;

pub use module::read_raw;
pub use scc_svread_grammar::{
    Halt, RawArm, RawBlock, RawExpr, RawItem, RawLeft, RawLiteral, RawLoad, RawModule, RawReset,
    RawSelect, RawSet, RawStmt, RawVar, a_text_is_one_module,
};
