//! The grammar of emitted modules (IEEE 1800-2017), the modules as they are written, and reading as a function.
#![tactic(auto)]

mod division;
mod halt;
mod laws;
mod raw;

pub use division::is_division;
pub use halt::Halt;
pub use laws::a_text_is_one_module;
pub use raw::{
    RawArm, RawBlock, RawExpr, RawItem, RawLeft, RawLiteral, RawLoad, RawModule, RawReset,
    RawSelect, RawSet, RawStmt, RawVar,
};
