//! The pieces of a module's text, for texts of several modules and for those with memories.
pub use crate::block::{blocks, branch, edge, signal};
pub use crate::digits::{blank, fixed, literal, number};
pub use crate::expr::{binary, left, name, sign, unary};
pub use crate::fixed::Fixed;
pub use crate::header::{decl, decls, ports};
pub use crate::spelling::{spell, spellings};
