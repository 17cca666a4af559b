//! The readers of a module's parts, for texts of several modules. Where one stops, the halt says how many bytes are left.
pub use crate::block::block;
pub use crate::module::{declaration, ports};
pub use scc_svread_expressions::bytes::{is_next, text, word_bytes};
pub use scc_svread_expressions::lexical::name;
