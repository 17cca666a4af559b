//! Statements and names of the core as those of the emitted text.
#![tactic(auto)]

mod assign;
mod exits;
mod laws;
mod name;
mod stmt;
mod whole;

pub use exits::{greatest_exit, greatest_exit_of};
pub use laws::{
    cells_have_texts_of_their_own, lowered_expressions_have_their_values,
    lowered_statements_do_what_they_do,
};
pub use name::sv_name;
pub use scc_lower_expressions::known::{cell_of, cells_of, known_word};
pub use scc_lower_expressions::lowering::{Cells, Lowering, View};
pub use stmt::{lowered_expr, lowered_stmt, lowered_stmts};
pub use whole::{lower_expr, lower_stmts};
