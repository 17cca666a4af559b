//! A look at the core without pointers: whether it is one of which the laws of such cores speak. It takes a time that is linear in the core.
#![tactic(auto)]

mod cells;
mod code;
mod exits;
mod laws;
mod locals;
mod names;
mod processes;
mod rows;
mod seen;
mod terms;
mod whole;
mod wholes;

pub use cells::names_differ;
pub use exits::{exits_stay, statement_exits_stay};
pub use laws::a_cell_of_a_resolved_core_has_its_name_for_itself;
pub use locals::{cell_fits, cells_fit};
pub use names::processes_differ;
pub use processes::{are_clocked, is_clocked};
pub use rows::{Row, Rows, rows_of};
pub use seen::{Seen, Test};
pub use terms::Ground;
pub use whole::is_resolved;
pub use wholes::cells_are_whole;
