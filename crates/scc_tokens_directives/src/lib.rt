//! What single tokens and lines of directives do: macros, conditionals, what an inclusion names, and the joined tokens as
//! they are made (C++, "Preprocessing directives").
//!
//! `lines`, `directive`, `define` and `included` take a line of a directive; `sides` and `active` have conditionals
//! and the tokens in them; `macros`, `expand` and `frames` have macros; `file` has what is kept of a file, `out`
//! takes the joined tokens, `halt` says why joining stops, `numbers` has the numbers of the keywords and marks that
//! are looked for. The definitions have the same names; `Expands` is the expansion of a macro by derivations.
#![tactic(auto)]

mod active;
pub mod define;
mod directive;
mod expand;
mod file;
mod frames;
mod halt;
mod included;
mod laws;
mod lines;
mod macros;
mod numbers;
mod out;
mod sides;

pub use active::take_token;
pub use directive::{Directive, Words, directive_of, is_line_end, line_len};
pub use file::{File, Source, first_unclosed, is_hash};
pub use halt::Halt;
pub use included::{Operand, included_name, is_own, operand_of, quoted};
pub use laws::macros_are_expanded;
pub use lines::{close_side, open_side, turn_side};
pub use macros::Macros;
pub use out::{Out, TOKENS};
pub use sides::Sides;
