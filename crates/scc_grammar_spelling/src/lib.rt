//! Words and marks mean what they are spelled: the numbers that tokens have are tied to texts here, in the grammar, in thin texts and
//! in directives.
#![tactic(auto)]

mod laws;
mod table;
mod thin;

pub use laws::{
    directives_are_spelled, keywords_are_spelled, marks_are_spelled, numbers_have_one_spelling,
    puncts_are_spelled, thin_texts_are_spelled, words_are_spelled,
};
pub use table::{MARKS, WORDS};
pub use thin::{THIN_MARKS, THIN_WORDS};
