//! Kinds of numbers, the words that hold them, what the operators do to words, and the table of their rules.
#![tactic(auto)]

mod arithmetic;
mod constant;
mod convert;
mod counts;
mod expression;
mod group;
mod kind;
mod laws;
mod op;
mod operation;
mod rows;
mod rule;
mod table;
mod word;

pub use constant::counted;
pub use convert::conv;
pub use counts::{common, count, promoted, quotient_bits, room, some_signed, wide, wide_room};
pub use expression::{
    choice_kind, concat_kind, converts, has_bits, is_bits, is_large, is_part, is_small, range_kind,
};
pub use group::{Group, group_of};
pub use kind::{Kind, Word, fits, signed, valid, width};
pub use laws::{bits_are_in_twos_complement, words_hold_numbers};
pub use op::Op;
pub use operation::{calculate, operate, takes_right};
pub use rule::{Rule, rule_of};
pub use table::{Row, Table, find_rule, operators};
pub use word::{cut, cut_low, extend_by};
