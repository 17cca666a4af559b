//! Kinds of numbers, the words that hold them, and the operators on them: what the operators answer for words of every
//! kind, and numbers as values that carry their kind.
#![tactic(auto)]

mod application;
mod bits;
mod form;
mod laws;
mod number;
mod operands;
mod result;
mod taken;
mod value;

pub use application::apply;
pub use bits::{concat, replace, select};
pub use laws::operands_keep_answer;
pub use operands::Operands;
pub use result::{operand_kinds, result_kind, too_wide};
pub use scc_bits_kinds::{
    Group, Kind, Op, Row, Rule, Table, Word, bits_are_in_twos_complement, choice_kind, common,
    concat_kind, conv, converts, counted, find_rule, fits, group_of, has_bits, is_bits, is_large,
    is_part, is_small, operate, operators, promoted, range_kind, rule_of, signed, takes_right,
    valid, width, words_hold_numbers,
};
pub use value::{Fault, JoinFault, Value};
