//! The words that the subset keeps for itself, the words of C++ and SystemC that it leaves out, and the marks.
ghost use Rattle.std.specs.Prelude.{◌≡◌, ◌<◌, ◌≤◌, length, IfSome};
ghost use Rattle.scc_tokens_lexer.specs.Words.{word_index, is_outside, mark_index, mark_of, mark_at};

use crate::slots::{MARK_SLOTS, OUTSIDE_SLOTS, WORD_SLOTS, index_in};

/// The number of a word that the subset keeps for itself, counted from 0 in their list.
pub fn word_index(text: &[u8]) -> Option<u8>
    requires { 0 < length text.now }
    ensures value { result ≡ word_index text.now }
{
    match index_in(&WORDS, &WORD_SLOTS, text) {
        Some(i) => Some(i as u8),
        None => None,
    }
}

/// Whether a word is one of C++ or SystemC that the subset leaves out.
pub fn is_outside(text: &[u8]) -> bool
    requires { 0 < length text.now }
    ensures value { result ≡ is_outside text.now }
{
    index_in(&OUTSIDE_WORDS, &OUTSIDE_SLOTS, text).is_some()
}

/// The number of a mark, counted from 0 in their list.
fn mark_index(text: &[u8]) -> Option<u8>
    requires { 0 < length text.now }
    ensures value { result ≡ mark_index text.now }
{
    match index_in(&MARKS, &MARK_SLOTS, text) {
        Some(i) => Some(i as u8),
        None => None,
    }
}

// The mark that the first bytes are, at most so many of them, with its length.
fn mark_of(text: &[u8], most: usize) -> Option<(u8, usize)>
    requires some { 0 < most }
    requires text { 0 < length text.now }
    ensures value { result ≡ mark_of text.now most }
    ensures some { IfSome result (λ x. 0 < x.1) }
    ensures within { IfSome result (λ x. x.1 ≤ length text.now) }
{
    let n = most.min(text.len());
    let mark = mark_index(&text[..n])?;
    Some((mark, n))
}

/// The longest mark at the front, with its length.
#[tactic(auto, unfolding(crate::specs::Words::mark_at))]
pub fn mark_at(text: &[u8]) -> Option<(u8, usize)>
    requires { 0 < length text.now }
    ensures value { result ≡ mark_at text.now }
    ensures some { IfSome result (λ x. 0 < x.1) }
    ensures within { IfSome result (λ x. x.1 ≤ length text.now) }
{
    if let Some(found) = mark_of(text, 3) {
        return Some(found);
    }
    if let Some(found) = mark_of(text, 2) {
        return Some(found);
    }
    mark_of(text, 1)
}

/// The words that the subset keeps for itself, in the order of their numbers (C++, "Keywords"; IEEE 1666-2011).
pub const WORDS: [&str; 69] = [
    "bool",
    "break",
    "case",
    "char",
    "class",
    "concat",
    "const",
    "continue",
    "default",
    "do",
    "else",
    "enum",
    "explicit",
    "false",
    "for",
    "if",
    "inline",
    "int",
    "int64",
    "namespace",
    "new",
    "NULL",
    "nullptr",
    "private",
    "protected",
    "public",
    "return",
    "short",
    "signed",
    "static",
    "static_cast",
    "struct",
    "switch",
    "template",
    "this",
    "true",
    "typedef",
    "typename",
    "uint64",
    "unsigned",
    "using",
    "void",
    "wait",
    "while",
    "SC_MODULE",
    "SC_CTOR",
    "SC_HAS_PROCESS",
    "SC_METHOD",
    "SC_THREAD",
    "SC_CTHREAD",
    "sc_module",
    "sc_module_name",
    "sc_in",
    "sc_in_clk",
    "sc_out",
    "sc_signal",
    "sc_vector",
    "sc_int",
    "sc_uint",
    "sc_biguint",
    "sc_bv",
    "sc_core",
    "sc_dt",
    "std",
    "sensitive",
    "dont_initialize",
    "reset_signal_is",
    "async_reset_signal_is",
    "sc_bigint",
];

/// The words of C++ and of SystemC that the subset leaves out.
pub const OUTSIDE_WORDS: [&str; 60] = [
    "alignas",
    "alignof",
    "and",
    "and_eq",
    "asm",
    "auto",
    "bitand",
    "bitor",
    "catch",
    "char16_t",
    "char32_t",
    "compl",
    "const_cast",
    "constexpr",
    "decltype",
    "delete",
    "double",
    "dynamic_cast",
    "extern",
    "float",
    "friend",
    "goto",
    "long",
    "mutable",
    "noexcept",
    "not",
    "not_eq",
    "operator",
    "or",
    "or_eq",
    "register",
    "reinterpret_cast",
    "sizeof",
    "static_assert",
    "thread_local",
    "throw",
    "try",
    "typeid",
    "union",
    "virtual",
    "volatile",
    "wchar_t",
    "xor",
    "xor_eq",
    "sc_fixed",
    "sc_ufixed",
    "sc_fix",
    "sc_ufix",
    "sc_lv",
    "sc_logic",
    "sc_event",
    "sc_time",
    "sc_clock",
    "sc_fifo",
    "sc_inout",
    "sc_spawn",
    "halt",
    "wait_until",
    "next_trigger",
    "sc_gen_unique_name",
];

/// The marks, in the order of their numbers (C++, "Operators and punctuators"). The mark `#` is the last of the
/// list; it begins directives alone, so no text has it as a token.
pub const MARKS: [&str; 47] = [
    "{", "}", "(", ")", "[", "]", "<", ">", ";", ",", ":", "::", ".", "->", "?", "=", "+", "-",
    "*", "/", "%", "&", "|", "^", "~", "!", "<<", ">>", "<=", ">=", "==", "!=", "&&", "||", "++",
    "--", "+=", "-=", "*=", "/=", "%=", "&=", "|=", "^=", "<<=", ">>=", "#",
];
