//! The words and marks of thin texts by their spelling, in the order in which `scc_thin` numbers them.

/// The words of thin texts.
pub const THIN_WORDS: [&str; 8] = [
    "void",
    "SC_MODULE",
    "SC_CTOR",
    "SC_METHOD",
    "sc_in",
    "sc_out",
    "sc_uint",
    "sensitive",
];

/// The marks of thin texts.
pub const THIN_MARKS: [&str; 14] = [
    "{", "}", "(", ")", "<", ">", ";", ",", ".", "&", "|", "^", "<<", ">>",
];
