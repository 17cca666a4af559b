//! Reading by a grammar, for every type of tokens: reading functions, where a fault stands, and what a grammar's
//! reading functions have to satisfy. Definitions and lemmas alone, which other crates cite.
#![tactic(auto)]
