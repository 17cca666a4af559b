//! Where no size is wrong and no name is undeclared in what is written, and what it means then. Lemmas alone, which other
//! crates cite.
#![tactic(auto)]
