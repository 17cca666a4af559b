//! What an effect and a segment leave, and what that depends on. Lemmas alone, which other crates cite.
#![tactic(auto)]
