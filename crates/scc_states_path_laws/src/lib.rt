//! Frames and segments go along one path. Lemmas alone, which other crates cite.
#![tactic(auto)]
