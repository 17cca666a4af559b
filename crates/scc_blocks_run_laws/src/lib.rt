//! What a run of a process's block leaves. Lemmas alone, which other crates cite.
#![tactic(auto)]
