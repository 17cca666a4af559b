//! The grammar of the subset, as relations between tokens and trees and as functions from tokens to trees. Definitions alone.
#![tactic(auto)]
