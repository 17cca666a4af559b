//! Tests of the stages behind the grammar by their own calls: constants, the objects of a design, and thin texts by both ways.
#![tactic(auto)]

#[cfg(test)]
mod elaborated;
#[cfg(test)]
mod templates;
#[cfg(test)]
mod thin;
#[cfg(test)]
mod trees;
