//! What stands round an expression.
use scc_plain_tree::{Plain, PlainFunction};
use std::alloc::Global;

/// The program and function of an expression, and the functions that are called before it.
#[derive(Clone, Copy)]
pub(crate) struct Scope<'a> {
    pub alloc: Global,
    pub plain: &'a Plain,
    pub function: &'a PlainFunction,
    pub calls: &'a [u32],
}

/// No program has expressions nested so deep.
pub(crate) const ROOM: u32 = 8_192;
