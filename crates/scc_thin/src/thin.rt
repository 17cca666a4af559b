//! Thin texts: one module with one combinational method that writes to ports.
ghost use Rattle.std.specs.Prelude.{◌≡◌, ◌<◌, ◌^◌, length, IfOk};
ghost use Rattle.scc_thin.specs.Gives.{Gives};
ghost use Rattle.scc_thin.specs.Thin.{thin_of};

mod index;
mod numbers;
mod parse;
mod reserved;
mod resolve;
mod token;
mod tree;

use crate::design::Design;
use crate::halt::Halt;
use scc_base::Names;
use scc_tokens::Token;
use std::alloc::Global;

/// The design that joined tokens denote for a top, where they are a thin text.
#[tactic(auto, unfolding(crate::specs::Thin::thin_of))]
pub fn read_design(
    alloc: Global,
    top: &[u8],
    names: &Names,
    tokens: &[Token],
) -> Result<Design, Halt>
    ensures value { Gives (λ d. d) result (thin_of names.now top.now tokens.now) }
    ensures few { IfOk result (λ d. length d.ports < 2 ^ 32) }
{
    let tokens = token::tokens(alloc, names, tokens)?;
    let tree = parse::tree(alloc, tokens.as_slice())?;
    resolve::design(alloc, top, &tree)
}
