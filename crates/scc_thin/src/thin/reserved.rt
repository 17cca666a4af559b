//! The words that name nothing in a thin text.
ghost use Rattle.std.specs.Prelude.{◌≡◌, ◌||◌, bytes_eq};
ghost use Rattle.scc_thin.specs.Reserved.{is_reserved};

use scc_svtext::is_reserved_word;

/// Whether an identifier is a word of SystemVerilog, or the macro that is defined at the start.
#[tactic(auto, unfolding(crate::specs::Reserved::is_reserved))]
pub fn is_reserved(name: &[u8]) -> bool
    ensures reserved { result ≡ is_reserved name.now }
{
    is_reserved_word(name) || name == SYNTHESIS.as_bytes()
}

const SYNTHESIS: &str = "SCC_SYNTHESIS";
