ghost use Rattle.std.specs.Prelude.{◌≡◌};
ghost use Rattle.scc_grammar_terminals.specs.Answer.{head_place};
ghost use Rattle.scc_grammar_terminals.specs.declared.halt.Halt.TheVariants as halt;

use crate::terminal::Seen;
use scc_base::{NoMemory, Place};

/// Why nothing is read: the place of the first token that is too many, or none at the end of the tokens.
#[derive(Clone, Copy)]
pub enum Halt {
    /// Memory ran out.
    NoMemory,
    /// No text of the grammar goes on so.
    Unexpected(Option<Place>),
    /// The token opens a level too many.
    TooDeep(Option<Place>),
}

impl From<NoMemory> for Halt {
    ghost from_gives = { λ _ e. e ≡ halt.NoMemory };

    fn from(_: NoMemory) -> Halt {
        Halt::NoMemory
    }
}

/// The place of the first token.
pub fn place_of(ts: &[Seen]) -> Option<Place>
    ensures { result ≡ head_place ts.now }
{
    match ts {
        [t, ..] => Some(t.place),
        [] => None,
    }
}
