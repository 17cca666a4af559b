//! Active tokens outside directives.
ghost use Rattle.std.specs.Prelude.{◌≡◌};
ghost use Rattle.scc_tokens_directives.specs.Steps.{Does};
ghost use Rattle.scc_tokens_directives.specs.Active.{token_taken};

use crate::directive::refusal_of;
use crate::expand::expand;
use crate::halt::Halt;
use crate::macros::Macros;
use crate::out::Out;
use scc_tokens_lexer::{Token, TokenKind};
use std::alloc::Global;

/// Joins an active token: a macro is expanded, and another token stands for itself.
///
/// Errors: E103 and E104 by the token (`refusal_of`), E110 where there are too many tokens or macro uses.
pub fn take_token(alloc: Global, macros: &Macros, out: &mut Out, t: Token) -> Result<(), Halt>
    ensures { Does out.new result (token_taken macros.now t out.old) }
{
    if let TokenKind::Ident(name) = t.kind {
        if macros.get(name).is_some() {
            return expand(alloc, macros, out, name, t.place);
        }
    }
    if let Some(code) = refusal_of(t.kind) {
        return Err(Halt::Refused {
            code,
            place: t.place,
        });
    }
    out.put(t)
}
