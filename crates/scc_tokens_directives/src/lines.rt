//! What directives other than inclusions do (C++, "Conditional inclusion", "Macro replacement").
ghost use Rattle.std.specs.Prelude.{◌≡◌};
ghost use Rattle.scc_tokens_directives.specs.Steps.{Does};
ghost use Rattle.scc_tokens_directives.specs.Lines.{is_macro, is_at, side_opened, side_turned, side_closed};

use crate::directive::{is_named, refusal_of};
use crate::halt::Halt;
use crate::macros::Macros;
use crate::sides::Sides;
use scc_base::Code;
use scc_tokens_lexer::{Token, TokenKind};

fn bad_directive(hash: Token) -> Halt
    ensures { result ≡ Halt.Refused Code.Directive hash.place }
{
    Halt::Refused {
        code: Code::Directive, // E105
        place: hash.place,
    }
}

fn is_macro(macros: &Macros, kind: TokenKind) -> bool
    ensures { result ≡ is_macro macros.now kind }
{
    match kind {
        TokenKind::Ident(name) => macros.get(name).is_some(),
        _ => false,
    }
}

fn is_at(place: Option<u32>, at: u32) -> bool
    ensures { result ≡ is_at place at }
{
    match place {
        Some(p) => p == at,
        None => false,
    }
}

/// `#ifdef` and `#ifndef` in active text. `unclosed` is where the file's first conditional that is not closed begins.
///
/// Errors: E105 for a line of another form, E107 where it is the conditional at `unclosed`, E104 for a word that the subset
/// leaves out.
pub fn open_side(
    macros: &Macros,
    sides: &mut Sides,
    unclosed: Option<u32>,
    defined: bool,
    hash: Token,
    rest: &[Token],
) -> Result<(), Halt>
    ensures { Does sides.new result (side_opened macros.now unclosed defined hash rest.now sides.old) }
{
    let [t] = rest else {
        return Err(bad_directive(hash));
    };
    if !is_named(t.kind) {
        return Err(bad_directive(hash));
    }
    if is_at(unclosed, hash.place.at) {
        return Err(Halt::Refused {
            code: Code::OpenConditional, // E107
            place: hash.place,
        });
    }
    if let Some(code) = refusal_of(t.kind) {
        return Err(Halt::Refused {
            code,
            place: t.place,
        });
    }
    sides.open(is_macro(macros, t.kind) == defined)?;
    Ok(())
}

/// `#else`; what stands after it counts in active text alone. E105 where something does, and where no first side is open.
pub fn turn_side(sides: &mut Sides, hash: Token, rest: &[Token]) -> Result<(), Halt>
    ensures { Does sides.new result (side_turned hash rest.now sides.old) }
{
    if sides.live() && !rest.is_empty() {
        return Err(bad_directive(hash));
    }
    if !sides.turn()? {
        return Err(bad_directive(hash));
    }
    Ok(())
}

/// `#endif`; what stands after it counts in active text alone. E105 where something does, and where no conditional is open.
pub fn close_side(sides: &mut Sides, hash: Token, rest: &[Token]) -> Result<(), Halt>
    ensures { Does sides.new result (side_closed hash rest.now sides.old) }
{
    if sides.live() && !rest.is_empty() {
        return Err(bad_directive(hash));
    }
    if !sides.close() {
        return Err(bad_directive(hash));
    }
    Ok(())
}
