//! Expands macros.
ghost use Rattle.std.specs.Prelude.{◌≡◌, Some, None, slice_get, option_map, OnSome, OnOk, ◌+◌, ◌<◌, ◌≤◌, ◌^◌};
ghost use Rattle.scc_tokens_directives.specs.Macros.{expanded, macro_of};
ghost use Rattle.scc_tokens_directives.specs.Steps.{Does};
ghost use Rattle.scc_tokens_directives.specs.Expand.{body_of, used_kind, frames_behind, out_behind, uses_behind};

use crate::frames::{Frame, Frames};
use crate::halt::Halt;
use crate::macros::Macros;
use crate::out::Out;
use scc_base::{Name, Place};
use scc_tokens_lexer::{Token, TokenKind};
use std::alloc::Global;

// The macro that a token uses within these expansions.
fn used(macros: &Macros, frames: &Frames, kind: TokenKind) -> Option<Name>
    ensures { option_map (λ n. n.0) result ≡ used_kind macros.now frames.now kind }
{
    match kind {
        TokenKind::Ident(name) if !frames.hide(name) && macros.get(name).is_some() => Some(name),
        _ => None,
    }
}

// The token that comes next in an expansion.
fn next_token(macros: &Macros, frame: Frame) -> Option<Token>
    ensures value { result ≡ slice_get (body_of macros.now frame.name) frame.at }
    ensures within { OnSome result (frame.at + 1 < 2 ^ 64) }
{
    let body = macros.get(Name(frame.name))?;
    if frame.at >= body.len() {
        return None;
    }
    body.get(frame.at).copied()
}

// Takes the next token of the innermost expansion, which is not among the others.
fn take_next(
    macros: &Macros,
    frames: &mut Frames,
    out: &mut Out,
    place: Place,
    frame: Frame,
) -> Result<(), Halt>
    ensures frames { OnOk result (frames.new ≡ frames_behind macros.now frame frames.old) }
    ensures value { Does out.new result (out_behind macros.now place frame frames.old out.old) }
    ensures uses { OnOk result (out.new.uses ≡ out.old.uses + uses_behind macros.now frame frames.old) }
    ensures few { out.old.uses ≤ 262144 → OnOk result (out.new.uses ≤ 262144) }
{
    let Some(t) = next_token(macros, frame) else {
        return Ok(());
    };
    frames.push(Frame {
        name: frame.name,
        at: frame.at + 1,
    })?;
    match used(macros, frames, t.kind) {
        Some(inner) => {
            out.count_use(place)?;
            frames.push(Frame {
                name: inner.0,
                at: 0,
            })?;
        }
        None => out.put(Token {
            kind: t.kind,
            place,
            len: t.len,
        })?,
    }
    Ok(())
}

/// Replaces a use of a macro by its tokens.
pub fn expand(
    alloc: Global,
    macros: &Macros,
    out: &mut Out,
    name: Name,
    place: Place,
) -> Result<(), Halt>
    ensures { Does out.new result (expanded macros.now place name.0 (body_of macros.now name.0) out.old) }
{
    let mut frames = Frames::new(alloc);
    out.count_use(place)?;
    frames.push(Frame {
        name: name.0,
        at: 0,
    })?;
    'expansions: while let Some(frame) = frames.pop() {
        take_next(macros, &mut frames, out, place, frame)?;
    }
    Ok(())
}
