//! Bodies that functions share: a pattern, or a call that may fail, can't be a parameter of a function.

/// The place of the next token where it is this terminal, and the tokens behind it.
macro_rules! expect {
    ($ts:ident, $terminal:pat) => {
        match $ts {
            [
                Seen {
                    terminal: $terminal,
                    place,
                },
                rest @ ..,
            ] => Ok((*place, rest)),
            _ => Err($crate::halt::Halt::Unexpected($crate::halt::place_of($ts))),
        }
    };
}

pub(crate) use expect;

/// Whether the next token is this terminal.
macro_rules! is_at {
    ($ts:ident, $terminal:pat) => {
        matches!(
            $ts,
            [
                Seen {
                    terminal: $terminal,
                    ..
                },
                ..
            ]
        )
    };
}

pub(crate) use is_at;
