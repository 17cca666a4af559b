//! Which mark or word is the next token.
ghost use Rattle.std.specs.Prelude.{◌≡◌};
ghost use Rattle.scc_grammar_terminals.specs.Marks as m;
ghost use Rattle.scc_grammar_terminals.specs.Text.{next_is};
ghost use Rattle.scc_reading.specs.Reading.{is_next};

use crate::macros::is_at;
use crate::terminal::{Seen, Terminal};

pub fn begins_semicolon(ts: &[Seen]) -> bool
    ensures { result ≡ is_next (next_is m.semicolon) ts.now }
{
    is_at!(ts, Terminal::Semicolon)
}

pub fn begins_comma(ts: &[Seen]) -> bool
    ensures { result ≡ is_next (next_is m.comma) ts.now }
{
    is_at!(ts, Terminal::Comma)
}

pub fn begins_colon(ts: &[Seen]) -> bool
    ensures { result ≡ is_next (next_is m.colon) ts.now }
{
    is_at!(ts, Terminal::Colon)
}

pub fn begins_scope(ts: &[Seen]) -> bool
    ensures { result ≡ is_next (next_is m.scope) ts.now }
{
    is_at!(ts, Terminal::Scope)
}

pub fn begins_less(ts: &[Seen]) -> bool
    ensures { result ≡ is_next (next_is m.less) ts.now }
{
    is_at!(ts, Terminal::Less)
}

pub fn begins_greater(ts: &[Seen]) -> bool
    ensures { result ≡ is_next (next_is m.greater) ts.now }
{
    is_at!(ts, Terminal::Greater)
}

pub fn begins_question(ts: &[Seen]) -> bool
    ensures { result ≡ is_next (next_is m.question) ts.now }
{
    is_at!(ts, Terminal::Question)
}

pub fn begins_assign(ts: &[Seen]) -> bool
    ensures { result ≡ is_next (next_is m.assign) ts.now }
{
    is_at!(ts, Terminal::Assign)
}

pub fn begins_paren_open(ts: &[Seen]) -> bool
    ensures { result ≡ is_next (next_is m.paren_open) ts.now }
{
    is_at!(ts, Terminal::ParenOpen)
}

pub fn begins_paren_close(ts: &[Seen]) -> bool
    ensures { result ≡ is_next (next_is m.paren_close) ts.now }
{
    is_at!(ts, Terminal::ParenClose)
}

pub fn begins_bracket_open(ts: &[Seen]) -> bool
    ensures { result ≡ is_next (next_is m.bracket_open) ts.now }
{
    is_at!(ts, Terminal::BracketOpen)
}

pub fn begins_shift_left(ts: &[Seen]) -> bool
    ensures { result ≡ is_next (next_is m.shift_left) ts.now }
{
    is_at!(ts, Terminal::ShiftLeft)
}

pub fn begins_star_mark(ts: &[Seen]) -> bool
    ensures { result ≡ is_next (next_is m.star_mark) ts.now }
{
    is_at!(ts, Terminal::Star)
}

pub fn begins_and_mark(ts: &[Seen]) -> bool
    ensures { result ≡ is_next (next_is m.and_mark) ts.now }
{
    is_at!(ts, Terminal::And)
}

pub fn begins_constant(ts: &[Seen]) -> bool
    ensures { result ≡ is_next (next_is m.constant) ts.now }
{
    is_at!(ts, Terminal::Const)
}

pub fn begins_int(ts: &[Seen]) -> bool
    ensures { result ≡ is_next (next_is m.int) ts.now }
{
    is_at!(ts, Terminal::Int)
}

pub fn begins_short(ts: &[Seen]) -> bool
    ensures { result ≡ is_next (next_is m.short) ts.now }
{
    is_at!(ts, Terminal::Short)
}

pub fn begins_char(ts: &[Seen]) -> bool
    ensures { result ≡ is_next (next_is m.char) ts.now }
{
    is_at!(ts, Terminal::Char)
}

pub fn begins_text(ts: &[Seen]) -> bool
    ensures { result ≡ is_next (next_is m.text) ts.now }
{
    is_at!(ts, Terminal::Text)
}

pub fn begins_new_word(ts: &[Seen]) -> bool
    ensures { result ≡ is_next (next_is m.new_word) ts.now }
{
    is_at!(ts, Terminal::New)
}

pub fn begins_else_word(ts: &[Seen]) -> bool
    ensures { result ≡ is_next (next_is m.else_word) ts.now }
{
    is_at!(ts, Terminal::Else)
}

pub fn begins_case_word(ts: &[Seen]) -> bool
    ensures { result ≡ is_next (next_is m.case_word) ts.now }
{
    is_at!(ts, Terminal::Case)
}

pub fn begins_default_word(ts: &[Seen]) -> bool
    ensures { result ≡ is_next (next_is m.default_word) ts.now }
{
    is_at!(ts, Terminal::Default)
}

pub fn begins_void_word(ts: &[Seen]) -> bool
    ensures { result ≡ is_next (next_is m.void_word) ts.now }
{
    is_at!(ts, Terminal::Void)
}

pub fn begins_public_word(ts: &[Seen]) -> bool
    ensures { result ≡ is_next (next_is m.public_word) ts.now }
{
    is_at!(ts, Terminal::Public)
}

pub fn begins_inline_word(ts: &[Seen]) -> bool
    ensures { result ≡ is_next (next_is m.inline_word) ts.now }
{
    is_at!(ts, Terminal::Inline)
}

pub fn begins_module_word(ts: &[Seen]) -> bool
    ensures { result ≡ is_next (next_is m.module_word) ts.now }
{
    is_at!(ts, Terminal::Module)
}

pub fn begins_not_brace_close(ts: &[Seen]) -> bool
    ensures { result ≡ is_next (next_is m.not_brace_close) ts.now }
{
    match ts {
        [
            Seen {
                terminal: Terminal::BraceClose,
                ..
            },
            ..
        ] => false,
        [_, ..] => true,
        [] => false,
    }
}
