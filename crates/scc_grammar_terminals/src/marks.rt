//! Marks: each is read with its place, or seen to be the next token.
ghost use Rattle.std.specs.Prelude.{◌≡◌};
ghost use Rattle.scc_grammar_terminals.specs.Answer.{Gives};
ghost use Rattle.scc_grammar_terminals.specs.Marks as m;
ghost use Rattle.scc_grammar_terminals.specs.Text.{mark, next_is};
ghost use Rattle.scc_reading.specs.Reading.{is_next};

use crate::macros::expect;
use crate::reader::Read;
use crate::terminal::{Seen, Terminal};
use scc_base::Place;

pub fn semicolon(ts: &[Seen]) -> Read<'_, Place>
    ensures { Gives (λ x. (x.0, x.1.now)) result (mark m.semicolon ts.now) }
{
    expect!(ts, Terminal::Semicolon)
}

pub fn comma(ts: &[Seen]) -> Read<'_, Place>
    ensures { Gives (λ x. (x.0, x.1.now)) result (mark m.comma ts.now) }
{
    expect!(ts, Terminal::Comma)
}

pub fn colon(ts: &[Seen]) -> Read<'_, Place>
    ensures { Gives (λ x. (x.0, x.1.now)) result (mark m.colon ts.now) }
{
    expect!(ts, Terminal::Colon)
}

pub fn scope(ts: &[Seen]) -> Read<'_, Place>
    ensures { Gives (λ x. (x.0, x.1.now)) result (mark m.scope ts.now) }
{
    expect!(ts, Terminal::Scope)
}

pub fn less(ts: &[Seen]) -> Read<'_, Place>
    ensures { Gives (λ x. (x.0, x.1.now)) result (mark m.less ts.now) }
{
    expect!(ts, Terminal::Less)
}

pub fn greater(ts: &[Seen]) -> Read<'_, Place>
    ensures { Gives (λ x. (x.0, x.1.now)) result (mark m.greater ts.now) }
{
    expect!(ts, Terminal::Greater)
}

pub fn question(ts: &[Seen]) -> Read<'_, Place>
    ensures { Gives (λ x. (x.0, x.1.now)) result (mark m.question ts.now) }
{
    expect!(ts, Terminal::Question)
}

pub fn assign(ts: &[Seen]) -> Read<'_, Place>
    ensures { Gives (λ x. (x.0, x.1.now)) result (mark m.assign ts.now) }
{
    expect!(ts, Terminal::Assign)
}

pub fn paren_open(ts: &[Seen]) -> Read<'_, Place>
    ensures { Gives (λ x. (x.0, x.1.now)) result (mark m.paren_open ts.now) }
{
    expect!(ts, Terminal::ParenOpen)
}

pub fn paren_close(ts: &[Seen]) -> Read<'_, Place>
    ensures { Gives (λ x. (x.0, x.1.now)) result (mark m.paren_close ts.now) }
{
    expect!(ts, Terminal::ParenClose)
}

pub fn bracket_open(ts: &[Seen]) -> Read<'_, Place>
    ensures { Gives (λ x. (x.0, x.1.now)) result (mark m.bracket_open ts.now) }
{
    expect!(ts, Terminal::BracketOpen)
}

pub fn bracket_close(ts: &[Seen]) -> Read<'_, Place>
    ensures { Gives (λ x. (x.0, x.1.now)) result (mark m.bracket_close ts.now) }
{
    expect!(ts, Terminal::BracketClose)
}

pub fn brace_open(ts: &[Seen]) -> Read<'_, Place>
    ensures { Gives (λ x. (x.0, x.1.now)) result (mark m.brace_open ts.now) }
{
    expect!(ts, Terminal::BraceOpen)
}

pub fn brace_close(ts: &[Seen]) -> Read<'_, Place>
    ensures { Gives (λ x. (x.0, x.1.now)) result (mark m.brace_close ts.now) }
{
    expect!(ts, Terminal::BraceClose)
}

pub fn shift_left(ts: &[Seen]) -> Read<'_, Place>
    ensures { Gives (λ x. (x.0, x.1.now)) result (mark m.shift_left ts.now) }
{
    expect!(ts, Terminal::ShiftLeft)
}

pub fn star_mark(ts: &[Seen]) -> Read<'_, Place>
    ensures { Gives (λ x. (x.0, x.1.now)) result (mark m.star_mark ts.now) }
{
    expect!(ts, Terminal::Star)
}

pub fn and_mark(ts: &[Seen]) -> Read<'_, Place>
    ensures { Gives (λ x. (x.0, x.1.now)) result (mark m.and_mark ts.now) }
{
    expect!(ts, Terminal::And)
}
