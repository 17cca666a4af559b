//! Words: each is read with its place.
ghost use Rattle.std.specs.Prelude.{◌≡◌};
ghost use Rattle.scc_grammar_terminals.specs.Answer.{Gives};
ghost use Rattle.scc_grammar_terminals.specs.Marks as m;
ghost use Rattle.scc_grammar_terminals.specs.Text.{mark, next_is};
ghost use Rattle.scc_reading.specs.Reading.{is_next};

use crate::macros::expect;
use crate::reader::Read;
use crate::terminal::{Seen, Terminal};
use scc_base::Place;

pub fn constant(ts: &[Seen]) -> Read<'_, Place>
    ensures { Gives (λ x. (x.0, x.1.now)) result (mark m.constant ts.now) }
{
    expect!(ts, Terminal::Const)
}

pub fn int(ts: &[Seen]) -> Read<'_, Place>
    ensures { Gives (λ x. (x.0, x.1.now)) result (mark m.int ts.now) }
{
    expect!(ts, Terminal::Int)
}

pub fn short(ts: &[Seen]) -> Read<'_, Place>
    ensures { Gives (λ x. (x.0, x.1.now)) result (mark m.short ts.now) }
{
    expect!(ts, Terminal::Short)
}

pub fn char(ts: &[Seen]) -> Read<'_, Place>
    ensures { Gives (λ x. (x.0, x.1.now)) result (mark m.char ts.now) }
{
    expect!(ts, Terminal::Char)
}

pub fn text(ts: &[Seen]) -> Read<'_, Place>
    ensures { Gives (λ x. (x.0, x.1.now)) result (mark m.text ts.now) }
{
    expect!(ts, Terminal::Text)
}

pub fn new_word(ts: &[Seen]) -> Read<'_, Place>
    ensures { Gives (λ x. (x.0, x.1.now)) result (mark m.new_word ts.now) }
{
    expect!(ts, Terminal::New)
}

pub fn else_word(ts: &[Seen]) -> Read<'_, Place>
    ensures { Gives (λ x. (x.0, x.1.now)) result (mark m.else_word ts.now) }
{
    expect!(ts, Terminal::Else)
}

pub fn while_word(ts: &[Seen]) -> Read<'_, Place>
    ensures { Gives (λ x. (x.0, x.1.now)) result (mark m.while_word ts.now) }
{
    expect!(ts, Terminal::While)
}

pub fn case_word(ts: &[Seen]) -> Read<'_, Place>
    ensures { Gives (λ x. (x.0, x.1.now)) result (mark m.case_word ts.now) }
{
    expect!(ts, Terminal::Case)
}

pub fn default_word(ts: &[Seen]) -> Read<'_, Place>
    ensures { Gives (λ x. (x.0, x.1.now)) result (mark m.default_word ts.now) }
{
    expect!(ts, Terminal::Default)
}

pub fn void_word(ts: &[Seen]) -> Read<'_, Place>
    ensures { Gives (λ x. (x.0, x.1.now)) result (mark m.void_word ts.now) }
{
    expect!(ts, Terminal::Void)
}

pub fn public_word(ts: &[Seen]) -> Read<'_, Place>
    ensures { Gives (λ x. (x.0, x.1.now)) result (mark m.public_word ts.now) }
{
    expect!(ts, Terminal::Public)
}

pub fn module_base(ts: &[Seen]) -> Read<'_, Place>
    ensures { Gives (λ x. (x.0, x.1.now)) result (mark m.module_base ts.now) }
{
    expect!(ts, Terminal::ModuleBase)
}

pub fn namespace(ts: &[Seen]) -> Read<'_, Place>
    ensures { Gives (λ x. (x.0, x.1.now)) result (mark m.namespace ts.now) }
{
    expect!(ts, Terminal::Namespace)
}

pub fn library(ts: &[Seen]) -> Read<'_, Place>
    ensures { Gives (λ x. (x.0, x.1.now)) result (mark m.library ts.now) }
{
    expect!(ts, Terminal::Library)
}

pub fn inline_word(ts: &[Seen]) -> Read<'_, Place>
    ensures { Gives (λ x. (x.0, x.1.now)) result (mark m.inline_word ts.now) }
{
    expect!(ts, Terminal::Inline)
}

pub fn module_word(ts: &[Seen]) -> Read<'_, Place>
    ensures { Gives (λ x. (x.0, x.1.now)) result (mark m.module_word ts.now) }
{
    expect!(ts, Terminal::Module)
}
