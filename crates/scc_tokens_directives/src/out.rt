//! The joined tokens as they are made.
ghost use Rattle.std.specs.Prelude.{◌≡◌, ◌+◌, ◌≤◌, [], None, OnOk};
ghost use Rattle.scc_tokens_directives.specs.Steps.{Does};
ghost use Rattle.scc_tokens_directives.specs.Out.{pushed, flushed, put_token, counted, is_scope_word, is_scope_mark};

use crate::halt::Halt;
use crate::numbers::{SC_CORE, SC_DT, SCOPE};
use scc_base::{Code, List, Place};
use scc_tokens_lexer::{Token, TokenKind, Tokens};
use std::alloc::Global;

/// The greatest number of joined tokens.
pub const TOKENS: usize = 262_144;

/// The greatest number of macro uses that are expanded.
pub const USES: u32 = 262_144;

/// The joined tokens so far.
#[derive(Drop)]
pub struct Out {
    pub tokens: Tokens,
    /// A `sc_core` or `sc_dt` after them, which is dropped where `::` follows it.
    pub scope: Option<Token>,
    /// How many macro uses were expanded.
    pub uses: u32,
}

fn is_scope_word(t: Token) -> bool
    ensures { result ≡ is_scope_word t }
{
    matches!(t.kind, TokenKind::Word(SC_CORE | SC_DT))
}

fn is_scope_mark(t: Token) -> bool
    ensures { result ≡ is_scope_mark t }
{
    matches!(t.kind, TokenKind::Mark(SCOPE))
}

impl Out {
    /// No tokens.
    pub fn new(alloc: Global) -> Out
        ensures tokens { result.tokens ≡ [] }
        ensures scope { result.scope ≡ None }
        ensures uses { result.uses ≡ 0 }
    {
        Out {
            tokens: List::new(alloc),
            scope: None,
            uses: 0,
        }
    }

    // Appends a token, of which there are too many from the 262,145th on.
    fn push(&mut self, t: Token) -> Result<(), Halt>
        ensures value { Does self.new result (pushed self.old t) }
        ensures uses { self.new.uses ≡ self.old.uses }
    {
        if self.tokens.len() >= TOKENS {
            return Err(Halt::Refused {
                code: Code::TooManyTokens, // E110
                place: t.place,
            });
        }
        self.tokens.push(t)?;
        Ok(())
    }

    /// Appends the word that waits for a `::`, which does not come. E110 where there is no room for it.
    pub fn flush(&mut self) -> Result<(), Halt>
        ensures value { Does self.new result (flushed self.old) }
        ensures uses { self.new.uses ≡ self.old.uses }
    {
        match self.scope {
            None => Ok(()),
            Some(t) => {
                self.scope = None;
                self.push(t)
            }
        }
    }

    /// Takes a joined token: `sc_core ::` and `sc_dt ::` are dropped. E110 where there is no room.
    pub fn put(&mut self, t: Token) -> Result<(), Halt>
        ensures value { Does self.new result (put_token self.old t) }
        ensures uses { self.new.uses ≡ self.old.uses }
    {
        if self.scope.is_some() && is_scope_mark(t) {
            self.scope = None;
            return Ok(());
        }
        self.flush()?;
        if is_scope_word(t) {
            self.scope = Some(t);
            return Ok(());
        }
        self.push(t)
    }

    /// Counts a macro use that is expanded. E110 from the 262,145th on.
    pub fn count_use(&mut self, place: Place) -> Result<(), Halt>
        ensures value { Does self.new result (counted self.old place) }
        ensures more { OnOk result (self.new.uses ≡ self.old.uses + 1) }
        ensures few { OnOk result (self.new.uses ≤ 262144) }
    {
        if self.uses >= USES {
            return Err(Halt::Refused {
                code: Code::TooManyTokens,
                place,
            });
        }
        self.uses += 1;
        Ok(())
    }
}
