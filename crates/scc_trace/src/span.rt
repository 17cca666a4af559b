//! Cuts a text into lines and words.
ghost use Rattle.std.specs.Prelude.{◌≡◌, ◌+◌, ◌<◌, ◌≤◌, ◌^◌, ◌∷◌, length, nat_eq, not};
ghost use Rattle.std.specs.List.{prefix_len};
ghost use Rattle.scc_trace.specs.Cut.{first, others};

/// Some bytes of a text of fewer than 2^32, and where the first of them stands.
#[derive(Clone, Copy)]
pub struct Span<'a> {
    pub at: u32,
    pub bytes: &'a [u8],
    ghost short: { at + length bytes.now < 2 ^ 32 },
}

// How many bytes stand before the first separator.
fn first_len(separator: u8, bytes: &[u8]) -> usize
    ensures { result ≡ prefix_len (λ b. not (nat_eq b separator)) bytes.now }
{
    bytes.iter().take_while(|b| **b != separator).count()
}

/// The bytes before the first separator.
#[tactic(auto, using(crate::proofs::Cuts::first_is, crate::proofs::Cuts::first_bound))]
pub fn before(separator: u8, bytes: &[u8]) -> &[u8]
    ensures { result.now ≡ first separator bytes.now }
{
    &bytes[..first_len(separator, bytes)]
}

impl<'a> Span<'a> {
    ghost use Rattle.scc_trace.specs.Spans.{piece_of, end_of, lines_in, words_in, words_behind_in, words_next};

    // The bytes before the first separator, and those from it on.
    #[tactic(auto, using(crate::proofs::Cuts::first_is, crate::proofs::Cuts::others_is, crate::proofs::Cuts::first_bound, crate::proofs::Cuts::others_bound))]
    fn split(self, separator: u8) -> (Span<'a>, Span<'a>)
        ensures first { result.0.bytes.now ≡ first separator self.entry.bytes.now }
        ensures others { result.1.bytes.now ≡ others separator self.entry.bytes.now }
        ensures first_at { result.0.at ≡ self.entry.at }
        ensures others_at { result.1.at + length result.1.bytes.now ≡ self.entry.at + length self.entry.bytes.now }
        ensures within { length result.1.bytes.now ≤ length self.entry.bytes.now }
    {
        let n = first_len(separator, self.bytes);
        let (front, back) = self.bytes.split_at(n);
        (
            Span {
                at: self.at,
                bytes: front,
            },
            Span {
                at: self.at + n as u32,
                bytes: back,
            },
        )
    }

    /// The first line of a text that isn't empty, and what is after it.
    pub fn first_line(self) -> (Span<'a>, Span<'a>)
        requires { 0 < length self.bytes.now }
        ensures lines { lines_in self.entry ≡ piece_of result.0 ∷ lines_in result.1 }
        ensures end { end_of result.1 ≡ end_of self.entry }
        ensures shorter { length result.1.bytes.now < length self.entry.bytes.now }
    {
        let (line, rest) = self.split(10);
        match rest.bytes {
            [_, bytes @ ..] => (
                line,
                Span {
                    at: rest.at + 1,
                    bytes,
                },
            ),
            [] => (line, rest),
        }
    }

    /// The first word of a line, and what stands from the blank after it on.
    #[tactic(auto, using(crate::proofs::Cuts::words_cut))]
    pub fn first_word(self) -> (Span<'a>, Span<'a>)
        ensures first { result.0.bytes.now ≡ first 32 self.entry.bytes.now }
        ensures words { words_in self.entry ≡ piece_of result.0 ∷ words_behind_in result.1 }
    {
        self.split(32)
    }

    /// What is after the first byte; None where there is none.
    pub fn behind(self) -> Option<Span<'a>>
        ensures words { words_behind_in self.entry ≡ words_next result }
    {
        match self.bytes {
            [_, bytes @ ..] => Some(Span {
                at: self.at + 1,
                bytes,
            }),
            [] => None,
        }
    }
}
