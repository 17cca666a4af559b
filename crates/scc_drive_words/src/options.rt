//! Options and flags, read word by word.
ghost use Rattle.std.specs.Prelude.{◌≡◌, map, string_bytes};
ghost use Rattle.scc_drive_words.specs.Options.{no_options, flagged, noted, options_of};

use crate::classes::{count_of, is_plain, is_word};

/// Whether the next word is the value of an option.
#[derive(Clone, Copy, PartialEq, Eq)]
pub enum Awaiting {
    Nothing,
    Stim,
    Order,
}

/// The options and flags so far.
#[derive(Clone, Copy)]
pub struct Options {
    pub awaiting: Awaiting,
    /// The number of the word that names the stimulus.
    pub stim: Option<usize>,
    pub order: Option<u32>,
    pub source: bool,
    pub migrate: bool,
    pub hier: bool,
    pub clocks: bool,
    pub memory: bool,
}

/// None yet.
pub fn no_options() -> Options
    ensures { result ≡ no_options }
{
    Options {
        awaiting: Awaiting::Nothing,
        stim: None,
        order: None,
        source: false,
        migrate: false,
        hier: false,
        clocks: false,
        memory: false,
    }
}

// What a word says that is an option or flag; None for another word, and for one that stood before.
fn flagged(o: Options, word: &[u8]) -> Option<Options>
    ensures { result ≡ flagged o word.now }
{
    let mut p = o;
    let before;
    if is_word(word, b"--stim") {
        before = o.stim.is_some();
        p.awaiting = Awaiting::Stim;
    } else if is_word(word, b"--order") {
        before = o.order.is_some();
        p.awaiting = Awaiting::Order;
    } else if is_word(word, b"--source") {
        before = o.source;
        p.source = true;
    } else if is_word(word, b"--migrate") {
        before = o.migrate;
        p.migrate = true;
    } else if is_word(word, b"--hier") {
        before = o.hier;
        p.hier = true;
    } else if is_word(word, b"--clocks") {
        before = o.clocks;
        p.clocks = true;
    } else if is_word(word, b"--memory") {
        before = o.memory;
        p.memory = true;
    } else {
        before = true;
    }
    if before { None } else { Some(p) }
}

// The options with the word of that number.
fn noted(at: usize, o: Options, word: &[u8]) -> Option<Options>
    ensures { result ≡ noted at o word.now }
{
    match o.awaiting {
        Awaiting::Nothing => flagged(o, word),
        Awaiting::Stim => {
            if is_plain(word) {
                let mut p = o;
                p.awaiting = Awaiting::Nothing;
                p.stim = Some(at);
                Some(p)
            } else {
                None
            }
        }
        Awaiting::Order => {
            if is_plain(word) {
                let n = count_of(word)?;
                let mut p = o;
                p.awaiting = Awaiting::Nothing;
                p.order = Some(n);
                Some(p)
            } else {
                None
            }
        }
    }
}

/// The options that the last of so many words give, one after the other; None where they break the rules.
#[tactic(auto, using(crate::proofs::Mapped::length_of_map), unfolding(crate::specs::Options::options_of))]
pub fn options_of(count: usize, o: Options, words: &[String]) -> Option<Options>
    ensures { result ≡ options_of count o (map string_bytes words.now) }
{
    match words {
        [] => Some(o),
        [word, rest @ ..] => {
            let at = count.saturating_sub(words.len());
            let p = noted(at, o, word.as_bytes())?;
            options_of(count, p, rest)
        }
    }
}
