//! Commands by their words.
ghost use Rattle.std.specs.Prelude.{◌≡◌, ◌≤◌, map, string_bytes, length, drop};
ghost use Rattle.std.specs.List.{prefix_len};
ghost use Rattle.scc_drive_words.specs.Classes.{is_plain};
ghost use Rattle.scc_drive_words.specs.Commands.{form_of, way_of, way_by, sv_form_of, has_flag, has_option, names_module, compile_by, sim_by, svsim_by, list_by, gen_by, command_by, is_nothing, finished, options_behind, commanded, command_of};

use crate::classes::{count_of, is_plain, is_top, is_word};
use crate::options::{Awaiting, Options, no_options, options_of};

/// What `compile` writes.
#[derive(Clone, Copy, PartialEq, Eq)]
pub enum Form {
    /// One module.
    Whole,
    /// A module for each module object.
    Hier,
    /// One module with several clocks.
    Clocks,
    /// One module, arrays as memories.
    Memory,
}

/// What `svsim` reads.
#[derive(Clone, Copy, PartialEq, Eq)]
pub enum SvForm {
    Whole,
    Hier,
    Clocks,
}

/// What `sim` does.
#[derive(Clone, Copy, PartialEq, Eq)]
pub enum SimWay {
    /// Runs the design.
    Whole,
    /// Runs it with its processes in the order that begins with this number, 1 to 1,000.
    Order(u32),
    /// Writes the stimulus in its second version.
    Migrate,
    /// Runs it with several clocks.
    Clocks,
}

/// A command. Word 0 is its action; word 1 names the module, or is the number of `gen`; the files are the words from 2 on.
#[derive(Clone, Copy, PartialEq, Eq)]
pub enum Command {
    /// Of 1 to 64 files.
    Compile {
        files: usize,
        form: Form,
    },
    /// Of 1 to 64 files; the word of the number `stim` names the stimulus.
    Sim {
        files: usize,
        stim: usize,
        way: SimWay,
    },
    /// Of one file.
    Svsim {
        stim: usize,
        form: SvForm,
    },
    /// Of 1 to 64 files.
    List {
        files: usize,
    },
    /// Of 1 to 1,000 stages.
    Gen {
        stages: u32,
        source: bool,
    },
}

fn form_of(o: Options) -> Option<Form>
    ensures { result ≡ form_of o }
{
    if o.stim.is_some() || o.order.is_some() || o.source || o.migrate {
        None
    } else if o.hier {
        if o.clocks || o.memory {
            None
        } else {
            Some(Form::Hier)
        }
    } else if o.clocks {
        if o.memory { None } else { Some(Form::Clocks) }
    } else if o.memory {
        Some(Form::Memory)
    } else {
        Some(Form::Whole)
    }
}

fn way_by(order: Option<u32>) -> SimWay
    ensures { result ≡ way_by order }
{
    match order {
        Some(n) => SimWay::Order(n),
        None => SimWay::Whole,
    }
}

fn way_of(o: Options) -> Option<SimWay>
    ensures { result ≡ way_of o }
{
    if o.source || o.hier || o.memory {
        None
    } else if o.migrate {
        if o.clocks || o.order.is_some() {
            None
        } else {
            Some(SimWay::Migrate)
        }
    } else if o.clocks {
        if o.order.is_some() {
            None
        } else {
            Some(SimWay::Clocks)
        }
    } else {
        Some(way_by(o.order))
    }
}

fn sv_form_of(o: Options) -> Option<SvForm>
    ensures { result ≡ sv_form_of o }
{
    if o.order.is_some() || o.source || o.migrate || o.memory {
        None
    } else if o.hier {
        if o.clocks { None } else { Some(SvForm::Hier) }
    } else if o.clocks {
        Some(SvForm::Clocks)
    } else {
        Some(SvForm::Whole)
    }
}

fn has_flag(o: Options) -> bool
    ensures { result ≡ has_flag o }
{
    o.migrate || o.hier || o.clocks || o.memory
}

fn has_option(o: Options) -> bool
    ensures { result ≡ has_option o }
{
    o.stim.is_some() || o.order.is_some()
}

fn names_module(top: &[u8], plain: usize) -> bool
    ensures { result ≡ names_module top.now plain }
{
    is_top(top) && 3 <= plain && plain <= 66
}

fn compile_by(top: &[u8], plain: usize, o: Options) -> Option<Command>
    ensures { result ≡ compile_by top.now plain o }
{
    if !names_module(top, plain) {
        return None;
    }
    let form = form_of(o)?;
    let files = plain - 2;
    Some(Command::Compile { files, form })
}

fn sim_by(top: &[u8], plain: usize, o: Options) -> Option<Command>
    ensures { result ≡ sim_by top.now plain o }
{
    if !names_module(top, plain) {
        return None;
    }
    let stim = o.stim?;
    let way = way_of(o)?;
    let files = plain - 2;
    Some(Command::Sim { files, stim, way })
}

fn svsim_by(top: &[u8], plain: usize, o: Options) -> Option<Command>
    ensures { result ≡ svsim_by top.now plain o }
{
    if !(is_top(top) && plain == 3) {
        return None;
    }
    let stim = o.stim?;
    let form = sv_form_of(o)?;
    Some(Command::Svsim { stim, form })
}

fn list_by(top: &[u8], plain: usize, o: Options) -> Option<Command>
    ensures { result ≡ list_by top.now plain o }
{
    if names_module(top, plain) && !(has_option(o) || has_flag(o) || o.source) {
        let files = plain - 2;
        Some(Command::List { files })
    } else {
        None
    }
}

fn gen_by(top: &[u8], plain: usize, o: Options) -> Option<Command>
    ensures { result ≡ gen_by top.now plain o }
{
    if plain == 2 && !(has_option(o) || has_flag(o)) {
        let stages = count_of(top)?;
        let source = o.source;
        Some(Command::Gen { stages, source })
    } else {
        None
    }
}

fn command_by(action: &[u8], top: &[u8], plain: usize, o: Options) -> Option<Command>
    ensures { result ≡ command_by action.now top.now plain o }
{
    if is_word(action, b"compile") {
        compile_by(top, plain, o)
    } else if is_word(action, b"sim") {
        sim_by(top, plain, o)
    } else if is_word(action, b"svsim") {
        svsim_by(top, plain, o)
    } else if is_word(action, b"list") {
        list_by(top, plain, o)
    } else if is_word(action, b"gen") {
        gen_by(top, plain, o)
    } else {
        None
    }
}

fn is_nothing(awaiting: Awaiting) -> bool
    ensures { result ≡ is_nothing awaiting }
{
    match awaiting {
        Awaiting::Nothing => true,
        Awaiting::Stim => false,
        Awaiting::Order => false,
    }
}

fn finished(action: &[u8], top: &[u8], plain: usize, o: Options) -> Option<Command>
    ensures { result ≡ finished action.now top.now plain o }
{
    if is_nothing(o.awaiting) {
        command_by(action, top, plain, o)
    } else {
        None
    }
}

fn is_plain_word(word: &String) -> bool
    ensures { result ≡ is_plain (string_bytes word.now) }
{
    is_plain(word.as_bytes())
}

// How many words stand before the first that is an option or empty.
fn plain_words(words: &[String]) -> usize
    ensures is { result ≡ prefix_len is_plain (map string_bytes words.now) }
    ensures bound { result ≤ length words.now }
{
    count_plain(words)
}

fn count_plain(words: &[String]) -> usize
    ensures is { result ≡ prefix_len (λ w. is_plain (string_bytes w)) words.now }
    ensures bound { result ≤ length words.now }
{
    words.iter().take_while(|w| is_plain_word(w)).count()
}

fn behind(words: &[String], n: usize) -> &[String]
    requires { n ≤ length words.now }
    ensures { result.now ≡ drop n words.now }
{
    &words[n..]
}

// The options that stand after the plain ones of some words, the last of so many.
#[tactic(auto, using(crate::proofs::Mapped::drop_of_map))]
fn options_behind(count: usize, words: &[String]) -> Option<Options>
    ensures { result ≡ options_behind count (map string_bytes words.now) }
{
    let plain = plain_words(words);
    options_of(count, no_options(), behind(words, plain))
}

fn commanded(count: usize, action: &[u8], top: &[u8], words: &[String]) -> Option<Command>
    ensures { result ≡ commanded count action.now top.now (map string_bytes words.now) }
{
    if is_plain(action) && is_plain(top) {
        let o = options_behind(count, words)?;
        finished(action, top, 2 + plain_words(words), o)
    } else {
        None
    }
}

/// The command that words make; None where they break the rules on words. No word is empty; those without a leading `-` come
/// first, the options and flags then, in any order and each at most once; the value of an option is the next word, and doesn't
/// begin with `-`.
#[tactic(auto, using(crate::proofs::Mapped::length_of_map), unfolding(crate::specs::Commands::command_of))]
pub fn command_of(words: &[String]) -> Option<Command>
    ensures { result ≡ command_of (map string_bytes words.now) }
{
    match words {
        [] => None,
        [_action] => None,
        [action, top, rest @ ..] => {
            commanded(words.len(), action.as_bytes(), top.as_bytes(), rest)
        }
    }
}
