//! Joins the tokens of files.
ghost use Rattle.std.specs.Prelude.{◌≡◌, ◌+◌, ◌<◌, ◌≤◌, ◌^◌, [], ◌∷◌, length, map, string_bytes, IfOk, max, IfErr, OnOk, None, Some};
ghost use Rattle.scc_base.specs.Names.{Keeps};
ghost use Rattle.scc_base.specs.Outside.{Shelf, Rose, Told};
ghost use Rattle.scc_base.specs.declared.refusal.Stop.TheVariants as stop;
ghost use Rattle.scc_tokens.specs.declared.joining.JoinFault.TheVariants as join_fault;
ghost use Rattle.scc_tokens_directives.specs.Directive.{IsWords};
ghost use Rattle.scc_tokens.specs.Files.{AnswersIn, HoldsAll, Moves, ToldAll, Reads, Unread, FilesSay, err_of, HasRoom, AllShort};
ghost use Rattle.scc_tokens.specs.Join.{starts, settled, fault_err, root_joined, roots_joined, finished, roots_finished, JoinSays, Somewhere, join_of, fault_halt};
ghost use Rattle.scc_tokens_directives.specs.Steps.{Finds};

use crate::read::ask;
use crate::walk::{Joining, LEVELS, walk_file};
use scc_base::{Code, Files, List, Names, NoMemory, Place, Refusal, Stop, Text};
use scc_tokens_directives::{File, Halt, Macros, Out, Source, TOKENS, Words};
use scc_tokens_lexer::Tokens;
use std::alloc::Global;

/// The joined tokens, and where the last root ends.
#[derive(Drop)]
pub struct Joined {
    pub tokens: Tokens,
    /// The end of the last root.
    pub end: Place,
}

/// Why files are not joined.
#[derive(Drop)]
pub enum JoinFault {
    /// A refusal, or want of memory.
    Stop(Stop),
    /// No file has the name.
    Missing(Text),
    /// The file of the name was not read.
    Failed(Text),
}

// What joining knows at the start: one macro, which has no tokens.
fn start(alloc: Global, words: &Words) -> Result<Joining, NoMemory>
    ensures { IfOk result (λ s. s ≡ starts words.now) }
{
    let mut macros = Macros::new(alloc);
    macros.set(words.synthesis, Some(List::new(alloc)))?;
    Ok(Joining {
        once: List::new(alloc),
        macros,
        out: Out::new(alloc),
        includes: 0,
    })
}

// Where joining stops: a word that waits for a `::`, where there is no room for it, comes before any other refusal.
fn settle(out: &Out, halt: Halt) -> Halt
    ensures { result ≡ settled out.now halt }
{
    match (halt, out.scope) {
        (Halt::Refused { code, place }, Some(t)) => {
            if out.tokens.len() < TOKENS {
                Halt::Refused { code, place }
            } else {
                Halt::Refused {
                    code: Code::TooManyTokens, // E110
                    place: t.place,
                }
            }
        }
        (halt, _) => halt,
    }
}

fn fault_of(halt: Halt) -> JoinFault
    ensures { result ≡ fault_err halt }
{
    match halt {
        Halt::Refused { code, place } => JoinFault::Stop(Stop::Refused(Refusal {
            code,
            place,
            other: None,
        })),
        Halt::Missing(name) => JoinFault::Missing(name),
        Halt::Failed(name) => JoinFault::Failed(name),
        Halt::NoMemory => JoinFault::Stop(Stop::NoMemory),
    }
}

// Joins one root; its number.
fn join_root<F: Files>(
    alloc: Global,
    files: &mut F,
    names: &mut Names,
    sources: &mut List<Source>,
    known: &mut List<File>,
    words: &Words,
    state: &mut Joining,
    name: &str,
) -> Result<u32, Halt>
    requires room { HasRoom names.old sources.old known.old }
    requires few { length sources.old < 129 }
    ensures value { (shelf : Shelf) → HoldsAll shelf sources.new → AnswersIn (λ n. n) shelf (record { state = state.new; asked = record { known = known.new; sources = sources.new; names = names.new } }) result (root_joined shelf words.now name.now (record { state = state.old; asked = record { known = known.old; sources = sources.old; names = names.old } })) }
    ensures keeps { Keeps names.old names.new }
    ensures reads { Reads sources.old sources.new }
    ensures room { OnOk result (HasRoom names.new sources.new known.new) }
    ensures number { IfOk result (λ n. n < length known.new) }
    ensures more { length sources.new ≤ max 64 (length sources.old + 1) }
    ensures told { ToldAll (F.held files.old) sources.old → ToldAll (F.held files.new) sources.new }
    ensures says { FilesSay (F.held files.old) (F.held files.new) (F.misses files.old) (F.misses files.new) (F.faults files.old) (F.faults files.new) (err_of result) }
    ensures unread { Unread sources.new (err_of result) }
{
    let number = ask(alloc, files, names, sources, known, words, name)?;
    walk_file(
        alloc, files, names, sources, known, words, state, number, LEVELS,
    )?;
    Ok(number)
}

// The joined tokens, where the last root has this number.
fn finish(state: Joining, sources: &List<Source>, last: u32) -> Result<Joined, Halt>
    requires last { last < length sources.now }
    requires short { AllShort sources.now }
    ensures { Finds (λ j. j) result (finished sources.now last state.out) }
{
    let Joining { mut out, .. } = state;
    out.flush()?;
    let Some(source) = sources.get(last as usize) else {
        unreachable!()
    };
    let end = Place {
        file: last,
        at: source.bytes.bytes().len() as u32,
    };
    let Out { tokens, .. } = out;
    Ok(Joined { tokens, end })
}

// Joins the roots in order; the number of the last.
fn join_roots<F: Files>(
    alloc: Global,
    roots: &[String],
    files: &mut F,
    names: &mut Names,
    sources: &mut List<Source>,
    known: &mut List<File>,
    words: &Words,
    state: &mut Joining,
) -> Result<u32, Halt>
    requires room { HasRoom names.old sources.old known.old }
    requires few { length sources.old + length roots.now ≤ 64 }
    requires some { 0 < length roots.now }
    ensures value { (shelf : Shelf) → HoldsAll shelf sources.new → AnswersIn (λ n. n) shelf (record { state = state.new; asked = record { known = known.new; sources = sources.new; names = names.new } }) result (roots_joined shelf words.now (map string_bytes roots.now) 0 (record { state = state.old; asked = record { known = known.old; sources = sources.old; names = names.old } })) }
    ensures keeps { Keeps names.old names.new }
    ensures reads { Reads sources.old sources.new }
    ensures room { OnOk result (HasRoom names.new sources.new known.new) }
    ensures number { IfOk result (λ n. n < length known.new) }
    ensures told { ToldAll (F.held files.old) sources.old → ToldAll (F.held files.new) sources.new }
    ensures says { FilesSay (F.held files.old) (F.held files.new) (F.misses files.old) (F.misses files.new) (F.faults files.old) (F.faults files.new) (err_of result) }
    ensures unread { Unread sources.new (err_of result) }
{
    let mut last = 0;
    for root in roots {
        last = join_root(
            alloc,
            files,
            names,
            sources,
            known,
            words,
            state,
            root.as_str(),
        )?;
    }
    Ok(last)
}

// What joining the roots gives in the end.
fn end_of(
    state: Joining,
    sources: &List<Source>,
    answer: Result<u32, Halt>,
) -> Result<Joined, JoinFault>
    requires last { IfOk answer (λ n. n < length sources.now) }
    requires short { OnOk answer (AllShort sources.now) }
    ensures value { (shelf : _) (known : _) (names : _) (r : _) → AnswersIn (λ n. n) shelf (record { state = state; asked = record { known = known; sources = sources.now; names = names } }) answer r → JoinSays shelf names sources.now result (roots_finished r) }
    ensures says { (e : _) → fault_halt result ≡ Some e → err_of answer ≡ Some e }
{
    match answer {
        Ok(last) => match finish(state, sources, last) {
            Ok(joined) => Ok(joined),
            Err(halt) => Err(fault_of(halt)),
        },
        Err(halt) => Err(fault_of(settle(&state.out, halt))),
    }
}

impl From<NoMemory> for JoinFault {
    ghost from_gives = { λ _ e. e ≡ join_fault.Stop stop.NoMemory };

    fn from(_: NoMemory) -> JoinFault {
        JoinFault::Stop(Stop::NoMemory)
    }
}

/// Joins the files that the roots name, 1 to 64 of them, as one text: their tokens in order, each inclusion replaced by the
/// tokens of its file, each macro by its expansion and each conditional by its chosen side. Macros carry on from root to
/// root. `sources` is empty at the call; it gets each file that was read, in the order in which the files are first asked
/// for, after an error too.
///
/// Errors: E101 to E110 in a `Stop`, with the first place of the walk at which one stands; a file that is missing or
/// whose reading failed, where the walk asks for it.
pub fn join<F: Files>(
    alloc: Global,
    roots: &[String],
    files: &mut F,
    names: &mut Names,
    sources: &mut List<Source>,
) -> Result<Joined, JoinFault>
    requires some { 0 < length roots.now }
    requires few { length roots.now ≤ 64 }
    requires empty { sources.old ≡ [] }
    requires room { length names.old < 2 ^ 31 }
    ensures joined { (shelf : Shelf) → HoldsAll shelf sources.new → JoinSays shelf names.new sources.new result (join_of shelf names.old (map string_bytes roots.now)) }
    ensures somewhere { Somewhere sources.new result }
    ensures short { AllShort sources.new }
    ensures told { ToldAll (F.held files.old) sources.new }
    ensures keeps { Keeps names.old names.new }
    ensures kept { F.held files.new ≡ F.held files.old }
    ensures no_fewer_misses { F.misses files.old ≤ F.misses files.new }
    ensures no_fewer_faults { F.faults files.old ≤ F.faults files.new }
    ensures missing { (n : _) → result ≡ Err (join_fault.Missing n) → Rose (F.misses files.old) (F.misses files.new) }
    ensures absent { (n : _) → result ≡ Err (join_fault.Missing n) → Told (F.held files.old) (λ shelf. shelf n ≡ None) }
    ensures failed { (n : _) → result ≡ Err (join_fault.Failed n) → Rose (F.faults files.old) (F.faults files.new) }
{
    let words = Words::new(names)?;
    // asked for what it shows alone: no text has two numbers
    let _ = names.has(words.h);
    let mut state = start(alloc, &words)?;
    let mut known = List::new(alloc);
    let answer = join_roots(
        alloc, roots, files, names, sources, &mut known, &words, &mut state,
    );
    end_of(state, sources, answer)
}
