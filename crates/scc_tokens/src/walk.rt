//! Walks the tokens and directives of files in order.
ghost use Rattle.std.specs.Prelude.{◌≡◌, ◌==◌, ◌+◌, ◌<◌, ◌≤◌, ◌^◌, length, OnOk, IfOk, IfSome, IsTrue, None, max, drop, option_map};
ghost use Rattle.std.specs.List.{list_any};
ghost use Rattle.scc_base.specs.Names.{Keeps};
ghost use Rattle.scc_base.specs.Outside.{Shelf};
ghost use Rattle.scc_tokens_directives.specs.Steps.{Does, Finds, Makes};
ghost use Rattle.scc_tokens.specs.Files.{number_of, AnswersIn, HoldsAll, ToldAll, Reads, Unread, FilesSay, err_of, HasRoom, Gains, Moves};
ghost use Rattle.scc_tokens.specs.Walk.{split_line, idle_line, active_line, wanted_name, is_once, admitted, front_taken, line_taken, text_if, file_included, tokens_of, step_taken, file_walked};

use crate::read::{ask, number_of};
use scc_base::{Code, Files, List, Names, Place, Text};
use scc_tokens_directives::define::{define, include_once, undefine};
use scc_tokens_directives::{
    Directive, File, Halt, Macros, Operand, Out, Sides, Source, Words, close_side, directive_of,
    included_name, is_hash, is_line_end, is_own, line_len, open_side, operand_of, quoted,
    take_token, turn_side,
};
use scc_tokens_lexer::{Token, TokenKind};
use std::alloc::Global;
use std::str;

/// The greatest number of inclusions of files.
pub const INCLUDES: u32 = 4096;

/// The greatest number of files, after which no inclusion asks for another.
pub const FILES: usize = 64;

/// How many levels of inclusion there are below a root.
pub const LEVELS: u32 = 15;

/// What joining knows while it walks.
#[derive(Drop)]
pub struct Joining {
    /// The files that are included once.
    pub once: List<u32>,
    pub macros: Macros,
    pub out: Out,
    /// How many inclusions of files there were.
    pub includes: u32,
}

// The directive of a line, with what stands after its word.
fn split_line<'a>(words: &Words, line: &'a [Token]) -> (Directive, &'a [Token])
    ensures { (result.0, result.1.now) ≡ split_line words.now line.now }
{
    match line {
        [] => (Directive::Unknown, line),
        [first, rest @ ..] => (directive_of(words, first.kind), rest),
    }
}

fn bad_directive(hash: Token) -> Halt
    ensures { result ≡ Halt.Refused Code.Directive hash.place }
{
    Halt::Refused {
        code: Code::Directive, // E105
        place: hash.place,
    }
}

// A line in text that is left out, where only the nesting of conditionals counts.
fn idle_line(
    sides: &mut Sides,
    directive: Directive,
    hash: Token,
    rest: &[Token],
) -> Result<(), Halt>
    ensures { Does sides.new result (idle_line directive hash rest.now sides.old) }
{
    match directive {
        Directive::Ifdef | Directive::Ifndef => {
            sides.open(false)?;
            Ok(())
        }
        Directive::Else => turn_side(sides, hash, rest),
        Directive::Endif => close_side(sides, hash, rest),
        _ => Ok(()),
    }
}

// An active line; true where it includes a file.
fn active_line(
    alloc: Global,
    state: &mut Joining,
    sides: &mut Sides,
    words: &Words,
    file: u32,
    unclosed: Option<u32>,
    directive: Directive,
    hash: Token,
    rest: &[Token],
) -> Result<bool, Halt>
    ensures { Makes (λ b. b) (record { state = state.new; sides = sides.new }) result (active_line words.now file unclosed directive hash rest.now (record { state = state.old; sides = sides.old })) }
{
    match directive {
        Directive::Ifdef => open_side(&state.macros, sides, unclosed, true, hash, rest)?,
        Directive::Ifndef => open_side(&state.macros, sides, unclosed, false, hash, rest)?,
        Directive::Else => turn_side(sides, hash, rest)?,
        Directive::Endif => close_side(sides, hash, rest)?,
        Directive::Define => define(alloc, &mut state.macros, hash, rest)?,
        Directive::Undef => undefine(&mut state.macros, hash, rest)?,
        Directive::Pragma => include_once(words, &mut state.once, file, hash, rest)?,
        Directive::Include => return Ok(true),
        Directive::Unknown => return Err(bad_directive(hash)),
    }
    Ok(false)
}

// The name of the file that an inclusion asks for; None for a header of SystemC's own.
fn wanted_name(
    alloc: Global,
    words: &Words,
    source: &Source,
    hash: Token,
    rest: &[Token],
) -> Result<Option<Text>, Halt>
    ensures { Finds (λ o. o) result (wanted_name words.now source.now hash rest.now) }
{
    let t = match operand_of(words, rest) {
        Operand::Quoted(t) => t,
        Operand::Own => return Ok(None),
        Operand::Other => return Err(bad_directive(hash)),
    };
    let Some(text) = quoted(source.bytes.bytes(), t) else {
        return Err(bad_directive(hash));
    };
    if is_own(text) {
        return Ok(None);
    }
    let name = included_name(alloc, source.name.bytes(), text)?;
    Ok(Some(name))
}

fn is_once(once: &[u32], number: Option<usize>) -> bool
    ensures { result ≡ is_once once.now number }
{
    match number {
        Some(n) => has_number(once, n),
        None => false,
    }
}

fn has_number(once: &[u32], n: usize) -> bool
    ensures { result ≡ list_any (λ m. m == n) once.now }
{
    once.iter().any(|m| *m as usize == n)
}

// Counts an inclusion; false where the file is included once and was included.
fn admit(
    state: &mut Joining,
    sources: &[Source],
    below: u32,
    hash: Place,
    name: &[u8],
) -> Result<bool, Halt>
    ensures deep { IfOk result (λ b. IsTrue b → 0 < below) }
    ensures few { OnOk result (number_of sources.now name.now ≡ None → length sources.now < 64) }
    ensures value { Makes (λ b. b) state.new result (admitted sources.now below hash name.now state.old) }
{
    let number = number_of(sources, name);
    let skipped = is_once(state.once.as_slice(), number);
    if !skipped && below == 0 {
        return Err(Halt::Refused {
            code: Code::IncludeDepth, // E106
            place: hash,
        });
    }
    if state.includes >= INCLUDES || (number.is_none() && sources.len() >= FILES) {
        return Err(Halt::Refused {
            code: Code::TooManyFiles, // E109
            place: hash,
        });
    }
    state.includes += 1;
    Ok(!skipped)
}

// What the tokens at the front do, and how many they are: a token is joined, or a line is taken. The name is that of
// the file that the line includes.
fn take_front(
    alloc: Global,
    state: &mut Joining,
    sides: &mut Sides,
    words: &Words,
    source: &Source,
    number: u32,
    unclosed: Option<u32>,
    tokens: &[Token],
) -> Result<(usize, Option<Text>), Halt>
    requires { 0 < length tokens.now }
    ensures value { Makes (λ x. x) (record { state = state.new; sides = sides.new }) result (front_taken words.now source.now number unclosed tokens.now (record { state = state.old; sides = sides.old })) }
    ensures some { IfOk result (λ x. 0 < x.0) }
    ensures within { IfOk result (λ x. x.0 ≤ length tokens.now) }
{
    let [t, rest @ ..] = tokens else {
        unreachable!()
    };
    if is_hash(t.kind) {
        return take_line(
            alloc, state, sides, words, source, number, unclosed, *t, rest,
        );
    }
    if sides.live() && !is_line_end(t.kind) {
        take_token(alloc, &state.macros, &mut state.out, *t)?;
    }
    Ok((1, None))
}

// A line of a directive after its `#`.
fn take_line(
    alloc: Global,
    state: &mut Joining,
    sides: &mut Sides,
    words: &Words,
    source: &Source,
    number: u32,
    unclosed: Option<u32>,
    hash: Token,
    rest: &[Token],
) -> Result<(usize, Option<Text>), Halt>
    requires { length rest.now + 1 < 2 ^ 64 }
    ensures value { Makes (λ x. x) (record { state = state.new; sides = sides.new }) result (line_taken words.now source.now number unclosed hash rest.now (record { state = state.old; sides = sides.old })) }
    ensures some { IfOk result (λ x. 0 < x.0) }
    ensures within { IfOk result (λ x. x.0 ≤ length rest.now + 1) }
{
    let n = line_len(rest);
    let (directive, operands) = split_line(words, &rest[..n]);
    if !sides.live() {
        idle_line(sides, directive, hash, operands)?;
        return Ok((n + 1, None));
    }
    let includes = active_line(
        alloc, state, sides, words, number, unclosed, directive, hash, operands,
    )?;
    if !includes {
        return Ok((n + 1, None));
    }
    let name = wanted_name(alloc, words, source, hash, operands)?;
    Ok((n + 1, name))
}

// The bytes as text.
fn as_text(bytes: &[u8]) -> Option<&str>
    ensures { option_map (λ x. x.now) result ≡ text_if bytes.now }
{
    match str::from_utf8(bytes) {
        Ok(text) => Some(text),
        Err(_) => None,
    }
}

// The number of the file that an inclusion names; None where it is not included again.
fn include<F: Files>(
    alloc: Global,
    files: &mut F,
    names: &mut Names,
    sources: &mut List<Source>,
    known: &mut List<File>,
    words: &Words,
    state: &mut Joining,
    below: u32,
    hash: Place,
    name: &[u8],
) -> Result<Option<u32>, Halt>
    requires room { HasRoom names.old sources.old known.old }
    requires few { length sources.old < 130 }
    ensures value { (shelf : Shelf) → HoldsAll shelf sources.new → AnswersIn (λ n. n) shelf (record { state = state.new; asked = record { known = known.new; sources = sources.new; names = names.new } }) result (file_included shelf words.now below hash name.now (record { state = state.old; asked = record { known = known.old; sources = sources.old; names = names.old } })) }
    ensures keeps { Keeps names.old names.new }
    ensures reads { Reads sources.old sources.new }
    ensures room { OnOk result (HasRoom names.new sources.new known.new) }
    ensures grows { Gains known.old known.new }
    ensures number { IfOk result (λ o. IfSome o (λ n. (n < length known.new) × (0 < below))) }
    ensures more { length sources.new ≤ max 64 (length sources.old) }
    ensures told { ToldAll (F.held files.old) sources.old → ToldAll (F.held files.new) sources.new }
    ensures says { FilesSay (F.held files.old) (F.held files.new) (F.misses files.old) (F.misses files.new) (F.faults files.old) (F.faults files.new) (err_of result) }
    ensures unread { Unread sources.new (err_of result) }
{
    if !admit(state, sources.as_slice(), below, hash, name)? {
        return Ok(None);
    }
    let Some(name) = as_text(name) else {
        return Err(Halt::Refused {
            code: Code::Directive,
            place: hash,
        });
    };
    let number = ask(alloc, files, names, sources, known, words, name)?;
    Ok(Some(number))
}

// One step over the tokens of a file from one of them on.
fn step<F: Files>(
    alloc: Global,
    files: &mut F,
    names: &mut Names,
    sources: &mut List<Source>,
    known: &mut List<File>,
    words: &Words,
    state: &mut Joining,
    sides: &mut Sides,
    number: u32,
    below: u32,
    i: usize,
) -> Result<(usize, Option<u32>), Halt>
    requires room { HasRoom names.old sources.old known.old }
    requires few { length sources.old < 130 }
    requires number { number < length known.old }
    requires token { i < length (tokens_of known.old number) }
    ensures value { (shelf : Shelf) → HoldsAll shelf sources.new → AnswersIn (λ x. x) shelf (record { state = state.new; asked = record { known = known.new; sources = sources.new; names = names.new }; sides = sides.new }) result (step_taken shelf words.now number below (drop i (tokens_of known.old number)) (record { state = state.old; asked = record { known = known.old; sources = sources.old; names = names.old }; sides = sides.old })) }
    ensures some { IfOk result (λ x. 0 < x.0) }
    ensures within { IfOk result (λ x. i + x.0 ≤ length (tokens_of known.old number)) }
    ensures keeps { Keeps names.old names.new }
    ensures reads { Reads sources.old sources.new }
    ensures room { OnOk result (HasRoom names.new sources.new known.new) }
    ensures grows { Gains known.old known.new }
    ensures inside { IfOk result (λ x. IfSome x.1 (λ n. (n < length known.new) × (0 < below))) }
    ensures more { length sources.new ≤ max 64 (length sources.old) }
    ensures told { ToldAll (F.held files.old) sources.old → ToldAll (F.held files.new) sources.new }
    ensures says { FilesSay (F.held files.old) (F.held files.new) (F.misses files.old) (F.misses files.new) (F.faults files.old) (F.faults files.new) (err_of result) }
    ensures unread { Unread sources.new (err_of result) }
{
    let (Some(file), Some(source)) = (known.get(number as usize), sources.get(number as usize))
    else {
        unreachable!()
    };
    let tokens = &file.tokens.as_slice()[i..];
    let hash = tokens[0].place;
    let (taken, name) = take_front(
        alloc,
        state,
        sides,
        words,
        source,
        number,
        file.unclosed,
        tokens,
    )?;
    let Some(name) = name else {
        return Ok((taken, None));
    };
    let inside = include(
        alloc,
        files,
        names,
        sources,
        known,
        words,
        state,
        below,
        hash,
        name.bytes(),
    )?;
    Ok((taken, inside))
}

/// Joins the tokens of a file that was asked for, below which so many levels of inclusion may be.
pub fn walk_file<F: Files>(
    alloc: Global,
    files: &mut F,
    names: &mut Names,
    sources: &mut List<Source>,
    known: &mut List<File>,
    words: &Words,
    state: &mut Joining,
    number: u32,
    below: u32,
) -> Result<(), Halt>
    requires room { HasRoom names.old sources.old known.old }
    requires few { length sources.old < 130 }
    requires number { number < length known.old }
    ensures value { (shelf : Shelf) → HoldsAll shelf sources.new → AnswersIn (λ x. x) shelf (record { state = state.new; asked = record { known = known.new; sources = sources.new; names = names.new } }) result (file_walked shelf words.now (below + 1) number (record { state = state.old; asked = record { known = known.old; sources = sources.old; names = names.old } })) }
    ensures room { OnOk result (HasRoom names.new sources.new known.new) }
    ensures moves { Moves (F.held files.old) (F.held files.new) (F.misses files.old) (F.misses files.new) (F.faults files.old) (F.faults files.new) names.old names.new sources.old sources.new known.old known.new (err_of result) }
{
    let count = match known.get(number as usize) {
        Some(file) => file.tokens.len(),
        None => unreachable!(),
    };
    let mut sides = Sides::new(alloc);
    let mut i = 0;
    'tokens: while i < count {
        let (taken, inside) = step(
            alloc, files, names, sources, known, words, state, &mut sides, number, below, i,
        )?;
        if let Some(inner) = inside {
            walk_file(
                alloc,
                files,
                names,
                sources,
                known,
                words,
                state,
                inner,
                below - 1,
            )?;
        }
        i += taken;
    }
    Ok(())
}
