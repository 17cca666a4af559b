//! Reads files, each once.
ghost use Rattle.std.specs.Prelude.{◌≡◌, ◌∷◌, ◌++◌, ◌+◌, ◌≤◌, ◌<◌, ◌^◌, [], length, IfOk, IfErr, IfSome, OnOk, None, Some};
ghost use Rattle.scc_base.specs.Names.{Keeps};
ghost use Rattle.scc_base.specs.Outside.{Shelf, Told};
ghost use Rattle.scc_tokens.specs.Files.{asked, number_of, file_of, AnswersIn, HoldsAll, ToldAll, first_part, FileIs, NamesStay, names_read, Reads, Unread, IsReadFault, FilesSay, err_of, HasRoom, Gains};

use scc_base::{Code, FileFault, Files, List, Names, NoMemory, Place, Stop, Text};
use scc_tokens_directives::{File, Halt, Source, Words, first_unclosed};
use scc_tokens_lexer::scanned;
use std::alloc::Global;

/// How many bytes of a file are asked for: one more than a file may have.
pub const ASKED_BYTES: u64 = 1_048_577;

/// The number of a file that was asked for before.
pub fn number_of(sources: &[Source], name: &[u8]) -> Option<usize>
    ensures value { result ≡ number_of sources.now name.now }
    ensures within { IfSome result (λ i. i < length sources.now) }
{
    sources.iter().position(|s| s.name.bytes() == name)
}

fn text_of(alloc: Global, bytes: &[u8]) -> Result<Text, NoMemory>
    ensures { IfOk result (λ t. t ≡ bytes.now) }
{
    let mut text = Text::new(alloc);
    text.push_bytes(bytes)?;
    Ok(text)
}

// Reads a file that was not asked for before.
fn fetch<F: Files>(
    alloc: Global,
    files: &mut F,
    sources: &mut List<Source>,
    name: &str,
) -> Result<(), Halt>
    ensures ok { OnOk result ((bytes : _) × (sources.new ≡ sources.old ++ record { name = name.now; bytes = bytes } ∷ []) × (length bytes ≤ 1048577)) }
    ensures err { IfErr result (λ e. IsReadFault name.now e × (sources.new ≡ sources.old)) }
    ensures told { ToldAll (F.held files.old) sources.old → ToldAll (F.held files.new) sources.new }
    ensures says { FilesSay (F.held files.old) (F.held files.new) (F.misses files.old) (F.misses files.new) (F.faults files.old) (F.faults files.new) (err_of result) }
{
    let bytes = match files.read(alloc, name, ASKED_BYTES) {
        Ok(bytes) => bytes,
        Err(FileFault::Missing) => return Err(Halt::Missing(text_of(alloc, name.as_bytes())?)),
        Err(FileFault::Failed) => return Err(Halt::Failed(text_of(alloc, name.as_bytes())?)),
        Err(FileFault::NoMemory) => return Err(Halt::NoMemory),
    };
    let source = Source {
        name: text_of(alloc, name.as_bytes())?,
        bytes: text_of(alloc, bytes.as_slice())?,
    };
    sources.push(source)?;
    Ok(())
}

// The tokens of a file.
fn cut(
    alloc: Global,
    names: &mut Names,
    words: &Words,
    number: u32,
    bytes: &[u8],
) -> Result<File, Halt>
    requires room { length names.old + length bytes.now < 2 ^ 32 }
    ensures value { FileIs result (file_of names.new words.now number bytes.now) }
    ensures names { NamesStay result names.new (names_read names.old bytes.now) }
    ensures keeps { Keeps names.old names.new }
    ensures few { length names.new ≤ length names.old + length bytes.now }
{
    if bytes.len() as u64 >= ASKED_BYTES {
        return Err(Halt::Refused {
            code: Code::FileTooLong, // E108
            place: Place {
                file: number,
                at: 0,
            },
        });
    }
    let tokens = match scanned(alloc, number, bytes, names) {
        Ok(tokens) => tokens,
        Err(Stop::Refused(r)) => {
            return Err(Halt::Refused {
                code: r.code,
                place: r.place,
            });
        }
        Err(Stop::NoMemory) => return Err(Halt::NoMemory),
    };
    // asked for what it shows alone: no text has two numbers
    let _ = names.has(words.h);
    let unclosed = first_unclosed(words, tokens.as_slice());
    Ok(File { tokens, unclosed })
}

/// The number of the file of a name, which is read where it was not asked for before.
pub fn ask<F: Files>(
    alloc: Global,
    files: &mut F,
    names: &mut Names,
    sources: &mut List<Source>,
    known: &mut List<File>,
    words: &Words,
    name: &str,
) -> Result<u32, Halt>
    requires room { HasRoom names.old sources.old known.old }
    requires few { length sources.old < 130 }
    ensures value { (shelf : Shelf) → HoldsAll shelf sources.new → AnswersIn (λ n. n) shelf (record { known = known.new; sources = sources.new; names = names.new }) result (asked shelf words.now name.now (record { known = known.old; sources = sources.old; names = names.old })) }
    ensures keeps { Keeps names.old names.new }
    ensures reads { Reads sources.old sources.new }
    ensures room { OnOk result (HasRoom names.new sources.new known.new) }
    ensures grows { Gains known.old known.new }
    ensures number { IfOk result (λ n. n < length known.new) }
    ensures more { length sources.new ≤ length sources.old + 1 }
    ensures stays { (n : _) → number_of sources.old name.now ≡ Some n → sources.new ≡ sources.old }
    ensures told { ToldAll (F.held files.old) sources.old → ToldAll (F.held files.new) sources.new }
    ensures says { FilesSay (F.held files.old) (F.held files.new) (F.misses files.old) (F.misses files.new) (F.faults files.old) (F.faults files.new) (err_of result) }
    ensures unread { Unread sources.new (err_of result) }
{
    if let Some(n) = number_of(sources.as_slice(), name.as_bytes()) {
        return Ok(n as u32);
    }
    let number = sources.len();
    fetch(alloc, files, sources, name)?;
    let Some(source) = sources.get(number) else {
        unreachable!()
    };
    let file = cut(alloc, names, words, number as u32, source.bytes.bytes())?;
    known.push(file)?;
    Ok(number as u32)
}
