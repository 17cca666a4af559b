//! Reads a file.
ghost use Rattle.std.specs.Prelude.{◌≡◌, IfOk, IfErr, List, Ok, Err};
ghost use Rattle.scc_reading.specs.Claim.{IsRead};
ghost use Rattle.scc_tree.specs.declared.item.Item.{Item};
ghost use Rattle.scc_grammar.specs.Claim.{IsReadFile, FaultAt, ReadsOnly, stop_of, text_of};
ghost use Rattle.scc_grammar_spec.specs.LevelsOfItems.{depth};
ghost use Rattle.scc_grammar_spec.specs.Items.{Reads};
ghost use Rattle.scc_base.specs.declared.refusal.Stop.TheVariants as stop;

use crate::file::program;
use scc_base::{Code, Place, Refusal, Stop};
use scc_grammar_terminals::halt::Halt;
use scc_grammar_terminals::view::see;
use scc_tokens::Joined;
use scc_tree::FileTree;
use std::alloc::Global;

/// The tree of the joined tokens of a program's files, by the grammar of the source language.
///
/// Errors: E201 at the first token with which no file of the grammar begins, or at the end of the last file where the tokens
/// end too early; E202 at the first token that opens level 129; whichever comes first.
#[tactic(auto, using(crate::proofs::Parsed::read_file, crate::proofs::Parsed::fault_at, crate::proofs::Parsed::only_file, crate::proofs::Parsed::only_fault))]
pub fn parse(alloc: Global, tokens: &Joined) -> Result<FileTree, Stop>
    ensures read { IfOk result (IsReadFile tokens.now) }
    ensures only { (items : List Item) → IsRead Reads depth (text_of tokens.now) items → ReadsOnly items result }
    ensures fault { IfErr result (FaultAt tokens.now) }
{
    let Ok(seen) = see(alloc, tokens.tokens.as_slice()) else {
        return Err(Stop::NoMemory);
    };
    match program(alloc, seen.as_slice()) {
        Ok(items) => Ok(FileTree {
            items,
            end: tokens.end,
        }),
        Err(halt) => Err(fault(halt, tokens.end)),
    }
}

fn refused(code: Code, place: Place) -> Stop
    ensures { result ≡ stop.Refused (record { code = code; place = place; other = None }) }
{
    Stop::Refused(Refusal {
        code,
        place,
        other: None,
    })
}

// A halt as the refusal that it is; the end of the last file stands for a place after all tokens.
fn fault(halt: Halt, end: Place) -> Stop
    ensures { result ≡ stop_of end halt }
{
    match halt {
        Halt::NoMemory => Stop::NoMemory,
        Halt::Unexpected(place) => refused(Code::Unexpected, place.unwrap_or(end)), // E201
        Halt::TooDeep(place) => refused(Code::TooDeep, place.unwrap_or(end)), // E202
    }
}
