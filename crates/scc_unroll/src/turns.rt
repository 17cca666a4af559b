//! The turns of a counted loop.
ghost use Rattle.std.specs.Prelude.{◌≡◌, ℕ, suc, IfOk, option_map, unwrap_or};
ghost use Rattle.scc_core_spec.specs.Counted as spec;
ghost use Rattle.scc_core_spec.specs.Static.{is_true};
ghost use Rattle.scc_unroll_laws.specs.Counters.{counters_of};
ghost use Rattle.scc_unroll.specs.Shape.{cells_at, counting_of, turned};
ghost use Rattle.scc_unroll_asked.specs.Read.{read};
ghost use Rattle.scc_unroll.specs.Turns.{IsTold, going_by, turns_of, went};

use crate::counted::{At, Counted, counters_in, number};
use scc_base::{List, NoMemory};
use scc_bits::Word;
use scc_core::{CoreExpr, Counter};

/// The most turns of the counted loops of a process together.
pub const TURNS: u32 = 4_096;

/// A turn: what its counter is in it, and behind it.
#[derive(Clone, Copy)]
pub struct Turn {
    pub now: Word,
    pub next: Word,
}

/// Turns, and whether they come to an end, with each test and step static.
#[derive(Drop)]
pub struct Turns {
    pub list: List<Turn>,
    pub ends: bool,
}

// What comes where a turn may begin: a turn, and what the counter is behind it.
#[derive(Clone, Copy)]
enum Going {
    Unknown,
    Ends,
    On { word: Word, next: Option<Word> },
}

// The word of an expression in which these counters stand as literals; None where it isn't static.
fn word_of(at: &At<'_>, counters: &[Counter], e: &CoreExpr) -> Result<Option<Word>, NoMemory>
    ensures { IfOk result (λ o. option_map (λ w. w.bits) o ≡ read at.now.known counters.now e.now) }
{
    let found = number(at, counters, e)?;
    match found {
        Some(v) => Ok(Some(v.word())),
        None => Ok(None),
    }
}

#[tactic(auto, using(crate::proofs::EachTurn::word_is_true))]
fn goes(test: Option<Word>) -> Option<bool>
    ensures { result ≡ option_map is_true (option_map (λ w. w.bits) test) }
{
    match test {
        Some(word) => Some(word.bits != 0),
        None => None,
    }
}

fn or_zero(next: Option<Word>) -> Word
    ensures { result.bits ≡ unwrap_or (option_map (λ w. w.bits) next) 0 }
{
    match next {
        Some(word) => word,
        None => Word { bits: 0 },
    }
}

fn turn_from(
    at: &At<'_>,
    around: &[Counter],
    of: &Counted<'_>,
    now: Word,
) -> Result<Going, NoMemory>
    ensures { IsTold at.now around.now of.now → IfOk result (λ g. (left : ℕ) → spec.turns_from (cells_at at.now) (counters_of around.now) of.now.cell (turned of.now.turning) (suc left) (Some now.bits) ≡ went g (spec.turns_from (cells_at at.now) (counters_of around.now) of.now.cell (turned of.now.turning) left)) }
{
    let counters = counters_in(at, around, of.cell, now)?;
    let test = word_of(at, counters.as_slice(), of.turning.test)?;
    let on = goes(test);
    let next = word_of(at, counters.as_slice(), of.turning.step)?;
    Ok(way(on, now, next))
}

fn way(on: Option<bool>, now: Word, next: Option<Word>) -> Going
    ensures { result ≡ going_by on now next }
{
    match on {
        Some(true) => Going::On { word: now, next },
        Some(false) => Going::Ends,
        None => Going::Unknown,
    }
}

fn turn_at(
    at: &At<'_>,
    around: &[Counter],
    of: &Counted<'_>,
    now: Option<Word>,
) -> Result<Going, NoMemory>
    ensures { IsTold at.now around.now of.now → IfOk result (λ g. (left : ℕ) → spec.turns_from (cells_at at.now) (counters_of around.now) of.now.cell (turned of.now.turning) (suc left) (option_map (λ w. w.bits) now) ≡ went g (spec.turns_from (cells_at at.now) (counters_of around.now) of.now.cell (turned of.now.turning) left)) }
{
    match now {
        Some(word) => {
            let going = turn_from(at, around, of, word)?;
            Ok(going)
        }
        None => Ok(Going::Unknown),
    }
}

/// The turns of a loop, up to one more than a process may have.
pub fn turns_by(at: &At<'_>, around: &[Counter], of: &Counted<'_>) -> Result<Turns, NoMemory>
    ensures { IsTold at.now around.now of.now → IfOk result (λ t. turns_of t ≡ (counting_of (cells_at at.now) (counters_of around.now) of.now).turns) }
{
    let mut list = List::new(at.alloc);
    let mut now = word_of(at, around, of.start)?;
    let mut left = TURNS + 1;
    while left > 0 {
        left -= 1;
        let going = turn_at(at, around, of, now)?;
        match going {
            Going::Unknown => return Ok(Turns { list, ends: false }),
            Going::Ends => return Ok(Turns { list, ends: true }),
            Going::On { word, next } => {
                let behind = or_zero(next);
                let turn = Turn {
                    now: word,
                    next: behind,
                };
                list.push(turn)?;
                now = next;
            }
        }
    }
    Ok(Turns { list, ends: false })
}
