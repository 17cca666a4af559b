//! Literals and variables.
ghost use Rattle.std.specs.Prelude.{◌≡◌, ◌+◌, ◌^◌, ◌-◌, min, length};
ghost use Rattle.scc_svtext.specs.Pieces.{spelled};
ghost use Rattle.scc_svread_check.specs.Parts as parts;
ghost use Rattle.scc_svread_check.specs.Walking as walking;

use crate::number::{decimal, is_wrong_literal};
use crate::scope::Scope;
use crate::walk::Walk;
use scc_base::Text;
use scc_svread_grammar::{RawLeft, RawLiteral, RawSelect};
use scc_svtext::is_reserved_word;

/// A length, of which those past 128 are all alike.
pub fn cut(n: u128) -> u32
    ensures { result ≡ parts.cut n }
{
    n.min(129) as u32
}

/// Goes over a number of bytes that is a sum.
pub fn pass_both(w: Walk, n: usize, m: usize) -> Walk
    ensures { result ≡ walking.pass (n + m) w }
{
    w.pass(n).pass(m)
}

/// Goes over a name.
pub fn spelling(name: &Text, w: Walk) -> Walk
    ensures { result ≡ walking.pass (length (spelled name.now)) w }
{
    let bytes = name.bytes();
    if is_reserved_word(bytes) {
        pass_both(w, bytes.len(), 2)
    } else {
        w.pass(bytes.len())
    }
}

/// Goes over a name that is to be declared.
pub fn name(scope: &Scope, name: &Text, w: Walk) -> Walk
    ensures { result ≡ parts.name_walk scope.now name.now w }
{
    spelling(name, w.name_if(!scope.has(name.bytes())))
}

/// Goes over a literal and so many bytes behind it.
pub fn digits(l: &RawLiteral, behind: usize, w: Walk) -> Walk
    ensures { result ≡ walking.pass (parts.literal_bytes l.now + behind) w }
{
    let w = pass_both(w, l.width.bytes().len(), 2);
    pass_both(w, l.digits.bytes().len(), behind)
}

/// Goes over a literal.
pub fn literal(l: &RawLiteral, w: Walk) -> Walk
    ensures { result ≡ parts.literal_walk l.now w }
{
    digits(l, 0, w.size_if(is_wrong_literal(l)))
}

/// Goes over a select.
pub fn select(s: &RawSelect, w: Walk) -> Walk
    ensures { result ≡ walking.pass (parts.select_bytes s.now) w }
{
    match s {
        RawSelect::Whole => w.pass(0),
        RawSelect::Bit(at) => pass_both(w, at.bytes().len(), 2),
        RawSelect::Range { h, l } => pass_both(w.pass(h.bytes().len()), l.bytes().len(), 3),
    }
}

// Whether a select lies outside a variable with this highest bit.
fn is_wrong_select(s: &RawSelect, high: u128) -> bool
    ensures { result ≡ parts.is_wrong_select s.now high }
{
    match s {
        RawSelect::Whole => false,
        RawSelect::Bit(at) => high == 0 || !(decimal(at.bytes()) <= high),
        RawSelect::Range { h, l } => {
            let (h, l) = (decimal(h.bytes()), decimal(l.bytes()));
            !(h <= high) || h <= l
        }
    }
}

fn is_wrong_part(s: &RawSelect, high: Option<u128>) -> bool
    ensures { result ≡ parts.is_wrong_part s.now high }
{
    match high {
        Some(high) => is_wrong_select(s, high),
        None => false,
    }
}

fn select_bits(s: &RawSelect, high: u128) -> u32
    ensures { result ≡ parts.select_bits s.now high }
{
    match s {
        RawSelect::Whole => cut(high.saturating_add(1)),
        RawSelect::Bit(_) => 1,
        RawSelect::Range { h, l } => {
            let (h, l) = (decimal(h.bytes()), decimal(l.bytes()));
            cut(h.saturating_sub(l).saturating_add(1))
        }
    }
}

/// The length of a variable or a part of it.
pub fn part_bits(s: &RawSelect, high: Option<u128>) -> Option<u32>
    ensures { result ≡ parts.with_one (parts.select_bits s.now) high }
{
    match high {
        Some(high) => Some(select_bits(s, high)),
        None => None,
    }
}

/// Goes over a variable or a part of it.
pub fn left(scope: &Scope, l: &RawLeft, w: Walk) -> Walk
    ensures { result ≡ parts.left_walk scope.now l.now w }
{
    let high = scope.high(l.name.bytes());
    let w = w.size_if(is_wrong_part(&l.select, high));
    select(&l.select, name(scope, &l.name, w))
}
