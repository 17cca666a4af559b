//! Concatenations (IEEE 1666-2011, 7.2.7).
ghost use Rattle.std.specs.Prelude.{◌≡◌, ◌≤◌, ◌+◌, ◌∷◌, ◌++◌, List, [], IfErr, IfOk, IfSome, Some, true};
ghost use Rattle.scc_bits_kinds.specs.Bits.{concat_of, is_part, joined};
ghost use Rattle.scc_bits_kinds.specs.Kinds.{width_of};
ghost use Rattle.scc_plain_drafts.specs.Joins.{Stands, StandsFor, SumStands, joined_draft};
ghost use Rattle.scc_plain_drafts.specs.Refusals.{MayStop};
ghost use Rattle.scc_plain_drafts.specs.Views.{Drafts, Is, Sound, draft_of};
ghost use Rattle.scc_plain_drafts.specs.declared.join.Sum.TheVariants as so_far;
ghost use Rattle.scc_plain_spec.specs.Drafts as spec;
ghost use Rattle.scc_plain_spec.specs.Drafts.{both_known};
ghost use Rattle.scc_plain_spec.specs.Numbers.{number};

use crate::draft::{Draft, made};
use crate::refusal::refuse;
use scc_base::{Code, List, NoMemory, Place, Stop, lost};
use scc_bits::{Kind, Value, concat_kind, is_part, width};
use scc_plain_tree::{PlainExpr, PlainExprNode};
use std::alloc::Global;

// What is known of the first parts together.
#[derive(Clone, Copy)]
enum Sum {
    Nothing,
    Of(Kind),
    /// One of them may be no part.
    NoPart,
    /// They have more than 128 bits, and each may be a part.
    TooWide,
}

#[tactic(auto, using(crate::proofs::Joining::parts_spoilt, crate::proofs::Joining::with_none, crate::proofs::Joining::with_spoilt, crate::proofs::Joining::with_wider))]
fn with_part(sum: Sum, low: Kind) -> Sum
    ensures { (ks : List Kind) → SumStands sum ks → SumStands result (ks ++ low ∷ []) }
{
    if !is_part(low) {
        return Sum::NoPart;
    }
    match sum {
        Sum::Nothing => alone(low),
        Sum::Of(high) => both(high, low),
        Sum::NoPart | Sum::TooWide => sum,
    }
}

#[tactic(auto, using(crate::proofs::Joining::alone_stands, crate::proofs::Joining::alone_wide))]
fn alone(low: Kind) -> Sum
    ensures { is_part low ≡ true → SumStands result (low ∷ []) }
{
    if width(low) > 128 {
        return Sum::TooWide;
    }
    Sum::Of(low)
}

#[tactic(auto, using(crate::proofs::Joining::with_wide, crate::proofs::Joining::with_part, crate::proofs::Joining::with_no_kind))]
fn both(high: Kind, low: Kind) -> Sum
    ensures { (ks : List Kind) → is_part low ≡ true → SumStands (so_far.Of high) ks → SumStands result (ks ++ low ∷ []) }
{
    if width(high) + width(low) > 128 {
        return Sum::TooWide;
    }
    match concat_kind(high, low) {
        Some(kind) => Sum::Of(kind),
        None => Sum::NoPart,
    }
}

// The number of all parts with a further one.
fn known_with(sum: Sum, high: Option<Value>, low: Option<Value>) -> Option<Value>
    ensures first { sum ≡ so_far.Nothing → result ≡ low }
    ensures more { (j k kind : Kind) → sum ≡ so_far.Of j → IfSome high (λ n. n.kind ≡ j) → IfSome low (λ n. n.kind ≡ k) → width_of j + width_of k ≤ 128 → concat_of j k ≡ Some kind → result ≡ both_known high low (λ a b. number kind (joined (width_of k) a.word b.word)) }
{
    if matches!(sum, Sum::Nothing) {
        return low;
    }
    above(high, low)
}

// A number above another one.
fn above(high: Option<Value>, low: Option<Value>) -> Option<Value>
    ensures { (j k kind : Kind) → IfSome high (λ n. n.kind ≡ j) → IfSome low (λ n. n.kind ≡ k) → width_of j + width_of k ≤ 128 → concat_of j k ≡ Some kind → result ≡ both_known high low (λ a b. number kind (joined (width_of k) a.word b.word)) }
{
    let Some(high) = high else {
        return None;
    };
    let Some(low) = low else {
        return None;
    };
    match high.joined(low) {
        Ok(v) => Some(v),
        Err(_) => None,
    }
}

/// A concatenation whose parts are added from the highest on.
#[derive(Drop)]
pub struct Joining {
    parts: List<PlainExpr>,
    sum: Sum,
    known: Option<Value>,
}

impl Joining {
    /// No parts.
    pub fn new(alloc: Global) -> Joining
        ensures { Stands result [] }
    {
        Joining {
            parts: List::new(alloc),
            sum: Sum::Nothing,
            known: None,
        }
    }

    /// Adds a part.
    pub fn push(&mut self, x: Draft) -> Result<(), NoMemory>
        ensures { IfOk result (λ _. (ds : List spec.Draft) → Stands self.old ds → Sound x → Stands self.new (ds ++ draft_of x ∷ [])) }
    {
        self.known = known_with(self.sum, self.known, x.known);
        self.sum = with_part(self.sum, x.expr.kind);
        self.parts.push(x.expr)
    }

    /// The whole; E304 where a part may be none, E303 where there are more than 128 bits.
    pub fn whole(self, alloc: Global, place: Place) -> Result<Draft, Stop>
        ensures stop { IfErr result MayStop }
        ensures is { (ds : List spec.Draft) → Stands self ds → Drafts result (spec.concat place ds) }
    {
        let Joining { parts, sum, known } = self;
        match sum {
            Sum::Of(kind) => Ok(whole(alloc, place, kind, parts, known)?),
            Sum::TooWide => refuse(Code::Width, place), // E303
            Sum::Nothing | Sum::NoPart => refuse(Code::Mismatch, place), // E304
        }
    }
}

fn whole(
    alloc: Global,
    place: Place,
    kind: Kind,
    parts: List<PlainExpr>,
    known: Option<Value>,
) -> Result<Draft, NoMemory>
    ensures { (ds : List spec.Draft) → StandsFor parts (so_far.Of kind) known ds → IfOk result (λ x. Is x (joined_draft place kind ds)) }
{
    // A concatenation has two parts or more.
    if parts.len() < 2 {
        return Err(lost());
    }
    made(alloc, place, kind, PlainExprNode::Join(parts), known)
}
