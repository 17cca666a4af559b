//! Elements of arrays and vectors, bits, ranges of bits, and calls of the language on numbers (IEEE 1666-2011, 7.2 and 8.5).
ghost use Rattle.std.specs.Prelude.{◌≡◌, IfErr, IfOk, IfSome, Some, is_some, nat_eq, true};
ghost use Rattle.scc_plain_drafts.specs.Forms.{ArePicked, Classes, SoundLoc, SoundSubject, form_in, loc_in, method_number, subject_in};
ghost use Rattle.scc_plain_drafts.specs.Views.{Drafts, Sound, draft_of};
ghost use Rattle.scc_plain_drafts.specs.Meaning.{SoundMeant, meant_in};
ghost use Rattle.scc_plain_drafts.specs.Picks.{IsLoc, IsTaking, Means, picking_of, shown_bits, step_of};
ghost use Rattle.scc_elab_spec.specs.Term.{Bits, Index, OneBit};
ghost use Rattle.scc_plain_spec.specs.Forms.{OfLoc, located};
ghost use Rattle.scc_plain_spec.specs.Meant.{Stands, at_index, bit, bits_of, has_elements, indexed, inner_form, some_bits, with_bits};
ghost use Rattle.scc_plain_view.specs.Terms.{left_of, taken_of, term_of};
ghost use Rattle.scc_plain_spec.specs.Methods as spec;
ghost use Rattle.scc_plain_spec.specs.Methods.{subject_is_port};
ghost use Rattle.scc_plain_spec.specs.Parts.{is_call};
ghost use Rattle.scc_bits_kinds.specs.declared.kind.Kind.TheVariants as kind;
ghost use Rattle.scc_plain_drafts.specs.Refusals.{MayStop};

use crate::draft::{Draft, bits, convert, is_read, operate_one};
use crate::form::{Form, Loc};
use crate::meant::{Meant, Method, Subject};
use crate::refusal::{gone, refuse};
use crate::target::is_all;
use scc_base::{Code, Name, NoMemory, Place, Stop};
use scc_bits::{Kind, Op, has_bits, is_small, range_kind, valid, width};
use scc_plain_tree::{Base, PlainLeft, PlainPart, PlainPick};
use std::alloc::Global;

/// The call of the language that a name is, None where it is none: the names of these calls have the first numbers.
pub fn method_of(name: Name) -> Option<Method>
    ensures number { IfSome result (λ m. method_number m ≡ name.0) }
    ensures is { is_some result ≡ is_call name.0 }
{
    use crate::meant::PortCall;
    Some(match name.0 {
        0 => Method::Read,
        1 => Method::Port(PortCall::Write),
        2 => Method::Port(PortCall::Bind),
        3 => Method::Port(PortCall::Pos),
        4 => Method::Port(PortCall::Neg),
        5 => Method::Range,
        6 => Method::AndReduce,
        7 => Method::OrReduce,
        8 => Method::XorReduce,
        9 => Method::ToInt,
        10 => Method::ToUint,
        11 => Method::ToInt64,
        12 => Method::ToUint64,
        _ => return None,
    })
}

fn with_bits(kind: Kind) -> Option<Kind>
    ensures { result ≡ with_bits kind }
{
    if has_bits(kind) {
        return Some(kind);
    }
    None
}

// The kind of which bits can be picked.
fn bits_of(of: &Subject) -> Option<Kind>
    ensures { (n : Classes) → SoundSubject of.now → result ≡ bits_of (subject_in n of.now) }
{
    match of {
        Subject::Value(x) => {
            if !is_read(&x.expr) {
                return None;
            }
            with_bits(x.expr.kind)
        }
        Subject::Loc(l) => bits_at(l),
    }
}

fn bits_at(l: &Loc) -> Option<Kind>
    ensures { (n : Classes) → result ≡ bits_of (OfLoc (loc_in n l.now)) }
{
    if !l.form.is_whole() {
        return None;
    }
    if !is_all(l) {
        return None;
    }
    match l.form.value_kind() {
        Some(kind) => with_bits(kind),
        None => None,
    }
}

// Bits of a variable, which are a location, or of what a port or signal shows.
fn picked(
    alloc: Global,
    of: Subject,
    pick: PlainPick,
    kind: Kind,
    place: Place,
) -> Result<Meant, Stop>
    ensures stop { IfErr result MayStop }
    ensures is { (n : Classes) → SoundSubject of → bits_of (subject_in n of) ≡ Some (picking_of pick).of → ArePicked (picking_of pick).pick kind → Means n result (some_bits place kind (picking_of pick).pick (subject_in n of)) }
{
    match of {
        Subject::Loc(l) => picked_at(alloc, l, pick, kind, place),
        Subject::Value(x) => Ok(Meant::Value(bits(alloc, place, kind, x, pick)?)),
    }
}

fn picked_at(
    alloc: Global,
    l: Loc,
    pick: PlainPick,
    kind: Kind,
    place: Place,
) -> Result<Meant, Stop>
    ensures stop { IfErr result MayStop }
    ensures is { (n : Classes) → SoundLoc l → bits_of (OfLoc (loc_in n l)) ≡ Some (picking_of pick).of → ArePicked (picking_of pick).pick kind → Means n result (some_bits place kind (picking_of pick).pick (OfLoc (loc_in n l))) }
{
    match l.form.base {
        Base::Number(_) => Ok(Meant::Loc(taking(l, pick, kind))),
        _ => shown_bits(alloc, l, pick, kind, place),
    }
}

// Bits of a number at a location.
fn taking(l: Loc, pick: PlainPick, kind: Kind) -> Loc
    ensures { IsTaking result l pick kind }
{
    let form = l.form;
    let mut left = l.left;
    left.pick = Some(pick);
    Loc {
        left,
        form,
        pick: Some(kind),
    }
}

fn shown_bits(
    alloc: Global,
    l: Loc,
    pick: PlainPick,
    kind: Kind,
    place: Place,
) -> Result<Meant, Stop>
    ensures stop { IfErr result MayStop }
    ensures is { (n : Classes) → SoundLoc l → ArePicked (picking_of pick).pick kind → Means n result (shown_bits place kind (picking_of pick).pick (loc_in n l)) }
{
    let x = Subject::Loc(l).value(alloc, place)?;
    Ok(Meant::Value(bits(alloc, place, kind, x, pick)?))
}

fn bit_pick(of: Kind, i: Draft) -> PlainPick
    ensures { picking_of result ≡ record { of = of; pick = OneBit (term_of i.expr) } }
{
    PlainPick::Bit { of, at: i.expr }
}

fn bit(alloc: Global, of: Subject, i: Draft, place: Place) -> Result<Meant, Stop>
    ensures stop { IfErr result MayStop }
    ensures is { (n : Classes) → SoundSubject of → Means n result (bit place (draft_of i) (subject_in n of)) }
{
    match bits_of(&of) {
        Some(kind) => picked(alloc, of, bit_pick(kind, i), Kind::Bool, place),
        None => refuse(Code::Mismatch, place), // E304
    }
}

// What an element of an array or a vector holds.
fn inner_form(form: Form) -> Form
    ensures { (n : Classes) → form_in n result ≡ inner_form (form_in n form) }
{
    if form.dims == 0 {
        return Form::direct(form.base);
    }
    Form {
        base: form.base,
        reach: form.reach,
        vector: form.vector,
        dims: form.dims - 1,
    }
}

/// A part of what stands at a location.
pub fn part_of(left: PlainLeft, part: PlainPart) -> Result<PlainLeft, NoMemory>
    ensures { IfOk result (λ x. taken_of x ≡ record { left = step_of part (taken_of left).left; pick = (taken_of left).pick; of = (taken_of left).of }) }
{
    let mut left = left;
    left.parts.push(part)?;
    Ok(left)
}

fn element(l: Loc, i: Draft) -> Result<Loc, NoMemory>
    ensures { IfOk result (λ x. (n : Classes) → SoundLoc l → has_elements (form_in n l.form) ≡ true → IsLoc n x (located (Index (left_of l.left) (term_of i.expr)) (inner_form (form_in n l.form)))) }
{
    let form = inner_form(l.form);
    let left = part_of(l.left, PlainPart::Index(i.expr))?;
    Ok(Loc::new(left, form))
}

fn has_elements(form: Form) -> bool
    ensures { (n : Classes) → result ≡ has_elements (form_in n form) }
{
    if form.dims != 0 {
        return true;
    }
    if !form.vector {
        return false;
    }
    !form.is_pointer()
}

fn index_at(alloc: Global, l: Loc, i: Draft, place: Place) -> Result<Meant, Stop>
    ensures stop { IfErr result MayStop }
    ensures is { (n : Classes) → SoundLoc l → Means n result (at_index place (draft_of i) (Stands (loc_in n l))) }
{
    if has_elements(l.form) {
        return Ok(Meant::Loc(element(l, i)?));
    }
    bit(alloc, Subject::Loc(l), i, place)
}

/// `m[i]`: an element or a bit. Refuses by E304.
pub fn indexed(alloc: Global, m: Meant, i: Draft, place: Place) -> Result<Meant, Stop>
    ensures stop { IfErr result MayStop }
    ensures is { (n : Classes) → SoundMeant m → Sound i → Means n result (indexed place (meant_in n m) (draft_of i)) }
{
    if !is_small(i.expr.kind) {
        return refuse(Code::Mismatch, place);
    }
    match m.subject() {
        Some(Subject::Loc(l)) => index_at(alloc, l, i, place),
        Some(Subject::Value(x)) => bit(alloc, Subject::Value(x), i, place),
        None => refuse(Code::Mismatch, place),
    }
}

fn range_pick(of: Kind, h: u32, l: u32) -> PlainPick
    ensures { picking_of result ≡ record { of = of; pick = Bits h l } }
{
    PlainPick::Range { of, h, l }
}

/// Bits h down to l, of which a negative number is None. Refuses by E304 and E312.
pub fn ranged(
    alloc: Global,
    of: Subject,
    h: Option<u32>,
    l: Option<u32>,
    place: Place,
) -> Result<Meant, Stop>
    ensures stop { IfErr result MayStop }
    ensures is { (n : Classes) → SoundSubject of → Means n result (spec.ranged place (subject_in n of) h l) }
{
    let Some(kind) = bits_of(&of) else {
        return refuse(Code::Mismatch, place);
    };
    let Some(h) = h else {
        return refuse(Code::RangeOrder, place); // E312
    };
    let Some(l) = l else {
        return refuse(Code::RangeOrder, place);
    };
    range_of(alloc, of, kind, h, l, place)
}

fn range_of(
    alloc: Global,
    of: Subject,
    kind: Kind,
    h: u32,
    l: u32,
    place: Place,
) -> Result<Meant, Stop>
    ensures stop { IfErr result MayStop }
    ensures is { (n : Classes) → SoundSubject of → bits_of (subject_in n of) ≡ Some kind → Means n result (spec.ranged place (subject_in n of) (Some h) (Some l)) }
{
    if h < l {
        return refuse(Code::RangeOrder, place);
    }
    if width(kind) <= h {
        return refuse(Code::RangeOrder, place);
    }
    // Kinds of sources have bits.
    if !valid(kind) {
        return gone();
    }
    match range_kind(kind, h, l) {
        Some(j) => picked(alloc, of, range_pick(kind, h, l), j, place),
        None => refuse(Code::RangeOrder, place),
    }
}

fn native(bits: u8, signed: bool) -> Kind
    ensures { result ≡ kind.Native bits signed }
{
    Kind::Native { bits, signed }
}

fn is_port(of: &Subject) -> bool
    ensures { (n : Classes) → result ≡ subject_is_port (subject_in n of.now) }
{
    match of {
        Subject::Loc(l) => l.form.is_port(),
        Subject::Value(_) => false,
    }
}

/// A call of the language without arguments that gives a value. Refuses by E304.
pub fn answered(alloc: Global, method: Method, of: Subject, place: Place) -> Result<Draft, Stop>
    ensures stop { IfErr result MayStop }
    ensures is { (n : Classes) → SoundSubject of → Drafts result (spec.method place (method_number method) (subject_in n of)) }
{
    let is_port = is_port(&of);
    let x = of.value(alloc, place)?;
    if is_read_call(method) {
        if is_port {
            return Ok(x);
        }
        return refuse(Code::Mismatch, place);
    }
    if !has_bits(x.expr.kind) {
        return refuse(Code::Mismatch, place);
    }
    converted(alloc, place, method, x)
}

fn is_read_call(method: Method) -> bool
    ensures { result ≡ nat_eq (method_number method) 0 }
{
    matches!(method, Method::Read)
}

// A reduction or a conversion.
fn converted(alloc: Global, place: Place, method: Method, x: Draft) -> Result<Draft, Stop>
    ensures stop { IfErr result MayStop }
    ensures is { Sound x → Drafts result (spec.converting place (method_number method) (draft_of x)) }
{
    match method {
        Method::AndReduce => operate_one(alloc, place, Op::AndReduce, x),
        Method::OrReduce => operate_one(alloc, place, Op::OrReduce, x),
        Method::XorReduce => operate_one(alloc, place, Op::XorReduce, x),
        Method::ToInt => convert(alloc, x, native(32, true)),
        Method::ToUint => convert(alloc, x, native(32, false)),
        Method::ToInt64 => convert(alloc, x, native(64, true)),
        Method::ToUint64 => convert(alloc, x, native(64, false)),
        Method::Read | Method::Port(_) | Method::Range => refuse(Code::Mismatch, place),
    }
}
