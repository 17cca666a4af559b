//! Expressions with what is known of them. Each conversion is written out.
ghost use Rattle.std.specs.Prelude.{◌≡◌, IfErr, IfOk, IfSome, None, Some, not, option_map, true, unwrap_or};
ghost use Rattle.scc_base.specs.declared.refusal.Place.{Place};
ghost use Rattle.scc_bits.specs.Values.{kind_of};
ghost use Rattle.scc_bits_kinds.specs.declared.kind.Kind.{Kind};
ghost use Rattle.scc_plain_drafts.specs.Refusals.{MayStop};
ghost use Rattle.scc_plain_drafts.specs.Picks.{base_of, is_bit, is_one, is_part, is_result, picking_of, step_of};
ghost use Rattle.scc_plain_drafts.specs.Views.{Drafts, Is, Sound, choice, draft_of, known_choice, operation, operation_alone};
ghost use Rattle.scc_plain_drafts.specs.Forms.{ArePicked};
ghost use Rattle.scc_plain_spec.specs.Drafts as spec;
ghost use Rattle.scc_plain_spec.specs.Forms.{picked as spec_picked};
ghost use Rattle.scc_plain_spec.specs.Meant.{is_answer, is_read};
ghost use Rattle.scc_plain_spec.specs.Numbers.{answered, divides, is_shift, stored_in};
ghost use Rattle.scc_templates_spec.specs.Walk.{same_kind};
ghost use Rattle.scc_elab_spec.specs.Term.{Binary, Left, Load, Read, Unary};
ghost use Rattle.scc_plain_view.specs.Terms.{picked, taken_of, term_of};

use crate::refusal::refuse;
use scc_base::{Boxed, Code, NoMemory, Place, Stop, lost};
use scc_bits::{Kind, Op, Value, converts, result_kind, too_wide};
use scc_plain_tree::{PlainBase, PlainExpr, PlainExprNode, PlainLeft, PlainPart, PlainPick};
use scc_templates_scopes::constant::{choice_kind, kind_beside as value_beside};
use std::alloc::Global;

/// An expression, with its number where it is a constant.
#[derive(Drop)]
pub struct Draft {
    pub expr: PlainExpr,
    pub known: Option<Value>,
    /// Where a conversion of it is refused: the place of its expression in the source.
    pub place: Place,
}

impl Draft {
    /// Whether it is one bit of a value.
    pub fn is_bit(&self) -> bool
        ensures { result ≡ is_bit (term_of self.now.expr) }
    {
        is_bit(&self.expr)
    }
}

fn takes_bit(left: &PlainLeft) -> bool
    ensures { result ≡ is_one (taken_of left.now).pick }
{
    matches!(left.pick, Some(PlainPick::Bit { .. }))
}

fn is_index(pick: &PlainPick) -> bool
    ensures { result ≡ is_one (picking_of pick.now).pick }
{
    matches!(pick, PlainPick::Bit { .. })
}

// A concatenation of one part is that part.
fn is_bit(x: &PlainExpr) -> bool
    ensures { result ≡ is_bit (term_of x.now) }
{
    match x.node.get() {
        PlainExprNode::Load(left) => takes_bit(left),
        PlainExprNode::Read(left) => takes_bit(left),
        PlainExprNode::Pick { of: _, pick } => is_index(pick),
        PlainExprNode::Join(parts) => match parts.as_slice() {
            [part] => is_bit(part),
            _ => false,
        },
        PlainExprNode::Lit(_) => false,
        PlainExprNode::Convert(_) => false,
        PlainExprNode::Operate { .. } => false,
        PlainExprNode::Choose { .. } => false,
    }
}

/// Whether it is what a port or signal shows. A concatenation of one part is that part.
pub(crate) fn is_read(x: &PlainExpr) -> bool
    ensures { result ≡ is_read (term_of x.now) }
{
    match x.node.get() {
        PlainExprNode::Read(left) => !takes_part(left),
        PlainExprNode::Join(parts) => match parts.as_slice() {
            [part] => is_read(part),
            _ => false,
        },
        PlainExprNode::Load(_) => false,
        PlainExprNode::Pick { .. } => false,
        PlainExprNode::Lit(_) => false,
        PlainExprNode::Convert(_) => false,
        PlainExprNode::Operate { .. } => false,
        PlainExprNode::Choose { .. } => false,
    }
}

/// Whether it is the result of a call. A concatenation of one part is that part.
pub(crate) fn is_answer(x: &PlainExpr) -> bool
    ensures { result ≡ is_answer (term_of x.now) }
{
    match x.node.get() {
        PlainExprNode::Load(left) => is_answer_at(left),
        PlainExprNode::Join(parts) => match parts.as_slice() {
            [part] => is_answer(part),
            _ => false,
        },
        PlainExprNode::Read(_) => false,
        PlainExprNode::Pick { .. } => false,
        PlainExprNode::Lit(_) => false,
        PlainExprNode::Convert(_) => false,
        PlainExprNode::Operate { .. } => false,
        PlainExprNode::Choose { .. } => false,
    }
}

fn is_answer_at(left: &PlainLeft) -> bool
    ensures { (p : Place) (k : Kind) → result ≡ is_answer (picked p k (Load p (unwrap_or (taken_of left.now).of k) (taken_of left.now).left) (taken_of left.now).pick) }
{
    if takes_part(left) {
        return false;
    }
    names_answer(left)
}

fn names_answer(left: &PlainLeft) -> bool
    ensures { result ≡ is_result (taken_of left.now).left }
{
    match left.parts.as_slice().split_last() {
        Some((part, _)) => !is_within(part),
        None => is_result(&left.base),
    }
}

// Whether it is a member or an element: each part of a location is one.
fn is_within(part: &PlainPart) -> bool
    ensures { (l : Left) → not result ≡ is_result (step_of part.now l) }
{
    match part {
        PlainPart::Member(_) => true,
        PlainPart::Index(_) => true,
    }
}

fn is_result(base: &PlainBase) -> bool
    ensures { (p : Place) → result ≡ is_result (base_of base.now p) }
{
    match base {
        PlainBase::Answer(_) => true,
        PlainBase::Local(_) => false,
        PlainBase::This => false,
        PlainBase::Follow(_) => false,
    }
}

fn takes_part(left: &PlainLeft) -> bool
    ensures { result ≡ is_part (taken_of left.now).pick }
{
    match &left.pick {
        None => false,
        Some(PlainPick::Bit { .. }) => true,
        Some(PlainPick::Range { .. }) => true,
    }
}

pub fn made(
    alloc: Global,
    place: Place,
    kind: Kind,
    node: PlainExprNode,
    known: Option<Value>,
) -> Result<Draft, NoMemory>
    ensures { IfOk result (λ x. x ≡ record { expr = record { place = place; kind = kind; node = node }; known = known; place = place }) }
{
    let node = Boxed::new(alloc, node)?;
    let expr = PlainExpr { place, kind, node };
    Ok(Draft { expr, known, place })
}

/// A constant.
pub fn literal(alloc: Global, place: Place, v: Value) -> Result<Draft, NoMemory>
    ensures { IfOk result (λ x. Is x (spec.literal place v)) }
{
    let node = PlainExprNode::Lit(v.word());
    made(alloc, place, v.kind(), node, Some(v))
}

/// What a variable holds.
pub fn load(alloc: Global, place: Place, kind: Kind, left: PlainLeft) -> Result<Draft, NoMemory>
    ensures is { IfOk result (λ x. draft_of x ≡ spec.drafted place (picked place kind (Load place (unwrap_or (taken_of left).of kind) (taken_of left).left) (taken_of left).pick)) }
    ensures kind { IfOk result (λ x. x.expr.kind ≡ kind) }
    ensures place { IfOk result (λ x. x.expr.place ≡ place) }
{
    made(alloc, place, kind, PlainExprNode::Load(left), None)
}

/// What a port or signal shows.
pub fn read(alloc: Global, place: Place, kind: Kind, left: PlainLeft) -> Result<Draft, NoMemory>
    ensures is { IfOk result (λ x. draft_of x ≡ spec.drafted place (picked place kind (Read place (unwrap_or (taken_of left).of kind) (taken_of left).left) (taken_of left).pick)) }
    ensures kind { IfOk result (λ x. x.expr.kind ≡ kind) }
    ensures place { IfOk result (λ x. x.expr.place ≡ place) }
{
    made(alloc, place, kind, PlainExprNode::Read(left), None)
}

/// Bits of a value.
pub fn bits(
    alloc: Global,
    place: Place,
    kind: Kind,
    of: Draft,
    pick: PlainPick,
) -> Result<Draft, NoMemory>
    ensures is { ArePicked (picking_of pick).pick kind → IfOk result (λ x. Is x (spec.drafted place (spec_picked place kind (term_of of.expr) (picking_of pick).pick))) }
{
    let node = PlainExprNode::Pick { of: of.expr, pick };
    made(alloc, place, kind, node, None)
}

pub(crate) fn is_kind(a: Kind, b: Kind) -> bool
    ensures is { result ≡ same_kind a b }
    ensures same { result ≡ true → a ≡ b }
{
    a == b
}

// A known number in another kind.
fn stored(known: Option<Value>, to: Kind) -> Result<Option<Value>, NoMemory>
    ensures { IfOk result (λ n. n ≡ option_map (stored_in to) known) }
{
    let Some(v) = known else {
        return Ok(None);
    };
    match v.stored(to) {
        Some(v) => Ok(Some(v)),
        None => Err(lost()),
    }
}

fn wrapped(alloc: Global, x: Draft, to: Kind, place: Place) -> Result<Draft, NoMemory>
    ensures is { IfOk result (λ y. Is y (spec.wrapped place to (draft_of x))) }
    ensures kind { IfOk result (λ y. y.expr.kind ≡ to) }
{
    let known = stored(x.known, to)?;
    made(alloc, place, to, PlainExprNode::Convert(x.expr), known)
}

/// The expression in another kind; E304 where there is no conversion (C++, [conv]; IEEE 1666-2011, 7.2.1).
pub fn convert(alloc: Global, x: Draft, to: Kind) -> Result<Draft, Stop>
    ensures stop { IfErr result MayStop }
    ensures is { Sound x → Drafts result (spec.converted to (draft_of x)) }
    ensures kind { IfOk result (λ y. y.expr.kind ≡ to) }
{
    if is_kind(x.expr.kind, to) {
        return Ok(x);
    }
    if !converts(x.expr.kind, to) {
        return refuse(Code::Mismatch, x.place); // E304
    }
    let place = x.expr.place;
    Ok(wrapped(alloc, x, to, place)?)
}

/// The same for a cast at a place (C++, [expr.cast]). Where the kinds are equal it makes no expression of its own.
pub fn cast(alloc: Global, x: Draft, to: Kind, place: Place) -> Result<Draft, Stop>
    ensures stop { IfErr result MayStop }
    ensures is { Sound x → Drafts result (spec.cast place to (draft_of x)) }
{
    let from = x.expr.kind;
    if is_kind(from, to) {
        return Ok(Draft {
            expr: x.expr,
            known: x.known,
            place,
        });
    }
    if !converts(from, to) {
        return refuse(Code::Mismatch, place);
    }
    Ok(wrapped(alloc, x, to, place)?)
}

// The kind by which an operand counts beside one of another kind.
fn kind_beside(x: &Draft, other: Kind) -> Kind
    ensures { Sound x.now → result ≡ spec.draft_beside (draft_of x.now) other }
{
    match x.known {
        Some(v) => value_beside(v, other),
        None => x.expr.kind,
    }
}

fn is_shift(op: Op) -> bool
    ensures { result ≡ is_shift op }
{
    matches!(op, Op::Shl | Op::Shr)
}

// The kind by which the left operand of an operator counts. What is shifted counts by its own.
fn left_kind(op: Op, a: &Draft, b: &Draft) -> Kind
    ensures { Sound a.now → Sound b.now → result ≡ spec.left_beside op (draft_of a.now) (draft_of b.now) }
{
    if is_shift(op) {
        return a.expr.kind;
    }
    kind_beside(a, b.expr.kind)
}

// That of the right one. The amount of a shift counts by its own.
fn right_kind(op: Op, a: &Draft, b: &Draft) -> Kind
    ensures { Sound a.now → Sound b.now → result ≡ spec.right_beside op (draft_of a.now) (draft_of b.now) }
{
    if is_shift(op) {
        return b.expr.kind;
    }
    kind_beside(b, a.expr.kind)
}

// A divisor is a constant that isn't 0.
fn divides(op: Op, divisor: Option<Value>) -> bool
    ensures { result ≡ divides op divisor }
{
    match (op, divisor) {
        (Op::Div | Op::Rem, Some(v)) => v.is_true(),
        (Op::Div | Op::Rem, None) => false,
        _ => true,
    }
}

// An operator on what is known of its operands.
fn applied(op: Op, a: Option<Value>, b: Option<Value>) -> Result<Option<Value>, NoMemory>
    ensures is { IfOk result (λ n. (j k answer : Kind) → IfSome a (λ x. x.kind ≡ j) → IfSome b (λ y. y.kind ≡ k) → kind_of op j k ≡ Some answer → (n ≡ spec.both_known a b (answered op answer)) × IfSome n (λ v. v.kind ≡ answer)) }
{
    let Some(a) = a else {
        return Ok(None);
    };
    let Some(b) = b else {
        return Ok(None);
    };
    match a.applied(op, b) {
        Ok(v) => Ok(Some(v)),
        Err(_) => Err(lost()),
    }
}

/// An operator between two operands: `place` is the expression's, `at` the operator's. Refuses by E304, E310 and E311 at the
/// operator.
pub fn operate(
    alloc: Global,
    place: Place,
    at: Place,
    op: Op,
    a: Draft,
    b: Draft,
) -> Result<Draft, Stop>
    ensures stop { IfErr result MayStop }
    ensures is { Sound a → Sound b → Drafts result (spec.operate place at op (draft_of a) (draft_of b)) }
{
    let left = left_kind(op, &a, &b);
    let right = right_kind(op, &a, &b);
    let Some(kind) = result_kind(op, left, right) else {
        return refuse(Code::Mismatch, at);
    };
    if too_wide(op, left, right) {
        return refuse(Code::WideLoss, at); // E310
    }
    if !divides(op, b.known) {
        return refuse(Code::Divisor, at); // E311
    }
    let a = convert(alloc, a, left)?;
    let b = convert(alloc, b, right)?;
    Ok(operated(alloc, place, kind, op, a, b)?)
}

fn operated(
    alloc: Global,
    place: Place,
    kind: Kind,
    op: Op,
    a: Draft,
    b: Draft,
) -> Result<Draft, NoMemory>
    ensures { Sound a → Sound b → kind_of op a.expr.kind b.expr.kind ≡ Some kind → IfOk result (λ x. Is x (operation place kind op (draft_of a) (draft_of b))) }
{
    let known = applied(op, a.known, b.known)?;
    binary(alloc, place, Known { kind, known }, op, a.expr, b.expr)
}

// The kind of an expression, and its number where it is known.
#[derive(Clone, Copy)]
struct Known {
    kind: Kind,
    known: Option<Value>,
}

fn binary(
    alloc: Global,
    place: Place,
    of: Known,
    op: Op,
    a: PlainExpr,
    b: PlainExpr,
) -> Result<Draft, NoMemory>
    ensures { IfSome of.known (λ v. v.kind ≡ of.kind) → IfOk result (λ x. Is x (record { term = Binary place of.kind op (term_of a) (term_of b); known = of.known; place = place })) }
{
    let node = PlainExprNode::Operate {
        op,
        left: a,
        right: Some(b),
    };
    made(alloc, place, of.kind, node, of.known)
}

/// An operator before its one operand. Refuses by E304 and E310 at the expression.
pub fn operate_one(alloc: Global, place: Place, op: Op, a: Draft) -> Result<Draft, Stop>
    ensures stop { IfErr result MayStop }
    ensures is { Sound a → Drafts result (spec.operate_one place op (draft_of a)) }
{
    let of = a.expr.kind;
    let Some(kind) = result_kind(op, of, of) else {
        return refuse(Code::Mismatch, place);
    };
    if too_wide(op, of, of) {
        return refuse(Code::WideLoss, place);
    }
    Ok(operated_one(alloc, place, kind, op, a)?)
}

fn operated_one(
    alloc: Global,
    place: Place,
    kind: Kind,
    op: Op,
    a: Draft,
) -> Result<Draft, NoMemory>
    ensures { Sound a → kind_of op a.expr.kind a.expr.kind ≡ Some kind → IfOk result (λ x. Is x (operation_alone place kind op (draft_of a))) }
{
    let known = applied(op, a.known, a.known)?;
    unary(alloc, place, Known { kind, known }, op, a.expr)
}

fn unary(alloc: Global, place: Place, of: Known, op: Op, a: PlainExpr) -> Result<Draft, NoMemory>
    ensures { IfSome of.known (λ v. v.kind ≡ of.kind) → IfOk result (λ x. Is x (record { term = Unary place of.kind op (term_of a); known = of.known; place = place })) }
{
    let node = PlainExprNode::Operate {
        op,
        left: a,
        right: None,
    };
    made(alloc, place, of.kind, node, of.known)
}

fn chosen(
    test: Option<Value>,
    yes: Option<Value>,
    no: Option<Value>,
    kind: Kind,
) -> Result<Option<Value>, NoMemory>
    ensures { IfOk result (λ n. (n ≡ known_choice kind test yes no) × IfSome n (λ v. v.kind ≡ kind)) }
{
    let Some(test) = test else {
        return Ok(None);
    };
    let Some(yes) = yes else {
        return Ok(None);
    };
    let Some(no) = no else {
        return Ok(None);
    };
    stored(Some(if test.is_true() { yes } else { no }), kind)
}

/// `test ? yes : no` (C++, [expr.cond]); E304 at the expression where the two have no common kind.
pub fn choose(
    alloc: Global,
    place: Place,
    test: Draft,
    yes: Draft,
    no: Draft,
) -> Result<Draft, Stop>
    ensures stop { IfErr result MayStop }
    ensures is { Sound yes → Sound no → Drafts result (spec.choose place (draft_of test) (draft_of yes) (draft_of no)) }
{
    let yes_kind = kind_beside(&yes, no.expr.kind);
    let no_kind = kind_beside(&no, yes.expr.kind);
    let Some(kind) = choice_kind(yes_kind, no_kind) else {
        return refuse(Code::Mismatch, place);
    };
    let yes = convert(alloc, yes, yes_kind)?;
    let no = convert(alloc, no, no_kind)?;
    Ok(choice(alloc, place, kind, test, yes, no)?)
}

fn choice(
    alloc: Global,
    place: Place,
    kind: Kind,
    test: Draft,
    yes: Draft,
    no: Draft,
) -> Result<Draft, NoMemory>
    ensures { IfOk result (λ x. Is x (choice place kind (draft_of test) (draft_of yes) (draft_of no))) }
{
    let known = chosen(test.known, yes.known, no.known, kind)?;
    let node = PlainExprNode::Choose {
        test: test.expr,
        yes: yes.expr,
        no: no.expr,
    };
    made(alloc, place, kind, node, known)
}
