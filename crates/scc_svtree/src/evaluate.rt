//! Values of expressions.
ghost use Rattle.std.specs.Prelude.{◌≡◌, ◌<◌, ◌≤◌, ◌^◌, ◌+◌, ◌*◌, ◌&&◌, false, max, map, pos};
ghost use Rattle.scc_bits_kinds.specs.Numbers.{low, reading};
ghost use Rattle.scc_bits_kinds.specs.Operators.{exact};
ghost use Rattle.scc_svtree.specs.Classes.{IsLogical};
ghost use Rattle.scc_svtree.specs.Joined.{joined_word};
ghost use Rattle.scc_svtree.specs.Sized.{AllSized, IsSelect, IsSized, total_length};
ghost use Rattle.scc_svtree.specs.Sizes.{assigned, length_of, sized, sized_left, sized_unary, value_of};
ghost use Rattle.scc_svtree.specs.Term.{term_of};
ghost use Rattle.scc_svtree.specs.Variables.{Fitting, IsWidth, width_at, word_at};

use crate::class::{Class, kind_of};
use crate::resize::{apply, resize, select, shift, test};
use crate::sizing::{length, lengths, signed, width};
use crate::{SvExpr, SvExprNode, SvLeft, SvModule, SvUnary, VarId};
use scc_bits::{Op, Word};

const ZERO: Word = Word { bits: 0 };

// The word of a variable.
fn word_of(x: &[Word], v: VarId) -> Word
    ensures { result.bits ≡ word_at x.now v.0 }
{
    match x.get(v.0 as usize) {
        Some(word) => *word,
        None => ZERO,
    }
}

// A word of w bits, in a context of n bits and a sign.
#[tactic(auto, using(crate::proofs::Values::low_of_fit))]
fn extended(w: u32, x: Word, n: u32, s: bool) -> Word
    requires widths { IsWidth w × IsWidth n }
    requires fits { x.bits < 2 ^ w }
    ensures value { result.bits ≡ low n (reading s w (low w (pos x.bits))) }
    ensures fits { result.bits < 2 ^ n }
{
    resize(w, n, s, x)
}

// What stands at a left side, in a context of n bits and a sign.
fn left(m: &SvModule, l: SvLeft, x: &[Word], n: u32, s: bool) -> Word
    requires sized { IsSelect (width_at m.now.vars) l }
    requires fits { Fitting m.now.vars x.now }
    requires context { IsWidth n }
    ensures value { result.bits ≡ (sized_left (width_at m.now.vars) (word_at x.now) l).word n s }
    ensures fits { result.bits < 2 ^ n }
{
    match l {
        SvLeft::Whole(v) => extended(width(m, v), word_of(x, v), n, s),
        SvLeft::Bit { var, at } => extended(1, select(at, at, word_of(x, var)), n, s),
        SvLeft::Range { var, h, l } => extended(h - l + 1, select(h, l, word_of(x, var)), n, s),
    }
}

fn both(a: bool, b: bool) -> bool
    ensures { result ≡ (a && b) }
{
    a && b
}

// Bits with room for so many below them.
fn above(bits: u128, count: u32) -> u128
    requires count { count ≤ 128 }
    requires room { bits * 2 ^ count < 2 ^ 128 }
    ensures { result ≡ bits * 2 ^ count }
{
    if count == 128 { 0 } else { bits << count }
}

// The length and the sign of an expression by itself.
#[derive(Clone, Copy)]
struct Form {
    len: u32,
    signed: bool,
}

#[tactic(auto, using(crate::proofs::Values::same_length, crate::proofs::Values::same_sign, crate::proofs::Joined::width_of_sized))]
fn shape(m: &SvModule, e: &SvExpr, x: &[Word]) -> Form
    requires sized { IsSized (width_at m.now.vars) (term_of e.now) }
    ensures len { result.len ≡ (sized false (width_at m.now.vars) (word_at x.now) (term_of e.now)).len }
    ensures signed { result.signed ≡ (sized false (width_at m.now.vars) (word_at x.now) (term_of e.now)).signed }
    ensures width { IsWidth result.len }
{
    Form {
        len: length(m, e),
        signed: signed(m, e),
    }
}

// The form in which two expressions are compared.
fn meeting(a: Form, b: Form) -> Form
    requires widths { IsWidth a.len × IsWidth b.len }
    ensures len { result.len ≡ max a.len b.len }
    ensures signed { result.signed ≡ (a.signed && b.signed) }
    ensures width { IsWidth result.len }
{
    Form {
        len: a.len.max(b.len),
        signed: both(a.signed, b.signed),
    }
}

// An expression by itself: its length, its sign and its word.
#[derive(Clone, Copy)]
struct Operand {
    len: u32,
    signed: bool,
    word: Word,
}

// `&&` or `||` of two expressions.
#[tactic(auto, using(crate::proofs::Divisors::logical_width, crate::proofs::Divisors::logical_signs, crate::proofs::Divisors::logical_divisor))]
fn truth(op: Op, a: Operand, b: Operand) -> Word
    requires kind { IsLogical op }
    ensures word { result.bits ≡ low 1 (exact op a.len (pos a.word.bits) (pos b.word.bits)) }
    ensures fits { result.bits < 2 ^ 1 }
{
    test(op, 128, false, a.word, b.word)
}

// What casts and signs stand around is taken by itself too, so that lengths and signs are asked for once in a nest of them.
#[cycle(value)]
fn alone(m: &SvModule, e: &SvExpr, x: &[Word]) -> Operand
    requires sized { IsSized (width_at m.now.vars) (term_of e.now) }
    requires fits { Fitting m.now.vars x.now }
    ensures len { result.len ≡ (sized false (width_at m.now.vars) (word_at x.now) (term_of e.now)).len }
    ensures signed { result.signed ≡ (sized false (width_at m.now.vars) (word_at x.now) (term_of e.now)).signed }
    ensures word { result.word.bits ≡ value_of (width_at m.now.vars) (word_at x.now) (term_of e.now) }
    ensures width { IsWidth result.len }
    ensures fits { result.word.bits < 2 ^ result.len }
{
    match e.node.get() {
        SvExprNode::Cast { width, of } => {
            let a = alone(m, of, x);
            Operand {
                len: *width,
                signed: a.signed,
                word: resize(a.len, *width, a.signed, a.word),
            }
        }
        SvExprNode::Sign { signed, of } => {
            let a = alone(m, of, x);
            Operand {
                len: a.len,
                signed: *signed,
                word: a.word,
            }
        }
        _ => {
            let shape = shape(m, e, x);
            let word = word(m, e, x, shape.len, shape.signed);
            Operand {
                len: shape.len,
                signed: shape.signed,
                word,
            }
        }
    }
}

// An expression in a context of n bits and a sign.
#[cycle(value)]
#[tactic(auto, using(crate::proofs::Divisors::divisor_word, crate::proofs::Divisors::context_signs, crate::proofs::Divisors::shift_signs, crate::proofs::Divisors::comparison_signs, crate::proofs::Divisors::shift_divisor, crate::proofs::Divisors::comparison_divisor))]
fn word(m: &SvModule, e: &SvExpr, x: &[Word], n: u32, s: bool) -> Word
    requires sized { IsSized (width_at m.now.vars) (term_of e.now) }
    requires fits { Fitting m.now.vars x.now }
    requires context { IsWidth n }
    requires length { (sized false (width_at m.now.vars) (word_at x.now) (term_of e.now)).len ≤ n }
    ensures value { result.bits ≡ (sized false (width_at m.now.vars) (word_at x.now) (term_of e.now)).word n s }
    ensures fits { result.bits < 2 ^ n }
{
    match e.node.get() {
        SvExprNode::Literal(l) => extended(l.width, l.value, n, s),
        SvExprNode::Left(l) => left(m, *l, x, n, s),
        SvExprNode::Unary { op, of } => unary(m, *op, of, x, n, s),
        SvExprNode::Binary { op, left, right } => match kind_of(*op) {
            Class::Context(o) => {
                let a = word(m, left, x, n, s);
                let b = word(m, right, x, n, s);
                apply(o, n, s, a, s, b)
            }
            Class::Shift { op: o, fills } => {
                let a = word(m, left, x, n, s);
                let amount = alone(m, right, x);
                shift(o, n, both(fills, s), a, amount.len, amount.word)
            }
            Class::Comparison(o) => {
                let c = meeting(shape(m, left, x), shape(m, right, x));
                let a = word(m, left, x, c.len, c.signed);
                let b = word(m, right, x, c.len, c.signed);
                extended(1, test(o, c.len, c.signed, a, b), n, s)
            }
            Class::Logical(o) => {
                let a = alone(m, left, x);
                let b = alone(m, right, x);
                extended(1, truth(o, a, b), n, s)
            }
        },
        SvExprNode::Cond { test, yes, no } => {
            if alone(m, test, x).word.bits == 0 {
                word(m, no, x, n, s)
            } else {
                word(m, yes, x, n, s)
            }
        }
        SvExprNode::Concat(list) => {
            let parts = list.as_slice();
            extended(lengths(m, parts), joined(m, parts, x), n, s)
        }
        SvExprNode::Cast { width, of } => {
            let a = alone(m, of, x);
            extended(*width, resize(a.len, *width, a.signed, a.word), n, s)
        }
        SvExprNode::Sign { of, .. } => {
            let a = alone(m, of, x);
            extended(a.len, a.word, n, s)
        }
    }
}

#[cycle(value)]
fn unary(m: &SvModule, op: SvUnary, of: &SvExpr, x: &[Word], n: u32, s: bool) -> Word
    requires sized { IsSized (width_at m.now.vars) (term_of of.now) }
    requires fits { Fitting m.now.vars x.now }
    requires context { IsWidth n }
    requires length { (sized_unary op (sized false (width_at m.now.vars) (word_at x.now) (term_of of.now))).len ≤ n }
    ensures value { result.bits ≡ (sized_unary op (sized false (width_at m.now.vars) (word_at x.now) (term_of of.now))).word n s }
    ensures fits { result.bits < 2 ^ n }
{
    let bit = match op {
        SvUnary::Not => return apply(Op::Not, n, s, word(m, of, x, n, s), s, ZERO),
        SvUnary::Neg => return apply(Op::Neg, n, s, word(m, of, x, n, s), s, ZERO),
        SvUnary::LogNot => Op::LogNot,
        SvUnary::And => Op::AndReduce,
        SvUnary::Or => Op::OrReduce,
        SvUnary::Xor => Op::XorReduce,
    };
    let a = alone(m, of, x);
    extended(1, test(bit, a.len, false, a.word, ZERO), n, s)
}

// The bits of a concatenation.
#[cycle(value)]
fn joined(m: &SvModule, parts: &[SvExpr], x: &[Word]) -> Word
    requires sized { AllSized (width_at m.now.vars) (map term_of parts.now) }
    requires short { total_length (width_at m.now.vars) (map term_of parts.now) ≤ 128 }
    requires fits { Fitting m.now.vars x.now }
    ensures word { result.bits ≡ joined_word (width_at m.now.vars) (word_at x.now) (map term_of parts.now) }
{
    let mut bits = 0;
    for e in parts {
        let part = alone(m, e, x);
        bits = above(bits, part.len) + part.word.bits;
    }
    Word { bits }
}

/// The word of an expression by itself, where each variable has a word (IEEE 1800-2017, 11.6 and 11.8): as many bits as
/// the expression's length. It takes no memory.
///
/// Every variable has a width of 1 to 128, no size in the expression is wrong, and each word fits its variable.
pub fn value(m: &SvModule, e: &SvExpr, x: &[Word]) -> Word
    requires sized { IsSized (width_at m.now.vars) (term_of e.now) }
    requires fits { Fitting m.now.vars x.now }
    ensures value { result.bits ≡ value_of (width_at m.now.vars) (word_at x.now) (term_of e.now) }
    ensures fits { result.bits < 2 ^ length_of (width_at m.now.vars) (term_of e.now) }
{
    alone(m, e, x).word
}

/// The word that an assignment of an expression to w bits writes (IEEE 1800-2017, 10.7 and 11.8.2).
///
/// Every variable has a width of 1 to 128, no size in the expression is wrong, and each word fits its variable.
pub fn written(m: &SvModule, e: &SvExpr, x: &[Word], w: u32) -> Word
    requires sized { IsSized (width_at m.now.vars) (term_of e.now) }
    requires fits { Fitting m.now.vars x.now }
    requires width { IsWidth w }
    ensures value { result.bits ≡ assigned w (sized false (width_at m.now.vars) (word_at x.now) (term_of e.now)) }
    ensures fits { result.bits < 2 ^ w }
{
    let shape = shape(m, e, x);
    let n = shape.len.max(w);
    let bits = word(m, e, x, n, shape.signed);
    resize(n, w, false, bits)
}
