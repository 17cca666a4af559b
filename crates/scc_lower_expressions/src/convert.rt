//! Lowered expressions and their conversion between kinds.
ghost use Rattle.std.specs.Prelude.{◌≡◌, ◌&&◌, not, IfOk};
ghost use Rattle.scc_bits_kinds.specs.Kinds.{is_bool, stored};
ghost use Rattle.scc_bits.specs.Value.{exactly};
ghost use Rattle.scc_svtree.specs.Term.{term_of};
ghost use Rattle.scc_lower_spec.specs.Conversion.{converted_term, resized};
ghost use Rattle.scc_lower_expressions.specs.Lowered.{Converts, text_in, text_of};

use crate::built::{binary, cast, known, literal, sign, widened};
use scc_base::{NoMemory, lost};
use scc_bits::{Kind, Value, signed, width};
use scc_svtree::{SvBinary, SvExpr};
use std::alloc::Global;

/// What became of an expression: a number where its value is static, else text in the width of its kind.
#[derive(Drop)]
pub enum Lowered {
    Known(Value),
    Made(SvExpr),
}

/// The text; a number as one literal.
pub fn expression(alloc: Global, x: Lowered) -> Result<SvExpr, NoMemory>
    ensures { IfOk result (λ e. term_of e ≡ text_of x) }
{
    match x {
        Lowered::Known(v) => known(alloc, v),
        Lowered::Made(e) => Ok(e),
    }
}

/// A number in another kind.
pub fn stored(v: Value, to: Kind) -> Result<Value, NoMemory>
    ensures kind { IfOk result (λ r. r.kind ≡ to) }
    ensures word { IfOk result (λ r. r.word ≡ stored to (exactly v)) }
{
    v.stored(to).ok_or(lost())
}

/// The expression of one kind in another.
pub fn converted(alloc: Global, x: Lowered, from: Kind, to: Kind) -> Result<Lowered, NoMemory>
    ensures { IfOk result (λ r. Converts from to x r) }
{
    match x {
        Lowered::Known(v) => Ok(Lowered::Known(stored(v, to)?)),
        Lowered::Made(e) => Ok(Lowered::Made(converted_text(alloc, e, from, to)?)),
    }
}

/// The text of an expression of one kind in another.
pub fn text_in(alloc: Global, x: Lowered, from: Kind, to: Kind) -> Result<SvExpr, NoMemory>
    ensures { IfOk result (λ e. term_of e ≡ text_in from to x) }
{
    match x {
        Lowered::Known(v) => known(alloc, stored(v, to)?),
        Lowered::Made(e) => converted_text(alloc, e, from, to),
    }
}

// The same for text.
fn converted_text(alloc: Global, e: SvExpr, from: Kind, to: Kind) -> Result<SvExpr, NoMemory>
    ensures { IfOk result (λ r. term_of r ≡ converted_term from to (term_of e)) }
{
    if tests(from, to) {
        let zero = literal(alloc, width(from), 0)?;
        binary(alloc, SvBinary::Ne, e, zero)
    } else {
        resized(alloc, e, from, to)
    }
}

// Whether the conversion asks if the number isn't 0.
fn tests(from: Kind, to: Kind) -> bool
    ensures { result ≡ (is_bool to && not (is_bool from)) }
{
    is_bool(to) && !is_bool(from)
}

fn is_bool(k: Kind) -> bool
    ensures { result ≡ is_bool k }
{
    match k {
        Kind::Bool => true,
        Kind::Native { .. } | Kind::Wide { .. } => false,
        Kind::Int(_) | Kind::Uint(_) => false,
        Kind::Big(_) | Kind::BigInt(_) | Kind::Bv(_) => false,
    }
}

fn resized(alloc: Global, e: SvExpr, from: Kind, to: Kind) -> Result<SvExpr, NoMemory>
    ensures { IfOk result (λ r. term_of r ≡ resized from to (term_of e)) }
{
    let (old, new) = (width(from), width(to));
    if new == old {
        Ok(e)
    } else if new < old {
        cast(alloc, new, e)
    } else if signed(from) {
        let e = sign(alloc, true, e)?;
        let e = cast(alloc, new, e)?;
        sign(alloc, false, e)
    } else {
        widened(alloc, new, e)
    }
}
