//! The kinds in which small operands meet, by their widths and signs alone.
ghost use Rattle.std.specs.Prelude.{◌≡◌, ℕ, ◌≤◌, ◌%◌, ◌^◌, true, false};
ghost use Rattle.scc_bits_kinds.specs.Kinds.{IsValid, Fits};
ghost use Rattle.scc_bits_kinds.specs.Counts.{promoted, common_of};
ghost use Rattle.scc_bits.specs.Standing.{Reads, form_of};

use crate::number::{Number, plain, read_number};
use scc_bits_kinds::{Kind, Word, cut_low};

/// The width and the sign of a kind.
#[derive(Clone, Copy)]
pub(crate) struct Form {
    pub width: u32,
    pub signed: bool,
}

/// A number with the form of the kind that it is promoted to.
#[derive(Clone, Copy)]
pub(crate) struct Promoted {
    pub number: Number,
    pub form: Form,
}

#[inline(always)]
fn sized(width: u32, signed: bool) -> Form
    ensures { result ≡ record { width = width; signed = signed } }
{
    Form { width, signed }
}

/// The number of a word and the form of the kind that it is promoted to. The kind is matched once for both.
#[inline(always)]
pub(crate) fn promote_number(k: Kind, x: Word) -> Promoted
    requires valid { IsValid k }
    requires fits { Fits k x.bits }
    ensures number { Reads k x.bits result.number }
    ensures form { result.form ≡ form_of (promoted k) }
{
    match k {
        Kind::Bool => promote(plain(false, 1, x.bits), sized(32, true)),
        Kind::Native { bits, signed } => {
            let form = native_form(bits, signed);
            promote(plain(signed, bits, x.bits), form)
        }
        Kind::Int(w) => promote(plain(true, w, x.bits), sized(64, true)),
        Kind::Uint(w) => promote(plain(false, w, x.bits), sized(64, false)),
        _ => {
            let n = read_number(k, x);
            promote(n, sized(n.count.min(128), n.signed))
        }
    }
}

#[inline(always)]
fn promote(number: Number, form: Form) -> Promoted
    ensures { result ≡ record { number = number; form = form } }
{
    Promoted { number, form }
}

#[inline(always)]
fn native_form(bits: u8, signed: bool) -> Form
    ensures { result ≡ form_of (promoted (Kind.Native bits signed)) }
{
    if bits < 32 {
        sized(32, true)
    } else {
        sized(u32::from(bits), signed)
    }
}

/// The form of the common kind of two promoted ones.
#[inline(always)]
pub(crate) fn common_form(a: Form, b: Form) -> Form
    ensures { (j k : Kind) → a ≡ form_of (promoted j) → b ≡ form_of (promoted k) → result ≡ form_of (common_of j k) }
{
    let long_a = a.width == 64;
    let long_b = b.width == 64;
    let unsigned = long_a && !a.signed || long_b && !b.signed;
    if long_a || long_b {
        sized(64, !unsigned)
    } else {
        sized(32, a.signed && b.signed)
    }
}

/// A number taken in a form that holds it, or else in an unsigned one.
#[inline(always)]
pub(crate) fn convert(to: Form, n: u128) -> u128
    requires { (1 ≤ to.width) × (to.width ≤ 64) }
    ensures signed { to.signed ≡ true → result ≡ n }
    ensures unsigned { to.signed ≡ false → result ≡ n % 2 ^ to.width }
{
    if to.signed { n } else { cut_low(to.width, n) }
}
