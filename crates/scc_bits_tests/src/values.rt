//! Tables of `Value`. The rows were worked out from the standard's rules on exact whole numbers.
use scc_bits::{Fault, JoinFault, Kind, Op, Value, Word};

/// A kind and a word of it.
type Pair = (Kind, u128);

#[derive(Clone, Copy, Debug)]
struct Applied {
    op: Op,
    a: Pair,
    b: Pair,
    want: Result<Pair, Fault>,
}

#[derive(Clone, Copy, Debug)]
struct Selected {
    of: Pair,
    h: u32,
    l: u32,
    want: Option<Pair>,
}

#[derive(Clone, Copy, Debug)]
struct Joined {
    high: Pair,
    low: Pair,
    want: Result<Pair, JoinFault>,
}

#[derive(Clone, Copy, Debug)]
struct Replaced {
    of: Pair,
    h: u32,
    l: u32,
    by: u128,
    want: Option<Pair>,
}

#[derive(Clone, Copy, Debug)]
struct Converted {
    of: Pair,
    to: Kind,
    want: Option<Pair>,
}

macro_rules! applied {
    ($($op:ident: $a:expr, $b:expr => $want:expr;)*) => {
        [$(Applied { op: Op::$op, a: $a, b: $b, want: $want }),*]
    };
}

macro_rules! selected {
    ($($of:expr, $h:literal, $l:literal => $want:expr;)*) => {
        [$(Selected { of: $of, h: $h, l: $l, want: $want }),*]
    };
}

macro_rules! joined {
    ($($high:expr, $low:expr => $want:expr;)*) => {
        [$(Joined { high: $high, low: $low, want: $want }),*]
    };
}

macro_rules! replaced {
    ($($of:expr, $h:literal, $l:literal, $by:expr => $want:expr;)*) => {
        [$(Replaced { of: $of, h: $h, l: $l, by: $by, want: $want }),*]
    };
}

macro_rules! converted {
    ($($of:expr => $to:expr, $want:expr;)*) => {
        [$(Converted { of: $of, to: $to, want: $want }),*]
    };
}

const INT: Kind = Kind::Native {
    bits: 32,
    signed: true,
};

const LONG: Kind = Kind::Native {
    bits: 64,
    signed: true,
};

const UNSIGNED_LONG: Kind = Kind::Native {
    bits: 64,
    signed: false,
};

const WIDEST: Kind = Kind::Wide {
    bits: 255,
    signed: false,
};

const WIDEST_SIGNED: Kind = Kind::Wide {
    bits: 255,
    signed: true,
};

const SIGNED_9: Kind = Kind::Wide {
    bits: 9,
    signed: true,
};

const SIGNED_10: Kind = Kind::Wide {
    bits: 10,
    signed: true,
};

// A row that isn't there comes before a width, and a width before a divisor.
static APPLIED: [Applied; 22] = applied!(
    Add: (Kind::Uint(8), 0xff), (Kind::Uint(8), 1) => Ok((UNSIGNED_LONG, 0x100));
    Sub: (Kind::BigInt(8), 0x80), (Kind::Big(8), 0xff) => Ok((SIGNED_10, 0x281));
    Mul: (Kind::Big(128), u128::MAX), (Kind::Big(128), u128::MAX) => Ok((WIDEST, 1));
    Div: (Kind::BigInt(8), 0x80), (Kind::BigInt(8), 0xff) => Ok((SIGNED_9, 0x80));
    Rem: (Kind::Int(8), 0xf9), (Kind::Int(8), 3) => Ok((LONG, 0xffff_ffff_ffff_ffff));
    Xor: (Kind::Bv(8), 0xf0), (Kind::Bv(8), 0xff) => Ok((Kind::Bv(8), 0x0f));
    Lt: (Kind::Int(8), 0xff), (Kind::Uint(8), 1) => Ok((Kind::Bool, 0));
    Lt: (Kind::BigInt(8), 0xff), (Kind::Big(8), 1) => Ok((Kind::Bool, 1));
    Shr: (Kind::Int(8), 0xf8), (Kind::Uint(8), 2) => Ok((LONG, 0xffff_ffff_ffff_fffe));
    LogAnd: (Kind::Bool, 1), (Kind::Int(8), 0x80) => Ok((Kind::Bool, 1));
    Neg: (Kind::Big(8), 0x80), (Kind::Big(8), 0x80) => Ok((SIGNED_9, 0x180));
    XorReduce: (Kind::Bv(8), 7), (Kind::Bv(8), 7) => Ok((Kind::Bool, 1));
    Add: (Kind::Bv(8), 1), (Kind::Bv(8), 1) => Err(Fault::NoRow);
    Xor: (Kind::Bv(8), 0), (Kind::Bv(9), 0) => Err(Fault::NoRow);
    Shl: (Kind::Big(8), 1), (Kind::Big(8), 1) => Err(Fault::NoRow);
    Div: (Kind::Bv(8), 1), (Kind::Bv(8), 0) => Err(Fault::NoRow);
    Eq: (WIDEST, 0), (Kind::Big(128), 0) => Err(Fault::TooWide);
    Shr: (WIDEST_SIGNED, 0), (Kind::Uint(8), 0) => Err(Fault::TooWide);
    Div: (Kind::Big(128), 1), (Kind::BigInt(8), 1) => Err(Fault::TooWide);
    Rem: (Kind::Big(128), 1), (Kind::BigInt(8), 0) => Err(Fault::TooWide);
    Div: (Kind::Uint(8), 7), (Kind::Uint(8), 0) => Err(Fault::Divisor);
    Rem: (Kind::BigInt(8), 1), (Kind::BigInt(8), 0) => Err(Fault::Divisor);
);

static SELECTED: [Selected; 9] = selected!(
    (Kind::Uint(8), 0xa5), 7, 4 => Some((Kind::Uint(4), 0xa));
    (Kind::Int(8), 0x80), 7, 7 => Some((Kind::Uint(1), 1));
    (Kind::BigInt(100), 1 << 99 | 5), 99, 0 => Some((Kind::Big(100), 1 << 99 | 5));
    (Kind::Bv(128), 1 << 127), 127, 120 => Some((Kind::Bv(8), 0x80));
    (Kind::Uint(8), 0xff), 8, 0 => None;
    (Kind::Uint(8), 0xff), 3, 4 => None;
    (INT, 0xff), 3, 0 => None;
    (Kind::Bool, 1), 0, 0 => None;
    (SIGNED_9, 0xff), 3, 0 => None;
);

static JOINED: [Joined; 11] = joined!(
    (Kind::Uint(4), 0xa), (Kind::Uint(4), 5) => Ok((Kind::Uint(8), 0xa5));
    (Kind::Bool, 1), (Kind::Uint(63), 0) => Ok((Kind::Uint(64), 1 << 63));
    (Kind::Int(64), 1 << 63), (Kind::Uint(1), 1) => Ok((Kind::Big(65), 1 << 64 | 1));
    (Kind::BigInt(8), 0xff), (Kind::Bv(8), 1) => Ok((Kind::Bv(16), 0xff01));
    (Kind::Big(64), 1), (Kind::Big(64), 2) => Ok((Kind::Big(128), 1 << 64 | 2));
    (Kind::Big(64), 1), (Kind::Big(65), 2) => Err(JoinFault::TooWide);
    (Kind::Bv(128), 1), (Kind::Bool, 0) => Err(JoinFault::TooWide);
    (WIDEST, 1), (INT, 0) => Err(JoinFault::TooWide);
    (INT, 1), (Kind::Bv(8), 1) => Err(JoinFault::NoPart);
    (Kind::Bv(8), 1), (SIGNED_9, 1) => Err(JoinFault::NoPart);
    (SIGNED_9, 1), (Kind::Bool, 1) => Err(JoinFault::NoPart);
);

static REPLACED: [Replaced; 8] = replaced!(
    (Kind::Uint(8), 0xff), 5, 2, 0 => Some((Kind::Uint(8), 0xc3));
    (Kind::Uint(8), 0x50), 3, 0, 0xabc => Some((Kind::Uint(8), 0x5c));
    (Kind::BigInt(128), u128::MAX), 127, 64, 1 => Some((Kind::BigInt(128), 0x1_ffff_ffff_ffff_ffff));
    (INT, 0xffff_ffff), 31, 31, 2 => Some((INT, 0x7fff_ffff));
    (Kind::Bool, 0), 0, 0, 3 => Some((Kind::Bool, 1));
    (Kind::Int(8), 0), 8, 0, 1 => None;
    (Kind::Int(8), 0), 2, 3, 1 => None;
    (WIDEST, 0), 128, 128, 1 => None;
);

static CONVERTED: [Converted; 9] = converted!(
    (Kind::Int(8), 0x80) => Kind::Bool, Some((Kind::Bool, 1));
    (Kind::Int(8), 0x80) => Kind::BigInt(16), Some((Kind::BigInt(16), 0xff80));
    (Kind::Uint(8), 0x80) => Kind::BigInt(16), Some((Kind::BigInt(16), 0x80));
    (Kind::Big(128), u128::MAX) => Kind::Int(8), Some((Kind::Int(8), 0xff));
    (Kind::Bv(9), 0x1ff) => Kind::Uint(8), Some((Kind::Uint(8), 0xff));
    (Kind::Bv(8), 0x80) => Kind::Bool, None;
    (Kind::Big(8), 0x80) => Kind::Bool, None;
    (Kind::Int(8), 1) => Kind::Uint(65), None;
    (Kind::Int(8), 1) => Kind::Big(0), None;
);

fn number(pair: Pair) -> Option<Value> {
    Value::of(pair.0, Word { bits: pair.1 })
}

fn pair(v: Value) -> Pair {
    (v.kind(), v.word().bits)
}

fn apply(row: &Applied) -> Option<Result<Pair, Fault>> {
    let a = number(row.a)?;
    let b = number(row.b)?;
    Some(a.applied(row.op, b).map(pair))
}

fn join(row: &Joined) -> Option<Result<Pair, JoinFault>> {
    let high = number(row.high)?;
    let low = number(row.low)?;
    Some(high.joined(low).map(pair))
}

fn select(row: &Selected) -> Option<Option<Pair>> {
    Some(number(row.of)?.selected(row.h, row.l).map(pair))
}

fn replace(row: &Replaced) -> Option<Option<Pair>> {
    Some(number(row.of)?.replaced(row.h, row.l, row.by).map(pair))
}

fn convert(row: &Converted) -> Option<Option<Pair>> {
    Some(number(row.of)?.converted(row.to).map(pair))
}

#[test]
fn values_answer(rt: HostRuntime) {
    for row in &APPLIED {
        assert_eq!(rt; apply(row), Some(row.want), "at {row:?}");
    }
}

#[test]
fn values_are_selected(rt: HostRuntime) {
    for row in &SELECTED {
        assert_eq!(rt; select(row), Some(row.want), "at {row:?}");
    }
}

#[test]
fn values_are_joined(rt: HostRuntime) {
    for row in &JOINED {
        assert_eq!(rt; join(row), Some(row.want), "at {row:?}");
    }
}

#[test]
fn values_are_replaced(rt: HostRuntime) {
    for row in &REPLACED {
        assert_eq!(rt; replace(row), Some(row.want), "at {row:?}");
    }
}

#[test]
fn values_change_kinds(rt: HostRuntime) {
    for row in &CONVERTED {
        assert_eq!(rt; convert(row), Some(row.want), "at {row:?}");
    }
    for (kind, bits, is_number) in [
        (Kind::Uint(8), 0xff, true),
        (Kind::Uint(8), 0x100, false),
        (Kind::Int(0), 0, false),
        (WIDEST, 1 << 127, true),
    ] {
        assert_eq!(rt; number((kind, bits)).is_some(), is_number, "at {kind:?}");
    }
}
