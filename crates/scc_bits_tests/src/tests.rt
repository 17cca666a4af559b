ghost use Rattle.std.specs.Prelude.{◌≡◌};

use crate::vectors::{VECTORS, Vector};
use scc_bits::{
    Group, Kind, Op, Operands, Rule, Word, apply, choice_kind, common, concat, concat_kind, conv,
    converts, counted, fits, has_bits, is_bits, is_large, is_part, is_small, operand_kinds,
    operate, operators, promoted, range_kind, replace, result_kind, rule_of, select, signed,
    takes_right, too_wide, valid,
};
use std::process::Abort;

const INT: Kind = Kind::Native {
    bits: 32,
    signed: true,
};

const UNSIGNED: Kind = Kind::Native {
    bits: 32,
    signed: false,
};

/// Worked by hand: a shift that keeps the sign, one past the width, a difference below 0, a sum of two signs.
static WORKED: [Vector; 4] = [
    Vector {
        op: Op::Shr,
        a: Kind::Int(8),
        x: 0xf8,
        b: Kind::Uint(8),
        y: 2,
        kind: Kind::Native {
            bits: 64,
            signed: true,
        },
        word: 0xffff_ffff_ffff_fffe,
    },
    Vector {
        op: Op::Shl,
        a: Kind::Uint(8),
        x: 1,
        b: Kind::Uint(8),
        y: 0x40,
        kind: Kind::Native {
            bits: 64,
            signed: false,
        },
        word: 0,
    },
    Vector {
        op: Op::Sub,
        a: Kind::Big(8),
        x: 3,
        b: Kind::Big(8),
        y: 5,
        kind: Kind::Wide {
            bits: 9,
            signed: true,
        },
        word: 0x1fe,
    },
    Vector {
        op: Op::Add,
        a: Kind::BigInt(8),
        x: 0xff,
        b: Kind::Big(8),
        y: 0xff,
        kind: Kind::Wide {
            bits: 10,
            signed: true,
        },
        word: 0xfe,
    },
];

fn word(bits: u128) -> Word
    ensures { result.bits ≡ bits }
{
    Word { bits }
}

fn check(rt: &impl Abort, v: &Vector) {
    let (a, x, b, y) = (v.a, word(v.x), v.b, word(v.y));
    assert!(rt; valid(a) && valid(b), "kinds of {v:?}");
    assert!(rt; fits(a, x) && fits(b, y), "words of {v:?}");
    assert_eq!(rt; result_kind(v.op, a, b), Some(v.kind), "kind of {v:?}");
    assert!(rt; !too_wide(v.op, a, b), "width of {v:?}");
    assert!(rt; takes_right(v.op, y), "divisor of {v:?}");
    assert_eq!(rt; apply(v.op, a, x, b, y).bits, v.word, "word of {v:?}");
}

#[test]
fn applies_the_table(rt: HostRuntime) {
    for v in &WORKED {
        check(&rt, v);
    }
    for v in &VECTORS {
        check(&rt, v);
    }
}

#[test]
fn knows_rows(rt: HostRuntime) {
    assert_eq!(rt; result_kind(Op::Add, Kind::Bv(8), Kind::Bv(8)), None);
    assert_eq!(rt; result_kind(Op::Xor, Kind::Bv(8), Kind::Bv(9)), None);
    assert_eq!(rt; result_kind(Op::Shl, Kind::Big(8), Kind::Big(8)), None);
    assert!(rt;
        too_wide(
            Op::Eq,
            Kind::Wide {
                bits: 255,
                signed: false
            },
            Kind::Big(128)
        )
    );
    assert!(rt; too_wide(Op::Rem, Kind::Big(128), Kind::BigInt(8)));
    assert!(rt; !too_wide(Op::Rem, Kind::Big(128), Kind::Big(8)));
    let table = operators();
    for (op, left, right, rule) in [
        (Op::Add, Group::Bool, Group::Bool, Some(Rule::Common)),
        (Op::Shr, Group::Wide, Group::Uint, Some(Rule::WideRight)),
        (Op::XorReduce, Group::Bv, Group::Bv, Some(Rule::Reduction)),
        (Op::XorReduce, Group::Wide, Group::Wide, None),
    ] {
        assert_eq!(rt;
            table.find(op, left, right),
            rule,
            "at {op:?} {left:?} {right:?}"
        );
        assert_eq!(rt;
            rule_of(op, left, right),
            rule,
            "at {op:?} {left:?} {right:?}"
        );
    }
    let compared = Kind::Wide {
        bits: 9,
        signed: true,
    };
    let operands = Operands {
        left: compared,
        right: compared,
        answer: Kind::Bool,
    };
    assert_eq!(rt;
        operand_kinds(Op::Lt, Kind::Big(8), Kind::Int(4)),
        Some(operands)
    );
}

#[test]
fn converts_words(rt: HostRuntime) {
    for (from, to, x, want) in [
        (Kind::Int(8), Kind::Bool, 0x80, 1),
        (
            Kind::Native {
                bits: 8,
                signed: true,
            },
            Kind::Big(128),
            0xff,
            u128::MAX,
        ),
        (
            Kind::Native {
                bits: 8,
                signed: false,
            },
            Kind::Big(128),
            0xff,
            0xff,
        ),
        (
            Kind::Wide {
                bits: 255,
                signed: true,
            },
            Kind::Int(8),
            1 << 127 | 0x7f,
            0x7f,
        ),
        (Kind::Bv(65), Kind::BigInt(128), 1 << 64, 1 << 64),
    ] {
        let x = word(x);
        assert!(rt;
            valid(from) && valid(to) && fits(from, x),
            "from {from:?} to {to:?}"
        );
        assert_eq!(rt; conv(from, to, x).bits, want, "from {from:?} to {to:?}");
    }
    assert!(rt; converts(Kind::Uint(8), Kind::Bool) && !converts(Kind::Bv(8), Kind::Bool));
    assert!(rt; signed(Kind::Int(8)) && !valid(Kind::Int(65)) && valid(Kind::BigInt(128)));
    let compared = operate(
        Op::Lt,
        Kind::Int(8),
        word(0x80),
        Kind::Int(8),
        word(0),
        Kind::Bool,
    );
    assert_eq!(rt; compared.bits, 1);
}

#[test]
fn takes_bits(rt: HostRuntime) {
    let x = word(0x8000_0000_0000_0000_1234_5678_9abc_def0);
    let top = select(Kind::Bv(128), x, 127, 64);
    assert_eq!(rt; top.bits, 0x8000_0000_0000_0000);
    assert_eq!(rt; select(Kind::Big(128), x, 15, 8).bits, 0xde);
    let put = replace(Kind::BigInt(128), x, 127, 64, word(1));
    assert_eq!(rt; put.bits, 0x1_1234_5678_9abc_def0);
    assert_eq!(rt; replace(Kind::Int(8), word(0xff), 3, 3, word(0)).bits, 0xf7);
    assert_eq!(rt; concat(word(0xab), word(0xcd), 8).bits, 0xabcd);
    assert_eq!(rt; concat(word(0), x, 128).bits, x.bits);
    assert_eq!(rt; concat(x, word(0), 0).bits, x.bits);
}

#[test]
fn knows_kinds(rt: HostRuntime) {
    assert_eq!(rt; promoted(Kind::Bool), INT);
    assert_eq!(rt; common(INT, UNSIGNED), UNSIGNED);
    assert_eq!(rt; choice_kind(Kind::Big(8), Kind::Big(8)), Some(Kind::Big(8)));
    assert_eq!(rt;
        choice_kind(Kind::Big(8), Kind::Int(4)),
        Some(Kind::Wide {
            bits: 9,
            signed: true
        })
    );
    assert_eq!(rt; choice_kind(Kind::Bv(8), Kind::Bv(9)), None);
    assert_eq!(rt;
        concat_kind(Kind::Bool, Kind::Uint(63)),
        Some(Kind::Uint(64))
    );
    assert_eq!(rt;
        concat_kind(Kind::Int(64), Kind::Uint(1)),
        Some(Kind::Big(65))
    );
    assert_eq!(rt;
        concat_kind(Kind::BigInt(8), Kind::Bv(8)),
        Some(Kind::Bv(16))
    );
    assert_eq!(rt; concat_kind(INT, Kind::Bv(8)), None);
    assert_eq!(rt; range_kind(Kind::BigInt(100), 99, 90), Some(Kind::Big(10)));
    assert_eq!(rt; range_kind(INT, 3, 0), None);
    assert!(rt; is_small(INT) && is_large(Kind::Big(1)) && is_bits(Kind::Bv(1)));
    assert!(rt; has_bits(Kind::Bv(1)) && !has_bits(Kind::Bool) && is_part(Kind::Bool));
    for (x, bits, signed) in [
        (0, 1, false),
        (1, 1, false),
        (255, 8, false),
        (0xffff_ffff, 1, true),
        (0xffff_fffe, 2, true),
        (0xffff_ff80, 8, true),
        (0x8000_0000, 32, true),
    ] {
        let x = word(x);
        assert!(rt; fits(INT, x));
        assert_eq!(rt; counted(INT, x), Kind::Wide { bits, signed }, "at {x:?}");
    }
}
