//! Values of constants and instances of templates, asked for one by one.
use crate::trees::{Parsed, tree_of};
use scc_base::{List, NoMemory, Place, Refusal, Stop};
use scc_bits::{Kind, Value, Word};
use scc_templates::{Arg, Args, ClassId, Instances};
use scc_tree::{Expr, FileTree, ItemNode};
use std::alloc::{AllocError, Global};
use std::test::Fail;

// The line and the column of a place, both from 1.
fn spot(text: &[u8], place: Place) -> (u32, u32) {
    let mut line: u32 = 1;
    let mut column: u32 = 1;
    for b in text.iter().take(place.at as usize) {
        if *b == b'\n' {
            line = line.saturating_add(1);
            column = 1;
        } else {
            column = column.saturating_add(1);
        }
    }
    (line, column)
}

fn show(alloc: Global, text: &[u8], r: &Refusal) -> Result<String, AllocError> {
    let code = r.code.number();
    let (line, column) = spot(text, r.place);
    match r.other {
        Some(other) => {
            let (first_line, first_column) = spot(text, other);
            format!(in alloc; "{line}:{column} E{code} see {first_line}:{first_column}")
        }
        None => format!(in alloc; "{line}:{column} E{code}"),
    }
}

// The place and the code of a refusal in this text, and its second place.
fn show_stop(alloc: Global, text: &[u8], stop: &Stop) -> Result<String, AllocError> {
    match stop {
        Stop::Refused(r) => show(alloc, text, r),
        Stop::NoMemory => String::from_str(alloc, "no memory"),
    }
}

fn show_value(alloc: Global, value: Value) -> Result<String, AllocError> {
    let bits = value.word().bits;
    let (name, width) = match value.kind() {
        Kind::Bool => ("bool", None),
        Kind::Native {
            bits: w,
            signed: true,
        } => ("signed", Some(w)),
        Kind::Native { bits: w, .. } => ("unsigned", Some(w)),
        Kind::Uint(w) => ("sc_uint", Some(w)),
        Kind::Big(w) => ("sc_biguint", Some(w)),
        Kind::Wide { bits: w, .. } => ("wide", Some(w)),
        _ => ("of another kind", None),
    };
    match width {
        Some(w) => format!(in alloc; "{bits} {name} {w}"),
        None => format!(in alloc; "{bits} {name}"),
    }
}

// The expression of the last declaration.
fn last_constant(tree: &FileTree) -> Option<&Expr> {
    let item = tree.items.as_slice().last()?;
    match &item.node {
        ItemNode::Constant { value, .. } => Some(value),
        _ => None,
    }
}

/// What `const_value` says of the last constant of a source, and how many instances there are then.
fn value_said(alloc: Global, source: &str) -> Result<String, Fail> {
    let Some(Parsed { tree, .. }) = tree_of(alloc, "T", source)? else {
        return Ok(String::from_str(alloc, "no tree")?);
    };
    let mut table = Instances::new(alloc);
    Ok(constant_said(alloc, source, &tree, &mut table)?)
}

fn constant_said(
    alloc: Global,
    source: &str,
    tree: &FileTree,
    table: &mut Instances,
) -> Result<String, AllocError> {
    let Some(e) = last_constant(tree) else {
        return String::from_str(alloc, "no constant");
    };
    let said = match table.const_value(tree, None, e) {
        Ok(value) => show_value(alloc, value)?,
        Err(stop) => show_stop(alloc, source.as_bytes(), &stop)?,
    };
    let count = table.len();
    format!(in alloc; "{said}, {count}")
}

// The number of instances stands behind the value, or behind the refusal.
const VALUES: [(&str, &str); 19] = [
    (
        "const int A = 5; const int B = A * 2 + 1;",
        "11 signed 32, 0",
    ),
    ("const int A = -1;", "4294967295 signed 32, 0"),
    ("const int A = 1 < 2;", "1 bool, 0"),
    ("const int A = sc_uint<4>(7) + 1;", "8 unsigned 64, 0"),
    (
        "const int A = (sc_uint<4>(5), sc_uint<2>(1));",
        "21 sc_uint 6, 0",
    ),
    ("const int A = sc_biguint<8>(3) - 5;", "510 wide 9, 0"),
    ("enum { A = 3, B }; const int C = B;", "4 signed 32, 0"),
    (
        "template<int N> struct S { static const int k = N + 1; }; const int A = S<S<3>::k>::k;",
        "5 signed 32, 2",
    ),
    ("const int A = nope;", "1:15 E301, 0"),
    ("const int A = sc_uint<0>(1);", "1:23 E303, 0"),
    ("const int A = !sc_biguint<8>(1);", "1:15 E304, 0"),
    ("int h() { return 1; } const int A = h();", "1:37 E305, 0"),
    (
        "template<int N> struct S { enum { A = N + 1 }; }; const int A = S<2147483648>::A;",
        "1:67 E306, 0",
    ),
    (
        "template<int N> struct S { enum { A = N }; }; const int A = S<int>::A;",
        "1:63 E307, 0",
    ),
    ("const int A = A;", "1:15 E308, 0"),
    (
        "template<int N> struct S { static const int k = S<N - 1>::k; }; const int A = S<0>::k;",
        "1:49 E308, 65",
    ),
    (
        "const int A = sc_biguint<128>(1) * sc_biguint<128>(1) > 0;",
        "1:55 E310, 0",
    ),
    ("const int A = 1 / 0;", "1:17 E311, 0"),
    (
        "template<int N> struct S { static const int k = 1 / N; }; const int A = S<0>::k;",
        "1:51 E311, 1",
    ),
];

#[test]
fn works_out_constants(rt: HostRuntime) -> Result<(), Fail> {
    let rows: &[(&str, &str)] = &VALUES;
    for (source, want) in rows {
        let got = value_said(rt.alloc(), source)?;
        assert_eq!(rt; got.as_str(), *want, "{source}");
    }
    Ok(())
}

// The arguments of a template with a number and a type.
fn arguments(alloc: Global, number: u128, kind: Kind) -> Result<Args, NoMemory> {
    let int = Kind::Native {
        bits: 32,
        signed: true,
    };
    let mut args = List::new(alloc);
    if let Some(value) = Value::of(int, Word { bits: number }) {
        args.push(Arg::Value(value))?;
    }
    args.push(Arg::Number(kind))?;
    Ok(args)
}

/// What is said of the first class of a source for each of these arguments: the number of its instance, or a refusal; and how many
/// instances there are then.
fn instances_said(alloc: Global, source: &str, asked: &[(u128, Kind)]) -> Result<String, Fail> {
    let Some(Parsed { tree, .. }) = tree_of(alloc, "T", source)? else {
        return Ok(String::from_str(alloc, "no tree")?);
    };
    let mut table = Instances::new(alloc);
    Ok(each_said(alloc, source, &tree, asked, &mut table)?)
}

fn each_said(
    alloc: Global,
    source: &str,
    tree: &FileTree,
    asked: &[(u128, Kind)],
    table: &mut Instances,
) -> Result<String, NoMemory> {
    let mut said = String::new(alloc);
    for (number, kind) in asked {
        push_said(alloc, &mut said, source, tree, (*number, *kind), table)?;
    }
    let count = table.len();
    Ok(format!(in alloc; "{said}{count}")?)
}

fn push_said(
    alloc: Global,
    said: &mut String,
    source: &str,
    tree: &FileTree,
    asked: (u128, Kind),
    table: &mut Instances,
) -> Result<(), NoMemory> {
    let (number, kind) = asked;
    let args = arguments(alloc, number, kind)?;
    let shown = match table.instantiate(tree, ClassId(0), &args, Place { file: 0, at: 0 }) {
        Ok(instance) => format!(in alloc; "{}", instance.0)?,
        Err(stop) => show_stop(alloc, source.as_bytes(), &stop)?,
    };
    said.push_str(shown.as_str())?;
    said.push_str(", ")?;
    Ok(())
}

/// An instance has one number, whoever asks for it; other arguments make another; too few, or those of another sort or past their kind, make
/// none.
#[test]
fn makes_instances(rt: HostRuntime) -> Result<(), Fail> {
    for (source, wanted) in [
        ("template<int N, class C> struct S { };", "0, 1, 2, 0, 2, 3"),
        (
            "template<int N, class C, int M> struct S { };",
            "1:1 E307, 1:1 E307, 1:1 E307, 1:1 E307, 1:1 E307, 0",
        ),
        (
            "template<int N, class C, int M = N + 1> struct S { };",
            "0, 1, 2, 0, 2, 3",
        ),
        (
            "template<class C, int N> struct S { };",
            "1:1 E307, 1:1 E307, 1:1 E307, 1:1 E307, 1:1 E307, 0",
        ),
        (
            "template<bool B, class C> struct S { };",
            "1:1 E306, 1:1 E306, 1:1 E306, 1:1 E306, 1:1 E306, 0",
        ),
    ] {
        let said = instances_said(
            rt.alloc(),
            source,
            &[
                (3, Kind::Bool),
                (4, Kind::Bool),
                (3, Kind::Uint(8)),
                (3, Kind::Bool),
                (3, Kind::Uint(8)),
            ],
        )?;
        assert_eq!(rt; said.as_str(), wanted, "of {source}");
    }
    Ok(())
}
