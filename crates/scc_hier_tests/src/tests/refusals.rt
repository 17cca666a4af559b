//! The smallest texts that are refused, by code and cause.
use super::texts::{INVERTER, TOP, at_byte, refused, text};
use scc_base::{Code, NoMemory};
use std::test::Fail;

// The text up to a place, the text from it on, and the code that it is refused by there.
type Row = (&'static str, &'static str, Code);

// Lines of a module that may hold inverters.
const LINES: [Row; 22] = [
    ("  Two$p p (.x(a), .y(m))", "\n", Code::SvUnexpected),
    ("  Two$p p (.x(a),", ".y(m));\n", Code::SvUnexpected),
    ("  Two$p p (.x(a), ", ");\n", Code::SvUnexpected),
    ("  Two$p p (.x(a", "[0]), .y(m));\n", Code::SvUnexpected),
    ("  Two$p ", " p ();\n", Code::SvUnexpected),
    ("  Two$p p", "();\n", Code::SvUnexpected),
    ("  begin", " p ();\n", Code::SvUnexpected),
    (
        "  Two$p p (.x(a), .y(m));\n  logic",
        " n;\n",
        Code::SvUnexpected,
    ),
    (
        "  always_comb begin\n    m = a;\n  end\n  ",
        "Two$p p (.x(a), .y(m));\n",
        Code::SvUnexpected,
    ),
    ("  logic ", "[128:0] n;\n", Code::SvSize),
    ("  Two$p p (.x(", "z), .y(m));\n", Code::SvName),
    ("  Two$p ", "m (.x(a), .y(m));\n", Code::SvName),
    (
        "  Two$p p (.x(a), .y(m));\n  Two$p ",
        "p (.x(m), .y(b));\n",
        Code::SvName,
    ),
    // sizes and names behind the lines of instances
    (
        "  Two$p p (.x(a), .y(m));\n  always_comb begin\n    b = ",
        "m[0];\n  end\n",
        Code::SvSize,
    ),
    (
        "  Two$p p (.x(a), .y(m));\n  always_comb begin\n    b = ",
        "z;\n  end\n",
        Code::SvName,
    ),
    ("  ", "Two$z p (.x(a), .y(m));\n", Code::SvInstance),
    ("  ", "Two p (.a(a), .b(m));\n", Code::SvInstance),
    (
        "  Two$p p (.x(a), .y(m));\n  ",
        "Two$p q (.y(b), .x(m));\n",
        Code::SvInstance,
    ),
    ("  ", "Two$p p (.x(a), .z(m));\n", Code::SvInstance),
    ("  ", "Two$p p (.x(a));\n", Code::SvInstance),
    ("  ", "Two$p p (.x(a), .y(m), .z(b));\n", Code::SvInstance),
    (
        "  logic [1:0] n;\n  ",
        "Two$p p (.x(n), .y(m));\n",
        Code::SvInstance,
    ),
];

// Whole texts.
const WHOLE: [Row; 14] = [
    ("", "", Code::SvUnexpected),
    ("module M (\n);\nendmodule", "", Code::SvUnexpected),
    ("module M (\n);\nendmodule\n", "\n", Code::SvUnexpected),
    (
        "module M (\n);\nendmodule\nmodule ",
        "M (\n);\nendmodule\n",
        Code::SvName,
    ),
    // a wrong size stands before wrong names, wherever it is
    (
        "module M (\n  input logic a\n);\n  N a ();\nendmodule\nmodule N (\n  input logic ",
        "[128:0] a\n);\nendmodule\n",
        Code::SvSize,
    ),
    // and a wrong name before wrong instances
    (
        "module M (\n);\n  Z z ();\nendmodule\nmodule ",
        "M (\n);\nendmodule\n",
        Code::SvName,
    ),
    // modules that lead to one another, from the top or not
    (
        "module M (\n);\n  ",
        "N n ();\nendmodule\nmodule N (\n);\n  M m ();\nendmodule\n",
        Code::SvInstance,
    ),
    (
        "module T (\n);\n  M m ();\nendmodule\nmodule M (\n);\n  ",
        "N n ();\nendmodule\nmodule N (\n);\n  M m ();\nendmodule\n",
        Code::SvInstance,
    ),
    (
        "module T (\n);\nendmodule\nmodule M (\n);\n  ",
        "M m ();\nendmodule\n",
        Code::SvInstance,
    ),
    // a wrong instance stands before what is wrong in the flattening
    (
        "module M (\n  output logic q\n);\n  ",
        "Z z ();\nendmodule\n",
        Code::SvInstance,
    ),
    // a variable of an instance has the name of another
    (
        "",
        "module M (\n  input logic n$a\n);\n  N n ();\nendmodule\nmodule N (\n);\n  logic a;\nendmodule\n",
        Code::SvName,
    ),
    (
        "",
        "module M (\n  output logic q\n);\nendmodule\n",
        Code::SvDriver,
    ),
    // both edges of one clock
    (
        "",
        "module M (\n  input logic c,\n  output logic q,\n  output logic r\n);\n  A a (.c(c), .q(q));\n  B b (.c(c), .q(r));\nendmodule\nmodule A (\n  input logic c,\n  output logic q\n);\n  always_ff @(posedge c) begin\n    q <= 1'h1;\n  end\nendmodule\nmodule B (\n  input logic c,\n  output logic q\n);\n  always_ff @(negedge c) begin\n    q <= 1'h1;\n  end\nendmodule\n",
        Code::SvDriver,
    ),
    // a module that no instance is of is right by itself, but for its drivers
    (
        "module M (\n);\nendmodule\nmodule N (\n  output logic q\n);\n  always_comb begin\n    q = ",
        "a;\n  end\nendmodule\n",
        Code::SvName,
    ),
];

// What is wrong only in the flattening.
const FLATTENED: [(&str, Code); 3] = [
    ("  Two$p p (.x(a), .y(m));\n", Code::SvDriver),
    (
        "  Two$p p (.x(a), .y(b));\n  Two$p q (.x(a), .y(b));\n",
        Code::SvDriver,
    ),
    (
        "  Two$p p (.x(b), .y(m));\n  Two$p q (.x(m), .y(b));\n",
        Code::SvLoop,
    ),
];

#[test]
fn first_refusals(rt: HostRuntime) -> Result<(), Fail> {
    let tables: &[(&str, &[Row], &str)] = &[(TOP, &LINES, INVERTER), ("", &WHOLE, "")];
    for (before, rows, behind) in tables {
        for row in *rows {
            let (front, rest, code) = *row;
            let at = before.len() + front.len();
            let whole = text(rt.alloc(), &[*before, front, rest, *behind])?;
            let found = refused(rt.alloc(), whole.bytes())?;
            assert_eq!(rt; found, at_byte(code, at), "{row:?}");
        }
    }
    Ok(())
}

#[test]
fn first_refusals_of_flattenings(rt: HostRuntime) -> Result<(), Fail> {
    let rows: &[(&str, Code)] = &FLATTENED;
    for (lines, code) in rows {
        let whole = text(rt.alloc(), &[TOP, *lines, INVERTER])?;
        let found = refused(rt.alloc(), whole.bytes())?;
        assert_eq!(rt; found, at_byte(*code, 0), "{lines:?}");
    }
    Ok(())
}

// An expression at level 8,193 in a module behind the top.
#[test]
fn levels(rt: HostRuntime) -> Result<(), NoMemory> {
    let mut whole = text(
        rt.alloc(),
        &[
            "module M (\n  output logic q\n);\n  N n (.q(q));\nendmodule\n",
            "module N (\n  output logic q\n);\n  always_comb begin\n    q = ",
        ],
    )?;
    for _ in 0..8191 {
        whole.push_bytes(b"(~")?;
    }
    let at = whole.bytes().len();
    whole.push_bytes(b"1'h0")?;
    for _ in 0..8191 {
        whole.push_bytes(b")")?;
    }
    whole.push_bytes(b";\n  end\nendmodule\n")?;
    assert!(rt; refused(rt.alloc(), whole.bytes())? == at_byte(Code::SvDepth, at));
    Ok(())
}
