//! Sources that nest as deep as the limits let them, each with one level more.
use scc_base::{CalmFiles, CalmSink, NoMemory, Text};
use scc_drive::run;
use std::alloc::Global;
use std::test::Fail;

/// Calls inside each other, with three levels and with one in each; and statements that leave what is behind a wait, 4,096 in all.
const HEAD: &str =
    "template<int N> struct Deep { void d() { if (1) if (1) if (1) Deep<N - 1>::d(); } };
template<> struct Deep<0> { void d() {} };
template<int N> struct Call { void d() { Call<N - 1>::d(); } };
template<> struct Call<0> { void d() {} };
#define I1 if (a.read()) continue;
#define I4 I1 I1 I1 I1
#define I16 I4 I4 I4 I4
#define I64 I16 I16 I16 I16
#define I256 I64 I64 I64 I64
struct T {
  sc_in<bool> c, r, a;
  void f() { ";

fn said(alloc: Global, body: &str, constructor: &str) -> Result<Text, NoMemory> {
    let mut source = Text::new(alloc);
    for piece in [HEAD, body, " }\n  T() { ", constructor, " }\n};\n"] {
        source.push_bytes(piece.as_bytes())?;
    }
    let mut files = CalmFiles::new(alloc);
    files.add("a.cpp", source.bytes())?;
    let mut out = CalmSink::new(alloc);
    let mut err = CalmSink::new(alloc);
    let mut words = Vec::new(alloc);
    for word in ["compile", "T", "a.cpp"] {
        words.push(String::from_str(alloc, word)?)?;
    }
    let status = run(alloc, words.as_slice(), &mut files, &mut out, &mut err);
    match status.number() {
        0 if !out.bytes().is_empty() && err.bytes().is_empty() => Text::from_bytes(
            alloc, b"a text",
        ),
        1 if out.bytes().is_empty() => Text::from_bytes(alloc, err.bytes()),
        _ => Text::from_bytes(alloc, b"another status"),
    }
}

#[test]
fn goes_as_deep_as_the_limits(rt: HostRuntime) -> Result<(), Fail> {
    let method = "SC_METHOD(f); sensitive << c.pos();";
    let thread = "SC_CTHREAD(f, c.pos()); reset_signal_is(r, true);";
    for (body, constructor, wanted) in [
        ("if (1) if (1) Deep<255>::d();", method, "a text"),
        (
            "if (1) if (1) if (1) Deep<255>::d();",
            method,
            "a.cpp:13:9: E601 too large\n",
        ),
        ("Call<1022>::d();", method, "a text"),
        ("Call<1023>::d();", method, "a.cpp:13:9: E601 too large\n"),
        (
            "while (true) { wait(); I1 I1 I1 I4 I4 I4 I16 I16 I16 I64 I64 I64 I256 I256 I256 }",
            thread,
            "a text",
        ),
        (
            "while (true) { wait(); I256 I256 I256 I256 }",
            thread,
            "a.cpp:12:29: E604 segments too large\n",
        ),
    ] {
        let text = said(rt.alloc(), body, constructor)?;
        assert_eq!(rt; text.bytes(), wanted.as_bytes(), "of {body}");
    }
    Ok(())
}
