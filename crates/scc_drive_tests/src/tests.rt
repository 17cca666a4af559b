//! Files and outputs that fail.
use scc_base::{MemFiles, MemSink};
use scc_drive::run;
use std::alloc::{AllocError, Global};
use std::test::Fail;

const AND: &str = "#include <systemc.h>
SC_MODULE(And) {
  sc_in<sc_uint<8> > a, b;
  sc_out<sc_uint<8> > y;
  void f() { y.write(a.read() & b.read()); }
  SC_CTOR(And) { SC_METHOD(f); sensitive << a << b; }
};
";

const AND_TEXT: &str = "module And (
  input logic [7:0] a,
  input logic [7:0] b,
  output logic [7:0] y
);
  always_comb begin
    y = 8'h00;
    y = 8'((64'(a) & 64'(b)));
  end
endmodule
";

const COUNT: &str = "#include <systemc.h>
SC_MODULE(Count) {
  sc_in<bool> clk, rst;
  sc_out<sc_uint<8> > q;
  sc_uint<8> n;
  void run() { n = 0; q.write(0); wait(); while (true) { n++; q.write(n); wait(); } }
  SC_CTOR(Count) { SC_CTHREAD(run, clk.pos()); reset_signal_is(rst, true); }
};
";

// the first 100 bytes of its text
const FIRST: &str = "module Count (
  input logic clk,
  input logic rst,
  output logic [7:0] q
);
  logic [7:0] q$$n;
 ";

// Words of a command.
fn words(alloc: Global, texts: &[&str]) -> Result<Vec<String>, AllocError> {
    let mut words = Vec::new(alloc);
    for text in texts {
        words.push(String::from_str(alloc, text)?)?;
    }
    Ok(words)
}

#[test]
fn tells_what_is_missing_or_failed(rt: HostRuntime) -> Result<(), Fail> {
    let alloc = rt.alloc();
    for (failing, text) in [(2, "scc: missing b.h\n"), (1, "scc: failed b.h\n")] {
        let mut files = MemFiles::new(alloc);
        files.fail_at(failing)?;
        let mut out = MemSink::new(alloc, 100);
        let mut err = MemSink::new(alloc, 3);
        let words = words(alloc, &["compile", "And", "b.h"])?;
        let status = run(alloc, words.as_slice(), &mut files, &mut out, &mut err);
        assert_eq!(rt; status.number(), 3);
        assert_eq!(rt; err.bytes(), text.as_bytes());
        assert_eq!(rt; out.bytes().len(), 0);
    }
    Ok(())
}

/// What is left where a call of an output fails: in the text of the module, and in what is said of it or of a refusal.
#[test]
fn ends_where_an_output_fails(rt: HostRuntime) -> Result<(), Fail> {
    let alloc = rt.alloc();
    let failed = "scc: output failed\n";
    for (source, out_fails, err_fails, number, out_bytes, err_text) in [
        (AND, 1, 0, 5, 0, failed),
        (AND, 2, 0, 5, 100, failed),
        (AND, 3, 0, 0, AND_TEXT.len(), ""),
        (AND, 2, 1, 5, 100, ""),
        ("", 1, 1, 5, 0, failed),
        ("", 1, 2, 5, 0, "and.cscc: output failed\n"),
    ] {
        let mut files = MemFiles::new(alloc);
        files.add("and.cpp", source.as_bytes())?;
        let mut out = MemSink::new(alloc, 100);
        out.fail_at(out_fails)?;
        let mut err = MemSink::new(alloc, 5);
        err.fail_at(err_fails)?;
        let words = words(alloc, &["compile", "And", "and.cpp"])?;
        let status = run(alloc, words.as_slice(), &mut files, &mut out, &mut err);
        assert_eq!(rt; status.number(), number);
        assert_eq!(rt; out.bytes().len(), out_bytes);
        assert_eq!(rt; err.bytes(), err_text.as_bytes());
    }
    Ok(())
}

/// Each call of an output that takes one byte a call fails in turn.
#[test]
fn ends_where_any_call_fails(rt: HostRuntime) -> Result<(), Fail> {
    let alloc = rt.alloc();
    let words = words(alloc, &["compile", "And", "and.cpp"])?;
    for nth in 0..AND_TEXT.len() {
        let mut files = MemFiles::new(alloc);
        files.add("and.cpp", AND.as_bytes())?;
        let mut out = MemSink::new(alloc, 1);
        out.fail_at(nth as u64 + 1)?;
        let mut err = MemSink::new(alloc, 1);
        let status = run(alloc, words.as_slice(), &mut files, &mut out, &mut err);
        assert_eq!(rt; status.number(), 5);
        assert_eq!(rt; out.bytes(), &AND_TEXT.as_bytes()[..nth]);
        assert_eq!(rt; err.bytes(), b"scc: output failed\n".as_slice());
    }
    Ok(())
}

/// An output takes 100 bytes a call and fails at its second call.
#[test]
fn keeps_the_first_bytes(rt: HostRuntime) -> Result<(), Fail> {
    let alloc = rt.alloc();
    let mut files = MemFiles::new(alloc);
    files.add("a.cpp", COUNT.as_bytes())?;
    let mut out = MemSink::new(alloc, 100);
    out.fail_at(2)?;
    let mut err = MemSink::new(alloc, 100);
    let words = words(alloc, &["compile", "Count", "a.cpp"])?;
    let status = run(alloc, words.as_slice(), &mut files, &mut out, &mut err);
    assert_eq!(rt; status.number(), 5);
    assert_eq!(rt; out.bytes(), FIRST.as_bytes());
    assert_eq!(rt; err.bytes(), b"scc: output failed\n".as_slice());
    Ok(())
}
