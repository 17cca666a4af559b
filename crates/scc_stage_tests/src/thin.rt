//! Thin texts have a path of their own in `run`, which carries the main theorem: the stages give the same bytes for them.
use crate::trees::{Parsed, tree_of};
use scc_base::{CalmFiles, CalmSink, Text};
use scc_drive::run;
use scc_drive_stages::compile;
use std::alloc::{AllocError, Global};
use std::test::Fail;

const EIGHT: &str = "#include <systemc.h>
SC_MODULE(And) {
  sc_in<sc_uint<8> > a, b;
  sc_out<sc_uint<8> > y;
  void f() { y.write(a.read() & b.read()); }
  SC_CTOR(And) { SC_METHOD(f); sensitive << a << b; }
};
";

const SIXTY_FOUR: &str = "#include <systemc.h>
SC_MODULE(And) {
  sc_in<sc_uint<64>> a, b;
  sc_out<sc_uint<64> > y;
  void f() { y.write(a.read() & b.read()); }
  SC_CTOR(And) { SC_METHOD(f); sensitive << a << b; }
};
";

const SIZES: &str = "#include <systemc.h>
SC_MODULE(And){sc_in<sc_uint<1>>read;sc_out<sc_uint<64>>wide,same;
sc_in<sc_uint<12> >b;sc_out<sc_uint<3>>less;
void write(){less.write(b.read());wide.write(read.read()|b.read());same.write(b.read()^b.read());}
SC_CTOR(And){SC_METHOD(write);sensitive<<b<<read;}};
";

// Words as the program takes them.
fn words_of(alloc: Global, words: &[&str]) -> Result<Vec<String>, AllocError> {
    let mut all = Vec::new(alloc);
    for word in words {
        all.push(String::from_str(alloc, word)?)?;
    }
    Ok(all)
}

/// What `compile And a.cpp` writes.
fn by_run(alloc: Global, source: &str) -> Result<CalmSink, Fail> {
    let words = words_of(alloc, &["compile", "And", "a.cpp"])?;
    let mut files = CalmFiles::new(alloc);
    files.add("a.cpp", source.as_bytes())?;
    let mut out = CalmSink::new(alloc);
    let mut err = CalmSink::new(alloc);
    let _status = run(alloc, words.as_slice(), &mut files, &mut out, &mut err);
    Ok(out)
}

/// What the stages give; None where one refuses.
fn by_stages(alloc: Global, source: &str) -> Result<Option<Text>, Fail> {
    let Some(Parsed { names, tree, .. }) = tree_of(alloc, "And", source)? else {
        return Ok(None);
    };
    Ok(compile(alloc, &names, &tree, b"And").ok())
}

#[test]
fn gives_the_same_bytes(rt: HostRuntime) -> Result<(), Fail> {
    for source in [EIGHT, SIXTY_FOUR, SIZES] {
        let written = by_run(rt.alloc(), source)?;
        let given = by_stages(rt.alloc(), source)?;
        assert!(rt; !written.bytes().is_empty());
        assert!(rt;
            matches!(&given, Some(text) if text.bytes() == written.bytes()),
            "{source}"
        );
    }
    Ok(())
}
