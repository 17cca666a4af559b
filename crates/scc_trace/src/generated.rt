//! The source of generated designs.
ghost use Rattle.std.specs.Prelude.{◌≡◌, ◌++◌, decimal, IfOk, OnOk};
ghost use Rattle.scc_trace.specs.Source.{source_before, source_behind, source_of};

use itoa::Buffer;
use scc_base::{NoMemory, Text};
use std::alloc::Global;

// The source before the number of stages.
#[tactic(auto, unfolding(crate::specs::Source::source_before))]
fn before() -> &'static [u8]
    ensures { result.now ≡ source_before }
{
    b"#include <systemc.h>\nconst int N = "
}

// The source after the number of stages.
#[tactic(auto, unfolding(crate::specs::Source::source_behind))]
fn behind() -> &'static [u8]
    ensures { result.now ≡ source_behind }
{
    b";\n\
SC_MODULE(Stage) {\n\
\x20 sc_in<bool> clk, rst;\n\
\x20 sc_in<sc_uint<16> > d;\n\
\x20 sc_out<sc_uint<16> > q;\n\
\x20 int step;\n\
\x20 void run() {\n\
\x20   q.write(0);\n\
\x20   wait();\n\
\x20   while (true) { q.write(d.read() + step); wait(); }\n\
\x20 }\n\
\x20 SC_HAS_PROCESS(Stage);\n\
\x20 Stage(sc_module_name nm, int k) : sc_module(nm), step(k) {\n\
\x20   SC_CTHREAD(run, clk.pos());\n\
\x20   reset_signal_is(rst, true);\n\
\x20 }\n\
};\n\
SC_MODULE(Gen) {\n\
\x20 sc_in<bool> clk, rst;\n\
\x20 sc_in<sc_uint<16> > d;\n\
\x20 sc_out<sc_uint<16> > q;\n\
\x20 sc_vector<sc_signal<sc_uint<16> > > s;\n\
\x20 Stage* u[N];\n\
\x20 void front() { s[0].write(d.read()); }\n\
\x20 void back() { q.write(s[N].read()); }\n\
\x20 SC_CTOR(Gen) : s(\"s\", N + 1) {\n\
\x20   for (int i = 0; i < N; i++) {\n\
\x20     u[i] = new Stage(\"u\", i + 1);\n\
\x20     u[i]->clk(clk); u[i]->rst(rst);\n\
\x20     u[i]->d(s[i]); u[i]->q(s[i + 1]);\n\
\x20   }\n\
\x20   SC_METHOD(front); sensitive << d;\n\
\x20   SC_METHOD(back); sensitive << s[N];\n\
\x20 }\n\
};\n"
}

// Appends a number in decimals.
fn stages(out: &mut Text, number: u32) -> Result<(), NoMemory>
    ensures { OnOk result (out.new ≡ out.old ++ decimal number) }
{
    let mut buffer = Buffer::new();
    out.push_bytes(buffer.format(number).as_bytes())
}

/// The source of a design of so many stages in a row, each of which adds its number to what it hands on.
#[tactic(auto, unfolding(crate::specs::Source::source_of))]
pub fn generate(alloc: Global, number: u32) -> Result<Text, NoMemory>
    ensures { IfOk result (λ t. t ≡ source_of number) }
{
    let mut out = Text::new(alloc);
    out.push_bytes(before())?;
    stages(&mut out, number)?;
    out.push_bytes(behind())?;
    Ok(out)
}
