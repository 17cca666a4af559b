//! What construction leaves of a module that makes others in a loop, and clocks of which there may be several.
use crate::trees::{Parsed, tree_of};
use scc_base::{Names, Path, PathPart, Stop};
use scc_elab::{elaborate, elaborate_many};
use scc_elab_design::{Design, Object, ObjectNode, Process, Sort};
use scc_plain::plain;
use scc_plain_tree::Plain;
use std::alloc::{AllocError, Global};
use std::test::Fail;

// modules made in a loop, and a pointer to one of them.
const STAGES: &str = "#include <systemc.h>
template<int W> SC_MODULE(Stage) {
  sc_in<bool> clk, rst;
  sc_uint<W> q;
  sc_out<sc_uint<W> > o;
  void run() { q = 0; o.write(0); wait(); while (true) { q = q + 1; o.write(q); wait(); } }
  SC_CTOR(Stage) { SC_CTHREAD(run, clk.pos()); reset_signal_is(rst, true); }
};
SC_MODULE(Top) {
  sc_in<bool> clk, rst;
  sc_out<sc_uint<8> > y;
  Stage<8>* u[4];
  Stage<8>* pick;
  sc_vector<sc_signal<sc_uint<8> > > s;
  SC_CTOR(Top) : s(\"s\", 3) {
    for (int i = 0; i < 4; i++) {
      u[i] = new Stage<8>(\"u\");
      u[i]->clk(clk);
      u[i]->rst(rst);
    }
    u[0]->o(s[0]); u[1]->o(s[1]); u[3]->o(s[2]);
    pick = u[2];
    pick->o(y);
  }
};
";

/// A program with the names of its source.
#[derive(Drop)]
struct Program {
    names: Names,
    plain: Plain,
}

/// The program of a file `a.cpp` with this text and the top `Top`; None where an earlier stage refuses it.
fn program_of(alloc: Global, source: &str) -> Result<Option<Program>, Fail> {
    let Some(Parsed { names, top, tree }) = tree_of(alloc, "Top", source)? else {
        return Ok(None);
    };
    match plain(alloc, &tree, top) {
        Ok(plain) => Ok(Some(Program { names, plain })),
        Err(_) => Ok(None),
    }
}

fn push_path(
    alloc: Global,
    shown: &mut String,
    names: &Names,
    path: &Path,
) -> Result<(), AllocError> {
    shown.push_str("top")?;
    for part in path.as_slice() {
        match *part {
            PathPart::Member(name) if names.has(name) => {
                shown.push_str(".")?;
                shown.push_str(names.text(name))?;
            }
            PathPart::Member(_) => shown.push_str(".?")?,
            PathPart::Index(i) => shown.push_str(format!(in alloc; "[{i}]")?.as_str())?,
        }
    }
    Ok(())
}

fn show_node(alloc: Global, node: ObjectNode) -> Result<String, AllocError> {
    match node {
        ObjectNode::Module(_) => String::from_str(alloc, "module"),
        ObjectNode::Port { root, .. } => format!(in alloc; "port of {root}"),
        ObjectNode::Signal(_) => String::from_str(alloc, "signal"),
        ObjectNode::Variable { .. } => String::from_str(alloc, "variable"),
        ObjectNode::Pointer(Some(to)) => format!(in alloc; "pointer to {to}"),
        ObjectNode::Pointer(None) => String::from_str(alloc, "null"),
    }
}

fn push_object(
    alloc: Global,
    shown: &mut String,
    names: &Names,
    number: usize,
    object: &Object,
) -> Result<(), AllocError> {
    shown.push_str(format!(in alloc; "{number} ")?.as_str())?;
    push_path(alloc, shown, names, &object.path)?;
    shown.push_str(" ")?;
    shown.push_str(show_node(alloc, object.node)?.as_str())?;
    shown.push_str("\n")
}

fn show_process(alloc: Global, p: &Process) -> Result<String, AllocError> {
    let object = p.object;
    match (p.sort, p.edge, p.reset) {
        (Sort::Thread, Some(edge), Some(reset)) if edge.rising && reset.level => {
            let (clock, reset) = (edge.root, reset.root);
            format!(in alloc; "thread of {object}, clock {clock}, reset {reset}")
        }
        _ => format!(in alloc; "process of {object}"),
    }
}

// All objects, and then all processes.
const STAGES_DESIGN: &str = "0 top module
1 top.clk port of 1
2 top.rst port of 2
3 top.y port of 3
4 top.u[0] pointer to 12
5 top.u[1] pointer to 17
6 top.u[2] pointer to 22
7 top.u[3] pointer to 27
8 top.pick pointer to 22
9 top.s[0] signal
10 top.s[1] signal
11 top.s[2] signal
12 top.u[0] module
13 top.u[0].clk port of 1
14 top.u[0].rst port of 2
15 top.u[0].q variable
16 top.u[0].o port of 9
17 top.u[1] module
18 top.u[1].clk port of 1
19 top.u[1].rst port of 2
20 top.u[1].q variable
21 top.u[1].o port of 10
22 top.u[2] module
23 top.u[2].clk port of 1
24 top.u[2].rst port of 2
25 top.u[2].q variable
26 top.u[2].o port of 3
27 top.u[3] module
28 top.u[3].clk port of 1
29 top.u[3].rst port of 2
30 top.u[3].q variable
31 top.u[3].o port of 11
thread of 12, clock 1, reset 2
thread of 17, clock 1, reset 2
thread of 22, clock 1, reset 2
thread of 27, clock 1, reset 2
";

fn push_design(
    alloc: Global,
    shown: &mut String,
    names: &Names,
    d: &Design,
) -> Result<(), AllocError> {
    for (number, object) in d.objects.as_slice().iter().enumerate() {
        push_object(alloc, shown, names, number, object)?;
    }
    for process in d.processes.as_slice() {
        shown.push_str(show_process(alloc, process)?.as_str())?;
        shown.push_str("\n")?;
    }
    Ok(())
}

/// The objects and processes of a source's design; nothing where it is refused.
fn design_said(alloc: Global, source: &str) -> Result<String, Fail> {
    let mut shown = String::new(alloc);
    if let Some(program) = program_of(alloc, source)? {
        push_program(alloc, &mut shown, &program)?;
    }
    Ok(shown)
}

fn push_program(alloc: Global, shown: &mut String, program: &Program) -> Result<(), AllocError> {
    match elaborate(alloc, &program.plain) {
        Ok(design) => push_design(alloc, shown, &program.names, &design),
        Err(_) => Ok(()),
    }
}

#[test]
fn makes_four_stages_in_a_loop(rt: HostRuntime) -> Result<(), Fail> {
    let shown = design_said(rt.alloc(), STAGES)?;
    assert_eq!(rt; shown.as_str(), STAGES_DESIGN);
    Ok(())
}

const CLOCKS_128: &str =
    "struct C { sc_in<bool> k; void f() { } C() { SC_METHOD(f); sensitive << k.pos(); } };
struct Top { sc_in<bool> c[128]; C u[128]; Top() { for (int i = 0; i < 128; i++) u[i].k(c[i]); } };";

const CLOCKS_129: &str =
    "struct C { sc_in<bool> k; void f() { } C() { SC_METHOD(f); sensitive << k.pos(); } };
struct Top { sc_in<bool> c[129]; C u[129]; Top() { for (int i = 0; i < 129; i++) u[i].k(c[i]); } };";

const TWO_CLOCKS: &str = "struct Top { sc_in<bool> c, d; void f() { } void g() { }
Top() { SC_METHOD(f); sensitive << c.pos(); SC_METHOD(g); sensitive << d.neg(); } };";

const TWO_EDGES: &str = "struct Top { sc_in<bool> c; void f() { } void g() { }
Top() { SC_METHOD(f); sensitive << c.pos(); SC_METHOD(g); sensitive << c.neg(); } };";

// The places are bytes, counted from 0.
fn show_stop(alloc: Global, stop: &Stop) -> Result<String, AllocError> {
    let Stop::Refused(r) = stop else {
        return String::from_str(alloc, "no memory");
    };
    let (code, at) = (r.code.number(), r.place.at);
    match r.other {
        Some(other) => {
            let first = other.at;
            format!(in alloc; "E{code} at {at}, see {first}")
        }
        None => format!(in alloc; "E{code} at {at}"),
    }
}

/// What is said of a source whose processes may name several clocks, or one.
fn clocked(alloc: Global, many: bool, source: &str) -> Result<String, Fail> {
    match program_of(alloc, source)? {
        Some(program) => Ok(clocks_said(alloc, many, &program)?),
        None => Ok(String::from_str(alloc, "no program")?),
    }
}

fn clocks_said(alloc: Global, many: bool, program: &Program) -> Result<String, AllocError> {
    let answer = if many {
        elaborate_many(alloc, &program.plain)
    } else {
        elaborate(alloc, &program.plain)
    };
    match answer {
        Ok(_) => String::from_str(alloc, "accepted"),
        Err(stop) => show_stop(alloc, &stop),
    }
}

#[test]
fn counts_clocks(rt: HostRuntime) -> Result<(), Fail> {
    for (many, source, want) in [
        (true, CLOCKS_128, "accepted"),
        (true, CLOCKS_129, "E413 at 45"),
        (false, CLOCKS_129, "E407 at 45, see 45"),
        (true, TWO_CLOCKS, "accepted"),
        (false, TWO_CLOCKS, "E407 at 101, see 65"),
        (true, TWO_EDGES, "E407 at 98, see 62"),
    ] {
        let got = clocked(rt.alloc(), many, source)?;
        assert_eq!(rt; got.as_str(), want, "{source}");
    }
    Ok(())
}
