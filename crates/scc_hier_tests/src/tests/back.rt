//! Texts that come back, and the module that they are together.
use super::texts::{BOTH, FLAT, INVERTER, TOP, text};
use scc_base::{List, NoMemory, Stop};
use scc_hier::{HierPlan, HierPort, flatten, hier};
use scc_hier_read::{read_flattened, read_hier};
use scc_hier_text::print_hier;
use scc_svread::read;
use scc_svtext::print;
use scc_svtree::VarId;
use std::alloc::Global;

// Texts, and what they are together.
const TEXTS: [(&str, &str); 4] = [
    ("module M (\n);\nendmodule\n", "module M (\n);\nendmodule\n"),
    // names that are words, and a module that no instance is of
    (
        "module \\begin  (\n);\n  \\end  \\case  ();\nendmodule\nmodule \\end  (\n);\nendmodule\nmodule M (\n  output logic q\n);\nendmodule\n",
        "module \\begin  (\n);\nendmodule\n",
    ),
    // a module stands before the one that holds it; variables in declarations' order, each instance followed by those in it
    (
        "module M (\n);\n  A a ();\n  B b ();\nendmodule\nmodule B (\n);\n  logic v;\n  always_comb begin\n    v = 1'h1;\n  end\nendmodule\nmodule A (\n);\n  logic v;\n  B \\table  ();\n  always_comb begin\n    v = 1'h0;\n  end\nendmodule\n",
        "module M (\n);\n  logic a$v;\n  logic a$table$v;\n  logic b$v;\n  always_comb begin\n    a$v = 1'h0;\n  end\n  always_comb begin\n    a$table$v = 1'h1;\n  end\n  always_comb begin\n    b$v = 1'h1;\n  end\nendmodule\n",
    ),
    // a port that leads through two instances
    (
        "module M (\n  input logic clk,\n  input logic [7:0] d,\n  output logic [7:0] q\n);\n  A a (.c(clk), .e(d), .r(q));\nendmodule\nmodule A (\n  input logic c,\n  input logic [7:0] e,\n  output logic [7:0] r\n);\n  B b (.c(c), .r(e), .e(r));\nendmodule\nmodule B (\n  input logic c,\n  input logic [7:0] r,\n  output logic [7:0] e\n);\n  always_ff @(posedge c) begin\n    e <= r;\n  end\nendmodule\n",
        "module M (\n  input logic clk,\n  input logic [7:0] d,\n  output logic [7:0] q\n);\n  always_ff @(posedge clk) begin\n    q <= d;\n  end\nendmodule\n",
    ),
];

// Whether a text is printed again as it was, and its flattening as this text, by either call.
fn comes_back(alloc: Global, bytes: &[u8], flat: &[u8]) -> Result<bool, Stop> {
    let h = read_hier(alloc, bytes)?;
    let again = print_hier(alloc, &h)?;
    let flattened = print(alloc, &flatten(alloc, &h)?)?;
    let read = print(alloc, &read_flattened(alloc, bytes)?)?;
    Ok(again.bytes() == bytes && flattened.bytes() == flat && read.bytes() == flat)
}

#[test]
fn texts_come_back(rt: HostRuntime) -> Result<(), Stop> {
    let rows: &[(&str, &str)] = &TEXTS;
    for (modules, flat) in rows {
        let right = comes_back(rt.alloc(), modules.as_bytes(), flat.as_bytes())?;
        assert!(rt; right, "{modules}");
    }
    Ok(())
}

fn plan(alloc: Global, path: &str, ports: &[(&str, u32)]) -> Result<HierPlan, NoMemory> {
    let mut list = List::new(alloc);
    for (name, var) in ports {
        list.push(HierPort {
            name: text(alloc, &[*name])?,
            var: VarId(*var),
        })?;
    }
    Ok(HierPlan {
        path: text(alloc, &[path])?,
        parent: 0,
        ports: list,
    })
}

// A module of two inverters, split into instances of one module, printed, read and flattened.
#[test]
fn two_inverters(rt: HostRuntime) -> Result<(), Stop> {
    let alloc = rt.alloc();
    let m = read(alloc, FLAT.as_bytes())?;
    let mut plans = List::new(alloc);
    plans.push(plan(alloc, "", &[("a", 0), ("b", 1)])?)?;
    plans.push(plan(alloc, "p", &[("x", 0), ("y", 2)])?)?;
    plans.push(plan(alloc, "q", &[("x", 2), ("y", 1)])?)?;
    let h = hier(alloc, &m, plans.as_slice(), &[1, 2])?;
    let printed = print_hier(alloc, &h)?;
    let expected = text(alloc, &[TOP, BOTH, INVERTER])?;
    assert!(rt; printed.bytes() == expected.bytes());
    assert!(rt; comes_back(alloc, printed.bytes(), FLAT.as_bytes())?);
    Ok(())
}
