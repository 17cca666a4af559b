//! E705: combinational blocks that read in a cycle what others assign.
use super::texts::{END, PAIR, PORTS, Table, at_byte, refused, row_text, text};
use super::worked::WORKED;
use scc_base::{Code, NoMemory};
use scc_svread::module_of;
use scc_svread_raw::read_raw;
use scc_svtree_order::first_cycle;
use std::alloc::Global;
use std::test::Fail;

// What stands before blocks that assign x, y, z and w.
const WIRES: &str = "module M (
  input logic clk,
  input logic a
);
  logic x;
  logic y;
  logic z;
  logic w;
";

// A statement each.
const X_OF_Y: &str = "    x = y;\n";

const X_OF_Z: &str = "    x = z;\n";

const Y_OF_X: &str = "    y = x;\n";

const Z_OF_Y: &str = "    z = y;\n";

const CYCLES: [(&[&str], Option<usize>); 9] = [
    // two blocks, and three behind one that has no part in it
    (&[X_OF_Y, Y_OF_X], Some(0)),
    (&["    w = a;\n", X_OF_Z, Y_OF_X, Z_OF_Y], Some(1)),
    // a block that the cycle leads to, and one that leads to it
    (
        &["    w = y;\n", "    x = a;\n", "    y = (x & z);\n", Z_OF_Y],
        Some(2),
    ),
    // the first of two cycles
    (&["    w = z;\n", X_OF_Y, "    z = w;\n", Y_OF_X], Some(0)),
    // a test and a selector are read too
    (
        &["    if (y) begin\n      x = a;\n    end\n", Y_OF_X],
        Some(0),
    ),
    (
        &[
            "    case (y)\n      1'h0: begin\n        x = a;\n      end\n    endcase\n",
            Y_OF_X,
        ],
        Some(0),
    ),
    // no block, a block that reads what it assigns, and a chain from its end
    (&[], None),
    (&["    x = a;\n    x = (x & a);\n"], None),
    (&[Z_OF_Y, Y_OF_X, "    x = a;\n"], None),
];

// The first block on a cycle in a text.
fn cycle_of(alloc: Global, bytes: &[u8]) -> Result<Option<usize>, Fail> {
    let raw = read_raw(alloc, bytes)?;
    let m = module_of(alloc, &raw)?;
    Ok(first_cycle(alloc, &m)?)
}

#[test]
fn blocks_in_cycles(rt: HostRuntime) -> Result<(), Fail> {
    for (blocks, want) in CYCLES.as_slice() {
        let mut whole = text(rt.alloc(), &[WIRES])?;
        for statements in *blocks {
            let block = text(
                rt.alloc(),
                &["  always_comb begin\n", statements, "  end\n"],
            )?;
            whole.push_bytes(block.bytes())?;
        }
        whole.push_bytes(END.as_bytes())?;
        assert_eq!(rt; cycle_of(rt.alloc(), whole.bytes())?, *want, "{blocks:?}");
    }
    // a register is no part of a cycle
    for parts in WORKED.as_slice() {
        let whole = text(rt.alloc(), parts)?;
        assert_eq!(rt; cycle_of(rt.alloc(), whole.bytes())?, None, "{parts:?}");
    }
    Ok(())
}

const Q_OF_N: &str = "always_comb begin
    q = n;
  end
";

const N_OF_Q: &str = "always_comb begin
    n = q;
  end
";

// A block that reads one of the cycle, before it.
const READER: &str = "  logic w;
  always_comb begin
    w = q[0];
  end
  ";

#[test]
fn cycles(rt: HostRuntime) -> Result<(), NoMemory> {
    // the second block of a cycle begins behind the first
    let tables: &[Table] = &[
        (&[PORTS, PAIR], &[("  ", Q_OF_N)], &["  ", N_OF_Q, END]),
        (&[PORTS, PAIR], &[(READER, N_OF_Q)], &["  ", Q_OF_N, END]),
    ];
    for (before, rows, behind) in tables {
        for row in *rows {
            let (whole, at) = row_text(rt.alloc(), before, row, behind)?;
            let refusal = refused(rt.alloc(), false, whole.bytes())?;
            assert_eq!(rt; refusal, at_byte(Code::SvLoop, at), "{row:?}");
        }
    }
    Ok(())
}
