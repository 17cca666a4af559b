//! E703: names that are not declared, or declared before, where no size is wrong.
use super::texts::{BLOCK, END, HEAD, PORTS, TAIL, Table, at_byte, refused, row_text, wrong_in};
use scc_base::Code;
use scc_svread_check::Wrong;
use std::test::Fail;

const STATEMENTS: [(&str, &str); 13] = [
    ("    q = ", "x;\n"),
    ("    q = ", "x[200];\n"),
    ("    q = (a + ", "x);\n"),
    ("    q = {", "x, w};\n"),
    ("    q = {a, ", "M};\n"),
    ("    q = $signed(", "x);\n"),
    ("    q = (s ? a : ", "x);\n"),
    ("    q = ", "\\begin ;\n"),
    ("    ", "x = a;\n"),
    ("    ", "x[1] = y;\n"),
    ("    if (", "x) begin\n      y = z;\n    end\n"),
    (
        "    case (",
        "x)\n      7'h00: begin\n      end\n      8'h00: begin\n      end\n    endcase\n",
    ),
    (
        "    case (a)\n      8'h00: begin\n        ",
        "x = a;\n      end\n    endcase\n",
    ),
];

const EDGES: [(&str, &str); 7] = [
    ("  always_ff @(posedge ", "x) begin\n    y <= z;\n  end\n"),
    ("  always_ff @(negedge clk) begin\n    ", "x <= a;\n  end\n"),
    (
        "  always_ff @(negedge clk) begin\n    q <= a;\n    q <= ",
        "x;\n  end\n",
    ),
    (
        "  always_ff @(posedge clk or negedge ",
        "x) begin\n    if ((!y)) begin\n    end else begin\n    end\n  end\n",
    ),
    (
        "  always_ff @(posedge clk or negedge rst) begin\n    if ((!",
        "x)) begin\n    end else begin\n    end\n  end\n",
    ),
    (
        "  always_ff @(posedge clk or posedge rst) begin\n    if (",
        "x) begin\n    end else begin\n    end\n  end\n",
    ),
    (
        "  always_ff @(posedge clk or posedge rst) begin\n    if (rst) begin\n      ",
        "x <= 8'h00;\n    end else begin\n    end\n  end\n",
    ),
];

const MODULES: [(&str, &str); 4] = [
    (
        "module M (\n  input logic a,\n  output logic ",
        "a\n);\nendmodule\n",
    ),
    (
        "module M (\n  input logic a,\n  output logic [7:0] ",
        "a\n);\n  logic a;\nendmodule\n",
    ),
    (
        "module M (\n  input logic a\n);\n  logic b;\n  logic [7:0] ",
        "a;\nendmodule\n",
    ),
    // with a name that is declared twice no select is wrong
    (
        "module M (\n  input logic a,\n  input logic ",
        "a\n);\n  always_comb begin\n    a[9] = a[8];\n  end\nendmodule\n",
    ),
];

// A driver comes behind it, though it stands further in front.
const BEHIND_A_DRIVER: (&str, &str) = ("    q = (q + ", "x);\n");

#[test]
fn names(rt: HostRuntime) -> Result<(), Fail> {
    let tables: &[Table] = &[
        (&[HEAD], &STATEMENTS, &[TAIL]),
        (&[PORTS], &EDGES, &[END]),
        (&[""], &MODULES, &[""]),
        (&[BLOCK], &[BEHIND_A_DRIVER], &[TAIL]),
    ];
    for (before, rows, behind) in tables {
        for row in *rows {
            let (whole, at) = row_text(rt.alloc(), before, row, behind)?;
            let wrong = wrong_in(rt.alloc(), false, whole.bytes())?;
            assert_eq!(rt; wrong, Some(Wrong::Name(at)), "{row:?}");
            let refusal = refused(rt.alloc(), false, whole.bytes())?;
            assert_eq!(rt; refusal, at_byte(Code::SvName, at), "{row:?}");
        }
    }
    Ok(())
}
