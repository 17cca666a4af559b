//! E704: names that stand where they may not, where no size is wrong and each name is declared once.
use super::texts::{
    BLOCK, END, FIRST, PAIR, PORTS, RESETS, SETS, TAIL, Table, at_byte, refused, row_text, wrong_in,
};
use super::worked::{AND_NAMES, AND_PORTS, EDGE_NAMES, EDGE_PORTS, EDGE_SETS};
use scc_base::Code;
use scc_svread_check::Wrong;
use std::test::Fail;

const STATEMENTS: [(&str, &str); 17] = [
    ("    q = a;\n    ", "s = 1'h0;\n"),
    (
        "    q = 8'h00;\n    if (s) begin\n      ",
        "a[0] = s;\n    end\n",
    ),
    ("    q = (", "q + a);\n"),
    ("    q = (a + ", "q);\n"),
    ("    q = {a[3:0], ", "q[3:0]};\n"),
    ("    q = 8'((a + ", "q));\n"),
    ("    q = $unsigned(", "q);\n"),
    ("    q = (~", "q);\n"),
    ("    q = (s ? a : ", "q);\n"),
    ("    q = (", "q[0] ? a : 8'h00);\n"),
    ("    ", "q[0] = s;\n    q = a;\n"),
    ("    ", "q[3:1] = a[3:1];\n    q = a;\n"),
    ("    if (s) begin\n      ", "q = a;\n    end\n"),
    (
        "    if (s) begin\n    end else begin\n      ",
        "q = a;\n    end\n    q = a;\n",
    ),
    ("    if (", "q[0]) begin\n    end\n    q = a;\n"),
    (
        "    case (",
        "q)\n      8'h00: begin\n      end\n    endcase\n    q = a;\n",
    ),
    (
        "    case (s)\n      1'h0: begin\n        ",
        "q = a;\n      end\n      1'h1: begin\n        q = a;\n      end\n    endcase\n",
    ),
];

// A block behind those of each row, which drives the second register.
const MORE: &str = "  always_comb begin
    n = a;
  end
";

const BLOCKS: [(&str, &str); 14] = [
    (
        "  always_comb begin\n    q = a;\n  end\n  always_comb begin\n    ",
        "q = a;\n  end\n",
    ),
    (
        "  always_comb begin\n    q = a;\n  end\n  always_ff @(posedge clk) begin\n    ",
        "q <= a;\n  end\n",
    ),
    (
        "  always_ff @(posedge clk) begin\n    q <= a;\n  end\n  always_comb begin\n    ",
        "q = a;\n  end\n",
    ),
    (
        "  always_ff @(posedge clk) begin\n    q <= a;\n    ",
        "q <= a;\n  end\n",
    ),
    (
        "  always_ff @(posedge clk) begin\n    q <= a;\n    ",
        "rst <= a[0];\n  end\n",
    ),
    ("  always_ff @(posedge ", "a) begin\n    q <= a;\n  end\n"),
    ("  always_ff @(posedge ", "q) begin\n    q <= a;\n  end\n"),
    (
        "  always_ff @(posedge ",
        "clk) begin\n    q <= {a[6:0], clk};\n  end\n",
    ),
    (
        "  always_ff @(negedge ",
        "clk) begin\n    q <= a;\n  end\n  always_comb begin\n    n = 8'(clk);\n  end\n",
    ),
    (
        "  always_ff @(posedge clk or negedge ",
        "clk) begin\n    if ((!clk)) begin\n    end else begin\n      q <= a;\n    end\n  end\n",
    ),
    (
        "  always_ff @(posedge clk or posedge ",
        "a) begin\n    if (a) begin\n    end else begin\n      q <= a;\n    end\n  end\n",
    ),
    (
        "  always_ff @(posedge clk or posedge rst) begin\n    if (",
        "clk) begin\n    end else begin\n      q <= a;\n    end\n  end\n",
    ),
    (
        "  always_ff @(posedge clk or posedge rst) begin\n    if (",
        "(!rst)) begin\n    end else begin\n      q <= a;\n    end\n  end\n",
    ),
    (
        "  always_ff @(posedge clk or negedge rst) begin\n    if (",
        "rst) begin\n    end else begin\n      q <= a;\n    end\n  end\n",
    ),
];

const LOADS: [(&str, &str); 4] = [
    ("      n <= 8'h00;\n      ", "q <= 8'h00;\n"),
    ("      q <= 8'h00;\n      ", "q <= 8'h01;\n"),
    ("      ", "clk <= 1'h0;\n"),
    (
        "      q <= 8'h00;\n      n <= 8'h00;\n      ",
        "n <= 8'h00;\n",
    ),
];

const MODULES: [(&str, &str); 2] = [
    (
        "module M (\n  input logic a,\n  output logic [7:0] ",
        "q\n);\nendmodule\n",
    ),
    (
        "module M (\n  input logic a,\n  output logic q\n);\n  logic ",
        "\\begin ;\n  always_comb begin\n    q = a;\n  end\nendmodule\n",
    ),
];

// Neither of two assignments stands behind it.
const NO_STATEMENT: [(&str, &str); 1] = [(AND_PORTS, AND_NAMES)];

// Next values that nothing gives.
const NO_NEXT_VALUE: [(&str, &str); 1] = [(EDGE_PORTS, EDGE_NAMES)];

// Another clock behind a first one, and the other edge of the first.
const SECONDS: [(&str, &str); 3] = [
    ("  always_ff @(posedge ", "rst) begin\n    n <= a;\n  end\n"),
    ("  always_ff @(negedge ", "rst) begin\n    n <= q;\n  end\n"),
    ("  always_ff @(negedge ", "clk) begin\n    n <= a;\n  end\n"),
];

// What is wrong with several clocks too.
const CLOCKS: [(&str, &str); 2] = [
    (
        "  always_ff @(posedge clk) begin\n    q <= a;\n  end\n  always_ff @(negedge ",
        "clk) begin\n    n <= a;\n  end\n",
    ),
    (
        "  always_ff @(posedge clk or posedge ",
        "rst) begin\n    if (rst) begin\n    end else begin\n      q <= a;\n    end\n  end\n  always_ff @(posedge rst) begin\n    n <= a;\n  end\n",
    ),
];

#[test]
fn drivers(rt: HostRuntime) -> Result<(), Fail> {
    let tables: &[(bool, Table)] = &[
        (false, (&[BLOCK], &STATEMENTS, &[TAIL])),
        (false, (&[PORTS, PAIR], &BLOCKS, &[MORE, END])),
        (false, (&[PORTS, PAIR, RESETS], &LOADS, &[SETS, END])),
        (false, (&[""], &MODULES, &[""])),
        (false, (&[""], &NO_STATEMENT, &[TAIL])),
        (false, (&[""], &NO_NEXT_VALUE, &[EDGE_SETS])),
        (false, (&[PORTS, PAIR, FIRST], &SECONDS, &[END])),
        (true, (&[PORTS, PAIR], &CLOCKS, &[END])),
    ];
    for (many, (before, rows, behind)) in tables {
        for row in *rows {
            let (whole, at) = row_text(rt.alloc(), before, row, behind)?;
            let wrong = wrong_in(rt.alloc(), *many, whole.bytes())?;
            assert_eq!(rt; wrong, Some(Wrong::Driver(at)), "{row:?}");
            let refusal = refused(rt.alloc(), *many, whole.bytes())?;
            assert_eq!(rt; refusal, at_byte(Code::SvDriver, at), "{row:?}");
        }
    }
    Ok(())
}
