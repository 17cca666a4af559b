//! E702: sizes that are wrong first.
use super::texts::{BLOCK, END, HEAD, PORTS, TAIL, Table, at_byte, refused, row_text, wrong_in};
use scc_base::Code;
use scc_svread_check::Wrong;
use std::test::Fail;

const STATEMENTS: [(&str, &str); 37] = [
    ("    q = ", "0'h;\n"),
    ("    q = ", "129'h000000000000000000000000000000000;\n"),
    ("    q = ", "3'h8;\n"),
    ("    q = (a + ", "1'h2);\n"),
    ("    q = (a / ", "8'h00);\n"),
    ("    q = (a % ", "$signed(8'h00));\n"),
    ("    q = (a[0] ? (s / ", "1'h0) : a);\n"),
    ("    q = ", "a[8];\n"),
    ("    q = ", "a[8:0];\n"),
    ("    q = ", "a[3:3];\n"),
    ("    q = ", "a[2:3];\n"),
    ("    q = ", "s[0];\n"),
    ("    q = (~", "a[9]);\n"),
    ("    q = ", "0'(a);\n"),
    ("    q = ", "129'(a);\n"),
    ("    q = 8'(", "0'(a));\n"),
    ("    q = ", "{a, w};\n"),
    ("    q = {a, ", "0'(s)};\n"),
    ("    q = ", "(a + 200'(s));\n"),
    ("    q = (a == ", "200'(s));\n"),
    ("    q = ", "(~{w, s});\n"),
    ("    q = (!", "{w, s});\n"),
    ("    q = ", "(s ? a : {s, w});\n"),
    ("    q = (", "{w, s} ? a : s);\n"),
    ("    q = ", "({w, s} >> a);\n"),
    ("    q = (a >> ", "{w, s});\n"),
    ("    q = $signed(", "a[8]);\n"),
    ("    q = (x + ", "a[8]);\n"),
    ("    ", "a[8] = s;\n"),
    ("    ", "q[7:7] = a;\n"),
    ("    if (", "a[8]) begin\n    end\n"),
    ("    if (s) begin\n      q = ", "a[8];\n    end\n"),
    (
        "    if (s) begin\n    end else begin\n      q = ",
        "a[8];\n    end\n",
    ),
    (
        "    case (a)\n      ",
        "7'h00: begin\n      end\n    endcase\n",
    ),
    (
        "    case (a)\n      8'h01: begin\n      end\n      8'h00: begin\n      end\n      ",
        "8'h01: begin\n      end\n    endcase\n",
    ),
    (
        "    case ((x + a))\n      7'h00: begin\n      end\n      ",
        "7'h00: begin\n      end\n    endcase\n",
    ),
    (
        "    case (a)\n      8'h00: begin\n        q = ",
        "a[8];\n      end\n    endcase\n",
    ),
];

const EDGES: [(&str, &str); 4] = [
    (
        "  always_ff @(posedge clk) begin\n    q <= ",
        "a[8];\n  end\n",
    ),
    (
        "  always_ff @(posedge clk or posedge rst) begin\n    if (rst) begin\n      q <= ",
        "7'h00;\n    end else begin\n      q <= a;\n    end\n  end\n",
    ),
    (
        "  always_ff @(posedge clk or posedge rst) begin\n    if (rst) begin\n      clk <= ",
        "1'h2;\n    end else begin\n      q <= a;\n    end\n  end\n",
    ),
    (
        "  always_ff @(posedge clk or negedge rst) begin\n    if ((!rst)) begin\n      q <= 8'h00;\n    end else begin\n      q <= {",
        "a[9], a};\n    end\n  end\n",
    ),
];

const MODULES: [(&str, &str); 3] = [
    ("module M (\n  input logic ", "[128:0] a\n);\nendmodule\n"),
    (
        "module M (\n  input logic a,\n  output logic ",
        "[340282366920938463463374607431768211456:0] b\n);\nendmodule\n",
    ),
    (
        "module \\module  (\n);\n  logic ",
        "[128:0] a;\nendmodule\n",
    ),
];

// A driver comes behind it, though it stands further in front.
const BEHIND_A_DRIVER: (&str, &str) = ("    q = (q + ", "a[8]);\n");

#[test]
fn sizes(rt: HostRuntime) -> Result<(), Fail> {
    let tables: &[Table] = &[
        (&[HEAD], &STATEMENTS, &[TAIL]),
        (&[PORTS], &EDGES, &[END]),
        (&[""], &MODULES, &[""]),
        (&[BLOCK], &[BEHIND_A_DRIVER], &[TAIL]),
    ];
    for (before, rows, behind) in tables {
        for row in *rows {
            let (whole, at) = row_text(rt.alloc(), before, row, behind)?;
            let wrong = wrong_in(rt.alloc(), false, whole.bytes())?;
            assert_eq!(rt; wrong, Some(Wrong::Size(at)), "{row:?}");
            let refusal = refused(rt.alloc(), false, whole.bytes())?;
            assert_eq!(rt; refusal, at_byte(Code::SvSize, at), "{row:?}");
        }
    }
    Ok(())
}
