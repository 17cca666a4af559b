//! Texts that are read, and the first byte of those that are not.
use scc_base::{NoMemory, Text};
use scc_svread_raw::{Halt, read_raw};
use std::alloc::Global;

const AND: &str = "module And (
  input logic [7:0] a,
  input logic [7:0] b,
  output logic [7:0] y
);
  always_comb begin
    y = 8'h00;
    y = 8'((64'(a) & 64'(b)));
  end
endmodule
";

const RESET: &str = "module R (
  input logic clk,
  input logic rst,
  output logic [7:0] q
);
  logic [7:0] q$$n;
  logic \\output ;
  always_comb begin
    q$$n = q;
    \\output  = 1'h0;
    case (q[1:0])
      2'h0: begin
        q$$n = ((q < 8'h07) ? (q + 8'h01) : {q[7], 7'h00});
      end
      2'h1: begin
      end
    endcase
    if ((!rst)) begin
      q$$n[3] = 1'((q >>> 2'h2));
    end else begin
      q$$n = $unsigned(($signed(q) / $signed(8'h03)));
    end
  end
  always_ff @(posedge clk or negedge rst) begin
    if ((!rst)) begin
      q <= 8'h05;
    end else begin
      q <= q$$n;
    end
  end
endmodule
";

// What stands around an expression.
const HEAD: &str = "module M (
  input logic clk,
  input logic a,
  output logic q
);
  always_ff @(posedge clk) begin
    q <= ";

const TAIL: &str = ";
  end
endmodule
";

fn text(alloc: Global, parts: &[&str]) -> Result<Text, NoMemory> {
    let mut t = Text::new(alloc);
    for part in parts {
        t.push_bytes(part.as_bytes())?;
    }
    Ok(t)
}

// So many items behind the ports.
fn items(alloc: Global, source: &str) -> usize {
    match read_raw(alloc, source.as_bytes()) {
        Ok(m) => m.items.len(),
        Err(_) => 1000,
    }
}

#[test]
fn modules_are_read(rt: HostRuntime) -> Result<(), NoMemory> {
    let alloc = rt.alloc();
    assert_eq!(rt; items(alloc, AND), 1);
    assert_eq!(rt; items(alloc, RESET), 4);
    assert_eq!(rt;
        items(alloc, "module A (\n  input logic x\n);\nendmodule\n"),
        0
    );
    Ok(())
}

// Whether the fault stands behind the first of these, in which nothing is wrong.
fn stops(alloc: Global, front: &[&str], rest: &[&str]) -> Result<bool, NoMemory> {
    let left = text(alloc, rest)?.bytes().len();
    let mut whole = text(alloc, front)?;
    whole.push_bytes(text(alloc, rest)?.bytes())?;
    match read_raw(alloc, whole.bytes()) {
        Ok(_) => Ok(false),
        Err(Halt::Unexpected(found)) => Ok(found == left),
        Err(Halt::TooDeep(_)) => Ok(false),
        Err(Halt::NoMemory) => Err(NoMemory),
    }
}

#[test]
fn expressions_stop_at_the_first_wrong_byte(rt: HostRuntime) -> Result<(), NoMemory> {
    let rows: &[(&str, &str)] = &[
        ("", "+"),
        ("8'", "d00"),
        ("8'", "H00"),
        ("8'h0", ""),
        ("8'h00", "0"),
        ("8'h0", "A"),
        ("0", "8'h00"),
        ("8'(", ")"),
        ("(a", ")"),
        ("(a +", "a)"),
        ("(a + ", ")"),
        ("(a <", "> a)"),
        ("(a >>>", "> a)"),
        ("(a &&", "& a)"),
        ("(a / ", "a)"),
        ("(a % $", "unsigned(8'h01))"),
        ("(a ? a : a", " )"),
        ("(~a", " )"),
        ("{a", "}"),
        ("{a, a", " }"),
        ("begin", ""),
        ("\\begin", "x "),
        ("\\a", " "),
        ("$s", "qrt(a)"),
        ("$unsigned", " (a)"),
        ("a[", "]"),
        ("a[0", "0]"),
        ("a[1:", ":0]"),
        ("a", " "),
    ];
    for (front, rest) in rows {
        assert!(rt; stops(rt.alloc(), &[HEAD, front], &[rest, TAIL])?);
    }
    Ok(())
}

#[test]
fn modules_stop_at_the_first_wrong_byte(rt: HostRuntime) -> Result<(), NoMemory> {
    let rows: &[(&str, &str)] = &[
        ("", ""),
        ("", "Module M (\n);\nendmodule\n"),
        ("module ", "9 (\n);\nendmodule\n"),
        ("module M (\n", "\n);\nendmodule\n"),
        ("module M (\n  input logic [", "0:0] a\n);\nendmodule\n"),
        ("module M (\n  input logic [8:", "1] a\n);\nendmodule\n"),
        ("module M (\n  in", "out logic a\n);\nendmodule\n"),
        ("module M (\n  input logic a", ";\n);\nendmodule\n"),
        ("module M (\n);\n ", "logic x;\nendmodule\n"),
        ("module M (\n);\n  logic x", "\nendmodule\n"),
        (
            "module M (\n);\n  always_comb begin\n  end\n  ",
            "logic x;\nendmodule\n",
        ),
        (
            "module M (\n);\n  always_",
            "latch begin\n  end\nendmodule\n",
        ),
        (
            "module M (\n);\n  always_comb begin\n  ",
            "x = a;\n  end\nendmodule\n",
        ),
        (
            "module M (\n);\n  always_comb begin\n    x ",
            "<= a;\n  end\nendmodule\n",
        ),
        (
            "module M (\n);\n  always_comb begin\n    if (a) begin\n    end else begin\n    ",
            "end\n  end\nendmodule\n",
        ),
        (
            "module M (\n);\n  always_comb begin\n    if (a) begin\n    end ",
            "\n  end\nendmodule\n",
        ),
        (
            "module M (\n);\n  always_comb begin\n    case (a)\n      ",
            "default: begin\n      end\n    endcase\n  end\nendmodule\n",
        ),
        (
            "module M (\n);\n  always_ff @(",
            "clk) begin\n  end\nendmodule\n",
        ),
        (
            "module M (\n);\n  always_ff @(posedge clk",
            ", posedge rst) begin\n  end\nendmodule\n",
        ),
        ("module M (\n);\nendmodule", ""),
        ("module M (\n);\nendmodule\n", "\n"),
    ];
    for (front, rest) in rows {
        assert!(rt; stops(rt.alloc(), &[front], &[rest])?);
    }
    Ok(())
}

// An expression that holds so many others, each in the one before it.
fn nested(alloc: Global, count: usize) -> Result<Text, NoMemory> {
    let mut t = text(alloc, &[HEAD])?;
    for _ in 0..count {
        t.push_bytes(b"(~")?;
    }
    t.push_bytes(b"a")?;
    for _ in 0..count {
        t.push_bytes(b")")?;
    }
    t.push_bytes(TAIL.as_bytes())?;
    Ok(t)
}

#[test]
fn the_deepest_level_is_8192(rt: HostRuntime) -> Result<(), NoMemory> {
    let small = nested(rt.alloc(), 1000)?;
    assert!(rt; read_raw(rt.alloc(), small.bytes()).is_ok());
    let within = nested(rt.alloc(), 8191)?;
    assert!(rt; read_raw(rt.alloc(), within.bytes()).is_ok());
    let beyond = nested(rt.alloc(), 8192)?;
    let left = 1 + 8192 + TAIL.as_bytes().len();
    match read_raw(rt.alloc(), beyond.bytes()) {
        Err(Halt::TooDeep(found)) => assert_eq!(rt; found, left),
        _ => assert!(rt; false),
    }
    Ok(())
}
