//! Texts of whole modules.

use scc_base::{Boxed, List, NoMemory, Text};
use scc_bits::Word;
use scc_svtext::print;
use scc_svtree::{
    Dir, SvArm, SvBinary, SvBlock, SvExpr, SvExprNode, SvLeft, SvLiteral, SvLoad, SvModule,
    SvReset, SvSet, SvStmt, SvUnary, SvVar, VarId,
};
use std::alloc::Global;

fn text(alloc: Global, bytes: &[u8]) -> Result<Text, NoMemory> {
    let mut t = Text::new(alloc);
    t.push_bytes(bytes)?;
    Ok(t)
}

fn expr(alloc: Global, node: SvExprNode) -> Result<SvExpr, NoMemory> {
    Ok(SvExpr {
        node: Boxed::new(alloc, node)?,
    })
}

fn cast(alloc: Global, width: u32, v: u32) -> Result<SvExpr, NoMemory> {
    let of = expr(alloc, SvExprNode::Left(SvLeft::Whole(VarId(v))))?;
    expr(alloc, SvExprNode::Cast { width, of })
}

fn assign(alloc: Global, v: u32, node: SvExprNode) -> Result<SvStmt, NoMemory> {
    Ok(SvStmt::Assign {
        left: SvLeft::Whole(VarId(v)),
        value: expr(alloc, node)?,
    })
}

// The method of two inputs whose output is their conjunction.
fn conjunction(alloc: Global) -> Result<SvModule, NoMemory> {
    let mut vars = List::new(alloc);
    for (name, dir) in [(b"a", Dir::Input), (b"b", Dir::Input), (b"y", Dir::Output)] {
        vars.push(SvVar {
            name: text(alloc, name.as_slice())?,
            width: 8,
            dir,
        })?;
    }
    let zero = SvLiteral {
        width: 8,
        value: Word { bits: 0 },
    };
    let both = SvExprNode::Binary {
        op: SvBinary::And,
        left: cast(alloc, 64, 0)?,
        right: cast(alloc, 64, 1)?,
    };
    let mut body = List::new(alloc);
    body.push(assign(alloc, 2, SvExprNode::Literal(zero))?)?;
    let of = expr(alloc, both)?;
    body.push(assign(alloc, 2, SvExprNode::Cast { width: 8, of })?)?;
    let mut blocks = List::new(alloc);
    blocks.push(SvBlock::Comb(body))?;
    Ok(SvModule {
        name: text(alloc, b"And")?,
        vars,
        blocks,
    })
}

#[test]
fn a_module_is_printed(rt: HostRuntime) -> Result<(), NoMemory> {
    let alloc = rt.alloc();
    let m = conjunction(alloc)?;
    let wanted =
        b"module And (\n  input logic [7:0] a,\n  input logic [7:0] b,\n  output logic [7:0] y\n);\n  always_comb begin\n    y = 8'h00;\n    y = 8'((64'(a) & 64'(b)));\n  end\nendmodule\n";
    let printed = print(alloc, &m)?;
    assert_eq!(rt; printed.bytes(), wanted.as_slice());
    Ok(())
}

fn variable(alloc: Global, v: u32) -> Result<SvExpr, NoMemory> {
    expr(alloc, SvExprNode::Left(SvLeft::Whole(VarId(v))))
}

fn declare(
    alloc: Global,
    vars: &mut List<SvVar>,
    name: &[u8],
    width: u32,
    dir: Dir,
) -> Result<(), NoMemory> {
    let name = text(alloc, name)?;
    vars.push(SvVar { name, width, dir })
}

fn number(width: u32, bits: u128) -> SvLiteral {
    SvLiteral {
        width,
        value: Word { bits },
    }
}

// A register with an asynchronous reset.
fn register(alloc: Global, rising: bool) -> Result<SvModule, NoMemory> {
    let mut vars = List::new(alloc);
    declare(alloc, &mut vars, b"clk", 1, Dir::Input)?;
    declare(alloc, &mut vars, b"rst", 1, Dir::Input)?;
    declare(alloc, &mut vars, b"q", 8, Dir::Output)?;
    declare(alloc, &mut vars, b"q$$n", 8, Dir::Inner)?;
    let mut values = List::new(alloc);
    values.push(SvLoad {
        target: VarId(2),
        value: Word { bits: 5 },
    })?;
    let mut sets = List::new(alloc);
    sets.push(SvSet {
        target: VarId(2),
        value: variable(alloc, 3)?,
    })?;
    let mut blocks = List::new(alloc);
    blocks.push(SvBlock::Edge {
        rising: true,
        clock: VarId(0),
        reset: Some(SvReset {
            signal: VarId(1),
            rising,
            values,
        }),
        sets,
    })?;
    Ok(SvModule {
        name: text(alloc, b"R")?,
        vars,
        blocks,
    })
}

#[test]
fn a_reset_block_is_printed(rt: HostRuntime) -> Result<(), NoMemory> {
    let alloc = rt.alloc();
    let wanted =
        b"module R (\n  input logic clk,\n  input logic rst,\n  output logic [7:0] q\n);\n  logic [7:0] q$$n;\n  always_ff @(posedge clk or posedge rst) begin\n    if (rst) begin\n      q <= 8'h05;\n    end else begin\n      q <= q$$n;\n    end\n  end\nendmodule\n";
    let printed = print(alloc, &register(alloc, true)?)?;
    assert_eq!(rt; printed.bytes(), wanted.as_slice());
    let wanted =
        b"module R (\n  input logic clk,\n  input logic rst,\n  output logic [7:0] q\n);\n  logic [7:0] q$$n;\n  always_ff @(posedge clk or negedge rst) begin\n    if ((!rst)) begin\n      q <= 8'h05;\n    end else begin\n      q <= q$$n;\n    end\n  end\nendmodule\n";
    let printed = print(alloc, &register(alloc, false)?)?;
    assert_eq!(rt; printed.bytes(), wanted.as_slice());
    Ok(())
}

// A module whose output has a reserved word for a name, with an `if` in a `case`.
fn choices(alloc: Global) -> Result<SvModule, NoMemory> {
    let mut vars = List::new(alloc);
    declare(alloc, &mut vars, b"output", 12, Dir::Output)?;
    declare(alloc, &mut vars, b"a_", 1, Dir::Input)?;
    declare(alloc, &mut vars, b"i", 2, Dir::Input)?;
    let mut first = List::new(alloc);
    first.push(SvStmt::Assign {
        left: SvLeft::Bit {
            var: VarId(0),
            at: 11,
        },
        value: variable(alloc, 1)?,
    })?;
    let mut second = List::new(alloc);
    let of = variable(alloc, 1)?;
    let op = SvUnary::LogNot;
    second.push(SvStmt::Assign {
        left: SvLeft::Range {
            var: VarId(0),
            h: 3,
            l: 0,
        },
        value: expr(alloc, SvExprNode::Unary { op, of })?,
    })?;
    let mut inner = List::new(alloc);
    inner.push(SvStmt::If {
        test: variable(alloc, 1)?,
        yes: first,
        no: second,
    })?;
    let mut arms = List::new(alloc);
    arms.push(SvArm {
        label: number(2, 3),
        body: inner,
    })?;
    let mut body = List::new(alloc);
    body.push(assign(alloc, 0, SvExprNode::Literal(number(12, 0xabc)))?)?;
    body.push(SvStmt::Case {
        of: variable(alloc, 2)?,
        arms,
    })?;
    let mut blocks = List::new(alloc);
    blocks.push(SvBlock::Comb(body))?;
    Ok(SvModule {
        name: text(alloc, b"C")?,
        vars,
        blocks,
    })
}

#[test]
fn choices_are_printed(rt: HostRuntime) -> Result<(), NoMemory> {
    let alloc = rt.alloc();
    let wanted =
        b"module C (\n  output logic [11:0] \\output ,\n  input logic a_,\n  input logic [1:0] i\n);\n  always_comb begin\n    \\output  = 12'habc;\n    case (i)\n      2'h3: begin\n        if (a_) begin\n          \\output [11] = a_;\n        end else begin\n          \\output [3:0] = (!a_);\n        end\n      end\n    endcase\n  end\nendmodule\n";
    let printed = print(alloc, &choices(alloc)?)?;
    assert_eq!(rt; printed.bytes(), wanted.as_slice());
    Ok(())
}

// So many sums in a row.
fn row(alloc: Global, count: u32) -> Result<SvExpr, NoMemory> {
    let mut e = variable(alloc, 0)?;
    for _ in 0..count {
        let right = variable(alloc, 0)?;
        let op = SvBinary::Add;
        e = expr(alloc, SvExprNode::Binary { op, left: e, right })?;
    }
    Ok(e)
}

#[test]
fn a_deep_expression_is_printed(rt: HostRuntime) -> Result<(), NoMemory> {
    let alloc = rt.alloc();
    let mut vars = List::new(alloc);
    declare(alloc, &mut vars, b"y", 8, Dir::Output)?;
    let mut body = List::new(alloc);
    body.push(SvStmt::Assign {
        left: SvLeft::Whole(VarId(0)),
        value: row(alloc, 1000)?,
    })?;
    let mut blocks = List::new(alloc);
    blocks.push(SvBlock::Comb(body))?;
    let m = SvModule {
        name: text(alloc, b"D")?,
        vars,
        blocks,
    };
    let printed = print(alloc, &m)?;
    // each sum takes its brackets, its operator with two blanks, and a name
    assert_eq!(rt; printed.bytes().len(), 84 + 6 * 1000);
    Ok(())
}
