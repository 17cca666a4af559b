//! The module of a design: each output is first 0, and then the writes follow in their order.
ghost use Rattle.std.specs.Prelude.{◌≡◌, ◌<◌, ◌^◌, ◌++◌, length, map, IfOk, OnOk};
ghost use Rattle.scc_thin_module.specs.Emitted.{variable, cast, zero_of, binary_of, both, resized, width_of, operand, value_of, value_width, assign, put_stmt, zeros_from, var_of, module_of};

use scc_base::{Boxed, List, NoMemory, Text};
use scc_bits::Word;
use scc_svtree::{
    Dir, SvBinary, SvBlock, SvExpr, SvExprNode, SvLeft, SvLiteral, SvModule, SvStmt, SvVar, VarId,
};
use scc_thin::{Bitwise, Design, Port, Put, Second};
use std::alloc::Global;

fn variable(alloc: Global, i: u32) -> Result<SvExpr, NoMemory>
    ensures { IfOk result (λ e. e ≡ variable i) }
{
    let node = Boxed::new(alloc, SvExprNode::Left(SvLeft::Whole(VarId(i))))?;
    Ok(SvExpr { node })
}

fn cast(alloc: Global, width: u32, of: SvExpr) -> Result<SvExpr, NoMemory>
    ensures { IfOk result (λ e. e ≡ cast width of) }
{
    let node = Boxed::new(alloc, SvExprNode::Cast { width, of })?;
    Ok(SvExpr { node })
}

fn zero(alloc: Global, width: u32) -> Result<SvExpr, NoMemory>
    ensures { IfOk result (λ e. e ≡ zero_of width) }
{
    let value = Word { bits: 0 };
    let node = Boxed::new(alloc, SvExprNode::Literal(SvLiteral { width, value }))?;
    Ok(SvExpr { node })
}

fn binary(op: Bitwise) -> SvBinary
    ensures { result ≡ binary_of op }
{
    match op {
        Bitwise::And => SvBinary::And,
        Bitwise::Or => SvBinary::Or,
        Bitwise::Xor => SvBinary::Xor,
    }
}

fn both(alloc: Global, op: Bitwise, left: SvExpr, right: SvExpr) -> Result<SvExpr, NoMemory>
    ensures { IfOk result (λ e. e ≡ both op left right) }
{
    let op = binary(op);
    let node = Boxed::new(alloc, SvExprNode::Binary { op, left, right })?;
    Ok(SvExpr { node })
}

// An expression of one width in another.
fn resized(alloc: Global, from: u32, to: u32, of: SvExpr) -> Result<SvExpr, NoMemory>
    ensures { IfOk result (λ e. e ≡ resized from to of) }
{
    if from == to {
        Ok(of)
    } else {
        cast(alloc, to, of)
    }
}

fn width_of(ports: &[Port], i: u32) -> u32
    ensures { result ≡ width_of ports.now i }
{
    match ports.get(i as usize) {
        Some(p) => p.width,
        None => 0,
    }
}

// A read, which an operator takes in 64 bits.
fn operand(alloc: Global, ports: &[Port], i: u32) -> Result<SvExpr, NoMemory>
    ensures { IfOk result (λ e. e ≡ operand ports.now i) }
{
    resized(alloc, width_of(ports, i), 64, variable(alloc, i)?)
}

fn value(
    alloc: Global,
    ports: &[Port],
    first: u32,
    second: Option<Second>,
) -> Result<SvExpr, NoMemory>
    ensures { IfOk result (λ e. e ≡ value_of ports.now first second) }
{
    match second {
        None => variable(alloc, first),
        Some(s) => {
            let left = operand(alloc, ports, first)?;
            let right = operand(alloc, ports, s.port)?;
            both(alloc, s.op, left, right)
        }
    }
}

fn value_width(ports: &[Port], first: u32, second: Option<Second>) -> u32
    ensures { result ≡ value_width ports.now first second }
{
    match second {
        None => width_of(ports, first),
        Some(_) => 64,
    }
}

fn assign(i: u32, value: SvExpr) -> SvStmt
    ensures { result ≡ assign i value }
{
    SvStmt::Assign {
        left: SvLeft::Whole(VarId(i)),
        value,
    }
}

fn put_stmt(alloc: Global, ports: &[Port], p: &Put) -> Result<SvStmt, NoMemory>
    ensures { IfOk result (λ s. s ≡ put_stmt ports.now p.now) }
{
    let from = value_width(ports, p.first, p.second);
    let to = width_of(ports, p.target);
    let value = value(alloc, ports, p.first, p.second)?;
    Ok(assign(p.target, resized(alloc, from, to, value)?))
}

fn put_stmts(
    alloc: Global,
    ports: &[Port],
    puts: &[Put],
    list: &mut List<SvStmt>,
) -> Result<(), NoMemory>
    ensures { OnOk result (list.new ≡ list.old ++ map (put_stmt ports.now) puts.now) }
{
    for p in puts {
        list.push(put_stmt(alloc, ports, p)?)?;
    }
    Ok(())
}

fn zeros(alloc: Global, ports: &[Port], list: &mut List<SvStmt>) -> Result<(), NoMemory>
    requires { length ports.now < 2 ^ 32 }
    ensures { OnOk result (list.new ≡ list.old ++ zeros_from 0 ports.now) }
{
    for (i, p) in ports.iter().enumerate() {
        if p.output {
            list.push(assign(i as u32, zero(alloc, p.width)?))?;
        }
    }
    Ok(())
}

fn var(alloc: Global, p: &Port) -> Result<SvVar, NoMemory>
    ensures { IfOk result (λ v. v ≡ var_of p.now) }
{
    let mut name = Text::new(alloc);
    name.push_bytes(p.name.bytes())?;
    let dir = if p.output { Dir::Output } else { Dir::Input };
    Ok(SvVar {
        name,
        width: p.width,
        dir,
    })
}

fn vars(alloc: Global, ports: &[Port]) -> Result<List<SvVar>, NoMemory>
    ensures { IfOk result (λ l. l ≡ map var_of ports.now) }
{
    let mut list = List::new(alloc);
    for p in ports {
        list.push(var(alloc, p)?)?;
    }
    Ok(list)
}

/// The module of a design.
pub fn module_of(alloc: Global, d: &Design) -> Result<SvModule, NoMemory>
    requires { length d.now.ports < 2 ^ 32 }
    ensures { IfOk result (λ m. m ≡ module_of d.now) }
{
    let mut stmts = List::new(alloc);
    zeros(alloc, d.ports.as_slice(), &mut stmts)?;
    put_stmts(alloc, d.ports.as_slice(), d.puts.as_slice(), &mut stmts)?;
    let mut blocks = List::new(alloc);
    blocks.push(SvBlock::Comb(stmts))?;
    let mut name = Text::new(alloc);
    name.push_bytes(d.top.bytes())?;
    let vars = vars(alloc, d.ports.as_slice())?;
    Ok(SvModule { name, vars, blocks })
}
