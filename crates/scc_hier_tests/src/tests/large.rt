//! Many instances, and E708.
use super::texts::{at_byte, refused, text};
use itoa::Buffer;
use scc_base::{Code, NoMemory, Stop, Text};
use scc_hier_read::read_flattened;
use std::alloc::Global;

// Adds a text with a number in it.
fn numbered(out: &mut Text, front: &str, behind: &str, k: usize) -> Result<(), NoMemory> {
    let mut buffer = Buffer::new();
    out.push_bytes(front.as_bytes())?;
    out.push_bytes(buffer.format(k).as_bytes())?;
    out.push_bytes(behind.as_bytes())?;
    Ok(())
}

// Adds so many lines with a number in each.
fn lines(out: &mut Text, front: &str, behind: &str, count: usize) -> Result<(), NoMemory> {
    for k in 0..count {
        numbered(out, front, behind, k)?;
    }
    Ok(())
}

// A top with instances of a module that has instances of an empty one.
fn nested(alloc: Global, outer: usize, inner: usize) -> Result<Text, NoMemory> {
    let mut t = text(alloc, &["module T (\n);\n"])?;
    lines(&mut t, "  M m", " ();\n", outer)?;
    t.push_bytes(b"endmodule\nmodule M (\n);\n")?;
    lines(&mut t, "  N n", " ();\n", inner)?;
    t.push_bytes(b"endmodule\nmodule N (\n);\nendmodule\n")?;
    Ok(t)
}

// Modules of which each has two instances of the next, but for the last one.
fn doubled(alloc: Global, levels: usize) -> Result<Text, NoMemory> {
    let mut t = text(alloc, &[""])?;
    for k in 0..levels {
        let next = k.saturating_add(1);
        numbered(&mut t, "module M", " (\n);\n", k)?;
        numbered(&mut t, "  M", " a ();\n", next)?;
        numbered(&mut t, "  M", " b ();\nendmodule\n", next)?;
    }
    numbered(&mut t, "module M", " (\n);\nendmodule\n", levels)?;
    Ok(t)
}

// A top with instances of a module that has variables which nothing assigns.
fn filled(alloc: Global, instances: usize, variables: usize) -> Result<Text, NoMemory> {
    let mut t = text(alloc, &["module T (\n  input logic a\n);\n"])?;
    lines(&mut t, "  M m", " ();\n", instances)?;
    t.push_bytes(b"endmodule\nmodule M (\n);\n")?;
    lines(&mut t, "  logic v", ";\n", variables)?;
    t.push_bytes(b"endmodule\n")?;
    Ok(t)
}

#[test]
fn at_most_65536_instances(rt: HostRuntime) -> Result<(), NoMemory> {
    let most = nested(rt.alloc(), 256, 255)?;
    assert!(rt; refused(rt.alloc(), most.bytes())?.is_none());
    let more = nested(rt.alloc(), 257, 255)?;
    assert!(rt; refused(rt.alloc(), more.bytes())? == at_byte(Code::HierTooLarge, 0));
    Ok(())
}

// Instances in instances are counted before any is made: 2^16 - 2 of them, and 2^201 - 2, which fits no integer.
#[test]
fn instances_double(rt: HostRuntime) -> Result<(), NoMemory> {
    let most = doubled(rt.alloc(), 15)?;
    assert!(rt; refused(rt.alloc(), most.bytes())?.is_none());
    let more = doubled(rt.alloc(), 200)?;
    assert!(rt; refused(rt.alloc(), more.bytes())? == at_byte(Code::HierTooLarge, 0));
    Ok(())
}

// 2^20 variables and one port of the top are too many, before it is seen that nothing assigns them.
#[test]
fn at_most_1048576_variables(rt: HostRuntime) -> Result<(), NoMemory> {
    let more = filled(rt.alloc(), 1024, 1024)?;
    assert!(rt; refused(rt.alloc(), more.bytes())? == at_byte(Code::HierTooLarge, 0));
    let fewer = filled(rt.alloc(), 16, 16)?;
    assert!(rt; refused(rt.alloc(), fewer.bytes())? == at_byte(Code::SvDriver, 0));
    Ok(())
}

#[test]
fn ten_thousand_instances(rt: HostRuntime) -> Result<(), Stop> {
    let mut whole = text(rt.alloc(), &["module T (\n  input logic a\n);\n"])?;
    lines(&mut whole, "  M m", " (.a(a));\n", 10_000)?;
    whole.push_bytes(
        b"endmodule\nmodule M (\n  input logic a\n);\n  logic v;\n  always_comb begin\n    v = a;\n  end\nendmodule\n",
    )?;
    let flat = read_flattened(rt.alloc(), whole.bytes())?;
    assert!(rt; flat.vars.len() == 10_001 && flat.blocks.len() == 10_000);
    Ok(())
}
