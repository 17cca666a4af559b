//! Texts that come back: what is read is printed as it was.
use super::texts::{END, FIRST, HEAD, PAIR, PORTS, RESETS, SETS, TAIL, text};
use super::worked::{AND_BOTH, AND_NAMES, AND_PORTS, COUNT, WORKED};
use scc_base::{NoMemory, Stop};
use scc_svread::{module_of, read, read_many};
use scc_svread_raw::read_raw;
use scc_svtext::print;
use scc_svtree::SvModule;
use std::alloc::Global;
use std::test::Fail;

// Values for all that the block assigns.
const VALUES: &str = "    q = a;
    w = 128'(s);
";

const STATEMENTS: [&str; 8] = [
    "    q = 8'hff;\n",
    "    q = a[7:0];\n",
    "    q = {a[3:0], {s, a[2:1], s}};\n",
    "    w = 128'hffffffffffffffffffffffffffffffff;\n",
    "    q = (a / $signed(8'h01));\n",
    "    q = 8'((a << 100'h0000000000000000000000000));\n",
    "    w[127] = (&{w[126:0], s});\n",
    "    if (s) begin\n      q[0] = w[0];\n      w = (w + q);\n    end\n",
];

// Whether a text was read, and its module is printed as this text.
fn is_printed(
    alloc: Global,
    answer: Result<SvModule, Stop>,
    bytes: &[u8],
) -> Result<bool, NoMemory> {
    match answer {
        Ok(m) => Ok(print(alloc, &m)?.bytes() == bytes),
        Err(_) => Ok(false),
    }
}

fn comes_back(alloc: Global, parts: &[&str]) -> Result<bool, NoMemory> {
    let whole = text(alloc, parts)?;
    is_printed(alloc, read(alloc, whole.bytes()), whole.bytes())
}

#[test]
fn texts_come_back(rt: HostRuntime) -> Result<(), NoMemory> {
    for parts in WORKED.as_slice() {
        assert!(rt; comes_back(rt.alloc(), parts)?, "{parts:?}");
    }
    for statement in STATEMENTS.as_slice() {
        assert!(rt;
            comes_back(rt.alloc(), &[HEAD, VALUES, statement, TAIL])?,
            "{statement}"
        );
    }
    // the first of two assignments may be left out
    assert!(rt; comes_back(rt.alloc(), &[AND_PORTS, AND_NAMES, AND_BOTH])?);
    // a part of what is set is reset, in its order
    let part = "      n <= 8'h00;\n";
    assert!(rt; comes_back(rt.alloc(), &[PORTS, PAIR, RESETS, part, SETS, END])?);
    Ok(())
}

// With several clocks each has one edge, and none is a reset.
#[test]
fn several_clocks_come_back(rt: HostRuntime) -> Result<(), NoMemory> {
    let alloc = rt.alloc();
    for value in ["a", "q"] {
        let whole = text(
            alloc,
            &[
                PORTS,
                PAIR,
                FIRST,
                "  always_ff @(negedge rst) begin\n    n <= ",
                value,
                ";\n  end\n",
                END,
            ],
        )?;
        let answer = read_many(alloc, whole.bytes());
        assert!(rt; is_printed(alloc, answer, whole.bytes())?, "{value}");
    }
    Ok(())
}

#[test]
fn names_become_numbers(rt: HostRuntime) -> Result<(), Fail> {
    let whole = text(rt.alloc(), COUNT.as_slice())?;
    let raw = read_raw(rt.alloc(), whole.bytes())?;
    let m = module_of(rt.alloc(), &raw)?;
    assert_eq!(rt; m.vars.len(), 8);
    assert_eq!(rt; m.blocks.len(), 2);
    let v = m.vars.get(3).ok_or("no variable")?;
    assert_eq!(rt; v.width, 8);
    assert_eq!(rt; v.name.bytes(), b"q$$n".as_slice());
    Ok(())
}
