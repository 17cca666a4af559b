//! E701: the first byte at which no text goes on, or the end.
use super::texts::{BLOCK, TAIL, Table, at_byte, refused, row_text, text};
use super::worked::{COUNT, COUNT_FRONT, COUNT_REST, WORKED};
use scc_base::{Code, NoMemory};

const LITERALS: [(&str, &str); 2] = [("    q = 8'", "d0;\n"), ("    q = 8'hf", "F;\n")];

const ANOTHER_BASE: [(&str, &str); 1] = [(COUNT_FRONT, "d0")];

const NO_TEXT: [(&str, &str); 1] = [("", "")];

const A_BYTE_MORE: [(&str, &str); 3] = [("", "\n"), ("", " "), ("", "m")];

#[test]
fn wrong_bytes(rt: HostRuntime) -> Result<(), NoMemory> {
    let tables: &[Table] = &[
        (&[BLOCK], &LITERALS, &[TAIL]),
        (&[""], &ANOTHER_BASE, &[COUNT_REST]),
        (&[""], &NO_TEXT, &[""]),
        (&COUNT, &A_BYTE_MORE, &[""]),
    ];
    for (before, rows, behind) in tables {
        for row in *rows {
            let (whole, at) = row_text(rt.alloc(), before, row, behind)?;
            let refusal = refused(rt.alloc(), false, whole.bytes())?;
            assert_eq!(rt; refusal, at_byte(Code::SvUnexpected, at), "{row:?}");
        }
    }
    Ok(())
}

#[test]
fn every_cut_stops_at_its_end(rt: HostRuntime) -> Result<(), NoMemory> {
    for parts in WORKED.as_slice() {
        let whole = text(rt.alloc(), parts)?;
        for cut in 0..whole.bytes().len() {
            let part = whole.bytes().get(..cut).unwrap_or(whole.bytes());
            let refusal = refused(rt.alloc(), false, part)?;
            assert_eq!(rt;
                refusal,
                at_byte(Code::SvUnexpected, cut),
                "{cut} of {parts:?}"
            );
        }
    }
    Ok(())
}
