//! The parts that small texts are made of, and what is found in a text.
use scc_base::{Code, NoMemory, Place, Refusal, Stop, Text};
use scc_svread::{read, read_many};
use scc_svread_check::{Wrong, first_wrong};
use scc_svread_raw::read_raw;
use std::alloc::Global;
use std::test::Fail;

/// What stands before a statement.
pub const HEAD: &str = "module M (
  input logic s,
  input logic [7:0] a,
  output logic [7:0] q
);
  logic [127:0] w;
  always_comb begin
";

/// What stands behind a statement.
pub const TAIL: &str = "  end
endmodule
";

/// The head of a block that is to assign `q`.
pub const BLOCK: &str = "module M (
  input logic s,
  input logic [7:0] a,
  output logic [7:0] q
);
  always_comb begin
";

/// What stands before a block.
pub const PORTS: &str = "module M (
  input logic clk,
  input logic rst,
  input logic [7:0] a,
  output logic [7:0] q
);
";

/// What stands behind a block.
pub const END: &str = "endmodule
";

/// A second register.
pub const PAIR: &str = "  logic [7:0] n;
";

/// A block that resets what stands behind this.
pub const RESETS: &str = "  always_ff @(posedge clk or posedge rst) begin
    if (rst) begin
";

/// The rest of that block, which sets both registers.
pub const SETS: &str = "    end else begin
      q <= a;
      n <= q;
    end
  end
";

/// A block that sets the first register.
pub const FIRST: &str = "  always_ff @(posedge clk) begin
    q <= a;
  end
";

/// Rows, each the text up to a place and the text from it on, with what stands before and behind each row.
pub type Table<'a> = (&'a [&'a str], &'a [(&'a str, &'a str)], &'a [&'a str]);

pub fn text(alloc: Global, parts: &[&str]) -> Result<Text, NoMemory> {
    let mut t = Text::new(alloc);
    for part in parts {
        t.push_bytes(part.as_bytes())?;
    }
    Ok(t)
}

/// The text of a row, and its place.
pub fn row_text(
    alloc: Global,
    before: &[&str],
    row: &(&str, &str),
    behind: &[&str],
) -> Result<(Text, usize), NoMemory> {
    let (front, rest) = row;
    let mut whole = text(alloc, before)?;
    whole.push_bytes(front.as_bytes())?;
    let at = whole.bytes().len();
    whole.push_bytes(rest.as_bytes())?;
    whole.push_bytes(text(alloc, behind)?.bytes())?;
    Ok((whole, at))
}

/// What is wrong first in the module of a text, which may have several clocks or not.
pub fn wrong_in(alloc: Global, many: bool, bytes: &[u8]) -> Result<Option<Wrong>, Fail> {
    let raw = read_raw(alloc, bytes)?;
    Ok(first_wrong(alloc, many, &raw)?)
}

/// Why a text, which may have several clocks or not, is refused.
pub fn refused(alloc: Global, many: bool, bytes: &[u8]) -> Result<Option<Refusal>, NoMemory> {
    let answer = if many {
        read_many(alloc, bytes)
    } else {
        read(alloc, bytes)
    };
    match answer {
        Ok(_) => Ok(None),
        Err(Stop::Refused(r)) => Ok(Some(r)),
        Err(Stop::NoMemory) => Err(NoMemory),
    }
}

/// This code, at this byte.
pub fn at_byte(code: Code, at: usize) -> Option<Refusal> {
    let at = u32::try_from(at).ok()?;
    Some(Refusal {
        code,
        place: Place { file: 0, at },
        other: None,
    })
}
