//! The parts that small texts are made of, and why a text is refused.
use scc_base::{Code, NoMemory, Place, Refusal, Stop, Text};
use scc_hier_read::read_hier;
use std::alloc::Global;

/// Two inverters, up to the line of the first.
pub const TOP: &str = "module Two (
  input logic a,
  output logic b
);
  logic m;
";

/// The lines of both inverters.
pub const BOTH: &str = "  Two$p p (.x(a), .y(m));
  Two$p q (.x(m), .y(b));
";

/// The end of their module, and the module of an inverter.
pub const INVERTER: &str = "endmodule
module Two$p (
  input logic x,
  output logic y
);
  always_comb begin
    y = 1'h0;
    y = (!x);
  end
endmodule
";

/// Both inverters as one module.
pub const FLAT: &str = "module Two (
  input logic a,
  output logic b
);
  logic m;
  always_comb begin
    m = 1'h0;
    m = (!a);
  end
  always_comb begin
    b = 1'h0;
    b = (!m);
  end
endmodule
";

pub fn text(alloc: Global, parts: &[&str]) -> Result<Text, NoMemory> {
    let mut t = Text::new(alloc);
    for part in parts {
        t.push_bytes(part.as_bytes())?;
    }
    Ok(t)
}

/// Why a text is refused.
pub fn refused(alloc: Global, bytes: &[u8]) -> Result<Option<Refusal>, NoMemory> {
    match read_hier(alloc, bytes) {
        Ok(_) => Ok(None),
        Err(Stop::Refused(r)) => Ok(Some(r)),
        Err(Stop::NoMemory) => Err(NoMemory),
    }
}

/// This code, at this byte.
pub fn at_byte(code: Code, at: usize) -> Option<Refusal> {
    let at = u32::try_from(at).ok()?;
    Some(Refusal {
        code,
        place: Place { file: 0, at },
        other: None,
    })
}
