//! The waits of a body, and the points behind them.
ghost use Rattle.std.specs.Prelude.{◌≡◌, [], ◌∷◌, ◌++◌, OnOk, map};
ghost use Rattle.scc_core_spec.specs.Rules.{waits};
ghost use Rattle.scc_core_spec.specs.Segments.{counts};
ghost use Rattle.scc_core_view.specs.Codes.{code_of};

use scc_base::{List, NoMemory, Place};
use scc_core::{CoreNode, CoreStmt};

/// A wait, and for how many edges it waits.
#[derive(Clone, Copy)]
pub struct Halt {
    pub place: Place,
    pub count: u32,
}

/// Adds the waits of some statements, in text order.
#[cycle(halts)]
pub fn halts(body: &[CoreStmt], out: &mut List<Halt>) -> Result<(), NoMemory>
    ensures counts { OnOk result (map (λ h. h.count) out.new ≡ map (λ h. h.count) out.old ++ counts (code_of body.now)) }
    ensures places { OnOk result (map (λ h. h.place) out.new ≡ map (λ h. h.place) out.old ++ waits (code_of body.now)) }
{
    for s in body {
        halts_in(s, out)?;
    }
    Ok(())
}

#[cycle(halts)]
fn halts_in(s: &CoreStmt, out: &mut List<Halt>) -> Result<(), NoMemory>
    ensures counts { OnOk result (map (λ h. h.count) out.new ≡ map (λ h. h.count) out.old ++ counts (code_of (s.now ∷ []))) }
    ensures places { OnOk result (map (λ h. h.place) out.new ≡ map (λ h. h.place) out.old ++ waits (code_of (s.now ∷ []))) }
{
    match &s.node {
        CoreNode::Wait { n } => out.push(Halt {
            place: s.place,
            count: *n,
        }),
        CoreNode::If { yes, no, .. } => {
            halts(yes.as_slice(), out)?;
            halts(no.as_slice(), out)
        }
        CoreNode::Block(body) | CoreNode::Loop { body, .. } => halts(body.as_slice(), out),
        CoreNode::Assign { .. } | CoreNode::Exit(_) | CoreNode::Alias { .. } => Ok(()),
    }
}
