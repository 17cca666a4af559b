//! The ports of a module as stimuli and traces name them.
ghost use Rattle.std.specs.Prelude.{◌≡◌, ◌<◌, ◌^◌, map, length, IfOk};
ghost use Rattle.scc_svtree.specs.Variables.{width_at};
ghost use Rattle.scc_svrun_trace.specs.Ports as ports;

use scc_base::{List, NoMemory, Text};
use scc_svtree::{Dir, SvModule, SvVar, VarId};
use scc_trace::StimPort;
use std::alloc::Global;

// The port that a variable is.
fn port(alloc: Global, m: &SvModule, v: VarId) -> Result<StimPort, NoMemory>
    ensures { IfOk result (λ p. p ≡ ports.port_of m.now v) }
{
    match m.vars.get(v.0 as usize) {
        Some(var) => Ok(StimPort {
            name: Text::from_bytes(alloc, var.name.bytes())?,
            width: var.width,
        }),
        None => Ok(StimPort {
            name: Text::new(alloc),
            width: 0,
        }),
    }
}

/// The ports that variables are, in this order.
pub fn ports_of(alloc: Global, m: &SvModule, vars: &[VarId]) -> Result<List<StimPort>, NoMemory>
    ensures { IfOk result (λ l. l ≡ map (ports.port_of m.now) vars.now) }
{
    let mut list = List::new(alloc);
    for v in vars {
        list.push(port(alloc, m, *v)?)?;
    }
    Ok(list)
}

fn is_output(v: &SvVar) -> bool
    ensures { result ≡ ports.is_output v.now.dir }
{
    matches!(v.dir, Dir::Output)
}

/// The outputs, in the order in which they are declared.
pub fn outputs_of(alloc: Global, vars: &[SvVar]) -> Result<List<VarId>, NoMemory>
    requires { length vars.now < 2 ^ 32 }
    ensures { IfOk result (λ l. l ≡ ports.outputs_from 0 vars.now) }
{
    let mut list = List::new(alloc);
    for (n, v) in vars.iter().enumerate() {
        if is_output(v) {
            list.push(VarId(n as u32))?;
        }
    }
    Ok(list)
}
