//! Lines of names.
ghost use Rattle.std.specs.Prelude.{◌≡◌, ◌++◌, ◌∷◌, codes, IfOk, OnOk};
ghost use Rattle.scc_trace.specs.Head.{names_text, names_line};
ghost use Rattle.scc_trace.specs.Stimulus.{names_of};

use crate::stim::StimPort;
use scc_base::{NoMemory, Text};
use std::alloc::Global;

/// Appends a name after a blank.
pub fn name(out: &mut Text, name: &Text) -> Result<(), NoMemory>
    ensures { OnOk result (out.new ≡ out.old ++ 32 ∷ name.now) }
{
    out.push_bytes(b" ")?;
    out.push_bytes(name.bytes())
}

// Appends the ports' names, each after a blank.
fn port_names(out: &mut Text, ports: &[StimPort]) -> Result<(), NoMemory>
    ensures { OnOk result (out.new ≡ out.old ++ names_text (names_of ports.now)) }
{
    for port in ports {
        name(out, &port.name)?;
    }
    Ok(())
}

/// The line that names the ports, without its end.
#[tactic(auto, unfolding(crate::specs::Head::names_line))]
pub fn ports_line(alloc: Global, ports: &[StimPort]) -> Result<Text, NoMemory>
    ensures { IfOk result (λ t. t ≡ names_line (codes "ports") (names_of ports.now)) }
{
    let mut out = Text::new(alloc);
    out.push_bytes(b"ports")?;
    port_names(&mut out, ports)?;
    Ok(out)
}

/// The line that names the clocks, without its end.
#[tactic(auto, unfolding(crate::specs::Head::names_line))]
pub fn clocks_line(alloc: Global, clocks: &[Text]) -> Result<Text, NoMemory>
    ensures { IfOk result (λ t. t ≡ names_line (codes "clocks") clocks.now) }
{
    let mut out = Text::new(alloc);
    out.push_bytes(b"clocks")?;
    for clock in clocks {
        name(&mut out, clock)?;
    }
    Ok(out)
}
