//! What is looked for when construction has run.
use scc_base::{Code, NoMemory, Stop, lost};
use scc_elab_state::grown::Grown;
use scc_elab_state::spots::TOP;
use scc_elab_state::things::ThingSort;

/// Refuses a port below the top that is not bound, as E401.
pub fn check_ports(g: &Grown) -> Result<(), Stop> {
    for thing in g.things.as_slice() {
        if let ThingSort::Port { bound: None, .. } = thing.sort
            && g.module_of(thing.spot)? != Some(TOP)
        {
            // E401.
            return Err(Stop::refused(Code::Unbound, thing.place));
        }
    }
    Ok(())
}

/// The root of a port, signal or variable: the end of its chain of bindings.
pub fn root_of(g: &Grown, number: u32) -> Result<u32, NoMemory> {
    let mut at = number;
    for _ in 0..usize::MAX {
        match g.thing(at)?.sort {
            ThingSort::Port {
                bound: Some(bound),
                ..
            } => at = bound.to,
            _ => return Ok(at),
        }
    }
    Err(lost())
}
