//! Ports without a binding.
ghost use Rattle.std.specs.Prelude.{◌≡◌, length, slice_get};
ghost use Rattle.std.specs.Option.{option_copied};
ghost use Rattle.scc_elab_grown.specs.Grown.{grown_of};
ghost use Rattle.scc_elab_grown.specs.Objects.{node_of, object_of};
ghost use Rattle.scc_elab_ports.specs.Unbound.{Says, unbound_at};
ghost use Rattle.scc_elab_spec.specs.After.{is_port as is_port_node, unbound};

use crate::binding::is_top;
use crate::home::home_of;
use scc_base::{Code, Stop, lost};
use scc_elab_grown::{Grown, Node, Object};

fn is_port(node: Node) -> bool
    ensures { result ≡ is_port_node (node_of node) }
{
    match node {
        Node::Port { .. } => true,
        Node::Class(_) => false,
        Node::Signal(_) => false,
        Node::Variable(_) => false,
        Node::Pointer => false,
    }
}

fn check_port(g: &Grown, number: u32, object: &Object) -> Result<(), Stop>
    ensures { Says (unbound_at (grown_of g.now) number (object_of object.now)) result }
{
    let is_open = is_port(object.node) && g.bounds.of(number).is_none();
    if !is_open {
        return Ok(());
    }
    let home = home_of(g, object.path.as_slice())?;
    if is_top(&home) {
        Ok(())
    } else {
        Err(Stop::refused(Code::Unbound, object.place))
    }
}

// The object of a number, and how many there are.
fn object_at(g: &Grown, number: u32) -> Option<&Object>
    ensures { option_copied result ≡ slice_get g.now.objects number }
{
    g.objects.as_slice().get(number as usize)
}

fn count(g: &Grown) -> u32
    ensures { result ≡ length g.now.objects }
{
    g.objects.as_slice().len() as u32
}

/// Refuses the first port below the top that is not bound, as E401.
pub fn check_ports(g: &Grown) -> Result<(), Stop>
    ensures { Says (unbound (grown_of g.now)) result }
{
    for number in 0..count(g) {
        let Some(object) = object_at(g, number) else {
            return Err(Stop::from(lost()));
        };
        if let Err(stop) = check_port(g, number, object) {
            return Err(stop);
        }
    }
    Ok(())
}
