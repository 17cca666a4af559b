//! A look at a design: whether its ports have roots, its threads edges and resets.
ghost use Rattle.std.specs.Prelude.{◌≡◌};
ghost use Rattle.std.specs.List.{list_all};
ghost use Rattle.scc_elab.specs.Roots as roots;

use scc_base::PathPart;
use scc_elab_design::{Edge, Object, ObjectNode, Process, Reset, Sort};

fn is_index(part: PathPart) -> bool
    ensures { result ≡ roots.is_index part }
{
    match part {
        PathPart::Member(_) => false,
        PathPart::Index(_) => true,
    }
}

fn are_indices(parts: &[PathPart]) -> bool
    ensures { result ≡ list_all roots.is_index parts.now }
{
    parts.iter().all(|part| is_index(*part))
}

// Whether a path is that of a member of the top, or of an element of one.
fn is_top_part(path: &[PathPart]) -> bool
    ensures { result ≡ roots.is_top_part path.now }
{
    match path {
        [] => false,
        [first, rest @ ..] => !is_index(*first) && are_indices(rest),
    }
}

fn may_be_root(path: &[PathPart], node: ObjectNode) -> bool
    ensures { result ≡ roots.may_be_root path.now node }
{
    match node {
        ObjectNode::Module(_) => false,
        ObjectNode::Port { .. } => is_top_part(path),
        ObjectNode::Signal(_) => true,
        ObjectNode::Variable { .. } => false,
        ObjectNode::Pointer(_) => false,
    }
}

fn is_top_root(objects: &[Object], k: u32) -> bool
    ensures { result ≡ roots.is_top_root objects.now k }
{
    match objects.get(k as usize) {
        Some(o) => may_be_root(o.path.as_slice(), o.node),
        None => false,
    }
}

fn is_rooted_node(objects: &[Object], node: ObjectNode) -> bool
    ensures { result ≡ roots.is_rooted_node objects.now node }
{
    match node {
        ObjectNode::Module(_) => true,
        ObjectNode::Port { root, .. } => is_top_root(objects, root),
        ObjectNode::Signal(_) => true,
        ObjectNode::Variable { .. } => true,
        ObjectNode::Pointer(_) => true,
    }
}

/// Whether the root of each port is a signal or a port of the top.
pub fn are_rooted(objects: &[Object]) -> bool
    ensures { result ≡ roots.are_rooted objects.now }
{
    objects.iter().all(|o| is_rooted_node(objects, o.node))
}

fn fits_sort(sort: Sort, edge: Option<Edge>, reset: Option<Reset>) -> bool
    ensures { result ≡ roots.fits_sort sort edge reset }
{
    match sort {
        Sort::Method => reset.is_none(),
        Sort::Thread => !edge.is_none() && !reset.is_none(),
    }
}

/// Whether each thread has an edge and a reset, and no method a reset.
pub fn processes_fit(processes: &[Process]) -> bool
    ensures { result ≡ roots.processes_fit processes.now }
{
    processes.iter().all(|p| fits_sort(p.sort, p.edge, p.reset))
}
