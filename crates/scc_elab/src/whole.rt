//! A look at a design: whether its numbers name what is there.
ghost use Rattle.std.specs.Prelude.{◌≡◌, length};
ghost use Rattle.std.specs.List.{list_all};
ghost use Rattle.scc_elab_design.specs.Whole as whole;

use scc_elab_design::{Design, Edge, Object, ObjectNode, Process, Reset, Target};

// Whether a node is a signal, or a port that is its own root.
fn is_own_root(k: u32, node: ObjectNode) -> bool
    ensures { result ≡ whole.is_own_root k node }
{
    match node {
        ObjectNode::Module(_) => false,
        ObjectNode::Port { root, .. } => root == k,
        ObjectNode::Signal(_) => true,
        ObjectNode::Variable { .. } => false,
        ObjectNode::Pointer(_) => false,
    }
}

fn is_root(objects: &[Object], k: u32) -> bool
    ensures { result ≡ whole.is_root objects.now k }
{
    match objects.get(k as usize) {
        Some(o) => is_own_root(k, o.node),
        None => false,
    }
}

fn is_whole_node(classes: usize, objects: &[Object], node: ObjectNode) -> bool
    ensures { result ≡ whole.is_whole_node classes objects.now node }
{
    match node {
        ObjectNode::Module(class) => (class as usize) < classes,
        ObjectNode::Port { root, .. } => is_root(objects, root),
        ObjectNode::Signal(_) => true,
        ObjectNode::Variable { .. } => true,
        ObjectNode::Pointer(None) => true,
        ObjectNode::Pointer(Some(to)) => (to as usize) < objects.len(),
    }
}

fn is_whole_object(classes: usize, objects: &[Object], o: &Object) -> bool
    ensures { result ≡ whole.is_whole_object classes objects.now o.now }
{
    o.path.len() < 65 && is_whole_node(classes, objects, o.node)
}

fn are_whole_objects(classes: usize, objects: &[Object]) -> bool
    ensures { result ≡ list_all (whole.is_whole_object classes objects.now) objects.now }
{
    objects.iter().all(|o| is_whole_object(classes, objects, o))
}

fn is_module_node(node: ObjectNode) -> bool
    ensures { result ≡ whole.is_module_node node }
{
    match node {
        ObjectNode::Module(_) => true,
        ObjectNode::Port { .. } => false,
        ObjectNode::Signal(_) => false,
        ObjectNode::Variable { .. } => false,
        ObjectNode::Pointer(_) => false,
    }
}

fn is_module(objects: &[Object], k: u32) -> bool
    ensures { result ≡ whole.is_module objects.now k }
{
    match objects.get(k as usize) {
        Some(o) => is_module_node(o.node),
        None => false,
    }
}

fn are_roots(objects: &[Object], list: &[u32]) -> bool
    ensures { result ≡ list_all (whole.is_root objects.now) list.now }
{
    list.iter().all(|k| is_root(objects, *k))
}

fn is_whole_edge(objects: &[Object], edge: Option<Edge>) -> bool
    ensures { result ≡ whole.is_whole_edge objects.now edge }
{
    match edge {
        Some(e) => is_root(objects, e.root),
        None => true,
    }
}

fn is_whole_reset(objects: &[Object], reset: Option<Reset>) -> bool
    ensures { result ≡ whole.is_whole_reset objects.now reset }
{
    match reset {
        Some(r) => is_root(objects, r.root),
        None => true,
    }
}

fn is_whole_process(functions: usize, objects: &[Object], p: &Process) -> bool
    ensures { result ≡ whole.is_whole_process functions objects.now p.now }
{
    (p.function as usize) < functions
        && is_module(objects, p.object)
        && are_roots(objects, p.senses.as_slice())
        && is_whole_edge(objects, p.edge)
        && is_whole_reset(objects, p.reset)
}

fn are_whole_processes(functions: usize, objects: &[Object], list: &[Process]) -> bool
    ensures { result ≡ list_all (whole.is_whole_process functions objects.now) list.now }
{
    list.iter().all(|p| is_whole_process(functions, objects, p))
}

fn is_whole_target(objects: &[Object], t: &Target) -> bool
    ensures { result ≡ whole.is_whole_target objects.now t.now }
{
    (t.object as usize) < objects.len()
}

fn are_whole_targets(objects: &[Object], list: &[Target]) -> bool
    ensures { result ≡ list_all (whole.is_whole_target objects.now) list.now }
{
    list.iter().all(|t| is_whole_target(objects, t))
}

/// Whether a design's numbers name what is there, in a program of so many classes and functions, and it keeps the limits on
/// objects and paths.
pub fn is_whole_design(classes: usize, functions: usize, d: &Design) -> bool
    ensures { result ≡ whole.is_whole_design classes functions d.now }
{
    let objects = d.objects.as_slice();
    objects.len() <= 65_536
        && are_whole_objects(classes, objects)
        && are_whole_processes(functions, objects, d.processes.as_slice())
        && are_whole_targets(objects, d.targets.as_slice())
}
