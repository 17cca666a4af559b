//! Where the module objects of a design stand.
use crate::variables::Variables;
use scc_base::{List, Names, NoMemory, PathPart, Text, lost, push};
use scc_core::{CellName, Path2};
use scc_drive_stages::Front;
use scc_elab_design::{Object, ObjectNode};
use scc_hier::{HierPlan, HierPort, Paths};
use scc_lower::sv_name;
use scc_svtree::{Dir, SvModule, VarId};
use std::alloc::Global;

/// The module objects, and which of them the process of each block of the module belongs to.
#[derive(Drop)]
pub struct Plans {
    pub plans: Vec<HierPlan>,
    /// For each block the number of a plan.
    pub homes: Vec<u32>,
}

/// Those of a design and its module: the top, then the others in construction order. A port has its name below the module object, and
/// is the variable that its signal or the top's port is, where the module has it.
pub fn plans_of(
    alloc: Global,
    names: &Names,
    front: &Front,
    m: &SvModule,
) -> Result<Plans, NoMemory> {
    let texts = texts_of(alloc, names, front.design.objects.as_slice())?;
    let paths = paths_of(alloc, front, texts.as_slice())?;
    let mut plans = Vec::new(alloc);
    push(&mut plans, top_plan(alloc, m)?)?;
    module_plans(alloc, front, texts.as_slice(), &paths, &mut plans)?;
    add_ports(alloc, front, m, texts.as_slice(), &paths, &mut plans)?;
    let homes = homes_of(alloc, front, m, texts.as_slice(), &paths)?;
    Ok(Plans { plans, homes })
}

// The path of each object as a name in the emitted text.
fn texts_of(alloc: Global, names: &Names, objects: &[Object]) -> Result<Vec<Text>, NoMemory> {
    let mut texts = Vec::new(alloc);
    for object in objects {
        push(&mut texts, text_of(alloc, names, object.path.as_slice())?)?;
    }
    Ok(texts)
}

fn text_of(alloc: Global, names: &Names, path: &[PathPart]) -> Result<Text, NoMemory> {
    let name = CellName {
        path: Path2::of(alloc, path)?,
        local: None,
        indices: List::new(alloc),
    };
    sv_name(alloc, names, &name)
}

// Whether an object is a module below the top. Objects of other classes are parts of the module object around them.
fn is_module(front: &Front, object: &Object) -> Result<bool, NoMemory> {
    let ObjectNode::Module(class) = object.node else {
        return Ok(false);
    };
    match front.plain.classes.get(class as usize) {
        Some(class) => Ok(class.module && object.path.len() > 0),
        None => Err(lost()),
    }
}

fn paths_of(alloc: Global, front: &Front, texts: &[Text]) -> Result<Paths, NoMemory> {
    let mut paths = Paths::new(alloc);
    for (object, text) in front.design.objects.as_slice().iter().zip(texts.iter()) {
        if is_module(front, object)? {
            paths.add(text.bytes())?;
        }
    }
    Ok(paths)
}

// The top's plan: its ports are those of the module.
fn top_plan(alloc: Global, m: &SvModule) -> Result<HierPlan, NoMemory> {
    let mut ports = List::new(alloc);
    for (number, v) in m.vars.as_slice().iter().enumerate() {
        if v.dir != Dir::Inner {
            ports.push(HierPort {
                name: Text::from_bytes(alloc, v.name.bytes())?,
                var: VarId(numbered(number)?),
            })?;
        }
    }
    Ok(HierPlan {
        path: Text::new(alloc),
        parent: 0,
        ports,
    })
}

fn numbered(n: usize) -> Result<u32, NoMemory> {
    match u32::try_from(n) {
        Ok(number) => Ok(number),
        Err(_) => Err(lost()),
    }
}

fn module_plans(
    alloc: Global,
    front: &Front,
    texts: &[Text],
    paths: &Paths,
    plans: &mut Vec<HierPlan>,
) -> Result<(), NoMemory> {
    for (object, text) in front.design.objects.as_slice().iter().zip(texts.iter()) {
        if is_module(front, object)? {
            let plan = HierPlan {
                path: Text::from_bytes(alloc, text.bytes())?,
                parent: numbered(paths.owner(text.bytes()))?,
                ports: List::new(alloc),
            };
            push(plans, plan)?;
        }
    }
    Ok(())
}

fn add_ports(
    alloc: Global,
    front: &Front,
    m: &SvModule,
    texts: &[Text],
    paths: &Paths,
    plans: &mut Vec<HierPlan>,
) -> Result<(), NoMemory> {
    let variables = Variables::of(alloc, m.vars.as_slice())?;
    for (object, text) in front.design.objects.as_slice().iter().zip(texts.iter()) {
        let ObjectNode::Port { root, .. } = object.node else {
            continue;
        };
        let owner = paths.owner(text.bytes());
        let Some(root) = texts.get(root as usize) else {
            return Err(lost());
        };
        if owner > 0 {
            if let Some(var) = variables.find(root.bytes()) {
                add_port(alloc, plans, owner, text.bytes(), var)?;
            }
        }
    }
    Ok(())
}

// Adds a port of this path.
fn add_port(
    alloc: Global,
    plans: &mut Vec<HierPlan>,
    owner: usize,
    path: &[u8],
    var: VarId,
) -> Result<(), NoMemory> {
    let Some(plan) = plans.get_mut(owner) else {
        return Err(lost());
    };
    let around = plan.path.bytes().len();
    if around >= path.len() {
        return Err(lost());
    }
    let name = Text::from_bytes(alloc, &path[around + 1..])?;
    plan.ports.push(HierPort { name, var })
}

// The plan of each block: the block of outputs that no process writes is the top's, one of a combinational method is first, then two
// of each process with an edge.
fn homes_of(
    alloc: Global,
    front: &Front,
    m: &SvModule,
    texts: &[Text],
    paths: &Paths,
) -> Result<Vec<u32>, NoMemory> {
    let mut found = Vec::new(alloc);
    for p in front.order.as_slice() {
        push(&mut found, home_of(front, texts, paths, *p as usize)?)?;
    }
    for (p, process) in front.core.processes.as_slice().iter().enumerate() {
        if process.edge.is_some() {
            let home = home_of(front, texts, paths, p)?;
            push(&mut found, home)?;
            push(&mut found, home)?;
        }
    }
    let mut homes = Vec::new(alloc);
    if found.len() < m.blocks.len() {
        push(&mut homes, 0)?;
    }
    homes.append(&mut found)?;
    if homes.len() == m.blocks.len() {
        Ok(homes)
    } else {
        Err(lost())
    }
}

// The plan of the module object that a process belongs to.
fn home_of(front: &Front, texts: &[Text], paths: &Paths, p: usize) -> Result<u32, NoMemory> {
    let Some(process) = front.design.processes.get(p) else {
        return Err(lost());
    };
    let Some(text) = texts.get(process.object as usize) else {
        return Err(lost());
    };
    match paths.find(text.bytes()) {
        Some(home) => numbered(home),
        None => numbered(paths.owner(text.bytes())),
    }
}
