//! The variables of module objects under their names there.
use crate::plan::HierPlan;
use crate::ports::Port;
use crate::tree::{at, put};
use itoa::Buffer;
use scc_base::{NoMemory, Text, lost, push};
use scc_svtree::{Dir, SvModule, SvVar};
use std::alloc::Global;

/// A variable of a module as one of a module object.
#[derive(Drop)]
pub struct Named {
    /// Its number in the module.
    pub var: usize,
    pub name: Text,
    pub dir: Dir,
}

/// The name without a path and `$`; None where it doesn't begin so.
pub fn behind<'a>(path: &[u8], name: &'a [u8]) -> Option<&'a [u8]> {
    if path.len() >= name.len() {
        return None;
    }
    let (front, rest) = name.split_at(path.len());
    if front != path {
        return None;
    }
    match rest {
        [b'$', more @ ..] => Some(more),
        _ => None,
    }
}

fn var_at(m: &SvModule, var: usize) -> Result<&SvVar, NoMemory> {
    match m.vars.get(var) {
        Some(v) => Ok(v),
        None => Err(lost()),
    }
}

fn with_name(alloc: Global, var: usize, name: &[u8], dir: Dir) -> Result<Named, NoMemory> {
    Ok(Named {
        var,
        name: Text::from_bytes(alloc, name)?,
        dir,
    })
}

/// Those of the top: as in the module.
pub fn names_at_top(
    alloc: Global,
    m: &SvModule,
    declared: &[usize],
) -> Result<Vec<Named>, NoMemory> {
    let mut out = Vec::new(alloc);
    for var in declared {
        let v = var_at(m, *var)?;
        push(&mut out, with_name(alloc, *var, v.name.bytes(), v.dir)?)?;
    }
    Ok(out)
}

fn dir_of(port: Port) -> Dir {
    if port.output { Dir::Output } else { Dir::Input }
}

// A name for what isn't below a module object.
fn outer(alloc: Global, number: usize) -> Result<Text, NoMemory> {
    let mut text = Text::from_bytes(alloc, b"outer$$")?;
    let mut buffer = Buffer::new();
    text.push_bytes(buffer.format(number).as_bytes())?;
    Ok(text)
}

// What the names of ports are given by; a list beside it has for each variable 1 + its place among the ports that have none yet, or 0.
#[derive(Clone, Copy)]
struct Naming<'a> {
    m: &'a SvModule,
    plan: &'a HierPlan,
    ports: &'a [Port],
}

fn mark(ports: &[Port], places: &mut Vec<usize>) -> Result<(), NoMemory> {
    for (i, port) in ports.iter().enumerate() {
        put(places, port.var, i.saturating_add(1))?;
    }
    Ok(())
}

// The ports that the plan names, in its order; each once.
fn planned(
    alloc: Global,
    n: Naming<'_>,
    places: &mut Vec<usize>,
    out: &mut Vec<Named>,
) -> Result<(), NoMemory> {
    for p in n.plan.ports.as_slice() {
        let var = p.var.0 as usize;
        let place = at(places.as_slice(), var)?;
        if place > 0 {
            let Some(port) = n.ports.get(place - 1) else {
                return Err(lost());
            };
            push(out, with_name(alloc, var, p.name.bytes(), dir_of(*port))?)?;
            put(places, var, 0)?;
        }
    }
    Ok(())
}

// The others: by their names below the module object, or numbered.
fn others(
    alloc: Global,
    n: Naming<'_>,
    places: &mut Vec<usize>,
    out: &mut Vec<Named>,
) -> Result<(), NoMemory> {
    let mut count = 0usize;
    for port in n.ports {
        if at(places.as_slice(), port.var)? > 0 {
            let whole = var_at(n.m, port.var)?.name.bytes();
            let name = match behind(n.plan.path.bytes(), whole) {
                Some(name) => Text::from_bytes(alloc, name)?,
                None => {
                    let name = outer(alloc, count)?;
                    count = count.saturating_add(1);
                    name
                }
            };
            push(
                out,
                Named {
                    var: port.var,
                    name,
                    dir: dir_of(*port),
                },
            )?;
            put(places, port.var, 0)?;
        }
    }
    Ok(())
}

/// Those of a module object but the top: its ports, then what it declares. The list `places` has a 0 for each variable, before and
/// after.
pub fn names_in(
    alloc: Global,
    m: &SvModule,
    plan: &HierPlan,
    ports: &[Port],
    declared: &[usize],
    places: &mut Vec<usize>,
) -> Result<Vec<Named>, NoMemory> {
    let mut out = Vec::new(alloc);
    let naming = Naming { m, plan, ports };
    mark(ports, places)?;
    planned(alloc, naming, places, &mut out)?;
    others(alloc, naming, places, &mut out)?;
    for var in declared {
        let Some(name) = behind(plan.path.bytes(), var_at(m, *var)?.name.bytes()) else {
            return Err(lost());
        };
        push(&mut out, with_name(alloc, *var, name, Dir::Inner)?)?;
    }
    Ok(out)
}
