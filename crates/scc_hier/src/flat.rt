//! Modules with instances as one module.
use crate::block::{ids_in, renumbered_block};
use scc_base::{List, NoMemory, Text, lost, push};
use scc_hier_text::{Hier, HierModule, Instance};
use scc_svtree::{Dir, SvBlock, SvModule, SvVar, VarId};
use std::alloc::Global;

// An instance that is still to be gone through.
#[derive(Drop)]
struct Visit<'a> {
    module: u32,
    name: &'a Text,
    /// How many bytes of the path are those of the module object around it.
    around: usize,
    /// The numbers of the variables that its ports are.
    wires: Vec<u32>,
}

// What has been gone through.
#[derive(Drop)]
struct Flat {
    vars: List<SvVar>,
    blocks: List<SvBlock>,
    /// The path of the instance that is gone through, with a `$` after it.
    path: Vec<u8>,
}

impl Flat {
    fn declare(&mut self, alloc: Global, v: &SvVar) -> Result<u32, NoMemory> {
        let Ok(id) = u32::try_from(self.vars.len()) else {
            return Err(lost());
        };
        let mut name = Text::from_bytes(alloc, self.path.as_slice())?;
        name.push_bytes(v.name.bytes())?;
        self.vars.push(SvVar {
            name,
            width: v.width,
            dir: v.dir,
        })?;
        Ok(id)
    }

    // The numbers of the variables of the top.
    fn top(&mut self, alloc: Global, vars: &[SvVar]) -> Result<Vec<u32>, NoMemory> {
        let mut ids = Vec::new(alloc);
        for v in vars {
            push(&mut ids, self.declare(alloc, v)?)?;
        }
        Ok(ids)
    }

    // The numbers of the variables of an instance: a port is what it is connected to.
    fn inner(
        &mut self,
        alloc: Global,
        vars: &[SvVar],
        wires: &[u32],
    ) -> Result<Vec<u32>, NoMemory> {
        let mut ids = Vec::new(alloc);
        let mut rest = wires.iter();
        for v in vars {
            let id = if v.dir == Dir::Inner {
                self.declare(alloc, v)?
            } else {
                match rest.next() {
                    Some(wire) => *wire,
                    None => return Err(lost()),
                }
            };
            push(&mut ids, id)?;
        }
        Ok(ids)
    }

    fn add_blocks(&mut self, alloc: Global, m: &HierModule, ids: &[u32]) -> Result<(), NoMemory> {
        for b in m.blocks.as_slice() {
            self.blocks.push(renumbered_block(alloc, b, ids_in(ids))?)?;
        }
        Ok(())
    }

    fn enter(&mut self, around: usize, name: &[u8]) -> Result<(), NoMemory> {
        self.path.truncate(around);
        self.path.extend_from_slice(name)?;
        push(&mut self.path, b'$')
    }
}

fn wires_of(alloc: Global, wires: &[VarId], ids: &[u32]) -> Result<Vec<u32>, NoMemory> {
    let mut out = Vec::new(alloc);
    for wire in wires {
        match ids.get(wire.0 as usize) {
            Some(id) => push(&mut out, *id)?,
            None => return Err(lost()),
        }
    }
    Ok(out)
}

// The instances of a module are gone through next, the first of them first.
fn put_off<'a>(
    alloc: Global,
    list: &'a [Instance],
    around: usize,
    ids: &[u32],
    visits: &mut Vec<Visit<'a>>,
) -> Result<(), NoMemory> {
    for i in list.iter().rev() {
        let wires = wires_of(alloc, i.wires.as_slice(), ids)?;
        push(
            visits,
            Visit {
                module: i.module,
                name: &i.name,
                around,
                wires,
            },
        )?;
    }
    Ok(())
}

fn module_at(modules: &[HierModule], number: u32) -> Result<&HierModule, NoMemory> {
    match modules.get(number as usize) {
        Some(m) => Ok(m),
        None => Err(lost()),
    }
}

/// Modules with instances as the one module that they are together: a variable that a module declares in an instance at a path is
/// named by that path, `$` and its name; a port of an instance is the variable that it is connected to; the blocks are those of all
/// instances. It stands in the order of a walk of the instances from the top, each followed at once by those in it.
///
/// The only error is want of memory. No module leads to itself by its instances, and the modules are such that `read_hier` accepts
/// their text.
pub fn flatten(alloc: Global, h: &Hier) -> Result<SvModule, NoMemory> {
    let modules = h.modules.as_slice();
    let top = module_at(modules, 0)?;
    let mut flat = Flat {
        vars: List::new(alloc),
        blocks: List::new(alloc),
        path: Vec::new(alloc),
    };
    let ids = flat.top(alloc, top.vars.as_slice())?;
    flat.add_blocks(alloc, top, ids.as_slice())?;
    let mut visits = Vec::new(alloc);
    put_off(
        alloc,
        top.instances.as_slice(),
        0,
        ids.as_slice(),
        &mut visits,
    )?;
    for _ in 0..usize::MAX {
        let Some(next) = visits.pop() else {
            let Flat { vars, blocks, .. } = flat;
            let name = Text::from_bytes(alloc, top.name.bytes())?;
            return Ok(SvModule { name, vars, blocks });
        };
        let m = module_at(modules, next.module)?;
        flat.enter(next.around, next.name.bytes())?;
        let ids = flat.inner(alloc, m.vars.as_slice(), next.wires.as_slice())?;
        flat.add_blocks(alloc, m, ids.as_slice())?;
        let around = flat.path.len();
        put_off(
            alloc,
            m.instances.as_slice(),
            around,
            ids.as_slice(),
            &mut visits,
        )?;
    }
    Err(lost())
}
