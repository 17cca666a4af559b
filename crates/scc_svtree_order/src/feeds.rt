//! Which combinational blocks feed which.
ghost use Rattle.std.specs.Prelude.{◌≡◌, ◌++◌, ◌∷◌, [], length, IfOk, OnOk};
ghost use Rattle.scc_svtree_order.specs.Fed as fed;

use crate::rows::{Rows, has};
use crate::var_lists::{all_assigned, all_read};
use scc_base::{List, NoMemory};
use scc_svtree::SvBlock;
use std::alloc::Global;

// Notes that block k assigns variables.
fn own(owners: &mut Rows, k: usize, list: &[u32]) -> Result<(), NoMemory>
    ensures { OnOk result (owners.new ≡ fed.owned_by k list.now owners.old) }
{
    for v in list {
        owners.note(*v, k)?;
    }
    Ok(())
}

// For each variable the blocks that assign it.
fn owners_of(alloc: Global, blocks: &[SvBlock]) -> Result<Rows, NoMemory>
    ensures { IfOk result (λ o. o ≡ fed.owners_of blocks.now) }
{
    let mut owners = Rows::new(alloc);
    let mut k = 0;
    for b in blocks {
        if let SvBlock::Comb(list) = b {
            own(
                &mut owners,
                k,
                all_assigned(alloc, list.as_slice())?.as_slice(),
            )?;
            k += 1;
        }
    }
    Ok(owners)
}

fn add_all(found: &mut List<usize>, list: &[usize]) -> Result<(), NoMemory>
    ensures { OnOk result (found.new ≡ found.old ++ list.now) }
{
    for x in list {
        found.push(*x)?;
    }
    Ok(())
}

// Adds the owners of a variable that block k reads.
fn add_feeding(found: &mut List<usize>, k: usize, owners: &[usize]) -> Result<(), NoMemory>
    ensures { OnOk result (found.new ≡ found.old ++ fed.feeding k owners.now) }
{
    if has(owners, k) {
        return Ok(());
    }
    add_all(found, owners)
}

// The blocks that feed block k, which reads these variables.
fn needs_of(alloc: Global, owners: &Rows, k: usize, list: &[u32]) -> Result<List<usize>, NoMemory>
    ensures { IfOk result (λ l. l ≡ fed.needs_of owners.now k list.now) }
{
    let mut found = List::new(alloc);
    for v in list {
        add_feeding(&mut found, k, owners.row(*v as usize))?;
    }
    Ok(found)
}

fn add_needs(alloc: Global, g: &mut Rows, owners: &Rows, list: &[u32]) -> Result<(), NoMemory>
    ensures { OnOk result (g.new ≡ g.old ++ fed.needs_of owners.now (length g.old) list.now ∷ []) }
{
    let row = needs_of(alloc, owners, g.len(), list)?;
    g.push(row)
}

/// For each combinational block those that feed it, each as often as a variable of it is read.
pub fn graph_of(alloc: Global, blocks: &[SvBlock]) -> Result<Rows, NoMemory>
    ensures { IfOk result (λ g. g ≡ fed.graph_of blocks.now) }
{
    let owners = owners_of(alloc, blocks)?;
    let mut g = Rows::new(alloc);
    for b in blocks {
        if let SvBlock::Comb(list) = b {
            add_needs(
                alloc,
                &mut g,
                &owners,
                all_read(alloc, list.as_slice())?.as_slice(),
            )?;
        }
    }
    Ok(g)
}
