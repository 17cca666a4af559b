//! What is known of the names of a module.
ghost use Rattle.std.specs.Prelude.{◌≡◌, map, not, ◌&&◌, IfOk, OnOk};
ghost use Rattle.scc_svread_check.specs.Drivers as drivers;
ghost use Rattle.scc_svread_check.specs.Mentioned.{each};

use crate::mentioned::{items_assign, items_read};
use crate::number::high_of;
use crate::text_set::TextSet;
use scc_base::NoMemory;
use scc_svread_grammar::{RawBlock, RawItem, RawModule, RawVar};
use scc_svtree::Dir;
use std::alloc::Global;

/// What is known before the blocks are looked through.
#[derive(Drop)]
pub struct Facts {
    pub inputs: TextSet,
    /// The inputs of one bit.
    pub levels: TextSet,
    /// What some expression reads.
    pub read: TextSet,
    /// What some block assigns.
    pub driven: TextSet,
    /// The clocks of all blocks.
    pub clocks: TextSet,
}

/// What the blocks before a place assign, and their clocks at rising and at falling edges.
#[derive(Drop)]
pub struct Taken {
    pub names: TextSet,
    pub rising: TextSet,
    pub falling: TextSet,
}

/// Whether a variable is an input.
pub fn is_input(dir: Dir) -> bool
    ensures { result ≡ drivers.is_input dir }
{
    match dir {
        Dir::Input => true,
        Dir::Output => false,
        Dir::Inner => false,
    }
}

fn inputs(found: &mut TextSet, list: &[RawVar]) -> Result<(), NoMemory>
    ensures { OnOk result (found.new ≡ each (map drivers.input_of list.now) found.old) }
{
    for v in list {
        found.add_if(is_input(v.dir), v.name.bytes())?;
    }
    Ok(())
}

fn levels(found: &mut TextSet, list: &[RawVar]) -> Result<(), NoMemory>
    ensures { OnOk result (found.new ≡ each (map drivers.level_of list.now) found.old) }
{
    for v in list {
        found.add_if(is_input(v.dir) && high_of(v) == 0, v.name.bytes())?;
    }
    Ok(())
}

fn clock(found: &mut TextSet, i: &RawItem) -> Result<(), NoMemory>
    ensures { OnOk result (found.new ≡ drivers.item_clock i.now found.old) }
{
    match i {
        RawItem::Var(_) => Ok(()),
        RawItem::Block(RawBlock::Comb(_)) => Ok(()),
        RawItem::Block(RawBlock::Edge { clock, .. }) => found.add(clock.bytes()),
    }
}

fn clocks(found: &mut TextSet, list: &[RawItem]) -> Result<(), NoMemory>
    ensures { OnOk result (found.new ≡ each (map drivers.item_clock list.now) found.old) }
{
    for i in list {
        clock(found, i)?;
    }
    Ok(())
}

impl Facts {
    /// Of no names.
    pub fn none(alloc: Global) -> Facts
        ensures { result ≡ drivers.no_facts }
    {
        Facts {
            inputs: TextSet::new(alloc),
            levels: TextSet::new(alloc),
            read: TextSet::new(alloc),
            driven: TextSet::new(alloc),
            clocks: TextSet::new(alloc),
        }
    }

    /// Adds what is known of a module's names.
    pub fn add(&mut self, m: &RawModule) -> Result<(), NoMemory>
        ensures { OnOk result (self.new ≡ drivers.facts_after m.now self.old) }
    {
        inputs(&mut self.inputs, m.ports.as_slice())?;
        levels(&mut self.levels, m.ports.as_slice())?;
        items_read(&mut self.read, m.items.as_slice())?;
        items_assign(&mut self.driven, m.items.as_slice())?;
        clocks(&mut self.clocks, m.items.as_slice())
    }
}

impl Taken {
    /// Before the first block.
    pub fn none(alloc: Global) -> Taken
        ensures { result ≡ drivers.nothing }
    {
        Taken {
            names: TextSet::new(alloc),
            rising: TextSet::new(alloc),
            falling: TextSet::new(alloc),
        }
    }
}
