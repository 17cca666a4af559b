//! What cells are made from: homes of objects, members by their names, targets of pointers, and members that may move.
ghost use Rattle.std.specs.Prelude.{◌≡◌, ℕ, map, not, nat_eq, option_map, slice_get, IfOk, false, unwrap_or, Some};
ghost use Rattle.indexmap.specs.IndexMap.{get};
ghost use Rattle.scc_elab_spec.specs.Types.{is_direct as is_direct_in, member_at as member_there};
ghost use Rattle.scc_elab_spec.specs.Cells.{is_fixed as is_fixed_in, is_top, member_of as member_round, member_named as member_with, parent};
ghost use Rattle.scc_plain_view.specs.Designs.{design_of, part_of, path_of};
ghost use Rattle.scc_plain_view.specs.Plains.{plain_of};
ghost use Rattle.scc_inline_cells.specs.Known.{AreTables, IsKnown, Names, names_of as names_in, of_class};
ghost use Rattle.scc_inline_cells.specs.Spots.{place_of};
ghost use Rattle.scc_inline_cells.specs.Tables.{first_from};

use crate::homes::Homes;
use crate::locations::MemberOf;
use crate::moving::Moving;
use crate::tables::positions;
use indexmap::IndexMap;
use scc_base::{List, NoMemory, PathPart};
use scc_elab_design::Design;
use scc_plain_tree::{Plain, PlainClass, Reach};
use std::alloc::Global;

/// What the cells of a design are made from.
pub struct Known {
    pub homes: Homes,
    pub moving: Moving,
    /// Of each class its members' numbers by their names.
    pub members: List<IndexMap<u32, u32>>,
    /// Where the targets of pointers stand in their list, by the pointers' numbers.
    pub targets: IndexMap<u32, u32>,
}

impl Drop for Known {
    fn drop(self) {
        let Known {
            homes: _homes,
            moving: _moving,
            members: _members,
            targets: _targets,
        } = self;
    }
}

/// A program and its design, with what is known of them.
#[derive(Clone, Copy)]
pub struct Source<'t> {
    pub alloc: Global,
    pub plain: &'t Plain,
    pub design: &'t Design,
    pub known: &'t Known,
}

fn names_of(alloc: Global, class: &PlainClass) -> Result<List<u32>, NoMemory>
    ensures { IfOk result (λ ns. ns ≡ names_in class.now) }
{
    let mut names = List::new(alloc);
    for member in class.members.as_slice() {
        names.push(member.name.0)?;
    }
    Ok(names)
}

fn table_of(alloc: Global, class: &PlainClass) -> Result<IndexMap<u32, u32>, NoMemory>
    ensures { IfOk result (λ t. Names t class.now) }
{
    let names = names_of(alloc, class)?;
    positions(alloc, names.as_slice())
}

fn tables_of(alloc: Global, p: &Plain) -> Result<List<IndexMap<u32, u32>>, NoMemory>
    ensures { IfOk result (λ ts. AreTables ts p.now.classes) }
{
    let mut tables = List::new(alloc);
    for class in p.classes.as_slice() {
        tables.push(table_of(alloc, class)?)?;
    }
    Ok(tables)
}

fn targets_of(alloc: Global, d: &Design) -> Result<IndexMap<u32, u32>, NoMemory>
    ensures { IfOk result (λ m. (n : ℕ) → get nat_eq m n ≡ first_from n 0 (map (λ t. t.object) d.now.targets)) }
{
    let mut pointers = List::new(alloc);
    for target in d.targets.as_slice() {
        pointers.push(target.object)?;
    }
    positions(alloc, pointers.as_slice())
}

impl Known {
    /// What is known of a program and its design.
    pub fn of(alloc: Global, p: &Plain, d: &Design) -> Result<Known, NoMemory>
        ensures { IfOk result (λ k. IsKnown k p.now d.now) }
    {
        let homes = Homes::of(alloc, d)?;
        let moving = Moving::of(alloc, p)?;
        let members = tables_of(alloc, p)?;
        let targets = targets_of(alloc, d)?;
        Ok(Known {
            homes,
            moving,
            members,
            targets,
        })
    }
}

// The member of a class that a part of a path names.
fn member_named(s: &Source, class: u32, part: PathPart) -> Option<MemberOf>
    ensures { IsKnown s.now.known.now s.now.plain.now s.now.design.now → option_map place_of result ≡ option_map (of_class class) (member_with (plain_of s.now.plain.now) class (part_of part)) }
{
    match part {
        PathPart::Index(_) => None,
        PathPart::Member(name) => match s.known.members.get(class as usize) {
            Some(table) => match table.get(&name.0) {
                Some(member) => Some(MemberOf {
                    class,
                    member: *member,
                }),
                None => None,
            },
            None => None,
        },
    }
}

fn part_at(path: &[PathPart], i: usize) -> Option<PathPart>
    ensures { result ≡ slice_get path.now i }
{
    if i < path.len() { Some(path[i]) } else { None }
}

// The member of the innermost object round a path that the path goes through.
fn member_at(s: &Source, path: &[PathPart]) -> Option<MemberOf>
    ensures { IsKnown s.now.known.now s.now.plain.now s.now.design.now → option_map place_of result ≡ member_round (plain_of s.now.plain.now) (design_of s.now.design.now) (path_of path.now) }
{
    match s.known.homes.parent(path) {
        Some(home) => match part_at(path, home.at) {
            Some(part) => member_named(s, home.class, part),
            None => None,
        },
        None => None,
    }
}

fn is_direct(p: &Plain, m: MemberOf) -> bool
    ensures { result ≡ unwrap_or (option_map (λ k. is_direct_in k.shape.reach) (member_there (plain_of p.now) (Some m.class) m.member)) false }
{
    let Some(class) = p.classes.get(m.class as usize) else {
        return false;
    };
    match class.members.get(m.member as usize) {
        Some(member) => match member.shape.reach {
            Reach::Direct => true,
            Reach::Pointer => false,
            Reach::Reference => false,
        },
        None => false,
    }
}

/// Whether no process may change the variable at a path: it is a member itself, so no number made by `new`, and nothing moves it.
pub fn is_fixed(s: &Source, path: &[PathPart]) -> bool
    ensures { IsKnown s.now.known.now s.now.plain.now s.now.design.now → result ≡ is_fixed_in (plain_of s.now.plain.now) (design_of s.now.design.now) (path_of path.now) }
{
    match member_at(s, path) {
        Some(m) => is_direct(s.plain, m) && !s.known.moving.has(m),
        None => false,
    }
}

/// Whether a path stands below an object other than the top.
pub fn is_below(s: &Source, path: &[PathPart]) -> bool
    ensures { IsKnown s.now.known.now s.now.plain.now s.now.design.now → not result ≡ is_top (parent (design_of s.now.design.now) (path_of path.now)) }
{
    match s.known.homes.parent(path) {
        Some(home) => home.at > 0,
        None => false,
    }
}
