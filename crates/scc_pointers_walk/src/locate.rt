//! Locations without pointers: a name as far as members and static indices go, then the parts behind it.
ghost use Rattle.std.specs.Prelude.{◌≡◌, Err, false, IfOk, map};
ghost use Rattle.scc_base.specs.declared.refusal.Refusal.{Refusal};
ghost use Rattle.scc_base.specs.declared.refusal.Stop.TheVariants as stop;
ghost use Rattle.std.specs.List.{list_any};
ghost use Rattle.std.specs.Option.{option_copied};
ghost use Rattle.scc_core.specs.Elements.{step_at};
ghost use Rattle.scc_core.specs.Known.{facts_in};
ghost use Rattle.scc_core.specs.Names.{walk};
ghost use Rattle.scc_core.specs.Numbers.{small};
ghost use Rattle.scc_core.specs.Statics.{part_in};
ghost use Rattle.scc_pointers_walk.specs.Led.{Gives};
ghost use Rattle.scc_pointers_walk.specs.Located.{aimed_in, as_name, cell_base, cell_name, chooses, element_in, grown, inside, is_chosen, is_one_of, is_open, longer, longer_base, looked_in, member_in, name_at, named_base, pointed_in, pointer_in, root_in, seen, spot_at, takes_index, takes_member, whole_cell, whole_in, with_more};
ghost use Rattle.scc_pointers_walk.specs.Pointers.{IsOfPointers};

use crate::held::Resolver;
use crate::sizes::size_of;
use scc_base::{Code, Name, NoMemory, PathPart, Place, Stop};
use scc_bits::Value;
use scc_core::{CellName, CellSort, CoreBase, CoreExpr, CoreLeft, CorePart, NameStep, Spot};
use std::mem::replace;

// ---- names

/// The name with which a location begins.
pub fn name<'t>(r: &Resolver<'t>, base: &'t CoreBase) -> Option<&'t CellName>
    ensures { option_copied result ≡ name_at r.now base.now }
{
    match base {
        CoreBase::Cell(cell) => cell_name(r, *cell),
        CoreBase::Prefix(name) => Some(name),
        CoreBase::Follow { .. } => None,
        CoreBase::Null => None,
    }
}

fn cell_name<'t>(r: &Resolver<'t>, cell: u32) -> Option<&'t CellName>
    ensures { option_copied result ≡ cell_name r.now cell }
{
    let of = r.known.cells().get(cell as usize)?;
    Some(&of.name)
}

/// The number of an element, where it is from 0 to 2^32 - 1.
pub fn small(v: Value) -> Option<u32>
    ensures { result ≡ small v }
{
    v.small()
}

// The step of a part; None for an index that isn't static, or is no number of an element.
fn step(r: &Resolver<'_>, part: &CorePart) -> Option<NameStep>
    ensures { result ≡ step_at false (part_in (facts_in r.now.known) part.now) }
{
    match part {
        CorePart::Member(name) => Some(NameStep::Member(*name)),
        CorePart::Index { at, .. } => {
            let at = r.known.value(at)?;
            Some(NameStep::Index(small(at)?))
        }
    }
}

/// What a location names.
pub fn spot(r: &Resolver<'_>, base: &CoreBase, parts: &[CorePart]) -> Option<Spot>
    ensures { result ≡ spot_at r.now base.now parts.now }
{
    let at = r.places.name(name(r, base)?)?;
    behind(r, at, parts)
}

fn behind(r: &Resolver<'_>, at: Spot, parts: &[CorePart]) -> Option<Spot>
    ensures { result ≡ walk r.now.places.now at (map (step_at false) (seen r.now parts.now)) }
{
    let mut at = at;
    for part in parts {
        at = r.places.step(at, step(r, part)?)?;
    }
    Some(at)
}

fn is_open_part(r: &Resolver<'_>, part: &CorePart) -> bool
    ensures { result ≡ is_open (part_in (facts_in r.now.known) part.now) }
{
    match part {
        CorePart::Member(_) => false,
        CorePart::Index { at, .. } => r.known.value(at).is_none(),
    }
}

/// Whether an index isn't static.
pub fn is_open(r: &Resolver<'_>, parts: &[CorePart]) -> bool
    ensures { result ≡ list_any is_open (seen r.now parts.now) }
{
    for part in parts {
        if is_open_part(r, part) {
            return true;
        }
    }
    false
}

/// Whether a member stands behind an index that isn't static.
pub fn chooses_object(r: &Resolver<'_>, parts: &[CorePart]) -> bool
    ensures { result ≡ chooses false (seen r.now parts.now) }
{
    let mut chosen = false;
    for part in parts {
        match part {
            CorePart::Member(_) => {
                if chosen {
                    return true;
                }
            }
            CorePart::Index { at, .. } => chosen = chosen || r.known.value(at).is_none(),
        }
    }
    false
}

// ---- locations with one more part

// A cell of which parts are named is its name.
fn named_base(r: &Resolver<'_>, base: CoreBase) -> Result<CoreBase, NoMemory>
    ensures { IfOk result (λ b. b ≡ named_base r.now base) }
{
    match base {
        CoreBase::Cell(cell) => match cell_name(r, cell) {
            Some(name) => Ok(CoreBase::Prefix(name.copied(r.alloc)?)),
            None => Ok(CoreBase::Cell(cell)),
        },
        CoreBase::Prefix(name) => Ok(CoreBase::Prefix(name)),
        CoreBase::Follow { pointer, soft } => Ok(CoreBase::Follow { pointer, soft }),
        CoreBase::Null => Ok(CoreBase::Null),
    }
}

fn as_name(r: &Resolver<'_>, left: CoreLeft) -> Result<CoreLeft, NoMemory>
    ensures { IfOk result (λ l. l ≡ as_name r.now left) }
{
    let mut made = left;
    if made.parts.is_empty() {
        let base = replace(&mut made.base, CoreBase::Null);
        made.base = named_base(r, base)?;
    }
    Ok(made)
}

// A name with one more part: behind a local an index of it.
fn longer(name: CellName, part: PathPart) -> Result<CellName, NoMemory>
    ensures { IfOk result (λ n. n ≡ longer name part) }
{
    let mut name = name;
    match (name.local, part) {
        (Some(_), PathPart::Index(i)) => name.indices.push(i)?,
        (Some(_), PathPart::Member(m)) => name.path.push(PathPart::Member(m))?,
        (None, part) => name.path.push(part)?,
    }
    Ok(name)
}

fn longer_base(base: CoreBase, part: PathPart) -> Result<CoreBase, NoMemory>
    ensures { IfOk result (λ b. b ≡ longer_base base part) }
{
    match base {
        CoreBase::Prefix(name) => Ok(CoreBase::Prefix(longer(name, part)?)),
        CoreBase::Cell(cell) => Ok(CoreBase::Cell(cell)),
        CoreBase::Follow { pointer, soft } => Ok(CoreBase::Follow { pointer, soft }),
        CoreBase::Null => Ok(CoreBase::Null),
    }
}

fn grown(left: CoreLeft, part: PathPart) -> Result<CoreLeft, NoMemory>
    ensures { IfOk result (λ l. l ≡ grown left part) }
{
    let mut made = left;
    let base = replace(&mut made.base, CoreBase::Null);
    made.base = longer_base(base, part)?;
    Ok(made)
}

fn with_more(left: CoreLeft, part: CorePart) -> Result<CoreLeft, NoMemory>
    ensures { IfOk result (λ l. l ≡ with_more left part) }
{
    let mut made = left;
    made.parts.push(part)?;
    Ok(made)
}

// Whether a location is a name alone, behind which a member may stand, or an index.
fn takes_member(left: &CoreLeft) -> bool
    ensures { result ≡ takes_member left.now }
{
    match &left.base {
        CoreBase::Prefix(name) => left.parts.is_empty() && name.local.is_none(),
        CoreBase::Cell(_) => false,
        CoreBase::Follow { .. } => false,
        CoreBase::Null => false,
    }
}

fn takes_index(left: &CoreLeft) -> bool
    ensures { result ≡ takes_index left.now }
{
    match &left.base {
        CoreBase::Prefix(_) => left.parts.is_empty(),
        CoreBase::Cell(_) => false,
        CoreBase::Follow { .. } => false,
        CoreBase::Null => false,
    }
}

/// A member of what stands at a location.
pub fn member(r: &Resolver<'_>, of: CoreLeft, name: Name) -> Result<CoreLeft, NoMemory>
    ensures { IfOk result (λ l. l ≡ member_in r.now of name) }
{
    let made = as_name(r, of)?;
    if takes_member(&made) {
        grown(made, PathPart::Member(name))
    } else {
        with_more(made, CorePart::Member(name))
    }
}

// The number of an element that is inside.
fn inside(r: &Resolver<'_>, at: &CoreExpr, size: u32) -> Option<u32>
    ensures { result ≡ inside r.now at.now size }
{
    let v = r.known.value(at)?;
    let i = small(v)?;
    if i < size { Some(i) } else { None }
}

/// An element of what stands at a location; the index has no pointers.
pub fn element(
    r: &Resolver<'_>,
    of: CoreLeft,
    size: u32,
    at: CoreExpr,
) -> Result<CoreLeft, NoMemory>
    ensures { IfOk result (λ l. l ≡ element_in r.now of size at) }
{
    let made = as_name(r, of)?;
    let size = size_of(r, &made, size);
    if takes_index(&made) {
        match inside(r, &at, size) {
            Some(i) => grown(made, PathPart::Index(i)),
            None => with_more(made, CorePart::Index { size, at }),
        }
    } else {
        with_more(made, CorePart::Index { size, at })
    }
}

// ---- whole locations

fn root(r: &Resolver<'_>, cell: u32) -> u32
    ensures { result ≡ root_in r.now cell }
{
    r.places.root(r.known.cells(), cell)
}

// The root of the cell that a base is by itself.
fn whole_cell(r: &Resolver<'_>, base: &CoreBase) -> Option<u32>
    ensures { result ≡ whole_cell r.now base.now }
{
    match base {
        CoreBase::Cell(cell) => Some(root(r, *cell)),
        CoreBase::Prefix(name) => {
            let at = r.places.name(name)?;
            let cell = r.places.cell(at)?;
            Some(root(r, cell))
        }
        CoreBase::Follow { .. } => None,
        CoreBase::Null => None,
    }
}

// The cell of a pointer stands by its name.
fn cell_base(r: &Resolver<'_>, cell: u32) -> Result<CoreBase, NoMemory>
    ensures { IfOk result (λ b. b ≡ cell_base r.now cell) }
{
    match r.known.cells().get(cell as usize) {
        Some(of) => match &of.sort {
            CellSort::Pointer(_) => Ok(CoreBase::Prefix(of.name.copied(r.alloc)?)),
            _ => Ok(CoreBase::Cell(cell)),
        },
        None => Ok(CoreBase::Cell(cell)),
    }
}

fn whole(r: &Resolver<'_>, left: CoreLeft) -> Result<CoreLeft, NoMemory>
    ensures { IfOk result (λ l. l ≡ whole_in r.now left) }
{
    let mut made = left;
    if made.parts.is_empty()
        && let Some(cell) = whole_cell(r, &made.base)
    {
        made.base = cell_base(r, cell)?;
    }
    Ok(made)
}

/// A location as it stands in a resolved body: a whole name is its cell. An object that an index chooses which isn't static is refused.
pub fn looked(r: &Resolver<'_>, left: CoreLeft) -> Result<CoreLeft, Stop>
    ensures trees { Gives (λ l. l) result (looked_in r.now left) }
    ensures stop { (q : Refusal) → result ≡ Err (stop.Refused q) → IsOfPointers q }
{
    if is_chosen(r, &left) {
        return Err(Stop::refused(Code::StaticIndex, left.place));
    }
    Ok(whole(r, left)?)
}

// Whether a location chooses an object by an index that isn't static.
fn is_chosen(r: &Resolver<'_>, left: &CoreLeft) -> bool
    ensures { result ≡ is_chosen r.now left.now }
{
    match name(r, &left.base) {
        Some(_) => chooses_object(r, left.parts.as_slice()),
        None => false,
    }
}

// Whether some index of a location isn't static.
fn is_one_of(r: &Resolver<'_>, left: &CoreLeft, other: bool) -> bool
    ensures { result ≡ is_one_of r.now left.now other }
{
    match name(r, &left.base) {
        Some(_) => is_open(r, left.parts.as_slice()),
        None => other,
    }
}

// The pointer or reference of that name.
fn pointer(r: &Resolver<'_>, left: &CoreLeft) -> Option<u32>
    ensures { result ≡ pointer_in r.now left.now }
{
    let at = spot(r, &left.base, left.parts.as_slice())?;
    r.places.pointer(at)
}

/// Where the pointer leads that stands at a location without pointers; None for null. One that an index chooses which isn't static is
/// refused.
pub fn pointed(r: &Resolver<'_>, left: &CoreLeft) -> Result<Option<CoreLeft>, Stop>
    ensures trees { Gives (λ o. o) result (pointed_in r.now left.now) }
    ensures stop { (q : Refusal) → result ≡ Err (stop.Refused q) → IsOfPointers q }
{
    if is_one_of(r, left, false) {
        return Err(Stop::refused(Code::StaticIndex, left.place));
    }
    match pointer(r, left) {
        Some(cell) => Ok(r.target(cell, left.place)?),
        None => Ok(None),
    }
}

/// A target: every index of it is static.
pub fn aimed(r: &Resolver<'_>, left: CoreLeft, place: Place) -> Result<CoreLeft, Stop>
    ensures trees { Gives (λ l. l) result (aimed_in r.now left place) }
    ensures stop { (q : Refusal) → result ≡ Err (stop.Refused q) → IsOfPointers q }
{
    if is_chosen(r, &left) {
        return Err(Stop::refused(Code::StaticIndex, left.place));
    }
    if is_one_of(r, &left, true) {
        return Err(Stop::refused(Code::StaticIndex, place));
    }
    Ok(left)
}
