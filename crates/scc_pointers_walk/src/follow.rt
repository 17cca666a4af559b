//! What a location follows, and where that leads.
ghost use Rattle.std.specs.Prelude.{◌≡◌, ◌<◌, Err, IfOk, IfSome, map, option_map};
ghost use Rattle.scc_base.specs.declared.refusal.Refusal.{Refusal};
ghost use Rattle.scc_base.specs.declared.refusal.Stop.TheVariants as stop;
ghost use Rattle.scc_core.specs.declared.expr.CoreLeft.{size-CoreLeft};
ghost use Rattle.scc_core.specs.Copies.{IsChain};
ghost use Rattle.scc_pointers_walk.specs.Led.{Gives};
ghost use Rattle.scc_pointers_walk.specs.Pointers.{IsOfPointers};
ghost use Rattle.scc_pointers_walk.specs.Walked.{leads_in, pointer_of, sure_of};

use crate::held::Resolver;
use crate::locate::pointed;
use scc_base::{Code, NoMemory, Place, Stop, push};
use scc_core::{CoreBase, CoreLeft};
use std::alloc::Global;

/// Outside targets no location is null by itself.
pub fn sure(place: Place, found: Option<CoreLeft>) -> Result<CoreLeft, Stop>
    ensures trees { Gives (λ l. l) result (sure_of place found) }
    ensures stop { (q : Refusal) → result ≡ Err (stop.Refused q) → IsOfPointers q }
{
    match found {
        Some(left) => Ok(left),
        None => Err(Stop::refused(Code::EmptyPointer, place)),
    }
}

/// The pointer by which a location is reached, and whether it or one before is soft.
pub fn followed(left: &CoreLeft, soft: bool) -> Option<(&CoreLeft, bool)>
    ensures size { IfSome result (λ x. size-CoreLeft x.0.now < size-CoreLeft left.now) }
    ensures pointer { option_map (λ x. (x.0.now, x.1)) result ≡ pointer_of (left.now, soft) }
{
    match &left.base {
        CoreBase::Follow { pointer, soft: own } => Some((pointer.get(), soft || *own)),
        CoreBase::Cell(_) | CoreBase::Prefix(_) | CoreBase::Null => None,
    }
}

/// A location and the pointers by which it is reached, from the outermost on.
pub fn pointers(
    alloc: Global,
    left: &CoreLeft,
    soft: bool,
) -> Result<Vec<(&CoreLeft, bool)>, NoMemory>
    ensures { IfOk result (λ v. IsChain pointer_of (left.now, soft) (map (λ x. (x.0.now, x.1)) v.items)) }
{
    let mut found = Vec::new(alloc);
    let mut here = (left, soft);
    push(&mut found, here)?;
    loop {
        match followed(here.0, here.1) {
            Some(pointer) => {
                here = pointer;
                push(&mut found, here)?;
            }
            None => return Ok(found),
        }
    }
}

/// Where the pointer leads that stands at a location.
pub fn leads(r: &Resolver<'_>, at: Option<CoreLeft>) -> Result<Option<CoreLeft>, Stop>
    ensures trees { Gives (λ o. o) result (leads_in r.now at) }
    ensures stop { (q : Refusal) → result ≡ Err (stop.Refused q) → IsOfPointers q }
{
    match at {
        Some(left) => pointed(r, &left),
        None => Ok(None),
    }
}
