//! The design.
ghost use Rattle.std.specs.Prelude.{◌≡◌, map, IfOk};
ghost use Rattle.scc_elab_grown.specs.Grown.{grown_of, vector_of as vector_in};
ghost use Rattle.scc_elab_spec.specs.Elaborated.{design_left};
ghost use Rattle.scc_plain_view.specs.Designs.{design_of as design_in, vector_of};

use crate::objects::{objects_of, targets_of};
use crate::paths::path_in;
use crate::processes::processes_of;
use crate::reached::reached_in;
use scc_base::{List, NoMemory, lost};
use scc_elab_design::{Design, VectorSize};
use scc_elab_grown::{Grown, VectorAt};
use std::alloc::Global;

fn vector_left(alloc: Global, v: &VectorAt) -> Result<VectorSize, NoMemory>
    ensures { IfOk result (λ s. vector_of s ≡ vector_in v.now) }
{
    match u32::try_from(v.size) {
        Ok(size) => Ok(VectorSize {
            path: path_in(alloc, v.path.as_slice())?,
            size,
        }),
        Err(_) => Err(lost()),
    }
}

fn vectors_of(g: &Grown) -> Result<List<VectorSize>, NoMemory>
    ensures { IfOk result (λ vs. map vector_of vs ≡ (grown_of g.now).vectors) }
{
    let mut list = List::new(g.alloc);
    for v in g.vectors.as_slice() {
        list.push(vector_left(g.alloc, v)?)?;
    }
    Ok(list)
}

/// The design that is left.
pub fn design_of(g: &Grown) -> Result<Design, NoMemory>
    ensures { IfOk result (λ d. design_in d ≡ design_left (grown_of g.now)) }
{
    let reached = reached_in(g)?;
    Ok(Design {
        objects: objects_of(g, &reached)?,
        processes: processes_of(g)?,
        targets: targets_of(g)?,
        vectors: vectors_of(g)?,
    })
}
