//! The vectors of a design, as a core has them.
ghost use Rattle.std.specs.Prelude.{◌≡◌, map, IfOk};
ghost use Rattle.scc_core_view.specs.Programs.{vector_of as core_vector};
ghost use Rattle.scc_inline_spec.specs.Inlined.{core_vectors};
ghost use Rattle.scc_plain_view.specs.Designs.{design_of, vector_of as vector_in};
ghost use Rattle.scc_inline_cells.specs.Views.{as_core};

use scc_base::{List, NoMemory, Path};
use scc_core::VectorSize2;
use scc_elab_design::{Design, VectorSize};
use std::alloc::Global;

/// The vectors of a design, as a core has them.
pub fn vectors(alloc: Global, d: &Design) -> Result<List<VectorSize2>, NoMemory>
    ensures { IfOk result (λ vs. map core_vector vs ≡ core_vectors (design_of d.now)) }
{
    let mut made = List::new(alloc);
    for v in d.vectors.as_slice() {
        made.push(vector(alloc, v)?)?;
    }
    Ok(made)
}

#[tactic(auto, using(crate::proofs::Views::path_is))]
fn vector(alloc: Global, v: &VectorSize) -> Result<VectorSize2, NoMemory>
    ensures { IfOk result (λ x. core_vector x ≡ as_core (vector_in v.now)) }
{
    Ok(VectorSize2 {
        path: Path::of(alloc, v.path.as_slice())?,
        size: v.size,
    })
}
