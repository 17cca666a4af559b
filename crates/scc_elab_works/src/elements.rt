//! The elements of arrays.
ghost use Rattle.std.specs.Prelude.{◌≡◌, ◌++◌, ◌∷◌, [], map, IfOk, OnOk};
ghost use Rattle.scc_semantics.specs.Location.{Element};
ghost use Rattle.scc_elab_works.specs.Paths.{paths_of};
ghost use Rattle.scc_elab_spec.specs.Made.{elements_at};
ghost use Rattle.scc_elab_store.specs.Locations.{part_of};

use scc_base::{NoMemory, push};
use scc_elab_store::Part;
use std::alloc::Global;

/// The path of an element.
pub struct ElementPath {
    pub parts: Vec<Part>,
}

impl Drop for ElementPath {
    fn drop(self) {
        let ElementPath { parts: _parts } = self;
    }
}

/// The path of an element of what stands at a path.
pub fn element_of(alloc: Global, path: &[Part], index: u128) -> Result<Vec<Part>, NoMemory>
    ensures { IfOk result (λ v. map part_of v.items ≡ map part_of path.now ++ Element index ∷ []) }
{
    let mut parts = Vec::from_slice(alloc, path)?;
    push(&mut parts, Part::Element(index))?;
    Ok(parts)
}

fn add_one(alloc: Global, list: &mut Vec<ElementPath>, path: &[Part]) -> Result<(), NoMemory>
    ensures { OnOk result (paths_of list.new.items ≡ paths_of list.old.items ++ map part_of path.now ∷ []) }
{
    let parts = Vec::from_slice(alloc, path)?;
    push(list, ElementPath { parts })
}

fn add_elements(
    alloc: Global,
    list: &mut Vec<ElementPath>,
    path: &[Part],
    sizes: &[u32],
) -> Result<(), NoMemory>
    ensures { OnOk result (paths_of list.new.items ≡ paths_of list.old.items ++ elements_at (map part_of path.now) sizes.now) }
{
    match sizes {
        [] => add_one(alloc, list, path),
        [size, rest @ ..] => {
            for i in 0..*size {
                let part = element_of(alloc, path, u128::from(i))?;
                add_elements(alloc, list, part.as_slice(), rest)?;
            }
            Ok(())
        }
    }
}

/// The paths of all elements of an array of these sizes, the last index running fastest.
pub fn elements_of(
    alloc: Global,
    path: &[Part],
    sizes: &[u32],
) -> Result<Vec<ElementPath>, NoMemory>
    ensures { IfOk result (λ v. paths_of v.items ≡ elements_at (map part_of path.now) sizes.now) }
{
    let mut list = Vec::new(alloc);
    add_elements(alloc, &mut list, path, sizes)?;
    Ok(list)
}
