//! The indices of the elements of arrays.
ghost use Rattle.std.specs.Prelude.{◌≡◌, [], ◌∷◌, ◌++◌, map, flat_map, IfOk, OnOk};
ghost use Rattle.std.specs.List.{range_with_len};
ghost use Rattle.scc_elab_spec.specs.Bodies.{elements as elements_in};

use scc_base::{List, NoMemory};
use std::alloc::Global;

/// The indices of all elements of an array of such sizes, the last running fastest.
pub fn elements(alloc: Global, sizes: &[u32]) -> Result<List<List<u32>>, NoMemory>
    ensures { IfOk result (λ all. all ≡ elements_in sizes.now) }
{
    match sizes {
        [] => whole(alloc),
        [size, rest @ ..] => {
            let inner = elements(alloc, rest)?;
            spread(alloc, *size, &inner)
        }
    }
}

// What is no array has one element, itself.
fn whole(alloc: Global) -> Result<List<List<u32>>, NoMemory>
    ensures { IfOk result (λ all. all ≡ [] ∷ []) }
{
    let mut all = List::new(alloc);
    all.push(List::new(alloc))?;
    Ok(all)
}

fn spread(alloc: Global, size: u32, inner: &List<List<u32>>) -> Result<List<List<u32>>, NoMemory>
    ensures { IfOk result (λ all. all ≡ flat_map (λ i. map (λ is. i ∷ is) inner.now) (range_with_len 0 size)) }
{
    let mut all = List::new(alloc);
    for i in 0..size {
        add_behind(alloc, i, inner, &mut all)?;
    }
    Ok(all)
}

fn add_behind(
    alloc: Global,
    i: u32,
    inner: &List<List<u32>>,
    all: &mut List<List<u32>>,
) -> Result<(), NoMemory>
    ensures { OnOk result (all.new ≡ all.old ++ map (λ is. i ∷ is) inner.now) }
{
    for rest in inner.as_slice() {
        all.push(behind(alloc, i, rest)?)?;
    }
    Ok(())
}

fn behind(alloc: Global, i: u32, rest: &List<u32>) -> Result<List<u32>, NoMemory>
    ensures { IfOk result (λ all. all ≡ i ∷ rest.now) }
{
    let mut all = List::new(alloc);
    all.push(i)?;
    for index in rest.as_slice() {
        all.push(*index)?;
    }
    Ok(all)
}

/// The same indices again.
pub fn copied(alloc: Global, indices: &List<u32>) -> Result<List<u32>, NoMemory>
    ensures { IfOk result (λ all. all ≡ indices.now) }
{
    let mut all = List::new(alloc);
    for index in indices.as_slice() {
        all.push(*index)?;
    }
    Ok(all)
}
