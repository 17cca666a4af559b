//! Arrays and vectors, element by element.
use crate::make::make_one;
use scc_base::{NoMemory, PathPart, Place, Stop, push};
use scc_elab_state::grown::{Grown, VectorAt};
use scc_elab_state::spots::SpotId;
use scc_elab_state::work::{Each, Form, Stack, Work};
use scc_plain_tree::{Base, Plain};

/// The elements of an array from one on; where there are no sizes, what an element is.
pub fn next_element<'t>(
    sizes: &'t [u32],
    of: SpotId,
    next: u32,
    each: Each<'t>,
    p: &'t Plain,
    stack: &mut Stack<'t>,
    g: &mut Grown,
) -> Result<(), Stop> {
    match sizes {
        [] => make_each(each, of, p, stack, g),
        [size, rest @ ..] => {
            if next >= *size {
                return Ok(());
            }
            stack.then(Work::Elements {
                of,
                sizes,
                next: next.saturating_add(1),
                each,
            })?;
            let at = g.spots.part(of, PathPart::Index(next), None)?;
            Ok(stack.then(Work::Elements {
                of: at,
                sizes: rest,
                next: 0,
                each,
            })?)
        }
    }
}

fn make_each<'t>(
    each: Each<'t>,
    at: SpotId,
    p: &'t Plain,
    stack: &mut Stack<'t>,
    g: &mut Grown,
) -> Result<(), Stop> {
    match each.form {
        Form::Pointer => g.add_pointer(at, each.place),
        Form::Vector(size) => Ok(begin_vector(at, size, each.base, each.place, stack, g)?),
        Form::One => make_one(each.args, each.base, at, each.place, p, stack, g),
    }
}

/// Begins a vector. One without elements is not noted.
pub fn begin_vector<'t>(
    of: SpotId,
    size: u32,
    base: Base,
    place: Place,
    stack: &mut Stack<'t>,
    g: &mut Grown,
) -> Result<(), NoMemory> {
    if size == 0 {
        return Ok(());
    }
    push(&mut g.vectors, VectorAt { spot: of, size })?;
    stack.then(Work::Vector {
        of,
        next: 0,
        size,
        base,
        place,
    })
}

/// The elements of a vector from one on.
pub fn next_of_vector<'t>(
    of: SpotId,
    next: u32,
    size: u32,
    base: Base,
    place: Place,
    p: &'t Plain,
    stack: &mut Stack<'t>,
    g: &mut Grown,
) -> Result<(), Stop> {
    if next >= size {
        return Ok(());
    }
    stack.then(Work::Vector {
        of,
        next: next.saturating_add(1),
        size,
        base,
        place,
    })?;
    let at = g.spots.part(of, PathPart::Index(next), None)?;
    make_one(&[], base, at, place, p, stack, g)
}
