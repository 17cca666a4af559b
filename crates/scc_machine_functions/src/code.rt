//! The code of a program's functions.
use crate::coder::Coder;
use crate::layout::Layout;
use scc_base::{NoMemory, push};
use scc_machine_code::{Act, Maker};
use scc_plain_tree::{Plain, PlainFunction};
use std::alloc::Global;

/// The code of all functions in their order. No process runs a constructor, so none has code.
pub fn coded(alloc: Global, p: &Plain, layout: &Layout) -> Result<Maker, NoMemory> {
    let constructors = constructors_of(alloc, p)?;
    let mut maker = Maker::new(alloc);
    let mut number: usize = 0;
    for function in p.functions.as_slice() {
        maker = match constructors.get(number) {
            Some(true) => uncoded(maker)?,
            _ => with(alloc, p, layout, function, maker)?,
        };
        number = number.saturating_add(1);
    }
    Ok(maker)
}

fn with(
    alloc: Global,
    p: &Plain,
    layout: &Layout,
    function: &PlainFunction,
    maker: Maker,
) -> Result<Maker, NoMemory> {
    let mut coder = Coder::new(alloc, p, layout, function, maker)?;
    coder.body()?;
    coder.end()
}

fn uncoded(maker: Maker) -> Result<Maker, NoMemory> {
    let mut maker = maker;
    maker.begin()?;
    maker.emit(Act::Stick)?;
    maker.end(0, 0)?;
    Ok(maker)
}

// Whether each function is a constructor.
fn constructors_of(alloc: Global, p: &Plain) -> Result<Vec<bool>, NoMemory> {
    let mut list = Vec::new(alloc);
    for _function in p.functions.as_slice() {
        push(&mut list, false)?;
    }
    for class in p.classes.as_slice() {
        if let Some(number) = class.constructor {
            if let Some(is) = list.get_mut(number as usize) {
                *is = true;
            }
        }
    }
    Ok(list)
}
