//! Functions that are no constructors hold no statement of construction.
ghost use Rattle.std.specs.Prelude.{◌≡◌};
ghost use Rattle.scc_elab_spec.specs.Types.{is_constructor as is_constructor_in};
ghost use Rattle.scc_elab_spec.specs.After.{misplaced};
ghost use Rattle.scc_plain_view.specs.Plains.{plain_of, function_of};
ghost use Rattle.scc_elab_checks.specs.Open.{misplaced_in};
ghost use Rattle.scc_elab_ports.specs.Unbound.{Says};

use crate::statements::first_constructing;
use scc_base::{Code, Stop, lost};
use scc_plain_tree::{Plain, PlainFunction};
use std::alloc::Global;

// Whether the function of that number is its class's constructor.
fn is_constructor(p: &Plain, function: &PlainFunction, number: usize) -> bool
    ensures { result ≡ is_constructor_in (plain_of p.now) (function_of function.now) number }
{
    let Some(class) = function.class else {
        return false;
    };
    match p.classes.get(class as usize) {
        Some(of) => match of.constructor {
            Some(own) => own as usize == number,
            None => false,
        },
        None => false,
    }
}

// Refuses statements of construction in the function of that number, unless it is a constructor.
fn check_function(
    alloc: Global,
    p: &Plain,
    function: &PlainFunction,
    number: usize,
) -> Result<(), Stop>
    ensures { Says (misplaced_in (plain_of p.now) number (function_of function.now)) result }
{
    if is_constructor(p, function, number) {
        return Ok(());
    }
    match first_constructing(alloc, function.body.as_slice())? {
        // E404.
        Some(place) => Err(Stop::refused(Code::Constructor, place)),
        None => Ok(()),
    }
}

/// Refuses statements of construction in functions that are no constructors, as E404.
pub fn check_functions(alloc: Global, p: &Plain) -> Result<(), Stop>
    ensures { Says (misplaced (plain_of p.now)) result }
{
    for number in 0..p.functions.len() {
        let Some(function) = p.functions.get(number) else {
            return Err(Stop::from(lost()));
        };
        if let Err(stop) = check_function(alloc, p, function, number) {
            return Err(stop);
        }
    }
    Ok(())
}
