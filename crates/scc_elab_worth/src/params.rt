//! Parameters of constructors are locals of the object that is made.
ghost use Rattle.std.specs.Prelude.{◌≡◌, [], is_some, map, option_map, IfOk, OnOk};
ghost use Rattle.scc_elab_spec.specs.Grown.{nothing, with_store};
ghost use Rattle.scc_elab_spec.specs.Made.{is_name as is_named, param_given, params_given};
ghost use Rattle.scc_elab_spec.specs.Types.{is_direct as goes_direct};
ghost use Rattle.scc_elab_spec.specs.Worth.{direct_kind, is_inside};
ghost use Rattle.scc_elab_store.specs.Locations.{location_of};
ghost use Rattle.scc_elab_store.specs.Stores.{store_of};
ghost use Rattle.scc_elab_worth.specs.Arguments.{given_in};
ghost use Rattle.scc_plain_view.specs.Codes.{base_of};
ghost use Rattle.scc_plain_view.specs.Plains.{member_of, reach_of};

use crate::args::Given;
use scc_base::NoMemory;
use scc_elab_store::{LocalOf, Location, Store};
use scc_plain_tree::{Base, PlainMember, Reach};
use std::alloc::Global;

// Whether a variable is no array.
fn is_one(m: &PlainMember) -> bool
    ensures { result ≡ is_inside (member_of m.now).shape.sizes [] }
{
    match m.shape.sizes.as_slice() {
        [] => true,
        [_first, _rest @ ..] => false,
    }
}

fn is_direct(reach: Reach) -> bool
    ensures { result ≡ goes_direct (reach_of reach) }
{
    match reach {
        Reach::Direct => true,
        Reach::Pointer | Reach::Reference => false,
    }
}

// Whether a variable is a number itself.
fn is_number(m: &PlainMember) -> bool
    ensures { result ≡ is_some (direct_kind (member_of m.now)) }
{
    if !is_direct(m.shape.reach) {
        return false;
    }
    match m.shape.base {
        Base::Number(_) => true,
        Base::Class(_) | Base::Input(_) | Base::Output(_) | Base::Signal(_) | Base::ModuleName =>
            false,
    }
}

fn is_name(base: Base) -> bool
    ensures { result ≡ is_named (base_of base) }
{
    match base {
        Base::ModuleName => true,
        Base::Number(_) | Base::Class(_) | Base::Input(_) | Base::Output(_) | Base::Signal(_) => {
            false
        }
    }
}

fn copy_of(alloc: Global, to: &Option<Location>) -> Result<Option<Location>, NoMemory>
    ensures { IfOk result (λ t. option_map location_of t ≡ option_map location_of to.now) }
{
    match to {
        Some(to) => Ok(Some(to.copied(alloc)?)),
        None => Ok(None),
    }
}

/// Gives a parameter of an object's constructor, by its number and declaration, its argument: a number takes a word, a pointer or
/// reference a target, an array none.
pub fn give(
    alloc: Global,
    store: &mut Store,
    of: LocalOf,
    m: &PlainMember,
    x: &Given,
) -> Result<(), NoMemory>
    ensures { OnOk result (with_store nothing (store_of store.new) ≡ param_given (with_store nothing (store_of store.old)) of.object of.local (member_of m.now) (given_in x.now)) }
{
    match x {
        Given::Word(word) => {
            if is_one(m) && is_number(m) {
                store.put_word(Location::local(alloc, of), *word)
            } else {
                Ok(())
            }
        }
        Given::Leads(to) => {
            if is_one(m) && !is_direct(m.shape.reach) {
                store.put_target(Location::local(alloc, of), copy_of(alloc, to)?)
            } else {
                Ok(())
            }
        }
    }
}

/// Gives the first so many locals of an object's constructor its arguments in order; a module's name takes none.
pub fn pass(
    alloc: Global,
    store: &mut Store,
    object: u32,
    params: u32,
    locals: &[PlainMember],
    list: &[Given],
) -> Result<(), NoMemory>
    ensures { OnOk result (with_store nothing (store_of store.new) ≡ params_given object 0 params (map member_of locals.now) (map given_in list.now) (with_store nothing (store_of store.old))) }
{
    let mut next = 0usize;
    for local in 0..params {
        let Some(m) = locals.get(local as usize) else {
            return Ok(());
        };
        let Some(x) = list.get(next) else {
            return Ok(());
        };
        if is_name(m.shape.base) {
            continue;
        }
        let of = LocalOf { object, local };
        if let Err(no_memory) = give(alloc, store, of, m, x) {
            return Err(no_memory);
        }
        next += 1;
    }
    Ok(())
}
