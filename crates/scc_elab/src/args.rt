//! Arguments of constructors and targets of pointers.
use crate::walk::{SOFT, location_of, value_of};
use crate::worth::stored;
use scc_base::{NoMemory, Stop, lost};
use scc_elab_state::grown::Grown;
use scc_elab_state::numbers::{pointer_at, put_number, put_pointer};
use scc_elab_state::program::{function_of, local_in};
use scc_elab_state::spots::{LocalOf, SpotId};
use scc_plain_tree::{Base, Plain, PlainArg, PlainTarget};

/// Where a target leads; None for null.
pub fn target_of(target: &PlainTarget, p: &Plain, g: &mut Grown) -> Result<Option<SpotId>, Stop> {
    match target {
        PlainTarget::Null => Ok(None),
        PlainTarget::Address(left) => Ok(location_of(left, SOFT, p, g)?.at),
        PlainTarget::Copy(left) => match location_of(left, SOFT, p, g)?.at {
            Some(at) => Ok(pointer_at(g, at)?),
            None => Ok(None),
        },
    }
}

/// Gives the parameters of an object's constructor their arguments, which are worked out in the constructor that runs. A
/// module's name is passed over on both sides.
pub fn pass_all(
    args: &[PlainArg],
    function: u32,
    object: u32,
    p: &Plain,
    g: &mut Grown,
) -> Result<(), Stop> {
    let mut next = 0;
    for local in 0..function_of(p, function)?.params {
        let base = local_in(p, function, local)?.shape.base;
        if base == Base::ModuleName {
            continue;
        }
        let (arg, behind) = next_of(args, next)?;
        next = behind;
        let to = g.spots.local(LocalOf {
            object,
            function,
            local,
        })?;
        pass(arg, base, to, p, g)?;
    }
    Ok(())
}

// The first argument from one on that is no module's name, and the number of the one behind it.
fn next_of(args: &[PlainArg], from: usize) -> Result<(&PlainArg, usize), NoMemory> {
    for at in from..args.len() {
        match args.get(at) {
            Some(PlainArg::ModuleName) => {}
            Some(arg) => return Ok((arg, at.saturating_add(1))),
            None => return Err(lost()),
        }
    }
    Err(lost())
}

fn pass(arg: &PlainArg, base: Base, to: SpotId, p: &Plain, g: &mut Grown) -> Result<(), Stop> {
    match (arg, base) {
        (PlainArg::Value(e), Base::Number(kind)) => {
            let value = value_of(e, p, g)?;
            Ok(put_number(g, to, stored(value, kind)?)?)
        }
        (PlainArg::Target(target), _) => {
            let leads = target_of(target, p, g)?;
            Ok(put_pointer(g, to, leads, p)?)
        }
        _ => Err(Stop::from(lost())),
    }
}

/// How many elements the arguments of a vector ask for: the last number, read as unsigned; more than any program may have where
/// it is 2^32 or more.
pub fn size_of(args: &[PlainArg], p: &Plain, g: &mut Grown) -> Result<u32, Stop> {
    let mut size = 0;
    for arg in args {
        if let PlainArg::Value(e) = arg {
            let bits = value_of(e, p, g)?.word().bits;
            size = u32::try_from(bits).unwrap_or(u32::MAX);
        }
    }
    Ok(size)
}
