//! Single statements, but for those in them.
ghost use Rattle.std.specs.Prelude.{◌≡◌, IfOk, true, slice_get, length, nat_lt, ◌&&◌};
ghost use Rattle.scc_plain_look.specs.Heads.{is_whole_base};
ghost use Rattle.scc_plain_look.specs.Held.{around};
ghost use Rattle.scc_plain_look.specs.Held as held;
ghost use Rattle.scc_plain_look.specs.Steps as look;

use crate::declared::is_whole_base;
use crate::demand::demand;
use crate::expression::{look_place, look_pointer, look_signal, look_value, look_variable};
use crate::scope::Scope;
use scc_base::{NoMemory, lost};
use scc_plain_tree::{Base, PlainArg, PlainCount, PlainExpr, PlainLeft, PlainSense, PlainTarget};

/// A location, where there is one.
pub(crate) fn look_place_if(s: &Scope, left: &Option<PlainLeft>) -> Result<(), NoMemory>
    ensures whole { IfOk result (λ u. look.is_place_if look.is_any (around s.now.plain.now s.now.function.now s.now.calls.now) left.now ≡ true) }
{
    match left {
        Some(left) => look_place(s, left),
        None => Ok(()),
    }
}

/// A value, where there is one.
pub(crate) fn look_value_if(s: &Scope, e: &Option<PlainExpr>) -> Result<(), NoMemory>
    ensures whole { IfOk result (λ u. look.is_value_if (around s.now.plain.now s.now.function.now s.now.calls.now) e.now ≡ true) }
{
    match e {
        Some(e) => look_value(s, e),
        None => Ok(()),
    }
}

/// What a pointer or reference is given.
pub(crate) fn look_target(s: &Scope, t: &PlainTarget) -> Result<(), NoMemory>
    ensures whole { IfOk result (λ u. look.is_target (around s.now.plain.now s.now.function.now s.now.calls.now) t.now ≡ true) }
{
    match t {
        PlainTarget::Null => Ok(()),
        PlainTarget::Address(left) => look_place(s, left),
        PlainTarget::Copy(left) => look_place(s, left),
    }
}

fn look_argument(s: &Scope, a: &PlainArg) -> Result<(), NoMemory>
    ensures whole { IfOk result (λ u. look.is_argument (around s.now.plain.now s.now.function.now s.now.calls.now) a.now ≡ true) }
{
    match a {
        PlainArg::Value(e) => look_value(s, e),
        PlainArg::Target(t) => look_target(s, t),
        PlainArg::ModuleName => Ok(()),
    }
}

/// Arguments.
pub(crate) fn look_arguments(s: &Scope, list: &[PlainArg]) -> Result<(), NoMemory>
    ensures whole { IfOk result (λ u. look.are_arguments (around s.now.plain.now s.now.function.now s.now.calls.now) list.now ≡ true) }
{
    for a in list {
        look_argument(s, a)?;
    }
    Ok(())
}

fn look_sense(s: &Scope, sense: &PlainSense) -> Result<(), NoMemory>
    ensures whole { IfOk result (λ u. look.is_sense (around s.now.plain.now s.now.function.now s.now.calls.now) sense.now ≡ true) }
{
    look_place_if(s, &sense.signal)
}

/// An edge, where there is one.
pub(crate) fn look_sense_if(s: &Scope, sense: &Option<PlainSense>) -> Result<(), NoMemory>
    ensures whole { IfOk result (λ u. look.is_sense_if (around s.now.plain.now s.now.function.now s.now.calls.now) sense.now ≡ true) }
{
    match sense {
        Some(sense) => look_sense(s, sense),
        None => Ok(()),
    }
}

/// A list of sensitivities.
pub(crate) fn look_senses(s: &Scope, list: &[PlainSense]) -> Result<(), NoMemory>
    ensures whole { IfOk result (λ u. look.are_senses (around s.now.plain.now s.now.function.now s.now.calls.now) list.now ≡ true) }
{
    for sense in list {
        look_sense(s, sense)?;
    }
    Ok(())
}

fn look_count(s: &Scope, count: &PlainCount) -> Result<(), NoMemory>
    ensures whole { IfOk result (λ u. look.is_count (around s.now.plain.now s.now.function.now s.now.calls.now) count.now ≡ true) }
{
    demand((count.counter as usize) < s.function.locals.len())?;
    look_value(s, &count.start)?;
    look_value(s, &count.bound)?;
    look_value(s, &count.step)
}

/// How a loop counts, where it does.
pub(crate) fn look_count_if(s: &Scope, count: &Option<PlainCount>) -> Result<(), NoMemory>
    ensures whole { IfOk result (λ u. look.is_count_if (around s.now.plain.now s.now.function.now s.now.calls.now) count.now ≡ true) }
{
    match count {
        Some(count) => look_count(s, count),
        None => Ok(()),
    }
}

// The function that is called, by how many arguments it is given.
fn look_callee(s: &Scope, function: u32, args: usize) -> Result<(), NoMemory>
    ensures whole { IfOk result (λ u. look.takes args (slice_get s.now.plain.now.functions function) ≡ true) }
{
    match s.plain.functions.as_slice().get(function as usize) {
        Some(f) => demand(f.params as usize == args),
        None => Err(lost()),
    }
}

/// A call of a function, by its number among the calls.
pub(crate) fn look_call(
    s: &Scope,
    number: u32,
    function: u32,
    object: &Option<PlainLeft>,
    args: &[PlainArg],
) -> Result<(), NoMemory>
    ensures whole { IfOk result (λ u. look.is_call number function object.now args.now (around s.now.plain.now s.now.function.now s.now.calls.now) ≡ true) }
{
    demand(number as usize == s.calls.len())?;
    look_callee(s, function, args.len())?;
    look_place_if(s, object)?;
    look_arguments(s, args)
}

/// An assignment.
pub(crate) fn look_assign(s: &Scope, left: &PlainLeft, value: &PlainExpr) -> Result<(), NoMemory>
    ensures whole { IfOk result (λ u. (look.is_place held.is_number (around s.now.plain.now s.now.function.now s.now.calls.now) left.now && look.is_value (around s.now.plain.now s.now.function.now s.now.calls.now) value.now) ≡ true) }
{
    look_variable(s, left)?;
    look_value(s, value)
}

/// What a pointer or reference is given.
pub(crate) fn look_point(s: &Scope, left: &PlainLeft, target: &PlainTarget) -> Result<(), NoMemory>
    ensures whole { IfOk result (λ u. (look.is_place held.is_leading (around s.now.plain.now s.now.function.now s.now.calls.now) left.now && look.is_target (around s.now.plain.now s.now.function.now s.now.calls.now) target.now) ≡ true) }
{
    look_pointer(s, left)?;
    look_target(s, target)
}

/// A port or signal that is written.
pub(crate) fn look_write(s: &Scope, to: &PlainLeft, value: &PlainExpr) -> Result<(), NoMemory>
    ensures whole { IfOk result (λ u. (look.is_place held.is_port (around s.now.plain.now s.now.function.now s.now.calls.now) to.now && look.is_value (around s.now.plain.now s.now.function.now s.now.calls.now) value.now) ≡ true) }
{
    look_signal(s, to)?;
    look_value(s, value)
}

/// An object that is made.
pub(crate) fn look_make(
    s: &Scope,
    left: &PlainLeft,
    base: Base,
    args: &[PlainArg],
) -> Result<(), NoMemory>
    ensures whole { IfOk result (λ u. (look.is_place look.is_any (around s.now.plain.now s.now.function.now s.now.calls.now) left.now && (is_whole_base (length s.now.plain.now.classes) base && look.are_arguments (around s.now.plain.now s.now.function.now s.now.calls.now) args.now)) ≡ true) }
{
    look_place(s, left)?;
    demand(is_whole_base(s.plain.classes.len(), base))?;
    look_arguments(s, args)
}

/// A port that is bound.
pub(crate) fn look_bind(s: &Scope, port: &PlainLeft, to: &Option<PlainLeft>) -> Result<(), NoMemory>
    ensures whole { IfOk result (λ u. (look.is_place held.is_port (around s.now.plain.now s.now.function.now s.now.calls.now) port.now && look.is_place_if look.is_any (around s.now.plain.now s.now.function.now s.now.calls.now) to.now) ≡ true) }
{
    look_signal(s, port)?;
    look_place_if(s, to)
}

/// A process.
pub(crate) fn look_process(
    s: &Scope,
    function: u32,
    edge: &Option<PlainSense>,
) -> Result<(), NoMemory>
    ensures whole { IfOk result (λ u. (nat_lt function (length s.now.plain.now.functions) && look.is_sense_if (around s.now.plain.now s.now.function.now s.now.calls.now) edge.now) ≡ true) }
{
    demand((function as usize) < s.plain.functions.len())?;
    look_sense_if(s, edge)
}

/// A reset.
pub(crate) fn look_reset(
    s: &Scope,
    signal: &Option<PlainLeft>,
    level: &PlainExpr,
) -> Result<(), NoMemory>
    ensures whole { IfOk result (λ u. (look.is_place_if look.is_any (around s.now.plain.now s.now.function.now s.now.calls.now) signal.now && look.is_value (around s.now.plain.now s.now.function.now s.now.calls.now) level.now) ≡ true) }
{
    look_place_if(s, signal)?;
    look_value(s, level)
}
