//! What a statement comes to by itself, by what the functions that it calls come to.
ghost use Rattle.std.specs.Prelude.{◌≡◌, ◌*◌, ℕ, length, map, IfOk, Some, slice_get};
ghost use Rattle.scc_elab_spec.specs.Bodies.{elements as elements_in};
ghost use Rattle.scc_inline_size_laws.specs.Counts.{call_height, call_size, declared_size, level, many};
ghost use Rattle.scc_plain_view.specs.Plains.{function_of, plain_of, shape_of};
ghost use Rattle.scc_plain_view.specs.Terms.{argument_of};
ghost use Rattle.scc_inline_facts.specs.Extents.{Grows, reaching};
ghost use Rattle.scc_inline_facts.specs.Known.{Agrees};
ghost use Rattle.scc_inline_facts.specs.Parted.{calls_height, calls_size, declares_size, own_height, own_size};

use crate::extent::{Extent, STATEMENTS};
use crate::facts::Facts;
use crate::parts::{Called, Parts, passed, results};
use scc_base::{NoMemory, lost};
use scc_plain_tree::{Plain, PlainFunction, PlainMember};
use std::alloc::Global;

/// A function that is looked at, and what is known of others.
#[derive(Clone, Copy)]
pub struct Site<'a> {
    pub alloc: Global,
    pub known: &'a [Option<Facts>],
    pub plain: &'a Plain,
    pub function: &'a PlainFunction,
}

/// An extent with what a statement at a depth comes to by itself.
pub fn with_own(s: &Site, parts: &Parts, depth: u32, before: Extent) -> Result<Extent, NoMemory>
    ensures { (sizes heights : ℕ → ℕ) → Agrees s.now.known.now sizes heights → IfOk result (λ e. Grows before e (own_size sizes (plain_of s.now.plain.now) (function_of s.now.function.now) parts.now) (reaching depth (own_height heights (plain_of s.now.plain.now) (function_of s.now.function.now) parts.now))) }
{
    let own = before.plus(parts.own, depth);
    let declared = with_declared(s, parts.declares, depth, own);
    with_called(s, parts.calls, depth, declared)
}

fn with_declared(s: &Site, local: Option<u32>, depth: u32, before: Extent) -> Extent
    ensures { Grows before result (declares_size (function_of s.now.function.now) local) (reaching depth (level (declares_size (function_of s.now.function.now) local))) }
{
    match local {
        Some(local) => before.plus(elements(s.function, local), depth),
        None => before.plus(0, depth),
    }
}

fn with_called(
    s: &Site,
    call: Option<Called>,
    depth: u32,
    before: Extent,
) -> Result<Extent, NoMemory>
    ensures { (sizes heights : ℕ → ℕ) → Agrees s.now.known.now sizes heights → IfOk result (λ e. Grows before e (calls_size sizes (plain_of s.now.plain.now) call.entry) (reaching depth (calls_height heights (plain_of s.now.plain.now) call.entry))) }
{
    match call {
        Some(call) => with_call(s, &call, depth, before),
        None => Ok(before.plus(0, depth)),
    }
}

// A call's copy is a block with its result, its parameters and its body.
fn with_call(s: &Site, call: &Called, depth: u32, before: Extent) -> Result<Extent, NoMemory>
    ensures { (sizes heights : ℕ → ℕ) → Agrees s.now.known.now sizes heights → IfOk result (λ e. Grows before e (call_size sizes (plain_of s.now.plain.now) call.now.function (map argument_of call.now.args.now)) (reaching depth (call_height heights (plain_of s.now.plain.now) call.now.function (map argument_of call.now.args.now)))) }
{
    let Some(callee) = s.plain.functions.get(call.function as usize) else {
        return Err(lost());
    };
    let body = known_extent(s.known, call.function)?;
    let given = passed(call.args)?;
    let block = before.plus(1, depth);
    let inner = depth.saturating_add(1);
    let result = block.plus(results(callee.result), inner);
    Ok(result.plus(given, inner).with(body, inner))
}

// What a function's body comes to, where that is known.
fn known_extent(known: &[Option<Facts>], function: u32) -> Result<Extent, NoMemory>
    ensures { (sizes heights : ℕ → ℕ) → Agrees known.now sizes heights → IfOk result (λ e. (e.size ≡ sizes function) × (e.height ≡ heights function)) }
{
    let facts = facts_at(known, function)?;
    Ok(facts.extent)
}

/// What is known of a function.
pub fn facts_at(known: &[Option<Facts>], function: u32) -> Result<&Facts, NoMemory>
    ensures { IfOk result (λ x. slice_get known.now function ≡ Some (Some x.now)) }
{
    match known.get(function as usize) {
        Some(slot) => told(slot),
        None => Err(lost()),
    }
}

fn told(slot: &Option<Facts>) -> Result<&Facts, NoMemory>
    ensures { IfOk result (λ x. slot.now ≡ Some x.now) }
{
    match slot {
        Some(facts) => Ok(facts),
        None => Err(lost()),
    }
}

// How many elements a local has, up to the limit of statements and one more; none where there is no such local.
fn elements(function: &PlainFunction, local: u32) -> u64
    ensures { many result ≡ many (declared_size (slice_get (function_of function.now).locals local)) }
{
    match function.locals.get(local as usize) {
        Some(member) => all_elements(member),
        None => 0,
    }
}

fn all_elements(member: &PlainMember) -> u64
    ensures { many result ≡ many (length (elements_in (shape_of member.now.shape).sizes)) }
{
    product(member.shape.sizes.as_slice())
}

fn product(sizes: &[u32]) -> u64
    ensures { many result ≡ many (length (elements_in sizes.now)) }
{
    let mut count = 1u64;
    for size in sizes {
        count = times(count, *size);
    }
    count
}

fn times(count: u64, size: u32) -> u64
    ensures { result ≡ many (count * size) }
{
    count.saturating_mul(u64::from(size)).min(STATEMENTS + 1)
}
