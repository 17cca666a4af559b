//! The clocks of a module, and those that a mask chooses.
ghost use Rattle.std.specs.Prelude.{◌≡◌, ◌<◌, ◌^◌, ◌%◌, ◌++◌, nat_eq, length, option_map, IfOk, OnOk};
ghost use Rattle.scc_svrun.specs.Runs as runs;
ghost use Rattle.scc_svtree.specs.Steps as steps;
ghost use Rattle.scc_svrun_trace.specs.Clocked as clocked;
ghost use Rattle.scc_svrun_trace.specs.Ports as ports;

use scc_base::{List, NoMemory, Text};
use scc_bits::Word;
use scc_svtree::{Dir, SvModule, SvVar, VarId};
use std::alloc::Global;

fn is_input(v: &SvVar) -> bool
    ensures { result ≡ steps.is_input v.now.dir }
{
    matches!(v.dir, Dir::Input)
}

// The variables behind this one, where it is the first of them.
fn behind(vars: &[VarId], n: u32) -> Option<&[VarId]>
    ensures { option_map (λ r. r.now) result ≡ clocked.behind n vars.now }
{
    match vars {
        [first, rest @ ..] => { if first.0 == n { Some(rest) } else { None } }
        [] => None,
    }
}

// The inputs that are clocks, of all variables.
#[tactic(auto, using(crate::proofs::Listed::clock_is_next, crate::proofs::Listed::none_is_next))]
fn clocks_in(
    alloc: Global,
    m: &SvModule,
    vars: &[SvVar],
    others: &[VarId],
) -> Result<List<VarId>, NoMemory>
    requires few { length m.now.vars < 2 ^ 32 }
    requires vars { vars.now ≡ m.now.vars }
    requires others { others.now ≡ runs.inputs_of m.now }
    ensures { IfOk result (λ l. l ≡ clocked.clocks_of m.now) }
{
    let mut list = List::new(alloc);
    let mut rest = others;
    for (n, v) in vars.iter().enumerate() {
        if !is_input(v) {
            continue;
        }
        let Some(more) = behind(rest, n as u32) else {
            list.push(VarId(n as u32))?;
            continue;
        };
        rest = more;
    }
    Ok(list)
}

/// The inputs that are clocks, in the order in which they are declared: those that aren't among the others.
pub fn clocks_of(alloc: Global, m: &SvModule, others: &[VarId]) -> Result<List<VarId>, NoMemory>
    requires few { length m.now.vars < 2 ^ 32 }
    requires others { others.now ≡ runs.inputs_of m.now }
    ensures { IfOk result (λ l. l ≡ clocked.clocks_of m.now) }
{
    clocks_in(alloc, m, m.vars.as_slice(), others)
}

// The name of a variable, which is empty where there is none.
fn name(alloc: Global, m: &SvModule, v: VarId) -> Result<Text, NoMemory>
    ensures { IfOk result (λ t. t ≡ ports.name_at m.now.vars v.0) }
{
    match m.vars.get(v.0 as usize) {
        Some(var) => Text::from_bytes(alloc, var.name.bytes()),
        None => Ok(Text::new(alloc)),
    }
}

/// The names of variables.
pub fn names_of(alloc: Global, m: &SvModule, vars: &[VarId]) -> Result<List<Text>, NoMemory>
    ensures { IfOk result (λ l. l ≡ clocked.names_at m.now.vars vars.now) }
{
    let mut list = List::new(alloc);
    for v in vars {
        list.push(name(alloc, m, *v)?)?;
    }
    Ok(list)
}

fn is_odd(n: u128) -> bool
    ensures { result ≡ nat_eq (n % 2) 1 }
{
    n % 2 == 1
}

// Adds a clock, if it is chosen.
fn keep(list: &mut List<VarId>, clock: VarId, is_chosen: bool) -> Result<(), NoMemory>
    ensures { OnOk result (list.new ≡ list.old ++ clocked.kept clock is_chosen) }
{
    if is_chosen {
        list.push(clock)?;
    }
    Ok(())
}

/// The clocks that a mask chooses: bit i is 1 where the i-th has an edge.
#[tactic(auto, using(crate::proofs::Listed::kept_is_next))]
pub fn chosen(alloc: Global, clocks: &[VarId], mask: Word) -> Result<List<VarId>, NoMemory>
    ensures { IfOk result (λ l. l ≡ clocked.chosen clocks.now mask.bits) }
{
    let mut list = List::new(alloc);
    let mut rest = mask.bits;
    for clock in clocks {
        keep(&mut list, *clock, is_odd(rest))?;
        rest /= 2;
    }
    Ok(list)
}
