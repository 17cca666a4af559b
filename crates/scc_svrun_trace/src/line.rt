//! Lines of a trace.
ghost use Rattle.std.specs.Prelude.{◌≡◌, ◌<◌, ◌^◌, ◌++◌, length, IfOk, OnOk};
ghost use Rattle.scc_svtree.specs.Variables.{word_at};
ghost use Rattle.scc_svrun_trace.specs.Ports as ports;
ghost use Rattle.scc_svrun_trace.specs.Trace as trace;

use crate::ports::{outputs_of, ports_of};
use scc_base::{List, NoMemory, Text};
use scc_bits::Word;
use scc_svrun::SvRunner;
use scc_svtree::{SvModule, VarId};
use scc_trace::{StimPort, trace_line};
use std::alloc::Global;

/// The outputs of a module, as variables and as the ports that a trace names.
#[derive(Drop)]
pub struct Outputs {
    pub vars: List<VarId>,
    pub ports: List<StimPort>,
}

/// The outputs of a module.
pub fn outputs_in(alloc: Global, m: &SvModule) -> Result<Outputs, NoMemory>
    requires { length m.now.vars < 2 ^ 32 }
    ensures vars { IfOk result (λ o. o.vars ≡ ports.outputs_of m.now) }
    ensures ports { IfOk result (λ o. o.ports ≡ ports.out_ports m.now) }
{
    let vars = outputs_of(alloc, m.vars.as_slice())?;
    let ports = ports_of(alloc, m, vars.as_slice())?;
    Ok(Outputs { vars, ports })
}

// The words of variables.
fn words(alloc: Global, runner: &SvRunner<'_>, vars: &[VarId]) -> Result<List<Word>, NoMemory>
    ensures { IfOk result (λ l. l ≡ trace.words_of vars.now (word_at runner.now.words)) }
{
    let mut list = List::new(alloc);
    for v in vars {
        list.push(runner.get(*v))?;
    }
    Ok(list)
}

/// Appends the line of a step, counted from 0, before its edge or behind it.
pub fn line(
    alloc: Global,
    runner: &SvRunner<'_>,
    outputs: &Outputs,
    step: u64,
    after: bool,
    out: &mut Text,
) -> Result<(), NoMemory>
    requires vars { outputs.now.vars ≡ ports.outputs_of runner.now.top }
    requires ports { outputs.now.ports ≡ ports.out_ports runner.now.top }
    ensures { OnOk result (out.new ≡ out.old ++ trace.line_of runner.now.top step after (word_at runner.now.words)) }
{
    let words = words(alloc, runner, outputs.vars.as_slice())?;
    let line = trace_line(
        alloc,
        step,
        after,
        outputs.ports.as_slice(),
        words.as_slice(),
    )?;
    out.push_bytes(line.bytes())?;
    Ok(())
}
