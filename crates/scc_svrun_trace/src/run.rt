//! Steps of a stimulus, one after the other.
ghost use Rattle.std.specs.Prelude.{◌≡◌, map, OnOk};
ghost use Rattle.scc_svtree.specs.Variables.{word_at};
ghost use Rattle.scc_svrun_trace.specs.Ports as ports;
ghost use Rattle.scc_svrun_trace.specs.Trace as trace;
ghost use Rattle.scc_svrun_trace.specs.Trace.{Appended, AreAllHanded, IsHanded, Turned};

use crate::line::{Outputs, line};
use scc_base::{NoMemory, Text};
use scc_svrun::SvRunner;
use scc_trace::StimStep;
use std::alloc::Global;

// One step: its inputs, and the edge that it may have.
fn turn(
    alloc: Global,
    runner: &mut SvRunner<'_>,
    outputs: &Outputs,
    number: u64,
    step: &StimStep,
    out: &mut Text,
) -> Result<(), NoMemory>
    requires vars { outputs.now.vars ≡ ports.outputs_of runner.old.top }
    requires ports { outputs.now.ports ≡ ports.out_ports runner.old.top }
    requires fitting { IsHanded runner.old.top step.now }
    ensures same { runner.new.top ≡ runner.old.top }
    ensures turned { OnOk result (Turned runner.old.top number (trace.input_of runner.old.top step.now) (word_at runner.old.words) (word_at runner.new.words) out.old out.new) }
{
    runner.settle(step.words.as_slice());
    line(alloc, runner, outputs, number, false, out)?;
    if step.edge {
        runner.edge();
        line(alloc, runner, outputs, number, true, out)?;
    }
    Ok(())
}

/// Runs steps, and appends the lines that they show.
pub fn play(
    alloc: Global,
    runner: &mut SvRunner<'_>,
    outputs: &Outputs,
    steps: &[StimStep],
    out: &mut Text,
) -> Result<(), NoMemory>
    requires vars { outputs.now.vars ≡ ports.outputs_of runner.old.top }
    requires ports { outputs.now.ports ≡ ports.out_ports runner.old.top }
    requires fitting { AreAllHanded runner.old.top steps.now }
    ensures { OnOk result (Appended runner.old.top (word_at runner.old.words) 0 (map (trace.input_of runner.old.top) steps.now) out.old out.new) }
{
    for (number, step) in steps.iter().enumerate() {
        turn(alloc, runner, outputs, number as u64, step, out)?;
    }
    Ok(())
}
