//! The trace of a module of several clocks.
ghost use Rattle.std.specs.Prelude.{◌≡◌, ◌<◌, ◌^◌, true, map, length, IfOk, IfErr, OnOk};
ghost use Rattle.scc_svrun.specs.Runs as runs;
ghost use Rattle.scc_svtree.specs.Sound.{IsSound};
ghost use Rattle.scc_svtree.specs.Variables.{word_at};
ghost use Rattle.scc_svrun_trace.specs.Clocked as clocked;
ghost use Rattle.scc_svrun_trace.specs.Clocked.{AreAllHanded, IsClockTrace, IsClockUntraced, IsHanded};
ghost use Rattle.scc_svrun_trace.specs.Ports as ports;
ghost use Rattle.scc_svrun_trace.specs.Trace.{Appended, Turned};
ghost use Rattle.scc_trace.specs.Answer.{Answers};
ghost use Rattle.scc_trace.specs.Clocks.{clock_stim_of};

use crate::clocks::{chosen, clocks_of, names_of};
use crate::line::{Outputs, line, outputs_in};
use crate::ports::ports_of;
use crate::traced::header;
use scc_base::{NoMemory, Stop, Text};
use scc_svrun::SvRunner;
use scc_svtree::{SvModule, VarId};
use scc_trace::{ClockStep, ClockStim, Version, clock_stimulus};
use std::alloc::Global;

// One step: its inputs, and the edges of some clocks.
fn turn(
    alloc: Global,
    runner: &mut SvRunner<'_>,
    outputs: &Outputs,
    number: u64,
    step: &ClockStep,
    clocks: &[VarId],
    out: &mut Text,
) -> Result<(), NoMemory>
    requires vars { outputs.now.vars ≡ ports.outputs_of runner.old.top }
    requires ports { outputs.now.ports ≡ ports.out_ports runner.old.top }
    requires fitting { IsHanded runner.old.top step.now }
    ensures same { runner.new.top ≡ runner.old.top }
    ensures turned { OnOk result (Turned runner.old.top number (clocked.edges_of runner.old.top step.now clocks.now) (word_at runner.old.words) (word_at runner.new.words) out.old out.new) }
{
    runner.settle(step.words.as_slice());
    line(alloc, runner, outputs, number, false, out)?;
    if !clocks.is_empty() {
        runner.edge_of(clocks);
        line(alloc, runner, outputs, number, true, out)?;
    }
    Ok(())
}

// Runs steps, and appends the lines that they show.
fn play(
    alloc: Global,
    runner: &mut SvRunner<'_>,
    outputs: &Outputs,
    clocks: &[VarId],
    steps: &[ClockStep],
    out: &mut Text,
) -> Result<(), NoMemory>
    requires vars { outputs.now.vars ≡ ports.outputs_of runner.old.top }
    requires ports { outputs.now.ports ≡ ports.out_ports runner.old.top }
    requires clocks { clocks.now ≡ clocked.clocks_of runner.old.top }
    requires fitting { AreAllHanded runner.old.top steps.now }
    ensures { OnOk result (Appended runner.old.top (word_at runner.old.words) 0 (map (clocked.input_of runner.old.top) steps.now) out.old out.new) }
{
    for (number, step) in steps.iter().enumerate() {
        let edges = chosen(alloc, clocks, step.mask)?;
        turn(
            alloc,
            runner,
            outputs,
            number as u64,
            step,
            edges.as_slice(),
            out,
        )?;
    }
    Ok(())
}

// The steps of a stimulus for the clocks of a module and its other inputs.
fn steps_of(
    alloc: Global,
    m: &SvModule,
    clocks: &[VarId],
    others: &[VarId],
    file: u32,
    bytes: &[u8],
) -> Result<ClockStim, Stop>
    requires clocks { clocks.now ≡ clocked.clocks_of m.now }
    requires others { others.now ≡ runs.inputs_of m.now }
    requires short { length bytes.now < 2 ^ 32 }
    ensures { Answers (λ s. s) result (clock_stim_of file (clocked.clock_names m.now) (ports.in_ports m.now) bytes.now) }
{
    let names = names_of(alloc, m, clocks)?;
    let inputs = ports_of(alloc, m, others)?;
    clock_stimulus(alloc, file, bytes, names.as_slice(), inputs.as_slice())
}

/// The trace of a module of several clocks on a stimulus of version 3 with fewer than 2^32 bytes, from a valuation in which every
/// variable is 0: a line for version 2 of traces, and one for each observation, with the words of the outputs. The clocks are the
/// inputs that are clocks of blocks, in the order in which they are declared, and the ports the other inputs. `file` is the
/// stimulus's number in places.
///
/// It refuses what `clock_stimulus` of `scc_trace` refuses.
pub fn clocked_trace(alloc: Global, m: &SvModule, file: u32, bytes: &[u8]) -> Result<Text, Stop>
    requires sound { IsSound true m.now }
    requires few { length m.now.vars < 2 ^ 32 }
    requires short { length bytes.now < 2 ^ 32 }
    ensures trace { IfOk result (λ t. IsClockTrace file m.now bytes.now t) }
    ensures refused { IfErr result (λ e. IsClockUntraced file m.now bytes.now e) }
{
    let mut runner = SvRunner::new(alloc, m)?;
    let clocks = clocks_of(alloc, m, runner.inputs())?;
    let steps = steps_of(alloc, m, clocks.as_slice(), runner.inputs(), file, bytes)?;
    let outputs = outputs_in(alloc, m)?;
    let mut out = Text::from_bytes(alloc, header(Version::Two))?;
    play(
        alloc,
        &mut runner,
        &outputs,
        clocks.as_slice(),
        steps.as_slice(),
        &mut out,
    )?;
    Ok(out)
}
