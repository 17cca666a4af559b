//! The trace of a design on a stimulus.
ghost use Rattle.std.specs.Prelude.{◌<◌, ◌^◌, length};

use scc_base::{Names, NoMemory, Stop, Text, lost};
use scc_drive_sim::{SimPorts, Simulation, Steps, constants_of, read_steps, step_bounds};
use scc_drive_stages::Front;
use scc_machine::RunStop;
use scc_trace::stim_text;
use std::alloc::Global;

/// What is written of a design and a stimulus.
#[derive(Clone, Copy, PartialEq, Eq)]
pub enum Way {
    /// The trace; a number turns the order of processes, so that the one of that number, modulo how many there are, comes first.
    Trace(Option<u32>),
    /// The trace of a design of several clocks.
    ClocksTrace,
    /// The stimulus in its second version.
    Stimulus,
}

/// What is written of a design and a stimulus of fewer than 2^32 bytes, which is the file of this number.
///
/// # Errors
/// What the stimulus breaks (E801 to E803). Want of memory also where a process passes its bound of steps.
pub fn simulated(
    alloc: Global,
    names: &Names,
    front: &Front,
    way: Way,
    file: u32,
    bytes: &[u8],
) -> Result<Text, Stop>
    requires { length bytes.now < 2 ^ 32 }
{
    let ports = SimPorts::of(alloc, names, &front.design)?;
    let steps = read_steps(alloc, file, bytes, &ports, way == Way::ClocksTrace)?;
    let text = match way {
        Way::Stimulus => migrated(alloc, &ports, &steps),
        Way::Trace(order) => traced(alloc, front, ports, steps, order),
        Way::ClocksTrace => traced(alloc, front, ports, steps, None),
    };
    Ok(text?)
}

fn migrated(alloc: Global, ports: &SimPorts, steps: &Steps) -> Result<Text, NoMemory> {
    match steps {
        Steps::One { steps, .. } => stim_text(alloc, ports.inputs.as_slice(), steps),
        Steps::Many(_) => Err(lost()),
    }
}

fn traced(
    alloc: Global,
    front: &Front,
    ports: SimPorts,
    steps: Steps,
    order: Option<u32>,
) -> Result<Text, NoMemory> {
    let constant = constants_of(alloc, &front.design, &front.core)?;
    let bounds = step_bounds(alloc, &front.core)?;
    let mut simulation = Simulation::new(
        alloc,
        &front.plain,
        &front.design,
        constant.as_slice(),
        bounds.as_slice(),
        ports,
        steps,
        order,
    )?;
    match simulation.whole() {
        Ok(trace) => Ok(trace),
        // a process that passes its bound stops the command as want of memory does
        Err(RunStop::NoMemory | RunStop::Bound(_)) => Err(NoMemory),
    }
}
