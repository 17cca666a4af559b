//! A design that runs on a stimulus, and the trace that it leaves.
use crate::order::Orders;
use crate::ports::SimPorts;
use crate::steps::Steps;
use scc_base::{List, NoMemory, Text, lost};
use scc_bits::Word;
use scc_elab_design::Design;
use scc_machine::{RunStop, Runner, Start};
use scc_plain_tree::Plain;
use scc_trace::{Version, trace_line};
use std::alloc::Global;

/// A piece of a trace is given once it has so many bytes.
const PIECE: usize = 65_536;

/// A design that runs on a stimulus.
pub struct Simulation<'a> {
    alloc: Global,
    runner: Runner<'a>,
    ports: SimPorts,
    steps: Steps,
    orders: Option<Orders>,
    /// The number of the next step; None before the trace's first line.
    next: Option<u64>,
}

// One call at each exit of what owns it.
impl Drop for Simulation<'_> {
    fn drop(self) {
        let Simulation {
            alloc: _,
            runner: _runner,
            ports: _ports,
            steps: _steps,
            orders: _orders,
            next: _,
        } = self;
    }
}

impl<'a> Simulation<'a> {
    /// A program's design before the first step of a stimulus. Signals and variables hold 0, those of the objects whose numbers
    /// stand in `constant` what construction left. A number in `order` turns the order of processes. There is a bound of steps for
    /// each process.
    pub fn new(
        alloc: Global,
        p: &'a Plain,
        d: &'a Design,
        constant: &[u32],
        bounds: &'a [u64],
        ports: SimPorts,
        steps: Steps,
        order: Option<u32>,
    ) -> Result<Simulation<'a>, NoMemory> {
        let start = Start::zero(alloc, d, constant)?;
        let orders = match order {
            Some(by) => Some(Orders::turned(alloc, d, by)?),
            None => None,
        };
        Ok(Simulation {
            alloc,
            runner: Runner::new(alloc, p, d, &start, bounds)?,
            ports,
            steps,
            orders,
            next: None,
        })
    }

    /// The next piece of the trace; None after the last one. The pieces in a row are the trace.
    pub fn next(&mut self) -> Result<Option<Text>, RunStop> {
        let mut out = Text::new(self.alloc);
        if self.next.is_none() {
            out.push_bytes(header(&self.steps))?;
            self.next = Some(0);
        }
        for _ in 0..usize::MAX {
            if out.bytes().len() >= PIECE {
                return Ok(Some(out));
            }
            if !self.step(&mut out)? {
                return Ok(if out.bytes().is_empty() {
                    None
                } else {
                    Some(out)
                });
            }
        }
        Err(RunStop::from(lost()))
    }

    /// The whole trace.
    pub fn whole(&mut self) -> Result<Text, RunStop> {
        let mut out = Text::new(self.alloc);
        for _ in 0..usize::MAX {
            match self.next()? {
                Some(piece) => out.push_bytes(piece.bytes())?,
                None => return Ok(out),
            }
        }
        Err(RunStop::from(lost()))
    }

    // Runs the next step, and appends its lines; whether there is one.
    fn step(&mut self, out: &mut Text) -> Result<bool, RunStop> {
        let number = self.next.unwrap_or(0);
        let Ok(at) = usize::try_from(number) else {
            return Err(RunStop::from(lost()));
        };
        let mut clocks = Vec::new(self.alloc);
        let ticks = match &self.steps {
            Steps::One { steps, .. } => {
                let Some(step) = steps.get(at) else {
                    return Ok(false);
                };
                settle(&mut self.runner, &self.orders, step.words.as_slice())?;
                step.edge
            }
            Steps::Many(steps) => {
                let Some(step) = steps.get(at) else {
                    return Ok(false);
                };
                self.runner.settle_due(step.words.as_slice())?;
                chosen(step.mask, self.ports.clock_numbers.as_slice(), &mut clocks)?;
                step.mask.bits != 0
            }
        };
        self.show(number, false, out)?;
        if ticks {
            self.edge(clocks.as_slice())?;
            self.show(number, true, out)?;
        }
        self.next = Some(number.saturating_add(1));
        Ok(true)
    }

    fn edge(&mut self, clocks: &[u32]) -> Result<(), RunStop> {
        match (&self.steps, &self.orders) {
            (Steps::Many(_), _) => self.runner.edge_due_of(clocks),
            (Steps::One { .. }, None) => self.runner.edge_due(),
            (Steps::One { .. }, Some(orders)) => self
                .runner
                .edge_in(orders.clocked.as_slice(), orders.combs.as_slice()),
        }
    }

    fn show(&self, number: u64, after: bool, out: &mut Text) -> Result<(), NoMemory> {
        let mut words = List::new(self.alloc);
        for output in self.ports.output_numbers.as_slice() {
            words.push(self.runner.get(*output))?;
        }
        let ports = self.ports.outputs.as_slice();
        let line = trace_line(self.alloc, number, after, ports, words.as_slice())?;
        out.push_bytes(line.bytes())
    }
}

fn settle(runner: &mut Runner<'_>, orders: &Option<Orders>, words: &[Word]) -> Result<(), RunStop> {
    match orders {
        None => runner.settle_due(words),
        Some(orders) => runner.settle_in(words, orders.combs.as_slice()),
    }
}

// The ports of the clocks whose bits a mask has.
fn chosen(mask: Word, clocks: &[u32], out: &mut Vec<u32>) -> Result<(), NoMemory> {
    let mut rest = mask.bits;
    for clock in clocks {
        if rest & 1 == 1 {
            out.push(*clock)?;
        }
        rest >>= 1;
    }
    Ok(())
}

// The first line of a trace has the version of its stimulus, and of one for several clocks the second.
fn header(steps: &Steps) -> &'static [u8] {
    match steps {
        Steps::One { version, .. } => match version {
            Version::One => b"scc-trace 1\n",
            Version::Two => b"scc-trace 2\n",
        },
        Steps::Many(_) => b"scc-trace 2\n",
    }
}
