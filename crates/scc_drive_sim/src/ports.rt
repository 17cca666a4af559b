//! The top's ports as stimuli and traces name them.
use itoa::Buffer;
use scc_base::{List, Names, NoMemory, PathPart, Text, lost, push};
use scc_bits::width;
use scc_elab_design::{Design, Object, ObjectNode};
use scc_trace::StimPort;
use std::alloc::Global;

/// The ports of a design's top, in construction order.
pub struct SimPorts {
    /// The names of the clocks.
    pub clocks: List<Text>,
    pub clock_numbers: Vec<u32>,
    /// The inputs but the clocks.
    pub inputs: List<StimPort>,
    pub outputs: List<StimPort>,
    pub output_numbers: Vec<u32>,
}

// One call at each exit of what owns them.
impl Drop for SimPorts {
    fn drop(self) {
        let SimPorts {
            clocks: _clocks,
            clock_numbers: _clock_numbers,
            inputs: _inputs,
            outputs: _outputs,
            output_numbers: _output_numbers,
        } = self;
    }
}

impl SimPorts {
    /// Those of a design. A port of an array has its indices after its name.
    pub fn of(alloc: Global, names: &Names, d: &Design) -> Result<SimPorts, NoMemory> {
        let clocks = clocks_of(alloc, d)?;
        let mut ports = SimPorts {
            clocks: List::new(alloc),
            clock_numbers: Vec::new(alloc),
            inputs: List::new(alloc),
            outputs: List::new(alloc),
            output_numbers: Vec::new(alloc),
        };
        let mut number: u32 = 0;
        for object in d.objects.as_slice() {
            let is_clock = clocks.get(number as usize).copied().unwrap_or(false);
            ports.add(alloc, names, number, object, is_clock)?;
            number = number.saturating_add(1);
        }
        Ok(ports)
    }

    fn add(
        &mut self,
        alloc: Global,
        names: &Names,
        number: u32,
        object: &Object,
        is_clock: bool,
    ) -> Result<(), NoMemory> {
        let ObjectNode::Port { kind, output, root } = object.node else {
            return Ok(());
        };
        if root != number {
            return Ok(());
        }
        let name = name_of(alloc, names, object.path.as_slice())?;
        let width = width(kind);
        if is_clock {
            self.clocks.push(name)?;
            return push(&mut self.clock_numbers, number);
        }
        if output {
            self.outputs.push(StimPort { name, width })?;
            return push(&mut self.output_numbers, number);
        }
        self.inputs.push(StimPort { name, width })
    }
}

// Whether each object is the clock of a process.
fn clocks_of(alloc: Global, d: &Design) -> Result<Vec<bool>, NoMemory> {
    let mut list = Vec::new(alloc);
    for _object in d.objects.as_slice() {
        push(&mut list, false)?;
    }
    for process in d.processes.as_slice() {
        if let Some(edge) = process.edge {
            if let Some(is) = list.get_mut(edge.root as usize) {
                *is = true;
            }
        }
    }
    Ok(list)
}

// The parts of a path joined by `$`.
fn name_of(alloc: Global, names: &Names, path: &[PathPart]) -> Result<Text, NoMemory> {
    let mut text = Text::new(alloc);
    let mut is_first = true;
    for part in path {
        if !is_first {
            text.push_bytes(b"$")?;
        }
        is_first = false;
        match part {
            PathPart::Member(name) => {
                if !names.has(*name) {
                    return Err(lost());
                }
                text.push_bytes(names.text(*name).as_bytes())?;
            }
            PathPart::Index(index) => {
                let mut buffer = Buffer::new();
                text.push_bytes(buffer.format(*index).as_bytes())?;
            }
        }
    }
    Ok(text)
}
