//! A generated design that runs.
use itoa::Buffer;
use scc_base::{CalmFiles, List, Names, NoMemory, Stop, Text, lost, push};
use scc_drive_stages::{Front, compile_front, front_of, name_of};
use scc_drive_svsim::svsim;
use scc_grammar::parse;
use scc_svread::read;
use scc_svtree::{SvBlock, SvModule};
use scc_tokens::join;
use scc_trace::generate;
use std::alloc::Global;

/// The greatest length of a text that is run.
const MOST: usize = 4_294_967_295;

/// The line of the generated design of so many stages: how many processes, registers and states it has, and the word at its output
/// one edge for each stage behind its reset, by its emitted module.
pub fn generated_line(alloc: Global, stages: u32) -> Result<Text, NoMemory> {
    let made = known(design_of(alloc, stages))?;
    line_of(alloc, stages, &made)
}

// What owns a design has no branch behind it: each would let all of it go.
fn line_of(alloc: Global, stages: u32, made: &Generated) -> Result<Text, NoMemory> {
    let text = compile_front(alloc, &made.names, b"Gen", &made.front)?;
    let stimulus = stimulus_of(alloc, stages)?;
    let trace = trace_of(alloc, text.bytes(), stimulus.bytes())?;
    let q = last_word(trace.bytes())?;
    let module = known(read(alloc, text.bytes()))?;
    line(alloc, stages, &made.front, &module, q)
}

// No stage refuses a generated design.
fn known<T>(answer: Result<T, Stop>) -> Result<T, NoMemory> {
    match answer {
        Ok(found) => Ok(found),
        Err(Stop::NoMemory) => Err(NoMemory),
        Err(Stop::Refused(_)) => Err(lost()),
    }
}

// A generated design, and the names of its source.
#[derive(Drop)]
struct Generated {
    names: Names,
    front: Front,
}

fn design_of(alloc: Global, stages: u32) -> Result<Generated, Stop> {
    let source = generate(alloc, stages)?;
    let mut files = CalmFiles::new(alloc);
    files.add("gen.cpp", source.bytes())?;
    let root = String::from_str(alloc, "gen.cpp").map_err(|_| NoMemory)?;
    let mut roots = Vec::new(alloc);
    push(&mut roots, root)?;
    let mut names = Names::new(alloc)?;
    let mut sources = List::new(alloc);
    let Ok(joined) = join(
        alloc,
        roots.as_slice(),
        &mut files,
        &mut names,
        &mut sources,
    ) else {
        return Err(Stop::from(lost()));
    };
    let tree = parse(alloc, &joined)?;
    let top = name_of(&names, b"Gen");
    let front = front_of(alloc, &tree, top, false)?;
    Ok(Generated { names, front })
}

// Resets the design, and gives it 1 at `d` for one edge a stage.
fn stimulus_of(alloc: Global, stages: u32) -> Result<Text, NoMemory> {
    let mut text = Text::from_bytes(alloc, b"scc-stim 1\nports rst d\nstep 1 1\n")?;
    for _ in 0..stages {
        text.push_bytes(b"step 0 1\n")?;
    }
    Ok(text)
}

fn trace_of(alloc: Global, text: &[u8], stimulus: &[u8]) -> Result<Text, NoMemory> {
    if text.len() > MOST || stimulus.len() > MOST {
        return Err(lost());
    }
    known(svsim(alloc, b"Gen", text, stimulus))
}

// The last word of the output `q`: the four digits before the end of the trace's last line.
fn last_word(trace: &[u8]) -> Result<&[u8], NoMemory> {
    let length = trace.len();
    if length < 5 {
        return Err(lost());
    }
    Ok(&trace[length - 5..length - 1])
}

fn line(
    alloc: Global,
    stages: u32,
    front: &Front,
    m: &SvModule,
    q: &[u8],
) -> Result<Text, NoMemory> {
    let mut out = Text::new(alloc);
    number(&mut out, b"stages ", u64::from(stages))?;
    number(&mut out, b" processes ", front.core.processes.len() as u64)?;
    number(&mut out, b" registers ", registers(m))?;
    number(&mut out, b" states ", states(front))?;
    out.push_bytes(b" q ")?;
    out.push_bytes(q)?;
    out.push_bytes(b"\n")?;
    Ok(out)
}

fn number(out: &mut Text, before: &[u8], n: u64) -> Result<(), NoMemory> {
    out.push_bytes(before)?;
    let mut buffer = Buffer::new();
    out.push_bytes(buffer.format(n).as_bytes())
}

fn registers(m: &SvModule) -> u64 {
    let mut count = 0u64;
    for block in m.blocks.as_slice() {
        if let SvBlock::Edge { sets, .. } = block {
            count = count.saturating_add(sets.len() as u64);
        }
    }
    count
}

fn states(front: &Front) -> u64 {
    let mut count = 0u64;
    for split in front.splits.as_slice() {
        count = count.saturating_add(split.waits.len() as u64);
    }
    count
}
