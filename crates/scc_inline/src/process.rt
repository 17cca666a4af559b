//! The core of a design.
ghost use Rattle.std.specs.Prelude.{◌≡◌, ℕ, IfErr, IfOk, OnOk};
ghost use Rattle.scc_base.specs.declared.code.Code.TheVariants as reason;
ghost use Rattle.scc_core_spec.specs.First.{refused, when};
ghost use Rattle.scc_elab_spec.specs.Design.{Design as Standing};
ghost use Rattle.scc_inline_facts.specs.Known.{AreFacts};
ghost use Rattle.scc_inline_size_laws.specs.Counts.{passes};
ghost use Rattle.scc_inline_spec.specs.Inlined.{too_large};
ghost use Rattle.scc_core_view.specs.Programs.{program_of};
ghost use Rattle.scc_inline_cells.specs.Listed.{counted};
ghost use Rattle.scc_plain_view.specs.Designs.{design_of, process_of};
ghost use Rattle.scc_plain_view.specs.Plains.{plain_of};
ghost use Rattle.scc_inline.specs.Begun.{IsBegun, IsHeading, Keeps, are_headings, copied_headings, heading_of, top_in};
ghost use Rattle.scc_inline.specs.Refusals.{AreSized, IsSized, Judges, MayChoose, MayStop};

use crate::heading::heading;
use crate::scope::{Growing, Here, Scope, Source, This};
use scc_base::{Code, List, Name, NoMemory, Path, PathPart, Place, Stop, lost};
use scc_core::{CellName, Core, CoreBase, CoreLeft, CoreNode, CoreProcess, CoreStmt, numbered};
use scc_elab_design::{Design, Process};
use scc_inline_cells::{object_cells, vectors};
use scc_inline_facts::{DEPTH, Facts, all_facts, facts_at};
use scc_plain_tree::Plain;
use std::alloc::Global;

/// The core of a design: its cells, and the bodies of its processes with their calls copied. E601 where such a body has
/// more than 65,536 statements or nests deeper than 1,024; E512 where an argument is a reference to an element, or the
/// object of a call is chosen, under an index that isn't static. The first of the first process that has one.
pub fn inline(alloc: Global, p: &Plain, d: &Design) -> Result<Core, Stop>
    ensures stop { IfErr result MayStop }
    ensures sized { AreSized (plain_of p.now) (design_of d.now) result }
    ensures begun { IfOk result (λ c. IsBegun (plain_of p.now) (design_of d.now) (program_of c)) }
{
    let top = top_of(p)?;
    let facts = all_facts(alloc, p)?;
    let vectors = vectors(alloc, d)?;
    let (cells, of) = object_cells(alloc, p, d)?.into_parts();
    let mut growing = Growing::start(alloc, cells, &vectors)?;
    let source = Source {
        plain: p,
        facts: facts.as_slice(),
    };
    let processes = growing.processes(source, d, &of)?;
    Ok(Core {
        top,
        cells: growing.into_cells(),
        processes,
        vectors,
    })
}

// The name of the top.
fn top_of(p: &Plain) -> Result<Name, NoMemory>
    ensures { IfOk result (λ n. n.0 ≡ top_in (plain_of p.now)) }
{
    match p.classes.get(p.top as usize) {
        Some(class) => Ok(class.name),
        None => Err(lost()),
    }
}

impl Growing {
    // The processes of a design in construction order.
    fn processes(
        &mut self,
        source: Source,
        d: &Design,
        cells: &List<Option<u32>>,
    ) -> Result<List<CoreProcess>, Stop>
        ensures stop { IfErr result MayStop }
        ensures keeps { OnOk result (Keeps self.old self.new) }
        ensures sized { AreFacts (plain_of source.entry.plain.now) source.entry.facts.now → AreSized (plain_of source.entry.plain.now) (design_of d.now) result }
        ensures headings { cells.now ≡ counted 0 (design_of d.now).objects → IfOk result (λ qs. are_headings qs ≡ copied_headings (plain_of source.entry.plain.now) (design_of d.now)) }
    {
        let mut made = List::new(self.alloc);
        for number in 0..d.processes.len() {
            let Some(process) = d.processes.get(number) else {
                return Err(lost().into());
            };
            self.number = numbered(number)?;
            let copied = match self.process(source, d, process, cells) {
                Ok(copied) => copied,
                Err(stop) => return Err(stop),
            };
            made.push(copied)?;
        }
        Ok(made)
    }

    fn process(
        &mut self,
        source: Source,
        d: &Design,
        process: &Process,
        cells: &List<Option<u32>>,
    ) -> Result<CoreProcess, Stop>
        ensures stop { IfErr result MayStop }
        ensures keeps { OnOk result (Keeps self.old self.new) }
        ensures sized { AreFacts (plain_of source.entry.plain.now) source.entry.facts.now → (i : ℕ) → IsSized (too_large (plain_of source.entry.plain.now) (design_of d.now) i (process_of process.now)) result }
        ensures headings { cells.now ≡ counted 0 (design_of d.now).objects → IfOk result (λ q. IsHeading (plain_of source.entry.plain.now) (design_of d.now) (process_of process.now) q) }
    {
        match judged(source, process) {
            Ok(()) => self.fitting(source, d, process, cells),
            Err(stop) => Err(stop),
        }
    }

    // A process that passes no limit.
    fn fitting(
        &mut self,
        source: Source,
        d: &Design,
        process: &Process,
        cells: &List<Option<u32>>,
    ) -> Result<CoreProcess, Stop>
        ensures stop { IfErr result MayChoose }
        ensures keeps { OnOk result (Keeps self.old self.new) }
        ensures headings { cells.now ≡ counted 0 (design_of d.now).objects → IfOk result (λ q. IsHeading (plain_of source.entry.plain.now) (design_of d.now) (process_of process.now) q) }
    {
        let function = source
            .plain
            .functions
            .get(process.function as usize)
            .ok_or(lost())?;
        let facts = facts_at(source.facts, process.function)?;
        let object = d.objects.get(process.object as usize).ok_or(lost())?;
        let here = Here {
            source,
            function,
            facts,
        };
        self.begin(object.path.as_slice(), function.name)?;
        let made = heading(self.alloc, source.plain, d, process, cells)?;
        let body = self.block_of(object.path.as_slice(), &here, process.place)?;
        Ok(with_body(made, body))
    }

    // No local of the process has a number yet.
    fn begin(&mut self, path: &[PathPart], function: Name) -> Result<(), NoMemory>
        ensures keeps { OnOk result (Keeps self.old self.new) }
    {
        self.process = Path::of(self.alloc, path)?;
        self.process.push(PathPart::Member(function))?;
        self.next = 0;
        Ok(())
    }

    // The body of a process of the object at a path, in one block.
    fn block_of(
        &mut self,
        path: &[PathPart],
        here: &Here,
        place: Place,
    ) -> Result<List<CoreStmt>, Stop>
        ensures stop { IfErr result MayChoose }
        ensures keeps { OnOk result (Keeps self.old self.new) }
    {
        let this = This {
            left: CoreLeft::new(
                self.alloc,
                place,
                CoreBase::Prefix(named(self.alloc, path)?),
            ),
            spot: self.places.path(path),
            soft: false,
        };
        let mut scope = Scope::new(self.alloc, here.function, Some(this))?;
        let body = self.body(&mut scope, here, DEPTH)?;
        let mut block = List::new(self.alloc);
        block.push(CoreStmt {
            place,
            node: CoreNode::Block(body),
        })?;
        Ok(block)
    }
}

// A process with its body.
fn with_body(heading: CoreProcess, body: List<CoreStmt>) -> CoreProcess
    ensures { heading_of result ≡ heading_of heading }
{
    let mut made = heading;
    made.body = body;
    made
}

// E601 of a process.
fn judged(source: Source, process: &Process) -> Result<(), Stop>
    ensures stop { IfErr result MayStop }
    ensures judges { AreFacts (plain_of source.entry.plain.now) source.entry.facts.now → (d : Standing) (i : ℕ) → Judges (too_large (plain_of source.entry.plain.now) d i (process_of process.now)) result }
{
    match facts_at(source.facts, process.function) {
        Ok(facts) => fits(facts, process),
        Err(_) => Err(Stop::NoMemory),
    }
}

// E601 where a body with its calls copied passes a limit.
fn fits(facts: &Facts, process: &Process) -> Result<(), Stop>
    ensures stop { IfErr result MayStop }
    ensures judges { Judges (when (passes facts.now.extent.size facts.now.extent.height) (refused reason.TooLarge process.now.place)) result }
{
    if facts.extent.is_too_large() {
        return Err(Stop::refused(Code::TooLarge, process.place)); // E601
    }
    Ok(())
}

pub fn named(alloc: Global, path: &[PathPart]) -> Result<CellName, NoMemory> {
    Ok(CellName {
        path: Path::of(alloc, path)?,
        local: None,
        indices: List::new(alloc),
    })
}
