//! Reads texts of modules that hold instances of one another.
ghost use Rattle.std.specs.Prelude.{◌≡◌, false, true, IfOk, IfErr};
ghost use Rattle.scc_hier_read.specs.Refusals.{may_stop};
ghost use Rattle.scc_svtree.specs.Sound.{IsSound};

use crate::checked::first_wrong_of;
use crate::connected::{first_unconnected, groups};
use crate::made::made;
use crate::raw::{RawHier, modules};
use crate::refusals::{allowed, at_start, refusal, stop_at};
use crate::sized::is_too_large;
use scc_base::{Code, Stop};
use scc_hier::flatten;
use scc_hier_text::Hier;
use scc_svread::read;
use scc_svtext::print;
use scc_svtree::SvModule;
use std::alloc::Global;

// What a text says: modules, and the one module that they are together.
#[derive(Drop)]
struct Said {
    modules: Hier,
    flattening: SvModule,
}

// The modules that are written so, where their sizes, names and instances are right.
fn connected(alloc: Global, list: &[RawHier]) -> Result<Hier, Stop> {
    let found = first_wrong_of(alloc, list)?;
    if let Some(at) = found.size {
        return Err(refusal(Code::SvSize, at)); // E702
    }
    if let Some(at) = found.name {
        return Err(refusal(Code::SvName, at)); // E703
    }
    let h = made(alloc, list)?;
    let groups = groups(alloc, &h)?;
    if let Some(at) = first_unconnected(&h, list, groups.as_slice()) {
        return Err(refusal(Code::SvInstance, at)); // E707
    }
    if is_too_large(alloc, &h, groups.as_slice())? {
        return Err(refusal(Code::HierTooLarge, 0)); // E708
    }
    Ok(h)
}

// The flattening, where its names, drivers and cycles are right; what is wrong stands at byte 0.
fn flattened(alloc: Global, h: &Hier) -> Result<SvModule, Stop>
    ensures { IfOk result (λ m. IsSound false m) }
{
    let flat = flatten(alloc, h)?;
    let text = print(alloc, &flat)?;
    match read(alloc, text.bytes()) {
        Ok(m) => Ok(m),
        Err(Stop::Refused(refused)) => Err(at_start(refused.code)),
        Err(Stop::NoMemory) => Err(Stop::NoMemory),
    }
}

fn judged(alloc: Global, list: &[RawHier]) -> Result<Said, Stop>
    ensures { IfOk result (λ s. IsSound false s.flattening) }
{
    let modules = connected(alloc, list)?;
    let flattening = flattened(alloc, &modules)?;
    Ok(Said {
        modules,
        flattening,
    })
}

fn all_said(alloc: Global, bytes: &[u8]) -> Result<Said, Stop>
    ensures sound { IfOk result (λ s. IsSound false s.flattening) }
    ensures refused { IfErr result (λ e. may_stop bytes.now e ≡ true) }
{
    match modules(alloc, bytes) {
        Ok(list) => match judged(alloc, list.as_slice()) {
            Ok(said) => Ok(said),
            Err(stop) => Err(allowed(bytes, stop)),
        },
        Err(h) => Err(allowed(bytes, stop_at(bytes, h))),
    }
}

/// Reads the text of modules that hold instances of one another, in the one spelling in which `print_hier` writes them
/// (IEEE 1800-2017, section 23.3).
///
/// It is refused as `E701` at the first byte at which no text of modules begins with the bytes so far, or at the end, or as `E706` at
/// the first statement or expression at level 8,193, whichever stands first; then as `E702` at the first wrong size; as `E703` at the
/// first name that is not declared, or that stood before: of a variable, an instance or a module; as `E707` at the first instance of no
/// module of the text, or of one that leads back to the module that holds it, or whose wires aren't its module's ports by name,
/// order and width; as `E708` at byte 0 where the flattening has more than 65,536 instances, or more than 1,048,576 variables and
/// blocks; and as `E703`, `E704` or `E705` at byte 0, as its flattening is refused.
pub fn read_hier(alloc: Global, bytes: &[u8]) -> Result<Hier, Stop>
    ensures refused { IfErr result (λ e. may_stop bytes.now e ≡ true) }
{
    match all_said(alloc, bytes) {
        Ok(said) => Ok(said.modules),
        Err(stop) => Err(stop),
    }
}

/// The one module that the modules of a text are together, under the name of the first. A text is refused as `read_hier` refuses it.
pub fn read_flattened(alloc: Global, bytes: &[u8]) -> Result<SvModule, Stop>
    ensures sound { IfOk result (λ m. IsSound false m) }
    ensures refused { IfErr result (λ e. may_stop bytes.now e ≡ true) }
{
    match all_said(alloc, bytes) {
        Ok(said) => Ok(said.flattening),
        Err(stop) => Err(stop),
    }
}
