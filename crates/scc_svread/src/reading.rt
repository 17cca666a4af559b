//! Reads an emitted text.
ghost use Rattle.std.specs.Prelude.{◌≡◌, ◌-◌, false, true, length, slice_index, IfOk, IfErr};
ghost use Rattle.scc_base.specs.declared.code.Code.TheVariants.{SvLoop};
ghost use Rattle.scc_svread_check.specs.First.{starts_of};
ghost use Rattle.scc_svread.specs.Read as reading;
ghost use Rattle.scc_svread.specs.Read.{IsFaulty, IsRight, Ordered, ReadAs, ReadBack, RefusedAs};
ghost use Rattle.scc_svtree.specs.Settled.{combs_of};

use crate::module::module_of;
use scc_base::{Code, NoMemory, Place, Refusal, Stop};
use scc_svread_check::{Wrong, first_wrong, starts};
use scc_svread_grammar::{Halt, RawModule};
use scc_svread_raw::read_raw;
use scc_svtree::{SvBlock, SvModule};
use scc_svtree_order::first_of;
use std::alloc::Global;

// A refusal at a byte; those past 2^32 - 1 are not told from each other.
fn refusal(code: Code, at: usize) -> Stop
    ensures { result ≡ reading.refusal code at }
{
    let place = Place {
        file: 0,
        at: at.min(u32::MAX as usize) as u32,
    };
    Stop::Refused(Refusal {
        code,
        place,
        other: None,
    })
}

fn stop_of(w: Wrong) -> Stop
    ensures { result ≡ reading.stop_of w }
{
    match w {
        Wrong::Size(at) => refusal(Code::SvSize, at), // E702
        Wrong::Name(at) => refusal(Code::SvName, at), // E703
        Wrong::Driver(at) => refusal(Code::SvDriver, at), // E704
    }
}

fn stop_at(bytes: &[u8], h: Halt) -> Stop
    ensures { result ≡ reading.stop_at bytes.now h }
{
    match h {
        Halt::NoMemory => Stop::NoMemory,
        Halt::Unexpected(left) => refusal(Code::SvUnexpected, bytes.len().saturating_sub(left)), // E701
        Halt::TooDeep(left) => refusal(Code::SvDepth, bytes.len().saturating_sub(left)), // E706
    }
}

// The refusal at a combinational block.
fn refused_at(alloc: Global, raw: &RawModule, block: usize) -> Result<Stop, NoMemory>
    ensures { IfOk result (λ e. e ≡ reading.refusal SvLoop (slice_index (starts_of raw.now) block)) }
{
    let starts = starts(alloc, raw)?;
    match starts.as_slice().get(block) {
        Some(at) => Ok(refusal(Code::SvLoop, *at)), // E705
        None => Ok(refusal(Code::SvLoop, 0)),
    }
}

// The refusal of blocks in a cycle, at the first of them.
fn cycle(alloc: Global, raw: &RawModule, blocks: &[SvBlock]) -> Result<Option<Stop>, NoMemory>
    ensures { IfOk result (λ o. Ordered raw.now (combs_of blocks.now) o) }
{
    match first_of(alloc, blocks)? {
        Some(block) => Ok(Some(refused_at(alloc, raw, block)?)),
        None => Ok(None),
    }
}

// The module that is written so, if nothing is wrong in it.
fn judged(alloc: Global, many: bool, raw: &RawModule) -> Result<SvModule, Stop>
    ensures right { IfOk result (λ m. IsRight many raw.now m) }
    ensures faulty { IfErr result (λ e. IsFaulty many raw.now e) }
{
    if let Some(wrong) = first_wrong(alloc, many, raw)? {
        return Err(stop_of(wrong));
    }
    let m = module_of(alloc, raw)?;
    match cycle(alloc, raw, m.blocks.as_slice())? {
        Some(refused) => Err(refused),
        None => Ok(m),
    }
}

fn read_one(alloc: Global, many: bool, bytes: &[u8]) -> Result<SvModule, Stop>
    ensures read { IfOk result (λ m. ReadAs many bytes.now m) }
    ensures back { ReadBack many bytes.now result }
    ensures refused { IfErr result (λ e. RefusedAs many bytes.now e) }
{
    match read_raw(alloc, bytes) {
        Ok(raw) => judged(alloc, many, &raw),
        Err(h) => Err(stop_at(bytes, h)),
    }
}

/// Reads an emitted text of at most one clock: a module in the one spelling in which `print` of `scc_svtext` writes it (IEEE 1800-2017).
///
/// It is refused as `E701` at the first byte at which no module's text begins with the bytes so far, or at the end, or as `E706` at the
/// first statement or expression at level 8,193, whichever stands first; then as `E702` at the first wrong size; as `E703` at the
/// first name that is not declared or was declared before; as `E704` at the first that stands where it may not; as `E705` at the
/// first combinational block on a cycle of blocks that read what others assign.
pub fn read(alloc: Global, bytes: &[u8]) -> Result<SvModule, Stop>
    ensures read { IfOk result (λ m. ReadAs false bytes.now m) }
    ensures back { ReadBack false bytes.now result }
    ensures refused { IfErr result (λ e. RefusedAs false bytes.now e) }
{
    read_one(alloc, false, bytes)
}

/// Reads an emitted text as `read` does; it may have several clocks, each at one edge.
pub fn read_many(alloc: Global, bytes: &[u8]) -> Result<SvModule, Stop>
    ensures read { IfOk result (λ m. ReadAs true bytes.now m) }
    ensures back { ReadBack true bytes.now result }
    ensures refused { IfErr result (λ e. RefusedAs true bytes.now e) }
{
    read_one(alloc, true, bytes)
}
