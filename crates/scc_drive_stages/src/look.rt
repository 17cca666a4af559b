//! A look at the text before it is given.
ghost use Rattle.std.specs.Prelude.{◌≡◌, true, IfOk, IfErr};
ghost use Rattle.scc_svtext.specs.ModuleText.{module_text};
ghost use Rattle.scc_svread.specs.Read.{ReadAs, RefusedAs};
ghost use Rattle.scc_drive_stages.specs.Emitted.{IsEmitted, is_too_deep};

use scc_base::{NoMemory, Stop, Text, lost};
use scc_svread::{read, read_many};
use scc_svtree::SvModule;
use std::alloc::Global;

fn is_named(written: &SvModule, top: &[u8]) -> bool
    ensures { result ≡ true → written.now.name ≡ top.now }
{
    written.name.bytes() == top
}

// Whether the reader says that a part of the text stands too deep for it.
fn is_too_deep(stop: &Stop) -> bool
    ensures { result ≡ is_too_deep stop.now }
{
    match stop {
        Stop::Refused(refusal) => refusal.code.number() == 706,
        Stop::NoMemory => false,
    }
}

// What reads texts of one clock, or of several.
fn read_by(alloc: Global, many: bool, text: &[u8]) -> Result<SvModule, Stop>
    ensures read { IfOk result (λ m. ReadAs many text.now m) }
    ensures refused { IfErr result (λ e. RefusedAs many text.now e) }
{
    if many {
        read_many(alloc, text)
    } else {
        read(alloc, text)
    }
}

// Whether the text of a module is read back.
fn is_read_back(alloc: Global, many: bool, top: &[u8], written: &SvModule, text: &[u8]) -> bool
    requires text { text.now ≡ module_text written.now }
    requires named { written.now.name ≡ top.now }
    ensures { result ≡ true → IsEmitted many top.now text.now }
{
    match read_by(alloc, many, text) {
        Ok(found) => is_named(&found, top),
        Err(stop) => is_too_deep(&stop),
    }
}

/// The text of a module, where it is read back as one of this name, which may have several clocks where `many` says so. Where the
/// reader says only that a part stands too deep for it, the text is given, too.
pub fn looked_at(
    alloc: Global,
    many: bool,
    top: &[u8],
    written: &SvModule,
    text: Text,
) -> Result<Text, NoMemory>
    requires { text ≡ module_text written.now }
    ensures { IfOk result (λ t. IsEmitted many top.now t) }
{
    if !is_named(written, top) {
        return Err(lost());
    }
    if is_read_back(alloc, many, top, written, text.bytes()) {
        Ok(text)
    } else {
        Err(lost())
    }
}
