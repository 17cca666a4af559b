ghost use Rattle.std.specs.Prelude.{◌≡◌, ◌≤◌, ◌⊎◌, false, Result, Ok};
ghost use Rattle.std.specs.Io.KnownBytes.{Appends, Keeps};
ghost use Rattle.scc_base.specs.Outside.{Rose, Told};
ghost use Rattle.scc_drive.specs.Answer.{Ends, IsDone, IsRefused, IsMissing, HasFailed, IsCutShort};
ghost use Rattle.scc_drive.specs.Early.{IsDecidedEarly};
ghost use Rattle.scc_drive.specs.MainTheorem.{MainTheorem};
ghost use Rattle.scc_drive_errors.specs.Texts.{words_text};
ghost use Rattle.scc_drive_spec.specs.Whole.{WholeTheorem};
ghost use Rattle.scc_drive_spec.specs.Words.{are_words};

use crate::answer::answer;
use crate::say::{no_memory, output_failed, tell};
use scc_base::{Files, Sink, SinkFault, Status, put_all};
use std::alloc::Global;

/// Does all that the program does: reads the words, which are those after the program's name, and the files that they name, and
/// writes the command's output to `out`, or says on `err` why there is none. Each is handed whole to one `put_all`. It answers the
/// status with which the program ends:
///
/// | status | when | text on `err` |
/// |---|---|---|
/// | 0 | done | none |
/// | 1 | the source is refused | `FILE:LINE:COL: Ennn TEXT` |
/// | 2 | the words are no command | `scc: bad words` |
/// | 3 | a file is missing, or could not be read | `scc: missing NAME`, `scc: failed NAME` |
/// | 4 | memory ran out, which may take the place of any other status | `scc: no memory` |
/// | 5 | an output failed | `scc: output failed` |
pub fn run<F: Files, O: Sink, E: Sink>(
    alloc: Global,
    words: &[String],
    files: &mut F,
    out: &mut O,
    err: &mut E,
) -> Status
    ensures six { result ≤ 5 }
    // 0: the main theorem, where it is told what the files hold and that comes to a design
    ensures theorem { result ≡ 0 → Told (F.held files.old) (λ shelf. MainTheorem shelf words.now (O.taken out.old) (O.taken out.new)) }
    // 0: the text was written that what the files hold comes to, or that some files bring where it isn't told; and nothing was said
    ensures done { result ≡ 0 → IsDone words.now (F.held files.old) (O.taken out.old) (O.taken out.new) }
    ensures silent { result ≡ 0 → Keeps (E.taken err.old) (E.taken err.new) }
    // 1: the first refusal was said, with its place
    ensures refused { result ≡ 1 → IsRefused words.now (F.held files.old) (E.taken err.old) (E.taken err.new) }
    // 2: exactly where the words are bad, and it was said
    ensures words { result ≡ 2 → (are_words words.now ≡ false) × Appends (E.taken err.old) (E.taken err.new) words_text }
    ensures bad_words { are_words words.now ≡ false → (result ≡ 2) ⊎ (result ≡ 4) ⊎ (result ≡ 5) }
    // 3: a file is missing, or failed, where that count rose and the walk over the files asks for it, and it was said
    ensures absent { result ≡ 3 → IsMissing words.now (F.held files.old) (F.misses files.old) (F.misses files.new) (E.taken err.old) (E.taken err.new)
        ⊎ HasFailed words.now (F.held files.old) (F.faults files.old) (F.faults files.new) (E.taken err.old) (E.taken err.new) }
    // 5: an output failed where its count rose
    ensures failed { result ≡ 5 → Rose (O.faults out.old) (O.faults out.new) ⊎ Rose (E.faults err.old) (E.faults err.new) }
    // 1, 2 and 3, and bad words: nothing was written, whether or not it is told what the files hold
    ensures unwritten { are_words words.now ≡ false → O.taken out.new ≡ O.taken out.old }
    ensures kept { (result ≡ 1) ⊎ (result ≡ 2) ⊎ (result ≡ 3) → O.taken out.new ≡ O.taken out.old }
    // 4 and 5: a first part of an output that the command may have was written, or nothing was written and a first part of what it may say was
    // said; and then first parts of what is said of faults
    ensures part { (result ≡ 4) ⊎ (result ≡ 5) → IsCutShort words.now (F.held files.old) (F.misses files.old) (F.misses files.new) (F.faults files.old) (F.faults files.new) (O.taken out.old) (O.taken out.new) (E.taken err.old) (E.taken err.new) }
    // the whole theorem, where no stage after the grammar decides what the command comes to
    ensures whole { Told (F.held files.old) (λ shelf. IsDecidedEarly shelf words.now
        → WholeTheorem shelf words.now result (F.misses files.old) (F.misses files.new) (F.faults files.old) (F.faults files.new) (O.taken out.old) (O.taken out.new) (E.taken err.old) (E.taken err.new)) }
    // what the command comes to decides the status, but for want of memory and faults of the outside
    ensures ends { Told (F.held files.old) (λ shelf. Ends shelf words.now (F.faults files.old) (F.faults files.new) result) }
{
    match answer(alloc, words, files) {
        Ok(text) => match put_all(out, text.bytes()) {
            Ok(()) => Status::new(0),
            Err(SinkFault::Failed) => output_failed(err),
            Err(SinkFault::NoMemory) => no_memory(err),
        },
        Err(stopped) => tell(alloc, err, stopped),
    }
}
