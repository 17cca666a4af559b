ghost use Rattle.std.specs.Prelude.{◌≡◌, ◌≤◌, ℕ, List, Option, length, take, IfOk, OnOk, OnErr, None, [], Err};
ghost use Rattle.std.specs.Io.KnownBytes.{Appends};
ghost use Rattle.scc_base.specs.declared.outside.FileFault.TheVariants as file_fault;
ghost use Rattle.scc_base.specs.declared.outside.SinkFault.TheVariants as sink_fault;
ghost use Rattle.scc_base.specs.Outside.{Rose, Shelf, Told, HoldsFirst, AppendsPart};

use std::alloc::Global;
use thiserror::Error;

/// Why a file was not read.
#[derive(Clone, Copy, Debug, Error)]
pub enum FileFault {
    /// No file has the name.
    #[error("no such file")]
    Missing,
    /// The file could not be read.
    #[error("the file was not read")]
    Failed,
    /// There was no memory for its bytes.
    #[error("no memory")]
    NoMemory,
}

/// Why a piece was not written.
#[derive(Clone, Copy, Debug, Error)]
pub enum SinkFault {
    /// The output takes nothing any more, or not now.
    #[error("the output failed")]
    Failed,
    /// There was no memory for the bytes.
    #[error("no memory")]
    NoMemory,
}

/// Files by name. Neither count ever falls, and each stands still at 2^64 - 1.
pub trait Files {
    /// The bytes that each name holds, or that it holds none; None where this is not told.
    ghost held: { Self → Option Shelf };

    /// How many reads found no file of the name.
    ghost misses: { Self → ℕ };

    /// How many reads failed.
    ghost faults: { Self → ℕ };

    /// Gives the first bytes that the name holds, all of them or `limit`, and leaves what is held as it was.
    /// `Missing` comes only where the misses rose, and `Failed` only where the faults rose.
    fn read(&mut self, alloc: Global, name: &str, limit: u64) -> Result<Vec<u8>, FileFault>
        ensures short { IfOk result (λ v. length v.items ≤ limit) }
        ensures content { IfOk result (λ v. Told (held self.old) (λ shelf. HoldsFirst shelf name.now limit v.items)) }
        ensures kept { held self.new ≡ held self.old }
        ensures no_fewer_misses { misses self.old ≤ misses self.new }
        ensures no_fewer_faults { faults self.old ≤ faults self.new }
        ensures missing { result ≡ Err file_fault.Missing → Rose (misses self.old) (misses self.new) }
        ensures absent { result ≡ Err file_fault.Missing → Told (held self.old) (λ shelf. shelf name.now ≡ None) }
        ensures failed { result ≡ Err file_fault.Failed → Rose (faults self.old) (faults self.new) };
}

/// An output. Its count never falls, and it stands still at 2^64 - 1.
pub trait Sink {
    /// The bytes that were taken so far, in order; None where they are not told.
    ghost taken: { Self → Option (List ℕ) };

    /// How many writes failed.
    ghost faults: { Self → ℕ };

    /// Takes a first part of the piece, at least one byte of a piece that is not empty, and gives its length in bytes.
    /// After an error nothing was taken. `Failed` comes only where the faults rose.
    fn write(&mut self, bytes: &[u8]) -> Result<usize, SinkFault>
        ensures some { IfOk result (λ n. n ≡ 0 → bytes.now ≡ []) }
        ensures within { IfOk result (λ n. n ≤ length bytes.now) }
        ensures written { IfOk result (λ n. Appends (taken self.old) (taken self.new) (take n bytes.now)) }
        ensures kept { OnErr result (taken self.new ≡ taken self.old) }
        ensures no_fewer_faults { faults self.old ≤ faults self.new }
        ensures failed { result ≡ Err sink_fault.Failed → Rose (faults self.old) (faults self.new) };
}

/// Writes all the bytes, piece by piece: each turn writes at least one byte, so there are at most as many turns as
/// bytes. After an error a first part of them was written. It takes no memory of its own, so `NoMemory` is the sink's
/// answer, and `Failed` comes only where the sink's faults rose.
pub fn put_all<S: Sink>(sink: &mut S, bytes: &[u8]) -> Result<(), SinkFault>
    ensures whole { OnOk result (Appends (S.taken sink.old) (S.taken sink.new) bytes.now) }
    ensures part { OnErr result (AppendsPart (S.taken sink.old) (S.taken sink.new) bytes.now) }
    ensures no_fewer_faults { S.faults sink.old ≤ S.faults sink.new }
    ensures failed { result ≡ Err sink_fault.Failed → Rose (S.faults sink.old) (S.faults sink.new) }
{
    let mut rest = bytes;
    while !rest.is_empty() {
        let taken = sink.write(rest)?;
        rest = &rest[taken..];
    }
    Ok(())
}
