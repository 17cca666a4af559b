//! Adapters. They tell nothing of what they hold, so of them no clause says more than their traits.
ghost use Rattle.std.specs.Prelude.{◌≡◌, ◌≤◌, length, IfOk};

use scc_base::{FileFault, Files, Sink, SinkFault};
use std::alloc::Global;
use std::fs;
use std::io::{ErrorKind, Read, Write};
use std::rt::Files as System;

/// The files of the system.
#[derive(Drop)]
pub struct Disk<'a, R> {
    rt: &'a R,
    /// How many reads found no file.
    pub misses: u64,
    /// How many reads failed otherwise.
    pub faults: u64,
}

impl<'a, R> Disk<'a, R> {
    /// The files of a runtime, with both counts at 0.
    pub fn new(rt: &'a R) -> Self
        ensures no_miss { result.misses ≡ 0 }
        ensures no_fault { result.faults ≡ 0 }
    {
        Disk {
            rt,
            misses: 0,
            faults: 0,
        }
    }
}

impl<R: System> Files for Disk<'_, R> {
    ghost use Rattle.std.specs.Prelude.{None};

    ghost held = { λ _. None };

    ghost misses = { λ d. d.misses };

    ghost faults = { λ d. d.faults };

    fn read(&mut self, alloc: Global, name: &str, limit: u64) -> Result<Vec<u8>, FileFault> {
        let mut file = match fs::open(self.rt, name) {
            Ok(file) => file,
            Err(e) => {
                if e.kind() == ErrorKind::NotFound {
                    self.misses = self.misses.saturating_add(1);
                    return Err(FileFault::Missing);
                }
                self.faults = self.faults.saturating_add(1);
                return Err(FileFault::Failed);
            }
        };
        match first_bytes(alloc, &mut file, limit) {
            Ok(bytes) => Ok(bytes),
            Err(Halt::NoMemory) => Err(FileFault::NoMemory),
            Err(Halt::Failed) => {
                self.faults = self.faults.saturating_add(1);
                Err(FileFault::Failed)
            }
        }
    }
}

/// Why reading stops.
enum Halt {
    Failed,
    NoMemory,
}

// The first bytes that a reader gives, at most `limit` of them. Each turn takes at least one.
fn first_bytes<R: Read>(alloc: Global, reader: &mut R, limit: u64) -> Result<Vec<u8>, Halt>
    ensures short { IfOk result (λ v. length v.items ≤ limit) }
{
    let mut bytes = Vec::new(alloc);
    let mut buffer = [0u8; 4096];
    for _ in 0..limit {
        let room = limit - bytes.len() as u64;
        let most = if room < 4096 { room as usize } else { 4096 };
        match reader.read(&mut buffer[..most]) {
            Ok(0) => return Ok(bytes),
            Ok(n) => {
                if bytes.extend_from_slice(&buffer[..n]).is_err() {
                    return Err(Halt::NoMemory);
                }
            }
            Err(_) => return Err(Halt::Failed),
        }
    }
    Ok(bytes)
}

/// An output of the system.
#[derive(Drop)]
pub struct Stream<W> {
    inner: W,
    /// How many writes failed.
    pub faults: u64,
}

impl<W> Stream<W> {
    /// An output with its count at 0.
    pub fn new(inner: W) -> Self
        ensures no_fault { result.faults ≡ 0 }
    {
        Stream { inner, faults: 0 }
    }
}

impl<W: Write> Sink for Stream<W> {
    ghost use Rattle.std.specs.Prelude.{None};

    ghost taken = { λ _. None };

    ghost faults = { λ s. s.faults };

    fn write(&mut self, bytes: &[u8]) -> Result<usize, SinkFault> {
        match self.inner.write(bytes) {
            Ok(n) if n > 0 || bytes.is_empty() => Ok(n),
            _ => {
                self.faults = self.faults.saturating_add(1);
                Err(SinkFault::Failed)
            }
        }
    }
}
