//! `scc` compiles a SystemC module to SystemVerilog.
#![tactic(auto)]

use scc_base::{Sink, SinkFault, put_all};
use scc_drive::run;
use scc_system::{Disk, Stream};
use std::alloc::Global;
use std::io::ErrorKind;
use std::process::ExitCode;
use std::rt::Env;
use std::{env, io};

fn main(rt: HostRuntime) -> ExitCode {
    let alloc = rt.alloc();
    let mut files = Disk::new(&rt);
    let mut out = Stream::new(rt.stdout());
    let mut err = Stream::new(rt.stderr());
    let status = match words(&rt, alloc) {
        Ok(words) => run(alloc, words.as_slice(), &mut files, &mut out, &mut err).number(),
        // words that are no UTF-8 are bad words, as no words are
        Err(e) if e.kind() == ErrorKind::InvalidData => {
            run(alloc, &[], &mut files, &mut out, &mut err).number()
        }
        Err(_) => no_memory(&mut err),
    };
    ExitCode::from(status)
}

// The words behind the program's name.
fn words(rt: &(impl Env + AllocGlobal), alloc: Global) -> io::Result<Vec<String>> {
    let mut words = Vec::new(alloc);
    for word in env::args(rt)?.skip(1) {
        words.push(word)?;
    }
    Ok(words)
}

// The status where there is no memory for the words.
fn no_memory<E: Sink>(err: &mut E) -> u8 {
    match put_all(err, b"scc: no memory\n") {
        Ok(()) | Err(SinkFault::NoMemory) => 4,
        Err(SinkFault::Failed) => match put_all(err, b"scc: output failed\n") {
            Ok(()) | Err(_) => 5,
        },
    }
}
