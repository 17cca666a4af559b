//! Asks the command what pages of cases ask, and prints each answer that isn't the one on the page.
//!
//! The words are names of pages. A page is Markdown; what stands between its fences is for readers:
//!
//! - A fence of `console` has lines `$ scc WORDS`, each with what it prints below it: what it writes where the status is 0, else
//!   what it says. A line `[N]` behind that is the status; without one it is 1 where the first line is a refusal, else 0. With
//!   `> NAME` behind the words, the output becomes a file of this name and isn't printed. Words are parted by single blanks.
//! - A fence of `cases` has blocks of lines, parted by empty lines. Each is a source that `scc compile T a.cpp` is asked of:
//!   the line `says:` is what it says without `a.cpp:`, or `accepted`; the others fill the holes of the frame, `NAME:` those
//!   that are written `{{NAME}}`. Several lines of a name are lines of the text.
//! - A fence of `frame` is the frame of the cases behind it. Without one it is `{{source}}`.
//! - Any other fence is a file: its second word is the name, `a.cpp` where there is none. It stays until another has its name. In
//!   a fence of `cpp` the last line feed belongs to the fence.
//!
//! In files and sources, `{{N*TEXT}}` is N times the text, and `{#}` in it the number of the time, from 0.
#![tactic(auto)]

mod answer;
mod fill;
mod page;

use page::Page;
use scc_base::NoMemory;
use std::{env, fs, io};
use thiserror::Error;

/// Why a page isn't read to its end.
#[derive(Debug, Drop, Error)]
enum Fault {
    #[error("{0}")]
    System(#[from] io::Error),
    #[error("{0}")]
    NoMemory(#[from] NoMemory),
}

fn main(rt: HostRuntime) -> Result<(), Fault> {
    for name in env::args(&rt)?.skip(1) {
        let text = fs::read_to_string(&rt, name.as_str())?;
        let mut page = Page::new(rt.alloc())?;
        page.read(text.as_str())?;
        print!(rt; "{}", page.differences())?;
        println!(rt; "{name}: {} as told, {} not", page.told(), page.wrong())?;
    }
    Ok(())
}
