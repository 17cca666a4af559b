//! What the command answers, and whether a page says so.
use scc_base::{CalmFiles, CalmSink, NoMemory};
use scc_drive::run;
use std::alloc::Global;

/// The status and both outputs of a command.
#[derive(Drop)]
pub struct Answer {
    pub status: u8,
    pub out: CalmSink,
    pub err: CalmSink,
}

/// What the command answers to these words over these files. Each word has one blank before it.
pub fn answer_to(alloc: Global, words: &str, files: &mut CalmFiles) -> Result<Answer, NoMemory> {
    let mut texts = Vec::new(alloc);
    for word in words.split(' ').skip(1) {
        texts.push(String::from_str(alloc, word)?)?;
    }
    let mut out = CalmSink::new(alloc);
    let mut err = CalmSink::new(alloc);
    let status = run(alloc, texts.as_slice(), files, &mut out, &mut err);
    Ok(Answer {
        status: status.number(),
        out,
        err,
    })
}

impl Answer {
    /// Whether it has status 0 and says nothing.
    pub fn is_silent(&self) -> bool {
        self.status == 0 && self.err.bytes().is_empty()
    }

    /// Whether it has status 0, says nothing and writes a text.
    pub fn is_text(&self) -> bool {
        self.is_silent() && !self.out.bytes().is_empty()
    }

    /// Whether a page shows it so: the output where the status is 0, else what is said. Behind it stands `[N]` where that is the
    /// status; else the status is 1 where the first line is a refusal, and else 0.
    pub fn is_told(&self, shown: &str) -> bool {
        let (text, status) = parted(shown);
        let (full, empty) = if status == 0 {
            (&self.out, &self.err)
        } else {
            (&self.err, &self.out)
        };
        self.status == status && empty.bytes().is_empty() && full.bytes() == text.as_bytes()
    }

    /// All of it, for a reader.
    pub fn whole(&self, alloc: Global) -> Result<String, NoMemory> {
        let mut text = format!(in alloc; "status {}\n", self.status)?;
        for bytes in [self.out.bytes(), self.err.bytes()] {
            for b in bytes {
                text.push(char::from(*b))?;
            }
        }
        Ok(text)
    }
}

/// The text of what a page shows, and the status.
fn parted(shown: &str) -> (&str, u8) {
    for (mark, status) in [("[2]\n", 2), ("[3]\n", 3), ("[4]\n", 4), ("[5]\n", 5)] {
        if let Some(text) = shown.strip_suffix(mark) {
            return (text, status);
        }
    }
    let is_refusal = match shown.split('\n').next() {
        Some(line) => line.contains(": E"),
        None => false,
    };
    (shown, u8::from(is_refusal))
}
