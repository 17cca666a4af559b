//! A page of cases, read line by line.
use crate::answer::{Answer, answer_to};
use crate::fill::{expanded, filled, lines_of};
use scc_base::{CalmFiles, NoMemory};
use std::alloc::Global;

/// What a fence holds.
#[derive(Clone, Copy)]
enum Fence {
    Console,
    Cases,
    Frame,
    /// A file, and whether the last line feed belongs to the fence.
    File(bool),
}

/// What was read of a page.
#[derive(Drop)]
pub struct Page {
    alloc: Global,
    files: CalmFiles,
    frame: String,
    differences: String,
    told: u64,
    wrong: u64,
}

impl Page {
    /// A page of which nothing was read.
    pub fn new(alloc: Global) -> Result<Self, NoMemory> {
        Ok(Page {
            alloc,
            files: CalmFiles::new(alloc),
            frame: String::from_str(alloc, "{{source}}")?,
            differences: String::new(alloc),
            told: 0,
            wrong: 0,
        })
    }

    /// How many answers are those of the page.
    pub fn told(&self) -> u64 {
        self.told
    }

    /// How many are not.
    pub fn wrong(&self) -> u64 {
        self.wrong
    }

    /// Those that are not, each behind what was asked.
    pub fn differences(&self) -> &str {
        self.differences.as_str()
    }

    /// Reads the page, and asks what it asks.
    pub fn read(&mut self, text: &str) -> Result<(), NoMemory> {
        let mut fence: Option<Fence> = None;
        let mut name = "";
        let mut body = String::new(self.alloc);
        for line in text.split('\n') {
            match fence {
                None => {
                    if let Some(head) = line.strip_prefix("```") {
                        let (kind, file) = opened(head);
                        fence = Some(kind);
                        name = file;
                        body.clear();
                    }
                }
                Some(kind) if line == "```" => {
                    self.close(kind, name, body.as_str())?;
                    fence = None;
                }
                Some(_) => {
                    body.push_str(line)?;
                    body.push_str("\n")?;
                }
            }
        }
        if fence.is_some() {
            self.wrong = self.wrong.saturating_add(1);
            self.differences.push_str("a fence isn't closed\n")?;
        }
        Ok(())
    }

    fn close(&mut self, kind: Fence, name: &str, body: &str) -> Result<(), NoMemory> {
        match kind {
            Fence::Console => self.console(without_last_feed(body)),
            Fence::Cases => self.cases(without_last_feed(body)),
            Fence::Frame => {
                self.frame = String::from_str(self.alloc, without_last_feed(body))?;
                Ok(())
            }
            Fence::File(is_cut) => {
                let text = if is_cut {
                    without_last_feed(body)
                } else {
                    body
                };
                let whole = expanded(self.alloc, text)?;
                self.files.add(name, whole.as_bytes())
            }
        }
    }

    // Commands, each with what is printed below it.
    fn console(&mut self, body: &str) -> Result<(), NoMemory> {
        let mut command: Option<&str> = None;
        let mut wanted = String::new(self.alloc);
        for line in body.split('\n') {
            match line.strip_prefix("$ scc") {
                Some(words) => {
                    self.command(command, wanted.as_str())?;
                    command = Some(words);
                    wanted.clear();
                }
                None => {
                    wanted.push_str(line)?;
                    wanted.push_str("\n")?;
                }
            }
        }
        self.command(command, wanted.as_str())
    }

    // A command by what stands behind the program's name, and what is printed.
    fn command(&mut self, command: Option<&str>, wanted: &str) -> Result<(), NoMemory> {
        let Some(command) = command else {
            return Ok(());
        };
        let wanted = expanded(self.alloc, wanted)?;
        let (words, name) = match command.split_once(" > ") {
            Some((words, name)) => (words, Some(name)),
            None => (command, None),
        };
        let answer = self.ask(words)?;
        match name {
            Some(name) if answer.is_silent() && wanted.is_empty() => {
                self.told = self.told.saturating_add(1);
                self.files.add(name, answer.out.bytes())
            }
            None => self.compare(command, &answer, answer.is_told(wanted.as_str())),
            Some(_) => self.compare(command, &answer, false),
        }
    }

    // Blocks of lines, each the source of a case.
    fn cases(&mut self, body: &str) -> Result<(), NoMemory> {
        for block in body.split("\n\n") {
            self.case(block)?;
        }
        Ok(())
    }

    fn case(&mut self, block: &str) -> Result<(), NoMemory> {
        self.put_source(block)?;
        let says = lines_of(self.alloc, block, "says")?;
        let answer = self.ask(" compile T a.cpp")?;
        if says.as_str() == "accepted" {
            return self.compare(block, &answer, answer.is_text());
        }
        let wanted = format!(in self.alloc; "a.cpp:{says}\n")?;
        self.compare(block, &answer, answer.is_told(wanted.as_str()))
    }

    // The frame with a block's lines becomes the file that is asked about.
    fn put_source(&mut self, block: &str) -> Result<(), NoMemory> {
        let source = filled(self.alloc, self.frame.as_str(), block)?;
        let source = expanded(self.alloc, source.as_str())?;
        self.files.add("a.cpp", source.as_bytes())
    }

    // What the command answers to words that have one blank before each.
    fn ask(&mut self, words: &str) -> Result<Answer, NoMemory> {
        answer_to(self.alloc, words, &mut self.files)
    }

    // Counts an answer, and keeps it where the page doesn't have it.
    fn compare(&mut self, asked: &str, answer: &Answer, is_told: bool) -> Result<(), NoMemory> {
        if is_told {
            self.told = self.told.saturating_add(1);
            return Ok(());
        }
        self.wrong = self.wrong.saturating_add(1);
        let whole = answer.whole(self.alloc)?;
        self.differences.push_str(asked)?;
        self.differences.push_str("\n")?;
        self.differences.push_str(whole.as_str())?;
        Ok(())
    }
}

/// What the words behind a fence say of it, and the name of its file.
fn opened(head: &str) -> (Fence, &str) {
    let (language, name) = match head.split_once(" ") {
        Some((language, name)) => (language, name),
        None => (head, "a.cpp"),
    };
    let kind = match language {
        "console" => Fence::Console,
        "cases" => Fence::Cases,
        "frame" => Fence::Frame,
        _ => Fence::File(language == "cpp"),
    };
    (kind, name)
}

fn without_last_feed(text: &str) -> &str {
    match text.strip_suffix("\n") {
        Some(cut) => cut,
        None => text,
    }
}
