//! The macros in whose expansions a token stands.
ghost use Rattle.std.specs.Prelude.{◌≡◌, [], ◌∷◌, OnOk, OnErr, nat_eq};
ghost use Rattle.scc_tokens_directives.specs.Expand.{is_hidden, popped};

use scc_base::{Name, NoMemory};
use std::alloc::Global;
use std::marker::Model;

/// A macro's expansion, of which the token at `at` of its body comes next.
#[derive(Clone, Copy)]
pub struct Frame {
    pub name: u32,
    pub at: usize,
}

/// The expansions, each within the next, seen as a list with the innermost first.
#[derive(Drop)]
pub struct Frames {
    open: Vec<Frame>,
}

impl Model for Frames {
    ghost use Rattle.std.specs.Prelude.{List, reverse};
    ghost use Rattle.scc_tokens_directives.specs.declared.frames.Frame.{Frame};

    ghost Value = { List Frame };

    ghost view = { λ s. reverse s.open.items };
}

impl Frames {
    pub fn new(alloc: Global) -> Frames
        ensures { result ≡ [] }
    {
        Frames {
            open: Vec::new(alloc),
        }
    }

    /// Opens an expansion within the others.
    pub fn push(&mut self, frame: Frame) -> Result<(), NoMemory>
        ensures { OnOk result (self.new ≡ frame ∷ self.old) }
    {
        self.open.push(frame)?;
        Ok(())
    }

    /// Takes the innermost.
    pub fn pop(&mut self) -> Option<Frame>
        ensures { (result, self.new) ≡ popped self.old }
    {
        self.open.pop()
    }

    /// Whether this is the name of one of the macros.
    pub fn hide(&self, name: Name) -> bool
        ensures { result ≡ is_hidden name.0 self.now }
    {
        any_named(self.open.as_slice(), name.0)
    }
}

fn any_named(frames: &[Frame], name: u32) -> bool
    ensures { result ≡ is_hidden name frames.now }
{
    frames.iter().any(|f| name == f.name)
}
