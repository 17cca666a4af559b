ghost use Rattle.std.specs.Prelude.{◌≡◌, [], ◌∷◌, ◌++◌, length, OnOk, OnErr, IfOk};

use crate::{Name, NoMemory};
use smallvec::SmallVec;
use std::alloc::Global;
use std::marker::Model;

/// A step from an object to one that it holds.
#[derive(Clone, Copy, Debug, PartialEq, Eq, Hash)]
pub enum PathPart {
    /// The member of that name.
    Member(Name),
    /// The element of that number, counted from 0.
    Index(u32),
}

impl Default for PathPart {
    fn default() -> Self {
        PathPart::Index(0)
    }
}

/// Where an object stands in the hierarchy, from the top down; the top has the empty path. Contracts see its parts.
pub struct Path {
    parts: SmallVec<PathPart, 4>,
}

impl Drop for Path {
    fn drop(self) {
        let Path { parts: _parts } = self;
    }
}

impl Model for Path {
    ghost use Rattle.std.specs.Prelude.{List};
    ghost use Rattle.scc_base.specs.declared.path.PathPart.{PathPart};

    ghost Value = { List PathPart };

    ghost view = { λ p. p.parts.items };
}

impl Path {
    /// The empty path. It takes no memory.
    pub fn new(alloc: Global) -> Path
        ensures empty { result ≡ [] }
    {
        Path {
            parts: SmallVec::new(alloc),
        }
    }

    /// The path of some parts.
    pub fn of(alloc: Global, parts: &[PathPart]) -> Result<Path, NoMemory>
        ensures parts { IfOk result (λ p. p ≡ parts.now) }
    {
        Ok(Path {
            parts: SmallVec::from_slice(alloc, parts)?,
        })
    }

    /// Appends a part. Where memory runs out, the path is as it was.
    pub fn push(&mut self, part: PathPart) -> Result<(), NoMemory>
        ensures ok { OnOk result (self.new ≡ self.old ++ part ∷ []) }
        ensures err { OnErr result (self.new ≡ self.old) }
    {
        self.parts.push(part)?;
        Ok(())
    }

    /// How many parts there are.
    pub fn len(&self) -> usize
        ensures length { result ≡ length self.now }
    {
        self.parts.len()
    }

    /// The parts.
    pub fn as_slice(&self) -> &[PathPart]
        ensures parts { result.now ≡ self.now }
    {
        self.parts.as_slice()
    }
}
