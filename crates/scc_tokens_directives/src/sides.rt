//! The conditionals that are open at a place of a file.
ghost use Rattle.std.specs.Prelude.{◌≡◌, [], ◌∷◌, OnOk, OnErr, IfOk, false};
ghost use Rattle.scc_tokens_directives.specs.Sides.{is_live, turned, closed};

use scc_base::NoMemory;
use std::alloc::Global;
use std::marker::Model;

/// The side of a conditional.
#[derive(Clone, Copy)]
pub struct Side {
    /// Whether the text around the conditional is active.
    pub outer: bool,
    /// Whether this side is chosen.
    pub taken: bool,
    /// Whether it is the side after `#else`.
    pub other: bool,
}

/// The sides that are open, seen as a list with the innermost first.
#[derive(Drop)]
pub struct Sides {
    open: Vec<Side>,
}

impl Model for Sides {
    ghost use Rattle.std.specs.Prelude.{List, reverse};
    ghost use Rattle.scc_tokens_directives.specs.declared.sides.Side.{Side};

    ghost Value = { List Side };

    ghost view = { λ s. reverse s.open.items };
}

impl Sides {
    /// No side is open.
    pub fn new(alloc: Global) -> Sides
        ensures { result ≡ [] }
    {
        Sides {
            open: Vec::new(alloc),
        }
    }

    /// Whether the text here is active.
    pub fn live(&self) -> bool
        ensures { result ≡ is_live self.now }
    {
        match self.open.last() {
            None => true,
            Some(side) => side.outer && side.taken,
        }
    }

    /// Opens a conditional, whose first side is chosen or not.
    pub fn open(&mut self, taken: bool) -> Result<(), NoMemory>
        ensures ok { OnOk result (self.new ≡ record { outer = is_live self.old; taken = taken; other = false } ∷ self.old) }
        ensures err { OnErr result (self.new ≡ self.old) }
    {
        let outer = self.live();
        self.open.push(Side {
            outer,
            taken,
            other: false,
        })?;
        Ok(())
    }

    /// Turns to the other side; false where there is none. After an Err nothing is known of the sides.
    pub fn turn(&mut self) -> Result<bool, NoMemory>
        ensures { IfOk result (λ ok. (ok, self.new) ≡ turned self.old) }
    {
        let Some(side) = self.open.pop() else {
            return Ok(false);
        };
        let turned = if side.other {
            side
        } else {
            Side {
                outer: side.outer,
                taken: !side.taken,
                other: true,
            }
        };
        self.open.push(turned)?;
        Ok(!side.other)
    }

    /// Closes a conditional; false where none is open.
    pub fn close(&mut self) -> bool
        ensures { (result, self.new) ≡ closed self.old }
    {
        self.open.pop().is_some()
    }
}
