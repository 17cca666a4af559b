//! What stands round a statement or an expression.
ghost use Rattle.std.specs.Prelude.{◌≡◌, ◌+◌, ◌||◌, IfOk, option_map, true};
ghost use Rattle.scc_plain_drafts.specs.Flows.{flow_in};
ghost use Rattle.scc_plain_spec.specs.Switch as spec;

use scc_base::{NoMemory, lost};

// No source has expressions and statements nested so deep: at most 128 levels of brackets, with one operator of each precedence
// in each, and as many statements.
const ROOM: u32 = 8_192;

/// What stands round a statement or an expression. A number of a block counts outward from 0.
#[derive(Clone, Copy, PartialEq, Eq)]
pub struct Flow {
    /// Whether no call may stand here.
    pub forbidden: bool,
    /// The block that `break` leaves, where there is one.
    pub leave: Option<u32>,
    /// The block that `continue` leaves, where there is one.
    pub next: Option<u32>,
    /// How many further levels there may be.
    pub room: u32,
}

fn outward(block: Option<u32>, by: u32) -> Result<Option<u32>, NoMemory>
    ensures { IfOk result (λ b. b ≡ option_map (λ n. n + by) block) }
{
    match block {
        Some(n) => Ok(Some(n.checked_add(by).ok_or(lost())?)),
        None => Ok(None),
    }
}

impl Flow {
    /// That of a body.
    pub fn start() -> Flow
        ensures { flow_in result ≡ spec.start }
    {
        Flow {
            forbidden: false,
            leave: None,
            next: None,
            room: ROOM,
        }
    }

    /// Where no call may stand.
    pub fn without_calls(self) -> Flow
        ensures room { result.room ≡ self.room }
        ensures is { flow_in result ≡ record { leave = self.leave; next = self.next; late = true } }
    {
        Flow {
            forbidden: true,
            leave: self.leave,
            next: self.next,
            room: self.room,
        }
    }

    /// Where no call may stand if it is one whose operand isn't always evaluated.
    pub fn lazily(self, lazy: bool) -> Flow
        ensures room { result.room ≡ self.room }
        ensures is { flow_in result ≡ record { leave = self.leave; next = self.next; late = self.forbidden || lazy } }
    {
        if lazy { self.without_calls() } else { self }
    }

    /// Inside so many further blocks.
    pub fn inside(self, blocks: u32) -> Result<Flow, NoMemory>
        ensures room { IfOk result (λ f. f.room ≡ self.room) }
        ensures is { IfOk result (λ f. flow_in f ≡ record { leave = option_map (λ n. n + blocks) self.leave; next = option_map (λ n. n + blocks) self.next; late = self.forbidden }) }
    {
        Ok(Flow {
            forbidden: self.forbidden,
            leave: outward(self.leave, blocks)?,
            next: outward(self.next, blocks)?,
            room: self.room,
        })
    }

    /// With a block that `break` leaves, and one that `continue` leaves.
    pub fn within(self, leave: Option<u32>, next: Option<u32>) -> Flow
        ensures room { result.room ≡ self.room }
        ensures is { flow_in result ≡ record { leave = leave; next = next; late = self.forbidden } }
    {
        Flow {
            forbidden: self.forbidden,
            leave,
            next,
            room: self.room,
        }
    }

    /// One level deeper.
    pub fn deeper(self) -> Result<Flow, NoMemory>
        ensures room { IfOk result (λ f. f.room + 1 ≡ self.room) }
        ensures is { IfOk result (λ f. flow_in f ≡ flow_in self) }
    {
        if self.room == 0 {
            return Err(lost());
        }
        Ok(Flow {
            forbidden: self.forbidden,
            leave: self.leave,
            next: self.next,
            room: self.room - 1,
        })
    }
}
