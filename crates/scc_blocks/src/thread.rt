//! A thread's state and its counter of waits.
ghost use Rattle.std.specs.Prelude.{◌≡◌, ◌<◌};
ghost use Rattle.scc_blocks_spec.specs.Built.{IsFewest};

use scc_base::{NoMemory, lost};
use scc_states::Split;

/// The widths of a thread's state and counter, 0 where it has none.
#[derive(Clone, Copy)]
pub struct Widths {
    /// The fewest bits that hold the number of the last state; one state has no register.
    pub state: u32,
    /// The fewest bits that hold the greatest count less 1; threads whose waits all have the count 1 have no counter.
    pub counter: u32,
}

/// The fewest bits that hold a number, at least 1.
pub fn fewest_bits(n: u32) -> u32
    ensures fewest { 0 < n → IsFewest n result }
    ensures none { n ≡ 0 → result ≡ 1 }
{
    (32 - n.leading_zeros()).max(1)
}

pub fn widths_of(split: &Split) -> Result<Widths, NoMemory> {
    let Ok(states) = u32::try_from(split.waits.len()) else {
        return Err(lost());
    };
    let mut most = 0;
    for n in split.waits.as_slice() {
        let Some(left) = n.checked_sub(1) else {
            return Err(lost());
        };
        most = most.max(left);
    }
    Ok(Widths {
        state: if states > 1 {
            fewest_bits(states - 1)
        } else {
            0
        },
        counter: if most > 0 { fewest_bits(most) } else { 0 },
    })
}

/// The numbers that a thread's own variables have until all are declared: the last ones that a `u32` has.
pub const STATE: u32 = u32::MAX;

pub const NEXT_STATE: u32 = u32::MAX - 1;

pub const COUNTER: u32 = u32::MAX - 2;

pub const NEXT_COUNTER: u32 = u32::MAX - 3;
