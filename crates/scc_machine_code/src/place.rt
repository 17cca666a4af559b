//! Where words stand. A slot is the number of a word and a link: what a variable holds, and where a pointer leads.

/// Where a null pointer leads.
pub const NULL: u32 = u32::MAX;

/// A location where nothing stands. So is every greater number but null.
pub const NOWHERE: u32 = 1 << 31;

/// A slot, as code names it.
#[derive(Clone, Copy)]
pub enum Place {
    /// So many slots after the first of the running call.
    Local(u32),
    /// So many slots after the first of the object whose function runs.
    Member(u32),
    /// The slot whose number the location of that number holds.
    Spot(u32),
}

/// A word, as code names it.
#[derive(Clone, Copy)]
pub enum Operand {
    /// The constant in that slot.
    Constant(u32),
    /// The word of that number that was worked out in between.
    Temporary(u32),
    /// What the variable in that slot holds.
    Held(Place),
    /// What the port or signal in that slot shows.
    Shown(Place),
}

/// A call that runs.
#[derive(Clone, Copy)]
pub struct Frame {
    /// The line after the call.
    pub back: u32,
    /// Its first slot.
    pub base: u32,
    /// The first slot of the object whose function it is.
    pub this: u32,
    /// The number of its function's activation.
    pub activation: u32,
    /// The slot that takes its result.
    pub answer: u32,
}

/// So many slots behind one. Behind nothing and behind null stands what stands there.
#[inline(always)]
pub fn behind(at: u32, by: u32) -> u32 {
    if at < NOWHERE {
        at.saturating_add(by)
    } else {
        at
    }
}
