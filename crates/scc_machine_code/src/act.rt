//! The acts of flat code.
use crate::forms::Form;
use crate::place::{Operand, Place};
use scc_bits::Op;

/// An act, and what it costs in steps of the machine.
#[derive(Clone, Copy)]
pub struct Line {
    pub cost: u32,
    pub act: Act,
}

/// The object whose function is called.
#[derive(Clone, Copy)]
pub enum Object {
    /// A free function has none.
    Missing,
    /// That of the caller.
    This,
    /// That to which the location of that number leads; it may be null.
    Spot(u32),
}

/// What code does. `to` is the number of a word in between, `spot` that of a location.
#[derive(Clone, Copy)]
pub enum Act {
    /// The low bits of an operator's answer for numbers of 128 bits.
    Operate {
        op: Op,
        signed: bool,
        bits: u8,
        to: u32,
        left: Operand,
        right: Operand,
    },
    Change {
        form: Form,
        to: u32,
        of: Operand,
    },
    Choose {
        to: u32,
        test: Operand,
        yes: Operand,
        no: Operand,
    },
    /// The bit of that number of a word of so many bits.
    Bit {
        bits: u8,
        to: u32,
        of: Operand,
        index: Operand,
    },
    /// So many bits from one on.
    Part {
        at: u8,
        bits: u8,
        to: u32,
        of: Operand,
    },
    /// A word above so many bits of another one.
    Join {
        low: u8,
        to: u32,
        high: Operand,
        of: Operand,
    },
    /// A word with so many bits replaced from one on.
    Splice {
        at: u8,
        bits: u8,
        to: u32,
        of: Operand,
        part: Operand,
    },
    /// A word of so many bits with one replaced.
    SpliceBit {
        bits: u8,
        to: u32,
        of: Operand,
        index: Operand,
        bit: Operand,
    },
    Store {
        to: Place,
        of: Operand,
    },
    /// A port or signal is asked to show a word.
    Write {
        to: Place,
        of: Operand,
    },
    /// So many slots of the running call are 0 and null.
    Clear {
        first: u32,
        count: u32,
    },
    /// The location of a slot. A soft one may stand behind null, and is null there.
    Take {
        spot: u32,
        at: Place,
        soft: bool,
    },
    /// Where a pointer leads.
    Follow {
        spot: u32,
        at: Place,
        soft: bool,
    },
    /// The first slot of the object that stands in a slot.
    Enter {
        spot: u32,
        at: Place,
        soft: bool,
    },
    /// So many slots further on.
    Behind {
        spot: u32,
        by: u32,
    },
    /// An element of an array: how many there are, and how many slots each has.
    Element {
        spot: u32,
        size: u32,
        stride: u32,
        index: Operand,
    },
    /// An element of the vector that stands in a slot.
    Row {
        spot: u32,
        at: Place,
        soft: bool,
        index: Operand,
    },
    Forget {
        spot: u32,
    },
    /// The pointer in a slot leads to a location.
    Point {
        at: Place,
        spot: u32,
    },
    Go(u32),
    /// Goes to the line of that number where the word is 0.
    Unless {
        test: Operand,
        to: u32,
    },
    IfNull {
        spot: u32,
        to: u32,
    },
    Wait(u32),
    /// The call of that number begins: its arguments follow, and then it is entered.
    Begin {
        number: u32,
        function: u32,
    },
    /// The parameter in that slot is given a word.
    Pass {
        slot: u32,
        of: Operand,
    },
    /// The parameter in that slot leads to a location.
    PassSpot {
        slot: u32,
        spot: u32,
    },
    /// The call that was begun is entered. `answer` is the caller's slot that takes its result.
    Call {
        function: u32,
        object: Object,
        answer: u32,
    },
    /// The result of the running call.
    Answer(Operand),
    /// The running call ends.
    Leave,
    /// No run goes on here.
    Stick,
    Rest,
}

/// The act with lines in place of labels.
pub fn targeted(act: Act, labels: &[u32]) -> Act {
    match act {
        Act::Go(to) => Act::Go(line_of(labels, to)),
        Act::Unless { test, to } => Act::Unless {
            test,
            to: line_of(labels, to),
        },
        Act::IfNull { spot, to } => Act::IfNull {
            spot,
            to: line_of(labels, to),
        },
        _ => act,
    }
}

// A label that was not set is no line.
fn line_of(labels: &[u32], label: u32) -> u32 {
    match labels.get(label as usize) {
        Some(line) => *line,
        None => u32::MAX,
    }
}
