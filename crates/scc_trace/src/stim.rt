//! Ports and steps.
use scc_base::{List, Text};
use scc_bits::Word;

/// A port of the module that is run.
#[derive(Drop)]
pub struct StimPort {
    pub name: Text,
    /// In bits.
    pub width: u32,
}

/// A version of stimuli: in the first every step has an edge, in the second a step may have none.
#[derive(Clone, Copy, PartialEq, Eq)]
pub enum Version {
    One,
    Two,
}

/// A step of a stimulus.
#[derive(Drop)]
pub struct StimStep {
    /// Whether the clock has an edge once the inputs are set.
    pub edge: bool,
    /// A word for each input but the clock, in the order of the ports.
    pub words: List<Word>,
}

/// The steps of a stimulus of version 1 or 2, in order.
pub type Stim = List<StimStep>;

/// A step of a stimulus for more than one clock.
#[derive(Drop)]
pub struct ClockStep {
    /// Bit i is 1 where the i-th clock has an edge.
    pub mask: Word,
    /// A word for each input but the clocks, in the order of the ports.
    pub words: List<Word>,
}

/// The steps of a stimulus of version 3, in order.
pub type ClockStim = List<ClockStep>;
