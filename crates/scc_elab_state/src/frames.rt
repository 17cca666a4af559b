//! Constructors that run.
use crate::spots::SpotId;

/// A constructor's run. The members of an object whose class has no constructor are made in one, too.
#[derive(Clone, Copy)]
pub struct Frame {
    pub class: u32,
    /// The constructor's function.
    pub function: Option<u32>,
    /// The object that is made.
    pub object: u32,
    /// Where it stands.
    pub this: SpotId,
    /// The last process that the constructor declared.
    pub process: Option<u32>,
}
