//! Flat code over slots: the form in which the runner of the source side runs statements. Expressions are acts on words of 128
//! bits, statements end in jumps, and a call has a frame of slots of its own.
//!
//! `step` has the steps, `act` what each does, `machine` and `thread` run them; `store` and `place` hold words and
//! places, `requests` what was asked of signals, `calls` frames; `forms` and `maker` make code.
#![tactic(auto)]

mod act;
mod calls;
mod forms;
mod machine;
mod maker;
mod place;
mod requests;
mod step;
mod store;
mod thread;

pub use act::{Act, Line, Object};
pub use calls::{Body, Calls};
pub use forms::{Form, formed, operated};
pub use machine::{Halt, Machine};
pub use maker::{Code, Label, Maker};
pub use place::{Frame, NOWHERE, NULL, Operand, Place};
pub use store::Store;
pub use thread::Thread;
