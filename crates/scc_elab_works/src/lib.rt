//! What constructors have still to do, and their steps that make no objects of classes (IEEE 1666-2011, 4.1): bindings, local
//! variables, elements, things, and statements that hold no others.
#![tactic(auto)]

mod binds;
mod elements;
mod inits;
mod laws;
mod locals;
mod moment;
mod places;
mod single;
mod things;
mod works;

pub use binds::bind;
pub use elements::{ElementPath, element_of, elements_of};
pub use inits::{is_if, makes_first};
pub use laws::declarations_clear_elements;
pub use locals::{begin, is_direct};
pub use moment::Moment;
pub use places::{simple_at, value_at};
pub use single::simple;
pub use things::{add_at, copied, given_at, last_word, make_thing, pass_all};
pub use works::{Args, ArrayOf, At, ElementsOf, Form, LeadOf, LoopOf, RunOf, VectorOf, Work};
