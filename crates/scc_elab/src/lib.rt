//! Construction: the top's constructor is run, and what it leaves is the design (IEEE 1666-2011, 4.1: elaboration).
//!
//! Construction is run by two stacks of tasks, since constructors nest as deep as paths, blocks as deep as a
//! `switch` has labels, and operators stand in rows as long as a text. `calls` has `elaborate` and
//! `elaborate_many`; `walk`, `worth` and `locate` have values and locations, `args` what is handed over;
//! `statements`, `make`, `members` and `elements` run constructors; `bind` and `processes` have bindings and
//! processes; `after` and `clocks` what is looked for when construction has run;
//! `design` the design; `whole`, `roots` and `refusals` a look at the answer.
//!
//! A location is found once and is a number from then on. A local variable's elements hold what they were given
//! together with how often the variable had been declared then, so a declaration in a loop goes over no array. The
//! initialisers of a constructor are grouped by member once for each class.
#![tactic(auto)]

mod after;
mod args;
mod bind;
mod calls;
mod clocks;
mod design;
mod elements;
mod locate;
mod make;
mod members;
mod processes;
mod refusals;
mod roots;
mod statements;
mod walk;
mod whole;
mod worth;

pub use calls::{elaborate, elaborate_many};
pub use scc_elab_design::{
    Design, Edge, Object, ObjectNode, Process, Reset, Sort, Target, VectorSize,
};
