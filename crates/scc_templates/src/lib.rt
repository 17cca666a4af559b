//! Instances of templates, types and constants (C++, [temp], [dcl.type], [expr.const]).
//!
//! Each thing is worked out when it is first asked for, and once. `session` has `Templates`, a session over a tree;
//! `table` has `Instances`, which outlives sessions; `calls` has the calls of both.
//!
//! Constants may need one another in chains as long as a source, so nothing here recurses: `task` has what is still
//! to be done, a stack of tasks, each with its scope, and `run` takes the newest until none is left. A task takes
//! what the one before gave and pushes what it needs, so a refusal is met in the order of the text. `expression`
//! and `part` have the tasks of expressions, `constant` those of constants and enumerators, `types` of types,
//! `arguments` of template arguments, `class_use` of instances and specialisations, `bodies` of bodies that count.
//!
//! `ask` keeps what is known and what is being worked out. What needs itself is refused, and so is a chain of more
//! than 64 instances. The bound is on the chain as if nothing were known: an answer is kept with the number of
//! members that its evaluation adds, and worked out again, to find the place, where the chain would grow past its
//! bound with it. An instance that is asked for directly after itself is no further member; so an answer keeps also
//! which instance all its longest chains begin with. Specialisations of a class are all worked out at its first
//! use, in a chain of their own.
//!
//! Look-ups go through maps whose keys are numbers. A list of template arguments has a number too: that of a
//! shorter list and its last argument.
#![tactic(auto)]

mod arguments;
mod ask;
mod bodies;
mod calls;
mod class_use;
mod constant;
mod expression;
mod look;
mod part;
mod run;
mod session;
mod table;
mod task;
mod types;

pub use bodies::{BodyAt, FunctionKey, function_at};
pub use scc_bits::Value;
pub use scc_templates_scopes::entry::{Context, Entry, Found, Given, class_at, class_of};
pub use scc_templates_scopes::layers::Layers;
pub use scc_templates_scopes::refuse::refused;
pub use scc_templates_scopes::ty::{Arg, Args, Base, ClassId, InstanceId, TypeOf};
pub use session::{Needed, Templates};
pub use table::Instances;
