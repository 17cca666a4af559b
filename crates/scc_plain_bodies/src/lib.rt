//! What the bodies of functions say: their variables, expressions and calls (C++, [expr]; IEEE 1666-2011, section 7).
//!
//! `walk` has `Walk`, what is known of a program; `body` has `Body`, what is known of one body. `function` finds
//! functions and their signatures when first asked for; `name` and `call` take names and calls; `expression` has
//! the cycle of calls over them. Calls of functions go to `lifted`, before their statement.
#![tactic(auto)]

mod body;
mod call;
mod expression;
mod function;
mod name;
mod walk;

pub use body::Body;
pub use function::FunctionId;
pub use scc_plain_drafts::draft::{Draft, convert, literal, load, operate};
pub use scc_plain_drafts::flow::Flow;
pub use scc_plain_drafts::form::{Form, Loc, base_of, reach_of};
pub use scc_plain_drafts::meant::{Meant, Method, PortCall, Subject};
pub use scc_plain_drafts::refusal::{gone, refuse};
pub use scc_plain_drafts::syntax::last_args;
pub use walk::{CallOn, Note, Walk};
