//! Calls (C++, [expr.call]; IEEE 1666-2011, 6 and 7.2).
ghost use Rattle.std.specs.Prelude.{◌≡◌};
ghost use Rattle.scc_plain_drafts.specs.Forms.{Classes, method_number, subject_in};
ghost use Rattle.scc_plain_drafts.specs.Meaning.{call_in};
ghost use Rattle.scc_plain_spec.specs.Methods as spec;

use crate::meant::{Method, PortCall, Subject};
use scc_base::{Name, Place};
use scc_plain_tree::PlainLeft;
use scc_templates::InstanceId;

/// A call by what it is made of.
#[derive(Drop)]
pub enum Call {
    /// Of a function, which is named at a place.
    Function {
        scope: Option<InstanceId>,
        name: Name,
        object: Option<PlainLeft>,
        place: Place,
    },
    /// One that stands only as a statement or a sensitivity.
    Done {
        call: PortCall,
        of: Subject,
    },
    /// A range of bits.
    Range(Subject),
    /// One of the language without arguments.
    Method {
        method: Method,
        of: Subject,
    },
    /// None.
    Wrong,
}

pub(crate) fn of_method(method: Method, of: Subject, count: usize) -> Call
    ensures { (n : Classes) → call_in n result ≡ spec.of_method count (method_number method) (subject_in n of) }
{
    match method {
        Method::Port(call) => Call::Done { call, of },
        Method::Range => {
            if count == 2 {
                return Call::Range(of);
            }
            Call::Wrong
        }
        _ => {
            if count == 0 {
                return Call::Method { method, of };
            }
            Call::Wrong
        }
    }
}

// Brackets after what is no function: a binding, or a range of bits.
pub(crate) fn of_subject(of: Subject, is_port: bool, count: usize) -> Call
    ensures { (n : Classes) → is_port ≡ spec.subject_is_port (subject_in n of) → call_in n result ≡ spec.of_subject count (subject_in n of) }
{
    if is_port {
        if count == 1 {
            let call = PortCall::Bind;
            return Call::Done { call, of };
        }
    }
    if count == 2 {
        return Call::Range(of);
    }
    Call::Wrong
}
