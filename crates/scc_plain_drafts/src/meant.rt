//! What expressions name before they are taken as values.
ghost use Rattle.std.specs.Prelude.{◌≡◌, IfErr, None, false, option_map, true};
ghost use Rattle.scc_plain_drafts.specs.Forms.{AreTold, Classes, SoundLoc, base_in, SoundSubject, form_in, loc_in, number_in, subject_in};
ghost use Rattle.scc_plain_drafts.specs.Views.{Drafts};
ghost use Rattle.scc_plain_spec.specs.Forms as spec;
ghost use Rattle.scc_plain_drafts.specs.Picks.{IsDone, IsTold, OwnTold, is_picked, loc_of, subject_of};
ghost use Rattle.scc_plain_spec.specs.Meant.{At, Nothing, Own, aimed, followed, is_call, is_module_name, is_name, location, own_object, taken};
ghost use Rattle.scc_plain_spec.specs.Methods.{brackets};
ghost use Rattle.scc_plain_view.specs.Terms.{left_of, target_of};
ghost use Rattle.scc_templates_scopes.specs.Walks.{Gives};
ghost use Rattle.scc_templates_spec.specs.World.{Owner};
ghost use Rattle.scc_plain_drafts.specs.Meaning.{Locates, SoundMeant, call_in, meant_in, owner_in};
ghost use Rattle.scc_plain_drafts.specs.Refusals.{MayStop};

use crate::call::{Call, of_method, of_subject};
use crate::draft::{Draft, is_answer, load, read};
use crate::form::{Form, Loc};
use crate::refusal::{gone, refuse};
use crate::target::{at_location, behind, is_all, own_object};
use scc_base::{Code, Name, Place, Stop};
use scc_bits::Kind;
use scc_plain_tree::{Base, PlainLeft, PlainTarget};
use scc_templates::InstanceId;
use std::alloc::Global;

/// A call of the language on a port or signal that is no value (IEEE 1666-2011, 6.4, 6.8 and 6.12).
#[derive(Clone, Copy, PartialEq, Eq)]
pub enum PortCall {
    Write,
    Bind,
    Pos,
    Neg,
}

/// A call of the language (IEEE 1666-2011, 6 and 7.2).
#[derive(Clone, Copy, PartialEq, Eq)]
pub enum Method {
    Read,
    Port(PortCall),
    Range,
    AndReduce,
    OrReduce,
    XorReduce,
    ToInt,
    ToUint,
    ToInt64,
    ToUint64,
}

/// What a call of the language is made on.
#[derive(Drop)]
pub enum Subject {
    Value(Draft),
    Loc(Loc),
}

/// What an expression names.
pub enum Meant {
    Value(Draft),
    Loc(Loc),
    /// A function with the place of its name; `object` is None where none is written.
    Function {
        scope: Option<InstanceId>,
        name: Name,
        object: Option<PlainLeft>,
        place: Place,
    },
    /// The name of a call of the language.
    Built {
        method: Method,
        of: Subject,
    },
    /// A call that stands only as a statement or a sensitivity. Its arguments are not walked: they are `last_args` of the
    /// expression.
    Done {
        call: PortCall,
        of: Subject,
    },
    /// A call of a function without a result.
    Void,
    Null,
    This,
    Address(Loc),
    Text,
}

impl Drop for Meant {
    fn drop(self) {
        match self {
            Meant::Value(_value) => {}
            Meant::Loc(_loc) | Meant::Address(_loc) => {}
            Meant::Function {
                scope: _scope,
                name: _name,
                object: _object,
                place: _place,
            } => {}
            Meant::Built {
                method: _method,
                of: _of,
            } => {}
            Meant::Done {
                call: _call,
                of: _of,
            } => {}
            Meant::Void | Meant::Null | Meant::This | Meant::Text => {}
        }
    }
}

impl Subject {
    /// The location, where it is one without picked bits.
    pub fn location(self) -> Option<PlainLeft>
        ensures { (n : Classes) → option_map left_of result ≡ spec.location_in (subject_in n self) }
    {
        match self {
            Subject::Loc(l) => {
                if l.pick.is_some() {
                    return None;
                }
                Some(l.left)
            }
            Subject::Value(_) => None,
        }
    }

    /// It as a value; E304 at the place where it is none.
    pub fn value(self, alloc: Global, place: Place) -> Result<Draft, Stop>
        ensures stop { IfErr result MayStop }
        ensures is { (n : Classes) → SoundSubject self → Drafts result (spec.subject_value place (subject_in n self)) }
    {
        match self {
            Subject::Value(x) => Ok(x),
            Subject::Loc(l) => value_at(alloc, l, place),
        }
    }
}

impl Meant {
    /// It as what a call of the language is made on, where it is a value or a location.
    pub fn subject(self) -> Option<Subject>
        ensures { result ≡ subject_of self }
    {
        match self {
            Meant::Value(x) => Some(Subject::Value(x)),
            Meant::Loc(l) => Some(Subject::Loc(l)),
            _ => None,
        }
    }

    /// The location, where it is one.
    pub fn loc(self) -> Option<Loc>
        ensures { result ≡ loc_of self }
    {
        match self {
            Meant::Loc(l) => Some(l),
            _ => None,
        }
    }

    /// The location, where it is one without picked bits.
    pub fn location(self) -> Option<PlainLeft>
        ensures { (n : Classes) → option_map left_of result ≡ location (meant_in n self) }
    {
        match self {
            Meant::Loc(l) => Subject::Loc(l).location(),
            _ => None,
        }
    }

    /// It as a value; E304 at the place where it is none.
    pub fn value(self, alloc: Global, place: Place) -> Result<Draft, Stop>
        ensures stop { IfErr result MayStop }
        ensures is { (n : Classes) → SoundMeant self → Drafts result (taken place (meant_in n self)) }
    {
        match self {
            Meant::Value(x) => Ok(x),
            Meant::Loc(l) => value_at(alloc, l, place),
            _ => refuse(Code::Mismatch, place), // E304
        }
    }

    /// A call that stands only as a statement or a sensitivity, with what it is made on; else what it is.
    pub fn done(self) -> Result<(PortCall, Subject), Meant>
        ensures { IsDone self result }
    {
        match self {
            Meant::Done { call, of } => Ok((call, of)),
            other => Err(other),
        }
    }

    /// What brackets with so many arguments are after it.
    pub fn call(self, count: usize) -> Call
        ensures { (n : Classes) → call_in n result ≡ brackets count (meant_in n self) }
    {
        match self {
            Meant::Function {
                scope,
                name,
                object,
                place,
            } => Call::Function {
                scope,
                name,
                object,
                place,
            },
            Meant::Built { method, of } => of_method(method, of, count),
            Meant::Loc(l) => {
                let is_port = l.form.is_port();
                of_subject(Subject::Loc(l), is_port, count)
            }
            Meant::Value(x) => of_subject(Subject::Value(x), false, count),
            _ => Call::Wrong,
        }
    }

    /// What a pointer or reference of a form is given by it; `own` is the instance whose body it is. E304 where it is of another
    /// type.
    pub fn aimed(
        self,
        alloc: Global,
        form: Form,
        own: Option<InstanceId>,
        place: Place,
    ) -> Result<PlainTarget, Stop>
        ensures stop { IfErr result MayStop }
        ensures is { (n : Classes) → IsTold n form own self → Gives target_of result (aimed place (owner_in n own) (form_in n form) (meant_in n self)) }
    {
        match self {
            Meant::Loc(l) => at_location(l, form, place),
            Meant::Null => null_aimed(form, place),
            Meant::This => own_aimed(alloc, form, own, place),
            Meant::Address(l) => address_aimed(l, form, place),
            _ => refuse(Code::Mismatch, place),
        }
    }

    /// Whether it is bits of a variable, or one bit of a value.
    pub fn takes_bits(&self) -> bool
        ensures { (n : Classes) → result ≡ is_picked (meant_in n self.now) }
    {
        match self {
            Meant::Value(x) => x.is_bit(),
            Meant::Loc(l) => !is_all(l),
            _ => false,
        }
    }

    /// What it leads to as a pointer; `own` is the instance whose body it is. E304 where it is none.
    pub fn followed(self, alloc: Global, own: Option<InstanceId>, place: Place) -> Result<Loc, Stop>
        ensures stop { IfErr result MayStop }
        ensures is { (n : Classes) → SoundMeant self → Locates n result (followed place (owner_in n own) (meant_in n self)) }
    {
        match self {
            Meant::This => this_object(alloc, own, place),
            Meant::Address(l) => Ok(l),
            Meant::Loc(l) => behind(alloc, l, place),
            _ => refuse(Code::Mismatch, place),
        }
    }

    /// Whether it is a call of a function: one without a result, or its result.
    pub fn is_call(&self) -> bool
        ensures { (n : Classes) → result ≡ is_call (meant_in n self.now) }
    {
        match self {
            Meant::Void => true,
            Meant::Value(x) => is_answer(&x.expr),
            _ => false,
        }
    }

    /// Whether it is the name of a module, which an `sc_module_name` is given (IEEE 1666-2011, 5.3).
    pub fn is_module_name(&self) -> bool
        ensures { (n : Classes) → result ≡ is_module_name (meant_in n self.now) }
    {
        match self {
            Meant::Loc(l) => {
                if !is_name(l.form.base) {
                    return false;
                }
                l.form.is_whole()
            }
            Meant::Text => true,
            _ => false,
        }
    }
}

fn is_name(base: Base) -> bool
    ensures { (n : Classes) → result ≡ is_name (base_in n base) }
{
    matches!(base, Base::ModuleName)
}

// What a pointer is given by null.
fn null_aimed(form: Form, place: Place) -> Result<PlainTarget, Stop>
    ensures stop { IfErr result MayStop }
    ensures is { (n : Classes) (o : Owner) → Gives target_of result (aimed place o (form_in n form) Nothing) }
{
    if form.is_pointer() {
        return Ok(PlainTarget::Null);
    }
    refuse(Code::Mismatch, place)
}

// What a pointer is given by `this`.
fn own_aimed(
    alloc: Global,
    form: Form,
    own: Option<InstanceId>,
    place: Place,
) -> Result<PlainTarget, Stop>
    ensures stop { IfErr result MayStop }
    ensures is { (n : Classes) → OwnTold n form own → Gives target_of result (aimed place (owner_in n own) (form_in n form) Own) }
{
    if !form.is_pointer() {
        return refuse(Code::Mismatch, place);
    }
    let Some(i) = own else {
        return refuse(Code::Mismatch, place);
    };
    if !form.is_like(Form::direct(Base::Class(i.0))) {
        return refuse(Code::Mismatch, place);
    }
    Ok(PlainTarget::Address(own_object(alloc, place)))
}

// What a pointer is given by an address.
fn address_aimed(l: Loc, form: Form, place: Place) -> Result<PlainTarget, Stop>
    ensures stop { IfErr result MayStop }
    ensures is { (n : Classes) (o : Owner) → AreTold n l.form.base form.base → Gives target_of result (aimed place o (form_in n form) (At (loc_in n l))) }
{
    if !form.is_pointer() {
        return refuse(Code::Mismatch, place);
    }
    let leads = l.form.is_pointer();
    if leads {
        return refuse(Code::Mismatch, place);
    }
    if !l.form.is_like(form) {
        return refuse(Code::Mismatch, place);
    }
    Ok(PlainTarget::Address(l.left))
}

// The object whose function this is, in a body of a class.
fn this_object(alloc: Global, own: Option<InstanceId>, place: Place) -> Result<Loc, Stop>
    ensures stop { IfErr result MayStop }
    ensures is { (n : Classes) → Locates n result (own_object place (owner_in n own)) }
{
    let Some(i) = own else {
        return gone();
    };
    Ok(Loc::new(own_object(alloc, place), Form::direct(Base::Class(i.0))))
}

// What a variable, port or signal holds.
fn value_at(alloc: Global, l: Loc, place: Place) -> Result<Draft, Stop>
    ensures stop { IfErr result MayStop }
    ensures is { (n : Classes) → SoundLoc l → Drafts result (spec.value_at place (loc_in n l)) }
{
    if !l.form.is_whole() {
        return refuse(Code::Mismatch, place);
    }
    match number_in(l.form.base) {
        Some(kind) => Ok(load(alloc, place, l.pick.unwrap_or(kind), l.left)?),
        None => shown_at(alloc, l, place),
    }
}

// What a port or signal shows.
fn shown_at(alloc: Global, l: Loc, place: Place) -> Result<Draft, Stop>
    ensures stop { IfErr result MayStop }
    ensures is { (n : Classes) → spec.is_whole (form_in n l.form) ≡ true → number_in l.form.base ≡ None → SoundLoc l → Drafts result (spec.value_at place (loc_in n l)) }
{
    match l.form.port_kind() {
        Some(kind) => Ok(read(alloc, place, kind, l.left)?),
        None => refuse(Code::Mismatch, place),
    }
}

fn number_in(base: Base) -> Option<Kind>
    ensures { result ≡ number_in base }
{
    match base {
        Base::Number(kind) => Some(kind),
        _ => None,
    }
}
