//! What is still to be done. Constants may need one another in chains as long as a source, so nothing here recurses.
use crate::ask::{Level, Mark};
use crate::bodies::{BodyWork, FunctionKey};
use crate::class_use::ClassUse;
use scc_base::{Name, NoMemory, Place, push};
use scc_bits::{Kind, Op};
use scc_templates_scopes::entry::Given;
use scc_templates_scopes::ty::{InstanceId, TypeOf};
use scc_tree::{Expr, Family, Link, Param, Part, Ty, TyArg, UnaryOp};
use std::alloc::Global;

/// Where something stands.
#[derive(Clone, Copy)]
pub(crate) struct Scope {
    pub instance: Option<InstanceId>,
    pub given: Given,
    /// Whether the locals of the body in work are known.
    pub inside: bool,
}

impl Scope {
    /// The declarations of an instance, or of the file.
    pub fn of(instance: Option<InstanceId>) -> Scope {
        Scope {
            instance,
            given: Given::Own,
            inside: false,
        }
    }
}

#[derive(Clone, Copy)]
pub(crate) enum Task<'t> {
    Value(ValueTask<'t>),
    Type(TypeTask<'t>),
    Class(ClassTask<'t>),
    Body(BodyTask),
}

/// Each takes what the last task gave, and gives a thing.
#[derive(Clone, Copy)]
pub(crate) enum ValueTask<'t> {
    Thing {
        at: Scope,
        e: &'t Expr,
    },
    /// Refuses what is no value.
    Demand(Place),
    Links {
        at: Scope,
        rest: &'t [Link],
    },
    Right {
        op: Op,
        place: Place,
    },
    Unary {
        op: UnaryOp,
        of: Place,
        place: Place,
    },
    Branches {
        at: Scope,
        test: Place,
        yes: &'t Expr,
        no: &'t Expr,
        place: Place,
    },
    Second {
        at: Scope,
        test: bool,
        no: &'t Expr,
        place: Place,
    },
    Choose {
        test: bool,
        place: Place,
    },
    CastTo {
        at: Scope,
        of: &'t Expr,
        place: Place,
    },
    Cast {
        kind: Option<Kind>,
        place: Place,
    },
    Items {
        at: Scope,
        rest: &'t [Expr],
        place: Place,
    },
    Joins {
        at: Scope,
        rest: &'t [Expr],
        place: Place,
    },
    Scoped {
        name: Name,
        place: Place,
    },
    Member {
        i: InstanceId,
        name: Name,
        place: Place,
    },
    Parts {
        at: Scope,
        rest: &'t [Part],
        place: Place,
    },
    /// Arguments that nothing takes.
    Arguments {
        at: Scope,
        rest: &'t [Expr],
    },
    /// Ends of a range of bits.
    Bounds {
        at: Scope,
        rest: &'t [Expr],
    },
    /// A construct that no constant has.
    Mismatch(Place),
    /// A call of a function that the place names.
    Called {
        name: Place,
        place: Place,
    },
    /// The value of a constant, in the kind of the type that was given.
    Constant {
        at: Scope,
        own: Place,
        value: &'t Expr,
    },
    Convert {
        kind: Kind,
        place: Place,
    },
    /// The number of an enumerator.
    Hold(Place),
    Successor(Place),
    Enumerator {
        scope: Option<InstanceId>,
        item: usize,
        at: usize,
        place: Place,
    },
    Known(Mark),
}

/// Each gives a type.
#[derive(Clone, Copy)]
pub(crate) enum TypeTask<'t> {
    Type { at: Scope, ty: &'t Ty },
    Is(TypeOf),
    Sized { family: Family, place: Place },
    Port { port: Port, place: Place },
    Vector(Place),
    Known(Mark),
}

#[derive(Clone, Copy)]
pub(crate) enum Port {
    Input,
    Output,
    Signal,
}

#[derive(Clone, Copy)]
pub(crate) enum ClassTask<'t> {
    /// Arguments that are written.
    Given {
        at: Scope,
        params: &'t [Param],
        given: &'t [TyArg],
        place: Place,
    },
    TypeArg(Place),
    ValueArg {
        kind: Kind,
        place: Place,
    },
    /// Looks for a parameter without argument and default.
    Defaults {
        call: ClassUse,
        params: &'t [Param],
    },
    Default {
        call: ClassUse,
        rest: &'t [Param],
    },
    Filled(Level),
    Enter(ClassUse),
    /// The specialisations of a class from one on.
    Specials {
        class: usize,
        at: usize,
        mark: Mark,
    },
}

#[derive(Clone, Copy)]
pub(crate) enum BodyTask {
    Find { f: FunctionKey, place: Place },
    /// The bodies outside a class from one on.
    Each { work: BodyWork, at: usize },
    Done(Mark),
    Choose(FunctionKey),
}

/// The stack of tasks.
#[derive(Drop)]
pub(crate) struct Tasks<'t> {
    list: Vec<Task<'t>>,
}

impl<'t> Tasks<'t> {
    pub fn new(alloc: Global) -> Tasks<'t> {
        Tasks {
            list: Vec::new(alloc),
        }
    }

    pub fn pop(&mut self) -> Option<Task<'t>> {
        self.list.pop()
    }

    pub fn value(&mut self, task: ValueTask<'t>) -> Result<(), NoMemory> {
        push(&mut self.list, Task::Value(task))
    }

    pub fn ty(&mut self, task: TypeTask<'t>) -> Result<(), NoMemory> {
        push(&mut self.list, Task::Type(task))
    }

    pub fn class(&mut self, task: ClassTask<'t>) -> Result<(), NoMemory> {
        push(&mut self.list, Task::Class(task))
    }

    pub fn body(&mut self, task: BodyTask) -> Result<(), NoMemory> {
        push(&mut self.list, Task::Body(task))
    }

    /// An expression that has to be a value.
    pub fn demand(&mut self, at: Scope, e: &'t Expr) -> Result<(), NoMemory> {
        self.value(ValueTask::Demand(e.place))?;
        self.value(ValueTask::Thing { at, e })
    }
}
