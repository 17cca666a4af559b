//! Types, and the arguments of templates.
use scc_base::List;
use scc_bits::{Kind, Value};

/// The number of the item that declares a class.
#[derive(Clone, Copy, PartialEq, Eq, Hash)]
pub struct ClassId(pub u32);

/// The number of an instance of a class.
#[derive(Clone, Copy, PartialEq, Eq, Hash)]
pub struct InstanceId(pub u32);

/// An argument of a template.
#[derive(Clone, Copy, PartialEq, Eq, Hash)]
pub enum Arg {
    Value(Value),
    /// A type that is a number's.
    Number(Kind),
    Class(InstanceId),
}

/// The arguments of an instance, in the order of its parameters.
pub type Args = List<Arg>;

/// What a type is without its arrays and pointers.
#[derive(Clone, Copy, PartialEq, Eq)]
pub enum Base {
    Number(Kind),
    Class(InstanceId),
    Input(Kind),
    Output(Kind),
    Signal(Kind),
    ModuleName,
}

/// A type.
#[derive(Clone, Copy, PartialEq, Eq)]
pub struct TypeOf {
    pub base: Base,
    /// Whether it is a vector of these.
    pub vector: bool,
}

impl TypeOf {
    /// A type that is no vector.
    pub fn plain(base: Base) -> TypeOf {
        TypeOf {
            base,
            vector: false,
        }
    }

    /// The kind of a type that is a number's.
    pub fn kind(self) -> Option<Kind> {
        match self.base {
            Base::Number(kind) if !self.vector => Some(kind),
            _ => None,
        }
    }

    /// The instance of a type that is a class's.
    pub fn instance(self) -> Option<InstanceId> {
        match self.base {
            Base::Class(i) if !self.vector => Some(i),
            _ => None,
        }
    }
}
