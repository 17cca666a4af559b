//! Classes, functions and what variables hold.
use crate::PlainStmt;
use scc_base::{List, Name, NoMemory, Place};
use scc_bits::Kind;
use std::alloc::Global;

/// A program: a class for each instance that its top reaches, in the order in which they are first needed, and their
/// functions in the order in which the static walk meets them.
#[derive(Drop)]
pub struct Plain {
    pub classes: List<PlainClass>,
    pub functions: List<PlainFunction>,
    /// The class of the top.
    pub top: u32,
}

#[derive(Drop)]
pub struct PlainClass {
    pub name: Name,
    /// That of its name.
    pub place: Place,
    /// Whether it is a module (IEEE 1666-2011, 5.2).
    pub module: bool,
    /// Its member variables in declaration order.
    pub members: List<PlainMember>,
    /// Its constructor's function.
    pub constructor: Option<u32>,
}

/// A member variable of a class, or a local variable or parameter of a function.
#[derive(Drop)]
pub struct PlainMember {
    pub name: Name,
    pub place: Place,
    pub shape: Shape,
}

/// What a variable holds.
#[derive(Drop)]
pub struct Shape {
    pub base: Base,
    pub reach: Reach,
    /// Whether it is an `sc_vector` of the base (IEEE 1666-2011, 8.5).
    pub vector: bool,
    /// The sizes of its arrays, 1 to 65,536 each, outermost first.
    pub sizes: List<u32>,
}

/// What stands at the end of arrays, vectors, pointers and references.
#[derive(Clone, Copy, PartialEq, Eq, Hash)]
pub enum Base {
    Number(Kind),
    /// An object of the class of that number.
    Class(u32),
    /// `sc_in` (IEEE 1666-2011, 6.8).
    Input(Kind),
    /// `sc_out` (IEEE 1666-2011, 6.12).
    Output(Kind),
    /// `sc_signal` (IEEE 1666-2011, 6.4).
    Signal(Kind),
    /// `sc_module_name` (IEEE 1666-2011, 5.3).
    ModuleName,
}

/// Whether a variable is the thing itself or leads to it.
#[derive(Clone, Copy, PartialEq, Eq, Hash)]
pub enum Reach {
    Direct,
    Pointer,
    Reference,
}

#[derive(Drop)]
pub struct PlainFunction {
    pub name: Name,
    pub place: Place,
    /// The class of which it is a member function.
    pub class: Option<u32>,
    /// How many of the locals are parameters; they stand first.
    pub params: u32,
    pub locals: List<PlainMember>,
    pub result: Option<Kind>,
    /// A constructor's initialisers.
    pub inits: List<PlainStmt>,
    pub body: List<PlainStmt>,
}

impl Shape {
    /// That of one thing by itself.
    pub fn direct(alloc: Global, base: Base) -> Shape {
        Shape {
            base,
            reach: Reach::Direct,
            vector: false,
            sizes: List::new(alloc),
        }
    }

    /// An equal shape.
    pub fn copied(&self, alloc: Global) -> Result<Shape, NoMemory> {
        let mut sizes = List::new(alloc);
        for n in self.sizes.as_slice() {
            sizes.push(*n)?;
        }
        Ok(Shape {
            base: self.base,
            reach: self.reach,
            vector: self.vector,
            sizes,
        })
    }
}
