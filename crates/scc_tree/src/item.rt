use crate::{Decl, Expr, Hold, Stmt, Ty, TyArg};
use scc_base::{List, Name, Place};

/// A source: its declarations in the order of the text, and the end of its last file.
#[derive(Drop)]
pub struct FileTree {
    pub items: List<Item>,
    pub end: Place,
}

/// A declaration (C++, [dcl.dcl]). The place is that of its name, or of its first token where it has none; for a body outside
/// its class it is that of the class's name.
#[cycle(item)]
#[derive(Drop)]
pub struct Item {
    pub place: Place,
    /// None for an enumeration without a name alone.
    pub name: Option<Name>,
    pub node: ItemNode,
}

#[cycle(item)]
#[derive(Drop)]
pub enum ItemNode {
    Class(ClassTree),
    /// A `typedef`.
    Alias(Ty),
    /// An `enum`; not empty.
    Numbers(List<Enumerator>),
    Constant {
        ty: Ty,
        value: Expr,
    },
    Function(FunctionTree),
    /// The body of a member function or constructor outside its class.
    Outside {
        params: List<Param>,
        class: Name,
        args: List<TyArg>,
        function: FunctionTree,
    },
}

/// A class (C++, [class]) or module (IEEE 1666-2011, section 5.2).
#[cycle(item)]
#[derive(Drop)]
pub struct ClassTree {
    /// Not empty exactly for a class template.
    pub params: List<Param>,
    /// The arguments of a specialisation, which stands behind `template<>`.
    pub special: Option<List<TyArg>>,
    /// Whether it is a module.
    pub module: bool,
    pub items: List<Item>,
    pub fields: List<Field>,
}

/// A parameter of a template (C++, [temp.param]); the place is its name's.
#[derive(Drop)]
pub struct Param {
    pub place: Place,
    pub name: Name,
    pub sort: ParamSort,
    pub preset: Option<TyArg>,
}

/// What a template's parameter stands for.
#[derive(Clone, Copy, PartialEq, Eq)]
pub enum ParamSort {
    Int,
    Unsigned,
    Bool,
    /// A type.
    Class,
}

/// A member variable (C++, [class.mem]); the place is its name's.
#[derive(Drop)]
pub struct Field {
    pub place: Place,
    pub ty: Ty,
    pub decl: Decl,
    /// How many of its class's items stand before it in the text.
    pub after: u32,
}

/// A function, member function or constructor (C++, [dcl.fct], [class.ctor]); the place is its name's.
#[derive(Drop)]
pub struct FunctionTree {
    pub place: Place,
    pub name: Name,
    pub constructor: bool,
    /// None for `void` and for constructors.
    pub result: Option<Ty>,
    pub params: List<Prm>,
    pub inits: List<Init>,
    /// None where it is declared only.
    pub body: Option<List<Stmt>>,
}

/// A parameter of a function; the place is its name's.
#[derive(Drop)]
pub struct Prm {
    pub place: Place,
    pub ty: Ty,
    pub hold: Hold,
    pub name: Name,
}

/// An initialiser of a constructor (C++, [class.base.init]), with the place of its first token.
#[derive(Drop)]
pub struct Init {
    pub place: Place,
    /// None for `sc_module`.
    pub name: Option<Name>,
    pub args: List<Expr>,
}

/// A name of an enumeration (C++, [dcl.enum]) with the value that is written for it.
#[derive(Drop)]
pub struct Enumerator {
    pub place: Place,
    pub name: Name,
    pub value: Option<Expr>,
}
