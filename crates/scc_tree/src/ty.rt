ghost use Rattle.std.specs.Prelude.{◌≡◌, IfOk};
ghost use Rattle.scc_tree.specs.Node.{ty_of};

use crate::Expr;
use scc_base::{Boxed, List, Name, NoMemory, Place};
use scc_bits::Kind;
use std::alloc::Global;

/// A type (C++, [dcl.type]; IEEE 1666-2011, sections 5 to 7), with the place of its first token, the word `const` included.
#[cycle(expr)]
#[derive(Drop)]
pub struct Ty {
    pub place: Place,
    /// Whether `const` stands before it.
    pub constant: bool,
    pub node: Boxed<TyNode>,
}

#[cycle(expr)]
#[derive(Drop)]
pub enum TyNode {
    /// `bool`, or an integer of C++.
    Number(Kind),
    /// A number whose width is written between angle brackets.
    Sized {
        family: Family,
        width: Expr,
    },
    /// `sc_in`; `sc_in_clk` is `sc_in<bool>`.
    Input(Ty),
    /// `sc_out`.
    Output(Ty),
    /// `sc_signal`.
    Signal(Ty),
    /// `sc_vector`.
    Vector(Ty),
    /// `sc_module_name`.
    ModuleName,
    /// A declared type; `args` is there where angle brackets are.
    Named {
        name: Name,
        args: Option<List<TyArg>>,
    },
}

/// The numbers with a width of their own: `sc_int`, `sc_uint`, `sc_biguint`, `sc_bigint`, `sc_bv`.
#[derive(Clone, Copy, PartialEq, Eq)]
pub enum Family {
    Int,
    Uint,
    Big,
    BigInt,
    Bv,
}

/// An argument between angle brackets.
#[cycle(expr)]
#[derive(Drop)]
pub enum TyArg {
    Value(Expr),
    Named(Ty),
}

impl Ty {
    /// The type at `place`; its node goes onto the heap.
    pub fn new(alloc: Global, place: Place, constant: bool, node: TyNode) -> Result<Ty, NoMemory>
        ensures whole_type { IfOk result (λ t. t ≡ ty_of place constant node) }
    {
        Ok(Ty {
            place,
            constant,
            node: Boxed::new(alloc, node)?,
        })
    }
}
