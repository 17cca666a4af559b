//! Statements.
use crate::{CoreExpr, CoreLeft};
use scc_base::{List, Place};
use scc_bits::Op;

#[cycle(core_statement)]
#[derive(Drop)]
pub struct CoreStmt {
    pub place: Place,
    pub node: CoreNode,
}

#[cycle(core_statement)]
#[derive(Drop)]
pub enum CoreNode {
    /// A variable or local takes the value at once, a signal or port when the processes have stopped.
    Assign {
        left: CoreLeft,
        value: CoreExpr,
    },
    If {
        test: CoreExpr,
        yes: List<CoreStmt>,
        no: List<CoreStmt>,
    },
    Block(List<CoreStmt>),
    /// Goes on until it is left.
    Loop {
        count: Option<Count>,
        body: List<CoreStmt>,
    },
    /// Leaves the enclosing block of that number, counted outward from 0.
    Exit(u32),
    /// Waits for n edges, 1 to 65,535.
    Wait {
        n: u32,
    },
    /// A pointer or reference is given where it leads.
    Alias {
        to: Pointed,
        target: CoreLeft,
    },
}

/// Which pointer an `Alias` sets.
#[derive(Drop)]
pub enum Pointed {
    /// The cell of a local one, at its declaration.
    Declared(u32),
    /// One that is assigned, which is refused when pointers are resolved.
    Assigned(CoreLeft),
}

/// How a counted loop counts.
#[derive(Drop)]
pub struct Count {
    /// The counter's cell.
    pub cell: u32,
    pub start: CoreExpr,
    pub compare: Op,
    pub bound: CoreExpr,
    pub step_op: Op,
    pub step: CoreExpr,
}
