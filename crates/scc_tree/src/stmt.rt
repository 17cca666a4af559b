ghost use Rattle.std.specs.Prelude.{◌≡◌, IfOk};
ghost use Rattle.scc_tree.specs.Node.{stmt_of};

use crate::{Expr, LocalTree, SimpleTree};
use scc_base::{Boxed, List, Name, NoMemory, Place};
use std::alloc::Global;

/// A statement (C++, [stmt.stmt]), with the place of its first token.
#[cycle(stmt)]
#[derive(Drop)]
pub struct Stmt {
    pub place: Place,
    pub node: Boxed<StmtNode>,
}

#[cycle(stmt)]
#[derive(Drop)]
pub enum StmtNode {
    Block(List<Stmt>),
    Empty,
    Local(LocalTree),
    If {
        test: Expr,
        yes: Stmt,
        no: Option<Stmt>,
    },
    Switch {
        of: Expr,
        items: List<SwitchItem>,
    },
    While {
        test: Expr,
        body: Stmt,
    },
    Do {
        body: Stmt,
        test: Expr,
    },
    For {
        first: ForFirst,
        test: Option<Expr>,
        step: Option<SimpleTree>,
        body: Stmt,
    },
    Break,
    Continue,
    Return(Option<Expr>),
    /// `wait()` or `wait(n)` (IEEE 1666-2011, section 5.2.18).
    Wait(Option<Expr>),
    /// `SC_METHOD(name)`; `at` is the name's place (IEEE 1666-2011, section 5.2.9).
    Method {
        name: Name,
        at: Place,
    },
    /// `SC_THREAD(name)`.
    Thread {
        name: Name,
        at: Place,
    },
    /// `SC_CTHREAD(name, edge)`.
    ClockedThread {
        name: Name,
        at: Place,
        edge: Expr,
    },
    /// `sensitive << a << b`; not empty (IEEE 1666-2011, section 5.2.14).
    Sensitive(List<Expr>),
    DontInitialize,
    /// `reset_signal_is(signal, level)` or `async_reset_signal_is(signal, level)`.
    ResetSignal {
        signal: Expr,
        level: Expr,
        asynchronous: bool,
    },
    Simple(SimpleTree),
}

/// What stands in the braces of a `switch`, with the place of its first token.
#[cycle(stmt)]
#[derive(Drop)]
pub struct SwitchItem {
    pub place: Place,
    pub node: SwitchNode,
}

#[cycle(stmt)]
#[derive(Drop)]
pub enum SwitchNode {
    /// `case e:`.
    Case(Expr),
    /// `default:`.
    Otherwise,
    Stmt(Stmt),
}

/// The first part of the head of a `for`.
#[derive(Drop)]
pub enum ForFirst {
    Nothing,
    Local(LocalTree),
    Simple(SimpleTree),
}

impl Stmt {
    /// The statement at `place`; its node goes onto the heap.
    pub fn new(alloc: Global, place: Place, node: StmtNode) -> Result<Stmt, NoMemory>
        ensures statement { IfOk result (λ s. s ≡ stmt_of place node) }
    {
        Ok(Stmt {
            place,
            node: Boxed::new(alloc, node)?,
        })
    }
}
