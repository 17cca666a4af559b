//! Statements. A `switch` nests as many blocks as it has labels, so blocks are let go by a loop.
use crate::{Base, PlainExpr, PlainLeft};
use scc_base::{List, Place};
use scc_bits::Op;

#[cycle(statement)]
pub struct PlainStmt {
    pub place: Place,
    pub node: PlainNode,
}

#[cycle(statement)]
#[derive(Drop)]
pub enum PlainNode {
    /// The local of that number begins.
    Declare(u32),
    Assign {
        left: PlainLeft,
        value: PlainExpr,
    },
    /// A pointer or reference is given what it leads to.
    Point {
        left: PlainLeft,
        target: PlainTarget,
    },
    /// A port or signal is written.
    Write {
        to: PlainLeft,
        value: PlainExpr,
    },
    /// The calls of a function have numbers from 0 in the order of its statements.
    Call {
        number: u32,
        function: u32,
        /// None for the object whose function this is, and for a free function.
        object: Option<PlainLeft>,
        args: List<PlainArg>,
    },
    If {
        test: PlainExpr,
        yes: List<PlainStmt>,
        no: List<PlainStmt>,
    },
    /// Goes on until it is left. It has a count where its source is a `for` that declares one numeric counter and compares
    /// and changes it as a counted loop does; what is static is asked later.
    Loop {
        count: Option<PlainCount>,
        body: List<PlainStmt>,
    },
    Block(List<PlainStmt>),
    /// Leaves the enclosing block of that number, counted outward from 0.
    Exit(u32),
    Return(Option<PlainExpr>),
    /// Waits for so many edges, 1 to 65,535.
    Wait(u32),
    /// Makes what the left side names: for a pointer a new object, for a member of class kind or a vector that member.
    Make {
        left: PlainLeft,
        base: Base,
        args: List<PlainArg>,
    },
    /// A port is bound; `to` is None where the source names no location there.
    Bind {
        port: PlainLeft,
        to: Option<PlainLeft>,
    },
    Process {
        thread: bool,
        function: u32,
        edge: Option<PlainSense>,
    },
    Sense(List<PlainSense>),
    /// `dont_initialize`.
    Quiet,
    Reset {
        signal: Option<PlainLeft>,
        level: PlainExpr,
        asynchronous: bool,
    },
}

/// How a counted loop counts.
pub struct PlainCount {
    /// The counter's local.
    pub counter: u32,
    pub start: PlainExpr,
    pub compare: Op,
    pub bound: PlainExpr,
    pub step_op: Op,
    pub step: PlainExpr,
}

/// What a pointer or reference is given.
pub enum PlainTarget {
    Null,
    Address(PlainLeft),
    /// What the pointer there holds.
    Copy(PlainLeft),
}

pub enum PlainArg {
    Value(PlainExpr),
    Target(PlainTarget),
    ModuleName,
}

/// An entry of a sensitivity list (IEEE 1666-2011, 5.2.10).
pub struct PlainSense {
    pub place: Place,
    /// None where the source names no location there.
    pub signal: Option<PlainLeft>,
    /// None for a level.
    pub rising: Option<bool>,
}

impl Drop for PlainCount {
    fn drop(self) {
        let PlainCount {
            counter: _counter,
            start: _start,
            compare: _compare,
            bound: _bound,
            step_op: _step_op,
            step: _step,
        } = self;
    }
}

impl Drop for PlainTarget {
    fn drop(self) {
        match self {
            PlainTarget::Null => {}
            PlainTarget::Address(_left) | PlainTarget::Copy(_left) => {}
        }
    }
}

impl Drop for PlainArg {
    fn drop(self) {
        match self {
            PlainArg::Value(_value) => {}
            PlainArg::Target(_target) => {}
            PlainArg::ModuleName => {}
        }
    }
}

impl Drop for PlainSense {
    fn drop(self) {
        let PlainSense {
            place: _place,
            signal: _signal,
            rising: _rising,
        } = self;
    }
}

impl Drop for PlainStmt {
    #[cycle(gone_statement)]
    fn drop(mut self) {
        for _ in 0..usize::MAX {
            let PlainStmt { place, node } = self;
            let PlainNode::Block(mut list) = node else {
                drop(node);
                return;
            };
            let Some(last) = list.pop() else {
                drop(list);
                return;
            };
            if list.is_empty() {
                drop(list);
                self = last;
            } else {
                drop(last);
                self = PlainStmt {
                    place,
                    node: PlainNode::Block(list),
                };
            }
        }
        let PlainStmt { place: _, node } = self;
        drop(node);
    }
}
