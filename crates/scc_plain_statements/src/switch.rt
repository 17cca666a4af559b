//! `switch` (C++, [stmt.switch]): a local holds the selector, and blocks nest, one for each label round what stands before it. The
//! innermost one begins with the tests, each of which leaves the block behind which its label's statements stand.
ghost use Rattle.std.specs.Prelude.{IfErr};
ghost use Rattle.scc_plain_drafts.specs.Refusals.{MayStop};

use crate::stmts::put;
use indexmap::IndexMap;
use scc_base::{Code, List, Name, NoMemory, Place, Stop, lost};
use scc_bits::{Kind, Op, Value, is_small, promoted};
use scc_plain_bodies::{Body, Flow, Walk, convert, literal, load, operate, refuse};
use scc_plain_tree::{Base, PlainBase, PlainLeft, PlainNode, PlainStmt, Shape};
use scc_tree::{Expr, FileTree, Hold, Stmt, StmtNode, SwitchItem, SwitchNode};
use std::alloc::Global;
use std::mem;

// The name of the local that holds the selector: the word itself.
const SWITCH: Name = Name(13);

/// A label, whatever its kind.
#[derive(Clone, Copy, PartialEq, Eq, Hash)]
enum Label {
    Number { negative: bool, bits: u128 },
    Otherwise,
}

/// The selector's local, and the tests of the labels so far.
#[derive(Drop)]
pub(crate) struct Tests {
    place: Place,
    kind: Kind,
    local: u32,
    list: List<PlainStmt>,
    /// Where each label stands.
    seen: IndexMap<Label, Place>,
    /// How many labels stand before `default`.
    default: Option<u32>,
}

// The statements after a label, which stands at `place`.
#[derive(Drop)]
struct Group {
    place: Place,
    list: List<PlainStmt>,
}

// What a name meant before a pointer or reference was declared by it.
#[derive(Clone, Copy)]
struct Hidden {
    name: Name,
    before: Option<u32>,
}

/// A `switch` whose items are walked.
#[derive(Drop)]
pub(crate) struct Cases {
    tests: Tests,
    /// The statements before a label, from the first one on.
    groups: List<Group>,
    /// The statements after the last label so far.
    last: Group,
    hidden: List<Hidden>,
    /// How many labels there are, and how many are still to come.
    all: u32,
    left: u32,
}

fn label_of(v: Value) -> Label {
    Label::Number {
        negative: v.is_negative(),
        bits: v.bits(),
    }
}

pub(crate) fn is_label(item: &SwitchItem) -> bool {
    match &item.node {
        SwitchNode::Stmt(_) => false,
        _ => true,
    }
}

/// How many labels there are.
pub(crate) fn labels_of(items: &[SwitchItem]) -> Result<u32, NoMemory> {
    let count = items.iter().filter(|i| is_label(i)).count();
    u32::try_from(count).map_err(|_| lost())
}

/// Holds the selector in a local of its own. E304 at a selector that isn't a small number.
pub(crate) fn selector(
    of: &Expr,
    place: Place,
    tree: &FileTree,
    flow: Flow,
    w: &mut Walk,
    b: &mut Body,
    out: &mut List<PlainStmt>,
) -> Result<Tests, Stop>
    ensures stop { IfErr result MayStop }
{
    let x = w.value(of, tree, flow, b)?;
    if !is_small(x.expr.kind) {
        return refuse(Code::Mismatch, of.place); // E304
    }
    b.flush(out)?;
    let kind = promoted(x.expr.kind);
    let value = convert(w.alloc, x, kind)?.expr;
    let shape = Shape::direct(w.alloc, Base::Number(kind));
    let local = b.declare_unnamed(SWITCH, place, shape)?;
    let left = PlainLeft::new(w.alloc, place, PlainBase::Local(local));
    put(out, place, PlainNode::Assign { left, value })?;
    Ok(Tests {
        place,
        kind,
        local,
        list: List::new(w.alloc),
        seen: IndexMap::new(w.alloc),
        default: None,
    })
}

impl Tests {
    // E302 where an equal label stands before it.
    fn note(&mut self, label: Label, place: Place) -> Result<(), Stop>
        ensures stop { IfErr result MayStop }
    {
        if let Some(first) = self.seen.get(&label).copied() {
            return Err(Stop::refused_beside(Code::DuplicateName, place, first)); // E302
        }
        self.keep(label, place)?;
        Ok(())
    }

    fn keep(&mut self, label: Label, place: Place) -> Result<(), NoMemory> {
        self.seen.insert(label, place)?;
        Ok(())
    }

    // Leaves the block of the label of that number where the selector equals the label. The label isn't converted.
    fn add(&mut self, v: Value, at: Place, e: Place, n: u32, alloc: Global) -> Result<(), Stop>
        ensures stop { IfErr result MayStop }
    {
        let left = PlainLeft::new(alloc, at, PlainBase::Local(self.local));
        let selector = load(alloc, at, self.kind, left)?;
        let label = literal(alloc, e, v)?;
        let test = operate(alloc, at, at, Op::Eq, selector, label)?.expr;
        self.note(label_of(v), at)?;
        let mut yes = List::new(alloc);
        put(&mut yes, at, PlainNode::Exit(n))?;
        let no = List::new(alloc);
        put(&mut self.list, at, PlainNode::If { test, yes, no })?;
        Ok(())
    }
}

impl Cases {
    pub fn new(alloc: Global, tests: Tests) -> Cases {
        let last = Group {
            place: tests.place,
            list: List::new(alloc),
        };
        Cases {
            tests,
            groups: List::new(alloc),
            last,
            hidden: List::new(alloc),
            all: 0,
            left: 0,
        }
    }

    /// So many labels are to come.
    pub fn expect(&mut self, labels: u32) {
        self.all = labels;
        self.left = labels;
    }

    /// What stands round a statement after the labels so far.
    pub fn flow(&self, flow: Flow) -> Result<Flow, NoMemory> {
        let blocks = self.left.checked_add(1).ok_or(lost())?;
        let inner = flow.inside(blocks)?;
        Ok(inner.within(Some(self.left), inner.next))
    }

    /// The statements after the last label, to which more are to be put.
    pub fn taken(&mut self, alloc: Global) -> List<PlainStmt> {
        mem::replace(&mut self.last.list, List::new(alloc))
    }

    pub fn put_back(&mut self, list: List<PlainStmt>) {
        self.last.list = list;
    }

    /// A label; None for `default`. E302 where an equal one stands before it.
    pub fn label(
        &mut self,
        place: Place,
        e: Option<&Expr>,
        tree: &FileTree,
        w: &mut Walk,
        b: &mut Body,
    ) -> Result<(), Stop>
        ensures stop { IfErr result MayStop }
    {
        self.show(b)?;
        let n = self.all.checked_sub(self.left).ok_or(lost())?;
        match e {
            Some(e) => {
                let v = w.constant(e, tree, b)?;
                self.tests.add(v, place, e.place, n, w.alloc)?;
            }
            None => {
                self.tests.note(Label::Otherwise, place)?;
                self.tests.default = Some(n);
            }
        }
        self.left = self.left.checked_sub(1).ok_or(lost())?;
        let list = List::new(w.alloc);
        let done = mem::replace(&mut self.last, Group { place, list });
        self.groups.push(done)?;
        Ok(())
    }

    // The names of pointers and references mean again what they meant before.
    fn show(&mut self, b: &mut Body) -> Result<(), NoMemory> {
        for hidden in self.hidden.as_slice() {
            b.names.set(hidden.name, hidden.before)?;
        }
        self.hidden.truncate(0);
        Ok(())
    }

    /// What stands in the outermost block; its statements are taken out.
    pub fn whole(&mut self, alloc: Global) -> Result<List<PlainStmt>, NoMemory> {
        let n = self.tests.default.unwrap_or(self.all);
        put(&mut self.tests.list, self.tests.place, PlainNode::Exit(n))?;
        let place = self.last.place;
        let list = self.taken(alloc);
        self.groups.push(Group { place, list })?;
        let tests = mem::replace(&mut self.tests.list, List::new(alloc));
        let groups = mem::replace(&mut self.groups, List::new(alloc));
        nested(tests, groups, alloc)
    }
}

// The tests and the groups of statements, each group after a block of what stands before it.
fn nested(
    tests: List<PlainStmt>,
    groups: List<Group>,
    alloc: Global,
) -> Result<List<PlainStmt>, NoMemory> {
    let mut list = tests;
    let mut is_first = true;
    for group in groups.into_vec() {
        if !is_first {
            let mut outer = List::new(alloc);
            put(&mut outer, group.place, PlainNode::Block(list))?;
            list = outer;
        }
        is_first = false;
        list.append(group.list)?;
    }
    Ok(list)
}

/// Notes what the names of the pointers and references mean that a statement is about to declare.
pub(crate) fn hide(s: &Stmt, b: &Body, cases: &mut Cases) -> Result<(), NoMemory> {
    let StmtNode::Local(declared) = s.node.get() else {
        return Ok(());
    };
    for d in declared.names.as_slice() {
        if d.decl.hold != Hold::Direct {
            let name = d.decl.name;
            let before = b.names.get(name);
            cases.hidden.push(Hidden { name, before })?;
        }
    }
    Ok(())
}
