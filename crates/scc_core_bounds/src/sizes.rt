//! Sizes of bodies.
ghost use Rattle.std.specs.Prelude.{◌≡◌, ◌+◌, ◌*◌, ◌||◌, min};
ghost use Rattle.scc_core_spec.specs.Code.{End};
ghost use Rattle.scc_core_view.specs.Codes.{code_of, stmt_code};
ghost use Rattle.scc_core_bounds.specs.Bounds as bounds;
ghost use Rattle.scc_core_bounds.specs.Bounds.{measured, most};

use scc_core::{CoreNode, CoreStmt};

/// The size of a body. Numbers stand still at the end of their type.
#[derive(Clone, Copy, PartialEq, Eq)]
pub struct Size {
    /// How many statements it has, at every depth.
    pub statements: u64,
    /// How deep its loops that hold a wait stand in each other.
    pub loops: u64,
    /// Whether it holds a wait.
    pub waits: bool,
}

impl Size {
    fn nothing() -> Size
        ensures { result ≡ measured End }
    {
        Size {
            statements: 0,
            loops: 0,
            waits: false,
        }
    }

    fn beside(self, other: Size) -> Size
        ensures { result ≡ bounds.beside self other }
    {
        Size {
            statements: self.statements.saturating_add(other.statements),
            loops: self.loops.max(other.loops),
            waits: either(self.waits, other.waits),
        }
    }

    // That of a statement with this inside.
    fn wrapped(self) -> Size
        ensures { result ≡ bounds.wrapped self }
    {
        Size {
            statements: self.statements.saturating_add(1),
            loops: self.loops,
            waits: self.waits,
        }
    }

    // That of a loop with this inside.
    fn looped(self) -> Size
        ensures { result ≡ bounds.looped self }
    {
        Size {
            statements: self.statements.saturating_add(1),
            loops: deeper(self.loops, self.waits),
            waits: self.waits,
        }
    }

    /// How many steps a resume takes at most: three for each statement, once more for each loop around it that waits.
    #[tactic(auto, using(crate::proofs::Sized::cut_bound))]
    pub fn bound(self) -> u64
        ensures { result ≡ min (3 * (self.loops + 1) * self.statements) most }
    {
        let turns = self.loops.saturating_add(1);
        turns.saturating_mul(3).saturating_mul(self.statements)
    }
}

fn either(a: bool, b: bool) -> bool
    ensures { result ≡ (a || b) }
{
    a || b
}

// The depth of a loop with loops of this depth inside.
fn deeper(loops: u64, waits: bool) -> u64
    ensures { result ≡ bounds.deeper loops waits }
{
    if waits {
        loops.saturating_add(1)
    } else {
        loops
    }
}

/// The size of a list of statements.
#[cycle(sized)]
pub fn size_of(list: &[CoreStmt]) -> Size
    ensures { result ≡ measured (code_of list.now) }
{
    let mut size = Size::nothing();
    for s in list {
        size = size.beside(size_of_one(s));
    }
    size
}

/// The size of a statement.
#[cycle(sized)]
#[tactic(auto, using(crate::proofs::Sized::measured_if, crate::proofs::Sized::measured_block, crate::proofs::Sized::measured_loop))]
pub fn size_of_one(s: &CoreStmt) -> Size
    ensures { result ≡ measured (stmt_code s.now End) }
{
    match &s.node {
        CoreNode::If { yes, no, .. } => size_of(yes.as_slice())
            .beside(size_of(no.as_slice()))
            .wrapped(),
        CoreNode::Block(body) => size_of(body.as_slice()).wrapped(),
        CoreNode::Loop { body, .. } => size_of(body.as_slice()).looped(),
        CoreNode::Wait { .. } => Size {
            statements: 1,
            loops: 0,
            waits: true,
        },
        CoreNode::Assign { .. } | CoreNode::Exit(_) | CoreNode::Alias { .. } => {
            Size::nothing().wrapped()
        }
    }
}
