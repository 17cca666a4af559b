//! The first statement past the limits of a thread's segments.
ghost use Rattle.std.specs.Prelude.{◌≡◌, ◌≤◌, List, [], ◌∷◌, ◌++◌, None};
ghost use Rattle.scc_core_spec.specs.Split.{Stood, stood};
ghost use Rattle.scc_core_view.specs.Codes.{code_of};
ghost use Rattle.scc_states_segments.specs.Limits.{first_after};

use scc_base::Place;
use scc_core::{CoreNode, CoreStmt};

/// The deepest that statements of segments nest.
pub const DEEPEST: u32 = 1_024;

/// How many statements more there may be, and the first past a limit.
#[derive(Clone, Copy)]
pub struct Count {
    left: u32,
    past: Option<Place>,
}

impl Count {
    /// Nothing counted yet, of at most so many statements.
    pub fn new(limit: u32) -> Count
        ensures { result ≡ record { left = limit; past = None } }
    {
        Count {
            left: limit,
            past: None,
        }
    }

    /// The first statement past a limit.
    pub fn past(&self) -> Option<Place>
        ensures { result ≡ self.now.past }
    {
        self.past
    }

    /// Counts a statement at a place, which stands so deep.
    pub fn take(&mut self, place: Place, depth: u32)
        ensures takes { (ss : List Stood) → first_after self.new ss ≡ first_after self.old (record { place = place; depth = depth } ∷ ss) }
        ensures within { self.new.past ≡ None → depth ≤ 1024 }
    {
        if self.past.is_none() {
            if self.left == 0 || DEEPEST < depth {
                self.past = Some(place);
            } else {
                self.left -= 1;
            }
        }
    }
}

/// Counts a statement and those in it.
#[cycle(counted)]
pub fn counted(s: &CoreStmt, depth: u32, count: &mut Count)
    ensures { (ss : List Stood) → first_after count.new ss ≡ first_after count.old (stood depth (code_of (s.now ∷ [])) ++ ss) }
{
    count.take(s.place, depth);
    if count.past.is_some() {
        return;
    }
    let inner = depth.saturating_add(1);
    match &s.node {
        CoreNode::If { yes, no, .. } => {
            each(yes.as_slice(), inner, count);
            each(no.as_slice(), inner, count);
        }
        CoreNode::Block(body) | CoreNode::Loop { body, .. } => each(body.as_slice(), inner, count),
        CoreNode::Assign { .. }
        | CoreNode::Exit(_)
        | CoreNode::Wait { .. }
        | CoreNode::Alias { .. } => {}
    }
}

#[cycle(counted)]
fn each(body: &[CoreStmt], depth: u32, count: &mut Count)
    ensures { (ss : List Stood) → first_after count.new ss ≡ first_after count.old (stood depth (code_of body.now) ++ ss) }
{
    for s in body {
        if count.past.is_some() {
            return;
        }
        counted(s, depth, count);
    }
}
