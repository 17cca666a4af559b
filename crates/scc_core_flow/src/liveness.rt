//! The live part of a body: what some path comes to.
ghost use Rattle.std.specs.Prelude.{◌≡◌, ℕ, ◌+◌, ◌||◌, true, false, nat_eq, [], ◌∷◌, ◌++◌, IfOk, IfSome, OnOk};
ghost use Rattle.scc_core_spec.specs.Code.{If, Block, Loop, End, append};
ghost use Rattle.scc_core_spec.specs.Live.{alive};
ghost use Rattle.scc_core_spec.specs.Live as spec;
ghost use Rattle.scc_core_spec.specs.Static.{Cells};
ghost use Rattle.scc_core_view.specs.Codes.{code_of, counted};
ghost use Rattle.scc_core_view.specs.Terms.{term_of};
ghost use Rattle.scc_core_flow.specs.Live.{DecidesAll, Walked, left_by, loop_code};

use scc_base::{List, NoMemory, Place, lost, push};
use scc_core::{Copies, CoreExpr, CoreNode, CoreStmt, Count, Known};
use std::alloc::Global;

/// The live part of a list of statements.
#[derive(Drop)]
pub struct LivePart {
    pub body: List<CoreStmt>,
    /// Whether some path comes to its end.
    pub ends: bool,
}

#[derive(Clone, Copy)]
struct Walk<'a, 'b> {
    alloc: Global,
    known: &'b Known<'a>,
}

/// The live part of a body without pointers. Of each `if` with a static test the chosen branch's statements stand in its
/// place; what stands in a list behind an `Exit`, or behind an `if`, block or loop that no path passes, is left out; a loop
/// to whose body's end no path comes runs at most once, and its body's statements stand in its place. A path goes through
/// a wait.
pub fn live(alloc: Global, known: &Known, body: &[CoreStmt]) -> Result<List<CoreStmt>, NoMemory>
    ensures live { (cs : Cells) → DecidesAll known.now cs body.now → IfOk result (λ ss. code_of ss ≡ spec.live cs (code_of body.now)) }
{
    Ok(live_part(alloc, known, body)?.body)
}

/// The live part of a body, and whether some path comes to its end.
pub fn live_part(alloc: Global, known: &Known, body: &[CoreStmt]) -> Result<LivePart, NoMemory>
    ensures live { (cs : Cells) → DecidesAll known.now cs body.now → IfOk result (λ p. code_of p.body ≡ spec.live cs (code_of body.now)) }
    ensures ends { (cs : Cells) → DecidesAll known.now cs body.now → IfOk result (λ p. p.ends ≡ (alive cs (code_of body.now)).ends) }
{
    let walk = Walk { alloc, known };
    let mut left = Vec::new(alloc);
    walk.inner(body, &mut left)
}

// For each open block, from the outermost on, `left` has whether a path leaves it by an `Exit`.
impl Walk<'_, '_> {
    // Appends the live part of a list; whether a path comes to its end.
    #[cycle(walk)]
    fn list(
        &self,
        list: &[CoreStmt],
        left: &mut Vec<bool>,
        out: &mut List<CoreStmt>,
    ) -> Result<bool, NoMemory>
        ensures { (cs : Cells) → DecidesAll self.now.known.now cs list.now → IfOk result (λ ends. Walked (alive cs (code_of list.now)) ends out.old out.new left.old.items left.new.items) }
    {
        for s in list {
            if !self.stmt(s, left, out)? {
                return Ok(false);
            }
        }
        Ok(true)
    }

    // The live part of a list, by itself.
    #[cycle(walk)]
    fn inner(&self, list: &[CoreStmt], left: &mut Vec<bool>) -> Result<LivePart, NoMemory>
        ensures { (cs : Cells) → DecidesAll self.now.known.now cs list.now → IfOk result (λ p. Walked (alive cs (code_of list.now)) p.ends [] p.body left.old.items left.new.items) }
    {
        let mut body = List::new(self.alloc);
        let ends = self.list(list, left, &mut body)?;
        Ok(LivePart { body, ends })
    }

    // Appends the live part of a statement; whether a path goes on behind it.
    #[cycle(walk)]
    fn stmt(
        &self,
        s: &CoreStmt,
        left: &mut Vec<bool>,
        out: &mut List<CoreStmt>,
    ) -> Result<bool, NoMemory>
        ensures { (cs : Cells) → DecidesAll self.now.known.now cs (s.now ∷ []) → IfOk result (λ ends. Walked (alive cs (code_of (s.now ∷ []))) ends out.old out.new left.old.items left.new.items) }
    {
        let copies = Copies::plain(self.alloc);
        let place = s.place;
        match &s.node {
            CoreNode::If { test, yes, no } => match self.known.goes(test) {
                Some(true) => self.list(yes.as_slice(), left, out),
                Some(false) => self.list(no.as_slice(), left, out),
                None => {
                    let test = copies.expr(test)?;
                    let yes = self.inner(yes.as_slice(), left)?;
                    let no = self.inner(no.as_slice(), left)?;
                    tested(place, test, yes, no, out)
                }
            },
            CoreNode::Block(body) => {
                push(left, false)?;
                let body = self.inner(body.as_slice(), left)?;
                let is_left = closed(left)?;
                shut(place, body, is_left, out)
            }
            CoreNode::Loop { count, body } => {
                let body = self.inner(body.as_slice(), left)?;
                looped(self.alloc, place, count, body, out)
            }
            CoreNode::Exit(n) => {
                leave(left, *n)?;
                out.push(copies.stmt(s)?)?;
                Ok(false)
            }
            CoreNode::Assign { .. } => kept(s, self.alloc, out),
            CoreNode::Wait { .. } => kept(s, self.alloc, out),
            CoreNode::Alias { .. } => kept(s, self.alloc, out),
        }
    }
}

// A statement that holds none.
fn kept(s: &CoreStmt, alloc: Global, out: &mut List<CoreStmt>) -> Result<bool, NoMemory>
    ensures more { OnOk result (out.new ≡ out.old ++ s.now ∷ []) }
    ensures ends { IfOk result (λ on. on ≡ true) }
{
    out.push(Copies::plain(alloc).stmt(s)?)?;
    Ok(true)
}

// An `if` with these branches.
#[tactic(auto, using(crate::proofs::Nodes::adds_if))]
fn tested(
    place: Place,
    test: CoreExpr,
    yes: LivePart,
    no: LivePart,
    out: &mut List<CoreStmt>,
) -> Result<bool, NoMemory>
    ensures code { OnOk result (code_of out.new ≡ append (code_of out.old) (If place (term_of test) (code_of yes.body) (code_of no.body) End)) }
    ensures ends { IfOk result (λ on. on ≡ (yes.ends || no.ends)) }
{
    let ends = either(yes.ends, no.ends);
    let node = CoreNode::If {
        test,
        yes: yes.body,
        no: no.body,
    };
    out.push(CoreStmt { place, node })?;
    Ok(ends)
}

fn either(a: bool, b: bool) -> bool
    ensures { result ≡ (a || b) }
{
    a || b
}

// A block with this body, which an `Exit` leaves or not.
#[tactic(auto, using(crate::proofs::Nodes::adds_block))]
fn shut(
    place: Place,
    body: LivePart,
    is_left: bool,
    out: &mut List<CoreStmt>,
) -> Result<bool, NoMemory>
    ensures code { OnOk result (code_of out.new ≡ append (code_of out.old) (Block place (code_of body.body) End)) }
    ensures ends { IfOk result (λ on. on ≡ (body.ends || is_left)) }
{
    let ends = either(body.ends, is_left);
    let node = CoreNode::Block(body.body);
    out.push(CoreStmt { place, node })?;
    Ok(ends)
}

// A loop with this body, or its body where no path comes to its end.
#[tactic(auto, using(crate::proofs::Nodes::adds_body))]
fn looped(
    alloc: Global,
    place: Place,
    count: &Option<Count>,
    part: LivePart,
    out: &mut List<CoreStmt>,
) -> Result<bool, NoMemory>
    ensures code { OnOk result (code_of out.new ≡ append (code_of out.old) (loop_code part.ends place (counted count.now) (code_of part.body))) }
    ensures ends { IfOk result (λ on. on ≡ false) }
{
    let LivePart { body, ends } = part;
    if ends {
        repeated(place, count_copied(alloc, count)?, body, out)?;
    } else {
        out.append(body)?;
    }
    Ok(false)
}

#[tactic(auto, using(crate::proofs::Nodes::adds_loop))]
fn repeated(
    place: Place,
    count: Option<Count>,
    body: List<CoreStmt>,
    out: &mut List<CoreStmt>,
) -> Result<(), NoMemory>
    ensures { OnOk result (code_of out.new ≡ append (code_of out.old) (Loop place (counted count) (code_of body) End)) }
{
    let node = CoreNode::Loop { count, body };
    out.push(CoreStmt { place, node })
}

fn count_copied(alloc: Global, count: &Option<Count>) -> Result<Option<Count>, NoMemory>
    ensures { IfOk result (λ n. n ≡ count.now) }
{
    match count {
        Some(count) => Ok(Some(Copies::plain(alloc).count(count)?)),
        None => Ok(None),
    }
}

// The innermost open block ends: whether a path leaves it.
fn closed(left: &mut Vec<bool>) -> Result<bool, NoMemory>
    ensures { IfOk result (λ is. left.old.items ≡ left.new.items ++ is ∷ []) }
{
    left.pop().ok_or(lost())
}

// A path leaves the open block of that number, counted outward.
fn leave(left: &mut Vec<bool>, n: u32) -> Result<(), NoMemory>
    ensures { OnOk result (left.new.items ≡ left_by (λ m. nat_eq m n) left.old.items) }
{
    let Some(at) = outward(left.len(), n) else {
        return Err(lost());
    };
    match left.get_mut(at) {
        Some(flag) => {
            *flag = true;
            Ok(())
        }
        None => Err(lost()),
    }
}

// The place of the open block of that number, among so many.
fn outward(blocks: usize, n: u32) -> Option<usize>
    ensures { IfSome result (λ at. at + (n + 1) ≡ blocks) }
{
    let last = blocks.checked_sub(1)?;
    last.checked_sub(n as usize)
}
