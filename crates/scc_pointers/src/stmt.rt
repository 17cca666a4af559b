//! Statements. A pointer that is assigned after its declaration is refused as E511, an index before a member as E512.
ghost use Rattle.std.specs.Prelude.{◌≡◌, ◌∷◌, ◌++◌, [], ℕ, Err, IfOk, OnOk, Option, false, option_map};
ghost use Rattle.scc_base.specs.declared.refusal.Place.{Place};
ghost use Rattle.scc_base.specs.declared.refusal.Refusal.{Refusal};
ghost use Rattle.scc_base.specs.declared.refusal.Stop.TheVariants as stop;
ghost use Rattle.scc_core.specs.declared.expr.CoreLeft.{CoreLeft};
ghost use Rattle.scc_core.specs.declared.stmt.Pointed.TheVariants as aimed;
ghost use Rattle.scc_core_spec.specs.Code as code;
ghost use Rattle.scc_core_spec.specs.Resolved.{Made, made_map};
ghost use Rattle.scc_core_spec.specs.Unpointed.{is_null_there, leading, of_assigned, or_same};
ghost use Rattle.scc_core_view.specs.Codes.{code_of, counted, stmt_code};
ghost use Rattle.scc_pointers_laws.specs.Followed.{IsKnown};
ghost use Rattle.scc_pointers_spec.specs.Freed.{freed};
ghost use Rattle.scc_pointers_walk.specs.Led.{Gives, leads_of, target_of};
ghost use Rattle.scc_pointers_walk.specs.Pointers.{IsOfPointers};
ghost use Rattle.scc_pointers_walk.specs.Walked.{expr_in, walked_in};
ghost use Rattle.scc_pointers_laws.specs.Asked.{AreAsked};
ghost use Rattle.scc_unroll_asked.specs.Items.{asked, asked_count};
ghost use Rattle.scc_pointers_laws.specs.Stated.{Begins, Refuses, alias_in, count_in, empty_block, put_in};
ghost use Rattle.scc_pointers_laws.specs.Turned.{Turns};

use scc_base::{Code, List, NoMemory, Place, Refusal, Stop};
use scc_core::{Copies, CoreExpr, CoreLeft, CoreNode, CoreStmt, Count, Pointed};
use scc_pointers_walk::{Resolver, expression, location, target, walked};

/// Statements without pointers, in text order.
#[cycle(resolved)]
pub fn resolved_stmts(body: &[CoreStmt], r: &mut Resolver<'_>) -> Result<List<CoreStmt>, Stop>
    ensures freed { AreAsked r.old (asked body.now) → IsKnown r.old → Gives code_of result (freed (leads_of r.old) (code_of body.now)) }
    ensures held { OnOk result (r.new.held.entries ≡ r.old.held.entries) }
    ensures leads { OnOk result (leads_of r.new ≡ leads_of r.old) }
    ensures known { r.new.known ≡ r.old.known }
    ensures places { r.new.places ≡ r.old.places }
    ensures vectors { r.new.vectors ≡ r.old.vectors }
    ensures stop { (q : Refusal) → result ≡ Err (stop.Refused q) → IsOfPointers q }
{
    let mark = r.mark();
    let mut out = List::new(r.alloc);
    for s in body {
        let node = resolved_node(s, r)?;
        let place = s.place;
        out.push(CoreStmt { place, node })?;
    }
    r.leave(mark);
    Ok(out)
}

#[cycle(resolved)]
fn resolved_node(s: &CoreStmt, r: &mut Resolver<'_>) -> Result<CoreNode, Stop>
    ensures freed { AreAsked r.old (asked (s.now ∷ [])) → IsKnown r.old → Turns (leads_of r.old) (leads_of r.new) s.now.place (stmt_code s.now) result }
    ensures sound { AreAsked r.old (asked (s.now ∷ [])) → IsKnown r.old → OnOk result (IsKnown r.new) }
    ensures held { OnOk result (Begins r.old.held.entries r.new.held.entries) }
    ensures known { r.new.known ≡ r.old.known }
    ensures places { r.new.places ≡ r.old.places }
    ensures vectors { r.new.vectors ≡ r.old.vectors }
    ensures stop { (q : Refusal) → result ≡ Err (stop.Refused q) → IsOfPointers q }
{
    match &s.node {
        CoreNode::Assign { left, value } => put(left, value, r),
        CoreNode::If { test, yes, no } => {
            let test = expression(r, test)?;
            let yes = resolved_stmts(yes.as_slice(), r)?;
            let no = resolved_stmts(no.as_slice(), r)?;
            Ok(CoreNode::If { test, yes, no })
        }
        CoreNode::Block(body) => block(body.as_slice(), r),
        CoreNode::Loop { count, body } => looped(count, body.as_slice(), r),
        CoreNode::Exit(n) => Ok(CoreNode::Exit(*n)),
        CoreNode::Wait { n } => Ok(CoreNode::Wait { n: *n }),
        CoreNode::Alias { to, target } => alias(s.place, to, target, r),
    }
}

#[cycle(resolved)]
fn block(body: &[CoreStmt], r: &mut Resolver<'_>) -> Result<CoreNode, Stop>
    ensures freed { AreAsked r.old (asked body.now) → IsKnown r.old → (p : Place) → Turns (leads_of r.old) (leads_of r.old) p (code.Block p (code_of body.now)) result }
    ensures held { OnOk result (r.new.held.entries ≡ r.old.held.entries) }
    ensures known { r.new.known ≡ r.old.known }
    ensures places { r.new.places ≡ r.old.places }
    ensures vectors { r.new.vectors ≡ r.old.vectors }
    ensures stop { (q : Refusal) → result ≡ Err (stop.Refused q) → IsOfPointers q }
{
    let body = resolved_stmts(body, r)?;
    Ok(CoreNode::Block(body))
}

// A loop, with its body.
#[cycle(resolved)]
fn looped(count: &Option<Count>, body: &[CoreStmt], r: &mut Resolver<'_>) -> Result<CoreNode, Stop>
    ensures freed { AreAsked r.old (asked_count count.now ++ asked body.now) → IsKnown r.old → (p : Place) → Turns (leads_of r.old) (leads_of r.old) p (code.Loop p (counted count.now) (code_of body.now)) result }
    ensures held { OnOk result (r.new.held.entries ≡ r.old.held.entries) }
    ensures known { r.new.known ≡ r.old.known }
    ensures places { r.new.places ≡ r.old.places }
    ensures vectors { r.new.vectors ≡ r.old.vectors }
    ensures stop { (q : Refusal) → result ≡ Err (stop.Refused q) → IsOfPointers q }
{
    let body = resolved_stmts(body, r)?;
    let count = how_counted(count, r)?;
    Ok(CoreNode::Loop { count, body })
}

// An assignment.
fn put(left: &CoreLeft, value: &CoreExpr, r: &Resolver<'_>) -> Result<CoreNode, Stop>
    ensures trees { Gives (λ n. n) result (put_in r.now left.now value.now) }
    ensures stop { (q : Refusal) → result ≡ Err (stop.Refused q) → IsOfPointers q }
{
    let left = location(r, left)?;
    let value = expression(r, value)?;
    Ok(CoreNode::Assign { left, value })
}

// How a loop counts.
fn how_counted(count: &Option<Count>, r: &Resolver<'_>) -> Result<Option<Count>, NoMemory>
    ensures { IfOk result (λ o. o ≡ option_map (count_in r.now) count.now) }
{
    match count {
        Some(count) => Ok(Some(resolved_count(count, r)?)),
        None => Ok(None),
    }
}

// What a count says stands in statements too, where it is looked at.
fn resolved_count(count: &Count, r: &Resolver<'_>) -> Result<Count, NoMemory>
    ensures { IfOk result (λ c. c ≡ count_in r.now count.now) }
{
    Ok(Count {
        cell: count.cell,
        start: or_same(&count.start, r)?,
        compare: count.compare,
        bound: or_same(&count.bound, r)?,
        step_op: count.step_op,
        step: or_same(&count.step, r)?,
    })
}

// An expression without pointers, or as it is where it is refused.
fn or_same(e: &CoreExpr, r: &Resolver<'_>) -> Result<CoreExpr, NoMemory>
    ensures { IfOk result (λ x. x ≡ or_same e.now (expr_in r.now e.now)) }
{
    match expression(r, e) {
        Ok(made) => Ok(made),
        Err(Stop::Refused(_)) => Copies::plain(r.alloc).expr(e),
        Err(Stop::NoMemory) => Err(NoMemory),
    }
}

// A pointer leads to its target from its declaration on; a second one, or one that is assigned, is refused.
fn alias(place: Place, to: &Pointed, of: &CoreLeft, r: &mut Resolver<'_>) -> Result<CoreNode, Stop>
    ensures trees { Gives (λ x. x) result (made_map (λ o. empty_block) (alias_in r.old place to.now of.now)) }
    ensures leads { (n : ℕ) (o : Option CoreLeft) → to.now ≡ aimed.Declared n → alias_in r.old place to.now of.now ≡ Made o → OnOk result (leads_of r.new ≡ leading (leads_of r.old) n (target_of o)) }
    ensures entries { (n : ℕ) (o : Option CoreLeft) → to.now ≡ aimed.Declared n → alias_in r.old place to.now of.now ≡ Made o → OnOk result (r.new.held.entries ≡ r.old.held.entries ++ (n, o) ∷ []) }
    ensures held { OnOk result (Begins r.old.held.entries r.new.held.entries) }
    ensures known { r.new.known ≡ r.old.known }
    ensures places { r.new.places ≡ r.old.places }
    ensures vectors { r.new.vectors ≡ r.old.vectors }
    ensures stop { (q : Refusal) → result ≡ Err (stop.Refused q) → IsOfPointers q }
{
    match to {
        Pointed::Assigned(left) => Err(assigned(place, left, r)),
        Pointed::Declared(cell) => declared(place, *cell, of, r),
    }
}

// The declaration of a pointer.
fn declared(place: Place, cell: u32, of: &CoreLeft, r: &mut Resolver<'_>) -> Result<CoreNode, Stop>
    ensures trees { Gives (λ x. x) result (made_map (λ o. empty_block) (alias_in r.old place (aimed.Declared cell) of.now)) }
    ensures leads { (o : Option CoreLeft) → alias_in r.old place (aimed.Declared cell) of.now ≡ Made o → OnOk result (leads_of r.new ≡ leading (leads_of r.old) cell (target_of o)) }
    ensures entries { (o : Option CoreLeft) → alias_in r.old place (aimed.Declared cell) of.now ≡ Made o → OnOk result (r.new.held.entries ≡ r.old.held.entries ++ (cell, o) ∷ []) }
    ensures held { OnOk result (Begins r.old.held.entries r.new.held.entries) }
    ensures known { r.new.known ≡ r.old.known }
    ensures places { r.new.places ≡ r.old.places }
    ensures vectors { r.new.vectors ≡ r.old.vectors }
    ensures stop { (q : Refusal) → result ≡ Err (stop.Refused q) → IsOfPointers q }
{
    let found = target(r, of)?;
    if !r.declares(cell) {
        return Err(Stop::refused(Code::PointerAssigned, place));
    }
    r.hold(cell, found)?;
    Ok(CoreNode::Block(List::new(r.alloc)))
}

// The refusal of an assigned pointer; null that is followed at the same place comes first.
fn assigned(place: Place, left: &CoreLeft, r: &Resolver<'_>) -> Stop
    ensures trees { Refuses result (of_assigned place (made_map target_of (walked_in r.now left.now false))) }
    ensures stop { (q : Refusal) → result ≡ stop.Refused q → IsOfPointers q }
{
    match walked(r, left, false) {
        Err(Stop::Refused(refusal)) => {
            if is_null_there(place, refusal) {
                Stop::Refused(refusal)
            } else {
                Stop::refused(Code::PointerAssigned, place)
            }
        }
        Err(Stop::NoMemory) => Stop::NoMemory,
        Ok(_) => Stop::refused(Code::PointerAssigned, place),
    }
}

// Whether null is followed there.
fn is_null_there(place: Place, refusal: Refusal) -> bool
    ensures { result ≡ is_null_there place refusal }
{
    matches!(refusal.code, Code::EmptyPointer)
        && refusal.place.file == place.file
        && refusal.place.at == place.at
}
