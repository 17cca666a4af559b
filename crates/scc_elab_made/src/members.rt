//! Members of an object, in declaration order, each with its initialisers.
ghost use Rattle.std.specs.Prelude.{◌≡◌, ◌++◌, ◌∷◌, [], false, List, map, IfOk, slice_get, Some, ℕ};
ghost use Rattle.std.specs.Option.{option_copied};
ghost use Rattle.scc_semantics.specs.Location.{Member};
ghost use Rattle.scc_core_spec.specs.Resolved.{and_made};
ghost use Rattle.scc_elab_groups.specs.Groups.{backward, Grouped};
ghost use Rattle.scc_elab_made.specs.Objects.{direct_at, form_in, IsShut, member_at as member_there};
ghost use Rattle.scc_elab_works.specs.declared.works.Work.{Work as Awaiting};
ghost use Rattle.scc_elab_made.specs.Tails.{fillers_run, tails_run};
ghost use Rattle.scc_elab_works.specs.Works.{anew, array_made, at_in, Puts, site_at};
ghost use Rattle.scc_elab_spec.specs.Made.{built, elements_at, grown_by, made_members};
ghost use Rattle.scc_elab_store.specs.Locations.{part_of};
ghost use Rattle.scc_plain_tree.specs.declared.stmt.PlainStmt.{PlainStmt as Statement};
ghost use Rattle.scc_plain_view.specs.Codes.{code_of};
ghost use Rattle.scc_plain_view.specs.Plains.{member_of};
ghost use Rattle.scc_plain_view.specs.Terms.{argument_of};

use crate::arrays::put_array;
use crate::inits::{put_fillers, put_tails};
use crate::objects::put_made;
use scc_base::{NoMemory, lost, push};
use scc_elab_groups::{Groups, last_args, tails_at};
use scc_elab_store::Part;
use scc_elab_works::{Args, At, Form, Work, is_direct};
use scc_plain_tree::{PlainArg, PlainMember, PlainStmt};
use std::alloc::Global;

/// The path of a member of what stands at a path.
pub fn member_path(alloc: Global, path: &[Part], k: &PlainMember) -> Result<Vec<Part>, NoMemory>
    ensures { IfOk result (λ v. map part_of v.items ≡ map part_of path.now ++ Member (member_of k.now).name ∷ []) }
{
    let mut parts = Vec::from_slice(alloc, path)?;
    push(&mut parts, Part::Member(k.name))?;
    Ok(parts)
}

fn form_of(k: &PlainMember, is_pointer: bool) -> Form
    ensures { result ≡ form_in k.now is_pointer }
{
    Form {
        is_pointer,
        is_vector: k.shape.vector,
        base: k.shape.base,
        place: k.place,
    }
}

fn put_things<'t>(
    alloc: Global,
    at: &At<'t>,
    k: &'t PlainMember,
    is_pointer: bool,
    args: &'t [PlainArg],
    works: &mut Vec<Work<'t>>,
) -> Result<(), NoMemory>
    ensures { Puts result works.old.items works.new.items (λ p x. anew (and_made (grown_by x) (array_made p (form_in k.now is_pointer) (record { at = at_in at.now; list = map argument_of args.now }) (elements_at ((at_in at.now).path ++ Member (member_of k.now).name ∷ []) (member_of k.now).shape.sizes)))) }
{
    let path = member_path(alloc, at.path.as_slice(), k)?;
    let at = at.copied(alloc)?;
    put_array(
        works,
        form_of(k, is_pointer),
        Args { at, list: args },
        path,
        k.shape.sizes.as_slice(),
    )
}

// A member that is made empty, or a pointer; then its initialisers run.
fn put_empty<'t>(
    alloc: Global,
    at: &At<'t>,
    k: &'t PlainMember,
    is_pointer: bool,
    tails: &[&'t [PlainStmt]],
    works: &mut Vec<Work<'t>>,
) -> Result<(), NoMemory>
    ensures { Puts result works.old.items works.new.items (λ p x. anew (grown_by (tails_run p (at_in at.now) (map (λ t. t.now) tails.now) (anew (and_made (grown_by x) (array_made p (form_in k.now is_pointer) (record { at = at_in at.now; list = [] }) (elements_at ((at_in at.now).path ++ Member (member_of k.now).name ∷ []) (member_of k.now).shape.sizes))))))) }
{
    put_made(works)?;
    put_tails(alloc, at, tails, works)?;
    put_things(alloc, at, k, is_pointer, &[], works)
}

// Its initialisers run but for what makes it; then it is made by these arguments.
fn put_given<'t>(
    alloc: Global,
    at: &At<'t>,
    k: &'t PlainMember,
    args: &'t [PlainArg],
    tails: &[&'t [PlainStmt]],
    works: &mut Vec<Work<'t>>,
) -> Result<(), NoMemory>
    ensures { Puts result works.old.items works.new.items (λ p x. anew (and_made (grown_by (fillers_run p (at_in at.now) (map (λ t. t.now) tails.now) (anew (grown_by x)))) (array_made p (form_in k.now false) (record { at = at_in at.now; list = map argument_of args.now }) (elements_at ((at_in at.now).path ++ Member (member_of k.now).name ∷ []) (member_of k.now).shape.sizes)))) }
{
    put_things(alloc, at, k, false, args, works)?;
    put_fillers(alloc, at, tails, works)?;
    put_made(works)
}

fn put_direct<'t>(
    alloc: Global,
    at: &At<'t>,
    k: &'t PlainMember,
    tails: &[&'t [PlainStmt]],
    works: &mut Vec<Work<'t>>,
) -> Result<(), NoMemory>
    ensures { (number : ℕ) (list : List Statement) → map (λ t. t.now) tails.now ≡ backward (Some number) list → Puts result works.old.items works.new.items (λ p x. anew (and_made (grown_by x) (direct_at p (at_in at.now) number (member_of k.now) (code_of list)))) }
{
    match last_args(tails) {
        Some(args) => put_given(alloc, at, k, args, tails, works),
        None => put_empty(alloc, at, k, false, tails, works),
    }
}

// A member, with its initialisers.
fn put_member<'t>(
    alloc: Global,
    at: &At<'t>,
    k: &'t PlainMember,
    tails: &[&'t [PlainStmt]],
    works: &mut Vec<Work<'t>>,
) -> Result<(), NoMemory>
    ensures { (number : ℕ) (list : List Statement) → map (λ t. t.now) tails.now ≡ backward (Some number) list → Puts result works.old.items works.new.items (λ p x. anew (and_made (grown_by x) (member_there p (at_in at.now) number (member_of k.now) (code_of list)))) }
{
    if is_direct(k.shape.reach) {
        put_direct(alloc, at, k, tails, works)
    } else {
        put_empty(alloc, at, k, true, tails, works)
    }
}

// The member of a number, with its initialisers.
fn put_one<'t>(
    alloc: Global,
    at: &At<'t>,
    number: u32,
    k: &'t PlainMember,
    groups: &Groups<'t>,
    works: &mut Vec<Work<'t>>,
) -> Result<(), NoMemory>
    ensures { (list : List Statement) → Grouped list groups.now → Puts result works.old.items works.new.items (λ p x. anew (and_made (grown_by x) (member_there p (at_in at.now) number (member_of k.now) (code_of list)))) }
{
    match tails_at(groups, number) {
        Some(tails) => put_member(alloc, at, k, tails, works),
        None => Err(lost()),
    }
}

fn member_at<'t>(members: &'t [PlainMember], i: usize) -> Option<&'t PlainMember>
    ensures { option_copied result ≡ slice_get members.now i }
{
    members.get(i)
}

// The member of a number, and that number.
fn numbered<'t>(members: &'t [PlainMember], i: usize) -> Result<(u32, &'t PlainMember), NoMemory>
    ensures { IfOk result (λ m. (m.0 ≡ i) × (slice_get members.now i ≡ Some m.1.now)) }
{
    match u32::try_from(i) {
        Ok(number) => match member_at(members, i) {
            Some(k) => Ok((number, k)),
            None => Err(lost()),
        },
        Err(_) => Err(lost()),
    }
}

// The last one first, behind what makes no more of a run than what is made.
fn put_each<'t>(
    alloc: Global,
    at: &At<'t>,
    members: &'t [PlainMember],
    groups: &Groups<'t>,
    works: &mut Vec<Work<'t>>,
) -> Result<(), NoMemory>
    ensures { (list : List Statement) → Grouped list groups.now → (before : List Awaiting) → IsShut before works.old.items → Puts result before works.new.items (λ p x. anew (and_made (grown_by x) (made_members (built p (at_in at.now).levels) (site_at p (at_in at.now)) 0 (map member_of members.now) (code_of list)))) }
{
    for i in 0..members.len() {
        let member = numbered(members, members.len() - 1 - i)?;
        put_one(alloc, at, member.0, member.1, groups, works)?;
    }
    Ok(())
}

/// The members of an object are to be made, in order, each with its initialisers.
pub fn put_members<'t>(
    alloc: Global,
    at: &At<'t>,
    members: &'t [PlainMember],
    groups: &Groups<'t>,
    works: &mut Vec<Work<'t>>,
) -> Result<(), NoMemory>
    ensures { (list : List Statement) → Grouped list groups.now → Puts result works.old.items works.new.items (λ p x. anew (and_made (grown_by x) (made_members (built p (at_in at.now).levels) (site_at p (at_in at.now)) 0 (map member_of members.now) (code_of list)))) }
{
    put_made(works)?;
    put_each(alloc, at, members, groups, works)
}
