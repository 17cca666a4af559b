//! The initialisers of a constructor by the members that they fill or make. All are gone through once, from the last to the first.
ghost use Rattle.std.specs.Prelude.{◌≡◌, ◌≤◌, ◌++◌, ◌∷◌, [], drop, length, map, IfOk, OnOk, Option, Some, take};
ghost use Rattle.scc_elab_groups.specs.Groups.{AreEmpty, Grouped, Noted, tails_of, with_at};
ghost use Rattle.scc_elab_spec.specs.Inits.{owner};
ghost use Rattle.scc_plain_view.specs.Codes.{code_of};

use scc_base::{NoMemory, push};
use scc_elab_inits::owner_of;
use scc_plain_tree::PlainStmt;
use std::alloc::Global;

/// Where each initialiser of a member begins, or of none; the last one first.
pub struct Group<'t> {
    pub tails: Vec<&'t [PlainStmt]>,
}

impl<'t> Drop for Group<'t> {
    fn drop(self) {
        let Group { tails: _tails } = self;
    }
}

/// Initialisers by members, and those of none.
pub struct Groups<'t> {
    pub members: Vec<Group<'t>>,
    pub none: Group<'t>,
}

impl<'t> Drop for Groups<'t> {
    fn drop(self) {
        let Groups {
            members: _members,
            none: _none,
        } = self;
    }
}

fn no_members<'t>(alloc: Global, count: usize) -> Result<Vec<Group<'t>>, NoMemory>
    ensures { IfOk result (λ v. AreEmpty (map tails_of v.items)) }
{
    let mut members = Vec::new(alloc);
    for _ in 0..count {
        push(
            &mut members,
            Group {
                tails: Vec::new(alloc),
            },
        )?;
    }
    Ok(members)
}

fn note_member<'t>(
    members: &mut Vec<Group<'t>>,
    number: u32,
    tail: &'t [PlainStmt],
) -> Result<(), NoMemory>
    ensures { OnOk result (map tails_of members.new.items ≡ with_at number (λ ts. ts ++ tail.now ∷ []) (map tails_of members.old.items)) }
{
    match members.get_mut(number as usize) {
        Some(group) => push(&mut group.tails, tail),
        None => Ok(()),
    }
}

// One more initialiser.
fn note<'t>(
    groups: &mut Groups<'t>,
    member: Option<u32>,
    tail: &'t [PlainStmt],
) -> Result<(), NoMemory>
    ensures { OnOk result (Noted member tail.now groups.old groups.new) }
{
    match member {
        Some(number) => note_member(&mut groups.members, number, tail),
        None => push(&mut groups.none.tails, tail),
    }
}

/// Those from one on.
pub fn from(list: &[PlainStmt], i: usize) -> &[PlainStmt]
    requires { i ≤ length list.now }
    ensures { result.now ≡ drop i list.now }
{
    &list[i..]
}

/// The first alone.
pub fn first_alone(list: &[PlainStmt]) -> &[PlainStmt]
    requires { 1 ≤ length list.now }
    ensures { result.now ≡ take 1 list.now }
{
    &list[..1]
}

// The member with which initialisers begin, by that of those behind the first.
fn owner_by(tail: &[PlainStmt], behind: Option<u32>) -> Option<u32>
    requires { behind ≡ owner (code_of (drop 1 tail.now)) }
    ensures { result ≡ owner (code_of tail.now) }
{
    match tail {
        [] => None,
        [_first, _rest @ ..] => match owner_of(first_alone(tail)) {
            Some(member) => Some(member),
            None => behind,
        },
    }
}

/// The initialisers of each of so many members.
pub fn groups_of<'t>(
    alloc: Global,
    list: &'t [PlainStmt],
    count: usize,
) -> Result<Groups<'t>, NoMemory>
    ensures { IfOk result (λ g. Grouped list.now g) }
{
    let mut groups = Groups {
        members: no_members(alloc, count)?,
        none: Group {
            tails: Vec::new(alloc),
        },
    };
    let mut member = None;
    for i in 0..list.len() {
        let tail = from(list, list.len() - 1 - i);
        member = owner_by(tail, member);
        note(&mut groups, member, tail)?;
    }
    Ok(groups)
}
