//! The initialisers of a member, and what makes it in place.
ghost use Rattle.std.specs.Prelude.{◌≡◌, IfSome, List, map, None, slice_get, Some};
ghost use Rattle.std.specs.Option.{option_copied};
ghost use Rattle.scc_elab_groups.specs.Groups.{backward, first_args, Grouped, last_args as last_given};
ghost use Rattle.scc_elab_inits.specs.Makes.{args_in};
ghost use Rattle.scc_plain_tree.specs.declared.stmt.PlainStmt.{PlainStmt as Statement};

use crate::groups::{Group, Groups};
use scc_elab_inits::args_of;
use scc_plain_tree::{PlainArg, PlainStmt};

fn group_at<'a, 't>(groups: &'a Groups<'t>, member: u32) -> Option<&'a Group<'t>>
    ensures { option_copied result ≡ slice_get groups.now.members.items member }
{
    groups.members.as_slice().get(member as usize)
}

/// The initialisers of a member; None where the member is none of those that are grouped.
pub fn tails_at<'a, 't>(groups: &'a Groups<'t>, member: u32) -> Option<&'a [&'t [PlainStmt]]>
    ensures { IfSome result (λ ts. (list : List Statement) → Grouped list groups.now → map (λ t. t.now) ts.now ≡ backward (Some member) list) }
{
    match group_at(groups, member) {
        Some(group) => Some(group.tails.as_slice()),
        None => None,
    }
}

fn args_first(tail: &[PlainStmt]) -> Option<&[PlainArg]>
    ensures { args_in result ≡ first_args tail.now }
{
    match tail {
        [] => None,
        [s, _rest @ ..] => args_of(s),
    }
}

/// The arguments of the last of some that makes an object.
pub fn last_args<'t>(tails: &[&'t [PlainStmt]]) -> Option<&'t [PlainArg]>
    ensures { args_in result ≡ last_given (map (λ t. t.now) tails.now) None }
{
    let mut found = None;
    for tail in tails {
        if let Some(args) = args_first(tail) {
            found = Some(args);
        }
    }
    found
}
