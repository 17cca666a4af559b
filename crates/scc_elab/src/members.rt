//! Members of an object, in declaration order, each with its initialisers.
use crate::args::size_of;
use crate::make::slice_of;
use scc_base::{NoMemory, PathPart, Stop, lost};
use scc_elab_state::grown::Grown;
use scc_elab_state::program::{class_of, function_of};
use scc_elab_state::spots::SpotId;
use scc_elab_state::work::{Each, Form, Stack, Work};
use scc_plain_tree::{Base, Plain, PlainArg, PlainMember, PlainNode, PlainStmt, Reach};

/// The members of a class from one on.
pub fn next_member<'t>(
    class: u32,
    next: u32,
    group: usize,
    end: usize,
    p: &'t Plain,
    stack: &mut Stack<'t>,
    g: &mut Grown,
) -> Result<(), NoMemory> {
    let Some(member) = class_of(p, class)?.members.get(next as usize) else {
        return Ok(());
    };
    let behind = g.groups.end_of(next, group, end);
    stack.then(Work::Members {
        class,
        next: next.saturating_add(1),
        group: behind,
        end,
    })?;
    let this = g.frame()?.this;
    let at = g.spots.part(this, PathPart::Member(member.name), None)?;
    if member.shape.reach != Reach::Direct {
        return begin_pointer(member, at, group, behind, stack);
    }
    match member.shape.base {
        Base::ModuleName => Ok(()),
        _ => begin_direct(member, at, group, behind, p, stack, g),
    }
}

fn begin_pointer<'t>(
    member: &'t PlainMember,
    at: SpotId,
    group: usize,
    behind: usize,
    stack: &mut Stack<'t>,
) -> Result<(), NoMemory> {
    stack.then(Work::Groups {
        first: group,
        end: behind,
        others: false,
    })?;
    stack.then(Work::Elements {
        of: at,
        sizes: member.shape.sizes.as_slice(),
        next: 0,
        each: Each {
            form: Form::Pointer,
            base: member.shape.base,
            place: member.place,
            args: &[],
        },
    })
}

// What makes a member in place stands for its initialisers' arguments, and comes behind what else they hold; without it they come
// behind the member.
fn begin_direct<'t>(
    member: &'t PlainMember,
    at: SpotId,
    group: usize,
    behind: usize,
    p: &'t Plain,
    stack: &mut Stack<'t>,
    g: &Grown,
) -> Result<(), NoMemory> {
    match made_by(group, behind, p, g)? {
        Some(args) => {
            stack.then(Work::Direct(member, at, args))?;
            stack.then(Work::Groups {
                first: group,
                end: behind,
                others: true,
            })
        }
        None => {
            stack.then(Work::Groups {
                first: group,
                end: behind,
                others: false,
            })?;
            stack.then(Work::Direct(member, at, &[]))
        }
    }
}

// The arguments of the first statement of some groups that makes an object.
fn made_by<'t>(
    first: usize,
    end: usize,
    p: &'t Plain,
    g: &Grown,
) -> Result<Option<&'t [PlainArg]>, NoMemory> {
    for number in first..end {
        let made = first_made(group_at(number, p, g)?);
        if made.is_some() {
            return Ok(made);
        }
    }
    Ok(None)
}

fn first_made(list: &[PlainStmt]) -> Option<&[PlainArg]> {
    for s in list {
        if let PlainNode::Make { args, .. } = &s.node {
            return Some(args.as_slice());
        }
    }
    None
}

// The statements of a group of the constructor that runs.
fn group_at<'t>(number: usize, p: &'t Plain, g: &Grown) -> Result<&'t [PlainStmt], NoMemory> {
    let Some(function) = g.frame()?.function else {
        return Err(lost());
    };
    let group = g.groups.get(number)?;
    let inits = function_of(p, function)?.inits.as_slice();
    slice_of(inits, group.first, group.end)
}

/// The groups of initialisers from one on.
pub fn next_group<'t>(
    first: usize,
    end: usize,
    others: bool,
    p: &'t Plain,
    stack: &mut Stack<'t>,
    g: &Grown,
) -> Result<(), NoMemory> {
    if first >= end {
        return Ok(());
    }
    stack.then(Work::Groups {
        first: first.saturating_add(1),
        end,
        others,
    })?;
    let list = group_at(first, p, g)?;
    stack.then(if others {
        Work::Others(list)
    } else {
        Work::Statements(list)
    })
}

/// Makes a member that is the thing itself. A vector without elements makes no array.
pub fn make_direct<'t>(
    member: &'t PlainMember,
    at: SpotId,
    args: &'t [PlainArg],
    p: &'t Plain,
    stack: &mut Stack<'t>,
    g: &mut Grown,
) -> Result<(), Stop> {
    let form = if member.shape.vector {
        let size = size_of(args, p, g)?;
        if size == 0 {
            return Ok(());
        }
        Form::Vector(size)
    } else {
        Form::One
    };
    Ok(stack.then(Work::Elements {
        of: at,
        sizes: member.shape.sizes.as_slice(),
        next: 0,
        each: Each {
            form,
            base: member.shape.base,
            place: member.place,
            args,
        },
    })?)
}
