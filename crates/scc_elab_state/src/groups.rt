//! A constructor's initialisers by the members that they make or fill, found once for each constructor.
use indexmap::IndexMap;
use scc_base::{NoMemory, lost, push};
use scc_plain_tree::{PlainBase, PlainFunction, PlainLeft, PlainNode, PlainPart, PlainStmt};
use std::alloc::Global;

/// Statements that stand in a row among a constructor's initialisers: those of one initialiser.
#[derive(Clone, Copy, PartialEq, Eq, PartialOrd, Ord)]
pub struct Group {
    pub member: u32,
    /// The first statement, and the one behind the last.
    pub first: usize,
    pub end: usize,
}

/// The groups of a constructor.
#[derive(Clone, Copy)]
pub struct GroupsOf {
    /// The first group, and the one behind the last, by member and then in text order.
    pub first: usize,
    pub end: usize,
    /// The first of the statements that belong to no member.
    pub rest: usize,
}

/// The initialisers of the constructors that ran.
#[derive(Drop)]
pub struct Groups {
    pub groups: Vec<Group>,
    known: IndexMap<u32, GroupsOf>,
}

impl Groups {
    /// None.
    pub fn new(alloc: Global) -> Groups {
        Groups {
            groups: Vec::new(alloc),
            known: IndexMap::new(alloc),
        }
    }

    /// The group of a number.
    pub fn get(&self, number: usize) -> Result<Group, NoMemory> {
        match self.groups.get(number) {
            Some(group) => Ok(*group),
            None => Err(lost()),
        }
    }

    /// The groups of a constructor, by its function's number.
    pub fn of(
        &mut self,
        alloc: Global,
        number: u32,
        function: &PlainFunction,
    ) -> Result<GroupsOf, NoMemory> {
        if let Some(groups) = self.known.get(&number) {
            return Ok(*groups);
        }
        let (list, rest) = groups_of(alloc, function.inits.as_slice())?;
        let first = self.groups.len();
        for group in list.as_slice() {
            push(&mut self.groups, *group)?;
        }
        let end = self.groups.len();
        let groups = GroupsOf { first, end, rest };
        self.known.insert(number, groups)?;
        Ok(groups)
    }

    /// The group behind the last of a member, of those from `first` to `end`.
    pub fn end_of(&self, member: u32, first: usize, end: usize) -> usize {
        for at in first..end {
            match self.groups.get(at) {
                Some(group) if group.member == member => {}
                _ => return at,
            }
        }
        end
    }
}

// The groups of some statements, and the first statement behind them. What stands before a statement that fills a member
// belongs to it.
fn groups_of(alloc: Global, inits: &[PlainStmt]) -> Result<(Vec<Group>, usize), NoMemory> {
    let mut list = Vec::new(alloc);
    let mut first = 0;
    for (at, s) in inits.iter().enumerate() {
        if let Some(member) = member_of(s) {
            let end = at + 1;
            push(&mut list, Group { member, first, end })?;
            first = end;
        }
    }
    list.sort()?;
    Ok((list, first))
}

// The member that a statement makes or fills.
fn member_of(s: &PlainStmt) -> Option<u32> {
    match &s.node {
        PlainNode::Assign { left, .. } => first_member(left),
        PlainNode::Point { left, .. } => first_member(left),
        PlainNode::Make { left, .. } => first_member(left),
        PlainNode::Bind { port, .. } => first_member(port),
        _ => None,
    }
}

fn first_member(left: &PlainLeft) -> Option<u32> {
    let PlainBase::This = &left.base else {
        return None;
    };
    match left.parts.get(0)? {
        PlainPart::Member(member) => Some(*member),
        PlainPart::Index(_) => None,
    }
}
