//! Which members of classes statements may move. A `switch` nests as many blocks as it has labels, so the lists that are still to be
//! looked at are kept.
ghost use Rattle.std.specs.Prelude.{◌≡◌, ◌||◌, [], ◌∷◌, ◌++◌, map, Bool, true, IfOk, OnOk};
ghost use Rattle.scc_elab_spec.specs.Program.{Function as FunctionOf, Plain as ProgramOf};
ghost use Rattle.scc_elab_spec.specs.Types.{addressed, arguments, is_constructor as is_constructor_in, is_moved, last_member as last_member_of, moved, moved_from};
ghost use Rattle.scc_plain_view.specs.Codes.{code_of};
ghost use Rattle.scc_plain_view.specs.Plains.{plain_of, function_of};
ghost use Rattle.scc_plain_view.specs.Terms.{argument_of, left_of, target_of as target_in};
ghost use Rattle.scc_inline_cells.specs.declared.locations.MemberOf.{MemberOf};
ghost use Rattle.scc_inline_cells.specs.Spots.{place_of};
ghost use Rattle.scc_inline_cells.specs.Moved.{among, args_moved, argument_moved, left_moved, list_moved, own_moved, pending, target_moved};
ghost use Rattle.scc_inline_cells.specs.Noted.{Adds, moves, noted};

use crate::locations::{MemberOf, Site, last_member};
use crate::statements::{Parts, parts_of};
use indexmap::IndexMap;
use scc_base::{List, NoMemory, lost};
use scc_plain_tree::{Plain, PlainArg, PlainFunction, PlainLeft, PlainStmt, PlainTarget};
use std::alloc::Global;

/// The members that are the last member of a left side outside constructors, or of which a pointer or reference is given the address
/// anywhere. No process changes the others.
pub struct Moving {
    members: IndexMap<MemberOf, bool>,
}

impl Drop for Moving {
    fn drop(self) {
        let Moving { members: _members } = self;
    }
}

impl Moving {
    /// Looks at all functions of a program.
    pub fn of(alloc: Global, plain: &Plain) -> Result<Moving, NoMemory>
        ensures { IfOk result (λ t. (m : MemberOf) → moves t m ≡ is_moved (plain_of plain.now) (place_of m)) }
    {
        let mut moving = Moving {
            members: IndexMap::new(alloc),
        };
        moving.look(alloc, plain)?;
        Ok(moving)
    }

    /// Whether a statement may move a member.
    pub fn has(&self, m: MemberOf) -> bool
        ensures { result ≡ moves self.now m }
    {
        self.members.get(&m).is_some()
    }

    fn look(&mut self, alloc: Global, plain: &Plain) -> Result<(), NoMemory>
        ensures { OnOk result (Adds self.old self.new (moved_from (plain_of plain.now) 0 (plain_of plain.now).functions)) }
    {
        for number in 0..plain.functions.len() {
            let Some(function) = plain.functions.get(number) else {
                return Err(lost());
            };
            let site = Site {
                alloc,
                plain,
                function,
            };
            self.function(&site, number)?;
        }
        Ok(())
    }

    fn function(&mut self, s: &Site, number: usize) -> Result<(), NoMemory>
        ensures { OnOk result (Adds self.old self.new (moved (plain_of s.now.plain.now) (function_of s.now.function.now) true (function_of s.now.function.now).inits ++ moved (plain_of s.now.plain.now) (function_of s.now.function.now) (is_constructor_in (plain_of s.now.plain.now) (function_of s.now.function.now) number) (function_of s.now.function.now).body)) }
    {
        self.list(s, true, s.function.inits.as_slice())?;
        let constructor = is_constructor(s, number);
        self.list(s, constructor, s.function.body.as_slice())
    }

    // All statements of a list, at every depth.
    fn list(&mut self, s: &Site, constructor: bool, body: &[PlainStmt]) -> Result<(), NoMemory>
        ensures { OnOk result (Adds self.old self.new (moved (plain_of s.now.plain.now) (function_of s.now.function.now) constructor (code_of body.now))) }
    {
        let mut lists = List::new(s.alloc);
        lists.push(body)?;
        for _ in 0..usize::MAX {
            let Some(list) = lists.pop() else {
                return Ok(());
            };
            self.next(s, constructor, list, &mut lists)?;
        }
        Err(lost())
    }

    // The beginning of a list is looked at, behind which the rest of it comes.
    fn next<'t>(
        &mut self,
        s: &Site,
        constructor: bool,
        list: &'t [PlainStmt],
        lists: &mut List<&'t [PlainStmt]>,
    ) -> Result<(), NoMemory>
        ensures { OnOk result ((m : MemberOf) → noted self.new (pending (plain_of s.now.plain.now) (function_of s.now.function.now) constructor lists.new) m ≡ noted self.old (moved (plain_of s.now.plain.now) (function_of s.now.function.now) constructor (code_of list.now) ++ pending (plain_of s.now.plain.now) (function_of s.now.function.now) constructor lists.old) m) }
    {
        match list {
            [] => Ok(()),
            [first, rest @ ..] => {
                lists.push(rest)?;
                let parts = parts_of(first);
                self.note(s, constructor, &parts)?;
                enter(&parts, lists)
            }
        }
    }

    // What a statement moves by itself.
    fn note(&mut self, s: &Site, constructor: bool, parts: &Parts) -> Result<(), NoMemory>
        ensures { OnOk result (Adds self.old self.new (own_moved (plain_of s.now.plain.now) (function_of s.now.function.now) constructor parts.now [])) }
    {
        self.left_side(s, constructor, parts)?;
        self.target_side(s, parts)?;
        self.all_args(s, parts)
    }

    fn left_side(&mut self, s: &Site, constructor: bool, parts: &Parts) -> Result<(), NoMemory>
        ensures { OnOk result (Adds self.old self.new (left_moved (plain_of s.now.plain.now) (function_of s.now.function.now) constructor parts.now.left)) }
    {
        match parts.left {
            Some(left) => {
                if constructor {
                    Ok(())
                } else {
                    self.location(s, left)
                }
            }
            None => Ok(()),
        }
    }

    fn target_side(&mut self, s: &Site, parts: &Parts) -> Result<(), NoMemory>
        ensures { OnOk result (Adds self.old self.new (target_moved (plain_of s.now.plain.now) (function_of s.now.function.now) parts.now.target)) }
    {
        match parts.target {
            Some(target) => self.target(s, target),
            None => Ok(()),
        }
    }

    fn all_args(&mut self, s: &Site, parts: &Parts) -> Result<(), NoMemory>
        ensures { OnOk result (Adds self.old self.new (args_moved (plain_of s.now.plain.now) (function_of s.now.function.now) parts.now.args)) }
    {
        match parts.args {
            Some(args) => self.args(s, args),
            None => Ok(()),
        }
    }

    fn args(&mut self, s: &Site, args: &[PlainArg]) -> Result<(), NoMemory>
        ensures { OnOk result (Adds self.old self.new (arguments (plain_of s.now.plain.now) (function_of s.now.function.now) (map argument_of args.now))) }
    {
        for arg in args {
            self.arg(s, arg)?;
        }
        Ok(())
    }

    fn arg(&mut self, s: &Site, arg: &PlainArg) -> Result<(), NoMemory>
        ensures { OnOk result (Adds self.old self.new (argument_moved (plain_of s.now.plain.now) (function_of s.now.function.now) (argument_of arg.now))) }
    {
        match arg {
            PlainArg::Target(target) => self.target(s, target),
            PlainArg::Value(_) => Ok(()),
            PlainArg::ModuleName => Ok(()),
        }
    }

    fn target(&mut self, s: &Site, target: &PlainTarget) -> Result<(), NoMemory>
        ensures { OnOk result (Adds self.old self.new (addressed (plain_of s.now.plain.now) (function_of s.now.function.now) (target_in target.now))) }
    {
        match target {
            PlainTarget::Address(left) => self.location(s, left),
            PlainTarget::Copy(_) => Ok(()),
            PlainTarget::Null => Ok(()),
        }
    }

    // The last member that a location names.
    fn location(&mut self, s: &Site, left: &PlainLeft) -> Result<(), NoMemory>
        ensures { OnOk result (Adds self.old self.new (last_member_of (plain_of s.now.plain.now) (function_of s.now.function.now) (left_of left.now))) }
    {
        match last_member(s, left)? {
            Some(m) => self.add(m),
            None => Ok(()),
        }
    }

    fn add(&mut self, m: MemberOf) -> Result<(), NoMemory>
        ensures { OnOk result (Adds self.old self.new (place_of m ∷ [])) }
    {
        self.members.insert(m, true)?;
        Ok(())
    }
}

// The lists that a statement holds are to be looked at.
fn enter<'t>(parts: &Parts<'t>, lists: &mut List<&'t [PlainStmt]>) -> Result<(), NoMemory>
    ensures { OnOk result ((p : ProgramOf) (f : FunctionOf) (c : Bool) (m : MemberOf) → among m (pending p f c lists.new) ≡ (among m (list_moved p f c parts.now.first ++ (list_moved p f c parts.now.second ++ [])) || among m (pending p f c lists.old))) }
{
    put(parts.second, lists)?;
    put(parts.first, lists)
}

fn put<'t>(list: Option<&'t [PlainStmt]>, lists: &mut List<&'t [PlainStmt]>) -> Result<(), NoMemory>
    ensures { OnOk result ((p : ProgramOf) (f : FunctionOf) (c : Bool) (m : MemberOf) → among m (pending p f c lists.new) ≡ (among m (list_moved p f c list.entry) || among m (pending p f c lists.old))) }
{
    match list {
        Some(list) => lists.push(list),
        None => Ok(()),
    }
}

// Whether the function of that number is its class's constructor, which may set members before any process runs.
fn is_constructor(s: &Site, number: usize) -> bool
    ensures { result ≡ is_constructor_in (plain_of s.now.plain.now) (function_of s.now.function.now) number }
{
    let Some(class) = s.function.class else {
        return false;
    };
    match s.plain.classes.get(class as usize) {
        Some(of) => match of.constructor {
            Some(own) => own as usize == number,
            None => false,
        },
        None => false,
    }
}
