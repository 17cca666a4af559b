//! What is known of a file's templates.
ghost use Rattle.std.specs.Prelude.{◌≡◌};
ghost use Rattle.scc_templates.specs.Sessions.{item_of};

use crate::ask::{Key, Known, Level};
use crate::bodies::{BodyAt, BodyKey};
use crate::part::Thing;
use crate::table::{Instances, Made};
use indexmap::{IndexMap, IndexSet};
use scc_base::{List, Name, NoMemory};
use scc_bits::Value;
use scc_templates_scopes::entry::class_at;
use scc_templates_scopes::index::{Declared, Group, Index, Routine};
use scc_templates_scopes::join::Joined;
use scc_templates_scopes::ty::{Arg, Args, ClassId, InstanceId, TypeOf};
use scc_tree::{ClassTree, FileTree};
use std::alloc::Global;

/// What the walk over a program takes.
#[derive(Clone, Copy, PartialEq, Eq)]
pub enum Needed {
    Instance(InstanceId),
    /// The function of the file whose body is the item of that number.
    Function(u32),
}

/// Instances, types and constants of one file, each worked out once. After a refusal it is to be asked no more.
#[derive(Drop)]
pub struct Templates {
    pub(crate) alloc: Global,
    pub(crate) table: Instances,
    pub(crate) index: Index,
    /// Instances and functions of the file, in the order in which they were first needed.
    pub(crate) queue: List<Needed>,
    pub(crate) free: IndexSet<Name>,
    pub(crate) known: IndexMap<Key, Known>,
    pub(crate) busy: IndexSet<Key>,
    /// The specialisation for a class and arguments.
    pub(crate) special: IndexMap<Made, u32>,
    /// The body outside a class for a function and arguments, and that for all arguments.
    pub(crate) exact: IndexMap<BodyKey, u32>,
    pub(crate) general: IndexMap<Routine, u32>,
    /// The number of the list of arguments that a body outside its class is for, by its item.
    pub(crate) outside: IndexMap<u32, u32>,
    pub(crate) level: Level,
    /// What the last task gave.
    pub(crate) thing: Option<Thing>,
    pub(crate) ty: Option<TypeOf>,
    pub(crate) body: Option<BodyAt>,
    /// Values that are put by while others are worked out: left operands, and first parts of concatenations.
    pub(crate) values: List<Value>,
    pub(crate) joins: List<Joined>,
    /// The arguments of the class uses that are being worked out, the innermost ones last.
    pub(crate) args: List<Arg>,
}

impl Templates {
    /// Nothing is known but the declarations. Each later call wants the same tree.
    pub fn new(alloc: Global, tree: &FileTree) -> Result<Templates, NoMemory> {
        let index = Index::new(alloc, tree)?;
        Ok(Templates::over(alloc, index, Instances::new(alloc)))
    }

    /// Nothing is known but the declarations and a table.
    pub(crate) fn over(alloc: Global, index: Index, table: Instances) -> Templates {
        Templates {
            alloc,
            table,
            index,
            queue: List::new(alloc),
            free: IndexSet::new(alloc),
            known: IndexMap::new(alloc),
            busy: IndexSet::new(alloc),
            special: IndexMap::new(alloc),
            exact: IndexMap::new(alloc),
            general: IndexMap::new(alloc),
            outside: IndexMap::new(alloc),
            level: Level::new(),
            thing: None,
            ty: None,
            body: None,
            values: List::new(alloc),
            joins: List::new(alloc),
            args: List::new(alloc),
        }
    }

    /// How many instances there are.
    pub fn len(&self) -> usize {
        self.table.len()
    }

    /// The class and the arguments of an instance, None exactly where no instance has that number.
    pub fn args_of(&self, i: InstanceId) -> Option<(ClassId, &Args)> {
        self.table.args_of(i)
    }

    /// What the walk takes at that place, in the order in which it was first needed.
    pub fn needed(&self, at: usize) -> Option<Needed> {
        self.queue.get(at).copied()
    }

    /// The item of the class or specialisation that counts for an instance.
    pub fn body_item(&self, i: InstanceId) -> Option<usize>
        ensures { result ≡ item_of self.now i.0 }
    {
        Some(self.body_class(i)? as usize)
    }

    /// The same by its number in look-ups.
    pub(crate) fn body_class(&self, i: InstanceId) -> Option<u32>
        ensures { result ≡ item_of self.now i.0 }
    {
        let made = self.table.made(i)?;
        match self.special.get(&made) {
            Some(item) => Some(*item),
            None => Some(made.item),
        }
    }

    /// The class tree that counts for an instance.
    pub fn body<'a>(&self, tree: &'a FileTree, i: InstanceId) -> Option<&'a ClassTree> {
        class_at(tree, self.body_item(i)?)
    }

    /// Where an instance's class body first declares a function: the number of its item.
    pub fn first_declared(&self, i: InstanceId, name: Name, constructor: bool) -> Option<usize> {
        let declared = self.declared(i, name, constructor)?;
        Some(declared.first as usize)
    }

    pub(crate) fn declared(
        &self,
        i: InstanceId,
        name: Name,
        constructor: bool,
    ) -> Option<Declared> {
        let class = Some(self.body_class(i)?);
        self.index.routine(Routine {
            class,
            name,
            constructor,
        })
    }

    /// The items of the bodies outside a class, in the order of the text.
    pub fn outside_of(&self, class: Name) -> &[u32] {
        self.index.group(Group::Outside(class))
    }

    pub(crate) fn into_table(self) -> Instances {
        let Templates { table, .. } = self;
        table
    }
}
