//! The declarations of a file by name, worked out once.
ghost use Rattle.std.specs.Prelude.{◌≡◌, ◌+◌, IfOk, OnOk, Option, Some, None, ℕ, length, map, option_map, option_and_then, suc, take_while, if◌then◌else◌};
ghost use Rattle.scc_templates_spec.specs.SourceView.{source_of, top_of, param_of, enumerator_of, function_of, inner_of, merged, stands_before, variables};
ghost use Rattle.scc_plain_spec.specs.Functions.{has_body};
ghost use Rattle.scc_templates_scopes.specs.Indexed.{Adds, body_says, class_named, entry_of, enumerators, first_says, function, function_name, held, IsIndex, meaning, members, named, no_more, or_first, param_says, parameter, parameters, routine, said, says, top, tops};

use crate::entry::Entry;
use crate::refuse::number;
use indexmap::IndexMap;
use scc_base::{List, Name, NoMemory, lost};
use scc_tree::{Enumerator, Field, FileTree, FunctionTree, Item, ItemNode, Param};
use std::alloc::Global;

// A name of a class, which is the number of its item.
#[derive(Clone, Copy, PartialEq, Eq, Hash)]
struct Member {
    class: u32,
    name: Name,
}

/// A function of a class body, or of the file.
#[derive(Clone, Copy, PartialEq, Eq, Hash)]
pub struct Routine {
    pub class: Option<u32>,
    pub name: Name,
    pub constructor: bool,
}

/// Where a function is declared first, and where its first body stands: numbers of items of its scope.
#[derive(Clone, Copy)]
pub struct Declared {
    pub first: u32,
    pub body: Option<u32>,
}

/// Items of the file that are looked for together.
#[derive(Clone, Copy, PartialEq, Eq, Hash)]
pub enum Group {
    /// The specialisations of a class.
    Special(Name),
    /// The bodies outside a class.
    Outside(Name),
    /// Those of one function.
    Bodies {
        class: Name,
        name: Name,
        constructor: bool,
    },
}

// What a declaration says of a name: an entry without arguments.
#[derive(Clone, Copy)]
enum Said {
    Class(usize),
    Alias(usize),
    Numbers,
    Enumerator { item: usize, at: usize },
    Constant(usize),
    Function,
    Field(usize),
}

impl Said {
    fn entry(self) -> Entry
        ensures { result ≡ held (entry_of self) }
    {
        match self {
            Said::Class(item) => Entry::Class { item },
            Said::Alias(item) => Entry::Alias { item },
            Said::Numbers => Entry::Numbers,
            Said::Enumerator { item, at } => Entry::Enumerator { item, at },
            Said::Constant(item) => Entry::Constant { item },
            Said::Function => Entry::Function,
            Said::Field(k) => Entry::Field(k),
        }
    }
}

/// The declarations by name. Of several of one name in one scope the first in the text counts.
pub struct Index {
    alloc: Global,
    file: IndexMap<Name, Said>,
    members: IndexMap<Member, Said>,
    params: IndexMap<Member, u32>,
    routines: IndexMap<Routine, Declared>,
    groups: IndexMap<Group, List<u32>>,
}

impl Drop for Index {
    fn drop(self) {
        let Index {
            alloc: _,
            file: _file,
            members: _members,
            params: _params,
            routines: _routines,
            groups: _groups,
        } = self;
    }
}

impl Index {
    pub fn new(alloc: Global, tree: &FileTree) -> Result<Index, NoMemory>
        ensures { IfOk result (λ x. IsIndex x (source_of tree.now)) }
    {
        let mut index = Index::empty(alloc);
        index.take_file(tree.items.as_slice())?;
        Ok(index)
    }

    fn empty(alloc: Global) -> Index
        ensures names { (c : Option ℕ) (n : ℕ) → says result c n ≡ None }
        ensures params { (c n : ℕ) → param_says result c n ≡ None }
        ensures firsts { (r : Routine) → first_says result r ≡ None }
        ensures bodies { (r : Routine) → body_says result r ≡ None }
    {
        Index {
            alloc,
            file: IndexMap::new(alloc),
            members: IndexMap::new(alloc),
            params: IndexMap::new(alloc),
            routines: IndexMap::new(alloc),
            groups: IndexMap::new(alloc),
        }
    }

    /// What the file declares by a name.
    pub fn in_file(&self, name: Name) -> Option<Entry>
        ensures { result ≡ option_map held (says self.now None name.0) }
    {
        let said = self.file.get(&name)?;
        Some(said.entry())
    }

    /// What a class body declares by a name.
    pub fn in_class(&self, class: u32, name: Name) -> Option<Entry>
        ensures { result ≡ option_map held (says self.now (Some class) name.0) }
    {
        let said = self.members.get(&Member { class, name })?;
        Some(said.entry())
    }

    /// The number of the parameter of that name, of a class or of a body outside its class.
    pub fn param(&self, class: u32, name: Name) -> Option<usize>
        ensures { result ≡ param_says self.now class name.0 }
    {
        let at = self.params.get(&Member { class, name })?;
        Some(*at as usize)
    }

    pub fn routine(&self, routine: Routine) -> Option<Declared>
        ensures first { option_map (λ d. d.first) result ≡ first_says self.now routine }
        ensures body { option_and_then (λ d. d.body) result ≡ body_says self.now routine }
    {
        self.routines.get(&routine).copied()
    }

    pub fn group(&self, group: Group) -> &[u32] {
        match self.groups.get(&group) {
            Some(list) => list.as_slice(),
            None => &[],
        }
    }

    /// The item at that place of a group.
    pub fn of_group(&self, group: Group, at: usize) -> Option<u32> {
        self.group(group).get(at).copied()
    }

    #[tactic(auto, using(crate::proofs::Indexing::leads_on, crate::proofs::Indexing::leads_here, crate::proofs::Indexing::leads_out))]
    fn take_file(&mut self, items: &[Item]) -> Result<(), NoMemory>
        ensures { OnOk result (Adds self.old self.new (tops 0 (map top_of items.now))) }
    {
        let mut k = 0;
        let mut rest = items;
        while let Some((item, behind)) = rest.split_first() {
            self.take(number(k)?, item)?;
            k = next(k)?;
            rest = behind;
        }
        Ok(())
    }

    // Takes in a declaration of the file.
    #[tactic(auto, using(crate::proofs::Indexing::adds_then, crate::proofs::Indexing::adds_nothing))]
    fn take(&mut self, k: u32, item: &Item) -> Result<(), NoMemory>
        ensures { OnOk result (Adds self.old self.new (top k (top_of item.now))) }
    {
        match &item.node {
            ItemNode::Class(class) => {
                let params = class.params.as_slice();
                self.take_name(k, item.name, class.special.is_some(), params)?;
                self.take_class(k, class.fields.as_slice(), class.items.as_slice())
            }
            ItemNode::Outside {
                params,
                class,
                function,
                ..
            } => {
                self.take_groups(k, *class, function)?;
                self.take_params(k, params.as_slice())
            }
            _ => self.declare(None, k, item),
        }
    }

    #[tactic(auto, using(crate::proofs::Indexing::adds_then, crate::proofs::Indexing::adds_nothing))]
    fn take_name(
        &mut self,
        k: u32,
        name: Option<Name>,
        special: bool,
        params: &[Param],
    ) -> Result<(), NoMemory>
        ensures { OnOk result (Adds self.old self.new (class_named k (option_map (λ n. n.0) name) special (map param_of params.now))) }
    {
        let Some(name) = name else {
            return Ok(());
        };
        if special {
            return self.join(Group::Special(name), k);
        }
        self.take_params(k, params)?;
        self.mean(None, name, Said::Class(k as usize))
    }

    // The first of several of one name counts.
    #[tactic(auto, using(crate::proofs::Indexing::leads_on, crate::proofs::Indexing::leads_here, crate::proofs::Indexing::leads_out))]
    fn take_params(&mut self, class: u32, params: &[Param]) -> Result<(), NoMemory>
        ensures { OnOk result (Adds self.old self.new (parameters class 0 (map param_of params.now))) }
    {
        let mut at = 0;
        let mut rest = params;
        while let Some((p, behind)) = rest.split_first() {
            self.take_param(class, p.name, number(at)?)?;
            at = next(at)?;
            rest = behind;
        }
        Ok(())
    }

    fn take_param(&mut self, class: u32, name: Name, at: u32) -> Result<(), NoMemory>
        ensures { OnOk result (Adds self.old self.new (parameter class name.0 at)) }
    {
        let key = Member { class, name };
        if self.params.get(&key).is_some() {
            return Ok(());
        }
        self.params.insert(key, at)?;
        Ok(())
    }

    fn take_class(&mut self, class: u32, fields: &[Field], items: &[Item]) -> Result<(), NoMemory>
        ensures { OnOk result (Adds self.old self.new (members class (merged 0 0 fields.now (map top_of items.now)))) }
    {
        let mut fields = fields;
        let mut taken = 0;
        let mut n = 0;
        let mut rest = items;
        while let Some((item, behind)) = rest.split_first() {
            let count = standing_before(fields, n);
            let (before, after) = fields.split_at(count);
            self.take_fields(class, taken, before)?;
            self.declare(Some(class), number(n)?, item)?;
            taken = taken.checked_add(count).ok_or(lost())?;
            n = next(n)?;
            fields = after;
            rest = behind;
        }
        self.take_fields(class, taken, fields)
    }

    // Takes in member variables, the first of them by its number.
    #[tactic(auto, using(crate::proofs::Indexing::leads_on, crate::proofs::Indexing::leads_here, crate::proofs::Indexing::leads_out))]
    fn take_fields(&mut self, class: u32, from: usize, fields: &[Field]) -> Result<(), NoMemory>
        ensures { OnOk result (Adds self.old self.new (members class (variables from fields.now))) }
    {
        let mut at = from;
        let mut rest = fields;
        while let Some((field, behind)) = rest.split_first() {
            self.mean(Some(class), field.decl.name, Said::Field(at))?;
            at = next(at)?;
            rest = behind;
        }
        Ok(())
    }

    // Takes in a declaration that is no class and no body outside one.
    fn declare(&mut self, class: Option<u32>, k: u32, item: &Item) -> Result<(), NoMemory>
        ensures { OnOk result (Adds self.old self.new (said class k (inner_of (top_of item.now)).name (inner_of (top_of item.now)).said)) }
    {
        let at = k as usize;
        match &item.node {
            ItemNode::Class(_) | ItemNode::Outside { .. } => Ok(()),
            ItemNode::Alias(_) => self.named(class, item.name, Said::Alias(at)),
            ItemNode::Constant { .. } => self.named(class, item.name, Said::Constant(at)),
            ItemNode::Numbers(all) => {
                self.named(class, item.name, Said::Numbers)?;
                self.take_numbers(class, at, all.as_slice())
            }
            ItemNode::Function(f) => self.declare_function(class, k, f),
        }
    }

    #[tactic(auto, using(crate::proofs::Indexing::leads_on, crate::proofs::Indexing::leads_here, crate::proofs::Indexing::leads_out))]
    fn take_numbers(
        &mut self,
        class: Option<u32>,
        item: usize,
        all: &[Enumerator],
    ) -> Result<(), NoMemory>
        ensures { OnOk result (Adds self.old self.new (enumerators class item 0 (map enumerator_of all.now))) }
    {
        let mut at = 0;
        let mut rest = all;
        while let Some((e, behind)) = rest.split_first() {
            self.mean(class, e.name, Said::Enumerator { item, at })?;
            at = next(at)?;
            rest = behind;
        }
        Ok(())
    }

    #[tactic(auto, using(crate::proofs::Indexing::adds_then, crate::proofs::Indexing::adds_nothing))]
    fn declare_function(
        &mut self,
        class: Option<u32>,
        k: u32,
        f: &FunctionTree,
    ) -> Result<(), NoMemory>
        ensures { OnOk result (Adds self.old self.new (function class k (function_of f.now))) }
    {
        self.function_name(class, f)?;
        let key = Routine {
            class,
            name: f.name,
            constructor: f.constructor,
        };
        self.take_routine(key, k, body_at(f, k))
    }

    // A constructor has no name by which it could be meant.
    fn function_name(&mut self, class: Option<u32>, f: &FunctionTree) -> Result<(), NoMemory>
        ensures { OnOk result (Adds self.old self.new (function_name class (function_of f.now))) }
    {
        if f.constructor {
            return Ok(());
        }
        self.mean(class, f.name, Said::Function)
    }

    fn take_routine(&mut self, key: Routine, k: u32, body: Option<u32>) -> Result<(), NoMemory>
        ensures { OnOk result (Adds self.old self.new (routine key k body)) }
    {
        let declared = declared_again(self.routine(key), k, body);
        self.routines.insert(key, declared)?;
        Ok(())
    }

    fn named(&mut self, class: Option<u32>, name: Option<Name>, said: Said) -> Result<(), NoMemory>
        ensures { OnOk result (Adds self.old self.new (named class (option_map (λ n. n.0) name) (entry_of said))) }
    {
        match name {
            Some(name) => self.mean(class, name, said),
            None => Ok(()),
        }
    }

    // Gives a name its meaning, unless it has one in its scope.
    fn mean(&mut self, class: Option<u32>, name: Name, said: Said) -> Result<(), NoMemory>
        ensures { OnOk result (Adds self.old self.new (meaning class name.0 (entry_of said))) }
    {
        match class {
            None => self.mean_in_file(name, said),
            Some(class) => self.mean_in_class(class, name, said),
        }
    }

    fn mean_in_file(&mut self, name: Name, said: Said) -> Result<(), NoMemory>
        ensures { OnOk result (Adds self.old self.new (meaning None name.0 (entry_of said))) }
    {
        if self.file.get(&name).is_some() {
            return Ok(());
        }
        self.file.insert(name, said)?;
        Ok(())
    }

    fn mean_in_class(&mut self, class: u32, name: Name, said: Said) -> Result<(), NoMemory>
        ensures { OnOk result (Adds self.old self.new (meaning (Some class) name.0 (entry_of said))) }
    {
        let key = Member { class, name };
        if self.members.get(&key).is_some() {
            return Ok(());
        }
        self.members.insert(key, said)?;
        Ok(())
    }

    fn take_groups(&mut self, k: u32, class: Name, function: &FunctionTree) -> Result<(), NoMemory>
        ensures { OnOk result (Adds self.old self.new no_more) }
    {
        self.join(Group::Outside(class), k)?;
        let group = Group::Bodies {
            class,
            name: function.name,
            constructor: function.constructor,
        };
        self.join(group, k)
    }

    // Puts an item into a group.
    fn join(&mut self, group: Group, item: u32) -> Result<(), NoMemory>
        ensures { OnOk result (Adds self.old self.new no_more) }
    {
        if let Some(list) = self.groups.get_mut(&group) {
            return list.push(item);
        }
        let mut list = List::new(self.alloc);
        list.push(item)?;
        self.groups.insert(group, list)?;
        Ok(())
    }
}

// The number behind one. No source has so many of anything that there is none.
fn next(n: usize) -> Result<usize, NoMemory>
    ensures { IfOk result (λ m. m ≡ suc n) }
{
    n.checked_add(1).ok_or(lost())
}

// How many member variables stand before the item of that number.
fn standing_before(fields: &[Field], item: usize) -> usize
    ensures { result ≡ length (take_while (stands_before item) fields.now) }
{
    fields
        .iter()
        .take_while(|f| f.after as usize <= item)
        .count()
}

// The item of a function's body, if it has one.
fn body_at(f: &FunctionTree, k: u32) -> Option<u32>
    ensures { result ≡ (if has_body (function_of f.now) then Some k else None) }
{
    if f.body.is_some() { Some(k) } else { None }
}

// A function that is declared again.
fn declared_again(known: Option<Declared>, k: u32, body: Option<u32>) -> Declared
    ensures first { Some result.first ≡ or_first (option_map (λ d. d.first) known) (Some k) }
    ensures body { result.body ≡ or_first (option_and_then (λ d. d.body) known) body }
{
    match known {
        None => Declared { first: k, body },
        Some(known) => Declared {
            first: known.first,
            body: known.body.or(body),
        },
    }
}
