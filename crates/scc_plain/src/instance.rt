//! The walk over an instance: its members in the order of the text, then the bodies of its functions.
ghost use Rattle.std.specs.Prelude.{IfErr};
ghost use Rattle.scc_plain_drafts.specs.Refusals.{MayStop};

use crate::outside::{Outside, name_place};
use crate::stage::Order;
use indexmap::IndexSet;
use scc_base::{Code, List, Name, NoMemory, Stop, lost};
use scc_plain_bodies::{FunctionId, Walk, gone, refuse};
use scc_plain_statements::{MadeAt, class_name, constructor, made_bare};
use scc_plain_tree::{Base, Reach};
use scc_templates::{Context, Entry, Found, FunctionKey, InstanceId};
use scc_tree::{ClassTree, Enumerator, Field, FileTree, FunctionTree, Item, ItemNode};

// What the walk over one instance's members knows.
#[derive(Drop)]
struct Members {
    i: InstanceId,
    /// The class's name.
    name: Name,
    /// Its functions with bodies, in the order of their first declarations.
    bodies: List<FunctionId>,
    /// The names with initialisers, once they are asked for.
    initialised: Option<Initialised>,
}

// The names with initialisers of a constructor.
struct Initialised {
    names: IndexSet<Name>,
}

// One call at each exit of what owns them.
impl Drop for Initialised {
    fn drop(self) {
        let Initialised { names: _names } = self;
    }
}

impl Initialised {
    // The names of an instance's constructor, none where it has none.
    fn of(i: InstanceId, field: &Field, tree: &FileTree, w: &mut Walk) -> Result<Initialised, Stop>
        ensures stop { IfErr result MayStop }
    {
        let mut initialised = Initialised {
            names: IndexSet::new(w.alloc),
        };
        initialised.note_all(i, field, tree, w)?;
        Ok(initialised)
    }

    fn note_all(
        &mut self,
        i: InstanceId,
        field: &Field,
        tree: &FileTree,
        w: &mut Walk,
    ) -> Result<(), Stop>
        ensures stop { IfErr result MayStop }
    {
        if let Some(f) = constructor(i, field.place, tree, w)? {
            let function = w.tree_of(f, tree).ok_or(lost())?;
            for init in function.inits.as_slice() {
                if let Some(name) = init.name {
                    self.note(name)?;
                }
            }
        }
        Ok(())
    }

    fn note(&mut self, name: Name) -> Result<(), NoMemory> {
        self.names.insert(name)?;
        Ok(())
    }
}

/// Walks an instance.
pub fn walk_instance(
    i: InstanceId,
    tree: &FileTree,
    w: &mut Walk,
    order: &mut Order,
    outside: &mut Outside,
) -> Result<(), Stop>
    ensures stop { IfErr result MayStop }
{
    let class = w.templates.body(tree, i).ok_or(lost())?;
    let name = class_name(i, tree, w)?;
    let mut m = Members {
        i,
        name,
        bodies: List::new(w.alloc),
        initialised: None,
    };
    m.walk(class, tree, w)?;
    for f in m.bodies.as_slice() {
        order.walk(*f, tree, w)?;
    }
    m.outside(tree, w, outside)
}

impl Members {
    fn walk(&mut self, class: &ClassTree, tree: &FileTree, w: &mut Walk) -> Result<(), Stop>
        ensures stop { IfErr result MayStop }
    {
        let fields = class.fields.as_slice();
        let mut taken = 0;
        for (k, item) in class.items.as_slice().iter().enumerate() {
            taken = self.fields_before(fields, taken, k, tree, w)?;
            self.item(item, k, tree, w)?;
        }
        self.fields_before(fields, taken, class.items.len(), tree, w)?;
        Ok(())
    }

    // The member variables from one on that stand before an item: how many there are to there.
    fn fields_before(
        &mut self,
        fields: &[Field],
        from: usize,
        item: usize,
        tree: &FileTree,
        w: &mut Walk,
    ) -> Result<usize, Stop>
        ensures stop { IfErr result MayStop }
    {
        for k in from..fields.len() {
            let Some(field) = fields.get(k) else {
                return Ok(k);
            };
            if field.after as usize > item {
                return Ok(k);
            }
            self.field(field, k, tree, w)?;
        }
        Ok(fields.len())
    }

    fn field(&mut self, field: &Field, k: usize, tree: &FileTree, w: &mut Walk) -> Result<(), Stop>
        ensures stop { IfErr result MayStop }
    {
        let form = w.field_form(self.i, k, tree)?;
        let Base::Class(n) = form.base else {
            return Ok(());
        };
        if form.reach != Reach::Direct {
            return Ok(());
        }
        let is_initialised = self.is_initialised(field, tree, w)?;
        if form.vector || !is_initialised {
            let place = field.place;
            made_bare(InstanceId(n), MadeAt { place, name: place }, tree, w)?;
        }
        Ok(())
    }

    // Whether the constructor has an initialiser of a member.
    fn is_initialised(&mut self, field: &Field, tree: &FileTree, w: &mut Walk) -> Result<bool, Stop>
        ensures stop { IfErr result MayStop }
    {
        if self.initialised.is_none() {
            let initialised = Initialised::of(self.i, field, tree, w)?;
            self.initialised = Some(initialised);
        }
        match &self.initialised {
            Some(initialised) => Ok(initialised.names.contains(&field.decl.name)),
            None => Ok(false),
        }
    }

    fn item(&mut self, item: &Item, k: usize, tree: &FileTree, w: &mut Walk) -> Result<(), Stop>
        ensures stop { IfErr result MayStop }
    {
        let scope = Some(self.i);
        let cx = Context::outside(tree, scope);
        match &item.node {
            ItemNode::Alias(_) => {
                let entry = Entry::Alias { item: k };
                w.templates
                    .type_of(&cx, &Found { scope, entry }, item.place)?;
                Ok(())
            }
            ItemNode::Constant { .. } => {
                let entry = Entry::Constant { item: k };
                w.templates
                    .value_of(&cx, &Found { scope, entry }, item.place)?;
                Ok(())
            }
            ItemNode::Numbers(all) => self.enumerators(all.as_slice(), k, tree, w),
            ItemNode::Function(f) => self.function(f, k, tree, w),
            // No class stands in a class.
            _ => gone(),
        }
    }

    fn enumerators(
        &self,
        all: &[Enumerator],
        item: usize,
        tree: &FileTree,
        w: &mut Walk,
    ) -> Result<(), Stop>
        ensures stop { IfErr result MayStop }
    {
        let scope = Some(self.i);
        let cx = Context::outside(tree, scope);
        for (at, e) in all.iter().enumerate() {
            let entry = Entry::Enumerator { item, at };
            w.templates.value_of(&cx, &Found { scope, entry }, e.place)?;
        }
        Ok(())
    }

    // At the first declaration of a function its signature is worked out.
    fn function(
        &mut self,
        f: &FunctionTree,
        k: usize,
        tree: &FileTree,
        w: &mut Walk,
    ) -> Result<(), Stop>
        ensures stop { IfErr result MayStop }
    {
        if f.constructor && f.name != self.name {
            return refuse(Code::UnknownName, f.place); // E301
        }
        if w.templates.first_declared(self.i, f.name, f.constructor) != Some(k) {
            return Ok(());
        }
        let key = FunctionKey {
            scope: Some(self.i),
            name: f.name,
            constructor: f.constructor,
        };
        if let Some(f) = w.function(key, f.place, tree)? {
            w.sign(f, tree)?;
            self.bodies.push(f)?;
        }
        Ok(())
    }

    // E301 at a body outside the class that the class body doesn't declare.
    fn outside(&self, tree: &FileTree, w: &mut Walk, outside: &mut Outside) -> Result<(), Stop>
        ensures stop { IfErr result MayStop }
    {
        let body = w.templates.body_item(self.i).ok_or(lost())?;
        outside.note(body, self.i, self.name, tree, w)?;
        let cx = Context::outside(tree, Some(self.i));
        for item in outside.undeclared(body) {
            if w.templates.is_own_outside(&cx, self.i, *item)? {
                let at = tree.items.get(*item as usize).ok_or(lost())?;
                return refuse(Code::UnknownName, name_place(at));
            }
        }
        Ok(())
    }
}
