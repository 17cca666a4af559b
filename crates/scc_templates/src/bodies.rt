//! The bodies of functions that count (C++, [class.mfct], [temp.mem.func], [temp.expl.spec]).
ghost use Rattle.std.specs.Prelude.{IfErr};
ghost use Rattle.scc_templates_scopes.specs.Refusals.{MayStop};

use crate::ask::Key;
use crate::class_use::{ClassUse, Purpose, begin_use};
use crate::session::{Needed, Templates};
use crate::table::Made;
use crate::task::{BodyTask, Scope, Tasks};
use scc_base::{Code, List, Name, NoMemory, Place, Stop, lost};
use scc_templates_scopes::entry::{Context, Given, class_at};
use scc_templates_scopes::index::{Group, Routine};
use scc_templates_scopes::refuse::{gone, number, refuse};
use scc_templates_scopes::ty::InstanceId;
use scc_tree::{ClassTree, ExprNode, FileTree, FunctionTree, Item, ItemNode, Param, TyArg, TyNode};

/// A function of an instance, or of the file. The name of a constructor is that of its class.
#[derive(Clone, Copy, PartialEq, Eq, Hash)]
pub struct FunctionKey {
    pub scope: Option<InstanceId>,
    pub name: Name,
    pub constructor: bool,
}

/// Where a body stands: in an item of the file, or among those of its class body; and which parameters of templates are known
/// there.
#[derive(Clone, Copy, PartialEq, Eq)]
pub struct BodyAt {
    pub item: usize,
    pub inner: Option<usize>,
    pub given: Given,
}

/// A body outside its class for given arguments.
#[derive(Clone, Copy, PartialEq, Eq, Hash)]
pub(crate) struct BodyKey {
    made: Made,
    name: Name,
    constructor: bool,
}

/// Bodies of a function outside its class that are worked out: those for given arguments alone, or all.
#[derive(Clone, Copy)]
pub(crate) struct BodyWork {
    pub class: usize,
    pub of: Name,
    pub name: Name,
    pub constructor: bool,
    pub all: bool,
}

/// The function whose body stands there, None where the tree has none there.
pub fn function_at<'a>(tree: &'a FileTree, at: &BodyAt) -> Option<&'a FunctionTree> {
    let item = tree.items.get(at.item)?;
    match (&item.node, at.inner) {
        (ItemNode::Function(f), None) => Some(f),
        (ItemNode::Outside { function, .. }, None) => Some(function),
        (ItemNode::Class(class), Some(k)) => match &class.items.get(k)?.node {
            ItemNode::Function(f) => Some(f),
            _ => None,
        },
        _ => None,
    }
}

// The name that an argument is, as an expression or a type.
fn bare_name(a: &TyArg) -> Option<Name> {
    match a {
        TyArg::Value(e) => match e.node.get() {
            ExprNode::Ident(name) => Some(*name),
            _ => None,
        },
        TyArg::Named(t) => match t.node.get() {
            TyNode::Named { name, args } if args.is_none() => Some(*name),
            _ => None,
        },
    }
}

fn is_named(a: &TyArg, name: Name) -> bool {
    bare_name(a) == Some(name)
}

// Whether a body outside its class speaks of the class's own parameters, in their order.
fn is_general(params: &[Param], args: &[TyArg], own: &[Param]) -> bool {
    if params.len() != own.len() || args.len() != own.len() {
        return false;
    }
    for (k, p) in params.iter().enumerate() {
        let is_own = match (args.get(k), own.get(k)) {
            (Some(a), Some(q)) => is_named(a, p.name) && p.sort == q.sort,
            _ => false,
        };
        if !is_own {
            return false;
        }
    }
    true
}

impl Templates {
    fn need_free(&mut self, name: Name, item: u32) -> Result<(), NoMemory> {
        if self.free.insert(name)? {
            self.queue.push(Needed::Function(item))?;
        }
        Ok(())
    }

    // The first in the text counts.
    fn add_general(&mut self, routine: Routine, outside: u32) -> Result<(), NoMemory> {
        if self.general.get(&routine).is_none() {
            self.general.insert(routine, outside)?;
        }
        Ok(())
    }

    // The first in the text counts.
    fn add_exact(&mut self, key: BodyKey, outside: u32) -> Result<(), NoMemory> {
        self.outside.insert(outside, key.made.list)?;
        let is_first = match self.exact.get(&key) {
            Some(item) => outside < *item,
            None => true,
        };
        if is_first {
            self.exact.insert(key, outside)?;
        }
        Ok(())
    }

    /// Looks for the body of a function that counts, and works out what has to be known for it.
    pub(crate) fn find_body<'t>(
        &mut self,
        f: FunctionKey,
        place: Place,
        cx: &Context<'t, '_>,
        tasks: &mut Tasks<'t>,
    ) -> Result<(), Stop>
        ensures stop { IfErr result MayStop }
    {
        let Some(i) = f.scope else {
            return self.find_free(f.name);
        };
        self.body = None;
        if f.constructor && self.declared(i, f.name, true).is_none() {
            return Ok(());
        }
        tasks.body(BodyTask::Choose(f))?;
        let class = self.table.made(i).ok_or(lost())?.item as usize;
        let of = cx.tree.items.get(class).ok_or(lost())?.name.ok_or(lost())?;
        let body = self.body(cx.tree, i).ok_or(lost())?;
        let work = BodyWork {
            class,
            of,
            name: f.name,
            constructor: f.constructor,
            all: body.special.is_none(),
        };
        self.begin_bodies(work, place, tasks)
    }

    fn begin_bodies<'t>(
        &mut self,
        work: BodyWork,
        place: Place,
        tasks: &mut Tasks<'t>,
    ) -> Result<(), Stop>
        ensures stop { IfErr result MayStop }
    {
        let key = Key::Bodies {
            class: work.class,
            name: work.name,
            constructor: work.constructor,
            all: work.all,
        };
        if let Some(mark) = self.begin(key, None, place)? {
            tasks.body(BodyTask::Done(mark))?;
            tasks.body(BodyTask::Each { work, at: 0 })?;
        }
        Ok(())
    }

    // A function of the file joins the queue when it is first looked for.
    fn find_free(&mut self, name: Name) -> Result<(), Stop>
        ensures stop { IfErr result MayStop }
    {
        let class = None;
        let constructor = false;
        let declared = self.index.routine(Routine {
            class,
            name,
            constructor,
        });
        self.body = None;
        if let Some(declared) = declared
            && let Some(item) = declared.body
        {
            self.need_free(name, item)?;
            self.body = Some(BodyAt {
                item: item as usize,
                inner: None,
                given: Given::Nothing,
            });
        }
        Ok(())
    }

    /// The bodies of a function outside its class from one on.
    pub(crate) fn each_body<'t>(
        &mut self,
        work: BodyWork,
        at: usize,
        cx: &Context<'t, '_>,
        tasks: &mut Tasks<'t>,
    ) -> Result<(), Stop>
        ensures stop { IfErr result MayStop }
    {
        let group = Group::Bodies {
            class: work.of,
            name: work.name,
            constructor: work.constructor,
        };
        let Some(outside) = self.index.of_group(group, at) else {
            return Ok(());
        };
        let next = at.checked_add(1).ok_or(lost())?;
        tasks.body(BodyTask::Each { work, at: next })?;
        let tree = cx.tree;
        let item = tree.items.get(outside as usize).ok_or(lost())?;
        let class = class_at(tree, work.class).ok_or(lost())?;
        self.take_body(work, outside, item, class, cx, tasks)
    }

    fn take_body<'t>(
        &mut self,
        work: BodyWork,
        outside: u32,
        item: &'t Item,
        class: &'t ClassTree,
        cx: &Context<'t, '_>,
        tasks: &mut Tasks<'t>,
    ) -> Result<(), Stop>
        ensures stop { IfErr result MayStop }
    {
        let ItemNode::Outside { params, args, .. } = &item.node else {
            return gone();
        };
        let is_template = class.params.len() != 0;
        if is_template && params.len() == 0 {
            return self.exact_body(work, outside, item.place, args, cx, tasks);
        }
        if is_template && !work.all {
            return Ok(());
        }
        let own = class.params.as_slice();
        if !is_general(params.as_slice(), args.as_slice(), own) {
            return refuse(Code::Arguments, item.place); // E307
        }
        let routine = Routine {
            class: Some(number(work.class)?),
            name: work.name,
            constructor: work.constructor,
        };
        self.add_general(routine, outside)?;
        Ok(())
    }

    // A body for given arguments, which are worked out.
    fn exact_body<'t>(
        &mut self,
        work: BodyWork,
        outside: u32,
        place: Place,
        args: &'t List<TyArg>,
        cx: &Context<'t, '_>,
        tasks: &mut Tasks<'t>,
    ) -> Result<(), Stop>
        ensures stop { IfErr result MayStop }
    {
        let call = ClassUse {
            item: number(work.class)?,
            base: self.args.len(),
            place,
            purpose: Purpose::Body(outside),
        };
        begin_use(call, Scope::of(None), args.as_slice(), cx, tasks)
    }

    /// Keeps a body for arguments.
    pub(crate) fn add_body(&mut self, made: Made, outside: u32, cx: &Context) -> Result<(), Stop>
        ensures stop { IfErr result MayStop }
    {
        let item = cx.tree.items.get(outside as usize).ok_or(lost())?;
        let ItemNode::Outside { function, .. } = &item.node else {
            return gone();
        };
        let key = BodyKey {
            made,
            name: function.name,
            constructor: function.constructor,
        };
        self.add_exact(key, outside)?;
        Ok(())
    }

    /// The body that counts, where all that stand outside are worked out: the first in the text of those for the instance's
    /// arguments, inside its specialisation or outside, else the first of the template's.
    pub(crate) fn choose_body(&mut self, f: FunctionKey, cx: &Context) -> Result<(), Stop>
        ensures stop { IfErr result MayStop }
    {
        let i = f.scope.ok_or(lost())?;
        let made = self.table.made(i).ok_or(lost())?;
        let name = f.name;
        let constructor = f.constructor;
        let key = BodyKey {
            made,
            name,
            constructor,
        };
        let exact = match self.exact.get(&key) {
            Some(item) => Some(BodyAt {
                item: *item as usize,
                inner: None,
                given: Given::Nothing,
            }),
            None => None,
        };
        self.body = if self.is_special(i, cx) {
            self.first_body(i, f, exact)
        } else {
            match exact {
                Some(at) => Some(at),
                None => self.first_body(i, f, self.general_body(i, f)),
            }
        };
        Ok(())
    }

    // Whether an instance has the body of a specialisation.
    fn is_special(&self, i: InstanceId, cx: &Context) -> bool {
        match self.body(cx.tree, i) {
            Some(body) => body.special.is_some(),
            None => false,
        }
    }

    // The first in the text of the body inside and one outside.
    fn first_body(&self, i: InstanceId, f: FunctionKey, outside: Option<BodyAt>) -> Option<BodyAt> {
        let Some(outside) = outside else {
            return self.inner_body(i, f);
        };
        match self.inner_body(i, f) {
            Some(inside) => Some(if inside.item < outside.item {
                inside
            } else {
                outside
            }),
            None => Some(outside),
        }
    }

    fn inner_body(&self, i: InstanceId, f: FunctionKey) -> Option<BodyAt> {
        let declared = self.declared(i, f.name, f.constructor)?;
        let inner = Some(declared.body? as usize);
        Some(BodyAt {
            item: self.body_item(i)?,
            inner,
            given: Given::Own,
        })
    }

    // The body outside a template for all arguments.
    fn general_body(&self, i: InstanceId, f: FunctionKey) -> Option<BodyAt> {
        let class = Some(self.table.made(i)?.item);
        let name = f.name;
        let constructor = f.constructor;
        let item = self.general.get(&Routine {
            class,
            name,
            constructor,
        })?;
        Some(BodyAt {
            item: *item as usize,
            inner: None,
            given: Given::Outside(*item),
        })
    }
}
