//! Uses of classes (C++, [temp.inst], [temp.expl.spec]).
ghost use Rattle.std.specs.Prelude.{IfErr};
ghost use Rattle.scc_templates_scopes.specs.Refusals.{MayStop};

use crate::ask::{Key, Mark};
use crate::session::{Needed, Templates};
use crate::table::Made;
use crate::task::{ClassTask, Scope, Tasks, TypeTask};
use scc_base::{List, NoMemory, Place, Stop, lost};
use scc_templates_scopes::entry::{Context, class_at};
use scc_templates_scopes::index::Group;
use scc_templates_scopes::refuse::{gone, number};
use scc_templates_scopes::ty::{Args, Base, InstanceId, TypeOf};
use scc_tree::{ItemNode, TyArg};

/// What a class's arguments are worked out for.
#[derive(Clone, Copy)]
pub(crate) enum Purpose {
    /// Its instance.
    Instance,
    /// The specialisation that is the item of that number.
    Special(u32),
    /// The body outside the class that is the item of that number.
    Body(u32),
}

/// Arguments that are being worked out, from number `base` on.
#[derive(Clone, Copy)]
pub(crate) struct ClassUse {
    pub item: u32,
    pub base: usize,
    pub place: Place,
    pub purpose: Purpose,
}

impl Templates {
    /// A class with arguments, as a type.
    pub(crate) fn use_class<'t>(
        &mut self,
        at: Scope,
        item: usize,
        given: &'t [TyArg],
        place: Place,
        cx: &Context<'t, '_>,
        tasks: &mut Tasks<'t>,
    ) -> Result<(), Stop>
        ensures stop { IfErr result MayStop }
    {
        let call = ClassUse {
            item: number(item)?,
            base: self.args.len(),
            place,
            purpose: Purpose::Instance,
        };
        begin_use(call, at, given, cx, tasks)
    }

    // The first in the text counts.
    fn add_special(&mut self, made: Made, special: u32) -> Result<(), NoMemory> {
        if self.special.get(&made).is_none() {
            self.special.insert(made, special)?;
        }
        Ok(())
    }

    // The number of the list of the arguments from one on.
    fn list_from(&mut self, base: usize) -> Result<u32, Stop>
        ensures stop { IfErr result MayStop }
    {
        let mut list = 0;
        for k in base..self.args.len() {
            let arg = self.args.get(k).copied().ok_or(lost())?;
            list = self.table.longer(list, arg)?;
        }
        Ok(list)
    }

    fn copied_from(&self, base: usize) -> Result<Args, NoMemory> {
        let mut args = List::new(self.alloc);
        for k in base..self.args.len() {
            args.push(self.args.get(k).copied().ok_or(lost())?)?;
        }
        Ok(args)
    }

    /// Takes arguments that are whole.
    pub(crate) fn enter_class<'t>(
        &mut self,
        call: ClassUse,
        cx: &Context<'t, '_>,
        tasks: &mut Tasks<'t>,
    ) -> Result<(), Stop>
        ensures stop { IfErr result MayStop }
    {
        let item = call.item;
        let list = self.list_from(call.base)?;
        let made = Made { item, list };
        match call.purpose {
            Purpose::Instance => {
                let i = self.instance(made, call)?;
                tasks.ty(TypeTask::Is(TypeOf::plain(Base::Class(i))))?;
                self.settle(i, call.place, cx, tasks)?;
            }
            Purpose::Special(special) => self.add_special(made, special)?,
            Purpose::Body(outside) => self.add_body(made, outside, cx)?,
        }
        self.args.truncate(call.base);
        Ok(())
    }

    // The instance of a class for arguments, which is new where none is there yet.
    fn instance(&mut self, made: Made, call: ClassUse) -> Result<InstanceId, Stop>
        ensures stop { IfErr result MayStop }
    {
        if let Some(i) = self.table.find(made) {
            return Ok(i);
        }
        let args = self.copied_from(call.base)?;
        let i = self.table.add(made, args, call.place)?;
        self.queue.push(Needed::Instance(i))?;
        Ok(i)
    }

    /// Sees that the specialisations of an instance's class are worked out: all of them, at its first use.
    pub(crate) fn settle<'t>(
        &mut self,
        i: InstanceId,
        place: Place,
        cx: &Context<'t, '_>,
        tasks: &mut Tasks<'t>,
    ) -> Result<(), Stop>
        ensures stop { IfErr result MayStop }
    {
        let class = self.table.made(i).ok_or(lost())?.item as usize;
        let tree = class_at(cx.tree, class).ok_or(lost())?;
        if tree.params.len() == 0 {
            return Ok(());
        }
        if let Some(mark) = self.begin_apart(Key::Special(class), place)? {
            let at = 0;
            tasks.class(ClassTask::Specials { class, at, mark })?;
        }
        Ok(())
    }

    /// The specialisations of a class from one on.
    pub(crate) fn specials<'t>(
        &mut self,
        class: usize,
        at: usize,
        mark: Mark,
        cx: &Context<'t, '_>,
        tasks: &mut Tasks<'t>,
    ) -> Result<(), Stop>
        ensures stop { IfErr result MayStop }
    {
        let tree = cx.tree;
        let declared = tree.items.get(class).ok_or(lost())?;
        let name = declared.name.ok_or(lost())?;
        let Some(special) = self.index.of_group(Group::Special(name), at) else {
            return self.end_apart(mark);
        };
        let next = at.checked_add(1).ok_or(lost())?;
        tasks.class(ClassTask::Specials {
            class,
            at: next,
            mark,
        })?;
        let item = tree.items.get(special as usize).ok_or(lost())?;
        let ItemNode::Class(body) = &item.node else {
            return gone();
        };
        let Some(given) = &body.special else {
            return gone();
        };
        let call = ClassUse {
            item: number(class)?,
            base: self.args.len(),
            place: item.place,
            purpose: Purpose::Special(special),
        };
        begin_use(call, Scope::of(None), given.as_slice(), cx, tasks)
    }
}

/// Begins with the arguments of a class that are written; defaults follow.
pub(crate) fn begin_use<'t>(
    call: ClassUse,
    at: Scope,
    given: &'t [TyArg],
    cx: &Context<'t, '_>,
    tasks: &mut Tasks<'t>,
) -> Result<(), Stop>
    ensures stop { IfErr result MayStop }
{
    let class = class_at(cx.tree, call.item as usize).ok_or(lost())?;
    let params = class.params.as_slice();
    let place = call.place;
    tasks.class(ClassTask::Defaults { call, params })?;
    tasks.class(ClassTask::Given {
        at,
        params,
        given,
        place,
    })?;
    Ok(())
}
