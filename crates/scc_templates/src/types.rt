//! Types (C++, [dcl.type]). Each function takes a task.
ghost use Rattle.std.specs.Prelude.{IfErr};
ghost use Rattle.scc_templates_scopes.specs.Refusals.{MayStop};

use crate::ask::Key;
use crate::session::Templates;
use crate::task::{Port, Scope, Tasks, TypeTask, ValueTask};
use scc_base::{Code, List, Name, Place, Stop, lost};
use scc_templates_scopes::entry::{Context, Entry, Found};
use scc_templates_scopes::kinds::{INT, family_kind};
use scc_templates_scopes::refuse::{gone, refuse};
use scc_templates_scopes::ty::{Arg, Base, InstanceId, TypeOf};
use scc_tree::{Family, ItemNode, Ty, TyArg, TyNode};

impl Templates {
    pub(crate) fn give_type(&mut self, t: TypeOf) -> Result<(), Stop>
        ensures stop { IfErr result MayStop }
    {
        self.ty = Some(t);
        Ok(())
    }

    fn give_base(&mut self, base: Base) -> Result<(), Stop>
        ensures stop { IfErr result MayStop }
    {
        self.give_type(TypeOf::plain(base))
    }

    /// The type that the last task gave.
    pub(crate) fn taken_type(&self) -> Result<TypeOf, Stop>
        ensures stop { IfErr result MayStop }
    {
        match self.ty {
            Some(t) => Ok(t),
            None => gone(),
        }
    }

    pub(crate) fn type_task<'t>(
        &mut self,
        at: Scope,
        ty: &'t Ty,
        cx: &Context<'t, '_>,
        tasks: &mut Tasks<'t>,
    ) -> Result<(), Stop>
        ensures stop { IfErr result MayStop }
    {
        match ty.node.get() {
            TyNode::Number(kind) => self.give_base(Base::Number(*kind)),
            TyNode::Sized { family, width } => {
                let family = *family;
                let place = width.place;
                tasks.ty(TypeTask::Sized { family, place })?;
                tasks.demand(at, width)?;
                Ok(())
            }
            TyNode::Input(of) => port(at, Port::Input, of, tasks),
            TyNode::Output(of) => port(at, Port::Output, of, tasks),
            TyNode::Signal(of) => port(at, Port::Signal, of, tasks),
            TyNode::Vector(of) => {
                tasks.ty(TypeTask::Vector(of.place))?;
                tasks.ty(TypeTask::Type { at, ty: of })?;
                Ok(())
            }
            TyNode::ModuleName => self.give_base(Base::ModuleName),
            TyNode::Named { name, args } => self.named(at, *name, args, ty.place, cx, tasks),
        }
    }

    pub(crate) fn sized(&mut self, family: Family, place: Place) -> Result<(), Stop>
        ensures stop { IfErr result MayStop }
    {
        let width = self.taken()?.small();
        let Some(bits) = width else {
            return refuse(Code::Width, place); // E303
        };
        match family_kind(family, bits) {
            Some(kind) => self.give_base(Base::Number(kind)),
            None => refuse(Code::Width, place),
        }
    }

    pub(crate) fn port(&mut self, port: Port, place: Place) -> Result<(), Stop>
        ensures stop { IfErr result MayStop }
    {
        let Some(kind) = self.taken_type()?.kind() else {
            return refuse(Code::Arguments, place); // E307
        };
        self.give_base(match port {
            Port::Input => Base::Input(kind),
            Port::Output => Base::Output(kind),
            Port::Signal => Base::Signal(kind),
        })
    }

    pub(crate) fn vector(&mut self, place: Place) -> Result<(), Stop>
        ensures stop { IfErr result MayStop }
    {
        let t = self.taken_type()?;
        if t.vector || t.base == Base::ModuleName {
            return refuse(Code::Arguments, place);
        }
        let base = t.base;
        let vector = true;
        self.give_type(TypeOf { base, vector })
    }

    fn named<'t>(
        &mut self,
        at: Scope,
        name: Name,
        args: &'t Option<List<TyArg>>,
        place: Place,
        cx: &Context<'t, '_>,
        tasks: &mut Tasks<'t>,
    ) -> Result<(), Stop>
        ensures stop { IfErr result MayStop }
    {
        let Some(found) = self.look(cx, at, name) else {
            return refuse(Code::UnknownName, place); // E301
        };
        match (found.entry, args) {
            (Entry::Class { item }, Some(given)) => {
                self.use_class(at, item, given.as_slice(), place, cx, tasks)
            }
            (Entry::Class { item }, None) => self.use_class(at, item, &[], place, cx, tasks),
            (_, Some(_)) => refuse(Code::Arguments, place),
            (_, None) => self.type_meant(found, place, cx, tasks),
        }
    }

    /// What a declaration means as a type, but a class.
    pub(crate) fn type_meant<'t>(
        &mut self,
        found: Found,
        place: Place,
        cx: &Context<'t, '_>,
        tasks: &mut Tasks<'t>,
    ) -> Result<(), Stop>
        ensures stop { IfErr result MayStop }
    {
        match found.entry {
            Entry::Alias { item } => self.alias(found.scope, item, place, cx, tasks),
            Entry::Numbers => self.give_base(Base::Number(INT)),
            Entry::Argument(Arg::Number(kind)) => self.give_base(Base::Number(kind)),
            Entry::Argument(Arg::Class(i)) => self.give_base(Base::Class(i)),
            _ => refuse(Code::Mismatch, place), // E304
        }
    }

    fn alias<'t>(
        &mut self,
        scope: Option<InstanceId>,
        item: usize,
        place: Place,
        cx: &Context<'t, '_>,
        tasks: &mut Tasks<'t>,
    ) -> Result<(), Stop>
        ensures stop { IfErr result MayStop }
    {
        let declared = self.item_at(scope, item, cx).ok_or(lost())?;
        let ItemNode::Alias(ty) = &declared.node else {
            return gone();
        };
        let key = Key::Declared { scope, item, at: 0 };
        if let Some(mark) = self.begin(key, None, place)? {
            let at = Scope::of(scope);
            tasks.ty(TypeTask::Known(mark))?;
            tasks.ty(TypeTask::Type { at, ty })?;
        }
        Ok(())
    }

    /// `X::name`, the type of X being given.
    pub(crate) fn scoped_name<'t>(
        &mut self,
        name: Name,
        place: Place,
        cx: &Context<'t, '_>,
        tasks: &mut Tasks<'t>,
    ) -> Result<(), Stop>
        ensures stop { IfErr result MayStop }
    {
        let Some(i) = self.taken_type()?.instance() else {
            return refuse(Code::UnknownName, place);
        };
        tasks.value(ValueTask::Member { i, name, place })?;
        self.settle(i, place, cx, tasks)
    }

    pub(crate) fn member_value<'t>(
        &mut self,
        i: InstanceId,
        name: Name,
        place: Place,
        cx: &Context<'t, '_>,
        tasks: &mut Tasks<'t>,
    ) -> Result<(), Stop>
        ensures stop { IfErr result MayStop }
    {
        match self.scoped(i, name) {
            Some(found) => self.meant(found, name, place, cx, tasks),
            None => refuse(Code::UnknownName, place),
        }
    }
}

fn port<'t>(at: Scope, port: Port, of: &'t Ty, tasks: &mut Tasks<'t>) -> Result<(), Stop>
    ensures stop { IfErr result MayStop }
{
    let place = of.place;
    tasks.ty(TypeTask::Port { port, place })?;
    tasks.ty(TypeTask::Type { at, ty: of })?;
    Ok(())
}
