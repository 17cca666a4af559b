//! Arguments of templates (C++, [temp.arg]).
ghost use Rattle.std.specs.Prelude.{IfErr};
ghost use Rattle.scc_templates_scopes.specs.Refusals.{MayStop};

use crate::class_use::ClassUse;
use crate::session::Templates;
use crate::task::{ClassTask, Scope, Tasks, TypeTask};
use scc_base::{Code, Name, Place, Stop, lost};
use scc_bits::Kind;
use scc_templates_scopes::entry::{Context, Given};
use scc_templates_scopes::kinds::sort_kind;
use scc_templates_scopes::refuse::refuse;
use scc_templates_scopes::ty::{Arg, Base};
use scc_tree::{ExprNode, Param, TyArg, TyNode};

// The name that an argument is, as an expression or a type.
fn name_of(a: &TyArg) -> Option<Name> {
    match a {
        TyArg::Value(e) => match e.node.get() {
            ExprNode::Ident(name) => Some(*name),
            _ => None,
        },
        TyArg::Named(t) => match t.node.get() {
            TyNode::Named { name, .. } => Some(*name),
            _ => None,
        },
    }
}

fn place_of(a: &TyArg) -> Place {
    match a {
        TyArg::Value(e) => e.place,
        TyArg::Named(t) => t.place,
    }
}

impl Templates {
    /// Arguments as they are written, each for its parameter.
    pub(crate) fn given<'t>(
        &mut self,
        at: Scope,
        params: &'t [Param],
        given: &'t [TyArg],
        place: Place,
        cx: &Context<'t, '_>,
        tasks: &mut Tasks<'t>,
    ) -> Result<(), Stop>
        ensures stop { IfErr result MayStop }
    {
        let Some((a, given)) = given.split_first() else {
            return Ok(());
        };
        let Some((p, params)) = params.split_first() else {
            return refuse(Code::Arguments, place); // E307
        };
        tasks.class(ClassTask::Given {
            at,
            params,
            given,
            place,
        })?;
        self.argument(at, p, a, cx, tasks)
    }

    fn argument<'t>(
        &mut self,
        at: Scope,
        p: &'t Param,
        a: &'t TyArg,
        cx: &Context<'t, '_>,
        tasks: &mut Tasks<'t>,
    ) -> Result<(), Stop>
        ensures stop { IfErr result MayStop }
    {
        match (sort_kind(p.sort), a) {
            (None, TyArg::Named(ty)) => {
                tasks.class(ClassTask::TypeArg(ty.place))?;
                tasks.ty(TypeTask::Type { at, ty })?;
                Ok(())
            }
            (Some(kind), TyArg::Value(e)) => {
                let place = e.place;
                tasks.class(ClassTask::ValueArg { kind, place })?;
                tasks.demand(at, e)?;
                Ok(())
            }
            _ => self.wrong_sort(at, a, cx),
        }
    }

    // An argument of the other sort than its parameter.
    fn wrong_sort<T>(&self, at: Scope, a: &TyArg, cx: &Context) -> Result<T, Stop>
        ensures stop { IfErr result MayStop }
    {
        if let Some(name) = name_of(a)
            && self.look(cx, at, name).is_none()
        {
            return refuse(Code::UnknownName, place_of(a)); // E301
        }
        refuse(Code::Arguments, place_of(a))
    }

    pub(crate) fn type_arg(&mut self, place: Place) -> Result<(), Stop>
        ensures stop { IfErr result MayStop }
    {
        let t = self.taken_type()?;
        let arg = match t.base {
            Base::Number(kind) if !t.vector => Arg::Number(kind),
            Base::Class(i) if !t.vector => Arg::Class(i),
            _ => return refuse(Code::Arguments, place),
        };
        self.args.push(arg)?;
        Ok(())
    }

    pub(crate) fn value_arg(&mut self, kind: Kind, place: Place) -> Result<(), Stop>
        ensures stop { IfErr result MayStop }
    {
        let v = self.held_as(kind, place)?;
        self.args.push(Arg::Value(v))?;
        Ok(())
    }

    /// Arguments as they are handed in, each for its parameter.
    pub(crate) fn pass(&mut self, args: &[Arg], params: &[Param], place: Place) -> Result<(), Stop>
        ensures stop { IfErr result MayStop }
    {
        for (k, arg) in args.iter().enumerate() {
            match params.get(k) {
                Some(p) => self.pass_one(p, *arg, place)?,
                None => return refuse(Code::Arguments, place),
            }
        }
        Ok(())
    }

    fn pass_one(&mut self, p: &Param, arg: Arg, place: Place) -> Result<(), Stop>
        ensures stop { IfErr result MayStop }
    {
        match (sort_kind(p.sort), arg) {
            (Some(kind), Arg::Value(v)) => {
                self.give(v)?;
                self.value_arg(kind, place)
            }
            (None, Arg::Number(_) | Arg::Class(_)) => {
                self.args.push(arg)?;
                Ok(())
            }
            _ => refuse(Code::Arguments, place),
        }
    }

    /// Sees that each parameter without an argument has a default, and begins with them.
    pub(crate) fn defaults<'t>(
        &mut self,
        call: ClassUse,
        params: &'t [Param],
        tasks: &mut Tasks<'t>,
    ) -> Result<(), Stop>
        ensures stop { IfErr result MayStop }
    {
        let have = self.args.len().checked_sub(call.base).ok_or(lost())?;
        if params.len() < have {
            return refuse(Code::Arguments, call.place);
        }
        let rest = &params[have..];
        if rest.iter().any(|p| p.preset.is_none()) {
            return refuse(Code::Arguments, call.place);
        }
        tasks.class(ClassTask::Default { call, rest })?;
        Ok(())
    }

    /// The defaults of the parameters that are left. Each is worked out in the file's scope with the arguments so far.
    pub(crate) fn default<'t>(
        &mut self,
        call: ClassUse,
        params: &'t [Param],
        cx: &Context<'t, '_>,
        tasks: &mut Tasks<'t>,
    ) -> Result<(), Stop>
        ensures stop { IfErr result MayStop }
    {
        let Some((p, rest)) = params.split_first() else {
            tasks.class(ClassTask::Enter(call))?;
            return Ok(());
        };
        let Some(preset) = &p.preset else {
            return refuse(Code::Arguments, call.place);
        };
        let count = self.args.len().checked_sub(call.base).ok_or(lost())?;
        let outer = self.fill(call.place)?;
        tasks.class(ClassTask::Default { call, rest })?;
        tasks.class(ClassTask::Filled(outer))?;
        let at = Scope {
            instance: None,
            given: Given::Earlier {
                class: call.item,
                base: call.base,
                count,
            },
            inside: false,
        };
        self.argument(at, p, preset, cx, tasks)
    }
}
