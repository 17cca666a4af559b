//! The machine: one task after the other, the newest first. It ends, since what needs itself and chains of more than so
//! many members are refused.
ghost use Rattle.std.specs.Prelude.{IfErr};
ghost use Rattle.scc_templates_scopes.specs.Refusals.{MayStop};

use crate::ask::Level;
use crate::session::Templates;
use crate::task::{BodyTask, ClassTask, Task, Tasks, TypeTask, ValueTask};
use scc_base::Stop;
use scc_templates_scopes::entry::Context;
use scc_templates_scopes::refuse::gone;

impl Templates {
    /// Forgets what an evaluation that was refused left.
    pub(crate) fn start(&mut self) {
        if self.busy.len() != 0 {
            // Only what is left is cleared, since that takes time by the room of the table.
            self.busy.clear();
        }
        self.args.truncate(0);
        self.values.truncate(0);
        self.joins.truncate(0);
        self.level = Level::new();
        self.thing = None;
        self.ty = None;
        self.body = None;
    }

    /// Takes all tasks.
    pub(crate) fn run<'t>(&mut self, cx: &Context<'t, '_>, tasks: Tasks<'t>) -> Result<(), Stop>
        ensures stop { IfErr result MayStop }
    {
        let mut tasks = tasks;
        for _ in 0..usize::MAX {
            let Some(task) = tasks.pop() else {
                return Ok(());
            };
            self.take(task, cx, &mut tasks)?;
        }
        gone()
    }

    fn take<'t>(
        &mut self,
        task: Task<'t>,
        cx: &Context<'t, '_>,
        tasks: &mut Tasks<'t>,
    ) -> Result<(), Stop>
        ensures stop { IfErr result MayStop }
    {
        match task {
            Task::Value(task) => self.take_value(task, cx, tasks),
            Task::Type(task) => self.take_type(task, cx, tasks),
            Task::Class(task) => self.take_class(task, cx, tasks),
            Task::Body(task) => self.take_body_task(task, cx, tasks),
        }
    }

    fn take_value<'t>(
        &mut self,
        task: ValueTask<'t>,
        cx: &Context<'t, '_>,
        tasks: &mut Tasks<'t>,
    ) -> Result<(), Stop>
        ensures stop { IfErr result MayStop }
    {
        match task {
            ValueTask::Thing { at, e } => self.expression(at, e, cx, tasks),
            ValueTask::Demand(place) => self.demanded(place),
            ValueTask::Links { at, rest } => self.links(at, rest, tasks),
            ValueTask::Right { op, place } => self.right(op, place),
            ValueTask::Unary { op, of, place } => self.unary(op, of, place),
            ValueTask::Branches {
                at,
                test,
                yes,
                no,
                place,
            } => { self.branches(at, test, yes, no, place, tasks) }
            ValueTask::Second {
                at,
                test,
                no,
                place,
            } => self.second(at, test, no, place, tasks),
            ValueTask::Choose { test, place } => self.chosen(test, place),
            ValueTask::CastTo { at, of, place } => self.cast_to(at, of, place, tasks),
            ValueTask::Cast { kind, place } => self.cast(kind, place),
            ValueTask::Items { at, rest, place } => self.items(at, rest, place, tasks),
            ValueTask::Joins { at, rest, place } => self.joins(at, rest, place, tasks),
            ValueTask::Parts { at, rest, place } => self.parts(at, rest, place, tasks),
            ValueTask::Arguments { at, rest } => self.arguments(at, rest, tasks),
            ValueTask::Bounds { at, rest } => self.bounds(at, rest, tasks),
            other => self.take_constant(other, cx, tasks),
        }
    }

    fn take_constant<'t>(
        &mut self,
        task: ValueTask<'t>,
        cx: &Context<'t, '_>,
        tasks: &mut Tasks<'t>,
    ) -> Result<(), Stop>
        ensures stop { IfErr result MayStop }
    {
        match task {
            ValueTask::Scoped { name, place } => self.scoped_name(name, place, cx, tasks),
            ValueTask::Member { i, name, place } => self.member_value(i, name, place, cx, tasks),
            ValueTask::Mismatch(place) => mismatch(place),
            ValueTask::Called { name, place } => self.called(name, place),
            ValueTask::Constant { at, own, value } => self.constant_of(at, own, value, tasks),
            ValueTask::Convert { kind, place } => self.convert(kind, place),
            ValueTask::Hold(place) => self.hold(place),
            ValueTask::Successor(place) => self.successor(place),
            ValueTask::Enumerator {
                scope,
                item,
                at,
                place,
            } => { self.enumerator(scope, item, at, place, cx, tasks) }
            ValueTask::Known(mark) => self.end_value(mark),
            _ => gone(),
        }
    }

    fn take_type<'t>(
        &mut self,
        task: TypeTask<'t>,
        cx: &Context<'t, '_>,
        tasks: &mut Tasks<'t>,
    ) -> Result<(), Stop>
        ensures stop { IfErr result MayStop }
    {
        match task {
            TypeTask::Type { at, ty } => self.type_task(at, ty, cx, tasks),
            TypeTask::Is(t) => self.give_type(t),
            TypeTask::Sized { family, place } => self.sized(family, place),
            TypeTask::Port { port, place } => self.port(port, place),
            TypeTask::Vector(place) => self.vector(place),
            TypeTask::Known(mark) => self.end_type(mark),
        }
    }

    fn take_class<'t>(
        &mut self,
        task: ClassTask<'t>,
        cx: &Context<'t, '_>,
        tasks: &mut Tasks<'t>,
    ) -> Result<(), Stop>
        ensures stop { IfErr result MayStop }
    {
        match task {
            ClassTask::Given {
                at,
                params,
                given,
                place,
            } => { self.given(at, params, given, place, cx, tasks) }
            ClassTask::TypeArg(place) => self.type_arg(place),
            ClassTask::ValueArg { kind, place } => self.value_arg(kind, place),
            ClassTask::Defaults { call, params } => self.defaults(call, params, tasks),
            ClassTask::Default { call, rest } => self.default(call, rest, cx, tasks),
            ClassTask::Filled(outer) => {
                self.filled(outer);
                Ok(())
            }
            ClassTask::Enter(call) => self.enter_class(call, cx, tasks),
            ClassTask::Specials { class, at, mark } => self.specials(class, at, mark, cx, tasks),
        }
    }

    fn take_body_task<'t>(
        &mut self,
        task: BodyTask,
        cx: &Context<'t, '_>,
        tasks: &mut Tasks<'t>,
    ) -> Result<(), Stop>
        ensures stop { IfErr result MayStop }
    {
        match task {
            BodyTask::Find { f, place } => self.find_body(f, place, cx, tasks),
            BodyTask::Each { work, at } => self.each_body(work, at, cx, tasks),
            BodyTask::Done(mark) => self.end_done(mark),
            BodyTask::Choose(f) => self.choose_body(f, cx),
        }
    }
}

fn mismatch(place: scc_base::Place) -> Result<(), Stop>
    ensures stop { IfErr result MayStop }
{
    scc_templates_scopes::refuse::refuse(scc_base::Code::Mismatch, place) // E304
}
