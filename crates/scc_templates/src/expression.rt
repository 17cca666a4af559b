//! Expressions that are constants (C++, [expr.const]). Each function takes a task.
ghost use Rattle.std.specs.Prelude.{IfErr};
ghost use Rattle.scc_templates_scopes.specs.Refusals.{MayStop};

use crate::part::Thing;
use crate::session::Templates;
use crate::task::{Scope, Tasks, TypeTask, ValueTask};
use scc_base::{Code, Name, Place, Stop, lost};
use scc_bits::{Kind, Op, Value, Word};
use scc_templates_scopes::entry::{Context, Entry, Found};
use scc_templates_scopes::join::Joined;
use scc_templates_scopes::operator::{choose, operate, operate_one, operator_of};
use scc_templates_scopes::refuse::{gone, refuse};
use scc_templates_scopes::ty::Arg;
use scc_tree::{Expr, ExprNode, Link, UnaryOp};

/// A value in another kind.
pub(crate) fn converted(v: Value, to: Kind, at: Place) -> Result<Value, Stop>
    ensures stop { IfErr result MayStop }
{
    match v.converted(to) {
        Some(v) => Ok(v),
        None => refuse(Code::Mismatch, at), // E304
    }
}

impl Templates {
    /// Gives a value.
    pub(crate) fn give(&mut self, v: Value) -> Result<(), Stop>
        ensures stop { IfErr result MayStop }
    {
        self.thing = Some(Thing::Value(v));
        Ok(())
    }

    /// The value that the last task gave.
    pub(crate) fn taken(&self) -> Result<Value, Stop>
        ensures stop { IfErr result MayStop }
    {
        match self.thing {
            Some(Thing::Value(v)) => Ok(v),
            _ => gone(),
        }
    }

    // Puts the value by while others are worked out.
    fn put_by(&mut self) -> Result<(), Stop>
        ensures stop { IfErr result MayStop }
    {
        let v = self.taken()?;
        self.values.push(v)?;
        Ok(())
    }

    // The last value that was put by.
    fn put_back(&mut self) -> Result<Value, Stop>
        ensures stop { IfErr result MayStop }
    {
        Ok(self.values.pop().ok_or(lost())?)
    }

    pub(crate) fn demanded(&self, place: Place) -> Result<(), Stop>
        ensures stop { IfErr result MayStop }
    {
        match self.thing {
            Some(Thing::Value(_)) => Ok(()),
            Some(_) => refuse(Code::Mismatch, place),
            None => gone(),
        }
    }

    fn number(&mut self, kind: Kind, word: Word) -> Result<(), Stop>
        ensures stop { IfErr result MayStop }
    {
        let v = Value::of(kind, word).ok_or(lost())?;
        self.give(v)
    }

    pub(crate) fn expression<'t>(
        &mut self,
        at: Scope,
        e: &'t Expr,
        cx: &Context<'t, '_>,
        tasks: &mut Tasks<'t>,
    ) -> Result<(), Stop>
        ensures stop { IfErr result MayStop }
    {
        let place = e.place;
        match e.node.get() {
            ExprNode::Number(kind, word) => return self.number(*kind, *word),
            ExprNode::Ident(name) => return self.name(at, *name, place, cx, tasks),
            ExprNode::Scoped { ty, member } => {
                let name = *member;
                tasks.value(ValueTask::Scoped { name, place })?;
                tasks.ty(TypeTask::Type { at, ty })?;
            }
            ExprNode::Chain { first, rest } => {
                let rest = rest.as_slice();
                tasks.value(ValueTask::Links { at, rest })?;
                tasks.demand(at, first)?;
            }
            ExprNode::Unary { op, of } => {
                let op = *op;
                tasks.value(ValueTask::Unary {
                    op,
                    of: of.place,
                    place,
                })?;
                tasks.value(ValueTask::Thing { at, e: of })?;
            }
            ExprNode::Cond { test, yes, no } => {
                tasks.value(ValueTask::Branches {
                    at,
                    test: test.place,
                    yes,
                    no,
                    place,
                })?;
                tasks.demand(at, test)?;
            }
            ExprNode::Cast { ty, of } => {
                tasks.value(ValueTask::CastTo { at, of, place })?;
                tasks.ty(TypeTask::Type { at, ty })?;
            }
            ExprNode::Parts { of, parts } => {
                let rest = parts.as_slice();
                tasks.value(ValueTask::Parts { at, rest, place })?;
                tasks.value(ValueTask::Thing { at, e: of })?;
            }
            ExprNode::Concat(items) => {
                let rest = items.as_slice();
                self.joins.push(Joined::new())?;
                tasks.value(ValueTask::Items { at, rest, place })?;
            }
            ExprNode::Null | ExprNode::Text => self.thing = Some(Thing::Other),
            ExprNode::This => return refuse(Code::NotConstant, place), // E305
            ExprNode::Make { .. } => return refuse(Code::Mismatch, place),
        }
        Ok(())
    }

    fn name<'t>(
        &mut self,
        at: Scope,
        name: Name,
        place: Place,
        cx: &Context<'t, '_>,
        tasks: &mut Tasks<'t>,
    ) -> Result<(), Stop>
        ensures stop { IfErr result MayStop }
    {
        match self.look(cx, at, name) {
            Some(found) => self.meant(found, name, place, cx, tasks),
            None => refuse(Code::UnknownName, place), // E301
        }
    }

    // An argument that is a number.
    fn give_argument(&mut self, arg: Arg, place: Place) -> Result<(), Stop>
        ensures stop { IfErr result MayStop }
    {
        match arg {
            Arg::Value(v) => self.give(v),
            Arg::Number(_) | Arg::Class(_) => refuse(Code::Mismatch, place),
        }
    }

    /// What a declaration means in a constant.
    pub(crate) fn meant<'t>(
        &mut self,
        found: Found,
        name: Name,
        place: Place,
        cx: &Context<'t, '_>,
        tasks: &mut Tasks<'t>,
    ) -> Result<(), Stop>
        ensures stop { IfErr result MayStop }
    {
        let scope = found.scope;
        match found.entry {
            Entry::Argument(arg) => self.give_argument(arg, place),
            Entry::Constant { item } => self.constant(scope, item, place, cx, tasks),
            Entry::Enumerator { item, at } => self.enumerator(scope, item, at, place, cx, tasks),
            Entry::Function => {
                self.thing = Some(Thing::Function { scope, name, place });
                Ok(())
            }
            Entry::Local(_) | Entry::Field(_) => refuse(Code::NotConstant, place),
            Entry::Class { .. } | Entry::Alias { .. } | Entry::Numbers => refuse(
                Code::Mismatch,
                place,
            ),
        }
    }

    pub(crate) fn links<'t>(
        &mut self,
        at: Scope,
        links: &'t [Link],
        tasks: &mut Tasks<'t>,
    ) -> Result<(), Stop>
        ensures stop { IfErr result MayStop }
    {
        let Some((link, rest)) = links.split_first() else {
            return Ok(());
        };
        self.put_by()?;
        let op = link.op;
        let place = link.place;
        tasks.value(ValueTask::Links { at, rest })?;
        tasks.value(ValueTask::Right { op, place })?;
        tasks.demand(at, &link.operand)?;
        Ok(())
    }

    pub(crate) fn right(&mut self, op: Op, place: Place) -> Result<(), Stop>
        ensures stop { IfErr result MayStop }
    {
        let left = self.put_back()?;
        let right = self.taken()?;
        let v = operate(op, left, right, place)?;
        self.give(v)
    }

    pub(crate) fn unary(&mut self, op: UnaryOp, of: Place, place: Place) -> Result<(), Stop>
        ensures stop { IfErr result MayStop }
    {
        let Some(op) = operator_of(op) else {
            return refuse(Code::Mismatch, place);
        };
        self.demanded(of)?;
        let v = operate_one(op, self.taken()?, place)?;
        self.give(v)
    }

    pub(crate) fn branches<'t>(
        &mut self,
        at: Scope,
        test: Place,
        yes: &'t Expr,
        no: &'t Expr,
        place: Place,
        tasks: &mut Tasks<'t>,
    ) -> Result<(), Stop>
        ensures stop { IfErr result MayStop }
    {
        let test = converted(self.taken()?, Kind::Bool, test)?.is_true();
        tasks.value(ValueTask::Second {
            at,
            test,
            no,
            place,
        })?;
        tasks.demand(at, yes)?;
        Ok(())
    }

    pub(crate) fn second<'t>(
        &mut self,
        at: Scope,
        test: bool,
        no: &'t Expr,
        place: Place,
        tasks: &mut Tasks<'t>,
    ) -> Result<(), Stop>
        ensures stop { IfErr result MayStop }
    {
        self.put_by()?;
        tasks.value(ValueTask::Choose { test, place })?;
        tasks.demand(at, no)?;
        Ok(())
    }

    pub(crate) fn chosen(&mut self, test: bool, place: Place) -> Result<(), Stop>
        ensures stop { IfErr result MayStop }
    {
        let first = self.put_back()?;
        let v = choose(test, first, self.taken()?, place)?;
        self.give(v)
    }

    pub(crate) fn cast_to<'t>(
        &mut self,
        at: Scope,
        of: &'t Expr,
        place: Place,
        tasks: &mut Tasks<'t>,
    ) -> Result<(), Stop>
        ensures stop { IfErr result MayStop }
    {
        let kind = self.taken_type()?.kind();
        tasks.value(ValueTask::Cast { kind, place })?;
        tasks.demand(at, of)?;
        Ok(())
    }

    pub(crate) fn cast(&mut self, kind: Option<Kind>, place: Place) -> Result<(), Stop>
        ensures stop { IfErr result MayStop }
    {
        let Some(kind) = kind else {
            return refuse(Code::Mismatch, place);
        };
        self.convert(kind, place)
    }

    pub(crate) fn convert(&mut self, kind: Kind, place: Place) -> Result<(), Stop>
        ensures stop { IfErr result MayStop }
    {
        let v = converted(self.taken()?, kind, place)?;
        self.give(v)
    }

    pub(crate) fn items<'t>(
        &mut self,
        at: Scope,
        items: &'t [Expr],
        place: Place,
        tasks: &mut Tasks<'t>,
    ) -> Result<(), Stop>
        ensures stop { IfErr result MayStop }
    {
        let Some((e, rest)) = items.split_first() else {
            let joined = self.joins.pop().ok_or(lost())?;
            return self.give(joined.value(place)?);
        };
        tasks.value(ValueTask::Joins { at, rest, place })?;
        tasks.demand(at, e)?;
        Ok(())
    }

    pub(crate) fn joins<'t>(
        &mut self,
        at: Scope,
        rest: &'t [Expr],
        place: Place,
        tasks: &mut Tasks<'t>,
    ) -> Result<(), Stop>
        ensures stop { IfErr result MayStop }
    {
        let part = self.taken()?;
        let joined = self.joins.pop().ok_or(lost())?;
        self.joins.push(joined.with(part))?;
        tasks.value(ValueTask::Items { at, rest, place })?;
        Ok(())
    }
}
