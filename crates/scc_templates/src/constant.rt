//! Constants and enumerators (C++, [dcl.dcl], [dcl.enum]).
ghost use Rattle.std.specs.Prelude.{IfErr};
ghost use Rattle.scc_templates_scopes.specs.Refusals.{MayStop};

use crate::ask::Key;
use crate::expression::converted;
use crate::session::Templates;
use crate::task::{Scope, Tasks, TypeTask, ValueTask};
use scc_base::{Code, Place, Stop, lost};
use scc_bits::{Value, Word};
use scc_templates_scopes::entry::{Context, class_at};
use scc_templates_scopes::kinds::INT;
use scc_templates_scopes::refuse::{gone, refuse};
use scc_templates_scopes::ty::InstanceId;
use scc_tree::{Enumerator, Expr, Item, ItemNode};

// An `int` of a word.
fn int(bits: u128) -> Result<Value, Stop>
    ensures stop { IfErr result MayStop }
{
    Ok(Value::of(INT, Word { bits }).ok_or(lost())?)
}

impl Templates {
    /// The declaration of a number among those of a scope.
    pub(crate) fn item_at<'t>(
        &self,
        scope: Option<InstanceId>,
        item: usize,
        cx: &Context<'t, '_>,
    ) -> Option<&'t Item> {
        let tree = cx.tree;
        match scope {
            None => tree.items.get(item),
            Some(i) => {
                let class = class_at(tree, self.body_item(i)?)?;
                class.items.get(item)
            }
        }
    }

    pub(crate) fn constant<'t>(
        &mut self,
        scope: Option<InstanceId>,
        item: usize,
        place: Place,
        cx: &Context<'t, '_>,
        tasks: &mut Tasks<'t>,
    ) -> Result<(), Stop>
        ensures stop { IfErr result MayStop }
    {
        let declared = self.item_at(scope, item, cx).ok_or(lost())?;
        let ItemNode::Constant { ty, value } = &declared.node else {
            return gone();
        };
        let key = Key::Declared { scope, item, at: 0 };
        if let Some(mark) = self.begin(key, scope, place)? {
            let at = Scope::of(scope);
            let own = declared.place;
            tasks.value(ValueTask::Known(mark))?;
            tasks.value(ValueTask::Constant { at, own, value })?;
            tasks.ty(TypeTask::Type { at, ty })?;
        }
        Ok(())
    }

    /// The value of a constant, whose type was given.
    pub(crate) fn constant_of<'t>(
        &mut self,
        at: Scope,
        own: Place,
        value: &'t Expr,
        tasks: &mut Tasks<'t>,
    ) -> Result<(), Stop>
        ensures stop { IfErr result MayStop }
    {
        let Some(kind) = self.taken_type()?.kind() else {
            return refuse(Code::Mismatch, own); // E304
        };
        let place = value.place;
        tasks.value(ValueTask::Convert { kind, place })?;
        tasks.demand(at, value)?;
        Ok(())
    }

    pub(crate) fn enumerator<'t>(
        &mut self,
        scope: Option<InstanceId>,
        item: usize,
        at: usize,
        place: Place,
        cx: &Context<'t, '_>,
        tasks: &mut Tasks<'t>,
    ) -> Result<(), Stop>
        ensures stop { IfErr result MayStop }
    {
        let declared = self.item_at(scope, item, cx).ok_or(lost())?;
        let ItemNode::Numbers(all) = &declared.node else {
            return gone();
        };
        let e = all.get(at).ok_or(lost())?;
        match self.begin(Key::Declared { scope, item, at }, scope, place)? {
            Some(mark) => {
                tasks.value(ValueTask::Known(mark))?;
                self.enumerated(scope, item, at, e, tasks)
            }
            None => Ok(()),
        }
    }

    // The value that is written, else that after the one before.
    fn enumerated<'t>(
        &mut self,
        scope: Option<InstanceId>,
        item: usize,
        at: usize,
        e: &'t Enumerator,
        tasks: &mut Tasks<'t>,
    ) -> Result<(), Stop>
        ensures stop { IfErr result MayStop }
    {
        if let Some(value) = &e.value {
            tasks.value(ValueTask::Hold(e.place))?;
            tasks.demand(Scope::of(scope), value)?;
            return Ok(());
        }
        let Some(before) = at.checked_sub(1) else {
            return self.give(int(0)?);
        };
        tasks.value(ValueTask::Successor(e.place))?;
        tasks.value(ValueTask::Enumerator {
            scope,
            item,
            at: before,
            place: e.place,
        })?;
        Ok(())
    }

    /// The value as the number of an enumerator.
    pub(crate) fn hold(&mut self, place: Place) -> Result<(), Stop>
        ensures stop { IfErr result MayStop }
    {
        match self.taken()?.held(INT) {
            Some(v) => self.give(v),
            None => refuse(Code::ConstRange, place), // E306
        }
    }

    /// The number after that of the enumerator before.
    pub(crate) fn successor(&mut self, place: Place) -> Result<(), Stop>
        ensures stop { IfErr result MayStop }
    {
        let bits = self.taken()?.word().bits & 0xffff_ffff;
        if bits == 0x7fff_ffff {
            return refuse(Code::ConstRange, place);
        }
        self.give(int((bits + 1) & 0xffff_ffff)?)
    }

    /// The value as another kind holds it, as an argument.
    pub(crate) fn held_as(&self, kind: scc_bits::Kind, place: Place) -> Result<Value, Stop>
        ensures stop { IfErr result MayStop }
    {
        let v = self.taken()?;
        converted(v, kind, place)?;
        match v.held(kind) {
            Some(v) => Ok(v),
            None => refuse(Code::ConstRange, place),
        }
    }
}
