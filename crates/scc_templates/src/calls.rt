//! The calls of this crate.
ghost use Rattle.std.specs.Prelude.{IfErr};
ghost use Rattle.scc_templates_scopes.specs.Refusals.{MayStop};

use crate::bodies::{BodyAt, FunctionKey};
use crate::class_use::{ClassUse, Purpose, begin_use};
use crate::look::scope_of;
use crate::session::Templates;
use crate::table::Instances;
use crate::task::{BodyTask, ClassTask, Scope, Tasks, TypeTask};
use scc_base::{Code, Name, Place, Stop, lost};
use scc_bits::Value;
use scc_templates_scopes::entry::{Context, Found, class_at};
use scc_templates_scopes::index::Index;
use scc_templates_scopes::refuse::{gone, refuse};
use scc_templates_scopes::ty::{Args, ClassId, InstanceId, TypeOf};
use scc_tree::{Expr, FileTree, ItemNode, Ty};
use std::mem;

impl Templates {
    // Sees that the class body of the scope is known, before other tasks.
    fn settle_scope<'t>(
        &mut self,
        place: Place,
        cx: &Context<'t, '_>,
        tasks: &mut Tasks<'t>,
    ) -> Result<(), Stop>
        ensures stop { IfErr result MayStop }
    {
        match cx.scope {
            Some(i) => self.settle(i, place, cx, tasks),
            None => Ok(()),
        }
    }

    /// The value of a constant expression in a context (C++, [expr.const]). Refuses by E301, E303 to E308, E310, E311 and
    /// E314.
    pub fn constant_in<'t>(&mut self, cx: &Context<'t, '_>, e: &'t Expr) -> Result<Value, Stop>
        ensures stop { IfErr result MayStop }
    {
        self.start();
        let mut tasks = Tasks::new(self.alloc);
        tasks.demand(scope_of(cx), e)?;
        self.settle_scope(e.place, cx, &mut tasks)?;
        self.run(cx, tasks)?;
        self.answer()
    }

    /// The value that a declaration means in a context, as it is named at a place. Refuses as `constant_in`.
    pub fn value_of<'t>(
        &mut self,
        cx: &Context<'t, '_>,
        found: &Found,
        place: Place,
    ) -> Result<Value, Stop>
        ensures stop { IfErr result MayStop }
    {
        self.start();
        let mut tasks = Tasks::new(self.alloc);
        self.meant(*found, Name(0), place, cx, &mut tasks)?;
        self.run(cx, tasks)?;
        self.demanded(place)?;
        self.answer()
    }

    /// The type that stands in a context (C++, [dcl.type]). Refuses as `constant_in`.
    pub fn type_in<'t>(&mut self, cx: &Context<'t, '_>, ty: &'t Ty) -> Result<TypeOf, Stop>
        ensures stop { IfErr result MayStop }
    {
        self.start();
        let mut tasks = Tasks::new(self.alloc);
        let at = scope_of(cx);
        tasks.ty(TypeTask::Type { at, ty })?;
        self.settle_scope(ty.place, cx, &mut tasks)?;
        self.run(cx, tasks)?;
        self.taken_type()
    }

    /// The type that a declaration means in a context, as it is named at a place without arguments: that of a typedef, an
    /// enumeration or a parameter of a template. Refuses as `constant_in`.
    pub fn type_of<'t>(
        &mut self,
        cx: &Context<'t, '_>,
        found: &Found,
        place: Place,
    ) -> Result<TypeOf, Stop>
        ensures stop { IfErr result MayStop }
    {
        self.start();
        let mut tasks = Tasks::new(self.alloc);
        self.type_meant(*found, place, cx, &mut tasks)?;
        self.run(cx, tasks)?;
        self.taken_type()
    }

    /// The body of a function that counts, None where there is none. Refuses as `constant_in`, by what the arguments of bodies
    /// outside their class need.
    pub fn function<'t>(
        &mut self,
        cx: &Context<'t, '_>,
        f: FunctionKey,
        place: Place,
    ) -> Result<Option<BodyAt>, Stop>
        ensures stop { IfErr result MayStop }
    {
        self.start();
        let mut tasks = Tasks::new(self.alloc);
        tasks.body(BodyTask::Find { f, place })?;
        if let Some(i) = f.scope {
            self.settle(i, place, cx, &mut tasks)?;
        }
        self.run(cx, tasks)?;
        Ok(self.body)
    }

    /// Whether the body outside a class that is an item of the file is one of an instance's class body: one for its
    /// arguments, or one for all of them where the instance has no specialisation. Refuses as `constant_in`.
    pub fn is_own_outside<'t>(
        &mut self,
        cx: &Context<'t, '_>,
        i: InstanceId,
        item: u32,
    ) -> Result<bool, Stop>
        ensures stop { IfErr result MayStop }
    {
        let tree = cx.tree;
        let made = self.table.made(i).ok_or(lost())?;
        let class = class_at(tree, made.item as usize).ok_or(lost())?;
        let outside = tree.items.get(item as usize).ok_or(lost())?;
        let ItemNode::Outside { params, args, .. } = &outside.node else {
            return gone();
        };
        if class.params.len() == 0 || params.len() != 0 {
            let body = self.body(tree, i).ok_or(lost())?;
            return Ok(body.special.is_none());
        }
        if self.outside.get(&item).is_none() {
            self.start();
            let call = ClassUse {
                item: made.item,
                base: 0,
                place: outside.place,
                purpose: Purpose::Body(item),
            };
            let mut tasks = Tasks::new(self.alloc);
            begin_use(call, Scope::of(None), args.as_slice(), cx, &mut tasks)?;
            self.run(cx, tasks)?;
        }
        Ok(self.outside.get(&item).copied() == Some(made.list))
    }

    /// The instance of a class for arguments and the defaults of those that are missing, which are taken as if they were written
    /// at the place. A specialisation has its own arguments and takes no others. Refuses as `constant_in`.
    pub fn instantiate(
        &mut self,
        tree: &FileTree,
        c: ClassId,
        args: &Args,
        at: Place,
    ) -> Result<InstanceId, Stop>
        ensures stop { IfErr result MayStop }
    {
        self.start();
        let cx = Context::outside(tree, None);
        let mut tasks = Tasks::new(self.alloc);
        let class = class_at(tree, c.0 as usize).ok_or(lost())?;
        match &class.special {
            Some(special) => {
                if args.len() != 0 {
                    return refuse(Code::Arguments, at); // E307
                }
                let name = tree
                    .items
                    .get(c.0 as usize)
                    .ok_or(lost())?
                    .name
                    .ok_or(lost())?;
                let primary = self.file_class(name).ok_or(lost())?;
                self.use_class(
                    Scope::of(None),
                    primary,
                    special.as_slice(),
                    at,
                    &cx,
                    &mut tasks,
                )?;
            }
            None => {
                let params = class.params.as_slice();
                self.pass(args.as_slice(), params, at)?;
                let call = ClassUse {
                    item: c.0,
                    base: 0,
                    place: at,
                    purpose: Purpose::Instance,
                };
                tasks.class(ClassTask::Defaults { call, params })?;
            }
        }
        self.run(&cx, tasks)?;
        match self.taken_type()?.instance() {
            Some(i) => Ok(i),
            None => gone(),
        }
    }
}

impl Instances {
    // A session over the table, which is empty meanwhile.
    fn session(&mut self, tree: &FileTree) -> Result<Templates, Stop>
        ensures stop { IfErr result MayStop }
    {
        let alloc = self.alloc;
        let index = Index::new(alloc, tree)?;
        let table = mem::replace(self, Instances::new(alloc));
        Ok(Templates::over(alloc, index, table))
    }

    /// The instance of a class for arguments and the defaults of those that are missing: the same number for equal classes
    /// and arguments. Refuses by E301, E303 to E308, E310, E311 and E314.
    pub fn instantiate(
        &mut self,
        tree: &FileTree,
        c: ClassId,
        args: &Args,
        at: Place,
    ) -> Result<InstanceId, Stop>
        ensures stop { IfErr result MayStop }
    {
        let mut session = self.session(tree)?;
        let answer = session.instantiate(tree, c, args, at);
        *self = session.into_table();
        answer
    }

    /// The value of a constant expression in an instance, or in the file. Refuses by E301, E303 to E308, E310, E311 and
    /// E314.
    pub fn const_value(
        &mut self,
        tree: &FileTree,
        scope: Option<InstanceId>,
        e: &Expr,
    ) -> Result<Value, Stop>
        ensures stop { IfErr result MayStop }
    {
        let mut session = self.session(tree)?;
        let answer = session.constant_in(&Context::outside(tree, scope), e);
        *self = session.into_table();
        answer
    }
}
