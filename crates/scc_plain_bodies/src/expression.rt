//! Expressions (C++, [expr]). In each call `e` stands in the body `b`; calls of functions in it go to `b.lifted`.
ghost use Rattle.std.specs.Prelude.{◌≡◌, IfErr, false};
ghost use Rattle.scc_plain_bodies.specs.Walking.{cast_in, is_pointing};
ghost use Rattle.scc_plain_drafts.specs.Flows.{typed_in};
ghost use Rattle.scc_plain_drafts.specs.Forms.{Classes, SoundLoc, loc_in};
ghost use Rattle.scc_plain_drafts.specs.Meaning.{SoundMeant, meant_in, owner_in};
ghost use Rattle.scc_plain_drafts.specs.Picks.{Means};
ghost use Rattle.scc_plain_drafts.specs.Refusals.{MayStop};
ghost use Rattle.scc_plain_drafts.specs.Views.{Sound, draft_of};
ghost use Rattle.scc_plain_spec.specs.Calls as spec;
ghost use Rattle.scc_plain_spec.specs.Drafts.{literal as spec_literal, operate_one as spec_operate};
ghost use Rattle.scc_plain_spec.specs.Meant.{Stands, Valued, addressed};
ghost use Rattle.scc_plain_spec.specs.Numbers.{number};
ghost use Rattle.scc_plain_spec.specs.Types.{kind_in};
ghost use Rattle.scc_templates_spec.specs.Tree.{place_of};
ghost use Rattle.scc_templates_spec.specs.View.{tree_of};
ghost use Rattle.scc_templates_spec.specs.Walked.{and_walk, pure};
ghost use Rattle.scc_templates_spec.specs.World.{Owner};

use crate::body::Body;
use crate::function::FunctionId;
use crate::walk::Walk;
use scc_base::{Code, List, Place, Stop, lost};
use scc_bits::{Kind, Op, Value, Word};
use scc_plain_drafts::call::Call;
use scc_plain_drafts::draft::{Draft, cast, choose, convert, literal, operate, operate_one};
use scc_plain_drafts::flow::Flow;
use scc_plain_drafts::form::{Form, Loc, number_kind};
use scc_plain_drafts::join::Joining;
use scc_plain_drafts::meant::Meant;
use scc_plain_drafts::pick::{answered, indexed};
use scc_plain_drafts::refusal::refuse;
use scc_plain_drafts::syntax::{is_lazy, is_text, made_args, operator_on};
use scc_plain_drafts::target::{is_all, is_zero};
use scc_plain_tree::{Base, PlainArg, PlainTarget, Reach};
use scc_templates::TypeOf;
use scc_tree::{Expr, ExprNode, FileTree, Link, Part, PartNode, UnaryOp};
use std::alloc::Global;

impl Walk {
    fn number(&self, kind: Kind, word: Word, place: Place) -> Result<Meant, Stop>
        ensures stop { IfErr result MayStop }
        ensures is { (n : Classes) → Means n result (pure (Valued (spec_literal place (number kind word.bits)))) }
    {
        let v = Value::of(kind, word).ok_or(lost())?;
        Ok(Meant::Value(literal(self.alloc, place, v)?))
    }

    /// What an expression names. Refuses by E301, E303 to E308, E310 to E312 and E314.
    #[cycle(expression)]
    pub fn meant(
        &mut self,
        e: &Expr,
        tree: &FileTree,
        flow: Flow,
        b: &mut Body,
    ) -> Result<Meant, Stop>
        ensures stop { IfErr result MayStop }
    {
        let flow = flow.deeper()?;
        let place = e.place;
        match e.node.get() {
            ExprNode::Number(kind, word) => self.number(*kind, *word, place),
            ExprNode::Ident(name) => self.named(*name, place, tree, b),
            ExprNode::Scoped { ty, member } => self.scoped(ty, *member, place, tree, b),
            ExprNode::Chain { first, rest } => {
                let x = self.value(first, tree, flow, b)?;
                self.chain(rest.as_slice(), x, place, tree, flow, b)
            }
            ExprNode::Unary { op, of } => {
                let m = self.meant(of, tree, flow, b)?;
                self.unary(m, *op, of, place, b)
            }
            ExprNode::Cond { test, yes, no } => {
                let x = self.value(test, tree, flow, b)?;
                let x = convert(self.alloc, x, Kind::Bool)?;
                self.choice(yes, no, x, place, tree, flow.without_calls(), b)
            }
            ExprNode::Cast { ty, of } => {
                let t = self.type_of(ty, tree, b)?;
                let x = self.value(of, tree, flow, b)?;
                self.cast(x, t, place)
            }
            ExprNode::Parts { of, parts } => {
                let m = self.meant(of, tree, flow, b)?;
                self.parts(parts.as_slice(), m, place, tree, flow, b)
            }
            ExprNode::Concat(list) => self.concat(list.as_slice(), place, tree, flow, b),
            ExprNode::Null => Ok(Meant::Null),
            ExprNode::This => self.this(place, b),
            ExprNode::Text => Ok(Meant::Text),
            ExprNode::Make { .. } => refuse(Code::Mismatch, place), // E304
        }
    }

    /// The value of an expression; E304 where it has none.
    #[cycle(expression)]
    pub fn value(
        &mut self,
        e: &Expr,
        tree: &FileTree,
        flow: Flow,
        b: &mut Body,
    ) -> Result<Draft, Stop>
        ensures stop { IfErr result MayStop }
    {
        let m = self.meant(e, tree, flow, b)?;
        m.value(self.alloc, e.place)
    }

    // Operators of one precedence, from the left.
    #[cycle(expression)]
    fn chain(
        &mut self,
        rest: &[Link],
        first: Draft,
        place: Place,
        tree: &FileTree,
        flow: Flow,
        b: &mut Body,
    ) -> Result<Meant, Stop>
        ensures stop { IfErr result MayStop }
    {
        let mut x = first;
        for link in rest {
            let y = self.value(&link.operand, tree, flow.lazily(is_lazy(link.op)), b)?;
            x = operate(self.alloc, place, link.place, link.op, x, y)?;
        }
        Ok(Meant::Value(x))
    }

    // The two last parts of a choice, of which one is evaluated.
    #[cycle(expression)]
    fn choice(
        &mut self,
        yes: &Expr,
        no: &Expr,
        test: Draft,
        place: Place,
        tree: &FileTree,
        flow: Flow,
        b: &mut Body,
    ) -> Result<Meant, Stop>
        ensures stop { IfErr result MayStop }
    {
        let yes = self.value(yes, tree, flow, b)?;
        let no = self.value(no, tree, flow, b)?;
        Ok(Meant::Value(choose(self.alloc, place, test, yes, no)?))
    }

    fn unary(&self, m: Meant, op: UnaryOp, of: &Expr, place: Place, b: &Body) -> Result<Meant, Stop>
        ensures stop { IfErr result MayStop }
        ensures is { (n : Classes) → SoundMeant m → place_of (tree_of of.now) ≡ of.now.place → Means n result (spec.unary place (tree_of of.now) op (owner_in n b.now.scope) (meant_in n m)) }
    {
        match op {
            UnaryOp::Deref => Ok(Meant::Loc(m.followed(self.alloc, b.scope, place)?)),
            UnaryOp::Address => addressed(m, place),
            _ => computed(self.alloc, m, op, of, place),
        }
    }

    fn cast(&self, x: Draft, t: TypeOf, place: Place) -> Result<Meant, Stop>
        ensures stop { IfErr result MayStop }
        ensures is { (n : Classes) → Sound x → Means n result (and_walk (cast_in place (kind_in (typed_in n t)) (draft_of x)) (λ y. pure (Valued y))) }
    {
        match number_kind(t) {
            Some(kind) => Ok(Meant::Value(cast(self.alloc, x, kind, place)?)),
            None => refuse(Code::Mismatch, place),
        }
    }

    #[cycle(expression)]
    fn concat(
        &mut self,
        list: &[Expr],
        place: Place,
        tree: &FileTree,
        flow: Flow,
        b: &mut Body,
    ) -> Result<Meant, Stop>
        ensures stop { IfErr result MayStop }
    {
        let mut joining = Joining::new(self.alloc);
        for e in list {
            let x = self.value(e, tree, flow, b)?;
            joining.push(x)?;
        }
        Ok(Meant::Value(joining.whole(self.alloc, place)?))
    }

    // Indices, members and calls, from the left.
    #[cycle(expression)]
    fn parts(
        &mut self,
        parts: &[Part],
        of: Meant,
        place: Place,
        tree: &FileTree,
        flow: Flow,
        b: &mut Body,
    ) -> Result<Meant, Stop>
        ensures stop { IfErr result MayStop }
    {
        let mut m = of;
        for part in parts {
            m = match &part.node {
                PartNode::Index(e) => {
                    let i = self.value(e, tree, flow, b)?;
                    indexed(self.alloc, m, i, place)?
                }
                PartNode::Member(name) => self.dot(m, *name, part.place, place, tree, b)?,
                PartNode::Arrow(name) => self.arrow(m, *name, part.place, place, tree, b)?,
                PartNode::Call(args) => self.called(args.as_slice(), m, place, tree, flow, b)?,
            };
        }
        Ok(m)
    }

    #[cycle(expression)]
    fn called(
        &mut self,
        args: &[Expr],
        m: Meant,
        place: Place,
        tree: &FileTree,
        flow: Flow,
        b: &mut Body,
    ) -> Result<Meant, Stop>
        ensures stop { IfErr result MayStop }
    {
        match m.call(args.len()) {
            Call::Function {
                scope,
                name,
                object,
                place: own,
            } => {
                let f = self.callee(scope, name, own, tree)?;
                let given = self.arguments(args, f, 0, tree, flow, b)?;
                if args.len() != self.params_of(f).len() {
                    return refuse(Code::Mismatch, place);
                }
                self.lift(f, object, given, place, flow, b)
            }
            Call::Done { call, of } => Ok(Meant::Done { call, of }),
            Call::Range(of) => self.range(args, of, place, tree, b),
            Call::Method { method, of } => {
                Ok(Meant::Value(answered(self.alloc, method, of, place)?))
            }
            Call::Wrong => {
                self.any_of(args, tree, flow, b)?;
                refuse(Code::Mismatch, place)
            }
        }
    }

    /// Arguments that nothing takes, for their refusals: also texts and `new`, whose own arguments are taken so.
    #[cycle(expression)]
    pub fn any_of(
        &mut self,
        args: &[Expr],
        tree: &FileTree,
        flow: Flow,
        b: &mut Body,
    ) -> Result<(), Stop>
        ensures stop { IfErr result MayStop }
    {
        for e in args {
            match made_args(e) {
                Some(inner) => self.any_of(inner, tree, flow.deeper()?, b)?,
                None => drop(self.meant(e, tree, flow, b)?),
            }
        }
        Ok(())
    }

    /// Arguments for a signed function. The first `lead` of them are names of modules, for which it has no parameters.
    /// Arguments past the parameters are walked for their refusals; their number isn't looked at.
    #[cycle(expression)]
    pub fn arguments(
        &mut self,
        args: &[Expr],
        f: FunctionId,
        lead: usize,
        tree: &FileTree,
        flow: Flow,
        b: &mut Body,
    ) -> Result<List<PlainArg>, Stop>
        ensures stop { IfErr result MayStop }
    {
        let mut given = List::new(self.alloc);
        for (k, e) in args.iter().enumerate() {
            let Some(form) = self.param_form(f, lead, k) else {
                break;
            };
            given.push(self.argument(e, form, tree, flow, b)?)?;
        }
        let rest = args.get(given.len()..).ok_or(lost())?;
        self.any_of(rest, tree, flow, b)?;
        Ok(given)
    }

    /// An argument for a parameter of a form. It may be a text, or `new`, for which it is refused by E304 where no name of a
    /// module is wanted.
    #[cycle(expression)]
    pub fn argument(
        &mut self,
        e: &Expr,
        form: Form,
        tree: &FileTree,
        flow: Flow,
        b: &mut Body,
    ) -> Result<PlainArg, Stop>
        ensures stop { IfErr result MayStop }
    {
        if form.base == Base::ModuleName {
            if !is_text(e) && !self.meant(e, tree, flow, b)?.is_module_name() {
                return refuse(Code::Mismatch, e.place);
            }
            return Ok(PlainArg::ModuleName);
        }
        if let Some(inner) = made_args(e) {
            self.any_of(inner, tree, flow.deeper()?, b)?;
            return refuse(Code::Mismatch, e.place);
        }
        if form.reach != Reach::Direct {
            return Ok(PlainArg::Target(self.target(e, form, tree, flow, b)?));
        }
        let x = self.value(e, tree, flow, b)?;
        match form.base {
            Base::Number(kind) => Ok(PlainArg::Value(convert(self.alloc, x, kind)?.expr)),
            _ => refuse(Code::Mismatch, e.place),
        }
    }

    /// What a pointer or a reference of a form is given; E304 where it is of another type.
    #[cycle(expression)]
    pub fn target(
        &mut self,
        e: &Expr,
        form: Form,
        tree: &FileTree,
        flow: Flow,
        b: &mut Body,
    ) -> Result<PlainTarget, Stop>
        ensures stop { IfErr result MayStop }
    {
        let m = self.meant(e, tree, flow, b)?;
        if is_zero(e) && form.reach == Reach::Pointer {
            return Ok(PlainTarget::Null);
        }
        m.aimed(self.alloc, form, b.scope, e.place)
    }

    /// The value of a condition, a `bool`; E304 where it has none.
    pub fn test(
        &mut self,
        e: &Expr,
        tree: &FileTree,
        flow: Flow,
        b: &mut Body,
    ) -> Result<Draft, Stop>
        ensures stop { IfErr result MayStop }
    {
        let x = self.value(e, tree, flow, b)?;
        convert(self.alloc, x, Kind::Bool)
    }

    /// An argument that nothing takes, for its refusals: also a text or `new`, whose own arguments are taken so.
    pub fn any(&mut self, e: &Expr, tree: &FileTree, flow: Flow, b: &mut Body) -> Result<(), Stop>
        ensures stop { IfErr result MayStop }
    {
        match made_args(e) {
            Some(inner) => self.any_of(inner, tree, flow, b),
            None => {
                self.meant(e, tree, flow, b)?;
                Ok(())
            }
        }
    }
}

// The address of what a variable holds.
fn addressed(m: Meant, place: Place) -> Result<Meant, Stop>
    ensures stop { IfErr result MayStop }
    ensures is { (n : Classes) → SoundMeant m → Means n result (addressed place (meant_in n m)) }
{
    match m.loc() {
        Some(l) => address_of(l, place),
        None => refuse(Code::Mismatch, place),
    }
}

fn address_of(l: Loc, place: Place) -> Result<Meant, Stop>
    ensures stop { IfErr result MayStop }
    ensures is { (n : Classes) → SoundLoc l → Means n result (addressed place (Stands (loc_in n l))) }
{
    if l.form.dims != 0 {
        return refuse(Code::Mismatch, place);
    }
    if !is_all(&l) {
        return refuse(Code::Mismatch, place);
    }
    Ok(Meant::Address(l))
}

// An operator on a number.
fn computed(alloc: Global, m: Meant, op: UnaryOp, of: &Expr, place: Place) -> Result<Meant, Stop>
    ensures stop { IfErr result MayStop }
    ensures is { (n : Classes) (o : Owner) → is_pointing op ≡ false → SoundMeant m → place_of (tree_of of.now) ≡ of.now.place → Means n result (spec.unary place (tree_of of.now) op o (meant_in n m)) }
{
    match operator_on(op, of, &m) {
        Some(op) => {
            let x = m.value(alloc, of.place)?;
            operated(alloc, place, op, x)
        }
        None => refuse(Code::Mismatch, place),
    }
}

fn operated(alloc: Global, place: Place, op: Op, x: Draft) -> Result<Meant, Stop>
    ensures stop { IfErr result MayStop }
    ensures is { (n : Classes) → Sound x → Means n result (and_walk (spec_operate place op (draft_of x)) (λ y. pure (Valued y))) }
{
    Ok(Meant::Value(operate_one(alloc, place, op, x)?))
}
