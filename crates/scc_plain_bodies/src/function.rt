//! Functions, their parameters and their results, each worked out when it is first asked for.
ghost use Rattle.std.specs.Prelude.{◌≡◌, IfErr};
ghost use Rattle.scc_plain_bodies.specs.Walking.{result_kind};
ghost use Rattle.scc_plain_drafts.specs.Flows.{typed_in};
ghost use Rattle.scc_plain_drafts.specs.Forms.{Classes, form_in};
ghost use Rattle.scc_plain_drafts.specs.Refusals.{MayStop};
ghost use Rattle.scc_plain_spec.specs.Shapes.{may_be_param};
ghost use Rattle.scc_plain_spec.specs.Types.{kind_in};
ghost use Rattle.scc_plain_tree.specs.declared.program.Reach.TheVariants as reach;
ghost use Rattle.scc_templates_scopes.specs.Walks.{Gives};

use crate::body::Body;
use crate::walk::Walk;
use scc_base::{Code, List, NoMemory, Place, Stop, lost, push};
use scc_bits::Kind;
use scc_plain_drafts::form::{Form, base_of, number_kind, reach_of};
use scc_plain_drafts::refusal::refuse;
use scc_plain_tree::{Base, Reach, Shape};
use scc_templates::{BodyAt, Context, FunctionKey, TypeOf, function_at};
use scc_tree::{FileTree, FunctionTree, Prm};

/// The number of a function among those that were asked for, from 0 in that order.
#[derive(Clone, Copy, PartialEq, Eq, Hash)]
pub struct FunctionId(pub u32);

/// Parameters and the result.
#[derive(Drop)]
pub(crate) struct Signature {
    pub params: List<Form>,
    pub result: Option<Kind>,
}

/// A function that has a body.
#[derive(Drop)]
pub(crate) struct Function {
    pub key: FunctionKey,
    pub at: BodyAt,
    pub signature: Option<Signature>,
}

// Whether a function may have a parameter of a form: a number, what is lent, or the name of a module for its constructor.
fn may_be_param(form: Form, constructor: bool) -> bool
    ensures { (n : Classes) → result ≡ may_be_param constructor (form_in n form) }
{
    match form.reach {
        Reach::Direct => may_be_given(form, constructor),
        Reach::Pointer => true,
        Reach::Reference => true,
    }
}

fn may_be_given(form: Form, constructor: bool) -> bool
    ensures { (n : Classes) → form.reach ≡ reach.Direct → result ≡ may_be_param constructor (form_in n form) }
{
    match form.base {
        Base::Number(_) => !form.vector,
        Base::ModuleName => constructor,
        _ => false,
    }
}

// A result is a number's.
fn result_kind(t: TypeOf, place: Place) -> Result<Option<Kind>, Stop>
    ensures stop { IfErr result MayStop }
    ensures is { (n : Classes) → Gives (λ k. k) result (result_kind place (kind_in (typed_in n t))) }
{
    match number_kind(t) {
        Some(kind) => Ok(Some(kind)),
        None => refuse(Code::Mismatch, place), // E304
    }
}

impl Walk {
    /// The function of a key, None where the text has no body of it; `place` is where it is asked for. Refuses as the look-up of
    /// its body does, by E301, E303 to E308, E310, E311 and E314.
    pub fn function(
        &mut self,
        key: FunctionKey,
        place: Place,
        tree: &FileTree,
    ) -> Result<Option<FunctionId>, Stop>
        ensures stop { IfErr result MayStop }
    {
        if let Some(known) = self.found.get(&key) {
            return Ok(*known);
        }
        let cx = Context::outside(tree, key.scope);
        let found = match self.templates.function(&cx, key, place)? {
            Some(at) => Some(self.add(key, at)?),
            None => None,
        };
        self.keep_found(key, found)?;
        Ok(found)
    }

    fn keep_found(&mut self, key: FunctionKey, found: Option<FunctionId>) -> Result<(), NoMemory> {
        self.found.insert(key, found)?;
        Ok(())
    }

    fn add(&mut self, key: FunctionKey, at: BodyAt) -> Result<FunctionId, NoMemory> {
        let n = u32::try_from(self.functions.len()).map_err(|_| lost())?;
        let function = Function {
            key,
            at,
            signature: None,
        };
        push(&mut self.functions, function)?;
        Ok(FunctionId(n))
    }

    fn row(&self, f: FunctionId) -> Option<&Function> {
        self.functions.get(f.0 as usize)
    }

    fn signature(&self, f: FunctionId) -> Option<&Signature> {
        self.row(f)?.signature.as_ref()
    }

    /// How many functions were asked for.
    pub fn function_count(&self) -> usize {
        self.functions.len()
    }

    /// The key of a function, None exactly where no function has that number.
    pub fn key_of(&self, f: FunctionId) -> Option<FunctionKey> {
        Some(self.row(f)?.key)
    }

    /// The tree of a function's body.
    pub fn tree_of<'a>(&self, f: FunctionId, tree: &'a FileTree) -> Option<&'a FunctionTree> {
        let at = self.row(f)?.at;
        function_at(tree, &at)
    }

    /// What the parameters of a function hold, once it is signed.
    pub fn params_of(&self, f: FunctionId) -> &[Form] {
        match self.signature(f) {
            Some(signature) => signature.params.as_slice(),
            None => &[],
        }
    }

    /// The kind of a function's result, once it is signed.
    pub fn result_of(&self, f: FunctionId) -> Option<Kind> {
        self.signature(f)?.result
    }

    /// Works out a function's parameters and result (C++, [dcl.fct]). Refuses by E304 at the function's name or a
    /// parameter's, and as types do.
    pub fn sign(&mut self, f: FunctionId, tree: &FileTree) -> Result<(), Stop>
        ensures stop { IfErr result MayStop }
    {
        if self.signature(f).is_some() {
            return Ok(());
        }
        let row = self.row(f).ok_or(lost())?;
        let at = row.at;
        let cx = Context {
            tree,
            scope: row.key.scope,
            given: at.given,
            locals: None,
        };
        let of = function_at(tree, &at).ok_or(lost())?;
        let signature = self.signed(&cx, of)?;
        self.keep(f, signature)?;
        Ok(())
    }

    fn keep(&mut self, f: FunctionId, signature: Signature) -> Result<(), NoMemory> {
        let row = self.functions.get_mut(f.0 as usize).ok_or(lost())?;
        row.signature = Some(signature);
        Ok(())
    }

    fn signed<'t>(&mut self, cx: &Context<'t, '_>, f: &'t FunctionTree) -> Result<Signature, Stop>
        ensures stop { IfErr result MayStop }
    {
        let answer = self.result_in(cx, f)?;
        let mut params = List::new(self.alloc);
        for p in f.params.as_slice() {
            params.push(self.param_in(cx, p, f.constructor)?)?;
        }
        Ok(Signature {
            params,
            result: answer,
        })
    }

    fn result_in<'t>(
        &mut self,
        cx: &Context<'t, '_>,
        f: &'t FunctionTree,
    ) -> Result<Option<Kind>, Stop>
        ensures stop { IfErr result MayStop }
    {
        let Some(ty) = &f.result else {
            return Ok(None);
        };
        let t = self.templates.type_in(cx, ty)?;
        result_kind(t, f.place)
    }

    fn param_in<'t>(
        &mut self,
        cx: &Context<'t, '_>,
        p: &'t Prm,
        constructor: bool,
    ) -> Result<Form, Stop>
        ensures stop { IfErr result MayStop }
    {
        let t = self.templates.type_in(cx, &p.ty)?;
        let form = Form {
            base: base_of(t.base),
            reach: reach_of(p.hold),
            vector: t.vector,
            dims: 0,
        };
        if !may_be_param(form, constructor) {
            return refuse(Code::Mismatch, p.place);
        }
        Ok(form)
    }

    /// The state at the beginning of a function's body: its parameters are known by name. Signs the function, and refuses as
    /// `sign` does.
    pub fn open(&mut self, f: FunctionId, tree: &FileTree) -> Result<Body, Stop>
        ensures stop { IfErr result MayStop }
    {
        self.sign(f, tree)?;
        let of = self.tree_of(f, tree).ok_or(lost())?;
        Ok(self.opened(f, of)?)
    }

    fn opened(&self, f: FunctionId, of: &FunctionTree) -> Result<Body, NoMemory> {
        let row = self.row(f).ok_or(lost())?;
        let mut b = Body::new(
            self.alloc,
            f,
            row.key.scope,
            row.at.given,
            self.result_of(f),
        );
        let params = self.params_of(f);
        for (k, p) in of.params.as_slice().iter().enumerate() {
            let form = params.get(k).ok_or(lost())?;
            let shape = Shape {
                base: form.base,
                reach: form.reach,
                vector: form.vector,
                sizes: List::new(self.alloc),
            };
            b.declare(p.name, p.place, shape)?;
        }
        Ok(b)
    }
}
