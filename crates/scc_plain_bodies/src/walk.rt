//! What is known of a program while its bodies are walked.
ghost use Rattle.std.specs.Prelude.{◌≡◌, IfErr};
ghost use Rattle.scc_plain_spec.specs.Numbers.{small};
ghost use Rattle.scc_plain_spec.specs.Shapes.{size};
ghost use Rattle.scc_templates_scopes.specs.Walks.{Gives};
ghost use Rattle.scc_plain_drafts.specs.Refusals.{MayStop};

use crate::body::Body;
use crate::function::{Function, FunctionId};
use indexmap::IndexMap;
use scc_base::{Code, List, Name, NoMemory, Place, Stop, lost};
use scc_bits::Value;
use scc_plain_drafts::form::{Form, base_of, reach_of};
use scc_plain_drafts::refusal::refuse;
use scc_plain_tree::Shape;
use scc_templates::{Context, Found, FunctionKey, InstanceId, Templates, TypeOf};
use scc_tree::{Decl, Expr, FileTree, Ty};
use std::alloc::Global;

/// What object a called function works on.
#[derive(Clone, Copy, PartialEq, Eq)]
pub enum CallOn {
    /// A written one, or none as the function is no member of a class.
    Other,
    /// That of the calling function.
    Own,
    /// None, though it is a member function of another class.
    Class,
}

/// What later looks want to know of bodies, in the order in which they are walked.
#[derive(Clone, Copy, PartialEq, Eq)]
pub enum Note {
    /// A function uses its object.
    This(FunctionId),
    Call {
        from: FunctionId,
        to: FunctionId,
        on: CallOn,
        place: Place,
    },
}

// A member variable of an instance.
#[derive(Clone, Copy, PartialEq, Eq, Hash)]
struct FieldKey {
    instance: InstanceId,
    field: usize,
}

/// What is known of a program while its bodies are walked.
#[derive(Drop)]
pub struct Walk {
    pub alloc: Global,
    pub templates: Templates,
    pub(crate) functions: Vec<Function>,
    pub(crate) found: IndexMap<FunctionKey, Option<FunctionId>>,
    fields: IndexMap<FieldKey, Form>,
    pub notes: List<Note>,
    /// The first call that stands where none may (E313).
    pub late: Option<Place>,
    /// The numbers of functions in the program, by `FunctionId`; empty while they aren't known.
    pub numbers: List<u32>,
}

// The size that a number is.
fn size_of(v: Value, place: Place) -> Result<u32, Stop>
    ensures stop { IfErr result MayStop }
    ensures is { Gives (λ n. n) result (size place v) }
{
    let Some(n) = small_of(v) else {
        return refuse(Code::Width, place); // E303
    };
    if n < 1 {
        return refuse(Code::Width, place);
    }
    if MOST < n {
        return refuse(Code::Width, place);
    }
    Ok(n)
}

fn small_of(v: Value) -> Option<u32>
    ensures { result ≡ small v }
{
    v.small()
}

/// The most elements of an array (this project's profile).
const MOST: u32 = 65_536;

impl Walk {
    /// Nothing is known but the declarations. Each later call wants the same tree.
    pub fn new(alloc: Global, tree: &FileTree) -> Result<Walk, NoMemory> {
        let templates = Templates::new(alloc, tree)?;
        Ok(Walk {
            alloc,
            templates,
            functions: Vec::new(alloc),
            found: IndexMap::new(alloc),
            fields: IndexMap::new(alloc),
            notes: List::new(alloc),
            late: None,
            numbers: List::new(alloc),
        })
    }

    /// The number of a function in the program; 0 while none is known.
    pub fn number_of(&self, f: FunctionId) -> Result<u32, NoMemory> {
        if self.numbers.is_empty() {
            return Ok(0);
        }
        self.numbers.get(f.0 as usize).copied().ok_or(lost())
    }

    /// What a name means in a body.
    pub fn look_up(&self, name: Name, tree: &FileTree, b: &Body) -> Option<Found> {
        self.templates.look_up(&b.context(tree), name)
    }

    /// The type that stands in a body. Refuses by E301, E303 to E308, E310, E311 and E314.
    pub fn type_of(&mut self, ty: &Ty, tree: &FileTree, b: &Body) -> Result<TypeOf, Stop>
        ensures stop { IfErr result MayStop }
    {
        self.templates.type_in(&b.context(tree), ty)
    }

    /// The value of a constant expression in a body. Refuses as `type_of`.
    pub fn constant(&mut self, e: &Expr, tree: &FileTree, b: &Body) -> Result<Value, Stop>
        ensures stop { IfErr result MayStop }
    {
        self.templates.constant_in(&b.context(tree), e)
    }

    // A size of an array.
    fn size_in<'t>(&mut self, cx: &Context<'t, '_>, e: &'t Expr) -> Result<u32, Stop>
        ensures stop { IfErr result MayStop }
    {
        let v = self.templates.constant_in(cx, e)?;
        size_of(v, e.place)
    }

    fn shape_in<'t>(
        &mut self,
        cx: &Context<'t, '_>,
        ty: &'t Ty,
        decl: &'t Decl,
    ) -> Result<Shape, Stop>
        ensures stop { IfErr result MayStop }
    {
        let t = self.templates.type_in(cx, ty)?;
        let mut sizes = List::new(self.alloc);
        for e in decl.sizes.as_slice() {
            sizes.push(self.size_in(cx, e)?)?;
        }
        Ok(Shape {
            base: base_of(t.base),
            reach: reach_of(decl.hold),
            vector: t.vector,
            sizes,
        })
    }

    /// The shape of a local variable. Refuses by E303 at a size, and as types and constants do.
    pub fn shape_of(
        &mut self,
        ty: &Ty,
        decl: &Decl,
        tree: &FileTree,
        b: &Body,
    ) -> Result<Shape, Stop>
        ensures stop { IfErr result MayStop }
    {
        self.shape_in(&b.context(tree), ty, decl)
    }

    /// The shape of the member variable of that number of an instance. Refuses as `shape_of`.
    pub fn field_shape(
        &mut self,
        i: InstanceId,
        field: usize,
        tree: &FileTree,
    ) -> Result<Shape, Stop>
        ensures stop { IfErr result MayStop }
    {
        let class = self.templates.body(tree, i).ok_or(lost())?;
        let field = class.fields.get(field).ok_or(lost())?;
        let cx = Context::outside(tree, Some(i));
        self.shape_in(&cx, &field.ty, &field.decl)
    }

    /// The same but for the sizes of its arrays; worked out once.
    pub fn field_form(&mut self, i: InstanceId, field: usize, tree: &FileTree) -> Result<Form, Stop>
        ensures stop { IfErr result MayStop }
    {
        let key = FieldKey { instance: i, field };
        if let Some(form) = self.fields.get(&key) {
            return Ok(*form);
        }
        let shape = self.field_shape(i, field, tree)?;
        let form = Form::of(&shape)?;
        self.keep_form(key, form)?;
        Ok(form)
    }

    fn keep_form(&mut self, key: FieldKey, form: Form) -> Result<(), NoMemory> {
        self.fields.insert(key, form)?;
        Ok(())
    }
}
