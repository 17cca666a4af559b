//! What is known while a body is walked.
ghost use Rattle.std.specs.Prelude.{◌≡◌, ◌++◌, [], IfOk, OnOk, slice_get};
ghost use Rattle.scc_plain_bodies.specs.Rooms.{Declared};

use crate::function::FunctionId;
use scc_base::{List, Name, NoMemory, Place, lost, push};
use scc_bits::Kind;
use scc_plain_drafts::form::Form;
use scc_plain_tree::{PlainMember, PlainStmt, Shape};
use scc_templates::{Context, Given, InstanceId, Layers};
use scc_tree::FileTree;
use std::alloc::Global;
use std::mem::replace;

/// What is known while a body is walked.
#[derive(Drop)]
pub struct Body {
    alloc: Global,
    pub function: FunctionId,
    /// The instance of which it is a member function.
    pub scope: Option<InstanceId>,
    pub given: Given,
    pub result: Option<Kind>,
    /// Its local variables so far, the parameters first.
    pub locals: List<PlainMember>,
    forms: Vec<Form>,
    /// The names of the local variables that are known here. A scope is a `mark`, and `close` ends it.
    pub names: Layers,
    /// The calls of the statement in work, which stand before it.
    pub lifted: List<PlainStmt>,
    /// How many calls there were so far.
    pub calls: u32,
}

impl Body {
    pub(crate) fn new(
        alloc: Global,
        function: FunctionId,
        scope: Option<InstanceId>,
        given: Given,
        answer: Option<Kind>,
    ) -> Body {
        Body {
            alloc,
            function,
            scope,
            given,
            result: answer,
            locals: List::new(alloc),
            forms: Vec::new(alloc),
            names: Layers::new(alloc),
            lifted: List::new(alloc),
            calls: 0,
        }
    }

    /// Where its expressions stand.
    pub fn context<'a, 'b>(&'b self, tree: &'a FileTree) -> Context<'a, 'b> {
        Context {
            tree,
            scope: self.scope,
            given: self.given,
            locals: Some(&self.names),
        }
    }

    /// A further local variable that no name means: its number.
    pub fn declare_unnamed(
        &mut self,
        name: Name,
        place: Place,
        shape: Shape,
    ) -> Result<u32, NoMemory>
        ensures { IfOk result (λ n. Declared self.old self.new (record { name = name; place = place; shape = shape }) n) }
    {
        let form = Form::of(&shape)?;
        let n = u32::try_from(self.locals.len()).map_err(|_| lost())?;
        push(&mut self.forms, form)?;
        self.locals.push(PlainMember { name, place, shape })?;
        Ok(n)
    }

    /// A further local variable by its name: its number.
    pub fn declare(&mut self, name: Name, place: Place, shape: Shape) -> Result<u32, NoMemory>
        ensures { IfOk result (λ n. Declared self.old self.new (record { name = name; place = place; shape = shape }) n) }
    {
        let n = self.declare_unnamed(name, place, shape)?;
        self.names.set(name, Some(n))?;
        Ok(n)
    }

    /// What a local variable holds.
    pub fn form_of(&self, local: u32) -> Option<Form>
        ensures { result ≡ slice_get self.now.forms.items local }
    {
        self.forms.get(local as usize).copied()
    }

    /// Puts the calls of the statement in work after other statements.
    pub fn flush(&mut self, out: &mut List<PlainStmt>) -> Result<(), NoMemory>
        ensures out { OnOk result (out.new ≡ out.old ++ self.old.lifted) }
        ensures none { OnOk result (self.new.lifted ≡ []) }
        ensures locals { self.new.locals ≡ self.old.locals }
        ensures calls { self.new.calls ≡ self.old.calls }
    {
        if self.lifted.is_empty() {
            return Ok(());
        }
        let lifted = replace(&mut self.lifted, List::new(self.alloc));
        out.append(lifted)
    }
}
