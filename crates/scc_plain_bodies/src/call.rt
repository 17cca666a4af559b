//! Calls (C++, [expr.call]). A call of a function is lifted: it becomes a statement before the one that it stands in.
ghost use Rattle.std.specs.Prelude.{◌≡◌, IfErr, IfOk};
ghost use Rattle.scc_plain_bodies.specs.Rooms.{Lifted, call_stmt};
ghost use Rattle.scc_plain_drafts.specs.Refusals.{MayStop};

use crate::body::Body;
use crate::function::FunctionId;
use crate::walk::{CallOn, Note, Walk};
use scc_base::{Code, List, Name, NoMemory, Place, Stop, lost};
use scc_plain_drafts::draft::load;
use scc_plain_drafts::flow::Flow;
use scc_plain_drafts::form::Form;
use scc_plain_drafts::meant::{Meant, Subject};
use scc_plain_drafts::pick::ranged;
use scc_plain_drafts::refusal::{gone, refuse};
use scc_plain_tree::{Base, PlainArg, PlainBase, PlainLeft, PlainNode, PlainStmt};
use scc_templates::{FunctionKey, InstanceId};
use scc_tree::{Expr, FileTree};

impl Walk {
    /// The function that is called, with its parameters known. Refuses by E301 at the name where it has no body.
    pub(crate) fn callee(
        &mut self,
        scope: Option<InstanceId>,
        name: Name,
        own: Place,
        tree: &FileTree,
    ) -> Result<FunctionId, Stop>
        ensures stop { IfErr result MayStop }
    {
        let key = FunctionKey {
            scope,
            name,
            constructor: false,
        };
        let Some(f) = self.function(key, own, tree)? else {
            return refuse(Code::UnknownName, own); // E301
        };
        self.sign(f, tree)?;
        Ok(f)
    }

    /// What the parameter for an argument holds; the first `lead` arguments are names of modules.
    pub(crate) fn param_form(&self, f: FunctionId, lead: usize, k: usize) -> Option<Form> {
        if k < lead {
            return Some(Form::direct(Base::ModuleName));
        }
        self.params_of(f).get(k - lead).copied()
    }

    fn note_call(
        &mut self,
        f: FunctionId,
        has_object: bool,
        place: Place,
        flow: Flow,
        b: &Body,
    ) -> Result<(), NoMemory> {
        if flow.forbidden && self.late.is_none() {
            self.late = Some(place);
        }
        let key = self.key_of(f).ok_or(lost())?;
        let on = if has_object || key.scope.is_none() {
            CallOn::Other
        } else if key.scope == b.scope {
            CallOn::Own
        } else {
            CallOn::Class
        };
        self.notes.push(Note::Call {
            from: b.function,
            to: f,
            on,
            place,
        })
    }

    /// Puts a call before the statement in work: its result. Refuses by E304 where it has another count of arguments.
    pub(crate) fn lift(
        &mut self,
        f: FunctionId,
        object: Option<PlainLeft>,
        args: List<PlainArg>,
        place: Place,
        flow: Flow,
        b: &mut Body,
    ) -> Result<Meant, Stop>
        ensures stop { IfErr result MayStop }
    {
        self.note_call(f, object.is_some(), place, flow, b)?;
        let function = self.number_of(f)?;
        let number = b.lift(function, object, args, place)?;
        match self.result_of(f) {
            Some(kind) => {
                let left = PlainLeft::new(self.alloc, place, PlainBase::Answer(number));
                Ok(Meant::Value(load(self.alloc, place, kind, left)?))
            }
            None => Ok(Meant::Void),
        }
    }

    /// A range of bits between two constants. Refuses by E304, E312, and as constants do.
    pub(crate) fn range(
        &mut self,
        args: &[Expr],
        of: Subject,
        place: Place,
        tree: &FileTree,
        b: &Body,
    ) -> Result<Meant, Stop>
        ensures stop { IfErr result MayStop }
    {
        let [h, l] = args else {
            return gone();
        };
        let h = self.constant(h, tree, b)?.small();
        let l = self.constant(l, tree, b)?.small();
        ranged(self.alloc, of, h, l, place)
    }
}

impl Body {
    // A further call: its number.
    fn lift(
        &mut self,
        function: u32,
        object: Option<PlainLeft>,
        args: List<PlainArg>,
        place: Place,
    ) -> Result<u32, NoMemory>
        ensures { IfOk result (λ n. Lifted self.old self.new (call_stmt place n function object args) n) }
    {
        let number = self.calls;
        let node = PlainNode::Call {
            number,
            function,
            object,
            args,
        };
        self.lifted.push(PlainStmt { place, node })?;
        self.calls = number.checked_add(1).ok_or(lost())?;
        Ok(number)
    }
}
