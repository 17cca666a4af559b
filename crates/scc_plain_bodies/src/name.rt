//! Names, `this`, members and pointers.
ghost use Rattle.std.specs.Prelude.{◌≡◌, ◌++◌, ◌∷◌, [], IfErr, IfOk, None, OnOk};
ghost use Rattle.scc_elab_spec.specs.Term.{Local, Whole};
ghost use Rattle.scc_plain_view.specs.Terms.{taken_of};
ghost use Rattle.scc_plain_bodies.specs.Rooms.{IsFormed, room_in};
ghost use Rattle.scc_plain_bodies.specs.Walking.{IsLocal, Noted, built};
ghost use Rattle.scc_plain_bodies.specs.declared.function.FunctionId.{FunctionId};
ghost use Rattle.scc_plain_bodies.specs.declared.walk.Note.TheVariants as note;
ghost use Rattle.scc_plain_drafts.specs.Forms.{Classes, SoundSubject, subject_in};
ghost use Rattle.scc_plain_drafts.specs.Meaning.{owner_in};
ghost use Rattle.scc_plain_drafts.specs.Picks.{Means};
ghost use Rattle.scc_plain_drafts.specs.Refusals.{MayStop};
ghost use Rattle.scc_plain_spec.specs.Room.{local_form};
ghost use Rattle.scc_plain_spec.specs.Things as spec;
ghost use Rattle.scc_templates_spec.specs.Walk.{Callee};

use crate::body::Body;
use crate::walk::{Note, Walk};
use scc_base::{Code, Name, NoMemory, Place, Stop, lost};
use scc_plain_drafts::draft::literal;
use scc_plain_drafts::form::Loc;
use scc_plain_drafts::meant::{Meant, Subject};
use scc_plain_drafts::pick::method_of;
use scc_plain_drafts::refusal::refuse;
use scc_plain_drafts::target::at_base;
use scc_plain_tree::{Base, PlainBase, PlainLeft, PlainPart};
use scc_templates as templates;
use scc_templates::{Entry, Found, InstanceId};
use scc_tree::{FileTree, Ty};
use std::alloc::Global;

impl Walk {
    /// Notes that a body uses its object.
    pub fn note_this(&mut self, b: &Body) -> Result<(), NoMemory>
        ensures { OnOk result (self.new.notes ≡ self.old.notes ++ note.This b.now.function ∷ []) }
    {
        self.notes.push(Note::This(b.function))
    }

    /// `this`.
    pub(crate) fn this(&mut self, place: Place, b: &Body) -> Result<Meant, Stop>
        ensures stop { IfErr result MayStop }
        ensures is { (n : Classes) (key : FunctionId → Callee) → Noted n key self.old.notes self.new.notes result (spec.this place (owner_in n b.now.scope)) }
    {
        if b.scope.is_none() {
            return refuse(Code::Mismatch, place); // E304
        }
        self.note_this(b)?;
        Ok(Meant::This)
    }

    /// What a name means.
    pub(crate) fn named(
        &mut self,
        name: Name,
        place: Place,
        tree: &FileTree,
        b: &Body,
    ) -> Result<Meant, Stop>
        ensures stop { IfErr result MayStop }
    {
        match self.look_up(name, tree, b) {
            Some(found) => self.declared(found, name, place, None, tree, b),
            None => refuse(Code::UnknownName, place), // E301
        }
    }

    /// What `ty::name` means.
    pub(crate) fn scoped(
        &mut self,
        ty: &Ty,
        name: Name,
        place: Place,
        tree: &FileTree,
        b: &Body,
    ) -> Result<Meant, Stop>
        ensures stop { IfErr result MayStop }
    {
        let t = self.type_of(ty, tree, b)?;
        let found = match t.base {
            templates::Base::Class(i) if !t.vector => self.templates.scoped(i, name),
            _ => None,
        };
        match found {
            Some(found) => self.declared(found, name, place, None, tree, b),
            None => refuse(Code::UnknownName, place),
        }
    }

    // What a declaration means; `object` is None where none is written.
    fn declared(
        &mut self,
        found: Found,
        name: Name,
        place: Place,
        object: Option<PlainLeft>,
        tree: &FileTree,
        b: &Body,
    ) -> Result<Meant, Stop>
        ensures stop { IfErr result MayStop }
    {
        match found.entry {
            Entry::Local(n) => Ok(Meant::Loc(self.local(n, place, b)?)),
            Entry::Field(k) => {
                let i = found.scope.ok_or(lost())?;
                Ok(Meant::Loc(self.field(i, k, place, object, tree, b)?))
            }
            Entry::Function => Ok(Meant::Function {
                scope: found.scope,
                name,
                object,
                place,
            }),
            Entry::Argument(_)
            | Entry::Constant { .. }
            | Entry::Enumerator { .. }
            | Entry::Class { .. }
            | Entry::Alias { .. }
            | Entry::Numbers => self.known(&found, place, tree, b),
        }
    }

    // The value of a declaration that isn't one of a variable.
    fn known(
        &mut self,
        found: &Found,
        place: Place,
        tree: &FileTree,
        b: &Body,
    ) -> Result<Meant, Stop>
        ensures stop { IfErr result MayStop }
    {
        let v = self.templates.value_of(&b.context(tree), found, place)?;
        Ok(Meant::Value(literal(self.alloc, place, v)?))
    }

    fn local(&self, n: u32, place: Place, b: &Body) -> Result<Loc, NoMemory>
        ensures { IfOk result (λ l. (m : Classes) → IsFormed b.now → IsLocal m l (spec.local_at place n (local_form (room_in m b.now) n))) }
    {
        match b.form_of(n) {
            Some(form) => Ok(Loc::new(local_at(self.alloc, place, n), form)),
            None => Err(lost()),
        }
    }

    // A member variable of an object, or of the body's own.
    fn field(
        &mut self,
        i: InstanceId,
        k: usize,
        place: Place,
        object: Option<PlainLeft>,
        tree: &FileTree,
        b: &Body,
    ) -> Result<Loc, Stop>
        ensures stop { IfErr result MayStop }
    {
        let form = self.field_form(i, k, tree)?;
        let mut left = match object {
            Some(left) => left,
            None => self.own_object(i, place, b)?,
        };
        let member = u32::try_from(k).map_err(|_| lost())?;
        left.parts.push(PlainPart::Member(member))?;
        Ok(Loc::new(left, form))
    }

    // The object whose member a bare name is.
    fn own_object(&mut self, i: InstanceId, place: Place, b: &Body) -> Result<PlainLeft, Stop>
        ensures stop { IfErr result MayStop }
    {
        if b.scope != Some(i) {
            return refuse(Code::Mismatch, place);
        }
        self.note_this(b)?;
        Ok(PlainLeft::new(self.alloc, place, PlainBase::This))
    }

    /// `m->name`. Refuses as `dot`.
    pub(crate) fn arrow(
        &mut self,
        m: Meant,
        name: Name,
        own: Place,
        place: Place,
        tree: &FileTree,
        b: &Body,
    ) -> Result<Meant, Stop>
        ensures stop { IfErr result MayStop }
    {
        if let Meant::Address(_) = &m {
            return refuse(Code::Mismatch, place);
        }
        let l = m.followed(self.alloc, b.scope, place)?;
        self.dot(Meant::Loc(l), name, own, place, tree, b)
    }

    /// `m.name`: a member of an object, or the name of a call of the language. Refuses by E301 at the name and by E304 at the
    /// expression.
    pub(crate) fn dot(
        &mut self,
        m: Meant,
        name: Name,
        own: Place,
        place: Place,
        tree: &FileTree,
        b: &Body,
    ) -> Result<Meant, Stop>
        ensures stop { IfErr result MayStop }
    {
        match m.subject() {
            Some(Subject::Value(x)) => built(Subject::Value(x), name, own),
            Some(Subject::Loc(l)) => {
                if !l.form.is_whole() || l.form.base == Base::ModuleName {
                    return refuse(Code::Mismatch, place);
                }
                match l.form.base {
                    Base::Class(i) => self.member(InstanceId(i), l.left, name, own, tree, b),
                    _ => built(Subject::Loc(l), name, own),
                }
            }
            None => refuse(Code::Mismatch, place),
        }
    }

    // A member of an object.
    fn member(
        &mut self,
        i: InstanceId,
        object: PlainLeft,
        name: Name,
        own: Place,
        tree: &FileTree,
        b: &Body,
    ) -> Result<Meant, Stop>
        ensures stop { IfErr result MayStop }
    {
        match self.templates.member(i, name) {
            Some(found) => self.declared(found, name, own, Some(object), tree, b),
            None => refuse(Code::UnknownName, own),
        }
    }
}

// A local variable by itself.
fn local_at(alloc: Global, place: Place, n: u32) -> PlainLeft
    ensures { taken_of result ≡ record { left = Local place n; pick = Whole; of = None } }
{
    at_base(alloc, place, PlainBase::Local(n))
}

// The name of a call of the language.
fn built(of: Subject, name: Name, own: Place) -> Result<Meant, Stop>
    ensures stop { IfErr result MayStop }
    ensures is { (n : Classes) → SoundSubject of → Means n result (built own name.0 (subject_in n of)) }
{
    match method_of(name) {
        Some(method) => Ok(Meant::Built { method, of }),
        None => refuse(Code::UnknownName, own),
    }
}
