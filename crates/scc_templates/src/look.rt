//! Look-ups (C++, [basic.lookup]).
ghost use Rattle.std.specs.Prelude.{◌≡◌, None, Option, Some, option_map, option_and_then, true, if◌then◌else◌};
ghost use Rattle.scc_templates_spec.specs.Source.{Source};
ghost use Rattle.scc_plain_spec.specs.Names.{Entry as Named, file_names, meaning_in};
ghost use Rattle.scc_plain_spec.specs.Scope.{Body};
ghost use Rattle.scc_templates_scopes.specs.Indexed.{IsIndex, held, param_says, says};
ghost use Rattle.scc_templates_scopes.specs.Layered.{known_in};
ghost use Rattle.scc_templates.specs.Sessions.{Counts, IsOpen, Stands, arg_of, bound_in, class_item, declared, early, given_arg, item_of, member_of, nearest, objects, own_names, owner_in, scoped_sight, sight, sight_in};

use crate::session::Templates;
use crate::task::Scope;
use scc_base::Name;
use scc_templates_scopes::entry::{Context, Entry, Found, Given};
use scc_templates_scopes::ty::{Arg, InstanceId};

fn of_file(entry: Entry) -> Found
    ensures { result ≡ record { scope = None; entry = entry } }
{
    Found { scope: None, entry }
}

fn of_instance(i: InstanceId, entry: Entry) -> Found
    ensures { result ≡ record { scope = Some i; entry = entry } }
{
    Found {
        scope: Some(i),
        entry,
    }
}

/// Where a context stands.
pub(crate) fn scope_of(cx: &Context) -> Scope
    ensures { result ≡ record { instance = cx.now.scope; given = cx.now.given; inside = true } }
{
    Scope {
        instance: cx.scope,
        given: cx.given,
        inside: true,
    }
}

fn local(cx: &Context, at: Scope, name: Name) -> Option<u32>
    ensures { result ≡ (if at.inside then option_and_then (λ l. known_in l.now name.0) cx.now.locals else None) }
{
    if !at.inside {
        return None;
    }
    match cx.locals {
        Some(locals) => locals.get(name),
        None => None,
    }
}

impl Templates {
    fn declared_in(&self, i: InstanceId, name: Name) -> Option<Entry>
        ensures { result ≡ option_and_then (λ n. option_map held (says self.now.index (Some n) name.0)) (item_of self.now i.0) }
    {
        let class = self.body_class(i)?;
        self.index.in_class(class, name)
    }

    // The argument of a parameter of the class body that counts; a specialisation has none.
    fn own(&self, i: InstanceId, name: Name) -> Option<Arg>
        ensures { result ≡ option_and_then (λ n. option_and_then (λ k. arg_of self.now.table i.0 k) (param_says self.now.index n name.0)) (item_of self.now i.0) }
    {
        let class = self.body_class(i)?;
        let at = self.index.param(class, name)?;
        self.table.argument(i, at)
    }

    // The argument of a parameter that is known in a scope.
    fn argument_named(&self, at: Scope, name: Name) -> Option<Arg>
        ensures { result ≡ given_arg self.now at.instance at.given name.0 }
    {
        match at.given {
            Given::Nothing => None,
            Given::Own => self.own(at.instance?, name),
            Given::Outside(item) => {
                let n = self.index.param(item, name)?;
                self.table.argument(at.instance?, n)
            }
            Given::Earlier { class, base, count } => {
                let n = self.index.param(class, name)?;
                if count <= n {
                    return None;
                }
                self.early(base, n)
            }
        }
    }

    // An argument that a running class use has so far.
    fn early(&self, base: usize, n: usize) -> Option<Arg>
        ensures { result ≡ early self.now base n }
    {
        match base.checked_add(n) {
            Some(at) => self.args.get(at).copied(),
            None => None,
        }
    }

    // What the class body of a scope declares.
    fn declared_at(&self, instance: Option<InstanceId>, name: Name) -> Option<Found>
        ensures { result ≡ declared self.now instance name.0 }
    {
        let i = instance?;
        match self.declared_in(i, name) {
            Some(entry) => Some(of_instance(i, entry)),
            None => None,
        }
    }

    /// What a name means in a scope: the nearest declaration counts.
    pub(crate) fn look(&self, cx: &Context, at: Scope, name: Name) -> Option<Found>
        ensures { result ≡ nearest (if at.inside then option_and_then (λ l. known_in l.now name.0) cx.now.locals else None) (declared self.now at.instance name.0) (given_arg self.now at.instance at.given name.0) (option_map held (says self.now.index None name.0)) }
    {
        match local(cx, at, name) {
            Some(n) => Some(of_file(Entry::Local(n))),
            None => self.look_outside(at, name),
        }
    }

    // The same where no local variable is meant.
    fn look_outside(&self, at: Scope, name: Name) -> Option<Found>
        ensures { result ≡ nearest None (declared self.now at.instance name.0) (given_arg self.now at.instance at.given name.0) (option_map held (says self.now.index None name.0)) }
    {
        match self.declared_at(at.instance, name) {
            Some(found) => Some(found),
            None => self.look_beyond(at, name),
        }
    }

    // The same where the class body declares nothing.
    fn look_beyond(&self, at: Scope, name: Name) -> Option<Found>
        ensures { result ≡ nearest None None (given_arg self.now at.instance at.given name.0) (option_map held (says self.now.index None name.0)) }
    {
        match self.argument_named(at, name) {
            Some(arg) => Some(of_file(Entry::Argument(arg))),
            None => match self.index.in_file(name) {
                Some(entry) => Some(of_file(entry)),
                None => None,
            },
        }
    }

    /// What a name means in a context: the nearest declaration counts.
    pub fn look_up(&self, cx: &Context, name: Name) -> Option<Found>
        ensures { (s : Source) (b : Option Body) → IsIndex self.now.index s → Stands self.now s cx.now.scope b → IsOpen s cx.now.given
            → option_map (λ f. sight_in (objects self.now.table) f) result ≡ sight s (option_and_then (λ l. known_in l.now name.0) cx.now.locals) (owner_in (objects self.now.table) cx.now.scope) (own_names b) (bound_in self.now s cx.now.scope b cx.now.given) name.0 }
    {
        self.look(cx, scope_of(cx), name)
    }

    /// What an instance declares by a name.
    pub fn member(&self, i: InstanceId, name: Name) -> Option<Found>
        ensures { (s : Source) (b : Body) → IsIndex self.now.index s → Counts self.now s i.0 b → result ≡ member_of i b name.0 }
    {
        match self.declared_in(i, name) {
            Some(entry) => Some(of_instance(i, entry)),
            None => None,
        }
    }

    /// What `X::name` means, X being an instance.
    pub fn scoped(&self, i: InstanceId, name: Name) -> Option<Found>
        ensures { (s : Source) (b : Body) → IsIndex self.now.index s → Counts self.now s i.0 b → option_map (λ f. sight_in (objects self.now.table) f) result ≡ scoped_sight (owner_in (objects self.now.table) (Some i)) b name.0 }
    {
        match self.declared_in(i, name) {
            Some(entry) => Some(of_instance(i, entry)),
            None => match self.own(i, name) {
                Some(arg) => Some(of_file(Entry::Argument(arg))),
                None => None,
            },
        }
    }

    /// The class that the file declares by a name: the number of its item.
    pub fn file_class(&self, name: Name) -> Option<usize>
        ensures { (s : Source) → IsIndex self.now.index s → result ≡ class_item (meaning_in (file_names s) name.0) }
    {
        class_named(self.index.in_file(name)?)
    }
}

// The item of a class.
fn class_named(entry: Entry) -> Option<usize>
    ensures { (e : Named) → entry ≡ held e → result ≡ class_item (Some e) }
{
    match entry {
        Entry::Class { item } => Some(item),
        _ => None,
    }
}
