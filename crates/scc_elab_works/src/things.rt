//! Things are made that are no objects of classes, and parameters take their arguments.
ghost use Rattle.std.specs.Prelude.{◌≡◌, ◌∷◌, [], length, map, option_and_then, is_some, IfOk, OnOk};
ghost use Rattle.scc_elab_grown.specs.Grown.{Grows, grown_of};
ghost use Rattle.scc_elab_grown.specs.Objects.{node_of};
ghost use Rattle.scc_elab_works.specs.Given.{args_at, variable_made};
ghost use Rattle.scc_elab_spec.specs.Design.{Port};
ghost use Rattle.scc_elab_works.specs.Works.{at_in, site_at};
ghost use Rattle.scc_elab_spec.specs.Grown.{added, at_path, node_of as node_in, thing_at, variable_kind, with_word};
ghost use Rattle.scc_elab_spec.specs.Made.{built, last_word as last_word_of, made_one, params_given, word_if};
ghost use Rattle.scc_elab_spec.specs.Worth.{at_now, given as given_by};
ghost use Rattle.scc_elab_store.specs.Locations.{location_of, part_of};
ghost use Rattle.scc_elab_worth.specs.Arguments.{given_in, IsGiven};
ghost use Rattle.scc_plain_view.specs.Codes.{base_of};
ghost use Rattle.scc_plain_view.specs.Plains.{member_of, plain_of};
ghost use Rattle.scc_plain_view.specs.Terms.{argument_of};

use crate::works::Args;
use scc_base::{NoMemory, Place, Stop, lost};
use scc_bits::Kind;
use scc_elab_grown::{Grown, Node};
use scc_elab_statements::{Frame, given};
use scc_elab_store::{Location, Part};
use scc_elab_worth::{Given, pass};
use scc_plain_tree::{Base, Plain, PlainMember};
use std::alloc::Global;

/// The arguments, in the constructor in which they stand. Refused as E404 and E405.
pub fn given_at(p: &Plain, args: &Args, g: &Grown) -> Result<Vec<Given>, Stop>
    ensures { IsGiven (λ v. v.items) result (args_at (plain_of p.now) args.now (grown_of g.now)) }
{
    match args.at.function {
        Some(function) => given(
            &Frame {
                plain: p,
                function,
                object: args.at.object,
                path: args.at.path.as_slice(),
            },
            g,
            args.list,
        ),
        None => match args.list {
            [] => Ok(Vec::new(g.alloc)),
            _ => Err(Stop::from(lost())),
        },
    }
}

/// The first so many locals of an object's constructor take its arguments in order.
#[tactic(auto, using(crate::proofs::Params::params_whole))]
pub fn pass_all(
    g: &mut Grown,
    object: u32,
    params: u32,
    locals: &[PlainMember],
    list: &[Given],
) -> Result<(), NoMemory>
    ensures { OnOk result (grown_of g.new ≡ params_given object 0 params (map member_of locals.now) (map given_in list.now) (grown_of g.old)) }
{
    pass(g.alloc, &mut g.store, object, params, locals, list)
}

fn word_of(x: &Given) -> u128
    ensures { result ≡ last_word_of (given_in x.now ∷ []) }
{
    match x {
        Given::Word(word) => *word,
        Given::Leads(_) => 0,
    }
}

/// The last argument as a word; 0 where it is none.
pub fn last_word(list: &[Given]) -> u128
    ensures { result ≡ last_word_of (map given_in list.now) }
{
    match list {
        [] => 0,
        [x] => word_of(x),
        [_first, rest @ ..] => last_word(rest),
    }
}

// Whether a variable stands at a location.
fn is_variable(g: &Grown, at: &Location) -> bool
    ensures { result ≡ is_some (variable_kind (option_and_then (node_in (grown_of g.now)) (thing_at (grown_of g.now) (location_of at.now)))) }
{
    match g.thing(at) {
        Some(number) => match g.node(number) {
            Some(Node::Variable(_)) => true,
            Some(Node::Class(_)) => false,
            Some(Node::Port { .. }) => false,
            Some(Node::Signal(_)) => false,
            Some(Node::Pointer) => false,
            None => false,
        },
        None => false,
    }
}

// The variable that stands there takes the last argument, if any.
fn fill(g: &mut Grown, at: Location, list: &[Given]) -> Result<(), NoMemory>
    ensures { OnOk result (grown_of g.new ≡ word_if (map given_in list.now) (location_of at) (grown_of g.old)) }
{
    match list {
        [] => Ok(()),
        [_first, _rest @ ..] => {
            if is_variable(g, &at) {
                g.put_word(at, last_word(list))
            } else {
                Ok(())
            }
        }
    }
}

fn begin_word(g: &mut Grown, path: &[Part], list: &[Given]) -> Result<(), NoMemory>
    ensures { OnOk result (grown_of g.new ≡ word_if (map given_in list.now) (at_path (map part_of path.now)) (with_word (grown_of g.old) (at_path (map part_of path.now)) 0)) }
{
    let at = Location::below(g.alloc, path)?;
    g.put_word(at, 0)?;
    let at = Location::below(g.alloc, path)?;
    fill(g, at, list)
}

/// The same path.
pub fn copied(alloc: Global, path: &[Part]) -> Result<Vec<Part>, NoMemory>
    ensures { IfOk result (λ v. v.items ≡ path.now) }
{
    Ok(Vec::from_slice(alloc, path)?)
}

/// Makes an object at a path. Refused as E410 and E411.
pub fn add_at(g: &mut Grown, path: &[Part], place: Place, node: Node) -> Result<(), Stop>
    ensures { Grows result (grown_of g.new) (added (grown_of g.old) (map part_of path.now) place (node_of node)) }
{
    let own = copied(g.alloc, path)?;
    g.add(own, place, node)
}

// A variable takes the last argument, if any.
fn make_variable(
    p: &Plain,
    g: &mut Grown,
    path: &[Part],
    place: Place,
    kind: Kind,
    args: &Args,
) -> Result<(), Stop>
    ensures { Grows result (grown_of g.new) (variable_made (grown_of g.old) (map part_of path.now) place kind (args_at (plain_of p.now) args.now)) }
{
    match add_at(g, path, place, Node::Variable(kind)) {
        Ok(()) => match given_at(p, args, g) {
            Ok(list) => Ok(begin_word(g, path, list.as_slice())?),
            Err(stop) => Err(stop),
        },
        Err(stop) => Err(stop),
    }
}

fn count(g: &Grown) -> u32
    ensures { result ≡ length g.now.objects }
{
    g.objects.as_slice().len() as u32
}

// A port is its own root at first.
fn add_port(
    g: &mut Grown,
    path: &[Part],
    place: Place,
    kind: Kind,
    output: bool,
) -> Result<(), Stop>
    ensures { Grows result (grown_of g.new) (added (grown_of g.old) (map part_of path.now) place (Port kind output (length (grown_of g.old).objects))) }
{
    let root = count(g);
    add_at(g, path, place, Node::Port { kind, output, root })
}

/// Makes one thing of a base that is no class. Refused as E404, E405, E410 and E411.
pub fn make_thing(
    p: &Plain,
    g: &mut Grown,
    path: &[Part],
    place: Place,
    base: Base,
    args: &Args,
) -> Result<(), Stop>
    ensures { Grows result (grown_of g.new) (made_one (built (plain_of p.now) args.now.at.levels) (grown_of g.old) (map part_of path.now) place (base_of base) (args_at (plain_of p.now) args.now)) }
{
    match base {
        Base::Number(kind) => make_variable(p, g, path, place, kind, args),
        Base::Signal(kind) => add_at(g, path, place, Node::Signal(kind)),
        Base::Input(kind) => add_port(g, path, place, kind, false),
        Base::Output(kind) => add_port(g, path, place, kind, true),
        Base::ModuleName => Ok(()),
        Base::Class(_) => Err(Stop::from(lost())),
    }
}
