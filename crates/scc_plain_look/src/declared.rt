//! The declarations of a program.
ghost use Rattle.std.specs.Prelude.{◌≡◌};
ghost use Rattle.std.specs.List.{list_all};
ghost use Rattle.scc_plain_look.specs.Heads as spec;

use crate::number::is_kind;
use scc_bits::Kind;
use scc_plain_tree::{Base, PlainClass, PlainFunction, PlainMember};

// The most elements of an array (this project's profile).
const MOST: u32 = 65_536;

/// Whether a base has a kind, or a class of so many.
pub(crate) fn is_whole_base(classes: usize, base: Base) -> bool
    ensures base { result ≡ spec.is_whole_base classes base }
{
    match base {
        Base::Number(kind) => is_kind(kind),
        Base::Class(n) => (n as usize) < classes,
        Base::Input(kind) => is_kind(kind),
        Base::Output(kind) => is_kind(kind),
        Base::Signal(kind) => is_kind(kind),
        Base::ModuleName => true,
    }
}

fn is_size(n: u32) -> bool
    ensures { result ≡ spec.is_size n }
{
    1 <= n && n <= MOST
}

fn are_sizes(sizes: &[u32]) -> bool
    ensures { result ≡ list_all spec.is_size sizes.now }
{
    sizes.iter().all(|n| is_size(*n))
}

fn is_whole_member(classes: usize, m: &PlainMember) -> bool
    ensures { result ≡ spec.is_whole_member classes m.now }
{
    is_whole_base(classes, m.shape.base) && are_sizes(m.shape.sizes.as_slice())
}

fn are_whole_members(classes: usize, list: &[PlainMember]) -> bool
    ensures { result ≡ list_all (spec.is_whole_member classes) list.now }
{
    list.iter().all(|m| is_whole_member(classes, m))
}

fn is_below(count: usize, n: Option<u32>) -> bool
    ensures { result ≡ spec.is_below count n }
{
    match n {
        Some(n) => (n as usize) < count,
        None => true,
    }
}

fn is_kind_if(kind: Option<Kind>) -> bool
    ensures { result ≡ spec.is_kind_if kind }
{
    match kind {
        Some(kind) => is_kind(kind),
        None => true,
    }
}

fn is_whole_class(classes: usize, functions: usize, c: &PlainClass) -> bool
    ensures { result ≡ spec.is_whole_class classes functions c.now }
{
    is_below(functions, c.constructor) && are_whole_members(classes, c.members.as_slice())
}

/// Whether the declarations of classes are whole, in a program of so many classes and functions.
pub(crate) fn are_whole_classes(classes: usize, functions: usize, list: &[PlainClass]) -> bool
    ensures classes { result ≡ list_all (spec.is_whole_class classes functions) list.now }
{
    list.iter().all(|c| is_whole_class(classes, functions, c))
}

fn is_whole_head(classes: usize, f: &PlainFunction) -> bool
    ensures { result ≡ spec.is_whole_head classes f.now }
{
    is_below(classes, f.class)
        && (f.params as usize) <= f.locals.len()
        && is_kind_if(f.result)
        && are_whole_members(classes, f.locals.as_slice())
}

/// Whether the declarations of functions are whole, in a program of so many classes.
pub(crate) fn are_whole_heads(classes: usize, list: &[PlainFunction]) -> bool
    ensures heads { result ≡ list_all (spec.is_whole_head classes) list.now }
{
    list.iter().all(|f| is_whole_head(classes, f))
}
