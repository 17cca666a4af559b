//! Numbers of elements of vectors, which are found by names where they aren't known.
ghost use Rattle.std.specs.Prelude.{◌≡◌};
ghost use Rattle.std.specs.Option.{option_copied};
ghost use Rattle.scc_core.specs.Known.{facts_in};
ghost use Rattle.scc_core.specs.Names.{same_part};
ghost use Rattle.scc_core.specs.Statics.{part_in};
ghost use Rattle.scc_pointers_walk.specs.Located.{first_size, fits, fits_one, found_size, is_number, known_size, may_name, rest_behind, seen, size_of};

use crate::held::Resolver;
use crate::locate::{chooses_object, is_open, name, small, spot};
use scc_base::PathPart;
use scc_core::{CellName, CoreBase, CoreLeft, CorePart};

/// The number of elements of what stands at a location; that of a vector is found by its name, where it isn't known.
pub fn size_of(r: &Resolver<'_>, left: &CoreLeft, size: u32) -> u32
    ensures { result ≡ size_of r.now left.now size }
{
    if size == u32::MAX {
        known_size(r, left, size)
    } else {
        size
    }
}

fn known_size(r: &Resolver<'_>, left: &CoreLeft, size: u32) -> u32
    ensures { result ≡ known_size r.now left.now size }
{
    let parts = left.parts.as_slice();
    match name(r, &left.base) {
        None => size,
        Some(front) => {
            if chooses_object(r, parts) {
                size
            } else if is_open(r, parts) {
                open_size(r, front, parts)
            } else {
                found_size(r, &left.base, parts)
            }
        }
    }
}

fn found_size(r: &Resolver<'_>, base: &CoreBase, parts: &[CorePart]) -> u32
    ensures { result ≡ found_size r.now base.now parts.now }
{
    match spot(r, base, parts) {
        Some(at) => r.places.vector(at).unwrap_or(0),
        None => 0,
    }
}

// Under indices that aren't static: that of the first vector that they may name.
fn open_size(r: &Resolver<'_>, front: &CellName, parts: &[CorePart]) -> u32
    ensures { result ≡ first_size (λ v. may_name front.now (seen r.now parts.now) v.path) r.now.vectors.now }
{
    for v in r.vectors.as_slice() {
        if may_name(r, front, parts, v.path.as_slice()) {
            return v.size;
        }
    }
    0
}

fn may_name(r: &Resolver<'_>, front: &CellName, parts: &[CorePart], path: &[PathPart]) -> bool
    ensures { result ≡ may_name front.now (seen r.now parts.now) path.now }
{
    if front.local.is_some() {
        return false;
    }
    match rest_behind(path, front.path.as_slice()) {
        Some(rest) => fits(r, parts, rest),
        None => false,
    }
}

fn rest_behind<'t>(path: &'t [PathPart], front: &[PathPart]) -> Option<&'t [PathPart]>
    ensures { option_copied result ≡ rest_behind path.now front.now }
{
    match front {
        [] => Some(path),
        [f, fs @ ..] => match path {
            [] => None,
            [p, ps @ ..] => {
                if same_part(*p, *f) {
                    rest_behind(ps, fs)
                } else {
                    None
                }
            }
        },
    }
}

fn same_part(a: PathPart, b: PathPart) -> bool
    ensures { result ≡ same_part a b }
{
    match (a, b) {
        (PathPart::Member(a), PathPart::Member(b)) => a == b,
        (PathPart::Index(a), PathPart::Index(b)) => a == b,
        (PathPart::Member(_), PathPart::Index(_)) => false,
        (PathPart::Index(_), PathPart::Member(_)) => false,
    }
}

fn fits(r: &Resolver<'_>, parts: &[CorePart], rest: &[PathPart]) -> bool
    ensures { result ≡ fits (seen r.now parts.now) rest.now }
{
    match parts {
        [] => match rest {
            [] => true,
            [_, ..] => false,
        },
        [part, parts @ ..] => match rest {
            [] => false,
            [to, rest @ ..] => {
                if fits_one(r, part, *to) {
                    fits(r, parts, rest)
                } else {
                    false
                }
            }
        },
    }
}

fn fits_one(r: &Resolver<'_>, part: &CorePart, to: PathPart) -> bool
    ensures { result ≡ fits_one (part_in (facts_in r.now.known) part.now) to }
{
    match (part, to) {
        (CorePart::Member(a), PathPart::Member(b)) => *a == b,
        (CorePart::Index { size, at }, PathPart::Index(i)) => match r.known.value(at) {
            None => i < *size,
            Some(v) => is_number(small(v), i),
        },
        (CorePart::Member(_), PathPart::Index(_)) => false,
        (CorePart::Index { .. }, PathPart::Member(_)) => false,
    }
}

fn is_number(v: Option<u32>, i: u32) -> bool
    ensures { result ≡ is_number v i }
{
    match v {
        Some(n) => n == i,
        None => false,
    }
}
