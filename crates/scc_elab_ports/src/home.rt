//! The module around an object.
ghost use Rattle.std.specs.Prelude.{◌≡◌, ◌≤◌, ◌-◌, length, map, option_map, take, IfOk};
ghost use Rattle.scc_elab_grown.specs.Grown.{grown_of};
ghost use Rattle.scc_elab_grown.specs.Objects.{stands};
ghost use Rattle.scc_elab_spec.specs.Binding.{home as home_in, path_of as object_path};
ghost use Rattle.scc_elab_spec.specs.Grown.{at_path};
ghost use Rattle.scc_elab_ports.specs.Homes.{home_below};
ghost use Rattle.scc_elab_store.specs.Locations.{location_of, part_of};

use scc_base::NoMemory;
use scc_elab_grown::Grown;
use scc_elab_store::{Location, Part};

/// The path of the object of a number; the top's where there is none.
pub fn path_of(g: &Grown, number: u32) -> &[Part]
    ensures { map part_of result.now ≡ object_path (grown_of g.now) number }
{
    match g.objects.as_slice().get(number as usize) {
        Some(object) => object.path.as_slice(),
        None => &[],
    }
}

// Whether an object of a class stands at a path.
fn has_class(g: &Grown, path: &[Part]) -> Result<bool, NoMemory>
    ensures { IfOk result (λ b. b ≡ (stands (grown_of g.now).objects (map part_of path.now)).has_class) }
{
    let at = Location::below(g.alloc, path)?;
    Ok(g.objects.here(&at).has_class)
}

#[tactic(auto, using(crate::proofs::Homes::front_of))]
fn front(path: &[Part], n: usize) -> &[Part]
    requires { n ≤ length path.now }
    ensures { map part_of result.now ≡ take n (map part_of path.now) }
{
    &path[..n]
}

// At the longest front part of fewer parts.
#[tactic(auto, using(crate::proofs::Homes::none_below, crate::proofs::Homes::found_below, crate::proofs::Homes::on_below))]
fn below(g: &Grown, path: &[Part], n: usize) -> Result<Option<Location>, NoMemory>
    requires { n ≤ length path.now }
    ensures { IfOk result (λ h. option_map location_of h ≡ option_map at_path (home_below (grown_of g.now).objects (map part_of path.now) n)) }
{
    if n == 0 {
        return Ok(None);
    }
    let part = front(path, n - 1);
    if has_class(g, part)? {
        Ok(Some(Location::below(g.alloc, part)?))
    } else {
        below(g, path, n - 1)
    }
}

/// The location of the object of a class around a path: the longest front part of the path at which one stands.
pub fn home_of(g: &Grown, path: &[Part]) -> Result<Option<Location>, NoMemory>
    ensures { IfOk result (λ h. option_map location_of h ≡ option_map at_path (home_in (grown_of g.now) (map part_of path.now))) }
{
    let parts = path.len();
    below(g, path, parts)
}

/// The location of the object of a class around the object of a number.
pub fn home_at(g: &Grown, number: u32) -> Result<Option<Location>, NoMemory>
    ensures { IfOk result (λ h. option_map location_of h ≡ option_map at_path (home_in (grown_of g.now) (object_path (grown_of g.now) number))) }
{
    home_of(g, path_of(g, number))
}
