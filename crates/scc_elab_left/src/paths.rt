//! Paths of the design.
ghost use Rattle.std.specs.Prelude.{◌≡◌, map, IfOk};
ghost use Rattle.scc_elab_spec.specs.Elaborated.{kept_part};
ghost use Rattle.scc_elab_store.specs.Locations.{part_of};
ghost use Rattle.scc_plain_view.specs.Designs.{part_of as part_in, path_of};

use scc_base::{NoMemory, Path, PathPart, lost};
use scc_elab_store::Part;
use std::alloc::Global;

fn exact(part: Part) -> Result<PathPart, NoMemory>
    ensures { IfOk result (λ q. part_in q ≡ part_of part) }
{
    match part {
        Part::Member(name) => Ok(PathPart::Member(name)),
        Part::Element(i) => match u32::try_from(i) {
            Ok(i) => Ok(PathPart::Index(i)),
            Err(_) => Err(lost()),
        },
    }
}

// A greater index than there may be stands at the greatest.
fn kept(part: Part) -> PathPart
    ensures { part_in result ≡ kept_part (part_of part) }
{
    match part {
        Part::Member(name) => PathPart::Member(name),
        Part::Element(i) => PathPart::Index(i.min(4_294_967_295) as u32),
    }
}

/// The path of an object or vector.
pub fn path_in(alloc: Global, path: &[Part]) -> Result<Path, NoMemory>
    ensures { IfOk result (λ q. path_of q ≡ map part_of path.now) }
{
    let mut to = Path::new(alloc);
    for part in path {
        to.push(exact(*part)?)?;
    }
    Ok(to)
}

/// The path to which a pointer leads.
pub fn kept_path(alloc: Global, path: &[Part]) -> Result<Path, NoMemory>
    ensures { IfOk result (λ q. path_of q ≡ map kept_part (map part_of path.now)) }
{
    let mut to = Path::new(alloc);
    for part in path {
        to.push(kept(*part))?;
    }
    Ok(to)
}
