//! Local variables are declared without initialiser.
ghost use Rattle.std.specs.Prelude.{◌≡◌, map, slice_get, IfOk, OnOk};
ghost use Rattle.scc_elab_grown.specs.Grown.{grown_of};
ghost use Rattle.scc_elab_works.specs.Paths.{all_cleared, begun, cleared, paths_of};
ghost use Rattle.scc_elab_spec.specs.Grown.{local_of};
ghost use Rattle.scc_elab_spec.specs.Types.{is_direct as goes_direct};
ghost use Rattle.scc_elab_statements.specs.Frames.{site_in};
ghost use Rattle.scc_elab_store.specs.Locations.{location_of, part_of};
ghost use Rattle.scc_plain_view.specs.Plains.{reach_of};

use crate::elements::{ElementPath, elements_of};
use scc_base::NoMemory;
use scc_elab_grown::Grown;
use scc_elab_statements::Frame;
use scc_elab_store::{LocalOf, Location, Part};
use scc_plain_tree::Reach;
use std::alloc::Global;

/// Whether what is declared is the thing itself.
pub fn is_direct(reach: Reach) -> bool
    ensures { result ≡ goes_direct (reach_of reach) }
{
    match reach {
        Reach::Direct => true,
        Reach::Pointer | Reach::Reference => false,
    }
}

fn location_in(alloc: Global, of: LocalOf, path: &[Part]) -> Result<Location, NoMemory>
    ensures { IfOk result (λ l. location_of l ≡ local_of of.object of.local (map part_of path.now)) }
{
    Ok(Location {
        local: Some(of),
        path: Vec::from_slice(alloc, path)?,
    })
}

// An element is 0, or null. What is so already takes no memory.
#[tactic(auto, using(crate::proofs::Clearing::word_stays))]
fn clear(g: &mut Grown, of: LocalOf, direct: bool, path: &[Part]) -> Result<(), NoMemory>
    ensures { OnOk result (grown_of g.new ≡ cleared direct of.object of.local (map part_of path.now) (grown_of g.old)) }
{
    let at = location_in(g.alloc, of, path)?;
    if direct {
        if g.store.word(&at) == 0 {
            Ok(())
        } else {
            g.put_word(at, 0)
        }
    } else {
        g.put_target(at, None)
    }
}

fn clear_all(
    g: &mut Grown,
    of: LocalOf,
    direct: bool,
    paths: &[ElementPath],
) -> Result<(), NoMemory>
    ensures { OnOk result (grown_of g.new ≡ all_cleared direct of.object of.local (paths_of paths.now) (grown_of g.old)) }
{
    for path in paths {
        clear(g, of, direct, path.parts.as_slice())?;
    }
    Ok(())
}

/// Declares a local variable: each of its elements is 0, or null.
#[tactic(auto, using(crate::proofs::Clearing::declared_is))]
pub fn begin(f: &Frame, g: &mut Grown, local: u32) -> Result<(), NoMemory>
    ensures { OnOk result (grown_of g.new ≡ begun (site_in f.now (grown_of g.old)) local (slice_get (site_in f.now (grown_of g.old)).function.locals local) (grown_of g.old)) }
{
    let Some(m) = f.function.locals.get(local as usize) else {
        return Ok(());
    };
    let paths = elements_of(g.alloc, &[], m.shape.sizes.as_slice())?;
    let of = LocalOf {
        object: f.object,
        local,
    };
    clear_all(g, of, is_direct(m.shape.reach), paths.as_slice())
}
