//! Assignments of numbers.
ghost use Rattle.std.specs.Prelude.{◌≡◌, option_map, OnOk};
ghost use Rattle.scc_elab_grown.specs.Grown.{Grows, grown_of};
ghost use Rattle.scc_elab_spec.specs.Worth.{assigned, put_at as put_there};
ghost use Rattle.scc_elab_statements.specs.Frames.{site_in};
ghost use Rattle.scc_elab_store.specs.Locations.{location_of};
ghost use Rattle.scc_elab_worth.specs.Picks.{pick_meant};
ghost use Rattle.scc_plain_view.specs.Terms.{left_of, term_of};

use crate::frame::{Frame, index, location, value};
use crate::locals::kind_there;
use scc_base::{NoMemory, Stop};
use scc_elab_grown::Grown;
use scc_elab_store::Location;
use scc_elab_worth::picked;
use scc_plain_tree::{PlainExpr, PlainLeft, PlainPick};

// Where no variable stands, nothing is written.
fn put_at(
    f: &Frame,
    g: &mut Grown,
    pick: &Option<PlainPick>,
    at: Option<Location>,
    index: Option<u128>,
    new: u128,
) -> Result<(), NoMemory>
    ensures { OnOk result (grown_of g.new ≡ put_there (site_in f.now (grown_of g.old)) (pick_meant pick.now) (option_map location_of at) index new) }
{
    let Some(at) = at else {
        return Ok(());
    };
    match kind_there(f, g, &at) {
        Some(kind) => {
            let word = picked(kind, pick, index, g.store.word(&at), new)?;
            g.put_word(at, word)
        }
        None => Ok(()),
    }
}

/// The left side's location and the number of a bit there, then the value. Refused as E404 and E405.
pub fn assign(f: &Frame, g: &mut Grown, left: &PlainLeft, e: &PlainExpr) -> Result<(), Stop>
    ensures { Grows result (grown_of g.new) (assigned (site_in f.now (grown_of g.old)) (left_of left.now) (pick_meant left.now.pick) (term_of e.now)) }
{
    match location(f, g, left, false, true) {
        Ok(at) => match index(f, g, &left.pick) {
            Ok(bit) => match value(f, g, e) {
                Ok(new) => Ok(put_at(f, g, &left.pick, at, bit, new.word().bits)?),
                Err(stop) => Err(stop),
            },
            Err(stop) => Err(stop),
        },
        Err(stop) => Err(stop),
    }
}
