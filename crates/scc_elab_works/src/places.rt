//! What expressions and statements are where a constructor's object stands.
ghost use Rattle.std.specs.Prelude.{◌≡◌, map};
ghost use Rattle.scc_elab_grown.specs.Grown.{grown_of};
ghost use Rattle.scc_elab_works.specs.Runs.{Ends, now_of};
ghost use Rattle.scc_elab_works.specs.Works.{at_in, making_at, site_at};
ghost use Rattle.scc_elab_spec.specs.Construct.{ran_in};
ghost use Rattle.scc_elab_spec.specs.Program.{End};
ghost use Rattle.scc_elab_spec.specs.Worth.{at_now};
ghost use Rattle.scc_elab_worth.specs.Meant.{IsWorth};
ghost use Rattle.scc_plain_view.specs.Codes.{stmt_code};
ghost use Rattle.scc_plain_view.specs.Plains.{plain_of};
ghost use Rattle.scc_plain_view.specs.Terms.{term_of};

use crate::moment::Moment;
use crate::single::simple;
use crate::works::At;
use scc_base::{Stop, lost};
use scc_bits::Value;
use scc_elab_grown::Grown;
use scc_elab_statements::{Frame, value};
use scc_plain_tree::{Plain, PlainExpr, PlainStmt};

/// The value of an expression. Refused as E404 and E405.
pub fn value_at(p: &Plain, at: &At, g: &Grown, e: &PlainExpr) -> Result<Value, Stop>
    ensures { IsWorth result (at_now (site_at (plain_of p.now) (at_in at.now)) (grown_of g.now)) (term_of e.now) }
{
    match at.function {
        Some(function) => value(
            &Frame {
                plain: p,
                function,
                object: at.object,
                path: at.path.as_slice(),
            },
            g,
            e,
        ),
        None => Err(Stop::from(lost())),
    }
}

/// A statement that holds no others and makes no objects.
pub fn simple_at(p: &Plain, at: &At, m: &mut Moment, s: &PlainStmt, turns: u32) -> Result<(), Stop>
    ensures { Ends result (now_of m.new) (ran_in turns (making_at (plain_of p.now) at.now.levels) (site_at (plain_of p.now) (at_in at.now)) (stmt_code s.now End) (now_of m.old)) }
{
    match at.function {
        Some(function) => simple(
            &Frame {
                plain: p,
                function,
                object: at.object,
                path: at.path.as_slice(),
            },
            m,
            s,
            at.levels,
            turns,
        ),
        None => Err(Stop::from(lost())),
    }
}
