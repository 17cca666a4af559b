//! Turns, counted in the order in which they run, before anything is written out.
ghost use Rattle.std.specs.Prelude.{◌≡◌, ◌+◌, ◌∷◌, [], None, map, flat_map, is_some, IfOk};
ghost use Rattle.scc_core_spec.specs.Code.{Code};
ghost use Rattle.scc_core_spec.specs.Counted as spec;
ghost use Rattle.scc_core_spec.specs.Unrolled.{run_turns};
ghost use Rattle.scc_core_view.specs.Codes.{code_of, stmt_code};
ghost use Rattle.scc_unroll.specs.Shape.{StandIsRead, Around, cells_at, counting_of, setting_of, stand_of};
ghost use Rattle.scc_unroll_asked.specs.Asked.{AreRead, asked};
ghost use Rattle.scc_unroll.specs.Budgets.{after, budget_of, took, turn_spots};
ghost use Rattle.scc_unroll_laws.specs.Counters.{counters_of};
ghost use Rattle.scc_unroll_laws.specs.Heads.{has_loops, head_size, stand_behind};
ghost use Rattle.scc_unroll.specs.Spots.{spot_of};
ghost use Rattle.scc_unroll.specs.Turns.{IsTold, turn_of};

use crate::counted::{At, Counted, counted_by, counters_in};
use crate::look::Spot;
use crate::loops::has_loops;
use crate::shape::{Stand, are_all, behind, is_simple, plus, size_in, size_of};
use crate::turns::{TURNS, Turn, turns_by};
use scc_base::{NoMemory, lost};
use scc_core::{CoreNode, CoreStmt, Counter};

/// How many turns there may still be, and the loop of the first one too many.
#[derive(Clone, Copy)]
pub struct Budget {
    left: u32,
    pub over: Option<Spot>,
}

impl Budget {
    /// All turns that a process may have.
    pub fn new() -> Budget
        ensures { budget_of result ≡ record { left = 4096; over = None } }
    {
        Budget {
            left: TURNS,
            over: None,
        }
    }

    fn is_over(self) -> bool
        ensures { result ≡ is_some (budget_of self).over }
    {
        self.over.is_some()
    }

    // With a turn more of that loop.
    fn with(self, of: Spot) -> Budget
        ensures { budget_of result ≡ took (budget_of self) (spot_of of) }
    {
        match self.over {
            Some(over) => Budget {
                left: self.left,
                over: Some(over),
            },
            None => {
                if self.left == 0 {
                    Budget {
                        left: self.left,
                        over: Some(of),
                    }
                } else {
                    Budget {
                        left: self.left - 1,
                        over: None,
                    }
                }
            }
        }
    }
}

/// Counts the turns of statements, the first of which has that number, until there is one too many.
#[cycle(turns)]
pub fn count_turns(
    at: &At<'_>,
    counters: &[Counter],
    stand: Stand<'_>,
    number: u64,
    body: &[CoreStmt],
    budget: Budget,
) -> Result<Budget, NoMemory>
    ensures { (b : Code) → Around at.now b counters.now → AreRead at.now.known (asked body.now) → StandIsRead at.now.known stand.entry → IfOk result (λ z. budget_of z ≡ after (budget_of budget) (run_turns (setting_of at.now b) (counters_of counters.now) (stand_of stand.entry) number (code_of body.now))) }
{
    let mut stand = stand;
    let mut number = number;
    let mut budget = budget;
    let mut count = 0usize;
    for s in body {
        if budget.is_over() {
            return Ok(budget);
        }
        count += 1;
        let last = are_all(count, body);
        budget = turns_at(at, counters, stand, number, s, last, budget)?;
        let size = size_in(s)?;
        number = plus(number, size)?;
        stand = behind(stand, s);
    }
    Ok(budget)
}

// Those of a statement, which is the last of its list or isn't.
#[cycle(turns)]
fn turns_at(
    at: &At<'_>,
    counters: &[Counter],
    stand: Stand<'_>,
    number: u64,
    s: &CoreStmt,
    last: bool,
    budget: Budget,
) -> Result<Budget, NoMemory>
    ensures { (b r : Code) → Around at.now b counters.now → AreRead at.now.known (asked (s.now ∷ [])) → StandIsRead at.now.known stand.entry → spec.is_end r ≡ last → IfOk result (λ z. after (budget_of budget) (run_turns (setting_of at.now b) (counters_of counters.now) (stand_of stand.entry) number (stmt_code s.now r)) ≡ after (budget_of z) (run_turns (setting_of at.now b) (counters_of counters.now) (stand_behind (stand_of stand.entry) (code_of (s.now ∷ []))) (number + head_size (code_of (s.now ∷ []))) r)) }
{
    if is_simple(s) {
        return Ok(budget);
    }
    let inner = plus(number, 1)?;
    match &s.node {
        CoreNode::If { yes, no, .. } => {
            let first = count_turns(
                at,
                counters,
                Stand::Elsewhere,
                inner,
                yes.as_slice(),
                budget,
            )?;
            let size = size_of(yes.as_slice())?;
            let second = plus(inner, size)?;
            let both = count_turns(at, counters, Stand::Elsewhere, second, no.as_slice(), first)?;
            Ok(both)
        }
        CoreNode::Block(body) => {
            let inside = count_turns(at, counters, Stand::First, inner, body.as_slice(), budget)?;
            Ok(inside)
        }
        CoreNode::Loop { count, body } => {
            let of = counted_by(at, counters, stand, count, body.as_slice(), last)?;
            match of {
                Some(of) => {
                    let spot = Spot {
                        number,
                        place: s.place,
                    };
                    let turned = turns_of_counted(
                        at,
                        counters,
                        &of,
                        spot,
                        body.as_slice(),
                        budget,
                    )?;
                    Ok(turned)
                }
                None => {
                    let within = count_turns(
                        at,
                        counters,
                        Stand::Elsewhere,
                        inner,
                        body.as_slice(),
                        budget,
                    )?;
                    Ok(within)
                }
            }
        }
        _ => Err(lost()),
    }
}

// Those of a counted loop.
#[cycle(turns)]
fn turns_of_counted(
    at: &At<'_>,
    counters: &[Counter],
    of: &Counted<'_>,
    spot: Spot,
    body: &[CoreStmt],
    budget: Budget,
) -> Result<Budget, NoMemory>
    ensures { (b : Code) → Around at.now b counters.now → AreRead at.now.known (asked body.now) → IsTold at.now counters.now of.now → IfOk result (λ z. budget_of z ≡ after (budget_of budget) (flat_map (turn_spots (setting_of at.now b) (counters_of counters.now) of.now.cell (spot_of spot) (code_of body.now)) (counting_of (cells_at at.now) (counters_of counters.now) of.now).turns.list)) }
{
    let turns = turns_by(at, counters, of)?;
    let whole = turns_of_loop(
        at,
        counters,
        of.cell,
        turns.list.as_slice(),
        spot,
        body,
        budget,
    )?;
    Ok(whole)
}

// Those of a loop by its own turns; a body without loops is not gone over at each turn.
#[cycle(turns)]
fn turns_of_loop(
    at: &At<'_>,
    counters: &[Counter],
    cell: u32,
    list: &[Turn],
    spot: Spot,
    body: &[CoreStmt],
    budget: Budget,
) -> Result<Budget, NoMemory>
    ensures { (b : Code) → Around at.now b counters.now → AreRead at.now.known (asked body.now) → IfOk result (λ z. budget_of z ≡ after (budget_of budget) (flat_map (turn_spots (setting_of at.now b) (counters_of counters.now) cell (spot_of spot) (code_of body.now)) (map turn_of list.now))) }
{
    let deep = has_loops(body);
    let mut budget = budget;
    for turn in list {
        budget = turns_of_turn(at, counters, cell, turn, spot, body, deep, budget)?;
    }
    Ok(budget)
}

#[cycle(turns)]
fn turns_of_turn(
    at: &At<'_>,
    counters: &[Counter],
    cell: u32,
    turn: &Turn,
    spot: Spot,
    body: &[CoreStmt],
    deep: bool,
    budget: Budget,
) -> Result<Budget, NoMemory>
    ensures { (b : Code) → Around at.now b counters.now → AreRead at.now.known (asked body.now) → deep ≡ has_loops (code_of body.now) → IfOk result (λ z. budget_of z ≡ after (budget_of budget) (turn_spots (setting_of at.now b) (counters_of counters.now) cell (spot_of spot) (code_of body.now) (turn_of turn.entry.now))) }
{
    let begun = budget.with(spot);
    if !deep {
        return Ok(begun);
    }
    let around = counters_in(at, counters, cell, turn.now)?;
    let inner = plus(spot.number, 1)?;
    let whole = count_turns(at, around.as_slice(), Stand::Elsewhere, inner, body, begun)?;
    Ok(whole)
}
