//! What a lowering is given, and what it leaves beside its text.
ghost use Rattle.std.specs.Prelude.{◌≡◌, ◌+◌, ◌*◌, [], IfOk, Some, length, map, slice_get};
ghost use Rattle.scc_lower_expressions.specs.Reads.{constant_of, var_read};
ghost use Rattle.scc_lower_tree_laws.specs.Assigning.{written_by};
ghost use Rattle.scc_lower_expressions.specs.Becoming.{seen_of};
ghost use Rattle.scc_lower_expressions.specs.Writing.{IsWrittenTo};

use scc_base::{List, NoMemory, lost};
use scc_bits::Word;
use scc_core::{Cell, Known, Places};
use scc_svtree::{SvStmt, VarId};
use std::alloc::Global;

/// How a cell is read and written in a block.
#[derive(Clone, Copy, PartialEq, Eq)]
pub enum View {
    /// Read as this literal, never written.
    Constant(Word),
    /// Read and written as itself.
    Plain,
    /// Read and written as its next value.
    Next,
    /// Read as itself, written as its next value.
    Delayed,
}

/// The state of a lowering. With n cells the variable 2c is cell c, 2c + 1 its next value, 2n the number of the block that is
/// being left, and 2n + 1 + t the temporary t.
#[derive(Drop)]
pub struct Lowering<'a> {
    /// One view for each cell; that of a pointer or of a port below the top says nothing.
    pub views: &'a [View],
    /// The width of the variable that holds the number of the block that is being left, 1 to 32.
    pub exit: u32,
    /// Assignments of temporaries that have to stand before the statement that is being lowered.
    pub before: List<SvStmt>,
    /// The widths of the temporaries made so far.
    pub temporaries: List<u32>,
}

impl<'a> Lowering<'a> {
    /// The state at the beginning, without temporaries. It takes no memory.
    pub fn new(alloc: Global, views: &'a [View], exit: u32) -> Lowering<'a>
        ensures views { result.views.now ≡ views.now }
        ensures exit { result.exit ≡ exit }
        ensures before { result.before ≡ [] }
        ensures temporaries { result.temporaries ≡ [] }
    {
        Lowering {
            views,
            exit,
            before: List::new(alloc),
            temporaries: List::new(alloc),
        }
    }

    /// The view of a cell.
    pub fn view(&self, cell: u32) -> Result<View, NoMemory>
        ensures { IfOk result (λ v. slice_get self.now.views.now cell ≡ Some v) }
    {
        match self.views.get(cell as usize) {
            Some(view) => Ok(*view),
            None => Err(lost()),
        }
    }

    /// The variable to which a cell is written.
    pub fn written_to(&self, cell: u32) -> Result<VarId, NoMemory>
        ensures { IfOk result (λ v. IsWrittenTo (map seen_of self.now.views.now) cell v.0) }
    {
        written_in(self.view(cell)?, cell)
    }
}

/// The cells of a core, with the table of their names.
#[derive(Clone, Copy)]
pub struct Cells<'a> {
    pub cells: &'a [Cell],
    pub known: Known<'a>,
}

impl<'a> Cells<'a> {
    /// Those of a core, whose names the table has.
    pub fn new(cells: &'a List<Cell>, places: &'a Places) -> Cells<'a> {
        Cells {
            cells: cells.as_slice(),
            known: Known::new(cells, places),
        }
    }

    /// The cell of a number.
    pub fn cell(&self, number: u32) -> Result<&'a Cell, NoMemory>
        ensures { IfOk result (λ c. slice_get self.now.cells.now number ≡ Some c.now) }
    {
        match self.cells.get(number as usize) {
            Some(cell) => Ok(cell),
            None => Err(lost()),
        }
    }

    /// The variable that holds the number of the block that is being left.
    pub fn leaving(&self) -> Result<VarId, NoMemory>
        ensures { IfOk result (λ v. v.0 ≡ length self.now.cells.now * 2 + 0) }
    {
        match u32::try_from(self.cells.len()) {
            Ok(n) => twice(n, 0),
            Err(_) => Err(lost()),
        }
    }

    /// The variable of the temporary of that number.
    pub fn temporary(&self, number: usize) -> Result<VarId, NoMemory>
        ensures { IfOk result (λ v. v.0 ≡ 2 * length self.now.cells.now + 1 + number) }
    {
        let VarId(leaving) = self.leaving()?;
        let Ok(number) = u32::try_from(number) else {
            return Err(lost());
        };
        match leaving.checked_add(1).and_then(|n| n.checked_add(number)) {
            Some(n) => Ok(VarId(n)),
            None => Err(lost()),
        }
    }
}

/// The variable from which a cell is read in a view.
pub fn read_of(view: View, cell: u32) -> Result<VarId, NoMemory>
    ensures { IfOk result (λ v. v.0 ≡ var_read view cell) }
{
    match view {
        View::Next => twice(cell, 1),
        View::Constant(_) => twice(cell, 0),
        View::Plain => twice(cell, 0),
        View::Delayed => twice(cell, 0),
    }
}

// The variable to which a cell is written in a view.
fn written_in(view: View, cell: u32) -> Result<VarId, NoMemory>
    ensures { IfOk result (λ v. written_by (seen_of view) cell ≡ Some v.0) }
{
    match view {
        View::Plain => twice(cell, 0),
        View::Next => twice(cell, 1),
        View::Delayed => twice(cell, 1),
        View::Constant(_) => Err(lost()),
    }
}

/// The word of a view that is a constant.
pub fn constant_of(view: View) -> Option<Word>
    ensures { result ≡ constant_of view }
{
    match view {
        View::Constant(word) => Some(word),
        View::Plain => None,
        View::Next => None,
        View::Delayed => None,
    }
}

// 2c + more.
fn twice(cell: u32, more: u32) -> Result<VarId, NoMemory>
    ensures { IfOk result (λ v. v.0 ≡ cell * 2 + more) }
{
    let Some(double) = cell.checked_mul(2) else {
        return Err(lost());
    };
    match double.checked_add(more) {
        Some(n) => Ok(VarId(n)),
        None => Err(lost()),
    }
}
