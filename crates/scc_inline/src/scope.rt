//! What a copy of a function works with.
ghost use Rattle.std.specs.Prelude.{◌≡◌, ℕ, List, [], ◌∷◌, ◌++◌, length, Some, IfOk, OnOk};
ghost use Rattle.scc_core_spec.specs.Program.{Cell as CellOf};
ghost use Rattle.scc_elab_spec.specs.Numbering.{first_locals, whole_local};
ghost use Rattle.scc_plain_view.specs.Terms.{left_of};
ghost use Rattle.scc_elab_spec.specs.Program.{Plain as ProgramOf};
ghost use Rattle.scc_semantics.specs.Location as location;
ghost use Rattle.scc_semantics.specs.Location.{Root};
ghost use Rattle.scc_inline.specs.Named.{IsHere, IsKept, IsNew, IsNumbered, IsPut, Stands, added, has_cell, is_given, one_more};
ghost use Rattle.scc_inline_spec.specs.Inlined.{answer_member};
ghost use Rattle.scc_core_view.specs.Programs.{sort_of as core_sort};
ghost use Rattle.scc_elab_spec.specs.Bodies.{elements as elements_in, number_kind};
ghost use Rattle.scc_plain_view.specs.Codes.{base_of};
ghost use Rattle.scc_plain_view.specs.Plains.{function_of, member_of, reach_of, shape_of};
ghost use Rattle.scc_inline.specs.Begun.{Keeps};
ghost use Rattle.scc_inline.specs.Locals.{AreAdded, IsAdded, IsOneMore, own_sort, cell_with, is_named};

use crate::elements::{copied, elements};
use indexmap::IndexMap;
use scc_base::{List, Name, NoMemory, Path, Place, lost, push};
use scc_bits::{Kind, Value, Word};
use scc_core::{
    Cell, CellName, CellSort, CoreBase, CoreExpr, CoreExprNode, CoreLeft, CoreNode, CoreStmt,
    Counters, Known, Places, Spot, VectorSize2, numbered,
};
use scc_inline_facts::{Facts, alone};
use scc_plain_tree::{Base, Plain, PlainFunction, PlainLeft, PlainMember, Reach};
use std::alloc::Global;

/// What is copied from.
#[derive(Clone, Copy)]
pub struct Source<'a> {
    pub plain: &'a Plain,
    pub facts: &'a [Option<Facts>],
}

/// The function that is copied.
#[derive(Clone, Copy)]
pub struct Here<'a> {
    pub source: Source<'a>,
    pub function: &'a PlainFunction,
    pub facts: &'a Facts,
}

/// The object of a call.
#[derive(Drop)]
pub struct This {
    pub left: CoreLeft,
    /// Where its name stands among those of the cells, where it has a whole one.
    pub spot: Option<Spot>,
    /// Whether a call gave it: null is met where it is used.
    pub soft: bool,
}

/// A copy of a function, as far as it has come.
pub struct Scope {
    /// The object whose function it is.
    pub this: Option<This>,
    /// The first cell of each local that has its number.
    locals: Vec<Option<u32>>,
    /// Of each local its number in the process.
    numbers: Vec<u32>,
    /// Whether each local was given what it leads to.
    pointed: Vec<bool>,
    /// The cell of the result.
    pub answer: Option<u32>,
    /// The cells of calls' results by the calls' numbers.
    pub answers: IndexMap<u32, u32>,
    /// How many loops were met.
    loops: usize,
}

// One call at each exit of what owns a copy, in place of the drops of all fields.
impl Drop for Scope {
    fn drop(self) {
        let Scope {
            this: _this,
            locals: _locals,
            numbers: _numbers,
            pointed: _pointed,
            answer: _,
            answers: _answers,
            loops: _,
        } = self;
    }
}

/// What grows with each copied statement.
pub struct Growing {
    pub alloc: Global,
    pub cells: List<Cell>,
    pub places: Places,
    /// The counters of the counted loops round what is copied; 0 stands for each.
    pub counters: Counters,
    /// The process whose body it is, its number, and how many locals it has.
    pub process: Path,
    pub number: u32,
    pub next: u32,
}

impl Drop for Growing {
    fn drop(self) {
        let Growing {
            alloc: _,
            cells: _cells,
            places: _places,
            counters: _counters,
            process: _process,
            number: _,
            next: _,
        } = self;
    }
}

impl Scope {
    pub fn new(
        alloc: Global,
        function: &PlainFunction,
        this: Option<This>,
    ) -> Result<Scope, NoMemory>
        ensures { IfOk result IsNew }
    {
        let mut scope = Scope {
            this,
            locals: Vec::new(alloc),
            numbers: Vec::new(alloc),
            pointed: Vec::new(alloc),
            answer: None,
            answers: IndexMap::new(alloc),
            loops: 0,
        };
        for _ in function.locals.as_slice() {
            push(&mut scope.locals, None)?;
            push(&mut scope.numbers, 0)?;
            push(&mut scope.pointed, false)?;
        }
        Ok(scope)
    }

    /// The first cell of a local.
    pub fn cell(&self, local: u32) -> Result<u32, NoMemory> {
        let cell = self.locals.get(local as usize).copied().flatten();
        cell.ok_or(lost())
    }

    // Whether a local has its number.
    fn has(&self, local: u32) -> bool
        ensures { result ≡ is_given self.now local }
    {
        match self.locals.get(local as usize) {
            Some(slot) => is_some(slot),
            None => false,
        }
    }

    // A local has its first cell and its number.
    fn set(&mut self, local: u32, cell: u32, number: u32) -> Result<(), NoMemory>
        ensures { OnOk result (IsNumbered self.old self.new local cell number) }
    {
        put_cell(&mut self.locals, local, cell)?;
        put_number(&mut self.numbers, local, number)
    }

    /// The number of a local in its process.
    pub fn number(&self, local: u32) -> Result<u32, NoMemory> {
        self.numbers.get(local as usize).copied().ok_or(lost())
    }

    /// A call's result has this cell.
    pub fn note_answer(&mut self, call: u32, cell: u32) -> Result<(), NoMemory>
        ensures { OnOk result (IsKept self.old self.new) }
    {
        self.answers.insert(call, cell)?;
        Ok(())
    }

    /// The number of the next loop in text order.
    pub fn next_loop(&mut self) -> usize {
        let number = self.loops;
        self.loops = self.loops.saturating_add(1);
        number
    }

    /// Whether a local is given what it leads to for the first time.
    pub fn points_first(&mut self, local: u32) -> bool
        ensures { IsKept self.old self.new }
    {
        match self.pointed.get_mut(local as usize) {
            Some(pointed) => {
                let first = !*pointed;
                *pointed = true;
                first
            }
            None => false,
        }
    }
}

impl Growing {
    /// Over the cells of the objects: no process is copied yet.
    pub fn start(
        alloc: Global,
        cells: List<Cell>,
        vectors: &List<VectorSize2>,
    ) -> Result<Growing, NoMemory>
        ensures { IfOk result (λ g. g.cells ≡ cells) }
    {
        let places = Places::of(alloc, &cells, vectors)?;
        Ok(Growing {
            alloc,
            cells,
            places,
            counters: IndexMap::new(alloc),
            process: Path::new(alloc),
            number: 0,
            next: 0,
        })
    }

    /// All cells that there are.
    pub fn into_cells(self) -> List<Cell>
        ensures { result ≡ self.cells }
    {
        let Growing {
            alloc: _,
            cells,
            places: _places,
            counters: _counters,
            process: _process,
            number: _,
            next: _,
        } = self;
        cells
    }

    /// What is known before a run where no counter is.
    pub fn known(&self) -> Known<'_> {
        Known::new(&self.cells, &self.places)
    }

    /// What is known where the counters of the counted loops round stand as literals.
    pub fn known_here(&self) -> Known<'_> {
        self.known().with(&self.counters)
    }

    /// Gives a local its number and its cells, unless it has them.
    pub fn give(
        &mut self,
        scope: &mut Scope,
        function: &PlainFunction,
        local: u32,
    ) -> Result<(), NoMemory>
        ensures keeps { OnOk result (Keeps self.old self.new) }
        ensures names { (p : ProgramOf) (f : ℕ) (front : List CellOf) (cs : List ℕ) (i : ℕ) (roots : List Root) → IsHere p f cs (function_of function.now) → Stands p f front cs i self.old scope.old roots
            → OnOk result (Stands p f front cs i self.new scope.new (one_more roots (location.Local i cs local))) }
    {
        let Some(member) = function.locals.get(local as usize) else {
            return Err(lost());
        };
        if scope.has(local) {
            return Ok(());
        }
        let number = self.next;
        let first = self.add_local(member, number)?;
        scope.set(local, first, number)
    }

    /// Gives the local that a location names as a whole its number and its cells, unless it has them.
    pub fn give_whole(
        &mut self,
        scope: &mut Scope,
        function: &PlainFunction,
        left: &PlainLeft,
    ) -> Result<(), NoMemory>
        ensures keeps { OnOk result (Keeps self.old self.new) }
        ensures names { (p : ProgramOf) (f : ℕ) (front : List CellOf) (cs : List ℕ) (i : ℕ) (roots : List Root) → IsHere p f cs (function_of function.now) → Stands p f front cs i self.old scope.old roots
            → OnOk result (Stands p f front cs i self.new scope.new (added roots (whole_local i cs (left_of left.now)))) }
    {
        match alone(left) {
            Some(local) => self.give(scope, function, local),
            None => Ok(()),
        }
    }

    /// Gives the locals that no statement declared their numbers.
    pub fn give_rest(&mut self, scope: &mut Scope, function: &PlainFunction) -> Result<(), NoMemory>
        ensures keeps { OnOk result (Keeps self.old self.new) }
        ensures names { (p : ProgramOf) (f : ℕ) (front : List CellOf) (cs : List ℕ) (i : ℕ) (roots : List Root) → IsHere p f cs (function_of function.now) → Stands p f front cs i self.old scope.old roots
            → OnOk result (Stands p f front cs i self.new scope.new (added roots (first_locals i cs (length (function_of function.now).locals)))) }
    {
        for local in 0..function.locals.len() {
            self.give(scope, function, numbered(local)?)?;
        }
        Ok(())
    }

    // The cells of a local, one for each element; the first one's number.
    fn add_local(&mut self, member: &PlainMember, number: u32) -> Result<u32, NoMemory>
        ensures keeps { OnOk result (Keeps self.old self.new) }
        ensures cells { number ≡ self.old.next → OnOk result (IsOneMore self.old self.new (member_of member.now) (elements_in (shape_of member.now.shape).sizes)) }
    {
        let first = numbered(self.cells.len())?;
        let all = elements(self.alloc, member.shape.sizes.as_slice())?;
        self.add_elements(member, number, &all)?;
        self.next = self.next.checked_add(1).ok_or(lost())?;
        Ok(first)
    }

    fn add_elements(
        &mut self,
        member: &PlainMember,
        number: u32,
        all: &List<List<u32>>,
    ) -> Result<(), NoMemory>
        ensures keeps { OnOk result (Keeps self.old self.new) }
        ensures cells { OnOk result (AreAdded self.old self.new number (member_of member.now) all.now) }
    {
        for indices in all.as_slice() {
            self.add_element(member, number, indices)?;
        }
        Ok(())
    }

    fn add_element(
        &mut self,
        member: &PlainMember,
        number: u32,
        indices: &List<u32>,
    ) -> Result<(), NoMemory>
        ensures keeps { OnOk result (Keeps self.old self.new) }
        ensures cells { OnOk result (AreAdded self.old self.new number (member_of member.now) (indices.now ∷ [])) }
    {
        let kind = kind_of(member.shape.base);
        let sort = self.sort_of(member.shape.reach);
        let name = self.local_name(number, member.name, copied(self.alloc, indices)?)?;
        self.add(name, kind, sort, member.place)
    }

    // A pointer or reference leads nowhere yet.
    fn sort_of(&self, reach: Reach) -> CellSort
        ensures { core_sort result ≡ own_sort self.now (reach_of reach) }
    {
        match reach {
            Reach::Direct => CellSort::Local(self.number),
            Reach::Pointer => CellSort::Pointer(None),
            Reach::Reference => CellSort::Pointer(None),
        }
    }

    /// The cell of the result of a call, with the function's identifier.
    pub fn add_answer(&mut self, function: &PlainFunction, kind: Kind) -> Result<u32, NoMemory>
        ensures keeps { OnOk result (Keeps self.old self.new) }
        ensures answers { OnOk result (IsOneMore self.old self.new (answer_member (function_of function.now) kind) ([] ∷ [])) }
    {
        let cell = numbered(self.cells.len())?;
        let name = self.local_name(self.next, function.name, List::new(self.alloc))?;
        self.add(name, kind, CellSort::Local(self.number), function.place)?;
        self.next = self.next.checked_add(1).ok_or(lost())?;
        Ok(cell)
    }

    /// The name of a local's element.
    pub fn local_name(
        &self,
        number: u32,
        ident: Name,
        indices: List<u32>,
    ) -> Result<CellName, NoMemory>
        ensures { IfOk result (λ n. is_named self.now number ident indices n) }
    {
        Ok(CellName {
            path: Path::of(self.alloc, self.process.as_slice())?,
            local: Some((number, ident)),
            indices,
        })
    }

    fn add(
        &mut self,
        name: CellName,
        kind: Kind,
        sort: CellSort,
        place: Place,
    ) -> Result<(), NoMemory>
        ensures keeps { OnOk result (Keeps self.old self.new) }
        ensures added { OnOk result (IsAdded self.old self.new (cell_with name kind sort place)) }
    {
        let number = numbered(self.cells.len())?;
        let pointer = matches!(sort, CellSort::Pointer(_));
        self.places.add(&name, number, pointer)?;
        self.cells.push(Cell {
            name,
            kind,
            sort,
            place,
        })
    }

    /// The assignment of 0 to a cell.
    pub fn zero(&self, place: Place, cell: u32) -> Result<CoreStmt, NoMemory> {
        let kind = self.kind(cell)?;
        let zero = CoreExprNode::Lit(Word { bits: 0 });
        Ok(CoreStmt {
            place,
            node: CoreNode::Assign {
                left: CoreLeft::new(self.alloc, place, CoreBase::Cell(cell)),
                value: CoreExpr::new(self.alloc, place, kind, zero)?,
            },
        })
    }

    pub fn kind(&self, cell: u32) -> Result<Kind, NoMemory> {
        self.cells.get(cell as usize).map(|c| c.kind).ok_or(lost())
    }

    /// From here on the counter of a counted loop stands as a literal.
    pub fn count_by(&mut self, counter: u32) -> Result<(), NoMemory>
        ensures keeps { OnOk result (Keeps self.old self.new) }
    {
        let kind = self.kind(counter)?;
        let zero = Value::of(kind, Word { bits: 0 }).ok_or(lost())?;
        self.counters.insert(counter, zero)?;
        Ok(())
    }
}

fn is_some(slot: &Option<u32>) -> bool
    ensures { result ≡ has_cell (Some slot.now) }
{
    match slot {
        Some(_) => true,
        None => false,
    }
}

fn put_cell(cells: &mut Vec<Option<u32>>, local: u32, cell: u32) -> Result<(), NoMemory>
    ensures { OnOk result (IsPut cells.old.items cells.new.items local (Some cell)) }
{
    match cells.get_mut(local as usize) {
        Some(slot) => {
            *slot = Some(cell);
            Ok(())
        }
        None => Err(lost()),
    }
}

fn put_number(numbers: &mut Vec<u32>, local: u32, number: u32) -> Result<(), NoMemory>
    ensures { OnOk result (IsPut numbers.old.items numbers.new.items local number) }
{
    match numbers.get_mut(local as usize) {
        Some(slot) => {
            *slot = number;
            Ok(())
        }
        None => Err(lost()),
    }
}

// What a cell holds.
fn kind_of(base: Base) -> Kind
    ensures { result ≡ number_kind (base_of base) }
{
    match base {
        Base::Number(kind) => kind,
        Base::Class(_) => Kind::Bool,
        Base::Input(_) => Kind::Bool,
        Base::Output(_) => Kind::Bool,
        Base::Signal(_) => Kind::Bool,
        Base::ModuleName => Kind::Bool,
    }
}
