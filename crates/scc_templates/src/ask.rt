//! What is known, and what is being worked out.
ghost use Rattle.std.specs.Prelude.{IfErr};
ghost use Rattle.scc_templates_scopes.specs.Refusals.{MayStop};

use crate::part::Thing;
use crate::session::Templates;
use scc_base::{Code, Name, NoMemory, Place, Stop};
use scc_bits::Value;
use scc_templates_scopes::chain::{Chain, Reach};
use scc_templates_scopes::refuse::refuse;
use scc_templates_scopes::ty::{Base, InstanceId, TypeOf};

/// What is worked out once. An `item` is a number among those of its scope, a class the number of its item.
#[derive(Clone, Copy, PartialEq, Eq, Hash)]
pub(crate) enum Key {
    /// A constant, a typedef, or the enumerator of that number.
    Declared {
        scope: Option<InstanceId>,
        item: usize,
        at: usize,
    },
    /// The specialisations of a class.
    Special(usize),
    /// The bodies outside a class of one of its functions: those for given arguments alone, or all.
    Bodies {
        class: usize,
        name: Name,
        constructor: bool,
        all: bool,
    },
}

#[derive(Clone, Copy)]
enum Sort {
    Value,
    Type,
    /// Nothing but that it was worked out.
    Done,
}

/// An answer, of which the sort says what counts, with what its evaluation adds to a chain.
#[derive(Clone, Copy)]
pub(crate) struct Known {
    sort: Sort,
    value: Value,
    ty: TypeOf,
    reach: Reach,
}

impl Known {
    fn done(reach: Reach) -> Known {
        Known {
            sort: Sort::Done,
            value: Value::zero(),
            ty: TypeOf::plain(Base::ModuleName),
            reach,
        }
    }

    fn of_value(value: Value, reach: Reach) -> Known {
        Known {
            sort: Sort::Value,
            value,
            ty: TypeOf::plain(Base::ModuleName),
            reach,
        }
    }

    fn of_type(ty: TypeOf, reach: Reach) -> Known {
        Known {
            sort: Sort::Type,
            value: Value::zero(),
            ty,
            reach,
        }
    }
}

/// Where an evaluation began.
#[derive(Clone, Copy)]
pub(crate) struct Mark {
    key: Key,
    /// The instance that joined the chain for it.
    member: Option<InstanceId>,
    outer: Level,
}

/// The chain at a point of an evaluation, and what was added to it since.
#[derive(Clone, Copy)]
pub(crate) struct Level {
    pub chain: Chain,
    pub reach: Reach,
}

impl Level {
    pub fn new() -> Level {
        Level {
            chain: Chain::new(),
            reach: Reach::new(),
        }
    }
}

impl Templates {
    fn note_busy(&mut self, key: Key) -> Result<(), NoMemory> {
        self.busy.insert(key)?;
        Ok(())
    }

    fn keep(&mut self, key: Key, known: Known) -> Result<(), NoMemory> {
        self.known.insert(key, known)?;
        Ok(())
    }

    // Refuses what needs itself.
    fn not_busy(&self, key: Key, at: Place) -> Result<(), Stop>
        ensures stop { IfErr result MayStop }
    {
        if self.busy.contains(&key) {
            return refuse(Code::TemplateDepth, at); // E308
        }
        Ok(())
    }

    // Gives an answer that is known, unless the chain would grow past its most with it, and says whether it did.
    fn gives(&mut self, key: Key) -> bool {
        let Some(known) = self.known.get(&key).copied() else {
            return false;
        };
        let level = self.level;
        if !level.chain.holds(known.reach) {
            return false;
        }
        self.level.reach = level.reach.or(known.reach);
        match known.sort {
            Sort::Value => self.thing = Some(Thing::Value(known.value)),
            Sort::Type => self.ty = Some(known.ty),
            Sort::Done => {}
        }
        true
    }

    /// Begins to work out what isn't known; gives the answer and None where it is. An instance whose constant it is
    /// joins the chain.
    pub(crate) fn begin(
        &mut self,
        key: Key,
        member: Option<InstanceId>,
        at: Place,
    ) -> Result<Option<Mark>, Stop>
        ensures stop { IfErr result MayStop }
    {
        self.not_busy(key, at)?;
        if self.gives(key) {
            return Ok(None);
        }
        let outer = self.level;
        let chain = match member {
            Some(i) => outer.chain.with(i, at)?,
            None => outer.chain,
        };
        self.enter(key, chain)?;
        Ok(Some(Mark { key, member, outer }))
    }

    fn enter(&mut self, key: Key, chain: Chain) -> Result<(), Stop>
        ensures stop { IfErr result MayStop }
    {
        self.note_busy(key)?;
        let reach = Reach::new();
        self.level = Level { chain, reach };
        Ok(())
    }

    // Leaves an evaluation, and says what it added to the chain.
    fn leave(&mut self, mark: Mark) -> Reach {
        let inner = self.level.reach;
        let reach = match mark.member {
            Some(_) => inner.of(mark.member),
            None => inner,
        };
        self.busy.pop();
        self.level = Level {
            chain: mark.outer.chain,
            reach: mark.outer.reach.or(reach),
        };
        reach
    }

    /// Keeps the value that an evaluation gave.
    pub(crate) fn end_value(&mut self, mark: Mark) -> Result<(), Stop>
        ensures stop { IfErr result MayStop }
    {
        let v = self.taken()?;
        let reach = self.leave(mark);
        self.keep(mark.key, Known::of_value(v, reach))?;
        Ok(())
    }

    /// Keeps the type that an evaluation gave.
    pub(crate) fn end_type(&mut self, mark: Mark) -> Result<(), Stop>
        ensures stop { IfErr result MayStop }
    {
        let t = self.taken_type()?;
        let reach = self.leave(mark);
        self.keep(mark.key, Known::of_type(t, reach))?;
        Ok(())
    }

    /// Notes that it is worked out.
    pub(crate) fn end_done(&mut self, mark: Mark) -> Result<(), Stop>
        ensures stop { IfErr result MayStop }
    {
        let reach = self.leave(mark);
        self.keep(mark.key, Known::done(reach))?;
        Ok(())
    }

    /// Begins to work out what has a chain of its own, None where that is done.
    pub(crate) fn begin_apart(&mut self, key: Key, at: Place) -> Result<Option<Mark>, Stop>
        ensures stop { IfErr result MayStop }
    {
        self.not_busy(key, at)?;
        if self.known.get(&key).is_some() {
            return Ok(None);
        }
        let outer = self.level;
        self.enter(key, Chain::new())?;
        let member = None;
        Ok(Some(Mark { key, member, outer }))
    }

    /// Notes that it is done.
    pub(crate) fn end_apart(&mut self, mark: Mark) -> Result<(), Stop>
        ensures stop { IfErr result MayStop }
    {
        self.busy.pop();
        self.level = mark.outer;
        self.keep(mark.key, Known::done(Reach::new()))?;
        Ok(())
    }

    /// Begins to work out a default of a template, and gives what `filled` takes.
    pub(crate) fn fill(&mut self, at: Place) -> Result<Level, Stop>
        ensures stop { IfErr result MayStop }
    {
        let outer = self.level;
        let chain = outer.chain.filling(at)?;
        let reach = Reach::new();
        self.level = Level { chain, reach };
        Ok(outer)
    }

    pub(crate) fn filled(&mut self, outer: Level) {
        let reach = self.level.reach.of(None);
        self.level = Level {
            chain: outer.chain,
            reach: outer.reach.or(reach),
        };
    }
}
