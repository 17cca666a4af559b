//! Locations of left sides: pointers and references are followed where they are met.
use crate::coder::Coder;
use crate::layout::{member_of, product};
use crate::walk::Task;
use crate::way::{Located, Valued, Way, beyond, is_spot};
use scc_base::{NoMemory, lost};
use scc_machine_code::{Act, NOWHERE, Place};
use scc_plain_tree::{Base, PlainBase, PlainExpr, PlainExprNode, PlainLeft, PlainPart, Reach};

impl<'t> Coder<'t> {
    /// Begins a location: what it is based on, then its parts.
    pub fn locate(&mut self, left: &'t PlainLeft, way: Way) -> Result<(), NoMemory> {
        let located = match &left.base {
            PlainBase::Local(local) => self.from_local(left, *local, way)?,
            PlainBase::This => self.this()?,
            PlainBase::Answer(call) => {
                let slot = self.answer(*call);
                Located::one(Place::Local(slot), None)
            }
            PlainBase::Follow(inner) => {
                self.then(Task::Behind(left, way))?;
                let inside = Way {
                    soft: way.soft,
                    raw: false,
                };
                return self.then(Task::Locate(inner.get(), inside));
            }
        };
        self.give_located(located)?;
        self.then(Task::Parts(left, 0, way))
    }

    fn this(&self) -> Result<Located<'t>, NoMemory> {
        match self.function.class {
            Some(class) => Ok(Located::one(Place::Member(0), Some(Base::Class(class)))),
            None => Err(lost()),
        }
    }

    fn from_local(
        &mut self,
        left: &'t PlainLeft,
        local: u32,
        way: Way,
    ) -> Result<Located<'t>, NoMemory> {
        let (member, slot) = self.local(local)?;
        let located = Located::declared(Place::Local(slot), member);
        if member.shape.reach == Reach::Reference && !(way.raw && left.parts.is_empty()) {
            return self.follow(located, way);
        }
        Ok(located)
    }

    // What a pointer or reference leads to. An array of references has none.
    fn follow(&mut self, pointer: Located<'t>, way: Way) -> Result<Located<'t>, NoMemory> {
        let spot = self.next_spot()?;
        let at = if pointer.sizes.is_empty() {
            pointer.at
        } else {
            Place::Local(NOWHERE)
        };
        let soft = way.soft.is_some();
        self.maker.emit(Act::Follow { spot, at, soft })?;
        let mut found = Located::one(Place::Spot(spot), pointer.base);
        found.vector = pointer.vector;
        Ok(found)
    }

    /// Follows the pointer on which a location is based.
    pub fn behind(&mut self, left: &'t PlainLeft, way: Way) -> Result<(), NoMemory> {
        let pointer = self.take_located()?;
        let located = self.follow(pointer, way)?;
        self.give_located(located)?;
        self.then(Task::Parts(left, 0, way))
    }

    /// Goes on by a location's parts from the given one on.
    pub fn parts(&mut self, left: &'t PlainLeft, from: usize, way: Way) -> Result<(), NoMemory> {
        match left.parts.get(from) {
            None => Ok(()),
            Some(PlainPart::Index(index)) => {
                self.open_index(index, way)?;
                self.then(Task::Element(left, from, way))?;
                self.then(Task::Value(index))
            }
            Some(PlainPart::Member(member)) => {
                let next = from.saturating_add(1);
                let follows = !(way.raw && next >= left.parts.len());
                self.member(*member, follows, way)?;
                self.then(Task::Parts(left, next, way))
            }
        }
    }

    // Behind null no index is looked at.
    fn open_index(&mut self, index: &'t PlainExpr, way: Way) -> Result<(), NoMemory> {
        let Some(end) = way.soft else {
            return Ok(());
        };
        if let PlainExprNode::Lit(_) = index.node.get() {
            return Ok(());
        }
        let located = self.take_located()?;
        let (found, spot) = self.in_between(located, true)?;
        self.maker.if_null(spot, end)?;
        self.give_located(found)
    }

    // The location as one in between, and its number.
    fn in_between(
        &mut self,
        located: Located<'t>,
        soft: bool,
    ) -> Result<(Located<'t>, u32), NoMemory> {
        let spot = self.next_spot()?;
        let mut found = located;
        if !is_spot(located.at) {
            let at = located.at;
            self.maker.emit(Act::Take { spot, at, soft })?;
            found.at = Place::Spot(spot);
        }
        Ok((found, spot))
    }

    fn member(&mut self, number: u32, follows: bool, way: Way) -> Result<(), NoMemory> {
        let object = self.take_located()?;
        let (true, Some(Base::Class(class))) = (object.is_whole(), object.base) else {
            return Err(lost());
        };
        let member = member_of(self.p, class, number)?;
        let by = self.layout.offset(class, number)?;
        let at = self.moved(object.at, by)?;
        let located = Located::declared(at, member);
        let found = if member.shape.reach == Reach::Reference && follows {
            self.follow(located, way)?
        } else {
            self.entered(located, way)?
        };
        self.give_located(found)
    }

    fn moved(&mut self, at: Place, by: u32) -> Result<Place, NoMemory> {
        if let Place::Spot(spot) = at {
            if by > 0 {
                self.maker.emit(Act::Behind { spot, by })?;
            }
            return Ok(at);
        }
        Ok(beyond(at, by))
    }

    // The object itself where a location is the slot of one.
    fn entered(&mut self, located: Located<'t>, way: Way) -> Result<Located<'t>, NoMemory> {
        let (true, Some(Base::Class(_))) = (located.is_whole(), located.base) else {
            return Ok(located);
        };
        let spot = self.next_spot()?;
        let at = located.at;
        let soft = way.soft.is_some();
        self.maker.emit(Act::Enter { spot, at, soft })?;
        Ok(Located::one(Place::Spot(spot), located.base))
    }

    /// Takes the element whose index has a value.
    pub fn element(&mut self, left: &'t PlainLeft, at: usize, way: Way) -> Result<(), NoMemory> {
        let index = self.take()?;
        let of = self.take_located()?;
        let found = match of.sizes {
            [size, rest @ ..] => self.element_of(of, *size, rest, index, way)?,
            [] => self.row(of, index, way)?,
        };
        let found = self.entered(found, way)?;
        self.give_located(found)?;
        self.then(Task::Parts(left, at.saturating_add(1), way))
    }

    fn element_of(
        &mut self,
        of: Located<'t>,
        size: u32,
        rest: &'t [u32],
        index: Valued,
        way: Way,
    ) -> Result<Located<'t>, NoMemory> {
        let stride = product(rest);
        let mut found = of;
        if let (Some(i), false) = (self.known_number(index), is_spot(of.at)) {
            found.at = beyond(of.at, element_offset(i, size, stride));
        } else {
            let (between, spot) = self.in_between(of, way.soft.is_some())?;
            let index = self.number(index)?;
            self.maker.emit(Act::Element {
                spot,
                size,
                stride,
                index,
            })?;
            found = between;
        }
        found.sizes = rest;
        Ok(found)
    }

    fn row(&mut self, of: Located<'t>, index: Valued, way: Way) -> Result<Located<'t>, NoMemory> {
        if !of.vector || of.pointer {
            return Err(lost());
        }
        let spot = self.next_spot()?;
        let index = self.number(index)?;
        let at = of.at;
        let soft = way.soft.is_some();
        self.maker.emit(Act::Row {
            spot,
            at,
            soft,
            index,
        })?;
        Ok(Located::one(Place::Spot(spot), of.base))
    }
}

// How many slots stand before an element; nowhere past the end.
fn element_offset(index: u128, size: u32, stride: u32) -> u32 {
    if index < u128::from(size) {
        (index as u32).saturating_mul(stride)
    } else {
        NOWHERE
    }
}
