//! What pointers are given, and the arguments of calls.
use crate::coder::Coder;
use crate::layout::{plus, slots_of};
use crate::way::{Way, is_spot};
use scc_base::{NoMemory, lost};
use scc_machine_code::{Act, Object, Place};
use scc_plain_tree::{Base, PlainArg, PlainFunction, PlainLeft, PlainMember, PlainTarget};

impl<'t> Coder<'t> {
    /// Codes where a target leads, and keeps it as a location in between; its number.
    pub fn target(&mut self, target: &'t PlainTarget) -> Result<u32, NoMemory> {
        match target {
            PlainTarget::Null => {
                let spot = self.next_spot()?;
                self.maker.emit(Act::Forget { spot })?;
                self.give_spot(spot)?;
                Ok(spot)
            }
            PlainTarget::Address(left) => self.soft_location(left),
            PlainTarget::Copy(left) => {
                let spot = self.soft_location(left)?;
                let at = Place::Spot(spot);
                let soft = true;
                self.maker.emit(Act::Follow { spot, at, soft })?;
                Ok(spot)
            }
        }
    }

    // A location behind whose null pointers null stands.
    fn soft_location(&mut self, left: &'t PlainLeft) -> Result<u32, NoMemory> {
        let end = self.maker.label()?;
        self.location(left, Way::soft(end))?;
        let located = self.take_located()?;
        let spot = self.next_spot()?;
        if !is_spot(located.at) {
            let at = located.at;
            let soft = true;
            self.maker.emit(Act::Take { spot, at, soft })?;
        }
        self.maker.set(end)?;
        self.give_spot(spot)?;
        Ok(spot)
    }

    /// Codes a call. It costs a step, one for a result and one for each parameter.
    pub fn call(
        &mut self,
        number: u32,
        function: u32,
        object: &'t Option<PlainLeft>,
        args: &'t [PlainArg],
    ) -> Result<(), NoMemory> {
        let p = self.p;
        let Some(callee) = p.functions.get(function as usize) else {
            return Err(lost());
        };
        let result = u32::from(callee.result.is_some());
        self.maker
            .pay(callee.params.saturating_add(1).saturating_add(result));
        let depth = self.located.len();
        let object = self.object(callee, object)?;
        self.maker.emit(Act::Begin { number, function })?;
        let answer = self.answer(number);
        if callee.result.is_some() {
            let (first, count) = (answer, 1);
            self.maker.emit(Act::Clear { first, count })?;
        }
        self.pass_all(callee, args)?;
        self.located.truncate(depth);
        self.maker.emit(Act::Call {
            function,
            object,
            answer,
        })
    }

    fn object(
        &mut self,
        callee: &PlainFunction,
        object: &'t Option<PlainLeft>,
    ) -> Result<Object, NoMemory> {
        match (callee.class, object) {
            (None, _) => Ok(Object::Missing),
            (Some(_), None) => Ok(Object::This),
            (Some(_), Some(left)) => Ok(Object::Spot(self.soft_location(left)?)),
        }
    }

    fn pass_all(
        &mut self,
        callee: &'t PlainFunction,
        args: &'t [PlainArg],
    ) -> Result<(), NoMemory> {
        let mut slot = 0;
        let mut params = callee.locals.as_slice().iter();
        for arg in args {
            let Some(param) = params.next() else {
                return Err(lost());
            };
            self.pass(arg, param, slot)?;
            slot = plus(slot, slots_of(&param.shape));
        }
        Ok(())
    }

    fn pass(
        &mut self,
        arg: &'t PlainArg,
        param: &'t PlainMember,
        slot: u32,
    ) -> Result<(), NoMemory> {
        match (arg, param.shape.base) {
            (PlainArg::Value(e), Base::Number(kind)) => {
                let value = self.value_of(e)?;
                let to = self.next_value()?;
                let of = self.converted(value, kind, to)?.at;
                self.maker.emit(Act::Pass { slot, of })
            }
            (PlainArg::Target(target), _) => {
                let spot = self.target(target)?;
                self.take_located()?;
                self.maker.emit(Act::PassSpot { slot, spot })
            }
            _ => Err(lost()),
        }
    }
}
