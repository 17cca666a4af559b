//! Values of expressions.
use crate::coder::Coder;
use crate::convert::bits_of;
use crate::walk::Task;
use crate::way::{FIRM, Located, Valued, is_spot};
use scc_base::{NoMemory, lost};
use scc_bits::{Kind, Op, Operands, operand_kinds, signed};
use scc_machine_code::{Act, Form, Operand, Place, operated};
use scc_plain_tree::{Base, PlainExpr, PlainExprNode, PlainLeft, PlainPick};

impl<'t> Coder<'t> {
    /// Begins an expression: its parts from left to right, then the expression itself.
    pub fn begin_value(&mut self, e: &'t PlainExpr) -> Result<(), NoMemory> {
        match e.node.get() {
            PlainExprNode::Lit(word) => {
                let value = self.constant(word.bits, e.kind)?;
                self.give(value)
            }
            PlainExprNode::Load(left) => self.begin_load(e, left),
            PlainExprNode::Read(left) => self.begin_load(e, left),
            PlainExprNode::Convert(of) => self.begin_part(e, of),
            PlainExprNode::Operate { left, right, .. } => self.begin_both(e, left, right),
            PlainExprNode::Choose { test, yes, no } => self.begin_choice(e, test, yes, no),
            PlainExprNode::Pick { of, pick } => self.begin_picked(e, of, pick),
            PlainExprNode::Join(items) => {
                self.then(Task::Apply(e))?;
                self.then(Task::Items(items.as_slice()))
            }
        }
    }

    fn begin_part(&mut self, e: &'t PlainExpr, of: &'t PlainExpr) -> Result<(), NoMemory> {
        self.then(Task::Apply(e))?;
        self.then(Task::Value(of))
    }

    fn begin_both(
        &mut self,
        e: &'t PlainExpr,
        left: &'t PlainExpr,
        right: &'t Option<PlainExpr>,
    ) -> Result<(), NoMemory> {
        self.then(Task::Apply(e))?;
        if let Some(right) = right {
            self.then(Task::Value(right))?;
        }
        self.then(Task::Value(left))
    }

    fn begin_choice(
        &mut self,
        e: &'t PlainExpr,
        test: &'t PlainExpr,
        yes: &'t PlainExpr,
        no: &'t PlainExpr,
    ) -> Result<(), NoMemory> {
        self.then(Task::Apply(e))?;
        self.then(Task::Value(no))?;
        self.then(Task::Value(yes))?;
        self.then(Task::Value(test))
    }

    fn begin_load(&mut self, e: &'t PlainExpr, left: &'t PlainLeft) -> Result<(), NoMemory> {
        self.then(Task::Apply(e))?;
        if let Some(pick) = &left.pick {
            self.begin_pick(pick)?;
        }
        self.then(Task::Locate(left, FIRM))
    }

    fn begin_picked(
        &mut self,
        e: &'t PlainExpr,
        of: &'t PlainExpr,
        pick: &'t PlainPick,
    ) -> Result<(), NoMemory> {
        self.then(Task::Apply(e))?;
        self.begin_pick(pick)?;
        self.then(Task::Value(of))
    }

    fn begin_pick(&mut self, pick: &'t PlainPick) -> Result<(), NoMemory> {
        match pick {
            PlainPick::Bit { at: index, .. } => self.then(Task::Value(index)),
            PlainPick::Range { .. } => Ok(()),
        }
    }

    /// Ends an expression whose parts have values.
    pub fn apply(&mut self, e: &'t PlainExpr) -> Result<(), NoMemory> {
        let value = match e.node.get() {
            PlainExprNode::Lit(word) => self.constant(word.bits, e.kind)?,
            PlainExprNode::Load(left) => self.load(e.kind, left, false)?,
            PlainExprNode::Read(left) => self.load(e.kind, left, true)?,
            PlainExprNode::Convert(_) => {
                let value = self.take()?;
                let to = self.next_value()?;
                self.converted(value, e.kind, to)?
            }
            PlainExprNode::Operate { op, right, .. } => self.operate(*op, right.is_some(), e.kind)?,
            PlainExprNode::Choose { .. } => self.choose(e.kind)?,
            PlainExprNode::Pick { pick, .. } => self.pick(e.kind, pick)?,
            PlainExprNode::Join(items) => self.join(e.kind, items.as_slice())?,
        };
        self.give(value)
    }

    // What a variable holds or a port shows, or its picked bits.
    fn load(&mut self, kind: Kind, left: &'t PlainLeft, shown: bool) -> Result<Valued, NoMemory> {
        let index = match &left.pick {
            Some(PlainPick::Bit { .. }) => Some(self.take()?),
            _ => None,
        };
        let located = self.take_located()?;
        let of = operand_at(located.at, shown);
        match &left.pick {
            None => self.whole(kind, of, is_spot(located.at)),
            Some(pick) => {
                let value = Valued {
                    at: of,
                    kind: kind_of(&located)?,
                    known: None,
                };
                self.bits(kind, value, pick, index)
            }
        }
    }

    // A location in between may be another one by the time that its word is used.
    fn whole(&mut self, kind: Kind, of: Operand, between: bool) -> Result<Valued, NoMemory> {
        let mut at = of;
        if between {
            let to = self.next_value()?;
            let form = Form::Same;
            self.maker.emit(Act::Change { form, to, of })?;
            at = Operand::Temporary(to);
        }
        Ok(Valued {
            at,
            kind,
            known: None,
        })
    }

    fn pick(&mut self, kind: Kind, pick: &'t PlainPick) -> Result<Valued, NoMemory> {
        let index = match pick {
            PlainPick::Bit { .. } => Some(self.take()?),
            PlainPick::Range { .. } => None,
        };
        let value = self.take()?;
        self.bits(kind, value, pick, index)
    }

    fn bits(
        &mut self,
        kind: Kind,
        value: Valued,
        pick: &'t PlainPick,
        index: Option<Valued>,
    ) -> Result<Valued, NoMemory> {
        let to = self.next_value()?;
        let of = value.at;
        let act = match (pick, index) {
            (PlainPick::Range { h, l, .. }, _) => {
                let (at, bits) = range_of(*h, *l);
                Act::Part { at, bits, to, of }
            }
            (PlainPick::Bit { .. }, Some(index)) => {
                let between = self.maker.temporary(to.saturating_add(1));
                let index_kind = index.kind;
                let index = self.number_in(index, index_kind, between)?.at;
                let bits = bits_of(value.kind);
                Act::Bit {
                    bits,
                    to,
                    of,
                    index,
                }
            }
            (PlainPick::Bit { .. }, None) => return Err(lost()),
        };
        self.maker.emit(act)?;
        Ok(at_temporary(to, kind))
    }

    fn operate(&mut self, op: Op, is_binary: bool, kind: Kind) -> Result<Valued, NoMemory> {
        let last = self.take()?;
        let first = if is_binary { self.take()? } else { last };
        let Some(kinds) = operand_kinds(op, first.kind, last.kind) else {
            return Err(lost());
        };
        let to = self.next_value()?;
        match op {
            Op::AndReduce => {
                let all = formed_bits(bits_of(first.kind));
                let right = self.constant(all, first.kind)?;
                self.computed(Op::Eq, false, first, right, kind, to)
            }
            Op::OrReduce => self.converted(first, Kind::Bool, to),
            Op::XorReduce => self.computed(op, false, first, first, kind, to),
            _ => self.operate_in(
                op,
                kinds,
                first,
                if is_binary { Some(last) } else { None },
                to,
            ),
        }
    }

    fn operate_in(
        &mut self,
        op: Op,
        kinds: Operands,
        first: Valued,
        last: Option<Valued>,
        to: u32,
    ) -> Result<Valued, NoMemory> {
        let left = self.number_in(first, kinds.left, to)?;
        let right = match last {
            Some(last) => {
                let between = self.maker.temporary(to.saturating_add(1));
                self.number_in(last, kinds.right, between)?
            }
            None => left,
        };
        self.computed(op, signed(kinds.left), left, right, kinds.answer, to)
    }

    // An operator's answer for numbers in two's complement of 128 bits.
    fn computed(
        &mut self,
        op: Op,
        signed: bool,
        left: Valued,
        right: Valued,
        kind: Kind,
        to: u32,
    ) -> Result<Valued, NoMemory> {
        let bits = bits_of(kind);
        if let (Some(x), Some(y)) = (left.known, right.known) {
            return self.constant(operated(op, signed, bits, x, y), kind);
        }
        let (left, right) = (left.at, right.at);
        self.maker.emit(Act::Operate {
            op,
            signed,
            bits,
            to,
            left,
            right,
        })?;
        Ok(at_temporary(to, kind))
    }

    // Both sides are worked out: neither has an effect.
    fn choose(&mut self, kind: Kind) -> Result<Valued, NoMemory> {
        let no = self.take()?;
        let yes = self.take()?;
        let test = self.take()?.at;
        let to = self.next_value()?;
        let second = self.maker.temporary(to.saturating_add(1));
        let third = self.maker.temporary(to.saturating_add(2));
        let yes = self.converted(yes, kind, second)?.at;
        let no = self.converted(no, kind, third)?.at;
        self.maker.emit(Act::Choose { to, test, yes, no })?;
        Ok(at_temporary(to, kind))
    }

    // The values of the items side by side, the last one lowest.
    fn join(&mut self, kind: Kind, items: &'t [PlainExpr]) -> Result<Valued, NoMemory> {
        let first = self.values.len().checked_sub(items.len()).ok_or(lost())?;
        let Ok(number) = u32::try_from(first) else {
            return Err(lost());
        };
        let to = self.maker.temporary(number);
        let mut high = self.constant(0, kind)?.at;
        for at in first..self.values.len() {
            let item = match self.values.get(at) {
                Some(item) => *item,
                None => return Err(lost()),
            };
            let low = bits_of(item.kind);
            let of = item.at;
            self.maker.emit(Act::Join { low, to, high, of })?;
            high = Operand::Temporary(to);
        }
        self.values.truncate(first);
        Ok(at_temporary(to, kind))
    }
}

fn at_temporary(to: u32, kind: Kind) -> Valued {
    Valued {
        at: Operand::Temporary(to),
        kind,
        known: None,
    }
}

/// The word of a variable, or what a port or signal shows.
pub fn operand_at(at: Place, shown: bool) -> Operand {
    if shown {
        Operand::Shown(at)
    } else {
        Operand::Held(at)
    }
}

/// The kind of the number at a location.
pub fn kind_of(located: &Located<'_>) -> Result<Kind, NoMemory> {
    if !located.is_whole() {
        return Err(lost());
    }
    match located.base {
        Some(Base::Number(kind)) => Ok(kind),
        Some(Base::Input(kind)) => Ok(kind),
        Some(Base::Output(kind)) => Ok(kind),
        Some(Base::Signal(kind)) => Ok(kind),
        _ => Err(lost()),
    }
}

/// The first of bits h down to l, and how many they are.
pub fn range_of(h: u32, l: u32) -> (u8, u8) {
    let bits = h.saturating_sub(l).saturating_add(1);
    (
        u8::try_from(l).unwrap_or(u8::MAX),
        u8::try_from(bits).unwrap_or(u8::MAX),
    )
}

// The word all of whose bits are set.
fn formed_bits(bits: u8) -> u128 {
    scc_machine_code::formed(Form::Low(bits), u128::MAX)
}
