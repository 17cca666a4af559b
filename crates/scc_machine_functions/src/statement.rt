//! Statements, by a stack of what is still to be coded: a `switch` nests as many blocks as it has labels.
use crate::coder::{Coder, Work};
use crate::convert::bits_of;
use crate::layout::slots_of;
use crate::value::{kind_of, operand_at, range_of};
use crate::way::{FIRM, RAW, Valued};
use scc_base::{NoMemory, lost, push};
use scc_bits::Kind;
use scc_machine_code::{Act, Label, Operand, Place};
use scc_plain_tree::{PlainExpr, PlainLeft, PlainNode, PlainPick, PlainStmt, PlainTarget};

impl<'t> Coder<'t> {
    fn later(&mut self, work: Work<'t>) -> Result<(), NoMemory> {
        push(&mut self.works, work)
    }

    /// Codes a function's body: a block that `Exit` may leave, too.
    pub fn body(&mut self) -> Result<(), NoMemory> {
        let function = self.function;
        self.maker.begin()?;
        self.block(function.body.as_slice())?;
        for _ in 0..usize::MAX {
            let Some(work) = self.works.pop() else {
                return Ok(());
            };
            self.work(work)?;
        }
        Err(lost())
    }

    fn work(&mut self, work: Work<'t>) -> Result<(), NoMemory> {
        match work {
            Work::Statements(list) => match list {
                [] => Ok(()),
                [s, rest @ ..] => {
                    self.later(Work::Statements(rest))?;
                    self.statement(s)
                }
            },
            Work::Set(label) => self.maker.set(label),
            Work::Other(other, end) => {
                self.maker.go(end)?;
                self.maker.set(other)
            }
            Work::EndBlock(end) => {
                self.end_block()?;
                self.maker.set(end)
            }
            Work::Again(start) => {
                self.maker.pay(1);
                self.maker.go(start)
            }
        }
    }

    fn end_block(&mut self) -> Result<(), NoMemory> {
        match self.blocks.pop() {
            Some(_end) => Ok(()),
            None => Err(lost()),
        }
    }

    // Each statement costs a step but a declaration, which costs one for each element.
    fn statement(&mut self, s: &'t PlainStmt) -> Result<(), NoMemory> {
        if let PlainNode::Declare(local) = &s.node {
            return self.declare(*local);
        }
        if let PlainNode::Call {
            number,
            function,
            object,
            args,
        } = &s.node
        {
            return self.call(*number, *function, object, args.as_slice());
        }
        self.maker.pay(1);
        match &s.node {
            PlainNode::Assign { left, value } => self.assign(left, value),
            PlainNode::Write { to, value } => self.write(to, value),
            PlainNode::Point { left, target } => self.point(left, target),
            PlainNode::Return(value) => self.give_back(value),
            PlainNode::Wait(n) => self.maker.emit(Act::Wait(*n)),
            _ => self.nested(s),
        }
    }

    fn nested(&mut self, s: &'t PlainStmt) -> Result<(), NoMemory> {
        match &s.node {
            PlainNode::If { test, yes, no } => self.branch(test, yes.as_slice(), no.as_slice()),
            PlainNode::Block(body) => self.block(body.as_slice()),
            PlainNode::Loop { body, .. } => self.begin_loop(body.as_slice()),
            PlainNode::Exit(n) => self.exit(*n),
            // A statement of constructors.
            _ => self.maker.emit(Act::Stick),
        }
    }

    fn declare(&mut self, local: u32) -> Result<(), NoMemory> {
        let (member, first) = self.local(local)?;
        let count = slots_of(&member.shape);
        self.maker.pay(count);
        self.maker.emit(Act::Clear { first, count })
    }

    fn branch(
        &mut self,
        test: &'t PlainExpr,
        yes: &'t [PlainStmt],
        no: &'t [PlainStmt],
    ) -> Result<(), NoMemory> {
        let test = self.value_of(test)?.at;
        let end = self.maker.label()?;
        self.later(Work::Set(end))?;
        if no.is_empty() {
            self.maker.unless(test, end)?;
        } else {
            let other = self.maker.label()?;
            self.maker.unless(test, other)?;
            self.later(Work::Statements(no))?;
            self.later(Work::Other(other, end))?;
        }
        self.later(Work::Statements(yes))
    }

    fn block(&mut self, body: &'t [PlainStmt]) -> Result<(), NoMemory> {
        let end = self.maker.label()?;
        push(&mut self.blocks, end)?;
        self.later(Work::EndBlock(end))?;
        self.later(Work::Statements(body))
    }

    fn begin_loop(&mut self, body: &'t [PlainStmt]) -> Result<(), NoMemory> {
        let start = self.maker.label()?;
        self.maker.set(start)?;
        self.later(Work::Again(start))?;
        self.later(Work::Statements(body))
    }

    fn exit(&mut self, n: u32) -> Result<(), NoMemory> {
        let to = self.enclosing(n)?;
        self.maker.go(to)
    }

    // Where the block of that number ends, counted outward from 0.
    fn enclosing(&self, n: u32) -> Result<Label, NoMemory> {
        match self.blocks.iter().rev().nth(n as usize) {
            Some(end) => Ok(*end),
            None => Err(lost()),
        }
    }

    fn give_back(&mut self, value: &'t Option<PlainExpr>) -> Result<(), NoMemory> {
        if let (Some(e), Some(kind)) = (value, self.function.result) {
            let value = self.value_of(e)?;
            let to = self.next_value()?;
            let of = self.converted(value, kind, to)?.at;
            self.maker.emit(Act::Answer(of))?;
        }
        self.maker.emit(Act::Leave)
    }

    // The left side's location, then the value, then the number of a bit.
    fn assign(&mut self, left: &'t PlainLeft, value: &'t PlainExpr) -> Result<(), NoMemory> {
        self.location(left, FIRM)?;
        self.value(value)?;
        let located = self.last_located()?;
        let kind = kind_of(&located)?;
        let of = match &left.pick {
            None => {
                let value = self.take()?;
                let to = self.next_value()?;
                self.converted(value, kind, to)?.at
            }
            Some(PlainPick::Range { h, l, .. }) => self.splice(located.at, *h, *l)?,
            Some(PlainPick::Bit { at: index, .. }) => self.splice_bit(located.at, kind, index)?,
        };
        self.take_located()?;
        self.maker.emit(Act::Store { to: located.at, of })
    }

    fn splice(&mut self, at: Place, h: u32, l: u32) -> Result<Operand, NoMemory> {
        let part = self.take()?.at;
        let to = self.next_value()?;
        let of = operand_at(at, false);
        let (at, bits) = range_of(h, l);
        self.maker.emit(Act::Splice {
            at,
            bits,
            to,
            of,
            part,
        })?;
        Ok(Operand::Temporary(to))
    }

    fn splice_bit(
        &mut self,
        at: Place,
        kind: Kind,
        index: &'t PlainExpr,
    ) -> Result<Operand, NoMemory> {
        let index = self.value_of(index)?;
        let index = self.number(index)?;
        let value: Valued = self.take()?;
        let to = self.next_value()?;
        let bit = self.converted(value, Kind::Bool, to)?.at;
        let of = operand_at(at, false);
        let bits = bits_of(kind);
        self.maker.emit(Act::SpliceBit {
            bits,
            to,
            of,
            index,
            bit,
        })?;
        Ok(Operand::Temporary(to))
    }

    fn write(&mut self, to: &'t PlainLeft, value: &'t PlainExpr) -> Result<(), NoMemory> {
        self.location(to, FIRM)?;
        let value = self.value_of(value)?;
        let located = self.take_located()?;
        let between = self.next_value()?;
        let kind = kind_of(&located)?;
        let of = self.converted(value, kind, between)?.at;
        self.maker.emit(Act::Write { to: located.at, of })
    }

    fn point(&mut self, left: &'t PlainLeft, target: &'t PlainTarget) -> Result<(), NoMemory> {
        self.location(left, RAW)?;
        let spot = self.target(target)?;
        self.take_located()?;
        let located = self.take_located()?;
        if !located.pointer || !located.sizes.is_empty() {
            return Err(lost());
        }
        let at = located.at;
        self.maker.emit(Act::Point { at, spot })
    }
}
