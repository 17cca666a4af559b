//! One act after another.
use crate::act::Act;
use crate::forms::{bit, formed, from_bit, low, operated, spliced, spliced_bit, up};
use crate::place::{Frame, NOWHERE, NULL, Operand, Place, behind};
use crate::store::Store;

impl Store {
    /// Does the act of a line; the number of the line that follows.
    #[inline(always)]
    pub(crate) fn act(&mut self, act: Act, at: u32, f: Frame) -> u32 {
        let next = at.saturating_add(1);
        match act {
            Act::Go(to) => return to,
            Act::Unless { test, to } => {
                if self.value(f, test) == 0 {
                    return to;
                }
            }
            Act::IfNull { spot, to } => {
                if self.spot(spot) == NULL {
                    return to;
                }
            }
            Act::Store { to, of } => {
                let x = self.value(f, of);
                self.store(f, to, x);
            }
            Act::Write { to, of } => {
                let x = self.value(f, of);
                self.write(f, to, x);
            }
            Act::Clear { first, count } => self.clear(behind(f.base, first), count),
            Act::Answer(of) => {
                let x = self.value(f, of);
                self.set_word(f.answer, x);
            }
            Act::Stick => self.stick(),
            Act::Rest => {}
            _ => self.work(act, f),
        }
        next
    }

    #[inline(always)]
    fn work(&mut self, act: Act, f: Frame) {
        match act {
            Act::Operate {
                op,
                signed,
                bits,
                to,
                left,
                right,
            } => {
                let x = self.value(f, left);
                let y = self.value(f, right);
                self.set_temporary(to, operated(op, signed, bits, x, y));
            }
            Act::Change { form, to, of } => {
                let x = self.value(f, of);
                self.set_temporary(to, formed(form, x));
            }
            Act::Choose { to, test, yes, no } => {
                let taken = if self.value(f, test) == 0 { no } else { yes };
                let x = self.value(f, taken);
                self.set_temporary(to, x);
            }
            Act::Bit { .. } | Act::Part { .. } | Act::Join { .. } => self.pick(act, f),
            Act::Splice { .. } | Act::SpliceBit { .. } => self.splice(act, f),
            _ => self.locate(act, f),
        }
    }

    fn pick(&mut self, act: Act, f: Frame) {
        match act {
            Act::Bit {
                bits,
                to,
                of,
                index,
            } => {
                let x = self.value(f, of);
                let i = self.value(f, index);
                self.set_temporary(to, bit(bits, x, i));
            }
            Act::Part { at, bits, to, of } => {
                let x = self.value(f, of);
                self.set_temporary(to, low(bits, from_bit(at, x)));
            }
            Act::Join {
                low: by,
                to,
                high,
                of,
            } => {
                let x = self.value(f, high);
                let y = self.value(f, of);
                self.set_temporary(to, up(by, x) | y);
            }
            _ => {}
        }
    }

    fn splice(&mut self, act: Act, f: Frame) {
        match act {
            Act::Splice {
                at,
                bits,
                to,
                of,
                part,
            } => {
                let x = self.value(f, of);
                let y = self.value(f, part);
                self.set_temporary(to, spliced(x, at, bits, y));
            }
            Act::SpliceBit {
                bits,
                to,
                of,
                index,
                bit,
            } => {
                let x = self.value(f, of);
                let i = self.value(f, index);
                let y = self.value(f, bit);
                self.set_temporary(to, spliced_bit(bits, x, i, y));
            }
            _ => {}
        }
    }

    #[inline(always)]
    fn locate(&mut self, act: Act, f: Frame) {
        match act {
            Act::Take { spot, at, soft } => {
                let at = self.located(f, at, soft);
                self.set_spot(spot, at);
            }
            Act::Follow { spot, at, soft } => self.follow(spot, at, soft, f),
            Act::Enter { spot, at, soft } => self.enter(spot, at, soft, f),
            Act::Behind { spot, by } => {
                let at = behind(self.spot(spot), by);
                self.set_spot(spot, at);
            }
            Act::Element {
                spot,
                size,
                stride,
                index,
            } => {
                let i = self.value(f, index);
                let at = element(self.spot(spot), size, stride, i);
                self.set_spot(spot, at);
            }
            Act::Row {
                spot,
                at,
                soft,
                index,
            } => self.row(spot, at, soft, index, f),
            Act::Forget { spot } => self.set_spot(spot, NULL),
            Act::Point { at, spot } => {
                let at = self.located(f, at, false);
                let to = self.spot(spot);
                self.set_link(at, to);
            }
            _ => {}
        }
    }

    fn follow(&mut self, spot: u32, at: Place, soft: bool, f: Frame) {
        let at = self.located(f, at, soft);
        let to = self.link(at);
        if to == NULL && !soft {
            self.stick();
            self.set_spot(spot, NOWHERE);
        } else {
            self.set_spot(spot, to);
        }
    }

    // The object in a slot is never null, but the slot may stand behind null.
    fn enter(&mut self, spot: u32, at: Place, soft: bool, f: Frame) {
        let at = self.located(f, at, soft);
        if at == NULL {
            self.set_spot(spot, NULL);
        } else {
            let to = self.link(at).min(NOWHERE);
            self.set_spot(spot, to);
        }
    }

    fn row(&mut self, spot: u32, at: Place, soft: bool, index: Operand, f: Frame) {
        let at = self.located(f, at, soft);
        let i = self.value(f, index);
        if at == NULL {
            self.set_spot(spot, NULL);
        } else if i < self.word(at) {
            let to = element(self.link(at), u32::MAX, 1, i);
            self.set_spot(spot, to);
        } else {
            self.set_spot(spot, NOWHERE);
        }
    }
}

// The slot of an element; nowhere past the end.
#[inline(always)]
fn element(of: u32, size: u32, stride: u32, index: u128) -> u32 {
    if of >= NOWHERE {
        of
    } else if index < u128::from(size) {
        of.saturating_add((index as u32).saturating_mul(stride))
    } else {
        NOWHERE
    }
}
