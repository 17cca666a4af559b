//! Conversions of values.
use crate::coder::Coder;
use crate::way::Valued;
use scc_base::NoMemory;
use scc_bits::{Kind, signed, width};
use scc_machine_code::{Act, Form, Operand, formed};

/// The number of bits of a kind's words, 1 to 128.
pub fn bits_of(kind: Kind) -> u8 {
    u8::try_from(width(kind)).unwrap_or(128)
}

impl<'t> Coder<'t> {
    // The value changed, in the word in between of that number.
    fn changed(&mut self, value: Valued, form: Form, to: u32) -> Result<Valued, NoMemory> {
        let kind = value.kind;
        if let Some(x) = value.known {
            return self.constant(formed(form, x), kind);
        }
        let to = self.maker.temporary(to);
        let of = value.at;
        self.maker.emit(Act::Change { form, to, of })?;
        Ok(Valued {
            at: Operand::Temporary(to),
            kind,
            known: None,
        })
    }

    /// A constant.
    pub fn constant(&mut self, x: u128, kind: Kind) -> Result<Valued, NoMemory> {
        Ok(Valued {
            at: self.maker.constant(x)?,
            kind,
            known: Some(x),
        })
    }

    /// A value in another kind, in the word in between of that number if need be (C++ \[conv\]; IEEE 1666-2011, 7.2.1).
    pub fn converted(&mut self, value: Valued, kind: Kind, to: u32) -> Result<Valued, NoMemory> {
        let (from, bits) = (bits_of(value.kind), bits_of(kind));
        let mut found = value;
        if kind == Kind::Bool {
            if value.kind != Kind::Bool {
                found = self.changed(found, Form::Truth, to)?;
            }
        } else if bits < from {
            found = self.changed(found, Form::Low(bits), to)?;
        } else if bits > from && signed(value.kind) {
            found = self.changed(found, Form::Extended(from), to)?;
            found = self.changed(found, Form::Low(bits), to)?;
        }
        found.kind = kind;
        Ok(found)
    }

    /// The number of a value in another kind, in two's complement of 128 bits.
    pub fn number_in(&mut self, value: Valued, kind: Kind, to: u32) -> Result<Valued, NoMemory> {
        let (from, bits) = (bits_of(value.kind), bits_of(kind));
        let mut found = value;
        if kind == Kind::Bool {
            return self.converted(value, kind, to);
        }
        if bits > from && signed(value.kind) {
            found = self.changed(found, Form::Extended(from), to)?;
            if !signed(kind) {
                found = self.changed(found, Form::Low(bits), to)?;
            }
        } else if bits <= from {
            if bits < from {
                found = self.changed(found, Form::Low(bits), to)?;
            }
            if signed(kind) {
                found = self.changed(found, Form::Extended(bits), to)?;
            }
        }
        found.kind = kind;
        Ok(found)
    }

    /// The number of the value that was taken last, in two's complement of 128 bits.
    pub fn number(&mut self, value: Valued) -> Result<Operand, NoMemory> {
        let to = self.next_value()?;
        let kind = value.kind;
        Ok(self.number_in(value, kind, to)?.at)
    }

    /// The number of a constant, in two's complement of 128 bits.
    pub fn known_number(&self, value: Valued) -> Option<u128> {
        let x = value.known?;
        if signed(value.kind) {
            Some(formed(Form::Extended(bits_of(value.kind)), x))
        } else {
            Some(x)
        }
    }
}
