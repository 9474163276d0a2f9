//! The instructions of a function's body, one after the other, as far as they can be read.

use crate::reader::Reader;

/// An instruction of a body.
#[derive(Clone, Copy, Debug, PartialEq, Eq)]
pub struct Step {
    /// How many instructions of the body come before it, `else` and `end` included.
    pub number: u32,
    /// The offset of its opcode.
    pub offset: usize,
    /// The offset after it; `usize::MAX` where it can't be read to its end.
    pub end: usize,
}

/// The instructions that are left of a body.
#[derive(Clone, Copy)]
pub struct Walk<'a> {
    reader: Reader<'a>,
    number: u32,
    depth: u32,
    has_ended: bool,
}

impl<'a> Walk<'a> {
    /// Begins at a body's locals; none where they can't be read to their end.
    pub fn behind_locals(bytes: &'a [u8], offset: usize) -> Option<Walk<'a>> {
        let mut reader = Reader::at(bytes, offset);
        for _ in 0..reader.number()? {
            reader.number()?;
            reader.byte()?;
        }
        Some(Walk {
            reader,
            number: 0,
            depth: 0,
            has_ended: false,
        })
    }

    /// Gives the offset of the next instruction.
    pub fn offset(&self) -> usize {
        self.reader.offset()
    }

    /// Gives the next instruction, which may be one that can't be read; none after that, and after the last `end`.
    pub fn next(&mut self) -> Option<Step> {
        if self.has_ended {
            return None;
        }
        let number = self.number;
        let offset = self.reader.offset();
        let end = match self.pass_instruction() {
            Some(()) => self.reader.offset(),
            None => {
                self.has_ended = true;
                usize::MAX
            }
        };
        self.number = number.saturating_add(1);
        Some(Step {
            number,
            offset,
            end,
        })
    }

    /// Passes an instruction; none where it can't be read.
    fn pass_instruction(&mut self) -> Option<()> {
        let opcode = self.reader.byte()?;
        match opcode {
            0x02..=0x04 => self.depth = self.depth.saturating_add(1),
            0x0b if self.depth == 0 => self.has_ended = true,
            0x0b => self.depth = self.depth.saturating_sub(1),
            _ => {}
        }
        pass_immediates(&mut self.reader, opcode)
    }
}

/// Passes an expression with its `end`; none where it can't be read.
pub fn pass_expression(reader: &mut Reader<'_>) -> Option<()> {
    let mut walk = Walk {
        reader: *reader,
        number: 0,
        depth: 0,
        has_ended: false,
    };
    for _ in 0..=reader.left() {
        match walk.next() {
            Some(step) if step.end == usize::MAX => return None,
            Some(_) => {}
            None => break,
        }
    }
    *reader = walk.reader;
    Some(())
}

/// Passes what stands after an opcode (5.4); none where it can't be read.
fn pass_immediates(reader: &mut Reader<'_>, opcode: u8) -> Option<()> {
    match opcode {
        0x02..=0x04 | 0x3f | 0x40 => reader.pass(1),
        0x0c | 0x0d | 0x10 | 0x20..=0x24 => pass_numbers(reader, 1),
        0x0e => {
            let labels = u64::from(reader.number()?);
            pass_numbers(reader, labels + 1)
        }
        0x11 => {
            reader.number()?;
            reader.pass(1)
        }
        0x28..=0x3e => pass_numbers(reader, 2),
        0x41 => reader.pass_s32(),
        0x42 => reader.pass_s64(),
        _ => Some(()),
    }
}

/// Passes `count` numbers of 32 bits; none where they aren't there.
fn pass_numbers(reader: &mut Reader<'_>, count: u64) -> Option<()> {
    for _ in 0..count {
        reader.number()?;
    }
    Some(())
}
