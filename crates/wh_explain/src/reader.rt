//! Bytes that are passed over, one item after the other.

use wh_leb::{read_s32, read_s64, read_u32};

/// What is left of some bytes, and how many they were.
#[derive(Clone, Copy)]
pub struct Reader<'a> {
    rest: &'a [u8],
    length: usize,
}

impl<'a> Reader<'a> {
    /// Begins at an offset of the bytes; at their end where they don't go so far.
    pub fn at(bytes: &'a [u8], offset: usize) -> Reader<'a> {
        Reader {
            rest: bytes.get(offset..).unwrap_or(&[]),
            length: bytes.len(),
        }
    }

    /// Gives the offset of the next byte. At the end it is the number of the bytes.
    pub fn offset(&self) -> usize {
        self.length.saturating_sub(self.rest.len())
    }

    /// Counts the bytes that are left.
    pub fn left(&self) -> usize {
        self.rest.len()
    }

    /// Reads a byte; none at the end.
    pub fn byte(&mut self) -> Option<u8> {
        let (first, rest) = self.rest.split_first()?;
        self.rest = rest;
        Some(*first)
    }

    /// Reads a number of 32 bits; none where no such number stands.
    pub fn number(&mut self) -> Option<u32> {
        let (number, next) = read_u32(self.rest, 0).ok()?;
        self.rest = &self.rest[next..];
        Some(number)
    }

    /// Passes a signed number of 32 bits; none where no such number stands.
    pub fn pass_s32(&mut self) -> Option<()> {
        let (_, next) = read_s32(self.rest, 0).ok()?;
        self.rest = &self.rest[next..];
        Some(())
    }

    /// Passes a signed number of 64 bits; none where no such number stands.
    pub fn pass_s64(&mut self) -> Option<()> {
        let (_, next) = read_s64(self.rest, 0).ok()?;
        self.rest = &self.rest[next..];
        Some(())
    }

    /// Passes `count` bytes; none where there aren't as many.
    pub fn pass(&mut self, count: usize) -> Option<()> {
        self.rest = self.rest.get(count..)?;
        Some(())
    }

    /// Passes all bytes.
    pub fn pass_all(&mut self) {
        self.rest = &[];
    }

    /// Reads a count and as many bytes, as names are spelled; none where they aren't there.
    pub fn name(&mut self) -> Option<&'a [u8]> {
        let count = self.number()? as usize;
        let name = self.rest.get(..count)?;
        self.pass(count)?;
        Some(name)
    }
}
