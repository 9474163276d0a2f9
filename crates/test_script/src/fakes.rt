//! A reader that gives a byte at a time, or fails; a writer that fails; a reader and a writer that are interrupted; files to
//! load.

use crate::guests::GUESTS;
use std::alloc::Global;
use std::io::{Error, ErrorKind, Read, Result as IoResult, Write};
use wh_script::{FileError, Source};

/// The path of a file for which there is no memory.
const TOO_MUCH: &str = "too_much";

/// The modules to load, each by its path. There is no memory for one file more, and no other can be read.
#[derive(Drop)]
pub struct Shelf;

impl Source for Shelf {
    ghost use Rattle.std.specs.Prelude.{true};

    ghost files = { λ shelf path bytes. true };

    fn read(&self, alloc: Global, path: &str) -> Result<Vec<u8>, FileError> {
        if path == TOO_MUCH {
            return Err(FileError::Memory);
        }
        for (name, bytes) in GUESTS {
            if name == path {
                return hex::decode(alloc, bytes).map_err(|_| FileError::Memory);
            }
        }
        Err(FileError::Unreadable)
    }
}

/// A reader that gives one byte at a time, and at a place fails in place of giving more.
#[derive(Drop)]
pub struct Trickle<'a> {
    /// What it gives.
    pub bytes: &'a [u8],
    /// How many bytes it gives before it fails.
    pub fails_after: usize,
}

impl Read for Trickle<'_> {
    fn read(&mut self, buf: &mut [u8]) -> IoResult<usize> {
        if self.fails_after == 0 {
            return Err(Error::from(ErrorKind::Other));
        }
        let Some((first, rest)) = self.bytes.split_first() else {
            return Ok(0);
        };
        if buf.is_empty() {
            return Ok(0);
        }
        buf[0] = *first;
        self.bytes = rest;
        self.fails_after -= 1;
        Ok(1)
    }
}

/// A writer that keeps what it is given, a number of times, and then fails.
#[derive(Drop)]
pub struct Tired {
    /// What was written.
    pub written: Vec<u8>,
    /// How many writes there may be.
    pub writes: usize,
    /// How often it was flushed.
    pub flushes: usize,
}

impl Write for Tired {
    fn write(&mut self, buf: &[u8]) -> IoResult<usize> {
        if self.writes == 0 {
            return Err(Error::from(ErrorKind::Other));
        }
        self.writes -= 1;
        self.written.extend_from_slice(buf)?;
        Ok(buf.len())
    }

    fn flush(&mut self) -> IoResult<()> {
        self.flushes = self.flushes.saturating_add(1);
        Ok(())
    }
}

/// A reader of three bytes at a time that is interrupted, a number of times, before it gives more.
#[derive(Drop)]
pub struct Disturbed<'a> {
    /// What it gives.
    pub bytes: &'a [u8],
    /// How many bytes it gives before it is interrupted.
    pub undisturbed: usize,
    /// How often it is interrupted then.
    pub interruptions: usize,
}

impl Read for Disturbed<'_> {
    fn read(&mut self, buf: &mut [u8]) -> IoResult<usize> {
        if self.undisturbed == 0 && self.interruptions > 0 {
            self.interruptions -= 1;
            return Err(Error::from(ErrorKind::Interrupted));
        }
        let count = self.bytes.len().min(buf.len()).min(3);
        let count = if self.interruptions > 0 {
            count.min(self.undisturbed)
        } else {
            count
        };
        let (first, rest) = self.bytes.split_at(count);
        buf[..count].copy_from_slice(first);
        self.bytes = rest;
        self.undisturbed = self.undisturbed.saturating_sub(count);
        Ok(count)
    }
}

/// A writer that keeps what it is given, three bytes at a time, and at one write is interrupted.
#[derive(Drop)]
pub struct Halting {
    /// What was written.
    pub written: Vec<u8>,
    /// How many writes there are before one is interrupted; none is where there are fewer.
    pub undisturbed: usize,
    /// Whether a write was interrupted.
    pub is_over: bool,
}

impl Write for Halting {
    fn write(&mut self, buf: &[u8]) -> IoResult<usize> {
        if self.undisturbed == 0 && !self.is_over {
            self.is_over = true;
            return Err(Error::from(ErrorKind::Interrupted));
        }
        let count = buf.len().min(3);
        self.written.extend_from_slice(&buf[..count])?;
        self.undisturbed = self.undisturbed.saturating_sub(1);
        Ok(count)
    }

    fn flush(&mut self) -> IoResult<()> {
        Ok(())
    }
}
