//! The swap devices of `wh_swap`: pages that are kept, a stream that wears out, and slots that are taken.

ghost use Rattle.std.specs.Prelude.{⊤, ◌≤◌, [], length, get_or};

use crate::tables::{agree, first_other};
use anyhow::{Result as Anyhow, ensure};
use std::alloc::{AllocError, Global};
use std::io::{self, Cursor, Read, Seek, SeekFrom, Write};
use wh_space_model::{Slot, SwapError};
use wh_swap::{MemSwap, PageSwap, Pages, Slots, StreamSwap, SwapDev};

// A stream that wears out: a number of writes go well, and the others fail; a number of reads go well but for the last,
// which gives another first byte, and the others fail.
#[derive(Drop)]
struct Wearing {
    stream: Cursor<Vec<u8>>,
    reads: u32,
    writes: u32,
}

impl Read for Wearing {
    fn read(&mut self, buf: &mut [u8]) -> io::Result<usize> {
        if self.reads == 0 {
            return Err(io::ErrorKind::InvalidInput.into());
        }
        self.reads -= 1;
        let count = self.stream.read(buf)?;
        if self.reads == 0
            && let Some(first) = buf.first_mut()
        {
            *first = !*first;
        }
        Ok(count)
    }
}

impl Write for Wearing {
    fn write(&mut self, buf: &[u8]) -> io::Result<usize> {
        if self.writes == 0 {
            return Err(io::ErrorKind::InvalidInput.into());
        }
        self.writes -= 1;
        self.stream.write(buf)
    }

    fn flush(&mut self) -> io::Result<()> {
        self.stream.flush()
    }
}

impl Seek for Wearing {
    fn seek(&mut self, to: SeekFrom) -> io::Result<u64> {
        self.stream.seek(to)
    }
}

// Pages that are told.
#[derive(Drop)]
struct Told {
    pages: Vec<[u8; 4096]>,
}

impl Pages for Told {
    ghost tells = { λ _. ⊤ };

    ghost page = { λ told k. get_or told.pages.items k [] };

    fn get(&mut self, at: u32, into: &mut [u8; 4096]) -> io::Result<()> {
        let Some(bytes) = self.pages.get(at as usize) else {
            return Err(io::ErrorKind::InvalidInput.into());
        };
        *into = *bytes;
        Ok(())
    }

    fn put(&mut self, at: u32, from: &[u8; 4096]) -> io::Result<()> {
        if at as usize >= self.pages.len() {
            return Err(io::ErrorKind::InvalidInput.into());
        }
        self.pages[at as usize] = *from;
        Ok(())
    }
}

// Two slots are written, the higher one first, and read.
fn keeps_pages<D: SwapDev>(device: &mut D) -> Result<bool, SwapError>
    requires { 3 ≤ length (D.held device.old) }
{
    let mut first = [0; 4096];
    let mut second = [0; 4096];
    device.write(1, &[17; 4096])?;
    device.write(0, &[5; 4096])?;
    device.read(1, &mut second)?;
    device.read(0, &mut first)?;
    Ok(first == [5; 4096] && second == [17; 4096])
}

// What a memory, a stream and pages that are told give.
const KEPT: [Result<bool, SwapError>; 3] = [Ok(true), Ok(true), Ok(true)];

fn kept(alloc: Global) -> Result<[Result<bool, SwapError>; 3], AllocError> {
    let mut memory = MemSwap::new(alloc, 3)?;
    let mut stream = StreamSwap::new(alloc, Cursor::new(Vec::new(alloc)), 3)?;
    let told = Told {
        pages: vec![in alloc; [0; 4096]; 3]?,
    };
    let mut pages = PageSwap::over(alloc, told, 3)?;
    Ok([
        keeps_pages(&mut memory),
        keeps_pages(&mut stream),
        keeps_pages(&mut pages),
    ])
}

// A slot to which nothing was written; two writes, and one too many. What the failed write left in its slot is not
// known; the other slot is as it was, until it wears out.
const WORN: [Result<(), SwapError>; 8] = [
    Err(SwapError::Damaged),
    Ok(()),
    Ok(()),
    Err(SwapError::Write),
    Err(SwapError::Damaged),
    Ok(()),
    Err(SwapError::Damaged),
    Err(SwapError::Read),
];

// What the calls give, and whether the last read that went well gave the page that was written.
fn worn(alloc: Global) -> Result<([Result<(), SwapError>; 8], bool), AllocError> {
    let file = Wearing {
        stream: Cursor::new(Vec::new(alloc)),
        reads: 2,
        writes: 2,
    };
    let mut device = StreamSwap::new(alloc, file, 2)?;
    let mut bytes = [0; 4096];
    let unwritten = device.read(1, &mut bytes);
    let first = device.write(0, &[3; 4096]);
    let second = device.write(1, &[4; 4096]);
    let failed = device.write(1, &[9; 4096]);
    let unknown = device.read(1, &mut bytes);
    let known = device.read(0, &mut bytes);
    let same = bytes == [3; 4096];
    let changed = device.read(0, &mut bytes);
    let broken = device.read(0, &mut bytes);
    let answers = [
        unwritten, first, second, failed, unknown, known, changed, broken,
    ];
    Ok((answers, same))
}

const TAKEN: [Option<u32>; 3] = [Some(0), Some(1), None];

// The slots that are taken one after the other, and how many there are and are vacant then.
fn taken(alloc: Global) -> Result<([Option<u32>; 3], (u32, u32)), AllocError> {
    let mut slots = Slots::new(alloc, 2)?;
    let first = slots.take(Slot::Taken);
    let second = slots.take(Slot::EvictVoid { place: 7 });
    let third = slots.take(Slot::Taken);
    Ok(([first, second, third], (slots.len(), slots.vacant())))
}

/// Looks at each answer: how many they are.
pub fn check(alloc: Global) -> Anyhow<usize> {
    agree("devices", first_other(&kept(alloc)?, &KEPT))?;
    let (answers, same) = worn(alloc)?;
    agree("a stream that wears out", first_other(&answers, &WORN))?;
    ensure!(same, "a stream gives another page");
    let (taken, counts) = taken(alloc)?;
    agree("slots", first_other(&taken, &TAKEN))?;
    ensure!(counts == (2, 0), "another number of slots is vacant");
    Ok(KEPT.len() + WORN.len() + TAKEN.len() + 3)
}
