// Worked by hand: pages that leave for a swap device and come from it, so that steps can be taken.

ghost use Rattle.std.specs.Prelude.{◌≡◌, ◌+◌, ◌≤◌, ⊤, [], get_or, replicate};
ghost use Rattle.wh_reclaim.specs.Together.{AreTogether};

use crate::access::End;
use crate::arrivals::{enter, let_go};
use crate::told::tell;
use anyhow::Result;
use std::alloc::Global;
use std::io;
use wh_model::{Got, Need};
use wh_reclaim::{Buf, PagesMoved, provide};
use wh_space::{Memory, Promise};
use wh_space_model::{SwapError, Tax};
use wh_swap::{MemSwap, PageSwap, Pages, SwapDev};

// Pages of which the first read fails.
#[derive(Drop)]
struct Failing {
    pages: Vec<[u8; 4096]>,
    fails: bool,
}

impl Pages for Failing {
    ghost tells = { λ _. ⊤ };

    ghost page = { λ failing k. get_or failing.pages.items k [] };

    fn get(&mut self, at: u32, into: &mut [u8; 4096]) -> io::Result<()> {
        if self.fails {
            self.fails = false;
            return Err(io::ErrorKind::InvalidInput.into());
        }
        let Some(bytes) = self.pages.get(at as usize) else {
            return Err(io::ErrorKind::InvalidInput.into());
        };
        *into = *bytes;
        Ok(())
    }

    fn put(&mut self, at: u32, from: &[u8; 4096]) -> io::Result<()> {
        if at as usize >= self.pages.len() {
            return Err(io::ErrorKind::InvalidInput.into());
        }
        self.pages[at as usize] = *from;
        Ok(())
    }
}

// What is done, and what has to come of it. First stands a place, then an address.
#[derive(Clone, Copy)]
enum Move {
    // An instance comes to a place, with that as its number, and a page of 65536 bytes.
    Enter(usize),
    // A store of this byte.
    Store(usize, u64, u8, End),
    // A load of a byte into one that is 9: the one that is there then.
    Load(usize, u64, u8, End),
    // The instance is blocked on a byte that is to be read, or written, and that is made ready: how many pages left for
    // it.
    Provide(u32, u64, bool, Result<u64, SwapError>),
    // This many frames are in use.
    Used(u32),
    // This many frames are free.
    Free(u32),
    // This many slots are vacant.
    Vacant(u32),
}

// A memory, the device beside it, and room for a page.
struct Paged<D: SwapDev + Drop> {
    memory: Memory,
    device: D,
    buf: Buf,
    ghost together: { AreTogether memory (D.held device) },
}

// The instance of this number, its place, comes with a page of 65536 bytes, with 100 shares and a minimum of 2, where all that
// it wants is free.
fn entered<D: SwapDev>(alloc: Global, memory: &mut Memory, device: &D, place: usize) -> bool
    requires { AreTogether memory.old (D.held device.now) }
    ensures { AreTogether memory.new (D.held device.now) }
{
    let promise = Promise {
        number: place as u64,
        shares: 100,
        min: 2,
        max: 16,
    };
    let _ = device;
    enter(memory, alloc, place, promise, 1)
}

// Writes a byte.
fn stored<D: SwapDev>(memory: &mut Memory, device: &D, place: usize, at: u64, byte: u8) -> Got
    requires { AreTogether memory.old (D.held device.now) }
    ensures { AreTogether memory.new (D.held device.now) }
{
    memory.invariant();
    let _ = device;
    memory.store(place, at, &[byte])
}

// Reads a byte.
fn loaded<D: SwapDev>(
    memory: &mut Memory,
    device: &D,
    place: usize,
    at: u64,
    byte: &mut [u8; 1],
) -> Got
    requires { AreTogether memory.old (D.held device.now) }
    ensures { AreTogether memory.new (D.held device.now) }
{
    let _ = device;
    memory.load(place, at, byte)
}

// Makes a step ready at which the instance stands then, if it is there with a page of 65536 bytes.
fn provided<D: SwapDev>(
    memory: &mut Memory,
    device: &mut D,
    place: u32,
    need: Need,
    buf: &mut Buf,
) -> Option<Result<u64, SwapError>>
    requires within { need.at + need.length ≤ 65536 }
    requires few { need.length ≤ 4096 }
    requires together { AreTogether memory.old (D.held device.old) }
    ensures { AreTogether memory.new (D.held device.new) }
{
    if !memory.is_at(place, u64::from(place)) || memory.size(place as usize) != 1 {
        return None;
    }
    memory.stand(place as usize, Some(need));
    let mut moved = PagesMoved { left: 0, came: 0 };
    Some(provide(memory, device, place as usize, buf, &mut moved))
}

// One byte at an address.
fn byte_at(at: u64, writes: bool) -> Need
    ensures { result ≡ record { at = at; length = 1; writes = writes } }
{
    Need {
        at,
        length: 1,
        writes,
    }
}

impl<D: SwapDev + Drop> Paged<D> {
    // `frames` frames, and `slots` slots of a device to which nothing was written, without instances.
    fn new(alloc: Global, frames: u32, slots: u32, tax: Tax, device: D) -> Result<Paged<D>>
        requires { D.held device ≡ replicate slots [] }
    {
        let buf = Box::new(alloc, [0; 4096])?;
        Ok(Paged {
            memory: Memory::new(alloc, frames, slots, tax)?,
            device,
            buf,
        })
    }

    // It ends.
    fn finish(self) {
        let Paged {
            memory,
            device: _,
            buf: _,
        } = self;
        let_go(memory);
    }

    fn load(&mut self, place: usize, at: u64, byte: u8, end: End) -> bool {
        let mut bytes = [9];
        let got = loaded(&mut self.memory, &self.device, place, at, &mut bytes);
        got == end.answer(byte_at(at, false)) && bytes == [byte]
    }

    fn provide(&mut self, place: u32, need: Need, answer: Result<u64, SwapError>) -> bool
        requires { need.length ≡ 1 }
    {
        if need.at >= 65536 {
            return false;
        }
        let got = provided(
            &mut self.memory,
            &mut self.device,
            place,
            need,
            &mut self.buf,
        );
        got == Some(answer)
    }

    // Whether it came out so.
    fn moves(&mut self, alloc: Global, step: Move) -> bool {
        match step {
            Move::Enter(place) => entered(alloc, &mut self.memory, &self.device, place),
            Move::Store(place, at, byte, end) => {
                let got = stored(&mut self.memory, &self.device, place, at, byte);
                got == end.answer(byte_at(at, true))
            }
            Move::Load(place, at, byte, end) => self.load(place, at, byte, end),
            Move::Provide(place, at, writes, answer) => {
                self.provide(place, byte_at(at, writes), answer)
            }
            Move::Used(frames) => self.memory.used() == frames,
            Move::Free(frames) => self.memory.free() == frames,
            Move::Vacant(slots) => self.memory.vacant() == slots,
        }
    }

    // Takes them one by one: the number of the first that came out otherwise.
    fn first_other(&mut self, alloc: Global, steps: &[Move]) -> Option<usize> {
        for (row, step) in steps.iter().enumerate() {
            if !self.moves(alloc, *step) {
                return Some(row);
            }
        }
        None
    }
}

const A_STEP: [Move; 11] = [
    Move::Enter(0),
    Move::Store(0, 0, 1, End::Done),
    Move::Store(0, 4096, 2, End::Done),
    // The third page wants a frame: the instance gives its first page.
    Move::Store(0, 8192, 3, End::Waits),
    Move::Provide(0, 8192, true, Ok(1)),
    Move::Store(0, 8192, 3, End::Done),
    // The first page is wanted again: the second leaves, and the read fails. Then it comes, and no other leaves.
    Move::Provide(0, 0, false, Err(SwapError::Read)),
    Move::Free(1),
    Move::Provide(0, 0, false, Ok(0)),
    Move::Load(0, 0, 1, End::Done),
    Move::Load(0, 4096, 9, End::Waits),
];

const WHO_HAS_MORE: [Move; 13] = [
    Move::Enter(0),
    Move::Enter(1),
    Move::Store(0, 0, 1, End::Done),
    Move::Store(0, 4096, 2, End::Done),
    Move::Store(1, 0, 3, End::Done),
    Move::Store(1, 4096, 4, End::Done),
    Move::Store(1, 8192, 5, End::Done),
    // The first page of the other one leaves, which is above its minimum. Its frame is earmarked.
    Move::Provide(0, 8192, true, Ok(1)),
    Move::Used(5),
    Move::Vacant(63),
    Move::Store(0, 8192, 6, End::Done),
    Move::Load(1, 0, 9, End::Waits),
    Move::Load(1, 4096, 4, End::Done),
];

/// Takes all cases of evictions and fetches, and prints a line for each.
pub fn run(rt: &(impl Print + AllocGlobal)) -> Result<()> {
    let alloc = rt.alloc();
    let failing = Failing {
        pages: vec![in alloc; [0; 4096]; 15]?,
        fails: true,
    };
    let device = PageSwap::over(alloc, failing, 15)?;
    let mut paged = Paged::new(alloc, 2, 15, Tax { num: 3, den: 4 }, device)?;
    let other = paged.first_other(alloc, &A_STEP);
    paged.finish();
    tell(rt, "a step is provided", A_STEP.len(), other)?;

    let device = MemSwap::new(alloc, 64)?;
    let mut paged = Paged::new(alloc, 5, 64, Tax { num: 0, den: 1 }, device)?;
    let other = paged.first_other(alloc, &WHO_HAS_MORE);
    paged.finish();
    tell(rt, "who has more pays", WHO_HAS_MORE.len(), other)
}
