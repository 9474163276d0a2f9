// What instances would see, and their calls come to, each on a flat memory.

use anyhow::{Context, Result, ensure};
use std::alloc::Global;
use wh_flatmem::FlatMemory;
use wh_host::{CallStatus, CallValue};
use wh_kernels::PageHash;
use wh_linmem::LinearMem;
use wh_model::{Got, Trap, ValType};

/// A call of the module's functions.
#[derive(Clone, Copy, Debug)]
pub enum Call {
    Set8 { at: u32, byte: u8 },
    Get8 { at: u32 },
    Set { at: u32, word: u64 },
    Get { at: u32 },
    Two { at: u32, and: u32, byte: u8 },
    Five,
    Wide,
}

/// What one charge of a call does.
#[derive(Clone, Copy)]
enum Step {
    Local,
    Store8 { at: u32, byte: u8 },
    Load8 { at: u32 },
    Store { at: u32, word: u64 },
    Load { at: u32 },
}

impl Call {
    // What the charge of this number does, from 1 on; `None` where the call has ended before it.
    fn step(self, charge: u64) -> Option<Step> {
        match (self, charge) {
            (Call::Set8 { at, byte }, 3) => Some(Step::Store8 { at, byte }),
            (Call::Get8 { at }, 2) => Some(Step::Load8 { at }),
            (Call::Set { at, word }, 3) => Some(Step::Store { at, word }),
            (Call::Get { at }, 2) => Some(Step::Load { at }),
            (Call::Two { at, byte, .. }, 3) => Some(Step::Store8 { at, byte }),
            (Call::Two { and, byte, .. }, 6) => Some(Step::Store8 { at: and, byte }),
            (Call::Five, 1) => Some(Step::Store8 { at: 0, byte: 5 }),
            (Call::Wide, 1) => Some(Step::Store {
                at: 4092,
                word: 0x0807_0605_0403_0201,
            }),
            (Call::Get8 { .. } | Call::Get { .. }, 1) => Some(Step::Local),
            (Call::Set8 { .. } | Call::Set { .. }, 1 | 2) => Some(Step::Local),
            (Call::Two { .. }, 1..=5) => Some(Step::Local),
            _ => None,
        }
    }

    // Where it may write.
    fn places(self) -> [u32; 2] {
        match self {
            Call::Two { at, and, .. } => [at, and],
            Call::Five => [0, 0],
            Call::Wide => [4092, 4092],
            Call::Set8 { at, .. } | Call::Get8 { at } | Call::Set { at, .. } | Call::Get { at } => [
                at, at,
            ],
        }
    }

    /// Returns the name and the arguments by which it is asked, and how many arguments count.
    pub fn asked(self) -> (&'static str, [i128; 3], usize) {
        match self {
            Call::Set8 { at, byte } => ("set8", [i128::from(at), i128::from(byte), 0], 2),
            Call::Get8 { at } => ("get8", [i128::from(at), 0, 0], 1),
            Call::Set { at, word } => ("set", [i128::from(at), i128::from(word), 0], 2),
            Call::Get { at } => ("get", [i128::from(at), 0, 0], 1),
            Call::Five => ("five", [0, 0, 0], 0),
            Call::Wide => ("wide", [0, 0, 0], 0),
            Call::Two { at, and, byte } => {
                (
                    "two",
                    [i128::from(at), i128::from(and), i128::from(byte)],
                    3,
                )
            }
        }
    }
}

/// How a call has ended on the flat memory.
#[derive(Clone, Copy, Debug, PartialEq, Eq)]
enum Ended {
    No,
    Returned(Option<CallValue>),
    Trapped,
    Cancelled,
}

/// A call that was asked for: how much fuel it has in all, how many charges it has taken, and how it has ended.
#[derive(Clone, Copy, Debug)]
struct Asked {
    call: Call,
    fuel: u64,
    charges: u64,
    ended: Ended,
}

/// An instance on a flat memory. Its calls are at the places of its journal, after its start.
pub struct Flat {
    memory: FlatMemory,
    calls: Vec<Asked>,
    // How many of them have ended.
    ended: usize,
}

impl Drop for Flat {
    fn drop(self) {
        let Flat {
            memory: _,
            calls: _,
            ended: _,
        } = self;
    }
}

impl Flat {
    /// Creates one over this memory, all of whose bytes are 0.
    pub fn over(alloc: Global, memory: FlatMemory) -> Flat {
        Flat {
            memory,
            calls: Vec::new(alloc),
            ended: 0,
        }
    }

    /// Zeroes all its bytes, and forgets its calls.
    pub fn clear(&mut self) {
        for asked in &self.calls {
            for at in asked.call.places() {
                for offset in 0..8 {
                    let _ = self.memory.store(u64::from(at) + offset, &[0]);
                }
            }
        }
        self.calls.clear();
        self.ended = 0;
    }

    /// Returns its memory, with all bytes zeroed.
    pub fn cleared(mut self) -> FlatMemory {
        self.clear();
        let Flat {
            memory,
            calls: _,
            ended: _,
        } = self;
        memory
    }

    /// Returns all bytes.
    pub fn bytes(&self) -> &[u8] {
        self.memory.bytes()
    }

    /// Returns the hash of one of its pages.
    pub fn hash_of<H: PageHash>(&self, hasher: &H, page: u32) -> u64 {
        let bytes = self.bytes().chunks(4096).nth(page as usize);
        match bytes.and_then(|bytes| bytes.as_array::<4096>()) {
            Some(bytes) => hasher.hash(bytes),
            None => 0,
        }
    }

    /// Returns the number of open calls.
    pub fn open(&self) -> usize {
        self.calls.len().saturating_sub(self.ended)
    }

    /// Returns the number of calls.
    pub fn len(&self) -> usize {
        self.calls.len()
    }

    /// Opens a call with this fuel.
    pub fn ask(&mut self, call: Call, fuel: u64) -> Result<()> {
        self.calls.push(Asked {
            call,
            fuel,
            charges: 0,
            ended: Ended::No,
        })?;
        Ok(())
    }

    // The open call that is first.
    fn present(&mut self) -> Option<&mut Asked> {
        self.calls.get_mut(self.ended)
    }

    /// Adds fuel to the present call; tells whether there is one.
    pub fn refuel(&mut self, fuel: u64) -> bool {
        let Some(asked) = self.present() else {
            return false;
        };
        asked.fuel = asked.fuel.saturating_add(fuel);
        true
    }

    /// Cancels the present call; tells whether there is one.
    pub fn cancel(&mut self) -> bool {
        let Some(asked) = self.present() else {
            return false;
        };
        asked.ended = Ended::Cancelled;
        self.ended = self.ended.saturating_add(1);
        true
    }

    // Does one step: how the call has ended by a trap, or with a value so far.
    fn take(&mut self, step: Step) -> Result<Ended> {
        let mut bytes = [0; 8];
        let got = match step {
            Step::Local => return Ok(Ended::No),
            Step::Store8 { at, byte } => self.memory.store(u64::from(at), &[byte]),
            Step::Load8 { at } => self.memory.load(u64::from(at), &mut bytes[..1]),
            Step::Store { at, word } => self.memory.store(u64::from(at), &word.to_le_bytes()),
            Step::Load { at } => self.memory.load(u64::from(at), &mut bytes),
        };
        if got == Got::Trap {
            return Ok(Ended::Trapped);
        }
        ensure!(got == Got::Value, "a flat memory isn't ready");
        let word = u64::from_le_bytes(bytes);
        Ok(match step {
            Step::Load8 { .. } => Ended::Returned(Some(CallValue {
                of: ValType::I32,
                word,
            })),
            Step::Load { .. } => Ended::Returned(Some(CallValue {
                of: ValType::I64,
                word,
            })),
            _ => Ended::No,
        })
    }

    // The present call takes one charge more, and ends where no other is left.
    fn charge(&mut self) -> Result<()> {
        let asked = *self.present().context("no call is open")?;
        let charges = asked.charges.saturating_add(1);
        ensure!(charges <= asked.fuel, "a charge too many");
        let step = asked.call.step(charges).context("a step too many")?;
        let mut ended = self.take(step)?;
        if ended == Ended::No && asked.call.step(charges.saturating_add(1)).is_none() {
            ended = Ended::Returned(None);
        }
        let asked = self.present().context("no call is open")?;
        asked.charges = charges;
        asked.ended = ended;
        if ended != Ended::No {
            self.ended = self.ended.saturating_add(1);
        }
        Ok(())
    }

    /// Runs the present call up to `charges` charges, which are more than it has.
    pub fn go_on(&mut self, charges: u64) -> Result<()> {
        let asked = *self.present().context("no call is open")?;
        for _ in asked.charges..charges {
            self.charge()?;
        }
        Ok(())
    }

    /// Returns the place of the present call in the journal.
    pub fn present_at(&self) -> Result<u32> {
        Ok(u32::try_from(self.ended.saturating_add(1))?)
    }

    /// Returns the charges that the present call has taken, if there is one, and whether that is all its fuel.
    pub fn taken(&self) -> Option<(u64, bool)> {
        let asked = self.calls.get(self.ended)?;
        Some((asked.charges, asked.charges == asked.fuel))
    }

    /// Tells whether this is the status of the call at a place of the list.
    pub fn is_status(&self, at: usize, status: Option<CallStatus>) -> bool {
        let Some(asked) = self.calls.get(at) else {
            return false;
        };
        let charges = asked.charges;
        match asked.ended {
            Ended::No if at == self.ended => {
                matches!(status, Some(CallStatus::Present { charges: told, .. }) if told == charges)
            }
            Ended::No => status == Some(CallStatus::Waiting),
            Ended::Returned(value) => status == Some(CallStatus::Returned { value, charges }),
            Ended::Trapped => {
                let trap = Trap::OutOfBounds;
                status == Some(CallStatus::Trapped { trap, charges })
            }
            Ended::Cancelled => status == Some(CallStatus::Cancelled { charges }),
        }
    }
}
