// Swap devices over streams that end early, take no more, or change a byte.

ghost use Rattle.std.specs.Prelude.{◌≡◌, length};
ghost use Rattle.wh_swap.specs.Written.{page_held};

use Step::{Ends, Reads, Turns, Writes};
use anyhow::ensure;
use std::alloc::Global;
use std::cell::Cell;
use std::io::{self, Cursor, Read, Seek, SeekFrom, Write};
use std::rc::Rc;
use wh_space_model::SwapError;
use wh_space_model::SwapError::{Damaged, Read as Unread, Write as Unwritten};
use wh_swap::{StreamSwap, SwapDev};

/// A stream of 8192 bytes in memory. It seems to end at a place that others may move; what lies after it can be neither
/// read nor written, and may have other bytes.
struct Moody {
    stream: Cursor<Vec<u8>>,
    end: Rc<Cell<u64>>,
    turned: Rc<Cell<bool>>,
}

impl Drop for Moody {
    fn drop(self) {
        let Moody {
            stream: _,
            end: _,
            turned: _,
        } = self;
    }
}

impl Moody {
    // How many of `count` bytes are before the end.
    fn within(&self, count: usize) -> usize {
        let left = self.end.get().saturating_sub(self.stream.position());
        count.min(usize::try_from(left).unwrap_or(usize::MAX))
    }
}

impl Read for Moody {
    fn read(&mut self, buf: &mut [u8]) -> io::Result<usize> {
        let count = self.within(buf.len());
        let Some(part) = buf.get_mut(..count) else {
            return Ok(0);
        };
        let read = self.stream.read(part)?;
        if self.turned.get()
            && let Some(first) = part.first_mut()
        {
            *first = !*first;
        }
        Ok(read)
    }
}

impl Write for Moody {
    fn write(&mut self, buf: &[u8]) -> io::Result<usize> {
        let count = self.within(buf.len());
        let Some(part) = buf.get(..count) else {
            return Ok(0);
        };
        self.stream.write(part)
    }

    fn flush(&mut self) -> io::Result<()> {
        self.stream.flush()
    }
}

impl Seek for Moody {
    fn seek(&mut self, to: SeekFrom) -> io::Result<u64> {
        self.stream.seek(to)
    }
}

/// A step, and last what has to come of it.
#[derive(Clone, Copy)]
enum Step {
    /// The stream seems to end here from now on.
    Ends(u64),
    /// The first byte of each read is another one from now on, or is right again.
    Turns(bool),
    /// A page of this byte is written to a slot.
    Writes(u32, u8, Result<(), SwapError>),
    /// A slot is read: a page of this byte.
    Reads(u32, Result<u8, SwapError>),
}

const STEPS: [Step; 22] = [
    Writes(0, 5, Ok(())),
    Writes(1, 6, Ok(())),
    // A changed byte, and then it is right again.
    Turns(true),
    Reads(1, Err(Damaged)),
    Turns(false),
    Reads(1, Ok(6)),
    // The stream ends within the slot that is read, at its beginning, and before it. The other one is there.
    Ends(8191),
    Reads(1, Err(Unread)),
    Ends(4096),
    Reads(1, Err(Unread)),
    Ends(4095),
    Reads(1, Err(Unread)),
    Ends(4096),
    Reads(0, Ok(5)),
    // It takes no more bytes, within the slot that is written. Then nothing is known of that slot, and all of the other.
    Ends(6000),
    Writes(1, 7, Err(Unwritten)),
    Ends(8192),
    Reads(1, Err(Damaged)),
    Reads(0, Ok(5)),
    Writes(1, 7, Ok(())),
    Reads(1, Ok(7)),
    Reads(0, Ok(5)),
];

// Whether a slot of the two is written, or not, as it has to be.
fn is_written(
    device: &mut StreamSwap<Moody>,
    slot: u32,
    byte: u8,
    want: Result<(), SwapError>,
) -> bool
    requires { length (page_held device.old) ≡ 2 }
    ensures { length (page_held device.new) ≡ 2 }
{
    slot < 2 && device.write(slot, &[byte; 4096]) == want
}

// The same of one that is read.
fn is_read(device: &mut StreamSwap<Moody>, slot: u32, want: Result<u8, SwapError>) -> bool
    requires { length (page_held device.old) ≡ 2 }
    ensures { length (page_held device.new) ≡ 2 }
{
    let mut bytes = [0; 4096];
    if slot >= 2 {
        return false;
    }
    match (device.read(slot, &mut bytes), want) {
        (Ok(()), Ok(byte)) => bytes == [byte; 4096],
        (Err(fault), Err(other)) => fault == other,
        _ => false,
    }
}

// Takes all steps, on a device over a stream whose end and whose first byte these cells are.
fn take_all(
    device: &mut StreamSwap<Moody>,
    end: &Cell<u64>,
    turned: &Cell<bool>,
) -> anyhow::Result<()>
    requires { length (page_held device.old) ≡ 2 }
{
    for (place, step) in STEPS.iter().enumerate() {
        let holds = match *step {
            Ends(at) => {
                end.set(at);
                true
            }
            Turns(now) => {
                turned.set(now);
                true
            }
            Writes(slot, byte, want) => is_written(device, slot, byte, want),
            Reads(slot, want) => is_read(device, slot, want),
        };
        ensure!(holds, "step {place} of a stream");
    }
    Ok(())
}

/// Takes all steps, and gives how many there are.
///
/// # Errors
/// The first step that came to something else.
pub fn run_streams(alloc: Global) -> anyhow::Result<usize> {
    let end = Rc::new(alloc, Cell::new(8192))?;
    let turned = Rc::new(alloc, Cell::new(false))?;
    let stream = Moody {
        stream: Cursor::new(vec![in alloc; 0; 8192]?),
        end: end.clone()?,
        turned: turned.clone()?,
    };
    let mut device = StreamSwap::new(alloc, stream, 2)?;
    take_all(&mut device, &end, &turned).map(|()| STEPS.len())
}
