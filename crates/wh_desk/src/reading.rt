// Bytes of an instance's memory, for who asks.

ghost use Rattle.std.specs.Prelude.{◌≡◌, IsSome};
ghost use Rattle.wh_cell.specs.Locking.{now_of};
ghost use Rattle.wh_desk.specs.Replying.{CallsDevice, HostReplies};
ghost use Rattle.wh_desk.specs.declared.request.DeskReply.TheVariants as says;
ghost use Rattle.wh_desk.specs.declared.trace.Question.TheVariants as asked;

use crate::error::DeskReadError;
use std::alloc::Global;
use std::sync::MutexGuard;
use std::sync::ledger::Ledger;
use wh_cell::{Backing, CellAgreements, Locked, Owner};
use wh_space_model::InstId;
use wh_swap::SwapDev;

// How many bytes are read at most at once: the host's lock is held for as many calls of the device as these have pages.
const MOST_READ: usize = 65536;

/// Reads bytes of an instance's memory under both locks, by the owner's right, who knows the host as it is.
///
/// # Errors
/// `TooMany` where more than 65536 bytes are asked for; `Memory` where room for them is refused; those of the host.
pub fn read<D: SwapDev, T: Ledger, C: Ledger, O: Ledger, E: Ledger, B: CellAgreements>(
    locked: &mut Locked<D, T, C, O, E, B>,
    device: Option<MutexGuard<'_, Backing<D, B>>>,
    owner: &mut Owner<D, B>,
    alloc: Global,
    id: InstId,
    at: u64,
    length: usize,
) -> Result<Vec<u8>, DeskReadError>
    requires known { owner.old ≡ now_of locked.old }
    requires device { IsSome device }
    ensures replies { HostReplies owner.old.host (asked.Read id at length) (says.Read result)
        owner.new.host }
    ensures device { CallsDevice D.keeps D.honest D.faults owner.old.host
        (asked.Read id at length) (says.Read result) owner.old.device owner.new.device }
{
    if length > MOST_READ {
        return Err(DeskReadError::TooMany);
    }
    let Some(mut device) = device else {
        unreachable!();
    };
    let mut bytes = Vec::new(alloc);
    let Ok(()) = bytes.resize(length, 0) else {
        return Err(DeskReadError::Memory);
    };
    let read = locked.read(&mut device, id, at, &mut bytes);
    locked.sync_owner(owner);
    match read {
        Ok(()) => Ok(bytes),
        Err(error) => Err(DeskReadError::Host(error)),
    }
}
