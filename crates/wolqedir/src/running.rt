//! Runs, and what memory does meanwhile.

ghost use Rattle.std.specs.Prelude.{◌≡◌, ⊤};
ghost use Rattle.wolqedir.specs.ExportContracts.{ExportBeginsEpoch, ExportRuns, ExportScans, ServesHandle};

use crate::codes::{DONE, LARGE, NONE};
use crate::handle::Handle;
use crate::shapes::{Progress, progress_of};
use std::alloc::Global;

/// Runs the calls of all instances, until none can make progress or they have taken `charges` charges together; gives
/// how many they took, and whether a call can make progress.
///
/// It answers NONE or 0.
#[unsafe(no_mangle)]
pub extern "C" fn wq_run(
    alloc: Global,
    handle: &mut Handle,
    charges: u64,
    progress: &mut Progress,
) -> u32
    ensures { ServesHandle handle.old.slot.held (ExportRuns charges progress.new result) result
        handle.new.slot.held (progress.new ≡ progress.old) }
{
    let Some(mut hand) = handle.take(alloc) else {
        return NONE;
    };
    *progress = progress_of(hand.run(charges));
    handle.put(hand);
    DONE
}

/// Offers all pages of all instances for sharing, so that equal ones come to share one frame. Nobody sees it.
///
/// It answers NONE, or LARGE where frames and slots are 2^32 together or more; nothing is done then.
#[unsafe(no_mangle)]
pub extern "C" fn wq_scan(alloc: Global, handle: &mut Handle) -> u32
    ensures { ServesHandle handle.old.slot.held (ExportScans result) result
        handle.new.slot.held ⊤ }
{
    let Some(mut hand) = handle.take(alloc) else {
        return NONE;
    };
    let offered = hand.scan();
    handle.put(hand);
    match offered {
        Some(_) => DONE,
        None => LARGE,
    }
}

/// Begins a new epoch: no page is marked as touched. Nobody sees it but in the report and in whose pages leave for swap.
///
/// It answers NONE or 0.
#[unsafe(no_mangle)]
pub extern "C" fn wq_epoch(alloc: Global, handle: &mut Handle) -> u32
    ensures { ServesHandle handle.old.slot.held (ExportBeginsEpoch result) result
        handle.new.slot.held ⊤ }
{
    let Some(mut hand) = handle.take(alloc) else {
        return NONE;
    };
    hand.epoch();
    handle.put(hand);
    DONE
}
