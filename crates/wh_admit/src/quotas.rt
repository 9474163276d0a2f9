//! Whether a quota is admitted.

ghost use Rattle.std.specs.Prelude.{IfErr, IfOk, OnOk};
ghost use Rattle.wh_params.specs.View.{view_quota};
ghost use Rattle.wh_syntax.specs.View.{view_module};
ghost use Rattle.wh_admit.specs.AdmissionNumbers.{HasNumbers, RefusesNumbers};
ghost use Rattle.wh_admit.specs.QuotaFaults.{GrantsQuota, RefusesQuota};

use crate::error::AdmitError;
use crate::fork_error::ForkError;
use crate::limits::{FRAMES_OF_PAGE, LEAST_FRAMES, MOST_FRAMES, MOST_INSTANCES, MOST_SHARES};
use crate::outcome::AdmittedQuota;
use crate::room::Room;
use wh_imports::Linked;
use wh_initial::{first_pages, last_pages};
use wh_params::Quota;

/// Looks at the numbers of a quota, one after the other, and at the room that is left. It takes no memory.
///
/// # Errors
/// `Shares`, `MinMax`, `Frames`, `Swap` or `Instances`, the first of them that holds.
pub(crate) fn check_numbers(quota: Quota, room: Room) -> Result<(), AdmitError>
    ensures ok { OnOk result (HasNumbers (view_quota quota) room) }
    ensures err { IfErr result (RefusesNumbers (view_quota quota) room) }
{
    if quota.shares < 1 || quota.shares > MOST_SHARES {
        return Err(AdmitError::Shares);
    }
    if quota.min_frames < LEAST_FRAMES
        || quota.max_frames < quota.min_frames
        || quota.max_frames > MOST_FRAMES
    {
        return Err(AdmitError::MinMax);
    }
    if quota.min_frames > room.frames {
        return Err(AdmitError::Frames);
    }
    if quota.max_frames - quota.min_frames + 1 > room.slots {
        return Err(AdmitError::Swap);
    }
    if room.live >= MOST_INSTANCES {
        return Err(AdmitError::Instances);
    }
    Ok(())
}

/// Decides whether a copy of an instance of `linked` is admitted with this quota. The memory of the instance may grow to
/// `page_limit` pages of 65536 bytes, and has `pages` pages of 4096 bytes now. Takes no memory.
///
/// # Errors
/// `NotAdmitted` with `Shares`, `MinMax`, `Frames`, `Swap`, `Instances` or `MemoryMin`, the first of them that holds; else
/// `OtherLimit`.
pub fn check_quota(
    linked: &Linked,
    quota: Quota,
    room: Room,
    page_limit: u32,
    pages: u32,
) -> Result<AdmittedQuota, ForkError>
    ensures ok { IfOk result (GrantsQuota (view_module linked.now.valid.decoded).memories
        (view_quota quota) room page_limit pages) }
    ensures err { IfErr result (RefusesQuota (view_module linked.now.valid.decoded).memories
        (view_quota quota) room page_limit pages) }
{
    if let Err(error) = check_numbers(quota, room) {
        return Err(ForkError::NotAdmitted(error));
    }
    let memories = &linked.module().memories;
    let granted = (quota.max_frames / FRAMES_OF_PAGE) as u32;
    if first_pages(memories) > granted {
        return Err(ForkError::NotAdmitted(AdmitError::MemoryMin));
    }
    if last_pages(memories, granted) != page_limit || quota.max_frames < u64::from(pages) {
        return Err(ForkError::OtherLimit);
    }
    Ok(AdmittedQuota {
        shares: quota.shares as u32,
        min_frames: quota.min_frames as u32,
        max_frames: quota.max_frames as u32,
    })
}
