//! What C reads and writes, field by field.

ghost use Rattle.std.specs.Prelude.{◌≡◌, IfOk, map};
ghost use Rattle.wh_host.specs.Reporting.{view_row, view_usage};
ghost use Rattle.wolqedir.specs.Shapes.{bits_of_result, id_of, instance_of, progress_as, raw_counts_of, raw_report_of, raw_row_of, standing_code, standing_kind, shown_status, type_bits, word_of};

use crate::codes::{of_swap, of_trap};
use std::alloc::{AllocError, Global};
use wh_hand::{
    CallStatus, CallValue, HostCounts, HostUsage, InstId, InstanceReport, Ran, Suspension,
};
use wh_model::ValType;

/// An instance, as it was admitted.
#[repr(C)]
#[derive(Clone, Copy)]
pub struct RawInstance {
    /// Its place.
    pub place: usize,
    /// How many instances were admitted before it.
    pub number: u64,
}

/// What the owner of an instance gives it, but for the words of its input.
#[repr(C)]
#[derive(Drop)]
pub struct RawParams {
    /// Its shares of memory, 1 to 1000000.
    pub shares: u64,
    /// How many frames of 4096 bytes it may keep in any case; 2 to `max`.
    pub min: u64,
    /// To how many frames of 4096 bytes its memory may come, up to 65536.
    pub max: u64,
    /// How many charges its start may take.
    pub fuel: u64,
    /// The value of the host's global `salt`.
    pub salt: u64,
    /// The value of the host's global `base`.
    pub base: u32,
}

/// How much of the host's memory a copy may have.
#[repr(C)]
#[derive(Drop)]
pub struct RawQuota {
    /// Its shares of memory, 1 to 1000000.
    pub shares: u64,
    /// How many frames of 4096 bytes it may keep in any case; 2 to `max`.
    pub min: u64,
    /// To how many frames of 4096 bytes its memory may come, up to 65536.
    pub max: u64,
}

/// The outcome of a run.
#[repr(C)]
#[derive(Drop)]
pub struct Progress {
    /// How many charges were taken.
    pub charges: u64,
    /// 1 where a call can go on, else 0.
    pub goes_on: u32,
}

/// How far a call is.
#[repr(C)]
#[derive(Clone, Copy)]
pub struct RawStatus {
    /// 1 waits behind another call, 2 goes on, 3 waits for fuel, 4 for a frame, 5 for the swap device; 6 has returned,
    /// 7 trapped, 8 was cancelled, 9 did nothing after a start that failed.
    pub kind: u32,
    /// The code of the trap, or of the device's fault; else 0.
    pub code: u32,
    /// How many bits the result has, 32 or 64; 0 where there is none.
    pub bits: u32,
    /// The result, an i32 in the low 32 bits; else 0.
    pub value: u64,
    /// How many charges it has taken.
    pub charges: u64,
}

/// A function that a module exports.
#[repr(C)]
#[derive(Drop)]
pub struct RawExport {
    /// How many bytes its name has.
    pub name_len: usize,
    /// How many parameters it has.
    pub params: usize,
    /// How many results it has: 1 or 0.
    pub results: usize,
}

/// How the frames, slots and pages of a host are used.
#[repr(C)]
#[derive(Drop)]
pub struct RawReport {
    /// How many frames there are.
    pub frames: u32,
    /// How many of these are in use.
    pub used_frames: u32,
    /// How many slots there are.
    pub slots: u32,
    /// How many of these are in use.
    pub used_slots: u32,
    /// On how many frames several pages lie.
    pub shared_frames: u32,
    /// The numerator of the tax.
    pub tax_num: u32,
    /// The denominator of the tax.
    pub tax_den: u32,
    /// How many pages share a frame.
    pub sharers: u64,
    /// How many instances there are.
    pub instances: usize,
}

/// What a host has counted since it was created, each from 2^64 - 1 on to 0.
#[repr(C)]
#[derive(Drop)]
pub struct RawCounts {
    /// How many turns of instances were had of which a call was open.
    pub turns: u64,
    /// How many charges these took.
    pub charges: u64,
    /// How many calls returned in a turn, starts among them.
    pub returned: u64,
    /// How many calls trapped in a turn, starts among them.
    pub trapped: u64,
    /// How many calls their owners cancelled, starts among them.
    pub cancelled: u64,
    /// How many calls did nothing, behind a start that trapped or was cancelled.
    pub dead: u64,
    /// How many pages were offered for sharing.
    pub offers: u64,
    /// By how many of these offers two pages came to share a frame.
    pub merges: u64,
    /// How many pages shared a frame until a turn wrote them.
    pub breaks: u64,
    /// How many pages were evicted to swap.
    pub evictions: u64,
    /// How many pages were fetched from there.
    pub fetches: u64,
    /// How many provisions, evictions and fetches ended by a fault of the device.
    pub faults: u64,
}

/// What an instance has of them.
#[repr(C)]
#[derive(Clone, Copy)]
pub struct RawInstanceReport {
    /// Which it is.
    pub instance: RawInstance,
    /// Its shares of memory.
    pub shares: u32,
    /// The least number of frames that it keeps.
    pub min: u32,
    /// The greatest number of frames of its memory.
    pub max: u32,
    /// How many frames are charged to it.
    pub charged: u32,
    /// On how many of these a page was touched.
    pub active: u32,
    /// How many of its pages are swapped.
    pub swapped: u32,
}

/// Converts an instance's name from C.
pub fn named(instance: &RawInstance) -> InstId
    ensures { result ≡ id_of instance.now }
{
    InstId {
        place: instance.place,
        number: instance.number,
    }
}

/// Converts an instance's name for C.
pub fn name_of(id: InstId) -> RawInstance
    ensures { result ≡ instance_of id }
{
    RawInstance {
        place: id.place,
        number: id.number,
    }
}

/// Returns how many bits a value of this type has.
pub fn bits_of_type(of: ValType) -> u8
    ensures { result ≡ type_bits of }
{
    match of {
        ValType::I32 => 32,
        ValType::I64 => 64,
    }
}

// How many bits a result has.
fn result_bits(value: Option<CallValue>) -> u32
    ensures { result ≡ bits_of_result value }
{
    match value {
        None => 0,
        Some(
            CallValue {
                of: ValType::I32,
                ..
            },
        ) => 32,
        Some(
            CallValue {
                of: ValType::I64,
                ..
            },
        ) => 64,
    }
}

// The word of a result.
fn result_word(value: Option<CallValue>) -> u64
    ensures { result ≡ word_of value }
{
    match value {
        None => 0,
        Some(value) => value.word,
    }
}

// The kind of a call that waits for its next turn or is blocked on something, and the code of its fault.
fn standing(waiting_for: Option<Suspension>) -> (u32, u32)
    ensures { result ≡ (standing_kind waiting_for, standing_code waiting_for) }
{
    match waiting_for {
        None => (2, 0),
        Some(Suspension::Fuel) => (3, 0),
        Some(Suspension::Frame) => (4, 0),
        Some(Suspension::Device(error)) => (5, of_swap(error)),
    }
}

/// Converts the status of a call that has taken `charges` charges for C.
pub fn shown(status: CallStatus, charges: u64) -> RawStatus
    ensures { result ≡ shown_status status charges }
{
    let (kind, code, value) = match status {
        CallStatus::Waiting => (1, 0, None),
        CallStatus::Present { waiting_for, .. } => {
            let (kind, code) = standing(waiting_for);
            (kind, code, None)
        }
        CallStatus::Returned { value, .. } => (6, 0, value),
        CallStatus::Trapped { trap, .. } => (7, of_trap(trap), None),
        CallStatus::Cancelled { .. } => (8, 0, None),
        CallStatus::Dead => (9, 0, None),
    };
    RawStatus {
        kind,
        code,
        bits: result_bits(value),
        value: result_word(value),
        charges,
    }
}

/// Converts the outcome of a run for C.
pub fn progress_of(ran: Ran) -> Progress
    ensures { result ≡ progress_as ran }
{
    Progress {
        charges: ran.charges,
        goes_on: u32::from(ran.goes_on),
    }
}

/// Converts how a host is used for C.
pub fn raw_report(usage: HostUsage) -> RawReport
    ensures { result ≡ raw_report_of (view_usage usage) }
{
    RawReport {
        frames: usage.frames,
        used_frames: usage.used_frames,
        slots: usage.slots,
        used_slots: usage.used_slots,
        shared_frames: usage.shared_frames,
        tax_num: usage.tax.num,
        tax_den: usage.tax.den,
        sharers: usage.sharers,
        instances: usage.instances,
    }
}

/// Converts what a host has counted for C.
pub fn raw_counts(counts: HostCounts) -> RawCounts
    ensures { result ≡ raw_counts_of counts }
{
    RawCounts {
        turns: counts.turns,
        charges: counts.charges,
        returned: counts.returned,
        trapped: counts.trapped,
        cancelled: counts.cancelled,
        dead: counts.dead,
        offers: counts.offers,
        merges: counts.merges,
        breaks: counts.breaks,
        evictions: counts.evictions,
        fetches: counts.fetches,
        faults: counts.faults,
    }
}

/// Converts the numbers of an instance for C.
pub fn raw_row(row: InstanceReport) -> RawInstanceReport
    ensures { result ≡ raw_row_of (view_row row) }
{
    RawInstanceReport {
        instance: RawInstance {
            place: row.place,
            number: row.number,
        },
        shares: row.shares,
        min: row.min,
        max: row.max,
        charged: row.charged,
        active: row.active,
        swapped: row.swapped,
    }
}

/// Converts the numbers of these instances for C.
///
/// # Errors
/// `AllocError` if the allocation fails.
pub fn raw_rows(
    alloc: Global,
    rows: &[InstanceReport],
) -> Result<Vec<RawInstanceReport>, AllocError>
    ensures { IfOk result (λ raw. raw.items ≡ map raw_row_of (map view_row rows.now)) }
{
    let mut raw = Vec::with_capacity(alloc, rows.len())?;
    for row in rows {
        raw.push(raw_row(*row))?;
    }
    Ok(raw)
}
