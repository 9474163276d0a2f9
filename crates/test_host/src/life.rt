// Lives of instances as tables: step by step what is asked of a host and of whoever serves it, and what has to come of it.

use crate::rig::Rig;
use crate::views::PAGES;
use anyhow::{Context, Result, ensure};
use std::alloc::Global;
use wh_host::{
    AdmitError, CallStatus, CallValue, ForkError, Host, HostCounts, HostError, ModuleId, Quota,
    ReadError, Suspension, UnloadError,
};
use wh_host_model::TurnEnd;
use wh_kernels::{ConstantHash, FnvHash};
use wh_model::{Trap, ValType};
use wh_space_model::{EvictEnd, FetchEnd, InstId, Offer, SwapError, Tax};

/// A step, and last what has to come of it. An instance is named by its place among those that the table admits; where fewer
/// are there, it is one that nobody has admitted. A module is named by its number; the pager is 0. A fault is its number.
#[derive(Clone, Copy)]
pub enum Step {
    /// A module is loaded: its number, if its bytes are accepted.
    Load(&'static [u8], Option<usize>),
    /// A module is let go.
    Unload(usize, Result<(), UnloadError>),
    /// An instance of a module is admitted, with these frames at least and pages at most, and fuel for its start: its place
    /// and its number.
    Admit(usize, (u64, u64), u64, Result<(usize, u64), u8>),
    /// An instance is copied, with these shares, and these frames at least and at most: the copy's place and its number.
    Fork(usize, (u64, u64, u64), Result<(usize, u64), ForkError>),
    /// A call is asked for, with these arguments and this fuel: its place in the journal.
    Invoke(usize, &'static str, &'static [i128], u64, Result<u32, u8>),
    /// A byte is stored at an address of an instance of the pager, in a turn that has all charges for it.
    Store(usize, i128, i128, TurnEnd),
    /// A turn of this many charges.
    Turn(usize, u64, TurnEnd),
    /// More fuel for the present call.
    Refuel(usize, u64, Result<(), u8>),
    /// The end of the present call.
    Cancel(usize, Result<(), u8>),
    /// Another try of it.
    Retry(usize, Result<(), u8>),
    /// What an instance has put out so far, and how many of its calls have ended.
    Shows(usize, Result<(&'static [u8], usize), u8>),
    /// A call is asked for, of the function at this place of those that its module exports, without arguments and with this
    /// fuel: its place in the journal.
    InvokeAt(usize, usize, u64, Result<u32, u8>),
    /// How many functions a module exports, if it is there, and at this place one by this name and with these parameters and
    /// results.
    Exports(
        usize,
        Option<usize>,
        usize,
        Option<(&'static str, &'static [ValType], &'static [ValType])>,
    ),
    /// These bytes are read of an instance's memory, from an address on, while the device's call of this number fails.
    Reads(usize, u64, u32, &'static [u8]),
    /// So many aren't, up to 16.
    ReadsNot(usize, u64, usize, u32, ReadError),
    /// An instance goes: its output.
    Release(usize, Result<&'static [u8], u8>),
    /// How far the call at a place of the journal is.
    Status(usize, u32, Option<CallStatus>),
    /// The call at a place of the journal returned this i32 after two charges.
    Returned(usize, u32, u64),
    /// It returned nothing, after this many charges.
    Done(usize, u32, u64),
    /// It is blocked on a device that failed so, after this many charges.
    Failed(usize, u32, SwapError, u64),
    /// It has trapped, whatever its charges.
    Trapped(usize, u32, Trap),
    /// Whether the present call waits for a frame, and whether it can go on.
    Waits(usize, bool, bool),
    /// A page is offered under this hash, where pages are hashed by FNV-1a.
    Offer(usize, u32, u64, Option<Offer>),
    /// The same where all pages have one hash.
    OfferAlike(usize, u32, u64, Option<Offer>),
    /// All pages are offered.
    Scan,
    /// The same where all pages have one hash.
    ScanAlike,
    /// An epoch begins.
    Epoch,
    /// The next step is made ready, while the device's call of this number fails: how many pages left for it.
    Provide(usize, u32, Result<u64, SwapError>),
    /// Runs turns and provisions, none of which fails, until the instance can't go on.
    RunOut(usize),
    /// A page begins to leave for an instance: its first byte.
    EvictBegin(usize, Option<u8>),
    /// It is written, or the device fails, and its ticket comes back.
    EvictCommit(bool, EvictEnd),
    /// A page begins to come: whether one does.
    FetchBegin(usize, bool),
    /// It is read, or the device fails, and its ticket comes back.
    FetchCommit(bool, FetchEnd),
    /// Its ticket comes back from a device that failed in this way.
    FetchFails(SwapError, FetchEnd),
    /// The report begins so, and ends so.
    Report(&'static str, &'static str),
    /// The whole report.
    ReportIs(&'static str),
    /// What the host has counted.
    Counts(HostCounts),
    /// An instance of the pager puts out all its 65536 bytes and goes: those that aren't zero, each with its address.
    Emit(usize, &'static [(usize, u8)]),
}

/// A name, how many frames and slots the host has and how idle pages are taxed, the steps with which several tables begin, and
/// the others.
#[derive(Clone, Copy)]
pub struct Life(
    pub &'static str,
    pub (u32, u32, Tax),
    pub &'static [Step],
    pub &'static [Step],
);

// The number of a fault of a host.
fn by_number<T>(answer: Result<T, HostError>) -> Result<T, u8> {
    answer.map_err(|error| error.number())
}

// Whether an instance was admitted at this place and with this number, or refused with this fault.
fn is_admitted(
    answer: Result<InstId, AdmitError>,
    want: Result<(usize, u64), u8>,
    admitted: &mut Vec<InstId>,
) -> Result<bool> {
    match answer {
        Ok(id) => {
            admitted.push(id)?;
            Ok(want == Ok((id.place, id.number)))
        }
        Err(error) => Ok(want == Err(error.number())),
    }
}

// Whether an instance was copied to this place and under this number, or wasn't for this fault.
fn is_copied(
    answer: Result<InstId, ForkError>,
    want: Result<(usize, u64), ForkError>,
    admitted: &mut Vec<InstId>,
) -> Result<bool> {
    match answer {
        Ok(id) => {
            admitted.push(id)?;
            Ok(want == Ok((id.place, id.number)))
        }
        Err(error) => Ok(want == Err(error)),
    }
}

// Whether there are 65536 bytes, of which these aren't zero.
fn are_all(bytes: &[u8], want: &[(usize, u8)]) -> bool {
    let there = want.iter().all(|(at, byte)| bytes.get(*at) == Some(byte));
    let count = bytes.iter().filter(|byte| **byte != 0).count();
    there && count == want.len() && bytes.len() == 65536
}

// The outcome of a call that stores a byte.
fn stored(rig: &mut Rig, alloc: Global, id: InstId, at: i128, byte: i128) -> Option<TurnEnd> {
    match rig.invoke(alloc, id, "set8", &[at, byte], 3) {
        Ok(_) => Some(rig.turn(id, 3)),
        Err(_) => None,
    }
}

// Whether the report begins and ends so.
fn reports(rig: &Rig, alloc: Global, head: &str, tail: &str) -> Result<bool> {
    let report = rig.report(alloc)?;
    Ok(report.as_str().starts_with(head) && report.as_str().ends_with(tail))
}

// Whether a page begins to leave whose first byte is this one, or none leaves.
fn leaves(rig: &mut Rig, alloc: Global, id: InstId, want: Option<u8>) -> Result<bool> {
    let before = rig.kept().0;
    let began = rig.evict_begin(alloc, id)?;
    match want {
        Some(byte) => Ok(began && (before != 0 || rig.leaving_byte() == Some(byte))),
        None => Ok(!began),
    }
}

// A call that returned this i32 after two charges.
fn returned(word: u64) -> Option<CallStatus> {
    Some(CallStatus::Returned {
        value: Some(CallValue {
            of: ValType::I32,
            word,
        }),
        charges: 2,
    })
}

// One that returned nothing after `charges` charges.
fn done(charges: u64) -> Option<CallStatus> {
    Some(CallStatus::Returned {
        value: None,
        charges,
    })
}

// One that is blocked on a device that failed so, after `charges` charges.
fn failed(fault: SwapError, charges: u64) -> Option<CallStatus> {
    Some(CallStatus::Present {
        waiting_for: Some(Suspension::Device(fault)),
        charges,
    })
}

// Whether a call has trapped so.
fn has_trapped(status: Option<CallStatus>, want: Trap) -> bool {
    match status {
        Some(CallStatus::Trapped { trap, .. }) => trap == want,
        _ => false,
    }
}

// Whether an instance that goes leaves this output.
fn is_released(rig: &mut Rig, alloc: Global, id: InstId, want: Result<&'static [u8], u8>) -> bool {
    match rig.release(alloc, id) {
        Ok(output) => want == Ok(output.as_slice()),
        Err(error) => want == Err(error.number()),
    }
}

// Whether an instance has put this out, and so many of its calls have ended.
fn is_shown(host: &Host, id: InstId, want: Result<(&'static [u8], usize), u8>) -> bool {
    match (host.output_of(id), host.ended_calls(id)) {
        (Ok(output), Some(ended)) => want == Ok((output, ended)),
        (Err(error), None) => want == Err(error.number()),
        _ => false,
    }
}

// Whether these bytes are read.
fn is_read(
    rig: &mut Rig,
    alloc: Global,
    id: InstId,
    at: u64,
    failing: u32,
    want: &[u8],
) -> Result<bool> {
    let mut room = vec![in alloc; 0; want.len()]?;
    let answer = rig.read(alloc, id, at, &mut room, failing)?;
    Ok(answer.is_ok() && room.as_slice() == want)
}

// Whether a module exports this function at this place.
fn is_exported(
    host: &Host,
    id: ModuleId,
    at: usize,
    want: Option<(&'static str, &'static [ValType], &'static [ValType])>,
) -> bool {
    match host.export_at(id, at) {
        Some(found) => want == Some((found.name, found.params, found.results)),
        None => want.is_none(),
    }
}

// What owners ask, but for new instances and their end.
fn is_asked(rig: &mut Rig, alloc: Global, id: InstId, step: Step) -> bool {
    match step {
        Step::Invoke(_, name, given, fuel, want) => by_number(rig.invoke(
            alloc, id, name, given, fuel,
        )) == want,
        Step::Store(_, at, byte, want) => stored(rig, alloc, id, at, byte) == Some(want),
        Step::Turn(_, charges, want) => rig.turn(id, charges) == want,
        Step::Refuel(_, fuel, want) => by_number(rig.refuel(id, fuel)) == want,
        Step::Cancel(_, want) => by_number(rig.cancel(id)) == want,
        Step::Retry(_, want) => by_number(rig.retry(id)) == want,
        Step::Shows(_, want) => is_shown(&rig.host, id, want),
        Step::InvokeAt(_, at, fuel, want) => by_number(rig.invoke_at(alloc, id, at, fuel)) == want,
        Step::Release(_, want) => is_released(rig, alloc, id, want),
        Step::Status(_, at, want) => rig.status(id, at) == want,
        Step::Returned(_, at, word) => rig.status(id, at) == returned(word),
        Step::Done(_, at, charges) => rig.status(id, at) == done(charges),
        Step::Failed(_, at, fault, charges) => rig.status(id, at) == failed(fault, charges),
        Step::Trapped(_, at, want) => has_trapped(rig.status(id, at), want),
        Step::Waits(_, awaits, can) => rig.awaits_frame(id) == awaits
            && rig.host.can_go_on(id) == can,
        _ => false,
    }
}

// What serves many: offers, provisions and tickets.
fn is_served(rig: &mut Rig, alloc: Global, id: InstId, step: Step) -> Result<bool> {
    Ok(match step {
        Step::Offer(_, page, hash, want) => rig.offer(&FnvHash, id, page, hash) == want,
        Step::OfferAlike(_, page, hash, want) => rig.offer(&ConstantHash, id, page, hash) == want,
        Step::Provide(_, failing, want) => rig.provide(alloc, id, failing)? == Some(want),
        Step::RunOut(_) => rig.run_out(alloc, id)?.is_none(),
        Step::EvictBegin(_, want) => leaves(rig, alloc, id, want)?,
        Step::FetchBegin(_, want) => rig.fetch_begin(alloc, id)? == want,
        Step::Reads(_, at, failing, want) => is_read(rig, alloc, id, at, failing, want)?,
        Step::ReadsNot(_, at, count, failing, want) => {
            let mut room = [0; 16];
            let into = room.get_mut(..count).context("there is no such room")?;
            rig.read(alloc, id, at, into, failing)? == Err(want)
        }
        Step::Emit(_, want) => are_all(&rig.emitted(alloc, id, &PAGES)?, want),
        other => is_asked(rig, alloc, id, other),
    })
}

impl Step {
    // The place of the instance that it names.
    fn instance(self) -> usize {
        match self {
            Step::Fork(at, ..)
            | Step::Invoke(at, ..)
            | Step::Store(at, ..)
            | Step::Turn(at, ..)
            | Step::Refuel(at, ..)
            | Step::Cancel(at, ..)
            | Step::Retry(at, ..)
            | Step::Shows(at, ..)
            | Step::InvokeAt(at, ..)
            | Step::Release(at, ..)
            | Step::Status(at, ..)
            | Step::Returned(at, ..)
            | Step::Done(at, ..)
            | Step::Failed(at, ..)
            | Step::Trapped(at, ..)
            | Step::Waits(at, ..)
            | Step::Offer(at, ..)
            | Step::OfferAlike(at, ..)
            | Step::Provide(at, ..)
            | Step::RunOut(at)
            | Step::EvictBegin(at, ..)
            | Step::FetchBegin(at, ..)
            | Step::Reads(at, ..)
            | Step::ReadsNot(at, ..)
            | Step::Emit(at, ..) => at,
            _ => 0,
        }
    }

    // Takes it, and says whether it came to what it has to.
    fn holds(self, rig: &mut Rig, alloc: Global, admitted: &mut Vec<InstId>) -> Result<bool> {
        let at = self.instance();
        let nobody = InstId {
            place: 0,
            number: at as u64,
        };
        let id = admitted.get(at).copied().unwrap_or(nobody);
        Ok(match self {
            Step::Load(bytes, want) => rig.load(alloc, bytes).ok().map(|id| id.number) == want,
            Step::Unload(number, want) => rig.unload(ModuleId { number }) == want,
            Step::Exports(number, count, at, want) => {
                let id = ModuleId { number };
                rig.host.export_count(id) == count && is_exported(&rig.host, id, at, want)
            }
            Step::Admit(number, (min, max), fuel, want) => {
                let answer = rig.admit_of(alloc, ModuleId { number }, min, max, fuel);
                is_admitted(answer, want, admitted)?
            }
            Step::Fork(_, (shares, min_frames, max_frames), want) => {
                let quota = Quota {
                    shares,
                    min_frames,
                    max_frames,
                };
                is_copied(rig.fork(alloc, id, quota), want, admitted)?
            }
            Step::Scan => rig.scan(&FnvHash),
            Step::ScanAlike => rig.scan(&ConstantHash),
            Step::Epoch => {
                rig.epoch();
                true
            }
            Step::EvictCommit(fails, want) => rig.evict_commit(fails) == Some(want),
            Step::FetchCommit(fails, want) => rig.fetch_commit(fails) == Some(want),
            Step::FetchFails(fault, want) => rig.fetch_fails(fault) == Some(want),
            Step::Report(head, tail) => reports(rig, alloc, head, tail)?,
            Step::ReportIs(want) => rig.report(alloc)?.as_str() == want,
            Step::Counts(want) => rig.host.counts() == want,
            other => is_served(rig, alloc, id, other)?,
        })
    }
}

// Takes steps, and gives the place of the first one that comes to something else.
fn first_unlike(
    rig: &mut Rig,
    alloc: Global,
    admitted: &mut Vec<InstId>,
    steps: &[Step],
) -> Result<Option<usize>> {
    for (place, step) in steps.iter().enumerate() {
        if !step.holds(rig, alloc, admitted)? || !rig.counts_right() {
            return Ok(Some(place));
        }
    }
    Ok(None)
}

// Takes the steps of a beginning and those after it, and fails at the first one that comes to something else.
fn take_all(rig: &mut Rig, alloc: Global, before: &[Step], steps: &[Step]) -> Result<()> {
    let mut admitted = Vec::new(alloc);
    let unlike = first_unlike(rig, alloc, &mut admitted, before)?;
    ensure!(unlike.is_none(), "step {unlike:?} of its beginning");
    let unlike = first_unlike(rig, alloc, &mut admitted, steps)?;
    ensure!(unlike.is_none(), "step {unlike:?}");
    Ok(())
}

/// Takes all steps of a table.
///
/// # Errors
/// The first step that came to something else, by its place from 0 on.
pub fn live(alloc: Global, life: &Life) -> Result<()> {
    let Life(name, (frames, slots, tax), before, steps) = *life;
    let mut rig = Rig::new(alloc, frames, slots, tax)?;
    let answer = take_all(&mut rig, alloc, before, steps);
    rig.finish();
    answer.context(name)
}
