//! What a host that its owner has alone shows of an instance, against what was asked of it.

ghost use Rattle.std.specs.Prelude.{◌≡◌, [], replicate};
ghost use Rattle.wh_swap.specs.MemorySwaps.{memory_held};
ghost use Rattle.wh_cell.specs.Ledgers.{HasLedgers};

use crate::cell::{BYTES, begin_owned};
use crate::requests::{admission, given, invocation, loading};
use std::alloc::Global;
use std::marker::Brand;
use std::sync::ledger::Ledger;
use std::sync::{Arc, Wait};
use std::test::Fail;
use std::thread::Threads;
use wh_cell::{CellAgreements, CellParts};
use wh_host::{CallStatus, Transcript};
use wh_journal::CallEnd;
use wh_kernels::FnvHash;
use wh_scheduler::{OwnedHost, RunConfig};
use wh_space_model::InstId;
use wh_swap::MemSwap;
use wh_transcript::{Ending, RequestedCall, Requests, TranscriptFault, check_transcript};

// A call of this function with these arguments and 1000 of fuel, of which it is said how it has ended, if it is.
fn call(
    alloc: Global,
    func: u32,
    arguments: &[i128],
    ending: Option<Ending>,
) -> Result<RequestedCall, Fail> {
    Ok(RequestedCall {
        func: Some(func),
        given: Vec::from_slice(alloc, arguments)?,
        fuel: 1000,
        ending,
    })
}

// What was asked of an instance: nothing of its start, and these calls after it.
fn requests(alloc: Global, behind: [RequestedCall; 2]) -> Result<Requests, Fail> {
    let start = RequestedCall {
        func: None,
        given: Vec::new(alloc),
        fuel: 0,
        ending: None,
    };
    let mut calls = Vec::new(alloc);
    calls.push(start)?;
    for call in behind {
        calls.push(call)?;
    }
    Ok(Requests {
        bytes: Arc::new(alloc, Vec::from_slice(alloc, &BYTES)?)?,
        params: given(alloc),
        calls,
    })
}

// A load at 4096 that has returned this byte after `charges` charges.
fn load_ended(charges: u64, byte: u64) -> Option<Ending> {
    Some(Ending {
        pieces: 0,
        charges,
        end: CallEnd::Returned(Some(byte)),
    })
}

// What a comparison finds.
fn found(requests: &Requests, transcript: &Transcript) -> Option<TranscriptFault> {
    check_transcript(requests, transcript).err()
}

// Four comparisons of the same transcript, whose load took `charges` charges: with what was asked, with another
// argument of the load, with another result of it, and without its last call.
fn compare(
    alloc: Global,
    transcript: &Transcript,
    charges: u64,
) -> Result<[Option<TranscriptFault>; 4], Fail> {
    let store = [4096, 7];
    let as_asked = requests(
        alloc,
        [
            call(alloc, 0, &store, None)?,
            call(alloc, 1, &[4096], load_ended(charges, 7))?,
        ],
    )?;
    let other_argument = requests(
        alloc,
        [
            call(alloc, 0, &store, None)?,
            call(alloc, 1, &[4097], load_ended(charges, 7))?,
        ],
    )?;
    let other_result = requests(
        alloc,
        [
            call(alloc, 0, &store, None)?,
            call(alloc, 1, &[4096], load_ended(charges, 8))?,
        ],
    )?;
    let mut too_few = requests(
        alloc,
        [
            call(alloc, 0, &store, None)?,
            call(alloc, 1, &[4096], None)?,
        ],
    )?;
    let _ = too_few.calls.pop();
    Ok([
        found(&as_asked, transcript),
        found(&other_argument, transcript),
        found(&other_result, transcript),
        found(&too_few, transcript),
    ])
}

// An instance stores 7 at 4096 and loads it, by two workers.
fn run_two<
    T: Ledger + Send + 'static,
    C: Ledger + Send + 'static,
    O: Ledger + Send + 'static,
    E: Ledger + Send + 'static,
    B: CellAgreements + Send + 'static,
    R: Threads + Wait + Copy + Send + Sync + 'static,
>(rt: R, alloc: Global, owned: &mut OwnedHost<MemSwap, T, C, O, E, B>) -> Result<InstId, Fail> {
    let bytes = owned.ask(loading(alloc, &BYTES))?;
    let id = owned.ask(admission(alloc, bytes))?;
    let _ = owned.ask(invocation(alloc, id, "s", &[4096, 7], 1000))?;
    let _ = owned.ask(invocation(alloc, id, "l", &[4096], 1000))?;
    let manner = RunConfig {
        hasher: FnvHash,
        quantum: 3,
        workers: 2,
    };
    let _ = owned.run(rt, alloc, &[id], manner);
    Ok(id)
}

// What is shown: the four comparisons; how many calls the roll has of its only instance; and whether the books have as many
// turns, offers and evictions as the threads have counted.
type Shown = ([Option<TranscriptFault>; 4], usize, bool);

// What the host shows of the instance after such a run.
fn look<T: Ledger, C: Ledger, O: Ledger, E: Ledger, B: CellAgreements>(
    alloc: Global,
    owned: &OwnedHost<MemSwap, T, C, O, E, B>,
    id: InstId,
) -> Result<Shown, Fail> {
    let charges = match owned.host().call_status(id, 2) {
        Some(CallStatus::Returned { charges, .. }) => charges,
        _ => 0,
    };
    let transcript = owned.transcript(alloc, id)?;
    let compared = compare(alloc, &transcript, charges)?;
    let roll = owned.roll(alloc)?;
    let calls = match roll.instances() {
        [only] => only.calls,
        _ => 0,
    };
    let (books, shares) = owned.counts();
    let turns = shares.tally(0).turns.wrapping_add(shares.tally(1).turns);
    let is_sum = books.turns.low() == turns
        && books.offers.low() == shares.offers()
        && books.evictions.low() == shares.evictions();
    Ok((compared, calls, is_sum && turns > 0))
}

// The same on a new host.
fn show<
    T: Ledger + Send + 'static,
    C: Ledger + Send + 'static,
    O: Ledger + Send + 'static,
    E: Ledger + Send + 'static,
    B: CellAgreements + Send + 'static,
    R: Threads + Wait + Copy + Send + Sync + 'static,
>(rt: R, alloc: Global, cell_parts: CellParts<MemSwap>) -> Result<Shown, Fail>
    requires empty { memory_held cell_parts.device ≡ replicate 256 [] }
    requires owned { cell_parts.to_owner ≡ B.to_owner }
    requires backed { cell_parts.to_device ≡ B.to_device }
    requires ledgers { HasLedgers T.Ledger C.Ledger O.Ledger E.Ledger cell_parts }
{
    let mut owned = begin_owned::<T, C, O, E, B>(alloc, cell_parts)?;
    let id = run_two(rt, alloc, &mut owned)?;
    look(alloc, &owned, id)
}

#[test]
fn a_transcript_is_of_its_requests(rt: HostRuntime) -> Result<(), Fail> {
    let alloc = rt.alloc();
    let device = MemSwap::new(alloc, 256)?;
    let cell_parts = CellParts::new(alloc, device)?;
    let (compared, calls, is_sum) = show::<Brand, Brand, Brand, Brand, Brand, HostRuntime>(
        rt, alloc, cell_parts,
    )?;
    let [as_asked, other_argument, other_result, too_few] = compared;
    assert_eq!(rt; as_asked, None);
    assert_eq!(rt; other_argument, Some(TranscriptFault::Call { at: 2 }));
    assert_eq!(rt; other_result, Some(TranscriptFault::Call { at: 2 }));
    assert_eq!(rt; too_few, Some(TranscriptFault::Count));
    assert_eq!(rt; calls, 3);
    assert!(rt; is_sum);
    Ok(())
}
