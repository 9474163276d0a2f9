//! Turns and offers go on while the swap device is called, and each worker gets turns.

ghost use Rattle.std.specs.Prelude.{◌≡◌, ◌≢◌, ◌+◌, ◌<◌, ⊤, [], length, get_or, replicate, slice_set, IfOk, IsOk, OnOk};
ghost use Rattle.wh_swap.specs.MemorySwaps.{memory_held, memory_writes};
ghost use Rattle.wh_cell.specs.Ledgers.{HasLedgers};

use crate::requests::{admission, invocation, loading};
use std::alloc::{AllocError, Global};
use std::marker::Brand;
use std::sync::atomic::{AtomicBool, Ordering};
use std::sync::ledger::Ledger;
use std::sync::{Arc, Wait};
use std::test::Fail;
use std::thread;
use std::thread::Threads;
use wh_cell::{CellAgreements, CellParts, HostCell, Locked, Owner};
use wh_host::{CallStatus, Cancel, Host};
use wh_kernels::FnvHash;
use wh_scheduler::{HereEnd, OwnedHost, RunConfig, run_calls};
use wh_space_model::{InstId, SwapError, Tax};
use wh_swap::{MemSwap, SwapDev};
use wh_threads::Shares;

/// `s` stores a byte.
const STORES: [u8; 45] = [
    0x00, 0x61, 0x73, 0x6d, 0x01, 0x00, 0x00, 0x00, 0x01, 0x06, 0x01, 0x60, 0x02, 0x7f, 0x7f, 0x00,
    0x03, 0x02, 0x01, 0x00, 0x05, 0x03, 0x01, 0x00, 0x01, 0x07, 0x05, 0x01, 0x01, 0x73, 0x00, 0x00,
    0x0a, 0x0b, 0x01, 0x09, 0x00, 0x20, 0x00, 0x20, 0x01, 0x3a, 0x00, 0x00, 0x0b,
];

/// `f` goes on forever: a charge to enter it, and one for each way back.
const LOOPS: [u8; 36] = [
    0x00, 0x61, 0x73, 0x6d, 0x01, 0x00, 0x00, 0x00, 0x01, 0x04, 0x01, 0x60, 0x00, 0x00, 0x03, 0x02,
    0x01, 0x00, 0x07, 0x05, 0x01, 0x01, 0x66, 0x00, 0x00, 0x0a, 0x09, 0x01, 0x07, 0x00, 0x03, 0x40,
    0x0c, 0x00, 0x0b, 0x0b,
];

/// How often a thread looks without success before it gives up.
const MOST_LOOKS: u32 = 1_000_000_000;

// What a device and the thread of a test tell each other.
#[derive(Drop)]
struct Gate {
    is_called: AtomicBool,
    may_go_on: AtomicBool,
}

// Waits until it is set. Whether it was in time.
fn wait_for(flag: &AtomicBool) -> bool {
    for _ in 0..MOST_LOOKS {
        if flag.load(Ordering::SeqCst) {
            return true;
        }
        thread::yield_now();
    }
    false
}

// A swap device in memory whose writes wait until its gate is open.
struct GatedSwap {
    memory: MemSwap,
    gate: Arc<Gate, Global>,
}

impl Drop for GatedSwap {
    fn drop(self) {
        let GatedSwap { memory: _, gate: _ } = self;
    }
}

impl SwapDev for GatedSwap {
    ghost held = { λ d. memory_held d.memory };

    ghost writes = { λ d. memory_writes d.memory };

    ghost faults = { λ _. [] };

    ghost honest = { λ _. ⊤ };

    ghost keeps = { λ _. ⊤ };

    fn read(&mut self, slot: u32, into: &mut [u8; 4096]) -> Result<(), SwapError>
        requires there { slot < length (memory_held self.old.memory) }
        ensures ok { IsOk result }
        ensures bytes { OnOk result (⊤ → get_or (memory_held self.old.memory) slot [] ≢ []
            → into.new ≡ get_or (memory_held self.old.memory) slot []) }
        ensures unchanged { self.new.memory ≡ self.old.memory }
    {
        self.memory.read(slot, into)
    }

    fn write(&mut self, slot: u32, from: &[u8; 4096]) -> Result<(), SwapError>
        requires there { slot < length (memory_held self.old.memory) }
        ensures ok { IsOk result }
        ensures written { memory_held self.new.memory
            ≡ slice_set (memory_held self.old.memory) slot from.now }
        ensures slots { length (memory_held self.new.memory)
            ≡ length (memory_held self.old.memory) }
        ensures writes { memory_writes self.new.memory ≡ memory_writes self.old.memory + 1 }
    {
        self.gate.is_called.store(true, Ordering::SeqCst);
        let _ = wait_for(&self.gate.may_go_on);
        self.memory.write(slot, from)
    }
}

// One instance stores 1 to 8 on eight pages, two others go on forever.
fn ask_locked<T: Ledger, C: Ledger, O: Ledger, E: Ledger, B: CellAgreements>(
    alloc: Global,
    locked: &mut Locked<GatedSwap, T, C, O, E, B>,
    owner: &mut Owner<GatedSwap, B>,
) -> Result<[InstId; 3], Fail> {
    let stores = locked.ask(owner, loading(alloc, &STORES))?;
    let loops = locked.ask(owner, loading(alloc, &LOOPS))?;
    let a = locked.ask(owner, admission(alloc, stores))?;
    let b = locked.ask(owner, admission(alloc, loops))?;
    let c = locked.ask(owner, admission(alloc, loops))?;
    for page in 0..8u32 {
        let page = i128::from(page);
        let _ = locked.ask(
            owner,
            invocation(alloc, a, "s", &[page * 4096, page + 1], 1000),
        )?;
    }
    for id in [b, c] {
        let _ = locked.ask(owner, invocation(alloc, id, "f", &[], u64::MAX))?;
    }
    Ok([a, b, c])
}

// The same, under the lock of the cell.
fn ask<T: Ledger, C: Ledger, O: Ledger, E: Ledger, B: CellAgreements, R: Wait>(
    rt: &R,
    alloc: Global,
    cell: &HostCell<GatedSwap, T, C, O, E, B>,
    owner: &mut Owner<GatedSwap, B>,
) -> Result<[InstId; 3], Fail> {
    let mut locked = cell.lock(rt);
    ask_locked(alloc, &mut locked, owner)
}

// The charges and the offers in the books.
fn counted<T: Ledger, C: Ledger, O: Ledger, E: Ledger, B: CellAgreements, R: Wait>(
    rt: &R,
    cell: &HostCell<GatedSwap, T, C, O, E, B>,
) -> (u64, u64) {
    let locked = cell.lock(rt);
    (locked.books().charges.low(), locked.books().offers.low())
}

// Whether charges and offers grow while the device is called.
fn both_grow<T: Ledger, C: Ledger, O: Ledger, E: Ledger, B: CellAgreements, R: Wait>(
    rt: &R,
    cell: &HostCell<GatedSwap, T, C, O, E, B>,
    gate: &Gate,
) -> bool {
    if !wait_for(&gate.is_called) {
        return false;
    }
    let (charges, offers) = counted(rt, cell);
    for _ in 0..MOST_LOOKS {
        let (more_charges, more_offers) = counted(rt, cell);
        if more_charges > charges && more_offers > offers {
            return true;
        }
        thread::yield_now();
    }
    false
}

// How many of the first calls of an instance have returned.
fn returned_on(host: &Host, id: InstId) -> u32 {
    let mut many: u32 = 0;
    for at in 1..9 {
        if let Some(CallStatus::Returned { .. }) = host.call_status(id, at) {
            many = many.saturating_add(1);
        }
    }
    many
}

// The same, under the lock of the cell.
fn returned<T: Ledger, C: Ledger, O: Ledger, E: Ledger, B: CellAgreements, R: Wait>(
    rt: &R,
    cell: &HostCell<GatedSwap, T, C, O, E, B>,
    id: InstId,
) -> u32 {
    let locked = cell.lock(rt);
    returned_on(locked.host(), id)
}

// What was seen while the calls ran: whether charges and offers grew, whether all calls ran, and how many stores returned.
#[derive(Clone, Copy, Debug, PartialEq, Eq)]
struct Seen {
    grew: bool,
    ran: bool,
    returned: u32,
}

// All calls of these instances, by two workers, in turns of `quantum` charges. Whether they ran.
fn run_all<
    T: Ledger + Send + 'static,
    C: Ledger + Send + 'static,
    O: Ledger + Send + 'static,
    E: Ledger + Send + 'static,
    B: CellAgreements + Send + 'static,
    R: Threads + Wait + Copy + Send + Sync + 'static,
>(
    rt: R,
    alloc: Global,
    cell: HostCell<GatedSwap, T, C, O, E, B>,
    shares: Shares<T, C, O, E>,
    ids: [InstId; 3],
    quantum: u32,
) -> bool {
    let mut shares = shares;
    let manner = RunConfig {
        hasher: FnvHash,
        quantum,
        workers: 2,
    };
    match run_calls(rt, alloc, &cell, &mut shares, &ids, manner) {
        Ok(served) => served.end.is_ok(),
        Err(_) => false,
    }
}

// Looks whether charges and offers grow, cancels the calls that go on forever, and lets the device go on.
fn look_on<T: Ledger, C: Ledger, O: Ledger, E: Ledger, B: CellAgreements, R: Wait>(
    rt: &R,
    cell: &HostCell<GatedSwap, T, C, O, E, B>,
    owner: &mut Owner<GatedSwap, B>,
    gate: &Gate,
    forever: [InstId; 2],
) -> bool {
    let grew = both_grow(rt, cell, gate);
    for id in forever {
        let mut locked = cell.lock(rt);
        let _ = locked.ask(owner, Cancel { id });
    }
    gate.may_go_on.store(true, Ordering::SeqCst);
    grew
}

// The calls are run by a thread of their own, while this one looks.
fn look_beside<
    T: Ledger + Send + 'static,
    C: Ledger + Send + 'static,
    O: Ledger + Send + 'static,
    E: Ledger + Send + 'static,
    B: CellAgreements + Send + 'static,
    R: Threads + Wait + Copy + Send + Sync + 'static,
>(
    rt: R,
    alloc: Global,
    gate: &Gate,
    cell: &HostCell<GatedSwap, T, C, O, E, B>,
    owner: &mut Owner<GatedSwap, B>,
    shares: Shares<T, C, O, E>,
    quantum: u32,
) -> Result<Seen, Fail> {
    let ids = ask(&rt, alloc, cell, owner)?;
    let theirs = cell.share()?;
    let run = move || -> bool { run_all(rt, alloc, theirs, shares, ids, quantum) };
    let runner = thread::spawn(&rt, run)?;
    let grew = look_on(&rt, cell, owner, gate, [ids[1], ids[2]]);
    let ran = runner.join(&rt);
    Ok(Seen {
        grew,
        ran,
        returned: returned(&rt, cell, ids[0]),
    })
}

// The same on a new host with six frames and 64 slots.
fn look_on_new<
    T: Ledger + Send + 'static,
    C: Ledger + Send + 'static,
    O: Ledger + Send + 'static,
    E: Ledger + Send + 'static,
    B: CellAgreements + Send + 'static,
    R: Threads + Wait + Copy + Send + Sync + 'static,
>(
    rt: R,
    alloc: Global,
    gate: &Gate,
    cell_parts: CellParts<GatedSwap>,
    quantum: u32,
) -> Result<Seen, Fail>
    requires empty { memory_held cell_parts.device.memory ≡ replicate 64 [] }
    requires owned { cell_parts.to_owner ≡ B.to_owner }
    requires backed { cell_parts.to_device ≡ B.to_device }
    requires ledgers { HasLedgers T.Ledger C.Ledger O.Ledger E.Ledger cell_parts }
{
    let host = Host::new(alloc, 6, 64, Tax { num: 0, den: 1 })?;
    let (cell, mut owner, shares) = HostCell::<GatedSwap, T, C, O, E, B>::new(
        alloc, host, cell_parts,
    )?;
    look_beside(rt, alloc, gate, &cell, &mut owner, shares, quantum)
}

// A device after this gate.
fn gated(alloc: Global, gate: &Arc<Gate, Global>) -> Result<GatedSwap, AllocError>
    ensures { IfOk result (λ d. memory_held d.memory ≡ replicate 64 []) }
{
    Ok(GatedSwap {
        memory: MemSwap::new(alloc, 64)?,
        gate: Arc::try_clone(gate)?,
    })
}

// What is seen at this gate of a device, while calls run in turns of `quantum` charges.
fn see<R: AllocGlobal + Threads + Wait + Copy + Send + Sync + 'static>(
    rt: R,
    gate: &Arc<Gate, Global>,
    quantum: u32,
) -> Result<Seen, Fail> {
    let alloc = rt.alloc();
    let device = gated(alloc, gate)?;
    let cell_parts = CellParts::new(alloc, device)?;
    look_on_new::<Brand, Brand, Brand, Brand, Brand, R>(rt, alloc, gate, cell_parts, quantum)
}

// What was seen, where all went well.
const ALL_SEEN: Seen = Seen {
    grew: true,
    ran: true,
    returned: 8,
};

// A gate that is shut.
fn shut_gate(alloc: Global) -> Result<Arc<Gate, Global>, Fail> {
    let shut = Gate {
        is_called: AtomicBool::new(false),
        may_go_on: AtomicBool::new(false),
    };
    match Arc::new(alloc, shut) {
        Ok(gate) => Ok(gate),
        Err(_) => Err(Fail::from(AllocError)),
    }
}

#[test]
fn turns_go_on_while_the_device_is_called(rt: HostRuntime) -> Result<(), Fail> {
    let gate = shut_gate(rt.alloc())?;
    assert_eq!(rt; see(rt, &gate, 10)?, ALL_SEEN);
    Ok(())
}

// Two instances compute at once, in rounds, and whoever wants the lock gets it.
#[test]
fn rounds_end_for_whoever_wants_the_lock(rt: HostRuntime) -> Result<(), Fail> {
    let gate = shut_gate(rt.alloc())?;
    assert_eq!(rt; see(rt, &gate, 100_000)?, ALL_SEEN);
    Ok(())
}

// How many turns the owner ran itself, and how many each of two workers.
#[derive(Clone, Copy, Debug, PartialEq, Eq)]
struct Ran {
    here: u64,
    first: u64,
    second: u64,
}

// Two instances go on for 50000 charges each, by turns of one charge: of the owner where no thread works, and then of two workers.
fn run_loops<
    T: Ledger + Send + 'static,
    C: Ledger + Send + 'static,
    O: Ledger + Send + 'static,
    E: Ledger + Send + 'static,
    B: CellAgreements + Send + 'static,
    R: Threads + Wait + Copy + Send + Sync + 'static,
>(
    rt: R,
    alloc: Global,
    owned: &mut OwnedHost<MemSwap, T, C, O, E, B>,
) -> Result<Option<Ran>, Fail> {
    let loops = owned.ask(loading(alloc, &LOOPS))?;
    let a = owned.ask(admission(alloc, loops))?;
    let b = owned.ask(admission(alloc, loops))?;
    let _ = owned.ask(invocation(alloc, a, "f", &[], 50000))?;
    let _ = owned.ask(invocation(alloc, b, "f", &[], 50000))?;
    let manner = RunConfig {
        hasher: FnvHash,
        quantum: 1,
        workers: 2,
    };
    let here = owned.run_here(&[a, b], 31, 1);
    if here.end != HereEnd::Most {
        return Ok(None);
    }
    match owned.run(rt, alloc, &[a, b], manner) {
        Ok(served) if served.end.is_ok() => {}
        Ok(_) | Err(_) => return Ok(None),
    }
    let (_, shares) = owned.counts();
    Ok(Some(Ran {
        here: shares.owner().turns,
        first: shares.tally(0).turns,
        second: shares.tally(1).turns,
    }))
}

// The same on a new host.
fn run_evenly<
    T: Ledger + Send + 'static,
    C: Ledger + Send + 'static,
    O: Ledger + Send + 'static,
    E: Ledger + Send + 'static,
    B: CellAgreements + Send + 'static,
    R: Threads + Wait + Copy + Send + Sync + 'static,
>(rt: R, alloc: Global, cell_parts: CellParts<MemSwap>) -> Result<Option<Ran>, Fail>
    requires empty { memory_held cell_parts.device ≡ replicate 64 [] }
    requires owned { cell_parts.to_owner ≡ B.to_owner }
    requires backed { cell_parts.to_device ≡ B.to_device }
    requires ledgers { HasLedgers T.Ledger C.Ledger O.Ledger E.Ledger cell_parts }
{
    let host = Host::new(alloc, 4, 64, Tax { num: 0, den: 1 })?;
    let mut owned: OwnedHost<MemSwap, T, C, O, E, B> = OwnedHost::new(alloc, host, cell_parts)?;
    run_loops(rt, alloc, &mut owned)
}

#[test]
fn both_workers_get_turns(rt: HostRuntime) -> Result<(), Fail> {
    let alloc = rt.alloc();
    let device = MemSwap::new(alloc, 64)?;
    let cell_parts = CellParts::new(alloc, device)?;
    let ran = run_evenly::<Brand, Brand, Brand, Brand, Brand, HostRuntime>(rt, alloc, cell_parts)?;
    let Some(
        Ran {
            here,
            first,
            second,
        },
    ) = ran
    else {
        assert!(rt; false, "all calls ran");
        return Ok(());
    };
    assert!(rt; first > 0 && second > 0);
    assert_eq!(rt; here, 31);
    assert!(rt; first.saturating_add(second) >= 100_000 - 31);
    Ok(())
}
