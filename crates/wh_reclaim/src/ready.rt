// Making a step ready.

ghost use Rattle.std.specs.Prelude.{◌≡◌, ◌+◌, ◌≤◌, ℕ, [], Some, Ok, IfOk, OnErr, OnOk, get_or, length};
ghost use Rattle.wh_space_model.specs.Frames.{one_if, tally};
ghost use Rattle.wh_space_model.specs.declared.states.Page.TheVariants.{Swapped};
ghost use Rattle.wh_space_model.specs.Claims.{CanLeave};
ghost use Rattle.wh_space_model.specs.Errands.{tickets};
ghost use Rattle.wh_space_model.specs.Laws.{IsProvided};
ghost use Rattle.wh_space_model.specs.Moves.{Evicts, Fetches};
ghost use Rattle.wh_space_model.specs.Parts.{kept, pinned_by};
ghost use Rattle.wh_space_model.specs.Provide.{FailsToProvide, FailsTruly, IsServing, LacksFree, OthersKeepMinimum, Provides, ProvidesTruly};
ghost use Rattle.wh_space_model.specs.States.{page_at};
ghost use Rattle.wh_space_model.specs.Tickets.{WaitsForBytes};
ghost use Rattle.wh_model.specs.declared.memory.Need.{Need as Bytes};
ghost use Rattle.wh_reclaim.specs.Providing.{GoesOn, HasMovedPages, LosesSlot, Revokes, left_by};
ghost use Rattle.wh_reclaim.specs.Whole.{IsAsWhole};
ghost use Rattle.wh_swap.specs.DeviceCalls.{ServesOn, call_faults};

use crate::choice::{PageOf, page_to_take};
use crate::tickets::Buf;
use wh_model::Need;
use wh_space::Memory;
use wh_space_model::SwapError;
use wh_swap::SwapDev;

/// What was made of one move.
#[derive(Clone, Copy, Debug, PartialEq, Eq)]
pub enum MoveOutcome {
    /// Nothing: the step lacks nothing but earmarks.
    Done,
    /// A page has come.
    Came,
    /// A page has left.
    Left,
}

/// How many pages a provision has moved.
#[derive(Clone, Copy, Debug, PartialEq, Eq)]
pub struct PagesMoved {
    /// How many have left, each by one write of the device.
    pub left: u64,
    /// How many have come, each by one read.
    pub came: u64,
}

// A page leaves that can, in one go.
fn evict_now<D: SwapDev>(
    memory: &mut Memory,
    device: &mut D,
    taken: PageOf,
    bytes: &mut [u8; 4096],
) -> Result<(), SwapError>
    requires can { CanLeave memory.old taken.place taken.page }
    requires slot { 1 ≤ length memory.old.slots.vacant }
    requires agrees { memory.old.slots.held ≡ D.held device.old }
    ensures agrees { memory.new.slots.held ≡ D.held device.new }
    ensures writes { D.writes device.new ≡ D.writes device.old + 1 }
    ensures evicts { OnOk result (Evicts memory.old taken.place taken.page memory.new) }
    ensures loses { OnErr result (LosesSlot memory.old memory.new) }
    ensures serves { ServesOn D.keeps D.honest D.faults device.old (call_faults result) device.new }
{
    memory.invariant();
    let slot = memory.evict_begin(taken.place, taken.page, bytes);
    memory.invariant();
    match device.write(slot, bytes) {
        Ok(()) => {
            memory.written(slot, bytes, true);
            let _ = memory.evict_commit(slot, true, bytes);
            Ok(())
        }
        Err(fault) => {
            memory.written(slot, bytes, false);
            let _ = memory.evict_commit(slot, false, bytes);
            Err(fault)
        }
    }
}

// A page comes from its slot, in one go.
fn fetch_now<D: SwapDev>(
    memory: &mut Memory,
    device: &mut D,
    place: usize,
    page: u32,
    slot: u32,
    bytes: &mut [u8; 4096],
) -> Result<(), SwapError>
    requires page { page_at memory.old.tables place page ≡ Some (Swapped slot) }
    requires frame { 1 ≤ length memory.old.pool.free }
    requires pinned { length (pinned_by memory.old.pins place) ≤ 1 }
    requires kept { kept memory.old.pins ≡ [] }
    requires agrees { memory.old.slots.held ≡ D.held device.old }
    ensures agrees { memory.new.slots.held ≡ D.held device.new }
    ensures writes { D.writes device.new ≡ D.writes device.old }
    ensures fetches { OnOk result (Fetches memory.old place page bytes.new memory.new) }
    ensures given { OnOk result (D.honest device.new
        → get_or memory.old.slots.held slot [] ≡ bytes.new) }
    ensures same { OnErr result (memory.new ≡ memory.old) }
    ensures serves { ServesOn D.keeps D.honest D.faults device.old (call_faults result) device.new }
{
    memory.invariant();
    match device.read(slot, bytes) {
        Ok(()) => {
            memory.fetch(place, page, slot, bytes);
            Ok(())
        }
        Err(fault) => Err(fault),
    }
}

// A page leaves that has to.
fn revoke<D: SwapDev>(
    memory: &mut Memory,
    device: &mut D,
    place: usize,
    need: Need,
    bytes: &mut [u8; 4096],
) -> Result<(), SwapError>
    requires stands { WaitsForBytes memory.old place need }
    requires serving { IsServing memory.old place need }
    requires none_out { tickets memory.old ≡ 0 }
    requires lacks { LacksFree memory.old place need }
    requires agrees { memory.old.slots.held ≡ D.held device.old }
    ensures agrees { memory.new.slots.held ≡ D.held device.new }
    ensures writes { D.writes device.new ≡ D.writes device.old + 1 }
    ensures revokes { OnOk result (Revokes memory.old place need memory.new) }
    ensures loses { OnErr result (LosesSlot memory.old memory.new) }
    ensures serves { ServesOn D.keeps D.honest D.faults device.old (call_faults result) device.new }
{
    memory.invariant();
    let Some(taken) = page_to_take(memory, place, need) else {
        unreachable!()
    };
    evict_now(memory, device, taken, bytes)
}

// One move nearer to the step, or none where nothing is lacking.
fn go_on<D: SwapDev>(
    memory: &mut Memory,
    device: &mut D,
    place: usize,
    need: Need,
    bytes: &mut [u8; 4096],
) -> Result<MoveOutcome, SwapError>
    requires stands { WaitsForBytes memory.old place need }
    requires serving { IsServing memory.old place need }
    requires none_out { tickets memory.old ≡ 0 }
    requires once { (q : ℕ) → tally (one_if q) (pinned_by memory.old.pins place) ≤ 1 }
    requires agrees { memory.old.slots.held ≡ D.held device.old }
    ensures agrees { memory.new.slots.held ≡ D.held device.new }
    ensures writes { IfOk result (λ made.
        D.writes device.new ≡ D.writes device.old + left_by made) }
    ensures goes_on { IfOk result (λ made.
        GoesOn (D.honest device.new) memory.old place need made memory.new) }
    ensures loses { OnErr result (LosesSlot memory.old memory.new) }
    ensures serves { ServesOn D.keeps D.honest D.faults device.old (call_faults result) device.new }
{
    memory.invariant();
    if let Some((page, slot)) = memory.swapped_page(place, need) {
        if memory.free() == 0 {
            return match revoke(memory, device, place, need, bytes) {
                Ok(()) => Ok(MoveOutcome::Left),
                Err(fault) => Err(fault),
            };
        }
        return match fetch_now(memory, device, place, page, slot, bytes) {
            Ok(()) => Ok(MoveOutcome::Came),
            Err(fault) => Err(fault),
        };
    }
    if memory.frames_to_write(place, need) > memory.free() {
        return match revoke(memory, device, place, need, bytes) {
            Ok(()) => Ok(MoveOutcome::Left),
            Err(fault) => Err(fault),
        };
    }
    Ok(MoveOutcome::Done)
}

// Makes the step ready for which the instance at a place waits.
fn provide_for<D: SwapDev>(
    memory: &mut Memory,
    device: &mut D,
    place: usize,
    need: Need,
    bytes: &mut [u8; 4096],
    moved: &mut PagesMoved,
) -> Result<u64, SwapError>
    requires stands { WaitsForBytes memory.old place need }
    requires none_out { tickets memory.old ≡ 0 }
    requires agrees { memory.old.slots.held ≡ D.held device.old }
    ensures agrees { memory.new.slots.held ≡ D.held device.new }
    ensures provides { IfOk result (λ left. Provides memory.old place need left memory.new) }
    ensures truly { IfOk result (λ left. D.honest device.new
        → ProvidesTruly memory.old place need left memory.new) }
    ensures fails { OnErr result (FailsToProvide memory.old place need memory.new) }
    ensures fails_truly { OnErr result (D.honest device.new
        → FailsTruly memory.old place need memory.new) }
    ensures moves { HasMovedPages memory.old place need moved.new.left moved.new.came memory.new }
    ensures left { IfOk result (λ left. moved.new.left ≡ left) }
    ensures writes { IfOk result (λ left. D.writes device.new ≡ D.writes device.old + left) }
    ensures serves { ServesOn D.keeps D.honest D.faults device.old (call_faults result) device.new }
{
    memory.invariant();
    memory.known_pages();
    memory.pin(place, need);
    let mut left: u64 = 0;
    let mut came: u64 = 0;
    loop {
        match go_on(memory, device, place, need, bytes) {
            Ok(MoveOutcome::Done) => {
                let wanted = memory.frames_to_write(place, need);
                memory.earmark(place, wanted);
                *moved = PagesMoved { left, came };
                return Ok(left);
            }
            Ok(MoveOutcome::Came) => came += 1,
            Ok(MoveOutcome::Left) => left += 1,
            Err(fault) => {
                memory.unpin();
                *moved = PagesMoved { left, came };
                return Err(fault);
            }
        }
    }
}

/// Makes the step ready on which the instance at this place is blocked: pins its resident pages, fetches its swapped
/// ones, the first one first, and earmarks frames for its writes. If no frame is free, or too few for the writes,
/// evicts the page that `page_to_take` returns. Does nothing if the instance isn't blocked on a frame. The buffer is
/// used while the call lasts. Returns how many pages were evicted, each by one write of the device. `moved` tells then how
/// many pages have left and how many have come.
///
/// # Errors
/// That of the device's call that failed. The moves so far stay, and `moved` tells of them; nothing is pinned or earmarked.
pub fn provide<D: SwapDev>(
    memory: &mut Memory,
    device: &mut D,
    place: usize,
    buf: &mut Buf,
    moved: &mut PagesMoved,
) -> Result<u64, SwapError>
    requires none_out { tickets memory.old ≡ 0 }
    requires agrees { memory.old.slots.held ≡ D.held device.old }
    ensures agrees { memory.new.slots.held ≡ D.held device.new }
    ensures none_out { tickets memory.new ≡ 0 }
    ensures idle { ((need : Bytes) → ¬ WaitsForBytes memory.old place need)
        → (memory.new ≡ memory.old) × (device.new ≡ device.old) × (result ≡ Ok 0) }
    ensures provides { (need : Bytes) → WaitsForBytes memory.old place need
        → IfOk result (λ left. Provides memory.old place need left memory.new) }
    ensures right { (need : Bytes) → WaitsForBytes memory.old place need
        → IfOk result (λ left. IsProvided memory.old place need left memory.new) }
    ensures truly { (need : Bytes) → WaitsForBytes memory.old place need → D.honest device.new
        → IfOk result (λ left. ProvidesTruly memory.old place need left memory.new) }
    ensures fails { (need : Bytes) → WaitsForBytes memory.old place need
        → OnErr result (FailsToProvide memory.old place need memory.new) }
    ensures fails_truly { (need : Bytes) → WaitsForBytes memory.old place need
        → D.honest device.new → OnErr result (FailsTruly memory.old place need memory.new) }
    ensures none_moves { ((need : Bytes) → ¬ WaitsForBytes memory.old place need)
        → moved.new ≡ record { left = 0; came = 0 } }
    ensures moves { (need : Bytes) → WaitsForBytes memory.old place need
        → HasMovedPages memory.old place need moved.new.left moved.new.came memory.new }
    ensures left { IfOk result (λ left. moved.new.left ≡ left) }
    ensures others { OthersKeepMinimum memory.old place memory.new }
    ensures whole { IsAsWhole memory.old memory.new }
    ensures writes { IfOk result (λ left. D.writes device.new ≡ D.writes device.old + left) }
    ensures serves { ServesOn D.keeps D.honest D.faults device.old (call_faults result) device.new }
{
    memory.invariant();
    let Some(need) = memory.wanted_step(place) else {
        *moved = PagesMoved { left: 0, came: 0 };
        return Ok(0);
    };
    provide_for(memory, device, place, need, buf, moved)
}
