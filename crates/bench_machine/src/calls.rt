//! Calls over a memory, a flat one and one on shared frames.

ghost use Rattle.std.specs.Prelude.{◌≡◌, ◌≤◌, IfOk, OnOk, length};
ghost use Rattle.wh_initial.specs.Begins.{Instantiates};
ghost use Rattle.wh_model.specs.Execution.Instance.{Parameters as Given};
ghost use Rattle.wh_space.specs.Steps.{page_limit};
ghost use Rattle.wh_syntax.specs.View.{view_module};

use anyhow::{Context, Result, bail, ensure};
use std::alloc::Global;
use std::time::{CpuClock, Duration};
use wh_call::{RunEnd, call, can_call, exported};
use wh_flatmem::FlatMemory;
use wh_imports::Linked;
use wh_initial::{Instantiated, Parameters, instantiate};
use wh_linmem::LinearMem;
use wh_machine::Machine;
use wh_model::Got;
use wh_space::{Memory, Promise, View};
use wh_space_model::Tax;
use wh_syntax::Data;

/// To how many pages of 65536 bytes a memory may grow: the most that an instance of the host may have.
const PAGES: u32 = 4096;

/// How many frames and slots there are for an instance that is alone.
const FRAMES: u32 = 262144;

const SLOTS: u32 = 1048576;

/// A call, and what it is to come to.
#[derive(Clone, Copy)]
pub struct Call<'a> {
    /// By which name the function is exported.
    pub export: &'a str,
    /// Its result.
    pub word: u64,
    /// Its charges.
    pub charges: u64,
}

/// Over what a call is made.
#[derive(Clone, Copy)]
pub enum Kind {
    /// A flat memory.
    Flat,
    /// A memory on shared frames, in which nobody else is.
    Frames,
}

/// Writes a piece of a data segment, and says whether it could.
fn write_piece<M: LinearMem>(memory: &mut M, at: u64, piece: &[u8]) -> bool
    requires { length piece.now ≤ 4096 }
    ensures { M.limit memory.new ≡ M.limit memory.old }
{
    memory.store(at, piece) == Got::Value
}

/// Writes a data segment from this place on, in pieces of at most 4096 bytes, and says whether it could.
fn write_segment<M: LinearMem>(memory: &mut M, segment: &Data, place: u32) -> bool
    ensures { M.limit memory.new ≡ M.limit memory.old }
{
    let mut at = u64::from(place);
    for piece in segment.init.chunks(4096) {
        if !write_piece(memory, at, piece) {
            return false;
        }
        at = at.saturating_add(4096);
    }
    true
}

/// Writes data segments, each from its place on, and says whether it could.
fn write_segments<M: LinearMem>(memory: &mut M, segments: &[Data], places: &[u32]) -> bool
    ensures { M.limit memory.new ≡ M.limit memory.old }
{
    for (segment, place) in segments.iter().zip(places.iter()) {
        if !write_segment(memory, segment, *place) {
            return false;
        }
    }
    true
}

/// Makes the call over a memory, and gives the processor time of it.
fn time_on<M: LinearMem>(
    rt: &impl CpuClock,
    linked: &Linked,
    begun: &mut Instantiated,
    machine: &mut Machine,
    memory: &mut M,
    wanted: &Call<'_>,
) -> Result<Duration>
    requires begun { (given : Given)
        × Instantiates (view_module linked.now.valid.decoded) given begun.old }
    requires limit { M.limit memory.old ≡ begun.old.page_limit }
{
    let module = linked.module();
    ensure!(
        write_segments(memory, &module.segments, &begun.places),
        "the segments aren't written"
    );
    let Some(func) = exported(&module.exports, wanted.export) else {
        bail!("no function is exported so");
    };
    if !can_call(linked, func, &[]) {
        bail!("the function can't be called without arguments");
    }
    let before = rt.thread_cpu_time()?;
    let (end, charges) = call(
        linked,
        &mut begun.store,
        machine,
        memory,
        func,
        &[],
        u64::MAX,
    );
    let after = rt.thread_cpu_time()?;
    ensure!(
        end == RunEnd::Returned(Some(wanted.word)),
        "it came to {end:?}"
    );
    ensure!(charges == wanted.charges, "it took {charges} charges");
    after.checked_sub(before).context("the clock went back")
}

/// Looks that an instance has no more pages than it may have, and may have no more than any.
fn check_size(begun: &Instantiated) -> Result<()>
    ensures within { OnOk result (begun.now.pages ≤ begun.now.page_limit) }
    ensures most { OnOk result (begun.now.page_limit ≤ 4096) }
{
    if begun.pages > begun.page_limit {
        bail!("it is too large");
    }
    if begun.page_limit > PAGES {
        bail!("it may grow too far");
    }
    Ok(())
}

/// What an instance begins with.
fn begin(alloc: Global, linked: &Linked) -> Result<Instantiated>
    ensures { IfOk result (λ begun. (given : Given)
        × Instantiates (view_module linked.now.valid.decoded) given begun) }
{
    let parameters = Parameters {
        base: 0,
        salt: 0,
        inputs: Vec::new(alloc),
        page_limit: PAGES,
    };
    Ok(instantiate(alloc, linked, parameters)?)
}

/// The time over a flat memory, which it makes.
fn time_flat(
    rt: &(impl CpuClock + AllocGlobal),
    linked: &Linked,
    begun: &mut Instantiated,
    machine: &mut Machine,
    wanted: &Call<'_>,
) -> Result<Duration>
    requires { (given : Given)
        × Instantiates (view_module linked.now.valid.decoded) given begun.old }
{
    check_size(begun)?;
    let mut memory = FlatMemory::new(rt.alloc(), begun.pages, begun.page_limit)?;
    time_on(rt, linked, begun, machine, &mut memory, wanted)
}

/// Gives an instance the first place of a memory. It has `size` pages of 65536 bytes, and may get as many as the limit
/// says.
fn enter_first(alloc: Global, memory: &mut Memory, size: u32, limit: u32) -> Result<()>
    requires within { size ≤ limit }
    requires most { limit ≤ 4096 }
    ensures { OnOk result (page_limit memory.new 0 ≡ limit) }
{
    let promise = Promise {
        number: 0,
        shares: 100,
        min: 2,
        max: (16 * limit).max(2),
    };
    ensure!(memory.is_free(0), "the place is taken");
    ensure!(memory.is_fresh(promise.number), "the number is taken");
    ensure!(
        u64::from(promise.min) <= memory.frames_left(),
        "there are too few frames"
    );
    ensure!(
        u64::from(promise.max - promise.min) < memory.slots_left(),
        "there are too few slots"
    );
    memory.enter(alloc, 0, promise, size)?;
    if memory.limit(0) != limit {
        bail!("the limits differ");
    }
    Ok(())
}

/// The time over a memory on shared frames, in which nobody is yet.
fn time_view(
    rt: &(impl CpuClock + AllocGlobal),
    linked: &Linked,
    begun: &mut Instantiated,
    machine: &mut Machine,
    memory: &mut Memory,
    wanted: &Call<'_>,
) -> Result<Duration>
    requires { (given : Given)
        × Instantiates (view_module linked.now.valid.decoded) given begun.old }
{
    check_size(begun)?;
    enter_first(rt.alloc(), memory, begun.pages, begun.page_limit)?;
    let mut view = View {
        memory,
        place: 0,
        page_limit: begun.page_limit,
    };
    time_on(rt, linked, begun, machine, &mut view, wanted)
}

/// The time over a memory on shared frames, which it makes.
fn time_frames(
    rt: &(impl CpuClock + AllocGlobal),
    linked: &Linked,
    begun: &mut Instantiated,
    machine: &mut Machine,
    wanted: &Call<'_>,
) -> Result<Duration>
    requires { (given : Given)
        × Instantiates (view_module linked.now.valid.decoded) given begun.old }
{
    let mut memory = Memory::new(rt.alloc(), FRAMES, SLOTS, Tax { num: 3, den: 4 })?;
    time_view(rt, linked, begun, machine, &mut memory, wanted)
}

/// The time on a machine, which it makes.
fn time_machine(
    rt: &(impl CpuClock + AllocGlobal),
    linked: &Linked,
    begun: &mut Instantiated,
    kind: Kind,
    wanted: &Call<'_>,
) -> Result<Duration>
    requires { (given : Given)
        × Instantiates (view_module linked.now.valid.decoded) given begun.old }
{
    let mut machine = Machine::new(rt.alloc())?;
    match kind {
        Kind::Flat => time_flat(rt, linked, begun, &mut machine, wanted),
        Kind::Frames => time_frames(rt, linked, begun, &mut machine, wanted),
    }
}

/// Measures the time of a call on an instance of its own. Of instance, machine and memory each is made by a function
/// that does nothing else, and lent to what can fail: so it takes less to prove.
pub fn time_call(
    rt: &(impl CpuClock + AllocGlobal),
    linked: &Linked,
    kind: Kind,
    wanted: &Call<'_>,
) -> Result<Duration> {
    let mut begun = begin(rt.alloc(), linked)?;
    time_machine(rt, linked, &mut begun, kind, wanted)
}
