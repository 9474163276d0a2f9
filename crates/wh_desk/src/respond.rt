// One request, under the lock.

ghost use Rattle.std.specs.Prelude.{◌≡◌, IsSome, OnErr};
ghost use Rattle.wh_cell.specs.Locking.{now_of};
ghost use Rattle.wh_desk.specs.Bounded.{HasRoomToOwn, OwnsAll};
ghost use Rattle.wh_desk.specs.Permits.{Permits, owned_after, ownership_of};
ghost use Rattle.wh_desk.specs.Questions.{ChangesCalls, AsksForBytes, OnlyLooks, question_of};
ghost use Rattle.wh_desk.specs.Replying.{HostReplies, IsRight};
ghost use Rattle.wh_desk.specs.Tracing.{entry};
ghost use Rattle.wh_desk.specs.declared.request.DeskReply.TheVariants.{Admitted, Forked, Loaded, Released, Unloaded};
ghost use Rattle.wh_desk.specs.declared.trace.Question.TheVariants as asked;

use crate::copying::{ends, exports, output_from};
use crate::ownership::{OwnedInstance, OwnedModule, Ownership, refuse};
use crate::principal::Principal;
use crate::reading::read;
use crate::request::{DeskReply, DeskRequest};
use std::alloc::Global;
use std::sync::MutexGuard;
use std::sync::ledger::Ledger;
use wh_cell::{Backing, CellAgreements, Locked, Owner};
use wh_host::{
    Admit, AdmitError, BeginEpoch, Cancel, Fork, ForkError, Host, HostError, Invoke, InvokeAt,
    Load, ModuleError, ModuleId, Refuel, Release, Request, Retry, Unload, UnloadError,
};
use wh_space_model::InstId;
use wh_swap::SwapDev;

// Asks something of the host, by the owner's right, who knows it as it is.
fn ask<D: SwapDev, T: Ledger, C: Ledger, O: Ledger, E: Ledger, B: CellAgreements, Q: Request>(
    locked: &mut Locked<D, T, C, O, E, B>,
    owner: &mut Owner<D, B>,
    request: Q,
) -> Result<Q::Answer, Q::Error>
    requires known { owner.old ≡ now_of locked.old }
    ensures asks { Q.asks request owner.old.host result owner.new.host }
    ensures err { OnErr result (owner.new.host ≡ owner.old.host) }
    ensures device { owner.new.device ≡ owner.old.device }
    ensures knows { owner.new ≡ now_of locked.new }
{
    locked.ask(owner, request)
}

// Has the host load a module, which is then whoever's asks.
fn load<D: SwapDev, T: Ledger, C: Ledger, O: Ledger, E: Ledger, B: CellAgreements>(
    locked: &mut Locked<D, T, C, O, E, B>,
    owner: &mut Owner<D, B>,
    ownership: &mut Ownership,
    who: Principal,
    request: Load<'_>,
) -> Result<ModuleId, ModuleError>
    requires known { owner.old ≡ now_of locked.old }
    requires owns { OwnsAll (ownership_of ownership.old) owner.old.host }
    requires room { HasRoomToOwn ownership.old }
    requires permitted { Permits (ownership_of ownership.old) who (asked.Load request.bytes.now) }
    ensures right { IsRight D.keeps D.honest D.faults (ownership_of ownership.old)
        (entry who (asked.Load request.entry.bytes.now) (Loaded result) owner.old owner.new) }
    ensures owned { ownership_of ownership.new ≡ owned_after who (asked.Load request.entry.bytes.now)
        (Loaded result) (ownership_of ownership.old) }
    ensures room { HasRoomToOwn ownership.new }
{
    let id = ask(locked, owner, request)?;
    ownership
        .modules
        .push_reserved(OwnedModule { id, owner: who });
    Ok(id)
}

// Has the host let a module go, which is then nobody's.
fn unload<D: SwapDev, T: Ledger, C: Ledger, O: Ledger, E: Ledger, B: CellAgreements>(
    locked: &mut Locked<D, T, C, O, E, B>,
    owner: &mut Owner<D, B>,
    ownership: &mut Ownership,
    who: Principal,
    request: Unload,
) -> Result<(), UnloadError>
    requires known { owner.old ≡ now_of locked.old }
    requires room { HasRoomToOwn ownership.old }
    requires permitted { Permits (ownership_of ownership.old) who (asked.Unload request.id) }
    ensures right { IsRight D.keeps D.honest D.faults (ownership_of ownership.old)
        (entry who (asked.Unload request.id) (Unloaded result) owner.old owner.new) }
    ensures owned { ownership_of ownership.new ≡ owned_after who (asked.Unload request.id)
        (Unloaded result) (ownership_of ownership.old) }
    ensures room { HasRoomToOwn ownership.new }
{
    let of = request.id;
    ask(locked, owner, request)?;
    ownership.modules.retain(|x| x.id.number != of.number);
    Ok(())
}

// Has the host admit an instance, which is then whoever's asks.
fn admit<D: SwapDev, T: Ledger, C: Ledger, O: Ledger, E: Ledger, B: CellAgreements>(
    locked: &mut Locked<D, T, C, O, E, B>,
    owner: &mut Owner<D, B>,
    ownership: &mut Ownership,
    who: Principal,
    request: Admit,
) -> Result<InstId, AdmitError>
    requires known { owner.old ≡ now_of locked.old }
    requires owns { OwnsAll (ownership_of ownership.old) owner.old.host }
    requires room { HasRoomToOwn ownership.old }
    requires permitted { Permits (ownership_of ownership.old) who
        (asked.Admit request.of request.params) }
    ensures right { IsRight D.keeps D.honest D.faults (ownership_of ownership.old)
        (entry who (asked.Admit request.of request.params) (Admitted result) owner.old owner.new) }
    ensures owned { ownership_of ownership.new ≡ owned_after who
        (asked.Admit request.of request.params) (Admitted result) (ownership_of ownership.old) }
    ensures room { HasRoomToOwn ownership.new }
{
    let id = ask(locked, owner, request)?;
    ownership
        .instances
        .push_reserved(OwnedInstance { id, owner: who });
    Ok(id)
}

// Has the host copy an instance. The copy is whose the instance is, whoever asks.
fn fork<D: SwapDev, T: Ledger, C: Ledger, O: Ledger, E: Ledger, B: CellAgreements>(
    locked: &mut Locked<D, T, C, O, E, B>,
    owner: &mut Owner<D, B>,
    ownership: &mut Ownership,
    who: Principal,
    request: Fork,
) -> Result<InstId, ForkError>
    requires known { owner.old ≡ now_of locked.old }
    requires owns { OwnsAll (ownership_of ownership.old) owner.old.host }
    requires room { HasRoomToOwn ownership.old }
    requires permitted { Permits (ownership_of ownership.old) who
        (asked.Fork request.id request.quota) }
    ensures right { IsRight D.keeps D.honest D.faults (ownership_of ownership.old)
        (entry who (asked.Fork request.id request.quota) (Forked result) owner.old owner.new) }
    ensures owned { ownership_of ownership.new ≡ owned_after who
        (asked.Fork request.id request.quota) (Forked result) (ownership_of ownership.old) }
    ensures room { HasRoomToOwn ownership.new }
{
    let whose = ownership.owner_of(request.id);
    let id = ask(locked, owner, request)?;
    ownership
        .instances
        .push_reserved(OwnedInstance { id, owner: whose });
    Ok(id)
}

// Has the host release an instance, which is then nobody's.
fn release<D: SwapDev, T: Ledger, C: Ledger, O: Ledger, E: Ledger, B: CellAgreements>(
    locked: &mut Locked<D, T, C, O, E, B>,
    owner: &mut Owner<D, B>,
    ownership: &mut Ownership,
    who: Principal,
    request: Release,
) -> Result<Vec<u8>, HostError>
    requires known { owner.old ≡ now_of locked.old }
    requires owns { OwnsAll (ownership_of ownership.old) owner.old.host }
    requires room { HasRoomToOwn ownership.old }
    requires permitted { Permits (ownership_of ownership.old) who (asked.Release request.id) }
    ensures right { IsRight D.keeps D.honest D.faults (ownership_of ownership.old)
        (entry who (asked.Release request.id) (Released result) owner.old owner.new) }
    ensures owned { ownership_of ownership.new ≡ owned_after who (asked.Release request.id)
        (Released result) (ownership_of ownership.old) }
    ensures room { HasRoomToOwn ownership.new }
{
    let id = request.id;
    let output = ask(locked, owner, request)?;
    ownership.instances.retain(|x| x.id.number != id.number);
    Ok(output)
}

// Has the host begin an epoch, which it never refuses.
fn begin_epoch<D: SwapDev, T: Ledger, C: Ledger, O: Ledger, E: Ledger, B: CellAgreements>(
    locked: &mut Locked<D, T, C, O, E, B>,
    owner: &mut Owner<D, B>,
) -> DeskReply
    requires known { owner.old ≡ now_of locked.old }
    ensures replies { HostReplies owner.old.host asked.BeginEpoch result owner.new.host }
    ensures device { owner.new.device ≡ owner.old.device }
{
    let _ = ask(locked, owner, BeginEpoch);
    DeskReply::Begun
}

// Has the host do what is asked about calls of an instance, or begin an epoch.
fn change<D: SwapDev, T: Ledger, C: Ledger, O: Ledger, E: Ledger, B: CellAgreements>(
    locked: &mut Locked<D, T, C, O, E, B>,
    owner: &mut Owner<D, B>,
    alloc: Global,
    request: DeskRequest<'_>,
) -> DeskReply
    requires known { owner.old ≡ now_of locked.old }
    requires changes { ChangesCalls (question_of request) }
    ensures replies { HostReplies owner.old.host (question_of request.entry) result owner.new.host }
    ensures device { owner.new.device ≡ owner.old.device }
{
    match request {
        DeskRequest::Invoke {
            id,
            name,
            given,
            fuel,
        } => {
            let request = Invoke {
                alloc,
                id,
                name,
                given,
                fuel,
            };
            DeskReply::Invoked(ask(locked, owner, request))
        }
        DeskRequest::InvokeAt {
            id,
            at,
            given,
            fuel,
        } => {
            let request = InvokeAt {
                alloc,
                id,
                at,
                given,
                fuel,
            };
            DeskReply::Invoked(ask(locked, owner, request))
        }
        DeskRequest::Refuel { id, fuel } => {
            DeskReply::Done(ask(locked, owner, Refuel { id, fuel }))
        }
        DeskRequest::Cancel { id } => DeskReply::Done(ask(locked, owner, Cancel { id })),
        DeskRequest::Retry { id } => DeskReply::Done(ask(locked, owner, Retry { id })),
        DeskRequest::BeginEpoch => begin_epoch(locked, owner),
        _ => unreachable!(),
    }
}

// Tells what is asked of the host, which is only looked at.
fn look(host: &Host, alloc: Global, request: DeskRequest<'_>) -> DeskReply
    requires looks { OnlyLooks (question_of request) }
    ensures { HostReplies host.now (question_of request.entry) result host.now }
{
    match request {
        DeskRequest::Status { id, at } => DeskReply::Status(host.call_status(id, at)),
        DeskRequest::Report => DeskReply::Report(host.report(alloc)),
        DeskRequest::Usage => DeskReply::Usage(host.usage(), host.counts()),
        DeskRequest::UsageOf { id } => DeskReply::UsageOf(host.usage_of(id)),
        DeskRequest::Transcript { id } => DeskReply::Transcript(host.transcript(alloc, id)),
        DeskRequest::Output { id, from, most } => {
            DeskReply::Output(output_from(alloc, host, id, from, most))
        }
        DeskRequest::Ends { id, from, most } => DeskReply::Ends(ends(alloc, host, id, from, most)),
        DeskRequest::Exports { of } => DeskReply::Exports(exports(alloc, host, of)),
        _ => unreachable!(),
    }
}

/// Replies to a request, and keeps whose is what then. A read has the lock of the device too.
pub fn respond<D: SwapDev, T: Ledger, C: Ledger, O: Ledger, E: Ledger, B: CellAgreements>(
    locked: &mut Locked<D, T, C, O, E, B>,
    device: Option<MutexGuard<'_, Backing<D, B>>>,
    owner: &mut Owner<D, B>,
    ownership: &mut Ownership,
    who: Principal,
    alloc: Global,
    request: DeskRequest<'_>,
) -> DeskReply
    requires known { owner.old ≡ now_of locked.old }
    requires device { Permits (ownership_of ownership.old) who (question_of request)
        → AsksForBytes (question_of request) → IsSome device }
    requires owns { OwnsAll (ownership_of ownership.old) owner.old.host }
    requires room { HasRoomToOwn ownership.old }
    ensures right { IsRight D.keeps D.honest D.faults (ownership_of ownership.old)
        (entry who (question_of request.entry) result owner.old owner.new) }
    ensures owned { ownership_of ownership.new ≡ owned_after who (question_of request.entry) result
        (ownership_of ownership.old) }
    ensures room { HasRoomToOwn ownership.new }
{
    if !ownership.permits(who, &request) {
        return refuse(&request);
    }
    match request {
        DeskRequest::Load { bytes } => {
            let request = Load { alloc, bytes };
            DeskReply::Loaded(load(locked, owner, ownership, who, request))
        }
        DeskRequest::Unload { of } => {
            let request = Unload { id: of };
            DeskReply::Unloaded(unload(locked, owner, ownership, who, request))
        }
        DeskRequest::Admit { of, params } => {
            let request = Admit { alloc, of, params };
            DeskReply::Admitted(admit(locked, owner, ownership, who, request))
        }
        DeskRequest::Fork { id, quota } => {
            let request = Fork { alloc, id, quota };
            DeskReply::Forked(fork(locked, owner, ownership, who, request))
        }
        DeskRequest::Release { id } => {
            DeskReply::Released(release(locked, owner, ownership, who, Release { alloc, id }))
        }
        DeskRequest::Invoke { .. }
        | DeskRequest::InvokeAt { .. }
        | DeskRequest::Refuel { .. }
        | DeskRequest::Cancel { .. }
        | DeskRequest::Retry { .. }
        | DeskRequest::BeginEpoch => change(locked, owner, alloc, request),
        DeskRequest::Status { .. }
        | DeskRequest::Report
        | DeskRequest::Usage
        | DeskRequest::UsageOf { .. }
        | DeskRequest::Transcript { .. }
        | DeskRequest::Output { .. }
        | DeskRequest::Ends { .. }
        | DeskRequest::Exports { .. } => look(locked.host(), alloc, request),
        DeskRequest::Read { id, at, length } => {
            DeskReply::Read(read(locked, device, owner, alloc, id, at, length))
        }
    }
}
