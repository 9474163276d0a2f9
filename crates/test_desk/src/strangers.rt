//! What a tenant gets of its own, and a stranger of that.

ghost use Rattle.std.specs.Prelude.{◌≡◌, ◌<◌, [], length, replicate};
ghost use Rattle.wh_swap.specs.MemorySwaps.{memory_held};
ghost use Rattle.wh_cell.specs.Ledgers.{HasLedgers};

use crate::begun::{BYTES, Begun, admission, ask, begin};
use std::alloc::Global;
use std::marker::Brand;
use std::sync::Wait;
use std::sync::ledger::{Blank, Ledger, Share};
use std::test::Fail;
use wh_cell::{CellAgreements, CellParts};
use wh_desk::{DeskReply, DeskRequest, HostDesk, Principal, Trace};
use wh_host::{AdmitError, CallStatus, HostError, ModuleId};
use wh_space_model::InstId;
use wh_swap::MemSwap;
use wh_threads::{AgreementId, BlankAgreement};

const ONE: Principal = Principal::Tenant(1);

const TWO: Principal = Principal::Tenant(2);

// The module that the first tenant loads, the instance that it is admitted, and whether its call is taken.
fn take<
    T: Ledger,
    C: Ledger,
    O: Ledger,
    E: Ledger,
    B: CellAgreements,
    N: Ledger + AgreementId,
    R: Wait,
>(rt: &R, alloc: Global, begun: &mut Begun<T, C, O, E, B, N>) -> Option<(ModuleId, InstId)>
    requires { 0 < begun.old.share.parts }
    ensures { begun.new.share.parts ≡ begun.old.share.parts }
{
    let DeskReply::Loaded(Ok(of)) = ask(rt, begun, ONE, DeskRequest::Load { bytes: &BYTES }) else {
        return None;
    };
    let DeskReply::Admitted(Ok(id)) = ask(rt, begun, ONE, admission(alloc, of)) else {
        return None;
    };
    let request = DeskRequest::Invoke {
        id,
        name: "s",
        given: &[0, 7],
        fuel: 100,
    };
    match ask(rt, begun, ONE, request) {
        DeskReply::Invoked(Ok(1)) => Some((of, id)),
        _ => None,
    }
}

// Whether a stranger is told of none.
fn are_none<
    T: Ledger,
    C: Ledger,
    O: Ledger,
    E: Ledger,
    B: CellAgreements,
    N: Ledger + AgreementId,
    R: Wait,
>(rt: &R, alloc: Global, begun: &mut Begun<T, C, O, E, B, N>, of: ModuleId, id: InstId) -> bool
    requires { 0 < begun.old.share.parts }
    ensures { begun.new.share.parts ≡ begun.old.share.parts }
{
    let admitted = ask(rt, begun, TWO, admission(alloc, of));
    let cancelled = ask(rt, begun, TWO, DeskRequest::Cancel { id });
    let released = ask(rt, begun, TWO, DeskRequest::Release { id });
    let status = ask(rt, begun, TWO, DeskRequest::Status { id, at: 1 });
    matches!(admitted, DeskReply::Admitted(Err(AdmitError::NoModule)))
        && matches!(cancelled, DeskReply::Done(Err(HostError::NoInstance)))
        && matches!(released, DeskReply::Released(Err(HostError::NoInstance)))
        && matches!(status, DeskReply::Status(None))
}

// Whether what is the operator's is its own alone.
fn are_the_operators<
    T: Ledger,
    C: Ledger,
    O: Ledger,
    E: Ledger,
    B: CellAgreements,
    N: Ledger + AgreementId,
    R: Wait,
>(rt: &R, begun: &mut Begun<T, C, O, E, B, N>, id: InstId) -> bool
    requires { 0 < begun.old.share.parts }
    ensures { begun.new.share.parts ≡ begun.old.share.parts }
{
    let epoch = ask(rt, begun, ONE, DeskRequest::BeginEpoch);
    let report = ask(rt, begun, ONE, DeskRequest::Report);
    let begins = ask(rt, begun, Principal::Operator, DeskRequest::BeginEpoch);
    let told = ask(rt, begun, Principal::Operator, DeskRequest::Report);
    let status = ask(
        rt,
        begun,
        Principal::Operator,
        DeskRequest::Status { id, at: 1 },
    );
    let DeskReply::Report(Ok(report_of_all)) = told else {
        return false;
    };
    matches!(epoch, DeskReply::NotAllowed)
        && matches!(report, DeskReply::NotAllowed)
        && matches!(begins, DeskReply::Begun)
        && report_of_all.instances.len() == 1
        && matches!(status, DeskReply::Status(Some(CallStatus::Present { .. })))
}

// Whether the first tenant's call is cancelled, and its instance goes.
fn are_done<
    T: Ledger,
    C: Ledger,
    O: Ledger,
    E: Ledger,
    B: CellAgreements,
    N: Ledger + AgreementId,
    R: Wait,
>(rt: &R, begun: &mut Begun<T, C, O, E, B, N>, id: InstId) -> bool
    requires { 0 < begun.old.share.parts }
    ensures { begun.new.share.parts ≡ begun.old.share.parts }
{
    let cancelled = ask(rt, begun, ONE, DeskRequest::Cancel { id });
    let status = ask(rt, begun, ONE, DeskRequest::Status { id, at: 1 });
    let shown = ask(rt, begun, ONE, DeskRequest::Transcript { id });
    let released = ask(rt, begun, ONE, DeskRequest::Release { id });
    let again = ask(rt, begun, ONE, DeskRequest::Release { id });
    matches!(cancelled, DeskReply::Done(Ok(())))
        && matches!(
            status,
            DeskReply::Status(Some(CallStatus::Cancelled { .. }))
        )
        && matches!(shown, DeskReply::Transcript(Ok(_)))
        && matches!(released, DeskReply::Released(Ok(_)))
        && matches!(again, DeskReply::Released(Err(HostError::NoInstance)))
}

// Whoever has the whole share learns how long the trace is.
fn agree<T: Ledger, C: Ledger, O: Ledger, E: Ledger, B: CellAgreements, N: Ledger + AgreementId>(
    desk: &mut HostDesk<MemSwap, T, C, O, E, B, N>,
    all: &mut Share<N>,
)
    requires { all.old.parts ≡ N.Ledger.parts }
    ensures { length desk.new.entries ≡ all.new.amount }
{
    desk.agree(all);
}

// Which of these is so.
fn told<
    T: Ledger,
    C: Ledger,
    O: Ledger,
    E: Ledger,
    B: CellAgreements,
    N: Ledger + AgreementId,
    R: Wait,
>(
    rt: &R,
    alloc: Global,
    cell_parts: CellParts<MemSwap>,
    trace: BlankAgreement<Trace<MemSwap>>,
    replies: Blank,
) -> Result<[bool; 4], Fail>
    requires empty { memory_held cell_parts.device ≡ replicate 64 [] }
    requires owned { cell_parts.to_owner ≡ B.to_owner }
    requires backed { cell_parts.to_device ≡ B.to_device }
    requires ledgers { HasLedgers T.Ledger C.Ledger O.Ledger E.Ledger cell_parts }
    requires trace { trace ≡ N.AgreementId.table }
    requires replies { (replies.name ≡ N.Ledger.name) × (replies.parts ≡ N.Ledger.parts) }
    requires part { 0 < replies.parts }
{
    let mut begun = begin::<T, C, O, E, B, N>(alloc, cell_parts, trace, replies)?;
    let Some((of, id)) = take(rt, alloc, &mut begun) else {
        return Ok([false; 4]);
    };
    let none = are_none(rt, alloc, &mut begun, of, id);
    let own = are_the_operators(rt, &mut begun, id);
    let done = are_done(rt, &mut begun, id);
    agree(&mut begun.desk, &mut begun.share);
    Ok([true, none, own, done])
}

#[test]
fn a_stranger_is_told_of_none(rt: HostRuntime) -> Result<(), Fail> {
    let alloc = rt.alloc();
    let device = MemSwap::new(alloc, 64)?;
    let cell_parts = CellParts::new(alloc, device)?;
    let trace = BlankAgreement::new(alloc)?;
    let told = told::<Brand, Brand, Brand, Brand, Brand, Brand, HostRuntime>(
        &rt,
        alloc,
        cell_parts,
        trace,
        Blank::new(1),
    )?;
    assert_eq!(rt; told, [true; 4]);
    Ok(())
}
