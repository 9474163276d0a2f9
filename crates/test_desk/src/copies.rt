//! Copies of instances and modules that go: whose a copy is, and what a stranger is told of either.

ghost use Rattle.std.specs.Prelude.{◌≡◌, ◌<◌, [], replicate};
ghost use Rattle.wh_swap.specs.MemorySwaps.{memory_held};
ghost use Rattle.wh_cell.specs.Ledgers.{HasLedgers};

use crate::begun::{BYTES, Begun, admission, ask, begin};
use Answer::{
    AnOpenCall, Called, Copy, Done, InUse, Instance, Module, NoInstance, NoModule, Refused,
};
use Asked::{Admit, Cancel, Fork, Invoke, Load, Release, Unload};
use Principal::Operator;
use std::alloc::Global;
use std::marker::Brand;
use std::sync::Wait;
use std::sync::ledger::{Blank, Ledger};
use std::test::Fail;
use wh_cell::{CellAgreements, CellParts};
use wh_desk::{DeskReply, DeskRequest, Principal, Trace};
use wh_host::{AdmitError, ForkError, HostError, ModuleId, Quota, UnloadError};
use wh_space_model::InstId;
use wh_swap::MemSwap;
use wh_threads::{AgreementId, BlankAgreement};

const ONE: Principal = Principal::Tenant(1);

const TWO: Principal = Principal::Tenant(2);

// What is asked: of a module, by its number; of an instance, by place and number; of a copy, also how many frames it may have.
#[derive(Clone, Copy)]
enum Asked {
    Load,
    Unload(usize),
    Admit(usize),
    Fork(InstId, u64),
    Invoke(InstId),
    Cancel(InstId),
    Release(InstId),
}

// What is replied.
#[derive(Clone, Copy, Debug, PartialEq, Eq)]
enum Answer {
    Module(usize),
    NoModule,
    InUse,
    Instance(InstId),
    Copy(InstId),
    AnOpenCall,
    Refused,
    NoInstance,
    Called(u32),
    Done,
    Other,
}

const A: InstId = InstId {
    place: 0,
    number: 0,
};

const B: InstId = InstId {
    place: 1,
    number: 1,
};

const C: InstId = InstId {
    place: 2,
    number: 2,
};

const D: InstId = InstId {
    place: 2,
    number: 3,
};

/// Who asks for what, and what is replied, in this order.
const LIFE: &[(Principal, Asked, Answer)] = &[
    (ONE, Load, Module(0)),
    (ONE, Admit(0), Instance(A)),
    // Who may not copy an instance learns nothing of it, not even by a quota that is refused to who may.
    (TWO, Fork(A, 16), NoInstance),
    (TWO, Fork(A, 1), NoInstance),
    (ONE, Fork(A, 1), Refused),
    // A copy is the tenant's also where the operator asked for it.
    (Operator, Fork(A, 16), Copy(B)),
    (TWO, Fork(B, 16), NoInstance),
    (TWO, Cancel(B), NoInstance),
    (ONE, Invoke(B), Called(1)),
    (ONE, Fork(B, 16), AnOpenCall),
    (ONE, Cancel(B), Done),
    (ONE, Fork(B, 16), Copy(C)),
    (Operator, Release(B), Done),
    (ONE, Fork(B, 16), NoInstance),
    // A module goes where its own tenant asks, once neither instance nor copy is of it.
    (TWO, Unload(0), NoModule),
    (ONE, Unload(0), InUse),
    (ONE, Release(A), Done),
    (ONE, Unload(0), InUse),
    (ONE, Release(C), Done),
    (TWO, Unload(0), NoModule),
    (ONE, Unload(0), Done),
    (ONE, Unload(0), NoModule),
    (ONE, Admit(0), NoModule),
    // The operator's module is everybody's to use, and nobody else's to let go.
    (Operator, Load, Module(1)),
    (TWO, Unload(1), NoModule),
    (TWO, Admit(1), Instance(D)),
    (Operator, Unload(1), InUse),
    (TWO, Release(D), Done),
    (TWO, Load, Module(2)),
    (Operator, Unload(2), Done),
    (Operator, Unload(1), Done),
];

// The request of a desk.
fn request(alloc: Global, asked: Asked) -> DeskRequest<'static> {
    match asked {
        Load => DeskRequest::Load { bytes: &BYTES },
        Unload(number) => DeskRequest::Unload {
            of: ModuleId { number },
        },
        Admit(number) => admission(alloc, ModuleId { number }),
        Fork(id, max_frames) => DeskRequest::Fork {
            id,
            quota: Quota {
                shares: 100,
                min_frames: 2,
                max_frames,
            },
        },
        Invoke(id) => DeskRequest::Invoke {
            id,
            name: "s",
            given: &[0, 7],
            fuel: 100,
        },
        Cancel(id) => DeskRequest::Cancel { id },
        Release(id) => DeskRequest::Release { id },
    }
}

// What a reply is.
fn answer_of(reply: &DeskReply) -> Answer {
    match reply {
        DeskReply::Loaded(Ok(id)) => Module(id.number),
        DeskReply::Unloaded(Ok(())) | DeskReply::Done(Ok(())) | DeskReply::Released(Ok(_)) => Done,
        DeskReply::Unloaded(Err(UnloadError::NoModule)) => NoModule,
        DeskReply::Unloaded(Err(UnloadError::InUse)) => InUse,
        DeskReply::Admitted(Ok(id)) => Instance(*id),
        DeskReply::Admitted(Err(AdmitError::NoModule)) => NoModule,
        DeskReply::Forked(Ok(id)) => Copy(*id),
        DeskReply::Forked(Err(ForkError::NoInstance)) => NoInstance,
        DeskReply::Forked(Err(ForkError::CallOpen)) => AnOpenCall,
        DeskReply::Forked(Err(ForkError::NotAdmitted(AdmitError::MinMax))) => Refused,
        DeskReply::Invoked(Ok(at)) => Called(*at),
        DeskReply::Done(Err(HostError::NoInstance)) => NoInstance,
        DeskReply::Released(Err(HostError::NoInstance)) => NoInstance,
        _ => Answer::Other,
    }
}

// How many rows are replied as the table says, up to the first that isn't.
fn lived<
    T: Ledger,
    C: Ledger,
    O: Ledger,
    E: Ledger,
    B: CellAgreements,
    N: Ledger + AgreementId,
    R: Wait,
>(rt: &R, alloc: Global, begun: &mut Begun<T, C, O, E, B, N>) -> usize
    requires { 0 < begun.old.share.parts }
{
    for (at, (who, asked, wanted)) in LIFE.iter().enumerate() {
        let reply = ask(rt, begun, *who, request(alloc, *asked));
        if answer_of(&reply) != *wanted {
            return at;
        }
    }
    LIFE.len()
}

// The same of a new host.
fn of_new<
    T: Ledger,
    C: Ledger,
    O: Ledger,
    E: Ledger,
    B: CellAgreements,
    N: Ledger + AgreementId,
    R: Wait,
>(
    rt: &R,
    alloc: Global,
    cell_parts: CellParts<MemSwap>,
    trace: BlankAgreement<Trace<MemSwap>>,
    replies: Blank,
) -> Result<usize, Fail>
    requires empty { memory_held cell_parts.device ≡ replicate 64 [] }
    requires owned { cell_parts.to_owner ≡ B.to_owner }
    requires backed { cell_parts.to_device ≡ B.to_device }
    requires ledgers { HasLedgers T.Ledger C.Ledger O.Ledger E.Ledger cell_parts }
    requires trace { trace ≡ N.AgreementId.table }
    requires replies { (replies.name ≡ N.Ledger.name) × (replies.parts ≡ N.Ledger.parts) }
    requires part { 0 < replies.parts }
{
    let mut begun = begin::<T, C, O, E, B, N>(alloc, cell_parts, trace, replies)?;
    Ok(lived(rt, alloc, &mut begun))
}

#[test]
fn copies_are_their_tenants(rt: HostRuntime) -> Result<(), Fail> {
    let alloc = rt.alloc();
    let device = MemSwap::new(alloc, 64)?;
    let cell_parts = CellParts::new(alloc, device)?;
    let trace = BlankAgreement::new(alloc)?;
    let rows = of_new::<Brand, Brand, Brand, Brand, Brand, Brand, HostRuntime>(
        &rt,
        alloc,
        cell_parts,
        trace,
        Blank::new(1),
    )?;
    assert_eq!(rt; rows, LIFE.len());
    Ok(())
}
