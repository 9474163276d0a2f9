//! A desk for a new host, and what tests ask of it.

ghost use Rattle.std.specs.Prelude.{◌≡◌, ◌+◌, ◌<◌, [], IfOk, replicate};
ghost use Rattle.wh_swap.specs.MemorySwaps.{memory_held};
ghost use Rattle.wh_cell.specs.Ledgers.{HasLedgers};

use std::alloc::Global;
use std::sync::Wait;
use std::sync::ledger::{Blank, Ledger, Share};
use std::test::Fail;
use wh_cell::{CellAgreements, CellParts, HostCell};
use wh_desk::{DeskReply, DeskRequest, HostDesk, Principal, Trace};
use wh_host::{Host, ModuleId, Params, Quota};
use wh_space_model::Tax;
use wh_swap::MemSwap;
use wh_threads::{AgreementId, BlankAgreement, Shares};

/// `s` stores a byte, and `l` loads one.
pub const BYTES: [u8; 63] = [
    0x00, 0x61, 0x73, 0x6d, 0x01, 0x00, 0x00, 0x00, 0x01, 0x0b, 0x02, 0x60, 0x02, 0x7f, 0x7f, 0x00,
    0x60, 0x01, 0x7f, 0x01, 0x7f, 0x03, 0x03, 0x02, 0x00, 0x01, 0x05, 0x03, 0x01, 0x00, 0x01, 0x07,
    0x09, 0x02, 0x01, 0x73, 0x00, 0x00, 0x01, 0x6c, 0x00, 0x01, 0x0a, 0x13, 0x02, 0x09, 0x00, 0x20,
    0x00, 0x20, 0x01, 0x3a, 0x00, 0x00, 0x0b, 0x07, 0x00, 0x20, 0x00, 0x2d, 0x00, 0x00, 0x0b,
];

/// What a test asks of: a desk, a handle of its cell, the share of its ledger, and those of the threads that run calls.
#[derive(Drop)]
pub struct Begun<
    T: Ledger,
    C: Ledger,
    O: Ledger,
    E: Ledger,
    B: CellAgreements,
    N: Ledger + AgreementId,
> {
    pub desk: HostDesk<MemSwap, T, C, O, E, B, N>,
    pub share: Share<N>,
    pub cell: HostCell<MemSwap, T, C, O, E, B>,
    pub shares: Shares<T, C, O, E>,
}

/// Opens a desk for a new host with eight frames and 64 slots.
pub fn begin<
    T: Ledger,
    C: Ledger,
    O: Ledger,
    E: Ledger,
    B: CellAgreements,
    N: Ledger + AgreementId,
>(
    alloc: Global,
    cell_parts: CellParts<MemSwap>,
    trace: BlankAgreement<Trace<MemSwap>>,
    replies: Blank,
) -> Result<Begun<T, C, O, E, B, N>, Fail>
    requires empty { memory_held cell_parts.device ≡ replicate 64 [] }
    requires owned { cell_parts.to_owner ≡ B.to_owner }
    requires backed { cell_parts.to_device ≡ B.to_device }
    requires ledgers { HasLedgers T.Ledger C.Ledger O.Ledger E.Ledger cell_parts }
    requires trace { trace ≡ N.AgreementId.table }
    requires replies { (replies.name ≡ N.Ledger.name) × (replies.parts ≡ N.Ledger.parts) }
    ensures parts { IfOk result (λ begun. begun.share.parts ≡ N.Ledger.parts) }
{
    let host = Host::new(alloc, 8, 64, Tax { num: 0, den: 1 })?;
    let (cell, owner, shares) = HostCell::new(alloc, host, cell_parts)?;
    let handle = cell.share()?;
    let (desk, share) = HostDesk::new(alloc, handle, owner, trace, replies)?;
    Ok(Begun {
        desk,
        share,
        cell,
        shares,
    })
}

/// Returns what is given to an instance: two frames at least, and 16 at most.
pub fn given(alloc: Global) -> Params {
    Params {
        quota: Quota {
            shares: 100,
            min_frames: 2,
            max_frames: 16,
        },
        fuel: 0,
        base: 0,
        salt: 0,
        inputs: Vec::new(alloc),
    }
}

/// Asks for an instance of a module.
pub fn admission(alloc: Global, of: ModuleId) -> DeskRequest<'static> {
    let params = given(alloc);
    DeskRequest::Admit { of, params }
}

/// Asks the desk something, and counts it in the share that the test has.
pub fn ask<
    T: Ledger,
    C: Ledger,
    O: Ledger,
    E: Ledger,
    B: CellAgreements,
    N: Ledger + AgreementId,
    R: Wait,
>(
    rt: &R,
    begun: &mut Begun<T, C, O, E, B, N>,
    who: Principal,
    request: DeskRequest<'_>,
) -> DeskReply
    requires { 0 < begun.old.share.parts }
    ensures { begun.new.share.parts ≡ begun.old.share.parts }
{
    begun.desk.answer(rt, who, request, &mut begun.share)
}
