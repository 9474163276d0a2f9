//! What an owner sees of its instances while they live, and a stranger of none: row by row.

ghost use Rattle.std.specs.Prelude.{◌≡◌, ◌<◌, [], replicate};
ghost use Rattle.wh_swap.specs.MemorySwaps.{memory_held};
ghost use Rattle.wh_cell.specs.Ledgers.{HasLedgers};

use crate::begun::{Begun, admission, ask, begin};
use crate::threads::run;
use Answer::{
    Bytes, Called, Ended, Exported, Has, Instance, Module, NoInstance, NoModule, NoSuchExport,
    NotAllowed, Outside, Ran, TooMany, Used,
};
use Asked::{Admit, Call, Ends, Exports, Load, Output, Read, Run, Usage, UsageOf};
use Principal::Operator;
use std::alloc::Global;
use std::marker::Brand;
use std::sync::Wait;
use std::sync::ledger::{Blank, Ledger};
use std::test::Fail;
use std::thread::Threads;
use wh_cell::{CellAgreements, CellParts};
use wh_desk::{DeskExport, DeskReadError, DeskReply, DeskRequest, ExportsError, Principal, Trace};
use wh_host::{CallStatus, HostError, ModuleId, ReadError};
use wh_model::ValType;
use wh_space_model::InstId;
use wh_swap::MemSwap;
use wh_threads::{AgreementId, BlankAgreement};

const ONE: Principal = Principal::Tenant(1);

const TWO: Principal = Principal::Tenant(2);

/// `s` stores a byte, and `p` puts out a number in 8 bytes. The memory is exported between them.
const MODULE: [u8; 79] = [
    0x00, 0x61, 0x73, 0x6d, 0x01, 0x00, 0x00, 0x00, 0x01, 0x0a, 0x02, 0x60, 0x02, 0x7f, 0x7f, 0x00,
    0x60, 0x01, 0x7e, 0x00, 0x02, 0x0c, 0x01, 0x04, 0x68, 0x6f, 0x73, 0x74, 0x03, 0x70, 0x75, 0x74,
    0x00, 0x01, 0x03, 0x03, 0x02, 0x00, 0x01, 0x05, 0x03, 0x01, 0x00, 0x01, 0x07, 0x0d, 0x03, 0x01,
    0x73, 0x00, 0x01, 0x01, 0x6d, 0x02, 0x00, 0x01, 0x70, 0x00, 0x02, 0x0a, 0x12, 0x02, 0x09, 0x00,
    0x20, 0x00, 0x20, 0x01, 0x3a, 0x00, 0x00, 0x0b, 0x06, 0x00, 0x20, 0x00, 0x10, 0x00, 0x0b,
];

// What is asked, or that all calls of these instances are run.
#[derive(Clone, Copy)]
enum Asked {
    Load,
    Admit(usize),
    Call(InstId, usize, &'static [i128]),
    Run(&'static [InstId]),
    Output(InstId, usize, usize),
    Ends(InstId, usize, usize),
    Exports(usize),
    Read(InstId, u64, usize),
    Usage,
    UsageOf(InstId),
}

// What is replied.
#[derive(Clone, Copy)]
enum Answer {
    Module(usize),
    NoModule,
    Instance(InstId),
    NoInstance,
    Called(u32),
    NoSuchExport,
    Ran,
    Bytes(&'static [u8]),
    Ended(&'static [CallStatus]),
    Exported,
    Outside,
    TooMany,
    // How many charges and returned calls are counted, and how many frames are used.
    Used(u64, u64, u32),
    // How many frames are charged to the instance, and how many of its pages are swapped.
    Has(u32, u32),
    NotAllowed,
}

const A: InstId = InstId {
    place: 0,
    number: 0,
};

const B: InstId = InstId {
    place: 1,
    number: 1,
};

// Calls that have ended: a start, one that stored a byte, and one that put out a number.
const STARTED: CallStatus = CallStatus::Returned {
    value: None,
    charges: 0,
};

const STORED: CallStatus = CallStatus::Returned {
    value: None,
    charges: 3,
};

const PUT_OUT: CallStatus = CallStatus::Returned {
    value: None,
    charges: 2,
};

/// Who asks for what, and what is replied, in this order.
const LIFE: &[(Principal, Asked, Answer)] = &[
    (ONE, Load, Module(0)),
    (ONE, Admit(0), Instance(A)),
    (TWO, Load, Module(1)),
    (TWO, Admit(1), Instance(B)),
    // A call by its function's place, the memory's export being none.
    (ONE, Call(A, 0, &[5, 7]), Called(1)),
    (TWO, Call(A, 0, &[5, 8]), NoInstance),
    (ONE, Call(A, 2, &[5]), NoSuchExport),
    (ONE, Call(A, 1, &[258]), Called(2)),
    (Operator, Call(A, 1, &[3]), Called(3)),
    (TWO, Call(B, 1, &[9]), Called(1)),
    // Nothing yet.
    (ONE, Output(A, 0, 100), Bytes(&[])),
    (ONE, Ends(A, 0, 100), Ended(&[STARTED])),
    (ONE, Read(A, 5, 1), Bytes(&[0])),
    (Operator, Run(&[A, B]), Ran),
    // What was put out: from a place on, and so much at most.
    (
        ONE,
        Output(A, 0, 100),
        Bytes(&[2, 1, 0, 0, 0, 0, 0, 0, 3, 0, 0, 0, 0, 0, 0, 0]),
    ),
    (ONE, Output(A, 1, 8), Bytes(&[1, 0, 0, 0, 0, 0, 0, 3])),
    (ONE, Output(A, 16, 8), Bytes(&[])),
    (ONE, Output(A, 17, 8), Bytes(&[])),
    (ONE, Output(A, 0, 0), Bytes(&[])),
    (TWO, Output(A, 0, 100), NoInstance),
    (Operator, Output(B, 0, 1), Bytes(&[9])),
    // How calls have ended.
    (
        ONE,
        Ends(A, 0, 100),
        Ended(&[STARTED, STORED, PUT_OUT, PUT_OUT]),
    ),
    (ONE, Ends(A, 1, 2), Ended(&[STORED, PUT_OUT])),
    (ONE, Ends(A, 4, 1), Ended(&[])),
    (ONE, Ends(A, 5, 1), Ended(&[])),
    (TWO, Ends(A, 0, 100), NoInstance),
    (Operator, Ends(B, 1, 1), Ended(&[PUT_OUT])),
    // Which functions a module exports.
    (ONE, Exports(0), Exported),
    (TWO, Exports(0), NoModule),
    (Operator, Exports(0), Exported),
    (ONE, Exports(2), NoModule),
    (Operator, Load, Module(2)),
    (TWO, Exports(2), Exported),
    // Bytes of the memory, which has 65536.
    (ONE, Read(A, 0, 10), Bytes(&[0, 0, 0, 0, 0, 7, 0, 0, 0, 0])),
    (ONE, Read(A, 65535, 1), Bytes(&[0])),
    (ONE, Read(A, 65536, 0), Bytes(&[])),
    (ONE, Read(A, 65536, 1), Outside),
    (ONE, Read(A, 18446744073709551615, 2), Outside),
    (ONE, Read(A, 0, 65537), TooMany),
    (TWO, Read(A, 5, 1), NoInstance),
    (TWO, Read(A, 0, 65537), NoInstance),
    (TWO, Read(B, 5, 1), Bytes(&[0])),
    (Operator, Read(A, 5, 1), Bytes(&[7])),
    // How the host is used, and what it has counted, a start that has nothing to do not among it.
    (ONE, Usage, NotAllowed),
    (Operator, Usage, Used(9, 4, 1)),
    (ONE, UsageOf(A), Has(1, 0)),
    (TWO, UsageOf(A), NoInstance),
    (Operator, UsageOf(B), Has(0, 0)),
];

// The request of a desk; none, where calls are to be run.
fn request(alloc: Global, asked: Asked) -> Option<DeskRequest<'static>> {
    match asked {
        Load => Some(DeskRequest::Load { bytes: &MODULE }),
        Admit(number) => Some(admission(alloc, ModuleId { number })),
        Call(id, at, given) => Some(DeskRequest::InvokeAt {
            id,
            at,
            given,
            fuel: 100,
        }),
        Run(_) => None,
        Output(id, from, most) => Some(DeskRequest::Output { id, from, most }),
        Ends(id, from, most) => Some(DeskRequest::Ends { id, from, most }),
        Exports(number) => Some(DeskRequest::Exports {
            of: ModuleId { number },
        }),
        Read(id, at, length) => Some(DeskRequest::Read { id, at, length }),
        Usage => Some(DeskRequest::Usage),
        UsageOf(id) => Some(DeskRequest::UsageOf { id }),
    }
}

// Whether this is the function, with these types of its parameters, and no result.
fn is_export(export: &DeskExport, name: &str, params: &[ValType]) -> bool {
    export.name.as_str() == name && export.params.as_slice() == params && export.results.is_empty()
}

// Whether these are the functions that the module exports.
fn are_exports(exports: &[DeskExport]) -> bool {
    match exports {
        [first, second] => {
            is_export(first, "s", &[ValType::I32, ValType::I32])
                && is_export(second, "p", &[ValType::I64])
        }
        _ => false,
    }
}

// Whether this is what is wanted to be told of an instance.
fn shows(reply: &DeskReply, wanted: Answer) -> bool {
    match (reply, wanted) {
        (DeskReply::Output(Ok(bytes)), Bytes(others)) => bytes.as_slice() == others,
        (DeskReply::Output(Err(HostError::NoInstance)), NoInstance) => true,
        (DeskReply::Ends(Ok(statuses)), Ended(others)) => statuses.as_slice() == others,
        (DeskReply::Ends(Err(HostError::NoInstance)), NoInstance) => true,
        (DeskReply::Read(Ok(bytes)), Bytes(others)) => bytes.as_slice() == others,
        (DeskReply::Read(Err(DeskReadError::Host(ReadError::NoInstance))), NoInstance) => true,
        (DeskReply::Read(Err(DeskReadError::Host(ReadError::Outside))), Outside) => true,
        (DeskReply::Read(Err(DeskReadError::TooMany)), TooMany) => true,
        _ => false,
    }
}

// Whether this is what is wanted to be told of how the host is used.
fn tells(reply: &DeskReply, wanted: Answer) -> bool {
    match (reply, wanted) {
        (DeskReply::Usage(usage, counts), Used(charges, returned, used_frames)) => {
            counts.charges == charges
                && counts.returned == returned
                && usage.frames == 8
                && usage.used_frames == used_frames
                && usage.instances == 2
        }
        (DeskReply::UsageOf(Ok(row)), Has(charged, swapped)) => {
            row.charged == charged && row.swapped == swapped && row.max == 16
        }
        (DeskReply::UsageOf(Err(HostError::NoInstance)), NoInstance) => true,
        (DeskReply::NotAllowed, NotAllowed) => true,
        _ => false,
    }
}

// Whether a reply is the one that is wanted.
fn is_as(reply: &DeskReply, wanted: Answer) -> bool {
    match (reply, wanted) {
        (DeskReply::Loaded(Ok(id)), Module(number)) => id.number == number,
        (DeskReply::Admitted(Ok(id)), Instance(other)) => *id == other,
        (DeskReply::Invoked(Ok(at)), Called(place)) => *at == place,
        (DeskReply::Invoked(Err(HostError::NoInstance)), NoInstance) => true,
        (DeskReply::Invoked(Err(HostError::Invoke(_))), NoSuchExport) => true,
        (DeskReply::Exports(Ok(exports)), Exported) => are_exports(exports),
        (DeskReply::Exports(Err(ExportsError::NoModule)), NoModule) => true,
        _ => shows(reply, wanted) || tells(reply, wanted),
    }
}

// How many rows are replied as the table says, up to the first that isn't.
fn lived<
    T: Ledger + Send + 'static,
    C: Ledger + Send + 'static,
    O: Ledger + Send + 'static,
    E: Ledger + Send + 'static,
    B: CellAgreements + Send + 'static,
    N: Ledger + AgreementId,
    R: Threads + Wait + Copy + Send + Sync + 'static,
>(rt: R, alloc: Global, begun: &mut Begun<T, C, O, E, B, N>) -> usize
    requires { 0 < begun.old.share.parts }
    ensures { begun.new.share.parts ≡ begun.old.share.parts }
{
    for (at, (who, asked, wanted)) in LIFE.iter().enumerate() {
        let is_right = match request(alloc, *asked) {
            Some(request) => is_as(&ask(&rt, begun, *who, request), *wanted),
            None => run(rt, alloc, &begun.cell, &mut begun.shares, &[A, B]),
        };
        if !is_right {
            return at;
        }
    }
    LIFE.len()
}

// How many pages of the instance hold what was stored there, when it has stored to more pages than there are frames.
fn paged<
    T: Ledger + Send + 'static,
    C: Ledger + Send + 'static,
    O: Ledger + Send + 'static,
    E: Ledger + Send + 'static,
    B: CellAgreements + Send + 'static,
    N: Ledger + AgreementId,
    R: Threads + Wait + Copy + Send + Sync + 'static,
>(rt: R, alloc: Global, begun: &mut Begun<T, C, O, E, B, N>) -> usize
    requires { 0 < begun.old.share.parts }
{
    for page in 0..16u8 {
        let call = DeskRequest::InvokeAt {
            id: A,
            at: 0,
            given: &[4096 * i128::from(page) + 9, 100 + i128::from(page)],
            fuel: 100,
        };
        let _ = ask(&rt, begun, ONE, call);
    }
    if !run(rt, alloc, &begun.cell, &mut begun.shares, &[A]) {
        return 0;
    }
    let mut right: usize = 0;
    for page in 0..15u8 {
        let read = DeskRequest::Read {
            id: A,
            at: 4096 * u64::from(page) + 9,
            length: 4097,
        };
        let DeskReply::Read(Ok(bytes)) = ask(&rt, begun, ONE, read) else {
            return right;
        };
        let first = bytes.first().copied();
        let last = bytes.last().copied();
        if first == Some(100 + page) && last == Some(101 + page) {
            right = right.wrapping_add(1);
        }
    }
    right
}

// How many rows are so of a new host, and how many pages.
fn of_new<
    T: Ledger + Send + 'static,
    C: Ledger + Send + 'static,
    O: Ledger + Send + 'static,
    E: Ledger + Send + 'static,
    B: CellAgreements + Send + 'static,
    N: Ledger + AgreementId,
    R: Threads + Wait + Copy + Send + Sync + 'static,
>(
    rt: R,
    alloc: Global,
    cell_parts: CellParts<MemSwap>,
    trace: BlankAgreement<Trace<MemSwap>>,
    replies: Blank,
) -> Result<(usize, usize), Fail>
    requires empty { memory_held cell_parts.device ≡ replicate 64 [] }
    requires owned { cell_parts.to_owner ≡ B.to_owner }
    requires backed { cell_parts.to_device ≡ B.to_device }
    requires ledgers { HasLedgers T.Ledger C.Ledger O.Ledger E.Ledger cell_parts }
    requires trace { trace ≡ N.AgreementId.table }
    requires replies { (replies.name ≡ N.Ledger.name) × (replies.parts ≡ N.Ledger.parts) }
    requires part { 0 < replies.parts }
{
    let mut begun = begin::<T, C, O, E, B, N>(alloc, cell_parts, trace, replies)?;
    let rows = lived(rt, alloc, &mut begun);
    let pages = paged(rt, alloc, &mut begun);
    Ok((rows, pages))
}

#[test]
fn an_owner_sees_its_own(rt: HostRuntime) -> Result<(), Fail> {
    let alloc = rt.alloc();
    let device = MemSwap::new(alloc, 64)?;
    let cell_parts = CellParts::new(alloc, device)?;
    let trace = BlankAgreement::new(alloc)?;
    let (rows, pages) = of_new::<Brand, Brand, Brand, Brand, Brand, Brand, HostRuntime>(
        rt,
        alloc,
        cell_parts,
        trace,
        Blank::new(1),
    )?;
    assert_eq!(rt; rows, LIFE.len());
    assert_eq!(rt; pages, 15);
    Ok(())
}
