// Worked by hand: instances that are copied.

use crate::life::{Life, Step};
use crate::modules::{DYING, PUTTING};
use Step::{
    Admit, Done, Emit, Fork, Invoke, Load, Provide, Release, Report, Returned, Store, Trapped, Turn,
};
use wh_host::{AdmitError, ForkError};
use wh_host_model::TurnEnd;
use wh_model::Trap;
use wh_space_model::Tax;

const UNTAXED: Tax = Tax { num: 0, den: 1 };

/// The instance that is admitted first, and its copy.
const A: usize = 0;

const B: usize = 1;

/// What most copies are given: shares, and frames at least and at most.
const QUOTA: (u64, u64, u64) = (100, 2, 16);

/// A copy has the bytes and the calls, and takes no frame. Whoever writes first has a page of its own, which the other one
/// doesn't see. Behind the parent the copy shares its frames with nobody.
const WRITTEN: &[Step] = &[
    Admit(0, (2, 16), 0, Ok((0, 0))),
    Store(A, 0, 7, TurnEnd::Ended),
    Store(A, 4096, 8, TurnEnd::Ended),
    Fork(A, QUOTA, Ok((1, 1))),
    Report(
        "# frames 1024 used 2 free 1022\n# slots 4096 used 0 free 4096\n# shared frames 2 sharers 4\n",
        "#     1     100     2    16     0     0     0 -\n",
    ),
    Done(B, 2, 3),
    Store(B, 0, 9, TurnEnd::Ended),
    Done(B, 3, 3),
    Report(
        "# frames 1024 used 3 free 1021\n# slots 4096 used 0 free 4096\n# shared frames 2 sharers 3\n",
        "",
    ),
    Invoke(A, "get8", &[0], 2, Ok(3)),
    Turn(A, 2, TurnEnd::Ended),
    Returned(A, 3, 7),
    Invoke(B, "get8", &[0], 2, Ok(4)),
    Turn(B, 2, TurnEnd::Ended),
    Returned(B, 4, 9),
    Store(A, 4096, 6, TurnEnd::Ended),
    Release(A, Ok(&[])),
    Report(
        "# frames 1024 used 2 free 1022\n# slots 4096 used 0 free 4096\n# shared frames 1 sharers 1\n",
        "",
    ),
    Emit(B, &[(0, 9), (4096, 8)]),
];

/// A copy is copied, to the place of one that has gone; all three share a frame.
const COPIED_AGAIN: &[Step] = &[
    Admit(0, (2, 16), 0, Ok((0, 0))),
    Store(A, 0, 7, TurnEnd::Ended),
    Fork(A, QUOTA, Ok((1, 1))),
    Fork(B, QUOTA, Ok((2, 2))),
    Report(
        "# frames 1024 used 1 free 1023\n# slots 4096 used 0 free 4096\n# shared frames 1 sharers 3\n",
        "",
    ),
    Release(A, Ok(&[])),
    Fork(2, QUOTA, Ok((0, 3))),
    Fork(A, QUOTA, Err(ForkError::NoInstance)),
    Emit(3, &[(0, 7)]),
    Emit(2, &[(0, 7)]),
    Emit(B, &[(0, 7)]),
    Report("# frames 1024 used 0 free 1024\n", ""),
];

/// What the parent has put out is the copy's too.
const PUT_OUT: &[Step] = &[
    Load(&PUTTING, Some(1)),
    Admit(1, (2, 16), 0, Ok((0, 0))),
    Invoke(A, "f", &[], 1, Ok(1)),
    Turn(A, 1000, TurnEnd::Ended),
    Fork(A, QUOTA, Ok((1, 1))),
    Invoke(B, "f", &[], 1, Ok(2)),
    Turn(B, 1000, TurnEnd::Ended),
    Release(A, Ok(&[5, 0, 0, 0, 0, 0, 0, 0])),
    Release(B, Ok(&[5, 0, 0, 0, 0, 0, 0, 0, 5, 0, 0, 0, 0, 0, 0, 0])),
];

/// The first fault is named, and nothing has changed then.
const NOT_COPIED: &[Step] = &[
    Load(&DYING, Some(1)),
    Admit(0, (2, 16), 0, Ok((0, 0))),
    Fork(5, QUOTA, Err(ForkError::NoInstance)),
    Invoke(A, "get8", &[0], 2, Ok(1)),
    Fork(A, (0, 1, 0), Err(ForkError::CallOpen)),
    Turn(A, 2, TurnEnd::Ended),
    Fork(
        A,
        (0, 1, 0),
        Err(ForkError::NotAdmitted(AdmitError::Shares)),
    ),
    Fork(
        A,
        (100, 1, 16),
        Err(ForkError::NotAdmitted(AdmitError::MinMax)),
    ),
    Fork(
        A,
        (100, 1023, 1023),
        Err(ForkError::NotAdmitted(AdmitError::Frames)),
    ),
    Fork(
        A,
        (100, 2, 65536),
        Err(ForkError::NotAdmitted(AdmitError::Swap)),
    ),
    Fork(
        A,
        (100, 2, 15),
        Err(ForkError::NotAdmitted(AdmitError::MemoryMin)),
    ),
    Fork(A, (100, 2, 32), Err(ForkError::OtherLimit)),
    Fork(A, (1, 2, 31), Ok((1, 1))),
    Admit(1, (2, 16), 10, Ok((2, 2))),
    Turn(2, 1000, TurnEnd::Ended),
    Trapped(2, 0, Trap::Unreachable),
    Fork(2, QUOTA, Err(ForkError::StartFailed)),
];

/// A page is in swap.
const AWAY: &[Step] = &[
    Admit(0, (2, 16), 0, Ok((0, 0))),
    Store(A, 0, 7, TurnEnd::Ended),
    Store(A, 4096, 7, TurnEnd::Ended),
    Store(A, 8192, 7, TurnEnd::Ended),
    Store(A, 12288, 7, TurnEnd::Ended),
    Store(A, 16384, 9, TurnEnd::Frame),
    Provide(A, 0, Ok(1)),
    Turn(A, 3, TurnEnd::Ended),
    Fork(A, QUOTA, Err(ForkError::PageAway)),
];

/// All of them.
pub const FORKS: [Life; 5] = [
    Life("a copy is written", (1024, 4096, UNTAXED), &[], WRITTEN),
    Life("a copy is copied", (1024, 4096, UNTAXED), &[], COPIED_AGAIN),
    Life("output is copied", (1024, 4096, UNTAXED), &[], PUT_OUT),
    Life("what is not copied", (1024, 4096, UNTAXED), &[], NOT_COPIED),
    Life("a page is away", (4, 64, UNTAXED), &[], AWAY),
];
