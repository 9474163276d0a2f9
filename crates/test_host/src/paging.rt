// Worked by hand: what becomes of pages that leave and come while their instances write, wait and go, and of equal pages that
// come to one frame.

use crate::life::{Life, Step};
use Step::{
    Admit, Cancel, Counts, Done, Emit, Epoch, EvictBegin, EvictCommit, Failed, FetchBegin,
    FetchCommit, FetchFails, Invoke, Offer, OfferAlike, Provide, Reads, ReadsNot, Release, Report,
    ReportIs, Retry, Returned, RunOut, Scan, Store, Turn, Waits,
};
use wh_host::{HostCounts, ReadError};
use wh_host_model::TurnEnd;
use wh_space_model::{EvictEnd, FetchEnd, Offer as Offered, SwapError, Tax};

const UNTAXED: Tax = Tax { num: 0, den: 1 };

const TAXED: Tax = Tax { num: 3, den: 4 };

/// The instance that is admitted first, and the second one.
const A: usize = 0;

const B: usize = 1;

/// Two instances with two pages each on four frames.
const FOUR_FRAMES: &[Step] = &[
    Admit(0, (2, 16), 0, Ok((0, 0))),
    Admit(0, (2, 16), 0, Ok((1, 1))),
    Store(A, 0, 7, TurnEnd::Ended),
    Store(A, 4096, 7, TurnEnd::Ended),
    Store(B, 0, 7, TurnEnd::Ended),
    Store(B, 4096, 7, TurnEnd::Ended),
];

/// Nobody is above its minimum: who stores gives its first page, and then its second, since the first is wanted again.
const OWN_FRAME: &[Step] = &[
    Store(A, 8192, 9, TurnEnd::Frame),
    Waits(A, true, true),
    Waits(B, false, false),
    Provide(B, 0, Ok(0)),
    Provide(A, 0, Ok(1)),
    Turn(A, 3, TurnEnd::Ended),
    Waits(A, false, false),
    Invoke(A, "get8", &[0], 2, Ok(4)),
    Turn(A, 2, TurnEnd::Frame),
    Provide(A, 0, Ok(1)),
    Turn(A, 2, TurnEnd::Ended),
];

/// The second page leaves for the first one, and the read fails. The next try wants no other to leave.
const ANOTHER_TRY: &[Step] = &[
    Store(A, 8192, 9, TurnEnd::Frame),
    Provide(A, 0, Ok(1)),
    Turn(A, 3, TurnEnd::Ended),
    Invoke(A, "get8", &[0], 2, Ok(4)),
    Turn(A, 2, TurnEnd::Frame),
    Provide(A, 2, Err(SwapError::Read)),
    Waits(A, false, false),
    Provide(A, 0, Ok(0)),
    Retry(A, Ok(())),
    Waits(A, true, true),
    Provide(A, 0, Ok(0)),
    Turn(A, 2, TurnEnd::Ended),
];

/// The first page leaves and comes back, and is read on its way and in its slot, where it stays; the device may fail then. Past
/// the end, and of nobody, nothing is read.
const READ: &[Step] = &[
    Store(A, 8192, 9, TurnEnd::Frame),
    EvictBegin(A, Some(7)),
    Reads(A, 4095, 1, &[0, 7, 0]),
    EvictCommit(false, EvictEnd::Evicted),
    Reads(A, 0, 0, &[7, 0]),
    Reads(A, 4095, 2, &[0, 7, 0]),
    Reads(B, 0, 1, &[7]),
    ReadsNot(A, 4095, 3, 1, ReadError::Device(SwapError::Read)),
    Reads(A, 8191, 1, &[0, 0]),
    Turn(A, 3, TurnEnd::Ended),
    Reads(A, 8191, 1, &[0, 9, 0]),
    Invoke(A, "get8", &[0], 2, Ok(4)),
    Turn(A, 2, TurnEnd::Frame),
    EvictBegin(A, Some(7)),
    EvictCommit(false, EvictEnd::Evicted),
    FetchBegin(A, true),
    Reads(A, 4095, 3, &[0, 7, 0]),
    ReadsNot(A, 0, 1, 1, ReadError::Device(SwapError::Read)),
    FetchCommit(false, FetchEnd::Fetched),
    Reads(A, 0, 1, &[7]),
    Turn(A, 2, TurnEnd::Ended),
    Reads(A, 65535, 1, &[0]),
    Reads(A, 65536, 1, &[]),
    ReadsNot(A, 65535, 2, 0, ReadError::Outside),
    ReadsNot(A, 65537, 0, 0, ReadError::Outside),
    ReadsNot(A, 18446744073709551615, 16, 0, ReadError::Outside),
    ReadsNot(2, 0, 0, 0, ReadError::NoInstance),
];

/// All four pages come to one frame, so three are free.
const ONE_FRAME: &[Step] = &[
    Scan,
    Offer(A, 0, 5, Some(Offered::Skipped)),
    Store(A, 8192, 9, TurnEnd::Ended),
    Store(A, 12288, 9, TurnEnd::Ended),
    Store(A, 16384, 9, TurnEnd::Ended),
    Store(B, 8192, 9, TurnEnd::Frame),
];

/// A write that fails is tried again. No page leaves for who doesn't wait.
const EVICTED_AGAIN: &[Step] = &[
    Store(A, 8192, 9, TurnEnd::Frame),
    EvictBegin(B, None),
    EvictBegin(A, Some(7)),
    EvictCommit(true, EvictEnd::Failed),
    Waits(A, false, false),
    Retry(A, Ok(())),
    EvictBegin(A, Some(7)),
    EvictCommit(false, EvictEnd::Evicted),
    Turn(A, 3, TurnEnd::Ended),
];

/// The page that left is wanted again. No frame is free, and then some are; but the read fails.
const UNFETCHED: &[Step] = &[
    Store(A, 8192, 9, TurnEnd::Frame),
    EvictBegin(A, Some(7)),
    EvictCommit(false, EvictEnd::Evicted),
    Turn(A, 3, TurnEnd::Ended),
    Invoke(A, "get8", &[0], 2, Ok(4)),
    Turn(A, 2, TurnEnd::Frame),
    FetchBegin(A, false),
    Release(B, Ok(&[])),
    FetchBegin(A, true),
    FetchFails(SwapError::Read, FetchEnd::Failed),
    Waits(A, false, false),
];

/// A place is kept while a page leaves for who had it.
const KEPT_PLACE: &[Step] = &[
    Store(A, 8192, 9, TurnEnd::Frame),
    EvictBegin(A, Some(7)),
    Release(A, Ok(&[])),
    EvictCommit(false, EvictEnd::Void),
    Admit(0, (2, 16), 0, Ok((0, 2))),
];

/// Three instances have a page of equal bytes, and then one of them another.
const SHARED: &[Step] = &[
    Admit(0, (2, 16), 0, Ok((0, 0))),
    Admit(0, (2, 16), 0, Ok((1, 1))),
    Admit(0, (2, 16), 0, Ok((2, 2))),
    Store(A, 0, 1, TurnEnd::Ended),
    Store(B, 0, 1, TurnEnd::Ended),
    Store(2, 0, 1, TurnEnd::Ended),
    Scan,
    ReportIs(
        "# frames 1024 used 1 free 1023\n# slots 4096 used 0 free 4096\n# shared frames 1 sharers 3\n#     0     100     2    16     1     1     0 100/1\n#     1     100     2    16     0     0     0 -\n#     2     100     2    16     0     0     0 -\n",
    ),
    Epoch,
    Store(A, 0, 2, TurnEnd::Ended),
    ReportIs(
        "# frames 1024 used 2 free 1022\n# slots 4096 used 0 free 4096\n# shared frames 1 sharers 2\n#     0     100     2    16     1     1     0 100/1\n#     1     100     2    16     1     0     0 100/4\n#     2     100     2    16     0     0     0 -\n",
    ),
    Counts(HostCounts {
        turns: 4,
        charges: 12,
        returned: 4,
        trapped: 0,
        cancelled: 0,
        dead: 0,
        offers: 48,
        merges: 2,
        breaks: 1,
        evictions: 0,
        fetches: 0,
        faults: 0,
    }),
];

/// Two instances on five frames: the first has two pages and waits for a third, the second has three.
const FIVE_FRAMES: &[Step] = &[
    Admit(0, (2, 16), 0, Ok((0, 0))),
    Admit(0, (2, 16), 0, Ok((1, 1))),
    Store(A, 0, 1, TurnEnd::Ended),
    Store(A, 4096, 2, TurnEnd::Ended),
    Store(B, 0, 3, TurnEnd::Ended),
    Store(B, 4096, 4, TurnEnd::Ended),
    Store(B, 8192, 5, TurnEnd::Ended),
    Store(A, 8192, 6, TurnEnd::Frame),
    ReportIs(
        "# frames 5 used 5 free 0\n# slots 64 used 0 free 64\n# shared frames 0 sharers 0\n#     0     100     2    16     2     2     0 100/2\n#     1     100     2    16     3     3     0 100/3\n",
    ),
];

/// A page that is written while it leaves doesn't leave, and is the first to be taken again.
const WRITTEN_MEANWHILE: &[Step] = &[
    EvictBegin(A, Some(3)),
    Report(
        "# frames 5 used 5 free 0\n# slots 64 used 1 free 63\n",
        " 3     3     0 100/3\n",
    ),
    Store(B, 0, 9, TurnEnd::Ended),
    Invoke(B, "get8", &[0], 2, Ok(5)),
    Turn(B, 2, TurnEnd::Ended),
    Returned(B, 5, 9),
    EvictCommit(false, EvictEnd::Void),
    Report(
        "# frames 5 used 5 free 0\n# slots 64 used 0 free 64\n",
        " 3     3     0 100/3\n",
    ),
    EvictBegin(A, Some(9)),
];

/// An instance goes while a page of it leaves: its slot is in use until the ticket comes back, whatever the device did.
const GONE_MEANWHILE: &[Step] = &[
    EvictBegin(A, Some(3)),
    Release(B, Ok(&[])),
    Report(
        "# frames 5 used 2 free 3\n# slots 64 used 1 free 63\n",
        " 2     2     0 100/2\n",
    ),
    EvictCommit(false, EvictEnd::Void),
    Report(
        "# frames 5 used 2 free 3\n# slots 64 used 0 free 64\n",
        " 2     2     0 100/2\n",
    ),
];

const GONE_WHILE_IT_FAILS: &[Step] = &[
    EvictBegin(A, Some(3)),
    Release(B, Ok(&[])),
    Report(
        "# frames 5 used 2 free 3\n# slots 64 used 1 free 63\n",
        " 2     2     0 100/2\n",
    ),
    EvictCommit(true, EvictEnd::Void),
    Report(
        "# frames 5 used 2 free 3\n# slots 64 used 0 free 64\n",
        " 2     2     0 100/2\n",
    ),
];

/// A page that can't be written stays as it was, and the call for which it had to leave waits for another try.
const UNWRITTEN: &[Step] = &[
    EvictBegin(A, Some(3)),
    EvictCommit(true, EvictEnd::Failed),
    Report(
        "# frames 5 used 5 free 0\n# slots 64 used 0 free 64\n",
        " 3     3     0 100/3\n",
    ),
    Failed(A, 3, SwapError::Write, 2),
    Invoke(B, "get8", &[0], 2, Ok(4)),
    Turn(B, 2, TurnEnd::Ended),
    Returned(B, 4, 3),
    EvictBegin(A, None),
    Retry(A, Ok(())),
    EvictBegin(A, Some(3)),
    EvictCommit(false, EvictEnd::Evicted),
    Turn(A, 3, TurnEnd::Ended),
    Done(A, 3, 3),
];

/// A page comes, and its instance goes: frame and slot are free when the ticket comes back.
const FETCHED_FOR_NOBODY: &[Step] = &[
    EvictBegin(A, Some(3)),
    EvictCommit(false, EvictEnd::Evicted),
    Invoke(B, "get8", &[0], 2, Ok(4)),
    Turn(B, 2, TurnEnd::Frame),
    FetchBegin(B, true),
    Report(
        "# frames 5 used 5 free 0\n# slots 64 used 1 free 63\n",
        "\n",
    ),
    Release(B, Ok(&[])),
    Report(
        "# frames 5 used 3 free 2\n# slots 64 used 1 free 63\n",
        " 2     2     0 100/2\n",
    ),
    FetchCommit(false, FetchEnd::Void),
    Report(
        "# frames 5 used 2 free 3\n# slots 64 used 0 free 64\n",
        " 2     2     0 100/2\n",
    ),
];

/// Two instances on four frames, whose first two pages are equal and merged. The first one stands at a store over both, and
/// the second, which has a third page, has a call open.
const MERGED: &[Step] = &[
    Admit(0, (2, 16), 0, Ok((0, 0))),
    Admit(0, (2, 16), 0, Ok((1, 1))),
    Store(A, 0, 1, TurnEnd::Ended),
    Store(A, 4096, 2, TurnEnd::Ended),
    Store(B, 0, 1, TurnEnd::Ended),
    Store(B, 4096, 2, TurnEnd::Ended),
    Scan,
    Store(B, 8192, 3, TurnEnd::Ended),
    Invoke(A, "wide", &[], 1, Ok(3)),
    Turn(A, 1, TurnEnd::Frame),
    Invoke(B, "five", &[], 1, Ok(4)),
    ReportIs(
        "# frames 4 used 3 free 1\n# slots 64 used 0 free 64\n# shared frames 2 sharers 4\n#     0     100     2    16     2     2     0 100/2\n#     1     100     2    16     1     1     0 100/1\n",
    ),
];

/// A shared page leaves, and the other sharer is written: it gets a frame of its own, and the old one is free once the page has
/// left.
const OTHER_SHARER_WRITES: &[Step] = &[
    Cancel(B, Ok(())),
    EvictBegin(A, Some(1)),
    Cancel(A, Ok(())),
    Report(
        "# frames 4 used 3 free 1\n# slots 64 used 1 free 63\n# shared frames 2 sharers 4\n",
        "\n",
    ),
    Store(A, 0, 9, TurnEnd::Ended),
    Report(
        "# frames 4 used 4 free 0\n# slots 64 used 1 free 63\n",
        "\n",
    ),
    EvictCommit(false, EvictEnd::Evicted),
    Report(
        "# frames 4 used 3 free 1\n# slots 64 used 1 free 63\n# shared frames 1 sharers 2\n",
        " 1     1     1 100/1\n",
    ),
    Invoke(A, "get8", &[0], 2, Ok(5)),
    RunOut(A),
    Returned(A, 5, 9),
    Invoke(B, "get8", &[0], 2, Ok(5)),
    RunOut(B),
    Returned(B, 5, 1),
];

/// What `wide` leaves of the first instance's bytes.
const WIDE: &[(usize, u8)] = &[
    (0, 1),
    (4092, 1),
    (4093, 2),
    (4094, 3),
    (4095, 4),
    (4096, 5),
    (4097, 6),
    (4098, 7),
    (4099, 8),
];

/// A store over two shared pages wants two frames, of which one is free: the first page of the other instance leaves, and no other.
/// Its view stays.
const WIDE_IS_PROVIDED: &[Step] = &[
    Cancel(B, Ok(())),
    Provide(A, 0, Ok(1)),
    Report("# frames 4 ", " 1     1     1 100/1\n"),
    Turn(A, 1, TurnEnd::Ended),
    Report(
        "# frames 4 used 4 free 0\n# slots 64 used 1 free 63\n",
        "\n",
    ),
    Invoke(B, "get8", &[4096], 2, Ok(5)),
    Turn(B, 2, TurnEnd::Ended),
    Invoke(B, "get8", &[8192], 2, Ok(6)),
    Turn(B, 2, TurnEnd::Ended),
    Invoke(B, "get8", &[0], 2, Ok(7)),
    Turn(B, 2, TurnEnd::Frame),
    RunOut(B),
    Returned(B, 7, 1),
    Emit(A, WIDE),
    Emit(B, &[(0, 1), (4096, 2), (8192, 3)]),
];

/// The same where all pages were offered once more, under one hash for all.
const WIDE_IS_PROVIDED_UNDER_ONE_HASH: &[Step] = &[
    OfferAlike(A, 0, 0, Some(Offered::Skipped)),
    OfferAlike(A, 1, 0, Some(Offered::Skipped)),
    OfferAlike(B, 0, 0, Some(Offered::Skipped)),
    OfferAlike(B, 1, 0, Some(Offered::Skipped)),
    OfferAlike(B, 2, 0, Some(Offered::Hinted)),
    Cancel(B, Ok(())),
    Provide(A, 0, Ok(1)),
    Report("# frames 4 ", " 1     1     1 100/1\n"),
    Turn(A, 1, TurnEnd::Ended),
    Report(
        "# frames 4 used 4 free 0\n# slots 64 used 1 free 63\n",
        "\n",
    ),
    Invoke(B, "get8", &[4096], 2, Ok(5)),
    Turn(B, 2, TurnEnd::Ended),
    Invoke(B, "get8", &[8192], 2, Ok(6)),
    Turn(B, 2, TurnEnd::Ended),
    Invoke(B, "get8", &[0], 2, Ok(7)),
    Turn(B, 2, TurnEnd::Frame),
    RunOut(B),
    Returned(B, 7, 1),
    Emit(A, WIDE),
    Emit(B, &[(0, 1), (4096, 2), (8192, 3)]),
];

/// Promises count while a ticket of who was released is out.
const PROMISED_MEANWHILE: &[Step] = &[
    Admit(0, (4, 16), 0, Ok((0, 0))),
    Admit(0, (4, 16), 0, Ok((1, 1))),
    Store(A, 0, 1, TurnEnd::Ended),
    Store(A, 4096, 2, TurnEnd::Ended),
    Store(A, 8192, 3, TurnEnd::Ended),
    Store(A, 12288, 4, TurnEnd::Ended),
    Store(A, 16384, 5, TurnEnd::Ended),
    Store(B, 0, 7, TurnEnd::Ended),
    Store(B, 4096, 8, TurnEnd::Ended),
    Store(B, 8192, 9, TurnEnd::Ended),
    Store(B, 12288, 10, TurnEnd::Frame),
    EvictBegin(B, Some(1)),
    Release(A, Ok(&[])),
    Report(
        "# frames 8 used 3 free 5\n# slots 64 used 1 free 63\n",
        " 3     3     0 100/3\n",
    ),
    Admit(0, (4, 16), 0, Err(4)),
    EvictCommit(false, EvictEnd::Void),
    Admit(0, (4, 16), 0, Ok((0, 2))),
    Emit(2, &[]),
];

/// One instance on two frames gives its own page for its third, and reads it again; then the second page leaves for the first
/// one. A write fails, and a read.
const ALONE: &[Step] = &[
    Admit(0, (2, 16), 0, Ok((0, 0))),
    Store(A, 0, 1, TurnEnd::Ended),
    Store(A, 4096, 2, TurnEnd::Ended),
    Store(A, 8192, 3, TurnEnd::Frame),
    Provide(A, 1, Err(SwapError::Write)),
    Failed(A, 3, SwapError::Write, 2),
    Provide(A, 0, Ok(0)),
    Retry(A, Ok(())),
    RunOut(A),
    Done(A, 3, 3),
    Invoke(A, "get8", &[0], 2, Ok(4)),
    Turn(A, 2, TurnEnd::Frame),
    Provide(A, 2, Err(SwapError::Read)),
    Failed(A, 4, SwapError::Read, 1),
    Retry(A, Ok(())),
    Provide(A, 0, Ok(0)),
    Turn(A, 2, TurnEnd::Ended),
    Returned(A, 4, 1),
    Counts(HostCounts {
        turns: 6,
        charges: 11,
        returned: 4,
        trapped: 0,
        cancelled: 0,
        dead: 0,
        offers: 0,
        merges: 0,
        breaks: 0,
        evictions: 2,
        fetches: 1,
        faults: 2,
    }),
];

/// The first page is in its slot, and the call stores over it and the second one, which is on a frame. The third has to leave,
/// which fails, and then the first can't be read: neither time a page stays pinned, and so the second may be offered.
const NOTHING_IS_PINNED: &[Step] = &[
    Admit(0, (2, 16), 0, Ok((0, 0))),
    Store(A, 0, 1, TurnEnd::Ended),
    Store(A, 4096, 2, TurnEnd::Ended),
    Store(A, 8192, 3, TurnEnd::Frame),
    RunOut(A),
    Invoke(A, "wide", &[], 1, Ok(4)),
    Turn(A, 1, TurnEnd::Frame),
    Provide(A, 1, Err(SwapError::Write)),
    OfferAlike(A, 1, 77, Some(Offered::Hinted)),
    Retry(A, Ok(())),
    Provide(A, 2, Err(SwapError::Read)),
    OfferAlike(A, 1, 78, Some(Offered::Hinted)),
    Retry(A, Ok(())),
    RunOut(A),
    Done(A, 4, 1),
    Emit(
        A,
        &[
            (0, 1),
            (4092, 1),
            (4093, 2),
            (4094, 3),
            (4095, 4),
            (4096, 5),
            (4097, 6),
            (4098, 7),
            (4099, 8),
            (8192, 3),
        ],
    ),
];

/// A slot whose bytes have changed: the call stands so, again and again, until they are right.
const DAMAGED: &[Step] = &[
    Admit(0, (2, 16), 0, Ok((0, 0))),
    Store(A, 0, 1, TurnEnd::Ended),
    Store(A, 4096, 2, TurnEnd::Ended),
    Store(A, 8192, 3, TurnEnd::Frame),
    EvictBegin(A, Some(1)),
    EvictCommit(false, EvictEnd::Evicted),
    Turn(A, 3, TurnEnd::Ended),
    Invoke(A, "get8", &[0], 2, Ok(4)),
    Turn(A, 2, TurnEnd::Frame),
    EvictBegin(A, Some(2)),
    EvictCommit(false, EvictEnd::Evicted),
    FetchBegin(A, true),
    FetchFails(SwapError::Damaged, FetchEnd::Failed),
    Failed(A, 4, SwapError::Damaged, 1),
    Retry(A, Ok(())),
    FetchBegin(A, true),
    FetchFails(SwapError::Damaged, FetchEnd::Failed),
    Failed(A, 4, SwapError::Damaged, 1),
    Retry(A, Ok(())),
    FetchBegin(A, true),
    FetchCommit(false, FetchEnd::Fetched),
    Report(
        "# frames 2 used 2 free 0\n# slots 15 used 1 free 14\n",
        "\n",
    ),
    Turn(A, 2, TurnEnd::Ended),
    Returned(A, 4, 1),
];

/// All of them.
pub const PAGING: [Life; 20] = [
    Life(
        "a store gets its frame",
        (4, 64, UNTAXED),
        FOUR_FRAMES,
        OWN_FRAME,
    ),
    Life(
        "a fault waits for another try",
        (4, 64, UNTAXED),
        FOUR_FRAMES,
        ANOTHER_TRY,
    ),
    Life(
        "bytes are read where they are",
        (4, 64, UNTAXED),
        FOUR_FRAMES,
        READ,
    ),
    Life(
        "equal pages come to one frame",
        (4, 64, UNTAXED),
        FOUR_FRAMES,
        ONE_FRAME,
    ),
    Life(
        "an eviction is tried again",
        (4, 64, UNTAXED),
        FOUR_FRAMES,
        EVICTED_AGAIN,
    ),
    Life(
        "a fetch that fails is kept",
        (4, 64, UNTAXED),
        FOUR_FRAMES,
        UNFETCHED,
    ),
    Life("a place is kept", (4, 64, UNTAXED), FOUR_FRAMES, KEPT_PLACE),
    Life(
        "a report shows how frames are shared",
        (1024, 4096, TAXED),
        &[],
        SHARED,
    ),
    Life(
        "a page that is written",
        (5, 64, UNTAXED),
        FIVE_FRAMES,
        WRITTEN_MEANWHILE,
    ),
    Life(
        "a page whose instance goes",
        (5, 64, UNTAXED),
        FIVE_FRAMES,
        GONE_MEANWHILE,
    ),
    Life(
        "the same, and the write fails",
        (5, 64, UNTAXED),
        FIVE_FRAMES,
        GONE_WHILE_IT_FAILS,
    ),
    Life(
        "a page that can not be written",
        (5, 64, UNTAXED),
        FIVE_FRAMES,
        UNWRITTEN,
    ),
    Life(
        "a page comes for nobody",
        (5, 64, UNTAXED),
        FIVE_FRAMES,
        FETCHED_FOR_NOBODY,
    ),
    Life(
        "a shared page leaves alone",
        (4, 64, UNTAXED),
        MERGED,
        OTHER_SHARER_WRITES,
    ),
    Life(
        "a store over two shared pages",
        (4, 64, UNTAXED),
        MERGED,
        WIDE_IS_PROVIDED,
    ),
    Life(
        "the same under one hash for all",
        (4, 64, UNTAXED),
        MERGED,
        WIDE_IS_PROVIDED_UNDER_ONE_HASH,
    ),
    Life("promises count", (8, 64, TAXED), &[], PROMISED_MEANWHILE),
    Life("one instance swaps with itself", (2, 15, TAXED), &[], ALONE),
    Life(
        "a failed provision pins nothing",
        (2, 15, TAXED),
        &[],
        NOTHING_IS_PINNED,
    ),
    Life("a damaged slot is read again", (2, 15, TAXED), &[], DAMAGED),
];
