// Worked by hand: to whom a frame is charged that several share, who gives a page then, and in which order pages are looked
// at.

use crate::life::{Life, Step};
use Step::{Admit, Emit, Epoch, Invoke, Provide, Release, ReportIs, Scan, ScanAlike, Store, Turn};
use wh_host_model::TurnEnd;
use wh_space_model::Tax;

const UNTAXED: Tax = Tax { num: 0, den: 1 };

const TAXED: Tax = Tax { num: 3, den: 4 };

/// The instances in the order in which they are admitted.
const A: usize = 0;

const B: usize = 1;

const C: usize = 2;

const D: usize = 3;

/// Of three instances on seven frames the first two share three pages, and all frames are in use. The first one has more
/// frames than the others, those that it shares: its first page leaves, and the frame is charged to the second one. That one
/// has more then, and its first page leaves, which was the last on the frame.
const CHARGED_ON: &[Step] = &[
    Admit(0, (2, 16), 0, Ok((0, 0))),
    Admit(0, (2, 16), 0, Ok((1, 1))),
    Admit(0, (2, 16), 0, Ok((2, 2))),
    Store(A, 0, 1, TurnEnd::Ended),
    Store(A, 4096, 2, TurnEnd::Ended),
    Store(A, 8192, 3, TurnEnd::Ended),
    Store(B, 0, 1, TurnEnd::Ended),
    Store(B, 4096, 2, TurnEnd::Ended),
    Store(B, 8192, 3, TurnEnd::Ended),
    Scan,
    Store(B, 12288, 4, TurnEnd::Ended),
    Store(B, 16384, 5, TurnEnd::Ended),
    Store(C, 0, 6, TurnEnd::Ended),
    Store(C, 4096, 7, TurnEnd::Ended),
    ReportIs(
        "# frames 7 used 7 free 0\n# slots 64 used 0 free 64\n# shared frames 3 sharers 6\n#     0     100     2    16     3     3     0 100/3\n#     1     100     2    16     2     2     0 100/2\n#     2     100     2    16     2     2     0 100/2\n",
    ),
    Store(C, 8192, 8, TurnEnd::Frame),
    Provide(C, 0, Ok(2)),
    ReportIs(
        "# frames 7 used 7 free 0\n# slots 64 used 2 free 62\n# shared frames 2 sharers 4\n#     0     100     2    16     2     2     1 100/2\n#     1     100     2    16     2     2     1 100/2\n#     2     100     2    16     2     2     0 100/2\n",
    ),
    Turn(C, 3, TurnEnd::Ended),
    ReportIs(
        "# frames 7 used 7 free 0\n# slots 64 used 2 free 62\n# shared frames 2 sharers 4\n#     0     100     2    16     2     2     1 100/2\n#     1     100     2    16     2     2     1 100/2\n#     2     100     2    16     3     3     0 100/3\n",
    ),
    Emit(A, &[(0, 1), (4096, 2), (8192, 3)]),
    Emit(B, &[(0, 1), (4096, 2), (8192, 3), (12288, 4), (16384, 5)]),
    Emit(C, &[(0, 6), (4096, 7), (8192, 8)]),
];

/// What `wide` leaves of the first instance's bytes.
const WIDE: &[(usize, u8)] = &[
    (0, 1),
    (4092, 1),
    (4093, 2),
    (4094, 3),
    (4095, 4),
    (4096, 5),
    (4097, 6),
    (4098, 7),
    (4099, 8),
];

/// Nobody is above its minimum, and no frame is free. Who stores over two pages that it shares, and for which it is charged,
/// keeps both frames: the other sharer's pages leave. What that one sees stays.
const SHARERS_LEAVE: &[Step] = &[
    Admit(0, (2, 16), 0, Ok((0, 0))),
    Admit(0, (2, 16), 0, Ok((1, 1))),
    Store(A, 0, 1, TurnEnd::Ended),
    Store(A, 4096, 2, TurnEnd::Ended),
    Store(B, 0, 1, TurnEnd::Ended),
    Store(B, 4096, 2, TurnEnd::Ended),
    Scan,
    Store(B, 8192, 3, TurnEnd::Ended),
    Store(B, 12288, 4, TurnEnd::Ended),
    ReportIs(
        "# frames 4 used 4 free 0\n# slots 64 used 0 free 64\n# shared frames 2 sharers 4\n#     0     100     2    16     2     2     0 100/2\n#     1     100     2    16     2     2     0 100/2\n",
    ),
    Invoke(A, "wide", &[], 1, Ok(3)),
    Turn(A, 1, TurnEnd::Frame),
    Provide(A, 0, Ok(2)),
    ReportIs(
        "# frames 4 used 4 free 0\n# slots 64 used 2 free 62\n# shared frames 2 sharers 2\n#     0     100     2    16     2     2     0 100/2\n#     1     100     2    16     2     2     2 100/2\n",
    ),
    Turn(A, 1, TurnEnd::Ended),
    ReportIs(
        "# frames 4 used 4 free 0\n# slots 64 used 2 free 62\n# shared frames 0 sharers 0\n#     0     100     2    16     2     2     0 100/2\n#     1     100     2    16     2     2     2 100/2\n",
    ),
    Emit(A, WIDE),
    Emit(B, &[(0, 1), (4096, 2), (8192, 3), (12288, 4)]),
];

/// Three instances share a frame, of which the last one came to the first place. It is charged to the one with the lowest
/// number, also where another one has touched it; then to the next one, when that one has written its page, and when the next
/// one has gone.
const CHARGED_BY_NUMBER: &[Step] = &[
    Admit(0, (2, 16), 0, Ok((0, 0))),
    Admit(0, (2, 16), 0, Ok((1, 1))),
    Admit(0, (2, 16), 0, Ok((2, 2))),
    Release(A, Ok(&[])),
    Admit(0, (2, 16), 0, Ok((0, 3))),
    Store(D, 0, 1, TurnEnd::Ended),
    Store(C, 0, 1, TurnEnd::Ended),
    Store(B, 0, 1, TurnEnd::Ended),
    Scan,
    ReportIs(
        "# frames 8 used 1 free 7\n# slots 64 used 0 free 64\n# shared frames 1 sharers 3\n#     1     100     2    16     1     1     0 100/1\n#     2     100     2    16     0     0     0 -\n#     3     100     2    16     0     0     0 -\n",
    ),
    Epoch,
    ReportIs(
        "# frames 8 used 1 free 7\n# slots 64 used 0 free 64\n# shared frames 1 sharers 3\n#     1     100     2    16     1     0     0 100/4\n#     2     100     2    16     0     0     0 -\n#     3     100     2    16     0     0     0 -\n",
    ),
    Invoke(D, "get8", &[0], 2, Ok(2)),
    Turn(D, 2, TurnEnd::Ended),
    ReportIs(
        "# frames 8 used 1 free 7\n# slots 64 used 0 free 64\n# shared frames 1 sharers 3\n#     1     100     2    16     1     1     0 100/1\n#     2     100     2    16     0     0     0 -\n#     3     100     2    16     0     0     0 -\n",
    ),
    Store(B, 0, 0, TurnEnd::Ended),
    ReportIs(
        "# frames 8 used 2 free 6\n# slots 64 used 0 free 64\n# shared frames 1 sharers 2\n#     1     100     2    16     1     1     0 100/1\n#     2     100     2    16     1     1     0 100/1\n#     3     100     2    16     0     0     0 -\n",
    ),
    // A page of zeros has no frame.
    Scan,
    ReportIs(
        "# frames 8 used 1 free 7\n# slots 64 used 0 free 64\n# shared frames 1 sharers 2\n#     1     100     2    16     0     0     0 -\n#     2     100     2    16     1     1     0 100/1\n#     3     100     2    16     0     0     0 -\n",
    ),
    Release(C, Ok(&[])),
    ReportIs(
        "# frames 8 used 1 free 7\n# slots 64 used 0 free 64\n# shared frames 1 sharers 1\n#     1     100     2    16     0     0     0 -\n#     3     100     2    16     1     1     0 100/1\n",
    ),
    Emit(B, &[]),
    Emit(D, &[(0, 1)]),
];

/// Of two instances the later one came to the first place. Pages are looked at by number: where all have one hash, the page
/// of the earlier one is the first, and the two equal pages of the later one are held against it and against no other.
const SCANNED_BY_NUMBER: &[Step] = &[
    Admit(0, (2, 16), 0, Ok((0, 0))),
    Admit(0, (2, 16), 0, Ok((1, 1))),
    Release(A, Ok(&[])),
    Admit(0, (2, 16), 0, Ok((0, 2))),
    Store(B, 0, 1, TurnEnd::Ended),
    Store(C, 0, 2, TurnEnd::Ended),
    Store(C, 4096, 2, TurnEnd::Ended),
    ScanAlike,
    ReportIs(
        "# frames 8 used 3 free 5\n# slots 64 used 0 free 64\n# shared frames 0 sharers 0\n#     1     100     2    16     1     1     0 100/1\n#     2     100     2    16     2     2     0 100/2\n",
    ),
    // By a hash that tells contents apart they are merged.
    Scan,
    ReportIs(
        "# frames 8 used 2 free 6\n# slots 64 used 0 free 64\n# shared frames 1 sharers 2\n#     1     100     2    16     1     1     0 100/1\n#     2     100     2    16     1     1     0 100/1\n",
    ),
    Emit(B, &[(0, 1)]),
    Emit(C, &[(0, 2), (4096, 2)]),
];

/// All of them.
pub const CHARGING: [Life; 4] = [
    Life(
        "a shared frame is charged on",
        (7, 64, UNTAXED),
        &[],
        CHARGED_ON,
    ),
    Life("sharers leave", (4, 64, UNTAXED), &[], SHARERS_LEAVE),
    Life(
        "a shared frame is charged by numbers",
        (8, 64, TAXED),
        &[],
        CHARGED_BY_NUMBER,
    ),
    Life(
        "pages are looked at by number",
        (8, 64, TAXED),
        &[],
        SCANNED_BY_NUMBER,
    ),
];
