// Whole lives of instances, worked out by hand.

use crate::life::{Life, Step};
use crate::modules::{DYING, ENDLESS, PASSING, PUTTING, SEVEN};
use Step::{
    Admit, Cancel, Epoch, Exports, Invoke, InvokeAt, Load, Refuel, Release, ReportIs, Retry, Shows,
    Status, Trapped, Turn,
};
use ValType::{I32, I64};
use wh_host::{CallStatus, CallValue, Suspension};
use wh_host_model::TurnEnd;
use wh_model::{Trap, ValType};
use wh_space_model::Tax;

/// All idle pages count four times.
const TAXED: Tax = Tax { num: 3, den: 4 };

/// Nobody was admitted, and the pager is the only module.
const NOBODY: &[Step] = &[
    Turn(0, 1000, TurnEnd::Idle),
    Invoke(0, "f", &[], 5, Err(1)),
    Refuel(0, 5, Err(1)),
    Cancel(0, Err(1)),
    Retry(0, Err(1)),
    Release(0, Err(1)),
    Admit(1, (2, 16), 0, Err(1)),
];

/// The pager has number 0. Bytes that are cut off get none.
const NUMBERED: &[Step] = &[
    Load(&SEVEN, Some(1)),
    Load(&[0x00, 0x61, 0x73, 0x6d, 0x01, 0x00, 0x00], None),
    Load(&SEVEN, Some(2)),
];

/// The start is at place 0 of the journal, and has ended.
const ENDED: &[Step] = &[
    Load(&SEVEN, Some(1)),
    Admit(1, (2, 16), 0, Ok((0, 0))),
    Turn(0, 1000, TurnEnd::Idle),
    Invoke(0, "f", &[], 0, Ok(1)),
    Invoke(0, "g", &[], 0, Err(2)),
    Invoke(0, "f", &[5], 0, Err(3)),
    Turn(0, 1000, TurnEnd::Ended),
    Turn(0, 1000, TurnEnd::Idle),
    Refuel(0, 1, Err(8)),
];

const FUELLED: &[Step] = &[
    Load(&ENDLESS, Some(1)),
    Admit(1, (2, 16), 0, Ok((0, 0))),
    Invoke(0, "f", &[], 5, Ok(1)),
    Invoke(0, "f", &[], 0, Ok(2)),
    Turn(0, 3, TurnEnd::Again),
    Turn(0, 2, TurnEnd::Fuel),
    Retry(0, Err(8)),
    Refuel(0, 2, Ok(())),
    Turn(0, 2, TurnEnd::Fuel),
    Cancel(0, Ok(())),
    Turn(0, 1000, TurnEnd::Fuel),
    Cancel(0, Ok(())),
    Cancel(0, Err(8)),
];

const PUT_OUT: &[Step] = &[
    Load(&PUTTING, Some(1)),
    Admit(1, (2, 16), 0, Ok((0, 0))),
    Invoke(0, "f", &[], 1, Ok(1)),
    Shows(0, Ok((&[], 1))),
    Turn(0, 1000, TurnEnd::Ended),
    Shows(0, Ok((&[5, 0, 0, 0, 0, 0, 0, 0], 2))),
    Admit(1, (2, 16), 0, Ok((1, 1))),
    Shows(1, Ok((&[], 1))),
    InvokeAt(0, 0, 1, Ok(2)),
    InvokeAt(0, 1, 1, Err(2)),
    InvokeAt(2, 0, 1, Err(1)),
    Turn(0, 1000, TurnEnd::Ended),
    Shows(
        0,
        Ok((&[5, 0, 0, 0, 0, 0, 0, 0, 5, 0, 0, 0, 0, 0, 0, 0], 3)),
    ),
    Shows(1, Ok((&[], 1))),
    Shows(2, Err(1)),
    Exports(1, Some(1), 0, Some(("f", &[], &[]))),
    Exports(1, Some(1), 1, None),
    Exports(2, None, 0, None),
    Release(0, Ok(&[5, 0, 0, 0, 0, 0, 0, 0, 5, 0, 0, 0, 0, 0, 0, 0])),
    Release(0, Err(1)),
    Shows(0, Err(1)),
    Turn(0, 1000, TurnEnd::Idle),
];

/// The functions that the pager exports, in its order.
const EXPORTED: &[Step] = &[
    Exports(0, Some(8), 0, Some(("emit", &[I32, I32], &[]))),
    Exports(0, Some(8), 2, Some(("get8", &[I32], &[I32]))),
    Exports(0, Some(8), 3, Some(("set", &[I32, I64], &[]))),
    Exports(0, Some(8), 4, Some(("get", &[I32], &[I64]))),
    Exports(0, Some(8), 5, Some(("two", &[I32, I32, I32], &[]))),
    Exports(0, Some(8), 7, Some(("wide", &[], &[]))),
    Exports(0, Some(8), 8, None),
];

/// A place is used again, and a number never: who asks by the old number isn't heard.
const USED_AGAIN: &[Step] = &[
    Load(&SEVEN, Some(1)),
    Admit(1, (4, 16), 0, Ok((0, 0))),
    Admit(1, (4, 16), 0, Ok((1, 1))),
    Admit(1, (2, 16), 0, Err(4)),
    Release(0, Ok(&[])),
    Admit(1, (2, 16), 0, Ok((0, 2))),
    Invoke(0, "f", &[], 0, Err(1)),
    Invoke(2, "f", &[], 0, Ok(1)),
    Turn(2, 1000, TurnEnd::Ended),
];

/// A start that traps leaves its instance dead.
const DEAD: &[Step] = &[
    Load(&DYING, Some(1)),
    Admit(1, (2, 16), 10, Ok((0, 0))),
    Invoke(0, "f", &[], 0, Ok(1)),
    Turn(0, 1000, TurnEnd::Ended),
    Turn(0, 1000, TurnEnd::Idle),
    Invoke(0, "f", &[], 0, Err(5)),
];

/// What isn't admitted changes nothing: a segment passes the end, and the memory begins too large.
const REFUSED: &[Step] = &[
    Load(&PASSING, Some(1)),
    Load(&SEVEN, Some(2)),
    Admit(1, (2, 16), 0, Err(8)),
    Admit(1, (2, 15), 0, Err(7)),
    Admit(2, (2, 16), 0, Ok((0, 0))),
    Epoch,
    Turn(0, 1000, TurnEnd::Idle),
];

/// The call is the present one, isn't blocked, and has taken no charge.
const PRESENT: CallStatus = CallStatus::Present {
    waiting_for: None,
    charges: 0,
};

/// A call is told from its beginning to its end.
const TOLD: &[Step] = &[
    Load(&SEVEN, Some(1)),
    Admit(1, (2, 16), 0, Ok((0, 0))),
    Status(
        0,
        0,
        Some(CallStatus::Returned {
            value: None,
            charges: 0,
        }),
    ),
    Status(0, 1, None),
    Invoke(0, "f", &[], 0, Ok(1)),
    Invoke(0, "f", &[], 0, Ok(2)),
    Status(0, 1, Some(PRESENT)),
    Status(0, 2, Some(CallStatus::Waiting)),
    Turn(0, 1000, TurnEnd::Ended),
    Status(
        0,
        1,
        Some(CallStatus::Returned {
            value: Some(CallValue {
                of: ValType::I32,
                word: 7,
            }),
            charges: 0,
        }),
    ),
    Status(0, 2, Some(PRESENT)),
    Status(1, 0, None),
];

/// So is fuel that ran out, a call that was cancelled, one that trapped, and one after it.
const TOLD_OF_ENDS: &[Step] = &[
    Load(&ENDLESS, Some(1)),
    Load(&DYING, Some(2)),
    Admit(1, (2, 16), 0, Ok((0, 0))),
    Invoke(0, "f", &[], 5, Ok(1)),
    Turn(0, 1000, TurnEnd::Fuel),
    Status(
        0,
        1,
        Some(CallStatus::Present {
            waiting_for: Some(Suspension::Fuel),
            charges: 5,
        }),
    ),
    Cancel(0, Ok(())),
    Status(0, 1, Some(CallStatus::Cancelled { charges: 5 })),
    Admit(2, (2, 16), 10, Ok((1, 1))),
    Invoke(1, "f", &[], 0, Ok(1)),
    Turn(1, 1000, TurnEnd::Ended),
    Trapped(1, 0, Trap::Unreachable),
    Status(1, 1, Some(CallStatus::Dead)),
];

/// A place that is used again is shown by the number of who has it.
const SHOWN_BY_NUMBER: &[Step] = &[
    Load(&SEVEN, Some(1)),
    Admit(1, (2, 16), 0, Ok((0, 0))),
    Admit(1, (3, 16), 0, Ok((1, 1))),
    Release(0, Ok(&[])),
    Admit(1, (4, 16), 0, Ok((0, 2))),
    ReportIs(
        "# frames 8 used 0 free 8\n# slots 64 used 0 free 64\n# shared frames 0 sharers 0\n#     1     100     3    16     0     0     0 -\n#     2     100     4    16     0     0     0 -\n",
    ),
];

/// All of them.
pub const LIVES: [Life; 12] = [
    Life("nobody is there", (4, 100, TAXED), &[], NOBODY),
    Life("modules are numbered", (4, 100, TAXED), &[], NUMBERED),
    Life("a call runs and ends", (1024, 4096, TAXED), &[], ENDED),
    Life(
        "fuel runs out and is given",
        (1024, 4096, TAXED),
        &[],
        FUELLED,
    ),
    Life("output is handed out", (1024, 4096, TAXED), &[], PUT_OUT),
    Life("exports are told", (4, 100, TAXED), &[], EXPORTED),
    Life("a place is used again", (8, 64, TAXED), &[], USED_AGAIN),
    Life("a start traps", (1024, 4096, TAXED), &[], DEAD),
    Life("what is not admitted", (1024, 4096, TAXED), &[], REFUSED),
    Life("a call is told", (1024, 4096, TAXED), &[], TOLD),
    Life("ends are told", (1024, 4096, TAXED), &[], TOLD_OF_ENDS),
    Life(
        "a report goes by number",
        (8, 64, TAXED),
        &[],
        SHOWN_BY_NUMBER,
    ),
];
