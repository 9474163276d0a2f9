//! Starts: what they write, what they come to, and calls that wait for them.

use crate::running::expect_all;
use std::test::Fail;

/// A start that traps. Its instance is dead, and refuses whatever it doesn't refuse for another cause.
const DEAD: &[(&str, &str)] = &[
    ("load m dead", "module m ok\n"),
    ("admit b m 100 2 16 10 0 0", "admit b ok 0\n"),
    ("invoke b f 0", ""),
    ("drain", "start b trap T1 charges 1\ncall 1 dead\n"),
    ("invoke b f 0", ""),
    ("drain", "call 2 refused H5\n"),
    ("invoke b g 0", ""),
    ("invoke b f 0 1", ""),
    ("drain", "call 3 refused H2\ncall 4 refused H3\n"),
    ("refuel b 1", "refuel b refused H8\n"),
    ("cancel b", "cancel b refused H8\n"),
    ("release b", "release b ok -\n"),
    ("invoke b f 0", ""),
    ("", "call 5 refused H1\n"),
];

/// Bytes that are written across the end of a page of 4096 bytes.
const PIECES: &[(&str, &str)] = &[
    ("load m pieces", "module m ok\n"),
    ("admit b m 100 2 16 0 0 0", "admit b ok 0\n"),
    (
        "report",
        "start b done charges 0\n# frames 1024 used 2 free 1022\n# slots 4096 used 0 free 4096\n# shared frames 0 sharers 0\n#     0     100     2    16     2     2     0 100/2\n",
    ),
    ("invoke b f 10 4093", ""),
    ("invoke b f 10 4094", ""),
    ("invoke b f 10 4095", ""),
    ("invoke b f 10 4096", ""),
    ("invoke b f 10 4097", ""),
    (
        "",
        "call 1 done 0 charges 2\ncall 2 done 1 charges 2\ncall 3 done 2 charges 2\ncall 4 done 3 charges 2\ncall 5 done 0 charges 2\n",
    ),
];

/// Bytes at the end of memory and past it; a table that is too short. Where there are no bytes and no function the start has
/// no line.
const ENDS: &[(&str, &str)] = &[
    ("load byte byte_at_end", "module byte ok\n"),
    ("load bytes byte_past_end", "module bytes ok\n"),
    ("load none none_at_end", "module none ok\n"),
    ("load further none_past_end", "module further ok\n"),
    ("load entries entry_past_end", "module entries ok\n"),
    ("admit a byte 100 2 16 0 0 0", "admit a ok 0\n"),
    (
        "admit b bytes 100 2 16 0 0 0",
        "start a done charges 0\nadmit b refused A8\n",
    ),
    ("admit b none 100 2 16 0 0 0", "admit b ok 1\n"),
    ("admit c further 100 2 16 0 0 0", "admit c refused A8\n"),
    ("admit c entries 100 2 16 0 0 0", "admit c refused A8\n"),
    ("", ""),
];

/// A start that wants more fuel than it was given. The bytes are written before it.
const NOPS: &[(&str, &str)] = &[
    ("load m start_nops", "module m ok\n"),
    ("admit a m 100 2 16 2 0 0", "admit a ok 0\n"),
    ("invoke a f 5 3", ""),
    (
        "refuel a 1",
        "start a fuel charges 2\ncall 1 queued\nrefuel a ok\n",
    ),
    ("drain", "start a done charges 3\ncall 1 done 9 charges 2\n"),
    ("admit b m 100 2 16 0 0 0", "admit b ok 1\n"),
    ("scan", "start b fuel charges 0\nscan ok\n"),
    (
        "report",
        "# frames 1024 used 1 free 1023\n# slots 4096 used 0 free 4096\n# shared frames 1 sharers 2\n#     0     100     2    16     1     1     0 100/1\n#     1     100     2    16     0     0     0 -\n",
    ),
];

/// A start that is cancelled.
const CANCELLED: &[(&str, &str)] = &[
    ("load m start_loop", "module m ok\n"),
    ("admit a m 100 2 16 4 0 0", "admit a ok 0\n"),
    ("invoke a f 1", ""),
    ("invoke a f 1", ""),
    (
        "cancel a",
        "start a fuel charges 4\ncall 1 queued\ncall 2 queued\ncancel a ok\n",
    ),
    ("invoke a f 1", ""),
    (
        "drain",
        "start a cancelled charges 4\ncall 1 dead\ncall 2 dead\ncall 3 refused H5\n",
    ),
    ("cancel a", "cancel a refused H8\n"),
    ("retry a", "retry a refused H8\n"),
];

/// A start that goes on while its instance is released.
const RELEASED: &[(&str, &str)] = &[
    ("load m start_loop", "module m ok\n"),
    ("admit a m 100 2 16 4 0 0", "admit a ok 0\n"),
    ("invoke a f 1", ""),
    (
        "release a",
        "start a fuel charges 4\ncall 1 queued\nrelease a ok -\n",
    ),
    (
        "drain",
        "start a released charges 4\ncall 1 released charges 0\n",
    ),
    ("drain", ""),
];

/// Starts are said by the number of their instance, and after them all calls by their own.
const ORDER: &[(&str, &str)] = &[
    ("load k seven", "module k ok\n"),
    ("load s start_nops", "module s ok\n"),
    ("admit a k 100 2 16 0 0 0", "admit a ok 0\n"),
    ("admit b s 100 2 16 0 0 0", "admit b ok 1\n"),
    ("invoke b f 9 3", ""),
    ("invoke a f 0", ""),
    (
        "admit c s 100 2 16 9 0 0",
        "start b fuel charges 0\ncall 1 queued\ncall 2 done 7 charges 0\nadmit c ok 2\n",
    ),
    ("invoke c f 9 4", ""),
    (
        "refuel b 9",
        "start c done charges 3\ncall 3 done 0 charges 2\nrefuel b ok\n",
    ),
    ("", "start b done charges 3\ncall 1 done 9 charges 2\n"),
];

#[test]
fn starts_come_to_their_ends(rt: HostRuntime) -> Result<(), Fail> {
    expect_all(
        &rt,
        &[
            ("", DEAD),
            ("", PIECES),
            ("", ENDS),
            ("", NOPS),
            ("", CANCELLED),
            ("", RELEASED),
            ("", ORDER),
        ],
    )
}
