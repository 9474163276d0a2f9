//! Calls: what they come to, what they are charged, and calls that wait for fuel.

use crate::running::expect_all;
use std::test::Fail;

/// A value, no such function, an argument too many.
const SEVEN: &[(&str, &str)] = &[
    (
        "module m 0061736d010000000105016000017f03020100070501016600000a0601040041070b",
        "module m ok\n",
    ),
    ("admit a m 100 2 16 0 0 0", "admit a ok 0\n"),
    ("invoke a f 0", ""),
    ("invoke a g 0", ""),
    ("invoke a f 0 5", ""),
    (
        "",
        "call 1 done 7 charges 0\ncall 2 refused H2\ncall 3 refused H3\n",
    ),
];

/// A loop that gets some fuel, and then some more.
const LOOP: &[(&str, &str)] = &[
    ("load m loop", "module m ok\n"),
    ("admit a m 100 2 16 0 0 0", "admit a ok 0\n"),
    ("invoke a f 5", ""),
    ("refuel a 2", "call 1 fuel charges 5\nrefuel a ok\n"),
    ("", "call 1 fuel charges 7\n"),
];

/// Quotients and remainders that there aren't, and one that there is.
const DIVIDE: &[(&str, &str)] = &[
    ("load m divide", "module m ok\n"),
    ("admit a m 100 2 16 0 0 0", "admit a ok 0\n"),
    ("invoke a div 10", ""),
    ("invoke a rem 10", ""),
    ("invoke a div0 10", ""),
    ("invoke a rem0 10", ""),
    (
        "",
        "call 1 trap T3 charges 1\ncall 2 done 0 charges 1\ncall 3 trap T2 charges 1\ncall 4 trap T2 charges 1\n",
    ),
];

/// Loads at the end of memory and past it. Addresses don't wrap.
const LOAD: &[(&str, &str)] = &[
    ("load m load", "module m ok\n"),
    ("admit a m 100 2 16 0 0 0", "admit a ok 0\n"),
    ("invoke a f 10 65532", ""),
    ("invoke a f 10 65533", ""),
    ("invoke a g 10 -1", ""),
    ("invoke a f 10 -1", ""),
    ("invoke a g 10 65531", ""),
    ("invoke a g 10 65532", ""),
    (
        "",
        "call 1 done 0 charges 2\ncall 2 trap T4 charges 2\ncall 3 trap T4 charges 2\ncall 4 trap T4 charges 2\ncall 5 done 0 charges 2\ncall 6 trap T4 charges 2\n",
    ),
];

/// Memory that grows as far as its owner lets it, 16 frames being a page, and as far as it declares itself.
const GROW: &[(&str, &str)] = &[
    ("load m grow", "module m ok\n"),
    ("load two bounded", "module two ok\n"),
    ("admit a m 100 2 32 0 0 0", "admit a ok 0\n"),
    ("admit b m 100 2 31 0 0 0", "admit b ok 1\n"),
    ("admit c two 100 2 64 0 0 0", "admit c ok 2\n"),
    ("invoke a f 10 1", ""),
    ("invoke a f 10 1", ""),
    ("invoke a f 10 0", ""),
    ("invoke a size 10", ""),
    ("invoke b f 10 1", ""),
    ("invoke b f 10 0", ""),
    ("invoke c f 10 2", ""),
    ("invoke c f 10 1", ""),
    ("invoke c f 10 1", ""),
    (
        "drain",
        "call 1 done 1 charges 2\ncall 2 done -1 charges 2\ncall 3 done 2 charges 2\ncall 4 done 2 charges 1\ncall 5 done -1 charges 2\ncall 6 done 1 charges 2\ncall 7 done -1 charges 2\ncall 8 done 1 charges 2\ncall 9 done -1 charges 2\n",
    ),
];

/// A branch past an addition that would want another operand, and one that wants it of another type.
const BRANCH: &[(&str, &str)] = &[
    ("load m branch", "module m ok\n"),
    (
        "load n mistyped_branch",
        "module n refused V1 func 0 instr 4\n",
    ),
    ("admit a m 100 2 16 0 0 0", "admit a ok 0\n"),
    ("invoke a f 10", ""),
    ("", "call 1 done 1 charges 2\n"),
];

/// 128 calls in one another. The call that is too deep is charged; what was stored stays, and the instance goes on.
const DEEP: &[(&str, &str)] = &[
    ("load m deep", "module m ok\n"),
    ("admit a m 100 2 16 0 0 0", "admit a ok 0\n"),
    ("invoke a f 1000", ""),
    ("drain", "call 1 trap T10 charges 512\n"),
    ("invoke a g 10", ""),
    ("", "call 2 done 128 charges 1\n"),
];

/// Calls by a table: of the type, of no entry, past the table, of another type.
const INDIRECT: &[(&str, &str)] = &[
    ("load m indirect", "module m ok\n"),
    ("admit a m 100 2 16 0 0 0", "admit a ok 0\n"),
    ("invoke a f 10 0", ""),
    ("invoke a f 10 1", ""),
    ("invoke a f 10 2", ""),
    ("invoke a f 10 -1", ""),
    ("invoke a g 10 0", ""),
    (
        "",
        "call 1 done 7 charges 2\ncall 2 trap T6 charges 2\ncall 3 trap T5 charges 2\ncall 4 trap T5 charges 2\ncall 5 trap T7 charges 3\n",
    ),
];

#[test]
fn calls_come_to_their_ends(rt: HostRuntime) -> Result<(), Fail> {
    expect_all(
        &rt,
        &[
            ("", SEVEN),
            ("", LOOP),
            ("", DIVIDE),
            ("", LOAD),
            ("", GROW),
            ("", BRANCH),
            ("", DEEP),
            ("", INDIRECT),
            // A hash by which all pages are equal changes no line.
            ("hash = \"constant\"\n", SEVEN),
        ],
    )
}

/// A call that is cancelled lets the next one go on.
const CANCEL: &[(&str, &str)] = &[
    ("load m loop", "module m ok\n"),
    ("admit a m 100 2 16 0 0 0", "admit a ok 0\n"),
    ("invoke a f 3", ""),
    ("invoke a f 0", ""),
    (
        "cancel a",
        "call 1 fuel charges 3\ncall 2 queued\ncancel a ok\n",
    ),
    ("", "call 1 cancelled charges 3\ncall 2 fuel charges 0\n"),
];

/// Where there is no call to give fuel to, to end or to try again. One that waits for fuel isn't tried again.
const NO_CALL: &[(&str, &str)] = &[
    ("load m loop", "module m ok\n"),
    ("admit a m 100 2 16 0 0 0", "admit a ok 0\n"),
    ("refuel a 1", "refuel a refused H8\n"),
    ("cancel a", "cancel a refused H8\n"),
    ("retry a", "retry a refused H8\n"),
    ("invoke a f 1", ""),
    ("retry a", "call 1 fuel charges 1\nretry a refused H8\n"),
    ("cancel a", "cancel a ok\n"),
    (
        "cancel a",
        "call 1 cancelled charges 1\ncancel a refused H8\n",
    ),
    ("refuel a 1", "refuel a refused H8\n"),
];

/// No line is printed twice; and more fuel than can be counted is as much as can be.
const REFUEL: &[(&str, &str)] = &[
    ("load m keep", "module m ok\n"),
    ("admit a m 100 2 16 0 0 0", "admit a ok 0\n"),
    ("invoke a f 1 9", ""),
    ("invoke a f 2 9", ""),
    (
        "refuel a 0",
        "call 1 fuel charges 1\ncall 2 queued\nrefuel a ok\n",
    ),
    ("drain", ""),
    ("refuel a 18446744073709551615", "refuel a ok\n"),
    ("drain", "call 1 done charges 2\ncall 2 done charges 2\n"),
    ("drain", ""),
    ("invoke a f 18446744073709551615 9", ""),
    ("", "call 3 done charges 2\n"),
];

/// Calls of instances that are released meanwhile. The lines of the drain come before that.
const RELEASE: &[(&str, &str)] = &[
    ("load m loop", "module m ok\n"),
    ("load n seven", "module n ok\n"),
    ("admit a m 100 2 16 0 0 0", "admit a ok 0\n"),
    ("admit b n 100 2 16 0 0 0", "admit b ok 1\n"),
    ("invoke a f 3", ""),
    ("invoke b f 0", ""),
    ("invoke a f 7", ""),
    (
        "release a",
        "call 1 fuel charges 3\ncall 2 done 7 charges 0\ncall 3 queued\nrelease a ok -\n",
    ),
    ("invoke b f 0", ""),
    (
        "release b",
        "call 1 released charges 3\ncall 3 released charges 0\ncall 4 done 7 charges 0\nrelease b ok -\n",
    ),
    ("drain", ""),
    ("release a", "release a refused H1\n"),
];

#[test]
fn calls_are_fuelled_cancelled_and_released(rt: HostRuntime) -> Result<(), Fail> {
    expect_all(
        &rt,
        &[("", CANCEL), ("", NO_CALL), ("", REFUEL), ("", RELEASE)],
    )
}
