//! Lines that ask for something, whether it can be had or not: shapes, names, numbers, and what a host refuses.

use crate::running::{expect, expect_all};
use std::test::Fail;

/// Lines that have not the shape of a command.
const SHAPELESS: [&str; 71] = [
    "load",
    "load m",
    "load m ",
    "load m p q",
    "load M p",
    "load p/q m",
    "load abcdefghijklmnopqrstuvwxyz0123456 p",
    "admit",
    "admit a",
    "admit a m 100 2 16 0 0",
    "admit a m 100 2 16 0 0 0 ",
    "admit a m 100 2  16 0 0 0",
    "admit A m 100 2 16 0 0 0",
    "admit a M 100 2 16 0 0 0",
    "admit a m -1 2 16 0 0 0",
    "admit a m 18446744073709551616 2 16 0 0 0",
    "admit a m 000000000000000000100 2 16 0 0 0",
    "admit a m 100 -2 16 0 0 0",
    "admit a m 100 18446744073709551616 16 0 0 0",
    "admit a m 100 2 -16 0 0 0",
    "admit a m 100 2 18446744073709551616 0 0 0",
    "admit a m 100 2 16 -1 0 0",
    "admit a m 100 2 16 18446744073709551616 0 0",
    "admit a m 100 2 16 0 -2147483649 0",
    "admit a m 100 2 16 0 4294967296 0",
    "admit a m 100 2 16 0 0 -9223372036854775809",
    "admit a m 100 2 16 0 0 18446744073709551616",
    "admit a m 100 2 16 0 0 0 -9223372036854775809",
    "admit a m 100 2 16 0 0 0 1 18446744073709551616",
    "admit a m 100 2 16 0 0 0 x",
    "admit a m ten 2 16 0 0 0",
    "invoke",
    "invoke a",
    "invoke a f",
    "invoke a f ",
    "invoke a  f 0",
    "invoke A f 0",
    "invoke a f x",
    "invoke a f -1",
    "invoke a f 18446744073709551616",
    "invoke a f 0 ",
    "invoke a f 0  1",
    "invoke a f 0 +1",
    "invoke a f 0 --1",
    "invoke a f 0 -",
    "invoke a f 0 1-",
    "invoke a f 0 0x1",
    "invoke a f 0 1.0",
    "invoke a f 0 000000000000000000001",
    "invoke a f 0 -100000000000000000000",
    "drain ",
    "drain a",
    "Drain",
    "drains",
    "refuel",
    "refuel a",
    "refuel a x",
    "refuel a -1",
    "refuel a 18446744073709551616",
    "refuel a 1 2",
    "cancel",
    "cancel a b",
    "cancel A",
    "retry",
    "retry a b",
    "scan a",
    "report a",
    "report\t",
    "release",
    "release a b",
    " release a",
];

#[test]
fn other_lines_have_no_shape(rt: HostRuntime) -> Result<(), Fail> {
    let mut script = String::new(rt.alloc());
    let mut replies = String::new(rt.alloc());
    for (line, number) in SHAPELESS.iter().zip(1..1000u32) {
        script.push_str(line)?;
        script.push('\n')?;
        let reply = format!(in rt.alloc(); "error C1 line {number}\n")?;
        replies.push_str(&reply)?;
    }
    expect(&rt, "", &script, &replies)
}

/// Names of modules and of instances, taken, free and unknown. What is looked at first is said.
const NAMES: &[(&str, &str)] = &[
    ("load a seven", "module a ok\n"),
    ("admit a a 100 2 16 0 0 0", "admit a ok 0\n"),
    ("admit b b 100 2 16 0 0 0", "error C2 line 3\n"),
    ("admit a a 100 2 16 0 0 0", "error C3 line 4\n"),
    ("admit a b 100 2 16 0 0 0", "error C2 line 5\n"),
    ("admit a b 100 2 16 0 0 x", "error C1 line 6\n"),
    ("load a seven", "error C3 line 7\n"),
    ("load a nowhere", "error C3 line 8\n"),
    ("load a too_much", "error C3 line 9\n"),
    ("module a 00", "error C3 line 10\n"),
    ("module a 0", "error C1 line 11\n"),
    ("load b nowhere", "error C4 line 12\n"),
    ("load b ../#/no-where!", "error C4 line 13\n"),
    ("load b too_much", "error C5 line 14\n"),
    ("load b empty", "module b refused D3 at 0\n"),
    ("load b cut", "module b refused D3 at 7\n"),
    ("load b unknown_import", "module b refused L1 import 0\n"),
    ("load b other_import", "module b refused L2 import 0\n"),
    ("module b 00", "module b refused D3 at 1\n"),
    ("admit b b 100 2 16 0 0 0", "error C2 line 20\n"),
    ("load b branch", "module b ok\n"),
    ("module b 00", "error C3 line 22\n"),
    ("admit c a 0 2 16 0 0 0", "admit c refused A2\n"),
    ("invoke c f 0", "error C2 line 24\n"),
    ("refuel c 1", "error C2 line 25\n"),
    ("cancel c", "error C2 line 26\n"),
    ("retry c", "error C2 line 27\n"),
    ("release c", "error C2 line 28\n"),
    ("admit c b 100 2 16 0 0 0", "admit c ok 1\n"),
    ("invoke a f 0", ""),
    (
        "invoke d f 0",
        "call 1 done 7 charges 0\nerror C2 line 31\n",
    ),
    ("invoke c f 9", ""),
    ("", ""),
    ("# drain", ""),
    ("drain now", "call 2 done 1 charges 2\nerror C1 line 35\n"),
    ("invoke a f 0", ""),
    (
        "load e nowhere",
        "call 3 done 7 charges 0\nerror C4 line 37\n",
    ),
    ("release a", "release a ok -\n"),
    ("admit a b 100 2 16 0 0 0", "error C3 line 39\n"),
    ("invoke a f 0", ""),
    ("invoke a g 0 1", ""),
    (
        "refuel a 1",
        "call 4 refused H1\ncall 5 refused H1\nrefuel a refused H1\n",
    ),
    ("cancel a", "cancel a refused H1\n"),
    ("retry a", "retry a refused H1\n"),
    ("release a", "release a refused H1\n"),
    ("admit d a 100 2 16 0 0 0", "admit d ok 2\n"),
    ("invoke d f 0", ""),
    ("", "call 6 done 7 charges 0\n"),
];

/// Numbers at the ends of their ranges, and arguments past them.
const NUMBERS: &[(&str, &str)] = &[
    ("load m echo", "module m ok\n"),
    (
        "admit a m 00000000000000000100 00000000000000000002 16 18446744073709551615 -0 -0",
        "admit a ok 0\n",
    ),
    ("invoke a f 10 2147483647", ""),
    ("invoke a f 10 2147483648", ""),
    ("invoke a f 10 4294967295", ""),
    ("invoke a f 10 4294967296", ""),
    ("invoke a f 10 -2147483648", ""),
    ("invoke a f 10 -2147483649", ""),
    ("invoke a f 10 -0", ""),
    ("invoke a f 18446744073709551615 00000000000000000001", ""),
    (
        "drain",
        "call 1 done 2147483647 charges 1\ncall 2 done -2147483648 charges 1\ncall 3 done -1 charges 1\ncall 4 refused H3\ncall 5 done -2147483648 charges 1\ncall 6 refused H3\ncall 7 done 0 charges 1\ncall 8 done 1 charges 1\n",
    ),
    ("invoke a g 10 9223372036854775807", ""),
    ("invoke a g 10 9223372036854775808", ""),
    ("invoke a g 10 18446744073709551615", ""),
    ("invoke a g 10 18446744073709551616", ""),
    ("invoke a g 10 -9223372036854775808", ""),
    ("invoke a g 10 -9223372036854775809", ""),
    ("invoke a g 10 99999999999999999999", ""),
    ("invoke a g 10 -99999999999999999999", ""),
    (
        "drain",
        "call 9 done 9223372036854775807 charges 1\ncall 10 done -9223372036854775808 charges 1\ncall 11 done -1 charges 1\ncall 12 refused H3\ncall 13 done -9223372036854775808 charges 1\ncall 14 refused H3\ncall 15 refused H3\ncall 16 refused H3\n",
    ),
    ("invoke a f 10", ""),
    ("invoke a f 10 1 2", ""),
    ("invoke a #A.b/- 0", ""),
    ("invoke a #A.b/- 0 1", ""),
    ("invoke a #A.b 0 1", ""),
    (
        "",
        "call 17 refused H3\ncall 18 refused H3\ncall 19 done charges 0\ncall 20 refused H3\ncall 21 refused H2\n",
    ),
];

#[test]
fn names_and_numbers_are_looked_at(rt: HostRuntime) -> Result<(), Fail> {
    expect_all(&rt, &[("", NAMES), ("", NUMBERS)])
}

/// Instances that aren't admitted, on 1024 frames and 4096 slots. What is looked at first is said.
const ADMISSIONS: &[(&str, &str)] = &[
    ("load m load", "module m ok\n"),
    ("load none seven", "module none ok\n"),
    ("load data byte_past_end", "module data ok\n"),
    ("load elem entry_past_end", "module elem ok\n"),
    ("admit a m 0 2 16 0 0 0", "admit a refused A2\n"),
    ("admit a m 1000001 2 16 0 0 0", "admit a refused A2\n"),
    (
        "admit a m 18446744073709551615 1 16 0 0 0",
        "admit a refused A2\n",
    ),
    ("admit a m 1 0 16 0 0 0", "admit a refused A3\n"),
    ("admit a m 1 1 16 0 0 0", "admit a refused A3\n"),
    ("admit a m 1 17 16 0 0 0", "admit a refused A3\n"),
    ("admit a m 1 2 65537 0 0 0", "admit a refused A3\n"),
    ("admit a m 1 1025 65537 0 0 0", "admit a refused A3\n"),
    (
        "admit a m 1 18446744073709551615 18446744073709551615 0 0 0",
        "admit a refused A3\n",
    ),
    ("admit a m 1 1025 65536 0 0 0", "admit a refused A4\n"),
    ("admit a m 1 2 65536 0 0 0", "admit a refused A5\n"),
    ("admit a m 1 2 4098 0 0 0", "admit a refused A5\n"),
    ("admit a m 1 2 4097 0 0 0", "admit a ok 0\n"),
    ("admit b m 1 2 2 0 0 0", "admit b refused A5\n"),
    ("release a", "release a ok -\n"),
    ("admit b m 1 2 15 0 0 0", "admit b refused A7\n"),
    ("admit b data 1 2 15 0 0 0", "admit b refused A7\n"),
    ("admit b data 1 2 16 0 0 0", "admit b refused A8\n"),
    ("admit b elem 1 2 2 0 0 0", "admit b refused A8\n"),
    ("admit b none 1000000 1024 1024 0 0 0", "admit b ok 1\n"),
    ("admit c m 1 2 16 0 0 0", "admit c refused A4\n"),
    ("admit c data 1 2 15 0 0 0", "admit c refused A4\n"),
    ("release b", "release b ok -\n"),
    ("admit c none 1 2 2 0 0 0", "admit c ok 2\n"),
];

/// What a released instance was promised is there for the next one.
const PROMISES: &[(&str, &str)] = &[
    ("load m words", "module m ok\n"),
    ("admit a m 100 4 16 0 0 0", "admit a ok 0\n"),
    ("admit b m 100 4 16 0 0 0", "admit b ok 1\n"),
    ("invoke b set8 9 0 1", ""),
    (
        "admit c m 100 2 16 0 0 0",
        "call 1 done charges 3\nadmit c refused A4\n",
    ),
    (
        "report",
        "# frames 8 used 1 free 7\n# slots 64 used 0 free 64\n# shared frames 0 sharers 0\n#     0     100     4    16     0     0     0 -\n#     1     100     4    16     1     1     0 100/1\n",
    ),
    ("release b", "release b ok -\n"),
    ("admit c m 100 2 16 0 0 0", "admit c ok 2\n"),
    ("invoke c get8 9 0", ""),
    (
        "report",
        "call 2 done 0 charges 2\n# frames 8 used 0 free 8\n# slots 64 used 0 free 64\n# shared frames 0 sharers 0\n#     0     100     4    16     0     0     0 -\n#     2     100     2    16     0     0     0 -\n",
    ),
];

#[test]
fn instances_are_admitted_or_refused(rt: HostRuntime) -> Result<(), Fail> {
    expect_all(
        &rt,
        &[("", ADMISSIONS), ("frames = 8\nslots = 64\n", PROMISES)],
    )
}
