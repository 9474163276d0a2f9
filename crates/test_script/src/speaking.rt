//! What instances get from the host, and what they put out.

use crate::running::{expect, expect_all};
use std::test::Fail;

/// A word of 64 bits, the lowest byte first.
const PUT: &[(&str, &str)] = &[
    ("load m speak", "module m ok\n"),
    ("admit a m 100 2 16 0 0 0", "admit a ok 0\n"),
    ("invoke a put 9", ""),
    (
        "release a",
        "call 1 done charges 1\nrelease a ok 0500000000000000\n",
    ),
];

/// Bytes of memory, also across the end of a page of 4096; and those that aren't put out.
const EMIT: &[(&str, &str)] = &[
    ("load m speak", "module m ok\n"),
    ("admit a m 100 2 16 0 0 0", "admit a ok 0\n"),
    ("invoke a set8 9 4095 171", ""),
    ("invoke a set8 9 4096 205", ""),
    ("invoke a emit 9 4095 2", ""),
    ("invoke a emit 9 0 4097", ""),
    ("invoke a emit 9 65535 2", ""),
    ("invoke a emit 9 65535 4097", ""),
    ("invoke a emit 9 65535 1", ""),
    ("invoke a emit 9 65536 0", ""),
    ("invoke a emit 9 65537 0", ""),
    ("invoke a emit 9 -1 -1", ""),
    ("invoke a emit 2 4095 2", ""),
    (
        "refuel a 1",
        "call 1 done charges 3\ncall 2 done charges 3\ncall 3 done charges 3\ncall 4 trap T8 charges 3\ncall 5 trap T4 charges 3\ncall 6 trap T8 charges 3\ncall 7 done charges 3\ncall 8 done charges 3\ncall 9 trap T4 charges 3\ncall 10 trap T8 charges 3\ncall 11 fuel charges 2\nrefuel a ok\n",
    ),
    (
        "release a",
        "call 11 done charges 3\nrelease a ok abcd00abcd\n",
    ),
];

/// An instance without memory.
const NO_MEMORY: &[(&str, &str)] = &[
    ("load m speechless", "module m ok\n"),
    ("admit a m 100 2 16 0 0 0", "admit a ok 0\n"),
    ("invoke a f 9 0 0", ""),
    ("invoke a f 9 0 1", ""),
    ("invoke a f 9 1 0", ""),
    ("invoke a f 9 0 4097", ""),
    (
        "release a",
        "call 1 done charges 3\ncall 2 trap T4 charges 3\ncall 3 trap T4 charges 3\ncall 4 trap T8 charges 3\nrelease a ok -\n",
    ),
];

/// What owners give: inputs, and two words. What the host exports isn't called from a script.
const GIVEN: &[(&str, &str)] = &[
    ("load m given", "module m ok\n"),
    ("admit a m 100 2 16 0 5 -7 10 -1", "admit a ok 0\n"),
    (
        "admit b m 1000000 2 16 0 4294967295 18446744073709551615 -9223372036854775808 18446744073709551615",
        "admit b ok 1\n",
    ),
    (
        "admit c m 100 2 16 0 -2147483648 -9223372036854775808",
        "admit c ok 2\n",
    ),
    ("invoke a at0 9", ""),
    ("invoke a at1 9", ""),
    ("invoke a at2 9", ""),
    ("invoke a last 9", ""),
    ("invoke a base 9", ""),
    ("invoke a salt 9", ""),
    ("invoke a input 9 0", ""),
    ("invoke a b 9", ""),
    (
        "drain",
        "call 1 done 10 charges 1\ncall 2 done -1 charges 1\ncall 3 done 0 charges 1\ncall 4 done 0 charges 1\ncall 5 done 5 charges 1\ncall 6 done -7 charges 1\ncall 7 refused H2\ncall 8 refused H2\n",
    ),
    ("invoke b at0 9", ""),
    ("invoke b at1 9", ""),
    ("invoke b base 9", ""),
    ("invoke b salt 9", ""),
    ("invoke c at0 9", ""),
    ("invoke c base 9", ""),
    ("invoke c salt 9", ""),
    (
        "",
        "call 9 done -9223372036854775808 charges 1\ncall 10 done -1 charges 1\ncall 11 done -1 charges 1\ncall 12 done -1 charges 1\ncall 13 done 0 charges 1\ncall 14 done -2147483648 charges 1\ncall 15 done -9223372036854775808 charges 1\n",
    ),
];

#[test]
fn instances_read_and_write(rt: HostRuntime) -> Result<(), Fail> {
    expect_all(&rt, &[("", PUT), ("", EMIT), ("", NO_MEMORY), ("", GIVEN)])?;
    // A hash by which all pages are equal changes none of these lines.
    let constant = "hash = \"constant\"\n";
    expect_all(&rt, &[(constant, PUT), (constant, EMIT)])
}

const FULL_REQUESTS: &str =
    "invoke a put 9\ninvoke a emit 9 0 1\ninvoke a emit 9 0 0\ninvoke a emit 9 65535 2\ninvoke a emit 9 0 4097\nrelease a\n";

const FULL_REPLIES: &str =
    "call 17 trap T9 charges 1\ncall 18 trap T9 charges 3\ncall 19 done charges 3\ncall 20 trap T4 charges 3\ncall 21 trap T8 charges 3\nrelease a ok ";

#[test]
fn there_is_room_for_65536_bytes(rt: HostRuntime) -> Result<(), Fail> {
    let mut script = String::new(rt.alloc());
    let mut replies = String::new(rt.alloc());
    script.push_str("load m speak\nadmit a m 100 2 16 0 0 0\n")?;
    replies.push_str("module m ok\nadmit a ok 0\n")?;
    for number in 1..17u32 {
        script.push_str("invoke a emit 9 0 4096\n")?;
        let reply = format!(in rt.alloc(); "call {number} done charges 3\n")?;
        replies.push_str(&reply)?;
    }
    script.push_str(FULL_REQUESTS)?;
    replies.push_str(FULL_REPLIES)?;
    for _ in 0..65536u32 {
        replies.push_str("00")?;
    }
    replies.push('\n')?;
    expect(&rt, "", &script, &replies)
}
