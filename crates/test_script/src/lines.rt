//! Lines with the replies that they have to get: how lines are cut and counted, and what makes a module.

use crate::fakes::Trickle;
use crate::running::{expect_each, outcome};
use std::process::Abort;
use std::sync::Wait;
use std::test::Fail;
use std::thread::Threads;
use wh_settings::Settings;

const LONGEST_LINE: usize = 2200000;

/// Scripts, each with the replies that it has to get. The module of 34 bytes gives 7 by its function `f`; that of 90 bytes
/// imports all that the host offers.
const SCRIPTS: [(&[u8], &str); 44] = [
    (b"", ""),
    (b"\n\n", ""),
    (b"# comments", ""),
    (b"# \xff\x80 not text\n#\n", ""),
    (b"module m 0061736d01000000", "module m ok\n"),
    (b"module m 0061736d01000000\n", "module m ok\n"),
    (b"module m 0061736D01000000\n", "module m ok\n"),
    (
        b"module m 0061736d010000000105016000017f03020100070501016600000a0601040041070b\n",
        "module m ok\n",
    ),
    (
        b"module m 0061736d010000000105016000017f03020100070501016600000a070105004187000b\n",
        "module m ok\n",
    ),
    (
        b"module m 0061736d010000000105016000017f03020100070501016600000a0a01080041ffffffff0f0b\n",
        "module m refused D6 at 36\n",
    ),
    (
        b"module m 0061736d010000000105016000017f03020100070501016600000a08010600418001c50b\n",
        "module m refused D8 at 34\n",
    ),
    (
        b"module m 0061736d010000000105016000017f03020100070501016600000a08010600418001c00b\nadmit a m 100 2 16 0 0 0\ninvoke a f 1\n",
        "module m ok\nadmit a ok 0\ncall 1 done -128 charges 1\n",
    ),
    (
        b"module m 0061736d010000000105016000017e03020100070501016600000a0b010900428080808008c40b\nadmit a m 100 2 16 0 0 0\ninvoke a f 1\n",
        "module m ok\nadmit a ok 0\ncall 1 done -2147483648 charges 1\n",
    ),
    (
        b"module m 0061736d010000000105016000017f030201000a0c010a00027f41010c006a0b0b\n",
        "module m ok\n",
    ),
    (
        b"module m 0061736d010000000105016000017f030201000a0e010c00027f41010c0042006a0b0b\n",
        "module m refused V1 func 0 instr 4\n",
    ),
    (
        b"module m 0061736d0100000001040160000003020100070d030161000001620000016100000a040102000b\n",
        "module m refused V6 module\n",
    ),
    (
        b"module m 0061736d01000000010f0360017f017e60017e0060027f7f00023f0504686f73740473616c74037e0004686f737404656d6974000204686f737405696e707574000004686f73740462617365037f0004686f7374037075740001\n",
        "module m ok\n",
    ),
    (
        b"module m 0061736d0100000001060160017f017e02090103656e7601780000\n",
        "module m refused L1 import 0\n",
    ),
    (
        b"module m 0061736d0100000001060160017f017f020e0104686f737405696e7075740000\n",
        "module m refused L2 import 0\n",
    ),
    (
        b"module m 0061736d01000000010a0260017f017e6000017f02090103656e7601780000030201010a040102000b\n",
        "module m refused V4 func 1 instr 0\n",
    ),
    (
        b"module m 0061736d0100000001010005050200000000\nmodule m 0061736d0100000001060160017f017e02090103656e7601780000\nmodule m 0061736d01000000\n",
        "module m refused V8 module\nmodule m refused L1 import 0\nmodule m ok\n",
    ),
    (
        b"module m 0061736d01000000\nmodule m 0061736d0100000001010005050200000000\n",
        "module m ok\nerror C3 line 2\n",
    ),
    (b"module m 0061736d010000\n", "module m refused D3 at 7\n"),
    (b"module m 0061736d02000000\n", "module m refused D2 at 4\n"),
    (
        b"module m 0061736d01000000030100010100\n",
        "module m refused D4 at 11\n",
    ),
    (
        b"module m 00\nmodule m 0061736d01000000\n",
        "module m refused D3 at 1\nmodule m ok\n",
    ),
    (
        b"module m 0061736d01000000\nmodule m 0061736d01000000\nmodule n 00\n",
        "module m ok\nerror C3 line 2\nmodule n refused D3 at 1\n",
    ),
    (
        b"module m 0061736d01000000\nmodule m 0\nmodule m zz\n",
        "module m ok\nerror C1 line 2\nerror C1 line 3\n",
    ),
    (b"module m 0061736d01000000\r\n", "error C1 line 1\n"),
    (b"\tmodule m 0061736d01000000\n", "error C1 line 1\n"),
    (b"module\tm 0061736d01000000\n", "error C1 line 1\n"),
    (b"module  m 0061736d01000000\n", "error C1 line 1\n"),
    (b"module m  0061736d01000000\n", "error C1 line 1\n"),
    (b" module m 0061736d01000000\n", "error C1 line 1\n"),
    (b"module m 0061736d01000000 \n", "error C1 line 1\n"),
    (b"module m \n", "error C1 line 1\n"),
    (b"module m\n", "error C1 line 1\n"),
    (b"module\n", "error C1 line 1\n"),
    (b"module m 0061736d01000000 x\n", "error C1 line 1\n"),
    (b"module m 006\n", "error C1 line 1\n"),
    (b"module m 00g0\n", "error C1 line 1\n"),
    (
        b"module M 00\nmodule m- 00\n",
        "error C1 line 1\nerror C1 line 2\n",
    ),
    (
        b"# one\n\nadmit a m 100 2 16 0 0 0\ndrain\n",
        "error C2 line 3\n",
    ),
    (b"module m \xc3\xa9\n", "error C1 line 1\n"),
];

/// That a script gets these replies, with each number of workers, and a byte at a time too.
fn expect_both(
    rt: &(impl Abort + AllocGlobal + Threads + Wait + Copy + Send + Sync + 'static),
    settings: &Settings,
    script: &[u8],
    replies: &str,
) -> Result<(), Fail> {
    expect_each(rt, settings, script, replies)?;
    let all = Trickle {
        bytes: script,
        fails_after: usize::MAX,
    };
    let (result, written) = outcome(rt, settings, 2, all)?;
    assert_eq!(rt; result, Ok(()), "a byte at a time: {replies}");
    assert_eq!(rt; str::from_utf8(written.as_slice()), Ok(replies));
    Ok(())
}

#[test]
fn scripts_get_their_replies(rt: HostRuntime) -> Result<(), Fail> {
    for (script, replies) in SCRIPTS {
        let settings = Settings::default();
        expect_both(&rt, &settings, script, replies)?;
    }
    Ok(())
}

/// What a script gets with settings as they are by default and four workers, where it has to be answered whole.
fn answered(
    rt: &(impl Abort + AllocGlobal + Threads + Wait + Copy + Send + Sync + 'static),
    script: &[u8],
) -> Result<Vec<u8>, Fail> {
    let settings = Settings::default();
    let (result, written) = outcome(rt, &settings, 4, script)?;
    assert_eq!(rt; result, Ok(()));
    Ok(written)
}

/// That a module whose name has `length` bytes gets a reply that begins so.
fn expect_named(
    rt: &(impl Abort + AllocGlobal + Threads + Wait + Copy + Send + Sync + 'static),
    length: usize,
    reply: &str,
) -> Result<(), Fail> {
    let mut script = b"module ".to_vec(rt.alloc())?;
    for _ in 0..length {
        script.push(b'z')?;
    }
    script.extend_from_slice(b" 0061736d01000000\n")?;
    let written = answered(rt, script.as_slice())?;
    assert!(rt;
        written.as_slice().starts_with(reply.as_bytes()),
        "at {length}"
    );
    Ok(())
}

#[test]
fn names_have_32_bytes_at_most(rt: HostRuntime) -> Result<(), Fail> {
    for (length, reply) in [(32, "module "), (33, "error C1 line 1\n")] {
        expect_named(&rt, length, reply)?;
    }
    Ok(())
}

/// That a line of `length` bytes that begins so gets this reply, and the line after it its own.
fn expect_long(
    rt: &(impl Abort + AllocGlobal + Threads + Wait + Copy + Send + Sync + 'static),
    length: usize,
    first: &[u8],
    reply: &str,
) -> Result<(), Fail> {
    let mut script = first.to_vec(rt.alloc())?;
    for _ in first.len()..length {
        script.push(b'0')?;
    }
    script.extend_from_slice(b"\nmodule n 00\n")?;
    let written = answered(rt, script.as_slice())?;
    let mut replies = reply.as_bytes().to_vec(rt.alloc())?;
    replies.extend_from_slice(b"module n refused D3 at 1\n")?;
    assert_eq!(rt; written.len(), replies.len(), "at {length}");
    assert!(rt; written.as_slice() == replies.as_slice(), "at {length}");
    Ok(())
}

#[test]
fn lines_have_2200000_bytes_at_most(rt: HostRuntime) -> Result<(), Fail> {
    for (length, first, reply) in [
        // An odd number of digits is no line to obey; here they are even.
        (
            LONGEST_LINE,
            b"module mm ",
            "module mm refused D11 at 1048576\n",
        ),
        (LONGEST_LINE + 1, b"module mm ", "error C1 line 1\n"),
        (LONGEST_LINE + 1, b"# comments", ""),
        (3 * LONGEST_LINE, b"# comments", ""),
        (3 * LONGEST_LINE, b"module mm ", "error C1 line 1\n"),
    ] {
        expect_long(&rt, length, first, reply)?;
    }
    Ok(())
}

#[test]
fn all_lines_are_counted(rt: HostRuntime) -> Result<(), Fail> {
    let mut script = Vec::new(rt.alloc());
    let mut replies = Vec::new(rt.alloc());
    for number in 1..30001 {
        if number % 3 == 0 {
            script.extend_from_slice(b"# no line to obey\n")?;
        } else {
            script.extend_from_slice(b"no command\n")?;
            let reply = format!(in rt.alloc(); "error C1 line {number}\n")?;
            replies.extend_from_slice(reply.as_bytes())?;
        }
    }
    let written = answered(&rt, script.as_slice())?;
    assert!(rt; written.as_slice() == replies.as_slice());
    Ok(())
}
