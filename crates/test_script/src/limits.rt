//! As many calls and modules as there may be, and one more.

use crate::running::expect;
use std::test::Fail;

#[test]
fn calls_may_wait_behind_1023_others(rt: HostRuntime) -> Result<(), Fail> {
    let mut script = String::new(rt.alloc());
    let mut replies = String::new(rt.alloc());
    script.push_str("load m seven\nadmit a m 100 2 16 0 0 0\nadmit b m 100 2 16 0 0 0\n")?;
    replies.push_str("module m ok\nadmit a ok 0\nadmit b ok 1\n")?;
    for number in 1..1025u32 {
        script.push_str("invoke a f 0\n")?;
        let reply = format!(in rt.alloc(); "call {number} done 7 charges 0\n")?;
        replies.push_str(&reply)?;
    }
    script.push_str("invoke a f 0\ninvoke a g 0\ninvoke b f 0\ndrain\ninvoke a f 0\n")?;
    replies.push_str(
        "call 1025 refused H4\ncall 1026 refused H2\ncall 1027 done 7 charges 0\ncall 1028 done 7 charges 0\n",
    )?;
    expect(&rt, "", &script, &replies)
}

#[test]
fn a_host_has_1024_modules(rt: HostRuntime) -> Result<(), Fail> {
    let mut script = String::new(rt.alloc());
    let mut replies = String::new(rt.alloc());
    for number in 0..1024u32 {
        let line = format!(in rt.alloc(); "module m{number} 0061736d01000000\n")?;
        script.push_str(&line)?;
        let reply = format!(in rt.alloc(); "module m{number} ok\n")?;
        replies.push_str(&reply)?;
    }
    script.push_str(
        "module n 0061736d01000000\nmodule n 00\nload n seven\nmodule m0 00\nadmit a n 100 2 16 0 0 0\nadmit a m1023 100 2 16 0 0 0\n",
    )?;
    replies.push_str(
        "module n refused M1\nmodule n refused D3 at 1\nmodule n refused M1\nerror C3 line 1028\nerror C2 line 1029\nadmit a ok 0\n",
    )?;
    expect(&rt, "frames = 2\nslots = 15\n", &script, &replies)
}
