//! What instances share: pages that are merged and copied, pages that leave and come back, and the report on them.

use crate::running::{expect, expect_all, expect_frames, expect_lines};
use std::process::Abort;
use std::sync::Wait;
use std::test::Fail;
use std::thread::Threads;

/// Three instances with one page each, which comes to be equal, then not, and then equal again.
const KEEP: &[(&str, &str)] = &[
    ("load m keep", "module m ok\n"),
    ("admit a m 100 2 16 0 0 0", "admit a ok 0\n"),
    ("admit b m 100 2 16 0 0 0", "admit b ok 1\n"),
    ("admit c m 100 2 16 0 0 0", "admit c ok 2\n"),
    ("invoke a f 10 1", ""),
    ("invoke b f 10 1", ""),
    ("invoke c f 10 1", ""),
    (
        "scan",
        "call 1 done charges 2\ncall 2 done charges 2\ncall 3 done charges 2\nscan ok\n",
    ),
    (
        "report",
        "# frames 1024 used 1 free 1023\n# slots 4096 used 0 free 4096\n# shared frames 1 sharers 3\n#     0     100     2    16     1     1     0 100/1\n#     1     100     2    16     0     0     0 -\n#     2     100     2    16     0     0     0 -\n",
    ),
    ("invoke a f 10 2", ""),
    (
        "report",
        "call 4 done charges 2\n# frames 1024 used 2 free 1022\n# slots 4096 used 0 free 4096\n# shared frames 1 sharers 2\n#     0     100     2    16     1     1     0 100/1\n#     1     100     2    16     1     0     0 100/4\n#     2     100     2    16     0     0     0 -\n",
    ),
    ("invoke a f 10 1", ""),
    ("scan", "call 5 done charges 2\nscan ok\n"),
    (
        "report",
        "# frames 1024 used 1 free 1023\n# slots 4096 used 0 free 4096\n# shared frames 1 sharers 3\n#     0     100     2    16     1     1     0 100/1\n#     1     100     2    16     0     0     0 -\n#     2     100     2    16     0     0     0 -\n",
    ),
    ("scan", "scan ok\n"),
    (
        "report",
        "# frames 1024 used 1 free 1023\n# slots 4096 used 0 free 4096\n# shared frames 1 sharers 3\n#     0     100     2    16     1     1     0 100/1\n#     1     100     2    16     0     0     0 -\n#     2     100     2    16     0     0     0 -\n",
    ),
];

#[test]
fn equal_pages_are_merged_and_copied(rt: HostRuntime) -> Result<(), Fail> {
    expect_lines(&rt, "", KEEP)?;
    // All that isn't set is as by default; the constant hash merges the same here.
    expect_lines(&rt, "hash = \"constant\"\n", KEEP)?;
    expect_lines(
        &rt,
        "frames = 1024\nslots = 4096\ntax_num = 3\ntax_den = 4\nhash = \"fnv64\"\n",
        KEEP,
    )
}

/// A store over both of two merged pages, with one frame free. It needs no more, and neither page is shared after it.
const TWO_PAGES: &[(&str, &str)] = &[
    ("load m words", "module m ok\n"),
    ("admit a m 100 2 16 0 0 0", "admit a ok 0\n"),
    ("invoke a set8 9 0 1", ""),
    ("invoke a set8 9 4096 1", ""),
    (
        "scan",
        "call 1 done charges 3\ncall 2 done charges 3\nscan ok\n",
    ),
    (
        "report",
        "# frames 2 used 1 free 1\n# slots 15 used 0 free 15\n# shared frames 1 sharers 2\n#     0     100     2    16     1     1     0 100/1\n",
    ),
    ("invoke a set 9 4092 578437695752307201", ""),
    (
        "report",
        "call 3 done charges 3\n# frames 2 used 2 free 0\n# slots 15 used 0 free 15\n# shared frames 0 sharers 0\n#     0     100     2    16     2     2     0 100/2\n",
    ),
    ("invoke a get 9 4092", ""),
    ("invoke a get8 9 0", ""),
    ("invoke a get8 9 4095", ""),
    ("invoke a get8 9 4096", ""),
    (
        "",
        "call 4 done 578437695752307201 charges 2\ncall 5 done 1 charges 2\ncall 6 done 4 charges 2\ncall 7 done 5 charges 2\n",
    ),
];

/// A page that is looked at, changes, and another gets what it held: that one is found by it from then on, and the page by
/// what it holds now.
const STALE: &[(&str, &str)] = &[
    ("load m words", "module m ok\n"),
    ("admit a m 100 2 16 0 0 0", "admit a ok 0\n"),
    ("invoke a set8 9 4096 1", ""),
    ("scan", "call 1 done charges 3\nscan ok\n"),
    ("invoke a set8 9 4096 2", ""),
    ("invoke a set8 9 0 1", ""),
    (
        "scan",
        "call 2 done charges 3\ncall 3 done charges 3\nscan ok\n",
    ),
    (
        "report",
        "# frames 1024 used 2 free 1022\n# slots 4096 used 0 free 4096\n# shared frames 0 sharers 0\n#     0     100     2    16     2     2     0 100/2\n",
    ),
    ("invoke a set8 9 8192 1", ""),
    ("scan", "call 4 done charges 3\nscan ok\n"),
    (
        "report",
        "# frames 1024 used 2 free 1022\n# slots 4096 used 0 free 4096\n# shared frames 1 sharers 2\n#     0     100     2    16     2     1     0 100/5\n",
    ),
    ("invoke a set8 9 12288 2", ""),
    ("scan", "call 5 done charges 3\nscan ok\n"),
    (
        "report",
        "# frames 1024 used 2 free 1022\n# slots 4096 used 0 free 4096\n# shared frames 2 sharers 4\n#     0     100     2    16     2     1     0 100/5\n",
    ),
];

/// A page of zeros takes no frame once it was looked at.
const ZEROS: &[(&str, &str)] = &[
    ("load m words", "module m ok\n"),
    ("admit a m 100 2 16 0 0 0", "admit a ok 0\n"),
    (
        "report",
        "# frames 1024 used 0 free 1024\n# slots 4096 used 0 free 4096\n# shared frames 0 sharers 0\n#     0     100     2    16     0     0     0 -\n",
    ),
    ("invoke a set8 9 0 0", ""),
    ("scan", "call 1 done charges 3\nscan ok\n"),
    (
        "report",
        "# frames 1024 used 0 free 1024\n# slots 4096 used 0 free 4096\n# shared frames 0 sharers 0\n#     0     100     2    16     0     0     0 -\n",
    ),
];

/// Before, it takes one or none.
const ZEROS_BEFORE: &[(&str, &str)] = &[
    ("load m words", "module m ok\n"),
    ("admit a m 100 2 16 0 0 0", "admit a ok 0\n"),
    ("invoke a set8 9 0 0", ""),
    ("report", "call 1 done charges 3\n"),
    ("invoke a get8 9 0", ""),
    ("report", "call 2 done 0 charges 2\n"),
];

/// Under one hash for all, pages are held against the first that was looked at, and against no other. Whichever that is,
/// none gets the bytes of another: of three pages with two contents two or three frames are in use.
const ONE_HASH: &[(&str, &str)] = &[
    ("load m words", "module m ok\n"),
    ("admit a m 100 2 16 0 0 0", "admit a ok 0\n"),
    ("invoke a set8 9 0 1", ""),
    ("invoke a set8 9 4096 2", ""),
    ("invoke a set8 9 8192 2", ""),
    (
        "scan",
        "call 1 done charges 3\ncall 2 done charges 3\ncall 3 done charges 3\nscan ok\n",
    ),
    ("report", ""),
    ("invoke a set8 9 4096 1", ""),
    ("scan", "call 4 done charges 3\nscan ok\n"),
    ("report", ""),
    ("invoke a get8 9 0", ""),
    ("invoke a get8 9 4096", ""),
    ("invoke a get8 9 8192", ""),
    (
        "",
        "call 5 done 1 charges 2\ncall 6 done 1 charges 2\ncall 7 done 2 charges 2\n",
    ),
];

/// A place is used again by an instance with a higher number than one after it. Pages are looked at by instance number:
/// that of the earlier one is the first under the one hash, and neither of the later one's is merged with it or with
/// the other. The first page of the later one isn't written, since a scanner beside the calls may look at it before the
/// pass.
const PLACE_USED_AGAIN: &[(&str, &str)] = &[
    ("load m words", "module m ok\n"),
    ("admit a m 100 2 16 0 0 0", "admit a ok 0\n"),
    ("admit b m 100 2 16 0 0 0", "admit b ok 1\n"),
    ("release a", "release a ok -\n"),
    ("admit c m 100 2 16 0 0 0", "admit c ok 2\n"),
    ("invoke b set8 9 0 1", ""),
    ("invoke c set8 9 4096 2", ""),
    ("invoke c set8 9 8192 2", ""),
    (
        "scan",
        "call 1 done charges 3\ncall 2 done charges 3\ncall 3 done charges 3\nscan ok\n",
    ),
    (
        "report",
        "# frames 1024 used 3 free 1021\n# slots 4096 used 0 free 4096\n# shared frames 0 sharers 0\n#     1     100     2    16     1     1     0 100/1\n#     2     100     2    16     2     2     0 100/2\n",
    ),
    ("invoke b get8 9 0", ""),
    ("invoke c get8 9 4096", ""),
    ("invoke c get8 9 8192", ""),
    (
        "",
        "call 4 done 1 charges 2\ncall 5 done 2 charges 2\ncall 6 done 2 charges 2\n",
    ),
];

/// Under a hash that tells contents apart its two pages are merged, as they are whatever the order.
const PLACE_USED_AGAIN_APART: &[(&str, &str)] = &[
    ("load m words", "module m ok\n"),
    ("admit a m 100 2 16 0 0 0", "admit a ok 0\n"),
    ("admit b m 100 2 16 0 0 0", "admit b ok 1\n"),
    ("release a", "release a ok -\n"),
    ("admit c m 100 2 16 0 0 0", "admit c ok 2\n"),
    ("invoke b set8 9 0 1", ""),
    ("invoke c set8 9 4096 2", ""),
    ("invoke c set8 9 8192 2", ""),
    (
        "scan",
        "call 1 done charges 3\ncall 2 done charges 3\ncall 3 done charges 3\nscan ok\n",
    ),
    (
        "report",
        "# frames 1024 used 2 free 1022\n# slots 4096 used 0 free 4096\n# shared frames 1 sharers 2\n#     1     100     2    16     1     1     0 100/1\n#     2     100     2    16     1     1     0 100/1\n",
    ),
];

#[test]
fn pages_are_looked_at_in_order(rt: HostRuntime) -> Result<(), Fail> {
    expect_all(
        &rt,
        &[
            ("frames = 2\nslots = 15\n", TWO_PAGES),
            ("", STALE),
            ("", ZEROS),
            ("hash = \"constant\"\n", PLACE_USED_AGAIN),
            ("", PLACE_USED_AGAIN_APART),
        ],
    )?;
    expect_frames(&rt, "", ZEROS_BEFORE, 0, 1)?;
    expect_frames(&rt, "hash = \"constant\"\n", ONE_HASH, 2, 3)
}

/// An instance that is alone with two frames gives up pages of its own.
const ALONE: &[(&str, &str)] = &[
    ("load m words", "module m ok\n"),
    ("admit a m 100 2 16 0 0 0", "admit a ok 0\n"),
    ("invoke a set8 9 0 1", ""),
    ("invoke a set8 9 4096 2", ""),
    ("invoke a set8 9 8192 3", ""),
    (
        "report",
        "call 1 done charges 3\ncall 2 done charges 3\ncall 3 done charges 3\n# frames 2 used 2 free 0\n# slots 15 used 1 free 14\n# shared frames 0 sharers 0\n#     0     100     2    16     2     2     1 100/2\n",
    ),
    ("invoke a get8 9 0", ""),
    (
        "report",
        "call 4 done 1 charges 2\n# frames 2 used 2 free 0\n# slots 15 used 1 free 14\n# shared frames 0 sharers 0\n#     0     100     2    16     2     1     1 100/5\n",
    ),
    ("invoke a get8 9 4096", ""),
    ("invoke a get8 9 8192", ""),
    ("", "call 5 done 2 charges 2\ncall 6 done 3 charges 2\n"),
];

/// Two instances on four frames. The one with more than it is promised gives up a page; the other one, once both have as
/// much, one of its own. What an instance held is free when it is released.
const TWO: &[(&str, &str)] = &[
    ("load m words", "module m ok\n"),
    ("admit a m 100 2 16 0 0 0", "admit a ok 0\n"),
    ("admit b m 100 2 16 0 0 0", "admit b ok 1\n"),
    ("invoke a set8 9 0 1", ""),
    ("invoke a set8 9 4096 2", ""),
    ("invoke a set8 9 8192 3", ""),
    ("invoke b set8 9 0 4", ""),
    (
        "report",
        "call 1 done charges 3\ncall 2 done charges 3\ncall 3 done charges 3\ncall 4 done charges 3\n# frames 4 used 4 free 0\n# slots 64 used 0 free 64\n# shared frames 0 sharers 0\n#     0     100     2    16     3     3     0 100/3\n#     1     100     2    16     1     1     0 100/1\n",
    ),
    ("invoke b set8 9 4096 5", ""),
    (
        "report",
        "call 5 done charges 3\n# frames 4 used 4 free 0\n# slots 64 used 1 free 63\n# shared frames 0 sharers 0\n#     0     100     2    16     2     0     1 100/2\n#     1     100     2    16     2     1     0 100/2\n",
    ),
    ("invoke a get8 9 0", ""),
    (
        "report",
        "call 6 done 1 charges 2\n# frames 4 used 4 free 0\n# slots 64 used 1 free 63\n# shared frames 0 sharers 0\n#     0     100     2    16     2     1     1 100/2\n#     1     100     2    16     2     0     0 100/2\n",
    ),
    ("release a", "release a ok -\n"),
    (
        "report",
        "# frames 4 used 2 free 2\n# slots 64 used 0 free 64\n# shared frames 0 sharers 0\n#     1     100     2    16     2     0     0 100/2\n",
    ),
    ("admit c m 7 2 16 0 0 0", "admit c ok 2\n"),
    (
        "report",
        "# frames 4 used 2 free 2\n# slots 64 used 0 free 64\n# shared frames 0 sharers 0\n#     1     100     2    16     2     0     0 100/2\n#     2       7     2    16     0     0     0 -\n",
    ),
];

#[test]
fn pages_leave_and_come_back(rt: HostRuntime) -> Result<(), Fail> {
    expect_all(
        &rt,
        &[
            ("frames = 2\nslots = 15\n", ALONE),
            ("frames = 4\nslots = 64\ntax_num = 0\ntax_den = 1\n", TWO),
        ],
    )
}

/// Five pages with five contents, of which two are touched, under a tax.
const SHARES: &[(&str, &str)] = &[
    ("load m words", "module m ok\n"),
    ("admit a m 1000000 2 16 0 0 0", "admit a ok 0\n"),
    ("invoke a set8 9 0 1", ""),
    ("invoke a set8 9 4096 2", ""),
    ("invoke a set8 9 8192 3", ""),
    ("invoke a set8 9 12288 4", ""),
    ("invoke a set8 9 16384 5", ""),
    (
        "drain",
        "call 1 done charges 3\ncall 2 done charges 3\ncall 3 done charges 3\ncall 4 done charges 3\ncall 5 done charges 3\n",
    ),
    ("invoke a get8 9 0", ""),
    ("invoke a get8 9 4096", ""),
    (
        "drain",
        "call 6 done 1 charges 2\ncall 7 done 2 charges 2\n",
    ),
];

/// Taxes, and what the report says then of those shares.
const TAXES: [(&str, &str); 3] = [
    ("tax_num = 0\ntax_den = 1\n", "1000000/5"),
    ("tax_num = 999\ntax_den = 1000\n", "1000000/3002"),
    ("", "1000000/14"),
];

/// That the report says this of the shares by pages, with these settings.
fn expect_share(
    rt: &(impl Abort + AllocGlobal + Threads + Wait + Copy + Send + Sync + 'static),
    settings: &str,
    rho: &str,
) -> Result<(), Fail> {
    let mut script = String::new(rt.alloc());
    let mut replies = String::new(rt.alloc());
    for (line, reply) in SHARES {
        script.push_str(line)?;
        script.push('\n')?;
        replies.push_str(reply)?;
    }
    script.push_str("report\n")?;
    let report = format!(in rt.alloc();
        "# frames 1024 used 5 free 1019\n# slots 4096 used 0 free 4096\n# shared frames 0 sharers 0\n#     0 1000000     2    16     5     2     0 {rho}\n"
    )?;
    replies.push_str(&report)?;
    expect(rt, settings, &script, &replies)
}

#[test]
fn the_report_shows_shares_by_pages(rt: HostRuntime) -> Result<(), Fail> {
    for (settings, rho) in TAXES {
        expect_share(&rt, settings, rho)?;
    }
    Ok(())
}

/// Memories of 1025 pages of 65536 bytes. `st` stores a word; `run` counts to a number, reads a word halfway, and returns it.
const HIGH: &str =
    "module m 0061736d01000000010c0260027f7e0060027f7f017f0303020001050401008108070c0202737400000372756e00010a33020900200020013700000b2701027f034020022000410176460440200128000021030b200241016a22022000490d000b20030b\n";

/// What two instances of this module do at 2^26, where page 16384 begins, the second time for long enough to be run side by
/// side.
const HIGH_CALLS: &str =
    "admit a m 100 2 16400 0 0 0\nadmit b m 100 2 16400 0 0 0\ninvoke a st 10 67108864 5\ninvoke b st 10 67108864 6\ndrain\ninvoke a run 100000000 200000 67108864\ninvoke b run 100000000 200000 67108864\nreport\n";

/// What they get. The pages were read, and so are touched.
const HIGH_REPLIES: &str =
    "module m ok\nadmit a ok 0\nadmit b ok 1\ncall 1 done charges 3\ncall 2 done charges 3\ncall 3 done 5 charges 2400004\ncall 4 done 6 charges 2400004\n# frames 1024 used 2 free 1022\n# slots 65536 used 0 free 65536\n# shared frames 0 sharers 0\n#     0     100     2 16400     1     1     0 100/1\n#     1     100     2 16400     1     1     0 100/1\n";

#[test]
fn pages_above_64_mb_are_touched_where_they_are_read(rt: HostRuntime) -> Result<(), Fail> {
    let script = format!(in rt.alloc(); "{HIGH}{HIGH_CALLS}")?;
    expect(&rt, "slots = 65536\n", &script, HIGH_REPLIES)
}

/// `f` writes a word to each of 256 pages in turn, again and again: more pages than an instance may write in a round.
const WALK: &str =
    "module m 0061736d0100000001060160017f017f030201000503010010070501016600000a26012401027f03402001410c7441ffff3f712001360000200141016a22012000490d000b20020b\n";

/// What three instances of this module do, for long enough to be run side by side.
const WALKS: &str =
    "admit i0 m 100 2 256 0 0 0\nadmit i1 m 100 2 256 0 0 0\nadmit i2 m 100 2 256 0 0 0\ninvoke i0 f 100000000 100000\ninvoke i1 f 100000000 100000\ninvoke i2 f 100000000 100000\n";

/// What they get: twelve instructions a page, and one in the end.
const WALK_REPLIES: &str =
    "module m ok\nadmit i0 ok 0\nadmit i1 ok 1\nadmit i2 ok 2\ncall 1 done 0 charges 1200001\ncall 2 done 0 charges 1200001\ncall 3 done 0 charges 1200001\n";

#[test]
fn many_pages_written_in_turn_are_written_by_any_workers(rt: HostRuntime) -> Result<(), Fail> {
    let script = format!(in rt.alloc(); "{WALK}{WALKS}")?;
    expect(&rt, "frames = 2048\n", &script, WALK_REPLIES)
}
