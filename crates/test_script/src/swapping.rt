//! Scripts whose pages are swapped to a device that goes wrong.

ghost use Rattle.std.specs.Prelude.{◌≡◌, [], replicate, IfOk};
ghost use Rattle.wh_swap.specs.Written.{page_held};

use crate::fakes::Shelf;
use std::alloc::{AllocError, Global};
use std::io;
use std::process::Abort;
use std::sync::Wait;
use std::test::Fail;
use std::thread::Threads;
use wh_script::{ScriptFault, run_script};
use wh_settings::{Settings, Workers, read_settings};
use wh_streams::{WatchedRead, WatchedWrite};
use wh_swap::{PageSwap, Pages};

/// What becomes of a read or a write.
#[derive(Clone, Copy, PartialEq, Eq)]
enum Fate {
    Fine,
    Fails,
    Damaged,
}

use Fate::{Damaged, Fails, Fine};

/// The first ones are fine, others after them have this fate, and all further ones are fine.
#[derive(Clone, Copy)]
struct Fates {
    fine: u32,
    others: u32,
    fate: Fate,
}

impl Fates {
    /// The fate that is next.
    fn next(&mut self) -> Fate {
        if self.fine > 0 {
            self.fine -= 1;
            return Fine;
        }
        if self.others > 0 {
            self.others -= 1;
            return self.fate;
        }
        Fine
    }
}

/// All are fine.
const ALL_FINE: Fates = Fates {
    fine: 0,
    others: 0,
    fate: Fine,
};

/// The first one fails.
const FIRST_FAILS: Fates = Fates {
    fine: 0,
    others: 1,
    fate: Fails,
};

/// Two are damaged.
const TWO_DAMAGED: Fates = Fates {
    fine: 0,
    others: 2,
    fate: Damaged,
};

/// Pages whose reads and writes have these fates.
struct Worn {
    pages: Vec<[u8; 4096]>,
    reads: Fates,
    writes: Fates,
}

impl Drop for Worn {
    fn drop(self) {
        let Worn {
            pages: _,
            reads: _,
            writes: _,
        } = self;
    }
}

impl Pages for Worn {
    ghost tells = { λ _. ⊥ };

    ghost page = { λ _ _. [] };

    fn get(&mut self, at: u32, into: &mut [u8; 4096]) -> io::Result<()> {
        let fate = self.reads.next();
        let Some(bytes) = self.pages.get(at as usize) else {
            return Err(io::ErrorKind::UnexpectedEof.into());
        };
        if fate == Fails {
            return Err(io::ErrorKind::Other.into());
        }
        *into = *bytes;
        if fate == Damaged {
            into[4095] ^= 1;
        }
        Ok(())
    }

    fn put(&mut self, at: u32, from: &[u8; 4096]) -> io::Result<()> {
        let fate = self.writes.next();
        if fate != Fine || at as usize >= self.pages.len() {
            return Err(io::ErrorKind::Other.into());
        }
        self.pages[at as usize] = *from;
        Ok(())
    }
}

/// A device over `slots` pages, whose reads and writes have these fates.
fn make_worn(
    alloc: Global,
    slots: u32,
    reads: Fates,
    writes: Fates,
) -> Result<PageSwap<Worn>, AllocError>
    ensures held { IfOk result (λ device. page_held device ≡ replicate slots []) }
{
    let pages = vec![in alloc; [0; 4096]; slots as usize]?;
    let worn = Worn {
        pages,
        reads,
        writes,
    };
    PageSwap::over(alloc, worn, slots)
}

/// Runs a script with these settings and `number` workers, on such pages.
fn run_worn(
    rt: &(impl AllocGlobal + Threads + Wait + Copy + Send + Sync + 'static),
    settings: &Settings,
    number: u8,
    script: &str,
    fates: [Fates; 2],
    written: &mut Vec<u8>,
) -> Result<Result<(), ScriptFault>, AllocError> {
    let alloc = rt.alloc();
    let [reads, writes] = fates;
    let device = make_worn(alloc, settings.slots, reads, writes)?;
    let workers = Workers::new(number).unwrap_or(Workers::default());
    let mut reader = WatchedRead::new(script.as_bytes());
    let mut writer = WatchedWrite::new(written);
    let (result, _, _) = run_script(
        *rt,
        alloc,
        settings,
        workers,
        &Shelf,
        device,
        &mut reader,
        &mut writer,
    );
    Ok(result)
}

/// What is written in answer to a script, with these settings and `number` workers, on such pages.
fn answered(
    rt: &(impl AllocGlobal + Threads + Wait + Copy + Send + Sync + 'static),
    settings: &str,
    number: u8,
    script: &str,
    reads: Fates,
    writes: Fates,
) -> Result<Vec<u8>, Fail> {
    let alloc = rt.alloc();
    let settings = read_settings(alloc, settings.as_bytes())?;
    let mut written = Vec::new(alloc);
    run_worn(rt, &settings, number, script, [reads, writes], &mut written)??;
    Ok(written)
}

/// Scripts on such pages, by what becomes of reads and writes, and their replies. After three pages of one instance
/// that were stored the first is loaded.
const WORN: [(Fates, Fates, &str, &str); 3] = [
    (
        FIRST_FAILS,
        ALL_FINE,
        "retry a\n",
        "call 1 done charges 3\ncall 2 done charges 3\ncall 3 done charges 3\ncall 4 frame S1 charges 1\nretry a ok\ncall 4 done 1 charges 2\n",
    ),
    (
        ALL_FINE,
        FIRST_FAILS,
        "retry a\n",
        "call 1 done charges 3\ncall 2 done charges 3\ncall 3 frame S2 charges 2\ncall 4 queued\nretry a ok\ncall 3 done charges 3\ncall 4 done 1 charges 2\n",
    ),
    // The call's line is the same at the second try, and isn't printed again.
    (
        TWO_DAMAGED,
        ALL_FINE,
        "retry a\nretry a\n",
        "call 1 done charges 3\ncall 2 done charges 3\ncall 3 done charges 3\ncall 4 frame S3 charges 1\nretry a ok\nretry a ok\ncall 4 done 1 charges 2\n",
    ),
];

const STORES: &str =
    "load m words\nadmit a m 100 2 16 0 0 0\ninvoke a set8 9 0 1\ninvoke a set8 9 4096 2\ninvoke a set8 9 8192 3\ninvoke a get8 9 0\n";

const ADMITTED: &str = "module m ok\nadmit a ok 0\n";

/// That `STORES` and these tries get these replies after `ADMITTED`, where reads and writes have these fates.
fn expect_worn(
    rt: &(impl Abort + AllocGlobal + Threads + Wait + Copy + Send + Sync + 'static),
    reads: Fates,
    writes: Fates,
    retries: &str,
    replies: &str,
) -> Result<(), Fail> {
    let script = format!(in rt.alloc(); "{STORES}{retries}")?;
    let wanted = format!(in rt.alloc(); "{ADMITTED}{replies}")?;
    let settings = "frames = 2\nslots = 15\n";
    let written = answered(rt, settings, 2, &script, reads, writes)?;
    assert_eq!(rt; str::from_utf8(written.as_slice()), Ok(wanted.as_str()));
    Ok(())
}

#[test]
fn a_call_waits_for_another_try(rt: HostRuntime) -> Result<(), Fail> {
    for (reads, writes, retries, replies) in WORN {
        expect_worn(&rt, reads, writes, retries, replies)?;
    }
    Ok(())
}

/// Two instances store three pages each on four frames, and load them; where the device failed they try again.
const PAIR: &str =
    "load m words\nadmit a m 100 2 16 0 0 0\nadmit b m 100 2 16 0 0 0\ninvoke a set8 9 0 1\ninvoke b set8 9 0 4\ninvoke a set8 9 4096 2\ninvoke b set8 9 4096 5\ninvoke a set8 9 8192 3\ninvoke b set8 9 8192 6\ninvoke a get8 9 0\ninvoke b get8 9 0\ninvoke a get8 9 4096\ninvoke b get8 9 4096\ninvoke a get8 9 8192\ninvoke b get8 9 8192\nretry a\nretry b\nretry a\nretry b\n";

/// What each load gets in the end.
const LOADED: [&str; 6] = [
    "call 7 done 1 charges 2\n",
    "call 8 done 4 charges 2\n",
    "call 9 done 2 charges 2\n",
    "call 10 done 5 charges 2\n",
    "call 11 done 3 charges 2\n",
    "call 12 done 6 charges 2\n",
];

/// That each line of a call that has ended is one of those that it gets where no device fails, whatever was tried again before.
fn expect_ended(rt: &impl Abort, written: &str, faultless: &str) -> Result<(), Fail> {
    for line in written.split_terminator('\n') {
        let stands = line.contains(" frame S")
            || line.contains(" queued")
            || line.contains(" fuel ");
        if line.starts_with("call ") && !stands {
            assert!(rt; faultless.contains(line), "{line}");
        }
    }
    Ok(())
}

/// Whether the device failed on the way, and each load gets its byte all the same, as where it doesn't fail.
fn all_is_loaded(rt: &impl Abort, written: &[u8], faultless: &[u8]) -> Result<bool, Fail> {
    let text = str::from_utf8(written)?;
    for line in LOADED {
        assert!(rt; text.contains(line), "{line}");
    }
    expect_ended(rt, text, str::from_utf8(faultless)?)?;
    Ok(text.contains("frame S"))
}

/// The script of two instances, on a device of which these reads and writes fail, by `number` workers. Whether it
/// failed on the way.
fn fails_so(
    rt: &(impl Abort + AllocGlobal + Threads + Wait + Copy + Send + Sync + 'static),
    number: u8,
    reads: Fates,
    writes: Fates,
) -> Result<bool, Fail> {
    let settings = "frames = 4\nslots = 30\nquantum = 1\n";
    let faultless = answered(rt, settings, number, PAIR, ALL_FINE, ALL_FINE)?;
    let written = answered(rt, settings, number, PAIR, reads, writes)?;
    all_is_loaded(rt, &written, &faultless)
}

/// Each of the first forty reads and writes fails in turn, once, and once more when it is tried again, while 1, 2 and 8 workers
/// run: what has ended has ended as it does where none fails, and no byte is lost.
#[test]
fn each_call_of_a_device_may_fail(rt: HostRuntime) -> Result<(), Fail> {
    let mut failures: u32 = 0;
    for number in [1, 2, 8] {
        for others in 1..3 {
            for fine in 0..40 {
                let fates = Fates {
                    fine,
                    others,
                    fate: Fails,
                };
                for (reads, writes) in [(fates, ALL_FINE), (ALL_FINE, fates)] {
                    if fails_so(&rt, number, reads, writes)? {
                        failures = failures.saturating_add(1);
                    }
                }
            }
        }
    }
    // At least two pages leave, and one comes back.
    assert!(rt; failures >= 18);
    Ok(())
}
