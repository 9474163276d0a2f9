//! Hints, merges, breaks and stale hints, alone and beside other instances.

use crate::clock::since;
use crate::pages::{enter, memory_of, write};
use anyhow::{Context, Result, ensure};
use std::alloc::Global;
use std::time::{CpuClock, Duration};
use wh_kernels::{FnvHash, PageHash};
use wh_scan::{offer_at, scan_page, take};
use wh_space::Memory;
use wh_space_model::Offer;

// How many contents there are, each of three pages of the first instance.
const CONTENTS: u32 = 340;

// How many pages of 65536 bytes that instance has: room for the contents, and for two pages more.
const SIZE: u32 = 64;

const ROUNDS: u32 = 20;

// How long each kind of move took at best, of all contents.
#[derive(Clone, Copy)]
struct Times {
    hint: Duration,
    pair: Duration,
    join: Duration,
    copy: Duration,
    last: Duration,
    stale: Duration,
}

// The hash of a page that has a frame of its own.
fn hash_of(memory: &Memory, page: u32) -> Result<u64> {
    let sample = take(memory, 0, page).context("it has no frame")?;
    Ok(FnvHash.hash(&sample.bytes))
}

fn offered(memory: &mut Memory, page: u32, hash: u64, wanted: Offer) -> Result<()> {
    ensure!(memory.has_few_pages(), "there are too many pages");
    let answer = offer_at(memory, &FnvHash, 0, page, hash);
    ensure!(answer == wanted, "the offer came to {answer:?}");
    Ok(())
}

// Offers one of the three pages of each content, from this page on.
fn offer_all(
    rt: &impl CpuClock,
    memory: &mut Memory,
    hashes: &[u64],
    first: u32,
    wanted: Offer,
) -> Result<Duration> {
    let mut page = first;
    let before = rt.thread_cpu_time()?;
    for hash in hashes {
        offered(memory, page, *hash, wanted)?;
        page = page.wrapping_add(3);
    }
    since(rt, before)
}

// Writes one of the three pages of each content, from this page on, with the bytes that it has.
fn write_all(rt: &impl CpuClock, memory: &mut Memory, first: u32) -> Result<Duration> {
    let mut page = first;
    let before = rt.thread_cpu_time()?;
    for content in 0..CONTENTS {
        write(memory, 0, page, u64::from(content).wrapping_add(1))?;
        page = page.wrapping_add(3);
    }
    since(rt, before)
}

// The last two pages take the hint of one hash from each other, since the page of the hint has another hash.
fn stales(rt: &impl CpuClock, memory: &mut Memory) -> Result<Duration> {
    let before = rt.thread_cpu_time()?;
    for content in 0..CONTENTS {
        offered(memory, 3 * CONTENTS + content % 2, 5, Offer::Stale)?;
    }
    since(rt, before)
}

// Makes all pages of the first instance, and gives the hash of each content.
fn hashes_of(alloc: Global, memory: &mut Memory) -> Result<Vec<u64>> {
    let mut hashes = Vec::new(alloc);
    for content in 0..CONTENTS {
        for page in 0..3 {
            write(
                memory,
                0,
                3 * content + page,
                u64::from(content).wrapping_add(1),
            )?;
        }
        hashes.push(hash_of(memory, 3 * content)?)?;
    }
    for page in 0..2 {
        write(
            memory,
            0,
            3 * CONTENTS + page,
            u64::from(page).wrapping_add(10000),
        )?;
    }
    offered(memory, 3 * CONTENTS + 1, 5, Offer::Hinted)?;
    Ok(hashes)
}

// Of each content a page is hinted at, the next is merged with it, and a third joins them; then all are broken again, the
// first one last.
fn round(rt: &impl CpuClock, memory: &mut Memory, hashes: &[u64], best: Times) -> Result<Times> {
    let hint = offer_all(rt, memory, hashes, 0, Offer::Hinted)?;
    let pair = offer_all(rt, memory, hashes, 1, Offer::Merged)?;
    let join = offer_all(rt, memory, hashes, 2, Offer::Merged)?;
    ensure!(
        memory.sharing() == (CONTENTS, u64::from(3 * CONTENTS)),
        "other pages share"
    );
    let copy = write_all(rt, memory, 2)?.min(write_all(rt, memory, 1)?);
    let last = write_all(rt, memory, 0)?;
    ensure!(memory.sharing() == (0, 0), "pages share still");
    let stale = stales(rt, memory)?;
    Ok(Times {
        hint: best.hint.min(hint),
        pair: best.pair.min(pair),
        join: best.join.min(join),
        copy: best.copy.min(copy),
        last: best.last.min(last),
        stale: best.stale.min(stale),
    })
}

// Admits `instances` instances. Each but the first has a page with a content of its own, which is a hint.
fn enter_all(alloc: Global, memory: &mut Memory, instances: u32) -> Result<()> {
    enter(alloc, memory, 0, SIZE)?;
    for place in 1..instances {
        enter(alloc, memory, place as usize, 1)?;
        let number = u64::from(place).wrapping_add(1000000);
        write(memory, place as usize, 15, number)?;
        ensure!(memory.has_few_pages(), "there are too many pages");
        let answer = scan_page(memory, &FnvHash, place, 15);
        ensure!(answer == Offer::Hinted, "the offer came to {answer:?}");
    }
    Ok(())
}

// The best times of all rounds, in a memory in which nobody is yet.
fn best_of(
    rt: &impl CpuClock,
    alloc: Global,
    memory: &mut Memory,
    instances: u32,
) -> Result<Times> {
    enter_all(alloc, memory, instances)?;
    let hashes = hashes_of(alloc, memory)?;
    let mut best = Times {
        hint: Duration::MAX,
        pair: Duration::MAX,
        join: Duration::MAX,
        copy: Duration::MAX,
        last: Duration::MAX,
        stale: Duration::MAX,
    };
    for _ in 0..ROUNDS {
        best = round(rt, memory, &hashes, best)?;
    }
    Ok(best)
}

// Times the moves of the first of `instances` instances. It owns their memory, and lends it to what can fail.
fn time_moves(rt: &impl CpuClock, alloc: Global, instances: u32) -> Result<Times> {
    let mut memory = memory_of(alloc, 16384)?;
    best_of(rt, alloc, &mut memory, instances)
}

fn say(rt: &impl Print, what: &str, time: Duration) -> Result<()> {
    let each = time.as_nanos() / u128::from(CONTENTS);
    println!(rt; "  {what}: {each} ns")?;
    Ok(())
}

/// Times the moves with one instance and with 4096, twice.
pub fn run(rt: &(impl Print + CpuClock + AllocGlobal)) -> Result<()> {
    for instances in [1, 4096, 1, 4096] {
        let best = time_moves(rt, rt.alloc(), instances)?;
        println!(rt; "with {instances} instances")?;
        say(rt, "a first hint", best.hint)?;
        say(rt, "a merge with a hint", best.pair)?;
        say(rt, "a merge with a shared frame", best.join)?;
        say(rt, "a break that copies", best.copy)?;
        say(rt, "a break of the last sharer", best.last)?;
        say(rt, "a stale hint", best.stale)?;
    }
    Ok(())
}
