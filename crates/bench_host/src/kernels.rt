//! The kernels beside plain byte loops.

use anyhow::Result;
use std::io;
use std::rt::Clock;
use std::time::Instant;
use wh_kernels::{fnv64, is_zero, pages_equal};

const ROUNDS: u32 = 1000000;

fn equal_by_bytes(first: &[u8; 4096], second: &[u8; 4096]) -> bool {
    for at in 0..4096 {
        if first[at] != second[at] {
            return false;
        }
    }
    true
}

fn zero_by_bytes(page: &[u8; 4096]) -> bool {
    for at in 0..4096 {
        if page[at] != 0 {
            return false;
        }
    }
    true
}

fn hash_by_bytes(page: &[u8; 4096]) -> u64 {
    let mut hash = 14695981039346656037u64;
    for at in 0..4096 {
        hash = (hash ^ u64::from(page[at])).wrapping_mul(1099511628211);
    }
    hash
}

// Calls the kernel on two equal pages of zeros, which stay in the cache, and prints how many bytes of a page it goes
// over in a second. A byte of each page is written before each call, so that no call can be left out.
fn time<R: Print + Clock, F: Fn(&[u8; 4096], &[u8; 4096]) -> u64>(
    rt: &R,
    name: &str,
    kernel: F,
) -> io::Result<()>
    requires { F.IsAlwaysCallable kernel }
{
    let mut first = [0; 4096];
    let mut second = [0; 4096];
    let mut sum = 0u64;
    let start = Instant::now(rt)?;
    for round in 0..ROUNDS {
        let at = (round % 4096) as usize;
        first[at] = 0;
        second[at] = 0;
        sum = sum.wrapping_add(kernel(&first, &second));
    }
    let nanos = start.elapsed(rt)?.as_nanos();
    let tenths = u128::from(ROUNDS) * 40960 / nanos.max(1);
    println!(rt; "{name}: {}.{} GB/s (sum {sum})", tenths / 10, tenths % 10)?;
    Ok(())
}

// Times two kernels that compare, beside their loops.
fn time_comparisons(rt: &(impl Print + Clock)) -> io::Result<()> {
    time(
        rt,
        "pages_equal",
        |first, second| u64::from(pages_equal(first, second)),
    )?;
    time(
        rt,
        "pages_equal, byte by byte",
        |first, second| u64::from(equal_by_bytes(first, second)),
    )?;
    time(rt, "is_zero", |page, _| u64::from(is_zero(page)))?;
    time(
        rt,
        "is_zero, byte by byte",
        |page, _| u64::from(zero_by_bytes(page)),
    )?;
    Ok(())
}

/// Times each kernel on two pages that stay in the cache, beside a loop over the bytes that gives the same.
pub fn run(rt: &(impl Print + Clock)) -> Result<()> {
    time_comparisons(rt)?;
    time(rt, "fnv64", |page, _| fnv64(page))?;
    time(rt, "fnv64, byte by byte", |page, _| hash_by_bytes(page))?;
    Ok(())
}
