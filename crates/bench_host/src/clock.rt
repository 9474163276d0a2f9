//! Processor time.

use anyhow::{Context, Result};
use std::time::{CpuClock, Duration};

/// Returns the processor time since then.
pub fn since(rt: &impl CpuClock, before: Duration) -> Result<Duration> {
    rt.thread_cpu_time()?
        .checked_sub(before)
        .context("the clock went back")
}
