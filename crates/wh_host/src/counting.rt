//! What a host counts of rounds and shared pages.

ghost use Rattle.std.specs.Prelude.{◌≡◌, drop};
ghost use Rattle.wh_host.specs.Reporting.{all_sharers};
ghost use Rattle.wh_host.specs.HostCounting.{ended_at, with_series, with_series_of};

use crate::counts::HostCounts;
use crate::parts::InstanceEntry;
use crate::rounds::Runner;
use slab::Slab;
use wh_space::Memory;

/// Returns how many pages share a frame. Takes O(1).
pub fn sharers_of(memory: &Memory) -> u64
    ensures { result ≡ all_sharers memory.now }
{
    memory.invariant();
    memory.sharing().1
}

// Counts the turns of a runner that had some, and the calls of its instance that ended in them.
fn count_series(counts: &mut HostCounts, entries: &Slab<InstanceEntry>, runner: &Runner)
    ensures { counts.new ≡ with_series counts.old runner.now.answer
        (drop runner.now.ended (ended_at entries.now.slots runner.now.id.place)) }
{
    let Some(made) = runner.answer else {
        return;
    };
    counts.count_turns(made.turns, made.charges);
    let Some(entry) = entries.get(runner.id.place) else {
        return;
    };
    counts.count_ended(entry.tenant.journal(), runner.ended);
}

/// Counts the turns of each runner that had some, and the calls of its instance that ended in them.
pub fn count_round(counts: &mut HostCounts, entries: &Slab<InstanceEntry>, runners: &[Runner])
    ensures { counts.new ≡ with_series_of entries.now.slots counts.old runners.now }
{
    for at in 0..runners.len() {
        count_series(counts, entries, &runners[at]);
    }
}
