// How instances join a round, and leave it.

ghost use Rattle.std.specs.Prelude.{◌≡◌, ◌+◌, ◌≤◌, ℕ, List, Option, Some, None, true, false, slice_get, slice_set};
ghost use Rattle.wh_host_model.specs.Host.Worlds.{World};
ghost use Rattle.wh_space_model.specs.Parts.{Space};
ghost use Rattle.wh_instance.specs.Tenancy.{HostInstanceState};
ghost use Rattle.wh_host.specs.declared.parts.InstanceEntry.{InstanceEntry as OneEntry};
ghost use Rattle.wh_host.specs.declared.rounds.Runner.{Runner as OneRunner};
ghost use Rattle.wh_host.specs.Backing.{KeepsBacking};
ghost use Rattle.wh_host.specs.HostCounting.{counts_after_round};
ghost use Rattle.wh_host.specs.Hosting.{HostState, IsHost, entry_at};
ghost use Rattle.wh_host.specs.Reporting.{all_sharers};
ghost use Rattle.wh_host.specs.Rounds.{AllAreFree, AllTurn, AreTakenOut, EachHadLeave, EachTakesSome, RunnersStay, IsFree, NoneIsLeftOut, SitsThere, lent_to_all};
ghost use Rattle.wh_host.specs.Joining.{CanFinish, FinishesAt, HasAnswer, HaveRun, IsLeftOut, LaysAt, TakesOut, host_with};

use crate::beside::finish_beside;
use crate::counting::{count_round, sharers_of};
use crate::host::Host;
use crate::parts::InstanceEntry;
use crate::rounds::{Round, RoundRunner, Runner, SeriesEnd};
use slab::Slab;
use std::mem;
use wh_instance::Burst;
use wh_space::Memory;

// Hands a runner its instance, if that computes, and lends it `frames` frames.
fn take_out(entries: &mut Slab<InstanceEntry>, runner: &mut Runner, frames: u32)
    ensures { TakesOut entries.old.slots runner.old frames entries.new.slots runner.new }
{
    runner.taken = false;
    runner.answer = None;
    let Some(entry) = entries.get_mut(runner.id.place) else {
        return;
    };
    if !entry.has_number(runner.id.number) {
        return;
    }
    if !entry.tenant.computes() {
        return;
    }
    entry.number = None;
    runner.taken = true;
    runner.module_place = entry.module_place;
    runner.page_limit = entry.page_limit;
    runner.ended = entry.tenant.journal().ended_len();
    mem::swap(&mut entry.tenant, &mut runner.tenant);
    if let Some(upper) = &mut runner.upper {
        upper.lend(frames);
    }
}

// Hands all runners theirs, and lends each an equal part of `frames` frames, used or not.
fn take_all(entries: &mut Slab<InstanceEntry>, runners: &mut [Runner], frames: u32)
    requires { AllAreFree runners.old }
    ensures frames { lent_to_all runners.new ≤ frames }
    ensures out { AreTakenOut entries.old.slots entries.new.slots runners.new SitsThere }
    ensures rest { (k : ℕ) (y : OneRunner) → slice_get runners.new k ≡ Some y → y.taken ≡ false → IsFree y × (y.answer ≡ None) }
    ensures left { (k : ℕ) (y : OneRunner) → slice_get runners.new k ≡ Some y → y.taken ≡ false → IsLeftOut entries.old.slots runners.new y }
    ensures same { RunnersStay runners.old runners.new }
{
    let most = (frames as usize / runners.len().max(1)) as u32;
    let mut left = frames;
    for at in 0..runners.len() {
        let lent = most.min(left);
        take_out(entries, &mut runners[at], lent);
        left -= lent;
    }
}

// Finishes the turns of the instance of a runner, which is free then.
fn finish_at(memory: &mut Memory, runner: &mut Runner)
    requires { (q : ℕ) × CanFinish q memory.old runner.old }
    ensures { (q : ℕ) → FinishesAt q memory.old runner.old memory.new runner.new }
{
    let Some(upper) = &mut runner.upper else {
        unreachable!()
    };
    let end = finish_beside(
        &mut runner.tenant,
        memory,
        runner.id.place,
        runner.ran,
        upper,
    );
    runner.taken = false;
    runner.answer = Some(SeriesEnd {
        turns: runner.ran.turns,
        charges: runner.ran.charges,
        end,
        leave: runner.ran.leave,
    });
}

// Gives the instance of a runner its place again.
fn give_back(entries: &mut Slab<InstanceEntry>, runner: &mut Runner)
    ensures entries { (x : OneEntry) → entry_at entries.old.slots runner.old.id.place ≡ Some x → entries.new.slots
        ≡ slice_set entries.old.slots runner.old.id.place (Some (record x { number = Some runner.old.id.number; tenant = runner.old.tenant })) }
    ensures runner { (x : HostInstanceState) × (runner.new ≡ record runner.old { tenant = x }) }
{
    let Some(entry) = entries.get_mut(runner.id.place) else {
        return;
    };
    entry.number = Some(runner.id.number);
    mem::swap(&mut entry.tenant, &mut runner.tenant);
}

// Writes back what the instance of a runner has written, if it has one, and gives it its place again.
fn lay_at(entries: &mut Slab<InstanceEntry>, memory: &mut Memory, runner: &mut Runner)
    requires { runner.old.taken ≡ true → (q : ℕ) × CanFinish q memory.old runner.old }
    ensures { (q : ℕ) → LaysAt q entries.old.slots memory.old runner.old entries.new.slots memory.new runner.new }
{
    if !runner.taken {
        return;
    }
    finish_at(memory, runner);
    give_back(entries, runner);
}

// Writes back what all have written, one after the other.
fn lay_all(entries: &mut Slab<InstanceEntry>, memory: &mut Memory, runners: &mut [Runner])
    requires { (h : HostState) × (q most : ℕ) × (before : List (Option OneEntry)) × (s : Space) × (w : World)
        × HaveRun h.modules q most before s entries.old.slots memory.old runners.old
        × IsHost (host_with h before memory.old) w }
    ensures turns { (h : HostState) (q most : ℕ) (before : List (Option OneEntry)) (s : Space) (w : World)
        → HaveRun h.modules q most before s entries.old.slots memory.old runners.old
        → IsHost (host_with h before memory.old) w
        → (w2 : World) × AllTurn q most w runners.new w2
        × IsHost (host_with h entries.new.slots memory.new) w2 }
    ensures free { AllAreFree runners.new }
    ensures same { RunnersStay runners.old runners.new }
    ensures answers { (k : ℕ) (y2 : OneRunner) → slice_get runners.new k ≡ Some y2
        → (y : OneRunner) × (slice_get runners.old k ≡ Some y) × HasAnswer y y2 }
    ensures backing { KeepsBacking memory.old memory.new }
{
    for at in 0..runners.len() {
        lay_at(entries, memory, &mut runners[at]);
    }
}

impl Host {
    /// Runs a burst of each instance that has a runner and computes, all at once, as if one burst after the other, in the
    /// order of the runners: as many turns of each as its runner says, of as many charges at most as the burst says.
    /// After turns that took no charge its call can make progress only if what it does next can't be reached over the
    /// overlay. No further turn is begun once somebody wants the memory.
    pub fn turns_at_once<F: RoundRunner>(&mut self, fork: &F, runners: &mut [Runner], burst: Burst)
        requires can { F.can fork.now }
        requires free { AllAreFree runners.old }
        ensures turns { (w : World) → IsHost self.old w
            → (w2 : World) × AllTurn burst.entry.quantum (burst.entry.further + 1) w runners.new w2
            × IsHost self.new w2 }
        ensures all { (w : World) → IsHost self.old w → NoneIsLeftOut w runners.new }
        ensures some { 1 ≤ burst.entry.quantum → (w : World) → IsHost self.old w
            → EachTakesSome w runners.new }
        ensures leave { EachHadLeave runners.new }
        ensures free { AllAreFree runners.new }
        ensures same { RunnersStay runners.old runners.new }
        ensures backing { KeepsBacking self.old.space self.new.space }
        ensures counts { self.new.counts ≡ counts_after_round self.old runners.new self.new }
        ensures shares { all_sharers self.new.space ≤ all_sharers self.old.space }
    {
        let sharers = sharers_of(&self.memory);
        take_all(&mut self.entries, runners, self.memory.free());
        let round = Round {
            modules: &self.modules,
            memory: &self.memory,
            burst,
        };
        fork.run_all(&round, runners);
        lay_all(&mut self.entries, &mut self.memory, runners);
        count_round(&mut self.counts, &self.entries, runners);
        let breaks = sharers.saturating_sub(sharers_of(&self.memory));
        self.counts.count_breaks(breaks);
    }
}
