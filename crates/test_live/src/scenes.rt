// What is asked of a live host before it is to stop, and what has to come of it.

use crate::scene::Scene;
use anyhow::{Result, ensure};
use std::sync::Wait;
use std::sync::ledger::Ledger;
use test_random::Random;
use wh_cell::CellAgreements;
use wh_host::{CallStatus, CallValue};
use wh_model::ValType;
use wh_space_model::InstId;

/// What is asked of a host.
#[derive(Clone, Copy, Debug, PartialEq, Eq)]
pub enum Plan {
    /// Nothing: it is to stop as soon as it has begun.
    Nothing,
    /// A store and a load; then it is to stop while it is idle.
    Little,
    /// Calls that go on forever: it is to stop while they compute.
    Forever,
    /// Calls that go on forever are cancelled, and short ones end beside them.
    Cancels,
    /// Instances are released while their turns are out, and the others' calls end.
    Releases,
    /// All pages are offered while a call computes.
    Pass,
    /// An instance is woken again and again, with calls and without.
    Wakes,
    /// What random numbers from this one on say, on few frames.
    Random(u64),
}

// What a load of this byte returns.
fn loaded(byte: u32) -> Option<CallValue> {
    Some(CallValue {
        of: ValType::I32,
        word: u64::from(byte),
    })
}

// Whether a call has returned this.
fn has_returned(end: CallStatus, wanted: Option<CallValue>) -> bool {
    match end {
        CallStatus::Returned { value, .. } => value == wanted,
        _ => false,
    }
}

impl<T: Ledger, C: Ledger, O: Ledger, E: Ledger, B: CellAgreements> Scene<T, C, O, E, B> {
    // Stores this byte at this place, loads it again, and looks at what comes.
    fn store_and_load<R: Wait>(&mut self, rt: &R, id: InstId, place: u32, byte: u32) -> Result<()> {
        let place = i128::from(place);
        let stored = self.invoke(rt, id, "s", &[place, i128::from(byte)])?;
        let load = self.invoke(rt, id, "l", &[place])?;
        let end = self.ended(rt, id, load)?;
        ensure!(has_returned(end, loaded(byte)), "a load returned {end:?}");
        let end = self.ended(rt, id, stored)?;
        ensure!(has_returned(end, None), "a store returned {end:?}");
        Ok(())
    }

    fn little<R: Wait>(&mut self, rt: &R) -> Result<()> {
        let (bytes, _) = self.load(rt)?;
        let id = self.admit(rt, bytes)?;
        self.store_and_load(rt, id, 4096, 7)
    }

    fn forever<R: Wait>(&mut self, rt: &R) -> Result<()> {
        let (bytes, loops) = self.load(rt)?;
        for _ in 0..3 {
            let id = self.admit(rt, loops)?;
            let call = self.invoke(rt, id, "f", &[])?;
            self.computes(rt, id, call)?;
        }
        let id = self.admit(rt, bytes)?;
        self.store_and_load(rt, id, 0, 1)
    }

    fn cancels<R: Wait>(&mut self, rt: &R) -> Result<()> {
        let (bytes, loops) = self.load(rt)?;
        let short = self.admit(rt, bytes)?;
        let first = self.admit(rt, loops)?;
        let second = self.admit(rt, loops)?;
        for round in 0..20u32 {
            let call = self.invoke(rt, first, "f", &[])?;
            let other = self.invoke(rt, second, "f", &[])?;
            self.computes(rt, first, call)?;
            self.store_and_load(rt, short, round * 8, round)?;
            self.cancel(rt, first)?;
            self.cancel(rt, second)?;
            let end = self.ended(rt, first, call)?;
            ensure!(
                matches!(&end, CallStatus::Cancelled { .. }),
                "a call that was cancelled ended as {end:?}"
            );
            let _ = self.ended(rt, second, other)?;
        }
        Ok(())
    }

    fn releases<R: Wait>(&mut self, rt: &R) -> Result<()> {
        let (bytes, loops) = self.load(rt)?;
        let stays = self.admit(rt, bytes)?;
        for round in 0..20u32 {
            let goes = self.admit(rt, loops)?;
            let waits = self.admit(rt, bytes)?;
            let call = self.invoke(rt, goes, "f", &[])?;
            self.computes(rt, goes, call)?;
            for page in 0..12u32 {
                let place = i128::from(page * 4096);
                let _ = self.invoke(rt, waits, "s", &[place, i128::from(round + page + 1)])?;
            }
            self.release(rt, goes)?;
            self.store_and_load(rt, stays, (round % 16) * 4096, round)?;
            self.release(rt, waits)?;
            self.store_and_load(rt, stays, (round % 16) * 4096, round + 1)?;
        }
        Ok(())
    }

    fn pass_amid<R: Wait>(&mut self, rt: &R) -> Result<()> {
        let (bytes, loops) = self.load(rt)?;
        let id = self.admit(rt, bytes)?;
        let computes = self.admit(rt, loops)?;
        let call = self.invoke(rt, computes, "f", &[])?;
        self.computes(rt, computes, call)?;
        for _ in 0..3 {
            let offered = self.pass(rt)?;
            ensure!(offered == Some(16), "{offered:?} pages were offered");
        }
        self.store_and_load(rt, id, 8192, 9)
    }

    fn wakes<R: Wait>(&mut self, rt: &R) -> Result<()> {
        let (bytes, _) = self.load(rt)?;
        let id = self.admit(rt, bytes)?;
        for round in 0..2000u32 {
            self.queue.wake(rt, id);
            self.queue.wake(rt, id);
            self.store_and_load(rt, id, round, round % 256)?;
        }
        Ok(())
    }

    // Three instances store and load at random, beside one that goes on forever.
    fn random<R: Wait>(&mut self, rt: &R, seed: u64) -> Result<()> {
        let mut random = Random::new(seed);
        let (bytes, loops) = self.load(rt)?;
        let forever = self.admit(rt, loops)?;
        let _ = self.invoke(rt, forever, "f", &[])?;
        let mut ids = Vec::new(self.alloc);
        for _ in 0..3 {
            ids.push(self.admit(rt, bytes)?)?;
        }
        let mut twins = crate::twins::Twins::new(self.alloc, 3)?;
        for _ in 0..40 {
            let at = random.below(3);
            let place = random.below(65536);
            let byte = random.below(256);
            let is_load = random.below(2) == 0;
            let Some(id) = ids.get(at as usize) else {
                continue;
            };
            let id = *id;
            let call = if is_load {
                self.invoke(rt, id, "l", &[i128::from(place)])?
            } else {
                self.invoke(rt, id, "s", &[i128::from(place), i128::from(byte)])?
            };
            twins.ask(at as usize, is_load, place, byte, call)?;
        }
        for at in 0..ids.len() {
            for call in twins.calls(at) {
                let end = self.ended(rt, ids[at], *call)?;
                ensure!(Some(end) == twins.end(at, *call), "a call ended as {end:?}");
            }
        }
        Ok(())
    }

    /// Asks what the plan says, and looks at what comes of it.
    pub fn act<R: Wait>(&mut self, rt: &R, plan: Plan) -> Result<()> {
        match plan {
            Plan::Nothing => Ok(()),
            Plan::Little => self.little(rt),
            Plan::Forever => self.forever(rt),
            Plan::Cancels => self.cancels(rt),
            Plan::Releases => self.releases(rt),
            Plan::Pass => self.pass_amid(rt),
            Plan::Wakes => self.wakes(rt),
            Plan::Random(seed) => self.random(rt, seed),
        }
    }
}
