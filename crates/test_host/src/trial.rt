// Random events on three instances and six frames, and the same on flat memories.

use crate::flat::Call;
use crate::pair::Pair;
use crate::rig::Rig;
use anyhow::{Context, Result, bail, ensure};
use std::alloc::Global;
use test_random::Random;
use wh_flatmem::FlatMemory;
use wh_host::{AdmitError, Suspension};
use wh_host_model::TurnEnd;
use wh_kernels::PageHash;
use wh_space_model::{EvictEnd, FetchEnd, Offer};

/// How often each end came, over all lists.
#[derive(Clone, Copy, Debug, Default)]
pub struct Counts {
    pub ended: u32,
    pub again: u32,
    pub out_of_fuel: u32,
    pub stood: u32,
    pub cancelled: u32,
    pub offers: u32,
    pub merged: u32,
    pub left: u32,
    pub evicted: u32,
    pub void: u32,
    pub failed: u32,
    pub came: u32,
    pub fetched: u32,
    pub fetch_void: u32,
    pub fetch_failed: u32,
    pub provided: u32,
    pub revoked: u32,
    pub faults: u32,
    pub retried: u32,
    pub released: u32,
    pub refused: u32,
    pub compared: u32,
}

fn more(times: &mut u32) {
    *times = times.saturating_add(1);
}

/// Three instances, some of which may not be there, and flat memories of zeros for others.
pub struct Trial {
    pairs: [Option<Pair>; 3],
    spare: Vec<FlatMemory>,
    pub random: Random,
    pub counts: Counts,
}

impl Drop for Trial {
    fn drop(self) {
        let Trial {
            pairs: _,
            spare: _,
            random: _,
            counts: _,
        } = self;
    }
}

impl Trial {
    /// Creates a trial without instances, with this seed.
    pub fn new(alloc: Global, seed: u64) -> Trial {
        Trial {
            pairs: [None, None, None],
            spare: Vec::new(alloc),
            random: Random::new(seed),
            counts: Counts::default(),
        }
    }

    // An instance that is admitted, where no ticket of one that was released keeps it out.
    fn admitted(&mut self, rig: &mut Rig, alloc: Global) -> Result<Option<Pair>> {
        match rig.admit(alloc, 2) {
            Ok(id) => {
                let memory = match self.spare.pop() {
                    Some(memory) => memory,
                    None => FlatMemory::new(alloc, 1, 1)?,
                };
                Ok(Some(Pair::new(alloc, id, memory)))
            }
            Err(AdmitError::Frames) => {
                ensure!(rig.kept() != (0, 0), "an instance is refused");
                more(&mut self.counts.refused);
                Ok(None)
            }
            Err(error) => Err(error.into()),
        }
    }

    // A place of the three.
    fn some(&mut self) -> usize {
        self.random.below(3) as usize
    }

    // An address: in one of the first pages, often at its beginning or over its end; seldom at the end of all.
    fn some_address(&mut self) -> u32 {
        let page = 4096 * self.random.below(4);
        let near = self.random.below(8);
        match self.random.below(16) {
            0 => 65530 + near,
            1..4 => page + 4088 + near,
            4..6 => page + near,
            _ => page,
        }
    }

    // Mostly 1 or 2, so that pages are equal now and then; seldom 0, and seldom any.
    fn some_byte(&mut self) -> u8 {
        let any = self.random.below(256) as u8;
        let few = self.random.below(2) as u8;
        match self.random.below(8) {
            0 => 0,
            1 | 2 => any,
            _ => few + 1,
        }
    }

    fn some_call(&mut self) -> Call {
        let at = self.some_address();
        let and = self.some_address();
        let byte = self.some_byte();
        let word = 0x0101010101010101u64.wrapping_mul(u64::from(byte));
        match self.random.below(8) {
            0 => Call::Get8 { at },
            1 => Call::Get { at },
            2 | 3 => Call::Set { at, word },
            4 => Call::Two { at, and, byte },
            _ => Call::Set8 { at, byte },
        }
    }

    /// Admits three instances, each of which writes its first two pages.
    pub fn begin(&mut self, rig: &mut Rig, alloc: Global) -> Result<()> {
        for place in 0..3 {
            let mut pair = self.admitted(rig, alloc)?.context("nobody comes")?;
            for page in 0..2 {
                let byte = self.some_byte();
                let at = 4096 * page;
                pair.ask(rig, alloc, Call::Set8 { at, byte }, 3)?;
                ensure!(rig.turn(pair.id, 3) == TurnEnd::Ended, "a store isn't done");
            }
            pair.follow(rig)?;
            self.put_back(place, Some(pair))?;
        }
        Ok(())
    }

    // The number of an event: every other time one that may help a call which is blocked on this.
    fn some_kind(&mut self, waiting_for: Option<Suspension>) -> u32 {
        let any = self.random.below(48);
        let helping = self.random.below(15);
        match (waiting_for, self.random.below(2)) {
            (Some(Suspension::Frame), 0) => 26 + helping,
            (Some(Suspension::Fuel), 0) => 44,
            (Some(Suspension::Device(_)), 0) => 46,
            _ => any,
        }
    }

    /// Makes one event, of any kind.
    pub fn event<H: PageHash>(&mut self, rig: &mut Rig, alloc: Global, hasher: &H) -> Result<()> {
        let place = self.some();
        let Some(mut pair) = self.pairs.get_mut(place).and_then(|pair| pair.take()) else {
            let came = self.admitted(rig, alloc)?;
            return self.put_back(place, came);
        };
        let kind = self.some_kind(pair.waiting_for(rig)?);
        let stays = kind != 47 || self.random.below(2) != 0;
        if !stays {
            more(&mut self.counts.released);
            let output = rig.release(alloc, pair.id)?;
            ensure!(output.is_empty(), "an instance put out");
            self.spare.push(pair.cleared())?;
            return Ok(());
        }
        match kind {
            0..14 => self.turn(rig, &mut pair)?,
            14..22 => self.ask(rig, alloc, &mut pair)?,
            22..25 => self.offer(rig, hasher, &pair),
            25 => {
                ensure!(rig.scan(hasher), "there is no pass");
            }
            26..30 => {
                if rig.evict_begin(alloc, pair.id)? {
                    more(&mut self.counts.left);
                }
            }
            30..33 => self.evict_commit(rig),
            33..37 => {
                if rig.fetch_begin(alloc, pair.id)? {
                    more(&mut self.counts.came);
                }
            }
            37..40 => self.fetch_commit(rig),
            40..43 => self.provide(rig, alloc, &mut pair)?,
            43 => rig.epoch(),
            44 => self.refuel(rig, &mut pair)?,
            45 => self.cancel(rig, &mut pair)?,
            _ => self.retry(rig, &pair)?,
        }
        pair.follow(rig)?;
        let at = self.some_address();
        pair.look(rig, alloc, at)?;
        self.put_back(place, Some(pair))
    }

    fn put_back(&mut self, place: usize, pair: Option<Pair>) -> Result<()> {
        *self.pairs.get_mut(place).context("there is no such place")? = pair;
        Ok(())
    }

    // A turn of a few charges.
    fn turn(&mut self, rig: &mut Rig, pair: &mut Pair) -> Result<()> {
        let charges = u64::from(self.random.below(8));
        let before = pair.flat.open();
        let taken = pair.flat.taken();
        let end = rig.turn(pair.id, charges);
        pair.follow(rig)?;
        let ended = before.saturating_sub(pair.flat.open());
        match (end, taken, pair.flat.taken()) {
            (TurnEnd::Idle, None, None) => {}
            (TurnEnd::Ended, Some(_), _) => {
                ensure!(ended == 1, "{ended} calls have ended");
                more(&mut self.counts.ended);
            }
            (TurnEnd::Fuel, Some(_), Some((_, is_all))) => {
                ensure!(ended == 0 && is_all, "fuel is left");
                more(&mut self.counts.out_of_fuel);
            }
            (TurnEnd::Frame, Some(_), Some(_)) => {
                ensure!(ended == 0, "a call has ended");
                more(&mut self.counts.stood);
            }
            (TurnEnd::Again, Some((first, _)), Some((last, _))) => {
                let wanted = first.saturating_add(charges);
                ensure!(ended == 0 && last == wanted, "it took {last} charges");
                more(&mut self.counts.again);
            }
            other => bail!("a turn came to {other:?}"),
        }
        Ok(())
    }

    fn ask(&mut self, rig: &mut Rig, alloc: Global, pair: &mut Pair) -> Result<()> {
        if pair.flat.open() > 3 {
            return Ok(());
        }
        let call = self.some_call();
        let fuel = match self.random.below(8) {
            0 => self.random.below(6),
            _ => 6,
        };
        pair.ask(rig, alloc, call, u64::from(fuel))
    }

    // Offers a page under the hash of its bytes, under that of another one, or under a small number.
    fn offer<H: PageHash>(&mut self, rig: &mut Rig, hasher: &H, pair: &Pair) {
        let page = self.random.below(5);
        let other = self.random.below(5);
        let small = u64::from(self.random.below(4));
        let hash = match self.random.below(4) {
            0 => small,
            1 => pair.flat.hash_of(hasher, other),
            _ => pair.flat.hash_of(hasher, page),
        };
        more(&mut self.counts.offers);
        let answer = rig.offer(hasher, pair.id, page, hash);
        if answer == Some(Offer::Merged) {
            more(&mut self.counts.merged);
        }
    }

    fn evict_commit(&mut self, rig: &mut Rig) {
        let fails = self.random.below(3) == 0;
        match rig.evict_commit(fails) {
            Some(EvictEnd::Evicted) => more(&mut self.counts.evicted),
            Some(EvictEnd::Void) => more(&mut self.counts.void),
            Some(EvictEnd::Failed) => more(&mut self.counts.failed),
            None => {}
        }
    }

    fn fetch_commit(&mut self, rig: &mut Rig) {
        let fails = self.random.below(3) == 0;
        match rig.fetch_commit(fails) {
            Some(FetchEnd::Fetched) => more(&mut self.counts.fetched),
            Some(FetchEnd::Void) => more(&mut self.counts.fetch_void),
            Some(FetchEnd::Failed) => more(&mut self.counts.fetch_failed),
            None => {}
        }
    }

    // Makes the next step ready, where no ticket is out, while a device call may fail. A step that is ready is taken.
    fn provide(&mut self, rig: &mut Rig, alloc: Global, pair: &mut Pair) -> Result<()> {
        let failing = self.random.below(6);
        let awaits = rig.awaits_frame(pair.id);
        let Some(answer) = rig.provide(alloc, pair.id, failing)? else {
            return Ok(());
        };
        match answer {
            Ok(left) if awaits => {
                more(&mut self.counts.provided);
                if left > 0 {
                    more(&mut self.counts.revoked);
                }
                ensure!(rig.turn(pair.id, 1) != TurnEnd::Frame, "a step isn't ready");
                pair.follow(rig)
            }
            Ok(left) => {
                ensure!(left == 0, "pages leave for nobody");
                Ok(())
            }
            Err(fault) => {
                more(&mut self.counts.faults);
                let kept = Some(Suspension::Device(fault));
                ensure!(pair.waiting_for(rig)? == kept, "the fault is lost");
                Ok(())
            }
        }
    }

    fn refuel(&mut self, rig: &mut Rig, pair: &mut Pair) -> Result<()> {
        let fuel = u64::from(self.random.below(4));
        let answer = rig.refuel(pair.id, fuel);
        ensure!(
            answer.is_ok() == pair.flat.refuel(fuel),
            "fuel is for a call"
        );
        Ok(())
    }

    fn cancel(&mut self, rig: &mut Rig, pair: &mut Pair) -> Result<()> {
        if self.random.below(3) != 0 {
            return Ok(());
        }
        let answer = rig.cancel(pair.id);
        ensure!(answer.is_ok() == pair.flat.cancel(), "a call is cancelled");
        more(&mut self.counts.cancelled);
        Ok(())
    }

    fn retry(&mut self, rig: &mut Rig, pair: &Pair) -> Result<()> {
        let failed = matches!(pair.waiting_for(rig)?, Some(Suspension::Device(_)));
        ensure!(
            rig.retry(pair.id).is_ok() == failed,
            "another try isn't as the call stands"
        );
        if failed {
            more(&mut self.counts.retried);
        }
        Ok(())
    }

    /// Gives back all tickets, runs all calls to their end, and compares all that is seen.
    pub fn end(&mut self, rig: &mut Rig, alloc: Global) -> Result<()> {
        for _ in 0..10 {
            self.evict_commit(rig);
            self.fetch_commit(rig);
        }
        ensure!(rig.tickets(alloc)? == 0, "a ticket is lost");
        for place in 0..3 {
            let pair = self.pairs.get_mut(place).and_then(|pair| pair.take());
            if let Some(mut pair) = pair {
                pair.run_out(rig, alloc)?;
                more(&mut self.counts.compared);
                pair.compare(rig, alloc)?;
                self.spare.push(pair.cleared())?;
            }
        }
        let report = rig.report(alloc)?;
        ensure!(report.as_str() == EMPTY, "something is left");
        Ok(())
    }
}

// The report of a host that nobody uses.
const EMPTY: &str =
    "# frames 6 used 0 free 6\n# slots 45 used 0 free 45\n# shared frames 0 sharers 0\n";
