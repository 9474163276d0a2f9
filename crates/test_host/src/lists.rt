// The lists of five events that the digits of a number name, and how often each end came.

use crate::flat::Call;
use crate::pair::Pair;
use crate::rig::Rig;
use anyhow::{Context, Result, ensure};
use std::alloc::Global;
use wh_flatmem::FlatMemory;
use wh_host::Suspension;
use wh_host_model::TurnEnd;
use wh_kernels::{FnvHash, PageHash};
use wh_space_model::{EvictEnd, FetchEnd, InstId, Offer, Tax};

// How many lists there are. Their digits are those of the multiples of 97.
const LISTS: u32 = 1000;

/// How often each end came, over all lists.
#[derive(Clone, Copy, Debug, Default)]
pub struct Ends {
    pub ended: u32,
    pub stood: u32,
    pub idle: u32,
    pub skipped: u32,
    pub hinted: u32,
    pub stale: u32,
    pub merged: u32,
    pub false_match: u32,
    pub left: u32,
    pub evicted: u32,
    pub void: u32,
    pub failed: u32,
    pub came: u32,
    pub fetched: u32,
    pub unfetched: u32,
    pub zeroed: u32,
}

fn more(times: &mut u32) {
    *times = times.saturating_add(1);
}

impl Ends {
    fn turned(&mut self, end: TurnEnd) {
        match end {
            TurnEnd::Ended => more(&mut self.ended),
            TurnEnd::Frame => more(&mut self.stood),
            _ => more(&mut self.idle),
        }
    }

    fn offered(&mut self, answer: Option<Offer>) {
        match answer {
            Some(Offer::Hinted) => more(&mut self.hinted),
            Some(Offer::Stale) => more(&mut self.stale),
            Some(Offer::Merged) => more(&mut self.merged),
            Some(Offer::FalseMatch) => more(&mut self.false_match),
            Some(Offer::Zeroed) => more(&mut self.zeroed),
            _ => more(&mut self.skipped),
        }
    }

    fn evicted(&mut self, end: Option<EvictEnd>) {
        match end {
            Some(EvictEnd::Evicted) => more(&mut self.evicted),
            Some(EvictEnd::Void) => more(&mut self.void),
            Some(EvictEnd::Failed) => more(&mut self.failed),
            None => {}
        }
    }

    fn fetched(&mut self, end: Option<FetchEnd>) {
        match end {
            Some(FetchEnd::Fetched) => more(&mut self.fetched),
            Some(_) => more(&mut self.unfetched),
            None => {}
        }
    }
}

/// How many views were compared after single events, and how many of them were read from the first byte to the last one
/// while a ticket was out.
#[derive(Clone, Copy, Debug, Default)]
pub struct Seen {
    pub views: u32,
    pub during: u32,
}

/// Two instances on four frames, whose first two pages are equal and merged. The first one stands at a store over both, and
/// the second, which has a third page, has a call open. Beside each is a flat memory to which the same is done.
pub struct Two {
    pub rig: Rig,
    pub a: Pair,
    pub b: Pair,
}

// Runs a call that needs no page to leave.
fn done(rig: &mut Rig, alloc: Global, pair: &mut Pair, at: u32, byte: u8) -> Result<()> {
    pair.ask(rig, alloc, Call::Set8 { at, byte }, 3)?;
    ensure!(rig.turn(pair.id, 3) == TurnEnd::Ended, "a store isn't done");
    pair.follow(rig)
}

// An instance comes, and writes its first two pages.
fn enter(rig: &mut Rig, alloc: Global, pair: &mut Pair) -> Result<()> {
    pair.renew(rig.admit(alloc, 2)?);
    done(rig, alloc, pair, 0, 1)?;
    done(rig, alloc, pair, 4096, 2)
}

// A turn of one charge. On the flat memory a call has ended where it has on the host.
fn turn(rig: &mut Rig, pair: &mut Pair) -> Result<TurnEnd> {
    let before = pair.flat.open();
    let end = rig.turn(pair.id, 1);
    pair.follow(rig)?;
    let has_ended = pair.flat.open() < before;
    ensure!(
        has_ended == (end == TurnEnd::Ended),
        "a turn came to {end:?}"
    );
    Ok(end)
}

// An open call goes on to its end, on the host and on the flat memory. No ticket is out.
fn end_calls(rig: &mut Rig, alloc: Global, pair: &mut Pair) -> Result<()> {
    let failed = matches!(pair.waiting_for(rig)?, Some(Suspension::Device(_)));
    ensure!(
        rig.retry(pair.id).is_ok() == failed,
        "another try isn't as the call stands"
    );
    pair.run_out(rig, alloc)
}

// All bytes of an instance are those of its flat memory.
fn look(rig: &mut Rig, alloc: Global, pair: &Pair, seen: &mut Seen) -> Result<()> {
    pair.compare(rig, alloc)?;
    more(&mut seen.views);
    if rig.kept() != (0, 0) {
        more(&mut seen.during);
    }
    Ok(())
}

impl Two {
    /// Creates a host with two instances and a flat memory for each.
    pub fn new(alloc: Global) -> Result<Two> {
        let first = FlatMemory::new(alloc, 1, 1)?;
        let second = FlatMemory::new(alloc, 1, 1)?;
        let nobody = InstId {
            place: 0,
            number: 0,
        };
        let mut two = Two {
            rig: Rig::new(alloc, 4, 64, Tax { num: 0, den: 1 })?,
            a: Pair::new(alloc, nobody, first),
            b: Pair::new(alloc, nobody, second),
        };
        match two.begin(alloc) {
            Ok(()) => Ok(two),
            Err(error) => {
                two.finish();
                Err(error)
            }
        }
    }

    // All that comes before a list, on a host where nobody is.
    fn begin(&mut self, alloc: Global) -> Result<()> {
        let rig = &mut self.rig;
        enter(rig, alloc, &mut self.a)?;
        enter(rig, alloc, &mut self.b)?;
        ensure!(rig.scan(&FnvHash), "there is no pass");
        done(rig, alloc, &mut self.b, 8192, 3)?;
        self.a.ask(rig, alloc, Call::Wide, 1)?;
        ensure!(
            turn(rig, &mut self.a)? == TurnEnd::Frame,
            "the store is ready"
        );
        self.b.ask(rig, alloc, Call::Five, 1)?;
        let report = rig.report(alloc)?;
        let want = format!(in alloc;
            "# frames 4 used 3 free 1\n# slots 64 used 0 free 64\n# shared frames 2 sharers 4\n#{:6}     100     2    16     2     2     0 100/2\n#{:6}     100     2    16     1     1     0 100/1\n",
            self.a.id.number, self.b.id.number
        )?;
        ensure!(
            report.as_str() == want.as_str(),
            "the lists begin elsewhere"
        );
        Ok(())
    }

    /// Ends the test: takes back all tickets.
    pub fn finish(self) {
        let Two { rig, a: _, b: _ } = self;
        rig.finish();
    }

    // Does what the digit names.
    fn event<H: PageHash>(
        &mut self,
        alloc: Global,
        hasher: &H,
        digit: u32,
        ends: &mut Ends,
    ) -> Result<()> {
        let rig = &mut self.rig;
        match digit {
            0 => ends.turned(turn(rig, &mut self.a)?),
            1 => ends.turned(turn(rig, &mut self.b)?),
            2 => ends.offered(rig.offer(hasher, self.a.id, 0, 0)),
            3 => ends.offered(rig.offer(hasher, self.b.id, 0, 0)),
            4 => {
                if rig.evict_begin(alloc, self.a.id)? {
                    more(&mut ends.left);
                }
            }
            5 => ends.evicted(rig.evict_commit(false)),
            6 => ends.evicted(rig.evict_commit(true)),
            7 => {
                if rig.fetch_begin(alloc, self.b.id)? {
                    more(&mut ends.came);
                }
            }
            8 => ends.fetched(rig.fetch_commit(false)),
            _ => ends.fetched(rig.fetch_commit(true)),
        }
        self.a.follow(rig)?;
        self.b.follow(rig)
    }

    // Both see all their own bytes, whatever tickets are out, and go. Nothing is in use then.
    fn compare(&mut self, alloc: Global, seen: &mut Seen) -> Result<()> {
        let rig = &mut self.rig;
        look(rig, alloc, &self.a, seen).context("the first one")?;
        look(rig, alloc, &self.b, seen).context("the second one")?;
        let _ = rig.evict_commit(false);
        let _ = rig.fetch_commit(false);
        ensure!(rig.tickets(alloc)? == 0, "a ticket is lost");
        let report = rig.report(alloc)?;
        ensure!(
            report.as_str()
                == "# frames 4 used 0 free 4\n# slots 64 used 0 free 64\n# shared frames 0 sharers 0\n",
            "something is left"
        );
        Ok(())
    }

    // The open calls are cancelled, whatever tickets are out.
    fn break_off(&mut self) -> Result<()> {
        self.a.break_off(&mut self.rig)?;
        self.b.break_off(&mut self.rig)
    }
}

// One list, and the tickets that are out at its end; then the open calls go on or are cancelled, and both are looked at.
fn drive<H: PageHash>(
    two: &mut Two,
    alloc: Global,
    hasher: &H,
    events: &[u32],
    goes_on: bool,
    ends: &mut Ends,
) -> Result<()> {
    for digit in events {
        two.event(alloc, hasher, *digit, ends)?;
    }
    ends.evicted(two.rig.evict_commit(false));
    ends.fetched(two.rig.fetch_commit(false));
    ensure!(two.rig.kept() == (0, 0), "two tickets of a kind are out");
    if goes_on {
        end_calls(&mut two.rig, alloc, &mut two.a)?;
        end_calls(&mut two.rig, alloc, &mut two.b)?;
    } else {
        two.break_off()?;
    }
    two.compare(alloc, &mut Seen::default())?;
    two.begin(alloc)
}

// The events of a list up to the one at this place. Then the open calls are cancelled, and both are looked at, while tickets are
// out.
fn stop<H: PageHash>(
    two: &mut Two,
    alloc: Global,
    hasher: &H,
    events: &[u32],
    last: usize,
    seen: &mut Seen,
) -> Result<()> {
    for digit in events.iter().take(last.saturating_add(1)) {
        two.event(alloc, hasher, *digit, &mut Ends::default())?;
    }
    two.break_off()?;
    two.compare(alloc, seen)?;
    two.begin(alloc)
}

// With how many events two lists begin alike.
fn alike(one: &[u32], other: &[u32]) -> usize {
    let mut count = 0usize;
    for (first, second) in one.iter().zip(other) {
        if first != second {
            return count;
        }
        count = count.saturating_add(1);
    }
    count
}

// The five digits of a number, with leading zeros, from the left.
fn digits(number: u32) -> [u32; 5] {
    [
        number / 10000 % 10,
        number / 1000 % 10,
        number / 100 % 10,
        number / 10 % 10,
        number % 10,
    ]
}

// These events, and those that the digits of a number name.
fn events_of(alloc: Global, prefix: &[u32], number: u32) -> Result<Vec<u32>> {
    let mut events = Vec::from_slice(alloc, prefix)?;
    for digit in digits(number) {
        events.push(digit)?;
    }
    Ok(events)
}

// All lists, on one host. Each is driven up to each of its events, but where the list before it begins so too; then twice to its
// end, where the open calls go on and where they are cancelled.
fn drive_all<H: PageHash>(
    two: &mut Two,
    alloc: Global,
    hasher: &H,
    prefix: &[u32],
    ends: &mut Ends,
    seen: &mut Seen,
) -> Result<()> {
    let mut before = Vec::new(alloc);
    for k in 0..LISTS {
        let number = 97 * k;
        let events = events_of(alloc, prefix, number)?;
        for last in alike(&before, &events)..events.len() {
            stop(two, alloc, hasher, &events, last, seen).context(format_args!(
                "list {number}, behind event {last}"
            ))?;
        }
        for goes_on in [true, false] {
            drive(two, alloc, hasher, &events, goes_on, ends).context(format_args!(
                "list {number}"
            ))?;
        }
        before = events;
    }
    Ok(())
}

/// Runs all lists of events under a hash, each after these first ones; returns how often each end came, and how many
/// views were compared.
pub fn run<H: PageHash>(alloc: Global, hasher: &H, prefix: &[u32]) -> Result<(Ends, Seen)> {
    let mut ends = Ends::default();
    let mut seen = Seen::default();
    let mut two = Two::new(alloc)?;
    let answer = drive_all(&mut two, alloc, hasher, prefix, &mut ends, &mut seen);
    two.finish();
    answer?;
    Ok((ends, seen))
}
