// Modules that go: worked by hand, at random beside a second model, as many as there may be, and one after the other.

use crate::life::{Life, Step};
use crate::modules::{ENDLESS, PUTTING, SEVEN};
use Step::{
    Admit, EvictBegin, EvictCommit, Fork, Invoke, Load, Release, Returned, Store, Turn, Unload,
};
use anyhow::{Context, Result, bail, ensure};
use std::alloc::Global;
use test_random::Random;
use wh_host::{AdmitError, Host, ModuleError, ModuleId, Params, Quota, UnloadError};
use wh_host_model::TurnEnd;
use wh_space_model::{EvictEnd, InstId, Tax};

const UNTAXED: Tax = Tax { num: 0, den: 1 };

const A: usize = 0;

const B: usize = 1;

/// A module goes once no instance is of it. Its place is another's then, and its number nobody's.
const GONE: &[Step] = &[
    Load(&SEVEN, Some(1)),
    Unload(2, Err(UnloadError::NoModule)),
    Admit(1, (2, 16), 0, Ok((0, 0))),
    Admit(0, (2, 16), 0, Ok((1, 1))),
    Unload(1, Err(UnloadError::InUse)),
    Invoke(A, "f", &[], 2, Ok(1)),
    Release(A, Ok(&[])),
    Unload(1, Ok(())),
    Unload(1, Err(UnloadError::NoModule)),
    Admit(1, (2, 16), 0, Err(1)),
    Load(&PUTTING, Some(2)),
    Admit(1, (2, 16), 0, Err(1)),
    Unload(1, Err(UnloadError::NoModule)),
    Admit(2, (2, 16), 0, Ok((0, 2))),
    Invoke(2, "f", &[], 1, Ok(1)),
    Turn(2, 1000, TurnEnd::Ended),
    Unload(0, Err(UnloadError::InUse)),
    Store(B, 0, 7, TurnEnd::Ended),
    Invoke(B, "get8", &[0], 2, Ok(2)),
    Turn(B, 2, TurnEnd::Ended),
    Returned(B, 2, 7),
];

/// A copy is of its parent's module, which stays while the copy does.
const COPIED: &[Step] = &[
    Load(&SEVEN, Some(1)),
    Admit(1, (2, 16), 0, Ok((0, 0))),
    Fork(A, (100, 2, 16), Ok((1, 1))),
    Release(A, Ok(&[])),
    Unload(1, Err(UnloadError::InUse)),
    Unload(0, Ok(())),
    Load(&SEVEN, Some(2)),
    Invoke(B, "f", &[], 2, Ok(1)),
    Turn(B, 2, TurnEnd::Ended),
    Release(B, Ok(&[])),
    Unload(1, Ok(())),
    Unload(2, Ok(())),
];

/// An instance that has gone keeps no module, also while its place is kept for a page that leaves.
const ON_ITS_WAY: &[Step] = &[
    Admit(0, (2, 16), 0, Ok((0, 0))),
    Admit(0, (2, 16), 0, Ok((1, 1))),
    Store(A, 0, 7, TurnEnd::Ended),
    Store(A, 4096, 8, TurnEnd::Ended),
    Store(B, 0, 9, TurnEnd::Ended),
    Store(B, 4096, 9, TurnEnd::Ended),
    Store(A, 8192, 9, TurnEnd::Frame),
    EvictBegin(A, Some(7)),
    Release(A, Ok(&[])),
    Unload(0, Err(UnloadError::InUse)),
    Release(B, Ok(&[])),
    Unload(0, Ok(())),
    EvictCommit(false, EvictEnd::Void),
    Load(&SEVEN, Some(1)),
    Admit(0, (2, 16), 0, Err(1)),
    Admit(1, (2, 16), 0, Ok((0, 2))),
];

/// Each with its beginning.
pub const UNLOADS: [Life; 3] = [
    Life("modules that go", (1024, 4096, UNTAXED), &[], GONE),
    Life("modules of copies", (1024, 4096, UNTAXED), &[], COPIED),
    Life("a page on its way", (4, 64, UNTAXED), &[], ON_ITS_WAY),
];

/// How many random sessions there are.
pub const SESSIONS: u32 = 100;

// How many events a session has.
const EVENTS: u32 = 200;

// How many instances there are at most.
const MOST_INSTANCES: usize = 8;

// How often each answer to an unload came.
#[derive(Clone, Copy, Debug, Default)]
struct Answers {
    gone: u32,
    no_module: u32,
    in_use: u32,
}

fn more(times: &mut u32) {
    *times = times.saturating_add(1);
}

impl Answers {
    fn count(&mut self, answer: Result<(), UnloadError>) {
        match answer {
            Ok(()) => more(&mut self.gone),
            Err(UnloadError::NoModule) => more(&mut self.no_module),
            Err(UnloadError::InUse) => more(&mut self.in_use),
        }
    }
}

// The second model: of each module, by number, how many instances are of it, or that it is gone; and the instances.
#[derive(Drop)]
struct Roster {
    uses: Vec<Option<u32>>,
    instances: Vec<(InstId, usize)>,
}

impl Roster {
    // How many instances are of this module, if it is there.
    fn uses(&self, number: usize) -> Option<u32> {
        match self.uses.get(number) {
            Some(uses) => *uses,
            None => None,
        }
    }

    // One more instance is there.
    fn come(&mut self, id: InstId, number: usize) -> Result<()> {
        self.instances.push((id, number))?;
        if let Some(uses) = self.uses.get_mut(number) {
            *uses = match *uses {
                Some(count) => Some(count.saturating_add(1)),
                None => None,
            };
        }
        Ok(())
    }

    // The instance of this number goes.
    fn go(&mut self, at: usize, number: usize) {
        if at < self.instances.len() {
            let _ = self.instances.remove(at);
        }
        if let Some(uses) = self.uses.get_mut(number) {
            *uses = match *uses {
                Some(count) => Some(count.saturating_sub(1)),
                None => None,
            };
        }
    }

    // The module of this number goes.
    fn let_go(&mut self, number: usize) {
        if let Some(uses) = self.uses.get_mut(number) {
            *uses = None;
        }
    }
}

// What an instance is given.
fn given(alloc: Global) -> Params {
    Params {
        quota: Quota {
            shares: 100,
            min_frames: 2,
            max_frames: 16,
        },
        fuel: 0,
        base: 0,
        salt: 0,
        inputs: Vec::new(alloc),
    }
}

fn load_one(host: &mut Host, alloc: Global, roster: &mut Roster) -> Result<()> {
    let id = host.load(alloc, &SEVEN)?;
    ensure!(
        id.number == roster.uses.len(),
        "it got the number {}",
        id.number
    );
    roster.uses.push(Some(0))?;
    Ok(())
}

fn admit_one(host: &mut Host, alloc: Global, roster: &mut Roster, number: usize) -> Result<()> {
    if roster.instances.len() >= MOST_INSTANCES {
        return Ok(());
    }
    let is_there = roster.uses(number).is_some();
    match host.admit(alloc, ModuleId { number }, given(alloc)) {
        Ok(id) => {
            ensure!(is_there, "an instance of module {number}, which is gone");
            roster.come(id, number)
        }
        Err(AdmitError::NoModule) => {
            ensure!(!is_there, "no instance of module {number}");
            Ok(())
        }
        Err(error) => bail!("module {number}: {error}"),
    }
}

fn fork_one(host: &mut Host, alloc: Global, roster: &mut Roster, at: usize) -> Result<()> {
    if roster.instances.len() >= MOST_INSTANCES {
        return Ok(());
    }
    let Some((id, number)) = roster.instances.get(at).copied() else {
        return Ok(());
    };
    let quota = Quota {
        shares: 100,
        min_frames: 2,
        max_frames: 16,
    };
    let copy = host.fork(alloc, id, quota)?;
    roster.come(copy, number)
}

fn release_one(host: &mut Host, alloc: Global, roster: &mut Roster, at: usize) -> Result<()> {
    let Some((id, number)) = roster.instances.get(at).copied() else {
        return Ok(());
    };
    let output = host.release(alloc, id)?;
    ensure!(output.len() == 0, "there is output");
    roster.go(at, number);
    Ok(())
}

fn unload_one(
    host: &mut Host,
    roster: &mut Roster,
    number: usize,
    answers: &mut Answers,
) -> Result<()> {
    let answer = host.unload(ModuleId { number });
    let want = match roster.uses(number) {
        None => Err(UnloadError::NoModule),
        Some(0) => Ok(()),
        Some(_) => Err(UnloadError::InUse),
    };
    ensure!(answer == want, "module {number}: {answer:?}");
    answers.count(want);
    if want.is_ok() {
        roster.let_go(number);
    }
    Ok(())
}

// Whether the host lists the modules that are there.
fn lists_them(host: &Host, alloc: Global, roster: &Roster) -> Result<bool> {
    let roll = host.roll(alloc)?;
    for (number, uses) in roster.uses.iter().enumerate() {
        let is_listed = roll
            .modules()
            .iter()
            .any(|module| module.id.number == number);
        if is_listed != uses.is_some() {
            return Ok(false);
        }
    }
    Ok(true)
}

// One event of a session.
fn take_event(
    host: &mut Host,
    alloc: Global,
    random: &mut Random,
    roster: &mut Roster,
    answers: &mut Answers,
) -> Result<()> {
    let kind = random.below(8);
    let number = random.below(roster.uses.len().min(1000) as u32 + 1) as usize;
    let at = random.below(MOST_INSTANCES as u32) as usize;
    match kind {
        0 | 1 => load_one(host, alloc, roster),
        2 | 3 => admit_one(host, alloc, roster, number),
        4 => fork_one(host, alloc, roster, at),
        5 => release_one(host, alloc, roster, at),
        _ => unload_one(host, roster, number, answers),
    }
}

// A session, on a host of its own.
fn run_session(alloc: Global, random: &mut Random, answers: &mut Answers) -> Result<()> {
    let mut host = Host::new(alloc, 64, 256, UNTAXED)?;
    let mut roster = Roster {
        uses: Vec::new(alloc),
        instances: Vec::new(alloc),
    };
    for event in 0..EVENTS {
        take_event(&mut host, alloc, random, &mut roster, answers).context(format_args!(
            "event {event}"
        ))?;
    }
    ensure!(lists_them(&host, alloc, &roster)?, "the roll lists others");
    Ok(())
}

/// Runs random sessions, each answer of which is the second model's, and in which each answer to an unload comes.
pub fn run_sessions(alloc: Global) -> Result<()> {
    let mut random = Random::new(0x9E37_79B9_7F4A_7C15);
    let mut answers = Answers::default();
    for session in 0..SESSIONS {
        run_session(alloc, &mut random, &mut answers).context(format_args!("session {session}"))?;
    }
    ensure!(
        answers.gone > 100 && answers.no_module > 100 && answers.in_use > 100,
        "too few answers: {answers:?}"
    );
    Ok(())
}

// Whether one module more is refused since there are as many as there may be.
fn is_full(host: &mut Host, alloc: Global) -> bool {
    host.load(alloc, &SEVEN).err() == Some(ModuleError::ModulesFull)
}

/// Checks that 1024 modules may be there, however many have gone.
pub fn load_most(alloc: Global) -> Result<()> {
    let mut host = Host::new(alloc, 64, 256, UNTAXED)?;
    for number in 0..1024 {
        let id = host.load(alloc, &SEVEN)?;
        ensure!(id.number == number, "module {number} is another one");
    }
    ensure!(is_full(&mut host, alloc), "one module more");
    host.unload(ModuleId { number: 5 })?;
    let id = host.load(alloc, &PUTTING)?;
    ensure!(id.number == 1024, "a number was given twice");
    ensure!(is_full(&mut host, alloc), "one module more behind it");
    Ok(())
}

// A module of 16 KiB: `SEVEN`, and a section of its own.
fn large(alloc: Global) -> Result<Vec<u8>> {
    let mut bytes = Vec::from_slice(alloc, &SEVEN)?;
    bytes.extend_from_slice(&[0, 0x80, 0x80, 0x01])?;
    bytes.resize(bytes.len().saturating_add(16384), 0)?;
    Ok(bytes)
}

/// Loads and lets go 100000 modules beside one that stays: as much is there then as after the first.
pub fn load_and_unload(alloc: Global) -> Result<()> {
    let mut host = Host::new(alloc, 64, 256, UNTAXED)?;
    let stays = host.load(alloc, &ENDLESS)?;
    let bytes = large(alloc)?;
    for number in 1..100_001 {
        let id = host.load(alloc, &bytes)?;
        ensure!(id.number == number, "module {number} is another one");
        host.unload(id)?;
    }
    let roll = host.roll(alloc)?;
    let modules = roll.modules();
    ensure!(
        modules.len() == 1 && modules[0].id == stays,
        "the roll lists others"
    );
    Ok(())
}
