// Instances that are copied beside flat copies, and pages of theirs that are offered.

ghost use Rattle.std.specs.Prelude.{◌≤◌};

use crate::arrivals::{enter, let_go};
use crate::ground::gone;
use crate::same;
use crate::trial::{some_count, some_place};
use anyhow::{Context, Result, ensure};
use std::alloc::Global;
use test_random::Random;
use wh_flatmem::FlatMemory;
use wh_kernels::{FnvHash, PageHash};
use wh_linmem::LinearMem;
use wh_model::MOST_WASM_PAGES;
use wh_scan::{offer_at, scan_all, take};
use wh_space::{Memory, Promise, View};
use wh_space_model::{Offer, Tax};

// How many places there are, how many frames, and how many pages of 4096 bytes each instance may have.
const PLACES: u32 = 6;

const FRAMES: u32 = 96;

const MAX: u32 = 32;

const STEPS: u32 = 12000;

// The memory, flat ones beside it by place, which places are taken, by whom, the next number, and how often copies were made, instances
// went that had been copied, and pages were listed and merged.
struct Copies {
    memory: Memory,
    flats: Vec<FlatMemory>,
    taken: Vec<bool>,
    numbers: Vec<u64>,
    random: Random,
    next: u64,
    made: u32,
    gone: u32,
    listed: u32,
    merged: u32,
}

// A flat memory with the same bytes.
fn same_flat(alloc: Global, flat: &FlatMemory) -> Result<FlatMemory> {
    let pages = flat.size();
    ensure!(pages <= MAX / 16, "it is too large");
    let mut new = FlatMemory::new(alloc, pages, MAX / 16)?;
    ensure!(
        flat.bytes().len() <= new.bytes().len(),
        "the copy is too small"
    );
    new.write(0, flat.bytes());
    Ok(new)
}

fn promised(number: u64) -> Promise {
    Promise {
        number,
        shares: 100,
        min: 2,
        max: MAX,
    }
}

// A copy of the instance at one place comes to another. Whether it came; then no frame was taken for it.
fn copy(
    memory: &mut Memory,
    alloc: Global,
    from: usize,
    place: usize,
    number: u64,
) -> Result<bool> {
    let promise = Promise {
        number,
        shares: 100,
        min: 2,
        max: MAX,
    };
    ensure!(place != from, "the place is the other one's");
    ensure!(memory.has_few_pages(), "there are too many pages");
    ensure!(memory.is_fresh(promise.number), "the number is taken");
    ensure!(
        u64::from(promise.min) <= memory.frames_left(),
        "there are too few frames"
    );
    ensure!(
        u64::from(promise.max - promise.min) < memory.slots_left(),
        "there are too few slots"
    );
    ensure!(memory.pages_at(from) <= promise.max, "it is too large");
    if !memory.is_free(place) || memory.is_away(from) {
        return Ok(false);
    }
    let before = memory.used();
    memory.copy(alloc, from, place, promise)?;
    ensure!(memory.used() == before, "a copy took frames");
    Ok(true)
}

// The same, and once more where that failed: then memory was refused, and nothing was left after it.
fn copy_or_again(
    memory: &mut Memory,
    alloc: Global,
    from: usize,
    place: usize,
    number: u64,
) -> Result<bool> {
    let before = (memory.used(), memory.pages_at(place));
    match copy(memory, alloc, from, place, number) {
        Ok(came) => Ok(came),
        Err(_) => {
            let now = (memory.used(), memory.pages_at(place));
            ensure!(now == before, "a refused copy left something behind");
            copy(memory, alloc, from, place, number)
        }
    }
}

impl Copies {
    fn new(alloc: Global) -> Result<Copies> {
        let tax = Tax { num: 3, den: 4 };
        Ok(Copies {
            memory: Memory::new(alloc, FRAMES, 4096, tax)?,
            flats: Vec::new(alloc),
            taken: Vec::new(alloc),
            numbers: Vec::new(alloc),
            random: Random::new(0x243F_6A88_85A3_08D3),
            next: 0,
            made: 0,
            gone: 0,
            listed: 0,
            merged: 0,
        })
    }

    // An instance comes to the first place, and nobody to the others yet.
    fn begin(&mut self, alloc: Global) -> Result<()> {
        for place in 0..PLACES as usize {
            self.flats.push(FlatMemory::new(alloc, 1, MAX / 16)?)?;
            self.taken.push(place == 0)?;
            self.numbers.push(0)?;
        }
        let is_there = enter(&mut self.memory, alloc, 0, promised(0), 1);
        ensure!(is_there, "an instance doesn't come to its place");
        self.next = 1;
        Ok(())
    }

    fn finish(self) -> (u32, u32, u32, u32) {
        let Copies {
            memory,
            flats: _,
            taken: _,
            numbers: _,
            random: _,
            next: _,
            made,
            gone,
            listed,
            merged,
        } = self;
        let_go(memory);
        (made, gone, listed, merged)
    }

    fn is_taken(&self, place: usize) -> bool {
        self.taken.get(place) == Some(&true)
    }

    // Copies somebody to a free place.
    fn fork(&mut self, alloc: Global) -> Result<()> {
        let from = self.random.below(PLACES) as usize;
        let place = self.random.below(PLACES) as usize;
        if !self.is_taken(from) || self.is_taken(place) {
            return Ok(());
        }
        let number = self.next;
        if !copy_or_again(&mut self.memory, alloc, from, place, number)? {
            return Ok(());
        }
        self.next = self.next.saturating_add(1);
        self.made = self.made.saturating_add(1);
        let new = same_flat(alloc, self.flats.get(from).context("nobody is there")?)?;
        *self.flats.get_mut(place).context("there is no place")? = new;
        *self.taken.get_mut(place).context("there is no place")? = true;
        *self.numbers.get_mut(place).context("there is no place")? = number;
        self.compare_one(place)
    }

    // Somebody goes, if another one stays: the one that was copied before its copies, now and then.
    fn release(&mut self) -> Result<()> {
        let place = self.random.below(PLACES);
        let index = place as usize;
        let left = self.taken.iter().filter(|taken| **taken).count();
        if !self.is_taken(index) || left < 2 {
            return Ok(());
        }
        let number = *self.numbers.get(index).context("there is no place")?;
        ensure!(gone(&mut self.memory, place, number), "nobody is there");
        *self.taken.get_mut(index).context("there is no place")? = false;
        self.gone = self.gone.saturating_add(1);
        Ok(())
    }

    fn store(&mut self) -> Result<()> {
        let place = self.random.below(PLACES) as usize;
        if !self.is_taken(place) {
            return Ok(());
        }
        let flat = self.flats.get_mut(place).context("nobody is there")?;
        let at = some_place(&mut self.random, flat.size());
        let count = some_count(&mut self.random);
        let given = [self.random.below(3) as u8; 4096];
        let mut view = View {
            memory: &mut self.memory,
            place,
            page_limit: MOST_WASM_PAGES,
        };
        let _ = same::store(&mut view, flat, at, &given[..count], false)?;
        Ok(())
    }

    fn offer(&mut self) -> Result<()> {
        let place = self.random.below(PLACES);
        let page = self.random.below(MAX);
        let hash = match take(&self.memory, place, page) {
            Some(sample) => FnvHash.hash(&sample.bytes),
            None => 0,
        };
        ensure!(self.memory.has_few_pages(), "there are too many pages");
        let unlisted = self.memory.unlisted_frame(place, page).is_some();
        let answer = offer_at(&mut self.memory, &FnvHash, place, page, hash);
        if unlisted && answer == Offer::Hinted {
            self.listed = self.listed.saturating_add(1);
        }
        if unlisted && answer == Offer::Merged {
            self.merged = self.merged.saturating_add(1);
        }
        Ok(())
    }

    fn step(&mut self, alloc: Global) -> Result<()> {
        match self.random.below(32) {
            0 | 1 => self.fork(alloc),
            2 => self.release(),
            3..20 => self.store(),
            _ => self.offer(),
        }
    }

    fn compare_one(&mut self, place: usize) -> Result<()> {
        let flat = self.flats.get_mut(place).context("nobody is there")?;
        let mut view = View {
            memory: &mut self.memory,
            place,
            page_limit: MOST_WASM_PAGES,
        };
        same::compare(&mut view, flat)
    }

    // Looks at all bytes, and at the sum of frames.
    fn compare(&mut self) -> Result<()> {
        let mut alone = 0u32;
        for place in 0..PLACES {
            if self.is_taken(place as usize) {
                self.compare_one(place as usize)?;
            }
            for page in 0..MAX {
                if self.memory.private_frame(place, page).is_some() {
                    alone = alone.saturating_add(1);
                }
            }
        }
        let (shared, _) = self.memory.sharing();
        ensure!(
            self.memory.used() == alone.saturating_add(shared),
            "a frame is nobody's"
        );
        Ok(())
    }

    // How many different pages there are that aren't all zero.
    fn distinct(&self, alloc: Global) -> Result<u32> {
        let mut found: Vec<&[u8]> = Vec::new(alloc);
        for (place, flat) in self.flats.iter().enumerate() {
            if !self.is_taken(place) {
                continue;
            }
            for page in flat.bytes().chunks(4096) {
                let is_zero = page.iter().all(|byte| *byte == 0);
                if !is_zero && !found.iter().any(|other| *other == page) {
                    found.push(page)?;
                }
            }
        }
        Ok(u32::try_from(found.len())?)
    }

    // Offers all pages: then as many frames are in use as there are different pages, and none is shared without an entry.
    fn scan(&mut self, alloc: Global) -> Result<()> {
        ensure!(self.memory.has_few_pages(), "there are too many pages");
        let _ = scan_all(&mut self.memory, &FnvHash);
        let distinct = self.distinct(alloc)?;
        let used = self.memory.used();
        ensure!(
            used == distinct,
            "{used} frames are in use for {distinct} contents"
        );
        for place in 0..PLACES {
            for page in 0..MAX {
                ensure!(
                    self.memory.unlisted_frame(place, page).is_none(),
                    "a shared frame has no entry"
                );
            }
        }
        Ok(())
    }

    fn take_steps(&mut self, alloc: Global) -> Result<()> {
        self.begin(alloc)?;
        for step in 0..STEPS {
            self.step(alloc).context(format_args!("step {step}"))?;
            if step % 100 == 99 {
                self.compare()?;
            }
            if step % 600 == 599 {
                self.scan(alloc)?;
                self.compare()?;
            }
        }
        Ok(())
    }
}

/// Takes all steps, and prints a line.
pub fn run(rt: &(impl Print + AllocGlobal)) -> Result<()> {
    let alloc = rt.alloc();
    let mut copies = Copies::new(alloc)?;
    let answer = copies.take_steps(alloc);
    let (made, gone, listed, merged) = copies.finish();
    answer?;
    ensure!(
        made > 40 && gone > 40 && listed > 60 && merged > 10,
        "too little was done: {made} {gone} {listed} {merged}"
    );
    println!(rt; "copies of instances: {STEPS} steps agree")?;
    Ok(())
}
