// Four memories on shared frames and four flat ones, to which the same is done.

ghost use Rattle.std.specs.Prelude.{◌≤◌};

use crate::arrivals::{enter, let_go};
use crate::same;
use anyhow::{Context, Result, ensure};
use std::alloc::Global;
use test_random::Random;
use wh_flatmem::FlatMemory;
use wh_kernels::PageHash;
use wh_linmem::LinearMem;
use wh_model::MOST_WASM_PAGES;
use wh_scan::{offer, scan_all, take};
use wh_space::{Memory, Promise, View};
use wh_space_model::{Offer, Tax};

// How many memories there are, how many frames they have together, and how many pages of 4096 bytes each may have.
pub const PLACES: u32 = 4;

const FRAMES: u32 = 96;

pub const MAX: u32 = 48;

// How often each answer of an offer came, how often a store found no frame, how often what two have written was written
// back, how often something couldn't be done in an overlay, and how often frames were taken where it was written
// back.
#[derive(Clone, Copy, Debug, Default)]
pub struct Counts {
    pub skipped: u32,
    pub zeroed: u32,
    pub hinted: u32,
    pub stale: u32,
    pub merged: u32,
    pub false_match: u32,
    pub not_ready: u32,
    pub laid: u32,
    pub not_beside: u32,
    pub took: u32,
}

// The memories, by place.
pub struct Trial {
    pub memory: Memory,
    pub flats: Vec<FlatMemory>,
    pub random: Random,
    pub counts: Counts,
}

/// Returns an address in a memory of `size` pages of 65536 bytes, often near the end of a page of 4096; now and then it
/// is beyond.
pub fn some_place(random: &mut Random, size: u32) -> u64 {
    let page = random.below(size.min(4) * 16 + 1);
    let near = 4090 + random.below(6);
    let any = random.below(4096);
    let offset = match random.below(4) {
        0 => near,
        1 => any,
        _ => 0,
    };
    4096 * u64::from(page) + u64::from(offset)
}

/// Returns how many bytes to read or write: a whole page, some of it, those of a number, or none.
pub fn some_count(random: &mut Random) -> usize
    ensures { result ≤ 4096 }
{
    let few = random.below(9) as usize;
    let any = random.below(4097) as usize;
    match random.below(4) {
        0 => any,
        1 | 2 => few,
        _ => 4096,
    }
}

impl Trial {
    /// Creates memories without instances.
    pub fn new(alloc: Global) -> Result<Trial> {
        let tax = Tax { num: 3, den: 4 };
        Ok(Trial {
            memory: Memory::new(alloc, FRAMES, 4096, tax)?,
            flats: Vec::new(alloc),
            random: Random::new(0x9E37_79B9_7F4A_7C15),
            counts: Counts::default(),
        })
    }

    /// Gives an instance each place, with one page of 65536 zeros.
    pub fn begin(&mut self, alloc: Global) -> Result<()> {
        for place in 0..PLACES as usize {
            let promise = Promise {
                number: place as u64,
                shares: 100,
                min: 2,
                max: MAX,
            };
            let is_there = enter(&mut self.memory, alloc, place, promise, 1);
            ensure!(is_there, "an instance doesn't come to its place");
            self.flats.push(FlatMemory::new(alloc, 1, MAX / 16)?)?;
        }
        Ok(())
    }

    /// Ends them; returns how often each answer came.
    pub fn finish(self) -> Counts {
        let Trial {
            memory,
            flats: _,
            random: _,
            counts,
        } = self;
        let_go(memory);
        counts
    }

    /// Does one thing. With `astray`, offers pages under the hashes of others, too.
    pub fn step<H: PageHash>(&mut self, alloc: Global, hasher: &H, astray: bool) -> Result<()> {
        match self.random.below(64) {
            0 => self.grow(),
            1 => self.run_beside(alloc),
            2..16 => self.load(),
            16..40 => self.store(),
            _ => self.offer(hasher, astray),
        }
    }

    fn load(&mut self) -> Result<()> {
        let place = self.random.below(PLACES) as usize;
        let quickly = self.random.below(2) == 0;
        let flat_size = self.size(place)?;
        let at = some_place(&mut self.random, flat_size);
        let count = some_count(&mut self.random);
        let flat = self.flats.get_mut(place).context("nobody is there")?;
        let mut view = View {
            memory: &mut self.memory,
            place,
            page_limit: MOST_WASM_PAGES,
        };
        same::load(&mut view, flat, at, count, quickly)
    }

    fn store(&mut self) -> Result<()> {
        let place = self.random.below(PLACES) as usize;
        let quickly = self.random.below(2) == 0;
        let flat_size = self.size(place)?;
        let at = some_place(&mut self.random, flat_size);
        let count = some_count(&mut self.random);
        let given = [self.random.below(3) as u8; 4096];
        let flat = self.flats.get_mut(place).context("nobody is there")?;
        let mut view = View {
            memory: &mut self.memory,
            place,
            page_limit: MOST_WASM_PAGES,
        };
        if !same::store(&mut view, flat, at, &given[..count], quickly)? {
            self.counts.not_ready = self.counts.not_ready.saturating_add(1);
        }
        Ok(())
    }

    fn grow(&mut self) -> Result<()> {
        let place = self.random.below(PLACES) as usize;
        let pages = self.random.below(3);
        let flat = self.flats.get_mut(place).context("nobody is there")?;
        let mut view = View {
            memory: &mut self.memory,
            place,
            page_limit: MOST_WASM_PAGES,
        };
        same::grow(&mut view, flat, pages)
    }

    // How many pages of 65536 bytes the memory at this place has.
    fn size(&self, place: usize) -> Result<u32> {
        let flat = self.flats.get(place).context("nobody is there")?;
        Ok(flat.size())
    }

    // Offers a page, of a place at which nobody is now and then, or of an instance that isn't there.
    fn offer<H: PageHash>(&mut self, hasher: &H, astray: bool) -> Result<()> {
        let place = self.random.below(PLACES + 1);
        let page = self.random.below(MAX + 2);
        let strange = self.random.below(16) == 0;
        let number = if strange { 77 } else { u64::from(place) };
        let other = (self.random.below(PLACES), self.random.below(MAX));
        let wild = self.random.below(8);
        let from = if astray && wild < 2 {
            other
        } else {
            (place, page)
        };
        let hash = match take(&self.memory, from.0, from.1) {
            Some(_) if astray && wild > 5 => u64::from(wild),
            Some(sample) => hasher.hash(&sample.bytes),
            None => 0,
        };
        ensure!(self.memory.has_few_pages(), "there are too many pages");
        let answer = offer(&mut self.memory, hasher, place, number, page, hash);
        ensure!(
            !strange || answer == Offer::Skipped,
            "a stranger's page was taken"
        );
        self.count(answer);
        Ok(())
    }

    fn count(&mut self, answer: Offer) {
        let counts = &mut self.counts;
        let times = match answer {
            Offer::Skipped => &mut counts.skipped,
            Offer::Zeroed => &mut counts.zeroed,
            Offer::Hinted => &mut counts.hinted,
            Offer::Stale => &mut counts.stale,
            Offer::Merged => &mut counts.merged,
            Offer::FalseMatch => &mut counts.false_match,
        };
        *times = times.saturating_add(1);
    }

    /// Compares all bytes of all memories, and the sums of frames.
    pub fn compare(&mut self) -> Result<()> {
        for place in 0..PLACES as usize {
            let flat = self.flats.get_mut(place).context("nobody is there")?;
            let mut view = View {
                memory: &mut self.memory,
                place,
                page_limit: MOST_WASM_PAGES,
            };
            same::compare(&mut view, flat)?;
        }
        let mut alone = 0u32;
        for place in 0..PLACES {
            for page in 0..MAX {
                if self.memory.private_frame(place, page).is_some() {
                    alone = alone.saturating_add(1);
                }
            }
        }
        let (shared, _) = self.memory.sharing();
        let used = self.memory.used();
        ensure!(used == alone.saturating_add(shared), "a frame is nobody's");
        ensure!(
            used.saturating_add(self.memory.free()) == FRAMES,
            "a frame is lost"
        );
        Ok(())
    }

    // How many different pages there are that aren't all zero.
    fn distinct(&self, alloc: Global) -> Result<u32> {
        let mut found: Vec<&[u8]> = Vec::new(alloc);
        for flat in self.flats.iter() {
            for page in flat.bytes().chunks(4096) {
                let is_zero = page.iter().all(|byte| *byte == 0);
                if !is_zero && !found.iter().any(|other| *other == page) {
                    found.push(page)?;
                }
            }
        }
        Ok(u32::try_from(found.len())?)
    }

    /// Offers all pages, and checks how many frames that leaves in use: as many as there are different pages, if the
    /// hash tells them apart and none was ever offered under another's; else no fewer.
    pub fn scan<H: PageHash>(&mut self, alloc: Global, hasher: &H, exactly: bool) -> Result<()> {
        ensure!(self.memory.has_few_pages(), "there are too many pages");
        let _ = scan_all(&mut self.memory, hasher);
        let distinct = self.distinct(alloc)?;
        let used = self.memory.used();
        ensure!(
            used >= distinct && (!exactly || used == distinct),
            "{used} frames are in use for {distinct} contents"
        );
        Ok(())
    }
}
