// Two overlays at once on one memory, which are then written back.

ghost use Rattle.std.specs.Prelude.{◌≡◌, ◌≢◌, ◌+◌, ◌≤◌, [], IfOk, length};
ghost use Rattle.wh_overlay.specs.Over.{AreAtHand, HasGrown, ReadsAreThere, frames_lacking};

use crate::same;
use crate::trial::{MAX, PLACES, Trial, some_count, some_place};
use anyhow::{Context, Result};
use std::alloc::Global;
use test_random::Random;
use wh_flatmem::FlatMemory;
use wh_linmem::LinearMem;
use wh_model::MOST_WASM_PAGES;
use wh_overlay::{Overlay, OverlayPages};
use wh_space::Memory;

// How many pages may be written in each overlay, and how many things are done at most before they are written back.
const ROOM: u16 = 6;

const MOST_STEPS: u32 = 40;

// Does one thing to a memory of which others read, and to a flat one. Whether it could be done at once.
fn step<V: LinearMem>(random: &mut Random, view: &mut V, flat: &mut FlatMemory) -> Result<bool>
    ensures { V.keeps view.old view.new }
{
    let at = some_place(random, flat.size());
    let count = some_count(random);
    let quickly = random.below(2) == 0;
    let given = [random.below(3) as u8; 4096];
    match random.below(16) {
        0 => {
            same::grow(view, flat, random.below(2))?;
            Ok(true)
        }
        1..7 => same::load_if_ready(view, flat, at, count, quickly),
        _ => same::store(view, flat, at, &given[..count], quickly),
    }
}

// Does some things to the memories of the instances at two places in turn, both overlays on one memory that they read.
// What each has written, and how often something couldn't be done.
fn run_two(
    random: &mut Random,
    memory: &Memory,
    flats: &mut [FlatMemory],
    uppers: (OverlayPages, OverlayPages),
    places: (usize, usize),
) -> Result<(OverlayPages, OverlayPages, u32)>
    requires first { (uppers.0.pages ≡ []) × (uppers.0.grown ≡ 0) × (uppers.0.taken ≡ 0)
        × (uppers.0.reads ≡ []) }
    requires second { (uppers.1.pages ≡ []) × (uppers.1.grown ≡ 0) × (uppers.1.taken ≡ 0)
        × (uppers.1.reads ≡ []) }
    ensures hand { IfOk result (λ r. AreAtHand memory.now places.0 r.0.pages
        × AreAtHand memory.now places.1 r.1.pages) }
    ensures frames { IfOk result (λ r. (frames_lacking memory.now places.0 r.0.pages ≤ uppers.0.lent)
        × (frames_lacking memory.now places.1 r.1.pages ≤ uppers.1.lent)) }
    ensures limited { IfOk result (λ r. HasGrown memory.now places.0 r.0
        × HasGrown memory.now places.1 r.1) }
    ensures there { IfOk result (λ r. ReadsAreThere memory.now places.0 r.0
        × ReadsAreThere memory.now places.1 r.1) }
{
    let mut here = Overlay::new(memory, places.0, MOST_WASM_PAGES, uppers.0);
    let mut there = Overlay::new(memory, places.1, MOST_WASM_PAGES, uppers.1);
    let mut refused = 0u32;
    for _ in 0..random.below(MOST_STEPS) {
        let is_done = if random.below(2) == 0 {
            let flat = flats.get_mut(places.0).context("nobody is there")?;
            step(random, &mut here, flat)?
        } else {
            let flat = flats.get_mut(places.1).context("nobody is there")?;
            step(random, &mut there, flat)?
        };
        if !is_done {
            refused = refused.saturating_add(1);
        }
    }
    Ok((here.into_upper(), there.into_upper(), refused))
}

// Writes back what two instances at different places have written in their overlays.
fn lay_two(memory: &mut Memory, uppers: (OverlayPages, OverlayPages), places: (usize, usize))
    requires apart { places.1 ≢ places.0 }
    requires first { AreAtHand memory.old places.0 uppers.0.pages }
    requires second { AreAtHand memory.old places.1 uppers.1.pages }
    requires frames { frames_lacking memory.old places.0 uppers.0.pages
        + frames_lacking memory.old places.1 uppers.1.pages ≤ length memory.old.pool.free }
    requires first_limit { HasGrown memory.old places.0 uppers.0 }
    requires second_limit { HasGrown memory.old places.1 uppers.1 }
    requires first_there { ReadsAreThere memory.old places.0 uppers.0 }
    requires second_there { ReadsAreThere memory.old places.1 uppers.1 }
{
    let (mut here, mut there) = uppers;
    here.lay(memory, places.0);
    there.lay(memory, places.1);
}

impl Trial {
    /// Does some things to the memories of two instances in turn, both over one memory that they read, and then writes
    /// back what each has written.
    pub fn run_beside(&mut self, alloc: Global) -> Result<()> {
        let first = self.random.below(PLACES - 1) as usize;
        let places = (first, PLACES as usize - 1);
        let mut here = OverlayPages::new(alloc, ROOM, MAX as usize)?;
        let mut there = OverlayPages::new(alloc, ROOM, MAX as usize)?;
        let free = self.memory.free();
        let lent = self.random.below(free.saturating_add(1)).min(free);
        here.lend(lent);
        there.lend(free - lent);
        let (here, there, refused) = run_two(
            &mut self.random,
            &self.memory,
            &mut self.flats,
            (here, there),
            places,
        )?;
        lay_two(&mut self.memory, (here, there), places);
        if self.memory.free() < free {
            self.counts.took = self.counts.took.saturating_add(1);
        }
        self.counts.laid = self.counts.laid.saturating_add(1);
        self.counts.not_beside = self.counts.not_beside.saturating_add(refused);
        Ok(())
    }
}
