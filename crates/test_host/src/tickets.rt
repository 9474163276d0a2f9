// Pages that begin to leave and to come, and tickets that come back.

ghost use Rattle.std.specs.Prelude.{◌≡◌, ◌+◌, ◌<◌, [], cond, is_ok, length, slice_set, vec_len};
ghost use Rattle.wh_swap.specs.Written.{page_held};

use crate::rig::Rig;
use crate::store::Store;
use anyhow::{Result, ensure};
use std::alloc::Global;
use std::cell::Cell;
use std::rc::Rc;
use wh_reclaim::{EvictTicket, FetchTicket};
use wh_space_model::{EvictEnd, FetchEnd, InstId, SwapError};
use wh_swap::{PageSwap, SwapDev};

// The device is asked to write a page that leaves, and may fail.
fn written(
    device: &mut PageSwap<Store>,
    failing: &Rc<Cell<u32>>,
    fails: bool,
    ticket: &EvictTicket,
) -> Result<(), SwapError>
    requires { ticket.now.slot < length (page_held device.old) }
    ensures { page_held device.new ≡ slice_set (page_held device.old) ticket.now.slot
        (cond (is_ok result) ticket.now.bytes []) }
{
    failing.set(u32::from(fails));
    let answer = device.write(ticket.slot(), ticket.bytes());
    failing.set(0);
    answer
}

// It is asked to read a page that comes, and may fail.
fn read(
    device: &mut PageSwap<Store>,
    failing: &Rc<Cell<u32>>,
    fails: bool,
    ticket: &mut FetchTicket,
) -> Result<(), SwapError>
    requires { ticket.old.slot < length (page_held device.old) }
    ensures held { page_held device.new ≡ page_held device.old }
    ensures slot { ticket.new.slot ≡ ticket.old.slot }
{
    failing.set(u32::from(fails));
    let slot = ticket.slot();
    let answer = device.read(slot, ticket.bytes_mut());
    failing.set(0);
    answer
}

impl Rig {
    /// Begins to evict a page for an instance; tells whether one could be.
    pub fn evict_begin(&mut self, alloc: Global, id: InstId) -> Result<bool> {
        let buf = Box::new(alloc, [0; 4096])?;
        self.leaving.reserve(1)?;
        let awaits = self.host.awaits_frame(id);
        match self.host.evict_begin(id, buf) {
            Ok(eviction) => {
                self.leaving.push_reserved(eviction);
                ensure!(awaits, "a page leaves for nobody");
                Ok(true)
            }
            Err(_) => Ok(false),
        }
    }

    /// Begins to fetch a page for an instance; tells whether one could be.
    pub fn fetch_begin(&mut self, alloc: Global, id: InstId) -> Result<bool> {
        let buf = Box::new(alloc, [0; 4096])?;
        self.coming.reserve(1)?;
        let awaits = self.host.awaits_frame(id);
        match self.host.fetch_begin(id, buf) {
            Ok(fetched) => {
                self.coming.push_reserved(fetched);
                ensure!(awaits, "a page comes for nobody");
                Ok(true)
            }
            Err(_) => Ok(false),
        }
    }

    /// Ends the oldest eviction: writes the page, or lets the device fail, and gives the ticket back. Returns `None` if
    /// no page is being evicted.
    pub fn evict_commit(&mut self, fails: bool) -> Option<EvictEnd>
        ensures back { 0 < vec_len self.old.leaving
            → vec_len self.new.leaving + 1 ≡ vec_len self.old.leaving }
        ensures others { vec_len self.new.coming ≡ vec_len self.old.coming }
    {
        if self.leaving.is_empty() {
            return None;
        }
        let eviction = self.leaving.remove(0);
        let answer = written(&mut self.device, &self.failing, fails, &eviction.ticket);
        let (end, _) = self.host.evict_commit(eviction, answer);
        self.seen.note_eviction(end);
        Some(end)
    }

    /// Ends the oldest fetch: reads the page, or lets the device fail, and gives the ticket back. Returns `None` if no
    /// page is being fetched.
    pub fn fetch_commit(&mut self, fails: bool) -> Option<FetchEnd>
        ensures back { 0 < vec_len self.old.coming
            → vec_len self.new.coming + 1 ≡ vec_len self.old.coming }
        ensures others { vec_len self.new.leaving ≡ vec_len self.old.leaving }
    {
        if self.coming.is_empty() {
            return None;
        }
        let mut fetched = self.coming.remove(0);
        let answer = read(&mut self.device, &self.failing, fails, &mut fetched.ticket);
        let (end, _) = self.host.fetch_commit(fetched, answer);
        self.seen.note_fetch(end);
        Some(end)
    }

    /// Ends the oldest fetch as if another device was asked, and had this fault. The slot is as it was.
    pub fn fetch_fails(&mut self, fault: SwapError) -> Option<FetchEnd> {
        if self.coming.is_empty() {
            return None;
        }
        let fetched = self.coming.remove(0);
        let (end, _) = self.host.fetch_commit(fetched, Err(fault));
        self.seen.note_fetch(end);
        Some(end)
    }

    // All pages that leave stay.
    fn end_leaving(&mut self)
        ensures none { vec_len self.new.leaving ≡ 0 }
        ensures others { vec_len self.new.coming ≡ vec_len self.old.coming }
    {
        while !self.leaving.is_empty() {
            let _ = self.evict_commit(true);
        }
    }

    // All pages that come stay in their slots.
    fn end_coming(&mut self)
        ensures none { vec_len self.new.coming ≡ 0 }
        ensures others { vec_len self.new.leaving ≡ vec_len self.old.leaving }
    {
        while !self.coming.is_empty() {
            let _ = self.fetch_commit(true);
        }
    }

    /// Ends the test: gives all tickets back, as if each device call had failed.
    pub fn finish(mut self) {
        self.end_leaving();
        self.end_coming();
        let Rig {
            host: _,
            module: _,
            device: _,
            failing: _,
            seen: _,
            leaving,
            coming,
        } = self;
        leaving.destroy_empty();
        coming.destroy_empty();
    }
}
