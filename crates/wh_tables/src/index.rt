// The index of all frames: which pages map to each, to whom it is charged, and how many touched pages map to it.

ghost use Rattle.std.specs.Prelude.{ℕ, ◌≡◌, ◌+◌, ◌-◌, ◌<◌, ◌≤◌, ◌^◌, true, false, Some, None, IfOk, IfSome, IsTrue, OnErr, OnOk, length, map, replicate, get_or, slice_set};
ghost use Rattle.wh_space_model.specs.declared.states.Page.{Page};
ghost use Rattle.wh_space_model.specs.declared.states.Page.TheVariants.{Untouched};
ghost use Rattle.wh_space_model.specs.Charges.{stands_on};
ghost use Rattle.wh_tables.specs.Index.{CountsOneMore, HoldsOff, HoldsOn, IsIndexBut, IsIndexOf, Marked, counts_at, empty_index, one_if_touched, with_newcomer, without_active, with_mark, with_page};
ghost use Rattle.wh_tables.specs.Line.{IsLineOf};
ghost use Rattle.wh_tables.specs.Order.{HasLinks, IsAsLarge, IsInRange, next_in, prior_in};

use crate::order::{PageOrder, put_row};
use crate::page_id::PageId;
use std::alloc::{AllocError, Global};
use std::marker::Model;
use wh_space_model::InstId;

// How many frames are charged to an instance, and on how many of these a touched page stands.
#[derive(Clone, Copy)]
pub struct Counts {
    pub charged: u32,
    pub active: u32,
}

#[derive(Drop)]
pub struct Index {
    order: PageOrder,
    // By place.
    counts: Vec<Counts>,
    // By frame, how many touched pages map to it.
    touchers: Vec<u64>,
}

impl Model for Index {
    ghost use Rattle.wh_tables.specs.Index.{Counted, counted_of};

    ghost Value = { Counted };

    ghost view = { counted_of };

    ghost invariant = { λ a. Unit };
}

// One frame more is counted, whose first page is this one, with a touched page on it or none.
fn count(counts: &mut Vec<Counts>, first: Option<PageId>, touched: bool)
    requires charged { IfSome first (λ id. (id.place < length counts.old.items)
        × ((counts_at counts.old.items id.place).charged + 1 < 2 ^ 32)) }
    requires active { IfSome first (λ id.
        IsTrue touched → (counts_at counts.old.items id.place).active + 1 < 2 ^ 32) }
    ensures { CountsOneMore first touched counts.old.items counts.new.items }
{
    if let Some(id) = first {
        let here = &mut counts[id.place as usize];
        here.charged += 1;
        if touched {
            here.active += 1;
        }
    }
}

// One frame less.
fn uncount(counts: &mut Vec<Counts>, first: Option<PageId>, touched: bool)
    requires charged { IfSome first (λ id. (id.place < length counts.old.items)
        × (1 ≤ (counts_at counts.old.items id.place).charged)) }
    requires active { IfSome first (λ id.
        IsTrue touched → 1 ≤ (counts_at counts.old.items id.place).active) }
    ensures { CountsOneMore first touched counts.new.items counts.old.items }
{
    if let Some(id) = first {
        let here = &mut counts[id.place as usize];
        here.charged -= 1;
        if touched {
            here.active -= 1;
        }
    }
}

// A page of this frame less is touched, or as many.
fn untouch(touchers: &mut Vec<u64>, frame: u32, touched: bool)
    requires frame { frame < length touchers.old.items }
    requires some { one_if_touched touched ≤ get_or touchers.old.items frame 0 }
    ensures { touchers.new.items ≡ slice_set touchers.old.items frame
        (get_or touchers.old.items frame 0 - one_if_touched touched) }
{
    if touched {
        touchers[frame as usize] -= 1;
    }
}

// One more, or as many.
fn touch(touchers: &mut Vec<u64>, frame: u32, touched: bool)
    requires frame { frame < length touchers.old.items }
    requires few { get_or touchers.old.items frame 0 + 1 < 2 ^ 64 }
    ensures { touchers.new.items ≡ slice_set touchers.old.items frame
        (get_or touchers.old.items frame 0 + one_if_touched touched) }
{
    if touched {
        touchers[frame as usize] += 1;
    }
}

// No frame of any instance is counted as one with a touched page.
fn clear_active(counts: &mut Vec<Counts>)
    ensures { counts.new.items ≡ map without_active counts.old.items }
{
    for place in 0..counts.len() {
        let here = &mut counts[place];
        here.active = 0;
    }
}

impl Index {
    // Counts a frame for nobody any more.
    fn set_aside(&mut self, frame: u32)
        requires index { (held : Marked) × IsIndexOf self.old held }
        requires frame { frame < length self.old.chains.ends }
        ensures index { (held : Marked) → IsIndexOf self.old held → IsIndexBut frame self.new held }
        ensures chains { self.new.chains ≡ self.old.chains }
        ensures touchers { self.new.touchers ≡ self.old.touchers }
    {
        let touchers = self.touchers[frame as usize];
        uncount(&mut self.counts, self.order.next(frame, None), touchers > 0);
    }

    // Counts it again, for the instance of the first page on it.
    fn take_back(&mut self, frame: u32)
        requires index { (held : Marked) × IsIndexBut frame self.old held }
        requires frame { frame < length self.old.chains.ends }
        ensures index { (held : Marked) → IsIndexBut frame self.old held → IsIndexOf self.new held }
        ensures chains { self.new.chains ≡ self.old.chains }
    {
        let touchers = self.touchers[frame as usize];
        count(&mut self.counts, self.order.next(frame, None), touchers > 0);
    }

    /// Takes a page off the frame to which it maps.
    pub fn leave(&mut self, frame: u32, id: PageId, touched: bool)
        requires { (held : Marked) × HoldsOn self.old held frame id touched }
        ensures index { (held : Marked) → HoldsOn self.old held frame id touched
            → IsIndexOf self.new (with_page held id Untouched) }
        ensures large { IsAsLarge self.old.chains self.new.chains }
    {
        self.set_aside(frame);
        self.order.take_off(frame, id);
        untouch(&mut self.touchers, frame, touched);
        self.take_back(frame);
    }

    /// Maps a page to a frame.
    pub fn come(&mut self, frame: u32, id: PageId, touched: bool)
        requires held { (held : Marked) × (was : Page) × (page : Page)
            × HoldsOff self.old held id was touched × (stands_on frame page ≡ 1) }
        requires within { IsInRange self.old.chains frame id }
        ensures index { (held : Marked) (was page : Page) → HoldsOff self.old held id was touched
            → stands_on frame page ≡ 1 → IsIndexOf self.new (with_page held id page) }
        ensures large { IsAsLarge self.old.chains self.new.chains }
    {
        self.set_aside(frame);
        self.order.put_on(frame, id);
        touch(&mut self.touchers, frame, touched);
        self.take_back(frame);
    }

    /// Marks a resident page as touched, which it wasn't.
    pub fn mark(&mut self, frame: u32, id: PageId)
        requires { (held : Marked) × HoldsOn self.old held frame id false }
        ensures index { (held : Marked) → HoldsOn self.old held frame id false
            → IsIndexOf self.new (with_mark held id true) }
        ensures large { IsAsLarge self.old.chains self.new.chains }
    {
        self.set_aside(frame);
        touch(&mut self.touchers, frame, true);
        self.take_back(frame);
    }

    /// Clears the mark of touch of a resident page, which had it.
    pub fn unmark(&mut self, frame: u32, id: PageId)
        requires { (held : Marked) × HoldsOn self.old held frame id true }
        ensures index { (held : Marked) → HoldsOn self.old held frame id true
            → IsIndexOf self.new (with_mark held id false) }
        ensures large { IsAsLarge self.old.chains self.new.chains }
    {
        self.set_aside(frame);
        untouch(&mut self.touchers, frame, true);
        self.take_back(frame);
    }

    /// Creates the index of no instance, in which no page maps to any of `frames` frames.
    pub fn new(alloc: Global, frames: u32) -> Result<Index, AllocError>
        ensures { IfOk result (λ index. index ≡ empty_index frames) }
    {
        let order = PageOrder::new(alloc, frames)?;
        let touchers = vec![in alloc; 0; frames as usize]?;
        Ok(Index {
            order,
            counts: Vec::new(alloc),
            touchers,
        })
    }

    /// Gives an instance of this number a place, or the next one after all, with links for `pages` pages. Changes
    /// nothing if an allocation fails.
    pub fn enter(
        &mut self,
        alloc: Global,
        place: usize,
        number: u64,
        pages: u32,
    ) -> Result<(), AllocError>
        requires place { place ≤ length self.old.chains.numbers }
        requires links { length self.old.chains.links ≡ length self.old.chains.numbers }
        requires counts { length self.old.counts ≡ length self.old.chains.numbers }
        ensures ok { OnOk result (self.new ≡ with_newcomer self.old place number pages) }
        ensures err { OnErr result (self.new ≡ self.old) }
    {
        self.counts.reserve(1)?;
        self.order.enter(alloc, place, number, pages)?;
        let none = Counts {
            charged: 0,
            active: 0,
        };
        put_row(&mut self.counts, place, none);
        Ok(())
    }

    /// Returns the first page on a frame.
    pub fn first(&self, frame: u32) -> Option<PageId>
        requires { frame < length self.now.chains.ends }
        ensures { result ≡ next_in self.now.chains frame None }
    {
        self.order.next(frame, None)
    }

    /// Returns the page on a frame before this one there, or the last of all.
    pub fn prior(&self, frame: u32, at: Option<PageId>) -> Option<PageId>
        requires { HasLinks self.now.chains frame at }
        ensures page { result ≡ prior_in self.now.chains frame at }
        ensures small { IfSome result (λ id. (id.place < 2 ^ 32) × (id.page < 2 ^ 32)) }
    {
        self.order.prior(frame, at)
    }

    /// Returns who came last to each place, in the order of numbers.
    pub fn line(&self) -> &[InstId]
        ensures { IsLineOf self.now.chains.numbers result.now }
    {
        self.order.line()
    }

    /// Returns the number of frames that are charged to the instance at this place, and on how many of these a page was
    /// touched.
    pub fn counts(&self, place: usize) -> Counts
        ensures { result ≡ counts_at self.now.counts place }
    {
        if place < self.counts.len() {
            self.counts[place]
        } else {
            Counts {
                charged: 0,
                active: 0,
            }
        }
    }

    /// Returns the number of touched pages on a frame.
    pub fn touchers(&self, frame: u32) -> u64
        requires { frame < length self.now.touchers }
        ensures { result ≡ get_or self.now.touchers frame 0 }
    {
        self.touchers[frame as usize]
    }

    /// Clears all marks of touch.
    pub fn clear_marks(&mut self)
        ensures { self.new ≡ record self.old {
          counts = map without_active self.old.counts;
          touchers = replicate (length self.old.touchers) 0;
        } }
    {
        clear_active(&mut self.counts);
        self.touchers.fill(0);
    }
}
