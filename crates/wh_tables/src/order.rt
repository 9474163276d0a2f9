// The pages on each frame, in order.

ghost use Rattle.std.specs.Prelude.{ℕ, ◌≡◌, ◌<◌, ◌≤◌, ◌^◌, List, [], Some, None, IfOk, IfSome, MatchBool, OnErr, OnOk, length, replicate, get_or, slice_get, vec_len, vec_capacity};
ghost use Rattle.wh_space_model.specs.Places.{with_row};
ghost use Rattle.wh_space_model.specs.States.{page_at, put};
ghost use Rattle.wh_space_model.specs.declared.states.Page.{Page};
ghost use Rattle.wh_space_model.specs.declared.states.Page.TheVariants.{Untouched};
ghost use Rattle.wh_space_model.specs.Charges.{stands_on};
ghost use Rattle.wh_tables.specs.Line.{IsLineOf};
ghost use Rattle.wh_tables.specs.Order.{ComesBefore, ComesBehind, HasLinks, HasNext, HasPrior, IsAsLarge, IsInOrder, IsInRange, StandsNowhere, StandsOn, next_in, prior_in};

use crate::line::join_line;
use crate::page_id::PageId;
use std::alloc::{AllocError, Global};
use std::marker::Model;
use wh_space_model::InstId;

// What leads from a page on a frame to those beside it there: to the next one, and to the one before.
#[derive(Clone, Copy)]
pub struct Link {
    pub next: Option<PageId>,
    pub prior: Option<PageId>,
}

// The first and the last page on a frame.
#[derive(Clone, Copy)]
pub struct Ends {
    pub first: Option<PageId>,
    pub last: Option<PageId>,
}

// The numbers of the instances by place, the links of all their pages, and the ends of each frame. Pages on a frame are
// ordered by the numbers of their instances, and then by their own. Beside them the instances stand in the order of their
// numbers.
#[derive(Drop)]
pub struct PageOrder {
    numbers: Vec<u64>,
    links: Vec<Vec<Link>>,
    ends: Vec<Ends>,
    line: Vec<InstId>,
}

impl Model for PageOrder {
    ghost use Rattle.wh_tables.specs.Order.{Chains, chains_of};

    ghost Value = { Chains };

    ghost view = { chains_of };

    ghost use Rattle.wh_tables.specs.Order.{IsOrdered};

    ghost invariant = { IsOrdered };
}

/// Writes a row at a place, which may be the next one.
pub fn put_row<T: Drop>(rows: &mut Vec<T>, place: usize, row: T)
    requires place { place ≤ length rows.old.items }
    requires room { vec_len rows.old < vec_capacity rows.old }
    ensures { rows.new.items ≡ with_row rows.old.items place row }
{
    if place < rows.len() {
        rows[place] = row;
    } else {
        rows.push_reserved(row);
    }
}

impl PageOrder {
    /// Creates the order of no instance, in which no page maps to any of `frames` frames.
    pub fn new(alloc: Global, frames: u32) -> Result<PageOrder, AllocError>
        ensures { IfOk result (λ order. order ≡ record {
          numbers = [];
          links = [];
          ends = replicate frames (record { first = None; last = None });
        }) }
    {
        let none = Ends {
            first: None,
            last: None,
        };
        let ends = vec![in alloc; none; frames as usize]?;
        Ok(PageOrder {
            numbers: Vec::new(alloc),
            links: Vec::new(alloc),
            ends,
            line: Vec::new(alloc),
        })
    }

    /// Gives an instance of this number a place, or the next one after all, with links for `pages` pages. Changes
    /// nothing if an allocation fails.
    pub fn enter(
        &mut self,
        alloc: Global,
        place: usize,
        number: u64,
        pages: u32,
    ) -> Result<(), AllocError>
        requires place { place ≤ length self.old.numbers }
        requires places { length self.old.links ≡ length self.old.numbers }
        ensures ok { OnOk result (self.new ≡ record self.old {
          numbers = with_row self.old.numbers place number;
          links = with_row self.old.links place (replicate pages (record { next = None; prior = None }));
        }) }
        ensures err { OnErr result (self.new ≡ self.old) }
    {
        let none = Link {
            next: None,
            prior: None,
        };
        let row = vec![in alloc; none; pages as usize]?;
        self.numbers.reserve(1)?;
        self.links.reserve(1)?;
        self.line.reserve(1)?;
        join_line(&mut self.line, &self.numbers, InstId { place, number });
        put_row(&mut self.numbers, place, number);
        put_row(&mut self.links, place, row);
        Ok(())
    }

    /// Returns who came last to each place, in the order of numbers.
    pub fn line(&self) -> &[InstId]
        ensures { IsLineOf self.now.numbers result.now }
    {
        &self.line
    }

    // The links of a page.
    fn link(&self, id: PageId) -> Link
        requires { HasLinks self.now 0 (Some id) }
        ensures { page_at self.now.links id.place id.page ≡ Some result }
    {
        let row = &self.links[id.place as usize];
        row[id.page as usize]
    }

    // The ends of a frame.
    fn ends_of(&self, frame: u32) -> Ends
        requires { frame < length self.now.ends }
        ensures { slice_get self.now.ends frame ≡ Some result }
    {
        self.ends[frame as usize]
    }

    /// Returns the page on a frame after this one there, or the first of all.
    pub fn next(&self, frame: u32, at: Option<PageId>) -> Option<PageId>
        requires { HasLinks self.now frame at }
        ensures { result ≡ next_in self.now frame at }
    {
        match at {
            None => self.ends_of(frame).first,
            Some(id) => self.link(id).next,
        }
    }

    /// Returns the page on a frame before this one there, or the last of all.
    pub fn prior(&self, frame: u32, at: Option<PageId>) -> Option<PageId>
        requires { HasLinks self.now frame at }
        ensures page { result ≡ prior_in self.now frame at }
        ensures small { IfSome result (λ id. (id.place < 2 ^ 32) × (id.page < 2 ^ 32)) }
    {
        match at {
            None => self.ends_of(frame).last,
            Some(id) => self.link(id).prior,
        }
    }

    // From this stop another page is the next one now.
    fn set_next(&mut self, frame: u32, at: Option<PageId>, to: Option<PageId>)
        requires { HasLinks self.old frame at }
        ensures { HasNext self.old frame at to self.new }
    {
        match at {
            None => self.ends[frame as usize].first = to,
            Some(id) => {
                let row = &mut self.links[id.place as usize];
                row[id.page as usize].next = to;
            }
        }
    }

    fn set_prior(&mut self, frame: u32, at: Option<PageId>, to: Option<PageId>)
        requires { HasLinks self.old frame at }
        ensures { HasPrior self.old frame at to self.new }
    {
        match at {
            None => self.ends[frame as usize].last = to,
            Some(id) => {
                let row = &mut self.links[id.place as usize];
                row[id.page as usize].prior = to;
            }
        }
    }

    // Whether one page comes before another.
    fn comes_before(&self, one: PageId, other: PageId) -> bool
        requires one { one.place < length self.now.numbers }
        requires other { other.place < length self.now.numbers }
        ensures { MatchBool result (ComesBefore self.now.numbers one other)
            (¬ ComesBefore self.now.numbers one other) }
    {
        let first = self.numbers[one.place as usize];
        let second = self.numbers[other.place as usize];
        if first != second {
            return first < second;
        }
        if one.place != other.place {
            return one.place < other.place;
        }
        one.page < other.page
    }

    // The last page on a frame that comes before this one, which isn't there; it is looked for from the last one on.
    fn behind(&self, frame: u32, id: PageId) -> Option<PageId>
        requires in_order { (pages : List (List Page)) × IsInOrder self.now pages }
        requires frame { frame < length self.now.ends }
        requires id { id.place < length self.now.numbers }
        ensures { (pages : List (List Page)) → IsInOrder self.now pages
            → ComesBehind self.now pages frame result id }
    {
        let mut at = self.prior(frame, None);
        while let Some(page) = at {
            if self.comes_before(page, id) {
                break;
            }
            at = self.prior(frame, Some(page));
        }
        at
    }

    /// Unlinks a page from the frame to which it maps.
    pub fn take_off(&mut self, frame: u32, id: PageId)
        requires { (pages : List (List Page)) × IsInOrder self.old pages × StandsOn pages frame id }
        ensures in_order { (pages : List (List Page)) → IsInOrder self.old pages
            → StandsOn pages frame id → IsInOrder self.new (put pages id.place id.page Untouched) }
        ensures large { IsAsLarge self.old self.new }
    {
        let next = self.next(frame, Some(id));
        let prior = self.prior(frame, Some(id));
        self.set_next(frame, prior, next);
        self.set_prior(frame, next, prior);
    }

    /// Links a page, which isn't resident, among those on a frame, in their order.
    pub fn put_on(&mut self, frame: u32, id: PageId)
        requires in_order { (pages : List (List Page)) × IsInOrder self.old pages }
        requires within { IsInRange self.old frame id }
        ensures in_order { (pages : List (List Page)) (was page : Page) → IsInOrder self.old pages
            → page_at pages id.place id.page ≡ Some was → StandsNowhere was
            → stands_on frame page ≡ 1 → IsInOrder self.new (put pages id.place id.page page) }
        ensures large { IsAsLarge self.old self.new }
    {
        let prior = self.behind(frame, id);
        let next = self.next(frame, prior);
        self.set_next(frame, Some(id), next);
        self.set_prior(frame, Some(id), prior);
        self.set_next(frame, prior, Some(id));
        self.set_prior(frame, next, Some(id));
    }
}
