// What is done to the memory of many instances, step by step, and what has to come of it.

use crate::access::{Access, End};
use wh_reclaim::PageOf;
use wh_space_model::{Offer, Tax};

/// A hash.
#[derive(Clone, Copy)]
pub enum Key {
    /// The one that was noted.
    Noted,
    /// This one.
    Number(u64),
}

/// What is found under a hash.
#[derive(Clone, Copy)]
pub enum Found {
    /// Nothing.
    Nothing,
    /// A hint, or a shared frame.
    Something,
    /// The hint of the page of this number at a place, which has a frame of its own.
    HintOf(u32, u32),
}

/// What is done, and what has to come of it. First stands a place, then where there are both a number, an address or the number of
/// a page of 4096 bytes.
#[derive(Clone, Copy)]
pub enum Step {
    /// The instance of this number gets a place, with this many pages of 65536 bytes: both are free, and there are
    /// frames and slots for it.
    Enter(usize, u64, u32),
    /// The instance of this number goes from a place, or isn't there.
    Exit(u32, u64, bool),
    /// A store of these bytes at an address.
    Store(usize, u64, &'static [u8], End),
    /// A load at an address: the bytes that are there then.
    Load(usize, u64, &'static [u8], End),
    /// Whether this many bytes from an address on are ready to be written.
    Ready(usize, u64, usize, bool),
    /// What is done to the linear memory of whoever is at a place, which may grow to this many pages of 65536 bytes.
    View(usize, u32, Access),

    /// The hash of a page's bytes is noted.
    Note(u32, u32),
    /// A page is offered under the hash of its bytes, or under 0 where it has none to offer.
    Scan(u32, u32, Offer),
    /// The same under one hash for all.
    ScanAsOne(u32, u32, Offer),
    /// A page is offered under this hash.
    Offer(u32, u32, Key, Offer),
    /// A page of the instance of this number is.
    OfferOf(u32, u64, u32, Key, Offer),
    /// All pages are offered.
    Pass,
    /// A page becomes the hint of a hash, under which nothing was found.
    Hint(u32, u32, u64),
    /// A page goes to the frame of a hint, with equal bytes, of which the first isn't 0.
    Pair(u32, u32, u64),

    /// A byte is written to each of the first pages, this many.
    Fill(usize, u64),
    /// A new epoch begins, in which no page was touched.
    Epoch,
    /// The page that has to leave where an instance's step lacks a frame to write its first byte.
    MustLeave(u32, PageOf),

    /// This many frames are in use.
    Used(u32),
    /// This many frames are free.
    Free(u32),
    /// This many frames are shared, and by this many pages.
    Sharing(u32, u64),
    /// What is found under this hash.
    Entry(Key, Found),
    /// Whether a page is alone on a frame.
    Alone(u32, u32, bool),
    /// Whether nobody is at a place.
    FreePlace(usize, bool),
    /// Whether no instance has this number.
    FreshNumber(u64, bool),
    /// How many frames are left by the minima of all instances.
    FramesLeft(u64),
}

/// How a memory begins.
#[derive(Clone, Copy)]
pub struct Begin {
    /// How many frames it has.
    pub frames: u32,
    /// How many slots it has.
    pub slots: u32,
    pub tax: Tax,
    /// The shares of each instance.
    pub shares: u32,
    /// How many pages of 4096 bytes each may have at most.
    pub max: u32,
    /// What is done first.
    pub steps: &'static [Step],
}

/// A memory, and what is done to it.
pub struct Case {
    /// What it shows.
    pub name: &'static str,
    pub begin: Begin,
    pub steps: &'static [Step],
}
