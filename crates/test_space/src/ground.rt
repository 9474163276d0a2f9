// A memory of many instances, on which steps are taken.

ghost use Rattle.std.specs.Prelude.{◌≢◌, IfSome, IsTrue};
ghost use Rattle.wh_space_model.specs.Frames.{IsTaken};
ghost use Rattle.wh_space_model.specs.Pages.{zero_page};
ghost use Rattle.wh_space_model.specs.Offers.{IsOffered};

use crate::access::{Access, End, agrees};
use crate::arrivals::{enter, let_go};
use crate::steps::{Begin, Found, Key, Step};
use anyhow::Result;
use std::alloc::Global;
use wh_content::ContentEntry;
use wh_kernels::{ConstantHash, FnvHash, PageHash};
use wh_model::{Got, Need};
use wh_reclaim::{PageOf, page_to_take};
use wh_scan::{offer, offer_at, scan_all, take};
use wh_space::{Memory, Promise, View};
use wh_space_model::Offer;

/// A memory, what its instances are promised, and the hash that was noted.
pub struct Ground {
    memory: Memory,
    shares: u32,
    max: u32,
    noted: u64,
}

// The hash of a page's bytes, where it has some to offer.
fn hash_of<H: PageHash>(memory: &Memory, hasher: &H, place: u32, page: u32) -> Option<u64> {
    let sample = take(memory, place, page)?;
    Some(hasher.hash(&sample.bytes))
}

// Offers a page under a hash.
fn offered<H: PageHash>(
    memory: &mut Memory,
    hasher: &H,
    place: u32,
    page: u32,
    hash: u64,
) -> Option<Offer> {
    if memory.has_few_pages() {
        Some(offer_at(memory, hasher, place, page, hash))
    } else {
        None
    }
}

// Offers a page under the hash of its bytes, and under 0 where it has none to offer.
fn scanned<H: PageHash>(memory: &mut Memory, hasher: &H, place: u32, page: u32) -> Option<Offer> {
    let hash = hash_of(memory, hasher, place, page).unwrap_or(0);
    offered(memory, hasher, place, page, hash)
}

// The frame of its own of a page that isn't pinned.
fn own_frame(memory: &Memory, place: u32, page: u32) -> Option<u32>
    ensures offered { IfSome result (λ frame. IsOffered memory.now place page frame) }
    ensures taken { IfSome result (λ frame. IsTaken memory.now.pool frame) }
{
    if memory.is_pinned(place, page) {
        return None;
    }
    memory.private_frame(place, page)
}

// A page becomes the hint of a hash, under which nothing is found.
fn hinted(memory: &mut Memory, place: u32, page: u32, hash: u64) -> bool {
    let Some(frame) = own_frame(memory, place, page) else {
        return false;
    };
    let None = memory.entry(hash) else {
        return false;
    };
    memory.hint(place, page, frame, hash);
    true
}

// Whether the first byte of a page isn't 0.
#[tactic(auto, unfolding(wh_space_model::specs::Pages::zero_page))]
fn is_marked(page: &[u8; 4096]) -> bool
    ensures { IsTrue result → page.now ≢ zero_page }
{
    page[0] != 0
}

// A page goes to the frame of a hint, with equal bytes, of which the first isn't 0.
fn paired(memory: &mut Memory, place: u32, page: u32, hash: u64) -> bool {
    let Some(frame) = own_frame(memory, place, page) else {
        return false;
    };
    let Some(
        ContentEntry::Hint {
            frame: shared,
            place: other_place,
            page: other_page,
        },
    ) = memory.entry(hash)
    else {
        return false;
    };
    if shared == frame || own_frame(memory, other_place, other_page) != Some(shared) {
        return false;
    }
    let own = memory.bytes_of(frame);
    if !is_marked(own) || own != memory.bytes_of(shared) {
        return false;
    }
    memory.pair(place, page, frame, hash, shared, other_place, other_page);
    true
}

/// Releases the instance of this number, if it is at this place.
pub fn gone(memory: &mut Memory, place: u32, number: u64) -> bool {
    if !memory.is_at(place, number) {
        return false;
    }
    memory.exit(place as usize);
    true
}

// Writes a byte to each of the first pages, and says whether all were written.
fn filled(memory: &mut Memory, place: usize, pages: u64) -> bool {
    for page in 0..pages.min(128) {
        if memory.store(place, 4096 * page, &[1]) != Got::Value {
            return false;
        }
    }
    pages <= 128
}

// Whether this page has to leave for a step that writes the first byte of the instance at a place, whose number is that too, and
// which stands at it then.
fn must_leave(memory: &mut Memory, place: u32, page: PageOf) -> bool {
    let need = Need {
        at: 0,
        length: 1,
        writes: true,
    };
    if !memory.is_at(place, u64::from(place)) || memory.size(place as usize) == 0 {
        return false;
    }
    memory.stand(place as usize, Some(need));
    match memory.wanted_step(place as usize) {
        Some(wanted) => page_to_take(memory, place as usize, wanted) == Some(page),
        None => false,
    }
}

// Whether the hint of a page is found, which has a frame of its own.
fn is_hint_of(memory: &Memory, entry: Option<ContentEntry>, place: u32, page: u32) -> bool {
    match memory.private_frame(place, page) {
        Some(frame) => entry == Some(ContentEntry::Hint { frame, place, page }),
        None => false,
    }
}

impl Ground {
    /// Creates one that begins so, without instances.
    pub fn new(alloc: Global, begin: Begin) -> Result<Ground> {
        Ok(Ground {
            memory: Memory::new(alloc, begin.frames, begin.slots, begin.tax)?,
            shares: begin.shares,
            max: begin.max,
            noted: 0,
        })
    }

    /// Ends it.
    pub fn finish(self) {
        let Ground {
            memory,
            shares: _,
            max: _,
            noted: _,
        } = self;
        let_go(memory);
    }

    // Whether an instance came to a place.
    fn enter(&mut self, alloc: Global, place: usize, number: u64, size: u32) -> bool {
        let promise = Promise {
            number,
            shares: self.shares,
            min: 2,
            max: self.max,
        };
        enter(&mut self.memory, alloc, place, promise, size)
    }

    fn store(&mut self, place: usize, at: u64, given: &[u8], end: End) -> bool {
        let length = given.len();
        if length > 4096 {
            return false;
        }
        let need = Need {
            at,
            length,
            writes: true,
        };
        self.memory.store(place, at, given) == end.answer(need)
    }

    fn load(&mut self, place: usize, at: u64, wanted: &[u8], end: End) -> bool {
        let length = wanted.len();
        if length > 8 {
            return false;
        }
        let mut bytes = [9; 8];
        let got = self.memory.load(place, at, &mut bytes[..length]);
        let need = Need {
            at,
            length,
            writes: false,
        };
        got == end.answer(need) && &bytes[..length] == wanted
    }

    fn is_ready(&self, place: usize, at: u64, length: usize) -> bool {
        let need = Need {
            at,
            length,
            writes: true,
        };
        self.memory.is_ready(place, need)
    }

    fn view(&mut self, place: usize, page_limit: u32, access: Access) -> bool {
        let mut view = View {
            memory: &mut self.memory,
            place,
            page_limit,
        };
        agrees(&mut view, access)
    }

    fn note(&mut self, place: u32, page: u32) -> bool {
        match hash_of(&self.memory, &FnvHash, place, page) {
            Some(hash) => {
                self.noted = hash;
                true
            }
            None => false,
        }
    }

    fn key(&self, key: Key) -> u64 {
        match key {
            Key::Noted => self.noted,
            Key::Number(number) => number,
        }
    }

    fn offer(&mut self, place: u32, page: u32, key: Key, answer: Offer) -> bool {
        let hash = self.key(key);
        offered(&mut self.memory, &FnvHash, place, page, hash) == Some(answer)
    }

    fn offer_of(&mut self, place: u32, number: u64, page: u32, key: Key, answer: Offer) -> bool {
        let hash = self.key(key);
        self.memory.has_few_pages()
            && offer(&mut self.memory, &FnvHash, place, number, page, hash) == answer
    }

    fn pass(&mut self) -> bool {
        if !self.memory.has_few_pages() {
            return false;
        }
        let _ = scan_all(&mut self.memory, &FnvHash);
        true
    }

    fn finds(&self, key: Key, found: Found) -> bool {
        let entry = self.memory.entry(self.key(key));
        match found {
            Found::Nothing => entry.is_none(),
            Found::Something => entry.is_some(),
            Found::HintOf(place, page) => is_hint_of(&self.memory, entry, place, page),
        }
    }

    /// Takes a step: whether it came out so.
    pub fn step(&mut self, alloc: Global, step: Step) -> bool {
        match step {
            Step::Enter(place, number, size) => self.enter(alloc, place, number, size),
            Step::Exit(place, number, is) => gone(&mut self.memory, place, number) == is,
            Step::Store(place, at, given, end) => self.store(place, at, given, end),
            Step::Load(place, at, wanted, end) => self.load(place, at, wanted, end),
            Step::Ready(place, at, length, is) => self.is_ready(place, at, length) == is,
            Step::View(place, page_limit, access) => self.view(place, page_limit, access),
            Step::Note(place, page) => self.note(place, page),
            Step::Scan(place, page, answer) => {
                scanned(&mut self.memory, &FnvHash, place, page) == Some(answer)
            }
            Step::ScanAsOne(place, page, answer) => {
                scanned(&mut self.memory, &ConstantHash, place, page) == Some(answer)
            }
            Step::Offer(place, page, key, answer) => self.offer(place, page, key, answer),
            Step::OfferOf(place, number, page, key, answer) => {
                self.offer_of(place, number, page, key, answer)
            }
            Step::Pass => self.pass(),
            Step::Hint(place, page, hash) => hinted(&mut self.memory, place, page, hash),
            Step::Pair(place, page, hash) => paired(&mut self.memory, place, page, hash),
            Step::Fill(place, pages) => filled(&mut self.memory, place, pages),
            Step::Epoch => {
                self.memory.new_epoch();
                true
            }
            Step::MustLeave(place, page) => must_leave(&mut self.memory, place, page),
            Step::Used(frames) => self.memory.used() == frames,
            Step::Free(frames) => self.memory.free() == frames,
            Step::Sharing(frames, pages) => self.memory.sharing() == (frames, pages),
            Step::Entry(key, found) => self.finds(key, found),
            Step::Alone(place, page, is) => take(&self.memory, place, page).is_some() == is,
            Step::FreePlace(place, is) => self.memory.is_free(place) == is,
            Step::FreshNumber(number, is) => self.memory.is_fresh(number) == is,
            Step::FramesLeft(frames) => self.memory.frames_left() == frames,
        }
    }
}

/// Takes steps one by one: the number of the first that came out otherwise.
pub fn first_other(ground: &mut Ground, alloc: Global, steps: &[Step]) -> Option<usize> {
    for (row, step) in steps.iter().enumerate() {
        if !ground.step(alloc, *step) {
            return Some(row);
        }
    }
    None
}
