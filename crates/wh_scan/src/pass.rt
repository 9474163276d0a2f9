// A pass over all pages.

ghost use Rattle.std.specs.Prelude.{◌≡◌, ◌+◌, ℕ, List, [], length, get_or};
ghost use Rattle.wh_space_model.specs.Offers.{Offers};
ghost use Rattle.wh_space_model.specs.Scanning.{IsDistinct, IsHashOf};
ghost use Rattle.wh_scan.specs.Pass.{HasSoManyPages, MayPass, PassesOverAll, ScansAll, ScansAllMerging, ScansMerging, merges_by, pages_before};
ghost use Rattle.wh_space.specs.Merges.{HasFewPages};

use crate::offers::offer_at;
use crate::sample::take;
use wh_kernels::PageHash;
use wh_space::Memory;
use wh_space_model::Offer;

/// What came of a pass over all pages.
#[derive(Clone, Copy, Debug, PartialEq, Eq)]
pub struct Scanned {
    /// How many pages were offered.
    pub offered: u64,
    /// How many of these offers were answered by `Merged`.
    pub merged: u64,
}

// 1 where this answers an offer by which pages came to share a frame.
fn one_if_merged(answer: Offer) -> u32
    ensures { result ≡ merges_by answer }
{
    match answer {
        Offer::Merged => 1,
        _ => 0,
    }
}

// The hash of a page's bytes, or 0 where it has none to offer.
fn hash_at<H: PageHash>(memory: &Memory, hasher: &H, place: u32, page: u32) -> u64
    ensures { IsHashOf (H.hashes hasher.now) memory.now place page result }
{
    match take(memory, place, page) {
        Some(sample) => hasher.hash(&sample.bytes),
        None => 0,
    }
}

/// Offers a page under the hash of its bytes as they are.
pub fn scan_page<H: PageHash>(memory: &mut Memory, hasher: &H, place: u32, page: u32) -> Offer
    requires { HasFewPages memory.old }
    ensures { (hash : ℕ) × IsHashOf (H.hashes hasher.now) memory.old place page hash
        × Offers (H.hashes hasher.now) memory.old place page hash result memory.new }
{
    let hash = hash_at(memory, hasher, place, page);
    offer_at(memory, hasher, place, page, hash)
}

// Offers all pages of whoever is at this place, in order: how many there are, and how many of them were merged.
fn scan_place<H: PageHash>(memory: &mut Memory, hasher: &H, place: u32) -> (u32, u32)
    requires { HasFewPages memory.old }
    ensures scans { ScansMerging (H.hashes hasher.now) memory.old
        (pages_before place (length (get_or memory.old.tables place []))) result.1 memory.new }
    ensures offers { result.0 ≡ length (get_or memory.old.tables place []) }
{
    memory.invariant();
    let pages = memory.size(place as usize) * 16;
    let mut merged: u32 = 0;
    for page in 0..pages {
        merged += one_if_merged(scan_page(memory, hasher, place, page));
    }
    (pages, merged)
}

/// Offers all pages of all instances, in the order of the instances' numbers, and those of each in order, each under the
/// hash of its bytes as they are. Then as many frames are in use as there are distinct contents that aren't all zero, if the
/// hash tells contents apart and was the hash before.
///
/// It answers how many pages were offered, and how many of these offers merged pages.
pub fn scan_all<H: PageHash>(memory: &mut Memory, hasher: &H) -> Scanned
    requires { HasFewPages memory.old }
    ensures offers { HasSoManyPages memory.old result.offered }
    ensures merges { ScansAllMerging (H.hashes hasher.now) memory.old result.merged memory.new }
    ensures scans { ScansAll (H.hashes hasher.now) memory.old memory.new }
    ensures full { MayPass (H.hashes hasher.now) memory.old
        → PassesOverAll (H.hashes hasher.now) memory.old memory.new }
    ensures counts { MayPass (H.hashes hasher.now) memory.old
        → (all : List (List ℕ)) → IsDistinct memory.new all
        → length all + length memory.new.pool.free ≡ length memory.new.pool.frames }
{
    memory.invariant();
    let mut offered: u64 = 0;
    let mut merged: u64 = 0;
    let mut after = None;
    while let Some(next) = memory.next_instance(after) {
        let (pages, merges) = scan_place(memory, hasher, next.place as u32);
        offered += u64::from(pages);
        merged += u64::from(merges);
        after = Some(next.number);
    }
    Scanned { offered, merged }
}
