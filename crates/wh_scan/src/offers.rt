// Offers of pages.

ghost use Rattle.std.specs.Prelude.{◌≢◌, ℕ, List, IfSome, IfNone, Some};
ghost use Rattle.wh_space_model.specs.Frames.{IsTaken};
ghost use Rattle.wh_space_model.specs.Pages.{zero_page};
ghost use Rattle.wh_space_model.specs.Offers.{FindsHint, FindsShared, IsOffered, MayBeListed, Offers, OffersAlone, OffersOf, OffersUnlisted};
ghost use Rattle.wh_space_model.specs.Parts.{frame_bytes};
ghost use Rattle.wh_space.specs.Merges.{HasFewPages};

use wh_content::ContentEntry;
use wh_kernels::{PageHash, is_zero, pages_equal};
use wh_space::{Memory, UnlistedFrame};
use wh_space_model::Offer;

// A page on its frame.
#[derive(Clone, Copy)]
struct Spot {
    place: u32,
    page: u32,
    frame: u32,
}

// A page on a frame that is shared and has no entry.
#[derive(Clone, Copy)]
struct UnlistedSpot {
    place: u32,
    page: u32,
    on: UnlistedFrame,
}

// The frame of its own of a page that may be merged.
fn offered_frame(memory: &Memory, place: u32, page: u32) -> Option<u32>
    ensures some { IfSome result (λ frame. IsOffered memory.now place page frame) }
    ensures taken { IfSome result (λ frame. IsTaken memory.now.pool frame) }
    ensures none { IfNone result ((g : ℕ) → ¬ IsOffered memory.now place page g) }
{
    let frame = memory.private_frame(place, page)?;
    if memory.is_pinned(place, page) {
        return None;
    }
    Some(frame)
}

// The frame that a page shares, where that has no entry, and the page may be merged.
fn unlisted_frame(memory: &Memory, place: u32, page: u32) -> Option<UnlistedFrame>
    ensures some { IfSome result (λ on. MayBeListed memory.now place page on.frame on.sharers) }
    ensures taken { IfSome result (λ on. IsTaken memory.now.pool on.frame) }
    ensures none { IfNone result ((f n : ℕ) → ¬ MayBeListed memory.now place page f n) }
{
    let on = memory.unlisted_frame(place, page)?;
    if memory.is_pinned(place, page) {
        return None;
    }
    Some(on)
}

// Offers a page that isn't zero, where the hash is that of a shared frame.
fn offer_to_shared(memory: &mut Memory, spot: Spot, hash: u64, shared: u32, sharers: u32) -> Offer
    requires few { HasFewPages memory.old }
    requires offered { IsOffered memory.old spot.place spot.page spot.frame }
    requires taken { IsTaken memory.old.pool spot.frame × IsTaken memory.old.pool shared }
    requires some { frame_bytes memory.old spot.frame ≢ zero_page }
    requires found { FindsShared memory.old hash shared sharers }
    ensures { (hashes : List ℕ → ℕ)
        → OffersAlone hashes memory.old spot.place spot.page hash result memory.new }
{
    if !pages_equal(memory.bytes_of(spot.frame), memory.bytes_of(shared)) {
        return Offer::FalseMatch;
    }
    memory.join(spot.place, spot.page, spot.frame, hash, shared, sharers);
    Offer::Merged
}

// Offers a page that isn't zero, where the hash is that of a hint.
fn offer_to_hint<H: PageHash>(
    memory: &mut Memory,
    hasher: &H,
    spot: Spot,
    hash: u64,
    hint: Spot,
) -> Offer
    requires offered { IsOffered memory.old spot.place spot.page spot.frame }
    requires taken { IsTaken memory.old.pool spot.frame × IsTaken memory.old.pool hint.frame }
    requires some { frame_bytes memory.old spot.frame ≢ zero_page }
    requires found { FindsHint memory.old hash hint.frame hint.place hint.page }
    ensures { OffersAlone (H.hashes hasher.now) memory.old spot.place spot.page hash result memory.new }
{
    if hint.frame == spot.frame {
        return Offer::Skipped;
    }
    if offered_frame(memory, hint.place, hint.page) != Some(hint.frame) {
        return Offer::Skipped;
    }
    if hasher.hash(memory.bytes_of(hint.frame)) != hash {
        memory.rehint(spot.place, spot.page, spot.frame, hash, hint.frame);
        return Offer::Stale;
    }
    if !pages_equal(memory.bytes_of(spot.frame), memory.bytes_of(hint.frame)) {
        return Offer::FalseMatch;
    }
    memory.pair(
        spot.place, spot.page, spot.frame, hash, hint.frame, hint.place, hint.page,
    );
    Offer::Merged
}

// Offers a page that is alone on a frame, and may be merged.
fn offer_alone<H: PageHash>(memory: &mut Memory, hasher: &H, spot: Spot, hash: u64) -> Offer
    requires few { HasFewPages memory.old }
    requires offered { IsOffered memory.old spot.place spot.page spot.frame }
    requires taken { IsTaken memory.old.pool spot.frame }
    ensures { OffersAlone (H.hashes hasher.now) memory.old spot.place spot.page hash result memory.new }
{
    if is_zero(memory.bytes_of(spot.frame)) {
        memory.empty(spot.place, spot.page, spot.frame);
        return Offer::Zeroed;
    }
    match memory.entry(hash) {
        None => {
            memory.hint(spot.place, spot.page, spot.frame, hash);
            Offer::Hinted
        }
        Some(ContentEntry::Shared { frame, sharers }) => {
            offer_to_shared(memory, spot, hash, frame, sharers)
        }
        Some(ContentEntry::Hint { frame, place, page }) => {
            offer_to_hint(memory, hasher, spot, hash, Spot { place, page, frame })
        }
    }
}

// Offers a page on a frame that has no entry and isn't zero, where the hash is that of a shared frame.
fn list_beside_shared(
    memory: &mut Memory,
    spot: UnlistedSpot,
    hash: u64,
    shared: u32,
    sharers: u32,
) -> Offer
    requires few { HasFewPages memory.old }
    requires may { MayBeListed memory.old spot.place spot.page spot.on.frame spot.on.sharers }
    requires taken { IsTaken memory.old.pool spot.on.frame × IsTaken memory.old.pool shared }
    requires some { frame_bytes memory.old spot.on.frame ≢ zero_page }
    requires found { FindsShared memory.old hash shared sharers }
    ensures { (hashes : List ℕ → ℕ)
        → OffersUnlisted hashes memory.old spot.place spot.page hash result memory.new }
{
    if !pages_equal(memory.bytes_of(spot.on.frame), memory.bytes_of(shared)) {
        return Offer::FalseMatch;
    }
    memory.move_to(spot.place, spot.page, spot.on, hash, shared, sharers);
    Offer::Merged
}

// Offers a page on a frame that has no entry and isn't zero, where the hash is that of a hint.
fn list_beside_hint<H: PageHash>(
    memory: &mut Memory,
    hasher: &H,
    spot: UnlistedSpot,
    hash: u64,
    hint: Spot,
) -> Offer
    requires few { HasFewPages memory.old }
    requires may { MayBeListed memory.old spot.place spot.page spot.on.frame spot.on.sharers }
    requires taken { IsTaken memory.old.pool spot.on.frame × IsTaken memory.old.pool hint.frame }
    requires some { frame_bytes memory.old spot.on.frame ≢ zero_page }
    requires found { FindsHint memory.old hash hint.frame hint.place hint.page }
    ensures { OffersUnlisted (H.hashes hasher.now) memory.old spot.place spot.page hash result memory.new }
{
    if offered_frame(memory, hint.place, hint.page) != Some(hint.frame) {
        return Offer::Skipped;
    }
    if hasher.hash(memory.bytes_of(hint.frame)) != hash {
        memory.list_for(spot.on.frame, spot.on.sharers, hash, hint.frame);
        return Offer::Stale;
    }
    if !pages_equal(memory.bytes_of(spot.on.frame), memory.bytes_of(hint.frame)) {
        return Offer::FalseMatch;
    }
    memory.list_for(spot.on.frame, spot.on.sharers, hash, hint.frame);
    memory.join(
        hint.place,
        hint.page,
        hint.frame,
        hash,
        spot.on.frame,
        spot.on.sharers,
    );
    Offer::Merged
}

// Offers a page on a frame that has no entry, where it may be merged.
fn offer_unlisted<H: PageHash>(
    memory: &mut Memory,
    hasher: &H,
    spot: UnlistedSpot,
    hash: u64,
) -> Offer
    requires few { HasFewPages memory.old }
    requires may { MayBeListed memory.old spot.place spot.page spot.on.frame spot.on.sharers }
    requires taken { IsTaken memory.old.pool spot.on.frame }
    ensures { OffersUnlisted (H.hashes hasher.now) memory.old spot.place spot.page hash result memory.new }
{
    if is_zero(memory.bytes_of(spot.on.frame)) {
        memory.leave_zeros(spot.place, spot.page, spot.on.frame, spot.on.sharers);
        return Offer::Zeroed;
    }
    match memory.entry(hash) {
        None => {
            memory.list(spot.on.frame, spot.on.sharers, hash);
            Offer::Hinted
        }
        Some(ContentEntry::Shared { frame, sharers }) => {
            list_beside_shared(memory, spot, hash, frame, sharers)
        }
        Some(ContentEntry::Hint { frame, place, page }) => {
            list_beside_hint(memory, hasher, spot, hash, Spot { place, page, frame })
        }
    }
}

/// Offers a page of whoever is at this place for sharing, under any hash at all; returns the outcome. In this order:
///
/// - `Skipped`: the page isn't alone on a frame, or may not be merged.
/// - `Zeroed`: its bytes are all zero. It has no frame any more.
/// - `Hinted`: nothing is found under the hash. The page is its hint.
/// - `Skipped`: its own hint is found, or the hint of a page that may not be merged.
/// - `Stale`: the page of the hint that is found has another hash by now. The page takes its place.
/// - `Merged`: the bytes are the same as those of the frame that is found. They share it.
/// - `FalseMatch`: they are others. Nothing is done.
///
/// A page on a frame that is shared and has no entry is offered too: in place of being a hint the frame has its entry under
/// the hash then, and where a hint of equal bytes is found its page comes to the frame.
///
/// It looks at no page but this one and that of the hint.
pub fn offer_at<H: PageHash>(
    memory: &mut Memory,
    hasher: &H,
    place: u32,
    page: u32,
    hash: u64,
) -> Offer
    requires { HasFewPages memory.old }
    ensures { Offers (H.hashes hasher.now) memory.old place page hash result memory.new }
{
    if let Some(frame) = offered_frame(memory, place, page) {
        return offer_alone(memory, hasher, Spot { place, page, frame }, hash);
    }
    match unlisted_frame(memory, place, page) {
        Some(on) => offer_unlisted(memory, hasher, UnlistedSpot { place, page, on }, hash),
        None => Offer::Skipped,
    }
}

/// Offers a page of the instance of this number, which was at this place, as `offer_at` does. Where the instance is gone,
/// though another may be there by now, the answer is `Skipped`, and nothing is done.
pub fn offer<H: PageHash>(
    memory: &mut Memory,
    hasher: &H,
    place: u32,
    number: u64,
    page: u32,
    hash: u64,
) -> Offer
    requires { HasFewPages memory.old }
    ensures { OffersOf (H.hashes hasher.now) memory.old place number page hash result memory.new }
{
    memory.invariant();
    if !memory.is_at(place, number) {
        return Offer::Skipped;
    }
    offer_at(memory, hasher, place, page, hash)
}
