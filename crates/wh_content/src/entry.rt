// What a look-up finds.

ghost use Rattle.std.specs.Prelude.{ℕ, ◌≡◌, IfSome, IfNone, Some};
ghost use Rattle.wh_content.specs.Marks.{frame_of_entry, mark_of_entry};
ghost use Rattle.wh_space_model.specs.Sound.{HasHash};

use wh_space_model::Mark;

/// The entry under a hash.
#[derive(Clone, Copy, Debug, PartialEq, Eq)]
pub enum ContentEntry {
    /// A frame, and the page whose own it is, of the instance at a place.
    Hint { frame: u32, place: u32, page: u32 },
    /// A frame, and how many pages share it.
    Shared { frame: u32, sharers: u32 },
}

/// Returns the entry of the frame with this mark, if it has one under this hash.
pub fn entry_under(hash: u64, frame: u32, mark: Mark) -> Option<ContentEntry>
    ensures frame { IfSome result (λ entry. frame_of_entry entry ≡ frame) }
    ensures mark { IfSome result (λ entry. mark_of_entry hash entry ≡ mark) }
    ensures none { IfNone result (¬ HasHash (Some mark) hash) }
{
    match mark {
        Mark::Hint {
            hash: own,
            place,
            page,
        } if own == hash => Some(ContentEntry::Hint { frame, place, page }),
        Mark::Sharers { hash: own, count } if own == hash => Some(ContentEntry::Shared {
            frame,
            sharers: count,
        }),
        _ => None,
    }
}

/// Returns the hash under which a frame with this mark has its entry, if it has one.
pub fn hash_of(mark: Mark) -> Option<u64>
    ensures some { IfSome result (λ hash. HasHash (Some mark) hash) }
    ensures none { IfNone result ((hash : ℕ) → ¬ HasHash (Some mark) hash) }
{
    match mark {
        Mark::Plain | Mark::Unlisted { .. } => None,
        Mark::Hint { hash, .. } => Some(hash),
        Mark::Sharers { hash, .. } => Some(hash),
    }
}
