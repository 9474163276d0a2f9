// The table as its caller sees it.

ghost use Rattle.std.specs.Prelude.{◌≡◌, ◌+◌, ◌<◌, ◌%◌, Some, IfOk, IfSome, IfNone, length, get_or, replicate, slice_get, slice_set};
ghost use Rattle.wh_content.specs.Counts.{is_shared, sharers_in};
ghost use Rattle.wh_content.specs.Marks.{frame_of_entry, mark_of_entry, IsOnlyWith, IsWithout};
ghost use Rattle.wh_space_model.specs.Breaks.{fewer_sharers};
ghost use Rattle.wh_space_model.specs.Frames.{tally};
ghost use Rattle.wh_space_model.specs.Sound.{HasHash};
ghost use Rattle.wh_space_model.specs.declared.states.Mark.TheVariants.{Plain, Hint, Sharers, Unlisted};
ghost use Rattle.wh_space_model.specs.Forks.{one_more};
ghost use Rattle.wh_content.specs.Marks.{HasRoomForOne};

use crate::chains::Chains;
use crate::counted_marks::CountedMarks;
use crate::entry::{ContentEntry, entry_under, hash_of};
use std::alloc::{AllocError, Global};
use std::marker::Model;
use wh_space_model::Mark;

const _: () = prove!(size_of::<Mark>() <= 24);

/// What is known of the content of each frame: at most one entry for a frame, and at most one under
/// a hash.
///
/// All room is taken at once. Then no method takes memory, and none fails.
#[derive(Drop)]
pub struct Table {
    frames: u32,
    marks: CountedMarks,
    // As many chains as frames. Their heads are the places after the frames.
    chains: Chains,
}

impl Model for Table {
    ghost use Rattle.std.specs.Prelude.{List};
    ghost use Rattle.wh_space_model.specs.declared.states.Mark.{Mark};

    ghost Value = { List Mark };

    ghost use Rattle.wh_content.specs.Parts.{IsIndexed};

    ghost view = { λ a. a.marks };

    ghost invariant = { IsIndexed };
}

// The head of the chain for this hash, in a table of `frames` frames.
fn head_of(frames: u32, hash: u64) -> usize
    requires { 0 < frames }
    ensures { result ≡ frames + hash % frames }
{
    frames as usize + (hash % frames as u64) as usize
}

impl Table {
    /// Creates a table for `frames` frames, without entries. Reserves its whole room, 32 bytes a frame.
    ///
    /// # Errors
    /// `AllocError` if an allocation fails; what was allocated is given back.
    pub fn new(alloc: Global, frames: u32) -> Result<Table, AllocError>
        ensures { IfOk result (λ table. table ≡ replicate frames Plain) }
    {
        let marks = CountedMarks::new(alloc, frames)?;
        let chains = Chains::new(alloc, frames as usize * 2)?;
        Ok(Table {
            frames,
            marks,
            chains,
        })
    }

    /// Returns what there is of this frame, which is one of the table's.
    pub fn mark(&self, frame: u32) -> Mark
        requires { frame < length self.now }
        ensures { slice_get self.now frame ≡ Some result }
    {
        self.marks.get(frame)
    }

    /// Returns the entry under this hash, if there is one.
    pub fn look(&self, hash: u64) -> Option<ContentEntry>
        ensures found { IfSome result (λ entry.
            slice_get self.now (frame_of_entry entry) ≡ Some (mark_of_entry hash entry)) }
        ensures only { IfSome result (λ entry. IsOnlyWith self.now (frame_of_entry entry) hash) }
        ensures none { IfNone result (IsWithout self.now hash) }
    {
        if self.frames == 0 {
            return None;
        }
        let mut place = head_of(self.frames, hash);
        while let Some(frame) = self.chains.next(place) {
            if let Some(entry) = entry_under(hash, frame, self.mark(frame)) {
                return Some(entry);
            }
            place = frame as usize;
        }
        None
    }

    /// Makes this page, of the instance at this place, the hint of the hash, on this frame, which is one of the
    /// table's. No other frame may have an entry under the hash. An entry that this frame had is removed.
    pub fn set_hint(&mut self, frame: u32, hash: u64, place: u32, page: u32)
        requires within { frame < length self.old }
        requires alone { IsOnlyWith self.old frame hash }
        ensures { self.new ≡ slice_set self.old frame (Hint hash place page) }
    {
        self.put(frame, hash, Mark::Hint { hash, place, page });
    }

    /// Enters this frame, which is one of the table's and which `sharers` pages share, under the hash. No other frame
    /// may have an entry under the hash. An entry that this frame had is removed.
    pub fn share(&mut self, frame: u32, hash: u64, sharers: u32)
        requires within { frame < length self.old }
        requires alone { IsOnlyWith self.old frame hash }
        ensures { self.new ≡ slice_set self.old frame (Sharers hash sharers) }
    {
        let mark = Mark::Sharers {
            hash,
            count: sharers,
        };
        self.put(frame, hash, mark);
    }

    /// Lowers the reference count of this frame, which is one of the table's, by one. With the last sharer its entry is
    /// removed. A hint stays.
    pub fn drop_sharer(&mut self, frame: u32)
        requires { frame < length self.old }
        ensures { self.new
            ≡ slice_set self.old frame (fewer_sharers 1 (get_or self.old frame Plain)) }
    {
        match self.marks.get(frame) {
            Mark::Sharers { hash, count } if count > 1 => {
                self.marks.set(
                    frame,
                    Mark::Sharers {
                        hash,
                        count: count - 1,
                    },
                );
            }
            Mark::Unlisted { count } if count > 1 => {
                self.marks.set(frame, Mark::Unlisted { count: count - 1 });
            }
            Mark::Sharers { .. } | Mark::Unlisted { .. } => self.forget_frame(frame),
            Mark::Plain | Mark::Hint { .. } => {}
        }
    }

    /// Records that `sharers` pages share this frame, which is one of the table's, and that its hash isn't known. An
    /// entry that it had is removed.
    pub fn share_unlisted(&mut self, frame: u32, sharers: u32)
        requires { frame < length self.old }
        ensures { self.new ≡ slice_set self.old frame (Unlisted sharers) }
    {
        self.forget_frame(frame);
        self.marks.set(frame, Mark::Unlisted { count: sharers });
    }

    /// Raises the reference count of this frame, which is one of the table's, by one. A frame that no page shares stays
    /// as it is.
    pub fn add_sharer(&mut self, frame: u32)
        requires within { frame < length self.old }
        requires few { HasRoomForOne (get_or self.old frame Plain) }
        ensures { self.new ≡ slice_set self.old frame (one_more (get_or self.old frame Plain)) }
    {
        match self.marks.get(frame) {
            Mark::Sharers { hash, count } => {
                self.marks.set(
                    frame,
                    Mark::Sharers {
                        hash,
                        count: count + 1,
                    },
                );
            }
            Mark::Unlisted { count } => {
                self.marks.set(frame, Mark::Unlisted { count: count + 1 });
            }
            Mark::Plain | Mark::Hint { .. } => {}
        }
    }

    /// Returns, in O(1), the number of frames that pages share, and the number of pages that share one.
    pub fn sharing(&self) -> (u32, u64)
        ensures frames { result.0 ≡ tally is_shared self.now }
        ensures sharers { result.1 ≡ tally sharers_in self.now }
    {
        (self.marks.shared(), self.marks.sharers())
    }

    /// Forgets what there is of this frame, which is one of the table's.
    pub fn forget_frame(&mut self, frame: u32)
        requires { frame < length self.old }
        ensures { self.new ≡ slice_set self.old frame Plain }
    {
        let Some(hash) = hash_of(self.marks.get(frame)) else {
            self.marks.set(frame, Mark::Plain);
            return;
        };
        let place = self.chains.behind(head_of(self.frames, hash), frame);
        self.chains.remove(place, frame);
        self.marks.set(frame, Mark::Plain);
    }

    // Puts a mark with this hash, which no other frame has.
    fn put(&mut self, frame: u32, hash: u64, mark: Mark)
        requires within { frame < length self.old }
        requires alone { IsOnlyWith self.old frame hash }
        requires hash { HasHash (Some mark) hash }
        ensures { self.new ≡ slice_set self.old frame mark }
    {
        self.forget_frame(frame);
        let place = self.chains.behind(head_of(self.frames, hash), frame);
        self.chains.insert(place, frame);
        self.marks.set(frame, mark);
    }
}
