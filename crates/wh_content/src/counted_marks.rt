// The marks of all frames, with counts of those that are shared.

ghost use Rattle.std.specs.Prelude.{◌≡◌, ◌<◌, ◌≤◌, Some, IfOk, get_or, length, replicate, slice_get, slice_set};
ghost use Rattle.wh_space_model.specs.Frames.{tally};
ghost use Rattle.wh_space_model.specs.declared.states.Mark.TheVariants.{Plain};
ghost use Rattle.wh_content.specs.Counts.{is_shared, sharers_in};

use std::alloc::{AllocError, Global};
use std::marker::Model;
use wh_space_model::Mark;

// Marks by the numbers of their frames, with how many frames are shared, and how many pages share them.
#[derive(Drop)]
pub struct CountedMarks {
    marks: Vec<Mark>,
    shared: u32,
    sharers: u64,
}

impl Model for CountedMarks {
    ghost use Rattle.std.specs.Prelude.{List};
    ghost use Rattle.wh_space_model.specs.declared.states.Mark.{Mark};

    ghost Value = { List Mark };

    ghost use Rattle.wh_content.specs.Counts.{AreCounted};

    ghost view = { λ a. a.marks.items };

    ghost invariant = { λ a. AreCounted a.marks.items a.shared a.sharers };
}

// How many pages share the frame with this mark.
#[inline(always)]
fn sharers_under(mark: Mark) -> u32
    ensures { result ≡ sharers_in mark }
{
    match mark {
        Mark::Plain => 0,
        Mark::Hint { .. } => 0,
        Mark::Sharers { count, .. } | Mark::Unlisted { count } => count,
    }
}

// 1 where pages share it.
#[inline(always)]
fn shared_under(mark: Mark) -> u32
    ensures is { result ≡ is_shared mark }
    ensures one { result ≤ 1 }
{
    match mark {
        Mark::Plain => 0,
        Mark::Hint { .. } => 0,
        Mark::Sharers { .. } | Mark::Unlisted { .. } => 1,
    }
}

// Plain marks of as many frames.
fn plain_marks(alloc: Global, frames: u32) -> Result<Vec<Mark>, AllocError>
    ensures { IfOk result (λ marks. marks.items ≡ replicate frames Plain) }
{
    vec![in alloc; Mark::Plain; frames as usize]
}

impl CountedMarks {
    /// Creates marks of `frames` frames, all of them plain.
    pub fn new(alloc: Global, frames: u32) -> Result<CountedMarks, AllocError>
        ensures { IfOk result (λ marks. marks ≡ replicate frames Plain) }
    {
        let marks = plain_marks(alloc, frames)?;
        Ok(CountedMarks {
            marks,
            shared: 0,
            sharers: 0,
        })
    }

    /// Returns the mark of this frame.
    #[inline(always)]
    pub fn get(&self, frame: u32) -> Mark
        requires { frame < length self.now }
        ensures some { slice_get self.now frame ≡ Some result }
        ensures or { result ≡ get_or self.now frame Plain }
    {
        self.marks[frame as usize]
    }

    /// Replaces the mark of this frame.
    pub fn set(&mut self, frame: u32, mark: Mark)
        requires { frame < length self.old }
        ensures { self.new ≡ slice_set self.old frame mark }
    {
        let old = self.marks[frame as usize];
        self.shared = self.shared - shared_under(old) + shared_under(mark);
        self.sharers = self.sharers - u64::from(sharers_under(old))
            + u64::from(sharers_under(mark));
        self.marks[frame as usize] = mark;
    }

    /// Returns how many frames are shared.
    pub fn shared(&self) -> u32
        ensures { result ≡ tally is_shared self.now }
    {
        self.shared
    }

    /// Returns how many pages share them.
    pub fn sharers(&self) -> u64
        ensures { result ≡ tally sharers_in self.now }
    {
        self.sharers
    }
}
