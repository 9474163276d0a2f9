// The frames and their free list.

ghost use Rattle.std.specs.Prelude.{◌≡◌, ◌≢◌, ◌↔◌, ℕ, ◌+◌, ◌<◌, ◌≤◌, ◌++◌, [], ◌∷◌, length, replicate, get_or, slice_get, slice_set, Some, Err, OnErr, IfOk, IfErr, vec_len, vec_capacity};
ghost use Rattle.std.specs.Borrow.{sem};
ghost use Rattle.wh_frames.specs.LentFrames.{LendsFrame};
ghost use Rattle.wh_space_model.specs.Frames.{IsTaken, HasDistinctFree, TakesFreeFrame, tally, one_if};
ghost use Rattle.wh_space_model.specs.Pages.{zero_page};

use crate::FrameError;
use std::alloc::Global;
use std::marker::Model;

/// Frames of 4096 bytes, each free or taken.
///
/// Room for all of them is reserved at once, and a frame costs memory only from when it is first taken.
#[derive(Drop)]
pub struct FramePool {
    limit: u32,
    // The frames that were taken at least once.
    frames: Vec<[u8; 4096]>,
    // Those of them that were given back.
    free: Vec<u32>,
}

impl Model for FramePool {
    ghost use Rattle.wh_space_model.specs.Frames.{Pool};

    ghost Value = { Pool };

    ghost use Rattle.wh_frames.specs.Parts.{pool_of, HasRoom};

    ghost view = { pool_of };

    ghost invariant = { HasRoom };
}

// Adds a frame of zeros.
#[tactic(auto, unfolding(wh_space_model::specs::Pages::zero_page))]
fn add_frame(frames: &mut Vec<[u8; 4096]>)
    requires { vec_len frames.old < vec_capacity frames.old }
    ensures items { frames.new.items ≡ frames.old.items ++ zero_page ∷ [] }
    ensures room { vec_capacity frames.old ≤ vec_capacity frames.new }
{
    let Ok(()) = frames.push([0; 4096]) else {
        unreachable!()
    };
}

// Adds a free frame.
fn add_free(free: &mut Vec<u32>, frame: u32)
    requires { vec_len free.old < vec_capacity free.old }
    ensures items { free.new.items ≡ free.old.items ++ frame ∷ [] }
    ensures room { vec_capacity free.old ≤ vec_capacity free.new }
{
    let Ok(()) = free.push(frame) else {
        unreachable!()
    };
}

impl FramePool {
    /// Creates a pool of `frames` frames of 4096 bytes, all free and zero. Reserves the room for all.
    ///
    /// # Errors
    /// `FrameError::Memory` if an allocation fails.
    pub fn new(alloc: Global, frames: u32) -> Result<FramePool, FrameError>
        ensures frames { IfOk result (λ pool. pool.frames ≡ replicate frames zero_page) }
        ensures free { IfOk result (λ pool. length pool.free ≡ frames) }
        ensures each { IfOk result (λ pool. (f : ℕ) → f < frames → tally (one_if f) pool.free ≡ 1) }
        ensures refused { IfErr result (λ error. error ≡ FrameError.Memory) }
    {
        let Ok(room) = Vec::with_capacity(alloc, frames as usize) else {
            return Err(FrameError::Memory);
        };
        let Ok(free) = Vec::with_capacity(alloc, frames as usize) else {
            return Err(FrameError::Memory);
        };
        Ok(FramePool {
            limit: frames,
            frames: room,
            free,
        })
    }

    /// Takes a free frame, one that was given back where there is one. It holds the bytes that it had: those that
    /// were last written to it, or zeros where it was never taken. `NoFrame` where none is free. It takes no memory.
    pub fn take(&mut self) -> Result<u32, FrameError>
        ensures takes { IfOk result (λ frame. TakesFreeFrame self.old frame self.new) }
        ensures taken { IfOk result (λ frame. IsTaken self.new frame) }
        ensures others { IfOk result
            (λ frame. (f : ℕ) → IsTaken self.old f → (f ≢ frame) × IsTaken self.new f) }
        ensures none { (result ≡ Err FrameError.NoFrame) ↔ (self.old.free ≡ []) }
        ensures only { IfErr result (λ error. error ≡ FrameError.NoFrame) }
        ensures unchanged { OnErr result (self.new ≡ self.old) }
    {
        if let Some(frame) = self.free.pop() {
            return Ok(frame);
        }
        let frame = self.frames.len() as u32;
        if frame == self.limit {
            return Err(FrameError::NoFrame);
        }
        add_frame(&mut self.frames);
        Ok(frame)
    }

    /// Gives a taken frame back. It keeps its bytes until it is taken again and written.
    pub fn give(&mut self, frame: u32)
        requires { IsTaken self.old frame }
        ensures gives { self.new ≡ record self.old { free = self.old.free ++ frame ∷ [] } }
        ensures others { (f : ℕ) → f ≢ frame → IsTaken self.old f → IsTaken self.new f }
    {
        add_free(&mut self.free, frame);
    }

    /// Returns the bytes of a frame that is taken.
    #[inline(always)]
    pub fn bytes(&self, frame: u32) -> &[u8; 4096]
        requires { IsTaken self.now frame }
        ensures { slice_get self.now.frames frame ≡ Some result.now }
    {
        &self.frames[frame as usize]
    }

    /// Returns the bytes of a frame that is taken, to be written.
    #[inline(always)]
    pub fn bytes_mut(&mut self, frame: u32) -> &mut [u8; 4096]
        requires { IsTaken self.old frame }
        ensures* writes { sem 𝓛 (LendsFrame self.entry frame result) }
        ensures value { slice_get self.old.frames frame ≡ Some result.now }
    {
        &mut self.frames[frame as usize]
    }

    /// Copies the bytes of a taken frame to another one.
    pub fn copy(&mut self, from: u32, to: u32)
        requires from { IsTaken self.old from }
        requires to { IsTaken self.old to }
        ensures { self.new ≡ record self.old {
          frames = slice_set self.old.frames to (get_or self.old.frames from []);
        } }
    {
        self.frames[to as usize] = self.frames[from as usize];
    }

    /// Returns the number of frames.
    pub fn len(&self) -> u32
        ensures { result ≡ length self.now.frames }
    {
        self.limit
    }

    /// Returns the number of free frames.
    pub fn free(&self) -> u32
        ensures count { result ≡ length self.now.free }
        ensures distinct { HasDistinctFree self.now }
    {
        self.limit - self.used()
    }

    /// Returns the number of frames that are taken.
    pub fn used(&self) -> u32
        ensures count { result + length self.now.free ≡ length self.now.frames }
        ensures distinct { HasDistinctFree self.now }
    {
        (self.frames.len() - self.free.len()) as u32
    }
}
