// Bytes in frames.

ghost use Rattle.std.specs.Prelude.{◌≡◌, ◌+◌, ◌≤◌, [], length, get_or, slice_set};
ghost use Rattle.wh_space_model.specs.Frames.{IsTaken};
ghost use Rattle.wh_space_model.specs.Pages.{zero_page};
ghost use Rattle.wh_model.specs.Execution.Store.{bytes_at, written};

use wh_frames::FramePool;
use wh_linmem::copy_bytes;

/// Reads bytes of a frame, from this offset on.
#[inline(always)]
pub fn read_frame(pool: &FramePool, frame: u32, offset: usize, into: &mut [u8])
    requires taken { IsTaken pool.now frame }
    requires inside { offset + length into.old ≤ 4096 }
    ensures { into.new ≡ bytes_at (get_or pool.now.frames frame []) offset (length into.old) }
{
    let bytes = pool.bytes(frame);
    into.copy_from_slice(&bytes[offset..offset + into.len()]);
}

// Writes bytes over those of a frame from a place on.
#[inline(always)]
fn write_bytes(bytes: &mut [u8; 4096], offset: usize, given: &[u8])
    requires { offset + length given.now ≤ 4096 }
    ensures { bytes.new ≡ written bytes.old offset given.now }
{
    copy_bytes(&mut bytes[offset..offset + given.len()], given);
}

/// Writes bytes into a frame, from this offset on.
#[inline(always)]
pub fn write_frame(pool: &mut FramePool, frame: u32, offset: usize, given: &[u8])
    requires taken { IsTaken pool.old frame }
    requires inside { offset + length given.now ≤ 4096 }
    ensures { pool.new ≡ record pool.old {
      frames = slice_set pool.old.frames frame
          (written (get_or pool.old.frames frame []) offset given.now);
    } }
{
    write_bytes(pool.bytes_mut(frame), offset, given);
}

/// Zeroes a frame.
#[tactic(auto, unfolding(wh_space_model::specs::Pages::zero_page))]
pub fn clear_frame(pool: &mut FramePool, frame: u32)
    requires { IsTaken pool.old frame }
    ensures { pool.new ≡ record pool.old { frames = slice_set pool.old.frames frame zero_page } }
{
    *pool.bytes_mut(frame) = [0; 4096];
}

/// Writes all 4096 bytes of a frame.
pub fn set_frame(pool: &mut FramePool, frame: u32, bytes: &[u8; 4096])
    requires { IsTaken pool.old frame }
    ensures { pool.new ≡ record pool.old { frames = slice_set pool.old.frames frame bytes.now } }
{
    *pool.bytes_mut(frame) = *bytes;
}
