//! Frames are appended to the bytes that are to be sent.

ghost use Rattle.std.specs.Prelude.{◌≡◌, ℕ, ◌≤◌, ◌<◌, ◌^◌, ◌++◌, Bool, List, OnOk, OnErr, length, take};
ghost use Rattle.wh_multiplex.specs.declared.frame.StreamFrame.{StreamFrame};
ghost use Rattle.wh_multiplex.specs.StreamFrames.{head_bytes, stream_bytes};
ghost use Rattle.wh_multiplex.specs.Multiplexing.{Sends};

use crate::frame::{LONGEST_FRAME, StreamKind};
use crate::writing::head_bytes_of;
use std::alloc::AllocError;

// Returns what the first frame of these bytes carries, and what is left.
fn first_piece(bytes: &[u8]) -> (&[u8], &[u8])
    ensures joined { bytes.now ≡ result.0.now ++ result.1.now }
    ensures within { length result.0.now ≤ 65536 }
    ensures shorter { 0 < length bytes.now → length result.1.now < length bytes.now }
{
    bytes.split_at(bytes.len().min(LONGEST_FRAME))
}

// Appends the bytes of one frame. At an error it may have appended a part of them.
fn queue_frame(
    queue: &mut Vec<u8>,
    connection: u32,
    kind: StreamKind,
    bytes: &[u8],
) -> Result<(), AllocError>
    requires { length bytes.now ≤ 65536 }
    ensures ok { OnOk result (queue.new.items
        ≡ queue.old.items ++ (head_bytes connection kind (length bytes.now) ++ bytes.now)) }
    ensures err { OnErr result ((part : List ℕ) × (queue.new.items ≡ queue.old.items ++ part)) }
{
    queue.extend_from_slice(&head_bytes_of(connection, kind, bytes.len() as u32))?;
    queue.extend_from_slice(bytes)
}

// Appends the bytes of frames that carry these, and of one that closes the connection where it is done. At an error it may have
// appended a part of them.
fn queue_all(
    queue: &mut Vec<u8>,
    connection: u32,
    bytes: &[u8],
    is_done: bool,
) -> Result<(), AllocError>
    ensures ok { OnOk result ((sent : List StreamFrame) × Sends connection bytes.now is_done sent
        × (queue.new.items ≡ queue.old.items ++ stream_bytes sent)) }
    ensures err { OnErr result ((part : List ℕ) × (queue.new.items ≡ queue.old.items ++ part)) }
{
    let mut rest = bytes;
    while !rest.is_empty() {
        let (piece, more) = first_piece(rest);
        queue_frame(queue, connection, StreamKind::Data, piece)?;
        rest = more;
    }
    if is_done {
        queue_frame(queue, connection, StreamKind::Ended, &[])?;
    }
    Ok(())
}

// Appends the bytes of frames that carry these, and of one that closes the connection where it is done. At an error nothing is
// appended.
pub(crate) fn queue_answer(
    queue: &mut Vec<u8>,
    connection: u32,
    bytes: &[u8],
    is_done: bool,
) -> Result<(), AllocError>
    ensures ok { OnOk result ((sent : List StreamFrame) × Sends connection bytes.now is_done sent
        × (queue.new.items ≡ queue.old.items ++ stream_bytes sent)) }
    ensures err { OnErr result (queue.new.items ≡ queue.old.items) }
{
    let length = queue.len();
    if queue_all(queue, connection, bytes, is_done).is_err() {
        queue.truncate(length);
        return Err(AllocError);
    }
    Ok(())
}
