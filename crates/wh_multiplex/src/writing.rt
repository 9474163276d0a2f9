//! A frame is written.

ghost use Rattle.std.specs.Prelude.{◌≡◌, ℕ, ◌≤◌, ◌^◌, ◌<◌, ◌++◌, List, OnOk, OnErr, length};
ghost use Rattle.std.specs.Io.KnownBytes.{Appends};
ghost use Rattle.wh_multiplex.specs.StreamFrames.{stream_frame_bytes, head_bytes, IsFrame};

use crate::frame::{HEAD, StreamFrame, StreamKind};
use crate::moving::put;
use byteorder::{ByteOrder, LittleEndian};
use std::io;
use std::io::Write;

// What stands before so many bytes.
pub(crate) fn head_bytes_of(connection: u32, kind: StreamKind, count: u32) -> [u8; HEAD]
    ensures { result ≡ head_bytes connection kind count }
{
    let mut head = [0u8; HEAD];
    LittleEndian::write_u32(&mut head, connection);
    head[4] = kind.code();
    LittleEndian::write_u32(&mut head[5..], count);
    head
}

/// Writes a frame.
///
/// # Errors
/// Where the writer fails or takes nothing. It has taken a beginning of the frame then.
pub fn write_stream_frame<W: Write>(writer: &mut W, frame: &StreamFrame) -> io::Result<()>
    requires { IsFrame frame.now }
    ensures ok { OnOk result (Appends (W.contents writer.old) (W.contents writer.new) (stream_frame_bytes frame.now)) }
    ensures err { OnErr result ((went : List ℕ) × (kept : List ℕ) × (stream_frame_bytes frame.now ≡ went ++ kept)
        × Appends (W.contents writer.old) (W.contents writer.new) went) }
{
    let bytes = frame.bytes.as_slice();
    let head = head_bytes_of(frame.connection, frame.kind, bytes.len() as u32);
    put(writer, &head)?;
    match put(writer, bytes) {
        Ok(()) => Ok(()),
        Err(error) => Err(error),
    }
}
