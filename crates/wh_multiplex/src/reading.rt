//! A frame is read.

ghost use Rattle.std.specs.Prelude.{◌≡◌, ◌<◌, ◌≤◌, ◌^◌, ℕ, [], List, Option, IfOk, IfErr, IfSome, IsNone, length};
ghost use Rattle.std.specs.Io.KnownBytes.{Consumes, IsAtEnd};
ghost use Rattle.wh_multiplex.specs.StreamFrames.{stream_frame_bytes, head_bytes, IsFrame, HasNoFrame, LacksBytes};

use crate::fault::StreamFault;
use crate::frame::{HEAD, LONGEST_FRAME, StreamFrame, StreamKind};
use crate::moving::fill;
use byteorder::{ByteOrder, LittleEndian};
use bytes::{Bytes, BytesMut};
use std::alloc::Global;
use std::io::Read;

// What stands before the bytes that a frame carries.
#[derive(Clone, Copy)]
pub(crate) struct StreamHead {
    connection: u32,
    kind: StreamKind,
    count: usize,
}

// What nine bytes say.
fn head_of(bytes: &[u8]) -> Result<StreamHead, StreamFault>
    requires { length bytes.now ≡ HEAD }
    ensures ok { IfOk result (λ head. (bytes.now ≡ head_bytes head.connection head.kind head.count)
        × (head.connection < 2 ^ 32) × (head.count ≤ 65536)) }
    ensures err { (after : Option (List ℕ)) → IfErr result (λ fault. HasNoFrame fault bytes.now after) }
{
    let Some(kind) = StreamKind::from_code(bytes[4]) else {
        return Err(StreamFault::UnknownKind(bytes[4]));
    };
    let count = LittleEndian::read_u32(&bytes[5..]);
    if count as usize > LONGEST_FRAME {
        return Err(StreamFault::TooLong(count));
    }
    Ok(StreamHead {
        connection: LittleEndian::read_u32(bytes),
        kind,
        count: count as usize,
    })
}

// Reads what a frame carries.
fn read_bytes<R: Read>(alloc: Global, reader: &mut R, count: usize) -> Result<Bytes, StreamFault>
    ensures ok { IfOk result (λ bytes. (length bytes ≡ count)
        × Consumes (R.remaining reader.old) (R.remaining reader.new) bytes) }
    ensures err { IfErr result (λ fault. (came : List ℕ)
        × Consumes (R.remaining reader.old) (R.remaining reader.new) came
        × LacksBytes fault count came (R.remaining reader.new)) }
{
    let Ok(mut bytes) = vec![in alloc; 0u8; count] else {
        return Err(StreamFault::Memory);
    };
    match fill(reader, &mut bytes) {
        Ok(came) if came == count => {}
        Ok(_) => return Err(StreamFault::CutOff),
        Err(error) => return Err(StreamFault::Read(error)),
    }
    match BytesMut::from(bytes).freeze() {
        Ok(bytes) => Ok(bytes),
        Err(_) => Err(StreamFault::Memory),
    }
}

/// Reads the next frame, and nothing behind it. Returns none where the stream has ended between two frames.
///
/// # Errors
/// `UnknownKind` and `TooLong` where no frame begins like this, of which only what stands before its bytes was read; `CutOff`
/// where the stream ends amid a frame; `Memory` where room for what the frame carries is refused; `Read` where the reader
/// fails, but not where it was interrupted. What was read of the frame is lost then.
pub fn read_stream_frame<R: Read>(
    alloc: Global,
    reader: &mut R,
) -> Result<Option<StreamFrame>, StreamFault>
    ensures frame { IfOk result (λ found. IfSome found (λ frame. IsFrame frame
        × Consumes (R.remaining reader.old) (R.remaining reader.new) (stream_frame_bytes frame))) }
    ensures end { IfOk result (λ found. IsNone found → IsAtEnd (R.remaining reader.new)
        × Consumes (R.remaining reader.old) (R.remaining reader.new) []) }
    ensures err { IfErr result (λ fault. (came : List ℕ)
        × Consumes (R.remaining reader.old) (R.remaining reader.new) came
        × HasNoFrame fault came (R.remaining reader.new)) }
{
    let mut bytes = [0u8; HEAD];
    let count = match fill(reader, &mut bytes) {
        Ok(count) => count,
        Err(error) => return Err(StreamFault::Read(error)),
    };
    if count == 0 {
        return Ok(None);
    }
    if count < HEAD {
        return Err(StreamFault::CutOff);
    }
    let head = match head_of(&bytes) {
        Ok(head) => head,
        Err(fault) => return Err(fault),
    };
    match read_bytes(alloc, reader, head.count) {
        Ok(bytes) => Ok(Some(StreamFrame {
            connection: head.connection,
            kind: head.kind,
            bytes,
        })),
        Err(fault) => Err(fault),
    }
}
