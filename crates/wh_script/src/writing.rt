// Replies that are written.

ghost use Rattle.std.specs.Prelude.{◌≡◌, IfErr, OnErr, true};
ghost use Rattle.wh_script.specs.Runs.{Sent};

use crate::fault::ScriptFault;
use std::io::{ErrorKind, Write};
use wh_streams::WatchedWrite;

/// Writes all `bytes` at once. Where there are none the writer isn't touched.
///
/// # Errors
/// `Output` where the writer fails; a beginning of the bytes may be written.
pub fn send<W: Write>(writer: &mut WatchedWrite<W>, bytes: &[u8]) -> Result<(), ScriptFault>
    ensures sent { Sent (W.contents writer.old.inner) (W.contents writer.new.inner) result bytes.now }
    ensures blames { OnErr result (writer.new.has_failed ≡ true) }
{
    if bytes.is_empty() {
        return Ok(());
    }
    write_whole(writer, bytes)?;
    writer.flush().map_err(|_| ScriptFault::Output)
}

// Writes all of the bytes, or as many as the writer takes.
fn write_whole<W: Write>(writer: &mut WatchedWrite<W>, bytes: &[u8]) -> Result<(), ScriptFault>
    ensures sent { Sent (W.contents writer.old.inner) (W.contents writer.new.inner) result bytes.now }
    ensures blames { OnErr result (writer.new.has_failed ≡ true) }
    ensures output { IfErr result (λ e. e ≡ ScriptFault.Output) }
{
    let mut rest = bytes;
    for _tried in 0..u64::MAX {
        if rest.is_empty() {
            return Ok(());
        }
        match writer.write(rest) {
            Ok(0) => return Err(ScriptFault::Output),
            Ok(count) => rest = &rest[count..],
            Err(e) if e.kind() == ErrorKind::Interrupted => {}
            Err(_) => return Err(ScriptFault::Output),
        }
    }
    Err(ScriptFault::Output)
}
