//! Windows: a number of bytes of the input, as far as there are any, which what is read has to fill.

ghost use Rattle.std.specs.Prelude.{◌≡◌, ◌≤◌, length, take, Result};
ghost use Rattle.wh_leb.specs.Reading.{outer_fault, closed_window};

use wh_leb::fault;
use wh_model::{DecodeError, FaultKind};

/// Returns the bytes up to `end`, or all if there are fewer.
pub fn window(bytes: &[u8], end: usize) -> &[u8]
    ensures value { result.now ≡ take end bytes.now }
    ensures shorter { length result.now ≤ length bytes.now }
{
    if end <= bytes.len() {
        &bytes[..end]
    } else {
        bytes
    }
}

/// Translates a fault inside a window to one outside: running out of a window that is there whole is a wrong section
/// size.
pub fn outer(whole: bool, inner: DecodeError) -> DecodeError
    ensures { result ≡ outer_fault whole inner }
{
    match inner.kind {
        FaultKind::Truncated if whole => DecodeError {
            kind: FaultKind::SectionSize,
            offset: inner.offset,
        },
        _ => inner,
    }
}

/// Returns what was read in a window, or the fault of a wrong section size if reading didn't end where the window does.
pub fn close<T: Drop>(
    whole: bool,
    end: usize,
    read: Result<(T, usize), DecodeError>,
) -> Result<(T, usize), DecodeError>
    ensures { result ≡ closed_window whole end read }
{
    match read {
        Ok((value, next)) => {
            if next == end {
                Ok((value, next))
            } else {
                fault(FaultKind::SectionSize, next)
            }
        }
        Err(inner) => Err(outer(whole, inner)),
    }
}
