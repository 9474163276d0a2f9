// A writer, and whether it has failed.

ghost use Rattle.std.specs.Prelude.{◌≡◌, false, true, MatchResult};
ghost use Rattle.std.specs.Io.{WritesAtMost};
ghost use Rattle.std.specs.Io.KnownBytes.{Keeps, WriteAppends};
ghost use Rattle.wh_streams.specs.Failed.{IsFailedWrite};

use std::io::{Error, ErrorKind, Result, Write};

/// A writer that keeps whether a call has failed, and why the last of them did: whether one was refused, or took nothing of some
/// bytes. Nothing else makes it keep that one has.
#[derive(Drop)]
pub struct WatchedWrite<W> {
    inner: W,
    has_failed: bool,
    failure: Option<Error>,
}

impl<W> WatchedWrite<W> {
    /// Watches a writer, no call of which has failed yet.
    pub fn new(inner: W) -> WatchedWrite<W>
        ensures inner { result.inner ≡ inner }
        ensures failed { result.has_failed ≡ false }
    {
        WatchedWrite {
            inner,
            has_failed: false,
            failure: None,
        }
    }

    /// Returns the writer.
    pub fn into_inner(self) -> W
        ensures { result ≡ self.inner }
    {
        self.inner
    }

    /// Returns whether a call has failed.
    pub fn has_failed(&self) -> bool
        ensures { result ≡ self.now.has_failed }
    {
        self.has_failed
    }

    /// Returns why the last call failed that did.
    pub fn failure(&self) -> Option<Error> {
        self.failure
    }
}

impl<W: Write> Write for WatchedWrite<W> {
    ghost contents = { λ watched. W.contents watched.inner };

    fn write(&mut self, buf: &[u8]) -> Result<usize>
        ensures bound { WritesAtMost result buf.now }
        ensures bytes { WriteAppends (W.contents self.old.inner) (W.contents self.new.inner) result
            buf.now }
        ensures failed { IsFailedWrite result buf.now → self.new.has_failed ≡ true }
        ensures kept { ¬ (IsFailedWrite result buf.now) → self.new.has_failed
            ≡ self.old.has_failed }
    {
        match self.inner.write(buf) {
            Ok(count) => {
                if count == 0 && !buf.is_empty() {
                    self.has_failed = true;
                    self.failure = Some(Error::from(ErrorKind::WriteZero));
                }
                Ok(count)
            }
            Err(error) => {
                self.has_failed = true;
                self.failure = Some(error);
                Err(error)
            }
        }
    }

    fn flush(&mut self) -> Result<()>
        ensures bytes { Keeps (W.contents self.old.inner) (W.contents self.new.inner) }
        ensures failed { MatchResult result (λ done. self.new.has_failed ≡ self.old.has_failed)
            (λ error. self.new.has_failed ≡ true) }
    {
        match self.inner.flush() {
            Ok(()) => Ok(()),
            Err(error) => {
                self.has_failed = true;
                self.failure = Some(error);
                Err(error)
            }
        }
    }
}
