// A reader, and whether it has failed.

ghost use Rattle.std.specs.Prelude.{◌≡◌, false, true, MatchResult};
ghost use Rattle.std.specs.Io.{ReadsAtMost};
ghost use Rattle.std.specs.Io.KnownBytes.{ReadConsumes};

use std::io::{Error, Read, Result};

/// A reader that keeps whether a read has failed, and why the last of them did. Nothing else makes it keep that one has.
#[derive(Drop)]
pub struct WatchedRead<R> {
    inner: R,
    has_failed: bool,
    failure: Option<Error>,
}

impl<R> WatchedRead<R> {
    /// Watches a reader, no read of which has failed yet.
    pub fn new(inner: R) -> WatchedRead<R>
        ensures inner { result.inner ≡ inner }
        ensures failed { result.has_failed ≡ false }
    {
        WatchedRead {
            inner,
            has_failed: false,
            failure: None,
        }
    }

    /// Returns the reader.
    pub fn into_inner(self) -> R
        ensures { result ≡ self.inner }
    {
        self.inner
    }

    /// Returns whether a read has failed.
    pub fn has_failed(&self) -> bool
        ensures { result ≡ self.now.has_failed }
    {
        self.has_failed
    }

    /// Returns why the last read failed that did.
    pub fn failure(&self) -> Option<Error> {
        self.failure
    }
}

impl<R: Read> Read for WatchedRead<R> {
    ghost remaining = { λ watched. R.remaining watched.inner };

    fn read(&mut self, buf: &mut [u8]) -> Result<usize>
        ensures bound { ReadsAtMost result buf.new }
        ensures bytes { ReadConsumes (R.remaining self.old.inner) (R.remaining self.new.inner)
            result buf.new }
        ensures failed { MatchResult result (λ count. self.new.has_failed ≡ self.old.has_failed)
            (λ error. self.new.has_failed ≡ true) }
    {
        match self.inner.read(buf) {
            Ok(count) => Ok(count),
            Err(error) => {
                self.has_failed = true;
                self.failure = Some(error);
                Err(error)
            }
        }
    }
}
