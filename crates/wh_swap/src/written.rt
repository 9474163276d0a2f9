// What was written to a slot, as a device over a stream knows it.

ghost use Rattle.std.specs.Prelude.{◌≡◌, ◌↔◌, IsTrue, length};
ghost use Rattle.sha2.specs.Sha256.{sha256};

use sha2::{Digest, Sha256};
use std::snapshot::Snapshot;

// The digest of a page that was written, and for clauses the page itself.
#[derive(Drop)]
pub struct Written {
    digest: [u8; 32],
    bytes: Snapshot<[u8; 4096]>,
    ghost digested: { digest ≡ sha256 bytes.value },
    ghost whole: { length bytes.value ≡ 4096 },
}

impl Written {
    /// Returns the digest of these bytes, as written.
    pub fn of(from: &[u8; 4096]) -> Written
        ensures { result.bytes.value ≡ from.now }
    {
        Written {
            digest: Sha256::digest(from.as_slice()),
            bytes: Snapshot::of(from),
        }
    }

    /// Tells whether these bytes have the digest of those that were written.
    pub fn fits(&self, bytes: &[u8; 4096]) -> bool
        ensures { IsTrue result ↔ (sha256 bytes.now ≡ sha256 self.now.bytes.value) }
    {
        let digest = Sha256::digest(bytes.as_slice());
        digest.as_slice() == self.digest.as_slice()
    }
}
