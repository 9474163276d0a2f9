//! Tokens as they are kept, and whose they are.

ghost use Rattle.std.specs.Prelude.{◌≡◌, ◌≢◌};
ghost use Rattle.std.specs.Bool.{MatchBool};
ghost use Rattle.sha2.specs.Sha256.{sha256};
ghost use Rattle.wh_tokens.specs.TokenOwners.{owner_in};

use sha2::{Digest, Sha256};

/// Who asks a service.
#[derive(Clone, Copy, Debug, PartialEq, Eq)]
pub enum Who {
    /// Whoever runs the host.
    Operator,
    /// Whoever has instances on it, by a number.
    Tenant(u32),
}

/// A token, as it is kept: by its digest, so that neither the file of tokens nor the time of a comparison tells it.
#[derive(Clone, Copy, Debug, PartialEq, Eq)]
pub struct Grant {
    /// The SHA-256 of the token.
    pub digest: [u8; 32],
    /// Whose it is.
    pub who: Who,
}

fn digest_of(token: &[u8]) -> [u8; 32]
    ensures { result ≡ sha256 token.now }
{
    let mut hasher = Sha256::new();
    hasher.update(token);
    hasher.finalize()
}

/// Returns whether two digests are the same.
pub(crate) fn is_same_digest(digest: &[u8; 32], other: &[u8; 32]) -> bool
    ensures { MatchBool result (digest.now ≡ other.now) (digest.now ≢ other.now) }
{
    digest == other
}

/// Returns whose a token is, by the first grant that has its digest; `None` where none has it.
pub fn who_has(grants: &[Grant], token: &[u8]) -> Option<Who>
    ensures { result ≡ owner_in grants.now (sha256 token.now) }
{
    let digest = digest_of(token);
    for grant in grants {
        if is_same_digest(&grant.digest, &digest) {
            return Some(grant.who);
        }
    }
    None
}
