// Into which bucket a name falls.

ghost use Rattle.std.specs.Prelude.{◌≡◌, ◌<◌, ◌%◌};
ghost use Rattle.wh_names.specs.NameHash.{hash_of};

use std::hash::{FoldHasher, Hasher};

// The hash of a name. Nothing rests on which it is, but that names are found in little time.
#[tactic(auto, unfolding(crate::specs::NameHash::hash_of))]
fn hash_of(name: &[u8]) -> u64
    ensures { result ≡ hash_of name.now }
{
    let mut hasher = FoldHasher::default();
    hasher.write(name);
    hasher.finish()
}

// The bucket of a name, one of `buckets`.
pub(crate) fn bucket_of(name: &[u8], buckets: usize) -> usize
    requires { 0 < buckets }
    ensures { result ≡ hash_of name.now % buckets }
{
    (hash_of(name) % buckets as u64) as usize
}
