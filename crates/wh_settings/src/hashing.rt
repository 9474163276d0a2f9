// The hash that a host's settings name, as one.

ghost use Rattle.wh_settings.specs.View.{hashing_of};
ghost use Rattle.wh_settings.specs.Hashing.{hashes_by};

use crate::settings::HashKind;
use wh_kernels::{PageHash, fnv64};

impl PageHash for HashKind {
    ghost hashes = { λ kind. hashes_by (hashing_of kind) };

    fn hash(&self, page: &[u8; 4096]) -> u64 {
        match self {
            HashKind::Fnv64 => fnv64(page),
            HashKind::Constant => 0,
        }
    }
}
