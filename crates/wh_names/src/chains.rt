// Chains through the names, by which a name is found.

ghost use Rattle.std.specs.Prelude.{◌≡◌, ℕ, ◌+◌, ◌-◌, ◌^◌, ◌<◌, length, vec_len, vec_capacity};
ghost use Rattle.wh_names.specs.NameChains.{AreNameChains};

use std::alloc::Global;

// Each bucket has a chain of its names, the last one first. A link to a name is its place and 1, and 0 where there is none.
#[derive(Drop)]
pub(crate) struct Chains {
    // The link to the last name of each bucket.
    pub(crate) heads: Vec<u32>,
    // From each name the link to the one before it in its bucket.
    pub(crate) links: Vec<u32>,
}

impl Chains {
    // No bucket and no name.
    pub(crate) fn new(alloc: Global) -> Chains
        ensures heads { length result.heads.items ≡ 0 }
        ensures links { length result.links.items ≡ 0 }
    {
        Chains {
            heads: Vec::new(alloc),
            links: Vec::new(alloc),
        }
    }

    // Puts one more name, the last one, into a bucket.
    pub(crate) fn push(&mut self, bucket: usize)
        requires few { length self.old.links.items + 1 < 2 ^ 32 }
        requires room { vec_len self.old.links < vec_capacity self.old.links }
        requires bucket { bucket < length self.old.heads.items }
        ensures chains { (bucket_of : ℕ → ℕ) → bucket_of (length self.old.links.items) ≡ bucket
            → AreNameChains bucket_of self.old.heads.items self.old.links.items
            → AreNameChains bucket_of self.new.heads.items self.new.links.items }
        ensures heads { length self.new.heads.items ≡ length self.old.heads.items }
        ensures links { length self.new.links.items ≡ length self.old.links.items + 1 }
        ensures capacity { vec_capacity self.new.links ≡ vec_capacity self.old.links }
    {
        let link = (self.links.len() + 1) as u32;
        self.links.push_reserved(self.heads[bucket]);
        self.heads[bucket] = link;
    }

    // Takes the last name out of its bucket.
    pub(crate) fn pop(&mut self, bucket: usize)
        requires last { 0 < length self.old.links.items }
        requires bucket { bucket < length self.old.heads.items }
        ensures chains { (bucket_of : ℕ → ℕ) → bucket_of (length self.old.links.items - 1) ≡ bucket
            → AreNameChains bucket_of self.old.heads.items self.old.links.items
            → AreNameChains bucket_of self.new.heads.items self.new.links.items }
        ensures heads { length self.new.heads.items ≡ length self.old.heads.items }
        ensures links { length self.new.links.items ≡ length self.old.links.items - 1 }
    {
        let last = self.links.len() - 1;
        self.heads[bucket] = self.links[last];
        self.links.truncate(last);
    }
}
