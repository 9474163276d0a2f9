// The memory of one instance, lent for its steps.

ghost use Rattle.std.proofs.Common.{◌∙◌};
ghost use Rattle.std.specs.Prelude.{◌≡◌, min, refl};
ghost use Rattle.wh_space_model.specs.Parts.{view};
ghost use Rattle.wh_space_model.specs.Ready.{Ready};
ghost use Rattle.wh_space.specs.Steps.{page_limit};
ghost use Rattle.wh_space.specs.StepViews.{KeepsRest, keeps_all, keeps_on, keeps_page_limit, keeps_least};

use crate::memory::Memory;
use wh_linmem::LinearMem;
use wh_model::{Got, Grown, Need};

/// The memory of the instance at one place: a flat list of bytes of its own, though all pages share one pool of frames.
/// Its steps leave all else as it was.
///
/// If nobody is there, it has no bytes, and doesn't grow. Else it grows as far as its instance was promised, and no
/// further than the limit that is lent with it, which is that of the instance's module.
#[derive(Drop)]
pub struct View<'a> {
    /// The memory of all.
    pub memory: &'a mut Memory,
    /// The place.
    pub place: usize,
    /// To how many pages of 65536 bytes it may grow at most.
    pub page_limit: u32,
}

impl<'a> LinearMem for View<'a> {
    ghost bytes = { λ v. view v.memory.now v.place };

    ghost limit = { λ v. min v.page_limit (page_limit v.memory.now v.place) };

    ghost ready = { λ v need. Ready v.memory.now v.place need };

    ghost keeps = { λ v w. (v.memory.ghost_name ≡ w.memory.ghost_name) × (w.place ≡ v.place)
        × (w.page_limit ≡ v.page_limit) × KeepsRest v.place v.memory.now w.memory.now };

    fn is_ready(&self, need: Need) -> bool {
        self.memory.is_ready(self.place, need)
    }

    #[inline(always)]
    fn load(&mut self, at: u64, into: &mut [u8]) -> Got {
        self.memory.invariant();
        self.memory.load(self.place, at, into)
    }

    #[inline(always)]
    fn store(&mut self, at: u64, given: &[u8]) -> Got {
        self.memory.invariant();
        self.memory.store(self.place, at, given)
    }

    #[inline(always)]
    fn quick_load(&mut self, at: u64, into: &mut [u8]) -> bool {
        self.memory.invariant();
        self.memory.quick_load(self.place, at, into)
    }

    #[inline(always)]
    fn quick_store(&mut self, at: u64, given: &[u8]) -> bool {
        self.memory.invariant();
        self.memory.quick_store(self.place, at, given)
    }

    fn size(&self) -> u32 {
        self.memory.size(self.place)
    }

    fn grow(&mut self, pages: u32) -> Grown {
        let before = self.memory.size(self.place);
        if u64::from(before) + u64::from(pages) > u64::from(self.page_limit) {
            return Grown::Refused;
        }
        let grown = self.memory.grow(self.place, pages);
        self.memory.invariant();
        grown
    }

    ghost keeps_same = { λ v. (refl, refl, refl, keeps_all v.place v.memory.now) };

    ghost keeps_more = { λ a b c first second. (
      first.0 ∙ second.0,
      second.1 ∙ first.1,
      second.2 ∙ first.2,
      keeps_on a.place b.place a.memory.now b.memory.now c.memory.now
          first.1 first.3 second.3,
    ) };

    ghost keeps_limit = { λ a b keeps. keeps_least keeps.2
        (keeps_page_limit a.place b.place a.memory.now b.memory.now keeps.1 keeps.3) };
}
