// An overlay is a linear memory.

ghost use Rattle.std.proofs.Common.{◌∙◌, ap, refl};
ghost use Rattle.std.specs.Prelude.{◌≡◌, ◌+◌, ◌*◌, ◌%◌, ◌≤◌, ◌/◌, IsFalse, IsTrue, MatchBool, length, min};
ghost use Rattle.wh_model.specs.declared.memory.Got.TheVariants.{Value};
ghost use Rattle.wh_model.specs.Execution.Memory.{IsWaiting, Loads, reading, writing};
ghost use Rattle.wh_space.specs.Steps.{page_limit};
ghost use Rattle.wh_overlay.specs.Over.{CanRead, CanStepOver, CanWrite, IsOverSame, IsReadyOver, OverlayState, ReadsOver, sees};

use crate::overlay::Overlay;
use wh_linmem::LinearMem;
use wh_model::{Got, Grown, Need};

// Whether `count` bytes from a place on are on one page of 4096 bytes.
#[inline(always)]
fn is_on_one_page(at: u64, count: usize) -> bool
    ensures { MatchBool result (at % 4096 + count ≤ 4096) (¬ (at % 4096 + count ≤ 4096)) }
{
    count <= 4096 - (at % 4096) as usize
}

impl<'a> LinearMem for Overlay<'a> {
    ghost bytes = { sees };

    ghost limit = { λ o. min o.page_limit (page_limit o.lower o.place) };

    ghost ready = { λ o need. CanStepOver o.lower o.place o.upper need };

    ghost keeps = { IsOverSame };

    fn is_ready(&self, need: Need) -> bool {
        if need.length == 0 {
            return true;
        }
        if !is_on_one_page(need.at, need.length) {
            return false;
        }
        if need.writes {
            self.can_write(need.at / 4096)
        } else {
            self.can_read(need.at / 4096)
        }
    }

    fn load(&mut self, at: u64, into: &mut [u8]) -> Got
        ensures loads { Loads (IsReadyOver self.old) (sees self.old) at into.old result into.new }
        ensures bytes { sees self.new ≡ sees self.old }
        ensures keeps { IsOverSame self.old self.new }
        ensures waits { IsWaiting result → self.new ≡ self.old }
        ensures noted { ReadsOver self.old at (length into.old) result self.new }
    {
        if !self.has(at, into.len()) {
            return Got::Trap;
        }
        if into.is_empty() {
            return Got::Value;
        }
        let need = Need {
            at,
            length: into.len(),
            writes: false,
        };
        if !is_on_one_page(at, into.len()) {
            return Got::NotReady(need);
        }
        if self.read((at / 4096) as u32, (at % 4096) as usize, into) {
            Got::Value
        } else {
            Got::NotReady(need)
        }
    }

    fn store(&mut self, at: u64, given: &[u8]) -> Got {
        if !self.has(at, given.len()) {
            return Got::Trap;
        }
        if given.is_empty() {
            return Got::Value;
        }
        let need = Need {
            at,
            length: given.len(),
            writes: true,
        };
        if !is_on_one_page(at, given.len()) {
            return Got::NotReady(need);
        }
        if self.write((at / 4096) as u32, (at % 4096) as usize, given) {
            Got::Value
        } else {
            Got::NotReady(need)
        }
    }

    #[inline(always)]
    fn quick_load(&mut self, at: u64, into: &mut [u8]) -> bool
        ensures loads { IsTrue result
            → Loads (IsReadyOver self.old) (sees self.old) at into.old Value into.new }
        ensures bytes { sees self.new ≡ sees self.old }
        ensures keeps { IsOverSame self.old self.new }
        ensures nothing_read { IsFalse result → into.new ≡ into.old }
        ensures nothing_done { IsFalse result → self.new ≡ self.old }
        ensures noted { IsTrue result → ReadsOver self.old at (length into.old) Value self.new }
    {
        if into.is_empty() || !is_on_one_page(at, into.len()) || !self.has(at, into.len()) {
            return false;
        }
        self.read((at / 4096) as u32, (at % 4096) as usize, into)
    }

    #[inline(always)]
    fn quick_store(&mut self, at: u64, given: &[u8]) -> bool {
        if given.is_empty() || !is_on_one_page(at, given.len()) || !self.has(at, given.len()) {
            return false;
        }
        self.write((at / 4096) as u32, (at % 4096) as usize, given)
    }

    fn size(&self) -> u32 {
        self.pages()
    }

    fn grow(&mut self, pages: u32) -> Grown {
        let before = self.pages();
        let most = self.most_pages();
        if u64::from(before) + u64::from(pages) > u64::from(most) {
            return Grown::Refused;
        }
        self.grow_by(pages);
        Grown::Done(before)
    }

    ghost keeps_same = { λ o. record {
      lower = refl;
      place = refl;
      page_limit = refl;
      lent = refl;
      reads = λ number is. is;
      stays = λ h. h;
    } };

    ghost keeps_more = { λ a b c first second. record {
      lower = second.lower ∙ first.lower;
      place = second.place ∙ first.place;
      page_limit = second.page_limit ∙ first.page_limit;
      lent = second.lent ∙ first.lent;
      reads = λ number is. second.reads number (first.reads number is);
      stays = λ h. second.stays (first.stays h);
    } };

    ghost keeps_limit = { λ a b keeps. ap (λ z. min z (page_limit b.lower b.place)) keeps.page_limit
        ∙ ap (λ z. min a.page_limit (page_limit z b.place)) keeps.lower
        ∙ ap (λ z. min a.page_limit (page_limit a.lower z)) keeps.place };
}
