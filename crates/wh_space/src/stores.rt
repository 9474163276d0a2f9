// What an instance writes.

ghost use Rattle.std.specs.Prelude.{◌≡◌, ◌+◌, ◌*◌, ◌%◌, ◌^◌, ◌<◌, ◌≤◌, [], Some, IsTrue, IsFalse, length, get_or};
ghost use Rattle.wh_space_model.specs.Parts.{view};
ghost use Rattle.wh_space_model.specs.Ready.{Ready};
ghost use Rattle.wh_space_model.specs.States.{page_at};
ghost use Rattle.wh_space_model.specs.Stores.{Fills, Overwrites};
ghost use Rattle.wh_space_model.specs.declared.states.Page.TheVariants.{Private};
ghost use Rattle.wh_model.specs.Execution.Memory.{Stores};
ghost use Rattle.wh_model.specs.declared.memory.Got.TheVariants.{Value};
ghost use Rattle.wh_space.specs.Steps.{LeavesStore};

use crate::frames::write_frame;
use crate::memory::Memory;
use wh_model::{Got, Need};

impl Memory {
    // Writes bytes into a page whose own frame this is.
    #[inline(always)]
    pub(crate) fn write_own(
        &mut self,
        place: usize,
        number: u32,
        frame: u32,
        offset: usize,
        given: &[u8],
    )
        requires own { page_at self.old.tables place number ≡ Some (Private frame) }
        requires inside { offset + length given.now ≤ 4096 }
        requires some { 1 ≤ length given.now }
        ensures fills { Fills self.old place (4096 * number + offset) given.now self.new }
        ensures tables { self.new.tables ≡ self.old.tables }
    {
        write_frame(&mut self.pool, frame, offset, given);
        let _ = (place, number);
    }

    // Writes bytes over a page and the next.
    fn store_over(&mut self, place: usize, at: u64, given: &[u8]) -> Got
        requires few { length given.now ≤ 4096 }
        requires over { 4096 < at % 4096 + length given.now }
        requires fits { at + length given.now ≤ 4096 * length (get_or self.old.tables place []) }
        requires pages { length (get_or self.old.tables place []) < 2 ^ 32 }
        ensures stores { Stores (Ready self.old place) (view self.old place)
            at given.now result (view self.new place) }
        ensures leaves { LeavesStore self.old place at given.now result self.new }
    {
        let _ = &self.tax;
        let need = Need {
            at,
            length: given.len(),
            writes: true,
        };
        if !self.is_ready(place, need) {
            return Got::NotReady(need);
        }
        let number = (at / 4096) as u32;
        let offset = (at % 4096) as usize;
        let (here, there) = given.split_at(4096 - offset);
        let Some(first) = self.own(place, number) else {
            unreachable!()
        };
        let Some(second) = self.own(place, number + 1) else {
            unreachable!()
        };
        self.write_own(place, number, first, offset, here);
        self.write_own(place, number + 1, second, 0, there);
        Got::Value
    }

    /// Writes bytes to the memory of the instance at this place, from this one on. Their pages get frames of their own
    /// (copy-on-write), and are marked as touched.
    ///
    /// Returns `Trap` if they aren't all in its memory, and `NotReady` if a page of them is in a slot or on the way
    /// from one, or no frame is free for it. Then nothing is done. Allocates nothing.
    #[inline(never)]
    pub fn store(&mut self, place: usize, at: u64, given: &[u8]) -> Got
        requires few { length given.now ≤ 4096 }
        ensures stores { Stores (Ready self.old place) (view self.old place)
            at given.now result (view self.new place) }
        ensures leaves { LeavesStore self.old place at given.now result self.new }
    {
        let _ = &self.tax;
        if !self.fits(place, at, given.len()) {
            return Got::Trap;
        }
        if given.is_empty() {
            return Got::Value;
        }
        let offset = (at % 4096) as usize;
        if offset + given.len() > 4096 {
            return self.store_over(place, at, given);
        }
        let number = (at / 4096) as u32;
        if let Some(frame) = self.own(place, number) {
            self.write_own(place, number, frame, offset, given);
            Got::Value
        } else {
            Got::NotReady(Need {
                at,
                length: given.len(),
                writes: true,
            })
        }
    }

    /// Writes bytes as `store` does, where they go to one page that has a frame of its own and was touched in this epoch. Where
    /// they don't nothing is done, and the answer is false.
    #[inline(always)]
    pub fn quick_store(&mut self, place: usize, at: u64, given: &[u8]) -> bool
        requires few { length given.now ≤ 4096 }
        ensures stores { IsTrue result → Stores (Ready self.old place) (view self.old place)
            at given.now Value (view self.new place) }
        ensures leaves { IsTrue result → Overwrites self.old place at given.now self.new }
        ensures unchanged { IsFalse result → self.new ≡ self.old }
    {
        let _ = &self.tax;
        let offset = (at % 4096) as usize;
        if given.is_empty() || offset + given.len() > 4096 {
            return false;
        }
        if !self.has_page(place, at / 4096) {
            return false;
        }
        let number = (at / 4096) as u32;
        let Some(frame) = self.own_quickly(place, number) else {
            return false;
        };
        self.write_own(place, number, frame, offset, given);
        true
    }
}
