// What a swap device promises.

ghost use Rattle.std.specs.Prelude.{◌≡◌, ◌≢◌, ◌+◌, ◌<◌, ℕ, List, [], ◌∷◌, length, get_or, slice_set, OnOk, OnErr, IfErr};
ghost use Rattle.wh_space_model.specs.declared.plain.SwapError.{SwapError};

use wh_space_model::SwapError;

/// A device with slots of 4096 bytes, numbered from 0.
pub trait SwapDev {
    /// What each slot's last write wrote, and `[]` where that write failed or there was none.
    ghost held: { Self → List (List ℕ) };

    /// How many writes there were.
    ghost writes: { Self → ℕ };

    /// The faults of the calls that failed, the last one first.
    ghost faults: { Self → List SwapError };

    /// Each Ok read so far, of a slot whose last write was Ok, gave what that write wrote.
    ghost honest: { Self → Type 0 };

    /// The device keeps what is written to it, and so it stays honest.
    ghost keeps: { Self → Type 0 };

    /// Reads a slot. What a slot gives to which nothing was written, or whose last write failed, is left open.
    ///
    /// # Errors
    /// `Read` where the slot wasn't read, and `Damaged` where it holds other bytes than were written to it. All
    /// slots are as they were, and what `into` holds is left open.
    fn read(&mut self, slot: u32, into: &mut [u8; 4096]) -> Result<(), SwapError>
        requires there { slot < length (held self.old) }
        ensures bytes { OnOk result (honest self.new → get_or (held self.old) slot [] ≢ []
            → into.new ≡ get_or (held self.old) slot []) }
        ensures held { held self.new ≡ held self.old }
        ensures writes { writes self.new ≡ writes self.old }
        ensures ok { OnOk result (faults self.new ≡ faults self.old) }
        ensures err { IfErr result (λ fault. faults self.new ≡ fault ∷ faults self.old) }
        ensures which { IfErr result (λ fault. fault ≢ SwapError.Write) }
        ensures honest { honest self.new → honest self.old }
        ensures keeps { keeps self.old → keeps self.new }
        ensures kept { keeps self.old → honest self.old → honest self.new };

    /// Writes a slot. All other slots are as they were.
    ///
    /// # Errors
    /// `Write` where the slot wasn't written. Nothing is known then of what it holds.
    fn write(&mut self, slot: u32, from: &[u8; 4096]) -> Result<(), SwapError>
        requires there { slot < length (held self.old) }
        ensures written { OnOk result (held self.new ≡ slice_set (held self.old) slot from.now) }
        ensures open { OnErr result (held self.new ≡ slice_set (held self.old) slot []) }
        ensures slots { length (held self.new) ≡ length (held self.old) }
        ensures writes { writes self.new ≡ writes self.old + 1 }
        ensures ok { OnOk result (faults self.new ≡ faults self.old) }
        ensures err { IfErr result (λ fault. faults self.new ≡ fault ∷ faults self.old) }
        ensures which { IfErr result (λ fault. fault ≡ SwapError.Write) }
        ensures honest { honest self.new → honest self.old }
        ensures keeps { keeps self.old → keeps self.new }
        ensures kept { keeps self.old → honest self.old → honest self.new };
}
