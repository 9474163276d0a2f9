//! How instances go.

ghost use Rattle.std.specs.Prelude.{◌≡◌, OnErr, OnOk};
ghost use Rattle.wh_space_model.specs.Places.{Exits};
ghost use Rattle.wh_host.specs.Backing.{KeepsBacking};
ghost use Rattle.wh_hand.specs.ReleasedOutputs.{AnswersReleaseHere};

use crate::hand::Hand;
use crate::line::settle;
use std::alloc::Global;
use wh_host::HostError;
use wh_space_model::InstId;

impl Hand {
    /// Releases an instance, whatever its calls are. Keeps its output until the next release. Its memory is free, and
    /// its number is never used again; its place is.
    ///
    /// # Errors
    /// `NoInstance`. Nothing is done then, and the output is the one before.
    pub fn release(&mut self, alloc: Global, id: InstId) -> Result<(), HostError>
        ensures goes { AnswersReleaseHere self.old id result self.new }
        ensures err { OnErr result (self.new ≡ self.old) }
        ensures backing { KeepsBacking self.old.host.space self.new.host.space }
        ensures memory { OnOk result (Exits self.old.host.space id.place self.new.host.space) }
        ensures counts { self.new.host.counts ≡ self.old.host.counts }
    {
        let stands = self.host.can_go_on(id);
        let output = match self.host.release(alloc, id) {
            Ok(output) => output,
            Err(error) => return Err(error),
        };
        settle(&mut self.line, &self.host, id, stands);
        self.output = output;
        Ok(())
    }
}
