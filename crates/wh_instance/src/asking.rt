//! What the owner of an instance asks of its present call: more fuel, another try, an end.

ghost use Rattle.std.specs.Prelude.{◌≡◌, ◌∷◌, true, false, List};
ghost use Rattle.std.specs.Bool.{MatchBool};
ghost use Rattle.wh_journal.specs.Calls.{JournalCallState};
ghost use Rattle.wh_instance.specs.OwnerRequests.{HasFuelAgain, HasNoOpenCall, RefuelsTenant, RetriesTenant, CannotRetry, CancelsTenant, FailsTenant, AwaitsNoFrame};

use crate::host_instance::HostInstance;
use crate::settling::{is_device, is_frame};
use crate::stages::Suspension;
use wh_journal::CallEnd;
use wh_space_model::SwapError;

impl HostInstance {
    // Whether the present call waits for fuel, and has some.
    fn has_fuel_again(&self) -> bool
        ensures { (c : JournalCallState) (cs : List JournalCallState)
            → self.now.journal.open_calls ≡ c ∷ cs → MatchBool result
            (HasFuelAgain self.now.waiting_for c) (¬ (HasFuelAgain self.now.waiting_for c)) }
    {
        let Some(Suspension::Fuel) = self.waiting_for else {
            return false;
        };
        match self.journal.present() {
            Some(call) => call.charges() < call.fuel(),
            None => false,
        }
    }

    /// Adds `fuel` charges to the present call, up to 2^64 - 1 in all; tells whether there is one.
    ///
    /// A call that waits for fuel can then make progress, if it was given any.
    pub fn refuel(&mut self, fuel: u64) -> bool
        ensures some { result ≡ true → RefuelsTenant self.old fuel self.new }
        ensures none { result ≡ false → HasNoOpenCall self.old × (self.new ≡ self.old) }
    {
        if self.journal.is_idle() {
            return false;
        }
        self.journal.refuel(fuel);
        if self.has_fuel_again() {
            self.waiting_for = None;
        }
        true
    }

    /// Retries the present call, if it is blocked on a device fault: it waits for a frame then. Tells whether it was.
    pub fn retry(&mut self) -> bool
        ensures some { result ≡ true → RetriesTenant self.old self.new }
        ensures none { result ≡ false → CannotRetry self.old × (self.new ≡ self.old) }
    {
        if !is_device(self.waiting_for) {
            return false;
        }
        self.waiting_for = Some(Suspension::Frame);
        true
    }

    /// Records, if the present call is blocked on a frame, that the swap device has failed for it: the call is blocked
    /// on that fault then, until it is retried. Tells whether it was blocked on a frame; nothing has changed otherwise.
    pub fn fail(&mut self, fault: SwapError) -> bool
        ensures some { result ≡ true → FailsTenant self.old fault self.new }
        ensures none { result ≡ false → AwaitsNoFrame self.old × (self.new ≡ self.old) }
    {
        if !is_frame(self.waiting_for) {
            return false;
        }
        self.waiting_for = Some(Suspension::Device(fault));
        true
    }

    /// Ends the present call where it is; what it has written stays. Whether there is one. A start that is cancelled
    /// leaves the instance dead, and the calls after it end as dead.
    pub fn cancel(&mut self) -> bool
        ensures some { result ≡ true → CancelsTenant self.old self.new }
        ensures none { result ≡ false → HasNoOpenCall self.old × (self.new ≡ self.old) }
    {
        if self.journal.is_idle() {
            return false;
        }
        self.close(CallEnd::Cancelled);
        true
    }
}
