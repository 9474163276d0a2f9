//! How the end of a turn, and of a call, is written down.

ghost use Rattle.std.specs.Prelude.{◌≡◌, ◌∷◌, ◌+◌, List};
ghost use Rattle.std.specs.Bool.{MatchBool};
ghost use Rattle.wh_journal.specs.Calls.{CanGoFurther, JournalCallState, HasPresent};
ghost use Rattle.wh_instance.specs.Seen.{waits_at_frame};
ghost use Rattle.wh_instance.specs.Settling.{has_failed, is_fatal, closed, is_fault, answered, settled_to, IsFinished};

use crate::computing::TurnOutcome;
use crate::host_instance::HostInstance;
use crate::stages::{CallStage, Suspension, TurnResult};
use wh_journal::CallEnd;

// Whether a start that so ends leaves its instance dead.
fn fails(end: CallEnd) -> bool
    ensures { result ≡ has_failed end }
{
    match end {
        CallEnd::Trapped(_) | CallEnd::Cancelled => true,
        CallEnd::Open | CallEnd::Returned(_) | CallEnd::Dead => false,
    }
}

// Whether the present call is blocked on a device fault.
pub(crate) fn is_device(waiting_for: Option<Suspension>) -> bool
    ensures { result ≡ is_fault waiting_for }
{
    match waiting_for {
        Some(Suspension::Device(_)) => true,
        _ => false,
    }
}

// Whether it is blocked on a frame.
pub(crate) fn is_frame(waiting_for: Option<Suspension>) -> bool
    ensures { result ≡ waits_at_frame waiting_for }
{
    match waiting_for {
        Some(Suspension::Frame) => true,
        _ => false,
    }
}

// Whether no step was taken.
fn is_still(pieces: u64, charges: u64) -> bool
    ensures { MatchBool result (pieces + charges ≡ 0) (¬ (pieces + charges ≡ 0)) }
{
    pieces == 0 && charges == 0
}

impl HostInstance {
    // Whether the present call is a start, and so ends that its instance is dead.
    fn dies(&self, end: CallEnd) -> bool
        ensures { result ≡ is_fatal self.now.journal.ended end }
    {
        self.journal.ended_len() == 0 && fails(end)
    }

    // The present call has ended so. The next one is faced, if there is one; after a start that has failed they end as
    // dead.
    pub(crate) fn close(&mut self, end: CallEnd)
        requires { HasPresent self.old.journal.open_calls }
        ensures { (c : JournalCallState) (cs : List JournalCallState)
            → self.old.journal.open_calls ≡ c ∷ cs → self.new ≡ closed self.old end c cs }
    {
        if self.dies(end) {
            self.journal.end_all(end);
            self.dead = true;
        } else {
            self.journal.end_present(end);
        }
        self.progress = CallStage::Faced;
        self.waiting_for = None;
    }

    // The turn has come to this, and no step was taken where it is still where it was.
    pub(crate) fn settle(&mut self, came: TurnOutcome, still: bool) -> TurnResult
        requires { HasPresent self.old.journal.open_calls }
        ensures answer { result ≡ answered self.old came still }
        ensures leaves { (c : JournalCallState) (cs : List JournalCallState)
            → self.old.journal.open_calls ≡ c ∷ cs → self.new
            ≡ settled_to self.old came still c cs }
    {
        match came {
            TurnOutcome::Returned(result) => {
                self.close(CallEnd::Returned(result));
                TurnResult::Ended
            }
            TurnOutcome::Trapped(trap) => {
                self.close(CallEnd::Trapped(trap));
                TurnResult::Ended
            }
            TurnOutcome::Fuel => {
                self.waiting_for = Some(Suspension::Fuel);
                TurnResult::Fuel
            }
            TurnOutcome::Frame(need) => {
                if !(still && is_device(self.waiting_for)) {
                    self.waiting_for = Some(Suspension::Frame);
                }
                TurnResult::Frame {
                    need,
                    is_still: still,
                }
            }
            TurnOutcome::Again => {
                if still && is_device(self.waiting_for) {
                    return TurnResult::Kept;
                }
                self.waiting_for = None;
                TurnResult::Again { is_still: still }
            }
        }
    }

    /// Finishes a turn of this outcome that has written `pieces` pieces and taken `charges` charges: updates its
    /// journal, and what the call is blocked on then.
    pub fn finish(&mut self, came: TurnOutcome, pieces: u64, charges: u64) -> TurnResult
        requires { CanGoFurther self.old.journal.open_calls pieces charges }
        ensures { (c : JournalCallState) (cs : List JournalCallState)
            → self.old.journal.open_calls ≡ c ∷ cs
            → IsFinished self.old came pieces charges c cs result self.new }
    {
        self.journal.go_further(pieces, charges);
        self.settle(came, is_still(pieces, charges))
    }
}
