//! An instance that runs against an overlay while others do, and the end of its turns.

ghost use Rattle.std.specs.Prelude.{◌≡◌, ◌≢◌, ◌+◌, ◌*◌, ◌≤◌, ℕ, [], get_or, length};
ghost use Rattle.wh_host_model.specs.Host.Worlds.{Tenant as OneTenant};
ghost use Rattle.wh_space_model.specs.Parts.{Space};
ghost use Rattle.wh_imports.specs.LinkedState.{LinkedState};
ghost use Rattle.wh_instance.specs.Seen.{IsAtTerm};
ghost use Rattle.wh_instance.specs.Tenancy.{HostInstanceState};
ghost use Rattle.wh_overlay.specs.LaidBack.{IsLaid, LooksSame};
ghost use Rattle.wh_overlay.specs.Over.{AreAtHand, HasGrown, ReadsAreThere, frames_lacking};
ghost use Rattle.wh_space.specs.StepViews.{KeepsRest};
ghost use Rattle.wh_host.specs.Backing.{KeepsBacking};
ghost use Rattle.wh_host_model.specs.declared.plain.TurnEnd.TheVariants.{Again as CanGoOn};
ghost use Rattle.wh_host.specs.Beside.{CameThere, CanGoOnFrom, EndsTurn, HasRun, RunsBeside, with_nothing};
ghost use Rattle.wh_host.specs.Left.{LeavesTurned};
ghost use Rattle.wh_host.specs.Lying.{LiesAt};
ghost use Rattle.wh_host.specs.Rounds.{IsBurst};

use crate::turning::settle_at;
use wh_host_model::TurnEnd;
use wh_imports::Linked;
use wh_instance::{Burst, HostInstance, Leave, TurnOutcome};
use wh_overlay::{Overlay, OverlayPages};
use wh_space::Memory;

/// What came of the turns of an instance against an overlay, before they are finished.
#[derive(Clone, Copy)]
pub struct RanBeside {
    /// The outcome of the last turn.
    pub came: TurnOutcome,
    /// How many pieces it has written.
    pub pieces: u64,
    /// How many charges it took.
    pub charges: u64,
    /// In how many turns.
    pub turns: u64,
    /// The leave that there was for further ones.
    pub leave: Leave,
}

/// Runs a burst of the instance at this place against an overlay on the memory, which others read at the same time;
/// returns the outcome, and what was written in the overlay.
pub fn run_beside(
    tenant: &mut HostInstance,
    linked: &Linked,
    memory: &Memory,
    place: usize,
    page_limit: u32,
    burst: Burst,
    upper: OverlayPages,
) -> (RanBeside, OverlayPages)
    requires pages { upper.pages ≡ [] }
    requires grown { upper.grown ≡ 0 }
    requires taken { upper.taken ≡ 0 }
    requires reads { upper.reads ≡ [] }
    requires lies { (t : OneTenant) × IsAtTerm t
        × LiesAt linked.now page_limit tenant.old memory.now place t }
    ensures runs { (t : OneTenant) → IsAtTerm t
        → LiesAt linked.now page_limit tenant.old memory.now place t
        → RunsBeside linked.now page_limit (result.0.turns * burst.entry.quantum) memory.now place
        tenant.old t result.0.came result.0.pieces result.0.charges tenant.new result.1 }
    ensures burst { IsBurst burst.entry.quantum (burst.entry.further + 1) result.0 }
    ensures lent { result.1.lent ≡ upper.lent }
{
    let mut overlay = Overlay::new(memory, place, page_limit, upper);
    let (ended, pieces) = tenant.advance_burst(linked, &mut overlay, burst);
    let ran = RanBeside {
        came: ended.came,
        pieces,
        charges: ended.charges,
        turns: ended.turns,
        leave: ended.leave,
    };
    (ran, overlay.into_upper())
}

// Writes back what was written in the overlay in `charges` charges. If there were none, does nothing.
fn lay_beside(memory: &mut Memory, place: usize, charges: u64, upper: &mut OverlayPages)
    requires hand { AreAtHand memory.old place upper.old.pages }
    requires lacking { frames_lacking memory.old place upper.old.pages ≤ upper.old.lent }
    requires free { upper.old.lent ≤ length memory.old.pool.free }
    requires limited { HasGrown memory.old place upper.old }
    requires there { ReadsAreThere memory.old place upper.old }
    ensures laid { 1 ≤ charges → IsLaid memory.old place upper.old memory.new }
    ensures left { charges ≡ 0 → memory.new ≡ memory.old }
    ensures others { (other : ℕ) → other ≢ place
        → get_or memory.new.tables other [] ≡ get_or memory.old.tables other [] }
    ensures keeps { KeepsRest place memory.old memory.new }
    ensures frames { length memory.old.pool.free ≤ length memory.new.pool.free + upper.old.lent }
    ensures empty { upper.new ≡ with_nothing upper.old }
{
    if charges == 0 {
        upper.clear();
        return;
    }
    upper.lay(memory, place);
}

// The outcome of the turns in the memory to which all is written back.
fn came_there(memory: &Memory, place: usize, ran: RanBeside) -> TurnOutcome
    ensures { (q : ℕ) → (q2 : ℕ) × CameThere memory.now place ran.came ran.charges q result q2 }
{
    match ran.came {
        TurnOutcome::Frame(need) => {
            if memory.is_ready(place, need) {
                TurnOutcome::Again
            } else {
                ran.came
            }
        }
        _ => ran.came,
    }
}

/// Finishes the turns of the instance at this place that ran against an overlay: writes back what it has written.
/// Returns the outcome of the last turn, by which its call can make progress if it stopped before bytes that it may
/// read or write now.
pub fn finish_beside(
    tenant: &mut HostInstance,
    memory: &mut Memory,
    place: usize,
    ran: RanBeside,
    upper: &mut OverlayPages,
) -> TurnEnd
    requires { (l : LinkedState) × (limit q : ℕ) × (s : Space) × (x : HostInstanceState) × (t : OneTenant)
        × HasRun l limit q s memory.old place x t ran.came ran.pieces ran.charges tenant.old upper.old }
    ensures turns { (l : LinkedState) (limit q : ℕ) (s : Space) (x : HostInstanceState) (t : OneTenant)
        → HasRun l limit q s memory.old place x t ran.came ran.pieces ran.charges tenant.old upper.old
        → EndsTurn l limit q ran.charges memory.old t result place tenant.new memory.new }
    ensures others { (other : ℕ) → other ≢ place → LooksSame other memory.old memory.new }
    ensures frames { length memory.old.pool.free ≤ length memory.new.pool.free + upper.old.lent }
    ensures backing { KeepsBacking memory.old memory.new }
    ensures memory { LeavesTurned place result memory.old memory.new }
    ensures again { result ≡ CanGoOn → CanGoOnFrom ran.came }
    ensures empty { upper.new ≡ with_nothing upper.old }
{
    memory.invariant();
    lay_beside(memory, place, ran.charges, upper);
    let came = came_there(memory, place, ran);
    let turned = tenant.finish(came, ran.pieces, ran.charges);
    settle_at(memory, place, turned)
}
