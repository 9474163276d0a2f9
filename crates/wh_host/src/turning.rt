//! Turns of an instance on the memory of all.

ghost use Rattle.std.specs.Prelude.{◌≡◌, ◌≢◌, ◌≤◌, []};
ghost use Rattle.wh_host_model.specs.Host.Worlds.{Tenant as OneTenant};
ghost use Rattle.wh_host.specs.Backing.{KeepsBacking};
ghost use Rattle.wh_host.specs.Left.{LeavesTurned};
ghost use Rattle.wh_host.specs.Lying.{LiesAt};
ghost use Rattle.wh_space.specs.InstanceSteps.{TakesSteps};
ghost use Rattle.wh_host.specs.Lent.{CanSettle, TurnsLent, TurnsTo, turn_end_of, settled_in};

use wh_host_model::TurnEnd;
use wh_imports::Linked;
use wh_instance::{HostInstance, TurnResult};
use wh_space::{Memory, View};

// Lends the memory to the instance at this place for a turn of q charges; returns its outcome, and how many charges it
// took. What the instance is blocked on is yet to be recorded in memory.
fn turn_lent(
    tenant: &mut HostInstance,
    linked: &Linked,
    memory: &mut Memory,
    place: usize,
    page_limit: u32,
    q: u64,
) -> (TurnResult, u64)
    requires { (t : OneTenant) × (t.open_calls ≢ [])
        × LiesAt linked.now page_limit tenant.old memory.old place t }
    ensures turns { (t : OneTenant) → t.open_calls ≢ []
        → LiesAt linked.now page_limit tenant.old memory.old place t
        → TurnsLent linked.now page_limit q memory.old t place tenant.new memory.new result.0
        result.1 }
    ensures backing { KeepsBacking memory.old memory.new }
    ensures steps { TakesSteps place memory.old memory.new }
{
    memory.invariant();
    let mut view = View {
        memory,
        place,
        page_limit,
    };
    tenant.turn(linked, &mut view, q)
}

/// Records in memory what the instance at this place is blocked on after such a turn; returns the turn's end.
pub fn settle_at(memory: &mut Memory, place: usize, turned: TurnResult) -> TurnEnd
    requires { CanSettle memory.old place turned }
    ensures answer { result ≡ turn_end_of turned }
    ensures leaves { memory.new ≡ settled_in memory.old place turned }
{
    match turned {
        TurnResult::Kept => TurnEnd::Again,
        TurnResult::Frame {
            need,
            is_still: true,
        } => {
            memory.stand(place, Some(need));
            TurnEnd::Frame
        }
        TurnResult::Frame {
            need,
            is_still: false,
        } => {
            memory.end(place);
            memory.stand(place, Some(need));
            TurnEnd::Frame
        }
        TurnResult::Ended => {
            memory.end(place);
            TurnEnd::Ended
        }
        TurnResult::Fuel => {
            memory.end(place);
            TurnEnd::Fuel
        }
        TurnResult::Again { is_still: true } => {
            memory.stand(place, None);
            TurnEnd::Again
        }
        TurnResult::Again { is_still: false } => {
            memory.end(place);
            TurnEnd::Again
        }
    }
}

/// Runs a turn of at most `q` charges of the instance at `place`, whose memory may grow to `page_limit` pages of 65536
/// bytes; returns the turn's end, and how many charges it took.
pub fn turn_at(
    tenant: &mut HostInstance,
    linked: &Linked,
    memory: &mut Memory,
    place: usize,
    page_limit: u32,
    q: u64,
) -> (TurnEnd, u64)
    requires { (t : OneTenant) × LiesAt linked.now page_limit tenant.old memory.old place t }
    ensures turns { (t : OneTenant) → LiesAt linked.now page_limit tenant.old memory.old place t
        → TurnsTo linked.now page_limit q memory.old t result.0 result.1 place tenant.new memory.new }
    ensures few { result.1 ≤ q }
    ensures backing { KeepsBacking memory.old memory.new }
    ensures memory { LeavesTurned place result.0 memory.old memory.new }
{
    if tenant.is_idle() {
        return (TurnEnd::Idle, 0);
    }
    let (turned, charges) = turn_lent(tenant, linked, memory, place, page_limit, q);
    (settle_at(memory, place, turned), charges)
}
