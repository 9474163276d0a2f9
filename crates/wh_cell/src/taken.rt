//! Turns of who can go on.

ghost use Rattle.wh_host_model.specs.Host.Worlds.{World};
ghost use Rattle.wh_cell.specs.Going.{TurnsIfGoing};
ghost use Rattle.wh_cell.specs.LeftByOwner.{HasTakenOn};
ghost use Rattle.wh_host.specs.Backing.{KeepsBacking};
ghost use Rattle.wh_host.specs.Hosting.{IsHost};
ghost use Rattle.wh_host.specs.Left.{LeavesTurned};

use wh_host::Host;
use wh_host_model::TurnEnd;
use wh_space_model::InstId;

/// Runs a turn of at most `quantum` charges of an instance that can make progress. Returns its end, and its charges;
/// `Idle` and 0 if it can't.
pub fn counted_turn(host: &mut Host, id: InstId, quantum: u32) -> (TurnEnd, u32)
    ensures turns { (w : World) → IsHost host.old w
        → (w2 : World) × TurnsIfGoing w id quantum result.0 w2 × IsHost host.new w2 }
    ensures taken { HasTakenOn host.old result.1 host.new }
    ensures backing { KeepsBacking host.old.space host.new.space }
    ensures memory { LeavesTurned id.place result.0 host.old.space host.new.space }
{
    host.invariant();
    if !host.can_go_on(id) {
        return (TurnEnd::Idle, 0);
    }
    let (end, charges) = host.turn(id, u64::from(quantum));
    (end, charges as u32)
}
