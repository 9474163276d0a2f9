//! Turns of the start of an instance.

ghost use Rattle.std.specs.Prelude.{◌≡◌};
ghost use Rattle.wh_model.specs.Execution.Replay.{Call};
ghost use Rattle.wh_model.specs.Execution.Store.{Instance};
ghost use Rattle.wh_host_model.specs.Host.Worlds.{Rest, has_left};
ghost use Rattle.wh_machine.specs.CallStates.{setting_of, call_state};
ghost use Rattle.wh_instance.specs.Pieces.{pieces_left};
ghost use Rattle.wh_instance.specs.Turned.{IsStarting, Turns};

use crate::computing::{TurnOutcome, compute};
use crate::writing::{Cursor, write_pieces};
use wh_imports::Linked;
use wh_linmem::LinearMem;
use wh_machine::{Machine, Store, begin};

/// Runs a turn of q charges of a start that may have pieces left: writes those first, as far as they are ready; then
/// begins its function, if it has one. Returns the outcome, how many pieces were written, and how many charges were
/// taken. If pieces are left (`Cursor::has_pieces`), its next turn is one of this kind, too.
///
/// The places are those of the data segments of the module (4.5.4), in order.
pub fn turn_start<M: LinearMem>(
    linked: &Linked,
    store: &mut Store,
    machine: &mut Machine,
    memory: &mut M,
    q: u64,
    fuel: u64,
    places: &[u32],
    cursor: &mut Cursor,
) -> (TurnOutcome, u64, u64)
    requires starting { (inst : Instance) × (call : Call) × (r : Rest)
        × (call.func ≡ linked.now.valid.decoded.start) × IsStarting
        (setting_of linked.now M.bytes M.ready M.keeps (M.limit memory.old))
        (call_state machine.old store.old memory.old)
        inst call r
        (pieces_left linked.now.valid.decoded.segments.items places.now cursor.old) }
    ensures turns { (inst : Instance) (call : Call) (r : Rest)
        → call.func ≡ linked.now.valid.decoded.start → call.fuel ≡ fuel → IsStarting
        (setting_of linked.now M.bytes M.ready M.keeps (M.limit memory.old))
        (call_state machine.old store.old memory.old)
        inst call r
        (pieces_left linked.now.valid.decoded.segments.items places.now cursor.old) → Turns
        (setting_of linked.now M.bytes M.ready M.keeps (M.limit memory.old))
        inst q call memory.old r
        (has_left (pieces_left linked.now.valid.decoded.segments.items places.now cursor.old))
        result.0 result.1 result.2
        (call_state machine.new store.new memory.new)
        (pieces_left linked.now.valid.decoded.segments.items places.now cursor.new) }
    ensures keeps { M.keeps memory.old memory.new }
{
    let module = linked.module();
    let (pieces, lacking) = write_pieces(module.segments.as_slice(), places, cursor, memory);
    if let Some(need) = lacking {
        return (TurnOutcome::Frame(need), pieces, 0);
    }
    let Some(func) = module.start else {
        return (TurnOutcome::Returned(None), pieces, 0);
    };
    begin(linked, machine, func, &[]);
    let (came, charges) = compute(linked, store, machine, memory, q, fuel);
    (came, pieces, charges)
}
