// Who can go on.

ghost use Rattle.std.specs.Prelude.{◌≡◌, ◌≤◌, filter};
ghost use Rattle.std.specs.VecDeque.{deque_capacity};
ghost use Rattle.wh_hand.specs.Lining.{IsToSettle, Lists, differs};

use std::collections::VecDeque;
use wh_host::Host;
use wh_space_model::InstId;

// Takes an instance out of the line.
fn leave(line: &mut VecDeque<InstId>, id: InstId)
    ensures items { line.new.items ≡ filter (differs id) line.old.items }
    ensures room { deque_capacity line.new ≡ deque_capacity line.old }
{
    line.retain(|other| other.place != id.place || other.number != id.number);
}

/// Queues or dequeues `id`, as it can now make progress or not: appends it if it can and isn't in the queue, and
/// removes it if it can't and is. The queue has to be right for all other instances.
pub fn settle(line: &mut VecDeque<InstId>, host: &Host, id: InstId, stands: bool)
    requires settles { IsToSettle host.now line.old.items id stands }
    requires few { host.now.live ≤ 4096 }
    requires room { 4096 ≤ deque_capacity line.old }
    ensures lists { Lists host.now line.new.items }
    ensures room { deque_capacity line.new ≡ deque_capacity line.old }
{
    host.invariant();
    let goes = host.can_go_on(id);
    if goes == stands {
        return;
    }
    if stands {
        leave(line, id);
        return;
    }
    line.push_back_reserved(id);
}
