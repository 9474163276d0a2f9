//! Rounds under the lock: turns of several instances at once.

ghost use Rattle.std.specs.Prelude.{◌≡◌, ◌+◌, ◌-◌, ◌*◌, ◌≤◌, ◌<◌, ◌^◌, length};
ghost use Rattle.wh_host_model.specs.Host.Worlds.{World};
ghost use Rattle.wh_host.specs.Backing.{KeepsBacking};
ghost use Rattle.wh_host.specs.Hosting.{IsHost};
ghost use Rattle.wh_host.specs.Rounds.{AllAreFree, AllTurn, NoneIsLeftOut, RunnersStay};
ghost use Rattle.wh_threads.specs.Counting.{RanTurns};
ghost use Rattle.wh_cell.specs.LeftByOwner.{HasTakenOn};
ghost use Rattle.wh_cell.specs.RoundCounts.{AreFewEach, AreReceived, AreSpent, charges_by_turns, charges_of_round, turns_by, turns_of_round};

use crate::agreements::CellAgreements;
use crate::locked::Locked;
use std::sync::ledger::Ledger;
use wh_host::{Burst, RoundRunner, Runner, SeriesEnd};
use wh_swap::SwapDev;
use wh_threads::{Books, ReceivedTurns, Worker};

// Counts the turns of one runner's instance, if it had some.
fn count_series<T: Ledger, C: Ledger, O: Ledger, E: Ledger>(
    books: &mut Books<T, C, O, E>,
    worker: &mut Worker<T, C>,
    answer: Option<SeriesEnd>,
    order: &mut ReceivedTurns,
)
    requires room { worker.old.tally.turns + turns_by answer < 2 ^ 64 }
    requires due { (turns_by answer ≤ order.old.count) × (turns_by answer < 2 ^ 32) }
    requires few { charges_by_turns answer ≤ turns_by answer * 2 ^ 32 }
    ensures order { order.new ≡ record order.old { count = order.old.count - turns_by answer } }
    ensures worker { RanTurns worker.old (turns_by answer) (charges_by_turns answer) worker.new }
    ensures books { books.new ≡ record books.old {
      turns = books.old.turns + turns_by answer;
      charges = books.old.charges + charges_by_turns answer;
    } }
{
    if let Some(made) = answer {
        books.turns(worker, order, made.turns as u32, made.charges);
    }
}

// Counts the turns of a round: for each runner those that its instance had.
fn count_round<T: Ledger, C: Ledger, O: Ledger, E: Ledger>(
    books: &mut Books<T, C, O, E>,
    worker: &mut Worker<T, C>,
    runners: &[Runner],
    orders: &mut [ReceivedTurns],
)
    requires room { worker.old.tally.turns + length runners.now * 2 ^ 32 < 2 ^ 64 }
    requires due { AreFewEach runners.now orders.old }
    ensures orders { AreSpent runners.now orders.old orders.new }
    ensures worker { RanTurns worker.old (turns_of_round runners.now)
        (charges_of_round runners.now) worker.new }
    ensures books { books.new ≡ record books.old {
      turns = books.old.turns + turns_of_round runners.now;
      charges = books.old.charges + charges_of_round runners.now;
    } }
{
    for at in 0..runners.len() {
        count_series(books, worker, runners[at].answer(), &mut orders[at]);
    }
}

impl<D: SwapDev, T: Ledger, C: Ledger, O: Ledger, E: Ledger, B: CellAgreements> Locked<
    D,
    T,
    C,
    O,
    E,
    B,
> {
    /// Runs bursts of the received turns of several instances at once, as if one burst after the other, in the order of
    /// the runners. The worker counts them, and so do the books: as many turns of each as its runner says, and the
    /// charges by which its journal grew. That many fewer are to be run then.
    pub fn turns_at_once<F: RoundRunner>(
        &mut self,
        fork: &F,
        runners: &mut [Runner],
        orders: &mut [ReceivedTurns],
        burst: Burst,
        worker: &mut Worker<T, C>,
    )
        requires can { F.can fork.now }
        requires free { AllAreFree runners.old }
        requires received { AreReceived burst.quantum (burst.further + 1) runners.old
            orders.old }
        requires quantum { burst.quantum < 2 ^ 32 }
        requires further { burst.further + 1 < 2 ^ 32 }
        requires room { worker.old.tally.turns + length runners.old * 2 ^ 32 < 2 ^ 64 }
        ensures turns { (w : World) → IsHost self.old.host w
            → (w2 : World) × AllTurn burst.entry.quantum (burst.entry.further + 1) w runners.new w2
            × IsHost self.new.host w2 }
        ensures all { (w : World) → IsHost self.old.host w → NoneIsLeftOut w runners.new }
        ensures free { AllAreFree runners.new }
        ensures same { RunnersStay runners.old runners.new }
        ensures orders { AreSpent runners.new orders.old orders.new }
        ensures taken { HasTakenOn self.old.host (charges_of_round runners.new) self.new.host }
        ensures worker { RanTurns worker.old (turns_of_round runners.new)
            (charges_of_round runners.new) worker.new }
        ensures books { self.new.books ≡ record self.old.books {
          turns = self.old.books.turns + turns_of_round runners.new;
          charges = self.old.books.charges + charges_of_round runners.new;
        } }
        ensures backing { KeepsBacking self.old.host.space self.new.host.space }
        ensures known { self.new.known ≡ self.old.known }
        ensures left { self.new.left ≡ self.old.left }
    {
        self.host.turns_at_once(fork, runners, burst);
        count_round(&mut self.books, worker, runners, orders);
    }
}
