// Turns are dispatched to the crew. Helpers are started where they are wanted.

ghost use Rattle.std.specs.Prelude.{◌≡◌, ◌+◌, ◌<◌, ◌∷◌, ◌++◌};
ghost use Rattle.std.specs.Bool.{MatchBool};
ghost use Rattle.crossbeam_channel.specs.Claims.{view, IsSeatAt};
ghost use Rattle.crossbeam_channel.specs.Ends.{sends_on};
ghost use Rattle.wh_threads.specs.Counting.{ThreadCountsState};
ghost use Rattle.wh_threads.specs.Handover.{Dispatches};
ghost use Rattle.wh_workers.specs.LentHelpers.{AreLent};
ghost use Rattle.wh_workers.specs.Serving.{AreTurns};

use crate::crew::ServeError;
use crate::helpers::Helpers;
use std::sync::Wait;
use std::sync::ledger::Ledger;
use std::thread::Threads;
use wh_space_model::InstId;
use wh_threads::{Help, Message, MessagePass, ThreadCounts, TurnSender, dispatch};

// After how many turns the scanner is started: half of those for which a page is owed.
const TURNS_BEFORE_A_SCANNER: u64 = 32;

// After more turns there isn't room for a series of any length.
const MOST_TURNS_BEFORE_A_SERIES: u64 = 0xffff_ffff_0000_0000;

/// What is to be done next.
#[derive(Clone, Copy, Debug, PartialEq, Eq)]
pub enum Next {
    /// This many turns of this instance are to be dispatched, one after the other.
    Turns(InstId, u32),
    /// A reclaimer is to be started: a call waits for a frame, and none is at work.
    Reclaimer,
    /// Nothing: no call can go on.
    End,
}

/// Which turns are dispatched.
pub trait Supply {
    /// Returns what is to be done next, once it is known. If a call waits for a frame and no reclaimer is at work,
    /// returns `Reclaimer` rather than wait for one.
    fn next<R: Wait>(&mut self, rt: &R, has_reclaimer: bool) -> Next;
}

// Starts the scanner after `TURNS_BEFORE_A_SCANNER` turns, unless it was before. If it can't be, goes on without it.
fn begin_scanner<
    T: Ledger,
    C: Ledger,
    O: Ledger + Send + 'static,
    E: Ledger,
    H: Help<O> + Drop + Send + 'static,
    P,
    R: Threads + Wait + Copy + Send + 'static,
>(rt: R, count: u64, helpers: &mut Helpers<O, E, H, P>, lender: &mut ThreadCounts<T, C, O, E>)
    requires lent { AreLent helpers.old.scanner helpers.old.reclaimer lender.old }
    ensures lent { AreLent helpers.new.scanner helpers.new.reclaimer lender.new }
    ensures only { lender.new ≡ record lender.old {
      scanners_out = lender.new.scanners_out;
      reclaimers_out = lender.new.reclaimers_out;
    } }
{
    if count >= TURNS_BEFORE_A_SCANNER {
        let _ = helpers.scanner.start_scanner(rt, lender);
    }
}

// What is to be done next: what the supply has said already, and then what it says.
fn next_of<S: Supply, R: Wait>(
    rt: &R,
    left: &mut Option<Next>,
    supply: &mut S,
    has_reclaimer: bool,
) -> Next {
    match left.take() {
        Some(next) => next,
        None => supply.next(rt, has_reclaimer),
    }
}

/// Dispatches series of turns of at most `quantum` charges each, the first as the supply has said already, if it has, until the
/// supply ends, no worker is left, so many turns were dispatched (over 2^64 - 2^32) that a further series might not be
/// counted, or a reclaimer is wanted that can't be started. Returns the number of turns, and an error only in the last
/// case. If the scanner can't be started, goes on without it.
pub fn feed<
    T: Ledger,
    C: Ledger,
    O: Ledger + Send + 'static,
    E: Ledger + Send + 'static,
    S: Supply,
    H: Help<O> + Drop + Send + 'static,
    P: Help<E> + Drop + Send + 'static,
    R: Threads + Wait + Copy + Send + 'static,
>(
    rt: R,
    supply: &mut S,
    helpers: &mut Helpers<O, E, H, P>,
    lender: &mut ThreadCounts<T, C, O, E>,
    sender: &TurnSender,
    slip: &mut MessagePass,
    first: Option<Next>,
    quantum: u32,
) -> (u64, Result<(), ServeError>)
    requires channel { IsSeatAt (sends_on sender.now) slip.old × (0 < (view slip.old).parts) }
    requires begun { AreTurns 0 quantum (view slip.old).sent }
    requires lent { AreLent helpers.old.scanner helpers.old.reclaimer lender.old }
    ensures channel { IsSeatAt (sends_on sender.now) slip.new }
    ensures out { Dispatches (view slip.old) result.0 quantum (view slip.new) }
    ensures lent { AreLent helpers.new.scanner helpers.new.reclaimer lender.new }
    ensures only { lender.new ≡ record lender.old {
      scanners_out = lender.new.scanners_out;
      reclaimers_out = lender.new.reclaimers_out;
    } }
{
    let mut left = first;
    let mut count: u64 = 0;
    for _ in rt.forever() {
        if count > MOST_TURNS_BEFORE_A_SERIES {
            return (count, Ok(()));
        }
        begin_scanner(rt, count, helpers, lender);
        match next_of(&rt, &mut left, supply, helpers.reclaimer.is_started()) {
            Next::Turns(instance, more) => {
                let message = Message::Turns {
                    first: count,
                    count: more,
                    instance,
                    quantum,
                };
                if !dispatch(&rt, sender, slip, message) {
                    return (count, Ok(()));
                }
                count += u64::from(more);
            }
            Next::Reclaimer => {
                if let Err(error) = helpers.reclaimer.start_reclaimer(rt, lender) {
                    return (count, Err(error));
                }
            }
            Next::End => return (count, Ok(())),
        }
    }
    unreachable!()
}
