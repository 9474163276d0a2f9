// A call of `serve`: workers, and beside them a scanner and a reclaimer, where they are wanted.

ghost use Rattle.std.specs.Prelude.{◌≡◌, ◌+◌, ◌/◌, ◌<◌, ◌≤◌, [], None, IfNone, IfOk, IsSome, OnOk, OnErr};
ghost use Rattle.crossbeam_channel.specs.Claims.{view, IsSeatAt};
ghost use Rattle.crossbeam_channel.specs.Ends.{sends_on};
ghost use Rattle.wh_threads.specs.Counting.{HasAllParts, ThreadCountsState, turns_of};
ghost use Rattle.wh_threads.specs.Handover.{SameMessages, all_parts, traffic, turns_in};
ghost use Rattle.wh_workers.specs.LentHelpers.{AreLent};
ghost use Rattle.wh_workers.specs.Serving.{AreRun, AreTurns};

use crate::crew::{ServeError, Served, Team, run_crew};
use crate::feed::{Next, Supply};
use crate::helpers::{Helpers, join_reclaimer, join_scanner, means_of, start_scanner};
use std::alloc::Global;
use std::sync::Wait;
use std::sync::ledger::Ledger;
use std::thread::Threads;
use wh_threads::{Help, MessagePass, Shares, ThreadCounts, Turns, left_over, open_channel};

// How many messages the channel holds: room for all last signs.
const CAPACITY: usize = 128;

/// For how many turns a page is to be offered.
pub const TURNS_FOR_AN_OFFER: u64 = 64;

/// Who runs the turns of a call of `serve`.
#[derive(Clone, Copy, Debug, PartialEq, Eq)]
pub struct WorkerSetup {
    /// How many workers there are, 1 to 64.
    pub workers: usize,
    /// How many charges a turn has at most.
    pub quantum: u32,
}

/// What the threads of a call of `serve` do.
#[derive(Drop)]
pub struct Jobs<J, H, P> {
    /// What a worker does with a turn.
    pub turns: J,
    /// How a page is offered.
    pub scans: H,
    /// How pages are evicted.
    pub reclaims: P,
}

/// When the threads of a call are started.
#[derive(Clone, Copy, Debug, PartialEq, Eq)]
pub enum Start {
    /// Each where it is first wanted; none where no turn comes.
    WhereWanted,
    /// All at once, before the supply is asked for the first turn.
    AtOnce,
}

// Starts both helpers, unless the supply has said already which turns come first: then they are started where they are wanted.
fn begin_helpers<
    T: Ledger,
    C: Ledger,
    O: Ledger + Send + 'static,
    E: Ledger + Send + 'static,
    H: Help<O> + Drop + Send + 'static,
    P: Help<E> + Drop + Send + 'static,
    R: Threads + Wait + Copy + Send + 'static,
>(
    rt: R,
    first: Option<Next>,
    helpers: &mut Helpers<O, E, H, P>,
    lender: &mut ThreadCounts<T, C, O, E>,
) -> Result<(), ServeError>
    requires { AreLent helpers.old.scanner helpers.old.reclaimer lender.old }
    ensures begun { OnOk result (IfNone first (IsSome helpers.new.scanner × IsSome helpers.new.reclaimer)) }
    ensures lent { AreLent helpers.new.scanner helpers.new.reclaimer lender.new }
    ensures only { lender.new ≡ record lender.old {
      scanners_out = lender.new.scanners_out;
      reclaimers_out = lender.new.reclaimers_out;
    } }
{
    match first {
        Some(_) => Ok(()),
        None => helpers.start_both(rt, lender),
    }
}

// Runs the turns by workers, once those helpers are started that are to be.
fn run_with_helpers<
    T: Ledger + Send + 'static,
    C: Ledger + Send + 'static,
    O: Ledger + Send + 'static,
    E: Ledger + Send + 'static,
    J: Turns<T, C> + Drop + Send + 'static,
    S: Supply,
    H: Help<O> + Drop + Send + 'static,
    P: Help<E> + Drop + Send + 'static,
    R: Threads + Wait + Copy + Send + 'static,
>(
    rt: R,
    alloc: Global,
    team: &Team<J>,
    supply: &mut S,
    helpers: &mut Helpers<O, E, H, P>,
    lender: &mut ThreadCounts<T, C, O, E>,
    slip: &mut MessagePass,
    first: Option<Next>,
    run_config: WorkerSetup,
) -> (u64, Result<(), ServeError>)
    requires can { J.can }
    requires channel { IsSeatAt (sends_on team.now.sender) slip.old }
    requires parts { (view slip.old).parts ≡ all_parts }
    requires begun { AreTurns 0 run_config.quantum (view slip.old).sent }
    requires few { run_config.workers ≤ 64 }
    requires lender { lender.old.workers_out ≡ 0 }
    requires lent { AreLent helpers.old.scanner helpers.old.reclaimer lender.old }
    ensures channel { IsSeatAt (sends_on team.now.sender) slip.new }
    ensures parts { (view slip.new).parts ≡ all_parts }
    ensures dispatched { AreTurns result.0 run_config.quantum (view slip.new).sent }
    ensures grown { turns_of lender.new.tallies + turns_in (view slip.old).received
        ≡ turns_of lender.old.tallies + turns_in (view slip.new).received }
    ensures lent { AreLent helpers.new.scanner helpers.new.reclaimer lender.new }
    ensures only { lender.new ≡ record lender.old {
      tallies = lender.new.tallies;
      scanners_out = lender.new.scanners_out;
      reclaimers_out = lender.new.reclaimers_out;
    } }
{
    if let Err(error) = begin_helpers(rt, first, helpers, lender) {
        return (0, Err(error));
    }
    run_crew(
        rt, alloc, team, supply, helpers, lender, slip, first, run_config,
    )
}

// Runs the turns by workers, with a scanner and a reclaimer where they are wanted. Allocates everything for their
// threads but the stacks.
fn crew_with_helpers<
    T: Ledger + Send + 'static,
    C: Ledger + Send + 'static,
    O: Ledger + Send + 'static,
    E: Ledger + Send + 'static,
    J: Turns<T, C> + Drop + Send + 'static,
    S: Supply,
    H: Help<O> + Drop + Send + 'static,
    P: Help<E> + Drop + Send + 'static,
    R: Threads + Wait + Copy + Send + 'static,
>(
    rt: R,
    alloc: Global,
    team: &Team<J>,
    supply: &mut S,
    scans: &H,
    reclaims: &P,
    lender: &mut ThreadCounts<T, C, O, E>,
    slip: &mut MessagePass,
    first: Option<Next>,
    run_config: WorkerSetup,
) -> (u64, Result<(), ServeError>)
    requires can { J.can }
    requires channel { IsSeatAt (sends_on team.now.sender) slip.old }
    requires parts { (view slip.old).parts ≡ all_parts }
    requires begun { AreTurns 0 run_config.quantum (view slip.old).sent }
    requires crew { run_config.workers ≤ 64 }
    requires whole { HasAllParts lender.old }
    ensures channel { IsSeatAt (sends_on team.now.sender) slip.new }
    ensures parts { (view slip.new).parts ≡ all_parts }
    ensures dispatched { AreTurns result.0 run_config.quantum (view slip.new).sent }
    ensures grown { turns_of lender.new.tallies + turns_in (view slip.old).received
        ≡ turns_of lender.old.tallies + turns_in (view slip.new).received }
    ensures offers { lender.old.offers ≤ lender.new.offers }
    ensures evictions { lender.old.evictions ≤ lender.new.evictions }
    ensures owner { lender.new.owner ≡ lender.old.owner }
    ensures whole { HasAllParts lender.new }
{
    let Ok(helpers) = Helpers::new(alloc, scans, reclaims) else {
        return (0, Err(ServeError::Memory));
    };
    let mut helpers = helpers;
    let ended = run_with_helpers(
        rt,
        alloc,
        team,
        supply,
        &mut helpers,
        lender,
        slip,
        first,
        run_config,
    );
    let Helpers { scanner, reclaimer } = helpers;
    join_scanner(&rt, scans, lender, scanner);
    join_reclaimer(&rt, reclaims, lender, reclaimer);
    ended
}

// Runs the turns, if there are any. Returns how many were dispatched, and an error if memory, a worker's thread or a
// reclaimer was lacking.
#[tactic(auto, using(crate::proofs::Turns::turns_none))]
fn run_turns<
    T: Ledger + Send + 'static,
    C: Ledger + Send + 'static,
    O: Ledger + Send + 'static,
    E: Ledger + Send + 'static,
    J: Turns<T, C> + Drop + Send + 'static,
    S: Supply,
    H: Help<O> + Drop + Send + 'static,
    P: Help<E> + Drop + Send + 'static,
    R: Threads + Wait + Copy + Send + 'static,
>(
    rt: R,
    alloc: Global,
    team: &Team<J>,
    supply: &mut S,
    scans: &H,
    reclaims: &P,
    lender: &mut ThreadCounts<T, C, O, E>,
    slip: &mut MessagePass,
    start: Start,
    run_config: WorkerSetup,
) -> (u64, Result<(), ServeError>)
    requires can { J.can }
    requires channel { IsSeatAt (sends_on team.now.sender) slip.old }
    requires fresh { view slip.old ≡ traffic all_parts [] [] }
    requires crew { run_config.workers ≤ 64 }
    requires whole { HasAllParts lender.old }
    ensures channel { IsSeatAt (sends_on team.now.sender) slip.new }
    ensures parts { (view slip.new).parts ≡ all_parts }
    ensures dispatched { AreTurns result.0 run_config.quantum (view slip.new).sent }
    ensures grown { turns_of lender.new.tallies
        ≡ turns_of lender.old.tallies + turns_in (view slip.new).received }
    ensures offers { lender.old.offers ≤ lender.new.offers }
    ensures evictions { lender.old.evictions ≤ lender.new.evictions }
    ensures owner { lender.new.owner ≡ lender.old.owner }
    ensures whole { HasAllParts lender.new }
{
    let mut first = None;
    if start == Start::WhereWanted {
        let next = supply.next(&rt, false);
        if next == Next::End {
            return (0, Ok(()));
        }
        first = Some(next);
    }
    crew_with_helpers(
        rt, alloc, team, supply, scans, reclaims, lender, slip, first, run_config,
    )
}

// Runs all turns, through a channel of their own.
fn serve_turns<
    T: Ledger + Send + 'static,
    C: Ledger + Send + 'static,
    O: Ledger + Send + 'static,
    E: Ledger + Send + 'static,
    J: Turns<T, C> + Drop + Send + 'static,
    S: Supply,
    H: Help<O> + Drop + Send + 'static,
    P: Help<E> + Drop + Send + 'static,
    R: Threads + Wait + Copy + Send + 'static,
>(
    rt: R,
    alloc: Global,
    job: J,
    supply: &mut S,
    scans: &H,
    reclaims: &P,
    lender: &mut ThreadCounts<T, C, O, E>,
    start: Start,
    run_config: WorkerSetup,
) -> Result<Served, ServeError>
    requires can { J.can }
    requires crew { run_config.workers ≤ 64 }
    requires whole { HasAllParts lender.old }
    ensures dispatched { IfOk result (λ s. AreTurns s.turns run_config.quantum (view s.slip).sent) }
    ensures grown { IfOk result (λ s. AreRun (turns_of lender.old.tallies) s.left (view s.slip).received
        (turns_of lender.new.tallies)) }
    ensures once { IfOk result (λ s. IfNone s.left
        (SameMessages (view s.slip).sent (view s.slip).received)) }
    ensures turns { IfOk result (λ s. IfNone s.left
        (turns_of lender.new.tallies ≡ turns_of lender.old.tallies + s.turns)) }
    ensures well { IfOk result (λ s. OnOk s.end (s.left ≡ None)) }
    ensures err { OnErr result (lender.new ≡ lender.old) }
    ensures offers { lender.old.offers ≤ lender.new.offers }
    ensures evictions { lender.old.evictions ≤ lender.new.evictions }
    ensures owner { lender.new.owner ≡ lender.old.owner }
    ensures whole { HasAllParts lender.new }
{
    let Ok((sender, receiver, slip)) = open_channel(alloc, CAPACITY) else {
        return Err(ServeError::Memory);
    };
    let mut slip = slip;
    let team = Team {
        job,
        receiver,
        sender,
    };
    let (turns, end) = run_turns(
        rt, alloc, &team, supply, scans, reclaims, lender, &mut slip, start, run_config,
    );
    let left = left_over(&rt, &team.receiver, &mut slip);
    let end = match left {
        None => end,
        Some(_) => Err(ServeError::NoThread),
    };
    Ok(Served {
        turns,
        slip,
        left,
        end,
    })
}

// Sees that `wanted` pages are offered in all, by a further scanner if there were fewer.
fn settle_offers<
    T: Ledger,
    C: Ledger,
    O: Ledger + Send + 'static,
    E: Ledger,
    H: Help<O> + Drop + Send + 'static,
    R: Threads + Wait + Copy + Send + 'static,
>(
    rt: R,
    alloc: Global,
    scans: &H,
    lender: &mut ThreadCounts<T, C, O, E>,
    wanted: u64,
) -> Result<(), ServeError>
    requires { lender.old.scanners_out ≡ 0 }
    ensures wanted { OnOk result (wanted ≤ lender.new.offers) }
    ensures kept { lender.old.offers ≤ lender.new.offers }
    ensures only { lender.new ≡ record lender.old { offers = lender.new.offers } }
{
    if lender.offers() < wanted {
        let Ok(means) = means_of::<O, H>(alloc, scans) else {
            return Err(ServeError::Memory);
        };
        let started = start_scanner(rt, means, lender, wanted)?;
        lender.join_scanner(&rt, started.handle);
    }
    if lender.offers() < wanted {
        return Err(ServeError::NoThread);
    }
    Ok(())
}

// Sees that, since there were `before`, as many pages are offered as are owed for these turns.
fn pay_offers<
    T: Ledger,
    C: Ledger,
    O: Ledger + Send + 'static,
    E: Ledger,
    H: Help<O> + Drop + Send + 'static,
    R: Threads + Wait + Copy + Send + 'static,
>(
    rt: R,
    alloc: Global,
    scans: &H,
    lender: &mut ThreadCounts<T, C, O, E>,
    before: u64,
    turns: u64,
) -> Result<(), ServeError>
    requires { lender.old.scanners_out ≡ 0 }
    ensures owed { OnOk result (before + turns / 64 ≤ lender.new.offers) }
    ensures kept { lender.old.offers ≤ lender.new.offers }
    ensures only { lender.new ≡ record lender.old { offers = lender.new.offers } }
{
    let Some(wanted) = before.checked_add(turns / TURNS_FOR_AN_OFFER) else {
        return Err(ServeError::NoThread);
    };
    settle_offers(rt, alloc, scans, lender, wanted)
}

/// Runs all turns that come: workers do, each in a thread of its own, and the calling thread dispatches them and runs
/// none. Meanwhile a scanner offers pages and a reclaimer evicts them, each in a thread that is started where it is
/// first wanted: the scanner once 32 turns are dispatched, the reclaimer when the supply says that a call waits for a
/// frame. If no turn comes at all, no thread is started.
///
/// Turns are numbered in the order in which they are dispatched, and the workers' counts grow by those that they
/// received. If it ends well, each turn that was dispatched was received once, and for each 64 turns a page was
/// offered. What was done before it ended otherwise is told too (`Served`), and no count gets smaller.
///
/// # Errors
/// `Memory` if the allocation for the channel fails: no turn was run then. `Served::end` says so if one for the crew
/// fails, and that or `NoThread` if not all workers could be started: no turn was run then either. It is `NoThread` too
/// if a reclaimer was wanted that couldn't be started: no further turn was dispatched then; if a turn was left that no
/// worker received; and, or `Memory`, if a further scanner couldn't be started for pages that are owed, or came to its
/// end before all were offered.
pub fn serve<
    T: Ledger + Send + 'static,
    C: Ledger + Send + 'static,
    O: Ledger + Send + 'static,
    E: Ledger + Send + 'static,
    J: Turns<T, C> + Drop + Send + 'static,
    S: Supply,
    H: Help<O> + Drop + Send + 'static,
    P: Help<E> + Drop + Send + 'static,
    R: Threads + Wait + Copy + Send + 'static,
>(
    rt: R,
    alloc: Global,
    jobs: Jobs<J, H, P>,
    supply: &mut S,
    shares: &mut Shares<T, C, O, E>,
    run_config: WorkerSetup,
) -> Result<Served, ServeError>
    requires can { J.can }
    requires crew { (0 < run_config.workers) × (run_config.workers ≤ 64) }
    ensures dispatched { IfOk result (λ s. AreTurns s.turns run_config.quantum (view s.slip).sent) }
    ensures grown { IfOk result (λ s. AreRun (turns_of shares.old.tallies) s.left (view s.slip).received
        (turns_of shares.new.tallies)) }
    ensures once { IfOk result (λ s. OnOk s.end
        (SameMessages (view s.slip).sent (view s.slip).received)) }
    ensures turns { IfOk result (λ s. OnOk s.end
        (turns_of shares.new.tallies ≡ turns_of shares.old.tallies + s.turns)) }
    ensures owed { IfOk result (λ s. OnOk s.end
        (shares.old.offers + s.turns / 64 ≤ shares.new.offers)) }
    ensures err { OnErr result (shares.new.tallies ≡ shares.old.tallies) }
    ensures offers { shares.old.offers ≤ shares.new.offers }
    ensures evictions { shares.old.evictions ≤ shares.new.evictions }
    ensures owner { shares.new.owner ≡ shares.old.owner }
{
    let Jobs {
        turns: job,
        scans,
        reclaims,
    } = jobs;
    let lender = &mut shares.all;
    let before = lender.offers();
    let start = Start::WhereWanted;
    let served = serve_turns(
        rt, alloc, job, supply, &scans, &reclaims, lender, start, run_config,
    )?;
    let Served {
        turns,
        slip,
        left,
        end,
    } = served;
    let end = match end {
        Ok(()) => pay_offers(rt, alloc, &scans, lender, before, turns),
        Err(error) => Err(error),
    };
    Ok(Served {
        turns,
        slip,
        left,
        end,
    })
}

/// Runs all turns that come, as `serve` does, for a run of no certain end: its scanner owes no page for them. All threads
/// are started at the beginning, before the supply is asked for the first turn, and stay until it ends: the reclaimer,
/// the scanner and the workers.
///
/// Turns are numbered in the order in which they are dispatched, and the workers' counts grow by those that they
/// received. If no message is left over, each turn that was dispatched was received once. No count gets smaller.
///
/// # Errors
/// `Memory` if the allocation for the channel fails. `Served::end` says so if another one fails at the beginning, and
/// `NoThread` if a thread couldn't be started then: no turn was dispatched. It is `NoThread` too if a message was left
/// that no worker received.
pub fn serve_on<
    T: Ledger + Send + 'static,
    C: Ledger + Send + 'static,
    O: Ledger + Send + 'static,
    E: Ledger + Send + 'static,
    J: Turns<T, C> + Drop + Send + 'static,
    S: Supply,
    H: Help<O> + Drop + Send + 'static,
    P: Help<E> + Drop + Send + 'static,
    R: Threads + Wait + Copy + Send + 'static,
>(
    rt: R,
    alloc: Global,
    jobs: Jobs<J, H, P>,
    supply: &mut S,
    shares: &mut Shares<T, C, O, E>,
    run_config: WorkerSetup,
) -> Result<Served, ServeError>
    requires can { J.can }
    requires crew { (0 < run_config.workers) × (run_config.workers ≤ 64) }
    ensures dispatched { IfOk result (λ s. AreTurns s.turns run_config.quantum (view s.slip).sent) }
    ensures grown { IfOk result (λ s. AreRun (turns_of shares.old.tallies) s.left (view s.slip).received
        (turns_of shares.new.tallies)) }
    ensures once { IfOk result (λ s. IfNone s.left
        (SameMessages (view s.slip).sent (view s.slip).received)) }
    ensures turns { IfOk result (λ s. IfNone s.left
        (turns_of shares.new.tallies ≡ turns_of shares.old.tallies + s.turns)) }
    ensures well { IfOk result (λ s. OnOk s.end (s.left ≡ None)) }
    ensures err { OnErr result (shares.new ≡ shares.old) }
    ensures offers { shares.old.offers ≤ shares.new.offers }
    ensures evictions { shares.old.evictions ≤ shares.new.evictions }
    ensures owner { shares.new.owner ≡ shares.old.owner }
{
    let Jobs {
        turns: job,
        scans,
        reclaims,
    } = jobs;
    let lender = &mut shares.all;
    let start = Start::AtOnce;
    serve_turns(
        rt, alloc, job, supply, &scans, &reclaims, lender, start, run_config,
    )
}
