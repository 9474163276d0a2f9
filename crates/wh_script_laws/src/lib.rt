//! What a script knows of the host that runs its calls, and how it stays true: each request with its answer makes of both what
//! the definition of a script's answers says.
#![tactic(auto)]

ghost use Rattle.wh_script_laws.specs.Determined.{AnswersAreDetermined, LinesAreDetermined, AnswersOutOfMemoryAreDetermined};
ghost use Rattle.wh_script_laws.specs.Failures.{FaultsStopFew, NoCallGoesBack, NoneGoesOnUnasked};
ghost use Rattle.wh_script_laws.specs.Faultless.{LinesLeaveNobody, FaultlessLines, FaultlessScripts};
ghost use Rattle.wh_script_laws.specs.WorkedFaults.{StoreIsCancelled, StoreIsRetried};
ghost use Rattle.wh_script_laws.specs.Laws.{AsksWell, BeginsWell, CallsFollow, CancelsFollow, DrainsBegin, DrainsEnd, EndedStays, GoingIsKnown, InstancesFollow, ModulesFollow, MovesFollow, ObeysWell, OpenIsKnown, RefuelsFollow, ReleasesFollow, RetriesFollow, RunsWell, PrintingFollows, SaysWell, TurnsFollow, OutOfMemoryIsNamed};

/// States the laws of a script and the host that runs its calls, after every list of events: a request and its answer
/// lead from a host that follows the script to one that follows it then; turns make calls progress; and if no call can
/// make progress, each has come as far as it does alone. What lines make is well-formed: all its calls are there, and
/// of those of released instances it was said how they were; and what was last said to have ended stays so. If no reply
/// names out of memory, the answers are those that a script gets if there is enough. Does nothing when run.
pub fn scripts_follow()
    ensures modules { ModulesFollow }
    ensures instances { InstancesFollow }
    ensures calls { CallsFollow }
    ensures refuels { RefuelsFollow }
    ensures cancels { CancelsFollow }
    ensures retries { RetriesFollow }
    ensures releases { ReleasesFollow }
    ensures begin { DrainsBegin }
    ensures turns { TurnsFollow }
    ensures moves { MovesFollow }
    ensures end { DrainsEnd }
    ensures open { OpenIsKnown }
    ensures going { GoingIsKnown }
    ensures printing { PrintingFollows }
    ensures begins_well { BeginsWell }
    ensures runs_well { RunsWell }
    ensures says_well { SaysWell }
    ensures asks_well { AsksWell }
    ensures obeys_well { ObeysWell }
    ensures ended { EndedStays }
    ensures wants { OutOfMemoryIsNamed }
{}

/// States that the answers to a script are determined, if it is known what the files hold that it loads, and memory
/// can't run out or no reply names it: two lists of replies to the same lines are the same, reply by reply, except that
/// where both refuse a module for a fault of the validator each may name another one; and what the lines have made is
/// the same in any case. Does nothing when run: its contract is the laws.
pub fn answers_are_determined()
    ensures lines { LinesAreDetermined }
    ensures script { AnswersAreDetermined }
    ensures may_run_out { AnswersOutOfMemoryAreDetermined }
{}

/// States that, if no call of a swap device fails, lines and scripts get what they get by the definitions that know of
/// no fault, and nothing else, and nobody is blocked on a fault then. If calls of it fail, a drain stops no more
/// instances than calls failed, none of the calls of those goes back, and who is blocked on a fault stays so until a
/// retry. States also what two scripts get while one fails. Does nothing when run: its contract is the laws and the
/// examples.
pub fn faults_alone_change_answers()
    ensures nobody { LinesLeaveNobody }
    ensures lines { FaultlessLines }
    ensures scripts { FaultlessScripts }
    ensures stop_few { FaultsStopFew }
    ensures none_goes_back { NoCallGoesBack }
    ensures none_goes_on_unasked { NoneGoesOnUnasked }
    ensures store_is_retried { StoreIsRetried }
    ensures store_is_cancelled { StoreIsCancelled }
{}
