//! The laws of what the memory's own moves are to a host.

ghost use Rattle.wh_host_model.specs.Host.Bridges.{LoadsStep, StoresStep, GrowthSteps, WaitsWell, EndsWell, EpochsLeaveAll, OffersLeaveAll, EvictionsBegin, WritesLeaveAll, EvictionsEnd, FetchesBegin, FetchesEnd, ProvisionsLeaveAll, FailuresLeaveAll, FetchesSeeAsMany, ProvisionsSeeAsMany, FailuresSeeAsMany, EntrantsArrive, ExitsDepart, CopiesArrive};

/// States what moves in the memory of all instances leave unchanged, in the terms in which a host's events ask for it.
/// Does nothing when run: its contract is the laws.
pub fn moves_hold()
    ensures loads_step { LoadsStep }
    ensures stores_step { StoresStep }
    ensures growth_steps { GrowthSteps }
    ensures waits_well { WaitsWell }
    ensures ends_well { EndsWell }
    ensures epochs_leave_all { EpochsLeaveAll }
    ensures offers_leave_all { OffersLeaveAll }
    ensures evictions_begin { EvictionsBegin }
    ensures writes_leave_all { WritesLeaveAll }
    ensures evictions_end { EvictionsEnd }
    ensures fetches_begin { FetchesBegin }
    ensures fetches_end { FetchesEnd }
    ensures provisions_leave_all { ProvisionsLeaveAll }
    ensures failures_leave_all { FailuresLeaveAll }
    ensures fetches_see_as_many { FetchesSeeAsMany }
    ensures provisions_see_as_many { ProvisionsSeeAsMany }
    ensures failures_see_as_many { FailuresSeeAsMany }
    ensures entrants_arrive { EntrantsArrive }
    ensures exits_depart { ExitsDepart }
    ensures copies_arrive { CopiesArrive }
{}
