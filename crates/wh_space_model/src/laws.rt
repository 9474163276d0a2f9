//! Laws of the definitions alone.

ghost use Rattle.wh_space_model.specs.Laws.{ReadyIsDecided, NoBytesAreReady, OneUseOfAFrame, SomePageCanBeTaken, SomeSlotIsVacant, EvictionKeepsAll, FetchKeepsSound, FetchKeepsBytes, MovesAreFew, ProvisionIsRight, OnePageMustLeave, OneChargedPage, ChargesAddUp, BeginsEvictSoundly, BeginsEvictQuietly, BeginsFetchQuietly, CommitsEvictQuietly, CommitsFetchQuietly};
ghost use Rattle.wh_space_model.specs.Sight.{OffersQuietly, WritesQuietly, StepsQuietly, GrowsAlone, GrowsByZeros, EntersAlone, EntersAtZeros, ExitsAlone, PinsEnd, GoneIsSkipped, WrittenIsVoid, ReleasedIsVoid, NothingNeedless};
ghost use Rattle.wh_space_model.specs.Kept.{TouchesSoundly, EpochsSoundly, WritesSoundly, WaitsSoundly, EndsSoundly, CommitsEvictSoundly, OffersSoundly, BeginsFetchSoundly, CommitsFetchSoundly, GrowsSoundly, EntersSoundly, ExitsSoundly};
ghost use Rattle.wh_space_model.specs.Chain.{FailsSoundly, EmptyIsSound, StaysSound, ScansSoundly, PassesFully, PassesListAll, OnlyLendsUnlist, ContentsAreListed};
ghost use Rattle.wh_space_model.specs.Forks.{CopiesAreFree, CopiesAreRight, CopiesLeavePayer, CopiesLeaveReady, LendsAlone, LendsSoundly};
ghost use Rattle.wh_space_model.specs.Storing.{BreaksSoundly, SomeStore, StoresSoundly, StoresAreRight};

/// States what holds of the memory of all instances. Does nothing when run: its contract is the laws.
pub fn space_holds()
    ensures ready_is_decided { ReadyIsDecided }
    ensures no_bytes_are_ready { NoBytesAreReady }
    ensures one_use_of_a_frame { OneUseOfAFrame }
    ensures some_page_can_be_taken { SomePageCanBeTaken }
    ensures some_slot_is_vacant { SomeSlotIsVacant }
    ensures eviction_keeps_all { EvictionKeepsAll }
    ensures fetch_keeps_sound { FetchKeepsSound }
    ensures fetch_keeps_bytes { FetchKeepsBytes }
    ensures moves_are_few { MovesAreFew }
    ensures provision_is_right { ProvisionIsRight }
    ensures one_page_must_leave { OnePageMustLeave }
    ensures one_charged_page { OneChargedPage }
    ensures charges_add_up { ChargesAddUp }
    ensures begins_evict_soundly { BeginsEvictSoundly }
    ensures begins_evict_quietly { BeginsEvictQuietly }
    ensures begins_fetch_quietly { BeginsFetchQuietly }
    ensures commits_evict_quietly { CommitsEvictQuietly }
    ensures commits_fetch_quietly { CommitsFetchQuietly }
    ensures offers_quietly { OffersQuietly }
    ensures writes_quietly { WritesQuietly }
    ensures steps_quietly { StepsQuietly }
    ensures grows_alone { GrowsAlone }
    ensures grows_by_zeros { GrowsByZeros }
    ensures enters_alone { EntersAlone }
    ensures enters_at_zeros { EntersAtZeros }
    ensures exits_alone { ExitsAlone }
    ensures pins_end { PinsEnd }
    ensures gone_is_skipped { GoneIsSkipped }
    ensures written_is_void { WrittenIsVoid }
    ensures released_is_void { ReleasedIsVoid }
    ensures nothing_needless { NothingNeedless }
    ensures touches_soundly { TouchesSoundly }
    ensures epochs_soundly { EpochsSoundly }
    ensures writes_soundly { WritesSoundly }
    ensures waits_soundly { WaitsSoundly }
    ensures ends_soundly { EndsSoundly }
    ensures commits_evict_soundly { CommitsEvictSoundly }
    ensures offers_soundly { OffersSoundly }
    ensures begins_fetch_soundly { BeginsFetchSoundly }
    ensures commits_fetch_soundly { CommitsFetchSoundly }
    ensures grows_soundly { GrowsSoundly }
    ensures enters_soundly { EntersSoundly }
    ensures exits_soundly { ExitsSoundly }
    ensures fails_soundly { FailsSoundly }
    ensures empty_is_sound { EmptyIsSound }
    ensures stays_sound { StaysSound }
    ensures scans_soundly { ScansSoundly }
    ensures passes_fully { PassesFully }
    ensures contents_are_listed { ContentsAreListed }
    ensures passes_list_all { PassesListAll }
    ensures only_lends_unlist { OnlyLendsUnlist }
    ensures breaks_soundly { BreaksSoundly }
    ensures stores_soundly { StoresSoundly }
    ensures stores_are_right { StoresAreRight }
    ensures some_store { SomeStore }
    ensures lends_soundly { LendsSoundly }
    ensures lends_alone { LendsAlone }
    ensures copies_are_right { CopiesAreRight }
    ensures copies_are_free { CopiesAreFree }
    ensures copies_leave_payer { CopiesLeavePayer }
    ensures copies_leave_ready { CopiesLeaveReady }
{}
