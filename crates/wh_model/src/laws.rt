//! Laws of the definitions alone.

ghost use Rattle.wh_model.specs.Laws.ReductionLaws.{OneReduction, SmallCharges, UnchargedEnd, Settles, OneAfter, AfterJoins, AfterSplits, OneNeed};
ghost use Rattle.wh_model.specs.Laws.FocusLaws.{Agrees, AfterAgrees, ChargedSettles};
ghost use Rattle.wh_model.specs.Laws.ReplayLaws.{OneBeginning, OneEnd, OneStanding, HistoryBefore, HistorySplits, JournalGrows, StartIsCalled, FuelSuffices, ArgumentsFit, RunningGoesOn, OthersWait, DeadDoNothing, ReturnedHasWritten, PiecesInOrder, CancelledStays, DoneReplays, TrappedReplays, FuelReplays, FragmentsInPages, FragmentsWithin, CutAtMultiples, CutOfThree, FragmentsWrite, BeginningWrites};
ghost use Rattle.wh_model.specs.Laws.SoundnessLaws.{Preservation, ThreadPreservation, Progress, NeverStuck, StoresExtend, BeginsTyped, SpelledHasBytes, ReplaySoundness, NoCallSticks, AcceptedSoundness};
ghost use Rattle.wh_model.specs.Laws.LinkingLaws.{OneFirstFault, LinksWithoutFault, SomeBeginning};

/// States what holds of reduction. Does nothing when run: its contract is the laws.
pub fn execution_holds()
    ensures one_reduction { OneReduction }
    ensures small_charges { SmallCharges }
    ensures uncharged_end { UnchargedEnd }
    ensures settles { Settles }
    ensures one_after { OneAfter }
    ensures after_joins { AfterJoins }
    ensures after_splits { AfterSplits }
    ensures one_need { OneNeed }
{}

/// States that configurations read from their innermost instruction take the same steps as nested terms. Does nothing
/// when run: its contract is the laws.
pub fn focus_holds()
    ensures agrees { Agrees }
    ensures after_agrees { AfterAgrees }
    ensures charged_settles { ChargedSettles }
{}

/// States what holds of instantiation, of journals and of data segments. Does nothing when run: its contract is the
/// laws.
pub fn journals_hold()
    ensures one_beginning { OneBeginning }
    ensures one_end { OneEnd }
    ensures one_standing { OneStanding }
    ensures history_before { HistoryBefore }
    ensures history_splits { HistorySplits }
    ensures journal_grows { JournalGrows }
    ensures start_is_called { StartIsCalled }
    ensures fuel_suffices { FuelSuffices }
    ensures arguments_fit { ArgumentsFit }
    ensures running_goes_on { RunningGoesOn }
    ensures others_wait { OthersWait }
    ensures dead_do_nothing { DeadDoNothing }
    ensures returned_has_written { ReturnedHasWritten }
    ensures pieces_in_order { PiecesInOrder }
    ensures cancelled_stays { CancelledStays }
    ensures done_replays { DoneReplays }
    ensures trapped_replays { TrappedReplays }
    ensures fuel_replays { FuelReplays }
    ensures fragments_in_pages { FragmentsInPages }
    ensures fragments_within { FragmentsWithin }
    ensures cut_at_multiples { CutAtMultiples }
    ensures cut_of_three { CutOfThree }
    ensures fragments_write { FragmentsWrite }
    ensures beginning_writes { BeginningWrites }
{}

/// States what holds of linking and of an instance's initial state. Does nothing when run: its contract is the laws.
pub fn linking_holds()
    ensures one_first_fault { OneFirstFault }
    ensures links_without_fault { LinksWithoutFault }
    ensures some_beginning { SomeBeginning }
{}

/// States that what is valid never gets stuck. Does nothing when run: its contract is the laws.
pub fn soundness_holds()
    ensures preservation { Preservation }
    ensures thread_preservation { ThreadPreservation }
    ensures progress { Progress }
    ensures never_stuck { NeverStuck }
    ensures stores_extend { StoresExtend }
    ensures begins_typed { BeginsTyped }
    ensures spelled_has_bytes { SpelledHasBytes }
    ensures replay_soundness { ReplaySoundness }
    ensures no_call_sticks { NoCallSticks }
    ensures accepted_soundness { AcceptedSoundness }
{}
