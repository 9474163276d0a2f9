//! The law over every run.

ghost use Rattle.wh_host_model.specs.Host.Laws.{MemoryIsSound, PlacesAreRight, PromisesAreKept, ModulesAreKept, InstancesReplay, ChargesAreWithin, CopiedCallsHaveEnded, JournalsAreInOrder, SuspensionsAreRight, FrameIsLacking, AgainIsReady, OneTurn};
ghost use Rattle.wh_host_model.specs.Host.Stuck.{NoCallIsStuck};
ghost use Rattle.wh_host_model.specs.Host.TakenSteps.{ReadyStepsAreTaken};
ghost use Rattle.wh_host_model.specs.Host.Apart.{NoBytesReachAnother};
ghost use Rattle.wh_host_model.specs.Host.Progress.{EventsHappen, LoadsAreTaken, AdmissionsAreTaken, CallsAreTaken, ForksAreTaken, UnloadsAreTaken, IdleTurnsHappen, FuelTurnsHappen, ReadyTurnsHappen};
ghost use Rattle.wh_host_model.specs.Host.Misreading.{MemoryStaysSound, PlacesStayRight, ModulesStayAccepted, JournalsStayInOrder, CopiedStayEnded, InputsStay, FramesAreAwaited};

/// States what holds of a host after every list of events from an empty one, and of the outcome of a turn. Does nothing
/// when run: its contract is the laws.
pub fn every_run()
    ensures memory_is_sound { MemoryIsSound }
    ensures places_are_right { PlacesAreRight }
    ensures promises_are_kept { PromisesAreKept }
    ensures modules_are_kept { ModulesAreKept }
    ensures instances_replay { InstancesReplay }
    ensures no_call_is_stuck { NoCallIsStuck }
    ensures charges_are_within { ChargesAreWithin }
    ensures copied_calls_have_ended { CopiedCallsHaveEnded }
    ensures journals_are_in_order { JournalsAreInOrder }
    ensures suspensions_are_right { SuspensionsAreRight }
    ensures frame_is_lacking { FrameIsLacking }
    ensures again_is_ready { AgainIsReady }
    ensures one_turn { OneTurn }
    ensures ready_steps_are_taken { ReadyStepsAreTaken }
    ensures no_bytes_reach_another { NoBytesReachAnother }
    ensures events_happen { EventsHappen }
    ensures loads_are_taken { LoadsAreTaken }
    ensures admissions_are_taken { AdmissionsAreTaken }
    ensures calls_are_taken { CallsAreTaken }
    ensures forks_are_taken { ForksAreTaken }
    ensures unloads_are_taken { UnloadsAreTaken }
    ensures idle_turns_happen { IdleTurnsHappen }
    ensures fuel_turns_happen { FuelTurnsHappen }
    ensures ready_turns_happen { ReadyTurnsHappen }
{}

/// States what holds of a host whatever bytes its swap device gives: after every list of events, and of reads that gave
/// other bytes than were written. Does nothing when run: its contract is the laws.
pub fn every_misread_run()
    ensures memory_stays_sound { MemoryStaysSound }
    ensures places_stay_right { PlacesStayRight }
    ensures modules_stay_accepted { ModulesStayAccepted }
    ensures journals_stay_in_order { JournalsStayInOrder }
    ensures copied_stay_ended { CopiedStayEnded }
    ensures inputs_stay { InputsStay }
    ensures frames_are_awaited { FramesAreAwaited }
{}
