//! A turn of the present call of an instance.

ghost use Rattle.std.specs.Prelude.{◌≡◌, ◌≢◌, ◌+◌, ◌*◌, ◌≤◌, ◌∷◌, [], List, None, Some};
ghost use Rattle.wh_journal.specs.Calls.{JournalCallState, HasPresent};
ghost use Rattle.wh_machine.specs.CallStates.{setting_of};
ghost use Rattle.wh_instance.specs.Pieces.{pieces_left};
ghost use Rattle.wh_instance.specs.Advancing.{HasOpenCall, StaysBut, AdvancesAny, TurnsAny};
ghost use Rattle.wh_instance.specs.Bursts.{AreUsed};
ghost use Rattle.wh_instance.specs.declared.stages.CallStage.TheVariants as at;

use crate::burst::{Burst, BurstEnd};
use crate::computing::TurnOutcome;
use crate::host_instance::HostInstance;
use crate::leave::Leave;
use crate::stages::{CallStage, TurnResult};
use crate::starting::turn_start;
use crate::turning::{turn_first, turn_on};
use wh_imports::Linked;
use wh_journal::JournalCall;
use wh_linmem::LinearMem;

// The function that a call names.
fn func_of(call: &JournalCall) -> u32
    requires { call.now.func ≢ None }
    ensures { call.now.func ≡ Some result }
{
    match call.func() {
        Some(func) => func,
        None => unreachable!(),
    }
}

impl HostInstance {
    // The present call.
    fn present(&self) -> &JournalCall
        requires { HasPresent self.now.journal.open_calls }
        ensures { (c : JournalCallState) (cs : List JournalCallState)
            → self.now.journal.open_calls ≡ c ∷ cs → result.now ≡ c }
    {
        match self.journal.present() {
            Some(call) => call,
            None => unreachable!(),
        }
    }

    // Where a call is that hasn't ended after a turn.
    fn progress_now(&self, linked: &Linked) -> CallStage
        ensures writing { ¬ (pieces_left linked.now.valid.decoded.segments.items
            self.now.places self.now.cursor ≡ []) → result ≡ at.Writing }
        ensures under_way { pieces_left linked.now.valid.decoded.segments.items
            self.now.places self.now.cursor ≡ [] → result ≡ at.UnderWay }
        ensures begun { result ≢ at.Faced }
    {
        let segments = linked.module().segments.as_slice();
        if self.cursor.has_pieces(segments, &self.places) {
            CallStage::Writing
        } else {
            CallStage::UnderWay
        }
    }

    // A turn of q charges of a start that has pieces left: what came of it, how many pieces it has written, and how many
    // charges it took. The journal stays.
    fn advance_start<M: LinearMem>(
        &mut self,
        linked: &Linked,
        memory: &mut M,
        q: u64,
    ) -> (TurnOutcome, u64, u64)
        requires call { HasOpenCall
            (setting_of linked.now M.bytes M.ready M.keeps (M.limit memory.old))
            self.old memory.old }
        requires writes { self.old.progress ≡ at.Writing }
        ensures advances { AdvancesAny
            (setting_of linked.now M.bytes M.ready M.keeps (M.limit memory.old))
            q self.old memory.old result.0 result.1 result.2 self.new memory.new }
        ensures stays { StaysBut self.old self.new }
        ensures keeps { M.keeps memory.old memory.new }
    {
        let fuel = self.present().fuel();
        let (came, pieces, charges) = turn_start(
            linked,
            &mut self.store,
            &mut self.machine,
            memory,
            q,
            fuel,
            &self.places,
            &mut self.cursor,
        );
        self.progress = self.progress_now(linked);
        (came, pieces, charges)
    }

    // A turn of q charges of a call that is at its invocation: what came of it, and how many charges it took.
    fn advance_first<M: LinearMem>(
        &mut self,
        linked: &Linked,
        memory: &mut M,
        q: u64,
    ) -> (TurnOutcome, u64)
        requires call { HasOpenCall
            (setting_of linked.now M.bytes M.ready M.keeps (M.limit memory.old))
            self.old memory.old }
        requires faced { self.old.progress ≡ at.Faced }
        ensures advances { AdvancesAny
            (setting_of linked.now M.bytes M.ready M.keeps (M.limit memory.old))
            q self.old memory.old result.0 0 result.1 self.new memory.new }
        ensures stays { StaysBut self.old self.new }
        ensures keeps { M.keeps memory.old memory.new }
    {
        let call = match self.journal.present() {
            Some(call) => call,
            None => unreachable!(),
        };
        let (came, charges) = turn_first(
            linked,
            &mut self.store,
            &mut self.machine,
            memory,
            q,
            call.fuel(),
            func_of(call),
            call.words(),
        );
        self.progress = CallStage::UnderWay;
        (came, charges)
    }

    // A burst of a call that is under way.
    fn advance_on<M: LinearMem>(
        &mut self,
        linked: &Linked,
        memory: &mut M,
        burst: Burst,
    ) -> BurstEnd
        requires call { HasOpenCall
            (setting_of linked.now M.bytes M.ready M.keeps (M.limit memory.old))
            self.old memory.old }
        requires under_way { self.old.progress ≡ at.UnderWay }
        ensures advances { AdvancesAny
            (setting_of linked.now M.bytes M.ready M.keeps (M.limit memory.old))
            (result.turns * burst.entry.quantum) self.old memory.old result.came 0 result.charges self.new memory.new }
        ensures used { AreUsed burst.entry.quantum result.turns result.charges }
        ensures few { result.turns ≤ burst.entry.further + 1 }
        ensures leave { result.turns ≤ result.leave.reads + 1 }
        ensures stays { StaysBut self.old self.new }
        ensures keeps { M.keeps memory.old memory.new }
    {
        let call = self.present();
        let (charges, fuel) = (call.charges(), call.fuel());
        turn_on(
            linked,
            &mut self.store,
            &mut self.machine,
            memory,
            burst,
            charges,
            fuel,
        )
    }

    /// Runs the present call for a turn of q charges over its memory; returns the outcome, how many pieces it has
    /// written, and how many charges it took. Its journal doesn't change until the turn is finished.
    pub fn advance<M: LinearMem>(
        &mut self,
        linked: &Linked,
        memory: &mut M,
        q: u64,
    ) -> (TurnOutcome, u64, u64)
        requires { HasOpenCall
            (setting_of linked.now M.bytes M.ready M.keeps (M.limit memory.old))
            self.old memory.old }
        ensures advances { AdvancesAny
            (setting_of linked.now M.bytes M.ready M.keeps (M.limit memory.old))
            q self.old memory.old result.0 result.1 result.2 self.new memory.new }
        ensures stays { StaysBut self.old self.new }
        ensures keeps { M.keeps memory.old memory.new }
    {
        match self.progress {
            CallStage::Writing => self.advance_start(linked, memory, q),
            CallStage::Faced => {
                let (came, charges) = self.advance_first(linked, memory, q);
                (came, 0, charges)
            }
            CallStage::UnderWay => {
                let turn = Burst {
                    quantum: q,
                    further: 0,
                    wanted: None,
                };
                let ended = self.advance_on(linked, memory, turn);
                (ended.came, 0, ended.charges)
            }
        }
    }

    /// Runs the present call for a burst over its memory, or for its first turn alone if the call hasn't begun: it gets
    /// as far, with as many pieces written, as in one turn of as many charges as all its turns had. Its journal doesn't
    /// change until that is finished.
    pub fn advance_burst<M: LinearMem>(
        &mut self,
        linked: &Linked,
        memory: &mut M,
        burst: Burst,
    ) -> (BurstEnd, u64)
        requires { HasOpenCall
            (setting_of linked.now M.bytes M.ready M.keeps (M.limit memory.old))
            self.old memory.old }
        ensures advances { AdvancesAny
            (setting_of linked.now M.bytes M.ready M.keeps (M.limit memory.old))
            (result.0.turns * burst.entry.quantum) self.old memory.old result.0.came result.1 result.0.charges self.new
            memory.new }
        ensures used { AreUsed burst.entry.quantum result.0.turns result.0.charges }
        ensures few { result.0.turns ≤ burst.entry.further + 1 }
        ensures leave { result.0.turns ≤ result.0.leave.reads + 1 }
        ensures stays { StaysBut self.old self.new }
        ensures keeps { M.keeps memory.old memory.new }
    {
        if let CallStage::UnderWay = self.progress {
            return (self.advance_on(linked, memory, burst), 0);
        }
        let (came, pieces, charges) = self.advance(linked, memory, burst.quantum);
        let ended = BurstEnd {
            came,
            charges,
            turns: 1,
            leave: Leave::none(),
        };
        (ended, pieces)
    }

    /// Runs a turn of q charges of the instance over its memory: its present call runs, and no other is begun. Updates
    /// its journal, and what the call is blocked on then. Returns the outcome of the turn, and how many charges it
    /// took.
    pub fn turn<M: LinearMem>(
        &mut self,
        linked: &Linked,
        memory: &mut M,
        q: u64,
    ) -> (TurnResult, u64)
        requires { HasOpenCall
            (setting_of linked.now M.bytes M.ready M.keeps (M.limit memory.old))
            self.old memory.old }
        ensures turns { TurnsAny
            (setting_of linked.now M.bytes M.ready M.keeps (M.limit memory.old))
            q self.old memory.old result.0 result.1 self.new memory.new }
        ensures keeps { M.keeps memory.old memory.new }
    {
        let (came, pieces, charges) = self.advance(linked, memory, q);
        (self.finish(came, pieces, charges), charges)
    }
}
