//! Rounds: turns of several instances at once, each against an overlay.

ghost use Rattle.std.specs.Prelude.{◌≡◌, ◌+◌, None, true, IfOk};
ghost use Rattle.wh_host.specs.Rounds.{AllMayRun, AllRun, IsFree, MayRun, RunsAt};

use crate::beside::{RanBeside, run_beside};
use crate::host::module_at;
use crate::parts::LoadedModule;
use slab::Slab;
use std::alloc::{AllocError, Global};
use wh_host_model::TurnEnd;
use wh_instance::{Burst, HostInstance, Leave, TurnOutcome};
use wh_overlay::OverlayPages;
use wh_space::Memory;
use wh_space_model::InstId;

/// The outcome of consecutive turns of an instance.
#[derive(Clone, Copy, Debug, PartialEq, Eq)]
pub struct SeriesEnd {
    /// How many there were, 1 or more.
    pub turns: u64,
    /// How many charges they took in all.
    pub charges: u64,
    /// What the last was answered. After each other one the call could go on.
    pub end: TurnEnd,
    /// The leave that there was for those after the first: it was read as often that nobody wants the memory.
    pub leave: Leave,
}

/// A runner of a round: which instance it runs, the outcome of its turns, and room for what they write in the overlay.
#[derive(Drop)]
pub struct Runner {
    // For which instance it is.
    pub(crate) id: InstId,
    // Whether it has that instance. Else the one that it has is a spare one.
    pub(crate) taken: bool,
    // The place of its module, and to how many pages its memory may grow at most.
    pub(crate) module_place: usize,
    pub(crate) page_limit: u32,
    pub(crate) tenant: HostInstance,
    // How many calls of that instance had ended when it was taken out.
    pub(crate) ended: usize,
    pub(crate) upper: Option<OverlayPages>,
    pub(crate) ran: RanBeside,
    // The outcome of its turns; none where it had none.
    pub(crate) answer: Option<SeriesEnd>,
}

/// All that runners read, at the same time: the modules and the memory of all; and for how long each runs.
#[derive(Drop)]
pub struct Round<'a> {
    pub(crate) modules: &'a Slab<LoadedModule>,
    pub(crate) memory: &'a Memory,
    pub(crate) burst: Burst<'a>,
}

/// Runs the runners of a round, in whatever order or at once.
pub trait RoundRunner {
    ghost can: { Self → Type 0 };

    /// Runs the turns of each runner, as `Round::run` does.
    fn run_all(&self, round: &Round, runners: &mut [Runner])
        requires can { Self.can self.now }
        requires may { AllMayRun round.now.modules.now.slots round.now.memory.now runners.old }
        ensures { AllRun round.now.modules.now.slots round.now.memory.now round.now.burst.quantum
            (round.now.burst.further + 1) runners.old runners.new };
}

/// Runs them one after the other.
#[derive(Clone, Copy)]
pub struct InOrder;

impl RoundRunner for InOrder {
    ghost use Rattle.std.specs.Prelude.{⊤};

    ghost can = { λ _. ⊤ };

    fn run_all(&self, round: &Round, runners: &mut [Runner]) {
        for at in 0..runners.len() {
            round.run(&mut runners[at]);
        }
    }
}

impl<'a> Round<'a> {
    /// Runs this runner's turns against its overlay, if it has an instance.
    pub fn run(&self, runner: &mut Runner)
        requires { runner.old.taken ≡ true → MayRun self.now.modules.now.slots self.now.memory.now runner.old }
        ensures { RunsAt self.now.modules.now.slots self.now.memory.now self.now.burst.quantum
            (self.now.burst.further + 1) runner.old runner.new }
    {
        if !runner.taken {
            return;
        }
        let Some(module) = module_at(self.modules, runner.module_place) else {
            unreachable!()
        };
        let Some(upper) = runner.upper.take() else {
            unreachable!()
        };
        let (ran, upper) = run_beside(
            &mut runner.tenant,
            &module.linked,
            self.memory,
            runner.id.place,
            runner.page_limit,
            self.burst,
            upper,
        );
        runner.ran = ran;
        runner.upper = Some(upper);
    }
}

impl Runner {
    /// Creates a runner for this instance, with room for `written` pages that it writes, of a memory of at most `pages`
    /// pages of 4096 bytes.
    ///
    /// # Errors
    /// `AllocError` if an allocation fails.
    pub fn new(alloc: Global, id: InstId, written: u16, pages: usize) -> Result<Runner, AllocError>
        ensures { IfOk result (λ y. IsFree y × (y.id ≡ id) × (y.answer ≡ None)) }
    {
        let upper = OverlayPages::new(alloc, written, pages)?;
        Ok(Runner {
            id,
            taken: false,
            module_place: 0,
            page_limit: 0,
            tenant: HostInstance::spare(alloc)?,
            ended: 0,
            upper: Some(upper),
            ran: RanBeside {
                came: TurnOutcome::Again,
                pieces: 0,
                charges: 0,
                turns: 0,
                leave: Leave::none(),
            },
            answer: None,
        })
    }

    /// Returns the instance that it runs.
    pub fn id(&self) -> InstId
        ensures { result ≡ self.now.id }
    {
        self.id
    }

    /// Hands it another instance to run.
    pub fn give(&mut self, id: InstId)
        ensures { self.new ≡ record self.old { id = id } }
    {
        self.id = id;
    }

    /// Returns the outcome of its turns; `None` if it had none.
    pub fn answer(&self) -> Option<SeriesEnd>
        ensures { result ≡ self.now.answer }
    {
        self.answer
    }
}
