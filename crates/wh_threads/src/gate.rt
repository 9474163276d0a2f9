// Whether a thread begins: one sign tells it, and it waits for that. Where no thread could be made, what it would have done is told
// to stay, and so has done nothing.

ghost use Rattle.std.specs.Prelude.{◌≡◌, [], IfOk, false};
ghost use Rattle.crossbeam_channel.specs.Claims.{view, IsSeatAt};
ghost use Rattle.crossbeam_channel.specs.Ends.{sends_on, receives_on};
ghost use Rattle.wh_threads.specs.Gates.{IsTold, begins_in};
ghost use Rattle.wh_threads.specs.Handover.{all_parts, traffic};

use crate::channel::{
    Balance, ReceivesOfAll, Traffic, dispatch, open_channel, pass_for, put_back, receive,
};
use crossbeam_channel::{Pass, RuledReceiver, RuledSender};
use std::alloc::{AllocError, Global};
use std::sync::Wait;

/// What a thread is told before it begins.
#[derive(Clone, Copy, Debug, PartialEq, Eq)]
pub enum Sign {
    /// It begins.
    Begin,
    /// It does nothing: no thread could be made for it.
    Stay,
}

/// The end by which a thread is told.
pub type SignSender = RuledSender<Sign, Traffic<Sign>, Balance>;

/// The end at which it waits.
pub type SignReceiver = RuledReceiver<Sign, Traffic<Sign>, Balance>;

/// What was told, as contracts know it.
pub type SignSlip = Pass<Sign, Traffic<Sign>>;

/// Lets one thread begin, once it was made. Nothing was told through it yet.
#[derive(Drop)]
pub struct Gate {
    sender: SignSender,
    receiver: SignReceiver,
    slip: SignSlip,
    ghost one: { receives_on receiver ≡ sends_on sender },
    ghost channel: { IsSeatAt (sends_on sender) slip },
    ghost fresh: { view slip ≡ traffic all_parts [] [] },
}

// The side of a gate by which a thread is told.
#[derive(Drop)]
pub struct Opener {
    pub sender: SignSender,
    pub slip: SignSlip,
    ghost channel: { IsSeatAt (sends_on sender) slip },
    ghost fresh: { view slip ≡ traffic 127 [] [] },
}

// The side at which it waits.
#[derive(Drop)]
pub struct Waiting {
    pub receiver: SignReceiver,
    pub slip: SignSlip,
    ghost channel: { IsSeatAt (receives_on receiver) slip },
    ghost fresh: { view slip ≡ traffic 1 [] [] },
}

// What a thread was told, and whether it has begun.
#[derive(Drop)]
pub struct Told {
    pub slip: SignSlip,
    pub has_begun: bool,
}

impl Gate {
    /// Makes a gate for one thread. All memory for it is taken here.
    ///
    /// # Errors
    /// `AllocError` if an allocation fails.
    pub fn new(alloc: Global) -> Result<Gate, AllocError> {
        let (sender, receiver, slip) = open_channel(alloc, 1)?;
        Ok(Gate {
            sender,
            receiver,
            slip,
        })
    }

    // Both sides.
    pub(crate) fn split(self) -> (Opener, Waiting)
        ensures { receives_on result.1.receiver ≡ sends_on result.0.sender }
    {
        let Gate {
            sender,
            receiver,
            mut slip,
        } = self;
        let theirs = pass_for(&sender, &mut slip);
        let opener = Opener { sender, slip };
        let waiting = Waiting {
            receiver,
            slip: theirs,
        };
        (opener, waiting)
    }
}

impl Waiting {
    // Waits until it is told.
    pub(crate) fn wait<R: Wait>(self, rt: &R) -> Told
        ensures { IsTold (receives_on self.receiver) result.slip result.has_begun }
    {
        let Waiting { receiver, slip } = self;
        let mut slip = slip;
        let sign = receive(rt, &receiver, &mut slip);
        Told {
            slip,
            has_begun: sign == Some(Sign::Begin),
        }
    }
}

impl Opener {
    // Tells the thread to begin.
    pub(crate) fn begin<R: Wait>(self, rt: &R) {
        let Opener { sender, slip } = self;
        let mut slip = slip;
        let _ = dispatch(rt, &sender, &mut slip, Sign::Begin);
    }

    // Tells it to stay: whatever it does then, it hasn't begun.
    pub(crate) fn stay<R: Wait>(self, rt: &R) -> Closed
        ensures { sends_on result.sender ≡ sends_on self.sender }
    {
        let Opener { sender, slip } = self;
        let mut slip = slip;
        let _ = dispatch(rt, &sender, &mut slip, Sign::Stay);
        Closed { sender, slip }
    }
}

// A gate through which nobody was told to begin.
#[derive(Drop)]
pub struct Closed {
    pub sender: SignSender,
    pub slip: SignSlip,
    ghost channel: { IsSeatAt (sends_on sender) slip },
    ghost shut: { ((view slip).parts ≡ 127) × (begins_in (view slip).sent ≡ 0) },
}

impl Closed {
    // Who was told by it hasn't begun.
    pub(crate) fn check(self, told: Told)
        requires { IsTold (sends_on self.sender) told.slip told.has_begun }
        ensures { told.has_begun ≡ false }
    {
        let Closed { sender, slip } = self;
        let mut slip = slip;
        let Told {
            slip: theirs,
            has_begun: _,
        } = told;
        put_back(&sender, &mut slip, theirs);
        sender.learn_as::<ReceivesOfAll>(&mut slip);
    }
}
