// The channel through which turns are dispatched.

ghost use Rattle.std.specs.Prelude.{◌≡◌, ◌+◌, ◌-◌, ◌<◌, [], ◌∷◌, ◌++◌, IfOk, IfSome, IfNone};
ghost use Rattle.std.specs.Bool.{MatchBool};
ghost use Rattle.crossbeam_channel.specs.Claims.{view, IsSeatAt};
ghost use Rattle.crossbeam_channel.specs.Ends.{sends_on, receives_on};
ghost use Rattle.wh_threads.specs.Handover.{traffic, all_parts, SameMessages};

use crossbeam_channel::protocol::{Join, Lesson, Outcome, Protocol, Split};
use crossbeam_channel::{Pass, RuledReceiver, RuledSender, bounded_with};
use std::alloc::{AllocError, Global};
use std::collections::LinkedList;
use std::sync::Wait;
use wh_space_model::InstId;

/// What is dispatched to a worker.
#[derive(Clone, Copy, Debug, PartialEq, Eq)]
pub enum Message {
    /// A series: `count` consecutive turns of this instance, of at most `quantum` charges each. Turns are numbered in
    /// the order in which they are dispatched: those of a series from `first` on.
    Turns {
        first: u64,
        count: u32,
        instance: InstId,
        quantum: u32,
    },
    /// No turn comes any more: who receives it has received its last message.
    Last,
}

/// What a pass knows: what was dispatched and received through it, and how many of the 128 parts of the right to know
/// the whole it has. It is a value of contracts alone.
pub struct Traffic<M> {
    /// Its parts.
    pub parts: u64,
    /// What was dispatched through it.
    pub sent: LinkedList<M>,
    /// What was received through it.
    pub received: LinkedList<M>,
}

/// The rule of the channel: what was dispatched is what was received and what the channel holds.
pub struct Balance;

impl<M> Protocol<M, Traffic<M>> for Balance {
    ghost use Rattle.std.specs.Prelude.{[]};
    ghost use Rattle.wh_threads.specs.Handover.{traffic, Balanced};

    ghost holds = { Balanced };

    ghost first = { traffic 128 [] [] };
}

// A pass with one part is cut off, and put back.
struct OnePart;

impl<M> Split<Traffic<M>> for OnePart {
    ghost use Rattle.std.specs.Prelude.{[], ◌-◌};
    ghost use Rattle.wh_threads.specs.Handover.{traffic};

    ghost left = { λ v. traffic (v.parts - 1) v.sent v.received };

    ghost right = { λ v. traffic 1 [] [] };
}

impl<M> Join<Traffic<M>> for OnePart {
    ghost use Rattle.std.specs.Prelude.{[], ◌+◌, ◌++◌};
    ghost use Rattle.wh_threads.specs.Handover.{traffic};

    ghost both = { λ v w. traffic (v.parts + w.parts) (v.sent ++ w.sent) (v.received ++ w.received) };

    ghost spent = { traffic 0 [] [] };
}

// A message is dispatched.
struct Sends;

impl<M> Outcome<M, Traffic<M>> for Sends {
    ghost then = { λ v x w. w ≡ traffic v.parts (v.sent ++ x ∷ []) v.received };
}

impl<M> Lesson<M, Traffic<M>> for Sends {
    ghost use Rattle.std.specs.Prelude.{⊤};

    ghost fact = { λ _ _. ⊤ };
}

// A message is received.
struct Receives;

impl<M> Outcome<M, Traffic<M>> for Receives {
    ghost then = { λ v x w. w ≡ traffic v.parts v.sent (v.received ++ x ∷ []) };
}

impl<M> Lesson<M, Traffic<M>> for Receives {
    ghost use Rattle.std.specs.Prelude.{⊤};

    ghost fact = { λ _ _. ⊤ };
}

// A message is received through the pass that has all parts, which knows what the channel holds.
pub struct ReceivesOfAll;

impl<M> Outcome<M, Traffic<M>> for ReceivesOfAll {
    ghost then = { λ v x w. w ≡ traffic v.parts v.sent (v.received ++ x ∷ []) };
}

impl<M> Lesson<M, Traffic<M>> for ReceivesOfAll {
    ghost use Rattle.std.specs.Prelude.{ℕ, ◌≡◌, ◌+◌, sum_by};

    ghost fact = { λ v held. (weight : M → ℕ)
        → sum_by weight v.sent ≡ sum_by weight v.received + sum_by weight held };
}

/// The end through which turns are dispatched.
pub type TurnSender = RuledSender<Message, Traffic<Message>, Balance>;

/// An end through which they are received.
pub type TurnReceiver = RuledReceiver<Message, Traffic<Message>, Balance>;

/// A pass of the channel of turns: who dispatches or receives a message notes it there. It takes no bytes.
pub type MessagePass = Pass<Message, Traffic<Message>>;

/// Opens a channel that holds up to `capacity` messages; returns its ends and the slip that has all parts.
///
/// # Errors
/// `AllocError` if an allocation fails.
pub fn open_channel<M: Drop>(
    alloc: Global,
    capacity: usize,
) -> Result<
    (
        RuledSender<M, Traffic<M>, Balance>,
        RuledReceiver<M, Traffic<M>, Balance>,
        Pass<M, Traffic<M>>,
    ),
    AllocError,
>
    requires { 0 < capacity }
    ensures ends { IfOk result (λ r. receives_on r.1 ≡ sends_on r.0) }
    ensures slip { IfOk result (λ r. IsSeatAt (sends_on r.0) r.2
        × (view r.2 ≡ traffic all_parts [] [])) }
{
    bounded_with(alloc, capacity)
}

/// Dispatches a message, and waits for room. Returns `false` if no receiver is left: nothing was dispatched then.
pub fn dispatch<M: Drop, R: Wait>(
    rt: &R,
    sender: &RuledSender<M, Traffic<M>, Balance>,
    slip: &mut Pass<M, Traffic<M>>,
    message: M,
) -> bool
    requires channel { IsSeatAt (sends_on sender.now) slip.old }
    requires part { 0 < (view slip.old).parts }
    ensures channel { IsSeatAt (sends_on sender.now) slip.new }
    ensures sent { MatchBool result
        (view slip.new ≡ record (view slip.old) { sent = (view slip.old).sent ++ message ∷ [] })
        (view slip.new ≡ view slip.old) }
{
    sender.send_as::<Sends, R>(rt, slip, message).is_ok()
}

/// Waits for a message, and receives it. Returns `None` if the channel was empty and no sender was left.
pub fn receive<M: Drop, R: Wait>(
    rt: &R,
    receiver: &RuledReceiver<M, Traffic<M>, Balance>,
    slip: &mut Pass<M, Traffic<M>>,
) -> Option<M>
    requires channel { IsSeatAt (receives_on receiver.now) slip.old }
    requires part { 0 < (view slip.old).parts }
    ensures channel { IsSeatAt (receives_on receiver.now) slip.new }
    ensures some { IfSome result (λ message. view slip.new
        ≡ record (view slip.old) { received = (view slip.old).received ++ message ∷ [] }) }
    ensures none { IfNone result (view slip.new ≡ view slip.old) }
{
    receiver.recv_as::<Receives, R>(rt, slip).ok()
}

/// Receives a message, if one is there already, without waiting. `None` says nothing of the channel.
pub fn receive_at_once<M: Drop, R: Wait>(
    rt: &R,
    receiver: &RuledReceiver<M, Traffic<M>, Balance>,
    slip: &mut Pass<M, Traffic<M>>,
) -> Option<M>
    requires channel { IsSeatAt (receives_on receiver.now) slip.old }
    requires part { 0 < (view slip.old).parts }
    ensures channel { IsSeatAt (receives_on receiver.now) slip.new }
    ensures some { IfSome result (λ message. view slip.new
        ≡ record (view slip.old) { received = (view slip.old).received ++ message ∷ [] }) }
    ensures none { IfNone result (view slip.new ≡ view slip.old) }
{
    receiver.try_recv_as::<Receives, R>(rt, slip).ok()
}

/// Splits one part off a slip, for a thread that receives. It begins with nothing received.
pub fn pass_for<M: Drop>(
    sender: &RuledSender<M, Traffic<M>, Balance>,
    slip: &mut Pass<M, Traffic<M>>,
) -> Pass<M, Traffic<M>>
    requires channel { IsSeatAt (sends_on sender.now) slip.old }
    requires parts { 1 < (view slip.old).parts }
    ensures channel { IsSeatAt (sends_on sender.now) slip.new
        × IsSeatAt (sends_on sender.now) result }
    ensures left { view slip.new ≡ record (view slip.old) { parts = (view slip.old).parts - 1 } }
    ensures new { view result ≡ traffic 1 [] [] }
{
    sender.another::<OnePart>(slip)
}

/// Takes back a thread's slip: what was dispatched and received through it now counts as so through `slip`.
pub fn put_back<M: Drop>(
    sender: &RuledSender<M, Traffic<M>, Balance>,
    slip: &mut Pass<M, Traffic<M>>,
    other: Pass<M, Traffic<M>>,
)
    requires channel { IsSeatAt (sends_on sender.now) slip.old
        × IsSeatAt (sends_on sender.now) other }
    requires part { 0 < (view slip.old).parts }
    ensures channel { IsSeatAt (sends_on sender.now) slip.new }
    ensures both { view slip.new ≡ traffic ((view slip.old).parts + (view other).parts)
        ((view slip.old).sent ++ (view other).sent)
        ((view slip.old).received ++ (view other).received) }
{
    sender.absorb::<OnePart>(slip, other)
}

/// Receives, once all parts are in one slip, a message that nobody has received. Returns `None` only if each message
/// was received as often as it was dispatched.
pub fn left_over<M: Drop, R: Wait>(
    rt: &R,
    receiver: &RuledReceiver<M, Traffic<M>, Balance>,
    slip: &mut Pass<M, Traffic<M>>,
) -> Option<M>
    requires channel { IsSeatAt (receives_on receiver.now) slip.old }
    requires all { (view slip.old).parts ≡ all_parts }
    ensures channel { IsSeatAt (receives_on receiver.now) slip.new }
    ensures some { IfSome result (λ message. view slip.new
        ≡ record (view slip.old) { received = (view slip.old).received ++ message ∷ [] }) }
    ensures none { IfNone result ((view slip.new ≡ view slip.old)
        × SameMessages (view slip.new).sent (view slip.new).received) }
{
    receiver.try_recv_as::<ReceivesOfAll, R>(rt, slip).ok()
}
