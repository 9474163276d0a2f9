// The value on which the holders of two locks agree.

ghost use Rattle.std.specs.Prelude.{◌≡◌, Some};
ghost use Rattle.crossbeam_queue.specs.Passes.{view, IsPassOf};
ghost use Rattle.wh_threads.specs.Agreement.{knowing};

use crate::changes::Change;
use crate::known::{Agree, AgreedValue, Apart, Idle, PassKnowledge, Picks, Same, Together};
use crossbeam_queue::{Pass, RuledArrayQueue};
use std::alloc::{AllocError, Global};
use std::marker::{Brand, Model, PhantomData};
use std::mem;

/// Names one agreement. A proof picks which at a call, as that of a ledger.
pub trait AgreementId {
    ghost use Rattle.atomic_table.specs.Seated.{TableId};

    ghost table: { TableId };
}

impl AgreementId for Brand {
    ghost use Rattle.wh_threads.specs.Agreement.{no_table};

    ghost table = { no_table };
}

type Queue<V> = RuledArrayQueue<u8, PassKnowledge<V>, Agree>;

// Both parts are put together and cut again: they knew the same, and now both know the value picked.
fn change_passes<V, K: Picks<V>>(
    queue: &Queue<V>,
    memory: &mut Pass<u8, PassKnowledge<V>>,
    device: &mut Pass<u8, PassKnowledge<V>>,
)
    requires passes { IsPassOf queue.now memory.old × IsPassOf queue.now device.old }
    requires parts { ((view memory.old).parts ≡ 1) × ((view device.old).parts ≡ 1) }
    ensures agreed { (view memory.old).mine ≡ (view device.old).mine }
    ensures passes { IsPassOf queue.now memory.new × IsPassOf queue.now device.new }
    ensures known { (view memory.new ≡ knowing 1 K.picked K.picked)
        × (view device.new ≡ knowing 1 K.picked K.picked) }
{
    let idle = queue.another::<Idle>(memory);
    let other = mem::replace(device, idle);
    queue.absorb::<Together>(memory, other);
    queue.learn_as::<Same>(memory);
    *device = queue.another::<Apart<K>>(memory);
}

/// A new agreement, which no type represents yet. Contracts see its name.
#[derive(Drop)]
pub struct BlankAgreement<V> {
    queue: Queue<V>,
    pass: Pass<u8, PassKnowledge<V>>,
}

impl<V> Model for BlankAgreement<V> {
    ghost use Rattle.std.specs.Prelude.{◌≡◌};
    ghost use Rattle.atomic_table.specs.Seated.{TableId};
    ghost use Rattle.crossbeam_queue.specs.Passes as passes;

    ghost Value = { TableId };

    ghost view = { λ p. p.queue.table.shared.table_id };

    ghost invariant = { λ p. passes.IsPassOf p.queue p.pass
        × ((passes.view p.pass).parts ≡ 2) };
}

/// One of the two holders of an agreement: what contracts see is the value that it knows. It takes no bytes.
#[derive(Drop)]
pub struct AgreementHalf<B: AgreementId, V: AgreedValue> {
    pass: Pass<u8, PassKnowledge<V>>,
    bond: PhantomData<B>,
}

impl<B: AgreementId, V: AgreedValue> Model for AgreementHalf<B, V> {
    ghost use Rattle.std.specs.Prelude.{◌≡◌, [], Some, unwrap_or};
    ghost use Rattle.crossbeam_queue.specs.Passes as passes;

    ghost Value = { V };

    ghost view = { λ h. unwrap_or (passes.view h.pass).mine V.nothing };

    ghost invariant = { λ h. (h.pass.table_id ≡ B.table) × (h.pass.me.1 ≡ [])
        × ((passes.view h.pass).parts ≡ 1)
        × ((passes.view h.pass).mine ≡ Some (unwrap_or (passes.view h.pass).mine V.nothing)) };
}

/// What two holders agree by: a queue under a rule, in which nothing ever lies. No call of it waits or takes memory.
#[derive(Drop)]
pub struct Agreement<B: AgreementId, V: AgreedValue> {
    queue: Queue<V>,
    bond: PhantomData<(B, V)>,
}

impl<B: AgreementId, V: AgreedValue> Model for Agreement<B, V> {
    ghost use Rattle.std.specs.Prelude.{◌≡◌};
    ghost use Rattle.atomic_table.specs.Seated.{TableId};

    ghost Value = { TableId };

    ghost view = { λ p. p.queue.table.shared.table_id };

    ghost invariant = { λ p. p.queue.table.shared.table_id ≡ B.table };
}

impl<V: AgreedValue> BlankAgreement<V> {
    /// Creates an agreement.
    ///
    /// # Errors
    /// `AllocError` if an allocation fails.
    pub fn new(alloc: Global) -> Result<BlankAgreement<V>, AllocError> {
        let (queue, pass) = RuledArrayQueue::ruled(alloc, 1)?;
        Ok(BlankAgreement { queue, pass })
    }

    /// Opens the agreement under the name that its type has; returns it and its two halves. Both know what `by` makes
    /// of what is known of nothing.
    pub fn open<B: AgreementId, C: Change<V>>(
        self,
        by: &C,
    ) -> (Agreement<B, V>, AgreementHalf<B, V>, AgreementHalf<B, V>)
        requires { self ≡ B.table }
        ensures first { result.1 ≡ C.after by.now V.nothing }
        ensures second { result.2 ≡ result.1 }
    {
        let BlankAgreement { queue, pass } = self;
        let mut first = pass;
        let second = part::<V, Brand, C>(&queue, &mut first, by);
        let agreement = Agreement {
            queue,
            bond: PhantomData,
        };
        let first = AgreementHalf {
            pass: first,
            bond: PhantomData,
        };
        let second = AgreementHalf {
            pass: second,
            bond: PhantomData,
        };
        (agreement, first, second)
    }
}

// A pass with both parts is cut in two.
fn part<V: AgreedValue, K: Picks<V>, C: Change<V>>(
    queue: &Queue<V>,
    pass: &mut Pass<u8, PassKnowledge<V>>,
    by: &C,
) -> Pass<u8, PassKnowledge<V>>
    requires pass { IsPassOf queue.now pass.old }
    requires parts { (view pass.old).parts ≡ 2 }
    requires picked { K.picked ≡ Some (C.after by.now V.nothing) }
    ensures passes { IsPassOf queue.now pass.new × IsPassOf queue.now result }
    ensures known { (view pass.new ≡ knowing 1 K.picked K.picked)
        × (view result ≡ knowing 1 K.picked K.picked) }
    ensures picked { K.picked ≡ Some (C.after by.now V.nothing) }
{
    let _ = by;
    queue.another::<Apart<K>>(pass)
}

impl<B: AgreementId, V: AgreedValue> Agreement<B, V> {
    // The same for any value that is picked.
    fn change<K: Picks<V>, C: Change<V>>(
        &self,
        first: &mut AgreementHalf<B, V>,
        second: &mut AgreementHalf<B, V>,
        by: &C,
    )
        requires { K.picked ≡ Some (C.after by.now first.old) }
        ensures agreed { first.old ≡ second.old }
        ensures first { first.new ≡ C.after by.now first.old }
        ensures second { second.new ≡ first.new }
    {
        let _ = by;
        change_passes::<V, K>(&self.queue, &mut first.pass, &mut second.pass);
    }

    /// Changes what both halves know. Whoever has both, and so both locks, finds that they agreed.
    pub fn settle<C: Change<V>>(
        &self,
        first: &mut AgreementHalf<B, V>,
        second: &mut AgreementHalf<B, V>,
        by: &C,
    )
        ensures agreed { first.old ≡ second.old }
        ensures first { first.new ≡ C.after by.now first.old }
        ensures second { second.new ≡ first.new }
    {
        self.change::<Brand, C>(first, second, by);
    }
}
