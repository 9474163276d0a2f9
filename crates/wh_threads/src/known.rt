// What the passes of an agreement know, and its rule.

use crossbeam_queue::protocol::{Join, Lesson, Protocol, Split};
use std::marker::{Brand, PhantomData};

/// What the holders of an agreement agree on: a kind of value of contracts.
pub trait AgreedValue {
    /// What is known before anything was told.
    ghost nothing: { Self };
}

// What a pass knows: its parts of the two; the value that both holders know; and, once both parts are in one pass, the
// same value as the other part knew it. It is a value of contracts alone: none is made.
pub struct PassKnowledge<V> {
    pub parts: u64,
    pub mine: Option<V>,
    pub other: Option<V>,
}

// The rule of an agreement: both holders know one value.
pub struct Agree;

impl<V> Protocol<u8, PassKnowledge<V>> for Agree {
    ghost use Rattle.std.specs.Prelude.{None};
    ghost use Rattle.wh_threads.specs.Agreement.{Agreed, knowing};

    ghost holds = { Agreed };

    ghost first = { knowing 2 None None };
}

// The value that both are to know, which a proof picks at a call.
pub trait Picks<V> {
    ghost use Rattle.std.specs.Prelude.{Option};

    ghost picked: { Option V };
}

impl<V> Picks<V> for Brand {
    ghost use Rattle.std.specs.Prelude.{None};

    ghost picked = { None };
}

// A pass that has both parts is cut in two that know the value picked.
pub struct Apart<K> {
    of: PhantomData<K>,
}

impl<V, K: Picks<V>> Split<PassKnowledge<V>> for Apart<K> {
    ghost use Rattle.wh_threads.specs.Agreement.{knowing};

    ghost left = { λ _. knowing 1 K.picked K.picked };

    ghost right = { λ _. knowing 1 K.picked K.picked };
}

// A pass without a part is cut off.
pub struct Idle;

impl<V> Split<PassKnowledge<V>> for Idle {
    ghost use Rattle.std.specs.Prelude.{None};
    ghost use Rattle.wh_threads.specs.Agreement.{knowing};

    ghost left = { λ v. v };

    ghost right = { λ _. knowing 0 None None };
}

// Both parts are put into one pass.
pub struct Together;

impl<V> Join<PassKnowledge<V>> for Together {
    ghost use Rattle.std.specs.Prelude.{◌+◌, None};
    ghost use Rattle.wh_threads.specs.Agreement.{knowing};

    ghost both = { λ v w. knowing (v.parts + w.parts) v.mine w.mine };

    ghost spent = { knowing 0 None None };
}

// Who has both parts learns that they know the same.
pub struct Same;

impl<V> Lesson<u8, PassKnowledge<V>> for Same {
    ghost use Rattle.std.specs.Prelude.{◌≡◌};

    ghost fact = { λ v _. v.mine ≡ v.other };
}
