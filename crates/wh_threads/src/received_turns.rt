// Turns that were received, and are still to be run.

ghost use Rattle.std.specs.Prelude.{◌≡◌, ◌-◌, ◌≤◌};

use std::marker::Model;
use wh_space_model::InstId;

/// Turns of one instance, one after the other, that a worker has received, and is still to run. None are made but where a message
/// is received, one less is left only where one is counted, and they are let go only where none is left: so what is counted is
/// what was dispatched.
pub struct ReceivedTurns {
    instance: InstId,
    // How many were received.
    received: u32,
    count: u32,
    quantum: u32,
}

impl Model for ReceivedTurns {
    ghost use Rattle.wh_threads.specs.Working.{ReceivedTurnsState};

    ghost Value = { ReceivedTurnsState };

    ghost view = { λ o. record { instance = o.instance; count = o.count; quantum = o.quantum } };
}

impl ReceivedTurns {
    // `count` turns of this instance, each of at most `quantum` charges.
    pub(crate) fn of(instance: InstId, count: u32, quantum: u32) -> ReceivedTurns
        ensures { result ≡ record { instance = instance; count = count; quantum = quantum } }
    {
        ReceivedTurns {
            instance,
            received: count,
            count,
            quantum,
        }
    }

    /// Returns the instance whose turns they are.
    pub fn instance(&self) -> InstId
        ensures { result ≡ self.now.instance }
    {
        self.instance
    }

    /// Returns the number of turns that are still to be run.
    pub fn count(&self) -> u32
        ensures { result ≡ self.now.count }
    {
        self.count
    }

    /// Returns the number of turns that were received at once: these, and those of them that have been run.
    pub fn received(&self) -> u32 {
        self.received
    }

    /// Returns the most charges that each turn may take.
    pub fn quantum(&self) -> u32
        ensures { result ≡ self.now.quantum }
    {
        self.quantum
    }

    // Counts `many` of them as run.
    pub(crate) fn spend(&mut self, many: u32)
        requires { many ≤ self.old.count }
        ensures { self.new ≡ record self.old { count = self.old.count - many } }
    {
        self.count -= many;
    }

    /// Drops turns that are all run.
    pub fn finish(self)
        requires { self.count ≡ 0 }
    {
        let ReceivedTurns {
            instance: _,
            received: _,
            count: _,
            quantum: _,
        } = self;
    }
}
