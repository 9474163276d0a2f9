//! What a service does with the bytes of its connections.

ghost use Rattle.std.specs.Prelude.{◌≡◌, ℕ, Bool, List, []};
ghost use Rattle.wh_multiplex.specs.Multiplexing.{IsNewConnection, IsServiceTurn};

/// What stands behind all connections: it is handed what comes on each and gives what is to be sent on it. `C` is what it keeps
/// of one connection.
///
/// Contracts see by `handed` and `given` which bytes a connection has been handed and has given since it was opened, and by
/// `takes` what the service did with them.
pub trait ConnectionService<C> {
    // the connection is one that this service opens
    ghost opens: { Self → C → Type 0 };

    // from the first state, the connection is handed the first bytes, gives the second, is done or not, and leaves the second state
    ghost takes: { Self → C → List ℕ → List ℕ → Bool → Self → C → Type 0 };

    // all bytes that the connection was handed
    ghost handed: { C → List ℕ };

    // all bytes that the connection gave
    ghost given: { C → List ℕ };

    /// Returns a connection that was just opened.
    fn open(&self) -> C
        ensures { IsNewConnection opens handed given self.now result };

    /// Hands bytes to a connection, which puts what is to be sent into `answer`. Returns whether it is done: whether it is to be
    /// closed after that. Where memory lacks it is done. No bytes are handed where a connection only may have more to give.
    fn take(&mut self, connection: &mut C, bytes: &[u8], answer: &mut Vec<u8>) -> bool
        requires { answer.old.items ≡ [] }
        ensures { IsServiceTurn takes handed given self.old connection.old bytes.now answer.new.items result
            self.new connection.new };
}
