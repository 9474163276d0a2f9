//! What a host reads of an instance.

ghost use Rattle.std.specs.Prelude.{◌≡◌};

use crate::host_instance::HostInstance;
use crate::stages::Suspension;
use wh_journal::Journal;

impl HostInstance {
    /// Returns its journal.
    pub fn journal(&self) -> &Journal
        ensures { result.now ≡ self.now.journal }
    {
        &self.journal
    }

    /// Returns what its present call is blocked on, if it is.
    pub fn waiting_for(&self) -> Option<Suspension>
        ensures { result ≡ self.now.waiting_for }
    {
        self.waiting_for
    }

    /// Returns the words that the host function `input` reads for it.
    pub fn inputs(&self) -> &[u64]
        ensures { result.now ≡ self.now.store.inputs.items }
    {
        &self.store.inputs
    }

    /// Tells whether its start has trapped or was cancelled.
    pub fn is_dead(&self) -> bool
        ensures { result ≡ self.now.dead }
    {
        self.dead
    }
}
