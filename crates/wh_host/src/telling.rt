//! What a host tells of one call.

ghost use Rattle.std.specs.Prelude.{◌≡◌};
ghost use Rattle.wh_host.specs.TicketsOut.{IsPresentCall};
ghost use Rattle.wh_host.specs.Telling.{CountsEnded, TellsChargesOf, TellsOf, charges_in_journal};

use crate::host::{Host, module_at};
use wh_instance::{CallStatus, HostInstance};
use wh_space_model::InstId;

// How many charges the call at this place of the journal has taken, where there is one.
fn charges_of(tenant: &HostInstance, at: usize) -> Option<u64>
    ensures { result ≡ charges_in_journal tenant.now.journal at }
{
    match tenant.journal().call(at) {
        Some(call) => Some(call.charges()),
        None => None,
    }
}

impl Host {
    /// Returns the status of the call at place `at` of the instance's journal, the start being at 0; `None` if there is
    /// no such instance or call. Takes O(1), and allocates nothing.
    pub fn call_status(&self, id: InstId, at: u32) -> Option<CallStatus>
        ensures { TellsOf self.now id at result }
    {
        let Some(entry) = self.entries.get(id.place) else {
            return None;
        };
        if !entry.has_number(id.number) {
            return None;
        }
        let Some(module) = module_at(&self.modules, entry.module_place) else {
            return None;
        };
        entry.tenant.call_status(&module.linked, at)
    }

    /// Returns the place in its journal of the instance's present call: how many of its calls have ended; 0 where there is no
    /// such instance.
    pub fn present_call(&self, id: InstId) -> usize
        ensures { IsPresentCall self.now id result }
    {
        let Some(entry) = self.entries.get(id.place) else {
            return 0;
        };
        if !entry.has_number(id.number) {
            return 0;
        }
        entry.tenant.present_call()
    }

    /// Returns how many calls of an instance have ended, its start among them; `None` where there is no such instance. Takes
    /// O(1), and allocates nothing.
    pub fn ended_calls(&self, id: InstId) -> Option<usize>
        ensures { CountsEnded self.now id result }
    {
        let Some(entry) = self.entries.get(id.place) else {
            return None;
        };
        if !entry.has_number(id.number) {
            return None;
        }
        Some(entry.tenant.present_call())
    }

    /// Returns the charges that the call at place `at` of the instance's journal took, the start being at 0; `None` where there
    /// is no such instance or call. It takes constant time and no memory.
    pub fn charges(&self, id: InstId, at: usize) -> Option<u64>
        ensures { TellsChargesOf self.now id at result }
    {
        let Some(entry) = self.entries.get(id.place) else {
            return None;
        };
        if !entry.has_number(id.number) {
            return None;
        }
        charges_of(&entry.tenant, at)
    }
}
