//! Calls that the owner of an instance asks for.

ghost use Rattle.std.specs.Prelude.{◌≡◌, ◌<◌, OnOk, OnErr, IfOk, IfErr};
ghost use Rattle.wh_host_model.specs.Owners.{most_calls};
ghost use Rattle.wh_instance.specs.CallsByName.{CanTake};
ghost use Rattle.wh_instance.specs.Invoked.{IsSomeTenant, open_in, calls_in_journal, HasCallRoom, LacksCallRoom, MayTake, AddsCall, InvokesTenant, RefusesInvoke};

use crate::error::InvokeError;
use crate::host_instance::HostInstance;
use crate::{own_export, takes, words_of};
use std::alloc::{AllocError, Global};
use wh_imports::Linked;
use wh_journal::JournalCall;

/// How many calls of an instance may be open, its start not counted.
pub const MOST_OPEN_CALLS: usize = 1024;

/// How many calls a journal may have, the start counted.
pub const MOST_CALLS: usize = 65536;

impl HostInstance {
    // How many calls are open, the start not counted.
    fn open_calls(&self) -> usize
        ensures { result ≡ open_in self.now }
    {
        let start = usize::from(self.journal.ended_len() == 0);
        self.journal.open_len().saturating_sub(start)
    }

    // Whether the instance can take one more call.
    fn check_room(&self) -> Result<(), InvokeError>
        ensures ok { OnOk result (HasCallRoom self.now) }
        ensures err { IfErr result (LacksCallRoom self.now) }
    {
        if self.open_calls() >= MOST_OPEN_CALLS {
            return Err(InvokeError::QueueFull);
        }
        if self.dead {
            return Err(InvokeError::Dead);
        }
        if self.journal.len() >= MOST_CALLS {
            return Err(InvokeError::JournalFull);
        }
        Ok(())
    }

    // The function that a call is of, if the instance can take it.
    fn check_call(&self, linked: &Linked, name: &str, given: &[i128]) -> Result<u32, InvokeError>
        ensures ok { IfOk result (MayTake linked.now self.now name.now given.now) }
        ensures err { IfErr result (RefusesInvoke linked.now self.now name.now given.now) }
    {
        let Some(func) = own_export(linked, name) else {
            return Err(InvokeError::NoExport);
        };
        if !takes(linked, func, given) {
            return Err(InvokeError::Arguments);
        }
        match self.check_room() {
            Ok(()) => Ok(func),
            Err(error) => Err(error),
        }
    }

    // Puts a call of this function after the others: its place in the journal.
    fn add_call(
        &mut self,
        alloc: Global,
        linked: &Linked,
        func: u32,
        given: &[i128],
        fuel: u64,
    ) -> Result<u32, AllocError>
        requires can { CanTake linked.now func given.now }
        requires few { calls_in_journal self.old < most_calls }
        ensures ok { IfOk result
            (λ at. AddsCall linked.now self.old func given.now fuel at self.new) }
        ensures err { OnErr result (self.new ≡ self.old) }
    {
        let words = words_of(alloc, linked, func, given)?;
        let given = Vec::from_slice(alloc, given)?;
        let at = self.journal.len() as u32;
        self.journal
            .push(JournalCall::new(Some(func), given, words, fuel))?;
        Ok(at)
    }

    /// Queues a call of the function that the module exports by this name, with these arguments and `fuel` charges;
    /// returns its place in the journal, where the start is 0. Turns run it, after the open calls.
    ///
    /// An argument is a number, signed or unsigned, in the bits of its type.
    ///
    /// # Errors
    /// The first fault, in the order of their numbers. The instance is as it was then.
    pub fn invoke(
        &mut self,
        alloc: Global,
        linked: &Linked,
        name: &str,
        given: &[i128],
        fuel: u64,
    ) -> Result<u32, InvokeError>
        requires { IsSomeTenant linked.now self.old }
        ensures ok { IfOk result
            (λ at. InvokesTenant linked.now self.old name.now given.now fuel at self.new) }
        ensures err { IfErr result
            (λ e. RefusesInvoke linked.now self.old name.now given.now e × (self.new ≡ self.old)) }
    {
        let func = match self.check_call(linked, name, given) {
            Ok(func) => func,
            Err(error) => return Err(error),
        };
        match self.add_call(alloc, linked, func, given, fuel) {
            Ok(at) => Ok(at),
            Err(_) => Err(InvokeError::Memory),
        }
    }
}
