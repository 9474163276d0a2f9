//! What the owner of an instance is told of one of its calls.

ghost use Rattle.std.specs.Prelude.{◌≡◌, Some, slice_get};
ghost use Rattle.wh_model.specs.Execution.Store.{Instance, own};
ghost use Rattle.wh_model.specs.Format.Syntax.{Body, FuncType as ModelType};
ghost use Rattle.wh_model.specs.Validity.Typing.{Context};
ghost use Rattle.wh_instance.specs.Told.{IsEntryTold, IsReturnedAs, TellsCall};
ghost use Rattle.wh_machine.specs.MachineRuns.{IsInstanceOf};

use crate::host_instance::HostInstance;
use crate::stages::{CallStatus, CallValue, Suspension};
use wh_call::own_type;
use wh_imports::Linked;
use wh_journal::{CallEnd, JournalCall};
use wh_model::ValType;

fn first_type(types: &[ValType]) -> Option<ValType>
    ensures { result ≡ slice_get types.now 0 }
{
    if types.is_empty() {
        return None;
    }
    Some(types[0])
}

// The type of what this function returns, if it returns a value.
fn result_type(linked: &Linked, func: u32) -> Option<ValType>
    ensures { (c : Context) (inst : Instance) (type : ModelType) (body : Body)
        → IsInstanceOf linked.now c inst
        → slice_get inst.funcs func ≡ Some (own type body) → result ≡ slice_get type.results 0 }
{
    match own_type(linked, func) {
        Some(func_type) => first_type(func_type.results.as_slice()),
        None => None,
    }
}

// The value that this word is, which a call of this function has returned.
fn value_of(linked: &Linked, func: Option<u32>, word: Option<u64>) -> Option<CallValue>
    ensures { IsReturnedAs linked.now func word result }
{
    let Some(func) = func else {
        return None;
    };
    let Some(word) = word else {
        return None;
    };
    match result_type(linked, func) {
        Some(of) => Some(CallValue { of, word }),
        None => None,
    }
}

// How far a call is that waits behind an open one, or doesn't, where the present call waits for this.
fn status_of(
    linked: &Linked,
    call: &JournalCall,
    waits: bool,
    waiting_for: Option<Suspension>,
) -> CallStatus
    ensures { IsEntryTold linked.now call.now waits waiting_for result }
{
    let charges = call.charges();
    match call.end() {
        CallEnd::Open if waits => CallStatus::Waiting,
        CallEnd::Open => CallStatus::Present {
            waiting_for,
            charges,
        },
        CallEnd::Returned(word) => CallStatus::Returned {
            value: value_of(linked, call.func(), word),
            charges,
        },
        CallEnd::Trapped(trap) => CallStatus::Trapped { trap, charges },
        CallEnd::Cancelled => CallStatus::Cancelled { charges },
        CallEnd::Dead => CallStatus::Dead,
    }
}

impl HostInstance {
    /// Returns the status of the call at this place of its journal, where the start is at 0; `None` if there is no such
    /// call. Takes O(1), and allocates nothing.
    pub fn call_status(&self, linked: &Linked, at: u32) -> Option<CallStatus>
        ensures { TellsCall linked.now self.now at result }
    {
        let at = at as usize;
        match self.journal.call(at) {
            Some(call) => {
                let waits = at > self.journal.ended_len();
                Some(status_of(linked, call, waits, self.waiting_for))
            }
            None => None,
        }
    }
}
