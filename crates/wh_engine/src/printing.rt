// How calls are said to be.

ghost use Rattle.std.specs.Bool.{MatchBool};
ghost use Rattle.std.specs.Prelude.{◌≡◌, ◌≢◌, Some, IfErr, OnOk, string_bytes, false};
ghost use Rattle.wh_replies.specs.View.{caller_of, status_of};
ghost use Rattle.wh_script_laws.specs.Printed as printed_spec;
ghost use Rattle.wh_script_model.specs.Drains.{open_status};
ghost use Rattle.wh_script_laws.specs.Following.{device_fault};
ghost use Rattle.wh_instance.specs.Tenancy.{suspension_of};
ghost use Rattle.wh_engine.specs.Draining.{AllRest, StopsPrinting};
ghost use Rattle.wh_engine.specs.Printing.{IsFoundAt, IsInvokedNow, IsReturnedSo, IsPrintedAs, IsStatusAt, PrintsAll, PrintsAllCalls, PrintsAllStarts, PrintsCallOf, PrintsOf, PrintsStartOf};

use crate::ending::{forget_calls, forget_instances, is_over};
use crate::fault::RunFault;
use crate::finding::place_of;
use crate::parts::{InvokeOutcome, Invoked, NamedInstance};
use crate::script_host::ScriptHost;
use std::alloc::AllocError;
use std::sync::ledger::Ledger;
use wh_cell::CellAgreements;
use wh_host::{CallStatus, CallValue, Host, Suspension};
use wh_replies::{Call, Caller, Reply, Status, signed_value, write_reply};
use wh_swap::SwapDev;

// A call that was said to be so, once its instance is released.
fn when_released(last_printed: Status) -> Status
    ensures { status_of result ≡ printed_spec.when_released (status_of last_printed) }
{
    match last_printed {
        Status::Fuel { charges } => Status::Released { charges },
        Status::Frame { charges, .. } => Status::Released { charges },
        Status::Queued => Status::Released { charges: 0 },
        status => status,
    }
}

// What is said of a call that has returned this; nothing, where the word isn't one of its type.
fn returned_so(value: Option<CallValue>, charges: u64) -> Option<Status>
    ensures { IsReturnedSo value charges result }
{
    let Some(value) = value else {
        return Some(Status::Done { charges });
    };
    let value = signed_value(value.of, value.word)?;
    Some(Status::Value { value, charges })
}

// What is said of a call of which the host tells this.
fn printed_of(told: CallStatus) -> Option<Status>
    ensures { IsPrintedAs told result }
{
    match told {
        CallStatus::Returned { value, charges } => returned_so(value, charges),
        CallStatus::Trapped { trap, charges } => Some(Status::Trap {
            trap: trap.number(),
            charges,
        }),
        CallStatus::Cancelled { charges } => Some(Status::Cancelled { charges }),
        CallStatus::Dead => Some(Status::Dead),
        CallStatus::Waiting => Some(Status::Queued),
        CallStatus::Present {
            waiting_for,
            charges,
        } => Some(waiting_so(waiting_for, charges)),
    }
}

// What is said of the present call of an instance, which is blocked on this.
fn waiting_so(waiting_for: Option<Suspension>, charges: u64) -> Status
    ensures { status_of result
        ≡ open_status false false (device_fault (suspension_of waiting_for)) charges }
{
    let Some(suspension) = waiting_for else {
        return Status::Fuel { charges };
    };
    match suspension {
        Suspension::Device(fault) => Status::Frame {
            fault: fault.number(),
            charges,
        },
        Suspension::Fuel | Suspension::Frame => Status::Fuel { charges },
    }
}

// How the call at a place of the journal of an instance is, which was last said to be so.
fn status_now(
    host: &Host,
    instance: &NamedInstance,
    place: u32,
    last_printed: Option<Status>,
) -> Option<Status>
    ensures { IsStatusAt host.now instance.now place last_printed result }
{
    if instance.is_released {
        return Some(when_released(last_printed?));
    }
    printed_of(host.call_status(instance.id, place)?)
}

// How the call at a place of the journal of the instance of a number is, which was last said to be so. An instance that isn't
// kept any more was released.
fn found_now(
    host: &Host,
    instances: &[NamedInstance],
    number: usize,
    place: u32,
    last_printed: Option<Status>,
) -> Option<Status>
    ensures { IsFoundAt host.now instances.now number place last_printed result }
{
    match place_of(instances, number) {
        Some(at) => status_now(host, &instances[at], place, last_printed),
        None => Some(when_released(last_printed?)),
    }
}

// Whether this was said last.
fn was_printed(last_printed: Option<Status>, status: Status) -> bool
    ensures { MatchBool result (last_printed ≡ Some status) (last_printed ≢ Some status) }
{
    match last_printed {
        Some(last) => last == status,
        None => false,
    }
}

// Appends the line of a call to a text, where it differs from the last one.
fn print_line(
    text: &mut String,
    who: Caller<'_>,
    last_printed: Option<Status>,
    status: Status,
) -> Result<(), AllocError>
    ensures { OnOk result (PrintsOf (caller_of who.entry) last_printed status (string_bytes text.old)
        (string_bytes text.new)) }
{
    if was_printed(last_printed, status) {
        return Ok(());
    }
    let call = Call { who, is: status };
    write_reply(text, Reply::Call { call })
}

// Says how the start of an instance is, if it has one.
fn print_start(
    host: &Host,
    instance: &mut NamedInstance,
    text: &mut String,
) -> Result<(), AllocError>
    ensures { OnOk result (PrintsStartOf host.now instance.old instance.new (string_bytes text.old)
        (string_bytes text.new)) }
{
    if !instance.has_start {
        return Ok(());
    }
    let Some(status) = status_now(host, instance, 0, instance.last_printed) else {
        return Ok(());
    };
    print_line(
        text,
        Caller::Start(&instance.name),
        instance.last_printed,
        status,
    )?;
    instance.last_printed = Some(status);
    Ok(())
}

// How the call of an `invoke` is.
fn invoked_now(host: &Host, instances: &[NamedInstance], invoked: Invoked) -> Option<Status>
    ensures { IsInvokedNow host.now instances.now invoked result }
{
    match invoked.outcome {
        InvokeOutcome::Rejected(fault) => Some(Status::Refused { fault }),
        InvokeOutcome::Accepted { instance, place } => {
            found_now(host, instances, instance, place, invoked.last_printed)
        }
    }
}

// Says how the call of an `invoke` is.
fn print_call(
    host: &Host,
    instances: &[NamedInstance],
    invoked: &mut Invoked,
    text: &mut String,
) -> Result<(), AllocError>
    ensures { OnOk result (PrintsCallOf host.now instances.now invoked.old invoked.new
        (string_bytes text.old) (string_bytes text.new)) }
{
    let Some(status) = invoked_now(host, instances, *invoked) else {
        return Ok(());
    };
    print_line(
        text,
        Caller::Call(invoked.number),
        invoked.last_printed,
        status,
    )?;
    invoked.last_printed = Some(status);
    Ok(())
}

impl<D: SwapDev, T: Ledger, C: Ledger, O: Ledger, E: Ledger, B: CellAgreements> ScriptHost<
    D,
    T,
    C,
    O,
    E,
    B,
> {
    /// Looks whether all calls have run, and appends the lines of a drain to `text`: for each start, by the numbers of instances,
    /// and then for each call, by the numbers of their `invoke`s, where its status differs from the one printed last. Forgets
    /// released instances and calls that have ended, since no line is printed of them again.
    ///
    /// # Errors
    /// `Memory` where a growth of memory was refused, and `Transcript` where a call can go on. A beginning of the lines may have
    /// been appended.
    pub fn print(&mut self, text: &mut String) -> Result<(), RunFault>
        ensures rests { OnOk result (AllRest self.old.host.host self.old.instances) }
        ensures says { OnOk result (PrintsAll self.old (string_bytes text.old) self.new
            (string_bytes text.new)) }
        ensures host { self.new.host ≡ self.old.host }
        ensures threads { self.new.lacked_threads ≡ self.old.lacked_threads }
        ensures err { IfErr result (StopsPrinting self.old.host.host) }
    {
        self.print_starts(text)?;
        let Ok(()) = self.print_calls(text) else {
            return Err(RunFault::Memory);
        };
        Ok(())
    }

    fn print_starts(&mut self, text: &mut String) -> Result<(), RunFault>
        ensures rests { OnOk result (AllRest self.old.host.host self.old.instances) }
        ensures says { OnOk result (PrintsAllStarts self.old (string_bytes text.old) self.new
            (string_bytes text.new)) }
        ensures host { self.new.host ≡ self.old.host }
        ensures threads { self.new.lacked_threads ≡ self.old.lacked_threads }
        ensures err { IfErr result (StopsPrinting self.old.host.host) }
    {
        let mut has_ended = false;
        for at in 0..self.instances.len() {
            let instance = &mut self.instances[at];
            if self.host.host().can_go_on(instance.id) {
                self.awake.add_any();
                return Err(RunFault::Transcript);
            }
            let Ok(()) = print_start(self.host.host(), instance, text) else {
                return Err(RunFault::Memory);
            };
            has_ended = has_ended | is_over(&self.instances[at]);
        }
        forget_instances(&mut self.instances, has_ended);
        Ok(())
    }

    fn print_calls(&mut self, text: &mut String) -> Result<(), AllocError>
        ensures says { OnOk result (PrintsAllCalls self.old (string_bytes text.old) self.new
            (string_bytes text.new)) }
        ensures host { self.new.host ≡ self.old.host }
        ensures threads { self.new.lacked_threads ≡ self.old.lacked_threads }
    {
        for at in 0..self.invoked.len() {
            let invoked = &mut self.invoked[at];
            print_call(self.host.host(), &self.instances, invoked, text)?;
        }
        forget_calls(&mut self.invoked);
        Ok(())
    }
}
