// What a desk is asked, and what it replies.

use crate::copying::DeskExport;
use crate::error::{DeskReadError, ExportsError};
use std::alloc::Global;
use wh_host::{
    AdmitError, CallStatus, ForkError, HostCounts, HostError, HostUsage, InstanceReport,
    ModuleError, ModuleId, Params, Quota, Report, Transcript, UnloadError,
};
use wh_space_model::InstId;

/// Is asked of a desk.
#[derive(Drop)]
pub enum DeskRequest<'a> {
    /// Asks for the module that these bytes spell to be kept.
    Load {
        bytes: &'a [u8],
    },
    /// Asks for a module to be let go that no instance is of.
    Unload {
        of: ModuleId,
    },
    /// Asks for an instance of a module to be admitted, which is whoever's asks for it.
    Admit {
        of: ModuleId,
        params: Params,
    },
    /// Asks for an instance without an open call to be copied, with a quota of its own. The copy is whose the instance is, whoever
    /// asks.
    Fork {
        id: InstId,
        quota: Quota,
    },
    /// Asks for a call of the function that an instance's module exports as `name`, with these arguments and as many charges at
    /// most.
    Invoke {
        id: InstId,
        name: &'a str,
        given: &'a [i128],
        fuel: u64,
    },
    /// Asks for a call as `Invoke` does, of the function at place `at`, from 0 on, of those that an instance's module exports.
    InvokeAt {
        id: InstId,
        at: usize,
        given: &'a [i128],
        fuel: u64,
    },
    /// Asks for `fuel` charges to be added to an instance's present call.
    Refuel {
        id: InstId,
        fuel: u64,
    },
    /// Asks for an instance's present call to be cancelled.
    Cancel {
        id: InstId,
    },
    /// Asks for an instance's present call to be tried again after a fault of the device.
    Retry {
        id: InstId,
    },
    /// Asks for an instance to be released.
    Release {
        id: InstId,
    },
    /// Asks for a new epoch to begin. The operator alone may.
    BeginEpoch,
    /// Asks for the status of the call at place `at` of an instance's journal, the start being at 0.
    Status {
        id: InstId,
        at: u32,
    },
    /// Asks for the report of the whole host. The operator alone may.
    Report,
    /// Asks how the frames, slots and pages of the host are used, and what it has counted. The operator alone may.
    Usage,
    /// Asks what an instance has of them.
    UsageOf {
        id: InstId,
    },
    /// Asks for an instance's transcript.
    Transcript {
        id: InstId,
    },
    /// Asks for what an instance has put out so far: at most `most` bytes, from the one at place `from` on, the first being at 0.
    Output {
        id: InstId,
        from: usize,
        most: usize,
    },
    /// Asks how calls of an instance have ended: at most `most` of those that have, from place `from` of its journal on, the start
    /// being at 0.
    Ends {
        id: InstId,
        from: usize,
        most: usize,
    },
    /// Asks for the functions that a module exports. A tenant may ask of a module of which it may have instances.
    Exports {
        of: ModuleId,
    },
    /// Asks for `length` bytes of an instance's memory, from the one at address `at` on, as the instance sees them now; 65536 at
    /// most.
    Read {
        id: InstId,
        at: u64,
        length: usize,
    },
}

/// Is what a desk replies.
#[derive(Drop)]
pub enum DeskReply {
    /// To `Load`: the module's number, or why it isn't kept.
    Loaded(Result<ModuleId, ModuleError>),
    /// To `Unload`: that it is gone, or why it isn't.
    Unloaded(Result<(), UnloadError>),
    /// To `Admit`: the instance, or why it isn't admitted.
    Admitted(Result<InstId, AdmitError>),
    /// To `Fork`: the copy, or why there is none.
    Forked(Result<InstId, ForkError>),
    /// To `Invoke` and `InvokeAt`: the call's place in the journal, or why it isn't taken.
    Invoked(Result<u32, HostError>),
    /// To `Refuel`, `Cancel` and `Retry`: that it is done, or why it isn't.
    Done(Result<(), HostError>),
    /// To `Release`: what the instance has written, or why it isn't released.
    Released(Result<Vec<u8>, HostError>),
    /// To `BeginEpoch`: one has begun.
    Begun,
    /// To `Status`: how far the call is, if it is there.
    Status(Option<CallStatus>),
    /// To `Report`: how frames, slots and pages are used.
    Report(Result<Report, HostError>),
    /// To `Usage`: how they are used, and what was counted since the host was created.
    Usage(HostUsage, HostCounts),
    /// To `UsageOf`: what was promised to the instance, how many frames are charged to it, and how many of its pages are swapped.
    UsageOf(Result<InstanceReport, HostError>),
    /// To `Transcript`: what was asked of the instance, and its calls.
    Transcript(Result<Transcript, HostError>),
    /// To `Output`: the bytes, in order; none from the end on.
    Output(Result<Vec<u8>, HostError>),
    /// To `Ends`: how far each of these calls is, in order.
    Ends(Result<Vec<CallStatus>, HostError>),
    /// To `Exports`: all that the module exports, in order.
    Exports(Result<Vec<DeskExport>, ExportsError>),
    /// To `Read`: the bytes, in order, or why they aren't read.
    Read(Result<Vec<u8>, DeskReadError>),
    /// To what the operator alone may ask: nothing was done.
    NotAllowed,
}
