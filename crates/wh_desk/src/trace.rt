// What contracts see of all that a desk has replied.

use crate::principal::Principal;
use crate::request::DeskReply;
use std::collections::LinkedList;
use wh_cell::AgreedHost;
use wh_host::{ModuleId, Params, Quota};
use wh_space_model::InstId;
use wh_threads::AgreedValue;

/// Is what was asked, as a trace has it. It is a value of contracts alone: none is made.
pub enum Question {
    Load {
        bytes: LinkedList<u8>,
    },
    Unload {
        of: ModuleId,
    },
    Admit {
        of: ModuleId,
        params: Params,
    },
    Fork {
        id: InstId,
        quota: Quota,
    },
    Invoke {
        id: InstId,
        name: LinkedList<u8>,
        given: LinkedList<i128>,
        fuel: u64,
    },
    InvokeAt {
        id: InstId,
        at: usize,
        given: LinkedList<i128>,
        fuel: u64,
    },
    Refuel {
        id: InstId,
        fuel: u64,
    },
    Cancel {
        id: InstId,
    },
    Retry {
        id: InstId,
    },
    Release {
        id: InstId,
    },
    BeginEpoch,
    Status {
        id: InstId,
        at: u32,
    },
    Report,
    Usage,
    UsageOf {
        id: InstId,
    },
    Transcript {
        id: InstId,
    },
    Output {
        id: InstId,
        from: usize,
        most: usize,
    },
    Ends {
        id: InstId,
        from: usize,
        most: usize,
    },
    Exports {
        of: ModuleId,
    },
    Read {
        id: InstId,
        at: u64,
        length: usize,
    },
}

/// Is one reply of a desk: who asked, what was asked, what was replied, and the host and its device as they were then and as they
/// were left. It is a value of contracts alone: none is made.
pub struct TraceEntry<D> {
    pub who: Principal,
    pub question: Question,
    pub reply: DeskReply,
    pub at: AgreedHost<D>,
    pub left: AgreedHost<D>,
}

/// Is all that a desk has replied, the last reply first, and the host with which it began. It is a value of contracts alone: none
/// is made.
pub struct Trace<D> {
    pub first: AgreedHost<D>,
    pub entries: LinkedList<TraceEntry<D>>,
}

impl<D> AgreedValue for Trace<D> {
    ghost use Rattle.wh_desk.specs.Tracing.{no_trace};

    ghost nothing = { no_trace };
}
