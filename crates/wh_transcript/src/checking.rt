//! Whether a transcript is of what was asked.

ghost use Rattle.std.specs.Bool.{MatchBool};
ghost use Rattle.std.specs.List.{AllZip};
ghost use Rattle.std.specs.Prelude.{◌≡◌, OnErr, OnOk, MatchOption, length};
ghost use Rattle.wh_params.specs.View.{view_params};
ghost use Rattle.wh_transcript.specs.RequestedCalls.{EndsAsSaid, IsCallAsked, IsOfRequests};

use crate::requests::{Ending, RequestedCall, Requests};
use crate::transcript::Transcript;
use thiserror::Error;
use wh_admit::Params;
use wh_journal::JournalCall;

/// Where a transcript differs from what was asked.
#[derive(Clone, Copy, Debug, PartialEq, Eq, Error)]
pub enum TranscriptFault {
    /// It is of a module with other bytes.
    #[error("another module")]
    Bytes,
    /// The instance was given something else.
    #[error("the instance was given something else")]
    Params,
    /// It has more calls, or fewer.
    #[error("another number of calls")]
    Count,
    /// A call is another one, or has ended in another way.
    #[error("another call at place {at}")]
    Call {
        /// The place of the first such call, where the start is 0.
        at: usize,
    },
}

// Whether a call has ended so, where that was said.
fn ends_as_said(ending: Option<Ending>, call: &JournalCall) -> bool
    ensures { MatchBool result (EndsAsSaid ending call.now) (¬ (EndsAsSaid ending call.now)) }
{
    match ending {
        None => true,
        Some(ending) => {
            call.pieces() == ending.pieces
                && call.charges() == ending.charges
                && call.end() == ending.end
        }
    }
}

// Whether it is a call of this function.
fn has_func(call: &JournalCall, func: Option<u32>) -> bool
    ensures { MatchBool result (call.now.func ≡ func) (¬ (call.now.func ≡ func)) }
{
    call.func() == func
}

// Whether it is the call that was asked for.
fn is_call_asked(requested: &RequestedCall, call: &JournalCall) -> bool
    ensures { MatchBool result
        (IsCallAsked requested.now call.now) (¬ (IsCallAsked requested.now call.now)) }
{
    if !has_func(call, requested.func) {
        return false;
    }
    if call.given() != requested.given.as_slice() {
        return false;
    }
    if call.fuel() != requested.fuel {
        return false;
    }
    ends_as_said(requested.ending, call)
}

// Whether these are the same.
fn are_same(params: &Params, others: &Params) -> bool
    ensures { MatchBool result
        (view_params params.now ≡ view_params others.now)
        (¬ (view_params params.now ≡ view_params others.now)) }
{
    params.quota == others.quota
        && params.fuel == others.fuel
        && params.base == others.base
        && params.salt == others.salt
        && params.inputs.as_slice() == others.inputs.as_slice()
}

// The place of the first call that isn't the one that was asked for, if there is one.
fn first_other(requested: &[RequestedCall], calls: &[JournalCall]) -> Option<usize>
    requires { length calls.now ≡ length requested.now }
    ensures { MatchOption result
        (AllZip IsCallAsked requested.now calls.now)
        (λ at. ¬ (AllZip IsCallAsked requested.now calls.now)) }
{
    for at in 0..requested.len() {
        if !is_call_asked(&requested[at], &calls[at]) {
            return Some(at);
        }
    }
    None
}

/// Checks that a transcript is of these requests: the same module, given the same, and as many calls, each of the same
/// function with the same arguments and the same fuel in all, and ended as was said, if that was said.
///
/// # Errors
/// The first of the faults that applies, in the order of their declaration.
pub fn check_transcript(requests: &Requests, transcript: &Transcript) -> Result<(), TranscriptFault>
    ensures ok { OnOk result (IsOfRequests requests.now transcript.now) }
    ensures err { OnErr result (¬ (IsOfRequests requests.now transcript.now)) }
{
    if transcript.bytes() != requests.bytes.as_slice() {
        return Err(TranscriptFault::Bytes);
    }
    if !are_same(transcript.params(), &requests.params) {
        return Err(TranscriptFault::Params);
    }
    let requested = requests.calls.as_slice();
    let calls = transcript.calls();
    if calls.len() != requested.len() {
        return Err(TranscriptFault::Count);
    }
    match first_other(requested, calls) {
        None => Ok(()),
        Some(at) => Err(TranscriptFault::Call { at }),
    }
}
