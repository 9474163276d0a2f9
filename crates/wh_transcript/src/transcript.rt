//! Transcripts.

ghost use Rattle.std.specs.Prelude.{◌≡◌};
ghost use Rattle.wh_params.specs.View.{view_params};

use std::marker::Model;
use std::sync::Arc;
use wh_admit::Params;
use wh_instance::Suspension;
use wh_journal::JournalCall;

/// An instance of a host as it was when it was asked for: the bytes of its module, what its owner gave it, its calls in
/// the order in which they were asked, the first of which is its start, how many of the first ones were copied with it,
/// and what the first open one is blocked on.
#[derive(Drop)]
pub struct Transcript {
    bytes: Arc<Vec<u8>>,
    params: Params,
    calls: Vec<JournalCall>,
    copied: usize,
    waiting_for: Option<Suspension>,
}

impl Model for Transcript {
    ghost use Rattle.wh_params.specs.View.{view_params as params_of};
    ghost use Rattle.wh_transcript.specs.Transcripts.{TranscriptState};

    ghost Value = { TranscriptState };

    ghost use Rattle.wh_transcript.specs.Stored.{stored_transcript};

    ghost coded = { stored_transcript };

    ghost view = { λ t. record {
      bytes = t.bytes.value.items;
      params = params_of t.params;
      calls = t.calls.items;
      copied = t.copied;
      waiting_for = t.waiting_for;
    } };
}

impl Transcript {
    /// Creates a transcript of these parts.
    pub fn new(
        bytes: Arc<Vec<u8>>,
        params: Params,
        calls: Vec<JournalCall>,
        copied: usize,
        waiting_for: Option<Suspension>,
    ) -> Transcript
        ensures { result ≡ record {
          bytes = bytes.value.items;
          params = view_params params;
          calls = calls.items;
          copied = copied;
          waiting_for = waiting_for;
        } }
    {
        Transcript {
            bytes,
            params,
            calls,
            copied,
            waiting_for,
        }
    }

    /// Returns the bytes of its module.
    pub fn bytes(&self) -> &[u8]
        ensures { result.now ≡ self.now.bytes }
    {
        &self.bytes
    }

    /// Returns what its owner gave it.
    pub fn params(&self) -> &Params
        ensures { view_params result.now ≡ self.now.params }
    {
        &self.params
    }

    /// Returns its calls in the order in which they were asked; the first is its start.
    pub fn calls(&self) -> &[JournalCall]
        ensures { result.now ≡ self.now.calls }
    {
        &self.calls
    }

    /// Returns the number of its first calls that were copied with it: they were asked of the instance that it is a
    /// copy of.
    pub fn copied(&self) -> usize
        ensures { result ≡ self.now.copied }
    {
        self.copied
    }

    /// Returns what its first open call is blocked on, if it is.
    pub fn waiting_for(&self) -> Option<Suspension>
        ensures { result ≡ self.now.waiting_for }
    {
        self.waiting_for
    }
}
