//! What a host shows of one of its instances.

ghost use Rattle.std.specs.Prelude.{◌≡◌, IfErr, IfOk};
ghost use Rattle.wh_params.specs.View.{view_params};
ghost use Rattle.wh_host.specs.LiveOutputs.{SaysNoInstance, ShowsJournalOutput, ShowsOutput};
ghost use Rattle.wh_host.specs.Showing.{RepresentsReached, ShowsInstance, given_with, shown_of};
ghost use Rattle.wh_transcript.specs.Transcripts.{IsReplayable};

use crate::error::HostError;
use crate::host::{Host, module_at};
use crate::parts::{InstanceEntry, StoredParams};
use std::alloc::{AllocError, Global};
use std::sync::Arc;
use wh_admit::{Params, Quota};
use wh_space_model::InstId;
use wh_transcript::Transcript;

/// Returns what the owner of an instance gave it, with these words as its input.
pub fn params_of(alloc: Global, given: StoredParams, inputs: &[u64]) -> Result<Params, AllocError>
    ensures { IfOk result (λ params. view_params params ≡ given_with given inputs.now) }
{
    let inputs = Vec::from_slice(alloc, inputs)?;
    Ok(Params {
        quota: Quota {
            shares: u64::from(given.shares),
            min_frames: u64::from(given.min),
            max_frames: u64::from(given.max),
        },
        fuel: given.fuel,
        base: given.base,
        salt: given.salt,
        inputs,
    })
}

// The transcript of an instance of the module with these bytes.
fn transcript_of(
    alloc: Global,
    entry: &InstanceEntry,
    bytes: &Arc<Vec<u8>>,
) -> Result<Transcript, AllocError>
    ensures { IfOk result (λ transcript.
        transcript ≡ shown_of entry.now bytes.now.value.items) }
{
    let tenant = &entry.tenant;
    let params = params_of(alloc, entry.given, tenant.inputs())?;
    let calls = tenant.journal().copies(alloc)?;
    let bytes = Arc::try_clone(bytes)?;
    Ok(Transcript::new(bytes, params, calls, entry.copied, tenant.waiting_for()))
}

impl Host {
    /// Returns an instance's transcript: the bytes of its module, what its owner gave it, its calls, how many of them were
    /// copied with it, and what the first open one waits for. Its calls replay where events alone have led to this host: no
    /// swap device gave other bytes than were written to it.
    ///
    /// # Errors
    /// `NoInstance`; `Memory` where room is refused.
    pub fn transcript(&self, alloc: Global, id: InstId) -> Result<Transcript, HostError>
        ensures shows { ShowsInstance self.now id result }
        ensures replays { RepresentsReached self.now → IfOk result (λ shown. IsReplayable shown) }
    {
        let Some(entry) = self.entries.get(id.place) else {
            return Err(HostError::NoInstance);
        };
        if !entry.has_number(id.number) {
            return Err(HostError::NoInstance);
        }
        let Some(module) = module_at(&self.modules, entry.module_place) else {
            return Err(HostError::NoInstance);
        };
        match transcript_of(alloc, entry, &module.bytes) {
            Ok(transcript) => Ok(transcript),
            Err(_) => Err(HostError::Memory),
        }
    }

    /// Returns the bytes that an instance has put out so far, which `release` would return now. Takes O(1), and allocates
    /// nothing.
    ///
    /// # Errors
    /// `NoInstance`.
    pub fn output_of(&self, id: InstId) -> Result<&[u8], HostError>
        ensures shows { IfOk result (λ output. ShowsOutput self.now id output.now) }
        // Where events alone have led to this host, they are what the instance's journal gives.
        ensures journal { IfOk result (λ output. ShowsJournalOutput self.now id output.now) }
        ensures err { IfErr result (λ error. SaysNoInstance self.now id error) }
    {
        let Some(entry) = self.entries.get(id.place) else {
            return Err(HostError::NoInstance);
        };
        if !entry.has_number(id.number) {
            return Err(HostError::NoInstance);
        }
        Ok(entry.tenant.output())
    }
}
