//! What a hand tells of its host.

ghost use Rattle.std.specs.Prelude.{◌≡◌, IfErr, IfNone, IfOk, IfSome, option_map};
ghost use Rattle.wh_host.specs.LiveOutputs.{SaysNoInstance, ShowsJournalOutput, ShowsOutput};
ghost use Rattle.wh_host.specs.ModuleExports.{CountsExports, HasNoExport, ShowsExport};
ghost use Rattle.wh_host.specs.Reporting.{ReportsHost, ReportsInstance, ReportsUsage, view_report, view_row, view_usage};
ghost use Rattle.wh_host.specs.Showing.{ShowsInstance};
ghost use Rattle.wh_host.specs.Telling.{CountsEnded, TellsChargesOf, TellsOf};
ghost use Rattle.wh_transcript.specs.Transcripts.{IsReplayable};

use crate::hand::Hand;
use std::alloc::Global;
use wh_host::{
    CallStatus, ExportedFunc, HostCounts, HostError, HostUsage, InstanceReport, ModuleId, Report,
    Transcript,
};
use wh_space_model::InstId;

impl Hand {
    /// Returns the status of the call at this place of the instance's journal, where the start is at 0, and the number
    /// of charges that it has taken; `None` if there is no such instance or call. Takes O(1), and allocates nothing.
    pub fn status(&self, id: InstId, at: u32) -> Option<(CallStatus, u64)>
        ensures tells { TellsOf self.now.host id at (option_map (λ told. told.0) result) }
        ensures charges { TellsChargesOf self.now.host id at
            (option_map (λ told. told.1) result) }
    {
        let Some(status) = self.host.call_status(id, at) else {
            return None;
        };
        let Some(charges) = self.host.charges(id, at as usize) else {
            return None;
        };
        Some((status, charges))
    }

    /// Returns how many calls of an instance have ended, its start among them; `None` if there is no such instance. Takes O(1),
    /// and allocates nothing.
    pub fn ended_calls(&self, id: InstId) -> Option<usize>
        ensures { CountsEnded self.now.host id result }
    {
        self.host.ended_calls(id)
    }

    /// Returns the bytes that an instance has put out so far, which are those that its journal gives, and which `release` would
    /// keep. Takes O(1), and allocates nothing.
    ///
    /// # Errors
    /// `NoInstance` if there is no such instance.
    pub fn output_of(&self, id: InstId) -> Result<&[u8], HostError>
        ensures shows { IfOk result (λ output. ShowsOutput self.now.host id output.now) }
        ensures journal { IfOk result (λ output. ShowsJournalOutput self.now.host id output.now) }
        ensures err { IfErr result (λ error. SaysNoInstance self.now.host id error) }
    {
        self.host.output_of(id)
    }

    /// Returns how many functions a module exports; `None` if there is no such module. It goes over the module's exports, and
    /// allocates nothing.
    pub fn export_count(&self, of: ModuleId) -> Option<usize>
        ensures { CountsExports self.now.host of.number result }
    {
        self.host.export_count(of)
    }

    /// Returns the function at place `at`, from 0 on, of those that a module exports, in the module's order; `None` if there is
    /// no such module or place. It goes over the module's exports and imports, and allocates nothing.
    pub fn export_at(&self, of: ModuleId, at: usize) -> Option<ExportedFunc<'_>>
        ensures some { IfSome result (λ x. ShowsExport self.now.host of.number at x.name.now
            (record { params = x.params.now; results = x.results.now })) }
        ensures none { IfNone result (HasNoExport self.now.host of.number at) }
    {
        self.host.export_at(of, at)
    }

    /// Returns how frames and slots are used and shared, and how many instances there are. Takes O(1), and allocates nothing.
    pub fn usage(&self) -> HostUsage
        ensures { ReportsUsage self.now.host (view_usage result) }
    {
        self.host.usage()
    }

    /// Returns what an instance has of frames and slots. Takes O(1), and allocates nothing.
    ///
    /// # Errors
    /// `NoInstance` if there is no such instance.
    pub fn usage_of(&self, id: InstId) -> Result<InstanceReport, HostError>
        ensures ok { IfOk result (λ row. ReportsInstance self.now.host id (view_row row)) }
        ensures err { IfErr result (λ error. SaysNoInstance self.now.host id error) }
    {
        self.host.usage_of(id)
    }

    /// Returns what was counted since the hand was created. Takes O(1), and allocates nothing.
    pub fn counts(&self) -> HostCounts
        ensures { result ≡ self.now.host.counts }
    {
        self.host.counts()
    }

    /// Reports how frames and slots are used and shared, and what each instance has of them, by number.
    ///
    /// # Errors
    /// `HostError::Memory` if the allocation for the instances fails.
    pub fn report(&self, alloc: Global) -> Result<Report, HostError>
        ensures ok { IfOk result (λ report. ReportsHost self.now.host (view_report report)) }
        ensures err { IfErr result (λ error. error ≡ HostError.Memory) }
    {
        self.host.report(alloc)
    }

    /// Returns the transcript of an instance: the bytes of its module, what its owner gave it, its calls, and what the
    /// first open one is blocked on. Its calls can be replayed.
    ///
    /// # Errors
    /// `NoInstance` if there is no such instance; `Memory` if an allocation fails.
    pub fn transcript(&self, alloc: Global, id: InstId) -> Result<Transcript, HostError>
        ensures shows { ShowsInstance self.now.host id result }
        ensures replays { IfOk result (λ shown. IsReplayable shown) }
    {
        self.host.transcript(alloc, id)
    }
}
