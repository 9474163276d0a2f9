//! The report of a host.

ghost use Rattle.std.specs.Prelude.{◌≡◌, ◌≤◌, IfErr, IfOk, map};
ghost use Rattle.std.specs.List.{All};
ghost use Rattle.wh_space_model.specs.Sound.{IsSound};
ghost use Rattle.wh_host.specs.LiveOutputs.{SaysNoInstance};
ghost use Rattle.wh_host.specs.Reporting.{ReportsHost, ReportsInstance, ReportsUsage, usage_with, view_report, view_row, view_usage};
ghost use Rattle.wh_host.specs.InstanceRefs.{CanBeShown, row_by, rows_by};

use crate::error::HostError;
use crate::host::Host;
use crate::instance_refs::ref_at;
use crate::parts::InstanceEntry;
use crate::report::{HostUsage, InstanceReport, Report};
use slab::Slab;
use std::alloc::{AllocError, Global};
use wh_space::Memory;
use wh_space_model::InstId;

// What is reported of who has this place.
fn row_of(memory: &Memory, instance_ref: InstId, entry: &InstanceEntry) -> InstanceReport
    requires { entry.now.given.shares ≤ 1000000 }
    ensures { view_row result ≡ row_by memory.now instance_ref entry.now }
{
    let (charged, active) = memory.charged_at(instance_ref.place);
    let given = entry.given;
    InstanceReport {
        number: instance_ref.number,
        place: instance_ref.place,
        shares: given.shares,
        min: given.min,
        max: given.max,
        charged,
        active,
        swapped: memory.swapped_at(instance_ref.place),
    }
}

// What is reported of these instances.
fn all_rows(
    alloc: Global,
    memory: &Memory,
    entries: &Slab<InstanceEntry>,
    instance_refs: &[InstId],
) -> Result<Vec<InstanceReport>, AllocError>
    requires { All (CanBeShown entries.now.slots) instance_refs.now }
    ensures { IfOk result (λ rows.
        map view_row rows.items ≡ rows_by memory.now entries.now.slots instance_refs.now) }
{
    let mut rows = Vec::with_capacity(alloc, instance_refs.len())?;
    for at in 0..instance_refs.len() {
        let instance_ref = ref_at(instance_refs, at);
        if let Some(entry) = entries.get(instance_ref.place) {
            rows.push(row_of(memory, instance_ref, entry))?;
        }
    }
    Ok(rows)
}

// How the memory of so many instances is used.
fn usage_over(memory: &Memory, instances: usize) -> HostUsage
    requires { IsSound memory.now }
    ensures { view_usage result ≡ usage_with memory.now instances }
{
    let slots = memory.slots();
    let (shared_frames, sharers) = memory.sharing();
    HostUsage {
        frames: memory.frames(),
        used_frames: memory.used(),
        slots,
        used_slots: slots - memory.vacant_slots(),
        shared_frames,
        sharers,
        tax: memory.tax(),
        instances,
    }
}

impl Host {
    // The report, or no memory for it.
    fn make_report(&self, alloc: Global) -> Result<Report, AllocError>
        ensures { IfOk result (λ report. ReportsHost self.now (view_report report)) }
    {
        self.memory.invariant();
        let instance_refs = self.instance_refs(alloc)?;
        let rows = all_rows(alloc, &self.memory, &self.entries, &instance_refs)?;
        Ok(Report {
            usage: usage_over(&self.memory, self.live),
            instances: rows,
        })
    }

    /// Returns how frames and slots are used and shared, and how many instances there are. Takes O(1), and allocates nothing.
    pub fn usage(&self) -> HostUsage
        ensures { ReportsUsage self.now (view_usage result) }
    {
        self.memory.invariant();
        usage_over(&self.memory, self.live)
    }

    /// Returns what the report says of an instance. Takes O(1), and allocates nothing.
    ///
    /// # Errors
    /// `NoInstance`.
    pub fn usage_of(&self, id: InstId) -> Result<InstanceReport, HostError>
        ensures ok { IfOk result (λ row. ReportsInstance self.now id (view_row row)) }
        ensures err { IfErr result (λ error. SaysNoInstance self.now id error) }
    {
        let Some(entry) = self.entries.get(id.place) else {
            return Err(HostError::NoInstance);
        };
        if !entry.has_number(id.number) {
            return Err(HostError::NoInstance);
        }
        Ok(row_of(&self.memory, id, entry))
    }

    /// Returns the report: how frames and slots are used and shared, and of each instance by number its parameters, how many
    /// frames are charged to it, on how many of these a page was touched, and how many of its pages are swapped. A frame that
    /// many pages share is charged to the first of them, by number and then by page. Each instance takes O(1), but for
    /// their order.
    ///
    /// # Errors
    /// `Memory` where room for the instances is refused.
    pub fn report(&self, alloc: Global) -> Result<Report, HostError>
        ensures ok { IfOk result (λ report. ReportsHost self.now (view_report report)) }
        ensures err { IfErr result (λ error. error ≡ HostError.Memory) }
    {
        match self.make_report(alloc) {
            Ok(report) => Ok(report),
            Err(_) => Err(HostError::Memory),
        }
    }
}
