// What a desk copies out of a host for who asks.

ghost use Rattle.std.specs.Prelude.{◌≡◌, ◌<◌, ℕ, IfOk, Some};
ghost use Rattle.std.specs.String.{string_bytes};
ghost use Rattle.wh_host_model.specs.Host.Worlds.{World};
ghost use Rattle.wh_host.specs.Hosting.{IsHost};
ghost use Rattle.wh_host.specs.ModuleExports.{CountsExports, ShowsExport};
ghost use Rattle.wh_host.specs.Telling.{CountsEnded, TellsOf};
ghost use Rattle.wh_desk.specs.OwnCopies.{CopiesEnds, CopiesOutput, CopiesExports, type_of_export};

use crate::error::ExportsError;
use std::alloc::{AllocError, Global};
use wh_host::{CallStatus, ExportedFunc, Host, HostError, ModuleId};
use wh_model::ValType;
use wh_space_model::InstId;

/// A function that a module exports.
#[derive(Drop)]
pub struct DeskExport {
    /// Its name.
    pub name: String,
    /// The types of its parameters, in order.
    pub params: Vec<ValType>,
    /// The type of its result; none where it has none.
    pub results: Vec<ValType>,
}

/// Returns a copy of what an instance has put out so far: at most `most` bytes, from the one at place `from` on.
///
/// # Errors
/// `NoInstance`; `Memory` where room for these bytes is refused.
pub fn output_from(
    alloc: Global,
    host: &Host,
    id: InstId,
    from: usize,
    most: usize,
) -> Result<Vec<u8>, HostError>
    ensures { CopiesOutput host.now id from most result }
{
    let output = host.output_of(id)?;
    let start = from.min(output.len());
    let end = start + most.min(output.len() - start);
    let mut bytes = Vec::new(alloc);
    match bytes.extend_from_slice(&output[start..end]) {
        Ok(()) => Ok(bytes),
        Err(_) => Err(HostError::Memory),
    }
}

// The status of a call that has ended, at this place of the instance's journal.
fn ended_status(host: &Host, id: InstId, at: usize) -> CallStatus
    requires { (ended : ℕ) × CountsEnded host.now id (Some ended) × (at < ended) }
    ensures { TellsOf host.now id at (Some result) }
{
    host.invariant();
    let Some(status) = host.call_status(id, at as u32) else {
        unreachable!();
    };
    status
}

/// Returns how calls of an instance have ended: at most `most` of those that have, from place `from` of its journal on.
///
/// # Errors
/// `NoInstance`; `Memory` where room for these is refused.
pub fn ends(
    alloc: Global,
    host: &Host,
    id: InstId,
    from: usize,
    most: usize,
) -> Result<Vec<CallStatus>, HostError>
    ensures { CopiesEnds host.now id from most result }
{
    let Some(ended) = host.ended_calls(id) else {
        return Err(HostError::NoInstance);
    };
    let count = most.min(ended.saturating_sub(from));
    let mut statuses = Vec::new(alloc);
    for i in 0..count {
        let Ok(()) = statuses.push(ended_status(host, id, from + i)) else {
            return Err(HostError::Memory);
        };
    }
    Ok(statuses)
}

// A copy of what a host tells of an export.
fn export_from(alloc: Global, found: ExportedFunc<'_>) -> Result<DeskExport, AllocError>
    ensures name { IfOk result (λ x. string_bytes x.name ≡ found.entry.name.now) }
    ensures of { IfOk result (λ x. type_of_export x
        ≡ record { params = found.entry.params.now; results = found.entry.results.now }) }
{
    Ok(DeskExport {
        name: String::from_str(alloc, found.name)?,
        params: Vec::from_slice(alloc, found.params)?,
        results: Vec::from_slice(alloc, found.results)?,
    })
}

// A copy of the export at this place.
fn copied_export(
    alloc: Global,
    host: &Host,
    of: ModuleId,
    at: usize,
) -> Result<DeskExport, AllocError>
    requires { (count : ℕ) × CountsExports host.now of.number (Some count) × (at < count) }
    ensures { IfOk result (λ x. ShowsExport host.now of.number at (string_bytes x.name) (type_of_export x)) }
{
    host.invariant();
    let Some(found) = host.export_at(of, at) else {
        unreachable!();
    };
    export_from(alloc, found)
}

/// Returns the functions that a module exports, in order. It goes over its exports once for each.
///
/// # Errors
/// `NoModule`; `Memory` where room for these is refused.
pub fn exports(alloc: Global, host: &Host, of: ModuleId) -> Result<Vec<DeskExport>, ExportsError>
    ensures { CopiesExports host.now of.number result }
{
    let Some(count) = host.export_count(of) else {
        return Err(ExportsError::NoModule);
    };
    let mut all = Vec::new(alloc);
    for at in 0..count {
        let Ok(export) = copied_export(alloc, host, of, at) else {
            return Err(ExportsError::Memory);
        };
        let Ok(()) = all.push(export) else {
            return Err(ExportsError::Memory);
        };
    }
    Ok(all)
}
