//! What an instance begins with.

ghost use Rattle.std.specs.Prelude.{◌≡◌, ◌≢◌, ◌↔◌, IsTrue, OnOk, IfOk, IfErr};
ghost use Rattle.wh_syntax.specs.View.{view_module};
ghost use Rattle.wh_initial.specs.Given.{view_parameters};
ghost use Rattle.wh_initial.specs.InWords.{AllFit, IsPrepared, IsBounded, BeginsInWords, RefusesInWords};
ghost use Rattle.wh_initial.specs.InBasis.{words_of_basis, HasWords, HasBounds, RefusesBasis};
ghost use Rattle.wh_initial.specs.Begins.{Instantiates, RefusesInstance};

use crate::basis::Basis;
use crate::error::InstantiateError;
use crate::globals::first_globals;
use crate::outcome::Instantiated;
use crate::parameters::Parameters;
use crate::segments::{elements_fit, segment_places, segments_fit};
use crate::sizes::{first_entries, first_pages, last_pages};
use crate::table::first_table;
use std::alloc::Global;
use wh_control::Store;
use wh_imports::Linked;
use wh_model::{HostGlobal, OUTPUT_ROOM, WASM_PAGE};
use wh_syntax::Module;

/// Whether all segments of a module end within its table and its memory.
fn all_fit(basis: &Basis<'_>) -> bool
    requires { HasWords basis.now }
    ensures { IsTrue result ↔ AllFit basis.now.module.now (words_of_basis basis.now) }
{
    let entries = u64::from(first_entries(&basis.module.tables));
    let bytes = u64::from(first_pages(&basis.module.memories)) * WASM_PAGE as u64;
    elements_fit(basis, entries) && segments_fit(basis, bytes)
}

/// Looks at the first size of the memory, and at the bounds of all segments. It takes no memory.
///
/// # Errors
/// As `instantiate`'s, but `Memory`.
fn check_bounds(basis: &Basis<'_>) -> Result<(), InstantiateError>
    requires { HasWords basis.now }
    ensures ok { OnOk result (HasBounds basis.now) }
    ensures err { IfErr result (RefusesBasis basis.now) }
    ensures no_memory { IfErr result (λ e. e ≢ InstantiateError.Memory) }
{
    if first_pages(&basis.module.memories) > basis.parameters.page_limit {
        return Err(InstantiateError::MemoryMin);
    }
    if !all_fit(basis) {
        return Err(InstantiateError::SegmentBounds);
    }
    Ok(())
}

/// What an instance of a module begins with, where imported globals are these ones of the host, and all bounds were
/// looked at.
///
/// # Errors
/// `Memory` where a growth was refused.
fn make(
    alloc: Global,
    decoded: &Module,
    imported: &[HostGlobal],
    parameters: Parameters,
) -> Result<Instantiated, InstantiateError>
    requires prepared { IsPrepared decoded.now imported.now (view_parameters parameters) }
    requires in_bounds { IsBounded decoded.now imported.now (view_parameters parameters) }
    ensures ok { IfOk result (BeginsInWords decoded.now imported.now (view_parameters parameters)) }
    ensures inputs { IfOk result (λ i. i.store.inputs ≡ parameters.inputs) }
    ensures err { IfErr result (λ e. e ≡ InstantiateError.Memory) }
{
    let basis = &Basis {
        module: decoded,
        imported,
        parameters: &parameters,
    };
    let globals = first_globals(alloc, basis)?;
    let places = segment_places(alloc, basis)?;
    let table = first_table(alloc, basis, first_entries(&decoded.tables))?;
    let output = Vec::with_capacity(alloc, OUTPUT_ROOM)?;
    let pages = first_pages(&decoded.memories);
    let page_limit = last_pages(&decoded.memories, parameters.page_limit);
    Ok(Instantiated {
        store: Store {
            globals,
            table,
            inputs: parameters.inputs,
            output,
        },
        pages,
        page_limit,
        places,
    })
}

/// What an instance of a module begins with, where imported globals are these ones of the host.
///
/// # Errors
/// As `instantiate`'s.
fn begin(
    alloc: Global,
    decoded: &Module,
    imported: &[HostGlobal],
    parameters: Parameters,
) -> Result<Instantiated, InstantiateError>
    requires { IsPrepared decoded.now imported.now (view_parameters parameters) }
    ensures ok { IfOk result (BeginsInWords decoded.now imported.now (view_parameters parameters)) }
    ensures inputs { IfOk result (λ i. i.store.inputs ≡ parameters.inputs) }
    ensures err { IfErr result
        (RefusesInWords decoded.now imported.now (view_parameters parameters)) }
{
    check_bounds(&Basis {
        module: decoded,
        imported,
        parameters: &parameters,
    })?;
    make(alloc, decoded, imported, parameters)
}

/// Instantiates a module with what its owner gives it (4.5.4): sets its globals, writes its element segments, and finds
/// where its data segments belong. Data segments are written later, by the start.
///
/// # Errors
/// `MemoryMin` if the initial size of the memory is above `page_limit`; else `SegmentBounds` if a segment passes the
/// end of the table or of the memory; else `Memory` if an allocation fails. Nothing is allocated before all bounds are
/// checked.
pub fn instantiate(
    alloc: Global,
    linked: &Linked,
    parameters: Parameters,
) -> Result<Instantiated, InstantiateError>
    // It begins as the definition of instantiation says.
    ensures ok { IfOk result
        (Instantiates (view_module linked.now.valid.decoded) (view_parameters parameters)) }
    // The words of `input` are those that were given.
    ensures inputs { IfOk result (λ i. i.store.inputs ≡ parameters.inputs) }
    // It has the fault that is named.
    ensures err { IfErr result
        (RefusesInstance (view_module linked.now.valid.decoded) (view_parameters parameters)) }
{
    begin(alloc, linked.module(), linked.globals(), parameters)
}
