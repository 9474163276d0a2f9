//! The items of the host, by their names and their types.

ghost use Rattle.std.specs.Prelude.{◌≡◌, ◌↔◌, IsTrue, map, codes, IfOk, IfErr, IfSome, IfNone};
ghost use Rattle.std.specs.String.{string_bytes};
ghost use Rattle.wh_model.specs.Execution.Store.{host, signature};
ghost use Rattle.wh_model.specs.declared.faults.ImportFault.{ImportFault};
ghost use Rattle.wh_model.specs.Linking.Imports.{item_name, ImportsItem, IsKnown, LacksItem};
ghost use Rattle.wh_syntax.specs.View.{view_type, view_import, view_desc};
ghost use Rattle.wh_imports.specs.Typed.{global_type, IsTyped};

use crate::error::LinkError;
use wh_model::{HostFunc, HostGlobal, HostItem, ImportFault, ValType};
use wh_syntax::{FuncType, Import, ImportDesc};

/// The item of the import's names.
fn named(import: &Import) -> Option<HostItem>
    ensures some { IfSome result
        (λ item. (string_bytes import.now.from ≡ codes "host")
        × (string_bytes import.now.name ≡ item_name item)) }
    ensures none { IfNone result (¬ (IsKnown (view_import import.now))) }
{
    if import.from.as_str() != "host" {
        return None;
    }
    match import.name.as_str() {
        "input" => Some(HostItem::Func(HostFunc::Input)),
        "put" => Some(HostItem::Func(HostFunc::Put)),
        "emit" => Some(HostItem::Func(HostFunc::Emit)),
        "base" => Some(HostItem::Global(HostGlobal::Base)),
        "salt" => Some(HostItem::Global(HostGlobal::Salt)),
        _ => None,
    }
}

/// The type of a global of the host.
fn type_of(global: HostGlobal) -> ValType
    ensures { result ≡ global_type global }
{
    match global {
        HostGlobal::Base => ValType::I32,
        HostGlobal::Salt => ValType::I64,
    }
}

/// Tells whether a type is that of a host function.
pub fn is_signature(func: HostFunc, func_type: &FuncType) -> bool
    ensures { IsTrue result ↔ (view_type func_type.now ≡ signature (host func)) }
{
    let params = func_type.params.as_slice();
    let results = func_type.results.as_slice();
    match func {
        HostFunc::Input => matches!(params, [ValType::I32]) && matches!(results, [ValType::I64]),
        HostFunc::Put => matches!(params, [ValType::I64]) && results.is_empty(),
        HostFunc::Emit => matches!(params, [ValType::I32, ValType::I32]) && results.is_empty(),
    }
}

/// Whether an import asks for the kind and the type of an item.
fn is_typed(types: &[FuncType], desc: ImportDesc, item: HostItem) -> bool
    ensures { IsTrue result ↔ IsTyped (map view_type types.now) (view_desc desc) item }
{
    match (desc, item) {
        (ImportDesc::Func(index), HostItem::Func(func)) => match types.get(index as usize) {
            Some(func_type) => is_signature(func, func_type),
            None => false,
        },
        (ImportDesc::Global(value), HostItem::Global(global)) => value == type_of(global),
        _ => false,
    }
}

/// Returns the item of the host that an import names. The import is at place `at` of the import section.
///
/// # Errors
/// `NoItem`, with `UnknownImport` if the host has nothing of its names, else with `ImportType` if that has another kind
/// or type.
pub fn item_of(types: &[FuncType], import: &Import, at: usize) -> Result<HostItem, LinkError>
    ensures ok { IfOk result (ImportsItem (map view_type types.now) (view_import import.now)) }
    ensures err { IfErr result
        (λ e. (fault : ImportFault)
        × LacksItem (map view_type types.now) (view_import import.now) fault
        × (e ≡ LinkError.NoItem fault at)) }
{
    let Some(item) = named(import) else {
        return Err(LinkError::NoItem(ImportFault::UnknownImport, at));
    };
    if !is_typed(types, import.desc, item) {
        return Err(LinkError::NoItem(ImportFault::ImportType, at));
    }
    Ok(item)
}
