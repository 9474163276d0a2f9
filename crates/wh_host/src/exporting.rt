//! What a host tells of the functions that its modules export.

ghost use Rattle.std.specs.Prelude.{◌≡◌, ◌++◌, IfNone, IfSome, None, filter, length, map, option_copied, option_map, slice_get};
ghost use Rattle.wh_model.specs.Format.Syntax.{FuncType as ModelType};
ghost use Rattle.wh_model.specs.Validity.Valid.{imported_funcs};
ghost use Rattle.wh_syntax.specs.View.{view_export, view_import, view_module, view_type};
ghost use Rattle.wh_load.specs.Refusing.{view_linked};
ghost use Rattle.wh_host.specs.ModuleExports.{CountsExports, ExportsAt, FindsModule, IsTypeOfFunc, HasNoExport, ShowsExport, exported_funcs, is_func};

use crate::host::{Host, module_at};
use crate::module_refs::find_ref;
use crate::parts::{LoadedModule, ModuleId};
use wh_imports::Linked;
use wh_model::{ExternKind, ValType};
use wh_syntax::{Export, FuncType, Import, ImportDesc, Module};

/// A function that a module exports.
#[derive(Clone, Copy)]
pub struct ExportedFunc<'a> {
    /// Its name.
    pub name: &'a str,
    /// The types of its parameters, in order.
    pub params: &'a [ValType],
    /// The type of its result; none where it has none.
    pub results: &'a [ValType],
}

// Whether a function is exported.
fn is_of_func(kind: ExternKind) -> bool
    ensures { result ≡ is_func kind }
{
    match kind {
        ExternKind::Func => true,
        ExternKind::Table | ExternKind::Memory | ExternKind::Global => false,
    }
}

// How many functions are exported.
fn func_count(exports: &[Export]) -> usize
    ensures { result ≡ length (filter (λ e. is_func e.kind) exports.now) }
{
    let mut count = 0;
    for export in exports {
        if is_of_func(export.kind) {
            count += 1;
        }
    }
    count
}

/// Returns the export at this place of those of functions; `None` where there are fewer.
pub fn func_export(exports: &[Export], at: usize) -> Option<&Export>
    ensures { option_copied result ≡ slice_get (filter (λ e. is_func e.kind) exports.now) at }
{
    let mut left = at;
    for export in exports {
        if is_of_func(export.kind) {
            if left == 0 {
                return Some(export);
            }
            left -= 1;
        }
    }
    None
}

// The index of the type of the module's own function at this place, where there is one.
fn own_at(funcs: &[u32], at: usize) -> Option<u32>
    ensures { result ≡ slice_get funcs.now at }
{
    if at >= funcs.len() {
        return None;
    }
    Some(funcs[at])
}

// The type at this place, where there is one.
fn nth_type(types: &[FuncType], at: usize) -> Option<&FuncType>
    ensures { option_copied result ≡ slice_get types.now at }
{
    types.get(at)
}

// The index of the type of this function, where there is one: those that are imported come before the module's own.
fn type_index(imports: &[Import], funcs: &[u32], func: u32) -> Option<u32>
    ensures { result ≡ slice_get (imported_funcs (map view_import imports.now) ++ funcs.now) func }
{
    let mut left = func as usize;
    for import in imports {
        if let ImportDesc::Func(of) = import.desc {
            if left == 0 {
                return Some(of);
            }
            left -= 1;
        }
    }
    own_at(funcs, left)
}

// The type of this function, where there is one.
fn type_of(module: &Module, func: u32) -> Option<&FuncType>
    ensures some { IfSome result (λ found. IsTypeOfFunc (view_module module.now) func (view_type found.now)) }
    ensures none { IfNone result ((of : ModelType) → ¬ (IsTypeOfFunc (view_module module.now) func of)) }
{
    let Some(of) = type_index(&module.imports, &module.funcs, func) else {
        return None;
    };
    nth_type(&module.types, of as usize)
}

// The function that a module exports at this place.
fn exported_at(linked: &Linked, at: usize) -> Option<ExportedFunc<'_>>
    ensures some { IfSome result (λ x. ExportsAt (view_linked linked.now) at x.name.now
        (record { params = x.params.now; results = x.results.now })) }
    ensures none { IfNone result (slice_get (exported_funcs (view_linked linked.now)) at ≡ None) }
{
    let module = linked.module();
    let Some(export) = func_export(&module.exports, at) else {
        return None;
    };
    let Some(func_type) = type_of(module, export.index) else {
        return None;
    };
    Some(ExportedFunc {
        name: export.name.as_str(),
        params: func_type.params.as_slice(),
        results: func_type.results.as_slice(),
    })
}

impl Host {
    // The module of this number.
    fn module_of(&self, of: ModuleId) -> Option<&LoadedModule>
        ensures { FindsModule self.now of.number (option_copied result) }
    {
        let Some(module_ref) = find_ref(&self.module_refs, of.number) else {
            return None;
        };
        module_at(&self.modules, module_ref.place)
    }

    /// Returns how many functions a module exports; `None` where there is no such module. It goes over the module's exports, and
    /// allocates nothing.
    pub fn export_count(&self, of: ModuleId) -> Option<usize>
        ensures { CountsExports self.now of.number result }
    {
        match self.module_of(of) {
            Some(module) => Some(func_count(&module.linked.module().exports)),
            None => None,
        }
    }

    /// Returns the function at place `at`, from 0 on, of those that a module exports, in the module's order; `None` where there is
    /// no such module or place. It goes over the module's exports and imports, and allocates nothing.
    pub fn export_at(&self, of: ModuleId, at: usize) -> Option<ExportedFunc<'_>>
        ensures some { IfSome result (λ x. ShowsExport self.now of.number at x.name.now
            (record { params = x.params.now; results = x.results.now })) }
        ensures none { IfNone result (HasNoExport self.now of.number at) }
    {
        match self.module_of(of) {
            Some(module) => exported_at(&module.linked, at),
            None => None,
        }
    }
}
