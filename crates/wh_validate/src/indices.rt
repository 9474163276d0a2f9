//! What the indices of a module name: imported functions and globals come before its own (3.4.10).

ghost use Rattle.std.specs.Prelude.{◌≡◌, ◌≢◌, ◌<◌, ◌++◌, map, length, OnOk, IfErr, IfOk};
ghost use Rattle.std.specs.List.{All};
ghost use Rattle.wh_model.specs.Validity.Valid.{imported_funcs, imported_globals};
ghost use Rattle.wh_syntax.specs.View.{view_import, view_global_type};
ghost use Rattle.wh_validate.specs.Deciding.{Decides};
ghost use Rattle.wh_validate.specs.Naming.{NamesType};

use std::alloc::Global as Heap;
use wh_model::{Mutability, ValidKind};
use wh_syntax::{FuncType, Global, GlobalType, Import, ImportDesc};

/// What indices name.
#[derive(Drop)]
pub struct Indices {
    /// The index of the type of each function.
    pub funcs: Vec<u32>,
    /// The type of each global.
    pub globals: Vec<GlobalType>,
}

/// Checks that the index is one of the items'.
///
/// # Errors
/// `Index` if it isn't.
pub fn check_index<T>(items: &[T], index: u32) -> Result<(), ValidKind>
    ensures decides { Decides result (index < length items.now) }
    ensures err { IfErr result (λ k. k ≡ ValidKind.Index) }
{
    if (index as usize) < items.len() {
        Ok(())
    } else {
        Err(ValidKind::Index)
    }
}

/// Checks that each index is below `count`.
///
/// # Errors
/// `Index` if one isn't.
pub fn check_indices(count: usize, indices: &[u32]) -> Result<(), ValidKind>
    ensures decides { Decides result (All (λ x. x < count) indices.now) }
    ensures err { IfErr result (λ k. k ≡ ValidKind.Index) }
{
    for index in indices {
        if *index as usize >= count {
            return Err(ValidKind::Index);
        }
    }
    Ok(())
}

/// Returns what the imports add to the index spaces of functions and globals, in order.
///
/// # Errors
/// `Index` if the type of a function isn't there; `Memory` if an allocation fails.
pub fn imported(alloc: Heap, types: &[FuncType], imports: &[Import]) -> Result<Indices, ValidKind>
    ensures funcs { IfOk result
        (λ i. i.funcs.items ≡ imported_funcs (map view_import imports.now)) }
    ensures globals { IfOk result
        (λ i. map view_global_type i.globals.items
        ≡ imported_globals (map view_import imports.now)) }
    ensures decides { Decides result (All (λ i. NamesType (length types.now) i) imports.now) }
    ensures err { IfErr result (λ k. k ≢ ValidKind.Memory → k ≡ ValidKind.Index) }
{
    let mut funcs = Vec::new(alloc);
    let mut globals = Vec::new(alloc);
    for import in imports {
        match import.desc {
            ImportDesc::Func(func) => {
                if func as usize >= types.len() {
                    return Err(ValidKind::Index);
                }
                funcs.push(func)?;
            }
            ImportDesc::Global(value) => {
                let mutability = Mutability::Const;
                globals.push(GlobalType { value, mutability })?;
            }
        }
    }
    Ok(Indices { funcs, globals })
}

/// Puts the functions that the module defines after those that it imports.
pub fn add_funcs(funcs: &mut Vec<u32>, own: &[u32]) -> Result<(), ValidKind>
    ensures ok { OnOk result (funcs.new.items ≡ funcs.old.items ++ own.now) }
    ensures err { IfErr result (λ k. k ≡ ValidKind.Memory) }
{
    match funcs.extend_from_slice(own) {
        Ok(()) => Ok(()),
        Err(_) => Err(ValidKind::Memory),
    }
}

/// Puts the types of the globals that the module defines after those of the ones that it imports.
pub fn add_globals(globals: &mut Vec<GlobalType>, own: &[Global]) -> Result<(), ValidKind>
    ensures ok { OnOk result
        (globals.new.items ≡ globals.old.items ++ map (λ g. g.global_type) own.now) }
    ensures err { IfErr result (λ k. k ≡ ValidKind.Memory) }
{
    for global in own {
        globals.push(global.global_type)?;
    }
    Ok(())
}
