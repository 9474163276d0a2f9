//! The module's own functions, by the names that they are exported by.

ghost use Rattle.std.specs.Prelude.{IfSome, IfNone};
ghost use Rattle.wh_instance.specs.CallsByName.{NamesOwn, NamesOnly, NamesNone};

use wh_call::{exported, own_type};
use wh_imports::Linked;

/// Returns the index of the module's own function that is exported under this name, if there is one.
pub fn own_export(linked: &Linked, name: &str) -> Option<u32>
    ensures some { IfSome result (NamesOwn linked.now name.now) }
    ensures only { NamesOnly linked.now name.now result }
    ensures none { IfNone result (NamesNone linked.now name.now) }
{
    let index = exported(&linked.module().exports, name)?;
    match own_type(linked, index) {
        Some(_) => Some(index),
        None => None,
    }
}
