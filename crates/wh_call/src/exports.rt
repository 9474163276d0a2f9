//! Exported functions, by their names.

ghost use Rattle.std.specs.Prelude.{◌≡◌, ◌<◌, ◌↔◌, length, slice_get, Some, IsTrue, IfSome, IfNone};
ghost use Rattle.wh_call.specs.Exports.{IsFuncOf, Exports, LacksFunc};

use wh_model::ExternKind;
use wh_syntax::Export;

fn export_at(exports: &[Export], at: usize) -> &Export
    requires { at < length exports.now }
    ensures { slice_get exports.now at ≡ Some result.now }
{
    &exports[at]
}

fn is_func_of(export: &Export, name: &str) -> bool
    ensures { IsTrue result ↔ IsFuncOf name.now export.now }
{
    match export.kind {
        ExternKind::Func => export.name.as_str() == name,
        _ => false,
    }
}

/// Returns the index of the function that is exported under this name, if there is one.
pub fn exported(exports: &[Export], name: &str) -> Option<u32>
    ensures some { IfSome result (Exports exports.now name.now) }
    ensures none { IfNone result (LacksFunc exports.now name.now) }
{
    for at in 0..exports.len() {
        let export = export_at(exports, at);
        if is_func_of(export, name) {
            return Some(export.index);
        }
    }
    None
}
