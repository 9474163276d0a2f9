// The modules of a host by number.

ghost use Rattle.std.specs.Prelude.{◌≡◌, ◌<◌, IfSome, MatchOption, Some, length, slice_get, vec_len};
ghost use Rattle.wh_host.specs.ModuleLists.{HasNoRef, HasRef, HasRefAt, Rise};

use crate::parts::ModuleRef;

/// Returns the reference at this index.
pub fn module_ref_at(module_refs: &[ModuleRef], at: usize) -> ModuleRef
    requires { at < length module_refs.now }
    ensures { slice_get module_refs.now at ≡ Some result }
{
    module_refs[at]
}

/// Returns the index of the module of this number in a list by number; `None` if it isn't there.
pub fn index_of(module_refs: &[ModuleRef], number: usize) -> Option<usize>
    ensures within { IfSome result (λ at. at < length module_refs.now) }
    ensures found { MatchOption result (Rise 0 module_refs.now → HasNoRef module_refs.now number)
        (HasRefAt module_refs.now number) }
{
    let at = module_refs.partition_point(|module_ref| module_ref.number < number);
    if at >= module_refs.len() {
        return None;
    }
    if module_ref_at(module_refs, at).number != number {
        return None;
    }
    Some(at)
}

/// Returns the module of this number of a list by number; `None` if it isn't there.
pub fn find_ref(module_refs: &[ModuleRef], number: usize) -> Option<ModuleRef>
    ensures { MatchOption result (Rise 0 module_refs.now → HasNoRef module_refs.now number)
        (HasRef module_refs.now number) }
{
    match index_of(module_refs, number) {
        Some(at) => Some(module_ref_at(module_refs, at)),
        None => None,
    }
}
