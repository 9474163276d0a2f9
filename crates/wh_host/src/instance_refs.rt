// The instances of a host by number.

ghost use Rattle.std.specs.Prelude.{◌≡◌, ◌<◌, Some, IfOk, length, slice_get};
ghost use Rattle.std.specs.List.Sorted.{IsNonDecreasingBy, IsPermutation};
ghost use Rattle.wh_host.specs.InstanceRefs.{AreInOrder, AreInstanceRefs, number_at, refs_below};
ghost use Rattle.wh_space_model.specs.declared.plain.InstId.{InstId as OneInstance};

use crate::host::Host;
use crate::parts::InstanceEntry;
use slab::Slab;
use std::alloc::{AllocError, Global};
use wh_space_model::InstId;

// The number of the instance that has this place, if one has it.
fn number_at(entries: &Slab<InstanceEntry>, place: usize) -> Option<u64>
    ensures { result ≡ number_at entries.now.slots place }
{
    match entries.get(place) {
        Some(entry) => entry.number,
        None => None,
    }
}

/// Returns the reference at this place.
pub fn ref_at(instance_refs: &[InstId], at: usize) -> InstId
    requires { at < length instance_refs.now }
    ensures { slice_get instance_refs.now at ≡ Some result }
{
    instance_refs[at]
}

// Who is there at the places below this one, by place.
fn refs_below(
    alloc: Global,
    entries: &Slab<InstanceEntry>,
    places: usize,
) -> Result<Vec<InstId>, AllocError>
    ensures { IfOk result (λ instance_refs.
        instance_refs.items ≡ refs_below (number_at entries.now.slots) places) }
{
    let mut instance_refs = Vec::new(alloc);
    for place in 0..places {
        if let Some(number) = number_at(entries, place) {
            instance_refs.push(InstId { number, place })?;
        }
    }
    Ok(instance_refs)
}

// By number.
fn sort_refs(instance_refs: &mut Vec<InstId>)
    ensures same { IsPermutation instance_refs.old.items instance_refs.new.items }
    ensures sorted { IsNonDecreasingBy (λ (instance_ref : OneInstance). instance_ref.number) instance_refs.new.items }
{
    instance_refs.sort_unstable_by_key(|instance_ref| instance_ref.number);
}

// Who is there at the places below this one, by number.
fn refs_in_order(
    alloc: Global,
    entries: &Slab<InstanceEntry>,
    places: usize,
) -> Result<Vec<InstId>, AllocError>
    ensures { IfOk result (λ instance_refs. AreInOrder entries.now.slots places instance_refs.items) }
{
    let mut instance_refs = refs_below(alloc, entries, places)?;
    sort_refs(&mut instance_refs);
    Ok(instance_refs)
}

impl Host {
    // Its instances by number.
    pub(crate) fn instance_refs(&self, alloc: Global) -> Result<Vec<InstId>, AllocError>
        ensures { IfOk result (λ instance_refs. AreInstanceRefs self.now instance_refs.items) }
    {
        refs_in_order(alloc, &self.entries, self.memory.places())
    }
}
