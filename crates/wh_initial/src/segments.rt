//! Where segments belong (2.5.7, 2.5.8, 4.5.4).

ghost use Rattle.std.specs.Prelude.{◌≡◌, ◌↔◌, ◌+◌, ◌≤◌, IsTrue, map, IfOk, IfErr};
ghost use Rattle.wh_initial.specs.ConstantWords.{word_in};
ghost use Rattle.wh_initial.specs.InWords.{ElementsFit, SegmentsFit};
ghost use Rattle.wh_initial.specs.InBasis.{words_of_basis, HasWords};

use crate::basis::Basis;
use crate::constants::offset_of;
use crate::error::InstantiateError;
use std::alloc::Global;

/// Whether `count` items from a place on end within a size.
fn is_within(place: u32, count: usize, size: u64) -> bool
    ensures { IsTrue result ↔ (place + count ≤ size) }
{
    let place = u64::from(place);
    place <= size && count as u64 <= size - place
}

/// Tells whether all element segments of a module end within a table of `size` entries.
pub fn elements_fit(basis: &Basis<'_>, size: u64) -> bool
    requires { HasWords basis.now }
    ensures { IsTrue result
        ↔ ElementsFit (words_of_basis basis.now) size basis.now.module.now.elements.items }
{
    for element in &basis.module.elements {
        if !is_within(offset_of(basis, &element.offset), element.init.len(), size) {
            return false;
        }
    }
    true
}

/// Tells whether all data segments of a module end within a memory of `size` bytes.
pub fn segments_fit(basis: &Basis<'_>, size: u64) -> bool
    requires { HasWords basis.now }
    ensures { IsTrue result
        ↔ SegmentsFit (words_of_basis basis.now) size basis.now.module.now.segments.items }
{
    for segment in &basis.module.segments {
        if !is_within(offset_of(basis, &segment.offset), segment.init.len(), size) {
            return false;
        }
    }
    true
}

/// Returns the address of the first byte of each data segment of a module.
///
/// # Errors
/// `Memory` if the allocation fails.
pub fn segment_places(alloc: Global, basis: &Basis<'_>) -> Result<Vec<u32>, InstantiateError>
    requires { HasWords basis.now }
    ensures ok { IfOk result
        (λ places. places.items
        ≡ map (λ s. word_in (words_of_basis basis.now) s.offset)
        basis.now.module.now.segments.items) }
    ensures err { IfErr result (λ e. e ≡ InstantiateError.Memory) }
{
    let mut places = Vec::with_capacity(alloc, basis.module.segments.len())?;
    for segment in &basis.module.segments {
        places.push(offset_of(basis, &segment.offset))?;
    }
    Ok(places)
}
