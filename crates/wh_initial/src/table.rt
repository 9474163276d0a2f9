//! The table as an instance begins with it (4.5.4).

ghost use Rattle.std.specs.Prelude.{◌≡◌, ◌+◌, ◌≤◌, None, Some, map, replicate, length, IfOk, IfErr};
ghost use Rattle.wh_model.specs.Execution.Store.{written};
ghost use Rattle.wh_model.specs.Execution.Instance.{filled};
ghost use Rattle.wh_initial.specs.ConstantWords.{element_piece};
ghost use Rattle.wh_initial.specs.InWords.{ElementsFit};
ghost use Rattle.wh_initial.specs.InBasis.{words_of_basis, HasWords};

use crate::basis::Basis;
use crate::constants::offset_of;
use crate::error::InstantiateError;
use std::alloc::Global;

/// Writes functions into a table from a place on.
fn write_element(table: &mut Vec<Option<u32>>, place: usize, funcs: &[u32])
    requires { place + length funcs.now ≤ length table.old.items }
    ensures { table.new.items ≡ written table.old.items place (map (λ x. Some x) funcs.now) }
{
    for at in 0..funcs.len() {
        table[place + at] = Some(funcs[at]);
    }
}

/// Creates a table of `size` entries, and writes all element segments of a module into it in order.
///
/// # Errors
/// `Memory` if the allocation fails.
pub fn first_table(
    alloc: Global,
    basis: &Basis<'_>,
    size: u32,
) -> Result<Vec<Option<u32>>, InstantiateError>
    requires prepared { HasWords basis.now }
    requires within { ElementsFit (words_of_basis basis.now) size
        basis.now.module.now.elements.items }
    ensures ok { IfOk result
        (λ table. table.items
        ≡ filled (replicate size None)
        (map (element_piece (words_of_basis basis.now)) basis.now.module.now.elements.items)) }
    ensures err { IfErr result (λ e. e ≡ InstantiateError.Memory) }
{
    let mut table = Vec::new(alloc);
    if table.resize(size as usize, None).is_err() {
        return Err(InstantiateError::Memory);
    }
    for element in &basis.module.elements {
        let place = offset_of(basis, &element.offset);
        write_element(&mut table, place as usize, &element.init);
    }
    Ok(table)
}
