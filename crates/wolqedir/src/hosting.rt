//! How a host comes into a handle, and how it goes.

ghost use Rattle.std.specs.Prelude.{◌≡◌, None};
ghost use Rattle.wolqedir.specs.Holding.{IsTaxOf, MakesHost};

use crate::codes::{DONE, FULL, MEMORY, TAX};
use crate::handle::Handle;
use std::alloc::Global;
use wh_hand::{Hand, Tax};

// The tax of this fraction, if it is one.
fn tax_of(num: u32, den: u32) -> Option<Tax>
    ensures { IsTaxOf num den result }
{
    if num >= den {
        return None;
    }
    if den > 1000 {
        return None;
    }
    Some(Tax { num, den })
}

/// Puts a new host into the handle, with `frames` frames of 4096 bytes and `slots` slots in memory, and the tax
/// `tax_num / tax_den` on frames on which no page was touched.
///
/// It answers FULL where the handle holds a host already, TAX where the tax isn't a fraction below one with a
/// denominator of 1 to 1000, MEMORY where an allocation fails; the first of them that holds. The handle is as it was
/// then.
#[unsafe(no_mangle)]
pub extern "C" fn wq_host_new(
    alloc: Global,
    handle: &mut Handle,
    frames: u32,
    slots: u32,
    tax_num: u32,
    tax_den: u32,
) -> u32
    ensures { MakesHost handle.old.slot.held frames slots tax_num tax_den result
        handle.new.slot.held }
{
    if handle.is_full() {
        return FULL;
    }
    let Some(tax) = tax_of(tax_num, tax_den) else {
        return TAX;
    };
    let Ok(hand) = Hand::new(alloc, frames, slots, tax) else {
        return MEMORY;
    };
    match Box::new(alloc, hand) {
        Ok(hand) => {
            handle.put(hand);
            DONE
        }
        Err(_) => MEMORY,
    }
}

/// Lets go of the host in the handle, if there is one, with all that it has.
#[unsafe(no_mangle)]
pub extern "C" fn wq_host_free(alloc: Global, handle: &mut Handle)
    ensures { handle.new.slot.held ≡ None }
{
    let _ = handle.take(alloc);
}
