//! Bytes over bytes, as memories write them.

ghost use Rattle.std.specs.Prelude.{◌≡◌, ◌≤◌, length, IsTrue, IsFalse};

// Writes over N bytes by as many, if there are N of each, and says whether it did.
#[inline(always)]
fn copy_array<const N: usize>(part: &mut [u8], given: &[u8]) -> bool
    requires few { N ≤ 8 }
    requires same { length part.old ≡ length given.now }
    ensures done { IsTrue result → part.new ≡ given.now }
    ensures left { IsFalse result → part.new ≡ part.old }
{
    let Some(from) = given.as_array::<N>() else {
        return false;
    };
    let Some(to) = part.as_mut_array::<N>() else {
        return false;
    };
    *to = *from;
    true
}

/// Writes over bytes by as many others. Those of a number go as one array: inlined where their count is known, that is one
/// machine move, while a copy of slices would first test whether the two overlap.
#[inline(always)]
pub fn copy_bytes(part: &mut [u8], given: &[u8])
    requires { length part.old ≡ length given.now }
    ensures { part.new ≡ given.now }
{
    if !copy_array::<8>(part, given)
        && !copy_array::<4>(part, given)
        && !copy_array::<2>(part, given)
    {
        part.copy_from_slice(given);
    }
}
