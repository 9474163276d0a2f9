//! Kernels over one page of 4096 bytes: whether two are equal, whether one is all zeros, and a hash.
#![tactic(auto)]

ghost use Rattle.std.specs.Prelude.{◌≡◌, ◌↔◌, ◌≤◌, ◌+◌, ℕ, List, IsTrue, length, replicate};
ghost use Rattle.std.specs.Simd.Lanes.{chunk};
ghost use Rattle.wh_space_model.specs.Hash.{fnv64};
ghost use Rattle.wh_space_model.specs.Pages.{zero_page};

use std::simd::prelude::*;

// The 64 bytes of a page from a place on.
#[inline(always)]
fn block(page: &[u8; 4096], at: usize) -> u8x64
    requires { at + 64 ≤ 4096 }
    ensures { result ≡ chunk at 64 page.now }
{
    u8x64::from_slice(&page[at..])
}

// Whether two blocks are equal in each lane.
#[inline(always)]
fn blocks_equal(first: u8x64, second: u8x64) -> bool
    ensures { IsTrue result ↔ (first ≡ second) }
{
    (first ^ second).reduce_or() == 0
}

// Whether each lane is 0.
#[inline(always)]
fn block_is_zero(block: u8x64) -> bool
    ensures { IsTrue result ↔ (block ≡ replicate (length block) 0) }
{
    block.reduce_or() == 0
}

/// Tells whether two pages have the same bytes. Compares lane by lane, and stops at the first block of 64 bytes that
/// differs.
pub fn pages_equal(first: &[u8; 4096], second: &[u8; 4096]) -> bool
    ensures { IsTrue result ↔ (first.now ≡ second.now) }
{
    for part in 0..64 {
        if !blocks_equal(block(first, 64 * part), block(second, 64 * part)) {
            return false;
        }
    }
    true
}

/// Tells whether all bytes of the page are 0.
pub fn is_zero(page: &[u8; 4096]) -> bool
    ensures { IsTrue result ↔ (page.now ≡ zero_page) }
{
    for part in 0..64 {
        if !block_is_zero(block(page, 64 * part)) {
            return false;
        }
    }
    true
}

const OFFSET_BASIS: u64 = 14695981039346656037;

const PRIME: u64 = 1099511628211;

// The hash FNV-1a of any bytes.
#[inline(always)]
fn fnv_of(bytes: &[u8]) -> u64
    ensures { result ≡ fnv64 bytes.now }
{
    bytes.iter().fold(OFFSET_BASIS, |hash, byte| {
        (hash ^ u64::from(*byte)).wrapping_mul(PRIME)
    })
}

/// Returns the FNV-1a hash of 64 bits of the page's bytes.
pub fn fnv64(page: &[u8; 4096]) -> u64
    ensures { result ≡ fnv64 page.now }
{
    fnv_of(page)
}

/// A hash of a page's bytes. Nothing is asked of it but that the same bytes have the same hash: pages with equal hashes
/// are compared byte by byte before they are shared, so a poor hash costs sharing alone.
pub trait PageHash {
    /// The hash of a list of bytes.
    ghost hashes: { Self → List ℕ → ℕ };

    /// Returns the hash of the page's bytes.
    fn hash(&self, page: &[u8; 4096]) -> u64
        ensures { result ≡ hashes self.now page.now };
}

/// The hash FNV-1a of 64 bits.
#[derive(Clone, Copy, Debug, Default, PartialEq, Eq)]
pub struct FnvHash;

impl PageHash for FnvHash {
    ghost hashes = { λ hash. fnv64 };

    fn hash(&self, page: &[u8; 4096]) -> u64 {
        fnv64(page)
    }
}

/// The hash that is 0 for each page.
#[derive(Clone, Copy, Debug, Default, PartialEq, Eq)]
pub struct ConstantHash;

impl PageHash for ConstantHash {
    ghost hashes = { λ hash bytes. 0 };

    fn hash(&self, _page: &[u8; 4096]) -> u64 {
        0
    }
}
