// A swap device over pages that lie elsewhere, as in a file.

ghost use Rattle.std.specs.Prelude.{◌≡◌, ◌≢◌, ◌+◌, ◌<◌, ℕ, None, [], ◌∷◌, length, get_or, replicate, IfOk, OnOk, OnErr, IfErr, IsErrOf};
ghost use Rattle.sha2.specs.Sha256.{sha256};
ghost use Rattle.wh_swap.specs.Written.{AreKept, HasReadRight, page_held, page_writes, page_faults};

use crate::counts::{compared, one_fault, one_more};
use crate::written::Written;
use crate::{Pages, StreamPages, SwapDev};
use boxcar::tag::Tag;
use std::alloc::{AllocError, Global};
use std::io::{Read, Seek, Write};
use wh_space_model::SwapError;

/// A swap device over pages that lie elsewhere. It keeps a SHA-256 digest of each slot in memory.
#[derive(Drop)]
pub struct PageSwap<P> {
    pages: P,
    slots: Vec<Option<Written>>,
    // Of these, contracts know how many there were: writes, and reads that gave other bytes; and of failed calls which fault
    // each had.
    writes: Tag,
    failed: Tag,
    misread: Tag,
}

/// A swap device over a stream: slot `k` lies at byte `4096 * k`.
pub type StreamSwap<F> = PageSwap<StreamPages<F>>;

// `slots` slots to which nothing was written.
fn open_slots(alloc: Global, slots: u32) -> Result<Vec<Option<Written>>, AllocError>
    ensures { IfOk result (λ list. list.items ≡ replicate slots None) }
{
    let mut list = Vec::with_capacity(alloc, slots as usize)?;
    for _ in 0..slots {
        list.push(None)?;
    }
    Ok(list)
}

// Reads a page, and says whether it is what was written.
fn fetch<P: Pages>(
    pages: &mut P,
    at: u32,
    written: &Written,
    into: &mut [u8; 4096],
) -> Result<(), SwapError>
    ensures tells { P.tells pages.old → P.tells pages.new }
    ensures kept { P.tells pages.old → (k : ℕ) → P.page pages.new k ≡ P.page pages.old k }
    ensures bytes { OnOk result (P.tells pages.old → into.new ≡ P.page pages.old at) }
    ensures fits { OnOk result (sha256 into.new ≡ sha256 written.now.bytes.value) }
    ensures damaged { IsErrOf result SwapError.Damaged
        → sha256 into.new ≢ sha256 written.now.bytes.value }
    ensures which { IfErr result (λ fault. fault ≢ SwapError.Write) }
{
    if pages.get(at, into).is_err() {
        return Err(SwapError::Read);
    }
    if !written.fits(into) {
        return Err(SwapError::Damaged);
    }
    Ok(())
}

impl<P: Pages> PageSwap<P> {
    /// Creates a device of `slots` slots in these pages, to which nothing was written. Reserves the room for all.
    ///
    /// # Errors
    /// `AllocError` if an allocation fails.
    pub fn over(alloc: Global, pages: P, slots: u32) -> Result<PageSwap<P>, AllocError>
    where
        P: Drop,
        ensures held { IfOk result (λ device. page_held device ≡ replicate slots []) }
        ensures writes { IfOk result (λ device. page_writes device ≡ 0) }
        ensures faults { IfOk result (λ device. page_faults device ≡ []) }
        ensures honest { IfOk result HasReadRight }
        ensures keeps { IfOk result (λ device. P.tells pages
            → P.tells device.pages × AreKept (P.page device.pages) (page_held device)) }
    {
        Ok(PageSwap {
            pages,
            slots: open_slots(alloc, slots)?,
            writes: Tag::empty(),
            failed: Tag::empty(),
            misread: Tag::empty(),
        })
    }
}

impl<F: Read + Write + Seek + Drop> PageSwap<StreamPages<F>> {
    /// Creates a device of `slots` slots in this stream, to which nothing was written. Reserves the room for all.
    ///
    /// # Errors
    /// `AllocError` if an allocation fails.
    pub fn new(alloc: Global, stream: F, slots: u32) -> Result<StreamSwap<F>, AllocError>
        ensures held { IfOk result (λ device. page_held device ≡ replicate slots []) }
        ensures writes { IfOk result (λ device. page_writes device ≡ 0) }
        ensures faults { IfOk result (λ device. page_faults device ≡ []) }
        ensures honest { IfOk result HasReadRight }
    {
        PageSwap::over(alloc, StreamPages::new(stream), slots)
    }
}

impl<P: Pages> SwapDev for PageSwap<P> {
    ghost held = { page_held };

    ghost writes = { page_writes };

    ghost faults = { page_faults };

    ghost honest = { HasReadRight };

    ghost keeps = { λ device. P.tells device.pages
        × AreKept (P.page device.pages) (page_held device) };

    fn read(&mut self, slot: u32, into: &mut [u8; 4096]) -> Result<(), SwapError>
        requires there { slot < length (page_held self.old) }

        // What the trait says, and what `Damaged` means.
        ensures fits { OnOk result
            (sha256 into.new ≡ sha256 (get_or (page_held self.old) slot [])) }
        ensures damaged { IsErrOf result SwapError.Damaged
            → get_or (page_held self.old) slot [] ≢ []
            → sha256 into.new ≢ sha256 (get_or (page_held self.old) slot []) }
        ensures never { get_or (page_held self.old) slot [] ≡ []
            → IsErrOf result SwapError.Damaged }
        ensures bytes { OnOk result (HasReadRight self.new
            → get_or (page_held self.old) slot [] ≢ []
            → into.new ≡ get_or (page_held self.old) slot []) }
        ensures held { page_held self.new ≡ page_held self.old }
        ensures writes { page_writes self.new ≡ page_writes self.old }
        ensures ok { OnOk result (page_faults self.new ≡ page_faults self.old) }
        ensures err { IfErr result (λ fault. page_faults self.new ≡ fault ∷ page_faults self.old) }
        ensures which { IfErr result (λ fault. fault ≢ SwapError.Write) }
        ensures honest { HasReadRight self.new → HasReadRight self.old }
        ensures keeps { P.tells self.old.pages
            × AreKept (P.page self.old.pages) (page_held self.old)
            → P.tells self.new.pages × AreKept (P.page self.new.pages) (page_held self.new) }
        ensures kept { P.tells self.old.pages
            × AreKept (P.page self.old.pages) (page_held self.old)
            → HasReadRight self.old → HasReadRight self.new }
    {
        let Some(written) = &self.slots[slot as usize] else {
            self.failed = one_fault(&self.failed, SwapError::Damaged);
            return Err(SwapError::Damaged);
        };
        if let Err(fault) = fetch(&mut self.pages, slot, written, into) {
            self.failed = one_fault(&self.failed, fault);
            return Err(fault);
        }
        self.misread = compared(&self.misread, written, into);
        Ok(())
    }

    fn write(&mut self, slot: u32, from: &[u8; 4096]) -> Result<(), SwapError> {
        self.writes = one_more(&self.writes);
        self.slots[slot as usize] = None;
        if self.pages.put(slot, from).is_err() {
            self.failed = one_fault(&self.failed, SwapError::Write);
            return Err(SwapError::Write);
        }
        self.slots[slot as usize] = Some(Written::of(from));
        Ok(())
    }
}
