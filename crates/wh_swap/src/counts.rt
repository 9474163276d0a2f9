// What contracts count of a device's calls. It takes no bytes.

ghost use Rattle.std.specs.Prelude.{◌≡◌, [], ◌∷◌, map};
ghost use Rattle.wh_space_model.specs.SwapFaults.{swap_number};
ghost use Rattle.wh_swap.specs.Written.{counted_misread, fault_numbered};

use crate::written::Written;
use boxcar::tag::{Names, Tag};
use std::snapshot::Snapshot;
use wh_space_model::SwapError;

struct OneMore;

impl Names<Tag> for OneMore {
    ghost numbers = { λ tag. 0 ∷ tag.numbers };
}

/// Returns the count plus one.
pub fn one_more(count: &Tag) -> Tag
    ensures { result.numbers ≡ 0 ∷ count.now.numbers }
{
    Tag::of::<Tag, OneMore>(count)
}

// A fault, and those before it.
#[derive(Drop)]
struct Failing {
    before: Snapshot<Tag>,
    fault: SwapError,
}

struct OneFault;

impl Names<Failing> for OneFault {
    ghost numbers = { λ a. swap_number a.fault ∷ a.before.value.numbers };
}

/// Returns the list of faults with this one added.
pub fn one_fault(before: &Tag, fault: SwapError) -> Tag
    ensures { map fault_numbered result.numbers
        ≡ fault ∷ map fault_numbered before.now.numbers }
{
    Tag::of::<Failing, OneFault>(&Failing {
        before: Snapshot::of(before),
        fault,
    })
}

// What an Ok read gave, and what was written before.
#[derive(Drop)]
struct Reading {
    misread: Snapshot<Tag>,
    wrote: Snapshot<Written>,
    read: Snapshot<[u8; 4096]>,
}

struct Misread;

impl Names<Reading> for Misread {
    ghost numbers = { λ r. counted_misread r.misread.value.numbers r.wrote.value.bytes.value
        r.read.value };
}

/// Returns the count of misreads, plus one if other bytes were read than were written.
pub fn compared(misread: &Tag, wrote: &Written, read: &[u8; 4096]) -> Tag
    ensures same { read.now ≡ wrote.now.bytes.value → result.numbers ≡ misread.now.numbers }
    ensures told { result.numbers ≡ [] → read.now ≡ wrote.now.bytes.value }
    ensures before { result.numbers ≡ [] → misread.now.numbers ≡ [] }
{
    Tag::of::<Reading, Misread>(&Reading {
        misread: Snapshot::of(misread),
        wrote: Snapshot::of(wrote),
        read: Snapshot::of(read),
    })
}
