// Texts one after the other.

ghost use Rattle.std.specs.Prelude.{◌≡◌, ◌-◌, ◌<◌, ◌≤◌, ◌∷◌, ◌++◌, [], Some, OnErr, OnOk, length, slice_get, slice_index, take};

use std::alloc::{AllocError, Global};
use std::marker::Model;

// Texts in their order, in one piece of memory.
#[derive(Drop)]
pub(crate) struct Texts {
    // The bytes of all of them, one after the other.
    bytes: Vec<u8>,
    // Where each ends.
    ends: Vec<u32>,
}

impl Model for Texts {
    ghost use Rattle.std.specs.Prelude.{List, ℕ};

    ghost Value = { List (List ℕ) };

    ghost use Rattle.wh_names.specs.NameTexts.{texts_of, AreCut};

    ghost view = { texts_of };

    ghost invariant = { AreCut };
}

// Where the text at a place begins: where the one before it ends.
fn start_of(ends: &[u32], place: usize) -> usize
    requires { place ≤ length ends.now }
    ensures { result ≡ slice_index (0 ∷ ends.now) place }
{
    match place.checked_sub(1) {
        Some(before) => ends[before] as usize,
        None => 0,
    }
}

impl Texts {
    // None yet.
    pub(crate) fn new(alloc: Global) -> Texts
        ensures { result ≡ [] }
    {
        Texts {
            bytes: Vec::new(alloc),
            ends: Vec::new(alloc),
        }
    }

    // How many there are.
    pub(crate) fn len(&self) -> usize
        ensures { result ≡ length self.now }
    {
        self.ends.len()
    }

    // The one at a place.
    pub(crate) fn get(&self, place: usize) -> &[u8]
        requires { place < length self.now }
        ensures { slice_get self.now place ≡ Some result.now }
    {
        let start = start_of(&self.ends, place);
        let end = self.ends[place] as usize;
        &self.bytes[start..end]
    }

    // Puts one more after the others. Room may be refused, also where there would be more than 2^32 - 1 bytes.
    pub(crate) fn add(&mut self, text: &[u8]) -> Result<(), AllocError>
        ensures ok { OnOk result (self.new ≡ self.old ++ text.now ∷ []) }
        ensures err { OnErr result (self.new ≡ self.old) }
    {
        let Some(whole) = self.bytes.len().checked_add(text.len()) else {
            return Err(AllocError);
        };
        let Ok(end) = u32::try_from(whole) else {
            return Err(AllocError);
        };
        self.ends.reserve(1)?;
        self.bytes.extend_from_slice(text)?;
        self.ends.push_reserved(end);
        Ok(())
    }

    // Takes the last one away, if there is one.
    pub(crate) fn remove_last(&mut self)
        ensures { self.new ≡ take (length self.old - 1) self.old }
    {
        let Some(last) = self.ends.len().checked_sub(1) else {
            return;
        };
        let start = start_of(&self.ends, last);
        self.ends.truncate(last);
        self.bytes.truncate(start);
    }
}
