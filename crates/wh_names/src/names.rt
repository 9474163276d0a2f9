// Names as their caller sees them.

ghost use Rattle.std.specs.Prelude.{◌≡◌, ℕ, ◌+◌, ◌-◌, ◌^◌, ◌<◌, ◌∷◌, ◌++◌, [], None, OnErr, OnOk, length, slice_index, take, vec_len, vec_capacity};
ghost use Rattle.wh_names.specs.NameIndex.{IsIndex};
ghost use Rattle.wh_names.specs.NamePlaces.{place_of_name};

use crate::chains::Chains;
use crate::hash::bucket_of;
use crate::texts::Texts;
use std::alloc::{AllocError, Global};
use std::marker::Model;

/// Names in the order in which they were added, each once.
///
/// Besides its bytes a name takes 12 bytes where all room is used, and at most 24.
#[derive(Drop)]
pub struct Names {
    texts: Texts,
    chains: Chains,
}

impl Model for Names {
    ghost use Rattle.std.specs.Prelude.{List, ℕ};

    ghost Value = { List (List ℕ) };

    ghost use Rattle.wh_names.specs.NameIndex.{AreFoundByHash};

    ghost view = { λ a. a.texts };

    ghost invariant = { AreFoundByHash };
}

// Makes the chains anew, with buckets that are empty and room for the links.
fn rebuild(chains: &mut Chains, texts: &Texts)
    requires few { length texts.now < 2 ^ 32 }
    requires room { length texts.now < vec_capacity chains.old.links }
    requires buckets { length texts.now < length chains.old.heads.items }
    requires empty { (bucket : ℕ) → slice_index chains.old.heads.items bucket ≡ 0 }
    ensures index { IsIndex texts.now chains.new }
    ensures buckets { length texts.now < length chains.new.heads.items }
    ensures room { vec_len chains.new.links < vec_capacity chains.new.links }
{
    chains.links.clear();
    for place in 0..texts.len() {
        let bucket = bucket_of(texts.get(place), chains.heads.len());
        chains.push(bucket);
    }
}

// Makes room for one more name in the chains. There are twice as many buckets where each name has one.
fn make_room(alloc: Global, chains: &mut Chains, texts: &Texts) -> Result<(), AllocError>
    requires few { length texts.now < 2 ^ 32 }
    requires index { IsIndex texts.now chains.old }
    ensures index { IsIndex texts.now chains.new }
    ensures buckets { OnOk result (length texts.now < length chains.new.heads.items) }
    ensures room { OnOk result (vec_len chains.new.links < vec_capacity chains.new.links) }
{
    chains.links.reserve(1)?;
    let names = texts.len();
    if names >= chains.heads.len() {
        chains.heads = vec![in alloc; 0; (names * 2).max(8)]?;
        rebuild(chains, texts);
    }
    Ok(())
}

impl Names {
    /// Creates an empty list of names.
    pub fn new(alloc: Global) -> Names
        ensures { result ≡ [] }
    {
        Names {
            texts: Texts::new(alloc),
            chains: Chains::new(alloc),
        }
    }

    /// Returns the number of names.
    pub fn len(&self) -> usize
        ensures { result ≡ length self.now }
    {
        self.texts.len()
    }

    /// Returns the place of a name, if it is there: the number of names that were added before it.
    pub fn place(&self, name: &str) -> Option<usize>
        ensures { result ≡ place_of_name self.now name.now }
    {
        if self.texts.len() == 0 {
            return None;
        }
        let name = name.as_bytes();
        let bucket = bucket_of(name, self.chains.heads.len());
        let mut link = self.chains.heads[bucket];
        while let Some(before) = link.checked_sub(1) {
            let place = before as usize;
            if self.texts.get(place) == name {
                return Some(place);
            }
            link = self.chains.links[place];
        }
        None
    }

    /// Adds a name that isn't there.
    ///
    /// # Errors
    /// A growth of memory was refused, or there would be more than 2^32 - 1 names or bytes of names. All names are as they
    /// were.
    pub fn add(&mut self, alloc: Global, name: &str) -> Result<(), AllocError>
        requires { place_of_name self.old name.now ≡ None }
        ensures ok { OnOk result (self.new ≡ self.old ++ name.now ∷ []) }
        ensures err { OnErr result (self.new ≡ self.old) }
    {
        if self.texts.len() >= u32::MAX as usize {
            return Err(AllocError);
        }
        make_room(alloc, &mut self.chains, &self.texts)?;
        let bucket = bucket_of(name.as_bytes(), self.chains.heads.len());
        self.texts.add(name.as_bytes())?;
        self.chains.push(bucket);
        Ok(())
    }

    /// Removes the last name, if there is one.
    pub fn remove_last(&mut self)
        ensures { self.new ≡ take (length self.old - 1) self.old }
    {
        let Some(last) = self.texts.len().checked_sub(1) else {
            return;
        };
        let bucket = bucket_of(self.texts.get(last), self.chains.heads.len());
        self.chains.pop(bucket);
        self.texts.remove_last();
    }
}
