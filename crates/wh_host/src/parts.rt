// What a host keeps.

ghost use Rattle.std.specs.Prelude.{◌≡◌, ◌≢◌, Some};
ghost use Rattle.std.specs.Bool.{MatchBool};
ghost use Rattle.wh_host.specs.Unloading.{IsOf};

use std::sync::Arc;
use wh_imports::Linked;
use wh_instance::HostInstance;

/// A module that was loaded, and the bytes that spell it.
#[derive(Drop)]
pub struct LoadedModule {
    /// How many modules were loaded before it.
    pub number: usize,
    pub linked: Linked,
    pub bytes: Arc<Vec<u8>>,
}

/// Which module is meant.
#[derive(Clone, Copy, Debug, PartialEq, Eq)]
pub struct ModuleId {
    /// How many modules were loaded before it.
    pub number: usize,
}

/// A module by its number, and its place among the modules.
#[derive(Clone, Copy, Debug, PartialEq, Eq)]
pub struct ModuleRef {
    pub number: usize,
    pub place: usize,
}

/// What the owner of an instance has given it, but for the words of its input, which its store keeps.
#[derive(Clone, Copy, Debug, PartialEq, Eq)]
pub struct StoredParams {
    pub shares: u32,
    pub min: u32,
    pub max: u32,
    pub fuel: u64,
    pub base: u32,
    pub salt: u64,
}

/// An instance that has a place.
#[derive(Drop)]
pub struct InstanceEntry {
    /// How many instances were admitted before it. `None` where it was released, and its place is kept while a page of it is
    /// on its way to swap or back.
    pub number: Option<u64>,
    /// The number of its module.
    pub of: usize,
    /// The place of its module.
    pub module_place: usize,
    pub given: StoredParams,
    /// To how many pages of 65536 bytes its memory may grow at most.
    pub page_limit: u32,
    /// How many of its calls were copied with it.
    pub copied: usize,
    pub tenant: HostInstance,
}

impl InstanceEntry {
    /// Returns whether it has this number.
    pub fn has_number(&self, number: u64) -> bool
        ensures { MatchBool result (self.now.number ≡ Some number) (self.now.number ≢ Some number) }
    {
        match self.number {
            Some(own) => own == number,
            None => false,
        }
    }

    /// Returns whether it is of the module of this number, and wasn't released.
    pub fn is_of(&self, number: usize) -> bool
        ensures { MatchBool result (IsOf self.now number) (¬ (IsOf self.now number)) }
    {
        match self.number {
            Some(_) => self.of == number,
            None => false,
        }
    }
}
