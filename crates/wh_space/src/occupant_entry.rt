// Who has a place.

ghost use Rattle.std.specs.Prelude.{◌≡◌, None, true};

use wh_model::Need;

/// What the owner of an instance was promised for it.
#[derive(Clone, Copy, Debug, PartialEq, Eq)]
pub struct Promise {
    /// How many instances came before it.
    pub number: u64,
    /// The share of memory that its owner has, 1 to 1000000.
    pub shares: u32,
    /// How many of its pages may be resident in any case, at least 2.
    pub min: u32,
    /// How many pages of 4096 bytes it may have, at least `min` and at most 65536.
    pub max: u32,
}

// An instance that has a place. One that was released keeps it while a ticket of it is out.
#[derive(Clone, Copy)]
pub struct OccupantEntry {
    pub number: u64,
    // It wasn't released.
    pub live: bool,
    pub shares: u32,
    pub min: u32,
    pub max: u32,
    // The bytes of the step for which it stands, where it waits for a frame.
    pub stands: Option<Need>,
    // The slot of the ticket with which a page of it leaves, void or not.
    pub leaves: Option<u32>,
    // How many tickets of it are out.
    pub tickets: u64,
}

impl OccupantEntry {
    /// Creates the entry of a new instance, which is live, isn't blocked and has no ticket out.
    pub fn new(promise: Promise) -> OccupantEntry
        ensures { result ≡ record {
          number = promise.number;
          live = true;
          shares = promise.shares;
          min = promise.min;
          max = promise.max;
          stands = None;
          leaves = None;
          tickets = 0;
        } }
    {
        OccupantEntry {
            number: promise.number,
            live: true,
            shares: promise.shares,
            min: promise.min,
            max: promise.max,
            stands: None,
            leaves: None,
            tickets: 0,
        }
    }
}
