// What the memory has of a page, of a frame and of a slot of the swap device, and how offers and device calls end.

ghost use Rattle.std.specs.Prelude.{◌≡◌};
ghost use Rattle.wh_space_model.specs.Moves.{frame_of};

/// One page of 4096 bytes of a linear memory. A number without a name is a frame's, and of the last two a slot's.
#[derive(Clone, Copy, Debug, PartialEq, Eq)]
pub enum Page {
    /// Zeros, without a frame.
    Untouched,
    /// On a frame of its own.
    Private(u32),
    /// On a frame that it shares.
    Shared(u32),
    /// On a frame of its own, being written to a slot.
    Leaving(u32),
    /// On a frame that it shares, being written to a slot.
    LeavingShared(u32),
    /// In a slot, and being read into a frame.
    Coming(u32),
    /// In a slot.
    Swapped(u32),
}

impl Page {
    /// Returns the frame to which the page maps, or `None` if it isn't resident.
    #[inline(always)]
    pub fn frame(self) -> Option<u32>
        ensures { result ≡ frame_of self }
    {
        match self {
            Page::Private(frame)
            | Page::Shared(frame)
            | Page::Leaving(frame)
            | Page::LeavingShared(frame) => Some(frame),
            Page::Untouched | Page::Coming(_) | Page::Swapped(_) => None,
        }
    }
}

/// What the content table has of a frame.
#[derive(Clone, Copy, Debug, PartialEq, Eq)]
pub enum Mark {
    /// No entry.
    Plain,
    /// An entry under this hash: the page whose own frame it is.
    Hint { hash: u64, place: u32, page: u32 },
    /// An entry under this hash: how many pages share the frame.
    Sharers { hash: u64, count: u32 },
    /// No entry, but pages share the frame: how many. Its hash isn't known.
    Unlisted { count: u32 },
}

/// What a slot is used for. A place is that of an instance.
#[derive(Clone, Copy, Debug, PartialEq, Eq)]
pub enum Slot {
    /// Nothing.
    Vacant,
    /// A swapped page.
    Taken,
    /// A ticket is out, to write this page to it.
    Evicting { place: u32, page: u32 },
    /// A ticket is out, and what it writes is of no use.
    EvictVoid { place: u32 },
    /// A ticket is out, to read this page from it into the frame.
    Fetching { place: u32, page: u32, frame: u32 },
    /// A ticket is out, and what it reads is of no use.
    FetchVoid { place: u32, frame: u32 },
}

/// How an offer of a page for sharing ended.
#[derive(Clone, Copy, Debug, PartialEq, Eq)]
pub enum Offer {
    /// Nothing was done.
    Skipped,
    /// The page was zero, and has no frame any more.
    Zeroed,
    /// The page is the hint of its hash; or the shared frame on which it is, and which had no entry, has one under it.
    Hinted,
    /// It took the place of a hint whose page had changed, or that frame did.
    Stale,
    /// It shares a frame with a page of equal bytes.
    Merged,
    /// Other bytes have this hash.
    FalseMatch,
}

/// How an eviction ended.
#[derive(Clone, Copy, Debug, PartialEq, Eq)]
pub enum EvictEnd {
    /// The page is in its slot.
    Evicted,
    /// The page was written meanwhile, or its instance released.
    Void,
    /// The device failed.
    Failed,
}

/// How a fetch ended.
#[derive(Clone, Copy, Debug, PartialEq, Eq)]
pub enum FetchEnd {
    /// The page is in its frame.
    Fetched,
    /// Its instance was released.
    Void,
    /// The device failed.
    Failed,
}
