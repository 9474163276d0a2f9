// Tickets of pages in transit.

ghost use Rattle.std.specs.Borrow.{sem};
ghost use Rattle.std.specs.Prelude.{◌≡◌};
ghost use Rattle.wh_reclaim.specs.LentBuffers.{LendsBuffer};

use std::marker::Model;

/// Room for the bytes of a page.
pub type Buf = Box<[u8; 4096]>;

/// A page is leaving. Its bytes are to be written to the slot, and the ticket is to be brought back: it can't be copied, and
/// not be let go.
pub struct EvictTicket {
    pub(crate) slot: u32,
    pub(crate) bytes: Buf,
}

impl Model for EvictTicket {
    ghost use Rattle.wh_reclaim.specs.TicketViews.{Ticket};

    ghost Value = { Ticket };

    ghost use Rattle.wh_reclaim.specs.TicketViews.{evict_ticket_of};

    ghost view = { evict_ticket_of };
}

impl EvictTicket {
    /// Returns the slot that is to be written.
    pub fn slot(&self) -> u32
        ensures { result ≡ self.now.slot }
    {
        self.slot
    }

    /// Returns the 4096 bytes that are to be written to it.
    pub fn bytes(&self) -> &[u8; 4096]
        ensures { result.now ≡ self.now.bytes }
    {
        &self.bytes
    }
}

/// A page is coming. The slot is to be read into the buffer, and the ticket is to be brought back: it can't be copied, and
/// not be let go.
pub struct FetchTicket {
    pub(crate) slot: u32,
    pub(crate) bytes: Buf,
}

impl Model for FetchTicket {
    ghost use Rattle.wh_reclaim.specs.TicketViews.{Ticket};

    ghost Value = { Ticket };

    ghost use Rattle.wh_reclaim.specs.TicketViews.{fetch_ticket_of};

    ghost view = { fetch_ticket_of };
}

impl FetchTicket {
    /// Returns the slot that is to be read.
    pub fn slot(&self) -> u32
        ensures { result ≡ self.now.slot }
    {
        self.slot
    }

    /// Returns the buffer of 4096 bytes into which it is to be read.
    pub fn bytes_mut(&mut self) -> &mut [u8; 4096]
        ensures* writes { sem 𝓛 (LendsBuffer self.entry result) }
        ensures value { result.now ≡ self.old.bytes }
    {
        &mut self.bytes
    }
}
