//! What lies under the lock of the swap device.

ghost use Rattle.std.specs.Prelude.{◌≡◌, Some};
ghost use Rattle.wh_cell.specs.Knowing.{NoneOut, known_of};

use crate::agreements::CellAgreements;
use crate::ticket_record::TicketRecord;
use std::marker::Model;
use wh_reclaim::Buf;
use wh_swap::SwapDev;

/// Holds a swap device, its keeper, and a buffer for the page of a call. It has a lock of its own, so that its calls are made
/// while others go on under the host's. Contracts see the device and the tickets for its slots.
///
/// Its type keeps that no ticket is out while nobody has that lock, and that the host knows the device as it is.
pub struct Backing<D: SwapDev, B: CellAgreements> {
    pub(crate) device: D,
    // There is always one, but while a call is made.
    pub(crate) buf: Option<Buf>,
    pub(crate) keeper: TicketRecord<D, B>,
}

impl<D: SwapDev + Drop, B: CellAgreements> Drop for Backing<D, B> {
    fn drop(self) {
        let Backing {
            device: _,
            buf: _,
            keeper: _,
        } = self;
    }
}

impl<D: SwapDev, B: CellAgreements> Model for Backing<D, B> {
    ghost use Rattle.wh_cell.specs.Knowing.{BackingState};
    ghost use Rattle.wh_cell.specs.Locking.{IsKept};

    ghost Value = { BackingState D };

    ghost use Rattle.wh_cell.specs.Stored.{stored_backing};

    ghost coded = { stored_backing D.code };

    ghost view = { λ b. record { device = b.device; out = b.keeper.out } };

    ghost invariant = { λ b. IsKept b.device b.buf b.keeper };
}

impl<D: SwapDev + Drop, B: CellAgreements> Backing<D, B> {
    /// Returns the device, when the host is done.
    pub fn into_device(self) -> D
        ensures { result ≡ self.device }
    {
        let Backing {
            device,
            buf: _,
            keeper: _,
        } = self;
        device
    }
}

impl<D: SwapDev, B: CellAgreements> Backing<D, B> {
    /// States what holds while nobody has the device's lock: no ticket is out. Does nothing when run.
    #[inline(always)]
    pub fn invariant(&self)
        ensures { NoneOut self.now.out }
    {
        let _ = &self.buf;
    }
}
