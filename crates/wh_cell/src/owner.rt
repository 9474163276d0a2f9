//! Who may ask of a host that lies under a lock.

ghost use Rattle.std.specs.Prelude.{◌≡◌};
ghost use Rattle.wh_cell.specs.LeftByOwner.{LeftState};

use crate::agreements::{CellAgreements, ToOwner};
use crate::ticket_record::DeviceHalf;
use std::marker::{Model, PhantomData};
use std::snapshot::Snapshot;
use wh_host::Host;
use wh_threads::{AgreedValue, Agreement, AgreementHalf, Change};

/// Agreed on by owner and lock: how the owner left the host. It is a value of contracts alone: none is made.
pub struct AgreedHost<D> {
    none: PhantomData<D>,
}

impl<D> Model for AgreedHost<D> {
    ghost use Rattle.wh_cell.specs.LeftByOwner.{LeftState, no_host};

    ghost Value = { LeftState D };

    ghost use Rattle.wh_cell.specs.Stored.{stored_left};

    ghost coded = { stored_left D.code };

    ghost view = { λ _. no_host };
}

impl<D> AgreedValue for AgreedHost<D> {
    ghost use Rattle.wh_cell.specs.LeftByOwner.{no_host};

    ghost nothing = { no_host };
}

// The host is left as it is now, with the device that it knows.
#[derive(Drop)]
pub struct LeavesAs<D, B: CellAgreements> {
    pub host: Snapshot<Host>,
    pub known: Snapshot<DeviceHalf<D, B>>,
}

impl<D, B: CellAgreements> Change<AgreedHost<D>> for LeavesAs<D, B> {
    ghost after = { λ c _. record { host = c.host.value; device = c.known.value.device } };
}

/// Allows requests to a host under a lock: contracts see how the host was left, and its device then. It takes few bytes and no
/// memory.
#[derive(Drop)]
pub struct Owner<D, B: CellAgreements> {
    agreement: Agreement<ToOwner<B>, AgreedHost<D>>,
    half: AgreementHalf<ToOwner<B>, AgreedHost<D>>,
}

impl<D, B: CellAgreements> Model for Owner<D, B> {
    ghost use Rattle.wh_cell.specs.LeftByOwner.{LeftState};

    ghost Value = { LeftState D };

    ghost use Rattle.wh_cell.specs.Stored.{stored_left};

    ghost coded = { stored_left D.code };

    ghost view = { λ o. o.half };
}

impl<D, B: CellAgreements> Owner<D, B> {
    // Who holds this half of the agreement.
    pub(crate) fn with(
        agreement: Agreement<ToOwner<B>, AgreedHost<D>>,
        half: AgreementHalf<ToOwner<B>, AgreedHost<D>>,
    ) -> Owner<D, B>
        ensures { result ≡ half }
    {
        Owner { agreement, half }
    }

    // Whoever has the lock too leaves the host as it is now. Both knew how it was left before.
    pub(crate) fn leave(
        &mut self,
        left: &mut AgreementHalf<ToOwner<B>, AgreedHost<D>>,
        host: &Host,
        known: &DeviceHalf<D, B>,
    )
        ensures agreed { self.old ≡ left.old }
        ensures owner { self.new ≡ record { host = host.now; device = known.now.device } }
        ensures left { left.new ≡ self.new }
    {
        let by = LeavesAs {
            host: Snapshot::of(host),
            known: Snapshot::of(known),
        };
        self.agreement.settle(&mut self.half, left, &by);
    }
}
