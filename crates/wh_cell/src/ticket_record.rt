//! Who keeps the swap device, and what host and device know of each other.

ghost use Rattle.std.specs.Prelude.{◌≡◌, Some};
ghost use Rattle.wh_space_model.specs.Errands.{to_read, to_write};
ghost use Rattle.wh_cell.specs.Knowing.{with_ticket, without_ticket};

use crate::agreements::{CellAgreements, ToDevice};
use std::marker::{Model, PhantomData};
use std::snapshot::Snapshot;
use wh_host::Host;
use wh_swap::SwapDev;
use wh_threads::{AgreedValue, Agreement, AgreementHalf, Change};

/// Agreed on by the locks of host and device: the device as it was when its last call was settled, and the tickets that are
/// out. It is a value of contracts alone: none is made.
pub struct AgreedDevice<D> {
    none: PhantomData<D>,
}

impl<D> Model for AgreedDevice<D> {
    ghost use Rattle.wh_cell.specs.Knowing.{KnownState, no_device};

    ghost Value = { KnownState D };

    ghost use Rattle.wh_cell.specs.Stored.{stored_known};

    ghost coded = { stored_known D.code };

    ghost view = { λ _. no_device };
}

impl<D> AgreedValue for AgreedDevice<D> {
    ghost use Rattle.wh_cell.specs.Knowing.{no_device};

    ghost nothing = { no_device };
}

// A host begins with this device, and has no ticket out.
#[derive(Drop)]
pub struct Begins<D: SwapDev> {
    pub host: Snapshot<Host>,
    pub device: Snapshot<D>,
}

impl<D: SwapDev> Change<AgreedDevice<D>> for Begins<D> {
    ghost use Rattle.wh_cell.specs.Knowing.{backs, known_of};

    ghost after = { λ c _. known_of (backs c.host.value.space c.device.value) };
}

// A ticket goes out for a slot that is to be written.
#[derive(Clone, Copy)]
struct GoesToWrite {
    slot: u32,
}

impl<D> Change<AgreedDevice<D>> for GoesToWrite {
    ghost use Rattle.wh_cell.specs.Knowing.{with_ticket};
    ghost use Rattle.wh_space_model.specs.Errands.{to_write};

    ghost after = { λ c known. with_ticket known c.slot to_write };
}

// One goes out for a slot that is to be read.
#[derive(Clone, Copy)]
struct GoesToRead {
    slot: u32,
}

impl<D> Change<AgreedDevice<D>> for GoesToRead {
    ghost use Rattle.wh_cell.specs.Knowing.{with_ticket};
    ghost use Rattle.wh_space_model.specs.Errands.{to_read};

    ghost after = { λ c known. with_ticket known c.slot to_read };
}

// It comes back, and the device is as it is now.
#[derive(Drop)]
struct ComesBack<D: SwapDev> {
    slot: u32,
    device: Snapshot<D>,
}

impl<D: SwapDev> Change<AgreedDevice<D>> for ComesBack<D> {
    ghost use Rattle.wh_cell.specs.Knowing.{without_ticket};

    ghost after = { λ c known. without_ticket known c.slot c.device.value };
}

// The device is as it is now.
#[derive(Drop)]
struct IsNow<D: SwapDev> {
    device: Snapshot<D>,
}

impl<D: SwapDev> Change<AgreedDevice<D>> for IsNow<D> {
    ghost use Rattle.std.specs.Prelude.{Some};

    ghost after = { λ c known. record known { device = Some c.device.value } };
}

// Nothing changes.
#[derive(Clone, Copy)]
struct Same;

impl<D> Change<AgreedDevice<D>> for Same {
    ghost after = { λ _ known. known };
}

/// Known under the host's lock of what both know.
pub type DeviceHalf<D, B> = AgreementHalf<ToDevice<B>, AgreedDevice<D>>;

/// Keeps, beside the device, what contracts see of the host: which tickets are out. It takes no bytes but those of the
/// agreement.
#[derive(Drop)]
pub struct TicketRecord<D, B: CellAgreements> {
    agreement: Agreement<ToDevice<B>, AgreedDevice<D>>,
    half: DeviceHalf<D, B>,
}

impl<D, B: CellAgreements> Model for TicketRecord<D, B> {
    ghost use Rattle.wh_cell.specs.Knowing.{KnownState};

    ghost Value = { KnownState D };

    ghost use Rattle.wh_cell.specs.Stored.{stored_known};

    ghost coded = { stored_known D.code };

    ghost view = { λ k. k.half };
}

impl<D: SwapDev, B: CellAgreements> TicketRecord<D, B> {
    // Who holds this half of the agreement.
    pub(crate) fn with(
        agreement: Agreement<ToDevice<B>, AgreedDevice<D>>,
        half: DeviceHalf<D, B>,
    ) -> TicketRecord<D, B>
        ensures { result ≡ half }
    {
        TicketRecord { agreement, half }
    }

    // Whoever has both locks finds that both know the same.
    pub(crate) fn agree(&mut self, known: &mut DeviceHalf<D, B>)
        ensures agreed { known.old ≡ self.old }
        ensures same { (self.new ≡ self.old) × (known.new ≡ self.old) }
    {
        self.agreement.settle(known, &mut self.half, &Same);
    }

    // A ticket goes out for a slot that is to be written.
    pub(crate) fn begin_write(&mut self, known: &mut DeviceHalf<D, B>, slot: u32)
        ensures keeper { self.new ≡ with_ticket self.old slot to_write }
        ensures known { known.new ≡ self.new }
    {
        self.agreement
            .settle(known, &mut self.half, &GoesToWrite { slot });
    }

    // One goes out for a slot that is to be read.
    pub(crate) fn begin_read(&mut self, known: &mut DeviceHalf<D, B>, slot: u32)
        ensures keeper { self.new ≡ with_ticket self.old slot to_read }
        ensures known { known.new ≡ self.new }
    {
        self.agreement
            .settle(known, &mut self.half, &GoesToRead { slot });
    }

    // The ticket comes back, and the device is as it is now.
    pub(crate) fn commit(&mut self, known: &mut DeviceHalf<D, B>, slot: u32, device: &D)
        ensures keeper { self.new ≡ without_ticket self.old slot device.now }
        ensures known { known.new ≡ self.new }
    {
        let by = ComesBack {
            slot,
            device: Snapshot::of(device),
        };
        self.agreement.settle(known, &mut self.half, &by);
    }

    // The device was called under both locks, and is as it is now.
    pub(crate) fn settle(&mut self, known: &mut DeviceHalf<D, B>, device: &D)
        ensures keeper { self.new ≡ record self.old { device = Some device.now } }
        ensures known { known.new ≡ self.new }
    {
        let by = IsNow {
            device: Snapshot::of(device),
        };
        self.agreement.settle(known, &mut self.half, &by);
    }
}
