//! Which agreements a cell has.

use std::marker::{Brand, PhantomData};
use wh_threads::AgreementId;

/// Names both agreements of a cell: that of the host with its owner, and of the host with its device. A proof picks which at a
/// call, as those of ledgers.
pub trait CellAgreements {
    ghost use Rattle.atomic_table.specs.Seated.{TableId};

    ghost to_owner: { TableId };

    ghost to_device: { TableId };
}

impl CellAgreements for Brand {
    ghost use Rattle.wh_threads.specs.Agreement.{no_table};

    ghost to_owner = { no_table };

    ghost to_device = { no_table };
}

/// That with the owner.
pub struct ToOwner<B> {
    of: PhantomData<B>,
}

impl<B: CellAgreements> AgreementId for ToOwner<B> {
    ghost table = { B.to_owner };
}

/// That with the device.
pub struct ToDevice<B> {
    of: PhantomData<B>,
}

impl<B: CellAgreements> AgreementId for ToDevice<B> {
    ghost table = { B.to_device };
}
