// The memory as its callers see it.

ghost use Rattle.wh_space_model.specs.Sound.{IsSound};

use crate::occupant_entries::OccupantEntries;
use crate::pins::Pinned;
use std::marker::Model;
use wh_content::Table;
use wh_frames::FramePool;
use wh_space_model::Tax;
use wh_swap::Slots;
use wh_tables::Tables;

/// The memory of all instances, by their places, on one pool of frames.
pub struct Memory {
    pub(crate) occupant_entries: OccupantEntries,
    pub(crate) tables: Tables,
    pub(crate) pool: FramePool,
    pub(crate) content: Table,
    pub(crate) slots: Slots,
    pub(crate) pins: Option<Pinned>,
    pub(crate) tax: Tax,
}

impl Drop for Memory {
    fn drop(self) {
        let Memory {
            occupant_entries: _,
            tables: _,
            pool: _,
            content: _,
            slots: _,
            pins: _,
            tax: _,
        } = self;
    }
}

impl Model for Memory {
    ghost use Rattle.wh_space_model.specs.Parts.{Space};

    ghost Value = { Space };

    ghost use Rattle.wh_space.specs.Parts.{space_of, IsWell};

    ghost view = { space_of };

    ghost invariant = { IsWell };
}

impl Memory {
    /// States what always holds of the memory. Does nothing when run.
    #[inline(always)]
    pub fn invariant(&self)
        ensures sound { IsSound self.now }
    {
        let _ = &self.tax;
    }
}
