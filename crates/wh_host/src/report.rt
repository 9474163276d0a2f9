//! What a report says.

ghost use Rattle.std.specs.Prelude.{◌≤◌};

use wh_space_model::Tax;

/// What a report says of an instance.
#[derive(Clone, Copy, Debug, PartialEq, Eq)]
pub struct InstanceReport {
    /// Its number.
    pub number: u64,
    /// Its place.
    pub place: usize,
    /// Its shares of memory, at most 1000000.
    pub shares: u32,
    /// The least number of frames that it keeps.
    pub min: u32,
    /// The greatest number of frames of its memory.
    pub max: u32,
    /// How many frames are charged to it, at most 65536: its pages' own ones, and the shared ones of which its page is
    /// the first sharer.
    pub charged: u32,
    /// On how many of these a page of any instance was touched.
    pub active: u32,
    /// How many of its pages are swapped.
    pub swapped: u32,
    ghost shares_within: { shares ≤ 1000000 },
    ghost charged_within: { charged ≤ 65536 },
    ghost active_within: { active ≤ charged },
}

/// How the frames and slots of a host are used, and how many instances it has.
#[derive(Clone, Copy, Debug, PartialEq, Eq)]
pub struct HostUsage {
    /// How many frames there are.
    pub frames: u32,
    /// How many of these are in use.
    pub used_frames: u32,
    /// How many slots of the swap device there are.
    pub slots: u32,
    /// How many of these are in use.
    pub used_slots: u32,
    /// On how many frames several pages lie.
    pub shared_frames: u32,
    /// How many pages these are.
    pub sharers: u64,
    /// The tax on idle pages.
    pub tax: Tax,
    /// How many instances there are.
    pub instances: usize,
    ghost frames_within: { used_frames ≤ frames },
    ghost slots_within: { used_slots ≤ slots },
}

/// How the frames, slots and pages of a host are used.
#[derive(Drop)]
pub struct Report {
    /// What it says of the whole.
    pub usage: HostUsage,
    /// What it says of each instance, by number.
    pub instances: Vec<InstanceReport>,
}
