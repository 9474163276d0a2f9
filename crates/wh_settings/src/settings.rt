//! What a host is run with.

ghost use Rattle.std.specs.Prelude.{◌≤◌};

use wh_space_model::Tax;

/// By which hash equal pages are looked for.
#[derive(Clone, Copy, Debug, PartialEq, Eq)]
pub enum HashKind {
    /// FNV-1a of 64 bits.
    Fnv64,
    /// The constant 0: all pages have one hash.
    Constant,
}

/// What a host is run with.
#[derive(Debug, Drop)]
pub struct Settings {
    /// How many frames of 4096 bytes memory has, 2 to 262144.
    pub frames: u32,
    /// How many slots of 4096 bytes the swap device has, 1 to 1048576.
    pub slots: u32,
    /// The tax on idle pages.
    pub tax: Tax,
    /// The greatest number of charges of a turn, 1 to 1000000.
    pub quantum: u64,
    /// By which hash equal pages are looked for.
    pub hash: HashKind,
    /// The path of the file to which pages are swapped. Without one they are swapped to memory.
    pub swap: Option<String>,
    ghost frames_above: { 2 ≤ frames },
    ghost frames_within: { frames ≤ 262144 },
    ghost slots_above: { 1 ≤ slots },
    ghost slots_within: { slots ≤ 1048576 },
    ghost quantum_above: { 1 ≤ quantum },
    ghost quantum_within: { quantum ≤ 1000000 },
}

impl Settings {
    ghost use Rattle.std.specs.Prelude.{◌≡◌};
    ghost use Rattle.wh_script_model.specs.Settings.{default_settings};
    ghost use Rattle.wh_settings.specs.View.{settings_of};

    /// Returns the default settings: 1024 frames, 4096 slots, a tax of 3/4, turns of 1000 charges, FNV-1a, and no swap
    /// file.
    pub fn default() -> Settings
        ensures { settings_of result ≡ default_settings }
    {
        Settings {
            frames: 1024,
            slots: 4096,
            tax: Tax { num: 3, den: 4 },
            quantum: 1000,
            hash: HashKind::Fnv64,
            swap: None,
        }
    }
}
