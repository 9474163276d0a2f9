//! Documents, and the settings that `wh_settings` reads in them.

use crate::tables::agree;
use anyhow::{Result, ensure};
use std::alloc::Global;
use wh_settings::{HashKind, Settings, SettingsError, Workers, read_settings};

// What settings have to be.
#[derive(Clone, Copy)]
struct Wanted {
    frames: u32,
    slots: u32,
    tax: (u32, u32),
    quantum: u64,
    hash: HashKind,
    swap: Option<&'static str>,
}

const DEFAULTS: Wanted = Wanted {
    frames: 1024,
    slots: 4096,
    tax: (3, 4),
    quantum: 1000,
    hash: HashKind::Fnv64,
    swap: None,
};

const EACH_KEY: Wanted = Wanted {
    frames: 2,
    slots: 1048576,
    tax: (0, 1),
    quantum: 1,
    hash: HashKind::Constant,
    swap: Some("/tmp/slots"),
};

const EACH_KEY_TEXT: &str =
    "frames = 2\nslots = 1048576\ntax_num = 0\ntax_den = 1\nquantum = 1\nhash = \"constant\"\nswap = \"/tmp/slots\"\n";

// Documents that spell no settings.
const INVALID: [&str; 22] = [
    "frames = 1",
    "frames = 262145",
    "frames = \"2\"",
    "frames = 2.0",
    "frames = -2",
    "slots = 0",
    "slots = 1048577",
    "tax_num = 4",
    "tax_num = -1",
    "tax_den = 3",
    "tax_den = 1001",
    "quantum = 0",
    "quantum = 1000001",
    "hash = \"fnv\"",
    "hash = 0",
    "swap = 1",
    "swap = \"\"",
    "frame = 1024",
    "workers = 4",
    "[frames]",
    "frames = 2\nframes = 2",
    "frames",
];

// Numbers of workers, and what `Workers` makes of them.
const WORKERS: [(u8, Option<usize>); 6] = [
    (1, Some(1)),
    (4, Some(4)),
    (64, Some(64)),
    (0, None),
    (65, None),
    (255, None),
];

fn are(settings: &Settings, wanted: &Wanted) -> bool {
    (settings.frames, settings.slots, settings.quantum)
        == (wanted.frames, wanted.slots, wanted.quantum)
        && (settings.tax.num, settings.tax.den) == wanted.tax
        && settings.hash == wanted.hash
        && settings.swap.as_ref().map(String::as_str) == wanted.swap
}

fn are_spelled(alloc: Global, text: &str, wanted: &Wanted) -> bool {
    match read_settings(alloc, text.as_bytes()) {
        Ok(settings) => are(&settings, wanted),
        Err(_) => false,
    }
}

fn is_invalid(alloc: Global, text: &str) -> bool {
    matches!(
        read_settings(alloc, text.as_bytes()),
        Err(SettingsError::Invalid)
    )
}

fn wrongly_read(alloc: Global) -> Option<usize> {
    for (row, text) in INVALID.iter().enumerate() {
        if !is_invalid(alloc, text) {
            return Some(row);
        }
    }
    None
}

fn wrong_workers() -> Option<usize> {
    for (row, (number, count)) in WORKERS.iter().enumerate() {
        if Workers::new(*number).map(Workers::count) != *count {
            return Some(row);
        }
    }
    None
}

/// Reads each document, and makes each number of workers: how many they are, with the defaults of both.
pub fn check(alloc: Global) -> Result<usize> {
    ensure!(
        are_spelled(alloc, "# nothing\n", &DEFAULTS),
        "no defaults are read"
    );
    ensure!(are(&Settings::default(), &DEFAULTS), "other defaults");
    ensure!(
        are_spelled(alloc, EACH_KEY_TEXT, &EACH_KEY),
        "a key is read otherwise"
    );
    agree("documents", wrongly_read(alloc))?;
    agree("workers", wrong_workers())?;
    ensure!(Workers::default().count() == 4, "other workers");
    Ok(3 + INVALID.len() + WORKERS.len() + 1)
}
