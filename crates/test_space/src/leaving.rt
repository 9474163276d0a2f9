// Worked by hand: an instance goes. Its own frames are free, those that it shared are the others', and another one comes to its
// place.

use crate::access::{Access, End};
use crate::steps::{Begin, Case, Found, Key, Step};
use crate::tables::take_each;
use anyhow::Result;
use wh_model::MOST_WASM_PAGES;
use wh_space_model::Tax;

// A memory of four frames, of which none is free, with two instances. Their first pages share a frame, and the first one has two
// more pages, of which one is a hint.
const TWO: Begin = Begin {
    frames: 4,
    slots: 100,
    tax: Tax { num: 1, den: 4 },
    shares: 1,
    max: 40,
    steps: TWO_SHARE,
};

const TWO_SHARE: &[Step] = &[
    Step::Enter(0, 5, 1),
    Step::Enter(1, 6, 1),
    Step::View(0, MOST_WASM_PAGES, Access::Store(0, &[1], End::Done)),
    Step::View(0, MOST_WASM_PAGES, Access::Store(4096, &[2], End::Done)),
    Step::View(0, MOST_WASM_PAGES, Access::Store(8192, &[3], End::Done)),
    Step::View(1, MOST_WASM_PAGES, Access::Store(0, &[1], End::Done)),
    Step::Hint(0, 0, 7),
    Step::Hint(0, 1, 8),
    Step::Pair(1, 0, 7),
    Step::View(1, MOST_WASM_PAGES, Access::Store(4096, &[4], End::Done)),
    Step::View(1, MOST_WASM_PAGES, Access::Store(8192, &[5], End::Waits)),
];

const WHO_GOES: &[Step] = &[
    Step::Exit(0, 6, false),
    Step::Exit(0, 5, true),
    Step::FreePlace(0, true),
    Step::View(0, MOST_WASM_PAGES, Access::Load(0, &[9], End::Traps)),
    // The other one has the shared frame, and both frames of the first one's own are free.
    Step::Entry(Key::Number(8), Found::Nothing),
    Step::Entry(Key::Number(7), Found::Something),
    Step::View(1, MOST_WASM_PAGES, Access::Load(0, &[1], End::Done)),
    Step::View(1, MOST_WASM_PAGES, Access::Store(0, &[6], End::Done)),
    Step::Entry(Key::Number(7), Found::Nothing),
    Step::View(1, MOST_WASM_PAGES, Access::Store(8192, &[5], End::Done)),
    Step::View(1, MOST_WASM_PAGES, Access::Store(12288, &[5], End::Done)),
    Step::View(1, MOST_WASM_PAGES, Access::Store(16384, &[5], End::Waits)),
    Step::View(1, MOST_WASM_PAGES, Access::Load(4096, &[4], End::Done)),
];

const ANOTHER_ONE: &[Step] = &[
    Step::Exit(0, 5, true),
    Step::Enter(0, 5, 1),
    Step::View(0, MOST_WASM_PAGES, Access::Load(0, &[0], End::Done)),
    Step::View(0, MOST_WASM_PAGES, Access::Load(4096, &[0], End::Done)),
    Step::View(0, MOST_WASM_PAGES, Access::Load(8192, &[0], End::Done)),
    Step::View(0, MOST_WASM_PAGES, Access::Store(4096, &[7], End::Done)),
    Step::View(0, MOST_WASM_PAGES, Access::Store(8192, &[8], End::Done)),
    Step::View(0, MOST_WASM_PAGES, Access::Store(12288, &[9], End::Waits)),
    // The last sharer goes, with a frame of its own.
    Step::Exit(1, 6, true),
    Step::Entry(Key::Number(7), Found::Nothing),
    Step::View(0, MOST_WASM_PAGES, Access::Store(12288, &[9], End::Done)),
    Step::View(0, MOST_WASM_PAGES, Access::Store(16384, &[9], End::Done)),
    Step::View(0, MOST_WASM_PAGES, Access::Store(20480, &[9], End::Waits)),
    Step::View(0, MOST_WASM_PAGES, Access::Load(4096, &[7], End::Done)),
];

const CASES: [Case; 2] = [
    Case {
        name: "who goes leaves what others share",
        begin: TWO,
        steps: WHO_GOES,
    },
    Case {
        name: "another one comes to the place",
        begin: TWO,
        steps: ANOTHER_ONE,
    },
];

/// Takes all cases, and prints a line for each.
pub fn run(rt: &(impl Print + AllocGlobal)) -> Result<()> {
    take_each(rt, &CASES)
}
