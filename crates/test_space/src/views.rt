// Worked by hand: two instances on a few frames, and the loads, stores and growths of each, seen by it alone.

use crate::access::{Access, End};
use crate::steps::{Begin, Case, Step};
use crate::tables::take_each;
use anyhow::Result;
use wh_model::{Grown, MOST_WASM_PAGES};
use wh_space_model::Tax;

// Two instances that were promised all frames.
const TWO: Begin = Begin {
    frames: 4,
    slots: 100,
    tax: Tax { num: 1, den: 4 },
    shares: 1,
    max: 40,
    steps: &[
        Step::Enter(0, 0, 2),
        Step::Enter(1, 1, 1),
        Step::FramesLeft(0),
        Step::FreshNumber(1, false),
    ],
};

const THREE_FRAMES: &[Step] = &[
    // A page and the next, at the end of the first page.
    Step::View(
        0,
        MOST_WASM_PAGES,
        Access::Store(4094, &[1, 2, 3, 4], End::Done),
    ),
    Step::View(
        0,
        MOST_WASM_PAGES,
        Access::Load(4093, &[0, 1, 2, 3], End::Done),
    ),
    Step::View(
        0,
        MOST_WASM_PAGES,
        Access::Load(131069, &[9; 4], End::Traps),
    ),
    Step::View(
        0,
        MOST_WASM_PAGES,
        Access::Store(131069, &[5; 4], End::Traps),
    ),
    Step::View(0, MOST_WASM_PAGES, Access::QuickStore(8, &[6; 4], true)),
    Step::View(0, MOST_WASM_PAGES, Access::QuickLoad(8, &[6; 4], true)),
    Step::View(0, MOST_WASM_PAGES, Access::QuickStore(4094, &[7; 4], false)),
    Step::View(0, MOST_WASM_PAGES, Access::QuickLoad(4094, &[9; 4], false)),
    Step::View(0, MOST_WASM_PAGES, Access::QuickStore(8192, &[7; 4], false)),
    Step::View(0, MOST_WASM_PAGES, Access::QuickLoad(8192, &[9; 4], false)),
    Step::View(0, MOST_WASM_PAGES, Access::Size(2)),
    Step::View(0, MOST_WASM_PAGES, Access::Grow(1, Grown::Refused)),
    Step::View(0, MOST_WASM_PAGES, Access::Size(2)),
    // The other one sees none of it, and has the last two frames.
    Step::View(1, 2, Access::Load(4093, &[0; 4], End::Done)),
    Step::View(1, 2, Access::Store(0, &[8; 4], End::Done)),
    Step::View(1, 2, Access::Size(1)),
    Step::View(1, 2, Access::Grow(1, Grown::Done(1))),
    Step::View(1, 2, Access::Size(2)),
    Step::View(1, 2, Access::Ready(65534, 4, false)),
    Step::View(1, 2, Access::Store(65534, &[8; 4], End::Waits)),
    Step::View(1, 2, Access::Store(65532, &[8; 4], End::Done)),
    Step::View(1, 2, Access::Load(65533, &[8, 8, 8, 0], End::Done)),
    // Where nobody is there are no bytes.
    Step::View(2, MOST_WASM_PAGES, Access::Load(0, &[9; 4], End::Traps)),
    Step::View(2, MOST_WASM_PAGES, Access::Size(0)),
    Step::View(2, MOST_WASM_PAGES, Access::Grow(0, Grown::Done(0))),
    Step::View(2, MOST_WASM_PAGES, Access::Size(0)),
];

const CASES: [Case; 1] = [Case {
    name: "two instances lie on three frames",
    begin: TWO,
    steps: THREE_FRAMES,
}];

/// Takes all cases, and prints a line for each.
pub fn run(rt: &(impl Print + AllocGlobal)) -> Result<()> {
    take_each(rt, &CASES)
}
