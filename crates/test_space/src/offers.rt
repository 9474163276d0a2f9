// Worked by hand: the outcome of offering a page.

use crate::access::End;
use crate::steps::{Begin, Case, Key, Step};
use crate::tables::take_each;
use anyhow::Result;
use wh_space_model::{Offer, Tax};

// A memory of eight frames with two instances, each of 16 pages.
const TWO: Begin = Begin {
    frames: 8,
    slots: 100,
    tax: Tax { num: 1, den: 4 },
    shares: 1,
    max: 40,
    steps: &[Step::Enter(0, 5, 1), Step::Enter(1, 6, 1)],
};

const EQUAL_PAGES: &[Step] = &[
    Step::Store(0, 8, &[1, 2, 3], End::Done),
    Step::Store(1, 8200, &[1, 2, 3], End::Done),
    Step::Store(1, 4104, &[1, 2, 3], End::Done),
    Step::Scan(0, 0, Offer::Hinted),
    Step::Scan(0, 0, Offer::Skipped),
    Step::Scan(1, 2, Offer::Merged),
    Step::Scan(1, 1, Offer::Merged),
    Step::Scan(1, 1, Offer::Skipped),
    Step::Scan(1, 9, Offer::Skipped),
    Step::Scan(7, 0, Offer::Skipped),
    Step::Load(1, 8199, &[0, 1, 2, 3], End::Done),
];

const ONE_HASH: &[Step] = &[
    Step::Store(0, 0, &[1], End::Done),
    Step::Store(1, 0, &[2], End::Done),
    Step::Store(1, 4096, &[1], End::Done),
    Step::ScanAsOne(0, 0, Offer::Hinted),
    Step::ScanAsOne(1, 0, Offer::FalseMatch),
    Step::ScanAsOne(1, 1, Offer::Merged),
    Step::ScanAsOne(1, 0, Offer::FalseMatch),
];

const ZEROS: &[Step] = &[
    Step::Store(0, 0, &[0], End::Done),
    Step::Alone(0, 0, true),
    Step::Scan(0, 0, Offer::Zeroed),
    Step::Alone(0, 0, false),
    Step::Scan(0, 0, Offer::Skipped),
];

const A_STALE_HINT: &[Step] = &[
    Step::Store(0, 0, &[1], End::Done),
    Step::Store(1, 0, &[1], End::Done),
    Step::Scan(0, 0, Offer::Hinted),
    Step::Store(0, 0, &[2], End::Done),
    Step::Scan(1, 0, Offer::Stale),
    Step::Store(0, 0, &[1], End::Done),
    Step::Scan(0, 0, Offer::Merged),
];

const WHO_IS_GONE: &[Step] = &[
    Step::Store(0, 0, &[1], End::Done),
    Step::OfferOf(0, 4, 0, Key::Number(77), Offer::Skipped),
    Step::OfferOf(0, 5, 0, Key::Number(77), Offer::Hinted),
];

const A_PASS: &[Step] = &[
    Step::Store(0, 0, &[1], End::Done),
    Step::Store(0, 4096, &[2], End::Done),
    Step::Store(1, 4096, &[1], End::Done),
    Step::Store(1, 61440, &[0], End::Done),
    Step::Pass,
    Step::Alone(0, 0, false),
    Step::Alone(0, 1, true),
    Step::Alone(1, 1, false),
    Step::Alone(1, 15, false),
];

const CASES: [Case; 6] = [
    Case {
        name: "equal pages come to one frame",
        begin: TWO,
        steps: EQUAL_PAGES,
    },
    Case {
        name: "one hash for all merges nothing else",
        begin: TWO,
        steps: ONE_HASH,
    },
    Case {
        name: "zeros have no frame",
        begin: TWO,
        steps: ZEROS,
    },
    Case {
        name: "a hint whose page changed is stale",
        begin: TWO,
        steps: A_STALE_HINT,
    },
    Case {
        name: "who is gone offers nothing",
        begin: TWO,
        steps: WHO_IS_GONE,
    },
    Case {
        name: "a pass leaves one frame for a content",
        begin: TWO,
        steps: A_PASS,
    },
];

/// Takes all cases, and prints a line for each.
pub fn run(rt: &(impl Print + AllocGlobal)) -> Result<()> {
    take_each(rt, &CASES)
}
