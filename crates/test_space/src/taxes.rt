// Worked by hand: which page has to leave, by shares and by a tax on idle pages.

use crate::steps::{Begin, Case, Step};
use crate::tables::take_each;
use anyhow::Result;
use wh_reclaim::PageOf;
use wh_space_model::Tax;

// Two instances with 100 shares each and a minimum of 2, each of 128 pages, where idle pages are taxed.
const TAXED: Begin = Begin {
    frames: 160,
    slots: 400,
    tax: Tax { num: 3, den: 4 },
    shares: 100,
    max: 128,
    steps: &[Step::Enter(0, 0, 8), Step::Enter(1, 1, 8)],
};

const UNTAXED: Begin = Begin {
    tax: Tax { num: 0, den: 1 },
    ..TAXED
};

const FIRST_OF_ALL: PageOf = PageOf { place: 0, page: 0 };

const FIRST_OF_THE_OTHER: PageOf = PageOf { place: 1, page: 0 };

// 100 pages all touched against 50 none touched.
const IDLE_PAGES: &[Step] = &[
    Step::Fill(0, 100),
    Step::Fill(1, 50),
    Step::Epoch,
    Step::Fill(0, 100),
    // Weights 100 and 200.
    Step::MustLeave(0, FIRST_OF_THE_OTHER),
];

const MORE_PAGES: &[Step] = &[
    Step::Fill(0, 100),
    Step::Fill(1, 50),
    Step::Epoch,
    Step::Fill(0, 100),
    // Weights 100 and 50.
    Step::MustLeave(0, FIRST_OF_ALL),
];

// 10 pages none touched against 40 all touched.
const A_TIE: &[Step] = &[
    Step::Fill(0, 10),
    Step::Fill(1, 40),
    Step::Epoch,
    Step::Fill(1, 40),
    // Weights 40 and 40.
    Step::MustLeave(0, FIRST_OF_ALL),
];

// Nobody is above its minimum.
const MINIMA: &[Step] = &[
    Step::Fill(0, 2),
    Step::Fill(1, 2),
    Step::Epoch,
    // It gives a page of its own.
    Step::MustLeave(0, FIRST_OF_ALL),
];

const CASES: [Case; 4] = [
    Case {
        name: "the taxed pay",
        begin: TAXED,
        steps: IDLE_PAGES,
    },
    Case {
        name: "who has more pays where nobody is taxed",
        begin: UNTAXED,
        steps: MORE_PAGES,
    },
    Case {
        name: "the first one pays where two weigh the same",
        begin: TAXED,
        steps: A_TIE,
    },
    Case {
        name: "who lacks a frame pays where nobody is above its minimum",
        begin: TAXED,
        steps: MINIMA,
    },
];

/// Takes all cases, and prints a line for each.
pub fn run(rt: &(impl Print + AllocGlobal)) -> Result<()> {
    take_each(rt, &CASES)
}
