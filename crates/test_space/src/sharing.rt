// Worked by hand: what pages, frames and entries come to after a few stores, offers and passes.

use crate::access::End;
use crate::steps::{Begin, Case, Found, Key, Step};
use crate::tables::take_each;
use anyhow::Result;
use wh_space_model::{Offer, Tax};

// A memory of eight frames, and no instance.
const NOBODY: Begin = Begin {
    frames: 8,
    slots: 4096,
    tax: Tax { num: 3, den: 4 },
    shares: 100,
    max: 16,
    steps: &[],
};

// Instances at the first places, each of which has its place as its number.
const ONE: Begin = Begin {
    steps: &[Step::Enter(0, 0, 1)],
    ..NOBODY
};

const TWO: Begin = Begin {
    steps: &[Step::Enter(0, 0, 1), Step::Enter(1, 1, 1)],
    ..NOBODY
};

// The same on four frames.
const TWO_ON_FOUR: Begin = Begin { frames: 4, ..TWO };

const THREE: Begin = Begin {
    frames: 1024,
    steps: &[
        Step::Enter(0, 0, 1),
        Step::Enter(1, 1, 1),
        Step::Enter(2, 2, 1),
    ],
    ..NOBODY
};

// The first eight bytes of a page.
const FIRST_1: &[u8] = &[1, 0, 0, 0, 0, 0, 0, 0];

const FIRST_2: &[u8] = &[2, 0, 0, 0, 0, 0, 0, 0];

const WORD: &[u8] = &[1, 2, 3, 4, 5, 6, 7, 8];

const THREE_EQUAL_PAGES: &[Step] = &[
    Step::Store(0, 0, &[1], End::Done),
    Step::Store(1, 0, &[1], End::Done),
    Step::Store(2, 0, &[1], End::Done),
    Step::Used(3),
    Step::Sharing(0, 0),
    Step::Pass,
    Step::Used(1),
    Step::Free(1023),
    Step::Sharing(1, 3),
    Step::Store(0, 0, &[2], End::Done),
    Step::Used(2),
    Step::Free(1022),
    Step::Sharing(1, 2),
    Step::Load(0, 0, FIRST_2, End::Done),
    Step::Load(1, 0, FIRST_1, End::Done),
    // The frame that two share still has its entry: a page that is equal again joins it.
    Step::Store(0, 0, &[1], End::Done),
    Step::Pass,
    Step::Used(1),
    Step::Sharing(1, 3),
];

const ONE_HASH_FOR_ALL: &[Step] = &[
    Step::Store(0, 0, &[1], End::Done),
    Step::Store(1, 0, &[2], End::Done),
    Step::ScanAsOne(0, 0, Offer::Hinted),
    Step::ScanAsOne(1, 0, Offer::FalseMatch),
    Step::Used(2),
    Step::Sharing(0, 0),
    Step::Entry(Key::Number(0), Found::HintOf(0, 0)),
    Step::Load(0, 0, FIRST_1, End::Done),
    Step::Load(1, 0, FIRST_2, End::Done),
];

const A_STORE_OVER_BOTH_SHARERS: &[Step] = &[
    Step::Store(0, 0, &[5; 4096], End::Done),
    Step::Store(0, 4096, &[5; 4096], End::Done),
    Step::Note(0, 0),
    Step::Pass,
    Step::Used(1),
    Step::Sharing(1, 2),
    Step::Entry(Key::Noted, Found::Something),
    // The other instance has the last three frames: then it isn't ready, and nothing is done.
    Step::Store(1, 0, &[0], End::Done),
    Step::Store(1, 4096, &[1], End::Done),
    Step::Store(1, 8192, &[2], End::Done),
    Step::Ready(0, 4092, 8, false),
    Step::Store(0, 4092, WORD, End::Waits),
    Step::Load(0, 4092, &[5; 8], End::Done),
    Step::Used(4),
    Step::Sharing(1, 2),
    Step::Entry(Key::Noted, Found::Something),
    // A page of zeros gives its frame up, and the store takes it: the two pages have one each.
    Step::Scan(1, 0, Offer::Zeroed),
    Step::Used(3),
    Step::Free(1),
    Step::Ready(0, 4092, 8, true),
    Step::Store(0, 4092, WORD, End::Done),
    Step::Load(0, 4092, WORD, End::Done),
    Step::Load(0, 4084, &[5; 8], End::Done),
    Step::Load(0, 4100, &[5; 8], End::Done),
    Step::Used(4),
    Step::Sharing(0, 0),
    Step::Entry(Key::Noted, Found::Nothing),
];

const A_HINT_WHOSE_PAGE_WAS_WRITTEN: &[Step] = &[
    Step::Store(0, 0, &[1], End::Done),
    Step::Note(0, 0),
    Step::Scan(0, 0, Offer::Hinted),
    Step::Entry(Key::Noted, Found::HintOf(0, 0)),
    Step::Store(0, 0, &[2], End::Done),
    Step::Store(1, 4096, &[1], End::Done),
    Step::Scan(1, 1, Offer::Stale),
    Step::Entry(Key::Noted, Found::HintOf(1, 1)),
    // The hint is the other page's now, so it finds its own; the first one is hinted at under its new hash.
    Step::Scan(1, 1, Offer::Skipped),
    Step::Scan(0, 0, Offer::Hinted),
    Step::Used(2),
    Step::Sharing(0, 0),
];

const A_STORE_OF_ZERO: &[Step] = &[
    Step::Load(0, 0, &[0; 8], End::Done),
    Step::Used(0),
    Step::Store(0, 0, &[0], End::Done),
    Step::Used(1),
    Step::Pass,
    Step::Used(0),
];

const PAGES_THAT_MAY_NOT_MERGE: &[Step] = &[
    Step::Store(0, 0, &[3], End::Done),
    Step::Store(0, 4096, &[3], End::Done),
    Step::Store(0, 8192, &[3], End::Done),
    Step::Store(1, 0, &[4], End::Done),
    Step::Scan(0, 0, Offer::Hinted),
    // The page that its own entry hints at, under the hash that it was offered under.
    Step::Scan(0, 0, Offer::Skipped),
    // A page that is shared already.
    Step::Scan(0, 1, Offer::Merged),
    Step::Scan(0, 1, Offer::Skipped),
    // A page of an instance that isn't there, though another is at its place.
    Step::Note(1, 0),
    Step::OfferOf(1, 7, 0, Key::Noted, Offer::Skipped),
    Step::OfferOf(9, 1, 0, Key::Noted, Offer::Skipped),
    Step::Used(3),
];

const WHO_IS_GONE: &[Step] = &[
    Step::Store(0, 0, &[1], End::Done),
    Step::Store(1, 0, &[2], End::Done),
    Step::Note(0, 0),
    Step::Scan(0, 0, Offer::Hinted),
    // With the instance its frame and its hint go.
    Step::Exit(0, 0, true),
    Step::Used(1),
    Step::Free(7),
    Step::Entry(Key::Noted, Found::Nothing),
    Step::OfferOf(0, 0, 0, Key::Noted, Offer::Skipped),
    // Another one comes to its place, with the same bytes. Only under its own number they are offered.
    Step::Enter(0, 2, 1),
    Step::Store(0, 0, &[1], End::Done),
    Step::OfferOf(0, 0, 0, Key::Noted, Offer::Skipped),
    Step::Entry(Key::Noted, Found::Nothing),
    Step::OfferOf(0, 2, 0, Key::Noted, Offer::Hinted),
    Step::Used(2),
    Step::Free(6),
];

const A_PAGE_MAY_CHANGE: &[Step] = &[
    Step::Store(0, 0, &[1], End::Done),
    Step::Note(0, 0),
    Step::Store(0, 0, &[2], End::Done),
    // It is hinted at under its old hash, and whoever finds this hint by an equal hash finds it stale.
    Step::Offer(0, 0, Key::Noted, Offer::Hinted),
    Step::Store(1, 4096, &[1], End::Done),
    Step::Scan(1, 1, Offer::Stale),
    Step::Load(0, 0, FIRST_2, End::Done),
    Step::Load(1, 4096, FIRST_1, End::Done),
    Step::Used(2),
];

const CASES: [Case; 8] = [
    Case {
        name: "three equal pages share a frame until one is written",
        begin: THREE,
        steps: THREE_EQUAL_PAGES,
    },
    Case {
        name: "one hash for all merges no different pages",
        begin: TWO,
        steps: ONE_HASH_FOR_ALL,
    },
    Case {
        name: "a store over both sharers of a frame wants one frame",
        begin: TWO_ON_FOUR,
        steps: A_STORE_OVER_BOTH_SHARERS,
    },
    Case {
        name: "a hint whose page was written is stale",
        begin: TWO,
        steps: A_HINT_WHOSE_PAGE_WAS_WRITTEN,
    },
    Case {
        name: "a store of zero takes a frame until a pass",
        begin: ONE,
        steps: A_STORE_OF_ZERO,
    },
    Case {
        name: "pages that may not merge are skipped",
        begin: TWO,
        steps: PAGES_THAT_MAY_NOT_MERGE,
    },
    Case {
        name: "who is gone has no page to offer",
        begin: TWO,
        steps: WHO_IS_GONE,
    },
    Case {
        name: "a page may change between its sample and its offer",
        begin: TWO,
        steps: A_PAGE_MAY_CHANGE,
    },
];

/// Takes all cases, and prints a line for each.
pub fn run(rt: &(impl Print + AllocGlobal)) -> Result<()> {
    take_each(rt, &CASES)
}
