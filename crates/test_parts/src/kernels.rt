//! The kernels of `wh_kernels` over pages, whose hashes were computed by a program in another language; and the published
//! vectors of FNV-1a.

ghost use Rattle.std.specs.Prelude.{◌≡◌, [], ◌∷◌};
ghost use Rattle.wh_space_model.specs.Hash.{fnv64};

use crate::tables::{agree, first_other};
use anyhow::Result;
use wh_kernels::{ConstantHash, FnvHash, PageHash, fnv64, is_zero, pages_equal};

const HASHES: [u64; 4] = [
    0xb93a0c83ce3b6325,
    0xc0b014328067f325,
    0xb067bcd54bc3aac5,
    0,
];

// A page and itself, and with another last byte; zeros, and zeros with another last byte.
const ANSWERS: [bool; 4] = [true, false, true, false];

// The published vectors of FNV-1a, for the empty text, `a` and `foobar`. A kernel hashes pages alone; but what it gives is
// what the definition says, and that the definition gives these is proved here.
fn published_vectors()
    ensures empty { fnv64 [] ≡ 14695981039346656037 }
    ensures a { fnv64 (97 ∷ []) ≡ 12638187200555641996 }
    ensures foobar { fnv64 (102 ∷ 111 ∷ 111 ∷ 98 ∷ 97 ∷ 114 ∷ []) ≡ 9625390261332436968 }
{}

const VECTORS: usize = 3;

// The bytes 0 to 250, again and again.
fn counting_page() -> [u8; 4096] {
    let mut page = [0; 4096];
    for (at, byte) in page.iter_mut().enumerate() {
        *byte = (at % 251) as u8;
    }
    page
}

fn hash_by<H: PageHash>(hash: &H, page: &[u8; 4096]) -> u64 {
    hash.hash(page)
}

fn hashes() -> [u64; 4] {
    let page = counting_page();
    [
        fnv64(&[0; 4096]),
        fnv64(&[255; 4096]),
        hash_by(&FnvHash, &page),
        hash_by(&ConstantHash, &page),
    ]
}

fn answers() -> [bool; 4] {
    let page = counting_page();
    let mut other = counting_page();
    let same = pages_equal(&page, &other);
    other[4095] = 255;
    let mut zeros = [0; 4096];
    let zero = is_zero(&zeros);
    zeros[4095] = 1;
    [same, pages_equal(&page, &other), zero, is_zero(&zeros)]
}

/// Looks at each answer: how many they are.
pub fn check() -> Result<usize> {
    agree("hashes of pages", first_other(&hashes(), &HASHES))?;
    agree("pages compared", first_other(&answers(), &ANSWERS))?;
    published_vectors();
    Ok(HASHES.len() + ANSWERS.len() + VECTORS)
}
