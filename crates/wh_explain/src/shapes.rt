//! What each command of a script is followed by.

use wh_commands::{LONGEST_NAME, MOST_DIGITS};

/// What a word has to be.
#[derive(Clone, Copy, Debug, PartialEq, Eq)]
pub enum WordKind {
    /// 1 to 32 of `a` to `z`, `0` to `9` and `_`.
    Name,
    /// Any word.
    Text,
    /// Bytes in hexadecimal, two digits each.
    Hex,
    /// A number from 0 to 2^64 - 1.
    Count,
    /// A number in the range of an i32, signed or unsigned.
    I32,
    /// A number in the range of an i64, signed or unsigned.
    I64,
    /// A number of 1 to 20 digits, with a `-` before them or none.
    Number,
}

/// A word that follows a command.
#[derive(Clone, Copy, Debug, PartialEq, Eq)]
pub struct Param {
    /// Its name in the language's description, as `FUEL`.
    pub label: &'static str,
    /// What it has to be.
    pub kind: WordKind,
}

/// A command, with the words that follow it.
#[derive(Clone, Copy, Debug)]
pub struct Shape {
    /// Its first word.
    pub verb: &'static str,
    /// How it is written, as a sentence.
    pub advice: &'static str,
    /// The words after that.
    pub params: &'static [Param],
    /// What any further words are, where there may be more.
    pub rest: Option<Param>,
}

const NAME: Param = Param {
    label: "NAME",
    kind: WordKind::Name,
};

const INST: Param = Param {
    label: "INST",
    kind: WordKind::Name,
};

const FUEL: Param = Param {
    label: "FUEL",
    kind: WordKind::Count,
};

static SHAPES: [Shape; 11] = [
    Shape {
        verb: "module",
        advice: "Write module NAME HEX.",
        params: &[
            NAME,
            Param {
                label: "HEX",
                kind: WordKind::Hex,
            },
        ],
        rest: None,
    },
    Shape {
        verb: "load",
        advice: "Write load NAME PATH.",
        params: &[
            NAME,
            Param {
                label: "PATH",
                kind: WordKind::Text,
            },
        ],
        rest: None,
    },
    Shape {
        verb: "admit",
        advice: "Write admit INST NAME SHARES MIN MAX FUEL BASE SALT [INPUT ..].",
        params: &[
            INST,
            NAME,
            Param {
                label: "SHARES",
                kind: WordKind::Count,
            },
            Param {
                label: "MIN",
                kind: WordKind::Count,
            },
            Param {
                label: "MAX",
                kind: WordKind::Count,
            },
            FUEL,
            Param {
                label: "BASE",
                kind: WordKind::I32,
            },
            Param {
                label: "SALT",
                kind: WordKind::I64,
            },
        ],
        rest: Some(Param {
            label: "INPUT",
            kind: WordKind::I64,
        }),
    },
    Shape {
        verb: "invoke",
        advice: "Write invoke INST EXPORT FUEL [ARG ..].",
        params: &[
            INST,
            Param {
                label: "EXPORT",
                kind: WordKind::Text,
            },
            FUEL,
        ],
        rest: Some(Param {
            label: "ARG",
            kind: WordKind::Number,
        }),
    },
    Shape {
        verb: "drain",
        advice: "Write drain.",
        params: &[],
        rest: None,
    },
    Shape {
        verb: "refuel",
        advice: "Write refuel INST N.",
        params: &[
            INST,
            Param {
                label: "N",
                kind: WordKind::Count,
            },
        ],
        rest: None,
    },
    Shape {
        verb: "cancel",
        advice: "Write cancel INST.",
        params: &[INST],
        rest: None,
    },
    Shape {
        verb: "retry",
        advice: "Write retry INST.",
        params: &[INST],
        rest: None,
    },
    Shape {
        verb: "scan",
        advice: "Write scan.",
        params: &[],
        rest: None,
    },
    Shape {
        verb: "report",
        advice: "Write report.",
        params: &[],
        rest: None,
    },
    Shape {
        verb: "release",
        advice: "Write release INST.",
        params: &[INST],
        rest: None,
    },
];

/// Finds the command of a first word.
pub fn shape_of(verb: &str) -> Option<&'static Shape> {
    SHAPES.iter().find(|shape| shape.verb == verb)
}

/// What is wrong with a word.
#[derive(Clone, Copy, Debug, PartialEq, Eq)]
pub enum WordFault {
    /// It is no name.
    NoName,
    /// It is no bytes in hexadecimal.
    NoHex,
    /// It is no number.
    NoNumber,
    /// It is a number, and out of its range.
    OutOfRange,
}

/// Whether a word is a name.
fn is_name(word: &str) -> bool {
    word.len() <= LONGEST_NAME
        && word
            .as_bytes()
            .iter()
            .all(|b| matches!(*b, b'a'..=b'z' | b'0'..=b'9' | b'_'))
}

/// Whether a word is bytes in hexadecimal.
fn is_hex(word: &str) -> bool {
    word.len() % 2 == 0 && word.as_bytes().iter().all(|b| b.is_ascii_hexdigit())
}

/// The number that a word is, if it is one.
fn number_in(word: &str) -> Option<i128> {
    let digits = word.strip_prefix("-").unwrap_or(word);
    if digits.len() > MOST_DIGITS || !digits.as_bytes().iter().all(|b| b.is_ascii_digit()) {
        return None;
    }
    word.parse::<i128>().ok()
}

/// What is wrong with a word that has to be a number from `least` to `most`.
fn number_fault(word: &str, least: i128, most: i128) -> Option<WordFault> {
    match number_in(word) {
        None => Some(WordFault::NoNumber),
        Some(number) if number < least || number > most => Some(WordFault::OutOfRange),
        Some(_) => None,
    }
}

/// Tells what is wrong with a word, which isn't empty, where it has to be of a kind.
pub fn word_fault(kind: WordKind, word: &str) -> Option<WordFault> {
    match kind {
        WordKind::Name if !is_name(word) => Some(WordFault::NoName),
        WordKind::Hex if !is_hex(word) => Some(WordFault::NoHex),
        WordKind::Name | WordKind::Hex | WordKind::Text => None,
        WordKind::Count => number_fault(word, 0, 0xFFFF_FFFF_FFFF_FFFF),
        WordKind::I32 => number_fault(word, -0x8000_0000, 0xFFFF_FFFF),
        WordKind::I64 => number_fault(word, -0x8000_0000_0000_0000, 0xFFFF_FFFF_FFFF_FFFF),
        WordKind::Number => number_fault(word, i128::MIN, i128::MAX),
    }
}

impl WordKind {
    /// Says what a word of the kind is.
    pub fn description(self) -> &'static str {
        match self {
            WordKind::Name => "a name: 1 to 32 of a to z, 0 to 9 and _",
            WordKind::Text => "any word",
            WordKind::Hex => "bytes in hexadecimal, two digits each",
            WordKind::Count => "a number from 0 to 18446744073709551615",
            WordKind::I32 => "a number from -2147483648 to 4294967295",
            WordKind::I64 => "a number from -9223372036854775808 to 18446744073709551615",
            WordKind::Number => "a number of 1 to 20 digits, with a - before them or none",
        }
    }
}
