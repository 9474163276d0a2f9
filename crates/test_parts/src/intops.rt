//! The operators of `wh_intops`: edge values of each at both widths, against what another engine gives.
//! `node crates/test_parts/vectors/vectors.js` printed the tables.

use crate::tables::{agree, agree_in_rows};
use anyhow::Result;
use wh_intops::{binop, convert, relop, testop, unop};
use wh_model::Trap::{DivideByZero, Overflow};
use wh_model::{BinaryOp, CompareOp, ConvertOp, TestOp, Trap, UnaryOp, ValType};

const WORDS_32: [u32; 7] = [
    0, 1, 0xFFFFFFFF, 0x80000000, 0x7FFFFFFF, 0x89ABCDE6, 0x89ABCDE,
];

const UNARY_32: [(UnaryOp, [u64; 7]); 5] = [
    (UnaryOp::Clz, [32, 31, 0, 0, 1, 0, 4]),
    (UnaryOp::Ctz, [32, 0, 0, 31, 0, 1, 1]),
    (UnaryOp::Popcnt, [0, 1, 32, 1, 31, 18, 16]),
    (
        UnaryOp::Extend8S,
        [0, 1, 0xFFFFFFFF, 0, 0xFFFFFFFF, 0xFFFFFFE6, 0xFFFFFFDE],
    ),
    (
        UnaryOp::Extend16S,
        [0, 1, 0xFFFFFFFF, 0, 0xFFFFFFFF, 0xFFFFCDE6, 0xFFFFBCDE],
    ),
];

const EQZ_32: [u64; 7] = [1, 0, 0, 0, 0, 0, 0];

const PAIRS_32: [(u32, u32); 11] = [
    (0, 1),
    (0xFFFFFFFF, 0x80000000),
    (0x7FFFFFFF, 0xFFFFFFFF),
    (0xFFFFFFF9, 2),
    (7, 0xFFFFFFFE),
    (0x80000000, 0x7FFFFFFF),
    (0x80000000, 31),
    (0x89ABCDE6, 31),
    (0x89ABCDE6, 32),
    (0x89ABCDE6, 33),
    (0x89ABCDE6, 0x89ABCDE6),
];

const COMPARE_32: [(CompareOp, [u64; 11]); 10] = [
    (CompareOp::Eq, [0, 0, 0, 0, 0, 0, 0, 0, 0, 0, 1]),
    (CompareOp::Ne, [1, 1, 1, 1, 1, 1, 1, 1, 1, 1, 0]),
    (CompareOp::LtS, [1, 0, 0, 1, 0, 1, 1, 1, 1, 1, 0]),
    (CompareOp::LtU, [1, 0, 1, 0, 1, 0, 0, 0, 0, 0, 0]),
    (CompareOp::GtS, [0, 1, 1, 0, 1, 0, 0, 0, 0, 0, 0]),
    (CompareOp::GtU, [0, 1, 0, 1, 0, 1, 1, 1, 1, 1, 0]),
    (CompareOp::LeS, [1, 0, 0, 1, 0, 1, 1, 1, 1, 1, 1]),
    (CompareOp::LeU, [1, 0, 1, 0, 1, 0, 0, 0, 0, 0, 1]),
    (CompareOp::GeS, [0, 1, 1, 0, 1, 0, 0, 0, 0, 0, 1]),
    (CompareOp::GeU, [0, 1, 0, 1, 0, 1, 1, 1, 1, 1, 1]),
];

const BINARY_32: [(BinaryOp, [u64; 11]); 15] = [
    (
        BinaryOp::Add,
        [
            1, 0x7FFFFFFF, 0x7FFFFFFE, 0xFFFFFFFB, 5, 0xFFFFFFFF, 0x8000001F, 0x89ABCE05,
            0x89ABCE06, 0x89ABCE07, 0x13579BCC,
        ],
    ),
    (
        BinaryOp::Sub,
        [
            0xFFFFFFFF, 0x7FFFFFFF, 0x80000000, 0xFFFFFFF7, 9, 1, 0x7FFFFFE1, 0x89ABCDC7,
            0x89ABCDC6, 0x89ABCDC5, 0,
        ],
    ),
    (
        BinaryOp::Mul,
        [
            0, 0x80000000, 0x80000001, 0xFFFFFFF2, 0xFFFFFFF2, 0x80000000, 0x80000000, 0xABCDEEDA,
            0x3579BCC0, 0xBF258AA6, 0xE2DE2AA4,
        ],
    ),
    (
        BinaryOp::DivS,
        [
            0, 0, 0x80000001, 0xFFFFFFFD, 0xFFFFFFFD, 0xFFFFFFFF, 0xFBDEF7BE, 0xFC2ED518,
            0xFC4D5E70, 0xFC6A0E00, 1,
        ],
    ),
    (
        BinaryOp::DivU,
        [
            0, 1, 0, 0x7FFFFFFC, 0, 1, 0x4210842, 0x470E59C, 0x44D5E6F, 0x42BFE7B, 1,
        ],
    ),
    (
        BinaryOp::RemS,
        [
            0, 0xFFFFFFFF, 0, 0xFFFFFFFF, 1, 0xFFFFFFFF, 0xFFFFFFFE, 0xFFFFFFFE, 0xFFFFFFE6,
            0xFFFFFFE6, 0,
        ],
    ),
    (
        BinaryOp::RemU,
        [0, 0x7FFFFFFF, 0x7FFFFFFF, 1, 7, 1, 2, 2, 6, 11, 0],
    ),
    (
        BinaryOp::And,
        [0, 0x80000000, 0x7FFFFFFF, 0, 6, 0, 0, 6, 32, 32, 0x89ABCDE6],
    ),
    (
        BinaryOp::Or,
        [
            1, 0xFFFFFFFF, 0xFFFFFFFF, 0xFFFFFFFB, 0xFFFFFFFF, 0xFFFFFFFF, 0x8000001F, 0x89ABCDFF,
            0x89ABCDE6, 0x89ABCDE7, 0x89ABCDE6,
        ],
    ),
    (
        BinaryOp::Xor,
        [
            1, 0x7FFFFFFF, 0x80000000, 0xFFFFFFFB, 0xFFFFFFF9, 0xFFFFFFFF, 0x8000001F, 0x89ABCDF9,
            0x89ABCDC6, 0x89ABCDC7, 0,
        ],
    ),
    (
        BinaryOp::Shl,
        [
            0, 0xFFFFFFFF, 0x80000000, 0xFFFFFFE4, 0xC0000000, 0, 0, 0, 0x89ABCDE6, 0x13579BCC,
            0x6AF37980,
        ],
    ),
    (
        BinaryOp::ShrS,
        [
            0, 0xFFFFFFFF, 0, 0xFFFFFFFE, 0, 0xFFFFFFFF, 0xFFFFFFFF, 0xFFFFFFFF, 0x89ABCDE6,
            0xC4D5E6F3, 0xFE26AF37,
        ],
    ),
    (
        BinaryOp::ShrU,
        [
            0, 0xFFFFFFFF, 0, 0x3FFFFFFE, 0, 1, 1, 1, 0x89ABCDE6, 0x44D5E6F3, 0x226AF37,
        ],
    ),
    (
        BinaryOp::Rotl,
        [
            0, 0xFFFFFFFF, 0xBFFFFFFF, 0xFFFFFFE7, 0xC0000001, 0x40000000, 0x40000000, 0x44D5E6F3,
            0x89ABCDE6, 0x13579BCD, 0x6AF379A2,
        ],
    ),
    (
        BinaryOp::Rotr,
        [
            0, 0xFFFFFFFF, 0xFFFFFFFE, 0x7FFFFFFE, 28, 1, 1, 0x13579BCD, 0x89ABCDE6, 0x44D5E6F3,
            0x9A26AF37,
        ],
    ),
];

const UNUSUAL_32: [(BinaryOp, u32, u32, Result<u64, Trap>); 12] = [
    (BinaryOp::DivS, 1, 0, Err(DivideByZero)),
    (BinaryOp::DivS, 0x80000000, 0, Err(DivideByZero)),
    (BinaryOp::DivS, 0x80000000, 0xFFFFFFFF, Err(Overflow)),
    (BinaryOp::DivU, 1, 0, Err(DivideByZero)),
    (BinaryOp::DivU, 0x80000000, 0, Err(DivideByZero)),
    (BinaryOp::DivU, 0x80000000, 0xFFFFFFFF, Ok(0)),
    (BinaryOp::RemS, 1, 0, Err(DivideByZero)),
    (BinaryOp::RemS, 0x80000000, 0, Err(DivideByZero)),
    (BinaryOp::RemS, 0x80000000, 0xFFFFFFFF, Ok(0)),
    (BinaryOp::RemU, 1, 0, Err(DivideByZero)),
    (BinaryOp::RemU, 0x80000000, 0, Err(DivideByZero)),
    (BinaryOp::RemU, 0x80000000, 0xFFFFFFFF, Ok(0x80000000)),
];

const EXTEND_S: [u64; 7] = [
    0,
    1,
    0xFFFF_FFFF_FFFF_FFFF,
    0xFFFF_FFFF_8000_0000,
    0x7FFFFFFF,
    0xFFFF_FFFF_89AB_CDE6,
    0x89ABCDE,
];

const EXTEND_U: [u64; 7] = [
    0, 1, 0xFFFFFFFF, 0x80000000, 0x7FFFFFFF, 0x89ABCDE6, 0x89ABCDE,
];

const WORDS_64: [u64; 7] = [
    0,
    1,
    0xFFFF_FFFF_FFFF_FFFF,
    0x8000_0000_0000_0000,
    0x7FFF_FFFF_FFFF_FFFF,
    0x89AB_CDEF_0123_4560,
    0x89A_BCDE_F012_3456,
];

const UNARY_64: [(UnaryOp, [u64; 7]); 6] = [
    (UnaryOp::Clz, [64, 63, 0, 0, 1, 0, 4]),
    (UnaryOp::Ctz, [64, 0, 0, 63, 0, 5, 1]),
    (UnaryOp::Popcnt, [0, 1, 64, 1, 63, 29, 29]),
    (
        UnaryOp::Extend8S,
        [
            0,
            1,
            0xFFFF_FFFF_FFFF_FFFF,
            0,
            0xFFFF_FFFF_FFFF_FFFF,
            96,
            86,
        ],
    ),
    (
        UnaryOp::Extend16S,
        [
            0,
            1,
            0xFFFF_FFFF_FFFF_FFFF,
            0,
            0xFFFF_FFFF_FFFF_FFFF,
            0x4560,
            0x3456,
        ],
    ),
    (
        UnaryOp::Extend32S,
        [
            0,
            1,
            0xFFFF_FFFF_FFFF_FFFF,
            0,
            0xFFFF_FFFF_FFFF_FFFF,
            0x1234560,
            0xFFFF_FFFF_F012_3456,
        ],
    ),
];

const EQZ_64: [u64; 7] = [1, 0, 0, 0, 0, 0, 0];

const PAIRS_64: [(u64, u64); 11] = [
    (0, 1),
    (0xFFFF_FFFF_FFFF_FFFF, 0x8000_0000_0000_0000),
    (0x7FFF_FFFF_FFFF_FFFF, 0xFFFF_FFFF_FFFF_FFFF),
    (0xFFFF_FFFF_FFFF_FFF9, 2),
    (7, 0xFFFF_FFFF_FFFF_FFFE),
    (0x8000_0000_0000_0000, 0x7FFF_FFFF_FFFF_FFFF),
    (0x8000_0000_0000_0000, 63),
    (0x89AB_CDEF_0123_4560, 63),
    (0x89AB_CDEF_0123_4560, 64),
    (0x89AB_CDEF_0123_4560, 65),
    (0x89AB_CDEF_0123_4560, 0x89AB_CDEF_0123_4560),
];

const COMPARE_64: [(CompareOp, [u64; 11]); 10] = [
    (CompareOp::Eq, [0, 0, 0, 0, 0, 0, 0, 0, 0, 0, 1]),
    (CompareOp::Ne, [1, 1, 1, 1, 1, 1, 1, 1, 1, 1, 0]),
    (CompareOp::LtS, [1, 0, 0, 1, 0, 1, 1, 1, 1, 1, 0]),
    (CompareOp::LtU, [1, 0, 1, 0, 1, 0, 0, 0, 0, 0, 0]),
    (CompareOp::GtS, [0, 1, 1, 0, 1, 0, 0, 0, 0, 0, 0]),
    (CompareOp::GtU, [0, 1, 0, 1, 0, 1, 1, 1, 1, 1, 0]),
    (CompareOp::LeS, [1, 0, 0, 1, 0, 1, 1, 1, 1, 1, 1]),
    (CompareOp::LeU, [1, 0, 1, 0, 1, 0, 0, 0, 0, 0, 1]),
    (CompareOp::GeS, [0, 1, 1, 0, 1, 0, 0, 0, 0, 0, 1]),
    (CompareOp::GeU, [0, 1, 0, 1, 0, 1, 1, 1, 1, 1, 1]),
];

const BINARY_64: [(BinaryOp, [u64; 11]); 15] = [
    (
        BinaryOp::Add,
        [
            1,
            0x7FFF_FFFF_FFFF_FFFF,
            0x7FFF_FFFF_FFFF_FFFE,
            0xFFFF_FFFF_FFFF_FFFB,
            5,
            0xFFFF_FFFF_FFFF_FFFF,
            0x8000_0000_0000_003F,
            0x89AB_CDEF_0123_459F,
            0x89AB_CDEF_0123_45A0,
            0x89AB_CDEF_0123_45A1,
            0x1357_9BDE_0246_8AC0,
        ],
    ),
    (
        BinaryOp::Sub,
        [
            0xFFFF_FFFF_FFFF_FFFF,
            0x7FFF_FFFF_FFFF_FFFF,
            0x8000_0000_0000_0000,
            0xFFFF_FFFF_FFFF_FFF7,
            9,
            1,
            0x7FFF_FFFF_FFFF_FFC1,
            0x89AB_CDEF_0123_4521,
            0x89AB_CDEF_0123_4520,
            0x89AB_CDEF_0123_451F,
            0,
        ],
    ),
    (
        BinaryOp::Mul,
        [
            0,
            0x8000_0000_0000_0000,
            0x8000_0000_0000_0001,
            0xFFFF_FFFF_FFFF_FFF2,
            0xFFFF_FFFF_FFFF_FFF2,
            0x8000_0000_0000_0000,
            0x8000_0000_0000_0000,
            0xE147_ADD1_47AE_12A0,
            0x6AF3_7BC0_48D1_5800,
            0xF49F_49AF_49F4_9D60,
            0xB38_94A6_CB0C_E400,
        ],
    ),
    (
        BinaryOp::DivS,
        [
            0,
            0,
            0x8000_0000_0000_0001,
            0xFFFF_FFFF_FFFF_FFFD,
            0xFFFF_FFFF_FFFF_FFFD,
            0xFFFF_FFFF_FFFF_FFFF,
            0xFDF7_DF7D_F7DF_7DF8,
            0xFE1F_2BE7_596A_35EE,
            0xFE26_AF37_BC04_8D16,
            0xFE2D_F75A_52B9_A67C,
            1,
        ],
    ),
    (
        BinaryOp::DivU,
        [
            0,
            1,
            0,
            0x7FFF_FFFF_FFFF_FFFC,
            0,
            1,
            0x208_2082_0820_8208,
            0x22F_6CEB_69AB_39FD,
            0x226_AF37_BC04_8D15,
            0x21E_365E_42F8_AA6B,
            1,
        ],
    ),
    (
        BinaryOp::RemS,
        [
            0,
            0xFFFF_FFFF_FFFF_FFFF,
            0,
            0xFFFF_FFFF_FFFF_FFFF,
            1,
            0xFFFF_FFFF_FFFF_FFFF,
            0xFFFF_FFFF_FFFF_FFF8,
            0xFFFF_FFFF_FFFF_FFCE,
            0xFFFF_FFFF_FFFF_FFE0,
            0xFFFF_FFFF_FFFF_FFE4,
            0,
        ],
    ),
    (
        BinaryOp::RemU,
        [
            0,
            0x7FFF_FFFF_FFFF_FFFF,
            0x7FFF_FFFF_FFFF_FFFF,
            1,
            7,
            1,
            8,
            29,
            32,
            53,
            0,
        ],
    ),
    (
        BinaryOp::And,
        [
            0,
            0x8000_0000_0000_0000,
            0x7FFF_FFFF_FFFF_FFFF,
            0,
            6,
            0,
            0,
            32,
            64,
            64,
            0x89AB_CDEF_0123_4560,
        ],
    ),
    (
        BinaryOp::Or,
        [
            1,
            0xFFFF_FFFF_FFFF_FFFF,
            0xFFFF_FFFF_FFFF_FFFF,
            0xFFFF_FFFF_FFFF_FFFB,
            0xFFFF_FFFF_FFFF_FFFF,
            0xFFFF_FFFF_FFFF_FFFF,
            0x8000_0000_0000_003F,
            0x89AB_CDEF_0123_457F,
            0x89AB_CDEF_0123_4560,
            0x89AB_CDEF_0123_4561,
            0x89AB_CDEF_0123_4560,
        ],
    ),
    (
        BinaryOp::Xor,
        [
            1,
            0x7FFF_FFFF_FFFF_FFFF,
            0x8000_0000_0000_0000,
            0xFFFF_FFFF_FFFF_FFFB,
            0xFFFF_FFFF_FFFF_FFF9,
            0xFFFF_FFFF_FFFF_FFFF,
            0x8000_0000_0000_003F,
            0x89AB_CDEF_0123_455F,
            0x89AB_CDEF_0123_4520,
            0x89AB_CDEF_0123_4521,
            0,
        ],
    ),
    (
        BinaryOp::Shl,
        [
            0,
            0xFFFF_FFFF_FFFF_FFFF,
            0x8000_0000_0000_0000,
            0xFFFF_FFFF_FFFF_FFE4,
            0xC000_0000_0000_0000,
            0,
            0,
            0,
            0x89AB_CDEF_0123_4560,
            0x1357_9BDE_0246_8AC0,
            0x123_4560_0000_0000,
        ],
    ),
    (
        BinaryOp::ShrS,
        [
            0,
            0xFFFF_FFFF_FFFF_FFFF,
            0,
            0xFFFF_FFFF_FFFF_FFFE,
            0,
            0xFFFF_FFFF_FFFF_FFFF,
            0xFFFF_FFFF_FFFF_FFFF,
            0xFFFF_FFFF_FFFF_FFFF,
            0x89AB_CDEF_0123_4560,
            0xC4D5_E6F7_8091_A2B0,
            0xFFFF_FFFF_89AB_CDEF,
        ],
    ),
    (
        BinaryOp::ShrU,
        [
            0,
            0xFFFF_FFFF_FFFF_FFFF,
            0,
            0x3FFF_FFFF_FFFF_FFFE,
            0,
            1,
            1,
            1,
            0x89AB_CDEF_0123_4560,
            0x44D5_E6F7_8091_A2B0,
            0x89ABCDEF,
        ],
    ),
    (
        BinaryOp::Rotl,
        [
            0,
            0xFFFF_FFFF_FFFF_FFFF,
            0xBFFF_FFFF_FFFF_FFFF,
            0xFFFF_FFFF_FFFF_FFE7,
            0xC000_0000_0000_0001,
            0x4000_0000_0000_0000,
            0x4000_0000_0000_0000,
            0x44D5_E6F7_8091_A2B0,
            0x89AB_CDEF_0123_4560,
            0x1357_9BDE_0246_8AC1,
            0x123_4560_89AB_CDEF,
        ],
    ),
    (
        BinaryOp::Rotr,
        [
            0,
            0xFFFF_FFFF_FFFF_FFFF,
            0xFFFF_FFFF_FFFF_FFFE,
            0x7FFF_FFFF_FFFF_FFFE,
            28,
            1,
            1,
            0x1357_9BDE_0246_8AC1,
            0x89AB_CDEF_0123_4560,
            0x44D5_E6F7_8091_A2B0,
            0x123_4560_89AB_CDEF,
        ],
    ),
];

const UNUSUAL_64: [(BinaryOp, u64, u64, Result<u64, Trap>); 12] = [
    (BinaryOp::DivS, 1, 0, Err(DivideByZero)),
    (BinaryOp::DivS, 0x8000_0000_0000_0000, 0, Err(DivideByZero)),
    (
        BinaryOp::DivS,
        0x8000_0000_0000_0000,
        0xFFFF_FFFF_FFFF_FFFF,
        Err(Overflow),
    ),
    (BinaryOp::DivU, 1, 0, Err(DivideByZero)),
    (BinaryOp::DivU, 0x8000_0000_0000_0000, 0, Err(DivideByZero)),
    (
        BinaryOp::DivU,
        0x8000_0000_0000_0000,
        0xFFFF_FFFF_FFFF_FFFF,
        Ok(0),
    ),
    (BinaryOp::RemS, 1, 0, Err(DivideByZero)),
    (BinaryOp::RemS, 0x8000_0000_0000_0000, 0, Err(DivideByZero)),
    (
        BinaryOp::RemS,
        0x8000_0000_0000_0000,
        0xFFFF_FFFF_FFFF_FFFF,
        Ok(0),
    ),
    (BinaryOp::RemU, 1, 0, Err(DivideByZero)),
    (BinaryOp::RemU, 0x8000_0000_0000_0000, 0, Err(DivideByZero)),
    (
        BinaryOp::RemU,
        0x8000_0000_0000_0000,
        0xFFFF_FFFF_FFFF_FFFF,
        Ok(0x8000_0000_0000_0000),
    ),
];

const WRAP: [u64; 7] = [0, 1, 0xFFFFFFFF, 0, 0xFFFFFFFF, 0x1234560, 0xF0123456];

// How many answers the tables have.
const CASES: usize = (UNARY_32.len() + UNARY_64.len()) * WORDS_32.len()
    + (BINARY_32.len() + BINARY_64.len()) * PAIRS_32.len()
    + UNUSUAL_32.len()
    + UNUSUAL_64.len()
    + (COMPARE_32.len() + COMPARE_64.len()) * PAIRS_32.len()
    + EQZ_32.len()
    + EQZ_64.len()
    + EXTEND_S.len()
    + EXTEND_U.len()
    + WRAP.len();

// Each of these gives the first row, and the place in it, at which another answer comes than the table has.

fn unary_32() -> Option<(usize, usize)> {
    for (row, (op, wants)) in UNARY_32.iter().enumerate() {
        for (place, (word, want)) in WORDS_32.iter().zip(wants).enumerate() {
            if unop(ValType::I32, *op, u64::from(*word)) != *want {
                return Some((row, place));
            }
        }
    }
    None
}

fn unary_64() -> Option<(usize, usize)> {
    for (row, (op, wants)) in UNARY_64.iter().enumerate() {
        for (place, (word, want)) in WORDS_64.iter().zip(wants).enumerate() {
            if unop(ValType::I64, *op, *word) != *want {
                return Some((row, place));
            }
        }
    }
    None
}

fn binary_32() -> Option<(usize, usize)> {
    for (row, (op, wants)) in BINARY_32.iter().enumerate() {
        for (place, ((left, right), want)) in PAIRS_32.iter().zip(wants).enumerate() {
            if binop(ValType::I32, *op, u64::from(*left), u64::from(*right)) != Ok(*want) {
                return Some((row, place));
            }
        }
    }
    None
}

fn binary_64() -> Option<(usize, usize)> {
    for (row, (op, wants)) in BINARY_64.iter().enumerate() {
        for (place, ((left, right), want)) in PAIRS_64.iter().zip(wants).enumerate() {
            if binop(ValType::I64, *op, *left, *right) != Ok(*want) {
                return Some((row, place));
            }
        }
    }
    None
}

fn unusual_32() -> Option<usize> {
    for (row, (op, left, right, want)) in UNUSUAL_32.iter().enumerate() {
        if binop(ValType::I32, *op, u64::from(*left), u64::from(*right)) != *want {
            return Some(row);
        }
    }
    None
}

fn unusual_64() -> Option<usize> {
    for (row, (op, left, right, want)) in UNUSUAL_64.iter().enumerate() {
        if binop(ValType::I64, *op, *left, *right) != *want {
            return Some(row);
        }
    }
    None
}

fn compare_32() -> Option<(usize, usize)> {
    for (row, (op, wants)) in COMPARE_32.iter().enumerate() {
        for (place, ((left, right), want)) in PAIRS_32.iter().zip(wants).enumerate() {
            if relop(ValType::I32, *op, u64::from(*left), u64::from(*right)) != *want {
                return Some((row, place));
            }
        }
    }
    None
}

fn compare_64() -> Option<(usize, usize)> {
    for (row, (op, wants)) in COMPARE_64.iter().enumerate() {
        for (place, ((left, right), want)) in PAIRS_64.iter().zip(wants).enumerate() {
            if relop(ValType::I64, *op, *left, *right) != *want {
                return Some((row, place));
            }
        }
    }
    None
}

fn eqz_32() -> Option<usize> {
    for (place, (word, want)) in WORDS_32.iter().zip(&EQZ_32).enumerate() {
        if testop(TestOp::Eqz, u64::from(*word)) != *want {
            return Some(place);
        }
    }
    None
}

fn eqz_64() -> Option<usize> {
    for (place, (word, want)) in WORDS_64.iter().zip(&EQZ_64).enumerate() {
        if testop(TestOp::Eqz, *word) != *want {
            return Some(place);
        }
    }
    None
}

fn extend(op: ConvertOp, wants: &[u64; 7]) -> Option<usize> {
    for (place, (word, want)) in WORDS_32.iter().zip(wants).enumerate() {
        if convert(op, u64::from(*word)) != *want {
            return Some(place);
        }
    }
    None
}

fn wrap() -> Option<usize> {
    for (place, (word, want)) in WORDS_64.iter().zip(&WRAP).enumerate() {
        if convert(ConvertOp::WrapI64, *word) != *want {
            return Some(place);
        }
    }
    None
}

/// Compares each answer of the tables: how many they are.
pub fn check() -> Result<usize> {
    agree_in_rows("unary operators of 32 bits", unary_32())?;
    agree_in_rows("unary operators of 64 bits", unary_64())?;
    agree_in_rows("binary operators of 32 bits", binary_32())?;
    agree_in_rows("binary operators of 64 bits", binary_64())?;
    agree("divisions of 32 bits", unusual_32())?;
    agree("divisions of 64 bits", unusual_64())?;
    agree_in_rows("comparisons of 32 bits", compare_32())?;
    agree_in_rows("comparisons of 64 bits", compare_64())?;
    agree("eqz of 32 bits", eqz_32())?;
    agree("eqz of 64 bits", eqz_64())?;
    agree("extend_s", extend(ConvertOp::ExtendI32S, &EXTEND_S))?;
    agree("extend_u", extend(ConvertOp::ExtendI32U, &EXTEND_U))?;
    agree("wrap", wrap())?;
    Ok(CASES)
}
