//! The values of constant expressions (3.3.7, 4.5.3): each is found by two look-ups at most, with no memory taken.

ghost use Rattle.std.specs.Prelude.{◌≡◌, ◌<◌, ℕ, length, slice_index};
ghost use Rattle.wh_initial.specs.ConstantWords.{IsSeen, word_in, HasWord, IsOffset};
ghost use Rattle.wh_initial.specs.ConstantExpressions.{IsConstantOf, IsReadAs};
ghost use Rattle.wh_initial.specs.InBasis.{host_words_in, words_of_basis, HasWords};

use crate::basis::Basis;
use wh_model::HostGlobal;
use wh_syntax::{Expr, Global, Instr};

/// What a constant expression is.
#[derive(Clone, Copy)]
pub enum Constant {
    /// A constant; an i32 in the low 32 bits.
    Word(u64),
    /// The global of this index.
    Global(usize),
}

/// What an instruction is that is a constant, or one of the globals.
fn constant_of_instr(instr: Instr) -> Constant
    requires { (count : ℕ) × HasWord count instr }
    ensures { IsConstantOf instr result }
{
    match instr {
        Instr::I32Const(number) => Constant::Word(u64::from(number.cast_unsigned())),
        Instr::I64Const(number) => Constant::Word(number.cast_unsigned()),
        Instr::GlobalGet(index) => Constant::Global(index as usize),
        _ => unreachable!(),
    }
}

/// What a constant expression is.
fn constant_of(expr: &Expr) -> Constant
    requires { (count : ℕ) × IsSeen count expr.now }
    ensures { IsReadAs expr.now result }
{
    constant_of_instr(expr.flat().instrs[0])
}

/// Returns the word of an imported global; an i32 in the low 32 bits.
pub fn imported_word(basis: &Basis<'_>, index: usize) -> u64
    requires { index < length basis.now.imported.now }
    ensures { result ≡ slice_index (host_words_in basis.now) index }
{
    match basis.imported[index] {
        HostGlobal::Base => u64::from(basis.parameters.base),
        HostGlobal::Salt => basis.parameters.salt,
    }
}

/// Returns the initial word of one of the module's own globals, whose expression may read imported ones only.
pub fn own_word(basis: &Basis<'_>, global: &Global) -> u64
    requires { IsSeen (length basis.now.imported.now) global.now.init }
    ensures { result ≡ word_in (host_words_in basis.now) global.now.init }
{
    match constant_of(&global.init) {
        Constant::Word(word) => word,
        Constant::Global(index) => imported_word(basis, index),
    }
}

/// The first word of a global, imported ones first.
fn global_word(basis: &Basis<'_>, index: usize) -> u64
    requires prepared { HasWords basis.now }
    requires there { index < length (words_of_basis basis.now) }
    ensures { result ≡ slice_index (words_of_basis basis.now) index }
{
    let imported = basis.imported.len();
    if index < imported {
        imported_word(basis, index)
    } else {
        own_word(basis, &basis.module.globals[index - imported])
    }
}

/// Returns the offset of a segment, unsigned.
pub fn offset_of(basis: &Basis<'_>, expr: &Expr) -> u32
    requires prepared { HasWords basis.now }
    requires offset { IsOffset (words_of_basis basis.now) expr.now }
    ensures { result ≡ word_in (words_of_basis basis.now) expr.now }
{
    let word = match constant_of(expr) {
        Constant::Word(word) => word,
        Constant::Global(index) => global_word(basis, index),
    };
    word as u32
}
