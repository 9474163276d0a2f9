//! The first values of globals (4.5.3).

ghost use Rattle.std.specs.Prelude.{◌≡◌, ◌++◌, map, length, OnOk, IfOk, IfErr};
ghost use Rattle.std.specs.List.{All};
ghost use Rattle.wh_initial.specs.ConstantWords.{IsSeen, word_in};
ghost use Rattle.wh_initial.specs.InBasis.{host_words_in, words_of_basis, HasWords};

use crate::basis::Basis;
use crate::constants::{imported_word, own_word};
use crate::error::InstantiateError;
use std::alloc::Global;

/// Puts the values of globals of the host into a list.
///
/// # Errors
/// `Memory` where a growth was refused.
fn add_hosts(words: &mut Vec<u64>, basis: &Basis<'_>) -> Result<(), InstantiateError>
    ensures ok { OnOk result (words.new.items ≡ words.old.items ++ host_words_in basis.now) }
    ensures err { IfErr result (λ e. e ≡ InstantiateError.Memory) }
{
    for at in 0..basis.imported.len() {
        words.push(imported_word(basis, at))?;
    }
    Ok(())
}

/// Puts the first values of the module's own globals after those of the imported ones, which alone they see.
///
/// # Errors
/// `Memory` where a growth was refused.
fn add_own(words: &mut Vec<u64>, basis: &Basis<'_>) -> Result<(), InstantiateError>
    requires { All (λ g. IsSeen (length basis.now.imported.now) g.init)
        basis.now.module.now.globals.items }
    ensures ok { OnOk result
        (words.new.items ≡ words.old.items
        ++ map (λ g. word_in (host_words_in basis.now) g.init) basis.now.module.now.globals.items) }
    ensures err { IfErr result (λ e. e ≡ InstantiateError.Memory) }
{
    for global in &basis.module.globals {
        words.push(own_word(basis, global))?;
    }
    Ok(())
}

/// Returns the initial words of all globals, imported ones first; an i32 in the low 32 bits.
///
/// # Errors
/// `Memory` if the allocation fails.
pub fn first_globals(alloc: Global, basis: &Basis<'_>) -> Result<Vec<u64>, InstantiateError>
    requires { HasWords basis.now }
    ensures ok { IfOk result (λ words. words.items ≡ words_of_basis basis.now) }
    ensures err { IfErr result (λ e. e ≡ InstantiateError.Memory) }
{
    let count = basis.imported.len() + basis.module.globals.len();
    let mut words = Vec::with_capacity(alloc, count)?;
    add_hosts(&mut words, basis)?;
    add_own(&mut words, basis)?;
    Ok(words)
}
