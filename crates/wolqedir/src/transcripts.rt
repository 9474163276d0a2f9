//! Transcripts as words.

ghost use Rattle.std.specs.Prelude.{◌≡◌, ◌++◌, IfOk, OnOk};
ghost use Rattle.wolqedir.specs.Transcribed.{all_words, entry_words, end_words, func_word};

use std::alloc::{AllocError, Global};
use wh_journal::{CallEnd, JournalCall};

// The word of a call's function: its index, or 2^64 - 1 for none.
fn word_of(func: Option<u32>) -> u64
    ensures { result ≡ func_word func }
{
    match func {
        Some(func) => u64::from(func),
        None => u64::MAX,
    }
}

// How a call has ended: the kind of its status or 0, how many results it has, and the result or the trap's number.
fn words_of_end(end: CallEnd) -> [u64; 3]
    ensures { result ≡ end_words end }
{
    match end {
        CallEnd::Open => [0, 0, 0],
        CallEnd::Returned(None) => [6, 0, 0],
        CallEnd::Returned(Some(word)) => [6, 1, word],
        CallEnd::Trapped(trap) => [7, 0, u64::from(trap.number())],
        CallEnd::Cancelled => [8, 0, 0],
        CallEnd::Dead => [9, 0, 0],
    }
}

// Puts the words of a call after others.
fn push_call(words: &mut Vec<u64>, call: &JournalCall) -> Result<(), AllocError>
    ensures { OnOk result (words.new.items ≡ words.old.items ++ entry_words call.now) }
{
    let args = call.words();
    let head = [
        word_of(call.func()),
        call.fuel(),
        call.pieces(),
        call.charges(),
    ];
    words.extend_from_slice(&head)?;
    words.extend_from_slice(&words_of_end(call.end()))?;
    words.push(args.len() as u64)?;
    words.extend_from_slice(args)
}

/// Encodes these calls as words, one after the other.
///
/// # Errors
/// `AllocError` if an allocation fails.
pub fn words_of(alloc: Global, calls: &[JournalCall]) -> Result<Vec<u64>, AllocError>
    ensures { IfOk result (λ words. words.items ≡ all_words calls.now) }
{
    let mut words = Vec::new(alloc);
    for call in calls {
        push_call(&mut words, call)?;
    }
    Ok(words)
}
