//! The words of a machine: the locals and operands of the calls that run.

ghost use Rattle.std.specs.Prelude.{◌≡◌, ℕ, ◌+◌, ◌<◌, ◌≤◌, List, [], ◌∷◌, ◌++◌, Some, length, reverse, replicate, slice_get, slice_set, IfOk};
ghost use Rattle.std.specs.Coded.{coded_list, coded_ℕ};
ghost use Rattle.std.specs.Vec.{vec_capacity};
ghost use Rattle.wh_control.specs.Represents.{most_words};
ghost use Rattle.wh_control.specs.ControlSteps.{cut, words_carried};

use std::alloc::{AllocError, Global};
use std::marker::Model;

/// How many words there is room for.
pub const MOST_WORDS: usize = 65536;

/// A stack of words, which contracts see topmost first. Room for as many as there may be is reserved when it is made, and
/// nothing is written there before a word is.
#[derive(Drop)]
pub struct ValueStack {
    items: Vec<u64>,
}

impl Model for ValueStack {
    ghost Value = { List ℕ };

    ghost coded = { coded_list coded_ℕ };

    ghost view = { λ w. reverse w.items.items };

    ghost invariant = { λ w. (most_words ≤ vec_capacity w.items)
        × (length w.items.items ≤ most_words) };
}

impl ValueStack {
    /// Creates an empty stack of words. Reserves the room for all that any call may have.
    ///
    /// # Errors
    /// `AllocError` if the allocation fails.
    pub fn reserve(alloc: Global) -> Result<ValueStack, AllocError>
        ensures { IfOk result (λ words. words ≡ []) }
    {
        let items = Vec::with_capacity(alloc, MOST_WORDS)?;
        Ok(ValueStack { items })
    }

    /// Returns the number of words.
    #[inline(always)]
    pub fn len(&self) -> usize
        ensures { result ≡ length self.now }
    {
        self.items.len()
    }

    /// Pushes a word.
    #[inline(always)]
    pub fn push(&mut self, word: u64)
        requires { length self.old < most_words }
        ensures { self.new ≡ word ∷ self.old }
    {
        self.items.push_reserved(word);
    }

    /// Pops the top word.
    #[inline(always)]
    pub fn pop(&mut self) -> u64
        requires { 0 < length self.old }
        ensures taken { self.old ≡ result ∷ self.new }
        // So there is room for another one.
        ensures room { length self.new < most_words }
    {
        self.items.take_last()
    }

    /// Returns the top word.
    #[inline(always)]
    pub fn top(&self) -> u64
        requires { 0 < length self.now }
        ensures { (x : ℕ) (rest : List ℕ) → self.now ≡ x ∷ rest → result ≡ x }
    {
        self.items[self.items.len() - 1]
    }

    /// Returns the word at this place, counted from the bottom.
    #[inline(always)]
    pub fn get(&self, place: usize) -> u64
        requires { place < length self.now }
        ensures { slice_get (reverse self.now) place ≡ Some result }
    {
        self.items[place]
    }

    /// Writes the word at this place, counted from the bottom.
    #[inline(always)]
    pub fn put(&mut self, place: usize, word: u64)
        requires { place < length self.old }
        ensures { self.new ≡ reverse (slice_set (reverse self.old) place word) }
    {
        self.items[place] = word;
    }

    /// Leaves the `height` lowest words, and above them the top one if it is carried along.
    #[inline(always)]
    pub fn cut(&mut self, height: usize, carries: bool)
        requires { height + words_carried carries ≤ length self.old }
        ensures { self.new ≡ cut self.old (words_carried carries) height }
    {
        if carries {
            let top = self.items.take_last();
            self.items.truncate(height);
            self.items.push_reserved(top);
        } else {
            self.items.truncate(height);
        }
    }

    /// Removes all words.
    #[inline(always)]
    pub fn clear(&mut self)
        ensures { self.new ≡ [] }
    {
        self.items.truncate(0);
    }

    /// Pushes words, the last one topmost.
    pub fn push_all(&mut self, given: &[u64])
        requires { length given.now + length self.old ≤ most_words }
        ensures { self.new ≡ reverse given.now ++ self.old }
    {
        for word in given {
            self.items.push_reserved(*word);
        }
    }

    /// Pushes `count` zeros.
    #[inline(always)]
    pub fn push_zeros(&mut self, count: usize)
        requires { count + length self.old ≤ most_words }
        ensures { self.new ≡ replicate count 0 ++ self.old }
    {
        for _ in 0..count {
            self.items.push_reserved(0);
        }
    }
}
