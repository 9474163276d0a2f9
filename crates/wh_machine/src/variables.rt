//! Variable instructions (4.4.3) on words.

ghost use Rattle.std.specs.Prelude.{◌≡◌, ℕ, ◌<◌, List, ◌∷◌, Some, length, reverse, slice_get, slice_set};
ghost use Rattle.wh_control.specs.Represents.{most_words};

use wh_control::ValueStack;

/// Pushes the local that is the word at this place from the bottom.
#[inline(always)]
pub fn local_get(words: &mut ValueStack, place: usize)
    requires there { place < length words.old }
    requires room { length words.old < most_words }
    ensures { (w : ℕ) × (slice_get (reverse words.old) place ≡ Some w)
        × (words.new ≡ w ∷ words.old) }
{
    let word = words.get(place);
    words.push(word);
}

/// Pops a word and stores it in the local at this place from the bottom.
#[inline(always)]
pub fn local_set(words: &mut ValueStack, place: usize)
    requires { (w : ℕ) × (rest : List ℕ) × (words.old ≡ w ∷ rest) × (place < length rest) }
    ensures { (w : ℕ) (rest : List ℕ) → words.old ≡ w ∷ rest
        → words.new ≡ reverse (slice_set (reverse rest) place w) }
{
    let word = words.pop();
    words.put(place, word);
}

/// Stores the top word in the local at this place from the bottom.
#[inline(always)]
pub fn local_tee(words: &mut ValueStack, place: usize)
    requires { (w : ℕ) × (rest : List ℕ) × (words.old ≡ w ∷ rest) × (place < length words.old) }
    ensures { (w : ℕ) (rest : List ℕ) → words.old ≡ w ∷ rest
        → words.new ≡ reverse (slice_set (reverse words.old) place w) }
{
    let word = words.top();
    words.put(place, word);
}
