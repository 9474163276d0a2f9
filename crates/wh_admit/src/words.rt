//! What is known of words.

ghost use Rattle.std.specs.Prelude.{◌<◌, ◌^◌};
ghost use Rattle.std.specs.List.{AllByRecursion};

/// States that words are numbers of 64 bits, as the definitions want of what `input` reads. Does nothing when run.
pub fn are_words(words: &[u64])
    ensures { AllByRecursion (λ n. n < 2 ^ 64) words.now }
{}
