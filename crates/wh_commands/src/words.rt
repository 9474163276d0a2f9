//! The words of a line, one at a time.

ghost use Rattle.std.specs.Prelude.{◌≡◌, ◌≢◌, ℕ, List, [], ◌∷◌, ◌++◌, IfSome, IfNone, IfOk, IfErr, OnOk, OnErr};
ghost use Rattle.std.specs.List.{All};
ghost use Rattle.wh_model.specs.declared.ValType.TheVariants.{I32, I64};
ghost use Rattle.wh_script_model.specs.Lines.{IsName, IsWord};
ghost use Rattle.wh_script_model.specs.Words.{words_of, IsCount, IsBits};
ghost use Rattle.wh_commands.specs.WordsLeft.{words_left, FirstIs, FirstIsNot, IsHexWord};

use crate::error::ParseError;
use crate::numbers::{count_in, i32_bits_in, i64_bits_in};
use crate::shapes::{is_hex, is_name, is_word, name_text, text_of};
use memchr::memchr;

/// The words of a line that are left to be read.
#[derive(Clone, Copy)]
pub struct Words<'a> {
    rest: Option<&'a [u8]>,
}

/// Returns the words of a line.
pub fn words_in(line: &[u8]) -> Words<'_>
    ensures { words_left result ≡ words_of line.now }
{
    Words { rest: Some(line) }
}

impl<'a> Words<'a> {
    /// Returns the next piece of the line between spaces, which is empty where two spaces meet, or at the line's ends.
    pub fn next(&mut self) -> Option<&'a [u8]>
        ensures some { IfSome result (λ word. words_left self.old
            ≡ word.now ∷ words_left self.new) }
        ensures none { IfNone result (words_left self.old ≡ []) }
    {
        let line = self.rest?;
        match at_space(line) {
            Some((word, rest)) => {
                self.rest = Some(rest);
                Some(word)
            }
            None => {
                self.rest = None;
                Some(line)
            }
        }
    }
}

impl<'a> Words<'a> {
    /// Returns the next piece, whatever it is.
    ///
    /// # Errors
    /// `Syntax` if none is left.
    pub fn next_piece(&mut self) -> Result<&'a [u8], ParseError>
        ensures ok { IfOk result (λ word. words_left self.old ≡ word.now ∷ words_left self.new) }
        ensures err { IfErr result (λ e. e ≡ ParseError.Syntax) }
        ensures none { OnErr result (words_left self.old ≡ []) }
    {
        match self.next() {
            Some(word) => Ok(word),
            None => Err(ParseError::Syntax),
        }
    }

    /// Returns the next word, which has to be a name.
    ///
    /// # Errors
    /// `Syntax` if it isn't one, or none is left.
    pub fn next_name(&mut self) -> Result<&'a str, ParseError>
        ensures ok { IfOk result (λ name. (words_left self.old ≡ name.now ∷ words_left self.new)
            × IsName name.now) }
        ensures err { IfErr result (λ e. e ≡ ParseError.Syntax) }
        ensures none { OnErr result (FirstIsNot IsName (words_left self.old)) }
    {
        let word = self.next_piece()?;
        if !is_name(word) {
            return Err(ParseError::Syntax);
        }
        Ok(name_text(word))
    }

    /// Returns the next word.
    ///
    /// # Errors
    /// `Syntax` if the next piece isn't a word, or none is left.
    pub fn next_text(&mut self) -> Result<&'a str, ParseError>
        ensures ok { IfOk result (λ text. (words_left self.old ≡ text.now ∷ words_left self.new)
            × IsWord text.now) }
        ensures err { IfErr result (λ e. e ≡ ParseError.Syntax) }
        ensures none { OnErr result (FirstIsNot IsWord (words_left self.old)) }
    {
        let word = self.next_piece()?;
        if !is_word(word) {
            return Err(ParseError::Syntax);
        }
        Ok(text_of(word))
    }

    /// Returns the next word, which has to be bytes in hexadecimal.
    ///
    /// # Errors
    /// `Syntax` if it isn't, or none is left.
    pub fn next_hex(&mut self) -> Result<&'a str, ParseError>
        ensures ok { IfOk result (λ hex. (words_left self.old ≡ hex.now ∷ words_left self.new)
            × IsHexWord hex.now) }
        ensures err { IfErr result (λ e. e ≡ ParseError.Syntax) }
        ensures none { OnErr result (FirstIsNot IsHexWord (words_left self.old)) }
    {
        let word = self.next_piece()?;
        if !is_word(word) || !is_hex(word) {
            return Err(ParseError::Syntax);
        }
        Ok(text_of(word))
    }

    /// Parses the next word, which has to be a number of 64 bits without a sign.
    ///
    /// # Errors
    /// `Syntax` if it isn't one, or none is left.
    pub fn next_count(&mut self) -> Result<u64, ParseError>
        ensures ok { IfOk result (λ n. FirstIs (λ word. IsCount word n)
            (words_left self.old) (words_left self.new)) }
        ensures err { IfErr result (λ e. e ≡ ParseError.Syntax) }
        ensures none { OnErr result (FirstIsNot (λ word. (n : ℕ) × IsCount word n)
            (words_left self.old)) }
    {
        match count_in(self.next_piece()?) {
            Some(count) => Ok(count),
            None => Err(ParseError::Syntax),
        }
    }

    /// Parses the next word, which has to be a number in the range of an i32, signed or unsigned, modulo 2^32.
    ///
    /// # Errors
    /// `Syntax` if it isn't one, or none is left.
    pub fn next_i32_bits(&mut self) -> Result<u32, ParseError>
        ensures ok { IfOk result (λ bits. FirstIs (λ word. IsBits I32 word bits)
            (words_left self.old) (words_left self.new)) }
        ensures err { IfErr result (λ e. e ≡ ParseError.Syntax) }
        ensures none { OnErr result (FirstIsNot (λ word. (bits : ℕ) × IsBits I32 word bits)
            (words_left self.old)) }
    {
        match i32_bits_in(self.next_piece()?) {
            Some(bits) => Ok(bits),
            None => Err(ParseError::Syntax),
        }
    }

    /// Parses the next word, which has to be a number in the range of an i64, signed or unsigned, modulo 2^64.
    ///
    /// # Errors
    /// `Syntax` if it isn't one, or none is left.
    pub fn next_i64_bits(&mut self) -> Result<u64, ParseError>
        ensures ok { IfOk result (λ bits. FirstIs (λ word. IsBits I64 word bits)
            (words_left self.old) (words_left self.new)) }
        ensures err { IfErr result (λ e. e ≡ ParseError.Syntax) }
        ensures none { OnErr result (FirstIsNot (λ word. (bits : ℕ) × IsBits I64 word bits)
            (words_left self.old)) }
    {
        match i64_bits_in(self.next_piece()?) {
            Some(bits) => Ok(bits),
            None => Err(ParseError::Syntax),
        }
    }

    /// Checks that nothing of the line is left.
    ///
    /// # Errors
    /// `Syntax` if something is.
    pub fn end(mut self) -> Result<(), ParseError>
        ensures ok { OnOk result (words_left self.entry ≡ []) }
        ensures err { IfErr result (λ e. e ≡ ParseError.Syntax) }
        ensures none { OnErr result (words_left self.entry ≢ []) }
    {
        match self.next() {
            None => Ok(()),
            Some(_) => Err(ParseError::Syntax),
        }
    }
}

/// The two parts of a line at its first space.
fn at_space(line: &[u8]) -> Option<(&[u8], &[u8])>
    ensures some { IfSome result
        (λ parts. (line.now ≡ parts.0.now ++ 32 ∷ parts.1.now) × All (λ b. b ≢ 32) parts.0.now) }
    ensures none { IfNone result (All (λ b. b ≢ 32) line.now) }
{
    let at = memchr(b' ', line)?;
    Some((&line[..at], &line[at + 1..]))
}
