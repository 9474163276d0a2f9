//! The lines of a script, one at a time, in memory of a fixed size.

ghost use Rattle.std.specs.Prelude.{◌≡◌, ◌≢◌, ◌⊎◌, ℕ, ◌+◌, ◌<◌, ◌≤◌, false, true, List, [], ◌∷◌, ◌++◌, drop, length, IfOk, OnOk, IfErr, OnErr};
ghost use Rattle.std.specs.Bool.{MatchBool, OnTrue};
ghost use Rattle.std.specs.List.{All};
ghost use Rattle.std.specs.Io.KnownBytes.{Consumes, Keeps, IsAtEnd};
ghost use Rattle.wh_script.specs.Coming.{unread, coming, IsInChunk, Holds, TakesPiece, IsKind, ReadsLine, FailsAt};

use crate::fault::ScriptFault;
use memchr::memchr;
use std::alloc::Global;
use std::io::{ErrorKind, Read};
use wh_commands::LONGEST_LINE;
use wh_streams::WatchedRead;

const CHUNK: usize = 65536;

/// What was read.
#[derive(Clone, Copy, Debug, PartialEq, Eq)]
pub enum Line {
    /// A line that is to be obeyed, now in the buffer.
    Kept,
    /// A line that is too long for a command.
    TooLong,
    /// An empty line or a comment.
    Skipped,
    /// The script has ended.
    End,
}

/// The lines that a reader gives.
#[derive(Drop)]
pub struct Lines {
    chunk: Vec<u8>,
    next: usize,
    end: usize,
    line: Vec<u8>,
    is_long: bool,
}

impl Lines {
    /// Reserves the room for the longest line.
    ///
    /// # Errors
    /// `Memory` where it is refused.
    pub fn new(alloc: Global) -> Result<Lines, ScriptFault>
        ensures within { IfOk result (λ lines. IsInChunk lines) }
        ensures empty { IfOk result (λ lines. unread lines ≡ []) }
        ensures err { IfErr result (λ e. e ≡ ScriptFault.Memory) }
    {
        let Ok(line) = Vec::with_capacity(alloc, LONGEST_LINE) else {
            return Err(ScriptFault::Memory);
        };
        let Ok(chunk) = vec![in alloc; 0u8; CHUNK] else {
            return Err(ScriptFault::Memory);
        };
        Ok(Lines {
            chunk,
            next: 0,
            end: 0,
            line,
            is_long: false,
        })
    }

    /// Returns the line read last.
    pub fn line(&self) -> &[u8]
        ensures { result.now ≡ self.now.line.items }
    {
        &self.line
    }
}

impl Lines {
    /// Reads the next line. A comment isn't kept, whatever it holds.
    ///
    /// # Errors
    /// `Script` where the reader fails; `Memory` only if room that was reserved is refused after all, or where the pieces of
    /// the line can't be counted.
    pub fn read<R: Read>(&mut self, reader: &mut WatchedRead<R>) -> Result<Line, ScriptFault>
        requires { IsInChunk self.old }
        // It is the first of the lines to come, and what is said of it is so.
        ensures line { IfOk result (λ kind. ReadsLine (coming self.old (R.remaining reader.old.inner))
            (coming self.new (R.remaining reader.new.inner)) kind self.new.line.items) }
        // Where the reader failed, no whole line was lost.
        ensures failed { FailsAt (coming self.old (R.remaining reader.old.inner)) (R.remaining reader.new.inner)
            result }
        ensures within { OnOk result (IsInChunk self.new) }
        ensures err { IfErr result (λ e. (e ≡ ScriptFault.Script) ⊎ (e ≡ ScriptFault.Memory)) }
        ensures blames { IfErr result (λ e. e ≡ ScriptFault.Script → reader.new.has_failed ≡ true) }
    {
        self.line.clear();
        self.is_long = false;
        let mut begun = false;
        for _ in 0..u64::MAX {
            if !self.has_more(reader)? {
                if begun {
                    return Ok(self.kind());
                }
                return Ok(Line::End);
            }
            begun = true;
            if self.take()? {
                return Ok(self.kind());
            }
        }
        Err(ScriptFault::Memory)
    }

    /// Returns what the line is.
    fn kind(&self) -> Line
        ensures { (line : List ℕ) → Holds self.now.line.items self.now.is_long line
            → IsKind result self.now.line.items line }
    {
        match self.line.first() {
            None | Some(b'#') => Line::Skipped,
            Some(_) if self.is_long => Line::TooLong,
            Some(_) => Line::Kept,
        }
    }

    /// Returns whether more of the script is to come; some of it is in the chunk then.
    fn has_more<R: Read>(&mut self, reader: &mut WatchedRead<R>) -> Result<bool, ScriptFault>
        requires { IsInChunk self.old }
        ensures bytes { OnOk result
            (Consumes (coming self.old (R.remaining reader.old.inner))
            (coming self.new (R.remaining reader.new.inner)) []) }
        ensures none { OnErr result
            (Consumes (coming self.old (R.remaining reader.old.inner)) (R.remaining reader.new.inner) []) }
        ensures more { IfOk result
            (λ more. MatchBool more (self.new.next < self.new.end)
            (IsAtEnd (coming self.new (R.remaining reader.new.inner)))) }
        ensures within { OnOk result (IsInChunk self.new) }
        ensures line { (self.new.line ≡ self.old.line) × (self.new.is_long ≡ self.old.is_long) }
        ensures err { IfErr result (λ e. e ≡ ScriptFault.Script) }
        ensures blames { OnErr result (reader.new.has_failed ≡ true) }
    {
        if self.next < self.end {
            return Ok(true);
        }
        let more = self.fill(reader)?;
        Ok(more)
    }

    /// Reads more of the script. Returns false at its end.
    fn fill<R: Read>(&mut self, reader: &mut WatchedRead<R>) -> Result<bool, ScriptFault>
        requires { IsInChunk self.old }
        ensures bytes { OnOk result
            (Consumes (R.remaining reader.old.inner) (R.remaining reader.new.inner) (unread self.new)) }
        ensures none { OnErr result (Keeps (R.remaining reader.old.inner) (R.remaining reader.new.inner)) }
        ensures more { IfOk result
            (λ more. MatchBool more (self.new.next < self.new.end)
            (IsAtEnd (R.remaining reader.new.inner) × (unread self.new ≡ []))) }
        ensures within { OnOk result (IsInChunk self.new) }
        ensures line { (self.new.line ≡ self.old.line) × (self.new.is_long ≡ self.old.is_long) }
        ensures err { IfErr result (λ e. e ≡ ScriptFault.Script) }
        ensures blames { OnErr result (reader.new.has_failed ≡ true) }
    {
        for _tried in 0..u64::MAX {
            match reader.read(&mut self.chunk) {
                Ok(count) => {
                    self.next = 0;
                    self.end = count;
                    return Ok(count > 0);
                }
                Err(e) if e.kind() == ErrorKind::Interrupted => {}
                Err(_) => return Err(ScriptFault::Script),
            }
        }
        Err(ScriptFault::Script)
    }

    /// Takes what there is of the line. Returns whether that is up to its newline.
    fn take(&mut self) -> Result<bool, ScriptFault>
        requires within { IsInChunk self.old }
        requires some { self.old.next < self.old.end }
        ensures piece { IfOk result
            (λ is_last. (piece : List ℕ) × TakesPiece self.old self.new is_last piece) }
        ensures within { OnOk result (IsInChunk self.new) }
        ensures err { IfErr result (λ e. e ≡ ScriptFault.Memory) }
    {
        let rest = &self.chunk[self.next..self.end];
        let (piece, is_last) = first_piece(rest);
        let length = piece.len();
        keep(&mut self.line, &mut self.is_long, piece)?;
        if !is_last {
            self.next = self.end;
            return Ok(false);
        }
        self.next += length + 1;
        Ok(true)
    }
}

/// Returns the bytes up to the first newline, and whether there is one.
fn first_piece(bytes: &[u8]) -> (&[u8], bool)
    ensures free { All (λ b. b ≢ 10) result.0.now }
    ensures cut { MatchBool result.1
        (bytes.now ≡ result.0.now ++ 10 ∷ drop (length result.0.now + 1) bytes.now)
        (bytes.now ≡ result.0.now) }
    ensures fits { OnTrue result.1 (length result.0.now + 1 ≤ length bytes.now) }
{
    match memchr(b'\n', bytes) {
        Some(length) => (&bytes[..length], true),
        None => (bytes, false),
    }
}

/// Appends `bytes` to `line`, as far as they are wanted: of a comment only its beginning is.
fn keep(line: &mut Vec<u8>, is_long: &mut bool, bytes: &[u8]) -> Result<(), ScriptFault>
    ensures held { OnOk result ((so_far : List ℕ) → Holds line.old.items is_long.old so_far
        → Holds line.new.items is_long.new (so_far ++ bytes.now)) }
    ensures err { IfErr result (λ e. e ≡ ScriptFault.Memory) }
{
    if matches!(line.first(), Some(b'#')) {
        return Ok(());
    }
    if line.len() > LONGEST_LINE || bytes.len() > LONGEST_LINE - line.len() {
        *is_long = true;
        if line.is_empty() {
            return line.push(bytes[0]).map_err(|_| ScriptFault::Memory);
        }
        return Ok(());
    }
    line.extend_from_slice(bytes)
        .map_err(|_| ScriptFault::Memory)
}
