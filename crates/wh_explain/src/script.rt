//! Which lines of a script are no commands, and why.

ghost use Rattle.std.specs.Prelude.{◌≡◌, ◌↔◌, [], IsTrue, IfOk, MatchOption};
ghost use Rattle.wh_script_model.specs.Lines.{is_skipped};
ghost use Rattle.wh_explain.specs.Verdicts.{IsSkippedOrAsked, IsNoCommand, SaysOfLine};

use crate::answer::Answer;
use crate::shapes::{Param, Shape, WordFault, shape_of, word_fault};
use std::alloc::{AllocError, Global};
use std::io::{BufRead, Read};
use std::{fmt, io};
use wh_commands::{LONGEST_LINE, ParseError, parse};

/// How many bytes of a word are shown.
const MOST_SHOWN: usize = 40;

/// Why a line is no command.
#[derive(Debug, Drop)]
pub enum LineCause {
    /// It has more than 2200000 bytes.
    TooLong,
    /// The byte at this column, from 1, is above 127.
    HighByte(usize),
    /// It ends with a carriage return.
    CarriageReturn,
    /// The word at this place, from 1, is empty: two spaces meet, or one stands at an end of the line.
    EmptyWord(usize),
    /// No command begins with this word.
    UnknownCommand(String),
    /// A word of this command is missing at this place.
    Missing(&'static Shape, usize, Param),
    /// No word of this command may stand at this place.
    Extra(&'static Shape, usize, String),
    /// The word of this command at this place is another one than it has to be.
    Wrong(&'static Shape, usize, String, Param, WordFault),
    /// The host takes it for no command, and no cause is found here.
    Other,
}

/// A line that is no command.
#[derive(Debug, Drop)]
pub struct LineFinding {
    /// The number of the line, from 1; all lines are counted.
    pub line: u64,
    /// Why it is none.
    pub cause: LineCause,
}

/// Which lines of a script the host takes for no commands.
#[derive(Debug, Drop)]
pub struct ScriptVerdict {
    /// The lines, in order.
    pub findings: Vec<LineFinding>,
}

impl ScriptVerdict {
    /// Tells whether there is no finding on any line.
    pub fn is_accepted(&self) -> bool
        ensures { IsTrue result ↔ (self.now.findings.items ≡ []) }
    {
        self.findings.is_empty()
    }
}

/// Whether the host skips a line.
fn is_skipped(line: &[u8]) -> bool
    ensures { result ≡ is_skipped line.now }
{
    match line {
        [] => true,
        [first, ..] => *first == b'#',
    }
}

/// What the host says of a line that isn't too long.
fn command_answer(alloc: Global, line: &[u8]) -> Answer
    ensures { SaysOfLine line.now result }
{
    match parse(alloc, line) {
        Ok(_) => Answer::Accepted,
        Err(ParseError::Syntax) => Answer::Refused,
        Err(ParseError::Memory) => Answer::Memory,
    }
}

/// The beginning of a word, as it is shown.
fn shown(alloc: Global, word: &str) -> Result<String, AllocError> {
    Ok(String::from_str(alloc, word.get(..MOST_SHOWN).unwrap_or(word))?)
}

/// Why the words after a command aren't those that it takes; none where they are.
fn words_cause(
    alloc: Global,
    text: &str,
    shape: &'static Shape,
) -> Result<Option<LineCause>, AllocError> {
    let mut count = 0usize;
    for word in text.split(' ').skip(1) {
        let place = count.saturating_add(2);
        let Some(param) = shape.params.get(count).copied().or(shape.rest) else {
            return Ok(Some(LineCause::Extra(shape, place, shown(alloc, word)?)));
        };
        if let Some(fault) = word_fault(param.kind, word) {
            return Ok(Some(LineCause::Wrong(shape, place, shown(alloc, word)?, param, fault)));
        }
        count = count.saturating_add(1);
    }
    let missing = shape.params.get(count).copied();
    Ok(missing.map(|param| LineCause::Missing(shape, count.saturating_add(2), param)))
}

/// Why a line of ASCII is no command.
fn text_cause(alloc: Global, text: &str) -> Result<LineCause, AllocError> {
    if let Some(at) = text.split(' ').position(|word| word.is_empty()) {
        return Ok(LineCause::EmptyWord(at.saturating_add(1)));
    }
    let verb = text.split(' ').next().unwrap_or(text);
    let Some(shape) = shape_of(verb) else {
        return Ok(LineCause::UnknownCommand(shown(alloc, verb)?));
    };
    let cause = words_cause(alloc, text, shape)?;
    Ok(cause.unwrap_or(LineCause::Other))
}

/// Why a line is no command.
fn cause_of(alloc: Global, line: &[u8]) -> Result<LineCause, AllocError> {
    if let Some(at) = line.iter().position(|b| *b > 127) {
        return Ok(LineCause::HighByte(at.saturating_add(1)));
    }
    if line.ends_with(b"\r") {
        return Ok(LineCause::CarriageReturn);
    }
    match str::from_utf8(line) {
        Ok(text) => text_cause(alloc, text),
        Err(_) => Ok(LineCause::Other),
    }
}

/// Tells why a line of a script, without its newline, is no command; none where the host skips it or obeys it.
///
/// # Errors
/// Where a growth of memory is refused, in the host's own look at the line too.
pub fn explain_line(alloc: Global, line: &[u8]) -> Result<Option<LineCause>, AllocError>
    // A line is complained of exactly if the host neither skips it nor takes it for a command.
    ensures verdict { IfOk result (λ cause. MatchOption cause (IsSkippedOrAsked line.now)
        (λ cause. IsNoCommand line.now)) }
{
    if is_skipped(line) {
        return Ok(None);
    }
    if line.len() > LONGEST_LINE {
        return Ok(Some(LineCause::TooLong));
    }
    match command_answer(alloc, line) {
        Answer::Accepted => Ok(None),
        Answer::Refused => Ok(Some(cause_of(alloc, line)?)),
        Answer::Memory => Err(AllocError),
    }
}

/// Reads a line without its newline in place of what stood there; false at the end. Of a line that is too long more than its
/// greatest length is kept, and the rest is passed.
fn read_line<R: BufRead>(reader: &mut R, line: &mut Vec<u8>) -> io::Result<bool> {
    line.clear();
    let most = LONGEST_LINE as u64 + 1;
    let count = (&mut *reader).take(most).read_until(b'\n', line)?;
    if count == 0 {
        return Ok(false);
    }
    if line.ends_with(b"\n") {
        line.pop();
    } else if line.len() > LONGEST_LINE {
        reader.skip_until(b'\n')?;
    }
    Ok(true)
}

/// Tells which lines of a script the host takes for no commands, and why. The script is read to its end, a line at a time.
///
/// # Errors
/// Where the script can't be read, or a growth of memory is refused.
pub fn explain_script<R: BufRead>(alloc: Global, reader: &mut R) -> io::Result<ScriptVerdict> {
    let mut findings = Vec::new(alloc);
    let mut held = Vec::new(alloc);
    for line in 1..u64::MAX {
        if !read_line(reader, &mut held)? {
            break;
        }
        if let Some(cause) = explain_line(alloc, &held)? {
            findings.push(LineFinding { line, cause })?;
        }
    }
    Ok(ScriptVerdict { findings })
}

/// Says what is wrong with a word.
fn write_word_fault<W: fmt::Write>(
    f: &mut fmt::Formatter<W>,
    param: Param,
    fault: WordFault,
) -> fmt::Result {
    let fault = match fault {
        WordFault::NoName => "is no name",
        WordFault::NoHex => "is no bytes in hexadecimal",
        WordFault::NoNumber => "is no number",
        WordFault::OutOfRange => "is out of range",
    };
    let Param { label, kind } = param;
    write!(f, "{fault}, and {label} is {}", kind.description())
}

impl fmt::Display for LineCause {
    fn fmt<W: fmt::Write>(&self, f: &mut fmt::Formatter<W>) -> fmt::Result {
        match self {
            LineCause::TooLong => write!(f, "the line has more than {LONGEST_LINE} bytes"),
            LineCause::HighByte(column) => write!(f, "byte {column} is above 127"),
            LineCause::CarriageReturn => f.write_str("the line ends with a carriage return"),
            LineCause::EmptyWord(place) => write!(f, "word {place} is empty"),
            LineCause::UnknownCommand(verb) => write!(f, "there is no command {verb:?}"),
            LineCause::Missing(_, place, param) => {
                write!(f, "word {place} is missing, which is {}", param.label)
            }
            LineCause::Extra(_, place, word) => write!(
                f,
                "word {place}, {word:?}, is one too many"
            ),
            LineCause::Wrong(_, place, word, param, fault) => {
                write!(f, "word {place}, {word:?}, ")?;
                write_word_fault(f, *param, *fault)
            }
            LineCause::Other => f.write_str("the line is no command"),
        }
    }
}

impl LineCause {
    /// Returns the place of the word that it is about, from 1; `None` if it is about the whole line.
    pub fn word(&self) -> Option<usize> {
        match self {
            LineCause::EmptyWord(place)
            | LineCause::Missing(_, place, _)
            | LineCause::Extra(_, place, _)
            | LineCause::Wrong(_, place, _, _, _) => Some(*place),
            LineCause::UnknownCommand(_) => Some(1),
            _ => None,
        }
    }

    /// Says what to do about it.
    pub fn advice(&self) -> &'static str {
        match self {
            LineCause::TooLong => "Load the module from a file, by load NAME PATH.",
            LineCause::HighByte(_) => "Write the line in ASCII.",
            LineCause::CarriageReturn => "End lines by a newline alone, as by dos2unix.",
            LineCause::EmptyWord(_) => {
                "Put one space between words, and none at the ends of the line."
            }
            LineCause::UnknownCommand(_) => {
                "The commands are module, load, admit, invoke, drain, refuel, cancel, retry, scan, report and release; a comment begins with #."
            }
            LineCause::Missing(shape, _, _)
            | LineCause::Extra(shape, _, _)
            | LineCause::Wrong(shape, _, _, _, _) => shape.advice,
            LineCause::Other => "Compare the line with the description of scripts.",
        }
    }
}
