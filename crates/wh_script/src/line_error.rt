// Why a line can't be obeyed.

ghost use Rattle.std.specs.Prelude.{◌≡◌};
ghost use Rattle.wh_script.specs.Causes.{cause_number, line_error};

use thiserror::Error;
use wh_commands::ParseError;

/// Why a line can't be obeyed. The causes are looked at in this order; the script goes on with the next line.
#[derive(Clone, Copy, Debug, PartialEq, Eq, Error)]
pub enum LineError {
    /// The line is too long, holds a byte above 127, or has not the shape of a command.
    #[error("the line is no command")]
    Syntax,
    /// A name that nothing has.
    #[error("nothing has this name")]
    NoName,
    /// The name is taken.
    #[error("the name is taken")]
    NameTaken,
    /// A file can't be opened or read.
    #[error("the file can't be read")]
    File,
    /// A growth of memory was refused.
    #[error("a growth of memory was refused")]
    Memory,
}

impl LineError {
    /// Returns the number by which replies name the cause, after a C: 1 to 5.
    pub fn number(self) -> u8
        ensures { result ≡ cause_number self }
    {
        match self {
            LineError::Syntax => 1,
            LineError::NoName => 2,
            LineError::NameTaken => 3,
            LineError::File => 4,
            LineError::Memory => 5,
        }
    }
}

// What is said of a line from which no command is read.
impl From<ParseError> for LineError {
    ghost from_gives = { λ refused error. error ≡ line_error refused };

    fn from(refused: ParseError) -> LineError {
        match refused {
            ParseError::Syntax => LineError::Syntax,
            ParseError::Memory => LineError::Memory,
        }
    }
}
