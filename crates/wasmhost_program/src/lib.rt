//! What the program `wasmhost [--settings FILE] [--workers N] [SCRIPT]` does: it reads settings and a script of requests, the
//! script from a file or from standard input, runs it on a host of many instances, whose calls N threads run, and writes the
//! replies. It is a library so that several programs can run it, each with a command line of its own.
//!
//! It ends with status 0 where the whole script was answered, refusals included, and where help or the version was asked for;
//! with 1 and a line `wasmhost: settings`, `swap`, `memory`, `script`, `output` or `transcript` on standard error where
//! it had to stop, which also says what can't be used and why; with 2 and a text on standard error where the command line isn't
//! accepted. Where a thread was refused it says so there, whatever the status.
#![tactic(auto)]

mod arguments;
mod errors;
mod fault;
mod files;
mod laws;
mod program;
mod swap_file;

pub use arguments::{Arguments, ArgumentsError, read_args};
pub use fault::ProgramFault;
pub use files::{Folder, SystemFiles};
pub use laws::lines_are_read;
pub use program::{ANSWERED, NOT_ACCEPTED, ProgramOutcome, STOPPED, answer, run};
pub use swap_file::Lockable;
pub use wh_script::{FileError, Source};
