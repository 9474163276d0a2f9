//! Where the files come from that a script loads.

ghost use Rattle.std.specs.Prelude.{◌≡◌, Some, None, true, IfOk, IfErr};
ghost use Rattle.wh_script_model.specs.Answers.{Files};

use std::alloc::Global;
use thiserror::Error;

/// Why a file isn't read.
#[derive(Clone, Copy, Debug, PartialEq, Eq, Error)]
pub enum FileError {
    /// It can't be opened, or can't be read to its end.
    #[error("the file can't be read")]
    Unreadable,
    /// A growth of memory was refused.
    #[error("a growth of memory was refused")]
    Memory,
}

/// Files by their paths, as `load` names them.
pub trait Source {
    /// Which bytes the file of a path may hold, and whether it may be none that can be read, as far as that is known.
    ghost files: { Self → Files };

    /// Reads the file at `path`.
    ///
    /// # Errors
    /// `Unreadable` where it can't be opened or read; `Memory` where there is none for its bytes.
    fn read(&self, alloc: Global, path: &str) -> Result<Vec<u8>, FileError>
        ensures bytes { IfOk result (λ bytes. files self.now path.now (Some bytes.items) ≡ true) }
        ensures none { IfErr result (λ error. error ≡ FileError.Unreadable
            → files self.now path.now None ≡ true) };
}
