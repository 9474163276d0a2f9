// The file to which pages are swapped: this host's own while it runs, and empty where it has ended in order.

ghost use Rattle.std.specs.Prelude.{◌≡◌, IfOk};

use std::fs::{File, OpenFile, OpenOptions, TryLockError};
use std::io::{Error, ErrorKind, Result as IoResult};
use std::os::unix::fs::{FileTypeExt, OpenOptionsExt};
use std::rt::Files;

/// Who may read and write a file that is made for pages, which hold tenants' bytes: its owner.
const OWNER_ALONE: u32 = 0o600;

/// A file that can be locked against others that ask for the same lock.
pub trait Lockable {
    /// Locks the file for as long as it is open, and says whether it may be used: that nobody else has it locked. Where
    /// the system has no locks for it, it may.
    fn lock_alone(&self) -> bool;
}

impl Lockable for File {
    fn lock_alone(&self) -> bool {
        !matches!(self.try_lock(), Err(TryLockError::WouldBlock))
    }
}

/// A file for swap. What keeps bytes, a file or a block device, is locked while it is open; what doesn't, as a pipe or
/// `/dev/null`, is taken as it is.
#[derive(Drop)]
pub struct SwapFile<'a, F> {
    file: F,
    is_regular: bool,
    // Where it was opened.
    path: &'a str,
}

impl<'a, F: OpenFile> SwapFile<'a, F> {
    /// Returns the path under which it was opened.
    pub fn path(&self) -> &'a str
        ensures { result.now ≡ self.now.path.now }
    {
        self.path
    }

    /// Returns another handle of the file.
    ///
    /// # Errors
    /// That of the system, if it gives none.
    pub fn handle(&self) -> IoResult<F> {
        self.file.try_clone()
    }

    /// Leaves nothing in a regular file. A device and a pipe stay as they are.
    ///
    /// # Errors
    /// Where the system can't.
    pub fn empty(&self) -> IoResult<()> {
        if self.is_regular {
            self.file.set_len(0)?;
        }
        Ok(())
    }
}

/// Opens the file at this path for swap, and empties it. One that isn't there is created, for its owner alone.
///
/// # Errors
/// That of the system, if it can't be opened or emptied; `WouldBlock` if another program has it locked.
pub fn open_swap_file<'a, E: Files>(rt: &E, path: &'a str) -> IoResult<SwapFile<'a, E::File>>
where
    E::File: Lockable,
    ensures { IfOk result (λ own. own.path.now ≡ path.now) }
{
    let mut options = OpenOptions::new();
    options.read(true);
    options.write(true);
    options.create(true);
    options.mode(OWNER_ALONE);
    let file = options.open(rt, path)?;
    let kind = file.metadata()?.file_type();
    let is_regular = kind.is_file();
    if (is_regular || kind.is_block_device()) && !file.lock_alone() {
        return Err(Error::new(ErrorKind::WouldBlock, "another program has it locked"));
    }
    let own = SwapFile {
        file,
        is_regular,
        path,
    };
    own.empty()?;
    Ok(own)
}
