//! Files by their paths.

ghost use Rattle.std.specs.Io.KnownBytes.{Keeps};
ghost use Rattle.std.specs.Prelude.{IfOk, IfSome, List, None, Option, option_map, take, true, unwrap_or, ◌≡◌, ℕ};

use std::alloc::Global;
use std::fs;
use std::fs::File;
use std::io::{Error, ErrorKind, Read, Result as IoResult};
use std::rt::Files;
use wh_script::{FileError, Source};

/// How many bytes of a module's file are read: one more than a module may have, so that a longer one is refused for its
/// length.
const MOST_BYTES_READ: u64 = 1_048_577;

/// Files by their paths, as a command line names them.
pub trait Folder {
    /// A file that is open.
    type Opened: Read + Drop;

    /// The bytes that the file of a path gives, as far as they are known.
    ghost known: { Self → List ℕ → Option (List ℕ) };

    /// Opens the file of a path, to be read from its first byte.
    ///
    /// # Errors
    /// Where it can't be opened.
    fn open(&self, path: &str) -> IoResult<Self::Opened>
        ensures { IfOk result (λ file. Keeps (known self.now path.now) (Self.Opened.remaining file)) };
}

/// Reads the file at this path, and of a longer one, a pipe or a device its first `most` bytes alone.
///
/// # Errors
/// Where it can't be opened or read, and `OutOfMemory` where there is no room for its bytes.
pub fn read_at_most<S: Folder>(
    alloc: Global,
    folder: &S,
    path: &str,
    most: u64,
) -> IoResult<Vec<u8>>
    ensures { IfOk result (λ bytes. IfSome (S.known folder.now path.now)
        (λ whole. bytes.items ≡ take most whole)) }
{
    let mut bytes = Vec::new(alloc);
    folder.open(path)?.take(most).read_to_end(&mut bytes)?;
    Ok(bytes)
}

/// The files of the system. What they hold isn't known.
#[derive(Drop)]
pub struct SystemFiles<'a, F> {
    /// The runtime by which they are opened.
    pub rt: &'a F,
}

impl<F: Files> Folder for SystemFiles<'_, F> {
    type Opened = F::File;

    ghost known = { λ system path. None };

    fn open(&self, path: &str) -> IoResult<F::File> {
        File::open(self.rt, path)
    }
}

/// Reads the regular file at this path, and of a longer one its first `most` bytes alone. What else may stand at a path isn't
/// opened: a pipe or a device may have no end, keep whoever reads it waiting, or give its bytes once.
///
/// # Errors
/// Where there is no regular file, or it can't be opened or read, and `OutOfMemory` where there is no room for its bytes.
fn read_regular<F: Files>(
    alloc: Global,
    system: &SystemFiles<'_, F>,
    path: &str,
    most: u64,
) -> IoResult<Vec<u8>> {
    if !fs::metadata(system.rt, path)?.is_file() {
        return Err(Error::from(ErrorKind::InvalidInput));
    }
    read_at_most(alloc, system, path, most)
}

impl<F: Files> Source for SystemFiles<'_, F> {
    ghost files = { λ system path bytes. true };

    fn read(&self, alloc: Global, path: &str) -> Result<Vec<u8>, FileError> {
        match read_regular(alloc, self, path, MOST_BYTES_READ) {
            Ok(bytes) => Ok(bytes),
            Err(error) if error.kind() == ErrorKind::OutOfMemory => Err(FileError::Memory),
            Err(_) => Err(FileError::Unreadable),
        }
    }
}

/// A file that is opened once it is read.
#[derive(Drop)]
pub struct LateFile<'a, S: Folder> {
    pub folder: &'a S,
    pub path: &'a str,
    pub file: Option<S::Opened>,
}

impl<S: Folder> Read for LateFile<'_, S> {
    ghost remaining = { λ late. unwrap_or (option_map S.Opened.remaining late.file)
        (S.known late.folder.now late.path.now) };

    fn read(&mut self, buf: &mut [u8]) -> IoResult<usize> {
        if let Some(file) = &mut self.file {
            return file.read(buf);
        }
        let mut file = self.folder.open(self.path)?;
        let count = file.read(buf)?;
        self.file = Some(file);
        Ok(count)
    }
}

/// Standard input, which isn't touched before it is read. What it gives isn't known.
#[derive(Drop)]
pub struct LateInput<'a, E: Input> {
    pub rt: &'a E,
    pub reader: Option<E::Reader>,
}

impl<E: Input> Read for LateInput<'_, E> {
    ghost remaining = { λ _. None };

    fn read(&mut self, buf: &mut [u8]) -> IoResult<usize> {
        if let Some(reader) = &mut self.reader {
            return reader.read(buf);
        }
        let mut reader = self.rt.reader();
        let count = reader.read(buf)?;
        self.reader = Some(reader);
        Ok(count)
    }
}
