//! Files, and the verdicts on them.

use crate::arguments::{CheckArguments, Kind};
use std::alloc::{AllocError, Global};
use std::fs::File;
use std::io;
use std::io::{BufReader, ErrorKind, Read};
use std::rt::Files;
use wh_explain::{
    MOST_MODULE_BYTES, MOST_SETTINGS_BYTES, explain_module, explain_script, explain_settings,
    module_json, script_json, settings_json, write_module, write_script, write_settings,
};

/// Why there is no verdict on a file.
#[derive(Debug, Drop)]
pub enum CheckError {
    /// The file can't be opened or read.
    Input(io::Error),
    /// A growth of memory is refused.
    Memory,
}

impl From<AllocError> for CheckError {
    fn from(_error: AllocError) -> CheckError {
        CheckError::Memory
    }
}

// Out of memory is no fault of the file.
impl From<io::Error> for CheckError {
    fn from(error: io::Error) -> CheckError {
        if error.kind() == ErrorKind::OutOfMemory {
            return CheckError::Memory;
        }
        CheckError::Input(error)
    }
}

/// A verdict as it is written.
#[derive(Debug, Drop)]
pub struct WrittenVerdict {
    /// Whether the file is accepted.
    pub is_accepted: bool,
    /// What is written of it, which ends with a newline.
    pub text: Vec<u8>,
}

/// The bytes of a file, up to `most` and one more.
fn bytes_of(rt: &(impl Files + AllocGlobal), path: &str, most: usize) -> io::Result<Vec<u8>> {
    let file = File::open(rt, path)?;
    let mut bytes = Vec::new(rt.alloc());
    file.take((most as u64).saturating_add(1))
        .read_to_end(&mut bytes)?;
    Ok(bytes)
}

/// An object as a line of its own.
fn line_of(mut object: String) -> Result<Vec<u8>, AllocError> {
    object.push('\n')?;
    Ok(object.into_bytes())
}

/// The verdict on a module.
fn check_module(
    rt: &(impl Files + AllocGlobal),
    given: CheckArguments<'_>,
) -> Result<WrittenVerdict, CheckError> {
    let alloc: Global = rt.alloc();
    let bytes = bytes_of(rt, given.file, MOST_MODULE_BYTES)?;
    let verdict = explain_module(alloc, &bytes)?;
    let mut text = Vec::new(alloc);
    if given.is_json {
        text = line_of(module_json(alloc, given.file, &verdict)?)?;
    } else {
        write_module(given.file, &verdict, &mut text)?;
    }
    Ok(WrittenVerdict {
        is_accepted: verdict.refusal.is_none(),
        text,
    })
}

/// The verdict on settings.
fn check_settings(
    rt: &(impl Files + AllocGlobal),
    given: CheckArguments<'_>,
) -> Result<WrittenVerdict, CheckError> {
    let alloc: Global = rt.alloc();
    let bytes = bytes_of(rt, given.file, MOST_SETTINGS_BYTES)?;
    let verdict = explain_settings(alloc, &bytes)?;
    let mut text = Vec::new(alloc);
    if given.is_json {
        text = line_of(settings_json(alloc, given.file, &verdict)?)?;
    } else {
        write_settings(given.file, &verdict, &mut text)?;
    }
    Ok(WrittenVerdict {
        is_accepted: verdict.is_accepted,
        text,
    })
}

/// The verdict on a script, which is accepted where each of its lines is.
fn check_script(
    rt: &(impl Files + AllocGlobal),
    given: CheckArguments<'_>,
) -> Result<WrittenVerdict, CheckError> {
    let alloc: Global = rt.alloc();
    let mut reader = BufReader::new(alloc, File::open(rt, given.file)?)?;
    let verdict = explain_script(alloc, &mut reader)?;
    let mut text = Vec::new(alloc);
    if given.is_json {
        text = line_of(script_json(alloc, given.file, &verdict)?)?;
    } else {
        write_script(given.file, &verdict, &mut text)?;
    }
    Ok(WrittenVerdict {
        is_accepted: verdict.is_accepted(),
        text,
    })
}

/// Finds the verdict that a command line asks for.
///
/// # Errors
/// `Input` where the file can't be opened or read; `Memory` where a growth is refused.
pub fn check(
    rt: &(impl Files + AllocGlobal),
    given: CheckArguments<'_>,
) -> Result<WrittenVerdict, CheckError> {
    match given.kind {
        Kind::Module => check_module(rt, given),
        Kind::Settings => check_settings(rt, given),
        Kind::Script => check_script(rt, given),
    }
}
