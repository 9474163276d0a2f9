// Settings and scripts from files that aren't the system's.

ghost use Rattle.std.specs.Prelude.{None, true};

use crate::asking::words;
use std::alloc::Global;
use std::io::{Error, ErrorKind, Result as IoResult};
use std::test::Fail;
use wasmhost_program::{ANSWERED, FileError, Folder, STOPPED, Source, answer};
use wh_streams::{WatchedRead, WatchedWrite};

/// Two files: settings with two frames, and a script.
#[derive(Drop)]
struct TwoFiles;

impl Folder for TwoFiles {
    type Opened = &'static [u8];

    ghost known = { λ folder path. None };

    fn open(&self, path: &str) -> IoResult<&'static [u8]> {
        match path {
            "two.toml" => Ok(b"frames = 2\n".as_slice()),
            "two.script" => Ok(b"admit a m 1 2 2 0 0 0\nreport\n".as_slice()),
            _ => Err(Error::from(ErrorKind::NotFound)),
        }
    }
}

impl Source for TwoFiles {
    ghost files = { λ folder path bytes. true };

    fn read(&self, _alloc: Global, _path: &str) -> Result<Vec<u8>, FileError> {
        Err(FileError::Unreadable)
    }
}

#[test]
fn settings_and_scripts_come_from_a_folder(rt: HostRuntime) -> Result<(), Fail> {
    let words = words(&rt, &["wasmhost", "--settings", "two.toml", "two.script"])?;
    let mut input = WatchedRead::new(b"no command\n".as_slice());
    let mut output = WatchedWrite::new(Vec::new(rt.alloc()));
    let mut errors = Vec::new(rt.alloc());
    let status = answer(&rt, &TwoFiles, &words, &mut input, &mut output, &mut errors).status;
    assert_eq!(rt; status, ANSWERED);
    assert!(rt;
        output
            .into_inner()
            .as_slice()
            .starts_with(b"error C2 line 1\n# frames 2")
    );
    assert_eq!(rt; input.into_inner().len(), 11);
    Ok(())
}

#[test]
fn a_folder_may_lack_a_script(rt: HostRuntime) -> Result<(), Fail> {
    let words = words(&rt, &["wasmhost", "three.script"])?;
    let mut input = WatchedRead::new(b"scan\n".as_slice());
    let mut output = WatchedWrite::new(Vec::new(rt.alloc()));
    let mut errors = Vec::new(rt.alloc());
    let status = answer(&rt, &TwoFiles, &words, &mut input, &mut output, &mut errors).status;
    assert_eq!(rt; status, STOPPED);
    assert_eq!(rt; output.into_inner().len(), 0);
    assert_eq!(rt;
        str::from_utf8(errors.as_slice()),
        Ok("wasmhost: script: three.script: entity not found\n")
    );
    Ok(())
}
