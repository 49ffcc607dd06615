// The listing's text: from the file that the second argument names, or from standard input.
use crate::print::failed;
use std::env::FillError;
use std::fs::File;
use std::io;
use std::io::Read;
use std::rt::{Env, Files, Stderr};
use streams::Output;

// How many bytes stand at the start of the buffer. None where something is wrong with the file, which has been said; an error is returned only
// where reading it ends in one.
fn from_file(
    rt: &impl Files,
    errors: &mut Output<Stderr>,
    path: &[u8],
    buffer: &mut [u8],
) -> io::Result<Option<usize>> {
    let Ok(name) = std::str::from_utf8(path) else {
        errors.text(path);
        errors.text(b": the name is not UTF-8\n");
        return Ok(None);
    };
    let mut file = match File::open(rt, name) {
        Ok(file) => file,
        Err(error) => {
            failed(errors, path, error);
            return Ok(None);
        }
    };
    // A directory opens, and no byte of it can be read.
    if let Err(error) = file.read(&mut []) {
        failed(errors, path, error);
        return Ok(None);
    }
    Ok(Some(streams::read_full(&mut file, buffer)?))
}

// The same of the file that is named, or else of standard input.
pub fn read(
    rt: &(impl Env + Files + io::Input),
    errors: &mut Output<Stderr>,
    buffer: &mut [u8],
) -> io::Result<Option<usize>> {
    let mut path = [0u8; 4096];
    match rt.arg(2, &mut path) {
        Ok(n) => from_file(rt, errors, &path[..n], buffer),
        Err(FillError::NotPresent) => Ok(Some(streams::read_full(&mut rt.reader(), buffer)?)),
        Err(FillError::TooLong) => {
            errors.text(b"FILE: File name too long\n");
            Ok(None)
        }
    }
}
