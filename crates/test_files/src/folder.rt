//! A folder of a test's own, and what lies in it.

use std::{fs, io};

/// Makes a folder for one test, which is empty.
pub fn make(rt: &HostRuntime, folder: &str) -> io::Result<()> {
    let _ = fs::remove_dir_all(rt, folder);
    fs::create_dir(rt, folder)
}

/// How many files a folder has.
pub fn count(rt: &HostRuntime, folder: &str) -> io::Result<usize> {
    Ok(fs::read_dir(rt, folder)?.count())
}

/// Whether the file of this name has these bytes.
pub fn holds(rt: &HostRuntime, path: &str, bytes: &[u8]) -> io::Result<bool> {
    Ok(fs::read(rt, path)?.as_slice() == bytes)
}

/// Removes a folder with all that is in it.
pub fn remove(rt: &HostRuntime, folder: &str) -> io::Result<()> {
    fs::remove_dir_all(rt, folder)
}
