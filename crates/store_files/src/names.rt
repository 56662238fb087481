//! The names of the files of a folder that has one writer.

use crate::paths::LOCK;
use std::alloc::Global;
use std::fs::{DirEntry, Files};
use std::{fs, io};

// The name of this entry of a folder, if it is that of a plain file, and not the lock.
fn file_name<R: Files>(alloc: Global, entry: &DirEntry<R>) -> io::Result<Option<String>> {
    let name = entry.file_name();
    if name != LOCK && entry.file_type()?.is_file() {
        return Ok(Some(String::from_str(alloc, name)?));
    }
    Ok(None)
}

/// The name of each plain file of this folder, but for the lock.
pub(crate) fn file_names<R: Files>(rt: &R, alloc: Global, path: &str) -> io::Result<Vec<String>> {
    let mut names = Vec::new(alloc);
    for entry in fs::read_dir(&(rt, alloc), path)? {
        if let Some(name) = file_name(alloc, &entry?)? {
            names.push(name)?;
        }
    }
    Ok(names)
}
