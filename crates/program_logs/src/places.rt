//! What is at the path of a log: its files, as the system lists them.

use program_base::failure::{Failure, FailureCause};
use program_base::log_refusal::LogRefusal;
use program_base::status::Status;
use segmented_log::{TAIL, segment_number};
use std::alloc::{AllocError, Global};
use std::fs::{DirEntry, Metadata};
use std::io::ErrorKind;
use std::path::AsPath;
use std::time::SystemTime;
use std::{fs, io};
use store_files::CreateError;

/// The path of a file of a log.
pub fn file_in(alloc: Global, folder: &str, name: &str) -> Result<String, AllocError> {
    let folder = folder.trim_end_matches('/');
    format!(in alloc; "{folder}/{name}")
}

// Reports that a file is no plain one.
fn reported(rt: &HostRuntime, path: &str) -> FailureCause {
    let cause = FailureCause::Create(CreateError::NotPlainFile);
    let status = Failure::at_file(rt.alloc(), path, cause).report(rt);
    FailureCause::Reported(status.unwrap_or(Status::Broken))
}

// Adds the number of an entry of a folder, if it is a segment.
fn add_segment(
    rt: &HostRuntime,
    numbers: &mut Vec<u64>,
    entry: io::Result<DirEntry>,
) -> Result<(), FailureCause> {
    let entry = entry?;
    let Some(number) = segment_number(entry.file_name()) else {
        return Ok(());
    };
    match entry.file_type() {
        Ok(kind) if !kind.is_file() => Err(reported(rt, entry.path().path_text())),
        // A writer may have removed it meanwhile.
        _ => Ok(numbers.push(number)?),
    }
}

/// The numbers of the segments in a folder, sorted. One that is no plain file is reported, and an error.
pub fn segment_numbers(rt: &HostRuntime, folder: &str) -> Result<Vec<u64>, FailureCause> {
    let mut numbers = Vec::new(rt.alloc());
    for entry in fs::read_dir(rt, folder)? {
        add_segment(rt, &mut numbers, entry)?;
    }
    numbers.sort()?;
    Ok(numbers)
}

// What the system says of the tail of a log, also where it is no plain file.
fn found_tail(rt: &HostRuntime, path: &str) -> io::Result<Option<Metadata>> {
    match fs::symlink_metadata(rt, path) {
        Ok(found) => Ok(Some(found)),
        Err(error) if error.kind() == ErrorKind::NotFound => Ok(None),
        Err(error) => Err(error),
    }
}

/// How many bytes the tail of a log has; none where there is no tail. One that is no plain file is reported, and an
/// error.
pub fn tail_bytes(rt: &HostRuntime, folder: &str) -> Result<Option<u64>, FailureCause> {
    let path = file_in(rt.alloc(), folder, TAIL)?;
    match found_tail(rt, path.as_str())? {
        Some(found) if found.is_file() => Ok(Some(found.len())),
        Some(_) => Err(reported(rt, path.as_str())),
        None => Ok(None),
    }
}

/// How many bytes the tail of a log has, and when it was written last: another pair says that it has changed.
pub fn tail_mark(rt: &HostRuntime, folder: &str) -> Option<(u64, SystemTime)> {
    let path = file_in(rt.alloc(), folder, TAIL).ok()?;
    let found = found_tail(rt, path.as_str()).ok()??;
    Some((found.len(), found.modified().ok()?))
}

// Whether a folder has no files, but for those that a crash during the beginning of a log may have left.
fn is_blank(rt: &HostRuntime, path: &str) -> io::Result<bool> {
    for entry in fs::read_dir(rt, path)? {
        let entry = entry?;
        let name = entry.file_name();
        if name != "lock" && !name.ends_with(".part") {
            return Ok(false);
        }
    }
    Ok(true)
}

// Fails if what was found at the path is neither a log nor, where one may begin, a place for it: an empty folder.
fn check_found(
    rt: &HostRuntime,
    path: &str,
    found: Metadata,
    may_begin: bool,
) -> Result<(), FailureCause> {
    if !found.is_dir() {
        return Err(FailureCause::Log(LogRefusal::NotLog));
    }
    if tail_bytes(rt, path)?.is_some() || (may_begin && is_blank(rt, path)?) {
        return Ok(());
    }
    match segment_numbers(rt, path)?.is_empty() {
        true => Err(FailureCause::Log(LogRefusal::NotLog)),
        false => Err(FailureCause::Log(LogRefusal::NoTail)),
    }
}

/// Fails if there is no log at the path.
pub fn check_log(rt: &HostRuntime, path: &str) -> Result<(), FailureCause> {
    check_found(rt, path, fs::metadata(rt, path)?, false)
}

/// The numbers of the segments of the log at the path. Fails if there is none, or a segment is no plain file.
pub fn check_parts(rt: &HostRuntime, path: &str) -> Result<Vec<u64>, FailureCause> {
    check_log(rt, path)?;
    segment_numbers(rt, path)
}

/// Fails if there is neither a log at the path nor a place for a new one: nothing, or an empty folder.
pub fn check_place(rt: &HostRuntime, path: &str) -> Result<(), FailureCause> {
    match fs::metadata(rt, path) {
        Err(error) if error.kind() == ErrorKind::NotFound => Ok(()),
        found => check_found(rt, path, found?, true),
    }
}
