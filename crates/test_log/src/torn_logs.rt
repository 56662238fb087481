//! Logs in folders that crash or are killed, and whether they have what a plain list has.

use crate::dice::Dice;
use crate::torn_files::{Disk, LeftFile};
use segmented_log::{Commit, LogError, SegmentedLog};
use std::alloc::{AllocError, Global};
use std::io;
use std::test::Fail;
use store_folder::Folder;
use torn_folder::{Event, TornFolder};

pub type Log = SegmentedLog<TornFolder>;

// A folder after a restart that has these files.
fn restarted(alloc: Global, files: &[LeftFile]) -> io::Result<TornFolder> {
    let mut folder = TornFolder::new(alloc);
    for file in files {
        folder.create(file.name.as_str())?;
        folder.append(file.name.as_str(), &file.bytes)?;
        folder.sync_file(file.name.as_str())?;
    }
    folder.sync()?;
    folder.restart();
    Ok(folder)
}

/// The folder that a crash leaves after the first of these calls, this many.
pub fn crashed(
    alloc: Global,
    events: &[Event],
    count: usize,
    dice: &mut Dice,
) -> Result<TornFolder, Fail> {
    let files = Disk::after(alloc, events, count)?.crash(dice)?;
    Ok(restarted(alloc, &files)?)
}

/// The folder that a process leaves that is killed after the first of these calls, this many. What was not synced is
/// not synced by that.
pub fn killed(alloc: Global, events: &[Event], count: usize) -> Result<TornFolder, AllocError> {
    TornFolder::of_events(alloc, events.get(..count).unwrap_or(events))
}

/// Whether what was read is the record that is expected, or none.
pub fn is_record(read: Result<Option<Vec<u8>>, LogError>, expected: Option<&Vec<u8>>) -> bool {
    match (read, expected) {
        (Ok(Some(found)), Some(record)) => found.as_slice() == record.as_slice(),
        (Ok(None), None) => true,
        _ => false,
    }
}

/// Whether the log has just the records from this number on, under their numbers.
pub fn has_from(log: &mut Log, records: &[Vec<u8>], first: u64) -> bool {
    if log.first() != first || log.end() != records.len() as u64 {
        return false;
    }
    for number in 0..records.len() {
        let expected = if (number as u64) < first {
            None
        } else {
            records.get(number)
        };
        if !is_record(log.get(number as u64), expected) {
            return false;
        }
    }
    is_record(log.get(records.len() as u64), None)
}

/// Opens a folder's log.
pub fn opened(alloc: Global, folder: TornFolder) -> Result<Log, LogError> {
    SegmentedLog::open(alloc, folder, 1000, Commit::OneSync).map_err(|refusal| refusal.0)
}

/// Opens a folder's log and appends a record.
pub fn appended(alloc: Global, folder: TornFolder, record: &[u8]) -> Result<TornFolder, LogError> {
    let mut log = opened(alloc, folder)?;
    log.append(record)?;
    log.sync()?;
    Ok(log.into_folder())
}

/// The number of the first record of a folder's log, if it has the first of these records from there on: at least as
/// many as are acknowledged.
pub fn first_of(
    alloc: Global,
    folder: TornFolder,
    records: &[Vec<u8>],
    acknowledged: usize,
) -> Result<Option<u64>, LogError> {
    let mut log = opened(alloc, folder)?;
    let first = log.first();
    for end in acknowledged..=records.len() {
        let all = records.get(..end).unwrap_or(&[]);
        if has_from(&mut log, all, first) {
            return Ok(Some(first));
        }
    }
    Ok(None)
}
