//! `log repair`: cuts off the end of a damaged tail, and keeps it.

use crate::folder;
use crate::log_refusal::refused;
use crate::logs::Logs;
use crate::places::file_in;
use clap::Command;
use program_base::command_words::command_of;
use program_base::failure::{FailureCause, to_output};
use std::alloc::{AllocError, Global};
use std::fs;
use store_files::SystemFiles;

const EXAMPLE: &str = "\
Only this command cuts off bytes that were written whole and have changed: 'append', 'seal' and 'compact' refuse such a
log, and 'drop' leaves its tail. Records after the damage are lost with it, and their numbers are given again. So get
the file tail.log from a copy if there is one. A tail of which only the number of its first record has changed is not
cut: it needs the copy.

Example:
  zevkhadun log repair events     prints how many bytes were cut off, and the file that has them";

/// The words of `log repair`.
pub fn command<'a>(alloc: Global) -> Result<Command<'a>, AllocError> {
    command_of(
        alloc,
        "repair",
        "Cut off the damaged end of the tail, and keep it in a file",
        EXAMPLE,
        &[folder()],
    )
}

// Says which file has what was cut off.
fn tell(rt: &HostRuntime, path: &str, name: &str) -> Result<(), FailureCause> {
    let file = file_in(rt.alloc(), path, name)?;
    let bytes = fs::metadata(rt, file.as_str())?.len();
    to_output(println!(rt;
        "{path}: cut off {bytes} bytes at the end of the tail; they are in {file}"
    ))
}

/// Repairs the log at a path.
pub fn run<S: SystemFiles>(logs: Logs<'_, S>, path: &str) -> Result<(), FailureCause> {
    let rt = logs.rt;
    let mut folder = logs.folder(path)?;
    let cut = segmented_log::repair(rt.alloc(), &mut *folder);
    drop(folder);
    match cut {
        Ok(Some(name)) => tell(rt, path, name.as_str()),
        Ok(None) => to_output(println!(rt; "{path}: the tail is whole; nothing was cut off")),
        Err(error) => Err(refused(error)),
    }
}
