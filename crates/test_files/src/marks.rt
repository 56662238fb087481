//! What the mark in a folder's file `lock` tells the next writer, and what one tells that is not of this folder.

use crate::folder::{make, remove};
use std::fs;
use std::test::Fail;
use store_files::{DiskFolder, HostFiles};
use store_folder::{Folder, replace};

type Locked = DiskFolder<HostFiles>;

fn opened(rt: &HostRuntime, path: &str) -> Result<Box<Locked>, Fail> {
    let folder = DiskFolder::open(rt.alloc(), HostFiles::new(rt)?, path)?;
    Ok(Box::new(rt.alloc(), folder)?)
}

// Makes a folder in which the file `a` is on the disk, whose writer ended well.
fn begin(rt: &HostRuntime, path: &str) -> Result<(), Fail> {
    make(rt, path)?;
    Ok(replace(&mut *opened(rt, path)?, "a.part", "a", b"whole")?)
}

// What a writer that opens the folder knows of a file.
#[derive(Clone, Copy, PartialEq, Eq)]
enum Known {
    Nothing,
    Trusted,
    Synced,
}

fn standing(folder: &Locked, name: &str) -> Known {
    if folder.is_synced(name) {
        return Known::Synced;
    }
    if folder.is_trusted(name) {
        return Known::Trusted;
    }
    Known::Nothing
}

// What is known of two files by the mark in the folder's `lock`, and whether its entries are on the disk.
fn is_known(rt: &HostRuntime, path: &str, a: Known, b: Known, entries: bool) -> Result<bool, Fail> {
    let folder = opened(rt, path)?;
    Ok(
        standing(&folder, "a") == a
            && standing(&folder, "b") == b
            && folder.has_kept_entries() == entries,
    )
}

// The mark in a folder's `lock`.
fn mark(rt: &HostRuntime, path: &str) -> Result<Vec<u8>, Fail> {
    let lock = format!(in rt.alloc(); "{path}/lock")?;
    Ok(fs::read(rt, lock.as_str())?)
}

// Replaces it, as a writer does.
fn set_mark(rt: &HostRuntime, path: &str, mark: &[u8]) -> Result<(), Fail> {
    let lock = format!(in rt.alloc(); "{path}/lock")?;
    Ok(fs::write(rt, lock.as_str(), mark)?)
}

// Lets a writer make the file `b`, and write it if that is asked, and be killed: its mark stays as it is then.
fn kill(rt: &HostRuntime, path: &str, is_written: bool) -> Result<Vec<u8>, Fail> {
    let mut folder = opened(rt, path)?;
    folder.create("b")?;
    if is_written {
        folder.append("b", b"torn")?;
    }
    let left = mark(rt, path)?;
    drop(folder);
    set_mark(rt, path, &left)?;
    Ok(left)
}

#[test]
fn a_writer_that_ends_well_leaves_no_file_to_sync(rt: HostRuntime) -> Result<(), Fail> {
    let path = "test_files_ended";
    begin(&rt, path)?;
    assert!(rt; is_known(&rt, path, Known::Synced, Known::Synced, true)?);
    Ok(remove(&rt, path)?)
}

#[test]
fn a_file_that_was_made_is_not_taken_for_synced_after_a_kill(rt: HostRuntime) -> Result<(), Fail> {
    let path = "test_files_killed";
    begin(&rt, path)?;
    for is_written in [false, true] {
        kill(&rt, path, is_written)?;
        assert!(rt; is_known(&rt, path, Known::Synced, Known::Nothing, false)?);
    }
    Ok(remove(&rt, path)?)
}

// Whether this mark tells nothing in this folder: each file is to be synced, and may be.
fn is_ignored(rt: &HostRuntime, path: &str, mark: &[u8]) -> Result<bool, Fail> {
    set_mark(rt, path, mark)?;
    is_known(rt, path, Known::Trusted, Known::Trusted, false)
}

// The same mark, of another start of the machine: its number is the second field.
fn of_another_start(mark: &mut [u8]) {
    for at in 1..mark.len() {
        if mark[at - 1] == 0 {
            mark[at] = b'x';
            return;
        }
    }
}

// Whether this mark tells nothing once the machine has started again, where it was cut, and in a copy of the folder.
fn is_of_its_folder_alone(
    rt: &HostRuntime,
    path: &str,
    copy: &str,
    left: &[u8],
) -> Result<bool, Fail> {
    let mut other = left.to_vec(rt.alloc())?;
    of_another_start(&mut other);
    let cut = &left[..left.len() - left.len().min(1)];
    Ok(is_ignored(rt, path, &other)? && is_ignored(rt, path, cut)? && is_ignored(rt, copy, left)?)
}

#[test]
fn a_mark_of_another_folder_or_start_or_a_torn_one_is_ignored(rt: HostRuntime) -> Result<(), Fail> {
    let (path, copy) = ("test_files_marked", "test_files_copied");
    begin(&rt, path)?;
    begin(&rt, copy)?;
    let ended = mark(&rt, path)?;
    assert!(rt; is_of_its_folder_alone(&rt, path, copy, &ended)?);
    set_mark(&rt, path, &ended)?;
    let open = kill(&rt, path, true)?;
    assert!(rt; open != ended && is_of_its_folder_alone(&rt, path, copy, &open)?);
    remove(&rt, copy)?;
    Ok(remove(&rt, path)?)
}

#[test]
fn a_lock_that_was_removed_tells_nothing(rt: HostRuntime) -> Result<(), Fail> {
    let path = "test_files_unlocked";
    begin(&rt, path)?;
    fs::remove_file(&rt, "test_files_unlocked/lock")?;
    assert!(rt; is_known(&rt, path, Known::Trusted, Known::Trusted, false)?);
    Ok(remove(&rt, path)?)
}

#[test]
fn a_file_beside_that_was_left_over_is_not_trusted_by_its_new_name(
    rt: HostRuntime,
) -> Result<(), Fail> {
    let path = "test_files_left";
    begin(&rt, path)?;
    fs::write(&rt, "test_files_left/b.part", b"left".as_slice())?;
    let mut folder = opened(&rt, path)?;
    folder.rename("b.part", "b")?;
    folder.sync_file("b")?;
    let is_known_now = standing(&folder, "b") == Known::Nothing;
    drop(folder);
    assert!(rt; is_known_now && is_known(&rt, path, Known::Synced, Known::Nothing, false)?);
    Ok(remove(&rt, path)?)
}
