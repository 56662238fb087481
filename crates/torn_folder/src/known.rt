//! What is known of a folder's files, by the calls that were made to it.

ghost use Rattle.std.specs.Prelude.{◌≡◌, reverse};
ghost use Rattle.torn_folder.specs.Known.{trusted_by, is_there_by, synced_by, entries_by};

use crate::Event;

/// Whether no sync of the file that has this name has failed since it was made.
pub(crate) fn is_file_trusted(events: &[Event], name: &str) -> bool
    ensures { result ≡ trusted_by (reverse events.now) name.now }
{
    let Some((last, earlier)) = events.split_last() else {
        return true;
    };
    match last {
        Event::Created(made) if made.as_str() == name => true,
        Event::Moved(from, to) if to.as_str() == name => is_file_trusted(earlier, from.as_str()),
        Event::SyncFailed(file) if file.as_str() == name => false,
        _ => is_file_trusted(earlier, name),
    }
}

// Whether this name has a file.
fn is_there(events: &[Event], name: &str) -> bool
    ensures { result ≡ is_there_by (reverse events.now) name.now }
{
    let Some((last, earlier)) = events.split_last() else {
        return false;
    };
    match last {
        Event::Created(file) | Event::Appended(file, _) if file.as_str() == name => true,
        Event::Moved(from, to) if to.as_str() == name => is_there(earlier, from.as_str()),
        Event::Moved(file, _) | Event::Removed(file) if file.as_str() == name => false,
        _ => is_there(earlier, name),
    }
}

/// Whether the file that has this name was synced since it was last written, and no sync of it has failed.
pub(crate) fn is_file_synced(events: &[Event], name: &str) -> bool
    ensures { result ≡ synced_by (reverse events.now) name.now }
{
    let Some((last, earlier)) = events.split_last() else {
        return false;
    };
    match last {
        Event::Moved(from, to) if to.as_str() == name => {
            is_there(earlier, from.as_str()) && is_file_synced(earlier, from.as_str())
        }
        Event::Created(file)
        | Event::Appended(file, _)
        | Event::Moved(file, _)
        | Event::Removed(file)
        | Event::SyncFailed(file)
            if file.as_str() == name => { false }
        Event::FileSynced(file) if file.as_str() == name => is_file_trusted(earlier, name),
        _ => is_file_synced(earlier, name),
    }
}

/// Whether the entry of each name is on the disk.
pub(crate) fn are_entries_kept(events: &[Event]) -> bool
    ensures { result ≡ entries_by (reverse events.now) }
{
    let Some((last, earlier)) = events.split_last() else {
        return true;
    };
    match last {
        Event::Created(_) | Event::Moved(_, _) | Event::Removed(_) => false,
        Event::Appended(name, _) => {
            is_there(earlier, name.as_str()) && are_entries_kept(earlier)
        }
        Event::FileSynced(_) | Event::SyncFailed(_) => are_entries_kept(earlier),
        Event::FolderSynced => true,
    }
}
