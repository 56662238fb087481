//! Publishing in wrong orders, and what a crash then leaves in a folder that tears. They are about lists of
//! calls, and not about runs of a body.

ghost use Rattle.torn_folder.specs.Wrong.{UnsyncedIsTorn, OldComesBack, RemovedIsGone, WrittenInPlaceIsTorn};
ghost use Rattle.torn_folder.specs.Wrong.{FolderSyncAloneTears};

/// Renamed before it is synced: a crash may leave any bytes under the new name, also after a later sync of the file.
pub fn unsynced_is_torn()
    ensures { UnsyncedIsTorn }
{}

/// No sync of the folder: a crash may leave what was under the name before.
pub fn old_comes_back()
    ensures { OldComesBack }
{}

/// The old file removed first: a crash may leave none.
pub fn removed_is_gone()
    ensures { RemovedIsGone }
{}

/// Written in its place: a crash may leave any bytes, or no file.
pub fn written_in_place_is_torn()
    ensures { WrittenInPlaceIsTorn }
{}

/// The folder synced before and after the rename, and the file not: a crash may leave any bytes under the new name.
pub fn folder_sync_alone_tears()
    ensures { FolderSyncAloneTears }
{}
