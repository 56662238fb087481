//! Calls of a folder as data, and the loop that makes them.

ghost use Rattle.std.specs.Prelude.{◌≡◌, ◌≤◌, All, IsTrue, OnErr, is_ok, map};
ghost use Rattle.store_base.specs.Counts.{HasRisen};
ghost use Rattle.store_folder.specs.Calls.{doing_of, kind, Does, Carried, IsReady, AreReady, IsApart};

use crate::folder::Folder;
use std::io;

/// A call of a folder: what is done, under which names, with which bytes.
#[derive(Clone, Copy, Drop)]
pub enum FolderCall<'a> {
    Create(&'a str),
    Append(&'a str, &'a [u8]),
    SyncFile(&'a str),
    Rename(&'a str, &'a str),
    Remove(&'a str),
    Sync,
}

// Makes one call.
fn make_call<F: Folder>(folder: &mut F, call: &FolderCall<'_>) -> io::Result<()>
    requires apart { IsApart (doing_of call.now) }
    requires ready { IsTrue F.honest → IsReady (F.seen folder.old) (doing_of call.now) }
    ensures does { IsTrue F.honest
        → Does (kind F.seen F.may_hold F.may_leave F.moment F.left_since F.entry_kept F.trusted)
        (doing_of call.now) (is_ok result) folder.old folder.new }
    ensures count { F.failures folder.old ≤ F.failures folder.new }
    ensures fault { OnErr result (HasRisen (F.failures folder.old) (F.failures folder.new)) }
{
    match *call {
        FolderCall::Create(name) => folder.create(name),
        FolderCall::Append(name, bytes) => folder.append(name, bytes),
        FolderCall::SyncFile(name) => folder.sync_file(name),
        FolderCall::Rename(from, to) => folder.rename(from, to),
        FolderCall::Remove(name) => folder.remove(name),
        FolderCall::Sync => folder.sync(),
    }
}

/// Makes these calls, in order, up to the first that fails.
pub fn carry_out<F: Folder>(folder: &mut F, calls: &[FolderCall<'_>]) -> io::Result<()>
    requires apart { All (λ call. IsApart (doing_of call)) calls.now }
    requires ready { IsTrue F.honest
        → AreReady (kind F.seen F.may_hold F.may_leave F.moment F.left_since F.entry_kept F.trusted)
        (map doing_of calls.now) folder.old }
    ensures carried { IsTrue F.honest
        → Carried (kind F.seen F.may_hold F.may_leave F.moment F.left_since F.entry_kept F.trusted)
        (map doing_of calls.now) (is_ok result) folder.old folder.new }
    ensures count { F.failures folder.old ≤ F.failures folder.new }
    ensures fault { OnErr result (HasRisen (F.failures folder.old) (F.failures folder.new)) }
{
    for call in calls {
        make_call(folder, call)?;
    }
    Ok(())
}
