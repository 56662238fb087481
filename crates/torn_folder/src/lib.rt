//! A folder in memory that tears as badly as the model allows, and what wrong orders of calls leave in it.
#![tactic(auto)]

ghost use Rattle.std.specs.Prelude.{◌≡◌, ◌⊎◌, ◌++◌, ◌≤◌, [], ◌∷◌, length, reverse, true, false, OnOk, OnErr};
ghost use Rattle.std.specs.Prelude.{IsErr, IsTrue};
ghost use Rattle.store_base.specs.Counts.{HasRisen};
ghost use Rattle.store_folder.specs.Moments.{Elapses};
ghost use Rattle.torn_folder.specs.Torn.{seen_by, held_by, kept_by, left_by, LeftSince, was_now, is_now, possible_look};
ghost use Rattle.torn_folder.specs.Kept.{kept_leads};
ghost use Rattle.torn_folder.specs.Known.{trusted_by};

mod known;
mod reading;
pub mod wrong;

use crate::known::{are_entries_kept, is_file_synced, is_file_trusted};
use std::alloc::{AllocError, Global};
use std::io;
use store_folder::Folder;

/// A call that was made.
#[derive(Drop)]
pub enum Event {
    Created(String),
    Appended(String, Vec<u8>),
    /// From the first name to the second.
    Moved(String, String),
    Removed(String),
    FileSynced(String),
    /// A sync of the file that wrote nothing. No later one writes anything, though it returns Ok.
    SyncFailed(String),
    FolderSynced,
}

impl Event {
    // The same call.
    fn copied(&self, alloc: Global) -> Result<Event, AllocError> {
        Ok(match self {
            Event::Created(name) => Event::Created(String::from_str(alloc, name.as_str())?),
            Event::Appended(name, bytes) => {
                Event::Appended(
                    String::from_str(alloc, name.as_str())?,
                    bytes.to_vec(alloc)?,
                )
            }
            Event::Moved(from, to) => Event::Moved(
                String::from_str(alloc, from.as_str())?,
                String::from_str(alloc, to.as_str())?,
            ),
            Event::Removed(name) => Event::Removed(String::from_str(alloc, name.as_str())?),
            Event::FileSynced(name) => Event::FileSynced(String::from_str(alloc, name.as_str())?),
            Event::SyncFailed(name) => Event::SyncFailed(String::from_str(alloc, name.as_str())?),
            Event::FolderSynced => Event::FolderSynced,
        })
    }
}

// Which call fails: the one after this many, and whether it is made all the same, or each one from there on.
#[derive(Clone, Copy)]
struct Failure {
    count: usize,
    is_made: bool,
    is_lasting: bool,
}

/// A folder in memory of which a crash may leave torn files and undone changes. It keeps the calls that were made. It
/// fails for lack of memory, and then a call changes nothing, and where `fail_at` or `fail_from` has it fail. After a
/// sync of a file that failed each sync of that file returns Ok and keeps nothing.
#[derive(Drop)]
pub struct TornFolder {
    alloc: Global,
    events: Vec<Event>,
    // How many of the calls were made before the machine started. What they left on the disk is not known to be there.
    forgotten: usize,
    failure: Option<Failure>,
    failures: u64,
}

// Adds an event.
fn push(events: &mut Vec<Event>, event: Event) -> Result<(), AllocError>
    ensures ok { OnOk result (events.new.items ≡ events.old.items ++ event ∷ []) }
    ensures err { OnErr result (events.new.items ≡ events.old.items) }
{
    events.push(event)?;
    Ok(())
}

// How many of an append's bytes are written, of this many: the first half where it fails.
fn written(fails: bool, count: usize) -> usize
    ensures most { result ≤ count }
    ensures all { fails ≡ false → result ≡ count }
{
    if fails { count / 2 } else { count }
}

impl TornFolder {
    /// An empty folder.
    pub fn new(alloc: Global) -> TornFolder
        ensures events { result.events.items ≡ [] }
        ensures failures { result.failures ≡ 0 }
    {
        TornFolder {
            alloc,
            events: Vec::new(alloc),
            forgotten: 0,
            failure: None,
            failures: 0,
        }
    }

    /// The folder to which these calls were made.
    pub fn of_events(alloc: Global, events: &[Event]) -> Result<TornFolder, AllocError> {
        let mut folder = TornFolder::new(alloc);
        for event in events {
            folder.events.push(event.copied(alloc)?)?;
        }
        Ok(folder)
    }

    /// Forgets what is known of the files, as a machine does that starts again.
    pub fn restart(&mut self)
        ensures events { self.new.events ≡ self.old.events }
        ensures failures { self.new.failures ≡ self.old.failures }
    {
        self.forgotten = self.events.len();
    }

    /// The calls that were made, the first of them first.
    pub fn events(&self) -> &[Event]
        ensures { result.now ≡ self.now.events.items }
    {
        &self.events
    }

    /// Lets the call fail that follows the first of the folder's calls, this many. If it `is_made` it changes the
    /// folder all the same: an append writes the first half of its bytes, and a sync of a file nothing, nor will a
    /// later one. Otherwise it changes nothing.
    pub fn fail_at(&mut self, count: usize, is_made: bool)
        ensures events { self.new.events ≡ self.old.events }
        ensures failures { self.new.failures ≡ self.old.failures }
    {
        self.failure = Some(Failure {
            count,
            is_made,
            is_lasting: false,
        });
    }

    /// Lets each call fail, and change nothing, that comes after the first of the folder's calls, this many. So the
    /// folder is as a process leaves it that was killed then.
    pub fn fail_from(&mut self, count: usize)
        ensures events { self.new.events ≡ self.old.events }
        ensures failures { self.new.failures ≡ self.old.failures }
    {
        self.failure = Some(Failure {
            count,
            is_made: false,
            is_lasting: true,
        });
    }

    // Whether the next call is to fail.
    fn is_failing(&self) -> bool {
        match self.failure {
            Some(failure) => failure.count == self.events.len(),
            None => false,
        }
    }

    // Whether a call that fails is made all the same. The next ones don't fail, unless all do.
    fn is_made(&mut self) -> bool
        ensures events { self.new.events ≡ self.old.events }
        ensures failures { self.new.failures ≡ self.old.failures }
    {
        match self.failure {
            Some(failure) if !failure.is_lasting => {
                self.failure = None;
                failure.is_made
            }
            _ => false,
        }
    }

    // Counts a failed call.
    fn refuse(&mut self) -> io::Result<()>
        ensures fault { IsErr result }
        ensures events { self.new.events ≡ self.old.events }
        ensures count { HasRisen self.old.failures self.new.failures }
    {
        self.failures = self.failures.saturating_add(1);
        Err(io::ErrorKind::Other.into())
    }

    // Fails, and notes the call if it is made all the same.
    fn fail(&mut self, event: Event) -> io::Result<()>
        ensures either { (reverse self.new.events.items ≡ event ∷ reverse self.old.events.items)
            ⊎ (reverse self.new.events.items ≡ reverse self.old.events.items) }
        ensures time { Elapses (length self.old.events.items) (length self.new.events.items)
            (LeftSince self.old.events.items) (LeftSince self.new.events.items)
            (left_by (reverse self.new.events.items)) }
        ensures count { HasRisen self.old.failures self.new.failures }
        ensures fault { IsErr result }
    {
        if !self.is_made() {
            return self.refuse();
        }
        match push(&mut self.events, event) {
            Ok(()) => self.refuse(),
            Err(_) => self.refuse(),
        }
    }

    // Notes a call, unless there is no memory for it, or it is to fail.
    fn note(&mut self, event: Event, fails: bool) -> io::Result<()>
        ensures noted { OnOk result (reverse self.new.events.items ≡ event ∷ reverse self.old.events.items) }
        ensures either { (reverse self.new.events.items ≡ event ∷ reverse self.old.events.items)
            ⊎ (reverse self.new.events.items ≡ reverse self.old.events.items) }
        ensures time { Elapses (length self.old.events.items) (length self.new.events.items)
            (LeftSince self.old.events.items) (LeftSince self.new.events.items)
            (left_by (reverse self.new.events.items)) }
        ensures count { self.old.failures ≤ self.new.failures }
        ensures fault { OnErr result (HasRisen self.old.failures self.new.failures) }
        ensures fails { IsTrue fails → IsErr result }
    {
        if fails {
            return self.fail(event);
        }
        match push(&mut self.events, event) {
            Ok(()) => Ok(()),
            Err(_) => self.refuse(),
        }
    }
}

impl Folder for TornFolder {
    ghost honest = { true };

    ghost seen = { λ f. seen_by (reverse f.events.items) };

    ghost may_hold = { λ f. held_by (reverse f.events.items) };

    ghost may_leave = { λ f. left_by (reverse f.events.items) };

    ghost entry_kept = { λ f. kept_by (reverse f.events.items) };

    ghost trusted = { λ f n. IsTrue (trusted_by (reverse f.events.items) n) };

    ghost moment = { λ f. length f.events.items };

    ghost left_since = { λ f. LeftSince f.events.items };

    ghost failures = { λ f. f.failures };

    ghost counts_now = { λ f t c le now. was_now f.events.items t c le now };

    ghost only_now = { λ f c left. is_now f.events.items c left };

    ghost seen_may_be_left = { λ f h. possible_look (reverse f.events.items) };

    ghost entry_leads = { λ f n c h kept left. kept_leads (reverse f.events.items) n c kept left };

    fn create(&mut self, name: &str) -> io::Result<()> {
        let fails = self.is_failing();
        match String::from_str(self.alloc, name) {
            Ok(name) => self.note(Event::Created(name), fails),
            Err(_) => self.refuse(),
        }
    }

    fn append(&mut self, name: &str, bytes: &[u8]) -> io::Result<()> {
        let fails = self.is_failing();
        let count = written(fails, bytes.len());
        match (
            String::from_str(self.alloc, name),
            bytes[..count].to_vec(self.alloc),
        ) {
            (Ok(name), Ok(bytes)) => self.note(Event::Appended(name, bytes), fails),
            _ => self.refuse(),
        }
    }

    fn sync_file(&mut self, name: &str) -> io::Result<()> {
        let fails = self.is_failing();
        match String::from_str(self.alloc, name) {
            Ok(copy) => {
                if is_file_trusted(&self.events, name) && !fails {
                    return self.note(Event::FileSynced(copy), false);
                }
                // The system takes for written what it did not write.
                self.note(Event::SyncFailed(copy), fails)
            }
            Err(_) => self.refuse(),
        }
    }

    fn rename(&mut self, from: &str, to: &str) -> io::Result<()> {
        let fails = self.is_failing();
        match (
            String::from_str(self.alloc, from),
            String::from_str(self.alloc, to),
        ) {
            (Ok(from), Ok(to)) => self.note(Event::Moved(from, to), fails),
            _ => self.refuse(),
        }
    }

    fn remove(&mut self, name: &str) -> io::Result<()> {
        let fails = self.is_failing();
        match String::from_str(self.alloc, name) {
            Ok(name) => self.note(Event::Removed(name), fails),
            Err(_) => self.refuse(),
        }
    }

    fn sync(&mut self) -> io::Result<()> {
        let fails = self.is_failing();
        self.note(Event::FolderSynced, fails)
    }

    fn is_trusted(&self, name: &str) -> bool {
        is_file_trusted(&self.events, name)
    }

    fn is_synced(&self, name: &str) -> bool {
        let later = &self.events[self.forgotten.min(self.events.len())..];
        is_file_synced(&self.events, name) && is_file_synced(later, name)
    }

    fn has_kept_entries(&self) -> bool {
        are_entries_kept(&self.events)
    }
}
