//! What a crash leaves of a folder, played over the calls that were made to it.

use crate::dice::Dice;
use std::alloc::{AllocError, Global};
use torn_folder::Event;

// A file: its bytes, and how many of them are synced; none if it was not synced since it was made.
#[derive(Drop)]
struct File {
    bytes: Vec<u8>,
    synced: Option<usize>,
}

// A name, and the files that a crash may leave under it: a look sees the last one.
#[derive(Drop)]
struct Entry {
    name: String,
    files: Vec<Option<usize>>,
}

/// A disk, as the calls of a folder made it.
#[derive(Drop)]
pub struct Disk {
    alloc: Global,
    files: Vec<File>,
    entries: Vec<Entry>,
}

/// A file that a crash left.
#[derive(Drop)]
pub struct LeftFile {
    pub name: String,
    pub bytes: Vec<u8>,
}

// What a crash leaves of a file's bytes: those that are synced, and of the others all, none, a front, or a front and
// other bytes. In a file that was synced these are no more than were appended.
fn tear(alloc: Global, file: &File, dice: &mut Dice) -> Result<Vec<u8>, AllocError> {
    let mut bytes = file.bytes.to_vec(alloc)?;
    let kind = dice.roll(4);
    if kind == 0 {
        return Ok(bytes);
    }
    let synced = file.synced.unwrap_or(0);
    let unsynced = bytes.len().saturating_sub(synced);
    let front = if kind == 1 {
        0
    } else {
        dice.roll(unsynced.saturating_add(1))
    };
    bytes.truncate(synced.saturating_add(front));
    if kind == 3 && unsynced > 0 {
        let room = match file.synced {
            Some(_) => unsynced.saturating_sub(front).min(29),
            None => 29,
        };
        for _ in 0..dice.roll(room.saturating_add(1)) {
            bytes.push(dice.roll(3) as u8)?;
        }
    }
    Ok(bytes)
}

impl Disk {
    /// The disk after the first of these calls, this many.
    pub fn after(alloc: Global, events: &[Event], count: usize) -> Result<Disk, AllocError> {
        let mut disk = Disk {
            alloc,
            files: Vec::new(alloc),
            entries: Vec::new(alloc),
        };
        for event in events.iter().take(count) {
            disk.apply(event)?;
        }
        Ok(disk)
    }

    // The file that a look sees under a name.
    fn look(&self, name: &str) -> Option<usize> {
        for entry in &self.entries {
            if entry.name.as_str() == name {
                return match entry.files.last() {
                    Some(file) => *file,
                    None => None,
                };
            }
        }
        None
    }

    // Lets a name lead to a file, or to none.
    fn lead(&mut self, name: &str, file: Option<usize>) -> Result<(), AllocError> {
        for entry in self.entries.iter_mut() {
            if entry.name.as_str() == name {
                entry.files.push(file)?;
                return Ok(());
            }
        }
        let mut files = Vec::new(self.alloc);
        files.push(None)?;
        files.push(file)?;
        let name = String::from_str(self.alloc, name)?;
        self.entries.push(Entry { name, files })?;
        Ok(())
    }

    fn create(&mut self, name: &str) -> Result<usize, AllocError> {
        let file = self.files.len();
        self.files.push(File {
            bytes: Vec::new(self.alloc),
            synced: None,
        })?;
        self.lead(name, Some(file))?;
        Ok(file)
    }

    fn append(&mut self, name: &str, bytes: &[u8]) -> Result<(), AllocError> {
        let number = match self.look(name) {
            Some(number) => number,
            None => self.create(name)?,
        };
        if let Some(file) = self.files.get_mut(number) {
            file.bytes.extend_from_slice(bytes)?;
        }
        Ok(())
    }

    fn sync_file(&mut self, name: &str) {
        if let Some(number) = self.look(name) {
            if let Some(file) = self.files.get_mut(number) {
                file.synced = Some(file.bytes.len());
            }
        }
    }

    fn rename(&mut self, from: &str, to: &str) -> Result<(), AllocError> {
        if let Some(number) = self.look(from) {
            self.lead(to, Some(number))?;
            self.lead(from, None)?;
        }
        Ok(())
    }

    // Leaves each name just the file that a look sees.
    fn sync(&mut self) -> Result<(), AllocError> {
        for entry in self.entries.iter_mut() {
            let seen = match entry.files.last() {
                Some(file) => *file,
                None => None,
            };
            entry.files.clear();
            entry.files.push(seen)?;
        }
        Ok(())
    }

    fn apply(&mut self, event: &Event) -> Result<(), AllocError> {
        match event {
            Event::Created(name) => {
                self.create(name.as_str())?;
                Ok(())
            }
            Event::Appended(name, bytes) => self.append(name.as_str(), bytes),
            Event::Moved(from, to) => self.rename(from.as_str(), to.as_str()),
            Event::Removed(name) => self.lead(name.as_str(), None),
            Event::FileSynced(name) => {
                self.sync_file(name.as_str());
                Ok(())
            }
            Event::SyncFailed(_) => Ok(()),
            Event::FolderSynced => self.sync(),
        }
    }

    /// The files that a crash leaves.
    pub fn crash(&self, dice: &mut Dice) -> Result<Vec<LeftFile>, AllocError> {
        let mut left = Vec::new(self.alloc);
        for entry in &self.entries {
            let choice = dice.roll(entry.files.len());
            if let Some(Some(number)) = entry.files.get(choice) {
                if let Some(file) = self.files.get(*number) {
                    let bytes = tear(self.alloc, file, dice)?;
                    let name = String::from_str(self.alloc, entry.name.as_str())?;
                    left.push(LeftFile { name, bytes })?;
                }
            }
        }
        Ok(left)
    }
}
