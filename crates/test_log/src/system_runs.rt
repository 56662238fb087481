//! Logs in a folder over the calls of a system, of which a crash tears each change.

use crate::dice::Dice;
use crate::failed_calls::script;
use crate::torn_logs::{crashed, first_of};
use segmented_log::{Call, Commit, SegmentedLog, call_all};
use std::alloc::{AllocError, Global};
use std::test::Fail;
use store_files::DiskFolder;
use store_folder::ReadableFolder;
use system_model::{MemSystem, Step};
use torn_folder::Event;

// From how many bytes on a sync seals the tail.
const SEAL_SIZE: usize = 150;

// The name that the file of a number has, if it has one. The number is the place of the change that made it.
fn name_of(names: &[Option<String>], number: u64) -> Option<&str> {
    names.get(number as usize)?.as_deref()
}

// The place of the file that has this name.
fn place_of(names: &[Option<String>], name: &str) -> Option<usize> {
    names.iter().position(|one| one.as_deref() == Some(name))
}

// A change as a call of a folder, by the name that a file has before it; none of a file that has no name.
fn event_of(
    alloc: Global,
    names: &[Option<String>],
    step: &Step,
) -> Result<Option<Event>, AllocError> {
    let copy = |name: &str| String::from_str(alloc, name);
    Ok(match step {
        Step::Created(name) => Some(Event::Created(copy(name)?)),
        Step::Appended(number, bytes) => match name_of(names, *number) {
            Some(name) => Some(Event::Appended(copy(name)?, bytes.to_vec(alloc)?)),
            None => None,
        },
        Step::FileSynced(number) => match name_of(names, *number) {
            Some(name) => Some(Event::FileSynced(copy(name)?)),
            None => None,
        },
        Step::Moved(from, to) => Some(Event::Moved(copy(from)?, copy(to)?)),
        Step::Removed(name) => Some(Event::Removed(copy(name)?)),
        Step::FolderSynced => Some(Event::FolderSynced),
    })
}

// Gives the file at a place, if there is one, another name, or none.
fn put(names: &mut Vec<Option<String>>, place: Option<usize>, name: Option<String>) {
    let Some(place) = place else {
        return;
    };
    if let Some(found) = names.get_mut(place) {
        *found = name;
    }
}

// Notes which name each file has after a change. The name of the file that it makes, if it makes one.
fn note(
    alloc: Global,
    names: &mut Vec<Option<String>>,
    step: &Step,
) -> Result<Option<String>, AllocError> {
    match step {
        Step::Created(name) if place_of(names, name).is_none() => {
            return Ok(Some(String::from_str(alloc, name)?));
        }
        Step::Removed(name) => put(names, place_of(names, name), None),
        Step::Moved(from, to) => {
            put(names, place_of(names, to), None);
            let name = String::from_str(alloc, to)?;
            put(names, place_of(names, from), Some(name));
        }
        _ => {}
    }
    Ok(None)
}

// These changes as calls of a folder.
fn events_of(alloc: Global, steps: &[Step]) -> Result<Vec<Event>, AllocError> {
    let mut names = Vec::new(alloc);
    let mut events = Vec::new(alloc);
    for step in steps {
        if let Some(event) = event_of(alloc, &names, step)? {
            events.push(event)?;
        }
        let made = note(alloc, &mut names, step)?;
        names.push(made)?;
    }
    Ok(events)
}

// A log that a process wrote over a system in memory: its records, how many of them it acknowledged, before which
// number it dropped them, and the changes of its folder.
#[derive(Drop)]
struct Written {
    records: Vec<Vec<u8>>,
    acknowledged: usize,
    limit: u64,
    events: Vec<Event>,
}

impl Written {
    // Notes what a call that was made acknowledges.
    fn note(&mut self, alloc: Global, call: &Call) -> Result<(), AllocError> {
        match call {
            Call::Append(record) => self.records.push(record.to_vec(alloc)?)?,
            Call::Sync => self.acknowledged = self.records.len(),
            Call::DropBefore(number) => self.limit = self.limit.max(*number),
            _ => {}
        }
        Ok(())
    }

    // Whether a crash leaves this many acknowledged records, but for those that were dropped, after each count of
    // changes from this one on.
    fn keeps(
        &self,
        alloc: Global,
        from: usize,
        acknowledged: usize,
        dice: &mut Dice,
    ) -> Result<bool, Fail> {
        for count in from..=self.events.len() {
            let left = crashed(alloc, &self.events, count, dice)?;
            let first = first_of(alloc, left, &self.records, acknowledged)?;
            if !first.is_some_and(|first| first <= self.limit) {
                return Ok(false);
            }
        }
        Ok(true)
    }
}

// A folder after these calls on its log.
fn folder_after<F: ReadableFolder>(
    alloc: Global,
    folder: F,
    calls: &[Call],
    commit: Commit,
) -> Result<F, Fail> {
    let log = SegmentedLog::open(alloc, folder, SEAL_SIZE, commit);
    let mut log = Box::new(alloc, log.map_err(|refusal| refusal.0)?)?;
    call_all(&mut *log, calls)?;
    Ok(Box::into_inner(log).into_folder())
}

// The log of a process that makes these calls.
fn write_log(alloc: Global, calls: &[Call], commit: Commit) -> Result<Written, Fail> {
    let folder = DiskFolder::open(alloc, MemSystem::new(alloc, "f")?, "f")?;
    let folder = Box::new(alloc, folder_after(alloc, folder, calls, commit)?)?;
    let mut written = Written {
        records: Vec::new(alloc),
        acknowledged: 0,
        limit: 0,
        events: events_of(alloc, folder.system().steps())?,
    };
    for call in calls {
        written.note(alloc, call)?;
    }
    Ok(written)
}

// How many changes the calls of a script make, if a crash at none of them loses what is acknowledged then.
fn survived(alloc: Global, commit: Commit, seed: u64) -> Result<Option<usize>, Fail> {
    let calls = script(alloc)?;
    let mut dice = Dice::new(seed);
    let (mut count, mut acknowledged) = (0, 0);
    for end in 0..=calls.len() {
        let written = write_log(alloc, calls.get(..end).unwrap_or(&[]), commit)?;
        if !written.keeps(alloc, count, acknowledged, &mut dice)? {
            return Ok(None);
        }
        (count, acknowledged) = (written.events.len(), written.acknowledged);
    }
    Ok(Some(count))
}

#[test]
fn no_change_of_a_system_that_is_torn_loses_what_is_acknowledged(
    rt: HostRuntime,
) -> Result<(), Fail> {
    for commit in [Commit::OneSync, Commit::TwoSyncs] {
        for seed in 0..8 {
            let count = survived(rt.alloc(), commit, seed)?;
            assert!(rt; count.is_some_and(|count| count > 40), "{count:?} {seed}");
        }
    }
    Ok(())
}
