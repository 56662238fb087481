//! A log that is read beside its writer: each call of the reader finds the folder as it was after a later call of the
//! writer.

ghost use Rattle.std.specs.Prelude.{◌≤◌, IsErr};
ghost use Rattle.store_base.specs.Counts.{HasRisen};

use crate::failed_calls::script;
use crate::torn_logs::{is_record, opened};
use segmented_log::{Call, LogError, LogReader, call_all};
use std::alloc::{AllocError, Global};
use std::cell::Cell;
use std::io;
use std::io::ErrorKind;
use std::test::Fail;
use store_base::MemFile;
use store_folder::{Folder, ReadableFolder};
use torn_folder::{Event, TornFolder};

// How many calls the writer makes, at most, between two calls of the reader.
const CALLS_BETWEEN: usize = 4;

// How many calls the writer has made by the reader's first listing, by its look at the tail, by its second listing, and
// once it opens the segments.
type Moments = [usize; 4];

// A folder that a writer changes, as it is in the end. Each call of a reader finds it at a moment of its own.
#[derive(Drop)]
struct ChangingFolder {
    alloc: Global,
    folder: TornFolder,
    moments: Moments,
    calls: Cell<usize>,
    failures: u64,
}

impl ChangingFolder {
    fn new(
        alloc: Global,
        events: &[Event],
        moments: Moments,
    ) -> Result<ChangingFolder, AllocError> {
        Ok(ChangingFolder {
            alloc,
            folder: TornFolder::of_events(alloc, events)?,
            moments,
            calls: Cell::new(0),
            failures: 0,
        })
    }

    // The folder as the next call finds it.
    fn at_call(&self) -> io::Result<TornFolder> {
        let call = self.calls.get();
        self.calls.set(call.saturating_add(1));
        let count = self.moments.get(call.min(3)).copied().unwrap_or(0);
        let events = self.folder.events();
        let events = events.get(..count).unwrap_or(events);
        Ok(TornFolder::of_events(self.alloc, events)?)
    }

    // A reader changes nothing.
    fn refuse(&mut self) -> io::Result<()>
        ensures fault { IsErr result }
        ensures count { HasRisen self.old.failures self.new.failures }
    {
        self.failures = self.failures.saturating_add(1);
        Err(ErrorKind::PermissionDenied.into())
    }
}

/// It promises nothing, as it changes.
impl Folder for ChangingFolder {
    ghost use Rattle.std.specs.Prelude.{false, None};
    ghost use Rattle.std.proofs.Common.{rules};

    ghost honest = { false };

    ghost seen = { λ _ _. None };

    ghost may_hold = { λ _ _ _. ⊥ };

    ghost may_leave = { λ _ _. ⊥ };

    ghost entry_kept = { λ _ _. ⊥ };

    ghost trusted = { λ _ _. ⊥ };

    ghost moment = { λ _. 0 };

    ghost left_since = { λ _ _ _. ⊥ };

    ghost failures = { λ f. f.failures };

    ghost counts_now = { λ f t c le now. now };

    ghost only_now = { λ f c left. left };

    ghost seen_may_be_left = { λ f h. Prim.search rules };

    ghost entry_leads = { λ f n c h kept left. absurd kept };

    fn create(&mut self, _name: &str) -> io::Result<()> {
        self.refuse()
    }

    fn append(&mut self, _name: &str, _bytes: &[u8]) -> io::Result<()> {
        self.refuse()
    }

    fn sync_file(&mut self, _name: &str) -> io::Result<()> {
        self.refuse()
    }

    fn rename(&mut self, _from: &str, _to: &str) -> io::Result<()> {
        self.refuse()
    }

    fn remove(&mut self, _name: &str) -> io::Result<()> {
        self.refuse()
    }

    fn sync(&mut self) -> io::Result<()> {
        self.refuse()
    }

    fn is_trusted(&self, _name: &str) -> bool {
        false
    }

    fn is_synced(&self, _name: &str) -> bool {
        false
    }

    fn has_kept_entries(&self) -> bool {
        false
    }
}

impl ReadableFolder for ChangingFolder {
    ghost use Rattle.std.specs.Prelude.{false};

    type File = MemFile;

    ghost is_readable = { false };

    fn names(&self, alloc: Global) -> io::Result<Vec<String>> {
        self.at_call()?.names(alloc)
    }

    fn read(&self, alloc: Global, name: &str) -> io::Result<Option<Vec<u8>>> {
        self.at_call()?.read(alloc, name)
    }

    fn open(&self, alloc: Global, name: &str) -> io::Result<MemFile> {
        self.at_call()?.open(alloc, name)
    }
}

// A log that a process wrote: its records, its folder, and after how many calls of the folder it began.
#[derive(Drop)]
struct Written {
    records: Vec<Vec<u8>>,
    folder: TornFolder,
    begun: usize,
}

// Makes these calls on a new log.
fn write_log(alloc: Global, calls: &[Call]) -> Result<Written, Fail> {
    let folder = opened(alloc, TornFolder::new(alloc))?.into_folder();
    let begun = folder.events().len();
    let mut log = opened(alloc, folder)?;
    call_all(&mut log, calls)?;
    let mut records = Vec::new(alloc);
    for call in calls {
        if let Call::Append(record) = call {
            records.push(record.to_vec(alloc)?)?;
        }
    }
    Ok(Written {
        records,
        folder: log.into_folder(),
        begun,
    })
}

// What a reader found: the number of the first record, and the one after the last.
type Found = (u64, u64);

impl Written {
    // What a reader finds at these moments, if it finds a log, of just these records.
    fn found(&self, alloc: Global, moments: Moments) -> Result<Option<Found>, LogError> {
        let folder = ChangingFolder::new(alloc, self.folder.events(), moments)?;
        let mut log = LogReader::open(alloc, &folder)?;
        for number in 0..=self.records.len() {
            let is_there = log.first() <= number as u64 && (number as u64) < log.end();
            let expected = if is_there {
                self.records.get(number)
            } else {
                None
            };
            if !is_record(log.get(number as u64), expected) {
                return Ok(None);
            }
        }
        Ok(Some((log.first(), log.end())))
    }

    // What a reader finds after each number of calls from the beginning of the log on.
    fn all_found(&self, alloc: Global) -> Result<Option<Vec<Found>>, Fail> {
        let mut all = Vec::new(alloc);
        for count in self.begun..=self.folder.events().len() {
            match self.found(alloc, [count; 4])? {
                Some(found) => all.push(found)?,
                None => return Ok(None),
            }
        }
        Ok(Some(all))
    }

    // Whether a reader at these moments finds what there was at one of them, or that the log was changed; or that a
    // segment is gone which it opens later.
    fn is_one_moment(&self, alloc: Global, all: &[Found], moments: Moments) -> Result<bool, Fail> {
        let [from, _, to, open] = moments;
        let (from, until) = (
            from.saturating_sub(self.begun),
            to.saturating_sub(self.begun),
        );
        let possible = all.get(from..=until).unwrap_or(&[]);
        match self.found(alloc, moments) {
            Ok(Some(found)) => Ok(possible.contains(&found)),
            Ok(None) => Ok(false),
            Err(LogError::Changed) => Ok(true),
            Err(LogError::Failed(_)) => Ok(open > to),
            Err(error) => Err(error)?,
        }
    }

    // The moment that comes some calls later, or the last one.
    fn later(&self, moment: usize) -> usize {
        moment
            .saturating_add(CALLS_BETWEEN)
            .min(self.folder.events().len())
    }

    // Whether it is so at each second listing, for a reader that listed and looked at the tail at these moments.
    fn is_one_after(
        &self,
        alloc: Global,
        all: &[Found],
        from: usize,
        look: usize,
    ) -> Result<bool, Fail> {
        for to in look..=self.later(look) {
            if !self.is_one_moment(alloc, all, [from, look, to, to])?
                || !self.is_one_moment(alloc, all, [from, look, to, self.later(to)])?
            {
                return Ok(false);
            }
        }
        Ok(true)
    }

    // Whether it is so at each look at the tail, for a reader that listed at this moment.
    fn is_one_from(&self, alloc: Global, all: &[Found], from: usize) -> Result<bool, Fail> {
        for look in from..=self.later(from) {
            if !self.is_one_after(alloc, all, from, look)? {
                return Ok(false);
            }
        }
        Ok(true)
    }
}

#[test]
fn a_reader_beside_its_writer_finds_the_log_of_one_moment(rt: HostRuntime) -> Result<(), Fail> {
    let alloc = rt.alloc();
    let log = write_log(alloc, &script(alloc)?)?;
    let all = log.all_found(alloc)?.unwrap_or(Vec::new(alloc));
    assert!(rt; all.len() > 30, "{}", all.len());
    for from in log.begun..=log.folder.events().len() {
        assert!(rt; log.is_one_from(alloc, &all, from)?, "{from}");
    }
    Ok(())
}
