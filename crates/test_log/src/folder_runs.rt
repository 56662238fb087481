//! Lists of calls on logs in folders, by processes that crash or are killed, one after another, beside a plain list.

use crate::dice::Dice;
use crate::torn_logs::{Log, crashed, has_from, killed};
use segmented_log::{Call, Commit, call_all, open_and_call};
use std::alloc::{AllocError, Global};
use std::test::Fail;
use torn_folder::{Event, TornFolder};

const SEAL_SIZE: usize = 120;

const PROCESSES: usize = 5;

const CALLS: usize = 8;

// How many crashes are played at each moment.
const CRASHES: usize = 2;

// A run of processes: the records that were found or appended, how many of them there were at the opening and at each
// sync since, the number of the first at the opening and the one that drops may make it at most, how many crashes left
// some of the batches, and how many left a log without some of its first records.
#[derive(Drop)]
struct Run {
    alloc: Global,
    dice: Dice,
    records: Vec<Vec<u8>>,
    ends: Vec<usize>,
    first: u64,
    limit: u64,
    partial: usize,
    dropped: usize,
}

// Opens a folder's log and makes calls.
fn called(alloc: Global, folder: TornFolder, commit: Commit, calls: &[Call]) -> Result<Log, Fail> {
    match open_and_call(alloc, folder, SEAL_SIZE, commit, calls) {
        Ok(log) => Ok(log),
        Err(_) => Err(std::io::Error::from(std::io::ErrorKind::Other))?,
    }
}

impl Run {
    // How a process commits.
    fn commit(&mut self) -> Commit {
        match self.dice.roll(2) {
            0 => Commit::OneSync,
            _ => Commit::TwoSyncs,
        }
    }

    fn record(&mut self) -> Result<Vec<u8>, AllocError> {
        let mut record = Vec::new(self.alloc);
        for _ in 0..self.dice.roll(20) {
            record.push(self.dice.roll(3) as u8)?;
        }
        Ok(record)
    }

    // A number to drop before. No drop takes a record that is synced after it.
    fn number(&mut self) -> u64 {
        let number = self.records.len().saturating_sub(self.dice.roll(4)) as u64;
        let end = self.ends.last().copied().unwrap_or(0) as u64;
        self.limit = self.limit.max(number.min(end));
        number
    }

    // The next call, noted beside the log.
    fn call(&mut self) -> Result<Call, AllocError> {
        match self.dice.roll(10) {
            0 | 5 => Ok(Call::Seal),
            1 | 2 => {
                self.ends.push(self.records.len())?;
                Ok(Call::Sync)
            }
            3 => Ok(Call::Compact(self.dice.roll(400) as u64)),
            4 => Ok(Call::DropBefore(self.number())),
            _ => {
                let record = self.record()?;
                self.records.push(record.to_vec(self.alloc)?)?;
                Ok(Call::Append(record))
            }
        }
    }

    fn calls(&mut self) -> Result<Vec<Call>, AllocError> {
        let mut calls = Vec::new(self.alloc);
        for _ in 0..CALLS {
            calls.push(self.call()?)?;
        }
        Ok(calls)
    }

    // The number where the log ends, if it has just the records up to a sync, this one or a later one, and of the first
    // it lacks only those that may be dropped.
    fn found(&self, log: &mut Log, sync: usize) -> Option<usize> {
        let first = log.first();
        if first < self.first || first > self.limit {
            return None;
        }
        for end in self.ends.iter().skip(sync) {
            let all = self.records.get(..*end)?;
            if has_from(log, all, first) {
                return Some(*end);
            }
        }
        None
    }

    // Whether a crash after this many calls of the folder leaves the records up to a sync, this one or a later one.
    fn survives(&mut self, events: &[Event], count: usize, sync: usize) -> Result<bool, Fail> {
        let folder = crashed(self.alloc, events, count, &mut self.dice)?;
        let mut log = called(self.alloc, folder, Commit::OneSync, &[])?;
        let found = self.found(&mut log, sync);
        if found > self.ends.first().copied() && found < self.ends.last().copied() {
            self.partial = self.partial.saturating_add(1);
        }
        if log.first() > self.first {
            self.dropped = self.dropped.saturating_add(1);
        }
        Ok(found.is_some())
    }

    // Whether each crash between these counts does so.
    fn survive_all(
        &mut self,
        events: &[Event],
        from: usize,
        to: usize,
        sync: usize,
    ) -> Result<bool, Fail> {
        for count in from..to {
            for _ in 0..CRASHES {
                if !self.survives(events, count, sync)? {
                    return Ok(false);
                }
            }
        }
        Ok(true)
    }

    // The folder as it is once the process ends after this many calls: by a crash of the machine, or alone.
    fn ended(&mut self, events: &[Event], count: usize) -> Result<TornFolder, Fail> {
        match self.dice.roll(2) {
            0 => crashed(self.alloc, events, count, &mut self.dice),
            _ => Ok(killed(self.alloc, events, count)?),
        }
    }

    // Opens what is left of some of these calls, and notes what there is of the records. Each crash while it is opened
    // leaves them, or what it could leave before.
    fn restart(
        &mut self,
        events: &[Event],
        from: usize,
        to: usize,
    ) -> Result<Option<TornFolder>, Fail> {
        let count = from.saturating_add(self.dice.roll(to.saturating_sub(from)));
        let folder = self.ended(events, count)?;
        let start = folder.events().len();
        let mut log = called(self.alloc, folder, Commit::OneSync, &[])?;
        let (first, found) = (log.first(), self.found(&mut log, 0));
        let folder = log.into_folder();
        let end = folder.events().len();
        let survives = self.survive_all(folder.events(), start, end.saturating_add(1), 0)?;
        let Some(found) = found else {
            return Ok(None);
        };
        self.records.truncate(found);
        self.ends.clear();
        self.ends.push(found)?;
        self.first = first;
        self.limit = first;
        Ok(if survives { Some(folder) } else { None })
    }

    // A process, of which every crash is played. The folder that one of them left, if each left what it may.
    fn process(&mut self, folder: TornFolder) -> Result<Option<TornFolder>, Fail> {
        let from = folder.events().len();
        let commit = self.commit();
        let calls = self.calls()?;
        let mut log = called(self.alloc, folder, commit, &calls)?;
        let more = self.calls()?;
        let done = call_all(&mut log, &more).is_ok();
        let folder = log.into_folder();
        let to = folder.events().len();
        let last = self.ends.len().saturating_sub(1);
        let survives = self.survive_all(folder.events(), from, to, 0)?;
        let kept = self.survive_all(folder.events(), to, to.saturating_add(1), last)?;
        if done && survives && kept {
            self.restart(folder.events(), from, to)
        } else {
            Ok(None)
        }
    }
}

// Runs processes, each on what the one before it left. How many crashes left some of the batches, and how
// many a log without some of its first records.
fn play(alloc: Global, seed: u64) -> Result<Option<(usize, usize)>, Fail> {
    let mut run = Run {
        alloc,
        dice: Dice::new(seed),
        records: Vec::new(alloc),
        ends: Vec::new(alloc),
        first: 0,
        limit: 0,
        partial: 0,
        dropped: 0,
    };
    run.ends.push(0)?;
    let mut folder = TornFolder::new(alloc);
    for _ in 0..PROCESSES {
        match run.process(folder)? {
            Some(left) => folder = left,
            None => return Ok(None),
        }
    }
    Ok(Some((run.partial, run.dropped)))
}

#[test]
fn processes_that_crash_or_are_killed_leave_whole_batches(rt: HostRuntime) -> Result<(), Fail> {
    for seed in 0..2 {
        let left = play(rt.alloc(), seed)?;
        assert!(rt;
            left.is_some_and(|(partial, dropped)| partial > 0 && dropped > 0),
            "{left:?} {seed}"
        );
    }
    Ok(())
}
