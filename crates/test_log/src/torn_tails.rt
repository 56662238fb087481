//! Logs whose process was killed while it wrote a batch. What is done first with the torn tail may end early, too.

use crate::dice::Dice;
use crate::torn_logs::{appended, crashed, first_of, killed, opened};
use segmented_log::{LogError, TAIL, drop_segments, repair};
use std::alloc::{AllocError, Global};
use std::test::Fail;
use store_folder::{Folder, ReadableFolder};
use torn_folder::TornFolder;

// How many records are acknowledged before a batch is torn: each but the last is in a segment of its own.
const ACKNOWLEDGED: usize = 4;

// How many bytes of that batch are written: of its head, which has 37 and is whole alone, or of what follows too.
const WRITTEN: [usize; 4] = [1, 36, 38, 57];

// How many crashes are played at each moment.
const CRASHES: usize = 2;

// The records that are acknowledged.
fn first_records(alloc: Global) -> Result<Vec<Vec<u8>>, AllocError> {
    let mut records = Vec::new(alloc);
    for number in 0..ACKNOWLEDGED {
        records.push(b"old".get(..number.min(3)).unwrap_or(b"").to_vec(alloc)?)?;
    }
    Ok(records)
}

// The folder of a log of these records.
fn written(alloc: Global, records: &[Vec<u8>]) -> Result<TornFolder, LogError> {
    let mut folder = TornFolder::new(alloc);
    for record in records {
        let mut log = opened(alloc, folder)?;
        log.seal()?;
        folder = appended(alloc, log.into_folder(), record)?;
    }
    Ok(folder)
}

// The folder of a log of these records, as a process leaves it that is killed once it has written this many bytes of
// one batch more.
fn torn(alloc: Global, records: &[Vec<u8>], count: usize) -> Result<TornFolder, LogError> {
    let mut folder = written(alloc, records)?;
    let next = appended(alloc, written(alloc, records)?, b"torn")?;
    let Some(grown) = next.read(alloc, TAIL)? else {
        return Err(LogError::NoLog);
    };
    let Some(tail) = folder.read(alloc, TAIL)? else {
        return Err(LogError::NoLog);
    };
    let batch = grown.get(tail.len()..).unwrap_or(&[]);
    match batch.get(..count) {
        Some(part) if part.len() < batch.len() => folder.append(TAIL, part)?,
        _ => return Err(LogError::NoLog),
    }
    Ok(folder)
}

// Whether a process that is killed after this many calls of the folder or more leaves a log of these records.
fn is_left(
    alloc: Global,
    folder: &TornFolder,
    from: usize,
    records: &[Vec<u8>],
) -> Result<bool, LogError> {
    let events = folder.events();
    for count in from..=events.len() {
        let left = killed(alloc, events, count)?;
        if first_of(alloc, left, records, records.len())? != Some(0) {
            return Ok(false);
        }
    }
    Ok(true)
}

#[test]
fn an_opening_that_ends_early_leaves_a_torn_end_to_the_next_one(
    rt: HostRuntime,
) -> Result<(), Fail> {
    let alloc = rt.alloc();
    let records = first_records(alloc)?;
    for count in WRITTEN {
        let folder = torn(alloc, &records, count)?;
        let from = folder.events().len();
        let folder = opened(alloc, folder)?.into_folder();
        assert!(rt; is_left(alloc, &folder, from, &records)?, "{count}");
    }
    Ok(())
}

#[test]
fn a_repair_that_ends_early_leaves_a_torn_end_to_an_opening(rt: HostRuntime) -> Result<(), Fail> {
    let alloc = rt.alloc();
    let records = first_records(alloc)?;
    for count in WRITTEN {
        let mut folder = torn(alloc, &records, count)?;
        let from = folder.events().len();
        assert!(rt; repair(alloc, &mut folder)?.is_some(), "{count}");
        assert!(rt; is_left(alloc, &folder, from, &records)?, "{count}");
    }
    Ok(())
}

// A log with a torn tail from which segments were dropped, and to which two records were appended then.
#[derive(Drop)]
struct DroppedLog {
    folder: TornFolder,
    records: Vec<Vec<u8>>,
    // The number of the first record that is left.
    first: u64,
    // After how many calls of the folder the drop began, and after how many it returned.
    from: usize,
    dropped: usize,
    // After how many calls each of the later records was acknowledged.
    acknowledged: Vec<usize>,
}

// Drops the records before this number from a log, and then goes on with it.
fn dropped(alloc: Global, count: usize, number: u64) -> Result<DroppedLog, LogError> {
    let mut records = first_records(alloc)?;
    let mut folder = torn(alloc, &records, count)?;
    let from = folder.events().len();
    let first = drop_segments(alloc, &mut folder, number)?.end;
    let dropped = folder.events().len();
    let mut acknowledged = Vec::new(alloc);
    for record in [b"new".as_slice(), b"newer".as_slice()] {
        folder = appended(alloc, folder, record)?;
        records.push(record.to_vec(alloc)?)?;
        acknowledged.push(folder.events().len())?;
    }
    Ok(DroppedLog {
        folder,
        records,
        first,
        from,
        dropped,
        acknowledged,
    })
}

impl DroppedLog {
    // Whether the folder that is left after this many calls has each record that was acknowledged by then, but for
    // those that are dropped.
    fn is_kept(&self, alloc: Global, left: TornFolder, count: usize) -> Result<bool, LogError> {
        let mut acknowledged = ACKNOWLEDGED;
        for end in &self.acknowledged {
            if *end <= count {
                acknowledged = acknowledged.saturating_add(1);
            }
        }
        match first_of(alloc, left, &self.records, acknowledged)? {
            Some(first) if count < self.dropped => Ok(first <= self.first),
            Some(first) => Ok(first == self.first),
            None => Ok(false),
        }
    }

    // Whether it is so where the process is killed after each of the calls, and where the power is cut.
    fn survives(&self, alloc: Global, dice: &mut Dice) -> Result<bool, Fail> {
        let events = self.folder.events();
        for count in self.from..=events.len() {
            if !self.is_kept(alloc, killed(alloc, events, count)?, count)? {
                return Ok(false);
            }
            for _ in 0..CRASHES {
                if !self.is_kept(alloc, crashed(alloc, events, count, dice)?, count)? {
                    return Ok(false);
                }
            }
        }
        Ok(true)
    }
}

#[test]
fn a_drop_before_a_torn_tail_leaves_each_later_record(rt: HostRuntime) -> Result<(), Fail> {
    let alloc = rt.alloc();
    let mut dice = Dice::new(1);
    // The last segment stays before a torn tail.
    for (count, number, first) in [(1, 1, 1), (36, 9, 2), (38, 9, 2), (57, 1, 1)] {
        let log = dropped(alloc, count, number)?;
        assert!(rt; log.first == first, "{} {count} {number}", log.first);
        assert!(rt; log.survives(alloc, &mut dice)?, "{count} {number}");
    }
    Ok(())
}
