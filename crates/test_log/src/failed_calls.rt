//! Logs of which a call of the folder failed, or whose process was killed at it. The same folder is opened again and
//! appended to, and at each call of that the power may be cut.

use crate::dice::Dice;
use crate::torn_logs::{Log, appended, crashed, first_of, has_from, opened};
use segmented_log::{Call, Commit, SegmentedLog, call_all};
use std::alloc::{AllocError, Global};
use std::ops::Range;
use std::test::Fail;
use torn_folder::TornFolder;

// From how many bytes on a sync seals the tail.
const SEAL_SIZE: usize = 150;

// Appends two records and syncs them, one by one or together.
fn append_two(
    alloc: Global,
    calls: &mut Vec<Call>,
    record: &[u8],
    together: bool,
) -> Result<(), AllocError> {
    calls.push(Call::Append(record.to_vec(alloc)?))?;
    if !together {
        calls.push(Call::Sync)?;
    }
    calls.push(Call::Append(record.to_vec(alloc)?))?;
    calls.push(Call::Sync)?;
    Ok(())
}

/// What a process calls. The first two segments are joined, and then dropped.
pub fn script(alloc: Global) -> Result<Vec<Call>, AllocError> {
    let mut calls = Vec::new(alloc);
    append_two(alloc, &mut calls, b"one", false)?;
    calls.push(Call::Seal)?;
    append_two(
        alloc,
        &mut calls,
        b"a record that is longer than the others",
        true,
    )?;
    calls.push(Call::Compact(1000))?;
    append_two(alloc, &mut calls, b"", true)?;
    calls.push(Call::Seal)?;
    calls.push(Call::DropBefore(4))?;
    append_two(alloc, &mut calls, b"four", true)?;
    Ok(calls)
}

// A log that a process wrote: its records, how many of them it acknowledged, before which number it dropped them, and
// whether a call of it failed.
#[derive(Drop)]
struct Written {
    alloc: Global,
    records: Vec<Vec<u8>>,
    acknowledged: usize,
    limit: u64,
    has_failed: bool,
}

impl Written {
    // Makes a call, and notes what it acknowledges.
    fn make(&mut self, log: &mut Log, call: &[Call]) -> Result<(), Fail> {
        let is_made = call_all(log, call).is_ok();
        self.has_failed = self.has_failed || !is_made;
        match call.first() {
            Some(Call::Append(record)) if is_made => {
                self.records.push(record.to_vec(self.alloc)?)?;
            }
            Some(Call::Sync) if is_made => self.acknowledged = self.records.len(),
            Some(Call::DropBefore(number)) => self.limit = self.limit.max(*number),
            _ => {}
        }
        Ok(())
    }

    // Makes each of these calls, also after one that failed. The folder that the process leaves.
    fn make_all(
        &mut self,
        folder: TornFolder,
        commit: Commit,
        calls: &[Call],
    ) -> Result<TornFolder, Fail> {
        let mut log = match SegmentedLog::open(self.alloc, folder, SEAL_SIZE, commit) {
            Ok(log) => log,
            Err((_, folder)) => {
                self.has_failed = true;
                return Ok(folder);
            }
        };
        for place in 0..calls.len() {
            self.make(
                &mut log,
                calls.get(place..place.saturating_add(1)).unwrap_or(&[]),
            )?;
        }
        Ok(log.into_folder())
    }

    // Whether the folder that is left has each acknowledged record, but for those that may be dropped.
    fn is_kept(&self, left: TornFolder, acknowledged: usize) -> Result<bool, Fail> {
        let first = first_of(self.alloc, left, &self.records, acknowledged)?;
        Ok(first.is_some_and(|first| first <= self.limit))
    }

    // Whether it is so where the power is cut after these calls of the folder.
    fn survives(
        &self,
        folder: &TornFolder,
        calls: Range<usize>,
        acknowledged: usize,
        dice: &mut Dice,
    ) -> Result<bool, Fail> {
        for count in calls {
            let left = crashed(self.alloc, folder.events(), count, dice)?;
            if !self.is_kept(left, acknowledged)? {
                return Ok(false);
            }
        }
        Ok(true)
    }

    // Whether the folder that the process left can be opened and appended to, and nothing acknowledged is lost by that.
    fn goes_on(&mut self, folder: TornFolder, dice: &mut Dice) -> Result<bool, Fail> {
        let start = folder.events().len();
        let mut log = opened(self.alloc, folder)?;
        let (first, found) = (log.first(), log.end() as usize);
        self.records.truncate(found);
        if found < self.acknowledged
            || first > self.limit
            || !has_from(&mut log, &self.records, first)
        {
            return Ok(false);
        }
        let folder = log.into_folder();
        let there = folder.events().len();
        let folder = appended(self.alloc, folder, b"after")?;
        self.records.push(b"after".to_vec(self.alloc)?)?;
        let end = folder.events().len();
        let all = self.records.len();
        Ok(
            self.survives(&folder, start..there, self.acknowledged, dice)?
                && self.survives(&folder, there..end, found, dice)?
                && self.survives(&folder, end..end.saturating_add(1), all, dice)?,
        )
    }
}

// How a process ends.
#[derive(Clone, Copy, Debug)]
enum End {
    // By a kill.
    Killed,
    // After a call that failed and changed nothing.
    Failed,
    // After a call that was made, and failed.
    FailedMade,
}

// The folder of a process that ends so after this many calls of the folder.
fn folder_of(alloc: Global, end: End, count: usize) -> TornFolder {
    let mut folder = TornFolder::new(alloc);
    match end {
        End::Killed => folder.fail_from(count),
        End::Failed => folder.fail_at(count, false),
        End::FailedMade => folder.fail_at(count, true),
    }
    folder
}

// Whether a log survives that a process ends so after this many calls of the folder: none where no call failed.
fn survives(
    alloc: Global,
    commit: Commit,
    end: End,
    count: usize,
    dice: &mut Dice,
) -> Result<Option<bool>, Fail> {
    let mut written = Written {
        alloc,
        records: Vec::new(alloc),
        acknowledged: 0,
        limit: 0,
        has_failed: false,
    };
    let folder = written.make_all(folder_of(alloc, end, count), commit, &script(alloc)?)?;
    if !written.has_failed {
        return Ok(None);
    }
    let left = TornFolder::of_events(alloc, folder.events())?;
    Ok(Some(written.goes_on(left, dice)?))
}

// After how many calls of the folder a process may end so, if nothing acknowledged is lost by any.
fn survived(alloc: Global, commit: Commit, end: End) -> Result<Option<usize>, Fail> {
    let mut dice = Dice::new(3);
    for count in 0..1000 {
        match survives(alloc, commit, end, count, &mut dice)? {
            Some(true) => (),
            Some(false) => return Ok(None),
            None => return Ok(Some(count)),
        }
    }
    Ok(None)
}

#[test]
fn no_failed_call_and_no_kill_loses_what_one_sync_keeps(rt: HostRuntime) -> Result<(), Fail> {
    for end in [End::Killed, End::Failed, End::FailedMade] {
        let count = survived(rt.alloc(), Commit::OneSync, end)?;
        assert!(rt; count.is_some_and(|count| count > 40), "{count:?} {end:?}");
    }
    Ok(())
}

#[test]
fn no_failed_call_and_no_kill_loses_what_two_syncs_keep(rt: HostRuntime) -> Result<(), Fail> {
    for end in [End::Killed, End::Failed, End::FailedMade] {
        let count = survived(rt.alloc(), Commit::TwoSyncs, end)?;
        assert!(rt; count.is_some_and(|count| count > 40), "{count:?} {end:?}");
    }
    Ok(())
}
