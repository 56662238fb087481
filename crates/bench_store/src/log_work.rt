//! Workloads over a log in a folder of the current one.
use crate::checks::Slots;
use crate::documents::Documents;
use crate::measure::{Run, Workload};
use anyhow::{Result, bail};
use docstore::DocId;
use segmented_log::{Commit, SegmentedLog};
use std::alloc::Global;
use std::fs;
use std::rt::Clock;
use std::time::Instant;
use store_files::{DiskFolder, HostFiles};
use store_folder::ReadableFolder;

// The log's folder.
const PATH: &str = "bench.log";

// The length past which a tail is sealed, as the program has it.
const SEAL_SIZE: usize = 8 << 20;

// How many records of a log that is only read were on the disk at once.
const MADE_BATCH: u64 = 10_000;

// A log in a box: what owns it is proved in less time, and so is what works on the log of any folder.
type Log = Box<SegmentedLog<DiskFolder<HostFiles>>>;

// Opens the log of a folder, or begins one.
fn open_in<F: ReadableFolder>(alloc: Global, folder: F) -> Result<Box<SegmentedLog<F>>> {
    match SegmentedLog::open(alloc, folder, SEAL_SIZE, Commit::OneSync) {
        Ok(log) => Ok(Box::new(alloc, log)?),
        Err((error, _)) => Err(error.into()),
    }
}

// Opens the log of the folder on disk.
fn open(rt: &HostRuntime) -> Result<Log> {
    let folder = DiskFolder::create(rt.alloc(), HostFiles::new(rt)?, PATH)?;
    open_in(rt.alloc(), folder)
}

// Appends a document, and puts it on the disk with those before it once they are a batch.
fn append<F: ReadableFolder>(log: &mut SegmentedLog<F>, document: &[u8], batch: u64) -> Result<()> {
    log.append(document)?;
    if log.pending() >= batch {
        log.sync()?;
    }
    Ok(())
}

// Appends documents, each batch synced before the next.
fn append_all<F: ReadableFolder>(
    log: &mut SegmentedLog<F>,
    documents: &Documents,
    count: usize,
    batch: u64,
) -> Result<()> {
    for i in 0..count {
        append(log, documents.get(i), batch)?;
    }
    Ok(log.sync()?)
}

// Adds the record of this number.
fn add_record<F: ReadableFolder>(
    log: &mut SegmentedLog<F>,
    number: u64,
    slots: &mut Slots,
) -> Result<()> {
    match log.get(number)? {
        Some(record) => slots.add(&record),
        None => bail!("there is no record {number}"),
    }
    Ok(())
}

// Gets all records of a log, one after the other.
fn list<F: ReadableFolder>(log: &mut SegmentedLog<F>) -> Result<Slots> {
    let mut slots = Slots::new();
    for number in log.first()..log.end() {
        add_record(log, number, &mut slots)?;
    }
    Ok(slots)
}

// Reads all records by another opening of the log.
fn read_all(rt: &HostRuntime) -> Result<Slots> {
    list(&mut *open(rt)?)
}

/// Makes the log that is read.
pub fn make_log(rt: &HostRuntime, documents: &Documents, count: usize) -> Result<()> {
    let mut log = open(rt)?;
    append_all(&mut *log, documents, count, MADE_BATCH)
}

/// Removes the log.
pub fn remove_log(rt: &HostRuntime) -> Result<()> {
    fs::remove_dir_all(rt, PATH)?;
    Ok(())
}

/// Appends records to a new log. A batch of them is on the disk before the next one begins.
#[derive(Drop)]
pub struct AppendLog<'a> {
    pub rt: &'a HostRuntime,
    pub documents: Documents,
    pub count: usize,
    pub batch: u64,
}

impl<'a> Workload for AppendLog<'a> {
    fn run<C: Clock>(&mut self, clock: &C) -> Result<Run> {
        let mut log = open(self.rt)?;
        let start = Instant::now(clock)?;
        append_all(&mut *log, &self.documents, self.count, self.batch)?;
        let time = start.elapsed(clock)?;
        drop(log);
        let slots = read_all(self.rt)?;
        remove_log(self.rt)?;
        Ok(slots.run(time))
    }
}

/// Opens the log and gets its first record, this many times.
#[derive(Drop)]
pub struct OpenLog<'a> {
    pub rt: &'a HostRuntime,
    pub times: u64,
}

fn open_again(rt: &HostRuntime, times: u64) -> Result<Slots> {
    let mut slots = Slots::new();
    for _ in 0..times {
        let mut log = open(rt)?;
        add_record(&mut *log, 0, &mut slots)?;
    }
    Ok(slots)
}

impl<'a> Workload for OpenLog<'a> {
    fn run<C: Clock>(&mut self, clock: &C) -> Result<Run> {
        // The first one brings the files into memory, and is not counted.
        open_again(self.rt, 1)?;
        let start = Instant::now(clock)?;
        let slots = open_again(self.rt, self.times)?;
        let time = start.elapsed(clock)?;
        Ok(slots.run(time))
    }
}

/// Gets records of the log by their numbers.
#[derive(Drop)]
pub struct GetLog<'a> {
    pub rt: &'a HostRuntime,
    pub numbers: Vec<DocId>,
}

fn get_all<F: ReadableFolder>(log: &mut SegmentedLog<F>, numbers: &[DocId]) -> Result<Slots> {
    let mut slots = Slots::new();
    for number in numbers {
        add_record(log, u64::from(*number), &mut slots)?;
    }
    Ok(slots)
}

impl<'a> Workload for GetLog<'a> {
    fn run<C: Clock>(&mut self, clock: &C) -> Result<Run> {
        let mut log = open(self.rt)?;
        let start = Instant::now(clock)?;
        let slots = get_all(&mut *log, &self.numbers)?;
        let time = start.elapsed(clock)?;
        Ok(slots.run(time))
    }
}
