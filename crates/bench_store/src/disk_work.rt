//! Workloads over a store in a file of the current folder.
use crate::checks::hash_as_version_2;
use crate::measure::{Run, Workload};
use crate::store_work::read_all;
use crate::stores::{StorePlan, open_store};
use anyhow::Result;
use docstore::{DocId, StoreReader};
use std::rt::Clock;
use std::time::Instant;
use store_files::{DiskFile, DiskSink, HostFiles, OsFile, load};

/// The file that is written and read.
pub const PATH: &str = "bench.store";

// Opens the file, with a cache of this many blocks.
fn open(rt: &HostRuntime, capacity: usize) -> Result<Box<StoreReader<DiskFile<OsFile>>>> {
    let file = DiskFile::new(OsFile::open(rt, PATH)?)?;
    Ok(Box::new(rt.alloc(), open_store(rt.alloc(), file, capacity)?)?)
}

/// Gets documents of the file by their ids, or goes over all where there are none.
#[derive(Drop)]
pub struct ReadDisk<'a> {
    pub rt: &'a HostRuntime,
    pub capacity: usize,
    pub ids: Option<Vec<DocId>>,
}

impl<'a> Workload for ReadDisk<'a> {
    fn run<C: Clock>(&mut self, clock: &C) -> Result<Run> {
        let mut reader = open(self.rt, self.capacity)?;
        read_all(clock, self.rt.alloc(), &mut reader, self.ids.as_deref())
    }
}

/// Writes a store to the file: a new output and writer, each document, the end, and the syncs.
#[derive(Drop)]
pub struct WriteDisk<'a> {
    pub rt: &'a HostRuntime,
    pub plan: StorePlan,
}

/// Writes the file.
pub fn write_disk(rt: &HostRuntime, plan: &StorePlan) -> Result<()> {
    let output = DiskSink::create(rt.alloc(), HostFiles::new(rt)?, PATH)?;
    plan.write(rt.alloc(), output)?;
    Ok(())
}

impl<'a> Workload for WriteDisk<'a> {
    fn run<C: Clock>(&mut self, clock: &C) -> Result<Run> {
        let start = Instant::now(clock)?;
        write_disk(self.rt, &self.plan)?;
        let time = start.elapsed(clock)?;
        let check = hash_as_version_2(&load(self.rt, PATH)?);
        Ok(self.plan.run(time, check))
    }
}
