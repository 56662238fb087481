//! Workloads over whole stores.
use crate::checks::{Slots, hash_as_version_2};
use crate::measure::{Run, Workload};
use crate::stores::{StorePlan, open_store};
use anyhow::Result;
use docstore::{
    Compressor, DocId, FileHandle, MemFile, MemSink, OwnedBytes, StoreError, StoreReader,
    StoreWriter,
};
use std::alloc::Global;
use std::rt::Clock;
use std::time::Instant;

/// Writes a store: a new output and writer, each document, and the end.
#[derive(Drop)]
pub struct Write {
    pub alloc: Global,
    pub plan: StorePlan,
}

impl Workload for Write {
    fn run<C: Clock>(&mut self, clock: &C) -> Result<Run> {
        let start = Instant::now(clock)?;
        let output = self.plan.write(self.alloc, MemSink::new(self.alloc))?;
        let time = start.elapsed(clock)?;
        Ok(self.plan.run(time, hash_as_version_2(output.as_slice())))
    }
}

/// A store that is opened again and again: its file, and the cache's capacity.
#[derive(Drop)]
pub struct Source {
    pub alloc: Global,
    pub file: OwnedBytes,
    pub capacity: usize,
}

impl Source {
    /// A fresh reader. It shares the file's bytes.
    pub fn open(&self) -> Result<StoreReader<MemFile>, StoreError> {
        let file = MemFile::of_shared(self.file.clone()?);
        open_store(self.alloc, file, self.capacity)
    }

    /// The same in a box, for what is not timed: what owns it is proved in less time.
    pub fn boxed(&self) -> Result<Box<StoreReader<MemFile>>, StoreError> {
        Ok(Box::new(self.alloc, self.open()?)?)
    }
}

/// Opens the store this many times, and drops the reader.
#[derive(Drop)]
pub struct Open {
    pub source: Source,
    pub times: u64,
}

// The sum of the index's lengths, as the readers return them.
fn open_again(source: &Source, times: u64) -> Result<u64, StoreError> {
    let mut sum: u64 = 0;
    for _ in 0..times {
        let reader = source.open()?;
        sum = sum.wrapping_add(reader.space_usage().offsets_usage());
    }
    Ok(sum)
}

impl Workload for Open {
    fn run<C: Clock>(&mut self, clock: &C) -> Result<Run> {
        let start = Instant::now(clock)?;
        let check = open_again(&self.source, self.times)?;
        let time = start.elapsed(clock)?;
        Ok(Run::of_times(time, self.times, check))
    }
}

// Gets the documents of these ids.
fn get_all<H: FileHandle>(
    alloc: Global,
    reader: &mut StoreReader<H>,
    ids: &[DocId],
) -> Result<Slots, StoreError> {
    let mut slots = Slots::new();
    for id in ids {
        slots.add(reader.get_document_bytes(alloc, *id)?.as_slice());
    }
    Ok(slots)
}

// Goes over all documents.
fn iterate_all<H: FileHandle>(
    alloc: Global,
    reader: &mut StoreReader<H>,
) -> Result<Slots, StoreError> {
    let mut slots = Slots::new();
    for document in reader.iter_raw(alloc, None) {
        slots.add(document?.as_slice());
    }
    Ok(slots)
}

/// Gets the documents of these ids, or goes over all where there are none, and times it.
pub fn read_all<H: FileHandle, C: Clock>(
    clock: &C,
    alloc: Global,
    reader: &mut StoreReader<H>,
    ids: Option<&[DocId]>,
) -> Result<Run> {
    let start = Instant::now(clock)?;
    let slots = match ids {
        Some(ids) => get_all(alloc, reader, ids)?,
        None => iterate_all(alloc, reader)?,
    };
    Ok(slots.run(start.elapsed(clock)?))
}

/// Gets documents by their ids, or goes over all where there are none.
#[derive(Drop)]
pub struct ReadStore {
    pub source: Source,
    pub ids: Option<Vec<DocId>>,
}

impl Workload for ReadStore {
    fn run<C: Clock>(&mut self, clock: &C) -> Result<Run> {
        let mut reader = self.source.boxed()?;
        read_all(clock, self.source.alloc, &mut reader, self.ids.as_deref())
    }
}

/// Stacks a store this many times on an empty one.
#[derive(Drop)]
pub struct Stack {
    pub source: Source,
    pub times: u64,
    pub block_size: usize,
}

fn open_many(source: &Source, times: u64) -> Result<Vec<StoreReader<MemFile>>, StoreError> {
    let mut readers = Vec::new(source.alloc);
    for _ in 0..times {
        readers.push(source.open()?)?;
    }
    Ok(readers)
}

fn stack_all(
    alloc: Global,
    readers: &mut [StoreReader<MemFile>],
    block_size: usize,
) -> Result<MemSink, StoreError> {
    let mut writer = StoreWriter::new(alloc, MemSink::new(alloc), Compressor::None, block_size);
    for reader in readers {
        writer.stack(reader)?;
    }
    Ok(writer.close()?)
}

impl Workload for Stack {
    fn run<C: Clock>(&mut self, clock: &C) -> Result<Run> {
        let alloc = self.source.alloc;
        let data = self.source.boxed()?.space_usage().data_usage();
        let mut readers = open_many(&self.source, self.times)?;
        let start = Instant::now(clock)?;
        let output = stack_all(alloc, &mut readers, self.block_size)?;
        let time = start.elapsed(clock)?;
        Ok(Run {
            time,
            count: self.times,
            bytes: data.wrapping_mul(self.times),
            check: hash_as_version_2(output.as_slice()),
        })
    }
}
