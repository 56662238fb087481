//! Workloads by their names: each is made, done and printed.
ghost use Rattle.std.specs.Prelude.{◌<◌, IfSome};

use crate::arguments::Numbers;
use crate::disk_work::{PATH, ReadDisk, WriteDisk, write_disk};
use crate::documents::Documents;
use crate::ids::{Order, ids};
use crate::log_work::{AppendLog, GetLog, OpenLog, make_log, remove_log};
use crate::measure::{Measure, Report, Workload, perform};
use crate::shapes::StoreShape;
use crate::store_work::{Open, ReadStore, Source, Stack, Write};
use crate::stores::StorePlan;
use anyhow::{Result, bail};
use docstore::{DocId, MemSink, OwnedBytes};
use std::alloc::Global;
use std::fs;

/// Where workloads are printed, and in which form.
#[derive(Drop)]
pub struct Bench<'a> {
    pub rt: &'a HostRuntime,
    pub alloc: Global,
    pub report: Report,
}

/// By what a store is read.
#[derive(Clone, Copy, PartialEq, Eq)]
pub enum Means {
    /// A reader of bytes in memory.
    Reader,
    /// A reader of a file.
    Disk,
}

// Documents of this length.
fn documents_of(alloc: Global, length: u64) -> Result<Documents> {
    match Documents::of_length(alloc, length as usize)? {
        Some(documents) => Ok(documents),
        None => bail!("l is not below the pool's length: {length}"),
    }
}

// The shape of a store that has this many documents where no number is given.
fn store_shape(numbers: &Numbers, documents: u64) -> StoreShape {
    StoreShape {
        documents: numbers.documents.unwrap_or(documents),
        length: numbers.length,
        block_size: numbers.block_size,
        capacity: None,
    }
}

// The shape of a store that is read.
fn read_shape(numbers: &Numbers) -> StoreShape {
    let mut shape = store_shape(numbers, 1_000_000);
    shape.capacity = Some(numbers.capacity);
    shape
}

// A number of documents that has ids: at least one, and a u32.
fn some_documents(count: u64) -> Option<u32>
    ensures { IfSome result (λ n. 0 < n) }
{
    match u32::try_from(count) {
        Ok(count) if count > 0 => Some(count),
        _ => None,
    }
}

impl<'a> Bench<'a> {
    /// Makes the workload of this name, does it and prints its figures.
    pub fn run(&self, name: &str, numbers: &Numbers) -> Result<()> {
        let hot = Order::Hot(numbers.hot);
        match name {
            "write" => self.write(numbers),
            "open" => self.open(numbers),
            "get_uniform" => self.read(name, Means::Reader, Some(Order::Uniform), numbers),
            "get_hot" => self.read(name, Means::Reader, Some(hot), numbers),
            "get_zipf" => self.read(name, Means::Reader, Some(Order::Zipf), numbers),
            "get_seq" => self.read(name, Means::Reader, Some(Order::Sequential), numbers),
            "iter_raw" => self.read(name, Means::Reader, None, numbers),
            "disk_write" => self.write_disk(numbers),
            "disk_uniform" => self.read(name, Means::Disk, Some(Order::Uniform), numbers),
            "disk_hot" => self.read(name, Means::Disk, Some(hot), numbers),
            "disk_zipf" => self.read(name, Means::Disk, Some(Order::Zipf), numbers),
            "disk_seq" => self.read(name, Means::Disk, Some(Order::Sequential), numbers),
            "disk_iter" => self.read(name, Means::Disk, None, numbers),
            "log_append" => self.append_log(numbers),
            "log_open" => self.open_log(numbers),
            "log_uniform" => self.get_log(numbers),
            "stack" => self.stack(numbers),
            _ => bail!("no such workload: {name}"),
        }
    }

    fn measure<W: Workload>(&self, name: &str, numbers: &Numbers, workload: &mut W) -> Result<()> {
        let how = Measure {
            repetitions: numbers.repetitions,
            report: self.report,
        };
        perform(self.rt, name, workload, how)
    }

    // The store of a shape.
    fn plan(&self, shape: StoreShape) -> Result<StorePlan> {
        Ok(StorePlan {
            documents: documents_of(self.alloc, shape.length)?,
            count: shape.documents as usize,
            block_size: shape.block_size as usize,
        })
    }

    // A store of this shape, and how it is opened.
    fn source(&self, shape: StoreShape) -> Result<Source> {
        let output = self
            .plan(shape)?
            .write(self.alloc, MemSink::new(self.alloc))?;
        Ok(Source {
            alloc: self.alloc,
            file: OwnedBytes::new(self.alloc, output.into_bytes())?,
            capacity: shape.capacity.unwrap_or(0) as usize,
        })
    }

    fn write(&self, numbers: &Numbers) -> Result<()> {
        let shape = store_shape(numbers, 200_000);
        let name = format!(in self.alloc; "write/{shape}")?;
        let mut work = Write {
            alloc: self.alloc,
            plan: self.plan(shape)?,
        };
        self.measure(name.as_str(), numbers, &mut work)
    }

    fn open(&self, numbers: &Numbers) -> Result<()> {
        let shape = read_shape(numbers);
        let times = numbers.questions.unwrap_or(2000);
        let name = format!(in self.alloc; "open/{shape}/q={times}")?;
        let source = self.source(shape)?;
        self.measure(name.as_str(), numbers, &mut Open { source, times })
    }

    // The ids of documents that are asked for, of this many.
    fn ids(&self, order: Order, questions: u64, documents: u64) -> Result<Vec<DocId>> {
        let Some(documents) = some_documents(documents) else {
            bail!("n is not from 1 to 4294967295: {documents}");
        };
        Ok(ids(self.alloc, order, questions, documents)?)
    }

    // Reads a store of a shape by these means: the documents of these ids, or all where there are none.
    fn read_by(
        &self,
        name: &str,
        means: Means,
        shape: StoreShape,
        ids: Option<Vec<DocId>>,
        numbers: &Numbers,
    ) -> Result<()> {
        let rt = self.rt;
        if means == Means::Disk {
            write_disk(rt, &self.plan(shape)?)?;
            let capacity = shape.capacity.unwrap_or(0) as usize;
            return self.measure_disk(name, numbers, &mut ReadDisk { rt, capacity, ids });
        }
        let source = self.source(shape)?;
        self.measure(name, numbers, &mut ReadStore { source, ids })
    }

    // Gets documents in this order, or goes over all where there is none.
    fn read(
        &self,
        kind: &str,
        means: Means,
        order: Option<Order>,
        numbers: &Numbers,
    ) -> Result<()> {
        let shape = read_shape(numbers);
        let Some(order) = order else {
            let name = format!(in self.alloc; "{kind}/{shape}")?;
            return self.read_by(name.as_str(), means, shape, None, numbers);
        };
        let usual = match order {
            Order::Sequential => shape.documents,
            _ => 200_000,
        };
        let questions = numbers.questions.unwrap_or(usual);
        let name = format!(in self.alloc; "{kind}/{shape}/q={questions}")?;
        let ids = self.ids(order, questions, shape.documents)?;
        self.read_by(name.as_str(), means, shape, Some(ids), numbers)
    }

    // The same for one that works on the file, which is removed after it.
    fn measure_disk<W: Workload>(&self, name: &str, numbers: &Numbers, work: &mut W) -> Result<()> {
        self.measure(name, numbers, work)?;
        fs::remove_file(self.rt, PATH)?;
        Ok(())
    }

    fn write_disk(&self, numbers: &Numbers) -> Result<()> {
        let shape = store_shape(numbers, 200_000);
        let name = format!(in self.alloc; "disk_write/{shape}")?;
        let mut work = WriteDisk {
            rt: self.rt,
            plan: self.plan(shape)?,
        };
        self.measure_disk(name.as_str(), numbers, &mut work)
    }

    // The questions are how many records are on the disk at once.
    fn append_log(&self, numbers: &Numbers) -> Result<()> {
        let (count, length) = (numbers.documents.unwrap_or(20_000), numbers.length);
        let batch = numbers.questions.unwrap_or(100);
        let name = format!(in self.alloc; "log_append/n={count}/l={length}/q={batch}")?;
        let mut work = AppendLog {
            rt: self.rt,
            documents: documents_of(self.alloc, length)?,
            count: count as usize,
            batch,
        };
        self.measure(name.as_str(), numbers, &mut work)
    }

    // Does a workload over a log, which is made before and removed after it. It has this many records.
    fn measure_log<W: Workload>(
        &self,
        kind: &str,
        count: u64,
        questions: u64,
        numbers: &Numbers,
        work: &mut W,
    ) -> Result<()> {
        let (rt, length) = (self.rt, numbers.length);
        let name = format!(in self.alloc; "{kind}/n={count}/l={length}/q={questions}")?;
        make_log(rt, &documents_of(self.alloc, length)?, count as usize)?;
        self.measure(name.as_str(), numbers, work)?;
        remove_log(rt)
    }

    fn open_log(&self, numbers: &Numbers) -> Result<()> {
        let (rt, times) = (self.rt, numbers.questions.unwrap_or(3));
        let count = numbers.documents.unwrap_or(20_000);
        self.measure_log(
            "log_open",
            count,
            times,
            numbers,
            &mut OpenLog { rt, times },
        )
    }

    fn get_log(&self, numbers: &Numbers) -> Result<()> {
        let (rt, count) = (self.rt, numbers.documents.unwrap_or(20_000));
        let questions = numbers.questions.unwrap_or(200_000);
        let numbers_asked = self.ids(Order::Uniform, questions, count)?;
        let mut work = GetLog {
            rt,
            numbers: numbers_asked,
        };
        self.measure_log("log_uniform", count, questions, numbers, &mut work)
    }

    fn stack(&self, numbers: &Numbers) -> Result<()> {
        let (shape, times) = (store_shape(numbers, 1000), numbers.stores);
        let name = format!(in self.alloc; "stack/k={times}/{shape}")?;
        let mut work = Stack {
            source: self.source(shape)?,
            times,
            block_size: shape.block_size as usize,
        };
        self.measure(name.as_str(), numbers, &mut work)
    }
}
