//! The words of a command line: a workload, and numbers by their keys.
use anyhow::{Result, bail};

/// The numbers of a workload: those that were given, and else the usual ones.
#[derive(Clone, Copy)]
pub struct Numbers {
    /// How many documents, where that was given.
    pub documents: Option<u64>,
    /// The length of each document.
    pub length: u64,
    /// The size of a block.
    pub block_size: u64,
    /// How many blocks a cache keeps.
    pub capacity: u64,
    /// How often something is asked for, where that was given.
    pub questions: Option<u64>,
    /// How many documents are asked for most.
    pub hot: u64,
    /// How many stores are stacked.
    pub stores: u64,
    /// How often a workload is done.
    pub repetitions: u64,
}

impl Numbers {
    /// None given.
    pub fn new() -> Numbers {
        Numbers {
            documents: None,
            length: 100,
            block_size: 16384,
            capacity: 100,
            questions: None,
            hot: 5000,
            stores: 100,
            repetitions: 5,
        }
    }

    /// Takes a word like `n=1000`.
    pub fn take(&mut self, word: &str) -> Result<()> {
        let Some((key, number)) = word.split_once('=') else {
            bail!("not key=number: {word}");
        };
        let Ok(number) = number.parse::<u64>() else {
            bail!("not a number: {word}");
        };
        match key {
            "n" => self.documents = Some(number),
            "l" => self.length = number,
            "bs" => self.block_size = number,
            "cap" => self.capacity = number,
            "q" => self.questions = Some(number),
            "hot" => self.hot = number,
            "k" => self.stores = number,
            "reps" => self.repetitions = number,
            _ => bail!("no such key: {word}"),
        }
        Ok(())
    }
}
