//! Whole lists of calls.

use crate::in_memory::{Reader, opened};
use docstore::{
    MemFile, MemSink, ReadCall, RecordDocument, Schema, StoreCommand, StoreError, answer_all,
    any_lacks_memory, write_store,
};
use std::alloc::Global;

type Commands = Vec<StoreCommand<RecordDocument, MemFile>>;

// A list of two documents.
fn commands(alloc: Global) -> Result<Commands, StoreError> {
    let mut commands = Vec::new(alloc);
    commands.push(StoreCommand::Bytes(Vec::from_slice(alloc, b"fig")?))?;
    commands.push(StoreCommand::Bytes(Vec::new(alloc)))?;
    Ok(commands)
}

// The file of a list, whose calls are made in order; a refused call is noted, and the next one made.
fn listed(alloc: Global, mut commands: Commands) -> Result<Vec<u8>, StoreError> {
    let schema = Schema::with_fields(1);
    match write_store(alloc, MemSink::new(alloc), 16384, &schema, &mut commands) {
        Ok(report) => Ok(report.output.into_bytes()),
        Err(refusal) => Err(refusal.error),
    }
}

// How many calls of a list were answered, and whether one ran out of memory.
fn answered(alloc: Global, reader: &mut Reader) -> Result<(usize, bool), StoreError> {
    let calls = [
        ReadCall::Bytes(0),
        ReadCall::Bytes(5),
        ReadCall::Iter {
            alive: None,
            take: 1,
        },
    ];
    let answers = answer_all(alloc, reader, calls.as_slice())?;
    Ok((answers.len(), any_lacks_memory(&answers)))
}

// The same of the file of the two documents.
fn answered_of_two(alloc: Global) -> Result<(usize, bool), StoreError> {
    let file = listed(alloc, commands(alloc)?)?;
    let mut reader = opened(alloc, file)?;
    answered(alloc, &mut reader)
}

/// Prints how many calls of a list were answered.
pub fn print_answers(rt: &HostRuntime) -> anyhow::Result<()> {
    let (count, is_short) = answered_of_two(rt.alloc())?;
    println!(rt; "{count} answers, memory was short: {is_short}")?;
    Ok(())
}
