//! Documents of fields.

use crate::in_memory::opened;
use docstore::{
    Compressor, Field, MemSink, NoMemory, RecordDocument, Schema, StoreError, StoreWriter,
};
use std::alloc::Global;

fn record(alloc: Global, field: u32, bytes: &[u8]) -> Result<RecordDocument, NoMemory> {
    let mut record = RecordDocument::new(alloc);
    record.add(Field::from_field_id(field), bytes)?;
    Ok(record)
}

// Stores a record. Another, whose field is not in the schema, is refused and leaves the writer as it was.
fn store(alloc: Global, writer: &mut StoreWriter<MemSink>) -> Result<(), StoreError> {
    let schema = Schema::with_fields(1);
    writer.store(&record(alloc, 0, b"plum")?, &schema)?;
    match writer.store(&record(alloc, 5, b"z")?, &schema) {
        Err(StoreError::Unserializable) => Ok(()),
        _ => Err(StoreError::BadDocument),
    }
}

// The file of that record.
fn records(alloc: Global) -> Result<Vec<u8>, StoreError> {
    let mut writer = StoreWriter::new(alloc, MemSink::new(alloc), Compressor::None, 16384);
    store(alloc, &mut writer)?;
    Ok(writer.close()?.into_bytes())
}

// The first record of a file.
fn first_record(alloc: Global, file: Vec<u8>) -> Result<RecordDocument, StoreError> {
    opened(alloc, file)?.get::<RecordDocument>(alloc, 0)
}

fn print_fields<R: Print>(rt: &R, record: &RecordDocument) -> anyhow::Result<()> {
    for (field, bytes) in record.fields() {
        println!(rt;
            "field {}: {}",
            field.field_id(),
            str::from_utf8(bytes.as_slice())?
        )?;
    }
    Ok(())
}

/// Prints the fields of a record.
pub fn write_and_read(rt: &HostRuntime) -> anyhow::Result<()> {
    let plum = first_record(rt.alloc(), records(rt.alloc())?)?;
    print_fields(rt, &plum)
}
