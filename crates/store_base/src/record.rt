//! A plain document: a list of fields with their bytes.
//!
//! Its bytes are the number of fields, and for each its number, the length of its bytes, and these. Version 2 spells
//! the three kinds of number as [`VInt`]s, version 1 in four bytes each.

ghost use Rattle.std.specs.Prelude.{◌≡◌, ◌≤◌, ◌++◌, ◌∷◌, [], true, None, OnOk, OnErr, IfSome, IsErrOf, vec_capacity};
ghost use Rattle.std.specs.Int.{w32};
ghost use Rattle.std.specs.Option.{option_map};
ghost use Rattle.store_base.specs.Documents.{Appends, BeginsWith, Gives};
ghost use Rattle.store_base.specs.Record.{fields_seen, field_bytes, has_spelling, spelling_of, field_at, fields_at};
ghost use Rattle.store_base.specs.Record.{record_at, doc_bytes, reading};
ghost use Rattle.store_base.specs.Serialize.{fixed_at};

use crate::document::{Document, DocumentDeserialize, StoredDocument};
use crate::fault::{DocFault, NoMemory};
use crate::schema::{Field, Schema};
use crate::vint::{VInt, first_number};
use std::alloc::Global;
use std::marker::Model;

/// The version of the bytes whose numbers have four bytes each.
const OLD_VERSION: u32 = 1;

/// The version of the bytes that are written.
const VERSION: u32 = 2;

/// A list of fields with their bytes, in the order in which they were added. A field may come twice.
#[derive(Drop)]
pub struct RecordDocument {
    alloc: Global,
    fields: Vec<(Field, Vec<u8>)>,
}

/// Clauses see the fields, each as its number and its bytes.
impl Model for RecordDocument {
    ghost use Rattle.std.specs.Prelude.{ℕ, List};
    ghost use Rattle.store_base.specs.Record.{fields_seen};

    ghost Value = { List (ℕ × List ℕ) };

    ghost view = { λ d. fields_seen d.fields.items };
}

impl RecordDocument {
    /// A record with no fields. It takes no memory.
    pub fn new(alloc: Global) -> RecordDocument
        ensures { result ≡ [] }
    {
        RecordDocument {
            alloc,
            fields: Vec::new(alloc),
        }
    }

    /// Adds a field at the end. A refusal leaves the record as it was.
    pub fn add(&mut self, field: Field, bytes: &[u8]) -> Result<(), NoMemory>
        ensures ok { OnOk result (self.new ≡ self.old ++ (field, bytes.now) ∷ []) }
        ensures err { OnErr result (self.new ≡ self.old) }
    {
        let bytes = Vec::from_slice(self.alloc, bytes)?;
        self.fields.push((field, bytes))?;
        Ok(())
    }

    /// The fields, in the order in which they were added.
    pub fn fields(&self) -> &[(Field, Vec<u8>)]
        ensures { fields_seen result.now ≡ self.now }
    {
        &self.fields
    }
}

// ---- writing

fn push_field(field: Field, bytes: &[u8], out: &mut Vec<u8>) -> Result<(), NoMemory>
    ensures ok { OnOk result (out.new.items ≡ out.old.items ++ field_bytes (field, bytes.now)) }
    ensures fit { OnOk result (has_spelling (field, bytes.now) ≡ true) }
    ensures err { OnErr result (BeginsWith out.old.items out.new.items) }
    ensures capacity { vec_capacity out.old ≤ vec_capacity out.new }
{
    VInt(u64::from(field.field_id())).serialize_into_vec(out)?;
    VInt(bytes.len() as u64).serialize_into_vec(out)?;
    out.extend_from_slice(bytes)?;
    Ok(())
}

// Appends the record's bytes. A refusal may leave a part of them.
fn push_record(
    document: &RecordDocument,
    schema: &Schema,
    out: &mut Vec<u8>,
) -> Result<(), DocFault>
    ensures ok { OnOk result (Appends (doc_bytes document.now schema.now) out.old.items out.new.items) }
    ensures refused { IsErrOf result DocFault.Refused → doc_bytes document.now schema.now ≡ None }
    ensures kept { BeginsWith out.old.items out.new.items }
    ensures capacity { vec_capacity out.old ≤ vec_capacity out.new }
{
    let fields = document.fields();
    VInt(fields.len() as u64).serialize_into_vec(out)?;
    for (field, bytes) in fields {
        if !schema.has_field(*field) {
            return Err(DocFault::Refused);
        }
        push_field(*field, bytes, out)?;
    }
    Ok(())
}

impl Document for RecordDocument {
    ghost doc_bytes = { doc_bytes };

    /// Appends the record's bytes. Unlike what every document promises, a refusal leaves `out` as it was.
    fn serialize_doc(&self, schema: &Schema, out: &mut Vec<u8>) -> Result<(), DocFault>
        ensures ok { OnOk result (Appends (doc_bytes self.now schema.now) out.old.items out.new.items) }
        ensures refused { IsErrOf result DocFault.Refused → doc_bytes self.now schema.now ≡ None }
        ensures kept { BeginsWith out.old.items out.new.items }
        ensures capacity { vec_capacity out.old ≤ vec_capacity out.new }
        ensures err { OnErr result (out.new.items ≡ out.old.items) }
    {
        let start = out.len();
        let pushed = push_record(self, schema, out);
        if pushed.is_err() {
            out.truncate(start);
        }
        pushed
    }
}

// ---- reading

// The number of four bytes at the front, and what follows it.
fn split_u32(bytes: &[u8]) -> Option<(u32, &[u8])>
    ensures { option_map (λ x. (x.0, x.1.now)) result ≡ fixed_at w32 bytes.now }
{
    let (front, rest) = bytes.split_first_chunk::<4>()?;
    Some((u32::from_le_bytes(*front), rest))
}

// The number of a field at the front, and what follows it.
fn split_field_id(version: u32, bytes: &[u8]) -> Option<(u32, &[u8])>
    ensures { option_map (λ x. (x.0, x.1.now)) result ≡ (spelling_of version).field bytes.now }
{
    if version == OLD_VERSION {
        return split_u32(bytes);
    }
    let (field_id, rest) = first_number(bytes, u64::from(u32::MAX))?;
    Some((field_id as u32, rest))
}

// A count or a length at the front, and what follows it.
fn split_size(version: u32, bytes: &[u8]) -> Option<(u64, &[u8])>
    ensures { option_map (λ x. (x.0, x.1.now)) result ≡ (spelling_of version).size bytes.now }
{
    if version == OLD_VERSION {
        let (size, rest) = split_u32(bytes)?;
        return Some((u64::from(size), rest));
    }
    first_number(bytes, u64::MAX)
}

// A field at the front, and what follows it.
#[tactic(auto, unfolding(crate::specs::Record::field_at))]
fn read_field(
    alloc: Global,
    version: u32,
    bytes: &[u8],
) -> Result<((Field, Vec<u8>), &[u8]), DocFault>
    ensures { Gives (λ x. ((x.0.0, x.0.1.items), x.1.now)) result (field_at (spelling_of version) bytes.now) }
{
    let (field_id, rest) = split_field_id(version, bytes).ok_or(DocFault::Refused)?;
    let (len, rest) = split_size(version, rest).ok_or(DocFault::Refused)?;
    if (rest.len() as u64) < len {
        return Err(DocFault::Refused);
    }
    let (text, rest) = rest.split_at(len as usize);
    let field = Field::from_field_id(field_id);
    Ok(((field, Vec::from_slice(alloc, text)?), rest))
}

fn read_fields(
    alloc: Global,
    version: u32,
    count: u64,
    bytes: &[u8],
) -> Result<(Vec<(Field, Vec<u8>)>, &[u8]), DocFault>
    ensures { Gives (λ x. (fields_seen x.0.items, x.1.now)) result
        (fields_at (spelling_of version) count bytes.now) }
{
    let mut fields = Vec::new(alloc);
    let mut rest = bytes;
    for _ in 0..count {
        let (field, after) = read_field(alloc, version, rest)?;
        fields.push(field)?;
        rest = after;
    }
    Ok((fields, rest))
}

#[tactic(auto, unfolding(crate::specs::Record::record_at))]
fn read_record(alloc: Global, version: u32, bytes: &[u8]) -> Result<Vec<(Field, Vec<u8>)>, DocFault>
    ensures { Gives (λ v. fields_seen v.items) result (record_at (spelling_of version) bytes.now) }
{
    let (count, rest) = split_size(version, bytes).ok_or(DocFault::Refused)?;
    let (fields, rest) = read_fields(alloc, version, count, rest)?;
    if !rest.is_empty() {
        return Err(DocFault::Refused);
    }
    Ok(fields)
}

impl DocumentDeserialize for RecordDocument {
    ghost reading = { reading };

    fn deserialize(alloc: Global, bytes: &[u8], version: u32) -> Result<RecordDocument, DocFault> {
        if version != OLD_VERSION && version != VERSION {
            return Err(DocFault::Refused);
        }
        let fields = read_record(alloc, version, bytes)?;
        Ok(RecordDocument { alloc, fields })
    }
}

impl StoredDocument for RecordDocument {
    ghost use Rattle.store_base.specs.Record.{stored};
    ghost use Rattle.store_base.specs.RecordLemmas.{records_are_read};

    ghost stored = { stored };

    ghost read_back = { records_are_read };
}
