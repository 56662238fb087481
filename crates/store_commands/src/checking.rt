//! Checks a store block by block and slot by slot.

ghost use Rattle.std.specs.Prelude.{◌≡◌, ◌<◌, ◌+◌, ◌^◌, ℕ, IfOk, IfSome, IfErr, OnOk, OnErr, length, take};
ghost use Rattle.std.specs.Prelude.{IsNone, IsSome, is_none, None, [], true, if◌then◌else◌, IsTrue, IsErrOf, ◌⊎◌, not};
ghost use Rattle.store_base.specs.Counts.{raised, HasRisen};
ghost use Rattle.layered_index.specs.Checkpoint.{doc_count};
ghost use Rattle.docstore.specs.StackingInParts.{IsReadInPieces, IsReadAtMost};
ghost use Rattle.store_format.specs.Block.{slot, damaged};
ghost use Rattle.store_reader.specs.Parts.{place_of};
ghost use Rattle.store_reader.specs.Reading.{IsSameStore, num_docs, store_of};
ghost use Rattle.store_commands.specs.Blocks.{AreWhole};
ghost use Rattle.store_commands.specs.Checks.{damaged_count, has_table, is_sound, HasTableFault, HasFault};
ghost use Rattle.store_commands.specs.Checks.{HasWatched, Judges};

use crate::block_documents::documents_with_room;
use docstore::{DataPart, DocId, FileHandle, StoreError, StoreReader, block_read_index, u32_at};
use std::alloc::Global;
use std::fmt;

/// Why the table of a block isn't the one that its index promises.
#[derive(Clone, Copy)]
pub enum TableFault {
    /// The block has no room for the count.
    Short,
    /// The table has another count.
    Count { counted: u32, promised: u32 },
    /// The block has no room for the table.
    Large { counted: u32 },
    /// There are bytes before the first document.
    Start { start: u32 },
}

impl fmt::Display for TableFault {
    fn fmt<W: fmt::Write>(&self, f: &mut fmt::Formatter<W>) -> fmt::Result {
        match self {
            TableFault::Short => f.write_str("it has no room for the count of its documents"),
            TableFault::Count { counted, promised } => {
                write!(
                    f,
                    "its table has {counted} documents, the index says {promised}"
                )
            }
            TableFault::Large { counted } => {
                write!(
                    f,
                    "its table of {counted} documents does not fit into the block"
                )
            }
            TableFault::Start { start } => {
                write!(f, "its first document begins at byte {start}, not at 0")
            }
        }
    }
}

/// What was found first.
#[derive(Clone, Copy)]
pub enum Fault {
    Table { fault: TableFault },
    Slot { doc_id: DocId },
}

/// The first fault, and the block that has it.
#[derive(Clone, Copy)]
pub struct FaultPlace {
    pub fault: Fault,
    pub block: u64,
    pub byte: usize,
}

impl fmt::Display for FaultPlace {
    fn fmt<W: fmt::Write>(&self, f: &mut fmt::Formatter<W>) -> fmt::Result {
        let (block, byte) = (self.block, self.byte);
        match self.fault {
            Fault::Table { fault } => write!(f, "block {block} at byte {byte}: {fault}"),
            Fault::Slot { doc_id } => {
                write!(
                    f,
                    "block {block} at byte {byte}: document {doc_id} is damaged"
                )
            }
        }
    }
}

/// What a store has, and what of it is broken.
#[derive(Clone, Copy)]
pub struct Verdict {
    pub documents: DocId,
    pub blocks: u64,
    pub damaged: u64,
    pub broken_blocks: u64,
    pub first: Option<FaultPlace>,
}

/// Is called for each block that is checked.
pub trait BlockWatch {
    ghost use Rattle.std.specs.Prelude.{ℕ};

    /// What one block more does, by how many documents and bytes it has.
    ghost adds: { Self → ℕ → ℕ → Self → Type 0 };

    /// One block more, of this many documents and bytes.
    fn add(&mut self, documents: DocId, bytes: u64)
        ensures { adds self.old documents bytes self.new };
}

// Where the table of a block breaks what the index promises, by how many documents.
fn table_fault(block: &[u8], promised: u32) -> Option<TableFault>
    ensures sound { is_none result ≡ has_table block.now promised }
    ensures fault { IfSome result (HasTableFault block.now promised) }
{
    let Some(count_place) = block.len().checked_sub(4) else {
        return Some(TableFault::Short);
    };
    let counted = u32_at(block, count_place);
    if counted != promised {
        return Some(TableFault::Count { counted, promised });
    }
    let table = (u64::from(counted) + 1) * 4;
    let Some(place) = block.len().checked_sub(table as usize) else {
        return Some(TableFault::Large { counted });
    };
    let start = u32_at(block, place);
    if start > 0 && counted > 0 {
        return Some(TableFault::Start { start });
    }
    None
}

// The first document of a block that is damaged.
fn first_damaged(block: &[u8], documents: u32) -> Option<u32>
    ensures damaged { IfSome result (λ position. slot block.now position ≡ damaged) }
    ensures within { IfSome result (λ position. position < documents) }
    ensures before { IfSome result (λ position. AreWhole block.now position) }
    ensures whole { IsNone result → AreWhole block.now documents }
{
    for position in 0..documents {
        if block_read_index(block, position).is_none() {
            return Some(position);
        }
    }
    None
}

// How many documents of a block are damaged. Those that its table has no room for are counted without a look.
fn damaged_in(block: &[u8], documents: u32) -> u64
    ensures { result ≡ damaged_count block.now documents }
{
    let with_room = documents_with_room(block, documents);
    let mut damaged = u64::from(documents - with_room);
    for position in 0..with_room {
        let is_damaged = block_read_index(block, position).is_none();
        damaged = damaged.saturating_add(u64::from(is_damaged));
    }
    damaged
}

// What breaks a promise in a block, whose first document has this id.
fn fault_in(block: &[u8], first: DocId, documents: u32) -> Option<Fault>
    requires { first + documents < 2 ^ 32 }
    ensures sound { is_none result ≡ is_sound block.now documents }
    ensures fault { IfSome result (HasFault first block.now documents) }
{
    if let Some(fault) = table_fault(block, documents) {
        return Some(Fault::Table { fault });
    }
    let position = first_damaged(block, documents)?;
    Some(Fault::Slot {
        doc_id: first + position,
    })
}

impl Verdict {
    /// Of a store of this many documents, of which nothing was read yet.
    pub fn of_documents(documents: DocId) -> Verdict
        ensures documents { result.documents ≡ documents }
        ensures nothing { Judges [] result }
    {
        Verdict {
            documents,
            blocks: 0,
            damaged: 0,
            broken_blocks: 0,
            first: None,
        }
    }

    /// Takes one block more. The counts stop at the greatest u64.
    pub fn take(&mut self, block: &DataPart)
        ensures documents { self.new.documents ≡ self.old.documents }
        ensures blocks { self.new.blocks ≡ raised self.old.blocks 1 }
        ensures damaged { self.new.damaged
            ≡ raised self.old.damaged (damaged_count block.now.bytes (doc_count (place_of block.now))) }
        ensures broken { self.new.broken_blocks
            ≡ (if is_sound block.now.bytes (doc_count (place_of block.now)) then self.old.broken_blocks
            else raised self.old.broken_blocks 1) }

        // The first fault stays.
        ensures kept { IsSome self.old.first → self.new.first ≡ self.old.first }
        ensures sound { self.old.first ≡ None
            → is_none self.new.first ≡ is_sound block.now.bytes (doc_count (place_of block.now)) }
        ensures found { self.old.first ≡ None → IfSome self.new.first (λ place. (place.block ≡ self.old.blocks)
            × (place.byte ≡ block.now.start)
            × HasFault block.now.ids.start block.now.bytes (doc_count (place_of block.now)) place.fault) }
    {
        let documents = block.ids.end.saturating_sub(block.ids.start);
        let bytes = block.bytes.as_slice();
        if let Some(fault) = fault_in(bytes, block.ids.start, documents) {
            self.broken_blocks = self.broken_blocks.saturating_add(1);
            self.first = self.first.or(Some(FaultPlace {
                fault,
                block: self.blocks,
                byte: block.start,
            }));
        }
        self.damaged = self.damaged.saturating_add(damaged_in(bytes, documents));
        self.blocks = self.blocks.saturating_add(1);
    }
}

/// Reads the blocks of a store in order, each by one read of the file, and judges them all. Where the file is honest,
/// the verdict is that of the store: each count is exact, the store is sound exactly if no fault is reported, and the
/// fault that is reported is the first one.
pub fn check_blocks<H: FileHandle, P: BlockWatch>(
    alloc: Global,
    reader: &mut StoreReader<H>,
    watch: &mut P,
) -> Result<Verdict, StoreError>
    ensures documents { IfOk result (λ verdict. verdict.documents ≡ num_docs reader.old) }
    ensures judged { IsTrue reader.old.file.honest → IfOk result (Judges (store_of reader.old)) }
    ensures watched { OnOk result (HasWatched P.adds (store_of reader.old) watch.old watch.new) }
    ensures watched_first { OnErr result ((count : ℕ)
        × HasWatched P.adds (take count (store_of reader.old)) watch.old watch.new) }
    ensures causes { IfErr result (λ e. (e ≡ StoreError.Read) ⊎ (e ≡ StoreError.Memory)) }
    ensures failed { IsErrOf result StoreError.Read → HasRisen reader.old.file.failures reader.new.file.failures }
    ensures steady { IsErrOf result StoreError.Read
        ⊎ (reader.new.file.failures ≡ reader.old.file.failures) }
    ensures read { OnOk result (IsReadInPieces (length reader.old.checkpoints) reader.old reader.new) }
    ensures kept { IsReadAtMost (length reader.old.checkpoints) reader.old reader.new }
    ensures same_store { IsSameStore reader.old reader.new }
{
    let mut verdict = Verdict::of_documents(reader.num_docs());
    let mut next_id = 0;
    while let Some(block) = reader.read_block(alloc, next_id)? {
        verdict.take(&block);
        watch.add(block.ids.end - block.ids.start, block.bytes.len() as u64);
        next_id = block.ids.end;
    }
    Ok(verdict)
}
