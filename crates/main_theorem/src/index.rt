//! An index part, read, sought in and written again.
ghost use Rattle.std.specs.Prelude.{◌≡◌, ◌⊎◌, ◌≤◌, length, IfOk, IfErr, MatchResult, IsOkUnless};
ghost use Rattle.layered_index.specs.Checkpoint.{IsInLine, first_past};
ghost use Rattle.layered_index.specs.Layers.{index_part};
ghost use Rattle.layered_index.specs.IndexReading.{IsIndexPart, HasIndex};
ghost use Rattle.layered_index.specs.Refusal.{RefusesOnlyUnless};
ghost use Rattle.main_theorem.specs.Index.{AreLooks, IsIndexAnswer};
ghost use Rattle.main_theorem.specs.Want.{IsWant};

use docstore::{
    Checkpoint, CheckpointBlock, DocId, LayerCursor, Looks, MemSink, OwnedBytes, SkipIndex,
    SkipIndexBuilder, Steps, StoreError, seek_near,
};
use layered_index::laws;
use std::alloc::Global;

/// What the index of some bytes answers, and what writing its checkpoints again gives.
#[derive(Drop)]
pub struct IndexAnswer<S: LookSource> {
    /// What `seek` returned.
    pub found: Option<Checkpoint>,
    /// What `seek_counted` returned.
    pub counted: Option<Checkpoint>,
    /// The count of its looks: only counted seeks in an index raise a `Steps`.
    pub steps: Steps,
    /// What `seek_near` returned, over the checkpoints in memory.
    pub near: Option<Checkpoint>,
    /// The source that it looked at, which counts its own looks.
    pub source: S,
    /// The index part that was written.
    pub written: Vec<u8>,
    /// The index that what was written gives.
    pub again: SkipIndex,
}

/// A source of looks that is made of checkpoints in memory.
pub trait LookSource: Looks + Drop {
    /// A source over these checkpoints. There was no look yet.
    fn over(block: CheckpointBlock) -> Self
        ensures list { Self.list result ≡ block }
        ensures looks { Self.looks result ≡ 0 };
}

/// Checkpoints in memory, and how many looks at them there were.
#[derive(Drop)]
pub struct CountedBlock {
    block: CheckpointBlock,
    count: u64,
}

impl CountedBlock {
    /// How many looks there were.
    pub fn count(&self) -> u64
        ensures { result ≡ self.now.count }
    {
        self.count
    }
}

impl Looks for CountedBlock {
    ghost list = { λ s. s.block };

    ghost looks = { λ s. s.count };

    fn len(&self) -> usize {
        self.block.checkpoints().len()
    }

    fn look(&mut self, i: usize) -> Checkpoint {
        self.count = self.count.saturating_add(1);
        self.block.get(i)
    }
}

impl LookSource for CountedBlock {
    fn over(block: CheckpointBlock) -> CountedBlock {
        CountedBlock { block, count: 0 }
    }
}

// Opens a copy of the bytes.
fn opened_index(alloc: Global, bytes: &[u8], period: u8) -> Result<SkipIndex, StoreError>
    requires least { 2 ≤ period }
    requires most { period ≤ 64 }
    ensures index { IfOk result (λ index. (index.period ≡ period) × IsIndexPart period bytes.now index.checkpoints) }
    ensures refused { IfErr result (RefusesOnlyUnless (HasIndex period bytes.now)) }
{
    let source = OwnedBytes::new(alloc, Vec::from_slice(alloc, bytes)?)?;
    SkipIndex::open_with_period(alloc, source, period)
}

// All checkpoints that the cursor gives.
fn collected(alloc: Global, checkpoints: LayerCursor<'_>) -> Result<CheckpointBlock, StoreError>
    requires in_line { IsInLine checkpoints }
    ensures block { IfOk result (λ block. block ≡ checkpoints.entry) }
    ensures memory { IsOkUnless result StoreError.Memory }
{
    let mut block = CheckpointBlock::new(alloc)?;
    for checkpoint in checkpoints {
        block.push(checkpoint)?;
    }
    Ok(block)
}

// A new index of this period, into which the checkpoints were inserted.
fn inserted(
    alloc: Global,
    period: u8,
    block: &CheckpointBlock,
) -> Result<SkipIndexBuilder, StoreError>
    requires least { 2 ≤ period }
    requires most { period ≤ 64 }
    requires in_line { IsInLine block.now }
    ensures index { IfOk result (λ index. index ≡ record { period = period; checkpoints = block.now }) }
    ensures memory { IsOkUnless result StoreError.Memory }
{
    let mut index = SkipIndexBuilder::with_period(alloc, period);
    for i in 0..block.len() {
        index.insert(block.get(i))?;
    }
    Ok(index)
}

// The index part of the checkpoints.
fn written_index(alloc: Global, period: u8, block: &CheckpointBlock) -> Result<Vec<u8>, StoreError>
    requires least { 2 ≤ period }
    requires most { period ≤ 64 }
    requires in_line { IsInLine block.now }
    ensures part { MatchResult result (λ v. v.items ≡ index_part period block.now) IsWant }
{
    let index = inserted(alloc, period, block)?;
    let mut output = MemSink::new(alloc);
    index.serialize_into(&mut output)?;
    Ok(output.into_bytes())
}

// The first checkpoint past the target, sought from a guess on, and the source that was looked at.
fn sought_near<S: LookSource>(
    block: CheckpointBlock,
    target: DocId,
    guess: usize,
) -> (Option<Checkpoint>, S)
    ensures answer { result.0 ≡ first_past block target }
    ensures list { S.list result.1 ≡ block }
    ensures looks { AreLooks (S.looks result.1) (length block) }
{
    let mut source = S::over(block);
    let found = seek_near(&mut source, target, guess);
    (found, source)
}

/// Reads the bytes as an index part, seeks the target in three ways, and writes the checkpoints again.
///
/// All answers are those of the one list that the bytes encode, and what is written is the bytes again, from
/// whatever guess `seek_near` begins. The counts of looks are those of the seeks that they are returned for.
///
/// # Errors
///
/// `BadIndex` where the bytes are the index part of no list in line. Any other error is a lack of memory.
pub fn index_read_and_written<S: LookSource>(
    alloc: Global,
    bytes: &[u8],
    period: u8,
    target: DocId,
    guess: usize,
) -> Result<IndexAnswer<S>, StoreError>
    requires least { 2 ≤ period }
    requires most { period ≤ 64 }
    ensures accepted { IfOk result (λ answer. IsIndexAnswer period bytes.now target
        (S.list answer.source) (S.looks answer.source) answer) }
    ensures refused { IfErr result
        (λ e. IsWant e ⊎ ((e ≡ StoreError.BadIndex) × (HasIndex period bytes.now → ⊥))) }
{
    laws::index_parts_are_apart();
    let index = opened_index(alloc, bytes, period)?;
    let mut steps = Steps::new();
    let counted = index.seek_counted(target, &mut steps);
    let block = collected(alloc, index.checkpoints())?;
    let written = written_index(alloc, period, &block)?;
    let again = opened_index(alloc, &written, period)?;
    let (near, source) = sought_near(block, target, guess);
    Ok(IndexAnswer {
        found: index.seek(target),
        counted,
        steps,
        near,
        source,
        written,
        again,
    })
}
