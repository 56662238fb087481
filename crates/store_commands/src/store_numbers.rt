//! What a store has, as numbers.

ghost use Rattle.std.specs.Prelude.{◌≡◌, ◌≤◌, ◌+◌, ◌-◌, ◌*◌, IfOk, IfErr};
ghost use Rattle.layered_index.specs.Layers.{digit_count};
ghost use Rattle.store_commands.specs.Numbers.{sizes_of, AreNumbersOf};

use docstore::{DocId, FOOTER_LEN, FileHandle, StoreError, StoreReader};
use std::alloc::Global;

/// What a store has, as numbers.
#[derive(Clone, Copy)]
pub struct StoreNumbers {
    pub version: u32,
    pub period: u8,
    pub documents: DocId,
    pub blocks: usize,
    pub layers: u32,
    pub data_bytes: u64,
    pub index_bytes: u64,
    /// The bytes of the blocks without their tables. In a sound store they are those of the documents.
    pub document_bytes: u64,
    /// The bytes of data, index and footer.
    pub file_bytes: u64,
    /// The bytes of the smallest, the median and the largest block; 0 if there is none.
    pub smallest_block: usize,
    pub median_block: usize,
    pub largest_block: usize,
}

/// How many layers the index of this many blocks has: as many as their number has digits in the base of the period.
pub fn layers_over(blocks: usize, period: u8) -> u32
    requires { 2 ≤ period }
    ensures { result ≡ digit_count period blocks }
{
    let mut entries = blocks;
    let mut layers = 0;
    while entries > 0 {
        entries /= period as usize;
        layers += 1;
    }
    layers
}

// How many bytes of data are left without the tables of its blocks: each table has four bytes for each document, and
// four more.
fn document_bytes(data_bytes: u64, documents: DocId, blocks: usize) -> u64
    ensures { result ≡ data_bytes - 4 * (documents + blocks) }
{
    let entries = u64::from(documents).saturating_add(blocks as u64);
    data_bytes.saturating_sub(entries.saturating_mul(4))
}

/// How many bytes each block has, in order.
pub fn block_sizes<H: FileHandle>(
    alloc: Global,
    reader: &StoreReader<H>,
) -> Result<Vec<usize>, StoreError>
    ensures sizes { IfOk result (λ sizes. sizes.items ≡ sizes_of reader.now) }
    ensures memory { IfErr result (λ e. e ≡ StoreError.Memory) }
{
    let mut sizes = Vec::new(alloc);
    for checkpoint in reader.block_checkpoints() {
        let bytes = checkpoint.byte_range;
        sizes.push(bytes.end.saturating_sub(bytes.start))?;
    }
    Ok(sizes)
}

/// The numbers of a store, whose blocks have these sizes.
pub fn numbers_of<H: FileHandle>(reader: &StoreReader<H>, mut sizes: Vec<usize>) -> StoreNumbers
    ensures { AreNumbersOf reader.now sizes.items result }
{
    sizes.sort_unstable();
    let usage = reader.space_usage();
    let middle = sizes.len() / 2;
    StoreNumbers {
        version: reader.version().number(),
        period: reader.period(),
        documents: reader.num_docs(),
        blocks: sizes.len(),
        layers: layers_over(sizes.len(), reader.period()),
        data_bytes: usage.data_usage(),
        index_bytes: usage.offsets_usage(),
        document_bytes: document_bytes(usage.data_usage(), reader.num_docs(), sizes.len()),
        file_bytes: usage.total().saturating_add(FOOTER_LEN),
        smallest_block: sizes.first().copied().unwrap_or(0),
        median_block: sizes.get(middle).copied().unwrap_or(0),
        largest_block: sizes.last().copied().unwrap_or(0),
    }
}

/// The numbers of a store.
pub fn numbers_in<H: FileHandle>(
    alloc: Global,
    reader: &StoreReader<H>,
) -> Result<StoreNumbers, StoreError>
    ensures numbers { IfOk result (AreNumbersOf reader.now (sizes_of reader.now)) }
    ensures memory { IfErr result (λ e. e ≡ StoreError.Memory) }
{
    let sizes = block_sizes(alloc, reader)?;
    Ok(numbers_of(reader, sizes))
}
