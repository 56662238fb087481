//! What `stat` prints.

use program_base::failure::{FailureCause, to_output};
use program_base::named_numbers::{self, NamedNumber};
use store_commands::store_numbers::StoreNumbers;

/// In which form numbers are printed.
#[derive(Clone, Copy, PartialEq, Eq)]
pub enum StatForm {
    /// Each number on a line.
    Lines,
    /// A store on each line.
    Table,
    /// A store as an object of JSON on each line.
    Json,
}

// How many bytes a document has on average, whole ones and tenths; 0 without documents.
fn mean_of(numbers: &StoreNumbers) -> (u128, u128) {
    let documents = u128::from(numbers.documents.max(1));
    let tenths = u128::from(numbers.document_bytes) * 10 / documents;
    (tenths / 10, tenths % 10)
}

// How many of the numbers of a store come before the mean document in lines.
const BEFORE_MEAN: usize = 8;

// The numbers of a store.
fn named(numbers: &StoreNumbers) -> [NamedNumber; 13] {
    let others = numbers.file_bytes.saturating_sub(numbers.document_bytes);
    [
        ("version", "version", u64::from(numbers.version)),
        ("period", "period", u64::from(numbers.period)),
        ("documents", "documents", u64::from(numbers.documents)),
        ("blocks", "blocks", numbers.blocks as u64),
        ("layers", "layers", u64::from(numbers.layers)),
        ("file bytes", "file_bytes", numbers.file_bytes),
        ("document bytes", "document_bytes", numbers.document_bytes),
        ("other bytes", "", others),
        ("data bytes", "data_bytes", numbers.data_bytes),
        ("index bytes", "index_bytes", numbers.index_bytes),
        (
            "smallest block",
            "smallest_block",
            numbers.smallest_block as u64,
        ),
        ("median block", "median_block", numbers.median_block as u64),
        (
            "largest block",
            "largest_block",
            numbers.largest_block as u64,
        ),
    ]
}

/// Prints the numbers as an object of JSON.
pub fn print_object(
    rt: &HostRuntime,
    path: &str,
    numbers: &StoreNumbers,
) -> Result<(), FailureCause> {
    named_numbers::print_object(rt, "file", path, &named(numbers))
}

/// Prints the numbers in lines.
pub fn print_lines(
    rt: &HostRuntime,
    path: &str,
    numbers: &StoreNumbers,
) -> Result<(), FailureCause> {
    let (named, (whole, tenth)) = (named(numbers), mean_of(numbers));
    to_output(println!(rt; "{path}"))?;
    named_numbers::print_lines(rt, &named[..BEFORE_MEAN])?;
    to_output(println!(rt; "  mean document   {whole}.{tenth}"))?;
    named_numbers::print_lines(rt, &named[BEFORE_MEAN..])
}

/// Prints the heads of a table.
pub fn print_heads(rt: &HostRuntime) -> Result<(), FailureCause> {
    to_output(println!(rt; " documents    blocks      file bytes  mean document  file"))
}

/// Prints the numbers as a line of a table.
pub fn print_row(rt: &HostRuntime, path: &str, numbers: &StoreNumbers) -> Result<(), FailureCause> {
    let StoreNumbers {
        documents,
        blocks,
        file_bytes,
        ..
    } = *numbers;
    let (whole, tenth) = mean_of(numbers);
    to_output(println!(rt;
        "{documents:>10} {blocks:>9} {file_bytes:>15} {whole:>12}.{tenth}  {path}"
    ))
}
