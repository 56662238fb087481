//! Which part of a file keeps it from being opened.

ghost use Rattle.std.specs.Prelude.{◌≡◌, ◌≢◌, ◌≤◌, ◌-◌, ◌⊎◌, Ok, Err, IsTrue, IfOk, IfErr, IsErrOf, length};
ghost use Rattle.store_commands.specs.BrokenParts.{BreaksBefore, BreaksFile, IsOfFooter};
ghost use Rattle.layered_index.specs.IndexHeads.{ReadsAtMost};

use crate::store_part::part_of;
use docstore::{
    DocStoreFooter, FOOTER_LEN, FileHandle, FileSlice, IndexFault, SkipIndex, StoreError,
    find_fault, read_footer,
};
use std::alloc::Global;
use std::fmt;

/// Which part of a file keeps it from being opened.
#[derive(Clone, Copy)]
pub enum BrokenPart {
    Footer,
    /// The index, which begins at this byte of the file.
    Index { begin: u64, fault: IndexFault },
    /// The index is sound, but its blocks don't cover the data, or don't begin at 0, or one is empty.
    Coverage { data: u64, covered: Option<usize> },
}

impl fmt::Display for BrokenPart {
    fn fmt<W: fmt::Write>(&self, f: &mut fmt::Formatter<W>) -> fmt::Result {
        match self {
            BrokenPart::Footer => f.write_str("footer"),
            BrokenPart::Index { begin, fault } => {
                let byte = begin.saturating_add(fault.byte as u64);
                match fault.layer {
                    Some(layer) => write!(f, "index: layer {layer} at byte {byte}"),
                    None => write!(f, "index: the list of layers at byte {byte}"),
                }
            }
            BrokenPart::Coverage {
                data,
                covered: Some(covered),
            } => {
                write!(
                    f,
                    "coverage: the blocks end at byte {covered}, the data ends at byte {data}"
                )
            }
            BrokenPart::Coverage {
                data: _,
                covered: None,
            } => { f.write_str("coverage: the blocks don't begin at byte 0, or one is empty") }
        }
    }
}

// Which part before the footer it is. The file ends with this footer.
fn part_before<H: FileHandle>(
    alloc: Global,
    footer: &DocStoreFooter,
    file: &mut FileSlice<H>,
) -> Result<BrokenPart, StoreError>
    requires { 28 ≤ length file.old.content }
    ensures breaks { IsTrue file.old.honest → IfOk result (BreaksBefore file.old.content footer.now) }
    ensures causes { IfErr result (λ e. (e ≡ StoreError.Read) ⊎ (e ≡ StoreError.Memory)) }
    ensures steady { IsErrOf result StoreError.Read ⊎ (file.new.failures ≡ file.old.failures) }
    ensures kept { ReadsAtMost 1 (length file.old.content - 28) file.old file.new }
{
    let end = file.len() - FOOTER_LEN;
    let part = part_of(alloc, file, footer.offset, end)?;
    if let Some(fault) = find_fault(part.as_slice(), footer.period) {
        return Ok(BrokenPart::Index {
            begin: footer.offset,
            fault,
        });
    }
    let index = SkipIndex::open_with_period(alloc, part, footer.period)?;
    Ok(BrokenPart::Coverage {
        data: footer.offset,
        covered: index.covered_to().map(|(_, bytes)| bytes),
    })
}

// Which part before the footer it is.
fn part_before_footer<H: FileHandle>(
    alloc: Global,
    file: &mut FileSlice<H>,
) -> Result<BrokenPart, StoreError>
    ensures breaks { IsTrue file.old.honest → IfOk result (BreaksFile file.old.content) }
    ensures steady { IsErrOf result StoreError.Read ⊎ (file.new.failures ≡ file.old.failures) }
    ensures kept { ReadsAtMost 2 (length file.old.content) file.old file.new }
{
    let footer = read_footer(file, alloc)?;
    part_before(alloc, &footer, file)
}

/// Which part of this file keeps it from being opened, by the error; or an error, if it is not the file's fault. An
/// index that is reported is broken, and its fault is the first one. Only for `BadIndex` the file is read: its footer
/// and its index, once each.
pub fn broken_part<H: FileHandle>(
    alloc: Global,
    file: &mut FileSlice<H>,
    error: StoreError,
) -> Result<BrokenPart, StoreError>
    ensures footer { IsOfFooter error → result ≡ Ok BrokenPart.Footer }
    ensures breaks { IsTrue file.old.honest → error ≡ StoreError.BadIndex
        → IfOk result (BreaksFile file.old.content) }
    ensures read { error ≡ StoreError.Read → result ≡ Err StoreError.Read }
    ensures memory { error ≡ StoreError.Memory → result ≡ Err StoreError.Memory }
    ensures no_read { error ≢ StoreError.BadIndex → file.new ≡ file.old }
    ensures steady { IsErrOf result StoreError.Read ⊎ (file.new.failures ≡ file.old.failures) }
    ensures kept { ReadsAtMost 2 (length file.old.content) file.old file.new }
{
    match error {
        StoreError::Read | StoreError::Memory => Err(error),
        StoreError::BadIndex => part_before_footer(alloc, file),
        _ => Ok(BrokenPart::Footer),
    }
}
