//! Opening a log's folder.

ghost use Rattle.std.specs.Prelude.{◌≡◌, ◌≤◌, ◌<◌, ◌++◌, ◌∷◌, ℕ, List, [], map, All, length, string_bytes, IsTrue};
ghost use Rattle.std.specs.Prelude.{◌^◌, IfOk, IfErr, IfSome, IfNone, OnOk, IsErrOf};
ghost use Rattle.std.specs.List.{Contains};
ghost use Rattle.std.specs.List.Sorted.{IsStrictlyIncreasing};
ghost use Rattle.std.specs.Result.{IsErrAnd};
ghost use Rattle.segmented_log.specs.Parts.{part_of, end_from, AreInLine, Ascend};
ghost use Rattle.segmented_log.specs.Log.{HasSegment};
ghost use Rattle.store_folder.specs.Folder.{AreNames};
ghost use Rattle.segmented_log.specs.Opening.{AreNumbersIn, IsNoSegment, IsNoLog, HasSegments};
ghost use Rattle.segmented_log.specs.Dropping.{AreOfOneLog, HasOnly};
ghost use Rattle.segmented_log.specs.Causes.{IsOfFiles, IsFailure};

use crate::error::LogError;
use crate::numbers::segment_number;
use crate::segment::{Segment, first_number, open_segment};
use docstore::{FileHandle, laws};
use std::alloc::{AllocError, Global};
use store_folder::ReadableFolder;

// Adds the number of a segment's name.
fn add_number(name: &str, numbers: &mut Vec<u64>) -> Result<(), AllocError>
    ensures { OnOk result ((names : List (List ℕ)) → AreNumbersIn names numbers.old.items
        → AreNumbersIn (names ++ name.now ∷ []) numbers.new.items) }
{
    let Some(number) = segment_number(name) else {
        return Ok(());
    };
    numbers.push(number)?;
    Ok(())
}

// The numbers of the segments among these names, in the order of the names.
fn numbers_among(alloc: Global, names: &[String]) -> Result<Vec<u64>, AllocError>
    ensures { IfOk result (λ numbers. AreNumbersIn (map string_bytes names.now) numbers.items) }
{
    let mut numbers = Vec::new(alloc);
    for name in names {
        add_number(name.as_str(), &mut numbers)?;
    }
    Ok(numbers)
}

// The numbers of the segments among these names, each once, in ascending order.
fn numbers_in(alloc: Global, names: &[String]) -> Result<Vec<u64>, AllocError>
    ensures numbers { IfOk result (λ numbers. AreNumbersIn (map string_bytes names.now) numbers.items) }
    ensures ascend { IfOk result (λ numbers. IsStrictlyIncreasing numbers.items) }
{
    let mut numbers = numbers_among(alloc, names)?;
    numbers.sort()?;
    numbers.dedup();
    Ok(numbers)
}

/// Whether two listings have the same segments.
pub(crate) fn have_same_segments(
    alloc: Global,
    names: &[String],
    others: &[String],
) -> Result<bool, AllocError>
    ensures { IfOk result (λ same. (seen : _) → AreNames seen (map string_bytes names.now)
        → AreNames seen (map string_bytes others.now) → IsTrue same) }
{
    Ok(numbers_in(alloc, names)? == numbers_in(alloc, others)?)
}

// Opens the segments of these numbers.
fn open_segments<F: ReadableFolder>(
    alloc: Global,
    folder: &F,
    numbers: &[u64],
) -> Result<Vec<Segment<F::File>>, LogError>
    ensures numbers { IfOk result (λ s. map (λ x. x.first) s.items ≡ numbers.now) }
    ensures found { IsTrue F.honest → IfOk result (λ s. All (λ x. HasSegment (F.seen folder.now)
        (part_of x.first x.reader)) s.items) }
    ensures honest { IsTrue F.honest → IfOk result (λ s. All (λ x. IsTrue x.reader.file.honest) s.items) }
    ensures no_log { IsTrue F.honest → IsErrOf result LogError.NoLog
        → (k : ℕ) × Contains numbers.now k × IsNoSegment (F.seen folder.now) k }
    ensures failed { IsErrAnd result IsFailure → 0 < length numbers.now }
    ensures kind { IfErr result IsOfFiles }
{
    let mut segments = Vec::new(alloc);
    for number in numbers {
        segments.push(open_segment(alloc, folder, *number)?)?;
    }
    Ok(segments)
}

/// The number where segments end the first of which has this number. None where they are no segments of one log.
pub(crate) fn end_of_segments<H: FileHandle>(segments: &[Segment<H>], first: u64) -> Option<u64>
    ensures end { IfSome result (λ end. end ≡ end_from first (map (λ s. part_of s.first s.reader) segments.now)) }
    ensures fits { IfSome result (λ end. end < 2 ^ 64) }
    ensures line { IfSome result (λ _. AreInLine first (map (λ s. part_of s.first s.reader) segments.now)) }
    ensures ascend { IfSome result (λ _. Ascend first (map (λ s. part_of s.first s.reader) segments.now)) }
    ensures none { IfNone result (AreInLine first (map (λ s. part_of s.first s.reader) segments.now)
        → Ascend first (map (λ s. part_of s.first s.reader) segments.now)
        → end_from first (map (λ s. part_of s.first s.reader) segments.now) < 2 ^ 64 → ⊥) }
{
    let mut end = first;
    let mut least = first;
    for segment in segments {
        let count = u64::from(segment.reader.num_docs());
        if segment.first > end || segment.first < least || count == 0 {
            return None;
        }
        end = end.max(segment.first.checked_add(count)?);
        least = segment.first + 1;
    }
    Some(end)
}

/// Opens the segments of a folder that has these names, if they are those of one log.
pub(crate) fn open_all<F: ReadableFolder>(
    alloc: Global,
    folder: &F,
    names: &[String],
) -> Result<Vec<Segment<F::File>>, LogError>
    requires { IsTrue F.honest → AreNames (F.seen folder.now) (map string_bytes names.now) }
    ensures are { IfOk result (λ s. AreOfOneLog (map (λ x. part_of x.first x.reader) s.items)) }
    ensures only { IsTrue F.honest → IfOk result (λ s. HasOnly (map (λ x. part_of x.first x.reader) s.items)
        (F.seen folder.now)) }
    ensures honest { IsTrue F.honest → IfOk result (λ s. All (λ x. IsTrue x.reader.file.honest) s.items) }
    ensures no_log { IsTrue F.honest → IsErrOf result LogError.NoLog → IsNoLog (F.seen folder.now) }
    ensures failed { IsTrue F.honest → IsErrAnd result IsFailure → HasSegments (F.seen folder.now) }
    ensures kind { IfErr result IsOfFiles }
{
    laws::stores_are_apart();
    let numbers = numbers_in(alloc, names)?;
    let segments = open_segments(alloc, folder, &numbers)?;
    let first = first_number(&segments, 0);
    let Some(_) = end_of_segments(&segments, first) else {
        return Err(LogError::NoLog);
    };
    Ok(segments)
}
