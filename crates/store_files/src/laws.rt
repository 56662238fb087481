//! Laws of marks and of what a writer knows.

ghost use Rattle.std.specs.Prelude.{◌≡◌, ◌≢◌, ◌≤◌, ℕ, List, IfOk, reverse};
ghost use Rattle.store_files.specs.Knowledge.{said, rank, known_by, entries_by};
ghost use Rattle.store_files.specs.Mark.{claimed, others_of, claims_entries};
ghost use Rattle.store_files.specs.Laws.{EndMarksAreRight};

use crate::knowledge::{Doing, Knowledge, Standing};
use crate::mark::Mark;
use std::alloc::{AllocError, Global};

/// What a writer knows that found this mark and did all of this: exactly what the definition says, or no more than it
/// where memory ran out.
pub fn doings_are_known(
    alloc: Global,
    mark: &Mark,
    doings: &[Doing<'_>],
) -> Result<Knowledge, AllocError>
    ensures exact { IfOk result (λ k. k.others ≢ Standing.Failed → (n : List ℕ)
        → said k n ≡ known_by (others_of mark.now.kind) (claimed mark.now) (reverse doings.now) n) }
    ensures no_more { IfOk result (λ k. (n : List ℕ)
        → rank (said k n) ≤ rank (known_by (others_of mark.now.kind) (claimed mark.now) (reverse doings.now) n)) }
    ensures entries { IfOk result (λ k.
        k.has_kept_entries ≡ entries_by (claims_entries mark.now.kind) (reverse doings.now)) }
{
    let mut knowledge = Knowledge::after(alloc, mark)?;
    for doing in doings {
        knowledge.note(alloc, doing);
    }
    Ok(knowledge)
}

/// Bytes are one mark at most, of one start of the machine and one folder, and a part of a mark is none.
pub fn end_marks_are_right()
    ensures { EndMarksAreRight }
{}
