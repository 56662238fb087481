//! Counted looks at checkpoints, and the seek by such looks.
ghost use Rattle.std.specs.Prelude.{◌≡◌, ◌≤◌, ◌<◌, ◌+◌, ◌-◌, ◌*◌, ℕ, List, Some, length, slice_get};
ghost use Rattle.store_base.specs.Counts.{greatest, raised};
ghost use Rattle.layered_index.specs.declared.checkpoint.Checkpoint.{Checkpoint};
ghost use Rattle.layered_index.specs.Checkpoint.{IsInLine, first_past};
ghost use Rattle.layered_index.specs.Layers.{digit_count};
ghost use Rattle.layered_index.specs.Seeking.{LiesBetween, looks_to_spare};

use crate::checkpoint::Checkpoint;
use std::marker::Model;
use std::ops::Range;
use store_base::DocId;

/// A count of the checkpoints that were looked at, up to the greatest u64.
#[derive(Drop)]
pub struct Steps {
    count: u64,
}

impl Model for Steps {
    ghost use Rattle.std.specs.Prelude.{ℕ};

    ghost Value = { ℕ };

    ghost view = { λ steps. steps.count };
}

impl Steps {
    /// No checkpoint has been looked at.
    pub fn new() -> Steps
        ensures { result ≡ 0 }
    {
        Steps { count: 0 }
    }

    /// How many were looked at.
    pub fn count(&self) -> u64
        ensures { result ≡ self.now }
    {
        self.count
    }

    pub(crate) fn add(&mut self, more: u64)
        ensures count { self.new ≡ raised self.old more }
        ensures more { self.old ≤ self.new }
    {
        self.count = self.count.saturating_add(more);
    }
}

/// A source of looks at a list of checkpoints in line. No call changes the list.
pub trait Looks {
    /// The list.
    ghost list: { Self → List Checkpoint };

    /// How many looks there were.
    ghost looks: { Self → ℕ };

    /// How many checkpoints there are.
    fn len(&self) -> usize
        ensures len { result ≡ length (list self.now) }
        ensures in_line { IsInLine (list self.now) };

    /// The checkpoint with this index. It is counted.
    fn look(&mut self, i: usize) -> Checkpoint
        requires { i < length (list self.old) }
        ensures list { list self.new ≡ list self.old }
        ensures given { slice_get (list self.old) i ≡ Some result }
        ensures fits { looks self.old ≤ greatest }
        ensures looks { looks self.new ≡ raised (looks self.old) 1 };
}

// Where halving ends: the index of the first checkpoint whose documents end past the target, or how many checkpoints
// there are; and that checkpoint, if halving looked at it.
#[derive(Drop)]
struct Halved {
    place: usize,
    found: Option<Checkpoint>,
}

/// The first checkpoint whose documents end past the target, by halving.
pub fn seek_over<S: Looks>(source: &mut S, target: DocId) -> Option<Checkpoint>
    ensures list { S.list source.new ≡ S.list source.old }
    ensures answer { result ≡ first_past (S.list source.old) target }
    ensures binary { S.looks source.new
        ≤ S.looks source.old + digit_count 2 (length (S.list source.old)) }
    ensures most { (p : ℕ) → 2 ≤ p → S.looks source.new
        ≤ S.looks source.old + p * digit_count p (length (S.list source.old)) }
    ensures least { 0 < length (S.list source.old)
        → raised (S.looks source.old) 1 ≤ S.looks source.new }
{
    let len = source.len();
    halve(source, target, 0..len).found
}

/// A seek near a guess has looks to spare: one for each digit, in the base `SPARE_BASE`, of the length divided by this.
///
/// Where the length has b binary digits these are b / 2 - 1 at most. Halving takes b, and the look at the answer 1: in
/// all b + b / 2.
pub const SPARE_SHARE: usize = 8;

/// The base of the digits that are counted for the looks to spare.
pub const SPARE_BASE: usize = 4;

// Where the answer lies, by looks where the guess is and from there on in growing steps, until the
// target lies between two looks or no look is to spare.
#[inline(always)]
fn narrow_near<S: Looks>(source: &mut S, target: DocId, guess: usize) -> Range<usize>
    ensures list { S.list source.new ≡ S.list source.old }
    ensures between { LiesBetween (S.list source.old) target result.start result.end }
    ensures most { S.looks source.new + digit_count 2 (result.end - result.start)
        ≤ S.looks source.old + digit_count 2 (length (S.list source.old))
        + looks_to_spare (length (S.list source.old)) }
    ensures more { S.looks source.old ≤ S.looks source.new }
    ensures least { result.end - result.start < length (S.list source.old)
        → raised (S.looks source.old) 1 ≤ S.looks source.new }
{
    let mut low = 0;
    let mut high = source.len();
    let mut probe = guess.min(high.saturating_sub(1));
    let mut step: usize = 2;
    let mut spare = high / SPARE_SHARE;
    while spare > 0 && low <= probe && probe < high {
        spare /= SPARE_BASE;
        step = step.saturating_mul(2);
        if source.look(probe).doc_range.end > target {
            high = probe;
            probe = probe.saturating_sub(step);
        } else {
            low = probe + 1;
            probe = probe.saturating_add(step);
        }
    }
    low..high
}

// Halves what lies between until one place is left.
#[inline(always)]
fn halve<S: Looks>(source: &mut S, target: DocId, between: Range<usize>) -> Halved
    requires in_line { IsInLine (S.list source.old) }
    requires between { LiesBetween (S.list source.old) target between.start between.end }
    ensures list { S.list source.new ≡ S.list source.old }
    ensures few { result.place ≤ length (S.list source.old) }
    ensures answer { slice_get (S.list source.old) result.place ≡ first_past (S.list source.old) target }
    ensures found { result.place < between.end → result.found ≡ slice_get (S.list source.old) result.place }
    ensures none { result.place ≡ between.end → result.found ≡ None }
    ensures most { S.looks source.new
        ≤ S.looks source.old + digit_count 2 (between.end - between.start) }
    ensures more { S.looks source.old ≤ S.looks source.new }
    ensures least { between.start < between.end
        → raised (S.looks source.old) 1 ≤ S.looks source.new }
{
    let mut found = None;
    let mut low = between.start;
    let mut high = between.end;
    while low < high {
        let middle = low + (high - low) / 2;
        let checkpoint = source.look(middle);
        if checkpoint.doc_range.end > target {
            found = Some(checkpoint);
            high = middle;
        } else {
            low = middle + 1;
        }
    }
    Halved { place: low, found }
}

/// The first checkpoint whose documents end past the target, sought from a guess on.
///
/// It looks where the guess is, or at the last if that is past the end, and from there on in growing
/// steps, until the target lies between two looks; it halves what is left, and looks at the answer. A guess
/// near the answer takes few looks. For every guess they are at most p for each base-p digit of the length,
/// for every p from 2 on.
#[inline(always)]
pub fn seek_near<S: Looks>(source: &mut S, target: DocId, guess: usize) -> Option<Checkpoint>
    ensures list { S.list source.new ≡ S.list source.old }
    ensures answer { result ≡ first_past (S.list source.old) target }
    ensures most { (p : ℕ) → 2 ≤ p → S.looks source.new
        ≤ S.looks source.old + p * digit_count p (length (S.list source.old)) }
    ensures least { 0 < length (S.list source.old)
        → raised (S.looks source.old) 1 ≤ S.looks source.new }
{
    let len = source.len();
    let between = narrow_near(source, target, guess);
    let place = halve(source, target, between).place;
    if place < len {
        Some(source.look(place))
    } else {
        None
    }
}
