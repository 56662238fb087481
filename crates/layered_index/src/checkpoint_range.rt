//! Checkpoints of an index that follow one another.
ghost use Rattle.std.specs.Prelude.{◌≡◌, ◌≤◌, length, slice_range};
ghost use Rattle.std.specs.Iterator.{YieldsFirst, item_count};

use crate::checkpoint::Checkpoint;
use crate::skip_index::SkipIndex;
use std::marker::Model;
use std::ops::Range;

/// Gives the checkpoints at some places of an index, and takes no memory.
#[derive(Drop)]
pub struct CheckpointRange<'a> {
    index: &'a SkipIndex,
    next: usize,
    end: usize,
}

impl<'a> Model for CheckpointRange<'a> {
    ghost use Rattle.std.specs.Prelude.{◌≤◌, List, length, slice_range};
    ghost use Rattle.layered_index.specs.declared.checkpoint.Checkpoint.{Checkpoint};

    ghost Value = { List Checkpoint };

    ghost view = { λ a. slice_range a.index.now.checkpoints a.next a.end };

    ghost invariant = { λ a. a.end ≤ length a.index.now.checkpoints };
}

impl<'a> CheckpointRange<'a> {
    pub(crate) fn new(index: &'a SkipIndex, places: Range<usize>) -> CheckpointRange<'a>
        requires { places.end ≤ length index.now.checkpoints }
        ensures { result ≡ slice_range index.now.checkpoints places.start places.end }
    {
        CheckpointRange {
            index,
            next: places.start,
            end: places.end,
        }
    }
}

impl<'a> Iterator for CheckpointRange<'a> {
    type Item = Checkpoint;

    ghost next_gives = { YieldsFirst (λ s. s) };

    ghost remaining = { item_count (λ s. s) };

    #[inline(always)]
    fn next(&mut self) -> Option<Checkpoint> {
        if self.next >= self.end {
            return None;
        }
        let checkpoint = self.index.at(self.next);
        self.next += 1;
        Some(checkpoint)
    }
}
