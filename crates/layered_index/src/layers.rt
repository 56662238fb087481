//! Walking over the layers of an index, each of which is decoded once.
ghost use Rattle.std.specs.Prelude.{◌≡◌, ◌≤◌, ◌<◌, ◌+◌, ◌^◌, ◌↔◌, List, [], ◌∷◌, length};
ghost use Rattle.std.specs.Prelude.{IsTrue, IsSome, IfSome, MatchResult};
ghost use Rattle.std.specs.Option.{option_map};
ghost use Rattle.layered_index.specs.declared.checkpoint.Checkpoint.{Checkpoint};
ghost use Rattle.layered_index.specs.Checkpoint.{checkpoint};
ghost use Rattle.layered_index.specs.Layers.{digit_count};
ghost use Rattle.layered_index.specs.BlockReading.{steps_at, ends_of, run_at};
ghost use Rattle.layered_index.specs.LayerReading.{items, may_stand, len_from, pointers_at, ArePointers, IsLayerBelow};
ghost use Rattle.layered_index.specs.Tallies.{no_tally, kept};
ghost use Rattle.layered_index.specs.Faults.{standing_from, PassedTo, BreaksAt};

use crate::checkpoint::Checkpoint;
use crate::layer_cursor::LayerCursor;
use crate::row::Row;
use crate::run_reading::{Heading, heading_front, step_front};
use crate::tally::Tally;

/// A block of a layer in short: its heading, and where its last checkpoint ends.
#[derive(Clone, Copy)]
pub(crate) struct Run {
    pub count: usize,
    pub doc: u32,
    pub byte: usize,
    pub doc_end: u32,
    pub byte_end: usize,
}

// From 64 KiB on, a layer is too long for a processor to learn how many bytes each of its numbers has.
const LONG_LAYER: usize = 1 << 16;

// How the numbers of the next run are decoded, by the lengths of the runs before it. Where two runs of a long layer
// have different lengths, a processor mispredicts how many bytes their numbers have, and decoding takes the way with
// fewer branches. No answer depends on it.
#[derive(Drop)]
struct RunLengths {
    is_long: bool,
    last: usize,
    uneven: bool,
}

impl RunLengths {
    // Before the first run of a layer.
    fn new(layer: &[u8]) -> RunLengths {
        RunLengths {
            is_long: layer.len() >= LONG_LAYER,
            last: 0,
            uneven: false,
        }
    }

    // After a run of `len` bytes.
    fn add(&mut self, len: usize) {
        self.uneven = self.is_long && len != self.last;
        self.last = len;
    }
}

/// How many digits a number has in this base.
pub(crate) fn digit_count(base: usize, n: usize) -> usize
    requires { 2 ≤ base }
    ensures digits { result ≡ digit_count base n }
    ensures few { result ≤ n }
{
    if n == 0 {
        return 0;
    }
    digit_count(base, n / base) + 1
}

// Keeps the checkpoints of a block. Answers where the last ends, and what follows it.
fn keep_steps<'a>(
    uneven: bool,
    heading: Heading,
    bytes: &'a [u8],
    tally: &mut Tally,
    rows: &mut [Row],
) -> Option<(u32, usize, &'a [u8])>
    requires { tally.old.count + length bytes.now < 2 ^ 64 }
    ensures read { option_map (λ x. (x.0, x.1, x.2.now)) result ≡ ends_of heading.doc heading.byte
        (steps_at heading.count heading.doc heading.byte bytes.now) }
    ensures kept { IfSome result (λ x. kept (tally.new, rows.new) (items 0 0 0 x.2.now)
        ≡ kept (tally.old, rows.old) (items heading.count heading.doc heading.byte bytes.now)) }
    ensures few { IfSome result (λ x. tally.new.count + length x.2.now ≤ tally.old.count + length bytes.now) }
{
    let mut rest = bytes;
    let mut doc_end = heading.doc;
    let mut byte_end = heading.byte;
    for _ in 0..heading.count {
        let (checkpoint, after) = step_front(uneven, doc_end, byte_end, rest)?;
        tally.add(&checkpoint, rows);
        doc_end = checkpoint.doc_range.end;
        byte_end = checkpoint.byte_range.end;
        rest = after;
    }
    Some((doc_end, byte_end, rest))
}

// The block at the front in short, and what follows it.
#[tactic(auto, unfolding(crate::specs::BlockReading::run_at))]
fn run_front<'a>(
    uneven: bool,
    bytes: &'a [u8],
    tally: &mut Tally,
    rows: &mut [Row],
) -> Option<(Run, &'a [u8])>
    requires { tally.old.count + length bytes.now < 2 ^ 64 }
    ensures read { option_map (λ x. (x.0, x.1.now)) result ≡ run_at bytes.now }
    ensures kept { IfSome result (λ x. 0 < x.0.count → kept (tally.new, rows.new) (items 0 0 0 x.1.now)
        ≡ kept (tally.old, rows.old) (items 0 0 0 bytes.now)) }
    ensures few { IfSome result (λ x. tally.new.count + length x.1.now ≤ tally.old.count + length bytes.now) }
{
    let (heading, steps) = heading_front(bytes)?;
    let (doc_end, byte_end, rest) = keep_steps(uneven, heading, steps, tally, rows)?;
    let run = Run {
        count: heading.count,
        doc: heading.doc,
        byte: heading.byte,
        doc_end,
        byte_end,
    };
    Some((run, rest))
}

// Whether a run may be here, with `bytes_left` bytes after it: only the last one is not full.
fn may_stand(period: usize, doc: u32, byte: usize, run: &Run, bytes_left: usize) -> bool
    ensures { result ≡ may_stand period doc byte run.now bytes_left }
{
    run.doc == doc
        && run.byte == byte
        && 0 < run.count
        && run.count <= period
        && (run.count == period || bytes_left == 0)
}

// Whether it points to the run, whose block lies here.
fn is_pointer(pointer: &Checkpoint, run: &Run, place: usize, end: usize) -> bool
    ensures { IsTrue result ↔ (pointer.now ≡ checkpoint run.now.doc run.now.doc_end place end) }
{
    pointer.doc_range.start == run.doc
        && pointer.doc_range.end == run.doc_end
        && pointer.byte_range.start == place
        && pointer.byte_range.end == end
}

// Whether the layer above, if there is one, points next to the run, whose block lies here.
fn next_points(above: &mut Option<LayerCursor<'_>>, run: &Run, place: usize, end: usize) -> bool
    ensures { (ps : List Checkpoint) → (IsTrue result × ArePointers above.new ps)
        ↔ ArePointers above.old (checkpoint run.now.doc run.now.doc_end place end ∷ ps) }
{
    match above {
        None => true,
        Some(pointers) => match pointers.next() {
            None => false,
            Some(pointer) => is_pointer(&pointer, run, place, end),
        },
    }
}

// Whether the layer above, if there is one, points to nothing more.
fn none_left(above: Option<LayerCursor<'_>>) -> bool
    ensures { IsTrue result ↔ ArePointers above.entry [] }
{
    match above {
        None => true,
        Some(mut pointers) => pointers.next().is_none(),
    }
}

// Walks over the runs of a layer, where the first is to begin as the heading says, and keeps their checkpoints. An
// error is the byte of the first run that breaks a rule.
fn walk_runs(
    period: usize,
    heading: Heading,
    text: &[u8],
    mut above: Option<LayerCursor<'_>>,
    tally: &mut Tally,
    rows: &mut [Row],
) -> Result<(), usize>
    requires { tally.old.count + length text.now < 2 ^ 64 }
    ensures { MatchResult result
        (λ _. IsSome (len_from period heading.doc heading.byte text.now)
        × ArePointers above.entry (pointers_at 0 text.now)
        × (kept (tally.new, rows.new) [] ≡ kept (tally.old, rows.old) (items 0 0 0 text.now)))
        (λ byte. (IsSome (len_from period heading.doc heading.byte text.now)
        × ArePointers above.entry (pointers_at 0 text.now) → ⊥)
        × (byte ≤ length text.now)
        × PassedTo above.entry (standing_from period heading.doc heading.byte 0 text.now) 0 byte) }
{
    let mut rest = text;
    let mut place = 0;
    let mut doc_end = heading.doc;
    let mut byte_end = heading.byte;
    let mut lengths = RunLengths::new(text);
    while !rest.is_empty() {
        let Some((run, after)) = run_front(lengths.uneven, rest, tally, rows) else {
            return Err(place);
        };
        let end = place + (rest.len() - after.len());
        if !may_stand(period, doc_end, byte_end, &run, after.len())
            || !next_points(&mut above, &run, place, end)
        {
            return Err(place);
        }
        doc_end = run.doc_end;
        byte_end = run.byte_end;
        lengths.add(end - place);
        place = end;
        rest = after;
    }
    if none_left(above) { Ok(()) } else { Err(place) }
}

/// Walks over a layer, and keeps its checkpoints: it writes their rows over the front of these, as many as there is
/// room for. An error is the byte of the layer at which the first run begins that breaks a rule.
pub(crate) fn walk_layer(
    period: usize,
    text: &[u8],
    above: Option<LayerCursor<'_>>,
    rows: &mut [Row],
) -> Result<Tally, usize>
    ensures { MatchResult result
        (λ tally. IsLayerBelow period above.entry text.now
        × ((tally, rows.new) ≡ kept (no_tally, rows.old) (items 0 0 0 text.now)))
        (λ byte. (IsLayerBelow period above.entry text.now → ⊥)
        × (byte ≤ length text.now) × BreaksAt period above.entry text.now byte) }
{
    let Some((heading, _)) = heading_front(text) else {
        return Err(0);
    };
    let mut tally = Tally::NONE;
    walk_runs(period, heading, text, above, &mut tally, rows)?;
    Ok(tally)
}
