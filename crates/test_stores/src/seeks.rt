//! Seeks and walks: the places that they look at in a list of a user's own, and what they count in an index.

use docstore::{
    Checkpoint, CheckpointBlock, Looks, OwnedBytes, SkipIndex, Steps, StoreError, VInt, seek_near,
    seek_over,
};
use std::alloc::Global;
use std::test::Fail;

/// A list that notes which of its places are looked at.
#[derive(Drop)]
struct NotingList {
    block: CheckpointBlock,
    count: u64,
    places: Vec<usize>,
}

impl Looks for NotingList {
    ghost list = { λ s. s.block };

    ghost looks = { λ s. s.count };

    fn len(&self) -> usize {
        self.block.checkpoints().len()
    }

    fn look(&mut self, i: usize) -> Checkpoint {
        self.count = self.count.saturating_add(1);
        // A place that finds no room is missing, and the test fails.
        let _ = self.places.push(i);
        self.block.get(i)
    }
}

// Eight checkpoints of one document and one byte.
const EIGHT: &[u8] =
    b"\x88\x80\x80\x81\x81\x81\x81\x81\x81\x81\x81\x81\x81\x81\x81\x81\x81\x81\x81";

// The list of a block of checkpoints.
fn noting(alloc: Global, bytes: &[u8]) -> Result<NotingList, StoreError> {
    let mut block = CheckpointBlock::new(alloc)?;
    let mut input = bytes;
    block.deserialize(&mut input)?;
    Ok(NotingList {
        block,
        count: 0,
        places: Vec::new(alloc),
    })
}

// Whether a seek finds the checkpoint of this document, and looks at these places alone.
fn looks_at(
    alloc: Global,
    target: u32,
    first: Option<u32>,
    places: &[usize],
) -> Result<bool, StoreError> {
    let mut list = noting(alloc, EIGHT)?;
    let found = seek_over(&mut list, target).map(|checkpoint| checkpoint.doc_range.start);
    Ok(found == first && list.places.as_slice() == places && list.count == places.len() as u64)
}

#[test]
fn a_seek_looks_in_halves(rt: HostRuntime) -> Result<(), Fail> {
    let alloc = rt.alloc();
    assert!(rt;
        looks_at(alloc, 0, Some(0), &[4, 2, 1, 0])?
            && looks_at(alloc, 4, Some(4), &[4, 2, 3])?
            && looks_at(alloc, 7, Some(7), &[4, 6, 7])?
            && looks_at(alloc, 8, None, &[4, 6, 7])?
    );
    Ok(())
}

// Whether a seek from a guess finds the checkpoint of this document, and looks at the guess first and at six places at
// most.
fn looks_first(
    alloc: Global,
    target: u32,
    guess: usize,
    first: Option<u32>,
) -> Result<bool, StoreError> {
    let mut list = noting(alloc, EIGHT)?;
    let found = seek_near(&mut list, target, guess).map(|checkpoint| checkpoint.doc_range.start);
    Ok(found == first && list.places.first() == Some(&guess) && list.places.len() <= 6)
}

#[test]
fn a_seek_from_a_guess_looks_there_first(rt: HostRuntime) -> Result<(), Fail> {
    let alloc = rt.alloc();
    assert!(rt;
        looks_first(alloc, 0, 0, Some(0))?
            && looks_first(alloc, 5, 5, Some(5))?
            && looks_first(alloc, 7, 0, Some(7))?
            && looks_first(alloc, 8, 7, None)?
    );
    Ok(())
}

// The list of tantivy's test of a long index: 1000 checkpoints of one document, which end at the squares from 1 to
// 1000000.
fn squares(alloc: Global) -> Result<NotingList, StoreError> {
    let mut bytes = Vec::new(alloc);
    VInt(1000).serialize_into_vec(&mut bytes)?;
    bytes.extend_from_slice(b"\x80\x80")?;
    for i in 0..1000u64 {
        bytes.push(0x81)?;
        VInt(2 * i + 1).serialize_into_vec(&mut bytes)?;
    }
    noting(alloc, &bytes)
}

// Whether a seek finds the checkpoint of this document in the long list, and looks at ten places at most.
fn looks_at_few(alloc: Global, target: u32, first: Option<u32>) -> Result<bool, StoreError> {
    let mut list = squares(alloc)?;
    let found = seek_over(&mut list, target).map(|checkpoint| checkpoint.doc_range.start);
    Ok(found == first && list.places.len() <= 10 && list.count == list.places.len() as u64)
}

#[test]
fn a_seek_in_a_long_list_looks_at_ten_places_at_most(rt: HostRuntime) -> Result<(), Fail> {
    let alloc = rt.alloc();
    assert!(rt;
        looks_at_few(alloc, 0, Some(0))?
            && looks_at_few(alloc, 999, Some(999))?
            && looks_at_few(alloc, 1000, None)?
    );
    Ok(())
}

fn index_of(alloc: Global, part: &[u8]) -> Result<SkipIndex, StoreError> {
    SkipIndex::open(
        alloc,
        OwnedBytes::new(alloc, Vec::from_slice(alloc, part)?)?,
    )
}

// How many checkpoints a seek in an index looks at.
fn looked_at(alloc: Global, part: &[u8], target: u32) -> Result<u64, StoreError> {
    let mut steps = Steps::new();
    let _ = index_of(alloc, part)?.seek_counted(target, &mut steps);
    Ok(steps.count())
}

// How many checkpoints a walk through an index of five at most counts.
fn walked(alloc: Global, part: &[u8]) -> Result<u64, StoreError> {
    let index = index_of(alloc, part)?;
    let mut cursor = index.checkpoints();
    let mut steps = Steps::new();
    for _ in 0..6u8 {
        let _ = cursor.next_counted(&mut steps);
    }
    Ok(steps.count())
}

const ONE: &[u8] = b"\x81\x85\x81\x80\x80\x82\x83";

const FIVE: &[u8] = b"\x81\x8d\x85\x80\x80\x83\x89\x81\x90\x82\x98\x82\xa0\x82\x93";

#[test]
fn one_checkpoint_is_looked_at_once_and_a_walk_counts_each(rt: HostRuntime) -> Result<(), Fail> {
    let alloc = rt.alloc();
    assert!(rt;
        looked_at(alloc, ONE, 0)? == 1
            && looked_at(alloc, ONE, 7)? == 1
            && looked_at(alloc, b"\x80", 0)? == 0
            && walked(alloc, FIVE)? == 5
            && walked(alloc, b"\x80")? == 0
    );
    Ok(())
}

// A block of no documents is refused in a file, and not in an index alone.
#[test]
fn an_index_may_have_a_checkpoint_of_no_documents(rt: HostRuntime) -> Result<(), Fail> {
    let index = index_of(rt.alloc(), b"\x81\x85\x81\x80\x80\x80\x8b")?;
    let first = index.checkpoints().next();
    assert!(rt;
        first
            == Some(Checkpoint {
                doc_range: 0..0,
                byte_range: 0..11
            })
    );
    Ok(())
}
