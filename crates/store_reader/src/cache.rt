//! The blocks that a reader keeps.

ghost use Rattle.std.specs.Prelude.{◌≡◌, ◌-◌, ◌<◌, ◌≤◌, if◌then◌else◌, [], ◌∷◌, take, length, Bool, Ok, None};
ghost use Rattle.std.specs.Prelude.{IfOk, IfSome, IsSome, IsNone, MatchOption, IsSomeAnd, nat_eq};
ghost use Rattle.std.specs.Map.{lookup};
ghost use Rattle.lru.specs.LruCache.{lru_cache, promoted};
ghost use Rattle.store_reader.specs.Cache.{look_up};
ghost use Rattle.store_reader.specs.CachedBlocks.{capacity_of, entries_of, with_pair, no_blocks, block_at, last_key};
ghost use Rattle.store_reader.specs.CachedBlocks.{after_hit, after_miss, with_block, state_of};
ghost use Rattle.store_reader.specs.BlockRequests.{AnswersRequest};

use crate::block_request::{BlockRequest, answer_request};
use lru::LruCache;
use std::alloc::Global;
use std::marker::Model;
use std::num::NonZeroUsize;
use store_base::{NoMemory, OwnedBytes, StoreError};

/// The blocks that a reader keeps, and how many look-ups found theirs.
#[derive(Drop)]
pub(crate) struct BlockCache {
    recent: RecentBlocks,
    hits: usize,
    misses: usize,
}

impl Model for BlockCache {
    ghost use Rattle.store_reader.specs.CachedBlocks.{CachedBlocks, AreCached, capacity_of, entries_of};

    ghost Value = { CachedBlocks };

    ghost view = { λ c. record {
      capacity = capacity_of c.recent.blocks;
      kept = entries_of c.recent.blocks;
      hits = c.hits;
      misses = c.misses;
    } };

    ghost invariant = { λ c. AreCached (capacity_of c.recent.blocks) (entries_of c.recent.blocks) };
}

impl BlockCache {
    /// Room for a block is taken when it is put. At capacity 0 none is kept.
    pub fn new(alloc: Global, capacity: usize) -> Result<BlockCache, NoMemory>
        ensures { IfOk result (λ c. c ≡ no_blocks capacity) }
    {
        Ok(BlockCache {
            recent: RecentBlocks::new(alloc, capacity)?,
            hits: 0,
            misses: 0,
        })
    }

    /// A look-up: what the request wants of the block with this key, if it is kept.
    #[inline(always)]
    pub fn look_up(
        &mut self,
        key: usize,
        request: BlockRequest,
    ) -> Option<Result<OwnedBytes, StoreError>>
        ensures answer { MatchOption result (block_at key self.old ≡ None)
            (λ answer. IsSomeAnd (block_at key self.old) (λ block. AnswersRequest request (Ok block) answer)) }
        ensures hit { IsSome result → self.new ≡ after_hit key self.old }
        ensures step { IsSome result → (is_kept : Bool) → state_of self.new
            ≡ look_up self.old.capacity (state_of self.old) (record { key = key; kept = is_kept }) }
        ensures miss { IsNone result → self.new ≡ after_miss self.old }
    {
        let found = self.recent.answer(key, request);
        if found.is_some() {
            self.hits = self.hits.saturating_add(1);
        } else {
            self.misses = self.misses.saturating_add(1);
        }
        found
    }

    /// How many blocks are kept.
    pub fn len(&self) -> usize
        ensures len { result ≡ length self.now.kept }
        ensures few { result ≤ self.now.capacity }
    {
        match &self.recent.blocks {
            Some(blocks) => blocks.len(),
            None => 0,
        }
    }

    /// The key of the block that was not used for the longest time.
    pub fn peek_lru(&self) -> Option<usize>
        ensures { result ≡ last_key self.now }
    {
        let (key, _) = self.recent.blocks.as_ref()?.peek_lru()?;
        Some(*key)
    }

    /// How many look-ups found their block.
    pub fn hits(&self) -> usize
        ensures { result ≡ self.now.hits }
    {
        self.hits
    }

    /// How many look-ups did not.
    pub fn misses(&self) -> usize
        ensures { result ≡ self.now.misses }
    {
        self.misses
    }

    /// Keeps a block that is not kept yet, unless memory for it is refused.
    pub fn put(&mut self, key: usize, block: OwnedBytes)
        requires { block_at key self.old ≡ None }
        ensures { (is_kept : Bool) × (self.new ≡ with_block key block is_kept self.old) }
    {
        self.recent.put(key, block);
    }
}

// Blocks by their first bytes, the one that was used last in front. At capacity 0 there are none.
#[derive(Drop)]
struct RecentBlocks {
    blocks: Option<LruCache<usize, OwnedBytes>>,
}

impl RecentBlocks {
    fn new(alloc: Global, capacity: usize) -> Result<RecentBlocks, NoMemory>
        ensures capacity { IfOk result (λ r. capacity_of r.blocks ≡ capacity) }
        ensures none { IfOk result (λ r. entries_of r.blocks ≡ []) }
    {
        let blocks = match NonZeroUsize::new(capacity) {
            Some(capacity) => Some(LruCache::sparse(alloc, capacity)?),
            None => None,
        };
        Ok(RecentBlocks { blocks })
    }

    // What the request wants of the block in front, if it has this key. The order stays.
    #[inline(always)]
    fn answer_front(
        blocks: &LruCache<usize, OwnedBytes>,
        key: usize,
        request: BlockRequest,
    ) -> Option<Result<OwnedBytes, StoreError>>
        ensures order { IsSome result → promoted (nat_eq key) blocks.now.entries ≡ blocks.now.entries }
        ensures answer { IfSome result (λ answer. IsSomeAnd (lookup (nat_eq key) blocks.now.entries)
            (λ block. AnswersRequest request (Ok block) answer)) }
    {
        match blocks.peek_mru() {
            Some((front, block)) if *front == key => Some(answer_request(block, request)),
            _ => None,
        }
    }

    // What it wants of the block with this key, if there is one. That block goes to the front.
    #[inline(always)]
    fn answer_from(
        blocks: &mut LruCache<usize, OwnedBytes>,
        key: usize,
        request: BlockRequest,
    ) -> Option<Result<OwnedBytes, StoreError>>
        ensures entries { blocks.new ≡ lru_cache (promoted (nat_eq key) blocks.old.entries) blocks.old.cap }
        ensures answer { MatchOption result (lookup (nat_eq key) blocks.old.entries ≡ None)
            (λ answer. IsSomeAnd (lookup (nat_eq key) blocks.old.entries)
            (λ block. AnswersRequest request (Ok block) answer)) }
    {
        if let Some(answer) = RecentBlocks::answer_front(blocks, key, request) {
            return Some(answer);
        }
        let block = blocks.get(&key)?;
        Some(answer_request(block, request))
    }

    #[inline(always)]
    fn answer(
        &mut self,
        key: usize,
        request: BlockRequest,
    ) -> Option<Result<OwnedBytes, StoreError>>
        ensures capacity { capacity_of self.new.blocks ≡ capacity_of self.old.blocks }
        ensures entries { entries_of self.new.blocks ≡ promoted (nat_eq key) (entries_of self.old.blocks) }
        ensures answer { MatchOption result (lookup (nat_eq key) (entries_of self.old.blocks) ≡ None)
            (λ answer. IsSomeAnd (lookup (nat_eq key) (entries_of self.old.blocks))
            (λ block. AnswersRequest request (Ok block) answer)) }
    {
        match &mut self.blocks {
            Some(blocks) => RecentBlocks::answer_from(blocks, key, request),
            None => None,
        }
    }

    // Whether there was memory to put the block in front.
    fn put_front(blocks: &mut LruCache<usize, OwnedBytes>, key: usize, block: OwnedBytes) -> bool
        requires { lookup (nat_eq key) blocks.old.entries ≡ None }
        ensures cap { blocks.new.cap ≡ blocks.old.cap }
        ensures room { 0 < blocks.old.cap }
        ensures entries { blocks.new.entries
            ≡ (if result then (key, block) ∷ take (blocks.old.cap - 1) blocks.old.entries else blocks.old.entries) }
    {
        // The clauses of `len` say that the capacity is not 0.
        let _len = blocks.len();
        blocks.put(key, block).is_ok()
    }

    // Whether the block is kept.
    fn put(&mut self, key: usize, block: OwnedBytes) -> bool
        requires { lookup (nat_eq key) (entries_of self.old.blocks) ≡ None }
        ensures capacity { capacity_of self.new.blocks ≡ capacity_of self.old.blocks }
        ensures entries { entries_of self.new.blocks
            ≡ with_pair (capacity_of self.old.blocks) key block result (entries_of self.old.blocks) }
    {
        match &mut self.blocks {
            Some(blocks) => RecentBlocks::put_front(blocks, key, block),
            None => false,
        }
    }
}
