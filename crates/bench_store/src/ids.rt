//! The documents that are asked for.
ghost use Rattle.std.specs.Prelude.{◌<◌};

use crate::generator::{Generator, IDS_SEED};
use docstore::DocId;
use std::alloc::{AllocError, Global};

// One of how many ids is asked for from the whole store.
const WHOLE_EVERY: u64 = 16;

/// How the documents that are asked for are chosen.
#[derive(Clone, Copy)]
pub enum Order {
    /// Each as often as the others.
    Uniform,
    /// Mostly one of the first few.
    Hot(u64),
    /// The first ones the more often.
    Zipf,
    /// One after the other.
    Sequential,
}

fn below(generator: &mut Generator, end: u64) -> u64
    requires { 0 < end }
{
    generator.next() % end
}

fn next_id(generator: &mut Generator, order: Order, i: u64, num_docs: u64) -> u64
    requires { 0 < num_docs }
{
    match order {
        Order::Uniform => below(generator, num_docs),
        Order::Hot(hot) => {
            if generator.next() % WHOLE_EVERY == 0 {
                below(generator, num_docs)
            } else {
                below(generator, hot.min(num_docs).max(1))
            }
        }
        Order::Zipf => {
            let digits = u64::from(u64::BITS - num_docs.leading_zeros());
            let shift = below(generator, digits.max(1)).min(63);
            below(generator, (num_docs >> shift).max(1))
        }
        Order::Sequential => i % num_docs,
    }
}

/// This many ids, below the number of documents.
pub fn ids(alloc: Global, order: Order, count: u64, num_docs: u32) -> Result<Vec<DocId>, AllocError>
    requires { 0 < num_docs }
{
    let mut generator = Generator::new(IDS_SEED);
    let mut ids = Vec::new(alloc);
    for i in 0..count {
        let id = next_id(&mut generator, order, i, u64::from(num_docs));
        ids.push((id % u64::from(num_docs)) as u32)?;
    }
    Ok(ids)
}
