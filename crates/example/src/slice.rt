//! Reads bytes in memory where they lie: nothing is opened.

use crate::in_memory::{print_text, written};
use docstore::StoreSlice;

/// Prints how many documents there are, and one of them.
pub fn print_slice(rt: &HostRuntime) -> anyhow::Result<()> {
    let file = written(rt.alloc(), &["apple", "banana", "cherry"])?;
    let store = StoreSlice::new(rt.alloc(), file.as_slice())?;
    let (banana, count) = (store.get(1)?, store.num_docs()?);
    println!(rt; "one of {count}")?;
    print_text(rt, "in place", banana)
}
