//! Reads bytes in memory by rows of their index.

use crate::in_memory::{print_text, written};
use docstore::{Row, StoreSlice};

const NO_ROW: Row = Row {
    end_doc: 0,
    guide: 0,
    end_byte: 0,
};

/// Prints where a document lies in a file, and the document.
pub fn print_outlined(rt: &HostRuntime) -> anyhow::Result<()> {
    let file = written(rt.alloc(), &["apple", "banana", "cherry"])?;
    let file = file.as_slice();
    let mut rows = [NO_ROW; 64];
    let head = StoreSlice::new(rt.alloc(), file)?.outline(&mut rows)?;
    let place = head.locate(file, &rows[..head.rows], 1)?;
    println!(rt; "at {}..{}", place.start, place.end)?;
    print_text(rt, "by rows", &file[place])
}
