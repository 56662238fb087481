//! The names of a log's files.

ghost use Rattle.std.specs.Prelude.{◌≡◌, ◌≢◌, ◌≤◌, ◌<◌, ◌++◌, ◌^◌, ℕ, OnOk, IfOk, IfSome, IfNone, string_bytes};
ghost use Rattle.store_folder.specs.Publishing.{part};
ghost use Rattle.segmented_log.specs.Names.{digits, segment_name, cut_name};

use std::alloc::{AllocError, Global};

/// The name of the tail.
pub const TAIL: &str = "tail.log";

/// The name of the file beside the tail.
pub(crate) const TAIL_PART: &str = "tail.log.part";

// Writes the last digits of a number.
fn push_digits(name: &mut String, width: u32, number: u64) -> Result<(), AllocError>
    ensures { OnOk result (string_bytes name.new ≡ string_bytes name.old ++ digits width number) }
{
    if width == 0 {
        return Ok(());
    }
    push_digits(name, width - 1, number / 10)?;
    let digit = (number % 10) as u8;
    name.push((b'0' + digit) as char)?;
    Ok(())
}

/// The name of the segment whose first record has this number.
#[tactic(auto, unfolding(crate::specs::Names::segment_name))]
pub fn segment_file(alloc: Global, first: u64) -> Result<String, AllocError>
    ensures { IfOk result (λ name. string_bytes name ≡ segment_name first) }
{
    let mut name = String::new(alloc);
    push_digits(&mut name, 20, first)?;
    name.push_str(".store")?;
    Ok(name)
}

/// The name of the file of this number that keeps bytes which were cut off a tail.
#[tactic(auto, unfolding(crate::specs::Names::cut_name))]
pub(crate) fn cut_file(alloc: Global, number: u64) -> Result<String, AllocError>
    ensures { IfOk result (λ name. string_bytes name ≡ cut_name number) }
{
    let mut name = String::from_str(alloc, "tail.cut.")?;
    push_digits(&mut name, 20, number)?;
    Ok(name)
}

/// The name of the file beside one of this name.
pub(crate) fn name_beside(alloc: Global, name: &String) -> Result<String, AllocError>
    ensures { IfOk result (λ beside. string_bytes beside ≡ string_bytes name.now ++ part) }
{
    let mut beside = String::from_str(alloc, name.as_str())?;
    beside.push_str(".part")?;
    Ok(beside)
}
