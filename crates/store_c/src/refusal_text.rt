//! The texts of refusals, as C calls for them.

ghost use Rattle.std.specs.Prelude.{◌≡◌, ◌+◌, ◌<◌, ◌≤◌, ◌∷◌, ◌++◌, length, drop};
ghost use Rattle.store_c.specs.Texts.{refusal_text};

// The text of a refusal's number.
fn text_of(number: u32) -> &'static str
    ensures text { result.now ≡ refusal_text number }
    ensures few { length result.now < 64 }
{
    match number {
        0 => "done",
        1 => "the file is shorter than a footer",
        2 => "the footer has an unknown version",
        3 => "the blocks are compressed",
        4 => "the index would begin after the footer's first byte",
        5 => "the index is not one of blocks that cover the data",
        6 => "the store has no document of this number",
        7 => "the block's table doesn't say where the document is",
        10 => "out of memory",
        11 => "a store of version 1 can't be stacked",
        13 => "a block would have 2^32 bytes or more",
        14 => "there would be 2^32 documents or more",
        16 => "the period is below 2 or above 64",
        32 => "an array of the caller is too short",
        33 => "the table is not the one of the file",
        34 => "the open block has documents; end it first",
        35 => "the writer or its table is not as these calls left it",
        36 => "the end of the file lacks the footer or a part of the index",
        37 => "the block doesn't have the document, or has another length",
        _ => "unknown refusal",
    }
}

/// Writes the text of a refusal, of fewer than 64 bytes, and a zero byte after it. It returns how many bytes come
/// before the zero. Where they have no room nothing is written.
#[unsafe(no_mangle)]
pub extern "C" fn zevk_refusal_text(number: u32, text: &mut [u8]) -> usize
    ensures len { result ≡ length (refusal_text number) }
    ensures few { result < 64 }
    ensures written { result < length text.old
        → text.new ≡ refusal_text number ++ 0 ∷ drop (result + 1) text.old }
    ensures no_room { length text.old ≤ result → text.new ≡ text.old }
{
    let words = text_of(number).as_bytes();
    if words.len() < text.len() {
        text[..words.len()].copy_from_slice(words);
        text[words.len()] = 0;
    }
    words.len()
}
