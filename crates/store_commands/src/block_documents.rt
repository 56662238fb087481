//! The documents of a block that was read.

ghost use Rattle.std.specs.Prelude.{◌≡◌, ◌<◌, ◌≤◌, ◌*◌, ℕ, length};
ghost use Rattle.store_format.specs.Block.{slot, damaged};

/// How many of a block's documents may be sound: in a block of few bytes, its table has no room for the others, which
/// are damaged.
pub fn documents_with_room(block: &[u8], documents: u32) -> u32
    ensures few { result ≤ documents }
    ensures room { 4 * result ≤ length block.now }
    ensures others { (k : ℕ) → result ≤ k → k < documents → slot block.now k ≡ damaged }
{
    match u32::try_from(block.len() / 4) {
        Ok(room) => documents.min(room),
        Err(_) => documents,
    }
}
