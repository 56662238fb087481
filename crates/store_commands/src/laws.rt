//! What it means that a block is called sound. Each function does nothing: its clause is the law.
ghost use Rattle.store_commands.specs.Laws.{SoundBlocksAreOfDocuments, BlocksOfDocumentsAreSound};

/// A block that is called sound is the block of its documents, byte for byte: no other byte is in it.
pub fn sound_blocks_are_of_documents()
    ensures { SoundBlocksAreOfDocuments }
{}

/// The block of some documents is called sound.
pub fn blocks_of_documents_are_sound()
    ensures { BlocksOfDocumentsAreSound }
{}
