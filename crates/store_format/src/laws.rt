//! Laws of blocks and of whole files. Each function takes nothing and does nothing: its clause is the law.
ghost use Rattle.store_format.specs.Laws.{FilesAreStores, StoresAreApart, BlocksHoldDocuments};
ghost use Rattle.store_format.specs.Laws.{BlocksHaveTheirLengths, LongestDocuments};

/// The slots of a block that is made of documents are these documents.
pub fn blocks_hold_documents()
    ensures { BlocksHoldDocuments }
{}

/// How long a block is, and which documents are too long for one.
pub fn blocks_have_their_lengths()
    ensures lengths { BlocksHaveTheirLengths }
    ensures longest { LongestDocuments }
{}

/// The file that is written for blocks is a store of them.
pub fn files_are_stores()
    ensures { FilesAreStores }
{}

/// A file is a store of one version, one period and one list of blocks at most.
pub fn stores_are_apart()
    ensures { StoresAreApart }
{}
