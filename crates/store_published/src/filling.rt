//! What fills a store.

ghost use Rattle.std.specs.Prelude.{◌≡◌, [], OnOk};
ghost use Rattle.docstore.specs.Laws.{taken};
ghost use Rattle.docstore.specs.Writer.{IsSameFile, blocks_in};

use docstore::{StoreWriter, TerminatingWrite};

/// What fills a new store: documents, or other stores.
pub trait Filling {
    ghost use Rattle.std.specs.Prelude.{◌≡◌, ℕ, [], List, OnOk, IfErr};
    ghost use Rattle.store_format.specs.Block.{Slot};
    ghost use Rattle.store_format.specs.StoreFile.{StoreBlock};
    ghost use Rattle.docstore.specs.Laws.{taken};
    ghost use Rattle.docstore.specs.Writer.{IsSameFile, blocks_in};

    /// Why it ends before all came.
    type Error: Drop;

    /// Which slots a store has that it filled, by what it was before and what it is then.
    ghost brings: { Self → Self → List Slot → Type 0 };

    /// Which blocks that store has, by the block size, if it says so.
    ghost cuts: { Self → ℕ → List StoreBlock → Type 0 } = { λ _ _ _. Unit {0} };

    /// Why it ends early, by what it was before and what it is then, and by the block size of the store.
    ghost refuses: { Self → Self → ℕ → Self.Error → Type 0 } = { λ _ _ _ _. Unit {0} };

    /// Puts into a new store what it brings.
    ///
    /// # Errors
    ///
    /// Why not all came. What came is in the writer.
    fn fill<W: TerminatingWrite>(&mut self, writer: &mut StoreWriter<W>) -> Result<(), Self::Error>
        requires new { taken writer.old ≡ [] }
        requires no_blocks { writer.old.output.finished ≡ [] }
        ensures brought { OnOk result (brings self.old self.new (taken writer.new)) }
        ensures cut { OnOk result (cuts self.old writer.old.block_size (blocks_in writer.new)) }
        ensures file { OnOk result (IsSameFile writer.old writer.new) }
        ensures refused { IfErr result (λ e. refuses self.old self.new writer.old.block_size e) };
}
