//! The end of a file of version 2: its index and its footer.

ghost use Rattle.std.specs.Prelude.{◌≡◌, ◌≤◌, ◌++◌, true, replicate, OnOk, OnErr, IfErr};
ghost use Rattle.store_base.specs.Counts.{HasRisen};
ghost use Rattle.store_base.specs.Outputs.{terminated_once};
ghost use Rattle.layered_index.specs.Layers.{index_part};
ghost use Rattle.store_format.specs.Footer.{footer};
ghost use Rattle.docstore.specs.BlockOutput.{IsEndRefusal};

use docstore::{
    BinarySerializable, DocStoreVersion, SkipIndexBuilder, StoreError, TerminatingWrite, WriteFault,
};

/// Writes an index and the footer of a file whose data has `offset` bytes, and ends the output.
pub(crate) fn write_end<W: TerminatingWrite>(
    index: SkipIndexBuilder,
    offset: u64,
    output: &mut W,
) -> Result<(), StoreError>
    ensures ok { OnOk result (W.content output.new ≡ W.content output.old
        ++ index_part index.period index.checkpoints ++ footer 2 offset 0 (replicate 15 0)) }
    ensures terminated { OnOk result (W.termination output.new
        ≡ terminated_once true (W.content output.new) (W.termination output.old)) }
    ensures err { IfErr result (λ e. IsEndRefusal e (W.content output.old) (W.content output.new)
        (W.termination output.old) (W.termination output.new) (W.failures output.old) (W.failures output.new)) }
    ensures count { W.failures output.old ≤ W.failures output.new }
{
    index.serialize_into(output)?;
    write_footer(offset, output)?;
    output.terminate()?;
    Ok(())
}

// Writes the footer of version 2 of a file whose index begins at this byte.
fn write_footer<W: TerminatingWrite>(offset: u64, output: &mut W) -> Result<(), WriteFault>
    ensures ok { OnOk result (W.content output.new
        ≡ W.content output.old ++ footer 2 offset 0 (replicate 15 0)) }
    ensures fault { OnErr result (HasRisen (W.failures output.old) (W.failures output.new)) }
    ensures termination { W.termination output.new ≡ W.termination output.old }
    ensures count { W.failures output.old ≤ W.failures output.new }
{
    DocStoreVersion::V2.serialize(output)?;
    offset.serialize(output)?;
    // The kind of raw blocks, and fifteen reserved bytes.
    output.write_all(&[0u8; 16])
}
