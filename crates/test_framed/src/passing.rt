//! What is packed of inputs in memory is printed.

ghost use Rattle.std.specs.Prelude.{◌≡◌, Some, IfOk, IfSome, map};
ghost use Rattle.document_framing.specs.Feeding.{all_documents};
ghost use Rattle.document_framing.specs.Framings.{framed};
ghost use Rattle.document_framing.specs.Inputs.{inputs_of};
ghost use Rattle.test_framed.specs.Named.{readable};

use crate::inputs::MemInputs;
use document_framing::Framing;
use program_base::failure::Failure;
use program_base::output_path::OutputPath;
use program_stores::pack::PackingOptions;
use program_stores::round_trip::pack_and_cat;
use store_commands::StoreShape;
use system_model::MemSystem;

/// Packs inputs in memory into a store of a system in memory, and prints its documents: exactly those of the inputs
/// come, in order, each in its frame.
pub fn passed(
    rt: &HostRuntime,
    framing: Framing,
    shape: StoreShape,
    inputs: MemInputs<'_>,
    paths: &[&str],
) -> Result<Vec<u8>, Failure>
    ensures { IfOk result (λ printed. IfSome (all_documents framing
        (inputs_of (Some (readable inputs.entry.files.now inputs.entry.standard.now))
        (map (λ path. path.now) paths.now)))
        (λ documents. printed.items ≡ framed framing documents)) }
{
    let system = MemSystem::new(rt.alloc(), "folder")?;
    let output = OutputPath {
        path: "folder/a.store",
        replaces: false,
    };
    let options = PackingOptions {
        framing,
        expected: None,
        is_quiet: true,
    };
    let mut printed = Vec::new(rt.alloc());
    pack_and_cat(
        rt,
        system,
        inputs,
        output,
        shape,
        paths,
        options,
        &mut printed,
    )?;
    Ok(printed)
}
