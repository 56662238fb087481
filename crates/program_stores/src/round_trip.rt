//! What is packed is printed again.

ghost use Rattle.std.specs.Prelude.{map, IfSome, IsTrue, OnOk};
ghost use Rattle.std.specs.Io.KnownBytes.{Appends};
ghost use Rattle.document_framing.specs.Feeding.{all_documents};
ghost use Rattle.document_framing.specs.Framings.{framed};
ghost use Rattle.document_framing.specs.Inputs.{inputs_of};

use crate::cat::Printing;
use crate::pack::{PackingOptions, pack};
use docstore::laws;
use document_framing::{DocumentForm, InputFiles};
use program_base::failure::{Failure, with_file};
use program_base::output_path::OutputPath;
use program_base::store_file::StorePath;
use program_base::store_output::OutputPlace;
use std::io::Write;
use store_commands::StoreShape;
use store_files::SystemFiles;

/// Packs the documents of inputs into a store, as `pack` does, and prints that store, as `cat` does. What is printed is
/// what was put in: exactly the documents of the inputs, in order, each in its frame. This holds of every system that
/// keeps its promises, where it is known what the inputs hold and what the output has.
///
/// # Errors
///
/// Those of `pack`, and then those of `cat`.
pub fn pack_and_cat<S: SystemFiles, F: InputFiles + Drop, W: Write>(
    rt: &HostRuntime,
    system: S,
    files: F,
    output: OutputPath<'_>,
    shape: StoreShape,
    paths: &[&str],
    options: PackingOptions,
    printed: &mut W,
) -> Result<(), Failure>
    ensures { IsTrue S.honest → OnOk result (IfSome (all_documents options.framing
        (inputs_of (F.holds files) (map (λ path. path.now) paths.now)))
        (λ documents. Appends (W.contents printed.old) (W.contents printed.new) (framed options.framing documents))) }
{
    laws::stores_are_apart();
    let alloc = rt.alloc();
    let place = pack(rt, system, files, output, shape, paths, options)?;
    let OutputPlace { folder, name } = Box::into_inner(place);
    let path = with_file(alloc, output.path, folder.path_at(name.as_str()))?;
    let store = StorePath {
        path: path.as_str(),
        is_tantivy: false,
    };
    let printing = Printing {
        form: DocumentForm::Framed(options.framing),
        without: &[],
        keeps_going: false,
    };
    let given = printing.print(alloc, folder.system(), store, printed);
    let _damaged = with_file(alloc, store.path, given)?;
    Ok(())
}
