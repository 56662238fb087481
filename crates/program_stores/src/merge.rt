//! `merge`: writes a store of the documents of others, in order.

ghost use Rattle.std.specs.Prelude.{◌≡◌, ℕ, List, map, IfOk, IsOk, IsTrue, OnOk, string_bytes};
ghost use Rattle.std.specs.List.{AllByRecursion};
ghost use Rattle.docstore.specs.Writer.{IsSameFile};
ghost use Rattle.program_base.specs.StoresOnDisk.{HasStore, IsPublished, IsReaderOf};
ghost use Rattle.program_stores.specs.Merged.{words_for, IsReaderIn, AreKept, AreMerged, AddsSlots};
ghost use Rattle.store_files.specs.Disk.{replay, seen};
ghost use Rattle.store_files.specs.Paths.{IsPath};
ghost use Rattle.store_published.specs.Filling.{IsStoreOf};

use clap::{ArgMatches, Command};
use docstore::{DocStoreVersion, StoreError, StoreWriter, TerminatingWrite};
use program_base::arguments::{self, shape_of};
use program_base::command_words::{Argument, command_of};
use program_base::failure::{Failure, FailureCause, with_file};
use program_base::output_path::{OutputPath, output_of};
use program_base::progress::Progress;
use program_base::store_file::{StoreFile, StorePath, reader_of};
use program_base::store_output::{OutputPlace, end_output, output_place};
use program_base::word_files::IdWord;
use std::alloc::{AllocError, Global};
use std::mem;
use store_commands::StoreShape;
use store_commands::kept_documents::input_without;
use store_commands::merging::merge_store;
use store_files::{ReadAt, SystemFiles};
use store_published::Filling;

/// How many bytes of a store that is stacked are in memory at a time.
pub const PART_BYTES: usize = 1 << 22;

const EXAMPLE: &str = "\
Stores of at least six blocks that keep all documents are copied block by block; others document by document.

Example:
  zevkhadun merge all.store a.store b.store --without a.store=0,3..9";

/// The words of `merge`.
pub fn command<'a>(alloc: Global) -> Result<Command<'a>, AllocError> {
    command_of(
        alloc,
        "merge",
        "Write a store of the documents of other stores, in order",
        EXAMPLE,
        &[
            arguments::output(),
            Argument::Words {
                id: "INPUT",
                help: "The stores to merge",
            },
            Argument::Options {
                id: "without",
                value: "INPUT=IDS",
                help: "Documents of an input to leave out, as a.store=0,3..9, or a.store=@FILE with such words on its \
                       lines; may be given several times",
            },
            arguments::replace(),
            arguments::block_size(),
            Argument::Period,
            arguments::tantivy(),
            arguments::quiet(),
        ],
    )
}

// A word like `INPUT=IDS`, of which the documents may be in a file: `INPUT=@FILE`.
#[derive(Clone, Copy)]
struct InputWord<'w> {
    input: &'w str,
    ids: &'w str,
}

// The parts of a word like `INPUT=IDS`.
fn input_word(word: &str) -> Option<InputWord<'_>> {
    let (input, ids) = match word.split_once("=@") {
        Some((input, _)) => (input, word.get(input.len() + 1..)?),
        None => word.rsplit_once('=')?,
    };
    Some(InputWord { input, ids })
}

/// Documents of an input that are left out.
#[derive(Drop)]
pub struct LeftOut<'w> {
    pub input: &'w str,
    pub ids: IdWord,
}

/// What is merged, by the words.
#[derive(Clone, Copy)]
pub struct Merging<'m, 'w> {
    pub paths: &'m [&'w str],
    pub without: &'m [LeftOut<'w>],
    /// Whether each file has to be as tantivy's directory leaves it.
    pub is_tantivy: bool,
}

// A store that is merged, of this name.
#[derive(Drop)]
struct OpenInput<'w, F: ReadAt> {
    path: &'w str,
    file: StoreFile<F>,
}

impl<'m, 'w> Merging<'m, 'w> {
    // The words that leave documents out of an input.
    fn words_for(&self, alloc: Global, path: &str) -> Result<Vec<&'m str>, FailureCause>
        ensures { IfOk result (λ words. map (λ word. word.now) words.items ≡ words_for self.now.without.now path.now) }
    {
        let mut words = Vec::new(alloc);
        for left_out in self.without {
            if left_out.input == path {
                left_out.ids.add_to(&mut words)?;
            }
        }
        Ok(words)
    }

    // The file of the input of this name.
    fn file<S: SystemFiles>(
        &self,
        alloc: Global,
        system: &S,
        path: &str,
    ) -> Result<StoreFile<S::Reader>, FailureCause>
        ensures honest { IsTrue S.honest → IfOk result (λ file. IsTrue file.honest) }
        ensures content { IsTrue S.honest → (d n : List ℕ) → IsPath d n path.now → IfOk result (λ file.
            HasStore self.now.is_tantivy (seen (replay (S.changes system.now d) (S.start d)) n) file.content) }
    {
        StorePath {
            path,
            is_tantivy: self.is_tantivy,
        }
        .file(alloc, system)
    }

    // Opens an input, so that what keeps it from being merged is reported before anything is written.
    fn check_input<S: SystemFiles>(
        &self,
        alloc: Global,
        system: &S,
        path: &str,
    ) -> Result<(), FailureCause> {
        let words = self.words_for(alloc, path)?;
        let reader = reader_of(alloc, self.file(alloc, system, path)?)?;
        let version = reader.version();
        drop(input_without(alloc, Box::into_inner(reader), &words)?);
        if version == DocStoreVersion::V1 {
            return Err(FailureCause::Store(StoreError::OldVersion));
        }
        Ok(())
    }

    // Opens each input once.
    fn check_inputs<S: SystemFiles>(&self, alloc: Global, system: &S) -> Result<(), Failure> {
        for path in self.paths {
            with_file(alloc, path, self.check_input(alloc, system, path))?;
        }
        Ok(())
    }

    // The files of the inputs. No reader of one is there yet: it takes memory for its index.
    fn inputs<S: SystemFiles>(
        &self,
        alloc: Global,
        system: &S,
    ) -> Result<Vec<OpenInput<'w, S::Reader>>, Failure>
        ensures paths { IfOk result (λ inputs. map (λ input. input.path.now) inputs.items
            ≡ map (λ path. path.now) self.now.paths.now) }
        ensures honest { IsTrue S.honest
            → IfOk result (λ inputs. AllByRecursion (λ input. IsTrue input.file.honest) inputs.items) }
        ensures stores { IsTrue S.honest → IfOk result (λ inputs. AllByRecursion (λ input.
            (d n : List ℕ) → IsPath d n input.path.now → HasStore self.now.is_tantivy
            (seen (replay (S.changes system.now d) (S.start d)) n) input.file.content) inputs.items) }
    {
        let mut inputs = Vec::new(alloc);
        for path in self.paths {
            let file = with_file(alloc, path, self.file(alloc, system, path))?;
            inputs.push(OpenInput { path, file })?;
        }
        Ok(inputs)
    }

    // Adds the documents of an input to those of the writer.
    fn merge_input<F: ReadAt, W: TerminatingWrite>(
        &self,
        alloc: Global,
        writer: &mut StoreWriter<W>,
        progress: &mut Progress<'_>,
        input: OpenInput<'_, F>,
    ) -> Result<(), FailureCause>
        ensures file { OnOk result (IsSameFile writer.old writer.new) }
        ensures added { IsTrue input.entry.file.honest → OnOk result (AddsSlots
            (AreKept (IsReaderIn input.entry.file.content) (words_for self.now.without.now input.entry.path.now))
            writer.old writer.new) }
    {
        let words = self.words_for(alloc, input.path)?;
        let reader = reader_of(alloc, input.file)?;
        let bytes = reader.space_usage().total();
        let documents_before = writer.num_docs();
        drop(merge_store(alloc, writer, Box::into_inner(reader), &words, PART_BYTES)?);
        progress.add(writer.num_docs().saturating_sub(documents_before), bytes);
        Ok(())
    }

    // Adds the documents of each input to those of the writer.
    fn merge_inputs<F: ReadAt, W: TerminatingWrite>(
        &self,
        alloc: Global,
        writer: &mut StoreWriter<W>,
        progress: &mut Progress<'_>,
        inputs: Vec<OpenInput<'_, F>>,
    ) -> Result<(), Failure>
        ensures file { OnOk result (IsSameFile writer.old writer.new) }
        ensures added { AllByRecursion (λ input. IsTrue input.file.honest) inputs.entry.items → OnOk result (AddsSlots
            (AreMerged (λ input. IsReaderIn input.file.content) (λ input. words_for self.now.without.now input.path.now)
            inputs.entry.items) writer.old writer.new) }
    {
        for input in inputs {
            let path = input.path;
            let merged = self.merge_input(alloc, writer, progress, input);
            with_file(alloc, path, merged)?;
        }
        Ok(())
    }
}

// The usage error of a word of `--without` that names none of the inputs.
fn stray_failure(alloc: Global, word: &str) -> Failure {
    let text = match input_word(word) {
        Some(InputWord { input, .. }) => {
            format!(in alloc; "--without '{word}': none of the inputs is named '{input}'")
        }
        None => format!(in alloc; "--without '{word}': it must have the form INPUT=IDS"),
    };
    match text {
        Ok(text) => Failure::from(FailureCause::Words(text)),
        Err(error) => Failure::from(error),
    }
}

// The documents that a word leaves out of one of these inputs.
fn left_out_by<'w>(
    rt: &HostRuntime,
    paths: &[&str],
    word: &'w str,
) -> Result<LeftOut<'w>, Failure> {
    match input_word(word) {
        Some(InputWord { input, ids }) if paths.contains(&input) => Ok(LeftOut {
            input,
            ids: IdWord::read(rt, ids)?,
        }),
        _ => Err(stray_failure(rt.alloc(), word)),
    }
}

// The documents that words leave out of these inputs.
fn left_out_of<'w>(
    rt: &HostRuntime,
    paths: &[&str],
    words: &[&'w str],
) -> Result<Vec<LeftOut<'w>>, Failure> {
    let mut left_out = Vec::new(rt.alloc());
    for word in words {
        left_out.push(left_out_by(rt, paths, word)?)?;
    }
    Ok(left_out)
}

// The stores that are merged, as what fills a store.
#[derive(Drop)]
struct StoreFiles<'a, 'm, 'w, F: ReadAt> {
    alloc: Global,
    merging: Merging<'m, 'w>,
    // Those that are not merged yet.
    inputs: Vec<OpenInput<'w, F>>,
    progress: Progress<'a>,
}

/// They bring the documents of each input that its words keep, in order, if the files are honest.
impl<'a, 'm, 'w, F: ReadAt> Filling for StoreFiles<'a, 'm, 'w, F> {
    ghost use Rattle.std.specs.Prelude.{IsTrue};
    ghost use Rattle.std.specs.List.{AllByRecursion};
    ghost use Rattle.program_stores.specs.Merged.{words_for, IsReaderIn, AreMerged};

    type Error = Failure;

    ghost brings = { λ old new slots. AllByRecursion (λ input. IsTrue input.file.honest) old.inputs.items → AreMerged
        (λ input. IsReaderIn input.file.content) (λ input. words_for old.merging.without.now input.path.now)
        old.inputs.items slots };

    fn fill<W: TerminatingWrite>(&mut self, writer: &mut StoreWriter<W>) -> Result<(), Failure> {
        let inputs = mem::replace(&mut self.inputs, Vec::new(self.alloc));
        self.merging
            .merge_inputs(self.alloc, writer, &mut self.progress, inputs)
    }
}

/// Merges stores, and returns the place at which the one of them all was published. An Ok says that it has exactly the
/// documents of each store that its words keep, in the order of the paths, and that every crash leaves just this store
/// there.
pub fn merge<'a, 'm, 'w, S: SystemFiles>(
    rt: &'a HostRuntime,
    system: S,
    output: OutputPath<'_>,
    shape: StoreShape,
    merging: Merging<'m, 'w>,
    progress: Progress<'a>,
) -> Result<Box<OutputPlace<S>>, Failure>
    ensures merged { IsTrue S.honest → IfOk result (λ place. IsPublished (string_bytes place.value.name)
        (replay (S.changes place.value.folder.system place.value.folder.path) (S.start place.value.folder.path))
        (IsStoreOf (AreMerged (λ path reader. (d n : List ℕ) → IsPath d n path → IsReaderOf merging.entry.is_tantivy
        (seen (replay (S.changes system d) (S.start d)) n) reader) (words_for merging.entry.without.now)
        (map (λ path. path.now) merging.entry.paths.now)) (λ _. Unit {0}) shape.period)) }
{
    let alloc = rt.alloc();
    merging.check_inputs(alloc, &system)?;
    let mut stores = StoreFiles {
        alloc,
        merging,
        inputs: merging.inputs(alloc, &system)?,
        progress,
    };
    let mut place = output_place(rt, system, output, merging.paths)?;
    let outcome = place.publish(alloc, shape, &mut stores);
    end_output(rt, output.path, outcome, &stores.progress)?;
    Ok(place)
}

/// Writes the store.
pub fn run<S: SystemFiles>(
    rt: &HostRuntime,
    system: S,
    matches: &ArgMatches<'_>,
) -> Result<(), Failure> {
    let shape = shape_of(rt.alloc(), matches)?;
    let paths = matches.get_strs("INPUT").unwrap_or(&[]);
    let words = matches.get_strs("without").unwrap_or(&[]);
    let left_out = left_out_of(rt, paths, words)?;
    let merging = Merging {
        paths,
        without: &left_out,
        is_tantivy: matches.get_flag("tantivy"),
    };
    let output = output_of(rt.alloc(), matches)?;
    let progress = Progress::begin(rt, matches.get_flag("quiet"), None);
    drop(merge(rt, system, output, shape, merging, progress)?);
    Ok(())
}
