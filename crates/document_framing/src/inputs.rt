//! Documents of inputs that are opened and read one after the other.

ghost use Rattle.std.specs.Prelude.{◌≡◌, ◌∷◌, ℕ, List, map, IfErr, IfOk, IfSome, OnOk};
ghost use Rattle.std.specs.Io.Buffered.{reader_remaining};
ghost use Rattle.document_framing.specs.Feeding.{EndsFeed, Feeds, FeedsAll, IsOpened, all_documents};
ghost use Rattle.document_framing.specs.Inputs.{inputs_of};

use crate::fault::FramingFault;
use crate::feeding::{DocumentSink, FeedError, feed};
use crate::framing::Framing;
use crate::input_files::{InputFiles, STANDARD_INPUT};
use std::alloc::Global;
use std::io;
use std::io::{BufReader, Read};

// How many bytes of an input are read at once.
const BUFFER_SIZE: usize = 1 << 16;

/// Why an input gave no further document, and which one in the list of the inputs it is.
#[derive(Drop)]
pub struct InputFault {
    pub place: usize,
    pub fault: FramingFault,
}

// An input through a buffer.
fn buffered<R: Read + Drop>(alloc: Global, input: R) -> io::Result<BufReader<R>>
    ensures { IfOk result (λ reader. reader_remaining R.remaining reader ≡ R.remaining input) }
{
    BufReader::with_capacity(alloc, BUFFER_SIZE, input)
}

// Opens an input.
fn open_input<F: InputFiles>(
    alloc: Global,
    files: &mut F,
    path: &str,
) -> io::Result<BufReader<F::Input>>
    ensures { (others : List (List ℕ)) → IfOk result (λ input. IfSome
        (inputs_of (F.holds files.old) (path.now ∷ others)) (λ all. IsOpened all
        (reader_remaining F.Input.remaining input) (inputs_of (F.holds files.new) others))) }
{
    if path == STANDARD_INPUT {
        return buffered(alloc, files.standard_input());
    }
    buffered(alloc, files.open(path)?)
}

// Gives a sink each document of an input, the one at this place in the list.
fn feed_input<F: InputFiles, S: DocumentSink>(
    alloc: Global,
    framing: Framing,
    files: &mut F,
    place: usize,
    path: &str,
    sink: &mut S,
    room: &mut Vec<u8>,
) -> Result<(), FeedError<InputFault, S::Error>>
    ensures fed { (others : List (List ℕ)) → OnOk result (Feeds S.adds
        (all_documents framing (inputs_of (F.holds files.old) (path.now ∷ others)))
        (all_documents framing (inputs_of (F.holds files.new) others)) sink.old sink.new) }
    ensures ended { (others : List (List ℕ)) → IfErr result (EndsFeed S.adds S.fails
        (all_documents framing (inputs_of (F.holds files.old) (path.now ∷ others))) sink.old sink.new) }
{
    let mut input = match open_input(alloc, files, path) {
        Ok(input) => input,
        Err(error) => {
            let fault = FramingFault::Io(error);
            return Err(FeedError::Input(InputFault { place, fault }));
        }
    };
    let waits = !files.is_plain(path);
    match feed(framing, waits, &mut input, sink, room) {
        Ok(()) => Ok(()),
        Err(FeedError::Input(fault)) => Err(FeedError::Input(InputFault { place, fault })),
        Err(FeedError::Sink(error)) => Err(FeedError::Sink(error)),
    }
}

/// Gives a sink each document of these inputs, in order; `-` names the standard input. They are opened one after the
/// other, since there may be more of them than files may be open. An Ok says that it took exactly these, where it is
/// known what the inputs hold; an error, that it took the first of them.
///
/// # Errors
///
/// The first input's that is not opened or read, or the sink's, whichever came first.
pub fn feed_inputs<F: InputFiles, S: DocumentSink>(
    alloc: Global,
    framing: Framing,
    files: &mut F,
    paths: &[&str],
    sink: &mut S,
) -> Result<(), FeedError<InputFault, S::Error>>
    ensures fed { OnOk result (FeedsAll S.adds (all_documents framing
        (inputs_of (F.holds files.old) (map (λ path. path.now) paths.now))) sink.old sink.new) }
    ensures ended { IfErr result (EndsFeed S.adds S.fails (all_documents framing
        (inputs_of (F.holds files.old) (map (λ path. path.now) paths.now))) sink.old sink.new) }
{
    let mut room = Vec::new(alloc);
    for (place, path) in paths.iter().enumerate() {
        feed_input(alloc, framing, files, place, path, sink, &mut room)?;
    }
    Ok(())
}
