//! Why an input gives no further document.

use std::alloc::AllocError;
use std::io;

/// Why an input gives no further document.
#[derive(Debug, Drop)]
pub enum FramingFault {
    /// A read failed, or memory ran out.
    Io(io::Error),
    /// The input ends inside a document.
    Cut,
    /// More reads than a u64 counts did not reach an end.
    Endless,
}

impl From<io::Error> for FramingFault {
    ghost use Rattle.std.specs.Prelude.{◌≡◌};
    ghost use Rattle.document_framing.specs.declared.fault.FramingFault.TheVariants.{Io};

    ghost from_gives = { λ error fault. fault ≡ Io error };

    fn from(error: io::Error) -> FramingFault {
        FramingFault::Io(error)
    }
}

impl From<AllocError> for FramingFault {
    fn from(error: AllocError) -> FramingFault {
        FramingFault::Io(io::Error::from(error))
    }
}
