//! Why a file was not opened.
use store_base::{FileHandle, FileSlice, StoreError};

/// Why a file was not opened, and the file, with the range that it came with.
#[derive(Drop)]
pub struct OpenError<H: FileHandle> {
    pub error: StoreError,
    pub file: FileSlice<H>,
}

/// So that `?` returns the error alone. The file is lost.
impl<H: FileHandle> From<OpenError<H>> for StoreError {
    ghost use Rattle.std.specs.Prelude.{◌≡◌};

    ghost from_gives = { λ refusal e. e ≡ refusal.error };

    fn from(refusal: OpenError<H>) -> StoreError {
        let OpenError { error, .. } = refusal;
        error
    }
}
