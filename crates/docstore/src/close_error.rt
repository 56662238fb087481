//! Why a writer was not closed.

ghost use Rattle.std.specs.Prelude.{◌≡◌};
ghost use Rattle.store_base.specs.Outcome.{after_first_byte};

use store_base::{Cause, StoreError};

/// Why a writer was not closed, and its output.
#[derive(Drop)]
pub struct CloseError<W> {
    pub error: StoreError,
    pub output: W,
}

impl<W: Drop> CloseError<W> {
    // The same after bytes were written: to run out of memory is then a failure.
    pub(crate) fn after_bytes(self) -> CloseError<W>
        ensures error { result.error ≡ after_first_byte self.error }
        ensures output { result.output ≡ self.output }
    {
        let CloseError { error, output } = self;
        let error = match error {
            StoreError::Memory => StoreError::Failed(Cause::Memory),
            other => other,
        };
        CloseError { error, output }
    }
}

/// So that `?` returns the error alone. The output is lost.
impl<W: Drop> From<CloseError<W>> for StoreError {
    ghost use Rattle.std.specs.Prelude.{◌≡◌};

    ghost from_gives = { λ refusal e. e ≡ refusal.error };

    fn from(refusal: CloseError<W>) -> StoreError {
        let CloseError { error, .. } = refusal;
        error
    }
}
