//! Why a merge was refused.

use docstore::StoreError;
use thiserror::Error;

/// The first refusal of a merge, and the place of the input that it came at, the first at 0.
#[derive(Clone, Copy, Debug, PartialEq, Eq, Error)]
#[error("input {input}: {error}")]
pub struct MergeError {
    pub error: StoreError,
    pub input: usize,
}
