//! What was passed to a folder, for clauses alone.

ghost use Rattle.std.specs.Prelude.{◌≡◌, ◌++◌, ℕ, List, []};
ghost use Rattle.std.specs.Borrow.{ftrue};

use std::marker::Model;

/// Bytes that were passed to a folder. It takes no memory.
#[derive(Drop)]
pub(crate) struct Sent {
    pub ghost bytes: { List ℕ },
}

impl Model for Sent {
    ghost also_owns = { λ _. ftrue };
}

/// Bytes that are passed to a folder.
#[derive(Clone, Copy, Drop)]
pub(crate) struct Piece<'a> {
    pub bytes: &'a [u8],
}

impl Sent {
    /// Nothing yet.
    pub(crate) fn new() -> Sent
        ensures { result.bytes ≡ [] }
    {
        Sent {}
    }

    /// Those, and these after them.
    #[inline(always)]
    pub(crate) fn and(&self, _piece: &Piece<'_>) -> Sent
        ensures { result.bytes ≡ self.now.bytes ++ _piece.now.bytes.now }
    {
        Sent {}
    }
}
