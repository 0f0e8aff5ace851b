//! Bytes that crossed a link one way, for proofs alone.

ghost use Rattle.std.specs.Prelude.{◌≡◌, List, ℕ, [], ◌++◌};
ghost use Rattle.std.specs.Borrow.{ftrue};

use std::marker::Model;

/// The bytes, in order. Only proofs read them: they take no memory, and the calls do nothing when they run.
#[derive(Drop)]
pub(crate) struct Crossed {
    ghost bytes: { List ℕ },
}

impl Model for Crossed {
    ghost also_owns = { λ _. ftrue };
}

impl Crossed {
    /// None.
    pub(crate) fn new() -> Crossed
        ensures { result.bytes ≡ [] }
    {
        Crossed {}
    }

    /// A piece crossed.
    pub(crate) fn add(&mut self, _piece: &[u8])
        ensures { self.new.bytes ≡ self.old.bytes ++ _piece.now }
    {}
}
