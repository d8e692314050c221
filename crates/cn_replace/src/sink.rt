// Where a text is written, piece by piece.
ghost use Rattle.std.specs.Prelude.{◌++◌, [], List, ℕ, OnOk};

use std::alloc::AllocError;

/// Where a text is written, piece by piece: a string that grows, or a `Buffer`.
pub trait Sink {
    /// Why a piece cannot be written.
    type Error: Drop;

    // These bytes were written to it; its state before and after.
    ghost took: { Self → Self → List ℕ → Type 0 };

    /// Writes a piece after those written so far. After an error its contents are not specified.
    fn put(&mut self, piece: &str) -> Result<(), Self::Error>
        ensures { OnOk result (took self.old self.new piece.now) };

    // Nothing was written.
    ghost took_none: { (sink : Self) → took sink sink [] };

    // Two pieces that were written are one piece.
    ghost took_both: { (old mid new : Self) (first second : List ℕ) → took old mid first
        → took mid new second → took old new (first ++ second) };
}

impl Sink for String {
    type Error = AllocError;

    ghost use Rattle.std.specs.Prelude.{string_bytes};
    ghost use Rattle.cn_replace.specs.SinkLaws.{AppendsTo-none, AppendsTo-both};
    ghost use Rattle.cn_replace.specs.Sinks.{AppendsTo};

    ghost took = { λ old new bytes. AppendsTo (string_bytes old) (string_bytes new) bytes };

    ghost took_none = { λ sink. AppendsTo-none (string_bytes sink) };

    ghost took_both = { λ old mid new first second. AppendsTo-both _ _ _ first second };

    fn put(&mut self, piece: &str) -> Result<(), AllocError> {
        self.push_str(piece)
    }
}
