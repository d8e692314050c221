// A sink that keeps nothing.
ghost use Rattle.std.specs.Prelude.{ℕ};

use crate::Sink;
use std::convert::Infallible;

/// Drops what is written to it: it is used to find out whether there is something to write.
#[derive(Drop)]
pub struct Nothing {}

impl Sink for Nothing {
    type Error = Infallible;

    ghost took = { λ old new bytes. Unit };

    ghost took_none = { λ sink. tt };

    ghost took_both = { λ old mid new first second a b. tt };

    fn put(&mut self, piece: &str) -> Result<(), Infallible> {
        Ok(())
    }
}
