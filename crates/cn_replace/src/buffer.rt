// A buffer that the caller lends as a sink.
ghost use Rattle.cn_core.specs.Buffers.{Appends};

use crate::Sink;
use cn_core::Buffer;
use std::convert::Infallible;

impl Sink for Buffer<'_> {
    type Error = Infallible;

    ghost use Rattle.cn_core.specs.BufferLaws.{Appends-none, Appends-both};

    ghost took = { λ old new bytes. Appends old new bytes };

    ghost took_none = { λ sink. Appends-none sink };

    ghost took_both = { λ old mid new first second. Appends-both old mid new first second };

    fn put(&mut self, piece: &str) -> Result<(), Infallible> {
        Buffer::put(self, piece);
        Ok(())
    }
}
