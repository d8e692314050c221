// A buffer that is filled from its start.
ghost use Rattle.std.specs.Prelude.{◌^◌, ◌<◌, ◌≤◌, take, length, IsUtf8};

mod methods;

/// A buffer that is lent for a text, and is filled from its start. Pieces are written to it as long
/// as all fit, and are counted whether they fit or not.
#[derive(Drop)]
pub struct Buffer<'a> {
    bytes: &'a mut [u8],
    /// The number of bytes of the text so far, at most the greatest `usize`.
    pub count: usize,
    ghost counted: { count < 2 ^ 64 },
    ghost small: { length bytes.now < 2 ^ 63 },
    ghost utf8: { count ≤ length bytes.now → ∥ IsUtf8 (take count bytes.now) ∥₁ },
}
