// A buffer that is filled from its end.
ghost use Rattle.std.specs.Prelude.{◌≤◌, drop, length, IsUtf8};

mod methods;

/// A buffer that is lent for a text, and is filled from its end: some free bytes, and the text after
/// them.
#[derive(Drop)]
pub struct EndBuffer<'a> {
    bytes: &'a mut [u8],
    pub free: usize,
    ghost within: { free ≤ length bytes.now },
    ghost utf8: { ∥ IsUtf8 (drop free bytes.now) ∥₁ },
}
