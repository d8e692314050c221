// Digits after a decimal point.
ghost use Rattle.std.specs.Prelude.{◌≡◌, ◌+◌, ◌*◌, ℕ, ◌≤◌, ◌<◌, length, map, encode_utf8, encode_utf8_all};
ghost use Rattle.cn_quantity_text.specs.Digits.{behind_point, last_digits};
ghost use Rattle.cn_core.specs.Buffers.{Prepends};

use cn_core::EndBuffer;

/// The characters that digits and the point are written in.
pub trait Hand {
    ghost point: { Self → ℕ };

    ghost character: { Self → ℕ → ℕ };

    // The most bytes of a character.
    ghost most: { ℕ };

    /// The point.
    fn point(&self) -> char
        ensures character { result ≡ point self.now }
        ensures bytes { length (encode_utf8 result) ≤ most };

    /// The character of a digit.
    fn digit(&self, digit: u8) -> char
        requires { digit < 10 }
        ensures character { result ≡ character self.now digit }
        ensures bytes { length (encode_utf8 result) ≤ most };
}

// Writes the last `count` digits of a number.
fn put_last_digits<H: Hand>(text: &mut EndBuffer, hand: &H, count: usize, number: u128)
    requires { H.most * count ≤ text.old.free }
    ensures put { Prepends text.old text.new
        (encode_utf8_all (map (H.character hand.now) (last_digits count number))) }
    ensures room { text.old.free ≤ text.new.free + H.most * count }
{
    let mut left = number;
    for _ in 0..count {
        text.put_char(hand.digit((left % 10) as u8));
        left /= 10;
    }
}

/// Writes a point and the last `count` digits of a number, or nothing if `count` is 0.
pub fn put_behind_point<H: Hand>(text: &mut EndBuffer, hand: &H, count: usize, number: u128)
    requires { H.most * (count + 1) ≤ text.old.free }
    ensures put { Prepends text.old text.new
        (encode_utf8_all (behind_point (H.point hand.now) (H.character hand.now) count number)) }
    ensures room { text.old.free ≤ text.new.free + H.most * (count + 1) }
{
    if count > 0 {
        put_last_digits(text, hand, count, number);
        text.put_char(hand.point());
    }
}
