ghost use Rattle.std.specs.Prelude.{◌≡◌, ◌<◌, IfSome};
ghost use Rattle.cheque.specs.Digits.{digit_of};

/// The digit that a character is; `None` if it is not one.
pub fn digit_of(character: char) -> Option<u8>
    ensures value { result ≡ digit_of character }
    ensures below { IfSome result (λ digit. digit < 10) }
{
    if character.is_ascii_digit() {
        Some((character as u32 - '0' as u32) as u8)
    } else {
        None
    }
}
