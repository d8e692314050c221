// A text that can count its characters and fill the end of a buffer.
ghost use Rattle.std.specs.Prelude.{◌≡◌, ℕ, ◌+◌, ◌*◌, ◌≤◌, List, length, encode_utf8_all, vec_len, vec_capacity, IfOk};
ghost use Rattle.cn_spell.specs.Working.Room.{Shows};
ghost use Rattle.cn_spell.specs.Writes.{Writes};

use crate::pen::{Exact, Front, OneSpare};
use std::alloc::{AllocError, Global};

/// The bytes of a buffer for the text of any number: three for each of a sign, 39 digits and 38
/// units, and a spare one before them.
pub const ROOM_BYTES: usize = 235;

/// A text whose characters are three bytes long each.
pub trait Text {
    // Its characters.
    ghost says: { Self → List ℕ };

    // The most bytes that they take.
    ghost most: { Self → ℕ };

    // The number of its characters.
    fn count(&self) -> usize
        ensures count { result ≡ length (says self.now) }
        ensures bytes { length (encode_utf8_all (says self.now)) ≡ 3 * length (says self.now) };

    // Writes them at the end of a buffer, from the last to the first, and returns where they begin.
    fn fill<F: Front>(&self, bytes: &mut [u8]) -> usize
        requires { 3 * length (says self.now) + F.spare ≤ length bytes.old }
        ensures { Shows result bytes.new (says self.now) };
}

// Allocates a vector of this many zeros, without spare capacity.
// Same answer (0 → 1 #2): each byte is overwritten before the text is read.
#[inline(always)]
fn zeros(alloc: Global, len: usize) -> Result<Vec<u8>, AllocError>
    ensures len { IfOk result (λ bytes. vec_len bytes ≡ len) }
    ensures capacity { IfOk result (λ bytes. vec_capacity bytes ≡ len) }
{
    let mut bytes = Vec::with_capacity(alloc, len)?;
    for _ in 0..len {
        bytes.push_reserved(0);
    }
    Ok(bytes)
}

/// Where a text is written: a new string, or a buffer that is lent.
pub trait Target {
    type Answer;

    // It received these characters, of at most this many bytes: the arguments are its state before
    // and after, and its answer.
    ghost took: { List ℕ → ℕ → Self → Self → Self.Answer → Type 0 };

    fn take<X: Text>(&mut self, text: &X) -> Self::Answer
        requires most { 3 * length (X.says text.now) ≤ X.most text.now }
        requires bound { X.most text.now ≤ 234 }
        ensures { took (X.says text.now) (X.most text.now) self.old self.new result };
}

/// A new string, with one allocation.
#[derive(Drop)]
pub struct NewString {
    pub alloc: Global,
}

impl Target for NewString {
    type Answer = Result<String, AllocError>;

    ghost took = { λ characters most old new result. IfOk result (Writes characters most) };

    #[inline(always)]
    fn take<X: Text>(&mut self, text: &X) -> Result<String, AllocError> {
        let mut bytes = zeros(self.alloc, 3 * text.count())?;
        text.fill::<Exact>(&mut bytes);
        Ok(unsafe { String::from_utf8_unchecked(bytes) })
    }
}

/// An array that is large enough for any text. The text is written at its end, and the answer is
/// where it begins.
impl Target for [u8; ROOM_BYTES] {
    type Answer = usize;

    ghost took = { λ characters most old new start. Shows start new characters };

    #[inline(always)]
    fn take<X: Text>(&mut self, text: &X) -> usize {
        text.fill::<OneSpare>(self)
    }
}
