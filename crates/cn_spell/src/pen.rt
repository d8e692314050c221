// Writes marks from the last to the first: once to count them, and once to fill a buffer.
ghost use Rattle.std.specs.Prelude.{◌≡◌, ℕ, ◌+◌, ◌-◌, ◌*◌, ◌^◌, ◌≤◌, ◌<◌, IsTrue, List, [], ◌∷◌, ◌++◌, drop, length, map, if◌then◌else◌};
ghost use Rattle.std.specs.Borrow.{GName};
ghost use Rattle.cn_core.specs.declared.script.ChineseVariant.{ChineseVariant};
ghost use Rattle.cn_core.specs.declared.case.ChineseCase.{ChineseCase};
ghost use Rattle.cn_core.specs.Characters.{rank, minus_char};
ghost use Rattle.cn_core.specs.Mark.{Mark, digit, unit};
ghost use Rattle.cn_core.specs.Printing.{mark_char};
ghost use Rattle.cn_spell.specs.declared.characters.Characters.{Characters};
ghost use Rattle.cn_spell.specs.Working.Sections.{kept};
ghost use Rattle.cn_spell.specs.Working.Room.{Counts, Shows};

use crate::characters::Characters;
use cn_core::Unit;
use std::marker::PhantomData;

/// Writes digits and units, from the last to the first.
pub trait Pen {
    // The number of bytes that it can still write.
    ghost left: { Self → ℕ };

    // The marks that it has written are these.
    ghost has_put: { Self → List Mark → Type 0 };

    // The part of its state that writing does not change.
    ghost Setting: { Type 0 };

    ghost setting: { Self → Setting };

    // Writes a digit if it is kept; there must be space for it in either case.
    fn put_digit_if(&mut self, is_kept: bool, value: u8)
        requires value { value < 10 }
        requires room { 3 ≤ left self.old }
        ensures setting { setting self.new ≡ setting self.old }
        ensures room { left self.new + 3 * length (kept is_kept (digit value)) ≡ left self.old }
        ensures marks { (marks : List Mark) → has_put self.old marks
            → has_put self.new (kept is_kept (digit value) ++ marks) };

    // Writes a unit if it is kept; there must be space for it in either case.
    fn put_unit_if(&mut self, is_kept: bool, value: Unit)
        requires room { 3 ≤ left self.old }
        ensures setting { setting self.new ≡ setting self.old }
        ensures room { left self.new + 3 * length (kept is_kept (unit (rank value)))
            ≡ left self.old }
        ensures marks { (marks : List Mark) → has_put self.old marks
            → has_put self.new (kept is_kept (unit (rank value)) ++ marks) };
}

/// Counts characters and writes none.
#[derive(Clone, Copy)]
pub struct Count {
    pub characters: usize,
}

// The count is the same in each script and case.
impl Pen for Count {
    ghost left = { λ count. 3 * (2 ^ 64 - 1 - count.characters) };

    ghost has_put = { λ count marks. (variant : ChineseVariant) → (case : ChineseCase)
        → Counts count.characters (map (mark_char variant case) marks) };

    ghost Setting = { Unit {0} };

    ghost setting = { λ count. tt };

    #[inline(always)]
    fn put_digit_if(&mut self, is_kept: bool, _value: u8) {
        self.characters += is_kept as usize;
    }

    #[inline(always)]
    fn put_unit_if(&mut self, is_kept: bool, _value: Unit) {
        self.characters += is_kept as usize;
    }
}

/// The way in which the three bytes of a character are written.
pub trait Front {
    // The number of spare bytes before a text.
    ghost spare: { ℕ };

    // Writes the three bytes of a word's character.
    fn write_word(bytes: &mut [u8], start: usize, word: &[u8; 4])
        requires spare { spare ≤ start }
        requires within { start + 3 ≤ length bytes.old }
        ensures length { length bytes.new ≡ length bytes.old }
        ensures text { drop start bytes.new ≡ drop 1 word.now ++ drop (start + 3) bytes.old };
}

/// Writes the three bytes alone.
pub struct Exact;

impl Front for Exact {
    ghost spare = { 0 };

    #[inline(always)]
    fn write_word(bytes: &mut [u8], start: usize, word: &[u8; 4]) {
        bytes[start] = word[1];
        bytes[start + 1] = word[2];
        bytes[start + 2] = word[3];
    }
}

/// Writes the whole word at once, and so needs a spare byte before the text.
pub struct OneSpare;

impl Front for OneSpare {
    ghost spare = { 1 };

    #[inline(always)]
    fn write_word(bytes: &mut [u8], start: usize, word: &[u8; 4]) {
        let loaded = *word;
        bytes[start - 1] = loaded[0];
        bytes[start] = loaded[1];
        bytes[start + 1] = loaded[2];
        bytes[start + 2] = loaded[3];
    }
}

/// The buffer of a text that is filled from its last character to its first: some free bytes, and
/// after them the end of the text, in these characters.
#[derive(Drop)]
pub struct Room<'a, F: Front> {
    bytes: &'a mut [u8],
    pub free: usize,
    pub characters: &'a Characters,
    front: PhantomData<F>,
    ghost within: { free ≤ length bytes.now },
    ghost apart: { F.spare ≤ free },
}

// The number of bytes that a character takes.
#[inline(always)]
fn taken(is_kept: bool) -> usize
    ensures { result ≡ (if is_kept then 3 else 0) }
{
    3 * is_kept as usize
}

impl<'a, F: Front> Room<'a, F> {
    /// A buffer in which all of these bytes are free.
    #[inline(always)]
    pub fn new(bytes: &'a mut [u8], characters: &'a Characters) -> Self
        requires { F.spare ≤ length bytes.old }
        ensures characters { result.characters.now ≡ characters.now }
        ensures lender { result.bytes.ghost_name ≡ bytes.entry.ghost_name }
        ensures bytes { result.bytes.now ≡ bytes.old }
        ensures free { result.free ≡ length bytes.old }
    {
        let free = bytes.len();
        Room {
            bytes,
            free,
            characters,
            front: PhantomData,
        }
    }

    /// Writes a word's character before the text if it is kept. Its bytes are written in either
    /// case, so that the code has no branch.
    #[inline(always)]
    pub fn put_if(&mut self, is_kept: bool, word: &[u8; 4])
        requires { 3 + F.spare ≤ self.old.free }
        ensures characters { self.new.characters.now ≡ self.old.characters.now }
        ensures lender { self.new.bytes.ghost_name ≡ self.old.bytes.ghost_name }
        ensures length { length self.new.bytes.now ≡ length self.old.bytes.now }
        ensures free { self.new.free ≡ (if is_kept then self.old.free - 3 else self.old.free) }
        ensures text { drop self.new.free self.new.bytes.now
            ≡ (if is_kept then drop 1 word.now ++ drop self.old.free self.old.bytes.now
            else drop self.old.free self.old.bytes.now) }
    {
        F::write_word(self.bytes, self.free - 3, word);
        self.free -= taken(is_kept);
    }

    /// Writes the minus sign if the number is negative.
    #[inline(always)]
    pub fn put_sign(&mut self, negative: bool)
        requires { IsTrue negative → 3 + F.spare ≤ self.old.free }
        ensures lender { self.new.bytes.ghost_name ≡ self.old.bytes.ghost_name }
        ensures shows { (rest : List ℕ) → Shows self.old.free self.old.bytes.now rest
            → Shows self.new.free self.new.bytes.now
            ((if negative then minus_char self.old.characters.now.variant ∷ [] else []) ++ rest) }
    {
        if negative {
            self.put_if(true, self.characters.minus());
        }
    }
}

impl<F: Front> Pen for Room<'_, F> {
    ghost left = { λ room. room.free - F.spare };

    ghost has_put = { λ room marks. Shows room.free room.bytes.now
        (map (mark_char room.characters.now.variant room.characters.now.case) marks) };

    // The bytes that it fills, and its characters.
    ghost Setting = { GName × Characters };

    ghost setting = { λ room. (room.bytes.ghost_name, room.characters.now) };

    #[inline(always)]
    fn put_digit_if(&mut self, is_kept: bool, value: u8) {
        self.put_if(is_kept, self.characters.digit(value));
    }

    #[inline(always)]
    fn put_unit_if(&mut self, is_kept: bool, value: Unit) {
        self.put_if(is_kept, self.characters.unit(value));
    }
}
