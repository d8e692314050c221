// Which rows of a column are present.
ghost use Rattle.std.specs.Prelude.{◌≡◌, ◌+◌, ◌^◌, ◌<◌, slice_get};
ghost use Rattle.cn_columns.specs.Bitmaps.{bit_if, is_present};

/// Which rows are present: a bit for each, from the least bit of a byte on, and 1 for a present
/// row. `first` is the bit of the first row. A row beyond the bitmap is present, so with an empty
/// bitmap all rows are.
#[derive(Clone, Copy)]
pub struct Presence<'a> {
    pub bitmap: &'a [u8],
    pub first: usize,
}

// A byte of a bitmap; `None` beyond its end.
#[inline(always)]
fn byte_at(bitmap: &[u8], index: usize) -> Option<u8>
    ensures { result ≡ slice_get bitmap.now index }
{
    bitmap.get(index).copied()
}

// A bit of a byte, if there is one.
#[inline(always)]
fn bit_if(byte: Option<u8>, bit: usize) -> bool
    requires { bit < 8 }
    ensures { result ≡ bit_if byte bit }
{
    match byte {
        Some(byte) => (byte >> bit) % 2 == 1,
        None => true,
    }
}

impl Presence<'_> {
    /// Whether a row is present.
    #[inline(always)]
    pub fn has(self, row: usize) -> bool
        requires { row < 2 ^ 63 }
        ensures { result ≡ is_present self.entry.bitmap.now (self.entry.first + row) }
    {
        let bit = self.first % 8 + row;
        bit_if(byte_at(self.bitmap, self.first / 8 + bit / 8), bit % 8)
    }
}
