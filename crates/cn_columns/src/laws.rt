//! What users can count on, as the contract of a function that does nothing.
ghost use Rattle.std.specs.Prelude.{◌≡◌, ◌+◌, ◌++◌, ℕ, List, drop, length, take};
ghost use Rattle.cn_columns.specs.Columns.{Row, ends, rows_of, texts};

/// A column can be cut at each row: the rows, the texts and the ends of the others are those of a
/// column that begins there.
///
/// For callers whose buffer is too small, who go on in the next call: the texts are the same as
/// from one call.
pub fn columns_can_be_cut()
    ensures rows { (row : ℕ → Row) (missing : ℕ) (bitmap : List ℕ) (bit : ℕ) (values : List ℕ) (cut : ℕ)
        → drop cut (rows_of row missing bitmap bit values)
        ≡ rows_of row missing bitmap (bit + cut) (drop cut values) }
    ensures texts { (rows : List Row) (cut : ℕ)
        → texts rows ≡ texts (take cut rows) ++ texts (drop cut rows) }
    ensures ends { (start : ℕ) (rows : List Row) (cut : ℕ)
        → ends start rows ≡ ends start (take cut rows)
        ++ ends (start + length (texts (take cut rows))) (drop cut rows) }
{}
